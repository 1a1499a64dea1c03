//! The text of a tree in which a node is replaced, made of the text of the tree before.
ghost use Rattle.std.specs.Prelude.{◌≡◌, ◌<◌, ◌≤◌, ◌++◌, ◌^◌, map, take, drop, length, IfOk, IsTrue, MatchOption, OnOk};
ghost use Rattle.std.specs.Prelude.{◌+◌, ◌-◌, All, Some, false};
ghost use Rattle.std.specs.Bool.{Decides};
ghost use Rattle.std.specs.List.{AllByRecursion};
ghost use Rattle.std.specs.Str.{IsCharBoundary};
ghost use Rattle.psg_terms.specs.Words.{goes_on_word};
ghost use Rattle.psg_lexis.specs.Classes.{is_symbol};
ghost use Rattle.psg_grammar.specs.declared.types.Kind.{Kind};
ghost use Rattle.psg_grammar.specs.Lookups.{operator_at};
ghost use Rattle.psg_grammar.specs.Sound.{IsSound};
ghost use Rattle.psg_grammar.specs.WellFormed.{WellFormed};
ghost use Rattle.psg_unparse.specs.Plain as plain;
ghost use Rattle.psg_unparse.specs.Plain.{AreAlike, IsPlainText, level_in};
ghost use Rattle.psg_unparse.specs.Splicing as splicing;
ghost use Rattle.psg_unparse.specs.Splicing.{CutsNone, FitsInPlace, IsFitting, IsOneLine, IsSmall};
ghost use Rattle.psg_unparse.specs.Splicing.{IsSpliceable, IsSplicing};
ghost use Rattle.psg_unparse.specs.Spans.{printed_of};
ghost use Rattle.psg_unparse.specs.declared.spans.Span.{Span as PlainSpan};

use crate::nodes::{PlainText, print_plain};
use crate::spans::{Printed, Span, place_of};
use psg_grammar::{Definition, op_level};
use psg_lexis::glues;
use psg_terms::{Seq, Txt};
use psg_tree::{Path, Shape, Tree, at};
use std::alloc::{AllocError, Global};

/// A text cut at a span.
#[derive(Clone, Copy)]
struct Parts<'a> {
    before: &'a str,
    own: &'a str,
    behind: &'a str,
}

/// Says whether a word goes on with the character.
fn goes_on(c: char) -> bool
    ensures { result ≡ goes_on_word c }
{
    glues(c, '_')
}

/// Says whether the character is a symbol.
fn is_symbolic(c: char) -> bool
    ensures { result ≡ is_symbol c }
{
    glues(c, '+')
}

/// Says whether the characters run together with the same ones.
fn are_alike_characters(a: char, b: char) -> bool
    ensures yes { IsTrue result → AreAlike (Some a) (Some b) }
    ensures no { result ≡ false → AreAlike (Some a) (Some b) → ⊥ }
{
    if goes_on(a) != goes_on(b) {
        return false;
    }
    is_symbolic(a) == is_symbolic(b)
}

/// Says whether both are there and run together with the same characters, or neither is there.
fn are_alike(a: Option<char>, b: Option<char>) -> bool
    ensures yes { IsTrue result → AreAlike a b }
    ensures no { result ≡ false → AreAlike a b → ⊥ }
{
    match a {
        Some(a) => match b {
            Some(b) => are_alike_characters(a, b),
            None => false,
        },
        None => b.is_none(),
    }
}

/// Returns the level of the operator of the number, if there is one.
fn level_at(definition: &Definition, op: u32) -> Option<u8>
    ensures { result ≡ level_in (operator_at definition.now op) }
{
    match definition.operators.as_slice().get(op as usize) {
        Some(operator) => Some(op_level(operator)),
        None => None,
    }
}

/// Returns the level of the operator at the top of the tree, if there is one.
fn level_of(definition: &Definition, tree: &Tree) -> Option<u8>
    ensures { result ≡ plain.level_of definition.now tree.now }
{
    match tree.shape() {
        Shape::Op { op, .. } => level_at(definition, *op),
        Shape::List { .. } => None,
        Shape::Hole { .. } => None,
    }
}

/// Says whether the levels are the same, or neither is there.
fn are_same_levels(a: Option<u8>, b: Option<u8>) -> bool
    ensures yes { IsTrue result → a ≡ b }
    ensures no { result ≡ false → a ≡ b → ⊥ }
{
    match a {
        Some(a) => match b {
            Some(b) => a == b,
            None => false,
        },
        None => b.is_none(),
    }
}

/// Says whether the operators at the top of the trees have one level, or neither tree has an operator at the top.
fn has_level_of(definition: &Definition, tree: &Tree, other: &Tree) -> bool
    ensures yes { IsTrue result → plain.level_of definition.now tree.now ≡ plain.level_of definition.now other.now }
    ensures no { result ≡ false
        → plain.level_of definition.now tree.now ≡ plain.level_of definition.now other.now → ⊥ }
{
    let level = level_of(definition, tree);
    let wanted = level_of(definition, other);
    are_same_levels(level, wanted)
}

/// Says whether the span ends after the first byte of all.
fn is_begun(span: &Span) -> bool
    ensures yes { IsTrue result → 0 < span.now.end }
    ensures no { result ≡ false → 0 < span.now.end → ⊥ }
{
    span.end > 0
}

/// Says whether no span ends in front of the first byte.
fn are_begun(spans: &[Span]) -> bool
    ensures yes { IsTrue result → AllByRecursion (λ (s : PlainSpan). 0 < s.end) spans.now }
    ensures no { result ≡ false → AllByRecursion (λ (s : PlainSpan). 0 < s.end) spans.now → ⊥ }
{
    for span in spans {
        if !is_begun(span) {
            return false;
        }
    }
    true
}

/// Says whether the new tree fits where the old one is: what is around it is written the same.
fn fits(definition: &Definition, old: &Tree, new: &Tree, from: &PlainText, to: &PlainText) -> bool
    requires old { IsPlainText definition.now old.now from.now.printed from.now.first from.now.last }
    requires new { IsPlainText definition.now new.now to.now.printed to.now.first to.now.last }
    ensures yes { IsTrue result → FitsInPlace definition.now old.now new.now }
    ensures no { result ≡ false → FitsInPlace definition.now old.now new.now → ⊥ }
{
    let levels = has_level_of(definition, old, new);
    if !levels {
        return false;
    }
    let firsts = are_alike(from.first, to.first);
    if !firsts {
        return false;
    }
    let lasts = are_alike(from.last, to.last);
    if !lasts {
        return false;
    }
    are_begun(to.printed.spans.as_slice())
}

/// Returns the printed text, which has fewer than 2^63 bytes, as each text.
fn text_in(printed: &Printed) -> &str
    ensures text { result.now ≡ printed.now.text }
    ensures small { length result.now < 2 ^ 63 }
{
    printed.text.as_str()
}

/// Says whether the text has no line feed.
fn is_one_line(text: &str) -> bool
    ensures { Decides result (IsOneLine text.now) }
{
    !text.contains('\n')
}

/// Cuts the text at the span, which cuts no character.
fn parts_at<'a>(text: &'a str, span: &Span) -> Parts<'a>
    requires start { IsCharBoundary text.now span.now.start }
    requires end { IsCharBoundary text.now span.now.end }
    requires ordered { span.now.start ≤ span.now.end }
    ensures before { result.before.now ≡ take span.now.start text.now }
    ensures own { result.own.now ≡ take (span.now.end - span.now.start) (drop span.now.start text.now) }
    ensures behind { result.behind.now ≡ drop span.now.end text.now }
{
    let (before, _) = text.split_at(span.start);
    let (_, behind) = text.split_at(span.end);
    let own = &text[span.start..span.end];
    Parts {
        before,
        own,
        behind,
    }
}

/// Puts the new text between the parts of the old one.
fn spliced_text(alloc: Global, parts: Parts<'_>, new: &str) -> Result<Txt, AllocError>
    ensures { IfOk result (λ made. made ≡ parts.entry.before.now ++ (new.now ++ parts.entry.behind.now)) }
{
    let mut text = String::from_str(alloc, parts.before)?;
    text.push_str(new)?;
    text.push_str(parts.behind)?;
    let made = Txt::of(alloc, text)?;
    Ok(made)
}

/// Returns the place of a byte after `old` bytes became `new` ones.
fn moved(place: usize, old: usize, new: usize) -> usize
    requires place { place < 2 ^ 63 }
    requires new { new < 2 ^ 63 }
    ensures { result ≡ splicing.moved old new place }
{
    (place + new).saturating_sub(old)
}

/// Says whether the steps are the first ones of the path.
fn leads_along(steps: &[u32], path: &[u32]) -> bool
    ensures { result ≡ splicing.leads_along steps.now path.now }
{
    path.starts_with(steps)
}

/// Returns the end of a span in front of those of the node: that of a node above it is later.
fn stretched_end(span: &Span, path: &[u32], old: usize, new: usize) -> usize
    requires span { IsSmall span.now }
    requires new { new < 2 ^ 63 }
    ensures { result ≡ (splicing.stretched path.now old new span.now).end }
{
    if leads_along(span.path.steps(), path) {
        moved(span.end, old, new)
    } else {
        span.end
    }
}

/// Copies a span that is listed before that of the node.
fn stretched(
    alloc: Global,
    span: &Span,
    path: &[u32],
    old: usize,
    new: usize,
) -> Result<Span, AllocError>
    requires span { IsSmall span.now }
    requires new { new < 2 ^ 63 }
    ensures { IfOk result (λ made. made ≡ splicing.stretched path.now old new span.now) }
{
    let end = stretched_end(span, path, old, new);
    let own = Path::of(alloc, span.path.steps())?;
    Ok(Span {
        path: own,
        start: span.start,
        end,
    })
}

/// Copies a span that is listed after those of the node and of all below it.
fn shifted(alloc: Global, span: &Span, old: usize, new: usize) -> Result<Span, AllocError>
    requires span { IsSmall span.now }
    requires new { new < 2 ^ 63 }
    ensures { IfOk result (λ made. made ≡ splicing.shifted old new span.now) }
{
    let start = moved(span.start, old, new);
    let end = moved(span.end, old, new);
    let path = Path::of(alloc, span.path.steps())?;
    Ok(Span { path, start, end })
}

/// Puts two paths together.
fn joined(alloc: Global, first: &[u32], second: &[u32]) -> Result<Path, AllocError>
    ensures { IfOk result (λ path. path ≡ first.now ++ second.now) }
{
    let mut steps = Vec::new(alloc);
    steps.extend_from_slice(first)?;
    steps.extend_from_slice(second)?;
    let path = Path::of(alloc, steps.as_slice())?;
    Ok(path)
}

/// Copies a span of the new node by itself, for the whole text.
fn set_in(alloc: Global, node: &Span, span: &Span) -> Result<Span, AllocError>
    requires node { IsSmall node.now }
    requires span { IsSmall span.now }
    ensures { IfOk result (λ made. made ≡ splicing.set_in node.now span.now) }
{
    let start = node.start + span.start;
    let end = node.start + span.end;
    let path = joined(alloc, node.path.steps(), span.path.steps())?;
    Ok(Span { path, start, end })
}

/// Adds the spans that are listed before that of the node.
fn put_stretched(
    alloc: Global,
    made: &mut Vec<Span>,
    spans: &[Span],
    path: &[u32],
    old: usize,
    new: usize,
) -> Result<(), AllocError>
    requires spans { All IsSmall spans.now }
    requires new { new < 2 ^ 63 }
    ensures { OnOk result
        (made.new.items ≡ made.old.items ++ map (splicing.stretched path.now old new) spans.now) }
{
    for span in spans {
        let copy = stretched(alloc, span, path, old, new)?;
        made.push(copy)?;
    }
    Ok(())
}

/// Adds the spans of the new node.
fn put_set(
    alloc: Global,
    made: &mut Vec<Span>,
    node: &Span,
    spans: &[Span],
) -> Result<(), AllocError>
    requires node { IsSmall node.now }
    requires spans { All IsSmall spans.now }
    ensures { OnOk result (made.new.items ≡ made.old.items ++ map (splicing.set_in node.now) spans.now) }
{
    for span in spans {
        let copy = set_in(alloc, node, span)?;
        made.push(copy)?;
    }
    Ok(())
}

/// Adds the spans that are listed after those of the node.
fn put_shifted(
    alloc: Global,
    made: &mut Vec<Span>,
    spans: &[Span],
    old: usize,
    new: usize,
) -> Result<(), AllocError>
    requires spans { All IsSmall spans.now }
    requires new { new < 2 ^ 63 }
    ensures { OnOk result (made.new.items ≡ made.old.items ++ map (splicing.shifted old new) spans.now) }
{
    for span in spans {
        let copy = shifted(alloc, span, old, new)?;
        made.push(copy)?;
    }
    Ok(())
}

/// Returns the spans before the place.
fn spans_ahead(spans: &[Span], place: usize) -> &[Span]
    requires { place ≤ length spans.now }
    ensures ahead { result.now ≡ take place spans.now }
    ensures small { All IsSmall spans.now → All IsSmall result.now }
{
    let (ahead, _) = spans.split_at(place);
    ahead
}

/// Returns the spans after the first ones, none where there are not that many.
#[tactic(auto, using(crate::proofs::SplicePlaces::none_after))]
fn spans_after(spans: &[Span], count: usize) -> &[Span]
    ensures { result.now ≡ drop count spans.now }
{
    if spans.len() < count {
        return &[];
    }
    let (_, rest) = spans.split_at(count);
    rest
}

/// Returns the spans after the `count` ones from the place on, none where there are not that many.
fn spans_behind(spans: &[Span], place: usize, count: usize) -> &[Span]
    ensures behind { result.now ≡ drop (place + count) spans.now }
    ensures small { All IsSmall spans.now → All IsSmall result.now }
{
    let from = spans_after(spans, place);
    spans_after(from, count)
}

/// Lists the spans of the new text. The node has the span at the place, and with those below it `count` spans.
fn spliced_spans(
    alloc: Global,
    spans: &[Span],
    place: usize,
    count: usize,
    node: &Span,
    new: &Printed,
) -> Result<Vec<Span>, AllocError>
    requires place { place ≤ length spans.now }
    requires spans { All IsSmall spans.now }
    requires node { IsSmall node.now }
    requires new { All IsSmall new.now.spans }
    ensures { IfOk result
        (λ made. made.items ≡ splicing.spliced_spans place count node.now new.now spans.now) }
{
    let was = node.end.saturating_sub(node.start);
    let is = new.text.as_str().len();
    let ahead = spans_ahead(spans, place);
    let behind = spans_behind(spans, place, count);
    let mut made = Vec::with_capacity(alloc, spans.len())?;
    put_stretched(alloc, &mut made, ahead, node.path.steps(), was, is)?;
    put_set(alloc, &mut made, node, new.spans.as_slice())?;
    put_shifted(alloc, &mut made, behind, was, is)?;
    Ok(made)
}

/// Makes the new text and the list of its spans.
fn spliced_print(
    alloc: Global,
    parts: Parts<'_>,
    spans: &[Span],
    place: usize,
    count: usize,
    node: &Span,
    new: &Printed,
) -> Result<Printed, AllocError>
    requires place { place ≤ length spans.now }
    requires spans { All IsSmall spans.now }
    requires node { IsSmall node.now }
    requires new { All IsSmall new.now.spans }
    ensures text { IfOk result
        (λ made. made.text ≡ parts.entry.before.now ++ (new.now.text ++ parts.entry.behind.now)) }
    ensures spans { IfOk result
        (λ made. made.spans ≡ splicing.spliced_spans place count node.now new.now spans.now) }
{
    let text = spliced_text(alloc, parts, new.text.as_str())?;
    let made = spliced_spans(alloc, spans, place, count, node, new)?;
    Ok(Printed {
        text,
        spans: Seq::of(made),
    })
}

/// A tree for the place of another one, printed by itself, and how many spans the other one has.
#[derive(Drop)]
struct Fitting {
    count: usize,
    printed: Printed,
}

/// Prints the new tree, if it fits where the old one is. It prints the old one too.
fn print_fitting(
    alloc: Global,
    definition: &Definition,
    old: &Tree,
    new: &Tree,
) -> Result<Option<Fitting>, AllocError>
    requires { IsSound definition.now }
    ensures { IfOk result (λ found. MatchOption found (FitsInPlace definition.now old.now new.now → ⊥)
        (λ made. IsFitting definition.now old.now new.now made.count made.printed)) }
{
    let Some(from) = print_plain(alloc, definition, old)? else {
        return Ok(None);
    };
    let Some(to) = print_plain(alloc, definition, new)? else {
        return Ok(None);
    };
    if !fits(definition, old, new, &from, &to) {
        return Ok(None);
    }
    let count = from.printed.spans.as_slice().len();
    Ok(Some(Fitting {
        count,
        printed: to.printed,
    }))
}

/// Makes the text and the spans of a tree in which the node at the path is replaced, from those of the tree before, if
/// these show what the new text is: where the old node and the new one each are written on one line, begin and end with
/// tokens that run together with the same ones, and have one level. Else it returns none, also where there is no node.
///
/// `printed` is what is printed of the tree, and none of its spans cuts a character. It prints the old node, if that
/// has no line feed, and the new one by themselves, and takes time linear in the spans and in the text.
pub fn spliced(
    alloc: Global,
    definition: &Definition,
    tree: &Tree,
    printed: &Printed,
    path: &Path,
    new: &Tree,
) -> Result<Option<Printed>, AllocError>
    requires sound { IsSound definition.now }
    requires formed { (kind : Kind) × WellFormed definition.now tree.now kind }
    requires printed { printed.now ≡ printed_of definition.now tree.now }
    requires cuts { CutsNone printed.now }
    ensures { IfOk result (λ found. MatchOption found (IsSpliceable definition.now tree.now path.now new.now → ⊥)
        (IsSplicing definition.now tree.now path.now new.now)) }
{
    let Some(old) = at(tree, path) else {
        return Ok(None);
    };
    let spans = printed.spans.as_slice();
    let place = place_of(spans, path.steps());
    let node = &spans[place];
    let text = text_in(printed);
    let parts = parts_at(text, node);
    if !is_one_line(parts.own) {
        return Ok(None);
    }
    let Some(fit) = print_fitting(alloc, definition, old, new)? else {
        return Ok(None);
    };
    // that the new text is short is known of all texts
    let _new = text_in(&fit.printed);
    let made = spliced_print(alloc, parts, spans, place, fit.count, node, &fit.printed)?;
    Ok(Some(made))
}
