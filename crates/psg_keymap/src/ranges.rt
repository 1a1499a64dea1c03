//! Bytes of nodes in the printed text, and where a text is put into a list.
ghost use Rattle.std.specs.Prelude.{◌≡◌, ◌++◌, ◌∷◌, [], cond, option_map, IfOk, None};
ghost use Rattle.psg_face.specs.Moves.{is_dots as is_dots_of, parent_of};
ghost use Rattle.psg_keymap.specs.Ranges as ranged;

use psg_face::is_dots;
use psg_grammar::Definition;
use psg_terms::{Txt, uncountable};
use psg_tree::{Path, Shape, Tree, at};
use psg_unparse::Span;
use std::alloc::{AllocError, Global};

/// The bytes of a `...`.
const DOTS: usize = 3;

/// Says whether both paths are the same.
pub fn is_same(path: &[u32], other: &[u32]) -> bool
    ensures { result ≡ ranged.is_same path.now other.now }
{
    path == other
}

/// Returns the bytes of the node at the path: the first one, and the one after the last.
pub fn span_at(spans: &[Span], steps: &[u32]) -> Option<(usize, usize)>
    ensures { result ≡ option_map ranged.both (ranged.span_at spans.now steps.now) }
{
    for place in 0..spans.len() {
        let span = &spans[place];
        let found = is_same(span.path.steps(), steps);
        if found {
            return Some((span.start, span.end));
        }
    }
    None
}

/// Returns the last three of the bytes.
fn last_three(bytes: (usize, usize)) -> (usize, usize)
    ensures { (b : ranged.Bytes) → bytes ≡ ranged.both b → result ≡ ranged.both (ranged.last_three b) }
{
    (bytes.1.saturating_sub(DOTS).max(bytes.0), bytes.1)
}

/// Returns the bytes of the `...` of the list at the steps.
fn dots_of(spans: &[Span], list: &[u32]) -> Option<(usize, usize)>
    ensures { result ≡ option_map ranged.both (option_map ranged.last_three (ranged.span_at spans.now list.now)) }
{
    match span_at(spans, list) {
        Some(bytes) => {
            let dots = last_three(bytes);
            Some(dots)
        }
        None => None,
    }
}

/// Returns the bytes of the `...` of the list of which the path leads to a place.
fn dots_in(spans: &[Span], path: &Path) -> Option<(usize, usize)>
    ensures { result ≡ option_map ranged.both
        (option_map ranged.last_three (ranged.span_at spans.now (parent_of path.now))) }
{
    match path.steps().split_last() {
        Some((_, front)) => {
            let dots = dots_of(spans, front);
            dots
        }
        None => {
            let dots = dots_of(spans, &[]);
            dots
        }
    }
}

/// Returns the bytes of the `...` to which the path leads, if it leads to one.
fn dots_at(tree: &Tree, spans: &[Span], path: &Path) -> Option<(usize, usize)>
    ensures { result ≡ option_map ranged.both (cond (is_dots_of tree.now path.now)
        (option_map ranged.last_three (ranged.span_at spans.now (parent_of path.now))) None) }
{
    let found = is_dots(tree, path);
    if found {
        let dots = dots_in(spans, path);
        return dots;
    }
    None
}

/// Returns the bytes of the chosen place: those of the node, or of the `...`.
pub fn bytes_at(tree: &Tree, spans: &[Span], path: &Path) -> Option<(usize, usize)>
    ensures { result ≡ option_map ranged.both (ranged.bytes_at tree.now spans.now path.now) }
{
    match span_at(spans, path.steps()) {
        Some(bytes) => Some(bytes),
        None => {
            let dots = dots_at(tree, spans, path);
            dots
        }
    }
}

/// A text that is put before a byte.
#[derive(Drop)]
pub struct Range {
    /// The byte, by its number from 0.
    pub byte: u32,
    /// The text.
    pub text: Txt,
}

/// Returns the word between two elements of the list at the path.
pub fn separator_of<'d>(definition: &'d Definition, tree: &Tree, path: &Path) -> &'d str
    ensures { result.now ≡ ranged.separator_of definition.entry.now tree.now path.now }
{
    match at(tree, path) {
        Some(node) => match node.shape() {
            Shape::List { list, .. } => match definition.lists.as_slice().get(*list as usize) {
                Some(kind) => kind.separator.as_str(),
                None => "",
            },
            Shape::Op { .. } => "",
            Shape::Hole { .. } => "",
        },
        None => "",
    }
}

/// Returns the number of a byte, where 32 bits hold it.
fn byte_of(number: usize) -> Result<u32, AllocError>
    ensures { IfOk result (λ byte. byte ≡ number) }
{
    if number < 0x1_0000_0000 {
        Ok(number as u32)
    } else {
        Err(uncountable(number))
    }
}

/// Returns the bytes of the element of the list before the place.
fn span_before(
    alloc: Global,
    spans: &[Span],
    list: &Path,
    place: u32,
) -> Result<Option<(usize, usize)>, AllocError>
    ensures { IfOk result (λ o. o ≡ option_map ranged.both (ranged.span_before spans.now list.now place)) }
{
    if place == 0 {
        return Ok(None);
    }
    let before = longer(alloc, list, place - 1)?;
    let found = span_at(spans, before.steps());
    Ok(found)
}

/// Returns the path with one more step.
pub fn longer(alloc: Global, path: &Path, step: u32) -> Result<Path, AllocError>
    ensures { IfOk result (λ led. led ≡ path.now ++ step ∷ []) }
{
    let mut steps = Vec::from_slice(alloc, path.steps())?;
    steps.push(step)?;
    let led = Path::of(alloc, steps.as_slice())?;
    Ok(led)
}

/// Returns the text of a new element before the place of the list, with the separator, and the byte before which it is
/// put; `None` for a finished list without elements, which has no bytes.
pub fn range_of(
    alloc: Global,
    tree: &Tree,
    spans: &[Span],
    list: &Path,
    place: u32,
    separator: &str,
    text: &str,
) -> Result<Option<Range>, AllocError>
    ensures { IfOk result
        (λ o. o ≡ ranged.range_of tree.now spans.now list.now place separator.now text.now) }
{
    let element = longer(alloc, list, place)?;
    // before an element, or before the `...`
    if let Some((start, _)) = bytes_at(tree, spans, &element) {
        let byte = byte_of(start)?;
        let text = Txt::of(alloc, format!(in alloc; "{text} {separator} ")?)?;
        return Ok(Some(Range { byte, text }));
    }
    match span_before(alloc, spans, list, place)? {
        Some((_, end)) => {
            let byte = byte_of(end)?;
            let text = Txt::of(alloc, format!(in alloc; " {separator} {text}")?)?;
            Ok(Some(Range { byte, text }))
        }
        None => Ok(None),
    }
}
