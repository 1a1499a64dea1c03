//! The answers that are read from the printed text of the opened fragment.
ghost use Rattle.std.specs.Prelude.{◌≡◌, ◌∷◌, ◌++◌, [], ℕ, decimal, IfOk, MatchOption, string_bytes};
ghost use Rattle.std.specs.Bool.{Decides};
ghost use Rattle.psg_terms.specs.Names.{Name};
ghost use Rattle.psg_grammar.specs.declared.types.Kind.{Kind as PlainKind};
ghost use Rattle.psg_grammar.specs.Kinds.{kind_name_of, IsOfKind};
ghost use Rattle.psg_grammar.specs.Sound.{IsSound};
ghost use Rattle.psg_cache.specs.Notes.{IsFormed};
ghost use Rattle.psg_unparse.specs.Layout.{text_of};
ghost use Rattle.psg_tree.specs.AbstractText.{operator_name as operator_name_of};
ghost use Rattle.psg_script.specs.declared.command.Command.TheVariants as commands;
ghost use Rattle.psg_session.specs.Outcomes.{IfFound, IsOutcome};
ghost use Rattle.psg_session.specs.PlainState.{not_asked};
ghost use Rattle.psg_session.specs.Printing.{goto_line as goto_line_of, node_words, what_is, HasNoSpan, IsFirstSpan};
ghost use Rattle.psg_session.specs.Printouts.{IsKeptText};
ghost use Rattle.psg_session.specs.Sessions.{opened_of, IsEditor};
ghost use Rattle.psg_session.specs.Views.{IsLanguage};

use crate::changes::{copied, kind_of};
use crate::editor::{Editor, Outcome};
use crate::finding::find;
use crate::noting::note_mark;
use crate::printout::print_for;
use crate::refusal::Refusal;
use crate::replies::{Reply, push_path};
use crate::stop::Stop;
use itoa::Buffer;
use psg_grammar::{Definition, kind_name};
use psg_screen::{View, window};
use psg_script::Where;
use psg_specimen::LanguageParts;
use psg_terms::Txt;
use psg_tree::{Shape, Tree};
use psg_unparse::{Printed, Span, unparse};
use std::alloc::{AllocError, Global};

/// Gives the lines of the printed text of the opened fragment, and its mark. It evaluates nothing, and is refused with
/// `NothingOpened`. It prints the whole text if that is not kept.
pub fn show(
    alloc: Global,
    language: &LanguageParts,
    editor: &Editor,
    printed: &mut Option<Printed>,
) -> Result<Outcome, Stop>
    requires language { IsLanguage language.now }
    requires editor { IsEditor language.now.definition editor.now }
    requires kept { IsKeptText language.now.definition (opened_of editor.now.opened) printed.old }
    ensures outcome { IfFound result (IsOutcome language.now.definition editor.now not_asked commands.Show) }
    ensures kept { IsKeptText language.now.definition (opened_of editor.now.opened) printed.new }
{
    let Some(held) = &editor.opened else {
        return Err(Stop::Refused(Refusal::NothingOpened));
    };
    print_for(alloc, &language.definition, editor, printed)?;
    let Some(whole) = printed.as_ref() else {
        unreachable!()
    };
    let text = whole.text.share()?;
    let mark = note_mark(alloc, &held.note)?;
    Ok(Outcome::Stays(Reply::Shown(text, mark)))
}

/// Gives the lines that a window has of the printed text of the opened fragment. It evaluates nothing, and is refused
/// with `NothingOpened`. It prints the whole text if that is not kept.
pub fn screen(
    alloc: Global,
    language: &LanguageParts,
    editor: &Editor,
    printed: &mut Option<Printed>,
    view: View,
) -> Result<Outcome, Stop>
    requires language { IsLanguage language.now }
    requires editor { IsEditor language.now.definition editor.now }
    requires kept { IsKeptText language.now.definition (opened_of editor.now.opened) printed.old }
    ensures outcome { IfFound result (IsOutcome language.now.definition editor.now not_asked
        (commands.Screen view.top view.left view.rows view.cols)) }
    ensures kept { IsKeptText language.now.definition (opened_of editor.now.opened) printed.new }
{
    print_for(alloc, &language.definition, editor, printed)?;
    // the text is there where a fragment is opened
    let Some(whole) = printed.as_ref() else {
        return Err(Stop::Refused(Refusal::NothingOpened));
    };
    let lines = window(alloc, whole.text.as_str(), view)?;
    Ok(Outcome::Stays(Reply::Seen(lines)))
}

/// Moves the cursor to the node at the place, and says where it is: its path, its kind, what it is, and the bytes on
/// which it is written in the printed text. It makes no version and evaluates nothing, and looks at each span up to
/// that of the node.
pub fn go(
    alloc: Global,
    language: &LanguageParts,
    editor: &Editor,
    printed: &mut Option<Printed>,
    place: &Where,
) -> Result<Outcome, Stop>
    requires language { IsLanguage language.now }
    requires editor { IsEditor language.now.definition editor.now }
    requires kept { IsKeptText language.now.definition (opened_of editor.now.opened) printed.old }
    ensures outcome { IfFound result (IsOutcome language.now.definition editor.now not_asked
        (commands.Goto place.now)) }
    ensures kept { IsKeptText language.now.definition (opened_of editor.now.opened) printed.new }
{
    let found = find(editor, place)?;
    print_for(alloc, &language.definition, editor, printed)?;
    let Some(whole) = printed.as_ref() else {
        unreachable!()
    };
    let Some(span) = span_at(whole.spans.as_slice(), found.path.steps()) else {
        unreachable!()
    };
    let line = goto_line(alloc, &language.definition, found.node, span)?;
    let lines = only(alloc, line)?;
    let cursor = copied(alloc, found.path)?;
    Ok(Outcome::Goes(cursor, lines))
}

/// Gives the text of a tree.
pub(crate) fn text_of(
    alloc: Global,
    definition: &Definition,
    tree: &Tree,
) -> Result<Txt, AllocError>
    requires sound { IsSound definition.now }
    ensures { IfOk result (λ text. text ≡ text_of definition.now tree.now) }
{
    let printed = unparse(alloc, definition, tree)?;
    let Printed { text, .. } = printed;
    Ok(text)
}

/// Gives the first of the spans whose path has these steps.
fn span_at<'a>(spans: &'a [Span], steps: &[u32]) -> Option<&'a Span>
    ensures { MatchOption result (HasNoSpan spans.now steps.now)
        (λ span. (k : ℕ) × IsFirstSpan spans.now steps.now span.now k) }
{
    for span in spans {
        if are_same(span.path.steps(), steps) {
            return Some(span);
        }
    }
    None
}

/// Says whether the steps are the same.
fn are_same(steps: &[u32], others: &[u32]) -> bool
    ensures { Decides result (steps.now ≡ others.now) }
{
    steps == others
}

/// Gives a list of this one line.
fn only(alloc: Global, line: String) -> Result<Vec<String>, AllocError>
    ensures { IfOk result (λ lines. lines.items ≡ line ∷ []) }
{
    let mut lines = Vec::new(alloc);
    lines.push(line)?;
    Ok(lines)
}

/// Says where a node is that has the span, as `at /0/1 Exp sum 4 9`.
fn goto_line(
    alloc: Global,
    definition: &Definition,
    node: &Tree,
    span: &Span,
) -> Result<String, AllocError>
    requires sound { IsSound definition.now }
    requires formed { IsFormed definition.now node.now }
    ensures { IfOk result (λ text. (kind : PlainKind) × (name : Name) × IsOfKind definition.now node.now kind
        × (kind_name_of definition.now kind ≡ Some name)
        × (string_bytes text ≡ goto_line_of name (what_is definition.now node.now) span.now)) }
{
    let kind = kind_of(definition, node);
    let name = kind_name(definition, kind);
    let what = what_of(definition, node);
    let mut text = String::from_str(alloc, "at ")?;
    push_path(&mut text, &span.path)?;
    push_words(&mut text, name, what, span)?;
    Ok(text)
}

/// Writes the kind, what the node is and its bytes after the text, each after a space.
fn push_words(text: &mut String, kind: &str, what: &str, span: &Span) -> Result<(), AllocError>
    ensures { IfOk result (λ _. string_bytes text.new
        ≡ string_bytes text.old ++ node_words kind.now what.now span.now) }
{
    push_word(text, kind)?;
    push_word(text, what)?;
    push_number(text, span.start)?;
    push_number(text, span.end)?;
    Ok(())
}

/// Writes the word after the text, after a space.
fn push_word(text: &mut String, word: &str) -> Result<(), AllocError>
    ensures { IfOk result (λ _. string_bytes text.new ≡ string_bytes text.old ++ 32 ∷ word.now) }
{
    text.push_str(" ")?;
    text.push_str(word)?;
    Ok(())
}

/// Writes the number after the text, after a space.
fn push_number(text: &mut String, number: usize) -> Result<(), AllocError>
    ensures { IfOk result (λ _. string_bytes text.new ≡ string_bytes text.old ++ 32 ∷ decimal number) }
{
    let mut digits = Buffer::new();
    push_word(text, digits.format(number))?;
    Ok(())
}

/// Says what a node is: the name of its operator, `list`, or `?`.
fn what_of<'a>(definition: &'a Definition, node: &Tree) -> &'a str
    ensures { result.now ≡ what_is definition.now node.now }
{
    match node.shape() {
        Shape::Op { op, .. } => operator_name(definition, *op),
        Shape::List { .. } => "list",
        Shape::Hole { .. } => "?",
    }
}

/// Returns the operator's name, empty where the definition has no operator of the number.
fn operator_name(definition: &Definition, op: u32) -> &str
    ensures { result.now ≡ operator_name_of definition.now op }
{
    match definition.operators.as_slice().get(op as usize) {
        Some(operator) => operator.name.as_str(),
        None => "",
    }
}
