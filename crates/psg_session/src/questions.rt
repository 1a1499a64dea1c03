//! The answers to questions about the opened fragment.
ghost use Rattle.std.specs.Prelude.{◌≡◌, ◌∷◌, ◌++◌, List, map, string_bytes, IfOk};
ghost use Rattle.psg_terms.specs.Relations.{IsIn};
ghost use Rattle.psg_terms.specs.Signature.{AreTerms};
ghost use Rattle.psg_terms.specs.Terms.{Term as Plain};
ghost use Rattle.psg_scope.specs.Headers.{key_of, keys};
ghost use Rattle.psg_script.specs.declared.command.Command.TheVariants as commands;
ghost use Rattle.psg_session.specs.Answers.{entities_text, key_text, space_name, names_line as names_line_of};
ghost use Rattle.psg_session.specs.Answers.{row_line as row_line_of, rows_lines as rows_lines_of};
ghost use Rattle.psg_session.specs.Outcomes.{IfFound, IsOutcome};
ghost use Rattle.psg_session.specs.PlainState.{not_asked};
ghost use Rattle.psg_session.specs.Sessions.{IsEditor};
ghost use Rattle.psg_session.specs.Views.{IsLanguage, names_without};

use crate::editor::{Editor, Outcome};
use crate::finding::find;
use crate::refusal::Refusal;
use crate::replies::Reply;
use crate::stop::Stop;
use psg_eval::Summary;
use psg_grammar::{Definition, Space};
use psg_scope::NameCol;
use psg_script::Where;
use psg_specimen::LanguageParts;
use psg_terms::{Signature, Term, Txt, term_text};
use std::alloc::{AllocError, Global};

/// Answers with the keys that the opened fragment uses and its outermost region does not declare. It evaluates nothing,
/// and is refused with `NothingOpened`.
pub fn free(alloc: Global, language: &LanguageParts, editor: &Editor) -> Result<Outcome, Stop>
    requires language { IsLanguage language.now }
    requires editor { IsEditor language.now.definition editor.now }
    ensures { IfFound result (IsOutcome language.now.definition editor.now not_asked commands.Free) }
{
    let Some(held) = &editor.opened else {
        return Err(Stop::Refused(Refusal::NothingOpened));
    };
    let line = free_line(
        alloc,
        &language.definition,
        held.note.root().header().names.as_slice(),
    )?;
    let mut lines = Vec::new(alloc);
    lines.push(line)?;
    Ok(Outcome::Stays(Reply::Answered(lines)))
}

/// Returns the keys of a header that are not declared, with a space between two, or `none`.
fn free_line(
    alloc: Global,
    definition: &Definition,
    names: &[NameCol],
) -> Result<String, AllocError>
    ensures { IfOk result (λ text. string_bytes text ≡ names_line_of (names_without definition.now names.now)) }
{
    let free = undeclared(alloc, definition, names)?;
    let line = names_line(alloc, free.as_slice())?;
    Ok(line)
}

/// Returns the key of the column as it is printed: its name, and in version 2 before it the name of its space.
fn key_label(alloc: Global, definition: &Definition, column: &NameCol) -> Result<Txt, AllocError>
    ensures { IfOk result (λ label. label ≡ key_text definition.now (key_of column.now)) }
{
    if definition.version == 2 {
        let mut text = String::new(alloc);
        push_space(&mut text, definition.spaces.as_slice(), column.space)?;
        text.push_str(":")?;
        text.push_str(column.name.as_str())?;
        let label = Txt::copy_of(alloc, text.as_str())?;
        return Ok(label);
    }
    let label = column.name.share()?;
    Ok(label)
}

/// Writes the name of the space after the text.
fn push_space(text: &mut String, spaces: &[Space], space: u32) -> Result<(), AllocError>
    ensures { IfOk result (λ _. string_bytes text.new ≡ string_bytes text.old ++ space_name spaces.now space) }
{
    match spaces.get(space as usize) {
        Some(own) => text.push_str(own.name.as_str()),
        None => Ok(()),
    }
}

/// Returns the keys of the columns that are not declared.
fn undeclared(
    alloc: Global,
    definition: &Definition,
    names: &[NameCol],
) -> Result<Vec<Txt>, AllocError>
    ensures { IfOk result (λ free. free.items ≡ names_without definition.now names.now) }
{
    let mut free = Vec::new(alloc);
    for column in names {
        if !column.declared {
            free.push(key_label(alloc, definition, column)?)?;
        }
    }
    Ok(free)
}

/// Returns the keys of the columns.
fn labels(alloc: Global, definition: &Definition, names: &[NameCol]) -> Result<Vec<Txt>, AllocError>
    ensures { IfOk result (λ labels. labels.items ≡ map (key_text definition.now) (keys names.now)) }
{
    let mut labels = Vec::new(alloc);
    for column in names {
        labels.push(key_label(alloc, definition, column)?)?;
    }
    Ok(labels)
}

/// Returns the names with a space between two, or `none`.
pub(crate) fn names_line(alloc: Global, names: &[Txt]) -> Result<String, AllocError>
    ensures { IfOk result (λ text. string_bytes text ≡ names_line_of names.now) }
{
    let [first, rest @ ..] = names else {
        let none = String::from_str(alloc, "none")?;
        return Ok(none);
    };
    let mut text = String::from_str(alloc, first.as_str())?;
    for name in rest {
        text.push_str(" ")?;
        text.push_str(name.as_str())?;
    }
    Ok(text)
}

/// Answers with the rows of the relation of the node at the place, each on a line: the value, and the entity of each
/// key. It evaluates nothing, and is refused with `NothingOpened` or `NoNode`.
pub fn own(
    alloc: Global,
    language: &LanguageParts,
    editor: &Editor,
    place: &Where,
) -> Result<Outcome, Stop>
    requires language { IsLanguage language.now }
    requires editor { IsEditor language.now.definition editor.now }
    ensures { IfFound result (IsOutcome language.now.definition editor.now not_asked (commands.Own place.now)) }
{
    let found = find(editor, place)?;
    // the note has a summary of each node
    let Some(summary) = found.held.note.summary(found.path) else {
        unreachable!()
    };
    let lines = rows_lines(alloc, &language.definition, summary)?;
    Ok(Outcome::Stays(Reply::Answered(lines)))
}

/// Returns a line for each row of the summary, or `none`.
fn rows_lines(
    alloc: Global,
    definition: &Definition,
    summary: &Summary,
) -> Result<Vec<String>, AllocError>
    requires { (row : List Plain) → IsIn row summary.now.rel → AreTerms definition.now.signature row }
    ensures { IfOk result (λ lines. map string_bytes lines.items
        ≡ rows_lines_of definition.now.signature (map (key_text definition.now) (keys summary.now.header.names))
        summary.now.rel) }
{
    let labels = labels(alloc, definition, summary.header().names.as_slice())?;
    let names = labels.as_slice();
    let sig = &definition.signature;
    let rows = summary.rel().rows();
    let mut lines = Vec::new(alloc);
    if rows.is_empty() {
        let none = String::from_str(alloc, "none")?;
        lines.push(none)?;
        return Ok(lines);
    }
    for row in rows {
        let line = row_line(alloc, sig, names, row.terms())?;
        lines.push(line)?;
    }
    Ok(lines)
}

/// Returns a row: the value, and after it each key with its entity.
fn row_line(
    alloc: Global,
    sig: &Signature,
    names: &[Txt],
    row: &[Term],
) -> Result<String, AllocError>
    requires { AreTerms sig.now row.now }
    ensures { IfOk result (λ text. string_bytes text ≡ row_line_of sig.now names.now row.now) }
{
    let [value, entities @ ..] = row else {
        return Ok(String::new(alloc));
    };
    let mut text = term_text(alloc, sig, value)?;
    push_entities(alloc, &mut text, sig, names, entities)?;
    Ok(text)
}

/// Writes each key with its entity after the text, as long as there are both.
fn push_entities(
    alloc: Global,
    text: &mut String,
    sig: &Signature,
    names: &[Txt],
    entities: &[Term],
) -> Result<(), AllocError>
    requires { AreTerms sig.now entities.now }
    ensures { IfOk result (λ _. string_bytes text.new
        ≡ string_bytes text.old ++ entities_text sig.now names.now entities.now) }
{
    let mut rest = entities;
    for name in names {
        let [entity, more @ ..] = rest else {
            return Ok(());
        };
        let value = term_text(alloc, sig, entity)?;
        push_entity(text, name.as_str(), value.as_str())?;
        rest = more;
    }
    Ok(())
}

/// Writes the key with its entity after the text, as ` x=int`.
fn push_entity(text: &mut String, name: &str, entity: &str) -> Result<(), AllocError>
    ensures { IfOk result (λ _. string_bytes text.new ≡ string_bytes text.old ++ 32 ∷ (name.now ++ (61 ∷ entity.now))) }
{
    text.push_str(" ")?;
    text.push_str(name)?;
    text.push_str("=")?;
    text.push_str(entity)?;
    Ok(())
}
