//! The values that a node of the opened fragment may have.
ghost use Rattle.std.specs.Prelude.{◌≡◌, ◌∷◌, [], ℕ, map, string_bytes, IfOk};
ghost use Rattle.psg_terms.specs.Relations.{IsIn};
ghost use Rattle.psg_terms.specs.Signature.{HasSort};
ghost use Rattle.psg_terms.specs.Terms.{Term as Plain};
ghost use Rattle.psg_focus.specs.Shown.{rows_of};
ghost use Rattle.psg_script.specs.declared.command.Command.TheVariants as commands;
ghost use Rattle.psg_session.specs.Answers.{row_line as row_line_of, rows_lines as rows_lines_of};
ghost use Rattle.psg_session.specs.Outcomes.{IfFound, IsOutcome};
ghost use Rattle.psg_session.specs.PlainState.{not_asked};
ghost use Rattle.psg_session.specs.Sessions.{state_of, IsEditor};
ghost use Rattle.psg_session.specs.Ticks.{HasTicked};
ghost use Rattle.psg_session.specs.Views.{IsLanguage};

use crate::editor::{Editor, Outcome};
use crate::finding::find;
use crate::replies::Reply;
use crate::stop::Stop;
use psg_focus::relation_at;
use psg_script::Where;
use psg_specimen::LanguageParts;
use psg_terms::{Signature, Steps, Term, term_text};
use std::alloc::{AllocError, Global};
use std::sync::ledger::Ledger;

/// Returns the term as the line of a row without names.
fn term_line(alloc: Global, sig: &Signature, term: &Term) -> Result<String, AllocError>
    requires { (s : ℕ) × HasSort sig.now term.now s }
    ensures { IfOk result (λ text. string_bytes text ≡ row_line_of sig.now [] (term.now ∷ [])) }
{
    let text = term_text(alloc, sig, term)?;
    Ok(text)
}

/// Returns the terms, each on a line, or `none`.
fn terms_lines(alloc: Global, sig: &Signature, terms: &[Term]) -> Result<Vec<String>, AllocError>
    requires { (t : Plain) → IsIn t terms.now → (s : ℕ) × HasSort sig.now t s }
    ensures { IfOk result (λ lines. map string_bytes lines.items ≡ rows_lines_of sig.now [] (rows_of terms.now)) }
{
    let mut lines = Vec::new(alloc);
    if terms.is_empty() {
        let none = String::from_str(alloc, "none")?;
        lines.push(none)?;
        return Ok(lines);
    }
    for term in terms {
        let line = term_line(alloc, sig, term)?;
        lines.push(line)?;
    }
    Ok(lines)
}

/// Answers with the values that the node at the place may have in the completions of the fragment, each on a line. It
/// evaluates the nodes above it once more. It is refused with `NothingOpened` or `NoNode`, and with `TooWide` if a step
/// is too large with that value as one more column.
#[tactic(auto, using(crate::proofs::Ticking::quiet))]
pub fn relation<L: Ledger>(
    alloc: Global,
    language: &LanguageParts,
    editor: &Editor,
    place: &Where,
    steps: &mut Steps<L>,
) -> Result<Outcome, Stop>
    requires language { IsLanguage language.now }
    requires editor { IsEditor language.now.definition editor.now }
    ensures outcome { IfFound result
        (IsOutcome language.now.definition editor.now not_asked (commands.Relation place.now)) }
    ensures ticks { HasTicked language.now.definition (state_of editor.now)
        (commands.Relation place.now) steps.old steps.new }
{
    let found = find(editor, place)?;
    let note = &found.held.note;
    // the note has a summary of each node and frames around it
    let Some(summary) = note.summary(found.path) else {
        unreachable!()
    };
    let framed = note.frames(alloc, found.path)?;
    let Some(frames) = framed else { unreachable!() };
    let definition = &language.definition;
    let around = frames.as_slice();
    let shown = relation_at(alloc, definition, &language.tables, around, summary, steps)?;
    let lines = terms_lines(alloc, &definition.signature, shown.as_slice())?;
    Ok(Outcome::Stays(Reply::Answered(lines)))
}
