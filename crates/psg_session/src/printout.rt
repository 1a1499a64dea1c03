//! The printed text of the opened fragment, which is kept from one command to the next.
ghost use Rattle.std.specs.Prelude.{◌≡◌, IfOk, IsTrue, None, Ok, Some, option_copied};
ghost use Rattle.std.specs.Prelude.{Result as PlainResult};
ghost use Rattle.psg_cache.specs.Annotated.{tree_in};
ghost use Rattle.psg_grammar.specs.declared.types.Definition.{Definition as PlainDefinition};
ghost use Rattle.psg_grammar.specs.Sound.{IsSound};
ghost use Rattle.psg_session.specs.declared.editor.Editor.{Editor as PlainEditor};
ghost use Rattle.psg_session.specs.Outcomes.{after, IsFit, IsVersionOf};
ghost use Rattle.psg_session.specs.Edits.{edited};
ghost use Rattle.psg_session.specs.Formed.{IsFormedState};
ghost use Rattle.psg_session.specs.Views.{IsLanguage};
ghost use Rattle.psg_session.specs.declared.changes.Proposal.{Proposal as PlainMade};
ghost use Rattle.psg_session.specs.declared.stop.Stop.{Stop as PlainStop};
ghost use Rattle.psg_session.specs.declared.editor.OpenedTree.{OpenedTree as PlainHeld};
ghost use Rattle.psg_session.specs.Printouts.{IsKeptText, IsNextText, IsPlannedText, IsPrinted};
ghost use Rattle.psg_session.specs.Sessions.{opened_of, state_of};

use crate::changes::Proposal;
use crate::editor::{Editor, Outcome};
use crate::edits::Edit;
use crate::stop::Stop;
use psg_grammar::Definition;
use psg_specimen::LanguageParts;
use psg_unparse::{Printed, spliced, unparse};
use std::alloc::{AllocError, Global};

/// Prints the opened fragment where no text of it is kept. It takes time linear in the text and in the paths of the
/// nodes, and fails where memory runs out.
pub(crate) fn print_for(
    alloc: Global,
    definition: &Definition,
    editor: &Editor,
    printed: &mut Option<Printed>,
) -> Result<(), AllocError>
    requires sound { IsSound definition.now }
    requires kept { IsKeptText definition.now (opened_of editor.now.opened) printed.old }
    ensures kept { IsKeptText definition.now (opened_of editor.now.opened) printed.new }
    ensures printed { IfOk result (λ _. IsPrinted definition.now (opened_of editor.now.opened) printed.new) }
{
    if printed.is_some() {
        return Ok(());
    }
    let Some(held) = &editor.opened else {
        return Ok(());
    };
    let whole = unparse(alloc, definition, held.note.tree())?;
    *printed = Some(whole);
    Ok(())
}

/// Says whether the opened tree is the same after the outcome.
fn leaves_tree(outcome: &Outcome) -> bool
    ensures { IsTrue result → (old : PlainEditor) → (after old outcome.now).opened ≡ opened_of old.opened }
{
    match outcome {
        Outcome::Stays(_) => true,
        Outcome::Goes(_, _) => true,
        Outcome::Saves(_, _) => true,
        Outcome::Opens(_, _, _) => false,
        Outcome::Changes(_, _, _) => false,
        Outcome::Undoes(_, _) => false,
        Outcome::Redoes(_, _) => false,
    }
}

/// Keeps the text of the fragment that is opened after the outcome: the old one where the tree is the same, else
/// `next`.
pub(crate) fn keep_for(printed: &mut Option<Printed>, next: Option<Printed>, outcome: &Outcome)
    ensures { (def : PlainDefinition) (old : PlainEditor) → IsKeptText def (opened_of old.opened) printed.old
        → IsNextText def old outcome.now next → IsKeptText def (after old outcome.now).opened printed.new }
{
    if !leaves_tree(outcome) {
        *printed = next;
    }
}

/// Splices the text of the planned tree, where one node is replaced and the text around it stays. It takes time linear
/// in the text and in the paths of the nodes, and fails where memory runs out.
#[tactic(auto, using(crate::proofs::Printouts::nothing_planned))]
pub(crate) fn planned_text(
    alloc: Global,
    language: &LanguageParts,
    editor: &Editor,
    printed: Option<&Printed>,
    plan: &Result<Proposal, Stop>,
) -> Result<Option<Printed>, AllocError>
    requires language { IsLanguage language.now }
    requires formed { IsFormedState language.now.definition (state_of editor.now) }
    requires printed { IsPrinted language.now.definition (opened_of editor.now.opened) (option_copied printed) }
    ensures { IfOk result (IsPlannedText language.now.definition editor.now plan.now) }
{
    let Ok(made) = plan else {
        return Ok(None);
    };
    let Edit::Put { at, new } = &made.edit else {
        return Ok(None);
    };
    let Some(held) = &editor.opened else {
        return Ok(None);
    };
    let Some(before) = printed else {
        return Ok(None);
    };
    let tree = held.note.tree();
    let text = spliced(alloc, &language.definition, tree, before, at, new)?;
    Ok(text)
}

/// Puts the text into `next` where the outcome is a new version.
pub(crate) fn put_next(next: &mut Option<Printed>, outcome: &Outcome, text: Option<Printed>)
    ensures { (def : PlainDefinition) (editor : PlainEditor) (plan : PlainResult PlainMade PlainStop) → next.old ≡ None
        → IsPlannedText def editor plan text → IsFit def editor.opened outcome.now
        → ((held : PlainHeld) (made : PlainMade) → editor.opened ≡ Some held → plan ≡ Ok made
        → IsVersionOf (edited made.edit (tree_in held.note)) outcome.now) → IsNextText def editor outcome.now next.new }
{
    match outcome {
        Outcome::Changes(_note, _cursor, _mark) => {
            *next = text;
        }
        _ => {}
    }
}
