//! Notes of the trees that commands make, and what is read from them.
ghost use Rattle.std.specs.Prelude.{◌≡◌, ◌+◌, ◌≤◌, Err, IfOk, Ok};
ghost use Rattle.psg_cache.specs.Blames.{culprits_in};
ghost use Rattle.psg_cache.specs.Notes.{IsFormed, IsNoteOf, mark_by};
ghost use Rattle.psg_grammar.specs.Work.{work_of};
ghost use Rattle.psg_session.specs.Edits.{cost_of, edited, MayEdit};
ghost use Rattle.psg_session.specs.Outcomes.{IsNoted};
ghost use Rattle.psg_cache.specs.Annotated.{tree_in};
ghost use Rattle.psg_session.specs.Views.{mark_of, IsLanguage};
ghost use Rattle.psg_tree.specs.declared.places.TreeFault.TheVariants.{Memory};

use crate::edits::Edit;
use crate::replies::Mark;
use psg_cache::{Note, NoteFault, build, inserted, removed, replaced};
use psg_specimen::LanguageParts;
use psg_terms::Steps;
use psg_tree::{Tree, TreeFault};
use std::alloc::{AllocError, Global};
use std::sync::ledger::Ledger;

/// Gives the note of a tree. It evaluates the whole tree, and `steps` counts the evaluations. An error says which limit
/// the tree passes, or that memory ran out.
pub fn note_of<L: Ledger>(
    alloc: Global,
    language: &LanguageParts,
    tree: &Tree,
    steps: &mut Steps<L>,
) -> Result<Note, NoteFault>
    requires language { IsLanguage language.now }
    requires formed { IsFormed language.now.definition tree.now }
    ensures noted { IsNoted language.now.definition tree.now result }
    ensures ticks { steps.new ≤ steps.old + work_of tree.now }
{
    build(alloc, &language.definition, &language.tables, tree, steps)
}

/// Gives the note of the note's tree with the change made. It evaluates what is new and the nodes above it, and `steps`
/// counts the evaluations.
pub fn note_after<L: Ledger>(
    alloc: Global,
    language: &LanguageParts,
    note: &Note,
    edit: &Edit,
    steps: &mut Steps<L>,
) -> Result<Note, NoteFault>
    requires language { IsLanguage language.now }
    requires noted { IsNoteOf language.now.definition (tree_in note.now) note.now }
    requires may { MayEdit language.now.definition (tree_in note.now) edit.now }
    ensures noted { IsNoted language.now.definition (edited edit.now (tree_in note.now)) result }
    ensures ticks { steps.new ≤ steps.old + cost_of edit.now (tree_in note.now) }
{
    let definition = &language.definition;
    let tables = &language.tables;
    match edit {
        Edit::Put { at, new } => replaced(alloc, definition, tables, note, at, new, steps),
        Edit::Add { at, place, new } => {
            inserted(alloc, definition, tables, note, at, *place, new, steps)
        }
        Edit::Take { at, place } => removed(alloc, definition, tables, note, at, *place, steps),
    }
}

/// Gives the tree that was made. Its place was looked at before, so it fails only where memory ran out.
pub fn tree_of(made: Result<Tree, TreeFault>) -> Result<Tree, AllocError>
    requires { (fault : TreeFault) → made ≡ Err fault → fault ≡ Memory }
    ensures { IfOk result (λ tree. made ≡ Ok tree) }
{
    match made {
        Ok(tree) => Ok(tree),
        Err(_) => Err(AllocError),
    }
}

/// Gives the mark of a note's tree. It visits the nodes that go wrong and those above them.
pub fn note_mark(alloc: Global, note: &Note) -> Result<Mark, AllocError>
    ensures { IfOk result (λ mark. mark_of mark ≡ mark_by (culprits_in note.now)) }
{
    if note.is_good() {
        return Ok(Mark::Good);
    }
    let culprits = note.culprits(alloc)?;
    Ok(Mark::Wrong(culprits))
}
