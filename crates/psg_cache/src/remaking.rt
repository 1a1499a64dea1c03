//! The note of a tree of which some children are new.
ghost use Rattle.std.specs.Prelude.{◌≡◌, ◌+◌, ◌++◌, ◌≤◌, ℕ, [], Some, drop, length};
ghost use Rattle.std.specs.Prelude.{option_to_list, take, IfErr, IfOk, OnOk};
ghost use Rattle.psg_grammar.specs.Fragments.{children_of, top_operator};
ghost use Rattle.psg_cache.specs.Annotated.{whole_in};
ghost use Rattle.psg_cache.specs.Changes.{IsKept, remade_ticks};
ghost use Rattle.psg_cache.specs.Noted.{IsNotedAs};
ghost use Rattle.psg_cache.specs.Notes.{IsFormed};
ghost use Rattle.psg_cache.specs.Walks.{AreNotesOf, IsKnown, IsMadeOf, IsNumbered};
ghost use Rattle.psg_cache.specs.Walks.{IsStepFault, top_evaluations, top_steps};

use crate::listing::{cells, joined, suffixes_before};
use crate::note::{Note, NoteFault};
use crate::parts::Language;
use crate::topping::{alone, made_of, topped, wholes_of};
use psg_terms::Steps;
use psg_tree::{Shape, Tree};
use std::alloc::{AllocError, Global};
use std::sync::ledger::Ledger;

/// Adds one more owner of each of the notes.
pub(crate) fn push_notes(made: &mut Vec<Note>, notes: &[Note]) -> Result<(), AllocError>
    ensures { OnOk result (made.new.items ≡ made.old.items ++ notes.now) }
{
    for note in notes {
        made.push(note.share()?)?;
    }
    Ok(())
}

/// Joins the notes before the place, the new one, and the old ones from the last argument on.
pub(crate) fn spliced(
    alloc: Global,
    notes: &[Note],
    place: usize,
    new: Option<Note>,
    behind: usize,
) -> Result<Vec<Note>, AllocError>
    requires { (place ≤ length notes.now) × (behind ≤ length notes.now) }
    ensures { IfOk result (λ made. made.items
        ≡ take place notes.now ++ option_to_list new ++ drop behind notes.now) }
{
    let mut made = Vec::with_capacity(alloc, notes.len())?;
    push_notes(&mut made, &notes[..place])?;
    if let Some(note) = new {
        made.push(note)?;
    }
    push_notes(&mut made, &notes[behind..])?;
    Ok(made)
}

/// Makes the note of a list whose suffixes from `front` on have the summaries of the last ones of the old list. The
/// cells before them are evaluated, up to one that the first `same` elements leave as it was.
fn relisted<L: Ledger>(
    alloc: Global,
    language: Language,
    old: &Note,
    same: usize,
    behind: usize,
    front: usize,
    list: u32,
    below: Vec<Note>,
    made: &Tree,
    path: &[u32],
    steps: &mut Steps<L>,
) -> Result<Note, NoteFault>
    requires language { IsKnown language }
    requires formed { IsFormed language.definition.now made.now }
    requires numbered { IsNumbered list made.now }
    requires below { AreNotesOf language.definition.now (children_of made.now) below.items }
    requires kept { IsKept language.definition.now old.now same behind front made.now below.items }
    ensures ok { IfOk result (IsNotedAs language.entry.definition.now made.now) }
    ensures bounded { steps.new ≤ steps.old + front }
    ensures err { IfErr result
        (IsStepFault language.entry.definition.now (top_steps language.entry.definition.now path.now made.now)) }
{
    let news = below.as_slice();
    let wholes = wholes_of(alloc, &news[..front])?;
    let first = wholes.as_slice();
    let kept = old.suffix(behind);
    let rests = old.rests_behind(behind);
    let was = old.suffix(same);
    let olds = suffixes_before(alloc, old, same)?;
    let made_cells = cells(alloc, language, list, first, olds, was, kept, path, steps)?;
    let suffixes = joined(made_cells, kept, rests)?;
    let note = made_of(alloc, made, suffixes, below)?;
    Ok(note)
}

/// Returns the note of a node whose children have the summaries that the old one's have: its summary is the old one.
fn unchanged(alloc: Global, old: &Note, below: Vec<Note>, made: &Tree) -> Result<Note, AllocError>
    ensures { IfOk result (IsMadeOf made.now (whole_in old.now) [] below.items) }
{
    let suffixes = alone(alloc, old.root().share()?);
    let note = made_of(alloc, made, suffixes, below)?;
    Ok(note)
}

/// Returns the note of an operator with these notes of its children: where none of them has another summary than the
/// old one's, it has the old one's, else it is evaluated.
fn reoperated<L: Ledger>(
    alloc: Global,
    language: Language,
    old: &Note,
    same: usize,
    behind: usize,
    front: usize,
    below: Vec<Note>,
    made: &Tree,
    path: &[u32],
    steps: &mut Steps<L>,
) -> Result<Note, NoteFault>
    requires language { IsKnown language }
    requires formed { IsFormed language.definition.now made.now }
    requires operator { (o : ℕ) × (top_operator made.now ≡ Some o) }
    requires below { AreNotesOf language.definition.now (children_of made.now) below.items }
    requires kept { IsKept language.definition.now old.now same behind front made.now below.items }
    ensures ok { IfOk result (IsNotedAs language.entry.definition.now made.now) }
    ensures bounded { steps.new ≤ steps.old + top_evaluations made.now }
    ensures err { IfErr result
        (IsStepFault language.entry.definition.now (top_steps language.entry.definition.now path.now made.now)) }
{
    if front > 0 {
        return topped(alloc, language, made, below, path, steps);
    }
    let note = unchanged(alloc, old, below, made)?;
    Ok(note)
}

/// Makes the note of a tree with these notes of its children: of a list the cells up to `front` are evaluated, and the
/// suffixes after them are the last ones of the old list; any other node is evaluated. The first `same` children have
/// the summaries that the old ones have: a cell that is the old one ends the evaluations, and so do the children of an
/// operator that all have the old summaries.
pub(crate) fn remade<L: Ledger>(
    alloc: Global,
    language: Language,
    old: &Note,
    same: usize,
    behind: usize,
    front: usize,
    below: Vec<Note>,
    made: &Tree,
    path: &[u32],
    steps: &mut Steps<L>,
) -> Result<Note, NoteFault>
    requires language { IsKnown language }
    requires formed { IsFormed language.definition.now made.now }
    requires below { AreNotesOf language.definition.now (children_of made.now) below.items }
    requires kept { IsKept language.definition.now old.now same behind front made.now below.items }
    ensures ok { IfOk result (IsNotedAs language.entry.definition.now made.now) }
    ensures bounded { steps.new ≤ steps.old + remade_ticks made.now front }
    ensures err { IfErr result
        (IsStepFault language.entry.definition.now (top_steps language.entry.definition.now path.now made.now)) }
{
    match made.shape() {
        Shape::Hole { .. } => topped(alloc, language, made, below, path, steps),
        Shape::Op { .. } => reoperated(
            alloc, language, old, same, behind, front, below, made, path, steps,
        ),
        Shape::List { list, .. } => relisted(
            alloc, language, old, same, behind, front, *list, below, made, path, steps,
        ),
    }
}
