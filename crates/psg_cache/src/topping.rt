//! The note of a tree from the notes of its children.
ghost use Rattle.std.specs.Prelude.{◌≡◌, ◌+◌, ◌<◌, ◌≤◌, ◌^◌, ◌∷◌, [], map, IfErr, IfOk, IsOk};
ghost use Rattle.std.specs.List.{AllByRecursion};
ghost use Rattle.psg_grammar.specs.Fragments.{children_of};
ghost use Rattle.psg_eval.specs.Summaries.{AreSummariesOf, IsSummary};
ghost use Rattle.psg_cache.specs.Annotated.{weight_in, whole_in};
ghost use Rattle.psg_cache.specs.Noted.{IsNotedAs, own_weight, summed};
ghost use Rattle.psg_cache.specs.Notes.{IsFormed};
ghost use Rattle.psg_cache.specs.Walks.{AreNotesOf, IsKnown, IsMadeOf, IsStepFault, IsTop, top_evaluations, top_steps};

use crate::listing::{Suffixes, answered, top_list};
use crate::note::{Note, NoteFault, NoteNode};
use crate::parts::{Language, names_of};
use psg_eval::Summary;
use psg_terms::{Seq, Steps, uncountable};
use psg_tree::{Shape, Tree};
use std::alloc::{AllocError, Global};
use std::sync::ledger::Ledger;

/// Returns the summary of a tree that is no list.
pub(crate) fn alone(alloc: Global, summary: Summary) -> Suffixes
    ensures whole { result.whole ≡ summary }
    ensures rests { result.rests ≡ [] }
{
    Suffixes {
        whole: summary,
        rests: Seq::of(Vec::new(alloc)),
    }
}

/// Returns the summary of a tree from those of its children or elements; of a list those of all its suffixes.
fn top<L: Ledger>(
    alloc: Global,
    language: Language,
    tree: &Tree,
    below: &[Summary],
    path: &[u32],
    steps: &mut Steps<L>,
) -> Result<Suffixes, NoteFault>
    requires language { IsKnown language }
    requires formed { IsFormed language.definition.now tree.now }
    requires summaries { AreSummariesOf language.definition.now tree.now below.now }
    requires usual { AllByRecursion (IsSummary language.definition.now) below.now }
    ensures ok { IfOk result (λ s. IsTop language.entry.definition.now tree.now below.now s.whole s.rests) }
    ensures ticks { IfOk result (λ _. steps.new ≡ steps.old + top_evaluations tree.now) }
    ensures bounded { steps.new ≤ steps.old + top_evaluations tree.now }
    ensures err { IfErr result
        (IsStepFault language.entry.definition.now (top_steps language.entry.definition.now path.now tree.now)) }
{
    let definition = language.definition;
    let tables = language.tables;
    match tree.shape() {
        Shape::Hole { phylum } => {
            let made = tables.eval_hole(alloc, definition, *phylum, steps);
            let summary = answered(alloc, path, made)?;
            let suffixes = alone(alloc, summary);
            Ok(suffixes)
        }
        Shape::Op { op, parts } => {
            let names = names_of(alloc, parts.as_slice())?;
            let made = tables.eval_op(alloc, definition, *op, names.as_slice(), below, steps);
            let summary = answered(alloc, path, made)?;
            let suffixes = alone(alloc, summary);
            Ok(suffixes)
        }
        Shape::List {
            list,
            unfinished,
            ..
        } => {
            let suffixes = top_list(alloc, language, *list, below, *unfinished, path, steps)?;
            Ok(suffixes)
        }
    }
}

/// Returns the summaries of the notes' trees, each with one more owner.
pub(crate) fn wholes_of(alloc: Global, notes: &[Note]) -> Result<Vec<Summary>, AllocError>
    ensures { IfOk result (λ found. found.items ≡ map whole_in notes.now) }
{
    let mut found = Vec::with_capacity(alloc, notes.len())?;
    for note in notes {
        let whole = note.root().share()?;
        found.push(whole)?;
    }
    Ok(found)
}

/// Returns the greater number.
fn greater(left: u64, right: u64) -> u64
    ensures { (left ≤ result) × (right ≤ result) }
{
    if left < right { right } else { left }
}

/// Adds both. Exactly where 64 bits do not hold the sum, the call fails as if out of memory.
fn plus(left: u64, right: u64) -> Result<u64, AllocError>
    ensures sum { IfOk result (λ sum. sum ≡ left + right) }
    ensures fits { left + right < 2 ^ 64 → IsOk result }
{
    match left.checked_add(right) {
        Some(sum) => Ok(sum),
        None => Err(uncountable(greater(left, right) as usize)),
    }
}

/// Returns how much the relations in the notes' trees weigh together. It fails exactly where 64 bits do not hold that.
fn weight_below(notes: &[Note]) -> Result<u64, AllocError>
    ensures sum { IfOk result (λ sum. sum ≡ summed weight_in notes.now) }
    ensures fits { summed weight_in notes.now < 2 ^ 64 → IsOk result }
{
    let mut sum = 0;
    for note in notes {
        sum = plus(sum, note.weight())?;
    }
    Ok(sum)
}

/// Returns how much the relations of the summaries weigh together. It fails exactly where 64 bits do not hold that.
fn weight_beside(summaries: &[Summary]) -> Result<u64, AllocError>
    ensures sum { IfOk result (λ sum. sum ≡ summed own_weight summaries.now) }
    ensures fits { summed own_weight summaries.now < 2 ^ 64 → IsOk result }
{
    let mut sum = 0;
    for summary in summaries {
        sum = plus(sum, summary.rel().weight())?;
    }
    Ok(sum)
}

/// Returns how much all relations in a tree weigh together, from its summaries and the notes of its children. It fails
/// exactly where 64 bits do not hold that.
fn weight_over(suffixes: &Suffixes, below: &[Note]) -> Result<u64, AllocError>
    ensures sum { IfOk result (λ sum. sum
        ≡ summed weight_in below.now + summed own_weight (suffixes.now.whole ∷ suffixes.now.rests)) }
    ensures fits { summed weight_in below.now + summed own_weight (suffixes.now.whole ∷ suffixes.now.rests) < 2 ^ 64
        → IsOk result }
{
    let inside = weight_below(below)?;
    let behind = weight_beside(suffixes.rests.as_slice())?;
    let own = plus(suffixes.whole.rel().weight(), behind)?;
    let sum = plus(inside, own)?;
    Ok(sum)
}

/// Returns the note of a tree, of its summaries and the notes of its children.
pub(crate) fn made_of(
    alloc: Global,
    tree: &Tree,
    suffixes: Suffixes,
    below: Vec<Note>,
) -> Result<Note, AllocError>
    ensures { IfOk result (IsMadeOf tree.now suffixes.whole suffixes.rests below.items) }
{
    let weight = weight_over(&suffixes, below.as_slice())?;
    let noted = NoteNode {
        tree: tree.share()?,
        whole: suffixes.whole,
        below: Seq::of(below),
        rests: suffixes.rests,
        weight,
    };
    let note = Note::new(alloc, noted)?;
    Ok(note)
}

/// Returns the note of a tree from those of its children or elements: the node is evaluated, and of a list its end and
/// all its cells.
pub(crate) fn topped<L: Ledger>(
    alloc: Global,
    language: Language,
    tree: &Tree,
    below: Vec<Note>,
    path: &[u32],
    steps: &mut Steps<L>,
) -> Result<Note, NoteFault>
    requires language { IsKnown language }
    requires formed { IsFormed language.definition.now tree.now }
    requires below { AreNotesOf language.definition.now (children_of tree.now) below.items }
    ensures ok { IfOk result (IsNotedAs language.entry.definition.now tree.now) }
    ensures ticks { IfOk result (λ _. steps.new ≡ steps.old + top_evaluations tree.now) }
    ensures bounded { steps.new ≤ steps.old + top_evaluations tree.now }
    ensures err { IfErr result
        (IsStepFault language.entry.definition.now (top_steps language.entry.definition.now path.now tree.now)) }
{
    let wholes = wholes_of(alloc, below.as_slice())?;
    let suffixes = top(alloc, language, tree, wholes.as_slice(), path, steps)?;
    let note = made_of(alloc, tree, suffixes, below)?;
    Ok(note)
}
