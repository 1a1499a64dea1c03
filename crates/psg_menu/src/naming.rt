//! The names with which an operator may be put at a place.
ghost use Rattle.std.specs.Prelude.{◌≡◌, ◌↔◌, ◌==◌, ◌+◌, ◌*◌, ◌≤◌, ◌<◌, ◌∷◌, [], ℕ, false};
ghost use Rattle.std.specs.Prelude.{Option, Some, length, slice_get, IfOk, IsTrue};
ghost use Rattle.std.specs.List.{AllByRecursion};
ghost use Rattle.psg_completions.specs.Conditions.{HasTrueRows};
ghost use Rattle.psg_grammar.specs.declared.types.Kind.{Kind as PlainKind};
ghost use Rattle.psg_grammar.specs.declared.types.Kind.TheVariants.{Phylum as OfPhylum};
ghost use Rattle.psg_grammar.specs.Fragments.{Fragment};
ghost use Rattle.psg_grammar.specs.Legal.{IsCompletable};
ghost use Rattle.psg_grammar.specs.Open.{IsOpen};
ghost use Rattle.psg_grammar.specs.Paths.{Path};
ghost use Rattle.psg_grammar.specs.Sound.{IsSound};
ghost use Rattle.psg_grammar.specs.WellFormed.{IsName, WellFormed};
ghost use Rattle.psg_eval.specs.Frames.{CanClimb, StandAt, rungs};
ghost use Rattle.psg_eval.specs.Starts.{AreTables};
ghost use Rattle.psg_grammar.specs.declared.types.Operator.{Operator};
ghost use Rattle.psg_eval.specs.Summaries.{are_names, slot_kinds};
ghost use Rattle.psg_menu.specs.declared.entries.Entry.{Entry as OneEntry};
ghost use Rattle.psg_menu.specs.Sharing.{IsWholeAnswer, rises_of};
ghost use Rattle.psg_menu.specs.Trials.{AreBlanks};
ghost use Rattle.psg_menu.specs.Answers.{HasOneName, IsNamesAnswer, names_ticks};
ghost use Rattle.psg_menu.specs.Menus.{HasQuietSlots};

use crate::blanks::{kinds_of_slots, new_trees};
use crate::entries::Entry;
use crate::sharing::{Level, climbed_together};
use crate::words::{longest, new_words};
use psg_eval::{FocusFault, Frame, Summary, Tables, asked};
use psg_grammar::Definition;
use psg_terms::{Steps, Txt};
use std::alloc::Global;
use std::sync::ledger::Ledger;

/// Returns the summaries of the whole fragment with each of the candidates at the place, by one climb of a new name,
/// the proxy for all.
fn climbed<L: Ledger>(
    alloc: Global,
    definition: &Definition,
    tables: &Tables,
    frames: &[Frame],
    op: u32,
    candidates: &[Txt],
    below: &[Summary],
    steps: &mut Steps<L>,
) -> Result<Level, FocusFault>
    requires sound { IsSound definition.now }
    requires tables { AreTables definition.now tables.now }
    requires operator { (o : Operator) × (slice_get definition.now.operators op ≡ Some o)
        × (length (are_names definition.now o.items) ≡ 1)
        × AreBlanks definition.now (slot_kinds definition.now o.items) below.now
        × CanClimb definition.now frames.now (OfPhylum o.phylum) }
    requires names { AllByRecursion (IsName definition.now) candidates.now }
    requires some { (length candidates.now == 0) ≡ false }
    ensures level { IsWholeAnswer definition.now op below.now candidates.now (rises_of frames.now) result }
    ensures ticks { steps.new ≤ steps.old + (1 + length candidates.now * rungs frames.now) }
{
    let bound = longest(definition, candidates);
    let words = new_words(alloc, definition, candidates, bound, 1)?;
    let names = words.as_slice();
    let star = &names[0];
    let made = tables.eval_op(alloc, definition, op, names, below, steps);
    let own = asked(made)?;
    let level = climbed_together(
        alloc, definition, tables, frames, star, candidates, own, steps,
    )?;
    Ok(level)
}

/// Says whether the fragment is open with the candidate whose entry is at the place.
fn is_open(entries: &[Entry], place: usize) -> bool
    requires place { place < length entries.now }
    ensures { (e : OneEntry) → slice_get entries.now place ≡ Some e → IsTrue result ↔ ((e.own.rel ≡ []) → ⊥) }
{
    let entry = &entries[place];
    let none = entry.own.rel().is_empty();
    !none
}

/// Returns those of the candidates with which the operator may be put at the place. `below` has the summaries of new
/// trees for its slots.
fn nameable<L: Ledger>(
    alloc: Global,
    definition: &Definition,
    tables: &Tables,
    frames: &[Frame],
    op: u32,
    candidates: &[Txt],
    below: &[Summary],
    steps: &mut Steps<L>,
) -> Result<Vec<Txt>, FocusFault>
    requires sound { IsSound definition.now }
    requires tables { AreTables definition.now tables.now }
    requires operator { (o : Operator) × (slice_get definition.now.operators op ≡ Some o)
        × (length (are_names definition.now o.items) ≡ 1)
        × AreBlanks definition.now (slot_kinds definition.now o.items) below.now
        × CanClimb definition.now frames.now (OfPhylum o.phylum) }
    requires names { AllByRecursion (IsName definition.now) candidates.now }
    ensures open { (f : Fragment) (path : Path) (k : Option ℕ) → StandAt definition.now frames.now path k f
        → IsNamesAnswer definition.now (IsOpen definition.now) f path k op candidates.now result }
    ensures ticks { steps.new ≤ steps.old + length candidates.now * (1 + rungs frames.now) }
{
    let mut found = Vec::new(alloc);
    if candidates.is_empty() {
        return Ok(found);
    }
    let level = climbed(
        alloc, definition, tables, frames, op, candidates, below, steps,
    )?;
    let entries = level.entries.as_slice();
    let places = level.places.as_slice();
    for place in 0..candidates.len() {
        let candidate = &candidates[place];
        let good = is_open(entries, places[place]);
        if !good {
            continue;
        }
        let copy = candidate.share()?;
        found.push(copy)?;
    }
    Ok(found)
}

/// Returns those of the candidates, in their order, with which the operator may be put at the place that the frames are
/// around: those with which, with some literals, the fragment is open. In an accepted language, for a well-formed
/// fragment, that is where it has a legal completion.
///
/// `Wide` is returned only where a relation of the fragment with the operator and one of the candidates is too large,
/// and always where besides none of the fragment itself is. `Memory` is returned when memory runs out. A candidate
/// takes one tick, one for each slot of the operator, and those of a climb, or fewer: all candidates share one climb,
/// and those that part from it take one more evaluation of each rung for each summary of their own.
pub fn names<L: Ledger>(
    alloc: Global,
    definition: &Definition,
    tables: &Tables,
    frames: &[Frame],
    op: u32,
    candidates: &[Txt],
    steps: &mut Steps<L>,
) -> Result<Vec<Txt>, FocusFault>
    requires sound { IsSound definition.now }
    requires tables { AreTables definition.now tables.now }
    requires one { (p : ℕ) × HasOneName definition.now op p × CanClimb definition.now frames.now (OfPhylum p) }
    requires names { AllByRecursion (IsName definition.now) candidates.now }
    ensures open { (f : Fragment) (path : Path) (k : Option ℕ) → StandAt definition.now frames.now path k f
        → IsNamesAnswer definition.now (IsOpen definition.now) f path k op candidates.now result }
    ensures completable { HasTrueRows definition.now → HasQuietSlots definition.now
        → (f : Fragment) (path : Path) (k : Option ℕ) (kind : PlainKind)
        → WellFormed definition.now f kind → StandAt definition.now frames.now path k f
        → IsNamesAnswer definition.now (IsCompletable definition.now) f path k op candidates.now result }
    ensures ticks { steps.new ≤ steps.old + names_ticks definition.now op candidates.now frames.now }
{
    if candidates.is_empty() {
        return Ok(Vec::new(alloc));
    }
    let operator = &definition.operators.as_slice()[op as usize];
    let items = operator.items.as_slice();
    let kinds = kinds_of_slots(alloc, definition, items)?;
    let slots = kinds.as_slice();
    let below = new_trees(alloc, definition, tables, slots, steps)?;
    let blanks = below.as_slice();
    let found = nameable(
        alloc, definition, tables, frames, op, candidates, blanks, steps,
    )?;
    Ok(found)
}
