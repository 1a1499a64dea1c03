//! Whether a fragment is open with a tree of a known summary at a place.
ghost use Rattle.std.specs.Prelude.{◌≡◌, ◌+◌, ◌≤◌, ◌<◌, ◌∷◌, ◌++◌, [], ℕ, Option, Some, length};
ghost use Rattle.std.specs.Prelude.{slice_get, IfOk, IfSome, OnOk};
ghost use Rattle.std.specs.List.{AllByRecursion};
ghost use Rattle.psg_terms.specs.Relations.{IsIn};
ghost use Rattle.psg_grammar.specs.declared.types.Kind.TheVariants.{Phylum as OfPhylum};
ghost use Rattle.psg_grammar.specs.declared.types.Operator.{Operator};
ghost use Rattle.psg_grammar.specs.Sound.{IsSound};
ghost use Rattle.psg_grammar.specs.WellFormed.{IsName};
ghost use Rattle.psg_eval.specs.Frames.{CanClimb, IsSilent, rungs};
ghost use Rattle.psg_eval.specs.Starts.{AreTables};
ghost use Rattle.psg_eval.specs.Summaries.{IsSummary, are_names, slot_kinds};
ghost use Rattle.psg_menu.specs.Trials.{AreBlanks, IsClass, IsJudged, IsTried};

use crate::alike::{Alike, number_of};
use psg_eval::{FocusFault, Frame, Summary, Tables, asked, climb};
use psg_grammar::Definition;
use psg_terms::{Steps, Txt};
use std::alloc::{AllocError, Global};
use std::sync::ledger::Ledger;

/// A summary of a tree at the place, and whether the whole fragment is open with it.
#[derive(Drop)]
pub(crate) struct Class {
    pub(crate) own: Summary,
    pub(crate) good: bool,
}

/// Says whether the whole fragment is open where a tree with this summary is at the place of the frames, by one climb.
fn judged<L: Ledger>(
    alloc: Global,
    definition: &Definition,
    frames: &[Frame],
    own: &Summary,
    steps: &mut Steps<L>,
) -> Result<bool, FocusFault>
    requires sound { IsSound definition.now }
    requires own { IsSummary definition.now own.now }
    requires silent { IsSilent own.now }
    requires frames { CanClimb definition.now frames.now own.now.kind }
    ensures judged { IsJudged definition.now frames.now own.now result }
    ensures ticks { steps.new ≤ steps.old + rungs frames.now }
{
    let climbed = climb(alloc, definition, frames, own, steps);
    let whole = asked(climbed)?;
    let good = !whole.rel().is_empty();
    Ok(good)
}

/// The classes that were judged, and by a number of each its place.
#[derive(Drop)]
pub(crate) struct Classes {
    pub(crate) all: Vec<Class>,
    alike: Alike,
}

impl Classes {
    /// Returns no classes.
    pub(crate) fn new(alloc: Global) -> Classes
        ensures { result.all.items ≡ [] }
    {
        Classes {
            all: Vec::new(alloc),
            alike: Alike::new(alloc),
        }
    }

    /// Adds a class, with the number of its summary.
    fn add(
        &mut self,
        alloc: Global,
        number: u64,
        own: Summary,
        good: bool,
    ) -> Result<(), AllocError>
        ensures { OnOk result (self.new.all.items ≡ self.old.all.items ++ record { own = own; good = good } ∷ []) }
    {
        let place = self.all.len();
        self.alike.note(alloc, number, place)?;
        self.all.push(Class { own, good })?;
        Ok(())
    }
}

/// Returns what is known of the summary, if one of the classes at the places has it.
fn known(classes: &[Class], places: &[usize], own: &Summary) -> Option<bool>
    ensures { IfSome result (λ good. (c : Class) × IsIn c classes.now × (c.own ≡ own.now) × (c.good ≡ good)) }
{
    for i in 0..places.len() {
        let place = places[i];
        if place >= classes.len() {
            continue;
        }
        let class = &classes[place];
        if class.own.same(own) {
            return Some(class.good);
        }
    }
    None
}

/// Says the same as `judged`, but makes one climb for each different summary. The classes are those that were judged.
fn judged_once<L: Ledger>(
    alloc: Global,
    definition: &Definition,
    frames: &[Frame],
    own: Summary,
    classes: &mut Classes,
    steps: &mut Steps<L>,
) -> Result<bool, FocusFault>
    requires sound { IsSound definition.now }
    requires own { IsSummary definition.now own }
    requires silent { IsSilent own }
    requires frames { CanClimb definition.now frames.now own.kind }
    requires classes { AllByRecursion (IsClass definition.now frames.now) classes.old.all.items }
    ensures judged { IsJudged definition.now frames.now own result }
    ensures classes { IfOk result (λ _. AllByRecursion (IsClass definition.now frames.now) classes.new.all.items) }
    ensures ticks { steps.new ≤ steps.old + rungs frames.now }
{
    let number = number_of(&own);
    let places = classes.alike.places(number);
    if let Some(good) = known(classes.all.as_slice(), places, &own) {
        return Ok(good);
    }
    let good = judged(alloc, definition, frames, &own, steps)?;
    classes.add(alloc, number, own, good)?;
    Ok(good)
}

/// Says whether the fragment is open with the operator at the place of the frames, under these names. `below` has the
/// summaries of new trees for its slots.
pub(crate) fn tried<L: Ledger>(
    alloc: Global,
    definition: &Definition,
    tables: &Tables,
    frames: &[Frame],
    op: u32,
    names: &[Txt],
    below: &[Summary],
    classes: &mut Classes,
    steps: &mut Steps<L>,
) -> Result<bool, FocusFault>
    requires sound { IsSound definition.now }
    requires tables { AreTables definition.now tables.now }
    requires operator { (o : Operator) × (slice_get definition.now.operators op ≡ Some o)
        × (length (are_names definition.now o.items) ≡ length names.now)
        × AreBlanks definition.now (slot_kinds definition.now o.items) below.now
        × CanClimb definition.now frames.now (OfPhylum o.phylum) }
    requires classes { AllByRecursion (IsClass definition.now frames.now) classes.old.all.items }
    ensures tried { IsTried definition.now frames.now op names.now result }
    ensures classes { IfOk result (λ _. AllByRecursion (IsClass definition.now frames.now) classes.new.all.items) }
    ensures ticks { steps.new ≤ steps.old + (1 + rungs frames.now) }
{
    let made = tables.eval_op(alloc, definition, op, names, below, steps);
    let own = asked(made)?;
    let good = judged_once(alloc, definition, frames, own, classes, steps)?;
    Ok(good)
}
