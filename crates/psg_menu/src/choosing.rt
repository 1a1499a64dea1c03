//! The operators that may be put at a place.
ghost use Rattle.std.specs.Prelude.{◌≡◌, ◌+◌, ◌≤◌, ◌<◌, ℕ, Option, Some, length, slice_get, IfOk};
ghost use Rattle.std.specs.List.{AllByRecursion};
ghost use Rattle.psg_completions.specs.Conditions.{HasTrueRows};
ghost use Rattle.psg_grammar.specs.declared.types.Kind.{Kind as PlainKind};
ghost use Rattle.psg_grammar.specs.declared.types.Kind.TheVariants.{Phylum as OfPhylum};
ghost use Rattle.psg_grammar.specs.Fragments.{Fragment};
ghost use Rattle.psg_grammar.specs.Legal.{IsCompletable};
ghost use Rattle.psg_grammar.specs.Open.{IsOpen};
ghost use Rattle.psg_grammar.specs.Paths.{Path};
ghost use Rattle.psg_grammar.specs.Sound.{IsSound};
ghost use Rattle.psg_grammar.specs.WellFormed.{WellFormed};
ghost use Rattle.psg_eval.specs.Frames.{CanClimb, StandAt};
ghost use Rattle.psg_menu.specs.Answers.{IsChosenAnswer, IsMenuAnswer, menu_ticks, op_ticks};
ghost use Rattle.psg_eval.specs.Starts.{AreTables};
ghost use Rattle.psg_grammar.specs.WellFormed.{fixed_words};
ghost use Rattle.psg_grammar.specs.declared.types.Operator.{Operator};
ghost use Rattle.psg_menu.specs.Trials.{IsClass, IsOffered};
ghost use Rattle.psg_menu.specs.Menus.{AreUsed, HasQuietSlots, operators_of};

use crate::blanks::{kinds_of_slots, new_trees};
use crate::judging::{Classes, tried};
use crate::words::{longest, new_words};
use psg_eval::{FocusFault, Frame, Tables};
use psg_grammar::{Definition, name_positions};
use psg_renaming::laws;
use psg_terms::{Steps, Txt};
use std::alloc::{AllocError, Global};
use std::sync::ledger::Ledger;

/// Returns the numbers of the operators of the phylum, in the definition's order.
fn of_phylum(alloc: Global, definition: &Definition, phylum: u32) -> Result<Vec<u32>, AllocError>
    requires { IsSound definition.now }
    ensures { IfOk result (λ ops. ops.items ≡ operators_of definition.now phylum) }
{
    let all = definition.operators.as_slice();
    let mut ops = Vec::new(alloc);
    for op in 0..all.len() {
        let operator = &all[op];
        if operator.phylum != phylum {
            continue;
        }
        ops.push(op as u32)?;
    }
    Ok(ops)
}

/// What does not change from one operator of a menu to the next.
#[derive(Clone, Copy)]
struct Menu<'a> {
    definition: &'a Definition,
    tables: &'a Tables,
    frames: &'a [Frame],
    used: &'a [Txt],
    /// No name of `used` is longer, and no fixed word.
    longest: usize,
}

/// Says whether the operator may be chosen, by one trial of it under new names.
fn offered<L: Ledger>(
    alloc: Global,
    menu: Menu,
    op: u32,
    classes: &mut Classes,
    steps: &mut Steps<L>,
) -> Result<bool, FocusFault>
    requires sound { IsSound menu.definition.now }
    requires tables { AreTables menu.definition.now menu.tables.now }
    requires used { AllByRecursion (λ n. length n ≤ menu.longest) menu.used.now }
    requires fixed { AllByRecursion (λ n. length n ≤ menu.longest) (fixed_words menu.definition.now) }
    requires operator { (o : Operator) × (slice_get menu.definition.now.operators op ≡ Some o)
        × CanClimb menu.definition.now menu.frames.now (OfPhylum o.phylum) }
    requires classes { AllByRecursion (IsClass menu.definition.now menu.frames.now) classes.old.all.items }
    ensures offered { IsOffered menu.entry.definition.now menu.entry.frames.now menu.entry.used.now op result }
    ensures classes { IfOk result
        (λ _. AllByRecursion (IsClass menu.entry.definition.now menu.entry.frames.now) classes.new.all.items) }
    ensures ticks { steps.new ≤ steps.old + op_ticks menu.entry.definition.now menu.entry.frames.now op }
{
    let definition = menu.definition;
    let operator = &definition.operators.as_slice()[op as usize];
    let items = operator.items.as_slice();
    let kinds = kinds_of_slots(alloc, definition, items)?;
    let count = name_positions(operator);
    let words = new_words(alloc, definition, menu.used, menu.longest, count)?;
    laws::new_names(definition);
    let slots = kinds.as_slice();
    let below = new_trees(alloc, definition, menu.tables, slots, steps)?;
    let names = words.as_slice();
    let blanks = below.as_slice();
    let good = tried(
        alloc,
        definition,
        menu.tables,
        menu.frames,
        op,
        names,
        blanks,
        classes,
        steps,
    )?;
    Ok(good)
}

/// Returns those of the operators that may be chosen, in their order.
fn chosen<L: Ledger>(
    alloc: Global,
    menu: Menu,
    ops: &[u32],
    steps: &mut Steps<L>,
) -> Result<Vec<u32>, FocusFault>
    requires sound { IsSound menu.definition.now }
    requires tables { AreTables menu.definition.now menu.tables.now }
    requires used { AllByRecursion (λ n. length n ≤ menu.longest) menu.used.now }
    requires fixed { AllByRecursion (λ n. length n ≤ menu.longest) (fixed_words menu.definition.now) }
    requires operators { AllByRecursion (λ op. (o : Operator) × (slice_get menu.definition.now.operators op ≡ Some o)
        × CanClimb menu.definition.now menu.frames.now (OfPhylum o.phylum)) ops.now }
    ensures open { (f : Fragment) (path : Path) (k : Option ℕ)
        → StandAt menu.entry.definition.now menu.entry.frames.now path k f → AreUsed menu.entry.used.now f
        → IsChosenAnswer menu.entry.definition.now (IsOpen menu.entry.definition.now) f path k ops.now result }
    ensures ticks { steps.new ≤ steps.old + menu_ticks menu.entry.definition.now ops.now menu.entry.frames.now }
{
    let mut classes = Classes::new(alloc);
    let mut found = Vec::new(alloc);
    for place in 0..ops.len() {
        let op = ops[place];
        let good = offered(alloc, menu, op, &mut classes, steps)?;
        if !good {
            continue;
        }
        found.push(op)?;
    }
    Ok(found)
}

/// Returns the operators of the phylum, in the definition's order, that may be put at the place that the frames are
/// around: those with which, with new names and some literals, the fragment is open. In an accepted language, for a
/// well-formed fragment, that is where it has a legal completion with new names. `used` are the names that are not new.
///
/// `Wide` is returned only where a relation of the fragment with one of the operators is too large, and always where
/// besides none of the fragment itself is. An operator takes one tick, one for each of its slots, and those of a climb,
/// or fewer.
pub fn operators<L: Ledger>(
    alloc: Global,
    definition: &Definition,
    tables: &Tables,
    frames: &[Frame],
    phylum: u32,
    used: &[Txt],
    steps: &mut Steps<L>,
) -> Result<Vec<u32>, FocusFault>
    requires sound { IsSound definition.now }
    requires tables { AreTables definition.now tables.now }
    requires phylum { phylum < length definition.now.phyla }
    requires frames { CanClimb definition.now frames.now (OfPhylum phylum) }
    ensures open { (f : Fragment) (path : Path) (k : Option ℕ) → StandAt definition.now frames.now path k f
        → AreUsed used.now f
        → IsMenuAnswer definition.now (IsOpen definition.now) f path k phylum result }
    ensures completable { HasTrueRows definition.now → HasQuietSlots definition.now
        → (f : Fragment) (path : Path) (k : Option ℕ) (kind : PlainKind)
        → WellFormed definition.now f kind → StandAt definition.now frames.now path k f → AreUsed used.now f
        → IsMenuAnswer definition.now (IsCompletable definition.now) f path k phylum result }
    ensures ticks { steps.new ≤ steps.old + menu_ticks definition.now (operators_of definition.now phylum) frames.now }
{
    let bound = longest(definition, used);
    let menu = Menu {
        definition,
        tables,
        frames,
        used,
        longest: bound,
    };
    let ops = of_phylum(alloc, definition, phylum)?;
    let each = ops.as_slice();
    let found = chosen(alloc, menu, each, steps)?;
    Ok(found)
}

/// Says whether the operator may be put at the place that the frames are around: whether with it, with new names and
/// some literals, the fragment is open. `used` are the names that are not new. `Wide` is returned only where a relation
/// of the fragment with the operator is too large, and always where besides none of the fragment itself is. It takes
/// one tick, one for each slot of the operator, and those of a climb, or fewer.
pub fn fits<L: Ledger>(
    alloc: Global,
    definition: &Definition,
    tables: &Tables,
    frames: &[Frame],
    op: u32,
    used: &[Txt],
    steps: &mut Steps<L>,
) -> Result<bool, FocusFault>
    requires sound { IsSound definition.now }
    requires tables { AreTables definition.now tables.now }
    requires operator { (o : Operator) × (slice_get definition.now.operators op ≡ Some o)
        × CanClimb definition.now frames.now (OfPhylum o.phylum) }
    ensures offered { IsOffered definition.now frames.now used.now op result }
    ensures ticks { steps.new ≤ steps.old + op_ticks definition.now frames.now op }
{
    let bound = longest(definition, used);
    let menu = Menu {
        definition,
        tables,
        frames,
        used,
        longest: bound,
    };
    let mut classes = Classes::new(alloc);
    let good = offered(alloc, menu, op, &mut classes, steps)?;
    Ok(good)
}
