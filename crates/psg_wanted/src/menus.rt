//! The operators that may be put at a place.
ghost use Rattle.std.specs.Prelude.{◌≡◌, ◌∷◌, ◌++◌, ◌<◌, [], ℕ, IfOk, OnOk, Option, Some, false, length, slice_get};
ghost use Rattle.std.specs.Prelude.{true};
ghost use Rattle.std.specs.List.{AllByRecursion};
ghost use Rattle.psg_cache.specs.Notes.{AreTables};
ghost use Rattle.psg_eval.specs.Frames.{CanClimb, StandAt};
ghost use Rattle.psg_grammar.specs.declared.types.Kind.TheVariants.{Phylum as OfPhylum};
ghost use Rattle.psg_grammar.specs.declared.types.Operator.{Operator};
ghost use Rattle.psg_grammar.specs.Fragments.{Fragment, operator};
ghost use Rattle.psg_grammar.specs.Paths.{Path};
ghost use Rattle.psg_grammar.specs.Sound.{IsSound};
ghost use Rattle.psg_grammar.specs.Steps.{IsWide};
ghost use Rattle.psg_grammar.specs.Marks.{Chosen};
ghost use Rattle.psg_menu.specs.Menus.{AreUsed, IsChoosable, IsMenu, operators_of};
ghost use Rattle.psg_eval.specs.declared.question.FocusFault.TheVariants as questions;
ghost use Rattle.psg_renaming.specs.Occurring.{occurring};
ghost use Rattle.psg_tree.specs.Shapes.{list_of, with_part, with_parts};
ghost use Rattle.psg_wanted.specs.Fronts.{IsListed};
ghost use Rattle.psg_wanted.specs.Listed.{IsListedAt};

use psg_eval::{FocusFault, Frame, Tables};
use psg_grammar::Definition;
use psg_menu::fits;
use psg_terms::{Steps, Txt};
use psg_tree::{Part, Shape, Tree};
use std::alloc::{AllocError, Global};
use std::sync::ledger::Ledger;

/// Adds the word.
fn gather_word(found: &mut Vec<Txt>, word: &Txt) -> Result<(), AllocError>
    ensures { OnOk result (found.new.items ≡ found.old.items ++ word.now ∷ []) }
{
    let same = word.share()?;
    found.push(same)?;
    Ok(())
}

/// Adds the names of the part.
#[cycle(names)]
fn gather_part(found: &mut Vec<Txt>, part: &Part) -> Result<(), AllocError>
    ensures { OnOk result (found.new.items ≡ found.old.items ++ occurring (with_part (operator 0) part.now)) }
{
    match part {
        Part::Sub(tree) => {
            gather_tree(found, tree)?;
            Ok(())
        }
        Part::Name(name) => {
            gather_word(found, name)?;
            Ok(())
        }
        Part::Number(_) => Ok(()),
        Part::Text(_) => Ok(()),
    }
}

/// Adds the names of the parts.
#[cycle(names)]
fn gather_parts(found: &mut Vec<Txt>, parts: &[Part]) -> Result<(), AllocError>
    ensures { OnOk result (found.new.items ≡ found.old.items ++ occurring (with_parts (operator 0) parts.now)) }
{
    for part in parts {
        gather_part(found, part)?;
    }
    Ok(())
}

/// Adds the names of the elements.
#[cycle(names)]
fn gather_elements(found: &mut Vec<Txt>, elements: &[Tree]) -> Result<(), AllocError>
    ensures { OnOk result (found.new.items ≡ found.old.items ++ occurring (list_of 0 elements.now false)) }
{
    for element in elements {
        gather_tree(found, element)?;
    }
    Ok(())
}

/// Adds the names of the tree, each as often as it occurs.
#[cycle(names)]
fn gather_tree(found: &mut Vec<Txt>, tree: &Tree) -> Result<(), AllocError>
    ensures { OnOk result (found.new.items ≡ found.old.items ++ occurring tree.now) }
{
    match tree.shape() {
        Shape::Op { parts, .. } => {
            gather_parts(found, parts.as_slice())?;
            Ok(())
        }
        Shape::List { elements, .. } => {
            gather_elements(found, elements.as_slice())?;
            Ok(())
        }
        Shape::Hole { .. } => Ok(()),
    }
}

/// Returns the names of the tree, each as often as it occurs.
pub fn names_in(alloc: Global, tree: &Tree) -> Result<Vec<Txt>, AllocError>
    ensures { IfOk result (λ names. names.items ≡ occurring tree.now) }
{
    let mut found = Vec::new(alloc);
    gather_tree(&mut found, tree)?;
    Ok(found)
}

/// Says that the operator is listed where a tree with it is too wide.
fn wide_listed(fault: FocusFault) -> Result<bool, AllocError>
    ensures listed { IfOk result (λ listed. listed ≡ true) }
    ensures wide { IfOk result (λ _. fault ≡ questions.Wide) }
{
    match fault {
        FocusFault::Wide => Ok(true),
        FocusFault::Memory => Err(AllocError),
    }
}

/// Says whether the operator is listed: it may be put at the place, or a tree with it there is too wide.
fn is_listed<L: Ledger>(
    alloc: Global,
    definition: &Definition,
    tables: &Tables,
    frames: &[Frame],
    op: u32,
    used: &[Txt],
    steps: &mut Steps<L>,
) -> Result<bool, AllocError>
    requires sound { IsSound definition.now }
    requires tables { AreTables definition.now tables.now }
    requires operator { (o : Operator) × (slice_get definition.now.operators op ≡ Some o)
        × CanClimb definition.now frames.now (OfPhylum o.phylum) }
    ensures { IfOk result (λ listed. (f : Fragment) (path : Path) (k : Option ℕ)
        → StandAt definition.now frames.now path k f → AreUsed used.now f → (IsWide definition.now f → ⊥)
        → IsListedAt definition.now f path k op listed) }
{
    match fits(alloc, definition, tables, frames, op, used, steps) {
        Ok(good) => Ok(good),
        Err(fault) => {
            let listed = wide_listed(fault)?;
            Ok(listed)
        }
    }
}

/// Returns the numbers of the operators of the phylum.
fn of_phylum(alloc: Global, definition: &Definition, phylum: u32) -> Result<Vec<u32>, AllocError>
    requires { IsSound definition.now }
    ensures { IfOk result (λ ops. ops.items ≡ operators_of definition.now phylum) }
{
    let all = definition.operators.as_slice();
    let mut ops = Vec::new(alloc);
    for op in 0..all.len() {
        let operator = &all[op];
        if operator.phylum != phylum {
            continue;
        }
        ops.push(op as u32)?;
    }
    Ok(ops)
}

/// Returns those of the operators that are listed.
fn listed<L: Ledger>(
    alloc: Global,
    definition: &Definition,
    tables: &Tables,
    frames: &[Frame],
    ops: &[u32],
    used: &[Txt],
    steps: &mut Steps<L>,
) -> Result<Vec<u32>, AllocError>
    requires sound { IsSound definition.now }
    requires tables { AreTables definition.now tables.now }
    requires operators { AllByRecursion (λ op. (o : Operator) × (slice_get definition.now.operators op ≡ Some o)
        × CanClimb definition.now frames.now (OfPhylum o.phylum)) ops.now }
    ensures { IfOk result (λ found. (f : Fragment) (path : Path) (k : Option ℕ)
        → StandAt definition.now frames.now path k f → AreUsed used.now f → (IsWide definition.now f → ⊥)
        → Chosen (IsChoosable definition.now f path k (IsListed definition.now)) ops.now found.items) }
{
    let mut found = Vec::new(alloc);
    for place in 0..ops.len() {
        let op = ops[place];
        let good = is_listed(alloc, definition, tables, frames, op, used, steps)?;
        if !good {
            continue;
        }
        found.push(op)?;
    }
    Ok(found)
}

/// Returns the operators of the phylum that may be put at the place that the frames are around, and those that make the
/// tree too wide. `used` are the names that are not new.
pub fn menu<L: Ledger>(
    alloc: Global,
    definition: &Definition,
    tables: &Tables,
    frames: &[Frame],
    phylum: u32,
    used: &[Txt],
    steps: &mut Steps<L>,
) -> Result<Vec<u32>, AllocError>
    requires sound { IsSound definition.now }
    requires tables { AreTables definition.now tables.now }
    requires phylum { phylum < length definition.now.phyla }
    requires frames { CanClimb definition.now frames.now (OfPhylum phylum) }
    ensures { IfOk result (λ ops. (f : Fragment) (path : Path) (k : Option ℕ)
        → StandAt definition.now frames.now path k f → AreUsed used.now f → (IsWide definition.now f → ⊥)
        → IsMenu definition.now f path k (IsListed definition.now) phylum ops.items) }
{
    let ops = of_phylum(alloc, definition, phylum)?;
    let each = ops.as_slice();
    let found = listed(alloc, definition, tables, frames, each, used, steps)?;
    Ok(found)
}
