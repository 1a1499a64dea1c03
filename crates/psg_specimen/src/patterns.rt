//! The patterns of specimens: what is known of their trees, in whose hole places any value may be.
ghost use Rattle.std.specs.Prelude.{◌≡◌, ◌++◌, ◌<◌, ◌∷◌, [], IfErr, IfOk, List, None, OnOk, length};
ghost use Rattle.std.specs.List.{AllByRecursion};
ghost use Rattle.psg_grammar.specs.declared.types.Specimen.{Specimen as PlainSpecimen};
ghost use Rattle.psg_grammar.specs.Fragments.{Fragment};
ghost use Rattle.psg_grammar.specs.Sound.{IsSound};
ghost use Rattle.psg_grammar.specs.Specimens.{end_tree, tree_of};
ghost use Rattle.psg_specimen.specs.Patterns.{
  AddsPart,
  ArePatternsOf,
  IsListFor,
  IsListPattern,
  IsPartFault,
  IsPatternFor,
  IsSomeTree,
  IsTreePart,
  SuitsElement,
  SuitsRest,
  cells_on,
  part_names,
};

use crate::room::end_work;
use psg_eval::{EvalFault, Pattern, pattern_cell, pattern_end, pattern_op};
use psg_grammar::{Definition, Specimen, SpecimenHole, SpecimenPart};
use psg_terms::{Room, Txt};
use std::alloc::{AllocError, Global};

/// Returns the pattern of a specimen, or `None` where it is a hole place alone.
///
/// `Wide` is returned exactly where some step of the specimen is too large; its number says nothing. `room` bounds the
/// work, and `Memory` is returned where none is left. The call calls itself as deep as the specimen is nested, in a
/// definition that was read 32 times.
#[cycle(patterns)]
pub(crate) fn pattern_of(
    alloc: Global,
    definition: &Definition,
    specimen: &Specimen,
    room: &mut Room,
) -> Result<Option<Pattern>, EvalFault>
    requires sound { IsSound definition.now }
    requires tree { IsSomeTree definition.now (tree_of specimen.now) }
    ensures { IsPatternFor definition.now (tree_of specimen.now) result }
{
    match specimen {
        Specimen::Op { op, parts } => {
            let mut children = Vec::new(alloc);
            for part in parts.as_slice() {
                add_part(alloc, definition, part, &mut children, room)?;
            }
            let names = names_of(alloc, parts.as_slice())?;
            let made = pattern_op(
                alloc,
                definition,
                *op,
                names.as_slice(),
                children.as_slice(),
                room,
            )?;
            Ok(Some(made))
        }
        Specimen::List {
            list,
            elements,
            rest,
        } => {
            let mut own = Vec::new(alloc);
            for element in elements.as_slice() {
                let pattern = pattern_of(alloc, definition, element, room)?;
                own.push(pattern)?;
            }
            let end = end_pattern(alloc, definition, *list, rest, room)?;
            let whole = list_pattern(alloc, definition, *list, own.as_slice(), end, room)?;
            Ok(whole)
        }
        Specimen::Hole(_) => Ok(None),
    }
}

/// Puts the pattern of a part after the others where the part is a specimen.
#[cycle(patterns)]
fn add_part(
    alloc: Global,
    definition: &Definition,
    part: &SpecimenPart,
    children: &mut Vec<Option<Pattern>>,
    room: &mut Room,
) -> Result<(), EvalFault>
    requires sound { IsSound definition.now }
    requires tree { IsTreePart definition.now part.now }
    ensures added { OnOk result (AddsPart definition.now part.now children.old.items children.new.items) }
    ensures wide { IfErr result (IsPartFault definition.now part.now) }
{
    match part {
        SpecimenPart::Sub(specimen) => {
            let pattern = pattern_of(alloc, definition, specimen, room)?;
            children.push(pattern)?;
            Ok(())
        }
        SpecimenPart::Name(_) => Ok(()),
        SpecimenPart::Number(_) => Ok(()),
        SpecimenPart::Text(_) => Ok(()),
    }
}

/// Returns the names among the parts, in order.
fn names_of(alloc: Global, parts: &[SpecimenPart]) -> Result<Vec<Txt>, AllocError>
    ensures { IfOk result (λ v. v.items ≡ part_names parts.now) }
{
    let mut names = Vec::new(alloc);
    for part in parts {
        add_name(part, &mut names)?;
    }
    Ok(names)
}

fn add_name(part: &SpecimenPart, names: &mut Vec<Txt>) -> Result<(), AllocError>
    ensures { OnOk result (names.new.items ≡ names.old.items ++ part_names (part.now ∷ [])) }
{
    match part {
        SpecimenPart::Name(name) => {
            names.push(name.share()?)?;
            Ok(())
        }
        SpecimenPart::Sub(_) => Ok(()),
        SpecimenPart::Number(_) => Ok(()),
        SpecimenPart::Text(_) => Ok(()),
    }
}

/// Returns the pattern of the end of a list, or `None` where the list goes on at a hole place.
fn end_pattern(
    alloc: Global,
    definition: &Definition,
    list: u32,
    rest: &Option<SpecimenHole>,
    room: &mut Room,
) -> Result<Option<Pattern>, EvalFault>
    requires sound { IsSound definition.now }
    requires there { rest.now ≡ None → list < length definition.now.lists }
    ensures end { IsListFor definition.now (end_tree list rest.now) result }
    ensures suits { IfOk result (SuitsRest definition.now list) }
{
    match rest {
        Some(_) => Ok(None),
        None => {
            room.spend(end_work(definition, list))?;
            let end = pattern_end(alloc, definition, list)?;
            Ok(Some(end))
        }
    }
}

/// Puts the elements before the end, from the last to the first.
fn list_pattern(
    alloc: Global,
    definition: &Definition,
    list: u32,
    elements: &[Option<Pattern>],
    end: Option<Pattern>,
    room: &mut Room,
) -> Result<Option<Pattern>, EvalFault>
    requires sound { IsSound definition.now }
    requires elements { AllByRecursion (SuitsElement definition.now list) elements.now }
    requires end { SuitsRest definition.now list end }
    ensures whole { (ss : List PlainSpecimen) (e : Fragment) → ArePatternsOf definition.now ss elements.now
        → IsListPattern definition.now e end → IsListFor definition.now (cells_on list e ss) result }
    ensures suits { IfOk result (SuitsRest definition.now list) }
{
    let mut behind = end;
    for step in 0..elements.len() {
        let place = elements.len() - 1 - step;
        let made = pattern_cell(alloc, definition, list, &elements[place], &behind, room)?;
        behind = Some(made);
    }
    Ok(behind)
}
