//! Where a specimen has the name `it`, and in which spaces.
ghost use Rattle.std.specs.Prelude.{◌≡◌, ◌++◌, ◌&&◌, not, IfOk, OnOk};
ghost use Rattle.psg_grammar.specs.Lookups.{items_of, operator_at, scopes};
ghost use Rattle.psg_grammar.specs.Specimens.{tree_of};
ghost use Rattle.psg_specimen.specs.Its.{item_spot, its_in, its_of_part, one_it, part_spots, spot_in, spots_of};

use psg_grammar::{Definition, Item, Specimen, SpecimenPart};
use psg_terms::Txt;
use std::alloc::{AllocError, Global};

/// What a name says as a part of an operator: the space of its key, and whether it declares there.
#[derive(Clone, Copy)]
pub(crate) struct Spot {
    pub space: u32,
    pub declares: bool,
}

/// Puts a spot after the others for each name `it` of the specimen, in order. The spot declares where the name does
/// so in the region around the specimen: that is not asked where `inside` is false, nor in a scope operator. The call
/// calls itself as deep as the specimen is nested, in a definition that was read 32 times.
#[cycle(its)]
pub(crate) fn add_its(
    alloc: Global,
    definition: &Definition,
    inside: bool,
    specimen: &Specimen,
    its: &mut Vec<Spot>,
) -> Result<(), AllocError>
    ensures { OnOk result (its.new.items ≡ its.old.items ++ its_in definition.now inside (tree_of specimen.now)) }
{
    match specimen {
        Specimen::Op { op, parts } => {
            let region = is_region(definition, inside, *op);
            let spots = spots(alloc, definition, *op)?;
            let mut place = 0usize;
            for part in parts.as_slice() {
                let spot = spot_at(spots.as_slice(), place);
                add_part(alloc, definition, region, spot, part, its)?;
                place += 1;
            }
            Ok(())
        }
        Specimen::List { elements, .. } => {
            for element in elements.as_slice() {
                add_its(alloc, definition, inside, element, its)?;
            }
            Ok(())
        }
        Specimen::Hole(_) => Ok(()),
    }
}

#[cycle(its)]
fn add_part(
    alloc: Global,
    definition: &Definition,
    inside: bool,
    spot: Spot,
    part: &SpecimenPart,
    its: &mut Vec<Spot>,
) -> Result<(), AllocError>
    ensures { OnOk result (its.new.items ≡ its.old.items ++ its_of_part definition.now inside spot part.now) }
{
    match part {
        SpecimenPart::Sub(specimen) => {
            add_its(alloc, definition, inside, specimen, its)?;
            Ok(())
        }
        SpecimenPart::Name(name) => {
            add_name(inside, spot, name, its)?;
            Ok(())
        }
        SpecimenPart::Number(_) => Ok(()),
        SpecimenPart::Text(_) => Ok(()),
    }
}

fn add_name(inside: bool, spot: Spot, name: &Txt, its: &mut Vec<Spot>) -> Result<(), AllocError>
    ensures { OnOk result (its.new.items ≡ its.old.items ++ one_it inside spot name.now) }
{
    if name.as_str() == "it" {
        let found = Spot {
            space: spot.space,
            declares: inside && spot.declares,
        };
        its.push(found)?;
    }
    Ok(())
}

/// Says whether what the operator has inside is in the region around it, and that is asked.
fn is_region(definition: &Definition, inside: bool, op: u32) -> bool
    ensures { result ≡ (inside && not (scopes (operator_at definition.now op))) }
{
    match definition.operators.as_slice().get(op as usize) {
        Some(operator) => inside && !operator.scope,
        None => inside,
    }
}

/// Returns the spots of the operator's parts, in order.
fn spots(alloc: Global, definition: &Definition, op: u32) -> Result<Vec<Spot>, AllocError>
    ensures { IfOk result (λ v. v.items ≡ spots_of (items_of (operator_at definition.now op))) }
{
    match definition.operators.as_slice().get(op as usize) {
        Some(operator) => {
            let found = item_spots(alloc, operator.items.as_slice())?;
            Ok(found)
        }
        None => Ok(Vec::new(alloc)),
    }
}

fn item_spots(alloc: Global, items: &[Item]) -> Result<Vec<Spot>, AllocError>
    ensures { IfOk result (λ v. v.items ≡ part_spots items.now) }
{
    let mut spots = Vec::with_capacity(alloc, items.len())?;
    for item in items {
        add_spot(&mut spots, item)?;
    }
    Ok(spots)
}

fn add_spot(spots: &mut Vec<Spot>, item: &Item) -> Result<(), AllocError>
    ensures { OnOk result (spots.new.items ≡ spots.old.items ++ item_spot item.now) }
{
    match item {
        Item::Refers(space) => spots.push(spot_with(*space, false))?,
        Item::Declares(space) => spots.push(spot_with(*space, true))?,
        Item::Slot(_) | Item::Number | Item::Text => spots.push(spot_with(0, false))?,
        Item::Word(_) | Item::Space | Item::Tight | Item::Line | Item::In | Item::Out => {}
    }
    Ok(())
}

fn spot_with(space: u32, declares: bool) -> Spot
    ensures { result ≡ record { space = space; declares = declares } }
{
    Spot { space, declares }
}

/// Returns the spot of the part with the number.
fn spot_at(spots: &[Spot], place: usize) -> Spot
    ensures { result ≡ spot_in spots.now place }
{
    match spots.get(place) {
        Some(found) => *found,
        None => spot_with(0, false),
    }
}
