//! The hole places of a specimen, from left to right.
ghost use Rattle.std.specs.Prelude.{◌≡◌, ◌++◌, ◌∷◌, [], OnOk};
ghost use Rattle.psg_grammar.specs.Specimens.{holes_of, holes_of_part, rest_hole};
ghost use Rattle.psg_specimen.specs.Parts.{element_places, part_places};

use psg_grammar::{Specimen, SpecimenHole, SpecimenPart};
use std::alloc::AllocError;

/// Puts the hole places of a specimen after the others; their terms are shared. It calls itself as deep as the
/// specimen is nested, in a definition that was read 32 times.
#[cycle(places)]
pub(crate) fn add_places(
    specimen: &Specimen,
    places: &mut Vec<SpecimenHole>,
) -> Result<(), AllocError>
    ensures { OnOk result (places.new.items ≡ places.old.items ++ holes_of specimen.now) }
{
    match specimen {
        Specimen::Op { parts, .. } => {
            for part in parts.as_slice() {
                add_part(part, places)?;
            }
            Ok(())
        }
        Specimen::List { elements, rest, .. } => {
            for element in elements.as_slice() {
                add_places(element, places)?;
            }
            add_rest(rest, places)?;
            Ok(())
        }
        Specimen::Hole(place) => {
            add_place(place, places)?;
            Ok(())
        }
    }
}

#[cycle(places)]
fn add_part(part: &SpecimenPart, places: &mut Vec<SpecimenHole>) -> Result<(), AllocError>
    ensures { OnOk result (places.new.items ≡ places.old.items ++ holes_of_part part.now) }
{
    match part {
        SpecimenPart::Sub(specimen) => {
            add_places(specimen, places)?;
            Ok(())
        }
        SpecimenPart::Name(_) => Ok(()),
        SpecimenPart::Number(_) => Ok(()),
        SpecimenPart::Text(_) => Ok(()),
    }
}

fn add_rest(rest: &Option<SpecimenHole>, places: &mut Vec<SpecimenHole>) -> Result<(), AllocError>
    ensures { OnOk result (places.new.items ≡ places.old.items ++ rest_hole rest.now) }
{
    if let Some(place) = rest {
        add_place(place, places)?;
    }
    Ok(())
}

fn add_place(place: &SpecimenHole, places: &mut Vec<SpecimenHole>) -> Result<(), AllocError>
    ensures { OnOk result (places.new.items ≡ places.old.items ++ place.now ∷ []) }
{
    let term = place.term.share()?;
    let shared = SpecimenHole {
        kind: place.kind,
        term,
    };
    places.push(shared)?;
    Ok(())
}
