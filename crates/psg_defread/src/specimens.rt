//! Specimens with names in place of positions.
ghost use Rattle.std.specs.Prelude.{◌≡◌, IfOk, decimal};
ghost use Rattle.psg_deflines.specs.WrittenTrees.{WrittenTree, operator};
ghost use Rattle.psg_deflines.specs.TreeShapes.{with_part, ending};
ghost use Rattle.psg_defread.specs.WrittenLines.{kind_name, term_written, end_written, part_written, tree_written};

use crate::names::{kind_name, operator_name};
use crate::terms::term_written;
use psg_deflines::{LinePart, LinePlace, LineTree, TreeShape};
use psg_grammar::{Definition, Specimen, SpecimenHole, SpecimenPart};
use psg_terms::{Seq, Txt};
use std::alloc::{AllocError, Global};

/// Returns a place as it is written.
fn place_written(
    alloc: Global,
    definition: &Definition,
    hole: &SpecimenHole,
) -> Result<LinePlace, AllocError>
    ensures kind { IfOk result (λ p. p.kind ≡ kind_name definition.now hole.now.kind) }
    ensures term { IfOk result (λ p. p.term ≡ term_written definition.now hole.now.term) }
{
    let kind = kind_name(alloc, definition, hole.kind)?;
    let term = term_written(alloc, definition, &hole.term)?;
    Ok(LinePlace { kind, term })
}

/// Returns what a list goes on with after its elements.
fn rest_written(
    alloc: Global,
    definition: &Definition,
    rest: &Option<SpecimenHole>,
) -> Result<Option<LinePlace>, AllocError>
    ensures { IfOk result (λ r. ending r ≡ end_written definition.now rest.now) }
{
    match rest {
        None => Ok(None),
        Some(hole) => {
            let place = place_written(alloc, definition, hole)?;
            Ok(Some(place))
        }
    }
}

/// Returns a number, by its digits.
fn number_written(alloc: Global, number: u128) -> Result<Txt, AllocError>
    ensures { IfOk result (λ d. d ≡ decimal number) }
{
    let digits = format!(in alloc; "{number}")?;
    Ok(Txt::of(alloc, digits)?)
}

/// Returns a part of an operator as it is written.
#[cycle(tree)]
fn part_written(
    alloc: Global,
    definition: &Definition,
    part: &SpecimenPart,
) -> Result<LinePart, AllocError>
    ensures { IfOk result (λ p. (front : WrittenTree)
        → with_part front p ≡ part_written definition.now front part.now) }
{
    match part {
        SpecimenPart::Sub(specimen) => {
            let tree = tree_written(alloc, definition, specimen)?;
            Ok(LinePart::Tree(tree))
        }
        SpecimenPart::Name(name) => Ok(LinePart::Name(name.share()?)),
        SpecimenPart::Number(number) => Ok(LinePart::Number(number_written(alloc, *number)?)),
        SpecimenPart::Text(text) => Ok(LinePart::Text(text.share()?)),
    }
}

/// Makes the specimen as it is written. It calls itself as deep as the specimen is nested, which is at most 32 in a
/// definition that was read.
#[cycle(tree)]
pub fn tree_written(
    alloc: Global,
    definition: &Definition,
    specimen: &Specimen,
) -> Result<LineTree, AllocError>
    ensures { IfOk result (λ w. w ≡ tree_written definition.now specimen.now) }
{
    match specimen {
        Specimen::Op { op, parts } => {
            let name = operator_name(alloc, definition, *op)?;
            let parts = parts.as_slice();
            let mut written = Vec::with_capacity(alloc, parts.len())?;
            for i in 0..parts.len() {
                let one = part_written(alloc, definition, &parts[i])?;
                written.push(one)?;
            }
            let parts = Seq::of(written);
            let shape = TreeShape::Operator { name, parts };
            Ok(LineTree { shape })
        }
        Specimen::List { elements, rest, .. } => {
            let elements = elements.as_slice();
            let mut written = Vec::with_capacity(alloc, elements.len())?;
            for i in 0..elements.len() {
                let one = tree_written(alloc, definition, &elements[i])?;
                written.push(one)?;
            }
            let elements = Seq::of(written);
            let rest = rest_written(alloc, definition, rest)?;
            let shape = TreeShape::List { elements, rest };
            Ok(LineTree { shape })
        }
        Specimen::Hole(hole) => {
            let place = place_written(alloc, definition, hole)?;
            let shape = TreeShape::Place(place);
            Ok(LineTree { shape })
        }
    }
}
