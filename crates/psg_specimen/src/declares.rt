//! What the specimens of declare rows declare.
ghost use Rattle.std.specs.Prelude.{◌≡◌, ◌↔◌, IfOk, IsTrue, count_by};
ghost use Rattle.std.specs.List.{AllByRecursion};
ghost use Rattle.psg_specimen.specs.Declares.{DeclaresIt, IsDeclaration, IsOperator};
ghost use Rattle.psg_specimen.specs.Its.{declares_there};
ghost use Rattle.psg_specimen.specs.Walks.{Finds};

use crate::its::{Spot, add_its};
use psg_grammar::{DeclareRow, Definition, Specimen};
use std::alloc::{AllocError, Global};

/// Answers the first declare row whose specimen is no operator, does not declare `$it` once in its region in the
/// space of the row, or has `$it` in another space. It reads each specimen once.
pub(crate) fn first_astray(
    alloc: Global,
    definition: &Definition,
) -> Result<Option<usize>, AllocError>
    ensures { IfOk result (Finds (IsDeclaration definition.now)) }
{
    let rows = definition.declare_rows.as_slice();
    for number in 0..rows.len() {
        if !declares_it(alloc, definition, &rows[number])? {
            return Ok(Some(number));
        }
    }
    Ok(None)
}

fn declares_it(alloc: Global, definition: &Definition, row: &DeclareRow) -> Result<bool, AllocError>
    ensures { IfOk result (λ b. IsTrue b ↔ DeclaresIt definition.now row.now) }
{
    if !is_operator(&row.specimen) {
        return Ok(false);
    }
    let mut its = Vec::new(alloc);
    add_its(alloc, definition, true, &row.specimen, &mut its)?;
    let its = its.as_slice();
    if !are_of(row.space, its) {
        return Ok(false);
    }
    Ok(declaring(row.space, its) == 1)
}

fn is_operator(specimen: &Specimen) -> bool
    ensures { IsTrue result ↔ IsOperator specimen.now }
{
    match specimen {
        Specimen::Op { .. } => true,
        Specimen::List { .. } => false,
        Specimen::Hole(_) => false,
    }
}

/// Says whether all names are of the space.
fn are_of(space: u32, its: &[Spot]) -> bool
    ensures { IsTrue result ↔ AllByRecursion (λ x. x.space ≡ space) its.now }
{
    for place in 0..its.len() {
        if its[place].space != space {
            return false;
        }
    }
    true
}

/// Returns how many of the names declare in the space.
fn declaring(space: u32, its: &[Spot]) -> usize
    ensures { result ≡ count_by (declares_there space) its.now }
{
    its.iter()
        .filter(|spot| spot.declares && spot.space == space)
        .count()
}
