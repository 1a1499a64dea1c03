//! Whether the term of a hole place is an instance of a hole row.
ghost use Rattle.std.specs.Prelude.{◌↔◌, ◌∷◌, [], IfOk, IsTrue, false};
ghost use Rattle.psg_terms.specs.Instances.{IsInstance};
ghost use Rattle.psg_completions.specs.Places.{IsOfOneRow};
ghost use Rattle.psg_specimen.specs.Wanted.{IsOfRow};

use psg_grammar::{Definition, HoleRow, SpecimenHole, same_kind};
use psg_terms::matching::is_instance;
use psg_terms::{Node, Term};
use std::alloc::{AllocError, Global};
use std::slice;

/// Tests whether the place's term is an instance of the term of one hole row of its kind.
///
/// The rows are gone over in order, and only those of the place's kind whose term begins as its own are compared with
/// it.
pub(crate) fn is_of_one_row(
    alloc: Global,
    definition: &Definition,
    place: &SpecimenHole,
) -> Result<bool, AllocError>
    ensures { IfOk result (λ b. IsTrue b ↔ IsOfOneRow definition.now place.now) }
{
    let rows = definition.hole_rows.as_slice();
    for number in 0..rows.len() {
        if is_of_row(alloc, place, &rows[number])? {
            return Ok(true);
        }
    }
    Ok(false)
}

fn is_of_row(alloc: Global, place: &SpecimenHole, row: &HoleRow) -> Result<bool, AllocError>
    ensures { IfOk result (λ b. IsTrue b ↔ IsOfRow place.now row.now) }
{
    if !same_kind(row.kind, place.kind) {
        return Ok(false);
    }
    let instance = is_made_of(alloc, &place.term, &row.term)?;
    Ok(instance)
}

/// Tests whether the special term is an instance of the general one. Two terms of different constructors cost nothing.
pub(crate) fn is_made_of(alloc: Global, special: &Term, general: &Term) -> Result<bool, AllocError>
    ensures { IfOk result (λ b. IsTrue b ↔ IsInstance (special.now ∷ []) (general.now ∷ [])) }
{
    if begin_apart(special, general) {
        return Ok(false);
    }
    let instance = is_instance(alloc, slice::from_ref(special), slice::from_ref(general))?;
    Ok(instance)
}

/// Says whether the general term is a constructor's and the special one is not of the same constructor.
fn begin_apart(special: &Term, general: &Term) -> bool
    ensures { IsTrue result → IsInstance (special.now ∷ []) (general.now ∷ []) → ⊥ }
{
    match general.node() {
        Node::Con { con, .. } => match special.node() {
            Node::Con { con: other, .. } => con.0 != other.0,
            Node::Var { .. } => true,
        },
        Node::Var { .. } => false,
    }
}
