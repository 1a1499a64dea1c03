//! Whether the head of a row is an instance of a hole row.
ghost use Rattle.std.specs.Prelude.{◌≡◌, ◌↔◌, ◌∷◌, [], IfOk, IsTrue, map};
ghost use Rattle.psg_terms.specs.Instances.{Substitution, substitute, IsInstance};
ghost use Rattle.psg_covering.specs.Choices.{HasCover};
ghost use Rattle.psg_covering.specs.Index.{IsIndex};

use crate::index::{Index, rows_meeting};
use crate::numbers::row_at;
use crate::room::test_work;
use psg_grammar::{Definition, HoleRow, Kind};
use psg_terms::matching::is_instance;
use psg_terms::{Node, Room, Term};
use std::alloc::{AllocError, Global};
use std::slice;

/// Tests whether the term is an instance of a hole row of the kind. It goes over the hole rows that begin as the term
/// does, up to one that serves.
pub(crate) fn has_cover(
    alloc: Global,
    definition: &Definition,
    index: &Index,
    room: &mut Room,
    kind: Kind,
    term: &Term,
) -> Result<bool, AllocError>
    requires { IsIndex definition.now index.now }
    ensures { IfOk result (λ b. IsTrue b ↔ HasCover definition.now kind term.now) }
{
    let numbers = rows_meeting(alloc, definition, index, room, kind, term)?;
    let numbers = numbers.as_slice();
    for i in 0..numbers.len() {
        let row = row_at(definition, kind, numbers, i);
        if is_made_of(alloc, room, term, row)? {
            return Ok(true);
        }
    }
    Ok(false)
}

/// Tests whether the term is an instance of the hole row. Where they have different constructors at one place, no table
/// of variables is made.
fn is_made_of(
    alloc: Global,
    room: &mut Room,
    term: &Term,
    row: &HoleRow,
) -> Result<bool, AllocError>
    ensures { IfOk result (λ b. IsTrue b ↔ IsInstance (term.now ∷ []) (row.now.term ∷ [])) }
{
    room.spend(row.term.symbols())?;
    if differs(term, &row.term) {
        return Ok(false);
    }
    room.spend(test_work(&row.term))?;
    let instance = is_instance(alloc, slice::from_ref(term), slice::from_ref(&row.term))?;
    Ok(instance)
}

/// Tests whether the general term has a constructor at a place where the special one has another one or a variable.
#[cycle(differs)]
fn differs(special: &Term, general: &Term) -> bool
    ensures { IsTrue result → (f : Substitution) → special.now ≡ substitute f general.now → ⊥ }
{
    match general.node() {
        Node::Con { con, args } => match special.node() {
            Node::Con {
                con: other,
                args: parts,
            } => {
                if con.0 != other.0 {
                    return true;
                }
                any_differs(parts.as_slice(), args.as_slice())
            }
            Node::Var { .. } => true,
        },
        Node::Var { .. } => false,
    }
}

/// Says whether the terms at some place of two rows differ, or the rows' lengths do.
#[cycle(differs)]
fn any_differs(special: &[Term], general: &[Term]) -> bool
    ensures { IsTrue result → (f : Substitution) → special.now ≡ map (substitute f) general.now → ⊥ }
{
    if special.len() != general.len() {
        return true;
    }
    for i in 0..special.len() {
        if differs(&special[i], &general[i]) {
            return true;
        }
    }
    false
}
