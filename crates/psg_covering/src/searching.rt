//! The search for values of a row that no hole row has.
ghost use Rattle.std.specs.Prelude.{◌≡◌, ◌<◌, ◌↔◌, IfOk, IsTrue, Some, length, slice_get};
ghost use Rattle.psg_grammar.specs.Sound.{IsSound};
ghost use Rattle.psg_covering.specs.Choices.{Fits, IsCovered};
ghost use Rattle.psg_covering.specs.Index.{IsIndex};

use crate::choosing::{add_row, next_front};
use crate::front::Front;
use crate::index::Index;
use psg_grammar::{Definition, Kind};
use psg_relation::RelRow;
use psg_terms::Room;
use std::alloc::{AllocError, Global};

/// Tests whether for each choice of hole rows for the slots, whose columns are after the head of the row, the values
/// of the head are values of one hole row of the kind.
///
/// Where the head is an instance of a hole row, nothing is chosen. Else the choices are made slot by slot, for all rows
/// of a front at once, and rows that are equal again are one row.
pub(crate) fn is_covered(
    alloc: Global,
    definition: &Definition,
    index: &Index,
    room: &mut Room,
    kind: Kind,
    slots: &[Kind],
    row: RelRow,
) -> Result<bool, AllocError>
    requires sound { IsSound definition.now }
    requires index { IsIndex definition.now index.now }
    requires fits { Fits definition.now kind slots.now row }
    ensures { IfOk result (λ b. IsTrue b ↔ IsCovered definition.now kind slots.now row) }
{
    let mut first = Front::new(alloc);
    add_row(alloc, definition, index, room, kind, row, &mut first)?;
    let mut front = first.rows;
    for number in 0..slots.len() {
        let slot = slot_at(slots, number);
        front = next_front(alloc, definition, index, room, kind, slot, front.as_slice())?;
    }
    Ok(front.as_slice().is_empty())
}

fn slot_at(slots: &[Kind], number: usize) -> Kind
    requires { number < length slots.now }
    ensures { slice_get slots.now number ≡ Some result }
{
    slots[number]
}
