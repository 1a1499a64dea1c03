//! Cells numbered by what they read as, each once.
ghost use Rattle.std.specs.Prelude.{◌≡◌, ◌↔◌, ◌<◌, ◌∷◌, [], All, IfOk, IfSome, IfNone, OnOk, IsTrue, List, ℕ};
ghost use Rattle.std.specs.Prelude.{length, reverse};
ghost use Rattle.psg_pool.specs.Cells.{IsAmong, arguments_of};
ghost use Rattle.psg_pool.specs.Bindings.{Holds};
ghost use Rattle.psg_pool.specs.declared.cells.Cell.TheVariants.{Free as Open, Con as Made};
ghost use Rattle.psg_pool.specs.declared.cells.CellId.{CellId as Id};
ghost use Rattle.psg_unify.specs.declared.walking.Item.{Item as Step};
ghost use Rattle.psg_unify.specs.declared.walking.Item.TheVariants.{Visit, Leave};
ghost use Rattle.psg_unify.specs.Circles.{HasCircle};
ghost use Rattle.psg_unify.specs.Reading.{Reading};
ghost use Rattle.psg_unify.specs.Filling.{IsFilled, IsKept, IsFilling, StaysFilling, IsNextEmpty, fresh};
ghost use Rattle.psg_unify.specs.Numbering.{IsClearReading, IsNumbered, Makes, StaysNumbered};

use crate::forms::{
    Numbers, find, is_numbered, number_of, of_apply, of_open, of_symbol, set_number,
};
use crate::walking::{Item, push_arguments, push_cells};
use psg_pool::{Cell, CellId, Pool};
use psg_terms::{Signature, SortId};
use std::alloc::{AllocError, Global};

/// Numbers an open cell.
fn number_open(
    sig: &Signature,
    pool: &Pool,
    numbers: &mut Numbers,
    id: CellId,
    sort: u32,
) -> Result<(), AllocError>
    requires holds { Holds pool.now id (Open sort) }
    requires within { id.0 < length numbers.old.cells.items }
    ensures numbered { OnOk result (StaysNumbered sig.now pool.now numbers.old numbers.new) }
    ensures kept { OnOk result (IsKept numbers.old.cells.items numbers.new.cells.items id) }
{
    match sig.constant_of(SortId(sort)) {
        Some(con) => {
            let number = find(&mut numbers.forms, of_symbol(con.0))?;
            set_number(&mut numbers.cells, id, number);
            Ok(())
        }
        None => {
            let number = find(&mut numbers.forms, of_open(sort, id))?;
            set_number(&mut numbers.cells, id, number);
            Ok(())
        }
    }
}

/// Returns the number of what a constructor cell reads as, the arguments being numbered.
fn number_made(
    sig: &Signature,
    pool: &Pool,
    numbers: &mut Numbers,
    id: CellId,
    con: u32,
    count: usize,
) -> Result<usize, AllocError>
    requires holds { Holds pool.now id (Made con count) }
    requires there { All (IsFilled numbers.old.cells.items) (arguments_of pool.now.cells id) }
    ensures numbered { OnOk result (StaysNumbered sig.now pool.now numbers.old numbers.new) }
    ensures number { IfOk result (λ k. (read : Reading) → IsClearReading sig.now pool.now read
        → IsNumbered read numbers.old → Makes numbers.new.forms.keys k (read id)) }
    ensures cells { OnOk result (numbers.new.cells ≡ numbers.old.cells) }
{
    let _ = sig;
    let mut made = find(&mut numbers.forms, of_symbol(con))?;
    for k in 0..count {
        let argument = pool.arg(id, k);
        let number = number_of(numbers.cells.as_slice(), argument);
        let next = find(&mut numbers.forms, of_apply(made, number))?;
        made = next;
    }
    Ok(made)
}

/// Goes to a cell that was not numbered: an open one is numbered, and of the others first what they lead to.
fn go_to(
    sig: &Signature,
    pool: &Pool,
    numbers: &mut Numbers,
    stack: &mut Vec<Item>,
    id: CellId,
) -> Result<(), AllocError>
    requires filling { (cells : List Id)
        × IsFilling pool.now cells numbers.old.cells.items (Visit id ∷ reverse stack.old.items) }
    requires circles { HasCircle pool.now → ⊥ }
    requires other { IsFilled numbers.old.cells.items id → ⊥ }
    ensures numbered { OnOk result (StaysNumbered sig.now pool.now numbers.old numbers.new) }
    ensures stays { OnOk result (StaysFilling pool.now numbers.old.cells.items numbers.new.cells.items
        (Visit id ∷ reverse stack.old.items) (reverse stack.new.items)) }
    ensures fewer { OnOk result (fresh numbers.new.cells.items (reverse stack.new.items)
        < fresh numbers.old.cells.items (Visit id ∷ reverse stack.old.items)) }
{
    let _mark = pool.mark();
    let cell = pool.cell(id);
    match cell {
        Cell::Free(sort) => {
            number_open(sig, pool, numbers, id, sort)?;
            Ok(())
        }
        Cell::Bound(to) => {
            stack.push(Item::Leave(id))?;
            stack.push(Item::Visit(to))?;
            Ok(())
        }
        Cell::Con { count, .. } => {
            stack.push(Item::Leave(id))?;
            push_arguments(pool, stack, id, count)?;
            Ok(())
        }
    }
}

/// Numbers a cell, what it leads to being numbered.
fn leave(sig: &Signature, pool: &Pool, numbers: &mut Numbers, id: CellId) -> Result<(), AllocError>
    requires { (cells : List Id) × (rest : List Step)
        × IsFilling pool.now cells numbers.old.cells.items (Leave id ∷ rest) }
    ensures numbered { OnOk result (StaysNumbered sig.now pool.now numbers.old numbers.new) }
    ensures kept { OnOk result (IsKept numbers.old.cells.items numbers.new.cells.items id) }
{
    let cell = pool.cell(id);
    match cell {
        Cell::Free(_) => unreachable!(),
        Cell::Bound(to) => {
            let number = number_of(numbers.cells.as_slice(), to);
            set_number(&mut numbers.cells, id, number);
            Ok(())
        }
        Cell::Con { con, count } => {
            let made = number_made(sig, pool, numbers, id, con, count)?;
            set_number(&mut numbers.cells, id, made);
            Ok(())
        }
    }
}

/// Takes items from the stack up to a visit to a cell that was not numbered, and returns this cell. Cells that are to
/// be left before are numbered. `None` where the stack is empty.
fn next_unnumbered(
    sig: &Signature,
    pool: &Pool,
    numbers: &mut Numbers,
    stack: &mut Vec<Item>,
) -> Result<Option<CellId>, AllocError>
    requires { (cells : List Id) × IsFilling pool.now cells numbers.old.cells.items (reverse stack.old.items) }
    ensures numbered { OnOk result (StaysNumbered sig.now pool.now numbers.old numbers.new) }
    ensures some { IfOk result (λ o. IfSome o (λ id. IsNextEmpty pool.now numbers.old.cells.items
        numbers.new.cells.items (reverse stack.old.items) (reverse stack.new.items) id)) }
    ensures stays { IfOk result (λ o. IfNone o (StaysFilling pool.now numbers.old.cells.items
        numbers.new.cells.items (reverse stack.old.items) [])) }
{
    while let Some(item) = stack.pop() {
        match item {
            Item::Leave(id) => {
                leave(sig, pool, numbers, id)?;
            }
            Item::Visit(id) => {
                if !is_numbered(numbers.cells.as_slice(), id) {
                    return Ok(Some(id));
                }
            }
        }
    }
    Ok(None)
}

/// Numbers all cells that are on the stack, and those to which they lead. Each turn goes to a cell that was neither
/// numbered nor gone to.
fn number_all(
    sig: &Signature,
    pool: &Pool,
    numbers: &mut Numbers,
    stack: &mut Vec<Item>,
) -> Result<(), AllocError>
    requires filling { (cells : List Id)
        × IsFilling pool.now cells numbers.old.cells.items (reverse stack.old.items) }
    requires circles { HasCircle pool.now → ⊥ }
    ensures numbered { OnOk result (StaysNumbered sig.now pool.now numbers.old numbers.new) }
    ensures stays { OnOk result (StaysFilling pool.now numbers.old.cells.items numbers.new.cells.items
        (reverse stack.old.items) []) }
{
    while let Some(id) = next_unnumbered(sig, pool, numbers, stack)? {
        go_to(sig, pool, numbers, stack, id)?;
    }
    Ok(())
}

/// Says whether two cells read as one term. These cells and those to which they lead are numbered where they were not.
pub fn read_alike(
    alloc: Global,
    sig: &Signature,
    pool: &Pool,
    numbers: &mut Numbers,
    a: CellId,
    b: CellId,
) -> Result<bool, AllocError>
    requires a { IsAmong pool.now.cells a }
    requires b { IsAmong pool.now.cells b }
    requires circles { HasCircle pool.now → ⊥ }
    requires count { length numbers.old.cells.items ≡ length pool.now.cells }
    ensures numbered { OnOk result (StaysNumbered sig.now pool.now numbers.old numbers.new) }
    ensures alike { IfOk result (λ d. (read : Reading) → IsClearReading sig.now pool.now read
        → IsNumbered read numbers.old → IsTrue d ↔ (read a ≡ read b)) }
    ensures count { OnOk result (length numbers.new.cells.items ≡ length pool.now.cells) }
{
    let mut stack = Vec::new(alloc);
    push_cells(&mut stack, &[a, b])?;
    number_all(sig, pool, numbers, &mut stack)?;
    let cells = numbers.cells.as_slice();
    Ok(number_of(cells, a) == number_of(cells, b))
}
