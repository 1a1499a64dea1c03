//! Walks over cells, with a stack of what is still to be done.
ghost use Rattle.std.specs.Prelude.{◌≡◌, ◌++◌, reverse, map, length, OnOk};
ghost use Rattle.psg_pool.specs.Cells.{arguments_of};
ghost use Rattle.psg_pool.specs.declared.cells.CellId.{CellId as Id};
ghost use Rattle.psg_unify.specs.declared.walking.Item.TheVariants.{Visit};

use psg_pool::{CellId, Pool};
use std::alloc::AllocError;

/// What is still to be done at a cell.
#[derive(Clone, Copy)]
pub enum Item {
    /// Go to the cell.
    Visit(CellId),
    /// Leave the cell, whose arguments are done.
    Leave(CellId),
}

/// Puts visits to the arguments of a cell on the stack, the first one on top.
pub fn push_arguments(
    pool: &Pool,
    stack: &mut Vec<Item>,
    id: CellId,
    count: usize,
) -> Result<(), AllocError>
    requires { length (arguments_of pool.now.cells id) ≡ count }
    ensures { OnOk result (reverse stack.new.items ≡ map (λ (a : Id). Visit a) (arguments_of pool.now.cells id)
        ++ reverse stack.old.items) }
{
    let mut k = count;
    while k > 0 {
        k -= 1;
        stack.push(Item::Visit(pool.arg(id, k)))?;
    }
    Ok(())
}

/// Puts visits to the cells on the stack, the first one on top.
pub fn push_cells(stack: &mut Vec<Item>, cells: &[CellId]) -> Result<(), AllocError>
    ensures { OnOk result (stack.new.items ≡ stack.old.items ++ reverse (map (λ (a : Id). Visit a) cells.now)) }
{
    let mut rest = cells;
    while let Some((id, front)) = rest.split_last() {
        rest = front;
        stack.push(Item::Visit(*id))?;
    }
    Ok(())
}
