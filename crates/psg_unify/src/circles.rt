//! Whether cells lead back to themselves, by one walk over them.
ghost use Rattle.std.specs.Prelude.{◌≡◌, ◌<◌, ◌≤◌, ◌+◌, ◌-◌, ◌∷◌, ◌↔◌, [], IfOk, IfSome, IfNone, OnOk, IsTrue};
ghost use Rattle.std.specs.Prelude.{ℕ, true, false, reverse, length, set};
ghost use Rattle.psg_pool.specs.Cells.{IsAmong};
ghost use Rattle.psg_pool.specs.Bindings.{Kept};
ghost use Rattle.psg_pool.specs.declared.cells.CellId.{CellId as Id};
ghost use Rattle.psg_unify.specs.declared.circles.Progress.TheVariants.{New as Unseen, Left as Done};
ghost use Rattle.psg_unify.specs.declared.walking.Item.TheVariants.{Visit};
ghost use Rattle.psg_unify.specs.Circles.{IsAt, IsWalking, StaysWalking, IsClosed, AreVisits};
ghost use Rattle.psg_unify.specs.Circles.{HasNext, HasCircle, FallsFrom, unseen};

use crate::walking::{Item, push_arguments};
use psg_pool::{Cell, CellId, Pool};
use std::alloc::{AllocError, Global};

/// What the walk has done at a cell.
#[derive(Clone, Copy)]
pub enum Progress {
    /// The walk did not reach the cell yet.
    New,
    /// The walk is in cells that the cell leads to.
    Open,
    /// The walk has left the cell, and before it all cells to which it leads.
    Left,
}

/// Returns what the walk has done at the cell.
fn progress_of(marks: &Vec<Progress>, base: usize, id: CellId) -> Progress
    requires from { base ≤ id.0 }
    requires within { id.0 < base + length marks.now.items }
    ensures { IsAt base marks.now.items id result }
{
    let place = id.0 - base;
    let marks = marks.as_slice();
    let progress = marks[place];
    progress
}

/// Notes what the walk has done at the cell.
fn set_progress(marks: &mut Vec<Progress>, base: usize, id: CellId, progress: Progress)
    requires from { base ≤ id.0 }
    requires within { id.0 < base + length marks.old.items }
    ensures { marks.new.items ≡ set marks.old.items (id.0 - base) progress }
{
    let place = id.0 - base;
    marks[place] = progress;
}

/// Puts visits to the cells to which a cell leads on the stack.
fn push_next(pool: &Pool, stack: &mut Vec<Item>, id: CellId) -> Result<(), AllocError>
    requires { IsAmong pool.now.cells id }
    ensures { OnOk result (HasNext pool.now id (reverse stack.old.items) (reverse stack.new.items)) }
{
    let cell = pool.cell(id);
    match cell {
        Cell::Free(_) => Ok(()),
        Cell::Bound(to) => {
            stack.push(Item::Visit(to))?;
            Ok(())
        }
        Cell::Con { count, .. } => {
            push_arguments(pool, stack, id, count)?;
            Ok(())
        }
    }
}

/// Opens a cell that is new: it is to be left after the cells to which it leads.
fn open_cell(
    pool: &Pool,
    marks: &mut Vec<Progress>,
    stack: &mut Vec<Item>,
    base: usize,
    id: CellId,
) -> Result<(), AllocError>
    requires unseen { IsAt base marks.old.items id Unseen }
    requires walking { IsWalking pool.now base marks.old.items (Visit id ∷ reverse stack.old.items) }
    ensures walking { OnOk result (IsWalking pool.now base marks.new.items (reverse stack.new.items)) }
    ensures fewer { OnOk result (unseen marks.new.items < unseen marks.old.items) }
{
    let _mark = pool.mark();
    set_progress(marks, base, id, Progress::Open);
    stack.push(Item::Leave(id))?;
    push_next(pool, stack, id)?;
    Ok(())
}

/// Goes to a cell that was not left, and says whether it was not open.
fn visit(
    pool: &Pool,
    marks: &mut Vec<Progress>,
    stack: &mut Vec<Item>,
    base: usize,
    id: CellId,
) -> Result<bool, AllocError>
    requires walking { IsWalking pool.now base marks.old.items (Visit id ∷ reverse stack.old.items) }
    requires other { IsAt base marks.old.items id Done → ⊥ }
    ensures yes { IfOk result (λ d. d ≡ true → IsWalking pool.now base marks.new.items (reverse stack.new.items)) }
    ensures fewer { IfOk result (λ d. d ≡ true → unseen marks.new.items < unseen marks.old.items) }
    ensures no { IfOk result (λ d. d ≡ false → HasCircle pool.now) }
{
    let progress = progress_of(marks, base, id);
    match progress {
        Progress::Left => unreachable!(),
        Progress::Open => Ok(false),
        Progress::New => {
            open_cell(pool, marks, stack, base, id)?;
            Ok(true)
        }
    }
}

/// Says whether the cell was left.
fn was_left(marks: &Vec<Progress>, base: usize, id: CellId) -> bool
    requires from { base ≤ id.0 }
    requires within { id.0 < base + length marks.now.items }
    ensures { IsTrue result ↔ IsAt base marks.now.items id Done }
{
    let progress = progress_of(marks, base, id);
    match progress {
        Progress::Left => true,
        Progress::New => false,
        Progress::Open => false,
    }
}

/// Takes items from the stack up to a visit to a cell that was not left, and returns this cell. Cells that are to be
/// left before are left. `None` where the stack is empty.
fn next_visit(marks: &mut Vec<Progress>, stack: &mut Vec<Item>, base: usize) -> Option<CellId>
    requires { (kept : Kept) × IsWalking kept base marks.old.items (reverse stack.old.items) }
    ensures some { IfSome result (λ id. StaysWalking base marks.old.items marks.new.items (reverse stack.old.items)
        (Visit id ∷ reverse stack.new.items)) }
    ensures other { IfSome result (λ id. IsAt base marks.new.items id Done → ⊥) }
    ensures none { IfNone result (StaysWalking base marks.old.items marks.new.items (reverse stack.old.items) []) }
    ensures fewer { unseen marks.new.items ≤ unseen marks.old.items }
{
    while let Some(item) = stack.pop() {
        match item {
            Item::Leave(id) => set_progress(marks, base, id, Progress::Left),
            Item::Visit(id) => {
                if !was_left(marks, base, id) {
                    return Some(id);
                }
            }
        }
    }
    None
}

/// Does all that is on the stack, and says whether no circle was met. Each turn opens a cell.
fn walk(
    pool: &Pool,
    marks: &mut Vec<Progress>,
    stack: &mut Vec<Item>,
    base: usize,
) -> Result<bool, AllocError>
    requires { IsWalking pool.now base marks.old.items (reverse stack.old.items) }
    ensures yes { IfOk result (λ d. d ≡ true → IsWalking pool.now base marks.new.items []) }
    ensures no { IfOk result (λ d. d ≡ false → HasCircle pool.now) }
{
    while let Some(id) = next_visit(marks, stack, base) {
        if !visit(pool, marks, stack, base, id)? {
            return Ok(false);
        }
    }
    Ok(true)
}

/// Returns visits to all cells from `base` on up to the one before `end`.
fn visits(alloc: Global, base: usize, end: usize) -> Result<Vec<Item>, AllocError>
    requires { base ≤ end }
    ensures { IfOk result (λ v. AreVisits base end (reverse v.items)) }
{
    let mut stack = Vec::with_capacity(alloc, end - base)?;
    for id in base..end {
        stack.push(Item::Visit(CellId(id)))?;
    }
    Ok(stack)
}

/// Says whether no cell from `base` on leads back to itself. It goes to each of these cells once, and over its
/// arguments. It returns `AllocError` when memory runs out.
pub fn is_falling(alloc: Global, pool: &Pool, base: usize) -> Result<bool, AllocError>
    requires base { base ≤ length pool.now.cells }
    requires closed { IsClosed base pool.now }
    ensures yes { IfOk result (λ d. d ≡ true → (height : Id → ℕ) × FallsFrom pool.now base height) }
    ensures no { IfOk result (λ d. d ≡ false → HasCircle pool.now) }
{
    let count = pool.count();
    let mut marks = vec![in alloc; Progress::New; count - base]?;
    let mut stack = visits(alloc, base, count)?;
    let falls = walk(pool, &mut marks, &mut stack, base)?;
    Ok(falls)
}
