//! Classes of constructor cells that are equal, kept beside a pool, whose constructor cells never change.
ghost use Rattle.std.specs.Prelude.{◌≡◌, ◌<◌, ◌≤◌, ◌+◌, ◌-◌, List, length, set, max, replicate, None, Some};
ghost use Rattle.std.specs.Prelude.{IfOk, IfSome, IfNone};
ghost use Rattle.psg_pool.specs.Cells.{IsAmong};
ghost use Rattle.psg_pool.specs.declared.cells.CellId.{CellId as Id};
ghost use Rattle.psg_unify.specs.Valuations.{Equation, Follows, AreLinked};
ghost use Rattle.psg_unify.specs.Joined.{IsNext, IsStep, AreThere};
ghost use Rattle.psg_unify.specs.Climbing.{IsClimbing, IsEnd, height_at};

use psg_pool::{Cell, CellId, Pool};
use std::alloc::{AllocError, Global};

/// For each cell from `base` on the cell that it was joined to, and how long the longest way to the cell is.
#[derive(Drop)]
pub struct Classes {
    base: usize,
    next: Vec<Option<CellId>>,
    heights: Vec<usize>,
}

impl Classes {
    /// Makes classes of this number of cells from `base` on, each in one of its own.
    pub fn new(alloc: Global, base: usize, count: usize) -> Result<Classes, AllocError>
        ensures base { IfOk result (λ c. c.base ≡ base) }
        ensures none { IfOk result (λ c. (id to : Id) → IsNext c id to → ⊥) }
        ensures next { IfOk result (λ c. c.next.items ≡ replicate count None) }
        ensures heights { IfOk result (λ c. c.heights.items ≡ replicate count 0) }
    {
        let next = vec![in alloc; None; count]?;
        let heights = vec![in alloc; 0; count]?;
        Ok(Classes {
            base,
            next,
            heights,
        })
    }
}

/// Returns the cell that a cell was joined to, if there is one.
fn next_of(classes: &Classes, id: CellId) -> Option<CellId>
    requires from { classes.now.base ≤ id.0 }
    requires within { id.0 < classes.now.base + length classes.now.next.items }
    ensures some { IfSome result (λ to. IsNext classes.now id to) }
    ensures none { IfNone result ((to : Id) → IsNext classes.now id to → ⊥) }
{
    let next = classes.next.as_slice();
    let place = id.0 - classes.base;
    let to = next[place];
    to
}

/// Returns how long the longest way to the cell is, as it was noted.
pub fn height_of(classes: &Classes, id: CellId) -> usize
    requires from { classes.now.base ≤ id.0 }
    requires within { id.0 < classes.now.base + length classes.now.heights.items }
    ensures { result ≡ height_at classes.now id }
{
    let heights = classes.heights.as_slice();
    let place = id.0 - classes.base;
    let height = heights[place];
    height
}

/// Returns the height of a cell above a lower one, which is at least what it was.
fn above(lower: usize, higher: usize, most: usize) -> usize
    requires { lower < most }
    ensures { result ≡ max higher (lower + 1) }
{
    if lower < higher {
        return higher;
    }
    lower + 1
}

/// Raises a cell above another one.
pub fn raise(classes: &mut Classes, lower: CellId, higher: CellId)
    requires lower_from { classes.old.base ≤ lower.0 }
    requires lower_within { lower.0 < classes.old.base + length classes.old.heights.items }
    requires higher_from { classes.old.base ≤ higher.0 }
    requires higher_within { higher.0 < classes.old.base + length classes.old.heights.items }
    requires room { height_at classes.old lower < length classes.old.heights.items }
    ensures base { classes.new.base ≡ classes.old.base }
    ensures next { classes.new.next ≡ classes.old.next }
    ensures heights { classes.new.heights.items ≡ set classes.old.heights.items (higher.0 - classes.old.base)
        (max (height_at classes.old higher) (height_at classes.old lower + 1)) }
{
    let most = classes.heights.len();
    let height = above(height_of(classes, lower), height_of(classes, higher), most);
    let place = higher.0 - classes.base;
    classes.heights[place] = height;
}

/// Joins a cell to another one.
pub fn join(classes: &mut Classes, from: CellId, to: CellId)
    requires from { classes.old.base ≤ from.0 }
    requires within { from.0 < classes.old.base + length classes.old.next.items }
    ensures base { classes.new.base ≡ classes.old.base }
    ensures next { classes.new.next.items ≡ set classes.old.next.items (from.0 - classes.old.base) (Some to) }
    ensures heights { classes.new.heights ≡ classes.old.heights }
{
    let place = from.0 - classes.base;
    classes.next[place] = Some(to);
}

/// Returns the cell to which a binding or a class leads from a cell, if there is one.
fn step(pool: &Pool, classes: &Classes, id: CellId) -> Option<CellId>
    requires there { IsAmong pool.now.cells id }
    requires from { classes.now.base ≤ id.0 }
    requires count { classes.now.base + length classes.now.next.items ≡ length pool.now.cells }
    ensures some { IfSome result (λ to. IsStep pool.now classes.now id to) }
    ensures none { IfNone result (IsEnd pool.now classes.now id) }
{
    let cell = pool.cell(id);
    match cell {
        Cell::Bound(to) => Some(to),
        Cell::Free(_) => next_of(classes, id),
        Cell::Con { .. } => next_of(classes, id),
    }
}

/// Returns the cell at which bindings and classes lead no further. Each step leads to a higher cell, so there are fewer
/// than the classes have cells.
pub fn end_of(pool: &Pool, classes: &Classes, from: CellId) -> CellId
    requires from { classes.now.base ≤ from.0 }
    requires among { IsAmong pool.now.cells from }
    requires there { AreThere pool.now.cells classes.now }
    requires climbing { IsClimbing pool.now classes.now }
    ensures end { IsEnd pool.now classes.now result }
    ensures follows { (apart : List Equation) → ((x to : Id) → IsNext classes.now x to → AreLinked apart x to)
        → Follows pool.now.bindings apart from result }
{
    let _mark = pool.mark();
    let mut id = from;
    while let Some(next) = step(pool, classes, id) {
        id = next;
    }
    id
}
