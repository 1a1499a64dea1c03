//! Equations of cells, solved in a pool.
ghost use Rattle.std.specs.Prelude.{◌≡◌, ◌≢◌, ◌<◌, ◌≤◌, ◌+◌, ◌-◌, ◌++◌, ◌∷◌, [], IfOk, IfSome, IfNone, OnOk};
ghost use Rattle.std.specs.Prelude.{List, true, false, reverse, length, set, max, Some};
ghost use Rattle.psg_pool.specs.Cells.{IsPutFree, arguments_of};
ghost use Rattle.psg_pool.specs.Bindings.{Holds};
ghost use Rattle.psg_pool.specs.declared.cells.Cell.TheVariants.{Con};
ghost use Rattle.psg_unify.specs.Valuations.{Equation};
ghost use Rattle.psg_unify.specs.Climbing.{IsClimbing, IsEnd, IsGoing, IsCloser, height_at};
ghost use Rattle.psg_unify.specs.Meeting.{pairs_of, IsMoreBound, StaysSolving, HasNoValuation, CanSolve, IsNextApart};

use crate::classes::{Classes, end_of, height_of, join, raise};
use psg_pool::{Cell, CellId, Pool};
use std::alloc::AllocError;

/// Puts the arguments of two cells side by side on the stack, the first ones on top.
fn push_arguments(
    pool: &Pool,
    left: &mut Vec<(CellId, CellId)>,
    x: CellId,
    y: CellId,
    count: usize,
) -> Result<(), AllocError>
    requires x { length (arguments_of pool.now.cells x) ≡ count }
    requires y { length (arguments_of pool.now.cells y) ≡ count }
    ensures { OnOk result (reverse left.new.items
        ≡ pairs_of (arguments_of pool.now.cells x) (arguments_of pool.now.cells y) ++ reverse left.old.items) }
{
    let mut k = count;
    while k > 0 {
        k -= 1;
        left.push((pool.arg(x, k), pool.arg(y, k)))?;
    }
    Ok(())
}

/// Binds a free cell to another cell from which nothing leads on, and raises that one.
fn bind_free(pool: &mut Pool, classes: &mut Classes, x: CellId, y: CellId) -> Result<(), AllocError>
    requires is_free { IsPutFree pool.old.cells x }
    requires x_end { IsEnd pool.old classes.old x }
    requires y_end { IsEnd pool.old classes.old y }
    requires other { x.0 ≢ y.0 }
    requires climbing { IsClimbing pool.old classes.old }
    ensures bound { OnOk result ((left : List Equation)
        → StaysSolving pool.old pool.new classes.old classes.new ((x, y) ∷ left) left) }
    ensures closer { OnOk result ((left : List Equation) → IsGoing pool.old classes.old ((x, y) ∷ left)
        → IsCloser pool.old pool.new classes.old classes.new left) }
    ensures more { IsMoreBound pool.old pool.new }
    ensures base { classes.new.base ≡ classes.old.base }
{
    pool.bind(x, y)?;
    raise(classes, x, y);
    Ok(())
}

/// Joins the first cell to the second one, and raises that one.
fn join_to(classes: &mut Classes, x: CellId, y: CellId)
    requires from { classes.old.base ≤ x.0 }
    requires within { x.0 < classes.old.base + length classes.old.next.items }
    requires to_from { classes.old.base ≤ y.0 }
    requires to_within { y.0 < classes.old.base + length classes.old.next.items }
    requires heights { length classes.old.heights.items ≡ length classes.old.next.items }
    requires room { height_at classes.old x < length classes.old.heights.items }
    ensures base { classes.new.base ≡ classes.old.base }
    ensures next { classes.new.next.items ≡ set classes.old.next.items (x.0 - classes.old.base) (Some y) }
    ensures heights { classes.new.heights.items ≡ set classes.old.heights.items (y.0 - classes.old.base)
        (max (height_at classes.old y) (height_at classes.old x + 1)) }
{
    raise(classes, x, y);
    join(classes, x, y);
}

/// Joins the classes of two cells of one constructor, the lower class to the higher one, and puts their arguments on
/// the stack.
fn take_apart(
    pool: &Pool,
    classes: &mut Classes,
    left: &mut Vec<(CellId, CellId)>,
    x: CellId,
    y: CellId,
    con: u32,
    count: usize,
) -> Result<(), AllocError>
    requires x { Holds pool.now x (Con con count) }
    requires y { Holds pool.now y (Con con count) }
    requires x_end { IsEnd pool.now classes.old x }
    requires y_end { IsEnd pool.now classes.old y }
    requires other { x.0 ≢ y.0 }
    requires going { IsGoing pool.now classes.old ((x, y) ∷ reverse left.old.items) }
    ensures apart { OnOk result (StaysSolving pool.now pool.now classes.old classes.new
        ((x, y) ∷ reverse left.old.items) (reverse left.new.items)) }
    ensures closer { OnOk result (IsCloser pool.now pool.now classes.old classes.new (reverse left.new.items)) }
    ensures base { classes.new.base ≡ classes.old.base }
{
    let _mark = pool.mark();
    push_arguments(pool, left, x, y, count)?;
    if height_of(classes, y) < height_of(classes, x) {
        join_to(classes, y, x);
        return Ok(());
    }
    join_to(classes, x, y);
    Ok(())
}

/// Binds one of two free cells to the other one, the lower class to the higher one, so that no way gets longer than the
/// logarithm of the number of cells, and one step for the constructor.
fn meet_free(pool: &mut Pool, classes: &mut Classes, x: CellId, y: CellId) -> Result<(), AllocError>
    requires x { IsPutFree pool.old.cells x }
    requires y { IsPutFree pool.old.cells y }
    requires x_end { IsEnd pool.old classes.old x }
    requires y_end { IsEnd pool.old classes.old y }
    requires other { x.0 ≢ y.0 }
    requires climbing { IsClimbing pool.old classes.old }
    ensures bound { OnOk result ((left : List Equation)
        → StaysSolving pool.old pool.new classes.old classes.new ((x, y) ∷ left) left) }
    ensures closer { OnOk result ((left : List Equation) → IsGoing pool.old classes.old ((x, y) ∷ left)
        → IsCloser pool.old pool.new classes.old classes.new left) }
    ensures more { IsMoreBound pool.old pool.new }
    ensures base { classes.new.base ≡ classes.old.base }
{
    if height_of(classes, y) < height_of(classes, x) {
        bind_free(pool, classes, y, x)?;
        return Ok(());
    }
    bind_free(pool, classes, x, y)?;
    Ok(())
}

/// Binds a free cell to the cell at which another way ends.
fn meet_open(pool: &mut Pool, classes: &mut Classes, x: CellId, y: CellId) -> Result<(), AllocError>
    requires x { IsPutFree pool.old.cells x }
    requires x_end { IsEnd pool.old classes.old x }
    requires y_end { IsEnd pool.old classes.old y }
    requires other { x.0 ≢ y.0 }
    requires climbing { IsClimbing pool.old classes.old }
    ensures bound { OnOk result ((left : List Equation)
        → StaysSolving pool.old pool.new classes.old classes.new ((x, y) ∷ left) left) }
    ensures closer { OnOk result ((left : List Equation) → IsGoing pool.old classes.old ((x, y) ∷ left)
        → IsCloser pool.old pool.new classes.old classes.new left) }
    ensures more { IsMoreBound pool.old pool.new }
    ensures base { classes.new.base ≡ classes.old.base }
{
    match pool.cell(y) {
        Cell::Bound(_) => unreachable!(),
        Cell::Free(_) => {
            meet_free(pool, classes, x, y)?;
            Ok(())
        }
        Cell::Con { .. } => {
            bind_free(pool, classes, x, y)?;
            Ok(())
        }
    }
}

/// Makes a constructor cell and the cell at which another way ends equal, and says whether they can be.
fn meet_con(
    pool: &mut Pool,
    classes: &mut Classes,
    left: &mut Vec<(CellId, CellId)>,
    x: CellId,
    y: CellId,
    con: u32,
    count: usize,
) -> Result<bool, AllocError>
    requires solving { CanSolve pool.old classes.old ((x, y) ∷ reverse left.old.items) }
    requires x { Holds pool.old x (Con con count) }
    requires x_end { IsEnd pool.old classes.old x }
    requires y_end { IsEnd pool.old classes.old y }
    requires other { x.0 ≢ y.0 }
    requires going { IsGoing pool.old classes.old ((x, y) ∷ reverse left.old.items) }
    ensures yes { IfOk result (λ d. d ≡ true → StaysSolving pool.old pool.new classes.old classes.new
        ((x, y) ∷ reverse left.old.items) (reverse left.new.items)) }
    ensures closer { IfOk result (λ d. d ≡ true
        → IsCloser pool.old pool.new classes.old classes.new (reverse left.new.items)) }
    ensures no { IfOk result (λ d. d ≡ false → HasNoValuation pool.old classes.old ((x, y) ∷ reverse left.old.items)) }
    ensures more { IsMoreBound pool.old pool.new }
    ensures base { classes.new.base ≡ classes.old.base }
{
    match pool.cell(y) {
        Cell::Bound(_) => unreachable!(),
        Cell::Free(_) => {
            bind_free(pool, classes, y, x)?;
            Ok(true)
        }
        Cell::Con { con: other, .. } => {
            if con != other {
                return Ok(false);
            }
            take_apart(pool, classes, left, x, y, con, count)?;
            Ok(true)
        }
    }
}

/// Makes two cells equal from which nothing leads on, and says whether they can be. What is left to be made equal goes
/// onto the stack.
fn meet(
    pool: &mut Pool,
    classes: &mut Classes,
    left: &mut Vec<(CellId, CellId)>,
    x: CellId,
    y: CellId,
) -> Result<bool, AllocError>
    requires solving { CanSolve pool.old classes.old ((x, y) ∷ reverse left.old.items) }
    requires x_end { IsEnd pool.old classes.old x }
    requires y_end { IsEnd pool.old classes.old y }
    requires other { x.0 ≢ y.0 }
    requires going { IsGoing pool.old classes.old ((x, y) ∷ reverse left.old.items) }
    ensures yes { IfOk result (λ d. d ≡ true → StaysSolving pool.old pool.new classes.old classes.new
        ((x, y) ∷ reverse left.old.items) (reverse left.new.items)) }
    ensures closer { IfOk result (λ d. d ≡ true
        → IsCloser pool.old pool.new classes.old classes.new (reverse left.new.items)) }
    ensures no { IfOk result (λ d. d ≡ false → HasNoValuation pool.old classes.old ((x, y) ∷ reverse left.old.items)) }
    ensures more { IsMoreBound pool.old pool.new }
    ensures base { classes.new.base ≡ classes.old.base }
{
    match pool.cell(x) {
        Cell::Bound(_) => unreachable!(),
        Cell::Free(_) => {
            meet_open(pool, classes, x, y)?;
            Ok(true)
        }
        Cell::Con { con, count } => {
            let met = meet_con(pool, classes, left, x, y, con, count)?;
            Ok(met)
        }
    }
}

/// Takes equations from the stack up to the first one whose cells lead to two different ends, and returns these ends.
/// `None` where there is none. Equations whose cells lead to one end hold already.
fn next_apart(
    pool: &Pool,
    classes: &Classes,
    left: &mut Vec<(CellId, CellId)>,
) -> Option<(CellId, CellId)>
    requires solving { CanSolve pool.now classes.now (reverse left.old.items) }
    requires going { IsGoing pool.now classes.now (reverse left.old.items) }
    ensures some { IfSome result (λ p.
        IsNextApart pool.now classes.now (reverse left.old.items) p (reverse left.new.items)) }
    ensures none { IfNone result (StaysSolving pool.now pool.now classes.now classes.now (reverse left.old.items) []) }
{
    while let Some(pair) = left.pop() {
        let x = end_of(pool, classes, pair.0);
        let y = end_of(pool, classes, pair.1);
        if x.0 != y.0 {
            return Some((x, y));
        }
    }
    None
}

/// Solves the equations on the stack in the pool and says whether they can be solved, except that it does not look for
/// circles. Each turn binds a free cell or joins a class, so that there are no more turns than cells in the classes.
/// Each way to an end has at most one step more than the logarithm of their number. It returns `AllocError` when memory
/// runs out.
pub fn solve(
    pool: &mut Pool,
    classes: &mut Classes,
    left: &mut Vec<(CellId, CellId)>,
) -> Result<bool, AllocError>
    requires solving { CanSolve pool.old classes.old (reverse left.old.items) }
    requires going { IsGoing pool.old classes.old (reverse left.old.items) }
    ensures yes { IfOk result (λ d. d ≡ true
        → StaysSolving pool.old pool.new classes.old classes.new (reverse left.old.items) []) }
    ensures no { IfOk result (λ d. d ≡ false → HasNoValuation pool.old classes.old (reverse left.old.items)) }
    ensures more { IsMoreBound pool.old pool.new }
{
    while let Some(pair) = next_apart(pool, classes, left) {
        if !meet(pool, classes, left, pair.0, pair.1)? {
            return Ok(false);
        }
    }
    Ok(true)
}
