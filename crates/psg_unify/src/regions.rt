//! Two rows solved in a region of a pool.
ghost use Rattle.std.specs.Prelude.{◌≡◌, ◌<◌, ◌↔◌, ◌++◌, List, length, All, IfOk, IfSome, IfNone, OnErr, reverse};
ghost use Rattle.psg_terms.specs.Terms.{Term as Plain};
ghost use Rattle.psg_pool.specs.Bindings.{IsSound};
ghost use Rattle.psg_unify.specs.Pairs.{AreJoinable, IsAgreeing};
ghost use Rattle.psg_unify.specs.Fitting.{Fits};
ghost use Rattle.psg_unify.specs.Solved.{IsSolvedIn};
ghost use Rattle.psg_unify.specs.Asking.{AskFor, IsExtended};

use crate::circles::is_falling;
use crate::classes::Classes;
use crate::making::put_row;
use crate::solving::solve;
use psg_pool::{CellId, Pool};
use psg_terms::{Signature, Term};
use std::alloc::{AllocError, Global};

/// Returns for each pair the equation of the cells in its columns, the first pair's on top.
fn equations_of(
    alloc: Global,
    lefts: &[CellId],
    rights: &[CellId],
    pairs: &[(usize, usize)],
) -> Result<Vec<(CellId, CellId)>, AllocError>
    requires { All (λ p. (p.0 < length lefts.now) × (p.1 < length rights.now)) pairs.now }
    ensures { IfOk result (λ v. AskFor lefts.now rights.now pairs.now (reverse v.items)) }
{
    let mut equations = Vec::with_capacity(alloc, pairs.len())?;
    let mut k = pairs.len();
    while k > 0 {
        k -= 1;
        let pair = pairs[k];
        equations.push((lefts[pair.0], rights[pair.1]))?;
    }
    Ok(equations)
}

/// Returns the cells of both rows, those of the right one last.
fn both_rows(alloc: Global, lefts: &[CellId], rights: &[CellId]) -> Result<Vec<CellId>, AllocError>
    ensures { IfOk result (λ v. v.items ≡ lefts.now ++ rights.now) }
{
    let mut cells = Vec::new(alloc);
    cells.extend_from_slice(lefts)?;
    cells.extend_from_slice(rights)?;
    Ok(cells)
}

/// Puts two rows into the pool and solves them there. What was put is left there, also where there is no solution.
fn put_and_solve(
    alloc: Global,
    sig: &Signature,
    pool: &mut Pool,
    left: &[Term],
    right: &[Term],
    pairs: &[(usize, usize)],
) -> Result<Option<Vec<CellId>>, AllocError>
    requires joinable { AreJoinable sig.now left.now right.now pairs.now }
    requires fits { Fits sig.now pool.old }
    ensures some { IfOk result (λ o. IfSome o (λ cells.
        IsSolvedIn sig.now left.now right.now pairs.now pool.old pool.new cells.items)) }
    ensures none { IfOk result (λ o. IfNone o ((values : List Plain)
        → IsAgreeing sig.now left.now right.now pairs.now values → ⊥)) }
    ensures extended { IsExtended pool.old pool.new }
{
    sig.sound();
    let _mark = pool.mark();
    let start = pool.count();
    let lefts = put_row(alloc, sig, pool, left)?;
    let rights = put_row(alloc, sig, pool, right)?;
    let mut equations = equations_of(alloc, lefts.as_slice(), rights.as_slice(), pairs)?;
    let count = pool.count() - start;
    let mut classes = Classes::new(alloc, start, count)?;
    if !solve(pool, &mut classes, &mut equations)? {
        return Ok(None);
    }
    let _solved = pool.mark();
    if !is_falling(alloc, pool, start)? {
        return Ok(None);
    }
    let cells = both_rows(alloc, lefts.as_slice(), rights.as_slice())?;
    Ok(Some(cells))
}

/// Puts two rows into the pool and solves them there on pairs of columns, each a column of the left row and one of the
/// right row, from 0. The result has the cells of the left columns and then those of the right ones. `None` is
/// returned exactly where no ground instances of the two rows agree on the pairs. The rows' variables are apart, also
/// where they have equal numbers.
///
/// After `None` and after `AllocError`, which is returned when memory runs out, the pool is as it was. Each place of
/// both rows is put once, and then chains of equations are solved in time near linear in the rows.
pub fn solve_in(
    alloc: Global,
    sig: &Signature,
    pool: &mut Pool,
    left: &[Term],
    right: &[Term],
    pairs: &[(usize, usize)],
) -> Result<Option<Vec<CellId>>, AllocError>
    requires joinable { AreJoinable sig.now left.now right.now pairs.now }
    requires fits { Fits sig.now pool.old }
    ensures some { IfOk result (λ o. IfSome o (λ cells.
        IsSolvedIn sig.now left.now right.now pairs.now pool.old pool.new cells.items)) }
    ensures none { IfOk result (λ o. IfNone o ((values : List Plain)
        → IsAgreeing sig.now left.now right.now pairs.now values → ⊥)) }
    ensures back { IfOk result (λ o. IfNone o (pool.new ≡ pool.old)) }
    ensures err { OnErr result (pool.new ≡ pool.old) }
    ensures sound { IsSound pool.new }
{
    let mark = pool.mark();
    match put_and_solve(alloc, sig, pool, left, right, pairs) {
        Ok(solved) => match solved {
            Some(cells) => {
                let _end = pool.mark();
                Ok(Some(cells))
            }
            None => {
                pool.release(mark);
                Ok(None)
            }
        },
        Err(error) => {
            pool.release(mark);
            Err(error)
        }
    }
}
