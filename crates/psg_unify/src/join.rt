//! The join of two rows on pairs of columns.
ghost use Rattle.std.specs.Prelude.{◌≡◌, ◌<◌, ◌+◌, ◌↔◌, ◌++◌, [], All, List, ℕ, IfOk, IfSome, IfNone, OnErr};
ghost use Rattle.std.specs.Prelude.{length, map};
ghost use Rattle.psg_terms.specs.Terms.{Term as Plain};
ghost use Rattle.psg_terms.specs.Signature.{HaveSorts};
ghost use Rattle.psg_terms.specs.Canonical.{IsCanonical};
ghost use Rattle.psg_terms.specs.Instances.{IsGroundInstance, HasSameInstances};
ghost use Rattle.psg_pool.specs.Cells.{IsAmong};
ghost use Rattle.psg_pool.specs.Bindings.{IsSound};
ghost use Rattle.psg_unify.specs.Pairs.{AreJoinable, IsAgreeing};
ghost use Rattle.psg_unify.specs.Columns.{picked, Joins};
ghost use Rattle.psg_unify.specs.Fitting.{Fits};
ghost use Rattle.psg_unify.specs.Reading.{Reading, IsReading};
ghost use Rattle.psg_unify.specs.Solved.{IsGrown};

use crate::heads::has_clash;
use crate::reading::read_row;
use crate::regions::solve_in;
use psg_pool::{CellId, Pool};
use psg_terms::{Signature, Term};
use std::alloc::{AllocError, Global};
use std::marker::Model;

/// Returns the join of two rows as `join_rows` makes it, solved in the pool. What was put and bound there stays, so
/// that the caller, who took a mark before, releases it. After `None` and after `AllocError` the pool is as it was.
/// Where the columns of a pair have different constructors at their heads, nothing is put there.
pub fn join_rows_in(
    alloc: Global,
    sig: &Signature,
    pool: &mut Pool,
    left: &[Term],
    right: &[Term],
    pairs: &[(usize, usize)],
) -> Result<Option<Vec<Term>>, AllocError>
    requires joinable { AreJoinable sig.now left.now right.now pairs.now }
    requires fits { Fits sig.now pool.old }
    ensures canonical { IfOk result (λ o. IfSome o (λ row. IsCanonical sig.now row.items)) }
    ensures exact { IfOk result (λ o. IfSome o (λ row. (values : List Plain)
        → IsGroundInstance sig.now row.items values ↔ IsAgreeing sig.now left.now right.now pairs.now values)) }
    ensures some { IfOk result (λ o. IfSome o (λ row. (values : List Plain)
        × IsAgreeing sig.now left.now right.now pairs.now values)) }
    ensures none { IfOk result (λ o. IfNone o ((values : List Plain)
        → IsAgreeing sig.now left.now right.now pairs.now values → ⊥)) }
    ensures sorted { IfOk result (λ o. IfSome o (λ row. (ls rs : List ℕ)
        → HaveSorts sig.now left.now ls → HaveSorts sig.now right.now rs → HaveSorts sig.now row.items (ls ++ rs))) }
    ensures grown { IfOk result (λ o. IfSome o (λ _. IsGrown pool.old pool.new)) }
    ensures fits { IfOk result (λ o. IfSome o (λ _. Fits sig.now pool.new)) }
    ensures back { IfOk result (λ o. IfNone o (pool.new ≡ pool.old)) }
    ensures err { OnErr result (pool.new ≡ pool.old) }
    ensures sound { IsSound pool.new }
{
    sig.sound();
    let mark = pool.mark();
    if has_clash(left, right, pairs) {
        return Ok(None);
    }
    let solved = solve_in(alloc, sig, pool, left, right, pairs)?;
    match solved {
        Some(cells) => match read_row(alloc, sig, pool, cells.as_slice()) {
            Ok(row) => Ok(Some(row)),
            Err(error) => {
                pool.release(mark);
                Err(error)
            }
        },
        None => Ok(None),
    }
}

/// Returns the canonical row of some of the cells, in the order of their places.
fn read_picked(
    alloc: Global,
    sig: &Signature,
    pool: &Pool,
    cells: &[CellId],
    keep: &[usize],
) -> Result<Vec<Term>, AllocError>
    requires fits { Fits sig.now pool.now }
    requires among { All (IsAmong pool.now.cells) cells.now }
    requires keep { All (λ k. k < length cells.now) keep.now }
    ensures canonical { IfOk result (λ row. IsCanonical sig.now row.items) }
    ensures same { IfOk result (λ row. (read : Reading) → IsReading pool.now read
        → HasSameInstances sig.now row.items (picked (map read cells.now) keep.now)) }
    ensures sorted { IfOk result (λ row. (read : Reading) → IsReading pool.now read
        → (sorts : List ℕ) → HaveSorts sig.now (map read cells.now) sorts
        → HaveSorts sig.now row.items (picked sorts keep.now)) }
{
    let some = picked_cells(alloc, cells, keep)?;
    let row = read_row(alloc, sig, pool, some.as_slice())?;
    Ok(row)
}

/// Returns the cells at these places.
pub fn picked_cells(
    alloc: Global,
    cells: &[CellId],
    keep: &[usize],
) -> Result<Vec<CellId>, AllocError>
    requires { All (λ k. k < length cells.now) keep.now }
    ensures { IfOk result (λ v. v.items ≡ picked cells.now keep.now) }
{
    let mut some = Vec::with_capacity(alloc, keep.len())?;
    for i in 0..keep.len() {
        let place = keep[i];
        some.push(cells[place])?;
    }
    Ok(some)
}

/// Returns the columns of the numbers in `keep`, in this order, of the row that `join_rows` makes: canonical, and with
/// no other column written out. It is solved in the pool. What was put and bound there stays, so that the caller, who
/// took a mark before, releases it. After `None` and after `AllocError` the pool is as it was.
pub fn join_in(
    alloc: Global,
    sig: &Signature,
    pool: &mut Pool,
    left: &[Term],
    right: &[Term],
    pairs: &[(usize, usize)],
    keep: &[usize],
) -> Result<Option<Vec<Term>>, AllocError>
    requires joinable { AreJoinable sig.now left.now right.now pairs.now }
    requires keep { All (λ k. k < length left.now + length right.now) keep.now }
    requires fits { Fits sig.now pool.old }
    ensures canonical { IfOk result (λ o. IfSome o (λ row. IsCanonical sig.now row.items)) }
    // The row's ground instances are exactly the kept columns of those of both rows that agree.
    ensures exact { IfOk result (λ o. IfSome o (λ row. (x : List Plain)
        → IsGroundInstance sig.now row.items x ↔ Joins sig.now pairs.now keep.now left.now right.now x)) }
    ensures none { IfOk result (λ o. IfNone o ((values : List Plain)
        → IsAgreeing sig.now left.now right.now pairs.now values → ⊥)) }
    ensures sorted { IfOk result (λ o. IfSome o (λ row. (ls rs : List ℕ)
        → HaveSorts sig.now left.now ls → HaveSorts sig.now right.now rs
        → HaveSorts sig.now row.items (picked (ls ++ rs) keep.now))) }
    ensures grown { IfOk result (λ o. IfSome o (λ _. IsGrown pool.old pool.new)) }
    ensures fits { IfOk result (λ o. IfSome o (λ _. Fits sig.now pool.new)) }
    ensures back { IfOk result (λ o. IfNone o (pool.new ≡ pool.old)) }
    ensures err { OnErr result (pool.new ≡ pool.old) }
    ensures sound { IsSound pool.new }
{
    sig.sound();
    let mark = pool.mark();
    let solved = solve_in(alloc, sig, pool, left, right, pairs)?;
    match solved {
        Some(cells) => match read_picked(alloc, sig, pool, cells.as_slice(), keep) {
            Ok(row) => Ok(Some(row)),
            Err(error) => {
                pool.release(mark);
                Err(error)
            }
        },
        None => Ok(None),
    }
}

/// An empty pool in which rows are joined, one pair after the other. It keeps its memory from one to the next.
#[derive(Drop)]
pub struct JoinPool {
    pool: Pool,
}

impl Model for JoinPool {
    ghost use Rattle.std.specs.Prelude.{◌≡◌, []};
    ghost use Rattle.psg_pool.specs.Bindings.{Kept};

    ghost Value = { Kept };

    ghost view = { λ p. p.pool };

    ghost invariant = { λ p. (p.pool.cells ≡ []) × (p.pool.bindings ≡ []) };
}

impl JoinPool {
    /// Makes an empty pool. It takes no memory itself.
    pub fn new(alloc: Global) -> JoinPool
        ensures cells { result.cells ≡ [] }
        ensures bindings { result.bindings ≡ [] }
    {
        JoinPool {
            pool: Pool::new(alloc),
        }
    }

    /// Returns the columns of the numbers in `keep`, in this order, of the row that `join_rows` makes: canonical, and
    /// with no other column written out. `None` and errors are returned as there.
    pub fn join(
        &mut self,
        alloc: Global,
        sig: &Signature,
        left: &[Term],
        right: &[Term],
        pairs: &[(usize, usize)],
        keep: &[usize],
    ) -> Result<Option<Vec<Term>>, AllocError>
        requires joinable { AreJoinable sig.now left.now right.now pairs.now }
        requires keep { All (λ k. k < length left.now + length right.now) keep.now }
        ensures canonical { IfOk result (λ o. IfSome o (λ row. IsCanonical sig.now row.items)) }
        // The row's ground instances are exactly the kept columns of those of both rows that agree.
        ensures exact { IfOk result (λ o. IfSome o (λ row. (x : List Plain)
            → IsGroundInstance sig.now row.items x ↔ Joins sig.now pairs.now keep.now left.now right.now x)) }
        ensures none { IfOk result (λ o. IfNone o ((values : List Plain)
            → IsAgreeing sig.now left.now right.now pairs.now values → ⊥)) }
        ensures sorted { IfOk result (λ o. IfSome o (λ row. (ls rs : List ℕ)
            → HaveSorts sig.now left.now ls → HaveSorts sig.now right.now rs
            → HaveSorts sig.now row.items (picked (ls ++ rs) keep.now))) }
    {
        let mark = self.pool.mark();
        let joined = join_in(alloc, sig, &mut self.pool, left, right, pairs, keep)?;
        match joined {
            Some(row) => {
                self.pool.release(mark);
                Ok(Some(row))
            }
            None => Ok(None),
        }
    }
}

/// Returns the most general row that two rows make where they agree on pairs of columns: the left columns and then the
/// right ones, canonical. `None` is returned exactly where no ground instances of the two rows agree on the pairs. A
/// pair is a column of the left row and one of the right row, each from 0. The rows' variables are apart, also where
/// they have equal numbers.
///
/// Where the columns of a pair have different constructors at their heads, nothing is put into a pool. Otherwise each
/// place of both rows is put there once. Chains of equations are solved in time near linear in what was put, also where
/// the row would be exponentially large in print: each cell is written once and then shared. Terms are walked with
/// stacks on the heap. Only a term that is dropped or compared is walked by calls, as deep as it is nested;
/// 150,000 nested constructors were tried on a stack of 8 MB, and a join of rows of two relations has at most 32,768.
///
/// `AllocError` is returned when memory runs out, and where 32 bits do not count the cells.
pub fn join_rows(
    alloc: Global,
    sig: &Signature,
    left: &[Term],
    right: &[Term],
    pairs: &[(usize, usize)],
) -> Result<Option<Vec<Term>>, AllocError>
    requires { AreJoinable sig.now left.now right.now pairs.now }
    ensures canonical { IfOk result (λ o. IfSome o (λ row. IsCanonical sig.now row.items)) }
    // The row's ground instances are exactly the pairs of ground instances of both rows that agree.
    ensures exact { IfOk result (λ o. IfSome o (λ row. (values : List Plain)
        → IsGroundInstance sig.now row.items values ↔ IsAgreeing sig.now left.now right.now pairs.now values)) }
    ensures some { IfOk result (λ o. IfSome o (λ row. (values : List Plain)
        × IsAgreeing sig.now left.now right.now pairs.now values)) }
    ensures none { IfOk result (λ o. IfNone o ((values : List Plain)
        → IsAgreeing sig.now left.now right.now pairs.now values → ⊥)) }
    ensures sorted { IfOk result (λ o. IfSome o (λ row. (ls rs : List ℕ)
        → HaveSorts sig.now left.now ls → HaveSorts sig.now right.now rs → HaveSorts sig.now row.items (ls ++ rs))) }
{
    let mut pool = Pool::new(alloc);
    let mark = pool.mark();
    let joined = join_rows_in(alloc, sig, &mut pool, left, right, pairs)?;
    match joined {
        Some(row) => {
            pool.release(mark);
            Ok(Some(row))
        }
        None => Ok(None),
    }
}
