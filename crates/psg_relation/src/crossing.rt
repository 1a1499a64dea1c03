//! The joins of each row of one list with each row of another one.
ghost use Rattle.std.specs.Prelude.{◌≡◌, ◌<◌, ◌++◌, All, IfOk, List, Some, slice_get, length, ℕ};
ghost use Rattle.psg_terms.specs.Terms.{Term as Plain};
ghost use Rattle.psg_terms.specs.Relations.{IsIn};
ghost use Rattle.psg_relation.specs.Choices.{picked};
ghost use Rattle.psg_relation.specs.Heads.{places_at, IsIndexed};
ghost use Rattle.psg_relation.specs.Joining.{AreJoined, IsCrossed, MayJoin, MayMeet, all_pairs};

use crate::heads::{Heads, head_at, heads_of};
use crate::joining::with_join_in;
use crate::row::RelRow;
use psg_terms::{Signature, Term};
use psg_unify::JoinPool;
use std::alloc::{AllocError, Global};

/// The least number of rows of the other side from which on they are found by their heads. Where there are fewer, to
/// try all is cheaper.
const FEW: usize = 4;

/// Returns the rows, and after them the joins of one row with each of the others.
fn with_joins(
    alloc: Global,
    sig: &Signature,
    pool: &mut JoinPool,
    made: Vec<RelRow>,
    one: &[Term],
    right: &[RelRow],
    pairs: &[(usize, usize)],
    keep: &[usize],
) -> Result<Vec<RelRow>, AllocError>
    requires { (other : List Plain) → IsIn other right.now → MayMeet sig.now one.now other pairs.now keep.now }
    ensures { IfOk result (λ more. IsCrossed sig.now pairs.now keep.now one.now right.now made.items more.items) }
{
    let mut more = made;
    for other in right {
        more = with_join_in(alloc, sig, pool, more, one, other.terms(), pairs, keep)?;
    }
    Ok(more)
}

/// Returns the rows, and after them the joins of one row with those at these places.
fn with_places(
    alloc: Global,
    sig: &Signature,
    pool: &mut JoinPool,
    made: Vec<RelRow>,
    one: &[Term],
    right: &[RelRow],
    places: &[usize],
    pairs: &[(usize, usize)],
    keep: &[usize],
) -> Result<Vec<RelRow>, AllocError>
    requires within { All (λ i. i < length right.now) places.now }
    requires meet { (other : List Plain) → IsIn other right.now → MayMeet sig.now one.now other pairs.now keep.now }
    ensures { IfOk result (λ more. IsCrossed sig.now pairs.now keep.now one.now (picked right.now places.now)
        made.items more.items) }
{
    let mut more = made;
    for i in 0..places.len() {
        let place = places[i];
        more = with_join_in(
            alloc,
            sig,
            pool,
            more,
            one,
            right[place].terms(),
            pairs,
            keep,
        )?;
    }
    Ok(more)
}

/// Returns the rows, and after them the joins of one row with each of the others that it can meet: where a constructor
/// is at the head of its first paired column, with those that have this constructor or a variable there.
fn with_meeting(
    alloc: Global,
    sig: &Signature,
    pool: &mut JoinPool,
    made: Vec<RelRow>,
    one: &[Term],
    right: &[RelRow],
    heads: &Heads,
    pairs: &[(usize, usize)],
    keep: &[usize],
    first: (usize, usize),
) -> Result<Vec<RelRow>, AllocError>
    requires pair { slice_get pairs.now 0 ≡ Some first }
    requires indexed { IsIndexed right.now first.1 (length right.now) heads.now.free.items
        (places_at heads.now.places) }
    requires meet { (other : List Plain) → IsIn other right.now → MayMeet sig.now one.now other pairs.now keep.now }
    ensures { IfOk result (λ more. IsCrossed sig.now pairs.now keep.now one.now right.now made.items more.items) }
{
    match head_at(one, first.0) {
        Some(head) => {
            let free = heads.free.as_slice();
            let more = with_places(alloc, sig, pool, made, one, right, free, pairs, keep)?;
            let own = heads.places_of(head);
            let all = with_places(alloc, sig, pool, more, one, right, own, pairs, keep)?;
            Ok(all)
        }
        None => {
            let all = with_joins(alloc, sig, pool, made, one, right, pairs, keep)?;
            Ok(all)
        }
    }
}

/// Returns the joins, each row tried with each.
fn plain_joins(
    alloc: Global,
    sig: &Signature,
    left: &[RelRow],
    right: &[RelRow],
    pairs: &[(usize, usize)],
    keep: &[usize],
) -> Result<Vec<RelRow>, AllocError>
    requires { MayJoin sig.now left.now right.now pairs.now keep.now }
    ensures { IfOk result (λ made. AreJoined sig.now pairs.now keep.now (all_pairs left.now right.now) made.items) }
{
    let mut pool = JoinPool::new(alloc);
    let mut made = Vec::new(alloc);
    for one in left {
        made = with_joins(alloc, sig, &mut pool, made, one.terms(), right, pairs, keep)?;
    }
    Ok(made)
}

/// Returns the joins, each row tried with those that it can meet by the heads of the first pair's columns.
fn indexed_joins(
    alloc: Global,
    sig: &Signature,
    left: &[RelRow],
    right: &[RelRow],
    pairs: &[(usize, usize)],
    keep: &[usize],
    first: (usize, usize),
) -> Result<Vec<RelRow>, AllocError>
    requires join { MayJoin sig.now left.now right.now pairs.now keep.now }
    requires pair { slice_get pairs.now 0 ≡ Some first }
    ensures { IfOk result (λ made. AreJoined sig.now pairs.now keep.now (all_pairs left.now right.now) made.items) }
{
    let heads = heads_of(alloc, right, first.1)?;
    let mut pool = JoinPool::new(alloc);
    let mut made = Vec::new(alloc);
    for one in left {
        made = with_meeting(
            alloc,
            sig,
            &mut pool,
            made,
            one.terms(),
            right,
            &heads,
            pairs,
            keep,
            first,
        )?;
    }
    Ok(made)
}

/// Returns the joins of each row of the one side with each row of the other side. Rows whose first paired columns have
/// different constructors at their heads are not tried, so where few rows have the same one it costs as much as both
/// sides and the joins have together.
pub fn all_joins(
    alloc: Global,
    sig: &Signature,
    left: &[RelRow],
    right: &[RelRow],
    pairs: &[(usize, usize)],
    keep: &[usize],
) -> Result<Vec<RelRow>, AllocError>
    requires { MayJoin sig.now left.now right.now pairs.now keep.now }
    ensures { IfOk result (λ made. AreJoined sig.now pairs.now keep.now (all_pairs left.now right.now) made.items) }
{
    if left.len() < FEW || right.len() < FEW || pairs.is_empty() {
        let made = plain_joins(alloc, sig, left, right, pairs, keep)?;
        return Ok(made);
    }
    let made = indexed_joins(alloc, sig, left, right, pairs, keep, pairs[0])?;
    Ok(made)
}
