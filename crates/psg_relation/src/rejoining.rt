//! Joins that are too large to be compared as terms: they are solved once more, and compared as cells.
ghost use Rattle.std.specs.Prelude.{◌≡◌, ◌<◌, ◌↔◌, ◌⊎◌, IfOk, IfErr, IfSome, IsTrue};
ghost use Rattle.std.specs.Prelude.{All, MatchBool, MatchOption, List, ℕ, Some, length, slice_get};
ghost use Rattle.psg_terms.specs.Terms.{Term as Plain};
ghost use Rattle.psg_terms.specs.Sound.{IsSound};
ghost use Rattle.psg_terms.specs.Relations.{IsIn, IsRelation};
ghost use Rattle.psg_terms.specs.Text.{IsInTextOrder};
ghost use Rattle.psg_terms.specs.Weight.{PassesLimit};
ghost use Rattle.psg_unify.specs.Pairs.{Pair as Columns};
ghost use Rattle.psg_unify.specs.Unwritten.{IsUnwritten};
ghost use Rattle.psg_relation.specs.Heads.{places_at, IsIndexed};
ghost use Rattle.psg_relation.specs.Choices.{AllHaveSorts, HasWide, IsOfRow, MayBeWide, picked};
ghost use Rattle.psg_relation.specs.Joining.{Two, AreJoined, all_pairs, with_each};
ghost use Rattle.psg_relation.specs.Sealed.{AllReady};
ghost use Rattle.psg_relation.specs.Selecting.{twins};
ghost use Rattle.psg_relation.specs.Sifted.{AreCovered, LosesHeavy, IsLightly};
ghost use Rattle.psg_relation.specs.Rejoining.{partners, IsHeld, IsEmptyJoin, IsUnheld, AreHeld};
ghost use Rattle.psg_relation.specs.Rejoining.{MayCompare, MayPair, AreSiftedJoins};

use crate::heads::{Heads, head_at, heads_of};
use crate::joining::joined_row;
use crate::maximal::{are_covered, is_held};
use crate::relation::{Rel, RelFault, sealed};
use crate::row::RelRow;
use crate::sifting::{alone, sift_light};
use crate::weighing::is_heavy;
use psg_terms::{Signature, Term};
use psg_unify::{JoinPool, UnwrittenRow};
use std::alloc::{AllocError, Global};

/// Which rows are joined.
#[derive(Clone, Copy)]
pub enum Partners {
    /// Each left row with each right row.
    All,
    /// Each left row with itself.
    Itself,
}

/// Says whether one of the rows has all ground instances of a join that is not written out.
fn is_held_unwritten(
    alloc: Global,
    sig: &Signature,
    kept: &[RelRow],
    row: &UnwrittenRow,
) -> Result<bool, AllocError>
    ensures { IfOk result (λ b. (p : Two) (pairs : List Columns) (keep : List ℕ)
        → IsUnwritten sig.now p.0 p.1 pairs keep row.now → MayCompare sig.now pairs keep kept.now p
        → IsTrue b ↔ IsHeld sig.now pairs keep kept.now p) }
{
    for other in kept {
        if row.is_instance_of(alloc, sig, other.terms())? {
            return Ok(true);
        }
    }
    Ok(false)
}

/// Says whether one of the rows has all ground instances of a join. It is solved once more and not written out.
fn is_large_held(
    alloc: Global,
    sig: &Signature,
    kept: &[RelRow],
    left: &[Term],
    right: &[Term],
    pairs: &[(usize, usize)],
    keep: &[usize],
) -> Result<bool, AllocError>
    requires { MayCompare sig.now pairs.now keep.now kept.now (left.now, right.now) }
    ensures { IfOk result (λ b. MatchBool b
        (IsEmptyJoin sig.now pairs.now keep.now (left.now, right.now)
        ⊎ IsHeld sig.now pairs.now keep.now kept.now (left.now, right.now))
        (IsHeld sig.now pairs.now keep.now kept.now (left.now, right.now) → ⊥)) }
{
    let solved = UnwrittenRow::of(alloc, sig, left, right, pairs, keep)?;
    match solved {
        Some(row) => {
            let held = is_held_unwritten(alloc, sig, kept, &row)?;
            Ok(held)
        }
        None => Ok(true),
    }
}

/// Says whether one of the rows has all ground instances of the join of two rows. A join that is not too large for a
/// relation is compared as terms, and another one as cells.
fn is_join_held(
    alloc: Global,
    sig: &Signature,
    pool: &mut JoinPool,
    kept: &[RelRow],
    heads: &Heads,
    left: &[Term],
    right: &[Term],
    pairs: &[(usize, usize)],
    keep: &[usize],
) -> Result<bool, AllocError>
    requires sound { IsSound sig.now }
    requires indexed { IsIndexed kept.now 0 (length kept.now) heads.now.free.items (places_at heads.now.places) }
    requires compare { MayCompare sig.now pairs.now keep.now kept.now (left.now, right.now) }
    ensures { IfOk result (λ b. MatchBool b
        (IsEmptyJoin sig.now pairs.now keep.now (left.now, right.now)
        ⊎ IsHeld sig.now pairs.now keep.now kept.now (left.now, right.now))
        (IsUnheld sig.now pairs.now keep.now kept.now (left.now, right.now))) }
{
    let joined = joined_row(alloc, sig, pool, left, right, pairs, keep)?;
    match joined {
        None => Ok(true),
        Some(row) => {
            if is_heavy(&row) {
                let large = is_large_held(alloc, sig, kept, left, right, pairs, keep)?;
                return Ok(large);
            }
            let held = is_held(alloc, kept, heads, 0, row.terms())?;
            Ok(held)
        }
    }
}

/// Says whether each join of one row with the others is an instance of one of the rows that are kept.
fn are_held_of(
    alloc: Global,
    sig: &Signature,
    pool: &mut JoinPool,
    kept: &[RelRow],
    heads: &Heads,
    one: &[Term],
    right: &[RelRow],
    pairs: &[(usize, usize)],
    keep: &[usize],
) -> Result<bool, AllocError>
    requires sound { IsSound sig.now }
    requires indexed { IsIndexed kept.now 0 (length kept.now) heads.now.free.items (places_at heads.now.places) }
    requires compare { (p : Two) → IsIn p (with_each one.now right.now)
        → MayCompare sig.now pairs.now keep.now kept.now p }
    ensures { IfOk result (λ b. AreHeld b sig.now pairs.now keep.now kept.now (with_each one.now right.now)) }
{
    for other in right {
        let held = is_join_held(
            alloc,
            sig,
            pool,
            kept,
            heads,
            one,
            other.terms(),
            pairs,
            keep,
        )?;
        if !held {
            return Ok(false);
        }
    }
    Ok(true)
}

/// Says whether each join of one row with those at these places is an instance of one of the rows that are kept.
fn are_held_at(
    alloc: Global,
    sig: &Signature,
    pool: &mut JoinPool,
    kept: &[RelRow],
    heads: &Heads,
    one: &[Term],
    right: &[RelRow],
    places: &[usize],
    pairs: &[(usize, usize)],
    keep: &[usize],
) -> Result<bool, AllocError>
    requires sound { IsSound sig.now }
    requires indexed { IsIndexed kept.now 0 (length kept.now) heads.now.free.items (places_at heads.now.places) }
    requires within { All (λ i. i < length right.now) places.now }
    requires compare { (p : Two) → IsIn p (with_each one.now right.now)
        → MayCompare sig.now pairs.now keep.now kept.now p }
    ensures { IfOk result (λ b. AreHeld b sig.now pairs.now keep.now kept.now
        (with_each one.now (picked right.now places.now))) }
{
    for i in 0..places.len() {
        let place = places[i];
        let other = right[place].terms();
        let held = is_join_held(alloc, sig, pool, kept, heads, one, other, pairs, keep)?;
        if !held {
            return Ok(false);
        }
    }
    Ok(true)
}

/// Says whether each join of one row with the others is an instance of one of the rows that are kept. Where a
/// constructor is at the head of its first paired column, those that have another one there are not tried.
fn are_meeting_held(
    alloc: Global,
    sig: &Signature,
    pool: &mut JoinPool,
    kept: &[RelRow],
    heads: &Heads,
    one: &[Term],
    right: &[RelRow],
    index: &Heads,
    pairs: &[(usize, usize)],
    keep: &[usize],
    first: (usize, usize),
) -> Result<bool, AllocError>
    requires sound { IsSound sig.now }
    requires indexed { IsIndexed kept.now 0 (length kept.now) heads.now.free.items (places_at heads.now.places) }
    requires pair { slice_get pairs.now 0 ≡ Some first }
    requires others { IsIndexed right.now first.1 (length right.now) index.now.free.items
        (places_at index.now.places) }
    requires compare { (p : Two) → IsIn p (with_each one.now right.now)
        → MayCompare sig.now pairs.now keep.now kept.now p }
    ensures { IfOk result (λ b. AreHeld b sig.now pairs.now keep.now kept.now (with_each one.now right.now)) }
{
    match head_at(one, first.0) {
        Some(head) => {
            let free = index.free.as_slice();
            let some = are_held_at(alloc, sig, pool, kept, heads, one, right, free, pairs, keep)?;
            if !some {
                return Ok(false);
            }
            let own = index.places_of(head);
            let same = are_held_at(alloc, sig, pool, kept, heads, one, right, own, pairs, keep)?;
            Ok(same)
        }
        None => {
            let all = are_held_of(alloc, sig, pool, kept, heads, one, right, pairs, keep)?;
            Ok(all)
        }
    }
}

/// Says whether each join of one row with the others is an instance of one of the rows that are kept. Where there are
/// pairs, it is tried with those that it can meet by the heads of the first pair's columns.
fn are_joins_of_row_held(
    alloc: Global,
    sig: &Signature,
    pool: &mut JoinPool,
    kept: &[RelRow],
    heads: &Heads,
    one: &[Term],
    right: &[RelRow],
    index: &Heads,
    pairs: &[(usize, usize)],
    keep: &[usize],
) -> Result<bool, AllocError>
    requires sound { IsSound sig.now }
    requires indexed { IsIndexed kept.now 0 (length kept.now) heads.now.free.items (places_at heads.now.places) }
    requires others { (first : Columns) → slice_get pairs.now 0 ≡ Some first
        → IsIndexed right.now first.1 (length right.now) index.now.free.items (places_at index.now.places) }
    requires compare { (p : Two) → IsIn p (with_each one.now right.now)
        → MayCompare sig.now pairs.now keep.now kept.now p }
    ensures { IfOk result (λ b. AreHeld b sig.now pairs.now keep.now kept.now (with_each one.now right.now)) }
{
    if pairs.is_empty() {
        let plain = are_held_of(alloc, sig, pool, kept, heads, one, right, pairs, keep)?;
        return Ok(plain);
    }
    let first = pairs[0];
    let held = are_meeting_held(
        alloc, sig, pool, kept, heads, one, right, index, pairs, keep, first,
    )?;
    Ok(held)
}

/// Returns the right column of the first pair, or the first column where there are no pairs.
fn first_right(pairs: &[(usize, usize)]) -> usize
    ensures { (first : Columns) → slice_get pairs.now 0 ≡ Some first → result ≡ first.1 }
{
    if pairs.is_empty() {
        return 0;
    }
    pairs[0].1
}

/// Says whether each join of the left rows with the right ones is an instance of one of the rows that are kept.
fn are_pairs_held(
    alloc: Global,
    sig: &Signature,
    kept: &[RelRow],
    left: &[RelRow],
    right: &[RelRow],
    pairs: &[(usize, usize)],
    keep: &[usize],
) -> Result<bool, AllocError>
    requires sound { IsSound sig.now }
    requires compare { (p : Two) → IsIn p (all_pairs left.now right.now)
        → MayCompare sig.now pairs.now keep.now kept.now p }
    ensures { IfOk result (λ b. AreHeld b sig.now pairs.now keep.now kept.now (all_pairs left.now right.now)) }
{
    let heads = heads_of(alloc, kept, 0)?;
    let column = first_right(pairs);
    let index = heads_of(alloc, right, column)?;
    let mut pool = JoinPool::new(alloc);
    for one in left {
        let held = are_joins_of_row_held(
            alloc,
            sig,
            &mut pool,
            kept,
            &heads,
            one.terms(),
            right,
            &index,
            pairs,
            keep,
        )?;
        if !held {
            return Ok(false);
        }
    }
    Ok(true)
}

/// Says whether each join of a row with itself is an instance of one of the rows that are kept.
fn are_twins_held(
    alloc: Global,
    sig: &Signature,
    kept: &[RelRow],
    rows: &[RelRow],
    pairs: &[(usize, usize)],
    keep: &[usize],
) -> Result<bool, AllocError>
    requires sound { IsSound sig.now }
    requires compare { (p : Two) → IsIn p (twins rows.now) → MayCompare sig.now pairs.now keep.now kept.now p }
    ensures { IfOk result (λ b. AreHeld b sig.now pairs.now keep.now kept.now (twins rows.now)) }
{
    let heads = heads_of(alloc, kept, 0)?;
    let mut pool = JoinPool::new(alloc);
    for row in rows {
        let terms = row.terms();
        let held = is_join_held(
            alloc, sig, &mut pool, kept, &heads, terms, terms, pairs, keep,
        )?;
        if !held {
            return Ok(false);
        }
    }
    Ok(true)
}

/// Says whether each join is an instance of one of the rows that are kept.
fn are_held(
    alloc: Global,
    sig: &Signature,
    kept: &[RelRow],
    left: &[RelRow],
    right: &[RelRow],
    with: Partners,
    pairs: &[(usize, usize)],
    keep: &[usize],
) -> Result<bool, AllocError>
    requires sound { IsSound sig.now }
    requires compare { (p : Two) → IsIn p (partners with left.now right.now)
        → MayCompare sig.now pairs.now keep.now kept.now p }
    ensures { IfOk result (λ b. AreHeld b sig.now pairs.now keep.now kept.now (partners with left.now right.now)) }
{
    match with {
        Partners::All => {
            let all = are_pairs_held(alloc, sig, kept, left, right, pairs, keep)?;
            Ok(all)
        }
        Partners::Itself => {
            let own = are_twins_held(alloc, sig, kept, left, pairs, keep)?;
            Ok(own)
        }
    }
}

/// Says whether each of the joins that are too large for a relation is an instance of one that is kept. They are
/// compared as terms first. Where terms are too large for that, all joins are made once more, and those that are too
/// large are compared as cells.
fn are_joins_covered(
    alloc: Global,
    sig: &Signature,
    kept: &[RelRow],
    heavy: &[RelRow],
    left: &[RelRow],
    right: &[RelRow],
    with: Partners,
    pairs: &[(usize, usize)],
    keep: &[usize],
) -> Result<bool, AllocError>
    requires { AreSiftedJoins sig.now pairs.now keep.now (partners with left.now right.now) kept.now heavy.now }
    ensures { IfOk result (λ b. AreCovered b kept.now heavy.now) }
{
    match are_covered(alloc, kept, heavy) {
        Ok(covered) => Ok(covered),
        Err(_) => {
            let held = are_held(alloc, sig, kept, left, right, with, pairs, keep)?;
            Ok(held)
        }
    }
}

/// Returns the most general rows of joins, in byte order of their texts, or `None` where one of them is too large for a
/// relation.
fn sift_joins(
    alloc: Global,
    sig: &Signature,
    rows: Vec<RelRow>,
    left: &[RelRow],
    right: &[RelRow],
    with: Partners,
    pairs: &[(usize, usize)],
    keep: &[usize],
) -> Result<Option<Vec<RelRow>>, AllocError>
    requires joined { AreJoined sig.now pairs.now keep.now (partners with left.now right.now) rows.items }
    requires may { MayPair sig.now pairs.now keep.now (partners with left.now right.now) }
    ensures rows { IfOk result (λ o. MatchOption o (LosesHeavy rows.items) (λ kept. IsLightly rows.items kept.items)) }
    ensures order { IfOk result (λ o. IfSome o (λ kept. IsInTextOrder sig.now kept.items)) }
{
    sig.sound();
    if rows.len() <= 1 {
        return Ok(alone(rows));
    }
    let sifted = sift_light(alloc, sig, rows)?;
    let kept = sifted.kept.as_slice();
    let heavy = sifted.heavy.as_slice();
    let covered = are_joins_covered(alloc, sig, kept, heavy, left, right, with, pairs, keep)?;
    if covered {
        Ok(Some(sifted.kept))
    } else {
        Ok(None)
    }
}

/// Returns the relation of rows that are the joins of left rows with right ones, with the errors and at the cost of
/// `join` without the joins themselves.
pub fn relation_of_joins(
    alloc: Global,
    sig: &Signature,
    rows: Vec<RelRow>,
    left: &[RelRow],
    right: &[RelRow],
    with: Partners,
    pairs: &[(usize, usize)],
    keep: &[usize],
) -> Result<Rel, RelFault>
    requires joined { AreJoined sig.now pairs.now keep.now (partners with left.now right.now) rows.items }
    requires may { MayPair sig.now pairs.now keep.now (partners with left.now right.now) }
    requires sorts { (sorts : List ℕ) × AllHaveSorts sig.now rows.items sorts }
    requires ready { AllReady sig.now rows.items }
    ensures relation { IfOk result (λ rel. (sorts : List ℕ) → AllHaveSorts sig.now rows.items sorts
        → IsRelation sig.now sorts (IsOfRow sig.now rows.items) rel) }
    ensures within { IfOk result (λ rel. PassesLimit rel → ⊥) }
    ensures wide { IfErr result (MayBeWide ((sorts : List ℕ) → AllHaveSorts sig.now rows.items sorts
        → (others : List (List Plain)) → IsRelation sig.now sorts (IsOfRow sig.now rows.items) others
        → PassesLimit others)) }
    ensures some { IfErr result (MayBeWide ((sorts : List ℕ) → AllHaveSorts sig.now rows.items sorts
        → HasWide sig.now sorts (IsOfRow sig.now rows.items))) }
{
    sig.sound();
    match sift_joins(alloc, sig, rows, left, right, with, pairs, keep)? {
        Some(kept) => sealed(sig, kept),
        None => Err(RelFault::Wide),
    }
}
