//! The most general rows of a list.
ghost use Rattle.std.specs.Prelude.{◌≡◌, ◌↔◌, ◌<◌, ◌∷◌, ◌++◌, [], All, IfOk, IsTrue, length};
ghost use Rattle.psg_relation.specs.Choices.{picked};
ghost use Rattle.psg_relation.specs.Heads.{places_at, IsIndexed};
ghost use Rattle.psg_relation.specs.Ordered.{KeepsOrder};
ghost use Rattle.psg_relation.specs.Sifted.{HoldsNone, IsCovered, IsSifted, LeavesOut, IsGrown, AreCovered};

use crate::heads::{Heads, best_column, head_at, heads_of, note_row};
use crate::row::RelRow;
use crate::weighing::is_closed;
use psg_terms::Term;
use psg_terms::matching::is_instance;
use std::alloc::{AllocError, Global};

/// The most general rows so far, and their places by the heads of one column.
#[derive(Drop)]
pub struct Kept {
    /// The rows. None is an instance of another one.
    pub rows: Vec<RelRow>,
    /// The places of the rows by the heads of the column.
    pub heads: Heads,
}

/// Returns the rows without those that are instances of one row.
fn without_instances(
    alloc: Global,
    kept: Vec<RelRow>,
    row: &[Term],
) -> Result<Vec<RelRow>, AllocError>
    ensures { IfOk result (λ rest. LeavesOut row.now kept.items rest.items) }
{
    let mut rest = Vec::with_capacity(alloc, kept.len())?;
    for other in kept {
        if !is_instance(alloc, other.terms(), row)? {
            rest.push(other)?;
        }
    }
    Ok(rest)
}

/// Says whether the row is an instance of one of those at these places.
fn is_covered_at(
    alloc: Global,
    kept: &[RelRow],
    places: &[usize],
    row: &[Term],
) -> Result<bool, AllocError>
    requires { All (λ i. i < length kept.now) places.now }
    ensures { IfOk result (λ b. IsTrue b ↔ IsCovered (picked kept.now places.now) row.now) }
{
    for i in 0..places.len() {
        let place = places[i];
        if is_instance(alloc, row, kept[place].terms())? {
            return Ok(true);
        }
    }
    Ok(false)
}

/// Says whether the row is an instance of one of the kept ones. Only those are compared that have its constructor, or a
/// variable, at the head of the column by which they are found.
pub fn is_held(
    alloc: Global,
    kept: &[RelRow],
    heads: &Heads,
    column: usize,
    row: &[Term],
) -> Result<bool, AllocError>
    requires { IsIndexed kept.now column (length kept.now) heads.now.free.items (places_at heads.now.places) }
    ensures { IfOk result (λ b. IsTrue b ↔ IsCovered kept.now row.now) }
{
    let free = heads.free.as_slice();
    match head_at(row, column) {
        Some(head) => {
            if is_covered_at(alloc, kept, free, row)? {
                return Ok(true);
            }
            let own = heads.places_of(head);
            let held = is_covered_at(alloc, kept, own, row)?;
            Ok(held)
        }
        None => {
            let plain = is_covered_at(alloc, kept, free, row)?;
            Ok(plain)
        }
    }
}

/// Says that no row at these places is an instance of the row.
fn holds_none_at(
    alloc: Global,
    kept: &[RelRow],
    places: &[usize],
    row: &[Term],
) -> Result<bool, AllocError>
    requires { All (λ i. i < length kept.now) places.now }
    ensures { IfOk result (λ b. IsTrue b → HoldsNone row.now (picked kept.now places.now)) }
{
    for turn in 0..places.len() {
        let place = places[turn];
        if is_instance(alloc, kept[place].terms(), row)? {
            return Ok(false);
        }
    }
    Ok(true)
}

/// Says that no kept row is an instance of the row, where that shows by the rows that have its constructor, or a
/// variable, at the head of the column by which they are found. Of a row with a variable there it says nothing.
fn holds_none(
    alloc: Global,
    kept: &[RelRow],
    heads: &Heads,
    column: usize,
    row: &[Term],
) -> Result<bool, AllocError>
    requires { IsIndexed kept.now column (length kept.now) heads.now.free.items (places_at heads.now.places) }
    ensures { IfOk result (λ b. IsTrue b → HoldsNone row.now kept.now) }
{
    match head_at(row, column) {
        Some(head) => {
            let free = heads.free.as_slice();
            if !holds_none_at(alloc, kept, free, row)? {
                return Ok(false);
            }
            let own = heads.places_of(head);
            let none = holds_none_at(alloc, kept, own, row)?;
            Ok(none)
        }
        None => Ok(false),
    }
}

/// Returns the rows with one more after them.
fn with_last(alloc: Global, kept: Kept, column: usize, row: RelRow) -> Result<Kept, AllocError>
    requires { IsIndexed kept.rows.items column (length kept.rows.items) kept.heads.free.items
        (places_at kept.heads.places) }
    ensures rows { IfOk result (λ more. more.rows.items ≡ kept.rows.items ++ row ∷ []) }
    ensures indexed { IfOk result (λ more.
        IsIndexed more.rows.items column (length more.rows.items) more.heads.free.items (places_at more.heads.places)) }
{
    let Kept {
        mut rows,
        mut heads,
    } = kept;
    let place = rows.len();
    note_row(alloc, &mut heads, row.terms(), column, place)?;
    rows.push(row)?;
    Ok(Kept { rows, heads })
}

/// Returns the rows with one more in place of its instances. Where it has none, nothing else is moved.
fn with_general(alloc: Global, kept: Kept, column: usize, row: RelRow) -> Result<Kept, AllocError>
    requires indexed { IsIndexed kept.rows.items column (length kept.rows.items) kept.heads.free.items
        (places_at kept.heads.places) }
    requires apart { IsCovered kept.rows.items row → ⊥ }
    ensures grown { IfOk result (λ more. IsGrown kept.rows.items row more.rows.items) }
    ensures indexed { IfOk result (λ more.
        IsIndexed more.rows.items column (length more.rows.items) more.heads.free.items (places_at more.heads.places)) }
{
    if holds_none(
        alloc,
        kept.rows.as_slice(),
        &kept.heads,
        column,
        row.terms(),
    )? {
        let more = with_last(alloc, kept, column, row)?;
        return Ok(more);
    }
    let mut rest = without_instances(alloc, kept.rows, row.terms())?;
    rest.push(row)?;
    let heads = heads_of(alloc, rest.as_slice(), column)?;
    Ok(Kept { rows: rest, heads })
}

/// Returns the rows with one more in place of its instances, unless it is an instance itself. A row without variables
/// has no instance but itself.
fn with_row(alloc: Global, kept: Kept, column: usize, row: RelRow) -> Result<Kept, AllocError>
    requires { IsIndexed kept.rows.items column (length kept.rows.items) kept.heads.free.items
        (places_at kept.heads.places) }
    ensures grown { IfOk result (λ more. IsGrown kept.rows.items row more.rows.items) }
    ensures indexed { IfOk result (λ more.
        IsIndexed more.rows.items column (length more.rows.items) more.heads.free.items (places_at more.heads.places)) }
{
    if is_held(
        alloc,
        kept.rows.as_slice(),
        &kept.heads,
        column,
        row.terms(),
    )? {
        return Ok(kept);
    }
    if is_closed(&row) {
        let more = with_last(alloc, kept, column, row)?;
        return Ok(more);
    }
    let general = with_general(alloc, kept, column, row)?;
    Ok(general)
}

/// Returns the most general rows, each once, in their order. A row is compared with those that are kept so far and have
/// its constructor, or a variable, at the head of one column: the first one of fewer than sixteen rows, and else one by
/// whose heads the fewest pairs of rows are compared. A row with a variable there, and a row that has an instance among
/// them, may be compared with all of them. All kept rows are moved where a row has an instance among them.
pub fn maximal(alloc: Global, rows: Vec<RelRow>) -> Result<Vec<RelRow>, AllocError>
    ensures sifted { IfOk result (λ kept. IsSifted rows.items kept.items) }
    ensures order { IfOk result (λ kept. KeepsOrder rows.items kept.items) }
{
    let column = best_column(alloc, rows.as_slice())?;
    let mut kept = Kept {
        rows: Vec::with_capacity(alloc, rows.len())?,
        heads: Heads::new(alloc),
    };
    for row in rows {
        let more = with_row(alloc, kept, column, row)?;
        kept = more;
    }
    Ok(kept.rows)
}

/// Says whether each row is an instance of one that is kept. The kept rows are found by the heads of the first column.
pub fn are_covered(alloc: Global, kept: &[RelRow], rows: &[RelRow]) -> Result<bool, AllocError>
    ensures { IfOk result (λ b. AreCovered b kept.now rows.now) }
{
    if rows.len() == 0 {
        return Ok(true);
    }
    let heads = heads_of(alloc, kept, 0)?;
    for row in rows {
        if !is_held(alloc, kept, &heads, 0, row.terms())? {
            return Ok(false);
        }
    }
    Ok(true)
}
