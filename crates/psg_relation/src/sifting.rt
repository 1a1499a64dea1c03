//! The most general rows of a list in which some are too large to be written out.
ghost use Rattle.std.specs.Prelude.{◌≡◌, ◌≤◌, ◌↔◌, IfOk, IfSome, IsTrue, MatchOption, List, ℕ, vec_len};
ghost use Rattle.psg_terms.specs.Relations.{IsIn};
ghost use Rattle.psg_terms.specs.Text.{IsInTextOrder};
ghost use Rattle.psg_relation.specs.Choices.{AllHaveSorts};
ghost use Rattle.psg_relation.specs.Ordered.{KeepsOrder};
ghost use Rattle.psg_relation.specs.Sifted.{IsSplit, IsHalved, LosesHeavy, HasSameRows, IsLightly, StartsHeavy};

use crate::maximal::{are_covered, maximal};
use crate::order::in_order;
use crate::row::RelRow;
use crate::weighing::is_heavy;
use psg_terms::Signature;
use psg_terms::matching::same_all;
use std::alloc::{AllocError, Global};

/// The rows that a relation can have, and those that are too large for one.
#[derive(Drop)]
pub struct Split {
    /// The rows that a relation can have.
    pub light: Vec<RelRow>,
    /// The rows that are too large for a relation.
    pub heavy: Vec<RelRow>,
}

/// Returns the rows, split by their size. None is written out.
fn by_size(alloc: Global, rows: Vec<RelRow>) -> Result<Split, AllocError>
    ensures { IfOk result (λ s. IsSplit rows.items s.light.items s.heavy.items) }
{
    let mut light = Vec::with_capacity(alloc, rows.len())?;
    let mut heavy = Vec::new(alloc);
    for row in rows {
        if is_heavy(&row) {
            heavy.push(row)?;
        } else {
            light.push(row)?;
        }
    }
    Ok(Split { light, heavy })
}

/// Says whether the row is the last one of these.
fn repeats(once: &[RelRow], row: &RelRow) -> bool
    ensures { IsTrue result → IsIn row.now once.now }
{
    let count = once.len();
    if count == 0 {
        return false;
    }
    let last = count - 1;
    same_all(once[last].terms(), row.terms())
}

/// Returns the rows without those that repeat the one before.
fn without_repeats(alloc: Global, rows: Vec<RelRow>) -> Result<Vec<RelRow>, AllocError>
    ensures same { IfOk result (λ r. HasSameRows rows.items r.items) }
    ensures order { IfOk result (λ r. KeepsOrder rows.items r.items) }
{
    let mut once = Vec::with_capacity(alloc, rows.len())?;
    for row in rows {
        if !repeats(once.as_slice(), &row) {
            once.push(row)?;
        }
    }
    Ok(once)
}

/// Says whether the first row is too large for a relation.
fn starts_heavy(rows: &[RelRow]) -> bool
    ensures { IsTrue result ↔ StartsHeavy rows.now }
{
    match rows.first() {
        Some(row) => is_heavy(row),
        None => false,
    }
}

/// Returns the rows where they are one or none: there is nothing to compare and no order, so no text is written. `None`
/// where the row is too large for a relation.
pub fn alone(rows: Vec<RelRow>) -> Option<Vec<RelRow>>
    requires { vec_len rows ≤ 1 }
    ensures rows { MatchOption result (LosesHeavy rows.items) (λ kept. IsLightly rows.items kept.items) }
    ensures same { IfSome result (λ kept. kept.items ≡ rows.items) }
{
    if starts_heavy(rows.as_slice()) {
        return None;
    }
    Some(rows)
}

/// The most general ones of the rows that a relation can have, and the rows that are too large for one.
#[derive(Drop)]
pub struct Sifted {
    /// The most general rows, in byte order of their texts.
    pub kept: Vec<RelRow>,
    /// The rows that are too large for a relation.
    pub heavy: Vec<RelRow>,
}

/// Returns the most general ones of the rows that are not too large, in byte order of their texts, and the rows that
/// are.
pub fn sift_light(alloc: Global, sig: &Signature, rows: Vec<RelRow>) -> Result<Sifted, AllocError>
    requires { (sorts : List ℕ) × AllHaveSorts sig.now rows.items sorts }
    ensures halved { IfOk result (λ s. IsHalved rows.items s.kept.items s.heavy.items) }
    ensures order { IfOk result (λ s. IsInTextOrder sig.now s.kept.items) }
{
    let split = by_size(alloc, rows)?;
    let sorted = in_order(alloc, sig, split.light)?;
    let once = without_repeats(alloc, sorted)?;
    let kept = maximal(alloc, once)?;
    Ok(Sifted {
        kept,
        heavy: split.heavy,
    })
}

/// Returns the most general rows of more than one, in byte order of their texts, or `None` where one of them is too
/// large for a relation.
fn sift_many(
    alloc: Global,
    sig: &Signature,
    rows: Vec<RelRow>,
) -> Result<Option<Vec<RelRow>>, AllocError>
    requires { (sorts : List ℕ) × AllHaveSorts sig.now rows.items sorts }
    ensures rows { IfOk result (λ o. MatchOption o (LosesHeavy rows.items) (λ kept. IsLightly rows.items kept.items)) }
    ensures order { IfOk result (λ o. IfSome o (λ kept. IsInTextOrder sig.now kept.items)) }
{
    let sifted = sift_light(alloc, sig, rows)?;
    if are_covered(alloc, sifted.kept.as_slice(), sifted.heavy.as_slice())? {
        Ok(Some(sifted.kept))
    } else {
        Ok(None)
    }
}

/// Returns the most general rows, in byte order of their texts, or `None` where one of them is too large for a
/// relation. Rows that are too large are only compared, and not written out. A row that is alone is given back as it
/// is.
pub fn sift(
    alloc: Global,
    sig: &Signature,
    rows: Vec<RelRow>,
) -> Result<Option<Vec<RelRow>>, AllocError>
    requires { (sorts : List ℕ) × AllHaveSorts sig.now rows.items sorts }
    ensures rows { IfOk result (λ o. MatchOption o (LosesHeavy rows.items) (λ kept. IsLightly rows.items kept.items)) }
    ensures order { IfOk result (λ o. IfSome o (λ kept. IsInTextOrder sig.now kept.items)) }
{
    if rows.len() <= 1 {
        return Ok(alone(rows));
    }
    let kept = sift_many(alloc, sig, rows)?;
    Ok(kept)
}
