//! Kept columns of two rows that need not be solved.
ghost use Rattle.std.specs.Prelude.{◌≡◌, ◌<◌, ◌+◌, ◌++◌, ◌⊎◌, All, IfOk, IsTrue, List, Some};
ghost use Rattle.std.specs.Prelude.{length, slice_get, true, false, ℕ};
ghost use Rattle.psg_terms.specs.Canonical.{IsCanonical};
ghost use Rattle.psg_terms.specs.Instances.{HasSameInstances};
ghost use Rattle.psg_terms.specs.Signature.{AreTerms, HaveSorts};
ghost use Rattle.psg_unify.specs.Pairs.{AreJoinable};
ghost use Rattle.psg_unify.specs.Columns.{picked};
ghost use Rattle.psg_relation.specs.Heavy.{highest_in};
ghost use Rattle.psg_relation.specs.Joining.{IsJoinOf};
ghost use Rattle.psg_relation.specs.Settling.{AreSettled, IsAnyValue};

use crate::row::RelRow;
use crate::weighing::row_above;
use psg_terms::canonical::canonical;
use psg_terms::{Node, Signature, Term, raise_all};
use std::alloc::{AllocError, Global};

/// Returns the column of this number, of the left columns and the right ones after them.
fn column_at(left: &[Term], right: &[Term], place: usize) -> Result<Term, AllocError>
    requires { place < length left.now + length right.now }
    ensures { IfOk result (λ t. slice_get (left.now ++ right.now) place ≡ Some t) }
{
    if place < left.len() {
        let term = left[place].share()?;
        return Ok(term);
    }
    let rest = place - left.len();
    let other = right[rest].share()?;
    Ok(other)
}

/// Returns the terms in the columns of these numbers, of the left columns and the right ones after them.
fn columns_of(
    alloc: Global,
    left: &[Term],
    right: &[Term],
    keep: &[usize],
) -> Result<Vec<Term>, AllocError>
    requires { All (λ k. k < length left.now + length right.now) keep.now }
    ensures { IfOk result (λ v. v.items ≡ picked (left.now ++ right.now) keep.now) }
{
    let mut terms = Vec::with_capacity(alloc, keep.len())?;
    for i in 0..keep.len() {
        let place = keep[i];
        let term = column_at(left, right, place)?;
        terms.push(term)?;
    }
    Ok(terms)
}

/// Says whether the row has no variable.
fn is_closed_row(columns: &Vec<Term>) -> bool
    ensures { IsTrue result → highest_in columns.now.items ≡ 0 }
{
    row_above(columns.as_slice()) == 0
}

/// Returns the row with canonical numbers.
fn numbered(alloc: Global, sig: &Signature, columns: &[Term]) -> Result<RelRow, AllocError>
    requires { AreTerms sig.now columns.now }
    ensures canonical { IfOk result (λ row. IsCanonical sig.now row) }
    ensures same { IfOk result (λ row. HasSameInstances sig.now row columns.now) }
    ensures sorted { IfOk result (λ row. (ss : List ℕ) → HaveSorts sig.now columns.now ss → HaveSorts sig.now row ss) }
{
    let form = canonical(alloc, sig, columns)?;
    Ok(RelRow::new(form))
}

/// Returns the row with canonical numbers. Where it has no variable it is given back.
fn finished(alloc: Global, sig: &Signature, columns: Vec<Term>) -> Result<RelRow, AllocError>
    requires { AreTerms sig.now columns.items }
    ensures canonical { IfOk result (λ row. IsCanonical sig.now row) }
    ensures same { IfOk result (λ row. HasSameInstances sig.now row columns.items) }
    ensures sorted { IfOk result (λ row. (ss : List ℕ) → HaveSorts sig.now columns.items ss
        → HaveSorts sig.now row ss) }
{
    if is_closed_row(&columns) {
        return Ok(RelRow::new(columns));
    }
    let row = numbered(alloc, sig, columns.as_slice())?;
    Ok(row)
}

/// Says whether the row has no variable.
fn is_closed_slice(row: &[Term]) -> bool
    ensures { IsTrue result → highest_in row.now ≡ 0 }
{
    row_above(row) == 0
}

/// Says whether both rows have variables.
fn are_both_open(left: &[Term], right: &[Term]) -> bool
    ensures { result ≡ false → (highest_in left.now ≡ 0) ⊎ (highest_in right.now ≡ 0) }
{
    if is_closed_slice(left) {
        return false;
    }
    if is_closed_slice(right) {
        return false;
    }
    true
}

/// Returns the kept columns of two rows, where the left row's variables get numbers above those of the right row.
fn left_raised(
    alloc: Global,
    sig: &Signature,
    left: &[Term],
    right: &[Term],
    pairs: &[(usize, usize)],
    keep: &[usize],
) -> Result<RelRow, AllocError>
    requires joinable { AreJoinable sig.now left.now right.now pairs.now }
    requires settled { AreSettled left.now right.now pairs.now true }
    requires keep { All (λ k. k < length left.now + length right.now) keep.now }
    ensures { IfOk result (λ row. IsJoinOf sig.now pairs.now keep.now left.now right.now row) }
{
    let _ = pairs;
    let above = row_above(right);
    let moved = raise_all(alloc, above as usize, left)?;
    let columns = columns_of(alloc, moved.as_slice(), right, keep)?;
    let row = finished(alloc, sig, columns)?;
    Ok(row)
}

/// Returns the kept columns of two rows, where the right row's variables get numbers above those of the left row.
fn right_raised(
    alloc: Global,
    sig: &Signature,
    left: &[Term],
    right: &[Term],
    pairs: &[(usize, usize)],
    keep: &[usize],
) -> Result<RelRow, AllocError>
    requires joinable { AreJoinable sig.now left.now right.now pairs.now }
    requires settled { AreSettled left.now right.now pairs.now true }
    requires keep { All (λ k. k < length left.now + length right.now) keep.now }
    ensures { IfOk result (λ row. IsJoinOf sig.now pairs.now keep.now left.now right.now row) }
{
    let _ = pairs;
    let above = row_above(left);
    let moved = raise_all(alloc, above as usize, right)?;
    let columns = columns_of(alloc, left, moved.as_slice(), keep)?;
    let row = finished(alloc, sig, columns)?;
    Ok(row)
}

/// Returns the kept columns of two rows whose variables get numbers apart: those of the row with fewer columns are
/// raised.
fn apart(
    alloc: Global,
    sig: &Signature,
    left: &[Term],
    right: &[Term],
    pairs: &[(usize, usize)],
    keep: &[usize],
) -> Result<RelRow, AllocError>
    requires joinable { AreJoinable sig.now left.now right.now pairs.now }
    requires settled { AreSettled left.now right.now pairs.now true }
    requires keep { All (λ k. k < length left.now + length right.now) keep.now }
    ensures { IfOk result (λ row. IsJoinOf sig.now pairs.now keep.now left.now right.now row) }
{
    if left.len() < right.len() {
        let row = left_raised(alloc, sig, left, right, pairs, keep)?;
        return Ok(row);
    }
    let row = right_raised(alloc, sig, left, right, pairs, keep)?;
    Ok(row)
}

/// Returns the kept columns of two rows that agree on the pairs for all values of their variables.
pub fn beside(
    alloc: Global,
    sig: &Signature,
    left: &[Term],
    right: &[Term],
    pairs: &[(usize, usize)],
    keep: &[usize],
) -> Result<RelRow, AllocError>
    requires joinable { AreJoinable sig.now left.now right.now pairs.now }
    requires settled { AreSettled left.now right.now pairs.now true }
    requires keep { All (λ k. k < length left.now + length right.now) keep.now }
    ensures { IfOk result (λ row. IsJoinOf sig.now pairs.now keep.now left.now right.now row) }
{
    if are_both_open(left, right) {
        let row = apart(alloc, sig, left, right, pairs, keep)?;
        return Ok(row);
    }
    let columns = columns_of(alloc, left, right, keep)?;
    let finish = finished(alloc, sig, columns)?;
    Ok(finish)
}

/// Says whether all numbers are below the count.
pub fn are_below(keep: &[usize], count: usize) -> bool
    ensures { IsTrue result → All (λ k. k < count) keep.now }
{
    for i in 0..keep.len() {
        if keep[i] >= count {
            return false;
        }
    }
    true
}

/// Says whether the right row is one variable, with which the one pair is, and all kept columns are of the left row.
/// Then the right row says nothing of the left one.
pub fn is_any_value(left: &[Term], right: &[Term], pairs: &[(usize, usize)], keep: &[usize]) -> bool
    ensures { IsTrue result → IsAnyValue right.now pairs.now keep.now (length left.now) }
{
    if right.len() != 1 {
        return false;
    }
    if pairs.len() != 1 {
        return false;
    }
    let pair = pairs[0];
    if pair.1 != 0 {
        return false;
    }
    match right[0].node() {
        Node::Con { .. } => false,
        Node::Var { .. } => are_below(keep, left.len()),
    }
}

/// Returns the kept columns where the right row says nothing of the left one.
pub fn any_value(
    alloc: Global,
    sig: &Signature,
    left: &[Term],
    right: &[Term],
    pairs: &[(usize, usize)],
    keep: &[usize],
) -> Result<RelRow, AllocError>
    requires joinable { AreJoinable sig.now left.now right.now pairs.now }
    requires any { IsAnyValue right.now pairs.now keep.now (length left.now) }
    requires keep { All (λ k. k < length left.now + length right.now) keep.now }
    ensures { IfOk result (λ row. IsJoinOf sig.now pairs.now keep.now left.now right.now row) }
{
    sig.sound();
    let _ = pairs;
    let columns = columns_of(alloc, left, right, keep)?;
    let row = finished(alloc, sig, columns)?;
    Ok(row)
}
