//! Joins of two rows, of which only those columns are solved that have variables or are paired with one that has.
ghost use Rattle.std.specs.Prelude.{◌≡◌, ◌<◌, ◌+◌, ◌++◌, ◌∷◌, [], All, IfOk, OnOk, IsTrue};
ghost use Rattle.std.specs.Prelude.{List, length, slice_get, true, Some, ℕ};
ghost use Rattle.psg_terms.specs.Terms.{Term as Plain};
ghost use Rattle.psg_terms.specs.Signature.{Signature as Sig};
ghost use Rattle.psg_terms.specs.Weight.{above_of};
ghost use Rattle.psg_unify.specs.Pairs.{AreJoinable};
ghost use Rattle.psg_unify.specs.Columns.{picked};
ghost use Rattle.psg_relation.specs.Joining.{IsJoint};
ghost use Rattle.psg_relation.specs.Narrowing.{ArePaired, ArePushed, IsPlanned, IsNarrow, IsSide, IsPlace};
ghost use Rattle.psg_relation.specs.Narrowing.{number_of, numbers, spot_of, spots};
ghost use Rattle.psg_relation.specs.Settling.{IsSettled};

use crate::row::RelRow;
use crate::selecting::with_diagonal;
use crate::settling::settled;
use psg_terms::{Signature, Term};
use psg_unify::JoinPool;
use std::alloc::{AllocError, Global};

/// A column that is solved.
#[derive(Clone, Copy)]
pub enum Side {
    /// The left one of this number.
    Left(usize),
    /// The right one of this number.
    Right(usize),
}

/// Where a kept column of the whole rows is.
#[derive(Clone, Copy)]
pub enum Place {
    /// It is solved, and has this number among the kept ones.
    Solved(usize),
    /// It has no variable, and is the column of this number of both rows, the right ones after the left ones.
    Given(usize),
}

/// Columns that are solved, and the places of the kept ones.
#[derive(Drop)]
pub struct Narrow {
    /// How many pairs are solved: in each the left and the right column with its number.
    pub front: usize,
    /// The left columns that are solved: those of the pairs, and then those that are kept.
    pub lefts: Vec<Term>,
    /// The right columns that are solved: those of the pairs, and then those that are kept.
    pub rights: Vec<Term>,
    /// The kept columns among these, in the order in which they are kept.
    pub keep: Vec<Side>,
    /// Where each kept column of the whole rows is.
    pub places: Vec<Place>,
}

/// Says whether the terms are equal for all values of their variables, as far as that shows at once.
fn is_equal(a: &Term, b: &Term) -> bool
    ensures { IsTrue result → IsSettled a.now b.now true }
{
    match settled(a, b) {
        Some(equal) => equal,
        None => false,
    }
}

/// Puts two terms that are paired on the rows, unless they are equal for all values of their variables.
fn push_open(
    lefts: &mut Vec<Term>,
    rights: &mut Vec<Term>,
    one: &Term,
    other: &Term,
) -> Result<(), AllocError>
    ensures { OnOk result (ArePushed one.now other.now lefts.old.items rights.old.items lefts.new.items
        rights.new.items) }
{
    if is_equal(one, other) {
        return Ok(());
    }
    let first = one.share()?;
    let second = other.share()?;
    lefts.push(first)?;
    rights.push(second)?;
    Ok(())
}

/// Returns the columns of the pairs that have to be solved.
fn paired(
    alloc: Global,
    left: &[Term],
    right: &[Term],
    pairs: &[(usize, usize)],
) -> Result<Narrow, AllocError>
    requires { All (λ p. (p.0 < length left.now) × (p.1 < length right.now)) pairs.now }
    ensures paired { IfOk result (λ n. (sig : Sig) → AreJoinable sig left.now right.now pairs.now
        → ArePaired sig left.now right.now pairs.now n.lefts.items n.rights.items) }
    ensures front { IfOk result (λ n. n.front ≡ length n.lefts.items) }
    ensures keep { IfOk result (λ n. n.keep.items ≡ []) }
    ensures places { IfOk result (λ n. n.places.items ≡ []) }
{
    let mut lefts = Vec::new(alloc);
    let mut rights = Vec::new(alloc);
    for i in 0..pairs.len() {
        let pair = pairs[i];
        push_open(&mut lefts, &mut rights, &left[pair.0], &right[pair.1])?;
    }
    Ok(Narrow {
        front: lefts.len(),
        lefts,
        rights,
        keep: Vec::new(alloc),
        places: Vec::new(alloc),
    })
}

/// Puts a kept column that has no variable, so that it is shared.
fn keep_shared(narrow: &mut Narrow, column: usize) -> Result<(), AllocError>
    ensures front { narrow.new.front ≡ narrow.old.front }
    ensures planned { OnOk result ((left right lefts rights : List Plain) (width count : ℕ) (keep : List ℕ) (t : Plain)
        → slice_get (left ++ right) column ≡ Some t → above_of t ≡ 0
        → IsPlanned left right lefts rights width count keep narrow.old
        → IsPlanned left right lefts rights width count (keep ++ column ∷ []) narrow.new) }
{
    narrow.places.push(Place::Given(column))?;
    Ok(())
}

/// Puts a kept column of the left row among those that are solved.
fn keep_left(narrow: &mut Narrow, term: &Term, column: usize) -> Result<(), AllocError>
    ensures front { narrow.new.front ≡ narrow.old.front }
    ensures planned { OnOk result ((left right lefts rights : List Plain) (width count : ℕ) (keep : List ℕ)
        → slice_get left column ≡ Some term.now → IsPlanned left right lefts rights width count keep narrow.old
        → IsPlanned left right lefts rights width count (keep ++ column ∷ []) narrow.new) }
{
    let copy = term.share()?;
    let lefts = narrow.lefts.as_slice();
    let next = lefts.len();
    let kept = narrow.keep.as_slice();
    let place = kept.len();
    narrow.lefts.push(copy)?;
    narrow.keep.push(Side::Left(next))?;
    narrow.places.push(Place::Solved(place))?;
    Ok(())
}

/// Puts a kept column of the right row among those that are solved.
fn keep_right(narrow: &mut Narrow, term: &Term, column: usize) -> Result<(), AllocError>
    ensures front { narrow.new.front ≡ narrow.old.front }
    ensures planned { OnOk result ((left right lefts rights : List Plain) (width count : ℕ) (keep : List ℕ) (i : ℕ)
        → column ≡ length left + i → slice_get right i ≡ Some term.now
        → IsPlanned left right lefts rights width count keep narrow.old
        → IsPlanned left right lefts rights width count (keep ++ column ∷ []) narrow.new) }
{
    let copy = term.share()?;
    let rights = narrow.rights.as_slice();
    let next = rights.len();
    let kept = narrow.keep.as_slice();
    let place = kept.len();
    narrow.rights.push(copy)?;
    narrow.keep.push(Side::Right(next))?;
    narrow.places.push(Place::Solved(place))?;
    Ok(())
}

/// Puts a kept column of one of the rows.
fn keep_column(
    narrow: &mut Narrow,
    left: &[Term],
    right: &[Term],
    column: usize,
) -> Result<(), AllocError>
    requires { column < length left.now + length right.now }
    ensures front { narrow.new.front ≡ narrow.old.front }
    ensures planned { OnOk result ((lefts rights : List Plain) (width count : ℕ) (keep : List ℕ)
        → IsPlanned left.now right.now lefts rights width count keep narrow.old
        → IsPlanned left.now right.now lefts rights width count (keep ++ column ∷ []) narrow.new) }
{
    if column < left.len() {
        let term = &left[column];
        if term.above() == 0 {
            keep_shared(narrow, column)?;
            return Ok(());
        }
        keep_left(narrow, term, column)?;
        return Ok(());
    }
    let place = column - left.len();
    let other = &right[place];
    if other.above() == 0 {
        keep_shared(narrow, column)?;
        return Ok(());
    }
    keep_right(narrow, other, column)?;
    Ok(())
}

/// Puts the kept columns of both rows.
fn keep_columns(
    narrow: &mut Narrow,
    left: &[Term],
    right: &[Term],
    keep: &[usize],
) -> Result<(), AllocError>
    requires { All (λ k. k < length left.now + length right.now) keep.now }
    ensures front { narrow.new.front ≡ narrow.old.front }
    ensures planned { OnOk result ((lefts rights : List Plain) (width count : ℕ)
        → IsPlanned left.now right.now lefts rights width count [] narrow.old
        → IsPlanned left.now right.now lefts rights width count keep.now narrow.new) }
{
    for i in 0..keep.len() {
        let column = keep[i];
        keep_column(narrow, left, right, column)?;
    }
    Ok(())
}

/// Returns the columns that have to be solved, and the places of the kept ones.
fn narrow_of(
    alloc: Global,
    left: &[Term],
    right: &[Term],
    pairs: &[(usize, usize)],
    keep: &[usize],
) -> Result<Narrow, AllocError>
    requires pairs { All (λ p. (p.0 < length left.now) × (p.1 < length right.now)) pairs.now }
    requires keep { All (λ k. k < length left.now + length right.now) keep.now }
    ensures { IfOk result (λ n. IsNarrow left.now right.now pairs.now keep.now n) }
{
    let mut narrow = paired(alloc, left, right, pairs)?;
    keep_columns(&mut narrow, left, right, keep)?;
    Ok(narrow)
}

/// Returns the number of a column, of the left columns and the right ones after them.
fn number(lefts: &[Term], rights: &[Term], side: Side) -> usize
    requires { IsSide lefts.now rights.now side }
    ensures { result ≡ number_of (length lefts.now) side }
{
    match side {
        Side::Left(column) => column,
        Side::Right(column) => {
            let count = lefts.len();
            count + column
        }
    }
}

/// Returns the numbers of the columns, of the left columns and the right ones after them.
fn side_numbers(
    alloc: Global,
    lefts: &[Term],
    rights: &[Term],
    keep: &[Side],
) -> Result<Vec<usize>, AllocError>
    requires { All (IsSide lefts.now rights.now) keep.now }
    ensures { IfOk result (λ v. v.items ≡ numbers (length lefts.now) keep.now) }
{
    let mut all = Vec::with_capacity(alloc, keep.len())?;
    for i in 0..keep.len() {
        let side = keep[i];
        all.push(number(lefts, rights, side))?;
    }
    Ok(all)
}

/// Returns the term at a place: a solved one, or one of the left row or of the right one.
fn term_at(solved: &[Term], left: &[Term], right: &[Term], place: Place) -> Result<Term, AllocError>
    requires { IsPlace (length solved.now) (length left.now + length right.now) place }
    ensures { IfOk result (λ t.
        slice_get (solved.now ++ (left.now ++ right.now)) (spot_of (length solved.now) place) ≡ Some t) }
{
    match place {
        Place::Solved(column) => {
            let term = solved[column].share()?;
            Ok(term)
        }
        Place::Given(column) => {
            if column < left.len() {
                let term = left[column].share()?;
                return Ok(term);
            }
            let term = right[column - left.len()].share()?;
            Ok(term)
        }
    }
}

/// Returns the terms at these places: solved ones, and those of the left row and of the right one.
fn planned_row(
    alloc: Global,
    solved: &[Term],
    left: &[Term],
    right: &[Term],
    places: &[Place],
) -> Result<RelRow, AllocError>
    requires { All (IsPlace (length solved.now) (length left.now + length right.now)) places.now }
    ensures { IfOk result (λ row. row
        ≡ picked (solved.now ++ (left.now ++ right.now)) (spots (length solved.now) places.now)) }
{
    let mut terms = Vec::with_capacity(alloc, places.len())?;
    for i in 0..places.len() {
        let place = places[i];
        let term = term_at(solved, left, right, place)?;
        terms.push(term)?;
    }
    Ok(RelRow::new(terms))
}

/// Returns the kept columns of the join of two rows, where they can be made to agree. Only columns with variables,
/// those that are paired with one, and paired ones that are larger than a term of a relation are solved; the others are
/// shared.
pub fn narrowed(
    alloc: Global,
    sig: &Signature,
    pool: &mut JoinPool,
    left: &[Term],
    right: &[Term],
    pairs: &[(usize, usize)],
    keep: &[usize],
) -> Result<Option<RelRow>, AllocError>
    requires joinable { AreJoinable sig.now left.now right.now pairs.now }
    requires keep { All (λ k. k < length left.now + length right.now) keep.now }
    ensures { IfOk result (λ o. IsJoint sig.now pairs.now keep.now left.now right.now o) }
{
    sig.sound();
    let narrow = narrow_of(alloc, left, right, pairs, keep)?;
    let inner = with_diagonal(alloc, narrow.front, &[])?;
    let lefts = narrow.lefts.as_slice();
    let rights = narrow.rights.as_slice();
    let numbers = side_numbers(alloc, lefts, rights, narrow.keep.as_slice())?;
    let kept = numbers.as_slice();
    let pairs = inner.as_slice();
    let solution = pool.join(alloc, sig, lefts, rights, pairs, kept)?;
    match solution {
        Some(solved) => {
            let terms = solved.as_slice();
            let places = narrow.places.as_slice();
            let row = planned_row(alloc, terms, left, right, places)?;
            Ok(Some(row))
        }
        None => Ok(None),
    }
}
