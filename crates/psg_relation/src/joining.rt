//! Joins of relations.
ghost use Rattle.std.specs.Prelude.{◌≡◌, ◌+◌, ◌<◌, ◌++◌, All, IfOk, IfErr, List, ℕ, length};
ghost use Rattle.psg_terms.specs.Terms.{Term as Plain};
ghost use Rattle.psg_terms.specs.Relations.{IsRelation, IsGlued};
ghost use Rattle.psg_terms.specs.Weight.{PassesLimit};
ghost use Rattle.psg_unify.specs.Pairs.{AreJoinable};
ghost use Rattle.psg_relation.specs.Choices.{AllHaveSorts, Agrees, HasWide, MayBeWide, picked};
ghost use Rattle.psg_relation.specs.Joining.{IsJoint, IsMore, MayJoin};
ghost use Rattle.psg_relation.specs.Settling.{AreSettled};

use crate::beside::{any_value, beside, is_any_value};
use crate::crossing::all_joins;
use crate::forcing::{fill_all, forced_pairs};
use crate::narrowing::narrowed;
use crate::rejoining::{Partners, relation_of_joins};
use crate::relation::{Rel, RelFault};
use crate::row::RelRow;
use crate::settling::settled_pairs;
use crate::weighing::{MOST_SYMBOLS, row_weight};
use psg_terms::{Signature, Term};
use psg_unify::JoinPool;
use std::alloc::{AllocError, Global};

/// Returns the kept columns of two rows that agree on the pairs for all values of their variables, or nothing where
/// they agree for none.
fn settled_row(
    alloc: Global,
    sig: &Signature,
    left: &[Term],
    right: &[Term],
    pairs: &[(usize, usize)],
    keep: &[usize],
    equal: bool,
) -> Result<Option<RelRow>, AllocError>
    requires joinable { AreJoinable sig.now left.now right.now pairs.now }
    requires settled { AreSettled left.now right.now pairs.now equal }
    requires keep { All (λ k. k < length left.now + length right.now) keep.now }
    ensures { IfOk result (λ o. IsJoint sig.now pairs.now keep.now left.now right.now o) }
{
    if equal {
        let row = beside(alloc, sig, left, right, pairs, keep)?;
        return Ok(Some(row));
    }
    Ok(None)
}

/// Returns the kept columns of the join of two rows. What does not show at once is solved.
fn solved_row(
    alloc: Global,
    sig: &Signature,
    pool: &mut JoinPool,
    left: &[Term],
    right: &[Term],
    pairs: &[(usize, usize)],
    keep: &[usize],
) -> Result<Option<RelRow>, AllocError>
    requires joinable { AreJoinable sig.now left.now right.now pairs.now }
    requires keep { All (λ k. k < length left.now + length right.now) keep.now }
    ensures { IfOk result (λ o. IsJoint sig.now pairs.now keep.now left.now right.now o) }
{
    match settled_pairs(left, right, pairs) {
        Some(equal) => {
            let row = settled_row(alloc, sig, left, right, pairs, keep, equal)?;
            Ok(row)
        }
        None => {
            let row = narrowed(alloc, sig, pool, left, right, pairs, keep)?;
            Ok(row)
        }
    }
}

/// Says whether one of the rows has more variables and constructors than a relation can have.
fn is_large(left: &[Term], right: &[Term]) -> bool {
    row_weight(left) > MOST_SYMBOLS || row_weight(right) > MOST_SYMBOLS
}

/// Returns the kept columns of the join of two rows. Variables that are paired with terms without variables are
/// replaced by these first, unless a row gets too large for a relation by that: such a row would be compared place by
/// place, and the rows as they are need not be.
fn forced_row(
    alloc: Global,
    sig: &Signature,
    pool: &mut JoinPool,
    left: &[Term],
    right: &[Term],
    pairs: &[(usize, usize)],
    keep: &[usize],
) -> Result<Option<RelRow>, AllocError>
    requires joinable { AreJoinable sig.now left.now right.now pairs.now }
    requires keep { All (λ k. k < length left.now + length right.now) keep.now }
    ensures { IfOk result (λ o. IsJoint sig.now pairs.now keep.now left.now right.now o) }
{
    let forced = forced_pairs(alloc, sig, left, right, pairs)?;
    let lefts = forced.left.as_slice();
    let rights = forced.right.as_slice();
    let one = fill_all(alloc, lefts, left)?;
    let other = fill_all(alloc, rights, right)?;
    let first = one.as_slice();
    let second = other.as_slice();
    if is_large(first, second) {
        return narrowed(alloc, sig, pool, left, right, pairs, keep);
    }
    let row = solved_row(alloc, sig, pool, first, second, pairs, keep)?;
    Ok(row)
}

/// Returns the kept columns of the join of two rows, where they can be made to agree. Rows with different constructors
/// at the heads of a pair, and those whose paired columns have no variables, need nothing to be made but the row.
pub fn joined_row(
    alloc: Global,
    sig: &Signature,
    pool: &mut JoinPool,
    left: &[Term],
    right: &[Term],
    pairs: &[(usize, usize)],
    keep: &[usize],
) -> Result<Option<RelRow>, AllocError>
    requires joinable { AreJoinable sig.now left.now right.now pairs.now }
    requires keep { All (λ k. k < length left.now + length right.now) keep.now }
    ensures { IfOk result (λ o. IsJoint sig.now pairs.now keep.now left.now right.now o) }
{
    if is_any_value(left, right, pairs, keep) {
        let row = any_value(alloc, sig, left, right, pairs, keep)?;
        return Ok(Some(row));
    }
    match settled_pairs(left, right, pairs) {
        Some(equal) => {
            let row = settled_row(alloc, sig, left, right, pairs, keep, equal)?;
            Ok(row)
        }
        None => {
            let row = forced_row(alloc, sig, pool, left, right, pairs, keep)?;
            Ok(row)
        }
    }
}

/// Returns the rows, and after them the join of two rows, where they can be made to agree. It solves in the pool what
/// has to be solved.
pub fn with_join_in(
    alloc: Global,
    sig: &Signature,
    pool: &mut JoinPool,
    made: Vec<RelRow>,
    left: &[Term],
    right: &[Term],
    pairs: &[(usize, usize)],
    keep: &[usize],
) -> Result<Vec<RelRow>, AllocError>
    requires joinable { AreJoinable sig.now left.now right.now pairs.now }
    requires keep { All (λ k. k < length left.now + length right.now) keep.now }
    ensures { IfOk result (λ more. IsMore sig.now pairs.now keep.now left.now right.now made.items more.items) }
{
    match joined_row(alloc, sig, pool, left, right, pairs, keep)? {
        Some(row) => {
            let mut more = made;
            more.push(row)?;
            Ok(more)
        }
        None => Ok(made),
    }
}

/// Returns the rows, and after them the join of two rows, where they can be made to agree.
pub fn with_join(
    alloc: Global,
    sig: &Signature,
    made: Vec<RelRow>,
    left: &[Term],
    right: &[Term],
    pairs: &[(usize, usize)],
    keep: &[usize],
) -> Result<Vec<RelRow>, AllocError>
    requires joinable { AreJoinable sig.now left.now right.now pairs.now }
    requires keep { All (λ k. k < length left.now + length right.now) keep.now }
    ensures { IfOk result (λ more. IsMore sig.now pairs.now keep.now left.now right.now made.items more.items) }
{
    let mut pool = JoinPool::new(alloc);
    let more = with_join_in(alloc, sig, &mut pool, made, left, right, pairs, keep)?;
    Ok(more)
}

/// Returns the relation of what the rows of both sides make where they agree on the pairs of columns, each a column of
/// the left row and one of the right row. Of the left columns and the right ones after them, those of the numbers in
/// `keep` are kept, in this order.
///
/// `Wide` is returned exactly where this relation has more than 16,384 variables and constructors or a term deeper than
/// 1,000; a joined row that alone is too large does not count where it is an instance of another one, and its text is
/// not written. `Memory` is returned when memory runs out.
///
/// It joins each row of the one side with those rows of the other side that have the same constructor at the head of
/// the first paired column, or a variable there. A row with a variable there, and a row where there are no pairs, is
/// joined with each row of the other side. A join goes over both rows and shares what it makes. After the joins the
/// cost is that of `Rel::of`. Where a joined row that is too large has two equally large terms of more than 2^20
/// variables and constructors for one variable of another row, all joins are made once more, and those that are too
/// large are solved a third time and compared as cells.
pub fn join(
    alloc: Global,
    sig: &Signature,
    left: &Rel,
    right: &Rel,
    pairs: &[(usize, usize)],
    keep: &[usize],
) -> Result<Rel, RelFault>
    requires { MayJoin sig.now left.now right.now pairs.now keep.now }
    ensures relation { IfOk result
        (λ made. (ls rs : List ℕ) → AllHaveSorts sig.now left.now ls → AllHaveSorts sig.now right.now rs
        → IsRelation sig.now (picked (ls ++ rs) keep.now)
        (IsGlued sig.now (Agrees pairs.now keep.now) left.now right.now) made) }
    ensures within { IfOk result (λ made. PassesLimit made → ⊥) }
    ensures wide { IfErr result (MayBeWide
        ((ls rs : List ℕ) → AllHaveSorts sig.now left.now ls → AllHaveSorts sig.now right.now rs
        → (others : List (List Plain)) → IsRelation sig.now (picked (ls ++ rs) keep.now)
        (IsGlued sig.now (Agrees pairs.now keep.now) left.now right.now) others
        → PassesLimit others)) }
    ensures some { IfErr result (MayBeWide
        ((ls rs : List ℕ) → AllHaveSorts sig.now left.now ls → AllHaveSorts sig.now right.now rs
        → HasWide sig.now (picked (ls ++ rs) keep.now)
        (IsGlued sig.now (Agrees pairs.now keep.now) left.now right.now))) }
{
    let lefts = left.rows();
    let rights = right.rows();
    let made = all_joins(alloc, sig, lefts, rights, pairs, keep)?;
    relation_of_joins(alloc, sig, made, lefts, rights, Partners::All, pairs, keep)
}
