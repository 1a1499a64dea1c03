//! Some columns of a relation.
ghost use Rattle.std.specs.Prelude.{◌≡◌, ◌<◌, All, IfOk, IfErr, List, ℕ, length};
ghost use Rattle.psg_terms.specs.Terms.{Term as Plain};
ghost use Rattle.psg_terms.specs.Relations.{IsRelation};
ghost use Rattle.psg_terms.specs.Weight.{PassesLimit};
ghost use Rattle.psg_relation.specs.Choices.{AllHaveSorts, AllWithin, HasWide, IsProjected, MayBeWide};
ghost use Rattle.psg_relation.specs.Choices.{picked, all_picked};

use crate::relation::{Rel, RelFault};
use crate::row::RelRow;
use psg_terms::{Signature, Term};
use std::alloc::{AllocError, Global};

/// Returns the terms in the columns of these numbers.
pub fn kept_columns(alloc: Global, row: &[Term], keep: &[usize]) -> Result<RelRow, AllocError>
    requires { All (λ k. k < length row.now) keep.now }
    ensures { IfOk result (λ r. r ≡ picked row.now keep.now) }
{
    let mut terms = Vec::with_capacity(alloc, keep.len())?;
    for i in 0..keep.len() {
        let place = keep[i];
        terms.push(row[place].share()?)?;
    }
    Ok(RelRow::new(terms))
}

/// Returns the columns of these numbers of each row.
pub fn all_columns(
    alloc: Global,
    rows: &[RelRow],
    keep: &[usize],
) -> Result<Vec<RelRow>, AllocError>
    requires { AllWithin rows.now keep.now }
    ensures { IfOk result (λ made. made.items ≡ all_picked rows.now keep.now) }
{
    let mut made = Vec::with_capacity(alloc, rows.len())?;
    for row in rows {
        let columns = kept_columns(alloc, row.terms(), keep)?;
        made.push(columns)?;
    }
    Ok(made)
}

/// Returns the relation of some columns of a relation, in the order of their numbers; a column may be kept more than
/// once.
///
/// `Wide` is returned exactly where this relation has more than 16,384 variables and constructors, which takes columns
/// that are kept more than once. `Memory` is returned when memory runs out, and the cost is that of `Rel::of`.
pub fn project(alloc: Global, sig: &Signature, rel: &Rel, keep: &[usize]) -> Result<Rel, RelFault>
    requires sorts { (sorts : List ℕ) × AllHaveSorts sig.now rel.now sorts }
    requires keep { AllWithin rel.now keep.now }
    ensures relation { IfOk result (λ made. (sorts : List ℕ) → AllHaveSorts sig.now rel.now sorts
        → IsRelation sig.now (picked sorts keep.now) (IsProjected sig.now rel.now keep.now) made) }
    ensures within { IfOk result (λ made. PassesLimit made → ⊥) }
    ensures wide { IfErr result (MayBeWide ((sorts : List ℕ) → AllHaveSorts sig.now rel.now sorts
        → (others : List (List Plain))
        → IsRelation sig.now (picked sorts keep.now) (IsProjected sig.now rel.now keep.now) others
        → PassesLimit others)) }
    ensures some { IfErr result (MayBeWide ((sorts : List ℕ) → AllHaveSorts sig.now rel.now sorts
        → HasWide sig.now (picked sorts keep.now) (IsProjected sig.now rel.now keep.now))) }
{
    let columns = all_columns(alloc, rel.rows(), keep)?;
    Rel::of(alloc, sig, columns.as_slice())
}
