//! Rows whose own columns agree.
ghost use Rattle.std.specs.Prelude.{◌≡◌, ◌<◌, ◌++◌, All, IfOk, IfErr, List, ℕ, length};
ghost use Rattle.psg_terms.specs.Terms.{Term as Plain};
ghost use Rattle.psg_terms.specs.Relations.{IsIn, IsRelation};
ghost use Rattle.psg_terms.specs.Weight.{PassesLimit};
ghost use Rattle.psg_unify.specs.Pairs.{AreOfEqualSort};
ghost use Rattle.psg_relation.specs.Choices.{AllHaveSorts, AllWithin, HasWide, IsSelected, MayBeWide, picked};
ghost use Rattle.psg_relation.specs.Joining.{AreJoined, MayMeet};
ghost use Rattle.psg_relation.specs.Selecting.{diagonal, twins, width_of};

use crate::joining::with_join_in;
use crate::projection::all_columns;
use crate::rejoining::{Partners, relation_of_joins};
use crate::relation::{Rel, RelFault};
use crate::row::RelRow;
use psg_terms::Signature;
use psg_unify::JoinPool;
use std::alloc::{AllocError, Global};

/// Returns how many columns the rows have, and 0 where there is none.
fn width(rows: &[RelRow]) -> usize
    ensures { result ≡ width_of rows.now }
{
    match rows.first() {
        Some(row) => row.terms().len(),
        None => 0,
    }
}

/// Returns each column with itself, and then the pairs.
pub fn with_diagonal(
    alloc: Global,
    width: usize,
    pairs: &[(usize, usize)],
) -> Result<Vec<(usize, usize)>, AllocError>
    ensures { IfOk result (λ all. all.items ≡ diagonal 0 width ++ pairs.now) }
{
    let mut all = Vec::new(alloc);
    for column in 0..width {
        all.push((column, column))?;
    }
    all.extend_from_slice(pairs)?;
    Ok(all)
}

/// Returns the joins of each row with itself.
fn self_joins(
    alloc: Global,
    sig: &Signature,
    rows: &[RelRow],
    pairs: &[(usize, usize)],
    keep: &[usize],
) -> Result<Vec<RelRow>, AllocError>
    requires { (row : List Plain) → IsIn row rows.now → MayMeet sig.now row row pairs.now keep.now }
    ensures { IfOk result (λ made. AreJoined sig.now pairs.now keep.now (twins rows.now) made.items) }
{
    let mut pool = JoinPool::new(alloc);
    let mut made = Vec::new(alloc);
    for row in rows {
        made = with_join_in(
            alloc,
            sig,
            &mut pool,
            made,
            row.terms(),
            row.terms(),
            pairs,
            keep,
        )?;
    }
    Ok(made)
}

/// Returns the relation of what the rows make where their own columns agree on the pairs, each of two columns of a row.
/// The columns of the numbers in `keep` are kept, in this order.
///
/// `Wide` is returned exactly where this relation has more than 16,384 variables and constructors or a term deeper than
/// 1,000. `Memory` is returned as in `join` where there are pairs, and else as in `Rel::of`. The cost is that of
/// `Rel::of`, with one join of each row with itself where there are pairs, and one more where `join` makes one more.
pub fn select(
    alloc: Global,
    sig: &Signature,
    rows: &[RelRow],
    pairs: &[(usize, usize)],
    keep: &[usize],
) -> Result<Rel, RelFault>
    requires sorts { (sorts : List ℕ) × AllHaveSorts sig.now rows.now sorts × AreOfEqualSort sorts sorts pairs.now }
    requires keep { AllWithin rows.now keep.now }
    ensures relation { IfOk result (λ made. (sorts : List ℕ) → AllHaveSorts sig.now rows.now sorts
        → IsRelation sig.now (picked sorts keep.now) (IsSelected sig.now rows.now pairs.now keep.now) made) }
    ensures within { IfOk result (λ made. PassesLimit made → ⊥) }
    ensures some { IfErr result (MayBeWide ((sorts : List ℕ) → AllHaveSorts sig.now rows.now sorts
        → HasWide sig.now (picked sorts keep.now) (IsSelected sig.now rows.now pairs.now keep.now))) }
{
    if pairs.is_empty() {
        let columns = all_columns(alloc, rows, keep)?;
        return Rel::of(alloc, sig, columns.as_slice());
    }
    let all = with_diagonal(alloc, width(rows), pairs)?;
    let agree = all.as_slice();
    let made = self_joins(alloc, sig, rows, agree, keep)?;
    relation_of_joins(alloc, sig, made, rows, rows, Partners::Itself, agree, keep)
}
