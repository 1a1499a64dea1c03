//! Rows of terms.
ghost use Rattle.std.specs.Prelude.{◌≡◌, ◌↔◌, IfOk, IsTrue};

use crate::weighing::measured;
use psg_terms::matching::same_all;
use psg_terms::{Seq, Term};
use std::alloc::{AllocError, Global};
use std::marker::Model;

/// A row of terms, of any width, with how many variables and constructors it has and how deep it is, both at most
/// `u64::MAX`, and with one above the greatest number of its variables.
#[derive(Drop)]
pub struct RelRow {
    kept: Seq<Term>,
    symbols: u64,
    depth: u64,
    above: u64,
}

impl Model for RelRow {
    ghost use Rattle.std.specs.Prelude.{List};
    ghost use Rattle.std.specs.Coded.{coded_list};
    ghost use Rattle.psg_terms.specs.Terms.{Term as Plain};
    ghost use Rattle.psg_terms.specs.TermCode.{coded_term};
    ghost use Rattle.psg_relation.specs.Heavy.{IsMeasured};

    ghost Value = { List Plain };

    ghost coded = { coded_list coded_term };

    ghost view = { λ r. r.kept };

    ghost invariant = { λ r. IsMeasured r.kept r.symbols r.depth r.above };
}

impl RelRow {
    ghost use Rattle.std.specs.Prelude.{◌-◌, ◌^◌, min, sum_by};
    ghost use Rattle.psg_terms.specs.Weight.{symbols_of};
    ghost use Rattle.psg_relation.specs.Heavy.{deepest_in, highest_in};

    /// Makes the row of these terms. It reads each of them once, in one step.
    pub fn new(terms: Vec<Term>) -> RelRow
        ensures { result ≡ terms.items }
    {
        let measures = measured(terms.as_slice());
        RelRow {
            kept: Seq::of(terms),
            symbols: measures.symbols,
            depth: measures.depth,
            above: measures.above,
        }
    }

    /// Returns the terms, in order.
    pub fn terms(&self) -> &[Term]
        ensures { result.now ≡ self.now }
    {
        self.kept.as_slice()
    }

    /// Returns how many variables and constructors the terms have, or `u64::MAX` if there are more. It takes one step.
    pub fn symbols(&self) -> u64
        ensures { result ≡ min (sum_by symbols_of self.now) (2 ^ 64 - 1) }
    {
        self.symbols
    }

    /// Returns how deep the deepest term is, or `u64::MAX` if it is deeper, and 0 where there is none. It takes one
    /// step.
    pub fn depth(&self) -> u64
        ensures { result ≡ min (deepest_in self.now) (2 ^ 64 - 1) }
    {
        self.depth
    }

    /// Returns one more than the greatest number of a variable of the terms, and 0 where they have none. It takes one
    /// step.
    pub fn above(&self) -> u64
        ensures { result ≡ highest_in self.now }
    {
        self.above
    }

    /// Says whether the rows are equal. It compares the terms, of which a part that is shared is read as often as it
    /// occurs.
    pub(crate) fn same(&self, other: &RelRow) -> bool
        ensures { IsTrue result ↔ (self.now ≡ other.now) }
    {
        same_all(self.terms(), other.terms())
    }

    /// Returns one more owner of the row's terms.
    pub fn share(&self, alloc: Global) -> Result<RelRow, AllocError>
        ensures { IfOk result (λ r. r ≡ self.now) }
    {
        let terms = shared(alloc, self.terms())?;
        Ok(RelRow::new(terms))
    }
}

/// Returns one more owner of each of the terms.
fn shared(alloc: Global, terms: &[Term]) -> Result<Vec<Term>, AllocError>
    ensures { IfOk result (λ v. v.items ≡ terms.now) }
{
    let mut copies = Vec::with_capacity(alloc, terms.len())?;
    for term in terms {
        copies.push(term.share()?)?;
    }
    Ok(copies)
}

/// Returns the rows once more, with one more owner of each of their terms.
pub(crate) fn shared_rows(alloc: Global, rows: &[RelRow]) -> Result<Vec<RelRow>, AllocError>
    ensures { IfOk result (λ v. v.items ≡ rows.now) }
{
    let mut copies = Vec::with_capacity(alloc, rows.len())?;
    for row in rows {
        copies.push(row.share(alloc)?)?;
    }
    Ok(copies)
}

/// Says whether the lists have equal rows at the same places.
pub(crate) fn same_rows(left: &[RelRow], right: &[RelRow]) -> bool
    ensures { IsTrue result ↔ (left.now ≡ right.now) }
{
    if left.len() != right.len() {
        return false;
    }
    for i in 0..left.len() {
        if !left[i].same(&right[i]) {
            return false;
        }
    }
    true
}
