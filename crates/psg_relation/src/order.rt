//! The order of rows by their texts.
ghost use Rattle.std.specs.Prelude.{◌≡◌, IfOk, List, ℕ};
ghost use Rattle.std.specs.List.Sorted.{IsPermutation};
ghost use Rattle.psg_relation.specs.Choices.{AllHaveSorts};
ghost use Rattle.psg_relation.specs.Ordered.{IsOrdered, is_not_above};
ghost use Rattle.psg_relation.specs.Texts.{rows_in, AreTexts};

use crate::row::RelRow;
use psg_terms::{Signature, row_text};
use std::alloc::{AllocError, Global};

/// A row with its text.
#[derive(Drop)]
pub struct Printed {
    /// The text of the row.
    pub text: String,
    /// The row.
    pub row: RelRow,
}

/// Returns the rows with their texts, each of which is written once.
fn with_texts(alloc: Global, sig: &Signature, rows: Vec<RelRow>) -> Result<Vec<Printed>, AllocError>
    requires { (sorts : List ℕ) × AllHaveSorts sig.now rows.items sorts }
    ensures rows { IfOk result (λ p. rows_in p.items ≡ rows.items) }
    ensures texts { IfOk result (λ p. AreTexts sig.now p.items) }
{
    let mut printed = Vec::with_capacity(alloc, rows.len())?;
    for row in rows {
        let text = row_text(alloc, sig, row.terms())?;
        printed.push(Printed { text, row })?;
    }
    Ok(printed)
}

/// Returns the rows without their texts.
fn without_texts(alloc: Global, printed: Vec<Printed>) -> Result<Vec<RelRow>, AllocError>
    ensures { IfOk result (λ rows. rows.items ≡ rows_in printed.items) }
{
    let mut rows = Vec::with_capacity(alloc, printed.len())?;
    for one in printed {
        rows.push(one.row)?;
    }
    Ok(rows)
}

/// Returns the rows in byte order of their texts, each of which is written once. The rows are moved.
pub fn in_order(
    alloc: Global,
    sig: &Signature,
    rows: Vec<RelRow>,
) -> Result<Vec<RelRow>, AllocError>
    requires { (sorts : List ℕ) × AllHaveSorts sig.now rows.items sorts }
    ensures same { IfOk result (λ sorted. IsPermutation rows.items sorted.items) }
    ensures order { IfOk result (λ sorted. IsOrdered (is_not_above sig.now) sorted.items) }
{
    let mut printed = with_texts(alloc, sig, rows)?;
    printed.sort_by(|a, b| a.text.as_str().cmp(b.text.as_str()))?;
    let sorted = without_texts(alloc, printed)?;
    Ok(sorted)
}
