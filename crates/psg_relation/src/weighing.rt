//! The weight and the depth of rows, without writing them out, and whether they have variables.
ghost use Rattle.std.specs.Prelude.{◌≡◌, ◌↔◌, ◌-◌, ◌^◌, min, sum_by, IsTrue};
ghost use Rattle.psg_terms.specs.Weight.{symbols_of, weight_of};
ghost use Rattle.psg_relation.specs.Heavy.{deepest_of, highest_in, IsHeavy, IsMeasured};
ghost use Rattle.psg_relation.specs.Sifted.{AreGround};

use crate::row::RelRow;
use psg_terms::Term;

/// How many variables and constructors a relation has at most.
pub const MOST_SYMBOLS: u64 = 16_384;

/// How deep a term of a relation is at most.
pub const MOST_DEPTH: u64 = 1_000;

/// Returns how many variables and constructors the row has, or `u64::MAX` if there are more.
pub fn row_weight(row: &[Term]) -> u64
    ensures { result ≡ min (sum_by symbols_of row.now) (2 ^ 64 - 1) }
{
    let mut weight = 0u64;
    for term in row {
        weight = weight.saturating_add(term.symbols());
    }
    weight
}

/// Returns one more than the greatest number of a variable of the row's terms, and 0 where they have none.
pub fn row_above(row: &[Term]) -> u64
    ensures { result ≡ highest_in row.now }
{
    let mut above = 0u64;
    for term in row {
        above = above.max(term.above());
    }
    above
}

/// The measures of a row: how many variables and constructors it has and how deep it is, both at most `u64::MAX`, and
/// one above the greatest number of its variables.
#[derive(Clone, Copy)]
pub struct Measures {
    /// How many variables and constructors it has.
    pub symbols: u64,
    /// How deep its deepest term is.
    pub depth: u64,
    /// One above the greatest number of its variables, and 0 if it has none.
    pub above: u64,
}

/// Returns the measures of the row. It reads each term once, in one step.
pub fn measured(row: &[Term]) -> Measures
    ensures { IsMeasured row.now result.symbols result.depth result.above }
{
    let mut weight = 0u64;
    let mut depth = 0u64;
    let mut above = 0u64;
    for term in row {
        weight = weight.saturating_add(term.symbols());
        depth = depth.max(term.depth());
        above = above.max(term.above());
    }
    Measures {
        symbols: weight,
        depth,
        above,
    }
}

/// Returns how many variables and constructors the rows have, or `u64::MAX` if there are more.
pub fn weight_of(rows: &[RelRow]) -> u64
    ensures { result ≡ min (weight_of rows.now) (2 ^ 64 - 1) }
{
    let mut weight = 0u64;
    for row in rows {
        weight = weight.saturating_add(row.symbols());
    }
    weight
}

/// Returns how deep the deepest term of the rows is, or `u64::MAX` if it is deeper, and 0 where there is none.
pub fn deepest_of(rows: &[RelRow]) -> u64
    ensures { result ≡ min (deepest_of rows.now) (2 ^ 64 - 1) }
{
    let mut depth = 0u64;
    for row in rows {
        depth = depth.max(row.depth());
    }
    depth
}

/// Says whether the row alone is too large for a relation. It takes one step.
pub fn is_heavy(row: &RelRow) -> bool
    ensures { IsTrue result ↔ IsHeavy row.now }
{
    row.symbols() > MOST_SYMBOLS || row.depth() > MOST_DEPTH
}

/// Says whether the row has no variable. It takes one step.
pub fn is_closed(row: &RelRow) -> bool
    ensures { IsTrue result ↔ AreGround row.now }
{
    row.above() == 0
}
