//! The rows of a list by the heads of one of their columns.
ghost use Rattle.std.specs.Prelude.{◌≡◌, ◌==◌, ◌<◌, ◌∷◌, ◌++◌, [], cond, length, false, IfOk, IfNone, IfSome};
ghost use Rattle.std.specs.Prelude.{OnOk, ℕ};
ghost use Rattle.psg_terms.specs.Terms.{Term as Plain};
ghost use Rattle.psg_relation.specs.Heads.{head_of, HeadAt, places_at, IsNoted, IsIndexed};

use crate::row::RelRow;
use psg_terms::{Node, Term};
use std::alloc::{AllocError, Global};
use std::collections::HashMap;

/// The places of rows: of those whose column has a constructor at its head, by the number of this constructor, and of
/// all others. Where two rows have different constructors at the heads of two columns, no instances of them agree
/// there.
#[derive(Drop)]
pub struct Heads {
    /// The places of the rows that have no constructor at the head of the column, ascending.
    pub free: Vec<usize>,
    /// The places of the rows with a constructor at the head of the column, ascending, by the constructor's number.
    pub places: HashMap<u32, Vec<usize>>,
}

impl Heads {
    /// Makes an index of no rows.
    pub fn new(alloc: Global) -> Heads
        ensures free { result.free.items ≡ [] }
        ensures places { (c : ℕ) → places_at result.places c ≡ [] }
    {
        Heads {
            free: Vec::new(alloc),
            places: HashMap::new(alloc),
        }
    }

    /// Returns the places of the rows with this head. It takes one step.
    pub fn places_of(&self, head: u32) -> &[usize]
        ensures { result.now ≡ places_at self.now.places head }
    {
        match self.places.get(&head) {
            Some(places) => places.as_slice(),
            None => &[],
        }
    }
}

/// Returns the constructor at the head of a term, or `None` for a variable.
fn head_of(term: &Term) -> Option<u32>
    ensures { result ≡ head_of term.now }
{
    match term.node() {
        Node::Var { .. } => None,
        Node::Con { con, .. } => Some(con.0),
    }
}

/// Returns the constructor at the head of a column, or `None` where it has a variable or the row has no such column.
pub fn head_at(row: &[Term], column: usize) -> Option<u32>
    ensures some { IfSome result (HeadAt row.now column) }
    ensures none { IfNone result ((c : ℕ) → HeadAt row.now column c → ⊥) }
{
    if column < row.len() {
        return head_of(&row[column]);
    }
    None
}

/// Takes the places of a head out of the table.
fn taken(alloc: Global, places: &mut HashMap<u32, Vec<usize>>, head: u32) -> Vec<usize>
    ensures taken { result.items ≡ places_at places.old head }
    ensures others { (c : ℕ) → (head == c) ≡ false → places_at places.new c ≡ places_at places.old c }
{
    match places.remove(&head) {
        Some(own) => own,
        None => Vec::new(alloc),
    }
}

/// Puts a place after those of a head.
fn add(
    alloc: Global,
    places: &mut HashMap<u32, Vec<usize>>,
    head: u32,
    place: usize,
) -> Result<(), AllocError>
    ensures { OnOk result ((c : ℕ) → places_at places.new c
        ≡ cond (head == c) (places_at places.old c ++ place ∷ []) (places_at places.old c)) }
{
    let mut own = taken(alloc, places, head);
    own.push(place)?;
    places.insert(head, own)?;
    Ok(())
}

/// Puts the place of a row after the others of its head.
pub fn note_row(
    alloc: Global,
    heads: &mut Heads,
    row: &[Term],
    column: usize,
    place: usize,
) -> Result<(), AllocError>
    ensures { OnOk result (IsNoted row.now column place heads.old.free.items (places_at heads.old.places)
        heads.new.free.items (places_at heads.new.places)) }
{
    match head_at(row, column) {
        Some(head) => {
            add(alloc, &mut heads.places, head, place)?;
            Ok(())
        }
        None => {
            heads.free.push(place)?;
            Ok(())
        }
    }
}

/// Returns the places of the rows by the heads of a column. It reads one term of each row.
pub fn heads_of(alloc: Global, rows: &[RelRow], column: usize) -> Result<Heads, AllocError>
    ensures { IfOk result (λ h. IsIndexed rows.now column (length rows.now) h.free.items (places_at h.places)) }
{
    let mut heads = Heads::new(alloc);
    for i in 0..rows.len() {
        note_row(alloc, &mut heads, rows[i].terms(), column, i)?;
    }
    Ok(heads)
}

/// Counts the pairs of rows that are compared where rows are found by the heads of this column.
fn meetings(alloc: Global, rows: &[RelRow], column: usize) -> Result<usize, AllocError> {
    let mut counts: HashMap<u32, usize> = HashMap::new(alloc);
    let mut all = 0usize;
    for row in rows {
        match head_at(row.terms(), column) {
            Some(head) => {
                let count = match counts.get(&head) {
                    Some(found) => *found,
                    None => 0,
                };
                all = all.saturating_add(count);
                counts.insert(head, count.saturating_add(1))?;
            }
            None => all = all.saturating_add(rows.len()),
        }
    }
    Ok(all)
}

/// Returns the column by whose heads the fewest pairs of rows are compared, and the first one of less than sixteen
/// rows. It reads the head of each term.
pub fn best_column(alloc: Global, rows: &[RelRow]) -> Result<usize, AllocError> {
    let width = match rows.first() {
        Some(row) => row.terms().len(),
        None => 0,
    };
    if width < 2 || rows.len() < 16 {
        return Ok(0);
    }
    let mut best = 0;
    let mut least = usize::MAX;
    for column in 0..width {
        let count = meetings(alloc, rows, column)?;
        if count < least {
            best = column;
            least = count;
        }
    }
    Ok(best)
}
