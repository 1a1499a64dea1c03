//! An index of rows by their constructors. It only says which rows to try first, so no clause speaks of it: with any
//! index a row is found where there is one.
use psg_terms::{Node, Seq, Term};
use std::alloc::{AllocError, Global};

/// The places of rows, each with the number of its row, in the order of the numbers.
#[derive(Drop)]
pub(crate) struct Index {
    places: Vec<(u64, usize)>,
}

/// Mixes the number with another one.
fn mixed(number: u64, other: u64) -> u64 {
    let product = (number ^ other).wrapping_mul(0x9E37_79B9_7F4A_7C15);
    product ^ (product >> 32)
}

/// Returns the number of the constructor at the top of the term. All variables have one.
fn number_at_top(term: &Term) -> u64 {
    match term.node() {
        Node::Var { .. } => 0,
        Node::Con { con, .. } => u64::from(con.0) + 1,
    }
}

/// Returns the number with those of the arguments of the term.
fn with_arguments(number: u64, term: &Term) -> u64 {
    match term.node() {
        Node::Var { .. } => number,
        Node::Con { args, .. } => {
            let mut all = number;
            for part in args.as_slice() {
                all = mixed(all, number_at_top(part));
            }
            all
        }
    }
}

/// Returns a number for the row, made of the constructors at the tops of its terms and of their arguments. Rows that
/// differ in variables alone have one number.
pub(crate) fn number_of(row: &[Term]) -> u64 {
    let mut number = 1;
    for term in row {
        number = with_arguments(mixed(number, number_at_top(term)), term);
    }
    number
}

impl Index {
    /// Makes the index of the rows.
    pub(crate) fn of(alloc: Global, rows: &[Seq<Term>]) -> Result<Index, AllocError> {
        let mut places = Vec::with_capacity(alloc, rows.len())?;
        for place in 0..rows.len() {
            let number = number_of(rows[place].as_slice());
            places.push((number, place))?;
        }
        places.sort()?;
        Ok(Index { places })
    }

    /// Returns the places from the first one of the number on, with their numbers.
    pub(crate) fn from(&self, number: u64) -> &[(u64, usize)] {
        let places = self.places.as_slice();
        let first = match places.binary_search(&(number, 0)) {
            Ok(found) => found,
            Err(before) => before,
        };
        &places[first..]
    }
}
