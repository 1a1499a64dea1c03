//! Whether hole rows have the values of the rows of operators and lists.
//!
//! ```text
//! let mut room = search_room();
//! let row = first_uncovered_row(alloc, &definition, &mut room)?; // an operator and its row, by number
//! let cell = first_uncovered_cell(alloc, &definition, &mut room)?; // a list and its cell row
//! ```
//!
//! A row is covered if for each choice of hole rows for its slots the values of its head are values of one hole row.
//! The search chooses hole rows slot by slot. What is left to choose for is kept in a front of rows, of which those are
//! dropped whose head is an instance of a hole row.
//!
//! What always holds:
//! - The row in question is covered exactly where all rows of the front are.
//! - No head in the front is an instance of a hole row, so a row that is left after the last slot is not covered.
#![tactic(auto)]

mod choosing;
mod covers;
mod front;
mod index;
mod numbers;
mod room;
mod searching;
mod slots;
mod uncovered;

pub use room::search_room;
pub use uncovered::{first_uncovered_cell, first_uncovered_row};
