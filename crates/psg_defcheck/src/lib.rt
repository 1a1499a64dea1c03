//! What the lines of a definition mean, tested line by line.
//!
//! ```text
//! // where the second line of a sort is the first fault, this is that fault
//! let checked = CheckedLines::of(alloc, entries.as_slice())?;
//! ```
//!
//! Each test is a property of one line among the lines of its file, those above it and all of them, since names may be
//! used before they are declared. The names are kept in tables, so a file is tested in time linear in its bytes except
//! for the look-ups.
#![tactic(auto)]

pub mod above;
pub mod checked_lines;
mod checking;
mod counted;
mod ground;
mod known;
pub mod names;
mod new_names;
mod places;
mod rest;
mod scope;
mod sorted;
mod sorted_lines;
mod sorted_trees;
mod tables;
mod waiting;

pub use checked_lines::CheckedLines;
