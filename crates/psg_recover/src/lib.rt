//! Where a text stops to be a program of a kind, and the program that is left of it.
//!
//! ```text
//! let stops = all_stops(alloc, reader, text, tokens)?;
//! let tree = left_out(alloc, known, &parsed.tree)?;
//! ```
//!
//! A text that is no program is read on after the place where it stops to be one: a placeholder takes the place of what
//! can't be read. At most twenty such places are reported. An element of a list that declares names may be lost; then
//! the list is unfinished, so that the lost names give no further errors. Each node and name of what is left has its
//! bytes in the text.
#![tactic(auto)]

pub mod candidates;
pub mod finding;
pub mod grammar;
pub mod laws;
pub mod lost;
pub mod reading;
pub mod recovery;
pub mod spots;
