//! What is found in a program file: what can't be read, what is wrong, what is not declared, and what is open.
//!
//! ```text
//! let report = lint(alloc, &language, kind, bytes, &mut steps)?;
//! let lines = report_text(alloc, "program.txt", bytes, &report)?;
//! ```
//!
//! A text that is no program is read on after the place where it stops to be one: a placeholder takes the place of what
//! can't be read. Of the program that is left the blamed places are reported, as `psg_places` finds them, each with
//! what is wanted there. Names that nothing declares are reported too, and where nothing is wrong, what is still open.
#![tactic(auto)]

mod blaming;
mod ends;
mod hints;
mod judging;
pub mod laws;
mod lines;
mod messages;
mod open_places;
mod reporting;
mod suspects;
mod trials;
mod warnings;

pub use lines::report_text;
pub use psg_recover::finding::{Finding, Grade};
pub use reporting::{Report, lint};
