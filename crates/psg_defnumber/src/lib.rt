//! Definitions from their lines: names become the positions of what they name.
//!
//! ```text
//! let checked = CheckedLines::of(alloc, file.entries.as_slice())?;
//! let definition = numbered(alloc, file.version, &checked)?;
//! ```
//!
//! `IsNumbered` says what the lines mean together, in the direction of a writer: each part of the definition has a line
//! that writes it. Sorts, constructors, phyla, lists and operators are numbered in the order of their lines, variables
//! in the order in which they first occur in their own line.
//!
//! `laws` states that lines are one definition at most, and that what a file spells is sound. Laws are contracts of
//! calls that do nothing.
#![tactic(auto)]

mod holes;
mod kinds;
pub mod laws;
mod list_rows;
mod lookups;
pub mod numbering;
mod operators;
mod rows;
mod signatures;
mod specimens;
mod terms;
mod variables;

pub use numbering::numbered;
