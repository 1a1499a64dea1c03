//! The lines of language definitions.
//!
//! ```text
//! let file = read_lines(alloc, b"psg 1\nsort Type = int bool\nphylum Exp : Type\n")?;
//! let text = line_text(alloc, &line)?;
//! ```
//!
//! A line is read by its parts: words, marks, names after `?` or `$`, and quoted texts, with any number of spaces
//! between them. `SpellsLine` says what a line means in the direction of a writer: it has the parts of the line, in
//! order. So there is one description of each form, and the reader and the writer are both proved against it.
//!
//! What the names of a line mean is not looked at here.
#![tactic(auto)]

mod constructors;
mod entries;
pub mod fault;
mod forms;
mod items;
pub mod laws;
pub mod lines;
mod names;
mod part_writing;
mod parts;
mod places;
mod quotes;
pub mod reading;
mod spaces;
mod tails;
mod term_forms;
mod term_reading;
pub mod terms;
mod tree_pieces;
mod tree_reading;
pub mod trees;
mod words;
pub mod writing;

pub use fault::{DefCode, DefFault, ReadFault, fault_text};
pub use lines::{Line, LineItem};
pub use reading::{FileLines, read_lines};
pub use terms::{LineTerm, TermShape};
pub use trees::{LinePart, LinePlace, LineTree, TreeShape};
pub use writing::line_text;
