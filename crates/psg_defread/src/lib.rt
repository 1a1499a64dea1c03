//! Language definitions and their texts.
//!
//! ```text
//! let definition = read_definition(alloc, b"psg 1\nsort Type = int bool\nphylum Exp : Type\n")?;
//! let text = definition_text(alloc, &definition)?;
//! ```
//!
//! A file is read from left to right: its texts as lines, the parts of each line, its form, and then what the names of
//! all lines mean. `Spells` says what a file means without these steps, in the direction of a writer; `Refusal` says
//! which fault of a file is its first one, and each test is a property of one line among the lines of its file.
//!
//! A definition is written as a file in one fixed layout, which reads back as the same definition.
#![tactic(auto)]

mod holes;
mod kinds;
pub mod laws;
mod lines;
mod list_rows;
mod names;
mod operators;
pub mod reading;
mod sorts;
mod specimens;
mod terms;
pub mod writing;

pub use psg_deflines::{DefCode, DefFault, ReadFault, fault_text};
pub use reading::read_definition;
pub use writing::definition_text;
