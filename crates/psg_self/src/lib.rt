//! Definitions edited as trees of a language, the language of definitions, and exported as definition files.
//!
//! ```text
//! let text = export(alloc, &language, &tree)?;
//! let read = check_export(alloc, &language, &tree)?;
//! ```
//!
//! A tree is exported where it has no placeholder and no unfinished list. Its text is a definition file of version 1:
//! a line for each line of the tree, and one for each row of an operator.
#![tactic(auto)]

mod exporting;
mod fault;
mod form;
mod language;
pub mod laws;
mod lines;
mod nodes;
mod opening;
mod signs;
mod terms;

pub use exporting::{check_export, export};
pub use fault::ExportFault;
pub use language::is_self;
