//! What is wanted at a place of a program, in words: the values that it may have, and the operators that may be put
//! there.
//!
//! ```text
//! let values = values_in(alloc, definition, tables, note, path, steps)?;
//! let operators = menu(alloc, definition, tables, frames, phylum, used, steps)?;
//! ```
#![tactic(auto)]

pub mod beside;
pub mod menus;
pub mod places;
pub mod texts;
pub mod values;
