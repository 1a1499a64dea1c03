//! What may be put at a byte of a program's text.
//!
//! ```text
//! let made = completion_at(alloc, &language, kind, text, byte, &mut steps)?;
//! for entry in made.entries.as_slice() { .. }
//! ```
//!
//! The word at the byte is replaced by a placeholder, and that is what is asked. No session is kept: each answer is
//! made of the text alone, so none can be one of an older text. A wrong program is asked in its repaired program, as
//! `psg_asking` does.
#![tactic(auto)]

mod around;
mod completing;
mod fillings;
mod fitting;
pub mod laws;
mod naming;
mod offering;
mod samples;
mod wanted;

pub use completing::{Completion, completion_at};
pub use offering::Entry;
