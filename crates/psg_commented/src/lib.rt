//! The text of a program with its comments, printed again.
//!
//! ```text
//! let blanked = blank_comments(alloc, &lexis, "//", text)?;
//! let tokens = program.tokens.as_slice();
//! let new = with_comments(alloc, &lexis, "//", text, tokens, blanked.comments.as_slice(), printed.text.as_str())?;
//! ```
//!
//! A comment keeps its place among the tokens: as many of them as before are before it, not counting round brackets,
//! which are printed where they are needed. A comment after a token on its line stays there, after one space; any other
//! one gets a line of its own, and the next token begins a new line.
#![tactic(auto)]

mod keeping;
pub mod noting;
pub mod printing;
mod same;

pub use keeping::with_comments;
pub use noting::{Note, notes_of};
pub use printing::with_notes;
