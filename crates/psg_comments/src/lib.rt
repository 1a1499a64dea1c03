//! The comments of program texts.
//!
//! ```text
//! let fits = is_fit(&fixed_words, "//");
//! let comments = comments_of(alloc, &lexis, "//", "a := 1 // one\n")?;
//! let text = spaced(alloc, "a := 1 // one\n", comments.as_slice())?;
//! ```
//!
//! A language may have a token that begins comments. A comment begins with this token where a token of the language
//! would begin, and goes on to the end of its line. So no comment begins inside a quoted text or within a run of
//! symbols.
#![tactic(auto)]

pub mod blanking;
pub mod finding;
pub mod fitting;
mod splits;

pub use blanking::{Blanked, blank_comments, spaced};
pub use finding::{Comment, comments_of};
pub use fitting::is_fit;
