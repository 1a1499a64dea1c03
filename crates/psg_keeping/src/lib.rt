//! Files in which the comments of a program are kept while an editor that knows none works on it.
//!
//! ```text
//! let rule = Rule::new(lexis, token);
//! let mut files = Keeping::new(files, Some(rule));
//! let bytes = files.open(alloc, "sums.txt", 16_000_000)?;
//! files.replace(alloc, "sums.txt", b"1 + 2\n")?;
//! ```
//!
//! `open` reads a program text and gives it with a space for each byte of a comment. A replacement of that file writes
//! the new text with the comments of the old one. The tokens of both texts are paired by a longest common subsequence,
//! round brackets not counted. A comment stays between the partner of the last paired token before it and that of the
//! first one after it. There one after a token on its line goes with that token, and one on a line of its own with the
//! next token, where these are paired; and to an end of a line, if there is one.
#![tactic(auto)]

mod commenting;
pub mod files;
mod lines;
pub mod moving;
pub mod pairing;
mod rows;
pub mod rule;
mod same;
mod tokens;
mod writing;

pub use files::{Keeping, Known};
pub use moving::moved;
pub use pairing::{Step, alignment};
pub use rule::Rule;
