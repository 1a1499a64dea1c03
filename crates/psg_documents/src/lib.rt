//! Positions of the Language Server Protocol in a text, and the bytes where they are.
//!
//! A position is a line and a column, both from 0. A column counts units of one of three encodings. A line ends at a
//! line feed, and a carriage return before it belongs to the end of the line. A carriage return without a line feed
//! after it ends no line here, though the protocol counts it as an end.
//!
//! ```text
//! let lines = Lines::of(alloc, text)?;
//! let byte = lines.byte_of(text, Encoding::Utf16, position);
//! let back = lines.position_of(text, Encoding::Utf16, byte);
//! ```
//!
//! - A byte that is found is always the beginning of a character or the end of the text, and never within the end of a
//!   line.
//! - At such a byte each of the two calls takes back the other one, in each encoding.
//! - A later position has no earlier byte.
#![tactic(auto)]

mod counting;
mod encoding;
mod laws;
mod lines;

pub use encoding::Encoding;
pub use laws::{columns_are_characters, positions_are_bytes};
pub use lines::{Lines, Position};
