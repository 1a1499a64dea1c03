//! Keys of a terminal from bytes that are read in pieces, and a line of text that is typed.
//!
//! ```text
//! let mut reader = KeyReader::new(alloc);
//! let mut lines = Lines::new(alloc);
//! for stroke in reader.read(alloc, b"half\x1b[D")? {
//!     lines.press(alloc, stroke.key())?;
//! }
//! ```
//!
//! - The bytes of the keys, one after the other, and those that wait are the bytes of the pieces. What is no key is
//!   `Unknown`, with its bytes.
//! - Where no piece ends in an escape, the keys do not depend on how the bytes are cut.
//! - An escape that ends a piece is the key Escape at once, so no clock is needed.
//! - Out of memory loses nothing: the reader and the line are then as before.
#![tactic(auto)]

mod key;
mod laws;
mod line;
mod lines;
mod naming;
mod reader;
mod sizes;

pub use key::{Key, Stroke};
pub use laws::same_keys;
pub use line::Line;
pub use lines::Lines;
pub use reader::KeyReader;
