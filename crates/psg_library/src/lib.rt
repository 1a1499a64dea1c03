//! Kept fragments: a tree with its name and its kind, as the bytes of a file.
//!
//! ```text
//! let bytes = fragment_bytes(alloc, &definition, "f", kind, &tree)?;
//! let saved = read_fragment(alloc, &definition, &lexis, &table, bytes.as_slice(), &mut steps)?;
//! ```
//!
//! The bytes are a head line, as `fragment 2 f Exp`, and then the printed text of the tree. Only the head line has a
//! form of its own: the text after it is read as any other text of the language, however it is spaced. What is written
//! of a printable tree reads back as the tree.
#![tactic(auto)]

pub mod fragment;
mod head;
pub mod laws;
pub mod reading;
pub mod writing;

pub use fragment::{KeptFault, SavedFragment};
pub use reading::read_fragment;
pub use writing::fragment_bytes;
