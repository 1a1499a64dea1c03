//! The relation at a node of a fragment.
//!
//! ```text
//! let frames = note.frames(alloc, &path)?;
//! let terms = relation_at(alloc, &definition, &tables, frames.as_slice(), own, &mut steps)?;
//! ```
//!
//! The values that a node still may have are not those of its own relation: what is around it may rule some out. So the
//! value is put into one more column, which is carried along to the whole tree.
#![tactic(auto)]

pub mod relating;

pub use psg_eval::FocusFault;
pub use relating::relation_at;
