//! Trees with what is known of them.
//!
//! ```text
//! let note = build(alloc, &definition, &tables, &tree, &mut steps)?;
//! let good = note.is_good();
//! let changed = replaced(alloc, &definition, &tables, &note, &path, &new, &mut steps)?;
//! let inner = changed.summary(&path);
//! ```
//!
//! A note has a tree, a summary for each node and list suffix, each made of those of the children, and how much the
//! relations of all of them weigh together. A change evaluates the new nodes and those above them; all else is shared.
#![tactic(auto)]

mod blaming;
pub mod building;
pub mod editing;
mod framing;
pub mod laws;
mod listing;
pub mod note;
mod pairing;
mod parts;
mod remaking;
mod renoting;
mod topping;
mod walking;

pub use building::build;
pub use editing::{inserted, removed, replaced};
pub use note::{Note, NoteFault};
