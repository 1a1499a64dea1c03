//! Where each node of a tree is among the tokens that it was read from.
//!
//! ```text
//! let ranges = ranges_of(alloc, &definition, kind, &tree, tokens.as_slice())?;
//! ```
//!
//! `parse_ranged` reads the tree too. A range has the number of a node's first token, that after its last one, and the
//! numbers of its own names. The definition goes by the derivation of the tree from the tokens: brackets around a node
//! are none of its tokens, and an operator that begins with a slot begins with the brackets around its first child.
//!
//! `Ranges::at` finds the range of the node at a path. The call of `laws` does nothing: its contract is the law that a
//! path leads to the range of its node.
//!
//! The walk goes over the tree and takes from it what the tokens are. It looks at a token only where a bracket may be.
#![tactic(auto)]

mod brackets;
mod finding;
pub mod laws;
mod parsing;
mod ranges;
mod reading;

pub use finding::byte_of_end;
pub use parsing::{Parsed, parse_ranged};
pub use ranges::{Range, Ranges, ranges_of};
