//! Where a person is in a program that is shown on a screen, and where the arrows and Tab lead.
//!
//! ```text
//! let next = next_open(alloc, &tree, &chosen)?;
//! ```
//!
//! A *chosen path* leads to a node, or to the `...` of an unfinished list: that is the path of the list with the number
//! of its elements as the last step. So the order of paths is the order of the text, and a new element that is put at
//! the `...` has its path.
#![tactic(auto)]

pub mod laws;
mod listing;
mod moves;

pub use listing::{next_open, open_below, opens, previous_open};
pub use moves::{as_far, is_dots, leads, parent_of, to_child, to_next, to_previous};
