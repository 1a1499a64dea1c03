//! Where a tree is wrong: the places of a tree that can't be kept together with those before them.
//!
//! ```text
//! let found = blame(alloc, &definition, &tables, &tree, &mut steps)?;
//! if let Some(blamed) = found {
//!     let program = &blamed.repaired; // it has a legal completion
//!     let wrong = blamed_places(alloc, &definition, &tables, blamed.kept.as_slice(), &tree)?; // where, by path
//! }
//! ```
//!
//! A place is the operator of a node, an element of a list that may be unfinished, the end of such a list, or a name.
//! Opened, an operator is a placeholder, an element is left out, an end is unfinished, and a name is a new one. The
//! places are taken in the order of the text. A place is kept exactly if the tree has a legal completion with it and
//! the kept places before it, all later places opened. The others are blamed. `kept_part` makes the tree for any choice
//! of kept places; `path_there` leads from a node of the whole tree to where it is in such a tree, and `path_back`
//! back.
#![tactic(auto)]

mod blaming;
mod containing;
mod counting;
mod declaring;
mod fault;
mod fronts;
mod halving;
pub mod laws;
mod listing;
mod numbers;
mod opening;
mod passing;
mod place;
mod sharing;
mod trial;
mod ways;
mod words;

pub use blaming::{Blamed, MOST_BLAMED, blame, blame_noted};
pub use fault::BlameFault;
pub use fronts::new_name;
pub use listing::{all_places, blamed_places, opened_places};
pub use place::Place;
pub use trial::kept_part;
pub use ways::{path_back, path_there};
