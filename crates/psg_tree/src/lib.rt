//! Fragments: shared trees with placeholders, and the paths to their nodes.
//!
//! A `Tree` is made by `Tree::new` of a `Shape`, and `at` finds the node at a `Path`. `replace` gives the tree with
//! another node there, and `insert`, `remove` and `set_unfinished` the tree with another list. What they give shares
//! all nodes off the path with the old tree. `abstract_text` writes a tree down, and `well_formed` says whether it is
//! one of a kind.
//!
//! A tree is never changed, so a call that fails leaves each tree as it was. Contracts see a `Tree` as a plain fragment
//! of `psg_grammar` and a `Path` as the list of its steps. A walk over a tree calls itself once for each level.
#![tactic(auto)]

pub mod edits;
pub mod forms;
pub mod path;
pub mod places;
mod reach;
pub mod sizes;
pub mod text;
pub mod tree;
mod words;

pub use edits::{insert, remove, set_unfinished};
pub use forms::well_formed;
pub use path::Path;
pub use places::{TreeFault, at, child_at, replace};
pub use sizes::{depth, longest_list, nodes};
pub use text::{abstract_text, phylum_name, write_quoted};
pub use tree::{Part, Shape, Tree};
