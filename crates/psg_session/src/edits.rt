//! Changes of a tree at a path.
use psg_tree::{Path, Tree};

/// A change of a tree.
#[derive(Drop)]
pub enum Edit {
    /// Another tree in place of the node at the path.
    Put { at: Path, new: Tree },
    /// One more element before the place of the list at the path.
    Add { at: Path, place: u32, new: Tree },
    /// The list at the path without the element at the place.
    Take { at: Path, place: u32 },
}
