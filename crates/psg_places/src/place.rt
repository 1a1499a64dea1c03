//! The places of a tree.
use psg_tree::Path;

/// A place of a tree, which can be kept or opened.
#[derive(Debug, Drop)]
pub enum Place {
    /// The operator of the node at the path. Opened, the node is a placeholder.
    Node(Path),
    /// The element at the path, of a list that may be unfinished. Opened, it is left out.
    Element(Path),
    /// The end of the list at the path, if it may be unfinished and is not. Opened, it is unfinished.
    End(Path),
    /// A name of the node at the path, by its number among the node's names, from 0. Opened, it is a new name.
    Name(Path, usize),
}
