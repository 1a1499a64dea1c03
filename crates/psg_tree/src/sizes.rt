//! How many nodes a tree has, how deep it is and how long its lists are. A tree keeps these numbers, so no call walks
//! over it.
ghost use Rattle.std.specs.Prelude.{◌≡◌, ℕ, Bool, min};
ghost use Rattle.psg_grammar.specs.Fragments.{Fragment, operator};
ghost use Rattle.psg_grammar.specs.Sizes.{nodes_of, depth_of, longest_of};
ghost use Rattle.psg_tree.specs.Shapes as shapes;
ghost use Rattle.psg_tree.specs.TreeSizes.{AreSizesOf, IsMore};

use crate::tree::{Part, Shape, Tree};

/// The sizes of a tree, each at most `u64::MAX`.
#[derive(Clone, Copy)]
pub(crate) struct Sizes {
    /// How many nodes the tree has.
    nodes: u64,
    /// How many nodes are below each other at most.
    depth: u64,
    /// How many elements the longest list has.
    longest: u64,
}

/// The sizes of a node without children.
const LEAF: Sizes = Sizes {
    nodes: 1,
    depth: 1,
    longest: 0,
};

impl Sizes {
    /// Adds those of a child to the sizes of a node.
    fn with_child(self, child: &Sizes) -> Sizes
        ensures { IsMore self child.now result }
    {
        Sizes {
            nodes: self.nodes.saturating_add(child.nodes),
            depth: self.depth.max(child.depth.saturating_add(1)),
            longest: self.longest.max(child.longest),
        }
    }

    /// Adds those of a part to the sizes of an operator.
    fn with_part(self, part: &Part) -> Sizes
        ensures { (f : Fragment) → AreSizesOf f self → AreSizesOf (shapes.with_part f part.now) result }
    {
        match part {
            Part::Sub(tree) => self.with_child(tree.sizes()),
            Part::Name(_) => self,
            Part::Number(_) => self,
            Part::Text(_) => self,
        }
    }
}

/// Returns the sizes of an operator with these parts.
fn operator_sizes(parts: &[Part]) -> Sizes
    ensures { (o : ℕ) → AreSizesOf (shapes.with_parts (operator o) parts.now) result }
{
    let mut sizes = LEAF;
    for part in parts {
        sizes = sizes.with_part(part);
    }
    sizes
}

/// Returns the sizes of a list of these elements.
fn list_sizes(elements: &[Tree]) -> Sizes
    ensures { (l : ℕ) (u : Bool) → AreSizesOf (shapes.list_of l elements.now u) result }
{
    let mut sizes = LEAF;
    for element in elements {
        sizes = sizes.with_child(element.sizes());
    }
    Sizes {
        longest: sizes.longest.max(elements.len() as u64),
        ..sizes
    }
}

/// Adds up the sizes of a node's tree from those of its children.
pub(crate) fn sizes_of(shape: &Shape) -> Sizes
    ensures { AreSizesOf (shapes.tree_of shape.now) result }
{
    match shape {
        Shape::Op { parts, .. } => operator_sizes(parts.as_slice()),
        Shape::List { elements, .. } => list_sizes(elements.as_slice()),
        Shape::Hole { .. } => LEAF,
    }
}

/// Returns how many nodes a tree has: its operators, lists and placeholders. A tree with more than a `u64` holds has
/// `u64::MAX`. It takes one step.
pub fn nodes(tree: &Tree) -> u64
    ensures { result ≡ min (nodes_of tree.now) u64.MAX }
{
    tree.sizes().nodes
}

/// Returns how many nodes are below each other in a tree at most: 1 for a placeholder, an operator without children and
/// a list without elements. A tree that is deeper than a `u64` holds has `u64::MAX`. It takes one step.
pub fn depth(tree: &Tree) -> u64
    ensures { result ≡ min (depth_of tree.now) u64.MAX }
{
    tree.sizes().depth
}

/// Returns how many elements the longest list of a tree has: 0 where no list of it has an element. A list with more
/// elements than a `u64` holds has `u64::MAX`. It takes one step.
pub fn longest_list(tree: &Tree) -> u64
    ensures { result ≡ min (longest_of tree.now) u64.MAX }
{
    tree.sizes().longest
}
