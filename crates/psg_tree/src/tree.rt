//! Trees with placeholders, shared.
ghost use Rattle.std.specs.Prelude.{◌≡◌, IfOk};

use crate::sizes::{Sizes, sizes_of};
use psg_terms::{Seq, Txt};
use std::alloc::{AllocError, Global};
use std::marker::Model;
use std::rc::Rc;

/// A part of an operator.
#[cycle(tree)]
#[derive(Drop)]
pub enum Part {
    /// A tree in a slot.
    Sub(Tree),
    /// A name in a name position.
    Name(Txt),
    /// A number.
    Number(u128),
    /// A text, without its quotes.
    Text(Txt),
}

/// A node of a tree.
#[cycle(tree)]
#[derive(Drop)]
pub enum Shape {
    /// An operator by its number, with a part for each slot, name and literal, in the order of its items.
    Op {
        op: u32,
        parts: Seq<Part>,
    },
    /// A list by its number, with its elements in order, and whether it is unfinished.
    List {
        list: u32,
        elements: Seq<Tree>,
        unfinished: bool,
    },
    /// A placeholder of a phylum, by the phylum's number.
    Hole {
        phylum: u32,
    },
}

/// A node with the sizes of its tree, so that no test of size walks over a tree.
#[cycle(tree)]
#[derive(Drop)]
struct Measured {
    shape: Shape,
    sizes: Sizes,
}

/// A tree, which may have several owners.
#[cycle(tree)]
#[derive(Drop)]
pub struct Tree {
    shared: Rc<Measured>,
}

impl Model for Tree {
    ghost use Rattle.psg_grammar.specs.Fragments.{Fragment};
    ghost use Rattle.psg_grammar.specs.FragmentCode.{coded_fragment};

    ghost Value = { Fragment };

    ghost coded = { coded_fragment };

    ghost use Rattle.psg_tree.specs.Shapes.{height};
    ghost use Rattle.psg_tree.specs.TreeSizes.{measured_tree, IsMeasured};

    ghost view = { λ t. measured_tree t.shared.value };

    ghost invariant = { λ t. IsMeasured t.shared.value };

    ghost size = { height };

    ghost use Rattle.psg_tree.specs.TreeFalls.{shape_le-height};

    ghost size_decreases = { λ a h. shape_le-height a.shared.value.shape };
}

impl Tree {
    ghost use Rattle.psg_tree.specs.Shapes.{tree_of};
    ghost use Rattle.psg_tree.specs.TreeSizes.{AreSizesOf};

    /// Makes the tree of a node with its children. It reads the sizes of each child once. It fails where memory runs
    /// out.
    pub fn new(alloc: Global, shape: Shape) -> Result<Tree, AllocError>
        ensures { IfOk result (λ t. t ≡ tree_of shape) }
    {
        let sizes = sizes_of(&shape);
        Ok(Tree {
            shared: Rc::new(alloc, Measured { shape, sizes })?,
        })
    }

    /// Returns the node at the top.
    pub fn shape(&self) -> &Shape
        ensures { tree_of result.now ≡ self.now }
    {
        &self.shared.as_ref().shape
    }

    /// Reads the sizes of the tree.
    pub(crate) fn sizes(&self) -> &Sizes
        ensures { AreSizesOf self.now result.now }
    {
        &self.shared.as_ref().sizes
    }

    /// Returns one more owner of the same tree.
    pub fn share(&self) -> Result<Tree, AllocError>
        ensures { IfOk result (λ t. t ≡ self.now) }
    {
        Ok(Tree {
            shared: self.shared.clone()?,
        })
    }
}

#[cfg(test)]
mod tests {
    use super::*;
    use crate::path::Path;
    use crate::places::replace;
    use std::test::Fail;

    fn hole(alloc: Global, phylum: u32) -> Result<Tree, AllocError> {
        Tree::new(alloc, Shape::Hole { phylum })
    }

    fn over(alloc: Global, left: Tree, right: Tree) -> Result<Tree, AllocError> {
        let parts = Seq::of(vec![in alloc; Part::Sub(left), Part::Sub(right)]?);
        Tree::new(alloc, Shape::Op { op: 0, parts })
    }

    #[test]
    fn nodes_off_the_path_are_shared(rt: HostRuntime) -> Result<(), Fail> {
        let first = hole(rt.alloc(), 1)?;
        let new = hole(rt.alloc(), 3)?;
        let tree = over(rt.alloc(), first.share()?, hole(rt.alloc(), 2)?)?;
        assert_eq!(rt; Rc::strong_count(&first.shared), 2);
        let path = Path::of(rt.alloc(), &[1])?;
        let _changed = replace(rt.alloc(), &tree, &path, &new)?;
        // One owner is here, one the old tree and one the changed tree.
        assert_eq!(rt; Rc::strong_count(&first.shared), 3);
        assert_eq!(rt; Rc::strong_count(&new.shared), 2);
        Ok(())
    }
}
