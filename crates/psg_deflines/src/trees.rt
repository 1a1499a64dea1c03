//! Specimens as they are written in a line.
use crate::terms::LineTerm;
use psg_terms::{Seq, Txt};
use std::marker::Model;

/// A place that takes any tree of the kind with the values of the term.
#[derive(Drop)]
pub struct LinePlace {
    /// The name of the phylum or list.
    pub kind: Txt,
    /// The values that its trees have.
    pub term: LineTerm,
}

/// A part of an operator of a specimen.
#[cycle(line_tree)]
#[derive(Drop)]
pub enum LinePart {
    /// A subtree.
    Tree(LineTree),
    /// A name, without its mark.
    Name(Txt),
    /// A number, by its digits.
    Number(Txt),
    /// A text, without its quotes and escapes.
    Text(Txt),
}

/// A specimen as it is written.
#[cycle(line_tree)]
#[derive(Drop)]
pub enum TreeShape {
    /// An operator with its parts, in the order of its items.
    Operator {
        name: Txt,
        parts: Seq<LinePart>,
    },
    /// A list with its elements, and the place of further ones.
    List {
        elements: Seq<LineTree>,
        rest: Option<LinePlace>,
    },
    /// A hole place.
    Place(LinePlace),
}

/// A specimen of a line.
#[cycle(line_tree)]
#[derive(Drop)]
pub struct LineTree {
    /// What the specimen is.
    pub shape: TreeShape,
}

impl Model for LineTree {
    ghost use Rattle.psg_deflines.specs.WrittenTrees.{WrittenTree};
    ghost use Rattle.psg_deflines.specs.TreeCode.{coded_tree};

    ghost Value = { WrittenTree };

    ghost coded = { coded_tree };

    ghost use Rattle.psg_deflines.specs.TreeShapes.{tree_of, tree_height};

    ghost view = { λ t. tree_of t.shape };

    ghost size = { tree_height };

    ghost use Rattle.psg_deflines.specs.TreeFalls.{shape_le-height};

    ghost size_decreases = { λ a h. shape_le-height a.shape };
}
