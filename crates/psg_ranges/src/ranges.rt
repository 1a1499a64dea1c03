//! Where nodes are among the tokens of their tree.
ghost use Rattle.std.specs.Prelude.{◌≡◌, ℕ, IfOk, List};
ghost use Rattle.psg_class.specs.Class.{IsClass};
ghost use Rattle.psg_class.specs.Texts.{tokens_of};
ghost use Rattle.psg_class.specs.Yields.{Yields};
ghost use Rattle.psg_ranges.specs.Forests.{nodes_of, ranges_in};

use crate::brackets::has_brackets;
use crate::reading::{Reader, read_node};
use psg_grammar::{Definition, Kind};
use psg_lexis::Spanned;
use psg_terms::Seq;
use psg_tree::{Tree, nodes};
use std::alloc::{AllocError, Global};

/// Where a node is among the tokens. Brackets around the node are none of its tokens.
#[derive(Drop)]
pub struct Range {
    /// The number of the node's first token, from 0.
    pub start: usize,
    /// The number after that of its last token. It is `start` where the node has no tokens.
    pub end: usize,
    /// How many nodes its tree has, the node itself among them.
    pub nodes: usize,
    /// The numbers of the tokens that are names of the node's operator, used or declared, in order.
    pub names: Seq<usize>,
}

/// The ranges of all nodes of a tree: a node before its children, and children in order.
#[derive(Drop)]
pub struct Ranges {
    nodes: Seq<Range>,
}

impl Ranges {
    /// Returns the ranges of all nodes.
    pub fn all(&self) -> &[Range]
        ensures { result.now ≡ self.now.nodes }
    {
        self.nodes.as_slice()
    }
}

/// Returns where each node of the tree is among its tokens, where a tree of the kind has these tokens.
///
/// Brackets around a node are none of its tokens, and those around its first child are: `(a) + b` begins with its `(`,
/// but its `a` does not. A list ends after its `...`. A finished list without elements has no token: its `start` and
/// `end` are the number of the token after it. It fails where memory runs out. It takes time linear in the tokens and
/// the nodes, memory for the nodes and names, and calls itself once for each level of the tree.
pub fn ranges_of(
    alloc: Global,
    definition: &Definition,
    kind: Kind,
    tree: &Tree,
    tokens: &[Spanned],
) -> Result<Ranges, AllocError>
    requires class { IsClass definition.now }
    // each derivation of the tree from the tokens says this of its nodes, too
    ensures { IfOk result (λ made. (level nesting : ℕ)
        (y : Yields definition.now tree.now kind level nesting (tokens_of tokens.now))
        → made.nodes ≡ ranges_in (nodes_of definition.now tree.now kind level nesting (tokens_of tokens.now) y)) }
{
    let ranges = Vec::with_capacity(alloc, nodes(tree) as usize)?;
    let mut reader = Reader { at: 0, ranges };
    let bracketed = has_brackets(definition, kind);
    read_node(alloc, &mut reader, definition, tokens, bracketed, 0, tree)?;
    let nodes = Seq::of(reader.ranges);
    Ok(Ranges { nodes })
}
