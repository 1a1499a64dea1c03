//! A law of ranges, as the contract of a call that does nothing.
ghost use Rattle.psg_ranges.specs.Owns.{RangesAreOfNodes};

use psg_grammar::Definition;

/// States that a path leads to a range exactly where it leads to a node of the tree, and that the range is that of the
/// node: its tokens derive the node without brackets around it, and its names are those of the node's operator. The
/// call has no cost.
pub fn ranges_are_of_nodes(_definition: &Definition)
    ensures { RangesAreOfNodes _definition.now }
{}
