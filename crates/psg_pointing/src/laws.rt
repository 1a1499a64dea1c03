//! A law of what bytes point at, as the contract of a call that does nothing.
ghost use Rattle.psg_pointing.specs.Pointing.{PointsAtNodes};

use psg_grammar::Definition;

/// States that the path that a byte points at leads to a node of the tree, and that its range is that of the node. The
/// call has no cost.
pub fn bytes_point_at_nodes(_definition: &Definition)
    ensures { PointsAtNodes _definition.now }
{}
