//! Laws of printed trees, as contracts of calls that do nothing.
ghost use Rattle.psg_grammar.specs.declared.types.Kind.{Kind};
ghost use Rattle.psg_grammar.specs.Fragments.{Fragment};
ghost use Rattle.psg_grammar.specs.WellFormed.{WellFormed};
ghost use Rattle.psg_unparse.specs.Listing.{IsCutAtEach, IsListing};
ghost use Rattle.psg_unparse.specs.Splicing.{Splices};

use psg_grammar::Definition;

/// States that at each node the row of a tree is the row before the node, its own row and the row after it. The call
/// has no cost.
pub fn cut_at_nodes(_definition: &Definition)
    ensures { (fragment : Fragment) → IsCutAtEach _definition.now fragment }
{}

/// States that in a well-formed tree each path leads to the node that is listed for it, and each node is listed once,
/// in the order of the paths. The call has no cost.
pub fn listed_once(_definition: &Definition)
    ensures { (fragment : Fragment) (kind : Kind) → WellFormed _definition.now fragment kind
        → IsListing _definition.now fragment }
{}

/// States what the text of a tree becomes where a node is replaced by one that fits in its place: the node's own text
/// is replaced, the spans of the nodes above it are as much longer, and those after it are as much later. The call has
/// no cost.
pub fn splices(_definition: &Definition)
    ensures { Splices _definition.now }
{}
