//! What printing a tree gives, and where a node is among the spans.
ghost use Rattle.std.specs.Prelude.{◌≤◌, ◌<◌, ℕ, length};
ghost use Rattle.std.specs.Bool.{Decides};
ghost use Rattle.psg_unparse.specs.Listing.{AreInOrder, IsEarlier};
ghost use Rattle.psg_unparse.specs.Places.{Halves};
ghost use Rattle.psg_unparse.specs.Splicing.{IsPlaceOf};

use psg_terms::{Seq, Txt};
use psg_tree::Path;

/// The bytes of a printed node in the text of its tree.
#[derive(Drop)]
pub struct Span {
    /// The way from the top of the tree to the node.
    pub path: Path,
    /// The number of the node's first byte, from 0 on.
    pub start: usize,
    /// The number of the byte after the node's last one. It is `start` where the node has no tokens.
    pub end: usize,
}

/// The text of a tree with the bytes of each of its nodes.
#[derive(Drop)]
pub struct Printed {
    /// The text, as UTF-8.
    pub text: Txt,
    /// The spans of all nodes: a node before its children, and children in order.
    pub spans: Seq<Span>,
}

/// Says whether a node with these steps is listed before the node at the path.
fn is_earlier(steps: &[u32], path: &[u32]) -> bool
    ensures { Decides result (IsEarlier steps.now path.now) }
{
    steps < path
}

/// Halves the places from `low` up to `high`, among which is that of the path.
fn halved(spans: &[Span], path: &[u32], low: usize, high: usize) -> (usize, usize)
    requires order { AreInOrder spans.now }
    requires some { low < high }
    requires within { high ≤ length spans.now }
    ensures { Halves spans.now path.now low high result.0 result.1 }
{
    let middle = low + (high - low) / 2;
    if is_earlier(spans[middle].path.steps(), path) {
        (middle + 1, high)
    } else {
        (low, middle)
    }
}

/// Returns the place of the span with the path, among all spans of a tree: they are in the order of their paths. It
/// looks at few spans: twice as many spans cost one more look.
pub fn place_of(spans: &[Span], path: &[u32]) -> usize
    requires order { AreInOrder spans.now }
    requires there { (place : ℕ) × IsPlaceOf spans.now path.now place }
    ensures { IsPlaceOf spans.now path.now result }
{
    let mut low = 0;
    let mut high = spans.len();
    'halving: while low < high {
        let (least, most) = halved(spans, path, low, high);
        low = least;
        high = most;
    }
    low
}
