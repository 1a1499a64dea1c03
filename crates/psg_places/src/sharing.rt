//! Elements of which all places are kept: they are shared, and not made again.
ghost use Rattle.std.specs.Prelude.{IfOk, IfSome, IsTrue};
ghost use Rattle.psg_places.specs.Blame.{kept_in};
ghost use Rattle.psg_places.specs.Openings as openings;
ghost use Rattle.psg_places.specs.Openings.{IsKnown, Keeps};

use crate::containing::free_contained;
use crate::numbers::plus;
use crate::opening::{Keeping, Opened, keeps};
use psg_tree::Tree;
use std::alloc::AllocError;

/// Says whether all places from the one number up to the other are kept.
fn keeps_all(keep: &[bool], from: usize, to: usize) -> bool
    ensures { IsTrue result → Keeps (kept_in keep.now) from to }
{
    for place in from..to {
        if !keeps(keep, place) {
            return false;
        }
    }
    true
}

/// Returns an element of a list that may be unfinished as it is, and how many places it has with its own.
pub(crate) fn as_it_is(keeping: Keeping, tree: &Tree) -> Result<Opened, AllocError>
    requires known { IsKnown keeping }
    ensures { IfOk result (openings.IsAsItIs keeping.entry.definition.now tree.now) }
{
    let others = free_contained(keeping, tree)?;
    let same = tree.share()?;
    Ok(Opened {
        tree: same,
        declared: 0,
        others,
    })
}

/// Returns an element of a list that may be unfinished, which is the place, if it and all places in it are kept; nothing
/// where one of them is not. No node is made.
pub(crate) fn wholly_kept(
    keeping: Keeping,
    place: usize,
    tree: &Tree,
) -> Result<Option<Opened>, AllocError>
    requires known { IsKnown keeping }
    ensures { IfOk result (λ found. IfSome found (openings.IsOpenedFree keeping.entry place tree.now)) }
{
    let whole = as_it_is(keeping, tree)?;
    let end = plus(place, whole.others)?;
    if keeps_all(keeping.keep, place, end) {
        return Ok(Some(whole));
    }
    Ok(None)
}
