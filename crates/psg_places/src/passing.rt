//! Places that are passed in their order, and those of them that are not kept.
ghost use Rattle.std.specs.Prelude.{◌≡◌, ◌++◌, ◌∷◌, [], cond, not, IfOk, OnOk};
ghost use Rattle.psg_places.specs.Blame.{kept_in};
ghost use Rattle.psg_places.specs.Listings as listings;
ghost use Rattle.psg_places.specs.Listings.{Lists, place_by};
ghost use Rattle.psg_places.specs.Places.{below as below_of};
ghost use Rattle.psg_places.specs.declared.passing.What.TheVariants.{Name as NameOf};

use crate::numbers::{plus, step_of};
use crate::opening::{Keeping, keeps};
use crate::place::Place;
use psg_tree::{Part, Path};
use std::alloc::{AllocError, Global};

/// What is listed so far.
#[derive(Drop)]
pub(crate) struct Listing {
    /// How many places were passed.
    pub(crate) seen: usize,
    /// Those of them that are not kept.
    pub(crate) found: Vec<Place>,
}

/// What a place is, except its path.
#[derive(Clone, Copy)]
pub(crate) enum What {
    Node,
    Element,
    End,
    Name(usize),
}

/// Makes a place.
fn place_at(alloc: Global, what: What, path: &[u32]) -> Result<Place, AllocError>
    ensures { IfOk result (λ place. place ≡ place_by what path.now) }
{
    let at = Path::of(alloc, path)?;
    match what {
        What::Node => Ok(Place::Node(at)),
        What::Element => Ok(Place::Element(at)),
        What::End => Ok(Place::End(at)),
        What::Name(number) => Ok(Place::Name(at, number)),
    }
}

/// Says whether the place of the number is not kept.
fn is_opened(keep: &[bool], number: usize) -> bool
    ensures { result ≡ not (kept_in keep.now number) }
{
    !keeps(keep, number)
}

/// Adds the place if it is wanted.
fn put(
    alloc: Global,
    wanted: bool,
    what: What,
    path: &[u32],
    found: &mut Vec<Place>,
) -> Result<(), AllocError>
    ensures { OnOk result (found.new.items ≡ found.old.items ++ cond wanted (place_by what path.now ∷ []) []) }
{
    if wanted {
        let place = place_at(alloc, what, path)?;
        found.push(place)?;
    }
    Ok(())
}

/// Passes a place, and adds it if it is not kept.
pub(crate) fn pass(
    alloc: Global,
    keeping: Keeping,
    what: What,
    path: &[u32],
    listing: &mut Listing,
) -> Result<(), AllocError>
    ensures { OnOk result (Lists keeping.entry.keep.now (place_by what path.now ∷ []) listing.old listing.new) }
{
    let next = plus(listing.seen, 1)?;
    let wanted = is_opened(keeping.keep, listing.seen);
    put(alloc, wanted, what, path, &mut listing.found)?;
    listing.seen = next;
    Ok(())
}

/// Returns the path to the child of the number.
pub(crate) fn below(alloc: Global, path: &[u32], child: usize) -> Result<Vec<u32>, AllocError>
    ensures { IfOk result (λ longer. longer.items ≡ below_of path.now child) }
{
    let step = step_of(child)?;
    let mut longer = Vec::from_slice(alloc, path)?;
    longer.push(step)?;
    Ok(longer)
}

/// Returns how many names the part is.
pub(crate) fn names_in(part: &Part) -> usize
    ensures { result ≡ listings.names_in part.now }
{
    match part {
        Part::Sub(_) => 0,
        Part::Name(_) => 1,
        Part::Number(_) => 0,
        Part::Text(_) => 0,
    }
}

/// Returns how many children the part is.
pub(crate) fn children_in(part: &Part) -> usize
    ensures { result ≡ listings.children_in part.now }
{
    match part {
        Part::Sub(_) => 1,
        Part::Name(_) => 0,
        Part::Number(_) => 0,
        Part::Text(_) => 0,
    }
}

/// Passes the name if it is wanted.
pub(crate) fn pass_name(
    alloc: Global,
    keeping: Keeping,
    wanted: bool,
    path: &[u32],
    number: usize,
    listing: &mut Listing,
) -> Result<(), AllocError>
    ensures { OnOk result (Lists keeping.entry.keep.now (cond wanted (place_by (NameOf number) path.now ∷ []) [])
        listing.old listing.new) }
{
    if wanted {
        pass(alloc, keeping, What::Name(number), path, listing)?;
        return Ok(());
    }
    Ok(())
}
