//! The names that a tree declares, in the order of its places.
ghost use Rattle.std.specs.Prelude.{OnOk};
ghost use Rattle.psg_grammar.specs.Fragments.{operator};
ghost use Rattle.psg_tree.specs.Shapes.{with_parts};
ghost use Rattle.psg_places.specs.Listings as listings;
ghost use Rattle.psg_places.specs.Listings.{Lists};
ghost use Rattle.psg_places.specs.Openings.{IsKnown};
ghost use Rattle.psg_places.specs.Places.{declared_places};

use crate::counting::{goes_on, has_no_placeholder, is_declared};
use crate::numbers::plus;
use crate::opening::Keeping;
use crate::passing::{Listing, below, children_in, names_in, pass_name};
use psg_tree::{Part, Shape, Tree};
use std::alloc::{AllocError, Global};

/// Passes the declared names of a child at the path, if no placeholder can take its place.
#[cycle(declared)]
fn pass_fixed(
    alloc: Global,
    keeping: Keeping,
    path: &[u32],
    tree: &Tree,
    listing: &mut Listing,
) -> Result<(), AllocError>
    requires known { IsKnown keeping }
    ensures { OnOk result (Lists keeping.entry.keep.now
        (listings.fixed_places keeping.entry.definition.now path.now tree.now)
        listing.old listing.new) }
{
    if has_no_placeholder(keeping, tree) {
        pass_declared(alloc, keeping, path, tree, listing)?;
        return Ok(());
    }
    Ok(())
}

/// Passes the declared names of a part of the node at the path.
#[cycle(declared)]
fn pass_declared_part(
    alloc: Global,
    keeping: Keeping,
    declares: bool,
    path: &[u32],
    names: usize,
    children: usize,
    part: &Part,
    listing: &mut Listing,
) -> Result<(), AllocError>
    requires known { IsKnown keeping }
    ensures { OnOk result (Lists keeping.entry.keep.now
        (listings.part_declared_places keeping.entry.definition.now path.now
        declares names children part.now) listing.old listing.new) }
{
    match part {
        Part::Sub(tree) => {
            let inner = below(alloc, path, children)?;
            pass_fixed(alloc, keeping, inner.as_slice(), tree, listing)?;
            Ok(())
        }
        Part::Name(_) => {
            pass_name(alloc, keeping, declares, path, names, listing)?;
            Ok(())
        }
        Part::Number(_) => Ok(()),
        Part::Text(_) => Ok(()),
    }
}

/// Passes the declared names of the parts of the node at the path.
#[cycle(declared)]
fn pass_declared_parts(
    alloc: Global,
    keeping: Keeping,
    op: u32,
    path: &[u32],
    parts: &[Part],
    listing: &mut Listing,
) -> Result<(), AllocError>
    requires known { IsKnown keeping }
    ensures { OnOk result (Lists keeping.entry.keep.now (declared_places keeping.entry.definition.now path.now 0
        (with_parts (operator op) parts.now)) listing.old listing.new) }
{
    let mut names = 0;
    let mut children = 0;
    for i in 0..parts.len() {
        let part = &parts[i];
        let declares = is_declared(keeping.definition, op, i);
        pass_declared_part(
            alloc, keeping, declares, path, names, children, part, listing,
        )?;
        let own_names = names_in(part);
        let own_children = children_in(part);
        let more_names = plus(names, own_names)?;
        let more_children = plus(children, own_children)?;
        names = more_names;
        children = more_children;
    }
    Ok(())
}

/// Passes the declared names of the elements of the list at the path.
#[cycle(declared)]
fn pass_declared_elements(
    alloc: Global,
    keeping: Keeping,
    path: &[u32],
    elements: &[Tree],
    listing: &mut Listing,
) -> Result<(), AllocError>
    requires known { IsKnown keeping }
    ensures { OnOk result (Lists keeping.entry.keep.now
        (listings.elements_declared_places keeping.entry.definition.now path.now 0
        elements.now) listing.old listing.new) }
{
    for i in 0..elements.len() {
        let inner = below(alloc, path, i)?;
        pass_fixed(alloc, keeping, inner.as_slice(), &elements[i], listing)?;
    }
    Ok(())
}

/// Passes the names that the tree at the path declares.
#[cycle(declared)]
pub(crate) fn pass_declared(
    alloc: Global,
    keeping: Keeping,
    path: &[u32],
    tree: &Tree,
    listing: &mut Listing,
) -> Result<(), AllocError>
    requires known { IsKnown keeping }
    ensures { OnOk result (Lists keeping.entry.keep.now
        (declared_places keeping.entry.definition.now path.now 0 tree.now)
        listing.old listing.new) }
{
    match tree.shape() {
        Shape::Op { op, parts } => {
            pass_declared_parts(alloc, keeping, *op, path, parts.as_slice(), listing)?;
            Ok(())
        }
        Shape::List { list, elements, .. } => {
            if goes_on(keeping.definition, *list) {
                return Ok(());
            }
            pass_declared_elements(alloc, keeping, path, elements.as_slice(), listing)?;
            Ok(())
        }
        Shape::Hole { .. } => Ok(()),
    }
}
