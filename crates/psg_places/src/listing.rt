//! The places of a tree that are not kept, by path.
ghost use Rattle.std.specs.Prelude.{◌≡◌, ◌&&◌, ◌∷◌, [], cond, not, true, IfOk, OnOk};
ghost use Rattle.psg_cache.specs.Notes.{AreTables};
ghost use Rattle.psg_grammar.specs.Fragments.{operator};
ghost use Rattle.psg_grammar.specs.Sound.{IsSound};
ghost use Rattle.psg_tree.specs.Shapes.{with_parts};
ghost use Rattle.psg_places.specs.Listings as listings;
ghost use Rattle.psg_places.specs.Blame.{blamed_in};
ghost use Rattle.psg_places.specs.Listings.{Lists, blamed_among, opened_among, place_by};
ghost use Rattle.psg_places.specs.Openings.{IsKnown};
ghost use Rattle.psg_places.specs.Places.{content_places, places_of};
ghost use Rattle.psg_places.specs.declared.passing.What.TheVariants.{End as EndOf, Node as NodeOf};

use crate::counting::{goes_on, has_no_placeholder, is_declared, is_hole};
use crate::declaring::pass_declared;
use crate::numbers::{one_if, plus};
use crate::opening::{Keeping, is_end_place};
use crate::passing::{Listing, What, below, children_in, names_in, pass, pass_name};
use crate::place::Place;
use psg_eval::Tables;
use psg_grammar::Definition;
use psg_terms::Txt;
use psg_tree::{Part, Shape, Tree};
use std::alloc::{AllocError, Global};

/// Passes the names that the tree declares, and then its other places.
#[cycle(contents)]
fn pass_both(
    alloc: Global,
    keeping: Keeping,
    path: &[u32],
    tree: &Tree,
    listing: &mut Listing,
) -> Result<(), AllocError>
    requires known { IsKnown keeping }
    ensures { OnOk result (Lists keeping.entry.keep.now
        (listings.both_places keeping.entry.definition.now path.now tree.now)
        listing.old listing.new) }
{
    pass_declared(alloc, keeping, path, tree, listing)?;
    pass_contents(alloc, keeping, path, tree, listing)?;
    Ok(())
}

/// Passes the operator of the node at the path, and then all its other places.
#[cycle(contents)]
fn pass_node(
    alloc: Global,
    keeping: Keeping,
    path: &[u32],
    tree: &Tree,
    listing: &mut Listing,
) -> Result<(), AllocError>
    requires known { IsKnown keeping }
    ensures { OnOk result (Lists keeping.entry.keep.now (place_by NodeOf path.now
        ∷ listings.both_places keeping.entry.definition.now path.now tree.now) listing.old listing.new) }
{
    pass(alloc, keeping, What::Node, path, listing)?;
    pass_both(alloc, keeping, path, tree, listing)?;
    Ok(())
}

/// Passes the places of the child at the path.
#[cycle(contents)]
fn pass_child(
    alloc: Global,
    keeping: Keeping,
    path: &[u32],
    tree: &Tree,
    listing: &mut Listing,
) -> Result<(), AllocError>
    requires known { IsKnown keeping }
    ensures { OnOk result (Lists keeping.entry.keep.now
        (listings.own_child_places keeping.entry.definition.now path.now tree.now)
        listing.old listing.new) }
{
    if has_no_placeholder(keeping, tree) {
        pass_contents(alloc, keeping, path, tree, listing)?;
        return Ok(());
    }
    if is_hole(tree) {
        return Ok(());
    }
    pass_node(alloc, keeping, path, tree, listing)?;
    Ok(())
}

/// Passes an element that is a place itself, and then its places.
#[cycle(contents)]
fn pass_free_element(
    alloc: Global,
    keeping: Keeping,
    path: &[u32],
    tree: &Tree,
    listing: &mut Listing,
) -> Result<(), AllocError>
    requires known { IsKnown keeping }
    ensures { OnOk result (Lists keeping.entry.keep.now
        (listings.own_element_places keeping.entry.definition.now true path.now
        tree.now) listing.old listing.new) }
{
    pass(alloc, keeping, What::Element, path, listing)?;
    if has_no_placeholder(keeping, tree) {
        pass_both(alloc, keeping, path, tree, listing)?;
        return Ok(());
    }
    pass_child(alloc, keeping, path, tree, listing)?;
    Ok(())
}

/// Passes the places of the element at the path.
#[cycle(contents)]
fn pass_element(
    alloc: Global,
    keeping: Keeping,
    free: bool,
    path: &[u32],
    tree: &Tree,
    listing: &mut Listing,
) -> Result<(), AllocError>
    requires known { IsKnown keeping }
    ensures { OnOk result (Lists keeping.entry.keep.now
        (listings.own_element_places keeping.entry.definition.now free path.now
        tree.now) listing.old listing.new) }
{
    if free {
        pass_free_element(alloc, keeping, path, tree, listing)?;
        return Ok(());
    }
    pass_child(alloc, keeping, path, tree, listing)?;
    Ok(())
}

/// Passes the places of the elements of the list at the path.
#[cycle(contents)]
fn pass_elements(
    alloc: Global,
    keeping: Keeping,
    free: bool,
    path: &[u32],
    elements: &[Tree],
    listing: &mut Listing,
) -> Result<(), AllocError>
    requires known { IsKnown keeping }
    ensures { OnOk result (Lists keeping.entry.keep.now
        (listings.elements_places keeping.entry.definition.now free path.now 0
        elements.now) listing.old listing.new) }
{
    for i in 0..elements.len() {
        let inner = below(alloc, path, i)?;
        pass_element(
            alloc,
            keeping,
            free,
            inner.as_slice(),
            &elements[i],
            listing,
        )?;
    }
    Ok(())
}

/// Passes the end of the list at the path if it is a place.
fn pass_end(
    alloc: Global,
    keeping: Keeping,
    free: bool,
    unfinished: bool,
    path: &[u32],
    listing: &mut Listing,
) -> Result<(), AllocError>
    ensures { OnOk result (Lists keeping.entry.keep.now (cond (free && not unfinished)
        (place_by EndOf path.now ∷ []) []) listing.old listing.new) }
{
    if is_end_place(free, unfinished) {
        pass(alloc, keeping, What::End, path, listing)?;
        return Ok(());
    }
    Ok(())
}

/// Passes the places of a part of the node at the path.
#[cycle(contents)]
fn pass_part(
    alloc: Global,
    keeping: Keeping,
    declares: bool,
    path: &[u32],
    names: usize,
    children: usize,
    part: &Part,
    listing: &mut Listing,
) -> Result<(), AllocError>
    requires known { IsKnown keeping }
    ensures { OnOk result (Lists keeping.entry.keep.now
        (listings.part_content_places keeping.entry.definition.now path.now
        declares names children part.now) listing.old listing.new) }
{
    match part {
        Part::Sub(tree) => {
            let inner = below(alloc, path, children)?;
            pass_child(alloc, keeping, inner.as_slice(), tree, listing)?;
            Ok(())
        }
        Part::Name(_) => {
            pass_name(alloc, keeping, !declares, path, names, listing)?;
            Ok(())
        }
        Part::Number(_) => Ok(()),
        Part::Text(_) => Ok(()),
    }
}

/// Passes the places of the parts of the node at the path.
#[cycle(contents)]
fn pass_parts(
    alloc: Global,
    keeping: Keeping,
    op: u32,
    path: &[u32],
    parts: &[Part],
    listing: &mut Listing,
) -> Result<(), AllocError>
    requires known { IsKnown keeping }
    ensures { OnOk result (Lists keeping.entry.keep.now (content_places keeping.entry.definition.now path.now 0
        (with_parts (operator op) parts.now)) listing.old listing.new) }
{
    let mut names = 0;
    let mut children = 0;
    for i in 0..parts.len() {
        let part = &parts[i];
        let declares = is_declared(keeping.definition, op, i);
        pass_part(
            alloc, keeping, declares, path, names, children, part, listing,
        )?;
        let own_names = names_in(part);
        let own_children = children_in(part);
        let more_names = plus(names, own_names)?;
        let more_children = plus(children, own_children)?;
        names = more_names;
        children = more_children;
    }
    Ok(())
}

/// Passes the places below the operator or list at the path.
#[cycle(contents)]
fn pass_contents(
    alloc: Global,
    keeping: Keeping,
    path: &[u32],
    tree: &Tree,
    listing: &mut Listing,
) -> Result<(), AllocError>
    requires known { IsKnown keeping }
    ensures { OnOk result (Lists keeping.entry.keep.now
        (content_places keeping.entry.definition.now path.now 0 tree.now)
        listing.old listing.new) }
{
    match tree.shape() {
        Shape::Op { op, parts } => {
            pass_parts(alloc, keeping, *op, path, parts.as_slice(), listing)?;
            Ok(())
        }
        Shape::List {
            list,
            elements,
            unfinished,
        } => {
            let free = goes_on(keeping.definition, *list);
            pass_elements(alloc, keeping, free, path, elements.as_slice(), listing)?;
            pass_end(alloc, keeping, free, *unfinished, path, listing)?;
            Ok(())
        }
        Shape::Hole { .. } => Ok(()),
    }
}

/// Passes all places of a tree.
fn pass_tree(
    alloc: Global,
    keeping: Keeping,
    tree: &Tree,
    listing: &mut Listing,
) -> Result<(), AllocError>
    requires known { IsKnown keeping }
    ensures { OnOk result (Lists keeping.entry.keep.now (places_of keeping.entry.definition.now tree.now)
        listing.old listing.new) }
{
    if has_no_placeholder(keeping, tree) {
        pass_both(alloc, keeping, &[], tree, listing)?;
        return Ok(());
    }
    pass_child(alloc, keeping, &[], tree, listing)?;
    Ok(())
}

/// Lists the places of a tree that are not kept, in the order of the text, also those after the last answer. A place
/// below a node that is not kept is not listed unless it is not kept itself. The call walks once over the tree, and
/// twice over what declares. An error says that memory ran out, or that a list has more elements than a path has steps
/// for.
pub fn opened_places(
    alloc: Global,
    definition: &Definition,
    tables: &Tables,
    kept: &[bool],
    tree: &Tree,
) -> Result<Vec<Place>, AllocError>
    requires sound { IsSound definition.now }
    requires tables { AreTables definition.now tables.now }
    ensures { IfOk result (λ found. found.items ≡ opened_among kept.now 0 (places_of definition.now tree.now)) }
{
    let spaces = tables.spaces();
    // no name is asked for
    let front = Txt::of(alloc, String::new(alloc))?;
    let keeping = Keeping {
        definition,
        spaces,
        keep: kept,
        front: &front,
    };
    let found = Vec::new(alloc);
    let mut listing = Listing { seen: 0, found };
    pass_tree(alloc, keeping, tree, &mut listing)?;
    Ok(listing.found)
}

/// Lists all places of a tree, in the order of the text. The number of a place is its position in this list. The call
/// walks once over the tree, and twice over what declares. An error says that memory ran out, or that a list has more
/// elements than a path has steps for.
pub fn all_places(
    alloc: Global,
    definition: &Definition,
    tables: &Tables,
    tree: &Tree,
) -> Result<Vec<Place>, AllocError>
    requires sound { IsSound definition.now }
    requires tables { AreTables definition.now tables.now }
    ensures { IfOk result (λ found. found.items ≡ places_of definition.now tree.now) }
{
    let found = opened_places(alloc, definition, tables, &[], tree)?;
    Ok(found)
}

/// Says whether the place of the number is blamed: there is an answer for it, and it is not kept.
fn is_blamed(kept: &[bool], number: usize) -> bool
    ensures { result ≡ listings.is_blamed kept.now number }
{
    match kept.get(number) {
        Some(kept) => !*kept,
        None => false,
    }
}

/// Counts the places that are blamed by these answers.
fn blamed_count(kept: &[bool]) -> usize
    ensures { result ≡ blamed_in kept.now }
{
    let mut total = 0;
    for i in 0..kept.len() {
        let blamed = is_blamed(kept, i);
        let more = one_if(blamed);
        total += more;
    }
    total
}

/// Lists the blamed places of a tree, in the order of the text, by the answers of `blame`: those of its places for
/// which there is an answer, and which are not kept. A place below a blamed node is not listed unless it is blamed
/// itself. The call walks once over the tree, and twice over what declares. An error says that memory ran out, or that
/// a list has more elements than a path has steps for.
pub fn blamed_places(
    alloc: Global,
    definition: &Definition,
    tables: &Tables,
    kept: &[bool],
    tree: &Tree,
) -> Result<Vec<Place>, AllocError>
    requires sound { IsSound definition.now }
    requires tables { AreTables definition.now tables.now }
    ensures { IfOk result (λ found. found.items ≡ blamed_among kept.now 0 (places_of definition.now tree.now)) }
{
    let mut found = opened_places(alloc, definition, tables, kept, tree)?;
    let count = blamed_count(kept);
    found.truncate(count);
    Ok(found)
}
