//! Trees in which only some places are kept.
ghost use Rattle.std.specs.Prelude.{◌≡◌, ◌||◌, ◌&&◌, ◌++◌, ◌∷◌, [], cond, not, true, IfOk, OnOk};
ghost use Rattle.psg_tree.specs.Shapes.{list_of};
ghost use Rattle.psg_places.specs.Openings as openings;
ghost use Rattle.psg_places.specs.Openings.{IsKnown};
ghost use Rattle.psg_places.specs.Blame.{kept_in};

use crate::counting::{declared, goes_on, has_no_placeholder, is_declared, is_hole, phylum_at};
use crate::fronts::new_name;
use crate::numbers::{one_if, plus};
use crate::sharing::{as_it_is, wholly_kept};
use psg_grammar::Definition;
use psg_terms::{Seq, Txt};
use psg_tree::{Part, Shape, Tree};
use std::alloc::{AllocError, Global};

/// What says how a tree is opened.
#[derive(Clone, Copy)]
pub(crate) struct Keeping<'a> {
    pub(crate) definition: &'a Definition,
    /// For each phylum the spaces in which it declares.
    pub(crate) spaces: &'a [Vec<u32>],
    /// Whether each place is kept. The places after the last are not.
    pub(crate) keep: &'a [bool],
    /// Letters with which no name of the tree begins and no fixed word.
    pub(crate) front: &'a Txt,
}

/// A tree with its places opened, and how many it has.
#[derive(Drop)]
pub(crate) struct Opened {
    pub(crate) tree: Tree,
    /// How many of its names are numbered with those that the operator above declares.
    pub(crate) declared: usize,
    /// How many other places it has.
    pub(crate) others: usize,
}

/// A part of an operator with its places opened, and how many it has.
#[derive(Drop)]
struct OpenedPart {
    part: Part,
    declared: usize,
    others: usize,
}

/// The parts of an operator.
#[derive(Drop)]
struct OpenedParts {
    parts: Vec<Part>,
    declared: usize,
    others: usize,
}

/// The elements of a list.
#[derive(Drop)]
struct OpenedElements {
    elements: Vec<Tree>,
    declared: usize,
    others: usize,
}

/// Says whether the place is kept.
pub(crate) fn keeps(keep: &[bool], place: usize) -> bool
    ensures { result ≡ kept_in keep.now place }
{
    match keep.get(place) {
        Some(kept) => *kept,
        None => false,
    }
}

/// Returns the name, or the new one of its place where that is not kept.
fn name_or_new(alloc: Global, keeping: Keeping, place: usize, name: &Txt) -> Result<Txt, AllocError>
    ensures { IfOk result (λ made. made ≡ openings.name_at keeping.entry place name.now) }
{
    if keeps(keeping.keep, place) {
        let same = name.share()?;
        Ok(same)
    } else {
        let new = new_name(alloc, keeping.front, place)?;
        Ok(new)
    }
}

/// Returns the name part, where declared names are at `above` and other places at `place`.
fn open_name(
    alloc: Global,
    keeping: Keeping,
    declares: bool,
    above: usize,
    place: usize,
    name: &Txt,
) -> Result<OpenedPart, AllocError>
    ensures { IfOk result (openings.IsOpenedName keeping.entry declares above place name.now) }
{
    if declares {
        let made = name_or_new(alloc, keeping, above, name)?;
        Ok(OpenedPart {
            part: Part::Name(made),
            declared: 1,
            others: 0,
        })
    } else {
        let made = name_or_new(alloc, keeping, place, name)?;
        Ok(OpenedPart {
            part: Part::Name(made),
            declared: 0,
            others: 1,
        })
    }
}

/// Opens the part of the number.
#[cycle(open)]
fn open_part(
    alloc: Global,
    keeping: Keeping,
    declares: bool,
    above: usize,
    place: usize,
    part: &Part,
) -> Result<OpenedPart, AllocError>
    requires known { IsKnown keeping }
    ensures { IfOk result (openings.IsOpenedPart keeping.entry declares above place part.now) }
{
    match part {
        Part::Sub(tree) => {
            let opened = open_child(alloc, keeping, above, place, tree)?;
            let Opened {
                tree,
                declared,
                others,
            } = opened;
            Ok(OpenedPart {
                part: Part::Sub(tree),
                declared,
                others,
            })
        }
        Part::Name(name) => {
            let opened = open_name(alloc, keeping, declares, above, place, name)?;
            Ok(opened)
        }
        Part::Number(value) => Ok(OpenedPart {
            part: Part::Number(*value),
            declared: 0,
            others: 0,
        }),
        Part::Text(text) => {
            let same = text.share()?;
            Ok(OpenedPart {
                part: Part::Text(same),
                declared: 0,
                others: 0,
            })
        }
    }
}

/// Opens the parts of an operator.
#[cycle(open)]
fn open_parts(
    alloc: Global,
    keeping: Keeping,
    op: u32,
    above: usize,
    place: usize,
    parts: &[Part],
) -> Result<OpenedParts, AllocError>
    requires known { IsKnown keeping }
    ensures { IfOk result (openings.AreOpenedParts keeping.entry op above place parts.now) }
{
    let mut made = Vec::with_capacity(alloc, parts.len())?;
    let mut declared = 0;
    let mut others = 0;
    for i in 0..parts.len() {
        let declares = is_declared(keeping.definition, op, i);
        let over = plus(above, declared)?;
        let next = plus(place, others)?;
        let opened = open_part(alloc, keeping, declares, over, next, &parts[i])?;
        let more_declared = plus(declared, opened.declared)?;
        let more_others = plus(others, opened.others)?;
        made.push(opened.part)?;
        declared = more_declared;
        others = more_others;
    }
    Ok(OpenedParts {
        parts: made,
        declared,
        others,
    })
}

/// Opens a tree at the place together with the names that it declares, which are first.
#[cycle(open)]
fn open_both(
    alloc: Global,
    keeping: Keeping,
    place: usize,
    tree: &Tree,
) -> Result<Opened, AllocError>
    requires known { IsKnown keeping }
    ensures { IfOk result (openings.IsOpenedBoth keeping.entry place tree.now) }
{
    let own = declared(keeping, tree)?;
    let next = plus(place, own)?;
    let inner = open_contents(alloc, keeping, place, next, tree)?;
    let others = plus(own, inner.others)?;
    Ok(Opened {
        tree: inner.tree,
        declared: 0,
        others,
    })
}

/// Opens a node, whose operator is the place.
#[cycle(open)]
fn open_node(
    alloc: Global,
    keeping: Keeping,
    place: usize,
    tree: &Tree,
) -> Result<Opened, AllocError>
    requires known { IsKnown keeping }
    ensures { IfOk result (openings.IsOpenedNode keeping.entry place tree.now) }
{
    let first = plus(place, 1)?;
    let inner = open_both(alloc, keeping, first, tree)?;
    let others = plus(1, inner.others)?;
    if keeps(keeping.keep, place) {
        return Ok(Opened {
            tree: inner.tree,
            declared: 0,
            others,
        });
    }
    let phylum = phylum_at(keeping.definition, tree);
    let hole = Tree::new(alloc, Shape::Hole { phylum })?;
    Ok(Opened {
        tree: hole,
        declared: 0,
        others,
    })
}

/// Opens a child of an operator or of a list that can't be unfinished.
#[cycle(open)]
fn open_child(
    alloc: Global,
    keeping: Keeping,
    above: usize,
    place: usize,
    tree: &Tree,
) -> Result<Opened, AllocError>
    requires known { IsKnown keeping }
    ensures { IfOk result (openings.IsOpenedChild keeping.entry above place tree.now) }
{
    if has_no_placeholder(keeping, tree) {
        let inner = open_contents(alloc, keeping, above, place, tree)?;
        return Ok(inner);
    }
    if is_hole(tree) {
        let same = tree.share()?;
        return Ok(Opened {
            tree: same,
            declared: 0,
            others: 0,
        });
    }
    let node = open_node(alloc, keeping, place, tree)?;
    Ok(node)
}

/// Opens an element of a list that may be unfinished, which is the place, as if it were kept. One that is wholly kept is
/// shared.
#[cycle(open)]
fn open_free_element(
    alloc: Global,
    keeping: Keeping,
    place: usize,
    tree: &Tree,
) -> Result<Opened, AllocError>
    requires known { IsKnown keeping }
    ensures { IfOk result (openings.IsOpenedFree keeping.entry place tree.now) }
{
    if let Some(whole) = wholly_kept(keeping, place, tree)? {
        return Ok(whole);
    }
    let first = plus(place, 1)?;
    if has_no_placeholder(keeping, tree) {
        let inner = open_both(alloc, keeping, first, tree)?;
        let others = plus(1, inner.others)?;
        return Ok(Opened {
            tree: inner.tree,
            declared: 0,
            others,
        });
    }
    let child = open_child(alloc, keeping, 0, first, tree)?;
    let others = plus(1, child.others)?;
    Ok(Opened {
        tree: child.tree,
        declared: 0,
        others,
    })
}

/// Opens an element.
#[cycle(open)]
fn open_element(
    alloc: Global,
    keeping: Keeping,
    free: bool,
    above: usize,
    place: usize,
    tree: &Tree,
) -> Result<Opened, AllocError>
    requires known { IsKnown keeping }
    ensures { IfOk result (openings.IsOpenedElement keeping.entry free above place tree.now) }
{
    if free {
        let element = open_free_element(alloc, keeping, place, tree)?;
        Ok(element)
    } else {
        let child = open_child(alloc, keeping, above, place, tree)?;
        Ok(child)
    }
}

/// Opens an element that stays. The places of one that is left out are counted.
#[cycle(open)]
fn open_member(
    alloc: Global,
    keeping: Keeping,
    free: bool,
    kept: bool,
    above: usize,
    place: usize,
    tree: &Tree,
) -> Result<Opened, AllocError>
    requires known { IsKnown keeping }
    requires kept { kept ≡ (not free || kept_in keeping.keep.now place) }
    ensures { IfOk result (openings.IsOpenedMember keeping.entry free kept above place tree.now) }
{
    if kept {
        let element = open_element(alloc, keeping, free, above, place, tree)?;
        return Ok(element);
    }
    let none = as_it_is(keeping, tree)?;
    Ok(none)
}

/// Adds the tree where it is kept.
fn push_kept(made: &mut Vec<Tree>, kept: bool, tree: Tree) -> Result<(), AllocError>
    ensures { OnOk result (made.new.items ≡ made.old.items ++ cond kept (tree ∷ []) []) }
{
    if kept {
        made.push(tree)?;
    }
    Ok(())
}

/// Says whether an element is there: where it is no place, or is kept.
fn stays(keep: &[bool], free: bool, place: usize) -> bool
    ensures { result ≡ (not free || kept_in keep.now place) }
{
    !free || keeps(keep, place)
}

/// Opens the elements of a list.
#[cycle(open)]
fn open_elements(
    alloc: Global,
    keeping: Keeping,
    free: bool,
    above: usize,
    place: usize,
    elements: &[Tree],
) -> Result<OpenedElements, AllocError>
    requires known { IsKnown keeping }
    ensures { IfOk result (openings.AreOpenedElements keeping.entry free above place elements.now) }
{
    let mut made = Vec::with_capacity(alloc, elements.len())?;
    let mut declared = 0;
    let mut others = 0;
    for i in 0..elements.len() {
        let over = plus(above, declared)?;
        let next = plus(place, others)?;
        let kept = stays(keeping.keep, free, next);
        let opened = open_member(alloc, keeping, free, kept, over, next, &elements[i])?;
        let more_declared = plus(declared, opened.declared)?;
        let more_others = plus(others, opened.others)?;
        push_kept(&mut made, kept, opened.tree)?;
        declared = more_declared;
        others = more_others;
    }
    Ok(OpenedElements {
        elements: made,
        declared,
        others,
    })
}

/// Says whether the end of a list is open.
fn is_open_end(keep: &[bool], free: bool, place: usize, unfinished: bool) -> bool
    ensures { result ≡ (unfinished || (free && not (kept_in keep.now place))) }
{
    unfinished || free && !keeps(keep, place)
}

/// Says whether the end of a list is a place.
pub(crate) fn is_end_place(free: bool, unfinished: bool) -> bool
    ensures { result ≡ (free && not unfinished) }
{
    free && !unfinished
}

/// Opens a list.
#[cycle(open)]
fn open_list(
    alloc: Global,
    keeping: Keeping,
    list: u32,
    above: usize,
    place: usize,
    elements: &[Tree],
    unfinished: bool,
) -> Result<Opened, AllocError>
    requires known { IsKnown keeping }
    ensures { IfOk result (openings.IsOpenedContents keeping.entry above place (list_of list elements.now unfinished)) }
{
    let free = goes_on(keeping.definition, list);
    let opened = open_elements(alloc, keeping, free, above, place, elements)?;
    let end = plus(place, opened.others)?;
    let open = is_open_end(keeping.keep, free, end, unfinished);
    let last = one_if(is_end_place(free, unfinished));
    let others = plus(opened.others, last)?;
    let declared = opened.declared;
    let tree = Tree::new(
        alloc,
        Shape::List {
            list,
            elements: Seq::of(opened.elements),
            unfinished: open,
        },
    )?;
    Ok(Opened {
        tree,
        declared,
        others,
    })
}

/// Opens what is below the operator or list at the top. `above` is the number of the first declared name, `place` that
/// of the first other place.
#[cycle(open)]
fn open_contents(
    alloc: Global,
    keeping: Keeping,
    above: usize,
    place: usize,
    tree: &Tree,
) -> Result<Opened, AllocError>
    requires known { IsKnown keeping }
    ensures { IfOk result (openings.IsOpenedContents keeping.entry above place tree.now) }
{
    match tree.shape() {
        Shape::Op { op, parts } => {
            let opened = open_parts(alloc, keeping, *op, above, place, parts.as_slice())?;
            let declared = opened.declared;
            let others = opened.others;
            let tree = Tree::new(
                alloc,
                Shape::Op {
                    op: *op,
                    parts: Seq::of(opened.parts),
                },
            )?;
            Ok(Opened {
                tree,
                declared,
                others,
            })
        }
        Shape::List {
            list,
            elements,
            unfinished,
        } => {
            let opened = open_list(
                alloc,
                keeping,
                *list,
                above,
                place,
                elements.as_slice(),
                *unfinished,
            )?;
            Ok(opened)
        }
        Shape::Hole { .. } => {
            let same = tree.share()?;
            Ok(Opened {
                tree: same,
                declared: 0,
                others: 0,
            })
        }
    }
}

/// Opens a whole tree: it returns the tree of the kept places, and how many places there are. An element of a list that
/// may be unfinished is shared where all its places are kept. The call walks over the tree once to make the rest, and
/// once for each such list around a node to count its places.
pub(crate) fn open(alloc: Global, keeping: Keeping, tree: &Tree) -> Result<Opened, AllocError>
    requires known { IsKnown keeping }
    ensures { IfOk result (openings.IsOpenedTree keeping.entry tree.now) }
{
    if has_no_placeholder(keeping, tree) {
        let both = open_both(alloc, keeping, 0, tree)?;
        Ok(both)
    } else {
        let child = open_child(alloc, keeping, 0, 0, tree)?;
        Ok(child)
    }
}
