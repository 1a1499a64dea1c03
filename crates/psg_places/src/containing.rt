//! How many places a tree has besides the declared names that are numbered with those of the operator above it.
ghost use Rattle.std.specs.Prelude.{◌≡◌, ◌+◌, cond, true, IfOk};
ghost use Rattle.psg_grammar.specs.Fragments.{operator};
ghost use Rattle.psg_tree.specs.Shapes.{list_of, with_parts};
ghost use Rattle.psg_places.specs.Openings as openings;
ghost use Rattle.psg_places.specs.Openings.{IsKnown};
ghost use Rattle.psg_places.specs.Places as places;

use crate::counting::{declared, goes_on, has_no_placeholder, is_declared, is_hole};
use crate::numbers::{one_if, plus};
use crate::opening::{Keeping, is_end_place};
use psg_tree::{Part, Shape, Tree};
use std::alloc::AllocError;

/// Returns 0 if it is so, and else 1.
fn none_if(so: bool) -> usize
    ensures { result ≡ cond so 0 1 }
{
    if so { 0 } else { 1 }
}

/// Counts the places of the part, without those that are numbered with the declared names of its operator.
#[cycle(contained)]
fn part_contained(keeping: Keeping, declares: bool, part: &Part) -> Result<usize, AllocError>
    requires known { IsKnown keeping }
    ensures { IfOk result (λ n. n ≡ openings.part_places keeping.entry.definition.now declares part.now) }
{
    match part {
        Part::Sub(tree) => {
            let own = child_contained(keeping, tree)?;
            Ok(own)
        }
        Part::Name(_) => Ok(none_if(declares)),
        Part::Number(_) => Ok(0),
        Part::Text(_) => Ok(0),
    }
}

/// Counts the places of an operator with these parts, without its declared names.
#[cycle(contained)]
fn parts_contained(keeping: Keeping, op: u32, parts: &[Part]) -> Result<usize, AllocError>
    requires known { IsKnown keeping }
    ensures { IfOk result (λ n. n ≡ places.content_count keeping.entry.definition.now
        (with_parts (operator op) parts.now)) }
{
    let mut total = 0;
    for i in 0..parts.len() {
        let declares = is_declared(keeping.definition, op, i);
        let own = part_contained(keeping, declares, &parts[i])?;
        let next = plus(total, own)?;
        total = next;
    }
    Ok(total)
}

/// Counts the places of the elements of a list.
#[cycle(contained)]
fn elements_contained(keeping: Keeping, free: bool, elements: &[Tree]) -> Result<usize, AllocError>
    requires known { IsKnown keeping }
    ensures { IfOk result (λ n. n ≡ openings.elements_size keeping.entry.definition.now free elements.now) }
{
    let mut total = 0;
    for i in 0..elements.len() {
        let own = element_contained(keeping, free, &elements[i])?;
        let next = plus(total, own)?;
        total = next;
    }
    Ok(total)
}

/// Counts the places of an element.
#[cycle(contained)]
fn element_contained(keeping: Keeping, free: bool, element: &Tree) -> Result<usize, AllocError>
    requires known { IsKnown keeping }
    ensures { IfOk result (λ n. n ≡ openings.own_size keeping.entry.definition.now free element.now) }
{
    if free {
        let own = free_contained(keeping, element)?;
        return Ok(own);
    }
    let own = child_contained(keeping, element)?;
    Ok(own)
}

/// Counts the places of an element of a list that may be unfinished: itself, and those in it.
#[cycle(contained)]
pub(crate) fn free_contained(keeping: Keeping, element: &Tree) -> Result<usize, AllocError>
    requires known { IsKnown keeping }
    ensures { IfOk result (λ n. n ≡ openings.own_size keeping.entry.definition.now true element.now) }
{
    if has_no_placeholder(keeping, element) {
        let own = both_contained(keeping, element)?;
        let all = plus(1, own)?;
        return Ok(all);
    }
    let own = child_contained(keeping, element)?;
    let all = plus(1, own)?;
    Ok(all)
}

/// Counts the declared names of the tree's operator, and its other places.
#[cycle(contained)]
fn both_contained(keeping: Keeping, tree: &Tree) -> Result<usize, AllocError>
    requires known { IsKnown keeping }
    ensures { IfOk result (λ n. n ≡ places.declared_count keeping.entry.definition.now tree.now
        + places.content_count keeping.entry.definition.now tree.now) }
{
    let names = declared(keeping, tree)?;
    let own = contained(keeping, tree)?;
    let all = plus(names, own)?;
    Ok(all)
}

/// Counts the places of a child of an operator, or of an element of a list that can't be unfinished.
#[cycle(contained)]
fn child_contained(keeping: Keeping, tree: &Tree) -> Result<usize, AllocError>
    requires known { IsKnown keeping }
    ensures { IfOk result (λ n. n ≡ places.child_size keeping.entry.definition.now tree.now
        (places.content_count keeping.entry.definition.now tree.now)) }
{
    if has_no_placeholder(keeping, tree) {
        let own = contained(keeping, tree)?;
        return Ok(own);
    }
    if is_hole(tree) {
        return Ok(0);
    }
    let own = both_contained(keeping, tree)?;
    let all = plus(1, own)?;
    Ok(all)
}

/// Counts the places of a list.
#[cycle(contained)]
fn list_contained(
    keeping: Keeping,
    list: u32,
    elements: &[Tree],
    unfinished: bool,
) -> Result<usize, AllocError>
    requires known { IsKnown keeping }
    ensures { IfOk result (λ n. n ≡ places.content_count keeping.entry.definition.now
        (list_of list elements.now unfinished)) }
{
    let free = goes_on(keeping.definition, list);
    let own = elements_contained(keeping, free, elements)?;
    let last = one_if(is_end_place(free, unfinished));
    let all = plus(own, last)?;
    Ok(all)
}

/// Counts the places below the operator or list at the top, without the declared names of its operator.
#[cycle(contained)]
fn contained(keeping: Keeping, tree: &Tree) -> Result<usize, AllocError>
    requires known { IsKnown keeping }
    ensures { IfOk result (λ n. n ≡ places.content_count keeping.entry.definition.now tree.now) }
{
    match tree.shape() {
        Shape::Op { op, parts } => {
            let own = parts_contained(keeping, *op, parts.as_slice())?;
            Ok(own)
        }
        Shape::List {
            list,
            elements,
            unfinished,
        } => {
            let own = list_contained(keeping, *list, elements.as_slice(), *unfinished)?;
            Ok(own)
        }
        Shape::Hole { .. } => Ok(0),
    }
}
