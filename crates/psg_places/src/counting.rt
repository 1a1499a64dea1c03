//! The tops of trees, and how many names of a tree are numbered with the declared names of the operator above it.
ghost use Rattle.std.specs.Prelude.{◌≡◌, Some, cond, slice_get, IfOk};
ghost use Rattle.psg_grammar.specs.Fragments.{operator};
ghost use Rattle.psg_grammar.specs.Lookups.{is_declares, items_of, operator_at, part_items};
ghost use Rattle.psg_tree.specs.Shapes.{with_parts};
ghost use Rattle.psg_places.specs.Openings as openings;
ghost use Rattle.psg_places.specs.Openings.{IsKnown};
ghost use Rattle.psg_places.specs.Places as places;

use crate::numbers::{one_if, plus};
use crate::opening::Keeping;
use psg_grammar::{Definition, Item, is_part};
use psg_tree::{Part, Shape, Tree};
use std::alloc::AllocError;

/// Says whether the item is a name position that declares.
fn is_declaring_item(item: &Item) -> bool
    ensures { result ≡ is_declares (Some item.now) }
{
    match item {
        Item::Declares(_) => true,
        _ => false,
    }
}

/// Says whether the part of the number is a name that is declared.
fn declares_at(items: &[Item], number: usize) -> bool
    ensures { result ≡ is_declares (slice_get (part_items items.now) number) }
{
    let mut left = number;
    for item in items {
        if is_part(item) {
            if left == 0 {
                return is_declaring_item(item);
            }
            left -= 1;
        }
    }
    false
}

/// Says whether the part of the number of the operator is a name that is declared.
pub(crate) fn is_declared(definition: &Definition, op: u32, number: usize) -> bool
    ensures { result ≡ is_declares (slice_get (items_of (operator_at definition.now op)) number) }
{
    match definition.operators.as_slice().get(op as usize) {
        Some(operator) => declares_at(operator.items.as_slice(), number),
        None => false,
    }
}

/// Says whether a tree of the list may be unfinished.
pub(crate) fn goes_on(definition: &Definition, list: u32) -> bool
    ensures { result ≡ places.may_go_on definition.now list }
{
    match definition.lists.as_slice().get(list as usize) {
        Some(kind) => kind.unfinished,
        None => false,
    }
}

/// Says whether trees of the operator's phylum declare.
fn declaring_operator(keeping: Keeping, op: u32) -> bool
    requires known { IsKnown keeping }
    ensures { result ≡ places.declares_by keeping.entry.definition.now (operator_at keeping.entry.definition.now op) }
{
    match keeping.definition.operators.as_slice().get(op as usize) {
        Some(operator) => has_spaces(keeping.spaces, operator.phylum),
        None => false,
    }
}

/// Says whether the table has a space for the phylum.
fn has_spaces(spaces: &[Vec<u32>], phylum: u32) -> bool
    ensures { result ≡ openings.has_spaces spaces.now phylum }
{
    match spaces.get(phylum as usize) {
        Some(found) => !found.as_slice().is_empty(),
        None => false,
    }
}

/// Returns the phylum of the operator, and 0 where there is none.
fn phylum_of(definition: &Definition, op: u32) -> u32
    ensures { result ≡ places.phylum_in (operator_at definition.now op) }
{
    match definition.operators.as_slice().get(op as usize) {
        Some(operator) => operator.phylum,
        None => 0,
    }
}

/// Says whether no placeholder can take the place of the tree: whether it is a list, or an operator that declares.
pub(crate) fn has_no_placeholder(keeping: Keeping, tree: &Tree) -> bool
    requires known { IsKnown keeping }
    ensures { result ≡ places.has_no_placeholder keeping.entry.definition.now tree.now }
{
    match tree.shape() {
        Shape::Op { op, .. } => declaring_operator(keeping, *op),
        Shape::List { .. } => true,
        Shape::Hole { .. } => false,
    }
}

/// Returns the phylum of the operator at the top, and 0 where there is none.
pub(crate) fn phylum_at(definition: &Definition, tree: &Tree) -> u32
    ensures { result ≡ places.phylum_of definition.now tree.now }
{
    match tree.shape() {
        Shape::Op { op, .. } => phylum_of(definition, *op),
        Shape::List { .. } => 0,
        Shape::Hole { .. } => 0,
    }
}

/// Says whether the tree is a placeholder.
pub(crate) fn is_hole(tree: &Tree) -> bool
    ensures { result ≡ places.is_hole tree.now }
{
    match tree.shape() {
        Shape::Op { .. } => false,
        Shape::List { .. } => false,
        Shape::Hole { .. } => true,
    }
}

/// Counts the names of the part that are numbered with the declared names of its operator.
#[cycle(declared)]
fn declared_part(keeping: Keeping, declares: bool, part: &Part) -> Result<usize, AllocError>
    requires known { IsKnown keeping }
    ensures { IfOk result (λ n. n ≡ openings.part_declared keeping.entry.definition.now declares part.now) }
{
    match part {
        Part::Sub(tree) => {
            if has_no_placeholder(keeping, tree) {
                let own = declared(keeping, tree)?;
                return Ok(own);
            }
            Ok(0)
        }
        Part::Name(_) => Ok(one_if(declares)),
        Part::Number(_) => Ok(0),
        Part::Text(_) => Ok(0),
    }
}

/// Counts the declared names of an operator with these parts, and those that are numbered with them.
#[cycle(declared)]
fn declared_parts(keeping: Keeping, op: u32, parts: &[Part]) -> Result<usize, AllocError>
    requires known { IsKnown keeping }
    ensures { IfOk result (λ n. n ≡ places.declared_count keeping.entry.definition.now
        (with_parts (operator op) parts.now)) }
{
    let mut total = 0;
    for i in 0..parts.len() {
        let declares = is_declared(keeping.definition, op, i);
        let own = declared_part(keeping, declares, &parts[i])?;
        let next = plus(total, own)?;
        total = next;
    }
    Ok(total)
}

/// Counts the names of elements that are numbered with the declared names of the operator above their list, which can't
/// be unfinished.
#[cycle(declared)]
fn declared_elements(keeping: Keeping, elements: &[Tree]) -> Result<usize, AllocError>
    requires known { IsKnown keeping }
    ensures { IfOk result (λ n. n ≡ openings.elements_declared keeping.entry.definition.now elements.now) }
{
    let mut total = 0;
    for i in 0..elements.len() {
        let own = declared_element(keeping, &elements[i])?;
        let next = plus(total, own)?;
        total = next;
    }
    Ok(total)
}

/// Counts the names of such an element.
#[cycle(declared)]
fn declared_element(keeping: Keeping, element: &Tree) -> Result<usize, AllocError>
    requires known { IsKnown keeping }
    ensures { IfOk result (λ n. n ≡ openings.fixed_declared keeping.entry.definition.now element.now) }
{
    if has_no_placeholder(keeping, element) {
        let own = declared(keeping, element)?;
        return Ok(own);
    }
    Ok(0)
}

/// Counts the declared names of the tree's operator, and those that are numbered with them.
#[cycle(declared)]
pub(crate) fn declared(keeping: Keeping, tree: &Tree) -> Result<usize, AllocError>
    requires known { IsKnown keeping }
    ensures { IfOk result (λ n. n ≡ places.declared_count keeping.entry.definition.now tree.now) }
{
    match tree.shape() {
        Shape::Op { op, parts } => {
            let own = declared_parts(keeping, *op, parts.as_slice())?;
            Ok(own)
        }
        Shape::List { list, elements, .. } => {
            if goes_on(keeping.definition, *list) {
                return Ok(0);
            }
            let own = declared_elements(keeping, elements.as_slice())?;
            Ok(own)
        }
        Shape::Hole { .. } => Ok(0),
    }
}
