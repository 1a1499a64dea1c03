//! The elements of a node's fixed lists.
ghost use Rattle.std.specs.Prelude.{◌≡◌, ◌++◌, OnOk};
ghost use Rattle.psg_grammar.specs.Fragments.{operator};
ghost use Rattle.psg_grammar.specs.Lookups.{operator_at};
ghost use Rattle.psg_tree.specs.Shapes.{with_parts};
ghost use Rattle.psg_places.specs.Places as places;
ghost use Rattle.psg_known.specs.Knowns.{IsKnown};
ghost use Rattle.psg_uses.specs.Members as members;

use crate::names::{below, children_in};
use psg_grammar::Definition;
use psg_known::known::{Known, declares};
use psg_known::numbers::{plus, step_of};
use psg_tree::{Part, Path, Shape, Tree};
use std::alloc::{AllocError, Global};

/// An element of a list that can't be unfinished.
#[derive(Drop)]
pub struct Member {
    /// The path of the list.
    pub list: Path,
    /// The number of the element, from 0.
    pub number: u32,
}

/// Says whether trees of the list may be unfinished.
fn goes_on(definition: &Definition, list: u32) -> bool
    ensures { result ≡ places.may_go_on definition.now list }
{
    match definition.lists.as_slice().get(list as usize) {
        Some(kind) => kind.unfinished,
        None => false,
    }
}

/// Says whether the operator is one of a phylum that declares.
fn is_declaring_operator(known: Known, op: u32) -> bool
    requires known { IsKnown known }
    ensures { result ≡ places.declares_by known.entry.definition.now (operator_at known.entry.definition.now op) }
{
    match known.definition.operators.as_slice().get(op as usize) {
        Some(operator) => declares(known, operator.phylum),
        None => false,
    }
}

/// Says whether the tree is an operator that declares.
fn is_declaring(known: Known, tree: &Tree) -> bool
    requires known { IsKnown known }
    ensures { result ≡ members.is_declaring known.entry.definition.now tree.now }
{
    match tree.shape() {
        Shape::Op { op, .. } => is_declaring_operator(known, *op),
        Shape::List { .. } => false,
        Shape::Hole { .. } => false,
    }
}

/// Adds the element of the number, and those of its own fixed lists where it declares.
#[cycle(members)]
fn add_member(
    alloc: Global,
    known: Known,
    list: &[u32],
    number: usize,
    element: &Tree,
    found: &mut Vec<Member>,
) -> Result<(), AllocError>
    requires known { IsKnown known }
    ensures { OnOk result (found.new.items
        ≡ found.old.items ++ members.member_and_own known.entry.definition.now list.now number element.now) }
{
    let own = Path::of(alloc, list)?;
    let step = step_of(number)?;
    found.push(Member {
        list: own,
        number: step,
    })?;
    let declares = is_declaring(known, element);
    if !declares {
        return Ok(());
    }
    let inner = below(alloc, list, number)?;
    add_members(alloc, known, inner.as_slice(), element, found)?;
    Ok(())
}

/// Adds the elements of the list.
#[cycle(members)]
fn add_elements(
    alloc: Global,
    known: Known,
    list: &[u32],
    elements: &[Tree],
    found: &mut Vec<Member>,
) -> Result<(), AllocError>
    requires known { IsKnown known }
    ensures { OnOk result (found.new.items
        ≡ found.old.items ++ members.all_members known.entry.definition.now list.now 0 elements.now) }
{
    for number in 0..elements.len() {
        add_member(alloc, known, list, number, &elements[number], found)?;
    }
    Ok(())
}

/// Adds the elements of the child, if it is a fixed list.
#[cycle(members)]
fn add_child(
    alloc: Global,
    known: Known,
    path: &[u32],
    child: usize,
    tree: &Tree,
    found: &mut Vec<Member>,
) -> Result<(), AllocError>
    requires known { IsKnown known }
    ensures { OnOk result (found.new.items
        ≡ found.old.items ++ members.child_members known.entry.definition.now path.now child tree.now) }
{
    match tree.shape() {
        Shape::List { list, elements, .. } => {
            let free = goes_on(known.definition, *list);
            if free {
                return Ok(());
            }
            let inner = below(alloc, path, child)?;
            add_elements(alloc, known, inner.as_slice(), elements.as_slice(), found)?;
            Ok(())
        }
        Shape::Op { .. } => Ok(()),
        Shape::Hole { .. } => Ok(()),
    }
}

/// Adds the elements of the part, if it is a fixed list, and returns how many children the part is.
#[cycle(members)]
fn add_part(
    alloc: Global,
    known: Known,
    path: &[u32],
    child: usize,
    part: &Part,
    found: &mut Vec<Member>,
) -> Result<(), AllocError>
    requires known { IsKnown known }
    ensures { OnOk result (found.new.items
        ≡ found.old.items ++ members.part_members known.entry.definition.now path.now child part.now) }
{
    match part {
        Part::Sub(tree) => {
            add_child(alloc, known, path, child, tree, found)?;
            Ok(())
        }
        Part::Name(_) => Ok(()),
        Part::Number(_) => Ok(()),
        Part::Text(_) => Ok(()),
    }
}

/// Adds the elements of the fixed lists among the parts of the operator at the path.
#[cycle(members)]
fn add_parts(
    alloc: Global,
    known: Known,
    path: &[u32],
    parts: &[Part],
    found: &mut Vec<Member>,
) -> Result<(), AllocError>
    requires known { IsKnown known }
    ensures { OnOk result (found.new.items
        ≡ found.old.items ++ members.fixed_members known.entry.definition.now path.now
        (with_parts (operator 0) parts.now)) }
{
    let mut children = 0;
    for place in 0..parts.len() {
        let part = &parts[place];
        add_part(alloc, known, path, children, part, found)?;
        let own = children_in(part);
        let more = plus(children, own)?;
        children = more;
    }
    Ok(())
}

/// Adds the elements of the fixed lists of the operator at the path, and of those of its elements that declare; none
/// where the tree is no operator.
#[cycle(members)]
pub fn add_members(
    alloc: Global,
    known: Known,
    path: &[u32],
    tree: &Tree,
    found: &mut Vec<Member>,
) -> Result<(), AllocError>
    requires known { IsKnown known }
    ensures { OnOk result (found.new.items
        ≡ found.old.items ++ members.fixed_members known.entry.definition.now path.now tree.now) }
{
    match tree.shape() {
        Shape::Op { parts, .. } => {
            add_parts(alloc, known, path, parts.as_slice(), found)?;
            Ok(())
        }
        Shape::List { .. } => Ok(()),
        Shape::Hole { .. } => Ok(()),
    }
}
