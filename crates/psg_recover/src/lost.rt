//! The tree without the elements that were lost in reading, and the paths in it.
ghost use Rattle.std.specs.Prelude.{◌≡◌, ◌||◌, ◌++◌, ◌∷◌, [], IfOk, OnOk, Some, map};
ghost use Rattle.std.specs.List.{list_any};
ghost use Rattle.std.specs.Option.{option_copied};
ghost use Rattle.psg_grammar.specs.Fragments.{hole, operator};
ghost use Rattle.psg_tree.specs.Shapes as shapes;
ghost use Rattle.psg_tree.specs.Shapes.{with_parts};
ghost use Rattle.psg_known.specs.Knowns.{IsKnown};
ghost use Rattle.psg_recover.specs.Lost as lost;

use psg_known::known::{Known, declares};
use psg_known::numbers::step_of;
use psg_terms::Seq;
use psg_tree::{Part, Shape, Tree, child_at};
use std::alloc::{AllocError, Global};

/// Says whether one of them holds.
pub(crate) fn either(left: bool, right: bool) -> bool
    ensures { result ≡ (left || right) }
{
    left || right
}

/// Says whether the tree is a placeholder of a phylum that declares: an element that was lost.
pub fn is_lost(known: Known, tree: &Tree) -> bool
    requires known { IsKnown known }
    ensures { result ≡ lost.is_lost known.entry.definition.now tree.now }
{
    match tree.shape() {
        Shape::Hole { phylum } => declares(known, *phylum),
        Shape::Op { .. } => false,
        Shape::List { .. } => false,
    }
}

/// Returns the placeholder of the phylum.
fn hole_of(alloc: Global, phylum: u32) -> Result<Tree, AllocError>
    ensures { IfOk result (λ tree. tree ≡ hole phylum) }
{
    let tree = Tree::new(alloc, Shape::Hole { phylum })?;
    Ok(tree)
}

/// Returns the node of the operator with these parts.
fn node_of(alloc: Global, op: u32, parts: Vec<Part>) -> Result<Tree, AllocError>
    ensures { IfOk result (λ tree. tree ≡ with_parts (operator op) parts.items) }
{
    let parts = Seq::of(parts);
    let tree = Tree::new(alloc, Shape::Op { op, parts })?;
    Ok(tree)
}

/// Returns the list with these elements.
fn list_of(
    alloc: Global,
    list: u32,
    elements: Vec<Tree>,
    unfinished: bool,
) -> Result<Tree, AllocError>
    ensures { IfOk result (λ tree. tree ≡ shapes.list_of list elements.items unfinished) }
{
    let elements = Seq::of(elements);
    let tree = Tree::new(
        alloc,
        Shape::List {
            list,
            elements,
            unfinished,
        },
    )?;
    Ok(tree)
}

/// Leaves lost elements out of the part.
#[cycle(lost)]
fn left_part(alloc: Global, known: Known, part: &Part) -> Result<Part, AllocError>
    requires known { IsKnown known }
    ensures { IfOk result (λ made. made ≡ lost.left_part known.entry.definition.now part.now) }
{
    match part {
        Part::Sub(tree) => {
            let own = left_out(alloc, known, tree)?;
            Ok(Part::Sub(own))
        }
        Part::Name(name) => {
            let own = name.share()?;
            Ok(Part::Name(own))
        }
        Part::Number(number) => Ok(Part::Number(*number)),
        Part::Text(text) => {
            let own = text.share()?;
            Ok(Part::Text(own))
        }
    }
}

/// Leaves lost elements out of the parts.
#[cycle(lost)]
fn left_parts(alloc: Global, known: Known, parts: &[Part]) -> Result<Vec<Part>, AllocError>
    requires known { IsKnown known }
    ensures { IfOk result (λ made. made.items ≡ map (lost.left_part known.entry.definition.now) parts.now) }
{
    let mut made = Vec::with_capacity(alloc, parts.len())?;
    for i in 0..parts.len() {
        let own = left_part(alloc, known, &parts[i])?;
        made.push(own)?;
    }
    Ok(made)
}

/// Says whether one of the elements is lost.
fn has_lost(known: Known, elements: &[Tree]) -> bool
    requires known { IsKnown known }
    ensures { result ≡ list_any (lost.is_lost known.entry.definition.now) elements.now }
{
    for i in 0..elements.len() {
        if is_lost(known, &elements[i]) {
            return true;
        }
    }
    false
}

/// Adds the element without its own lost elements, if it is not lost itself.
#[cycle(lost)]
fn push_left(
    alloc: Global,
    known: Known,
    element: &Tree,
    made: &mut Vec<Tree>,
) -> Result<(), AllocError>
    requires known { IsKnown known }
    ensures { OnOk result (made.new.items
        ≡ made.old.items ++ lost.left_elements known.entry.definition.now (element.now ∷ [])) }
{
    if is_lost(known, element) {
        return Ok(());
    }
    let own = left_out(alloc, known, element)?;
    made.push(own)?;
    Ok(())
}

/// Leaves lost elements out of the elements.
#[cycle(lost)]
fn left_elements(alloc: Global, known: Known, elements: &[Tree]) -> Result<Vec<Tree>, AllocError>
    requires known { IsKnown known }
    ensures { IfOk result (λ left. left.items ≡ lost.left_elements known.entry.definition.now elements.now) }
{
    let mut made = Vec::new(alloc);
    for i in 0..elements.len() {
        push_left(alloc, known, &elements[i], &mut made)?;
    }
    Ok(made)
}

/// Returns the tree without lost elements. A list of which an element was lost is unfinished. It visits each node.
#[cycle(lost)]
pub fn left_out(alloc: Global, known: Known, tree: &Tree) -> Result<Tree, AllocError>
    requires known { IsKnown known }
    ensures { IfOk result (λ made. made ≡ lost.left_out known.entry.definition.now tree.now) }
{
    match tree.shape() {
        Shape::Hole { phylum } => {
            let tree = hole_of(alloc, *phylum)?;
            Ok(tree)
        }
        Shape::Op { op, parts } => {
            let made = left_parts(alloc, known, parts.as_slice())?;
            let tree = node_of(alloc, *op, made)?;
            Ok(tree)
        }
        Shape::List {
            list,
            elements,
            unfinished,
        } => {
            let left = left_elements(alloc, known, elements.as_slice())?;
            let misses = has_lost(known, elements.as_slice());
            let open = either(*unfinished, misses);
            let tree = list_of(alloc, *list, left, open)?;
            Ok(tree)
        }
    }
}

/// Returns the number that the element `number` of what is left has among all elements.
fn element_back(known: Known, elements: &[Tree], number: u32) -> usize
    requires known { IsKnown known }
    ensures { result ≡ lost.element_back known.entry.definition.now number elements.now }
{
    let mut left = number;
    for place in 0..elements.len() {
        if !is_lost(known, &elements[place]) {
            if left == 0 {
                return place;
            }
            left -= 1;
        }
    }
    elements.len()
}

/// Returns the number that the child `number` of what is left of the tree has in the tree.
fn number_back(known: Known, tree: &Tree, number: u32) -> usize
    requires known { IsKnown known }
    ensures { result ≡ lost.number_back known.entry.definition.now number tree.now }
{
    match tree.shape() {
        Shape::List { elements, .. } => element_back(known, elements.as_slice(), number),
        Shape::Op { .. } => number as usize,
        Shape::Hole { .. } => number as usize,
    }
}

/// Returns the number that the child `number` of what is left of the tree has in the tree, and the number itself where
/// there is no tree.
fn step_back(known: Known, tree: Option<&Tree>, number: u32) -> Result<u32, AllocError>
    requires known { IsKnown known }
    ensures { IfOk result (λ step. step ≡ lost.step_back known.entry.definition.now (option_copied tree.entry) number) }
{
    match tree {
        Some(node) => {
            let step = step_of(number_back(known, node, number))?;
            Ok(step)
        }
        None => Ok(number),
    }
}

/// Returns the child of the number, if there is a tree and it has one.
fn child_of(tree: Option<&Tree>, number: u32) -> Option<&Tree>
    ensures { option_copied result ≡ lost.child_of (option_copied tree.entry) number }
{
    match tree {
        Some(node) => child_at(node, number),
        None => None,
    }
}

/// Returns the path in the tree of the node that the path leads to in what is left of it. It walks along the path, and
/// over the elements before it.
pub fn path_back(
    alloc: Global,
    known: Known,
    tree: &Tree,
    path: &[u32],
) -> Result<Vec<u32>, AllocError>
    requires known { IsKnown known }
    ensures { IfOk result (λ back. back.items ≡ lost.path_back known.entry.definition.now (Some tree.now) path.now) }
{
    let mut back = Vec::with_capacity(alloc, path.len())?;
    let mut node = Some(tree);
    for step in path {
        let own = step_back(known, node, *step)?;
        back.push(own)?;
        node = child_of(node, own);
    }
    Ok(back)
}
