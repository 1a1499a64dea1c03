//! The regions around a node, and which declaration a name is linked to.
ghost use Rattle.std.specs.Prelude.{◌≡◌, ◌≤◌, ◌&&◌, ◌||◌, IfOk, Some, length, take};
ghost use Rattle.std.specs.List.{list_any};
ghost use Rattle.psg_grammar.specs.declared.types.Kind.TheVariants as kinds;
ghost use Rattle.psg_grammar.specs.Declaring.{is_declaring};
ghost use Rattle.psg_grammar.specs.Lookups as lookups;
ghost use Rattle.psg_grammar.specs.Lookups.{operator_at};
ghost use Rattle.psg_grammar.specs.Regions.{unfinished_inside};
ghost use Rattle.psg_uses.specs.ByParts as by_parts;
ghost use Rattle.psg_known.specs.Knowns.{IsKnown};
ghost use Rattle.psg_uses.specs.Regions as regions;

use crate::names::{Gathering, Written, gather};
use psg_grammar::Definition;
use psg_known::known::Known;
use psg_tree::{Part, Path, Shape, Tree, at};
use std::alloc::{AllocError, Global};

/// Says whether the operator begins a region.
fn scopes(definition: &Definition, op: u32) -> bool
    ensures { result ≡ lookups.scopes (operator_at definition.now op) }
{
    match definition.operators.as_slice().get(op as usize) {
        Some(operator) => operator.scope,
        None => false,
    }
}

/// Says whether the tree is a scope operator.
pub fn is_scope(definition: &Definition, tree: &Tree) -> bool
    ensures { result ≡ lookups.is_scope definition.now tree.now }
{
    match tree.shape() {
        Shape::Op { op, .. } => scopes(definition, *op),
        Shape::List { .. } => false,
        Shape::Hole { .. } => false,
    }
}

/// Returns the names that are declared in the region that begins at the path; none where no region begins there.
fn declared_of(
    alloc: Global,
    definition: &Definition,
    tree: &Tree,
    path: &[u32],
) -> Result<Vec<Written>, AllocError>
    ensures { IfOk result (λ found. found.items ≡ regions.declared_of definition.now tree.now path.now) }
{
    let mut found = Vec::new(alloc);
    let own = Path::of(alloc, path)?;
    let Some(node) = at(tree, &own) else {
        return Ok(found);
    };
    let begins = begins_with(definition, path, node);
    if !begins {
        return Ok(found);
    }
    let how = Gathering {
        definition,
        declared: true,
        inside: false,
    };
    gather(alloc, how, path, node, &mut found)?;
    Ok(found)
}

/// Says whether the declared name has the key of the name and is at another place.
fn is_other(declared: &Written, name: &Written) -> bool
    ensures { result ≡ regions.is_other name.now declared.now }
{
    declared.has_key_of(name) && !declared.is_at(name)
}

/// Returns the first of the declared names that has the key of the name and is at another place.
fn first_other(declared: Vec<Written>, name: &Written) -> Option<Written>
    ensures { result ≡ regions.first_other name.now declared.items }
{
    for one in declared {
        if is_other(&one, name) {
            return Some(one);
        }
    }
    None
}

/// Returns the other declaration of the name in the region that begins at the path, if there is one.
fn other_of(
    alloc: Global,
    definition: &Definition,
    tree: &Tree,
    path: &[u32],
    name: &Written,
) -> Result<Option<Written>, AllocError>
    ensures { IfOk result (λ found. found
        ≡ regions.first_other name.now (regions.declared_of definition.now tree.now path.now)) }
{
    let declared = declared_of(alloc, definition, tree, path)?;
    let found = first_other(declared, name);
    Ok(found)
}

/// Returns the other declaration of the name in the innermost region around it that has one, also past a region that
/// may still declare it. It walks over the regions around.
pub fn declaration_of(
    alloc: Global,
    definition: &Definition,
    tree: &Tree,
    name: &Written,
) -> Result<Option<Written>, AllocError>
    ensures { IfOk result (λ found. found ≡ regions.declaration_of definition.now tree.now name.now) }
{
    let steps = name.path.steps();
    let mut left = steps.len();
    'regions: while left > 0 {
        let found = other_of(alloc, definition, tree, &steps[..left], name)?;
        if let Some(declared) = found {
            return Ok(Some(declared));
        }
        left -= 1;
    }
    let outermost = other_of(alloc, definition, tree, &[], name)?;
    Ok(outermost)
}

/// Says whether the node, which is at the path, begins a region: whether it is a scope operator, or the root.
pub(crate) fn begins_with(definition: &Definition, path: &[u32], node: &Tree) -> bool
    ensures { result ≡ regions.begins_with definition.now path.now (Some node.now) }
{
    is_scope(definition, node) || path.is_empty()
}

/// Says whether the node at the path begins a region: whether it is a scope operator, or the root.
fn begins_region(
    alloc: Global,
    definition: &Definition,
    tree: &Tree,
    path: &[u32],
) -> Result<bool, AllocError>
    ensures { IfOk result (λ begins. begins ≡ regions.begins_region definition.now tree.now path.now) }
{
    let own = Path::of(alloc, path)?;
    match at(tree, &own) {
        Some(node) => {
            let begins = begins_with(definition, path, node);
            Ok(begins)
        }
        None => Ok(false),
    }
}

/// Returns how many steps of the path lead to the region around the node at its end. It walks along the path for each
/// of its steps.
pub fn region_of(
    alloc: Global,
    definition: &Definition,
    tree: &Tree,
    path: &[u32],
) -> Result<usize, AllocError>
    ensures inside { IfOk result (λ steps. steps ≤ length path.now) }
    ensures region { IfOk result (λ steps. take steps path.now ≡ regions.region_of definition.now tree.now path.now) }
{
    let mut left = path.len();
    'regions: while left > 0 {
        let begins = begins_region(alloc, definition, tree, &path[..left])?;
        if begins {
            return Ok(left);
        }
        left -= 1;
    }
    Ok(left)
}

/// Returns the other declaration of the name, which is declared itself, in its own region, if there is one. It walks
/// over that region.
pub fn declared_again(
    alloc: Global,
    definition: &Definition,
    tree: &Tree,
    name: &Written,
) -> Result<Option<Written>, AllocError>
    ensures { IfOk result (λ found. found ≡ regions.declared_again definition.now tree.now name.now) }
{
    let steps = name.path.steps();
    let length = region_of(alloc, definition, tree, steps)?;
    let found = other_of(alloc, definition, tree, &steps[..length], name)?;
    Ok(found)
}

/// Says whether the number is among these.
pub(crate) fn has_number(numbers: &[u32], number: u32) -> bool
    ensures { result ≡ by_parts.has_number numbers.now number }
{
    numbers.iter().any(|own| *own == number)
}

/// Says whether the table has the space for the phylum.
fn has_space(spaces: &[Vec<u32>], phylum: u32, space: u32) -> bool
    ensures { result ≡ by_parts.has_space spaces.now phylum space }
{
    match spaces.get(phylum as usize) {
        Some(own) => has_number(own.as_slice(), space),
        None => false,
    }
}

/// Says whether elements of the list declare in the space.
fn declares_in(known: Known, list: u32, space: u32) -> bool
    requires known { IsKnown known }
    ensures { result ≡ is_declaring known.entry.definition.now space (kinds.List list) }
{
    match known.definition.lists.as_slice().get(list as usize) {
        Some(kind) => has_space(known.spaces, kind.element, space),
        None => false,
    }
}

/// Says whether a list that ends so may still declare in the space.
fn ends_open(known: Known, list: u32, unfinished: bool, space: u32) -> bool
    requires known { IsKnown known }
    ensures { result ≡ (unfinished && is_declaring known.entry.definition.now space (kinds.List list)) }
{
    unfinished && declares_in(known, list, space)
}

/// Says whether one of both is so.
fn either(one: bool, other: bool) -> bool
    ensures { result ≡ (one || other) }
{
    one || other
}

/// Says whether the child or element has such a list, if it is no scope operator.
#[cycle(unfinished)]
fn is_unfinished_below(known: Known, space: u32, tree: &Tree) -> bool
    requires known { IsKnown known }
    ensures { result ≡ by_parts.unfinished_below known.entry.definition.now space tree.now }
{
    let scope = is_scope(known.definition, tree);
    if scope {
        return false;
    }
    is_unfinished(known, space, tree)
}

/// Says whether one of the elements has such a list.
#[cycle(unfinished)]
fn some_element(known: Known, space: u32, elements: &[Tree]) -> bool
    requires known { IsKnown known }
    ensures { result ≡ list_any (by_parts.unfinished_below known.entry.definition.now space) elements.now }
{
    for place in 0..elements.len() {
        let so = is_unfinished_below(known, space, &elements[place]);
        if so {
            return true;
        }
    }
    false
}

/// Says whether the part has such a list.
#[cycle(unfinished)]
fn is_unfinished_part(known: Known, space: u32, part: &Part) -> bool
    requires known { IsKnown known }
    ensures { result ≡ by_parts.unfinished_part known.entry.definition.now space part.now }
{
    match part {
        Part::Sub(tree) => is_unfinished_below(known, space, tree),
        Part::Name(_) => false,
        Part::Number(_) => false,
        Part::Text(_) => false,
    }
}

/// Says whether one of the parts has such a list.
#[cycle(unfinished)]
fn some_part(known: Known, space: u32, parts: &[Part]) -> bool
    requires known { IsKnown known }
    ensures { result ≡ list_any (by_parts.unfinished_part known.entry.definition.now space) parts.now }
{
    for place in 0..parts.len() {
        let so = is_unfinished_part(known, space, &parts[place]);
        if so {
            return true;
        }
    }
    false
}

/// Says whether an unfinished list of elements that declare in the space is in the tree, not below scope operators that
/// are in it. It visits each node of the region.
#[cycle(unfinished)]
pub fn is_unfinished(known: Known, space: u32, tree: &Tree) -> bool
    requires known { IsKnown known }
    ensures { result ≡ unfinished_inside known.entry.definition.now space tree.now }
{
    match tree.shape() {
        Shape::List {
            list,
            elements,
            unfinished,
        } => {
            let inner = some_element(known, space, elements.as_slice());
            let own = ends_open(known, *list, *unfinished, space);
            either(inner, own)
        }
        Shape::Op { parts, .. } => some_part(known, space, parts.as_slice()),
        Shape::Hole { .. } => false,
    }
}
