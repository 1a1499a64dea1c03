//! The names of a tree, by path.
ghost use Rattle.std.specs.Prelude.{◌≡◌, ◌++◌, IfOk, OnOk, Some, slice_get};
ghost use Rattle.std.specs.Option.{option_copied};
ghost use Rattle.psg_grammar.specs.Fragments.{operator};
ghost use Rattle.psg_grammar.specs.Lookups.{items_of, operator_at, part_items};
ghost use Rattle.psg_grammar.specs.Paths.{node_at};
ghost use Rattle.psg_tree.specs.Shapes.{with_parts};
ghost use Rattle.psg_places.specs.Places.{below as below_of};
ghost use Rattle.psg_uses.specs.ByParts as by_parts;
ghost use Rattle.psg_uses.specs.Naming as naming;
ghost use Rattle.psg_uses.specs.Naming.{names_below, wanted_name};

use crate::regions::is_scope;
use psg_grammar::{Definition, Item, is_part};
use psg_known::numbers::{plus, step_of};
use psg_places::Place;
use psg_terms::Txt;
use psg_tree::{Part, Path, Shape, Tree, at};
use std::alloc::{AllocError, Global};

/// A name of a node, by its number among the names of the node.
#[derive(Drop)]
pub struct Written {
    /// The path of the node.
    pub path: Path,
    /// The number of the name among the names of the node, from 0.
    pub number: usize,
    /// The number of the space.
    pub space: u32,
    /// The name itself.
    pub name: Txt,
}

/// A name, and whether it is declared where it is.
#[derive(Drop)]
pub struct Named {
    /// The name, and where it is.
    pub name: Written,
    /// Whether the name is declared there.
    pub declares: bool,
}

impl Written {
    /// Says whether both have the same key.
    pub fn has_key_of(&self, other: &Written) -> bool
        ensures { result ≡ naming.is_same_key self.now other.now }
    {
        self.space == other.space && self.name.same(&other.name)
    }

    /// Says whether both are at the same place.
    pub fn is_at(&self, other: &Written) -> bool
        ensures { result ≡ naming.is_same_place self.now other.now }
    {
        self.number == other.number && self.path.steps() == other.path.steps()
    }
}

/// What an item says of a name: the space, and whether the name is declared.
#[derive(Clone, Copy)]
pub struct NameItem {
    /// Whether the name is declared there.
    pub declares: bool,
    /// The number of the space.
    pub space: u32,
}

/// Returns what the item says of a name.
fn name_item(item: &Item) -> Option<NameItem>
    ensures { result ≡ naming.name_item (Some item.now) }
{
    match item {
        Item::Declares(space) => Some(NameItem {
            declares: true,
            space: *space,
        }),
        Item::Refers(space) => Some(NameItem {
            declares: false,
            space: *space,
        }),
        _ => None,
    }
}

/// Returns what the items say of the part of the number, if it is a name.
fn nth_item(items: &[Item], number: usize) -> Option<NameItem>
    ensures { result ≡ naming.name_item (slice_get (part_items items.now) number) }
{
    let mut left = number;
    for item in items {
        if is_part(item) {
            if left == 0 {
                return name_item(item);
            }
            left -= 1;
        }
    }
    None
}

/// Returns what the operator says of its part of the number, if it is a name.
pub fn item_of(definition: &Definition, op: u32, number: usize) -> Option<NameItem>
    ensures { result ≡ naming.name_item (slice_get (items_of (operator_at definition.now op)) number) }
{
    match definition.operators.as_slice().get(op as usize) {
        Some(operator) => nth_item(operator.items.as_slice(), number),
        None => None,
    }
}

/// Which names are gathered.
#[derive(Clone, Copy)]
pub struct Gathering<'a> {
    /// The definition.
    pub definition: &'a Definition,
    /// Those that are declared, or those that are used.
    pub declared: bool,
    /// Whether also those below scope operators.
    pub inside: bool,
}

/// Returns the path to the child of the number.
pub fn below(alloc: Global, path: &[u32], child: usize) -> Result<Vec<u32>, AllocError>
    ensures { IfOk result (λ longer. longer.items ≡ below_of path.now child) }
{
    let step = step_of(child)?;
    let mut longer = Vec::from_slice(alloc, path)?;
    longer.push(step)?;
    Ok(longer)
}

/// Says whether names of the item are gathered, where those that are declared are, or those that are used.
fn is_wanted(declared: bool, item: NameItem) -> bool
    ensures { result ≡ naming.is_same declared item.declares }
{
    if declared {
        item.declares
    } else {
        !item.declares
    }
}

/// Adds the name of the node at the path, if it is gathered.
fn add_name(
    alloc: Global,
    how: Gathering,
    item: Option<NameItem>,
    path: &[u32],
    number: usize,
    name: &Txt,
    found: &mut Vec<Written>,
) -> Result<(), AllocError>
    ensures { OnOk result (found.new.items
        ≡ found.old.items ++ wanted_name how.entry.declared item path.now number name.now) }
{
    let Some(own) = item else {
        return Ok(());
    };
    let wanted = is_wanted(how.declared, own);
    if !wanted {
        return Ok(());
    }
    let path = Path::of(alloc, path)?;
    let name = name.share()?;
    found.push(Written {
        path,
        number,
        space: own.space,
        name,
    })?;
    Ok(())
}

/// Says whether the names of the tree are passed over.
fn is_passed(how: Gathering, tree: &Tree) -> bool
    ensures { result ≡ by_parts.is_passed how.entry tree.now }
{
    !how.inside && is_scope(how.definition, tree)
}

/// Adds the names of the child or element of the number, unless it is a scope operator that is passed over.
#[cycle(names)]
fn gather_child(
    alloc: Global,
    how: Gathering,
    path: &[u32],
    child: usize,
    tree: &Tree,
    found: &mut Vec<Written>,
) -> Result<(), AllocError>
    ensures { OnOk result (found.new.items
        ≡ found.old.items ++ by_parts.child_names how.entry path.now child tree.now) }
{
    let passed = is_passed(how, tree);
    if passed {
        return Ok(());
    }
    let inner = below(alloc, path, child)?;
    gather(alloc, how, inner.as_slice(), tree, found)?;
    Ok(())
}

/// Adds the names of the part of the node at the path, which has that many names and children before it.
#[cycle(names)]
fn gather_part(
    alloc: Global,
    how: Gathering,
    item: Option<NameItem>,
    path: &[u32],
    names: usize,
    children: usize,
    part: &Part,
    found: &mut Vec<Written>,
) -> Result<(), AllocError>
    ensures { OnOk result (found.new.items
        ≡ found.old.items ++ by_parts.part_names how.entry item path.now names children part.now) }
{
    match part {
        Part::Sub(tree) => {
            gather_child(alloc, how, path, children, tree, found)?;
            Ok(())
        }
        Part::Name(name) => {
            add_name(alloc, how, item, path, names, name, found)?;
            Ok(())
        }
        Part::Number(_) => Ok(()),
        Part::Text(_) => Ok(()),
    }
}

/// Returns how many names the part is.
fn names_in(part: &Part) -> usize
    ensures { result ≡ by_parts.names_in part.now }
{
    match part {
        Part::Sub(_) => 0,
        Part::Name(_) => 1,
        Part::Number(_) => 0,
        Part::Text(_) => 0,
    }
}

/// Returns how many children the part is.
pub fn children_in(part: &Part) -> usize
    ensures { result ≡ by_parts.children_in part.now }
{
    match part {
        Part::Sub(_) => 1,
        Part::Name(_) => 0,
        Part::Number(_) => 0,
        Part::Text(_) => 0,
    }
}

/// Adds the names of the operator's parts, and those below them.
#[cycle(names)]
fn gather_parts(
    alloc: Global,
    how: Gathering,
    op: u32,
    path: &[u32],
    parts: &[Part],
    found: &mut Vec<Written>,
) -> Result<(), AllocError>
    ensures { OnOk result (found.new.items
        ≡ found.old.items ++ by_parts.names_by how.entry path.now 0 (with_parts (operator op) parts.now)) }
{
    let mut names = 0;
    let mut children = 0;
    for place in 0..parts.len() {
        let part = &parts[place];
        let item = item_of(how.definition, op, place);
        gather_part(alloc, how, item, path, names, children, part, found)?;
        let own_names = names_in(part);
        let own_children = children_in(part);
        let more_names = plus(names, own_names)?;
        let more_children = plus(children, own_children)?;
        names = more_names;
        children = more_children;
    }
    Ok(())
}

/// Adds the names of the elements of the list at the path.
#[cycle(names)]
fn gather_elements(
    alloc: Global,
    how: Gathering,
    path: &[u32],
    elements: &[Tree],
    found: &mut Vec<Written>,
) -> Result<(), AllocError>
    ensures { OnOk result (found.new.items
        ≡ found.old.items ++ by_parts.element_names how.entry path.now 0 elements.now) }
{
    for place in 0..elements.len() {
        gather_child(alloc, how, path, place, &elements[place], found)?;
    }
    Ok(())
}

/// Adds the names of the node at the path and of those below it, in the order of the text. It visits each node.
#[cycle(names)]
pub fn gather(
    alloc: Global,
    how: Gathering,
    path: &[u32],
    tree: &Tree,
    found: &mut Vec<Written>,
) -> Result<(), AllocError>
    ensures { OnOk result (found.new.items ≡ found.old.items ++ by_parts.names_by how.entry path.now 0 tree.now) }
{
    match tree.shape() {
        Shape::Op { op, parts } => {
            gather_parts(alloc, how, *op, path, parts.as_slice(), found)?;
            Ok(())
        }
        Shape::List { elements, .. } => {
            gather_elements(alloc, how, path, elements.as_slice(), found)?;
            Ok(())
        }
        Shape::Hole { .. } => Ok(()),
    }
}

/// Returns the name that the part is, if none is left before it.
fn name_here(part: &Part, left: usize) -> Option<&Txt>
    ensures { option_copied result ≡ by_parts.name_here left part.now }
{
    match part {
        Part::Sub(_) => None,
        Part::Name(name) => { if left == 0 { Some(name) } else { None } }
        Part::Number(_) => None,
        Part::Text(_) => None,
    }
}

/// Returns the name of the number of the operator at the path, if it has one.
fn nth_name(
    alloc: Global,
    definition: &Definition,
    op: u32,
    parts: &[Part],
    path: &Path,
    number: usize,
) -> Result<Option<Named>, AllocError>
    ensures { IfOk result (λ found. found
        ≡ naming.name_in definition.now path.now number (with_parts (operator op) parts.now)) }
{
    let mut left = number;
    for place in 0..parts.len() {
        let part = &parts[place];
        if let Some(name) = name_here(part, left) {
            let item = item_of(definition, op, place);
            let found = name_with(alloc, item, path, number, name)?;
            return Ok(found);
        }
        let own = names_in(part);
        let fewer = left.saturating_sub(own);
        left = fewer;
    }
    Ok(None)
}

/// Returns the name of the number of the node at the path.
fn name_with(
    alloc: Global,
    item: Option<NameItem>,
    path: &Path,
    number: usize,
    name: &Txt,
) -> Result<Option<Named>, AllocError>
    ensures { IfOk result (λ found. found ≡ naming.own_name item path.now number name.now) }
{
    let Some(own) = item else {
        return Ok(None);
    };
    let path = Path::of(alloc, path.steps())?;
    let name = name.share()?;
    Ok(Some(Named {
        name: Written {
            path,
            number,
            space: own.space,
            name,
        },
        declares: own.declares,
    }))
}

/// Returns the name of the number of the node at the path, if there is one.
pub fn name_at(
    alloc: Global,
    definition: &Definition,
    tree: &Tree,
    path: &Path,
    number: usize,
) -> Result<Option<Named>, AllocError>
    ensures { IfOk result (λ found. found ≡ naming.nth_name definition.now path.now number
        (node_at tree.now path.now)) }
{
    let Some(node) = at(tree, path) else {
        return Ok(None);
    };
    match node.shape() {
        Shape::Op { op, parts } => {
            let found = nth_name(alloc, definition, *op, parts.as_slice(), path, number)?;
            Ok(found)
        }
        Shape::List { .. } => Ok(None),
        Shape::Hole { .. } => Ok(None),
    }
}

/// Returns the path of the place.
pub fn path_of(place: &Place) -> &Path
    ensures { result.now ≡ naming.path_of_place place.now }
{
    match place {
        Place::Node(path) => path,
        Place::Element(path) => path,
        Place::End(path) => path,
        Place::Name(path, _) => path,
    }
}
