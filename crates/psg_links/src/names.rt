//! The names of a tree in the order of the text.
ghost use Rattle.std.specs.Prelude.{◌≡◌, ◌++◌, [], IfOk, OnOk, option_to_list};
ghost use Rattle.psg_grammar.specs.Fragments.{operator};
ghost use Rattle.psg_tree.specs.Shapes.{with_parts};
ghost use Rattle.psg_uses.specs.ByParts as by_parts;
ghost use Rattle.psg_uses.specs.Naming.{own_name};
ghost use Rattle.psg_links.specs.Names.{child_names, element_names, names_below, part_names};
ghost use Rattle.psg_links.specs.Names as naming;

use psg_grammar::Definition;
use psg_known::numbers::plus;
use psg_terms::Txt;
use psg_tree::{Part, Path, Shape, Tree};
use psg_uses::names::{NameItem, Named, Written, below, children_in, item_of};
use std::alloc::{AllocError, Global};

/// Adds the name of the node at the path, if the item says that it is one.
fn add_name(
    alloc: Global,
    item: Option<NameItem>,
    path: &[u32],
    number: usize,
    name: &Txt,
    found: &mut Vec<Named>,
) -> Result<(), AllocError>
    ensures { OnOk result (found.new.items
        ≡ found.old.items ++ option_to_list (own_name item path.now number name.now)) }
{
    let Some(own) = item else {
        return Ok(());
    };
    let path = Path::of(alloc, path)?;
    let name = name.share()?;
    found.push(Named {
        name: Written {
            path,
            number,
            space: own.space,
            name,
        },
        declares: own.declares,
    })?;
    Ok(())
}

/// Adds the names of the child or element of the number.
#[cycle(names)]
fn gather_child(
    alloc: Global,
    definition: &Definition,
    path: &[u32],
    child: usize,
    tree: &Tree,
    found: &mut Vec<Named>,
) -> Result<(), AllocError>
    ensures { OnOk result (found.new.items
        ≡ found.old.items ++ child_names definition.now path.now child tree.now) }
{
    let inner = below(alloc, path, child)?;
    gather(alloc, definition, inner.as_slice(), tree, found)?;
    Ok(())
}

/// Adds the names of the part of the node at the path, which has that many names and children before it.
#[cycle(names)]
fn gather_part(
    alloc: Global,
    definition: &Definition,
    item: Option<NameItem>,
    path: &[u32],
    before: usize,
    children: usize,
    part: &Part,
    found: &mut Vec<Named>,
) -> Result<(), AllocError>
    ensures { OnOk result (found.new.items
        ≡ found.old.items ++ part_names definition.now item path.now before children part.now) }
{
    match part {
        Part::Sub(tree) => {
            gather_child(alloc, definition, path, children, tree, found)?;
            Ok(())
        }
        Part::Name(name) => {
            add_name(alloc, item, path, before, name, found)?;
            Ok(())
        }
        Part::Number(_) => Ok(()),
        Part::Text(_) => Ok(()),
    }
}

/// Returns how many names the part is.
fn names_in(part: &Part) -> usize
    ensures { result ≡ by_parts.names_in part.now }
{
    match part {
        Part::Sub(_) => 0,
        Part::Name(_) => 1,
        Part::Number(_) => 0,
        Part::Text(_) => 0,
    }
}

/// Adds the names of the operator's parts, and those below them.
#[cycle(names)]
fn gather_parts(
    alloc: Global,
    definition: &Definition,
    op: u32,
    path: &[u32],
    parts: &[Part],
    found: &mut Vec<Named>,
) -> Result<(), AllocError>
    ensures { OnOk result (found.new.items
        ≡ found.old.items ++ names_below definition.now path.now 0 (with_parts (operator op) parts.now)) }
{
    let mut count = 0;
    let mut children = 0;
    for place in 0..parts.len() {
        let part = &parts[place];
        let item = item_of(definition, op, place);
        gather_part(alloc, definition, item, path, count, children, part, found)?;
        let own_names = names_in(part);
        let own_children = children_in(part);
        let more_names = plus(count, own_names)?;
        let more_children = plus(children, own_children)?;
        count = more_names;
        children = more_children;
    }
    Ok(())
}

/// Adds the names of the elements of the list at the path.
#[cycle(names)]
fn gather_elements(
    alloc: Global,
    definition: &Definition,
    path: &[u32],
    elements: &[Tree],
    found: &mut Vec<Named>,
) -> Result<(), AllocError>
    ensures { OnOk result (found.new.items
        ≡ found.old.items ++ element_names definition.now path.now 0 elements.now) }
{
    for place in 0..elements.len() {
        gather_child(alloc, definition, path, place, &elements[place], found)?;
    }
    Ok(())
}

/// Adds the names of the node at the path and of those below it, in the order of the text. It visits each node.
#[cycle(names)]
fn gather(
    alloc: Global,
    definition: &Definition,
    path: &[u32],
    tree: &Tree,
    found: &mut Vec<Named>,
) -> Result<(), AllocError>
    ensures { OnOk result (found.new.items
        ≡ found.old.items ++ names_below definition.now path.now 0 tree.now) }
{
    match tree.shape() {
        Shape::Op { op, parts } => {
            gather_parts(alloc, definition, *op, path, parts.as_slice(), found)?;
            Ok(())
        }
        Shape::List { elements, .. } => {
            gather_elements(alloc, definition, path, elements.as_slice(), found)?;
            Ok(())
        }
        Shape::Hole { .. } => Ok(()),
    }
}

/// Returns all names of the tree, in the order of the text. It visits each node.
pub(crate) fn names_of(
    alloc: Global,
    definition: &Definition,
    tree: &Tree,
) -> Result<Vec<Named>, AllocError>
    ensures { IfOk result (λ found. found.items ≡ naming.names_of definition.now tree.now) }
{
    let mut found = Vec::new(alloc);
    gather(alloc, definition, &[], tree, &mut found)?;
    Ok(found)
}
