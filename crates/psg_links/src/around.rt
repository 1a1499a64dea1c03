//! The regions around a name, as they are kept while names are gone through in the order of the text.
ghost use Rattle.std.specs.Prelude.{◌≡◌, ◌≤◌, ◌+◌, ◌++◌, IfOk, OnOk, Some, false, length, take, true};
ghost use Rattle.std.specs.Option.{option_copied};
ghost use Rattle.psg_grammar.specs.declared.types.Definition.{Definition as PlainDefinition};
ghost use Rattle.psg_grammar.specs.Fragments.{Fragment};
ghost use Rattle.psg_grammar.specs.Paths.{node_at};
ghost use Rattle.psg_uses.specs.Regions.{begins_region, begins_with};
ghost use Rattle.psg_links.specs.Around as ways;
ghost use Rattle.psg_links.specs.Around.{IsOnWay, region_by, regions_around, regions_at, regions_of, regions_upto};
ghost use Rattle.psg_links.specs.Links as links;

use psg_grammar::Definition;
use psg_terms::Seq;
use psg_tree::{Path, Tree, at};
use psg_uses::names::{Gathering, Written, gather};
use psg_uses::regions::is_scope;
use std::alloc::{AllocError, Global};

/// A region around a name: where it begins, and what it declares.
#[derive(Drop)]
pub(crate) struct Region {
    path: Path,
    declared: Seq<Written>,
}

/// Returns the region of the node at the path.
fn region_at(
    alloc: Global,
    definition: &Definition,
    tree: &Tree,
    path: Path,
    node: &Tree,
) -> Result<Region, AllocError>
    requires there { node_at tree.now path ≡ Some node.now }
    requires begins { begins_region definition.now tree.now path ≡ true }
    ensures { IfOk result (λ r. r ≡ region_by definition.now tree.now path) }
{
    let mut declared = Vec::new(alloc);
    let how = Gathering {
        definition,
        declared: true,
        inside: false,
    };
    gather(alloc, how, path.steps(), node, &mut declared)?;
    Ok(Region {
        path,
        declared: Seq::of(declared),
    })
}

/// Says whether the node, which is at the path, begins a region: whether it is a scope operator, or the root.
fn begins_at(definition: &Definition, path: &[u32], node: &Tree) -> bool
    ensures { result ≡ begins_with definition.now path.now (Some node.now) }
{
    is_scope(definition, node) || path.is_empty()
}

/// Says whether a region begins in the node, which is at the path.
fn begins(definition: &Definition, path: &Path, node: &Tree) -> bool
    ensures { result ≡ begins_with definition.now path.now (Some node.now) }
{
    begins_at(definition, path.steps(), node)
}

/// Returns the region that begins after that many steps of the path, if one does.
fn region_of_step(
    alloc: Global,
    definition: &Definition,
    tree: &Tree,
    path: &[u32],
    steps: usize,
) -> Result<Option<Region>, AllocError>
    requires within { steps ≤ length path.now }
    ensures { IfOk result (λ r. regions_of r ≡ regions_at definition.now tree.now (take steps path.now)) }
{
    let own = Path::of(alloc, &path[..steps])?;
    let Some(node) = at(tree, &own) else {
        return Ok(None);
    };
    let new = begins(definition, &own, node);
    if !new {
        return Ok(None);
    }
    let region = region_at(alloc, definition, tree, own, node)?;
    Ok(Some(region))
}

/// Adds the region, if there is one.
fn push_region(regions: &mut Vec<Region>, region: Option<Region>) -> Result<(), AllocError>
    ensures { OnOk result (regions.new.items ≡ regions.old.items ++ regions_of region) }
{
    match region {
        Some(own) => {
            regions.push(own)?;
            Ok(())
        }
        None => Ok(()),
    }
}

/// Adds the regions around the node at the path that begin after that many steps of it, or later.
fn enter(
    alloc: Global,
    definition: &Definition,
    tree: &Tree,
    regions: &mut Vec<Region>,
    path: &[u32],
    from: usize,
) -> Result<(), AllocError>
    requires within { from ≤ length path.now + 1 }
    requires regions { regions.old.items ≡ regions_upto definition.now tree.now path.now from }
    ensures { OnOk result (regions.new.items ≡ regions_around definition.now tree.now path.now) }
{
    for steps in from..path.len() + 1 {
        let region = region_of_step(alloc, definition, tree, path, steps)?;
        push_region(regions, region)?;
    }
    Ok(())
}

/// Says whether the last of the regions is none around the node at the path.
fn is_beside(regions: &[Region], path: &[u32]) -> bool
    ensures { result ≡ ways.is_beside regions.now path.now }
{
    match regions.last() {
        Some(last) => !path.starts_with(last.path.steps()),
        None => false,
    }
}

/// Lets go of the regions that are not around the node at the path.
fn leave(regions: &mut Vec<Region>, path: &[u32])
    ensures way { (definition : PlainDefinition) (f : Fragment) → IsOnWay definition f regions.old.items
        → IsOnWay definition f regions.new.items }
    ensures around { ways.is_beside regions.new.items path.now ≡ false }
{
    'leaving: while is_beside(regions.as_slice(), path) {
        let _ = regions.pop();
    }
}

/// Returns after how many steps the next region may begin.
fn looked_at(regions: &[Region]) -> usize
    ensures { result ≡ ways.looked_at regions.now }
{
    match regions.last() {
        Some(last) => last.path.steps().len() + 1,
        None => 0,
    }
}

/// Makes the regions those around the node at the path. A region that is entered is walked over.
pub(crate) fn go_to(
    alloc: Global,
    definition: &Definition,
    tree: &Tree,
    regions: &mut Vec<Region>,
    path: &[u32],
) -> Result<(), AllocError>
    requires way { IsOnWay definition.now tree.now regions.old.items }
    ensures { OnOk result (regions.new.items ≡ regions_around definition.now tree.now path.now) }
{
    leave(regions, path);
    let left = regions.as_slice();
    let from = looked_at(left);
    enter(alloc, definition, tree, regions, path, from)?;
    Ok(())
}

/// Returns the first of the names that has the key of the name.
fn first_key<'a>(names: &'a [Written], name: &Written) -> Option<&'a Written>
    ensures { option_copied result ≡ links.first_key name.now names.now }
{
    for place in 0..names.len() {
        let one = &names[place];
        let found = one.has_key_of(name);
        if found {
            return Some(one);
        }
    }
    None
}

/// Says whether there is a name.
fn is_there(found: Option<&Written>) -> bool
    ensures { result ≡ ways.is_there (option_copied found.entry) }
{
    match found {
        Some(_) => true,
        None => false,
    }
}

/// Returns the first declaration of the name's key in the innermost of the regions that declares the key.
pub(crate) fn first_in<'a>(regions: &'a [Region], name: &Written) -> Option<&'a Written>
    ensures { option_copied result ≡ ways.first_in name.now regions.now }
{
    let mut rest = regions;
    while let Some((last, front)) = rest.split_last() {
        let declared = last.declared.as_slice();
        let found = first_key(declared, name);
        let there = is_there(found);
        if there {
            return found;
        }
        rest = front;
    }
    None
}
