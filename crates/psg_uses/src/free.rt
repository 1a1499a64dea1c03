//! The names that nothing declares.
ghost use Rattle.std.specs.Prelude.{◌≡◌, ◌≤◌, ◌+◌, ◌++◌, ◌||◌, ◌∷◌, [], IfOk, OnOk, Some, cond, false, length, take};
ghost use Rattle.std.specs.Prelude.{true};
ghost use Rattle.psg_grammar.specs.declared.types.Definition.{Definition as PlainDefinition};
ghost use Rattle.psg_grammar.specs.Fragments.{Fragment};
ghost use Rattle.psg_grammar.specs.Paths.{node_at};
ghost use Rattle.psg_uses.specs.Free as free_names;
ghost use Rattle.psg_known.specs.Knowns.{IsKnown};
ghost use Rattle.psg_uses.specs.Linked as linked;
ghost use Rattle.psg_uses.specs.Linked.{IsOnWay, open_below, region_by, regions_around, regions_at, regions_of};
ghost use Rattle.psg_uses.specs.Linked.{regions_upto};
ghost use Rattle.psg_uses.specs.Naming as naming;
ghost use Rattle.psg_uses.specs.Regions.{begins_region, begins_with};

use crate::names::{Gathering, Written, gather};
use crate::regions::{begins_with as begins_at, has_number, is_unfinished};
use psg_grammar::Definition;
use psg_known::known::Known;
use psg_known::numbers::step_of;
use psg_terms::Seq;
use psg_tree::{Path, Tree, at};
use std::alloc::{AllocError, Global};

/// A region around a name: where it begins, what it declares, and the spaces in which it may still declare.
#[derive(Drop)]
struct Region {
    path: Path,
    declared: Seq<Written>,
    spaces: Seq<u32>,
}

/// What names are linked in.
#[derive(Clone, Copy)]
pub struct Linking<'a> {
    /// The definition.
    pub known: Known<'a>,
    /// The program.
    pub tree: &'a Tree,
}

/// Adds the space, if the region may declare in it.
fn push_space(found: &mut Vec<u32>, may: bool, space: u32) -> Result<(), AllocError>
    ensures { OnOk result (found.new.items ≡ found.old.items ++ cond may (space ∷ []) []) }
{
    if may {
        found.push(space)?;
        return Ok(());
    }
    Ok(())
}

/// Returns the spaces in which the region of the tree may still declare.
fn open_spaces(alloc: Global, linking: Linking, node: &Tree) -> Result<Vec<u32>, AllocError>
    requires known { IsKnown linking.known }
    ensures { IfOk result (λ v. v.items ≡ open_below linking.entry.known.definition.now (Some node.now)
        (length linking.entry.known.definition.now.spaces)) }
{
    let spaces = linking.known.definition.spaces.as_slice();
    let mut found = Vec::new(alloc);
    for place in 0..spaces.len() {
        let space = step_of(place)?;
        let may = is_unfinished(linking.known, space, node);
        push_space(&mut found, may, space)?;
    }
    Ok(found)
}

/// Returns the region of the node at the path.
fn region_at(alloc: Global, linking: Linking, path: Path, node: &Tree) -> Result<Region, AllocError>
    requires known { IsKnown linking.known }
    requires there { node_at linking.tree.now path ≡ Some node.now }
    requires begins { begins_region linking.known.definition.now linking.tree.now path ≡ true }
    ensures { IfOk result
        (λ r. r ≡ region_by linking.entry.known.definition.now linking.entry.tree.now path) }
{
    let mut declared = Vec::new(alloc);
    let how = Gathering {
        definition: linking.known.definition,
        declared: true,
        inside: false,
    };
    gather(alloc, how, path.steps(), node, &mut declared)?;
    let spaces = open_spaces(alloc, linking, node)?;
    Ok(Region {
        path,
        declared: Seq::of(declared),
        spaces: Seq::of(spaces),
    })
}

/// Says whether a region begins in the node, which is at the path.
fn begins(definition: &Definition, path: &Path, node: &Tree) -> bool
    ensures { result ≡ begins_with definition.now path.now (Some node.now) }
{
    begins_at(definition, path.steps(), node)
}

/// Returns the region that begins after that many steps of the path, if one does.
fn region_of_step(
    alloc: Global,
    linking: Linking,
    path: &[u32],
    steps: usize,
) -> Result<Option<Region>, AllocError>
    requires known { IsKnown linking.known }
    requires within { steps ≤ length path.now }
    ensures { IfOk result (λ r. regions_of r
        ≡ regions_at linking.entry.known.definition.now linking.entry.tree.now (take steps path.now)) }
{
    let own = Path::of(alloc, &path[..steps])?;
    let Some(node) = at(linking.tree, &own) else {
        return Ok(None);
    };
    let new = begins(linking.known.definition, &own, node);
    if !new {
        return Ok(None);
    }
    let region = region_at(alloc, linking, own, node)?;
    Ok(Some(region))
}

/// Adds the region, if there is one.
fn push_region(regions: &mut Vec<Region>, region: Option<Region>) -> Result<(), AllocError>
    ensures { OnOk result (regions.new.items ≡ regions.old.items ++ regions_of region) }
{
    match region {
        Some(own) => {
            regions.push(own)?;
            Ok(())
        }
        None => Ok(()),
    }
}

/// Adds the regions around the node at the path that begin after that many steps of it, or later.
fn enter(
    alloc: Global,
    linking: Linking,
    regions: &mut Vec<Region>,
    path: &[u32],
    from: usize,
) -> Result<(), AllocError>
    requires known { IsKnown linking.known }
    requires within { from ≤ length path.now + 1 }
    requires regions { regions.old.items
        ≡ regions_upto linking.known.definition.now linking.tree.now path.now from }
    ensures { OnOk result (regions.new.items
        ≡ regions_around linking.entry.known.definition.now linking.entry.tree.now path.now) }
{
    for steps in from..path.len() + 1 {
        let region = region_of_step(alloc, linking, path, steps)?;
        push_region(regions, region)?;
    }
    Ok(())
}

/// Says whether the last of the regions is none around the node at the path.
fn is_beside(regions: &[Region], path: &[u32]) -> bool
    ensures { result ≡ linked.is_beside regions.now path.now }
{
    match regions.last() {
        Some(last) => !path.starts_with(last.path.steps()),
        None => false,
    }
}

/// Lets go of the regions that are not around the node at the path.
fn leave(regions: &mut Vec<Region>, path: &[u32])
    ensures way { (definition : PlainDefinition) (f : Fragment) → IsOnWay definition f regions.old.items
        → IsOnWay definition f regions.new.items }
    ensures around { linked.is_beside regions.new.items path.now ≡ false }
{
    'leaving: while is_beside(regions.as_slice(), path) {
        let _ = regions.pop();
    }
}

/// Returns after how many steps the next region may begin.
fn looked_at(regions: &[Region]) -> usize
    ensures { result ≡ linked.looked_at regions.now }
{
    match regions.last() {
        Some(last) => last.path.steps().len() + 1,
        None => 0,
    }
}

/// Makes the regions those around the node at the path.
fn go_to(
    alloc: Global,
    linking: Linking,
    regions: &mut Vec<Region>,
    path: &[u32],
) -> Result<(), AllocError>
    requires known { IsKnown linking.known }
    requires way { IsOnWay linking.known.definition.now linking.tree.now regions.old.items }
    ensures { OnOk result (regions.new.items
        ≡ regions_around linking.entry.known.definition.now linking.entry.tree.now path.now) }
{
    leave(regions, path);
    let left = regions.as_slice();
    let from = looked_at(left);
    enter(alloc, linking, regions, path, from)?;
    Ok(())
}

/// Says whether one of the names has the key of the name.
fn has_key(names: &[Written], name: &Written) -> bool
    ensures { result ≡ free_names.has_key names.now name.now }
{
    names.iter().any(|one| one.has_key_of(name))
}

/// Says whether the region declares the name, or may still do so.
fn links(region: &Region, name: &Written) -> bool
    ensures { result ≡ linked.links name.now region.now }
{
    has_key(region.declared.as_slice(), name) || has_number(region.spaces.as_slice(), name.space)
}

/// Says whether a region declares the name, or may still do so.
fn is_linked(regions: &[Region], name: &Written) -> bool
    ensures { result ≡ linked.is_linked_in regions.now name.now }
{
    regions.iter().any(|region| links(region, name))
}

/// Returns the names that are used, in the order of the text.
fn used_names(alloc: Global, linking: Linking) -> Result<Vec<Written>, AllocError>
    ensures { IfOk result (λ used. used.items
        ≡ naming.used_names linking.entry.known.definition.now linking.entry.tree.now) }
{
    let mut used = Vec::new(alloc);
    let how = Gathering {
        definition: linking.known.definition,
        declared: false,
        inside: true,
    };
    gather(alloc, how, &[], linking.tree, &mut used)?;
    Ok(used)
}

/// Says whether the name, which the regions are around, is declared, or was reported.
fn is_told(regions: &[Region], free: &[Written], name: &Written) -> bool
    ensures { result ≡ (linked.is_linked_in regions.now name.now || free_names.has_key free.now name.now) }
{
    is_linked(regions, name) || has_key(free, name)
}

/// Adds the name, unless it is declared or was reported.
fn push_free(free: &mut Vec<Written>, told: bool, name: Written) -> Result<(), AllocError>
    ensures { OnOk result (free.new.items ≡ free.old.items ++ cond told [] (name ∷ [])) }
{
    if told {
        return Ok(());
    }
    free.push(name)?;
    Ok(())
}

/// Returns the first use of each name that nothing declares, in the order of the text. It walks over the tree, and over
/// each region again for each time that a used name is the first one there.
pub fn free_uses(alloc: Global, linking: Linking) -> Result<Vec<Written>, AllocError>
    requires known { IsKnown linking.known }
    ensures { IfOk result (λ free. free.items
        ≡ free_names.free_uses linking.entry.known.definition.now linking.entry.tree.now) }
{
    let used = used_names(alloc, linking)?;
    let mut regions = Vec::new(alloc);
    let mut free = Vec::new(alloc);
    for name in used {
        go_to(alloc, linking, &mut regions, name.path.steps())?;
        let around = regions.as_slice();
        let seen = free.as_slice();
        let told = is_told(around, seen, &name);
        push_free(&mut free, told, name)?;
    }
    Ok(free)
}
