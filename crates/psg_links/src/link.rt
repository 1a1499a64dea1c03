//! The links of the names of a tree.
ghost use Rattle.std.specs.Prelude.{◌≡◌, IfOk};
ghost use Rattle.std.specs.Option.{option_copied};
ghost use Rattle.psg_links.specs.Linking.{link_by};
ghost use Rattle.psg_links.specs.Links as links;

use crate::around::{Region, first_in, go_to};
use crate::names::names_of;
use psg_grammar::Definition;
use psg_tree::{Path, Tree};
use psg_uses::names::{Named, Written};
use std::alloc::{AllocError, Global};

/// A name of a tree, and what it is linked to.
#[derive(Drop)]
pub struct Link {
    /// The name.
    pub name: Written,
    /// Whether it declares.
    pub declares: bool,
    /// The first declaration of its key in the innermost region around it that declares the key. There is none where no
    /// region around does: the name is linked to the outside.
    pub declaration: Option<Written>,
}

/// Returns the same name once more.
fn copy_of(alloc: Global, name: &Written) -> Result<Written, AllocError>
    ensures { IfOk result (λ copy. copy ≡ name.now) }
{
    let path = Path::of(alloc, name.path.steps())?;
    let text = name.name.share()?;
    Ok(Written {
        path,
        number: name.number,
        space: name.space,
        name: text,
    })
}

/// Returns the same name once more, if there is one.
fn copied(alloc: Global, name: Option<&Written>) -> Result<Option<Written>, AllocError>
    ensures { IfOk result (λ copy. copy ≡ option_copied name.entry) }
{
    match name {
        Some(one) => {
            let copy = copy_of(alloc, one)?;
            Ok(Some(copy))
        }
        None => Ok(None),
    }
}

/// Returns the link of the name that these regions are around.
fn link_in(alloc: Global, regions: &[Region], named: Named) -> Result<Link, AllocError>
    ensures { IfOk result (λ l. l ≡ link_by regions.now named) }
{
    let found = first_in(regions, &named.name);
    let declaration = copied(alloc, found)?;
    Ok(Link {
        name: named.name,
        declares: named.declares,
        declaration,
    })
}

/// Returns the links of all names of the tree, in the order of the text. It walks over the tree, and over each region
/// once more. For each name it goes over the declarations of the regions around it, from the innermost region on, until
/// it meets the name's key.
pub(crate) fn links_of(
    alloc: Global,
    definition: &Definition,
    tree: &Tree,
) -> Result<Vec<Link>, AllocError>
    ensures { IfOk result (λ found. found.items ≡ links.links_of definition.now tree.now) }
{
    let names = names_of(alloc, definition, tree)?;
    let mut regions = Vec::new(alloc);
    let mut found = Vec::new(alloc);
    for named in names {
        go_to(
            alloc,
            definition,
            tree,
            &mut regions,
            named.name.path.steps(),
        )?;
        let around = regions.as_slice();
        let link = link_in(alloc, around, named)?;
        found.push(link)?;
    }
    Ok(found)
}

/// Says whether both are the same declaration, or there is none.
pub(crate) fn is_same_link(one: &Option<Written>, other: &Option<Written>) -> bool
    ensures { result ≡ links.is_same_link one.now other.now }
{
    match one {
        Some(own) => match other {
            Some(there) => own.is_at(there),
            None => false,
        },
        None => other.is_none(),
    }
}

impl Link {
    /// Says whether the names have one key and are linked to the same declaration, or both to the outside.
    pub fn is_together(&self, other: &Link) -> bool
        ensures { result ≡ links.is_together self.now other.now }
    {
        self.name.has_key_of(&other.name) && is_same_link(&self.declaration, &other.declaration)
    }
}
