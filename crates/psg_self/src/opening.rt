//! The first placeholder or unfinished list of a tree.
ghost use Rattle.std.specs.Prelude.{◌≡◌, ◌+◌, ◌++◌, ◌∷◌, [], IfOk};
ghost use Rattle.psg_grammar.specs.Fragments.{children_of};
ghost use Rattle.psg_self.specs.Openings.{first_among, open_from, open_in};

use psg_terms::uncountable;
use psg_tree::{Path, Shape, Tree, child_at};
use std::alloc::{AllocError, Global};

/// Returns the path with one step more.
fn further(alloc: Global, at: &[u32], step: u32) -> Result<Vec<u32>, AllocError>
    ensures { IfOk result (λ path. path.items ≡ at.now ++ step ∷ []) }
{
    let mut path = Vec::from_slice(alloc, at)?;
    path.push(step)?;
    Ok(path)
}

/// Returns the path of the first one in the child of the number.
#[cycle(open)]
fn first_at(
    alloc: Global,
    child: &Tree,
    at: &[u32],
    number: u32,
) -> Result<Option<Path>, AllocError>
    ensures { IfOk result (λ found. found ≡ open_from (at.now ++ number ∷ []) child.now) }
{
    let path = further(alloc, at, number)?;
    let found = first_in(alloc, child, path.as_slice())?;
    Ok(found)
}

/// Returns the path of the first one among the children of a node and below them, in order.
#[cycle(open)]
fn first_below(alloc: Global, tree: &Tree, at: &[u32]) -> Result<Option<Path>, AllocError>
    ensures { IfOk result (λ found. found ≡ first_among at.now 0 (children_of tree.now)) }
{
    for number in 0..u32::MAX {
        match child_at(tree, number) {
            None => return Ok(None),
            Some(child) => match first_at(alloc, child, at, number)? {
                Some(path) => return Ok(Some(path)),
                None => {}
            },
        }
    }
    Err(uncountable(u32::MAX as usize))
}

/// Returns the path of the first placeholder or unfinished list of a tree that is at a path, a node before its children
/// and these in order, or `None` where it has none. It calls itself once for each level.
#[cycle(open)]
fn first_in(alloc: Global, tree: &Tree, at: &[u32]) -> Result<Option<Path>, AllocError>
    ensures { IfOk result (λ found. found ≡ open_from at.now tree.now) }
{
    match tree.shape() {
        Shape::Op { .. } => {
            let found = first_below(alloc, tree, at)?;
            Ok(found)
        }
        Shape::List { unfinished, .. } => {
            if *unfinished {
                return Ok(Some(Path::of(alloc, at)?));
            }
            let found = first_below(alloc, tree, at)?;
            Ok(found)
        }
        Shape::Hole { .. } => Ok(Some(Path::of(alloc, at)?)),
    }
}

/// Returns the path of the first placeholder or unfinished list of a tree, in the order of its text, or `None` where it
/// has none. It walks over the tree up to there, and takes time linear in the paths of the nodes on the way. It returns
/// out of memory also where 32 bits do not count the children of a node.
pub fn first_open(alloc: Global, tree: &Tree) -> Result<Option<Path>, AllocError>
    ensures { IfOk result (λ found. found ≡ open_in tree.now) }
{
    let found = first_in(alloc, tree, &[])?;
    Ok(found)
}
