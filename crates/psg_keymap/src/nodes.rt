//! What the keys look at in a tree: the top of a node, and the list above a path.
ghost use Rattle.std.specs.Prelude.{◌≡◌, ◌≤◌, ◌+◌, cond, None, Some, IfOk};
ghost use Rattle.psg_grammar.specs.Paths.{node_at};
ghost use Rattle.psg_face.specs.Moves.{is_open_list};
ghost use Rattle.psg_places.specs.Places.{is_hole as is_hole_of, is_list as is_list_of};
ghost use Rattle.psg_script.specs.declared.command.Where.TheVariants.{At as AtPath};
ghost use Rattle.psg_keymap.specs.Table as table;

use crate::face::copied;
use psg_script::Where;
use psg_terms::uncountable;
use psg_tree::{Path, Shape, Tree, at};
use std::alloc::{AllocError, Global};

/// Returns the place of the path.
pub fn place_at(alloc: Global, path: &Path) -> Result<Where, AllocError>
    ensures { IfOk result (λ place. place ≡ AtPath path.now) }
{
    let same = copied(alloc, path)?;
    Ok(Where::At(same))
}

/// Says whether the node is a list.
pub fn is_list(node: &Tree) -> bool
    ensures { result ≡ is_list_of node.now }
{
    match node.shape() {
        Shape::Op { .. } => false,
        Shape::List { .. } => true,
        Shape::Hole { .. } => false,
    }
}

/// Says whether the path leads to a list.
pub fn is_list_at(tree: &Tree, path: &Path) -> bool
    ensures { result ≡ table.is_list_at (node_at tree.now path.now) }
{
    match at(tree, path) {
        Some(node) => is_list(node),
        None => false,
    }
}

/// Returns the list above the path and the number of the path's place there.
pub fn list_above(
    alloc: Global,
    tree: &Tree,
    path: &Path,
) -> Result<Option<(Path, u32)>, AllocError>
    ensures { IfOk result (λ above. above ≡ table.list_above tree.now path.now) }
{
    match path.steps().split_last() {
        Some((last, front)) => {
            let spot = spot_above(alloc, tree, front, *last)?;
            Ok(spot)
        }
        None => Ok(None),
    }
}

/// Returns the list at the steps and the number of the place, if there is a list.
fn spot_above(
    alloc: Global,
    tree: &Tree,
    front: &[u32],
    last: u32,
) -> Result<Option<(Path, u32)>, AllocError>
    ensures { IfOk result (λ spot. spot
        ≡ cond (table.is_list_at (node_at tree.now front.now)) (Some (front.now, last)) None) }
{
    let list = Path::of(alloc, front)?;
    let found = is_list_at(tree, &list);
    if found {
        return Ok(Some((list, last)));
    }
    Ok(None)
}

/// Says whether the node is an unfinished list.
pub fn is_unfinished(node: &Tree) -> bool
    ensures { result ≡ is_open_list node.now }
{
    match node.shape() {
        Shape::Op { .. } => false,
        Shape::List { unfinished, .. } => *unfinished,
        Shape::Hole { .. } => false,
    }
}

/// Returns the sum of the two numbers, where 32 bits hold it; else the call fails as if out of memory.
pub fn further(number: u32, more: u32) -> Result<u32, AllocError>
    requires { more ≤ 1 }
    ensures { IfOk result (λ sum. sum ≡ number + more) }
{
    match number.checked_add(more) {
        Some(sum) => Ok(sum),
        None => Err(uncountable(number as usize)),
    }
}

/// Returns how many elements the list has, where 32 bits hold it; else the call fails as if out of memory. A node
/// that is no list has none.
pub fn count_of(node: &Tree) -> Result<u32, AllocError>
    ensures { IfOk result (λ count. count ≡ table.count_of node.now) }
{
    match node.shape() {
        Shape::List { elements, .. } => {
            let count = step_of(elements.as_slice().len())?;
            Ok(count)
        }
        Shape::Op { .. } => Ok(0),
        Shape::Hole { .. } => Ok(0),
    }
}

/// Returns the number in 32 bits; where they do not hold it the call fails as if out of memory.
fn step_of(number: usize) -> Result<u32, AllocError>
    ensures { IfOk result (λ step. step ≡ number) }
{
    if number < 0x1_0000_0000 {
        Ok(number as u32)
    } else {
        Err(uncountable(number))
    }
}

/// Says whether the node is a placeholder.
pub fn is_hole(node: &Tree) -> bool
    ensures { result ≡ is_hole_of node.now }
{
    match node.shape() {
        Shape::Op { .. } => false,
        Shape::List { .. } => false,
        Shape::Hole { .. } => true,
    }
}
