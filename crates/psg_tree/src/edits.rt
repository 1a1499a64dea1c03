//! Trees with another list at a path.
ghost use Rattle.std.specs.Prelude.{◌≡◌, ◌<◌, ◌≤◌, ◌++◌, ◌∷◌, length, take, drop, suc, IfOk, IfErr, OnOk};
ghost use Rattle.psg_tree.specs.Shapes.{list_of};
ghost use Rattle.psg_tree.specs.Edits as edits;

use crate::path::Path;
use crate::places::{TreeFault, at, replace};
use crate::tree::{Shape, Tree};
use psg_terms::Seq;
use std::alloc::{AllocError, Global};

/// Adds one more owner of each of the elements.
fn push_shared(made: &mut Vec<Tree>, elements: &[Tree]) -> Result<(), AllocError>
    ensures { OnOk result (made.new.items ≡ made.old.items ++ elements.now) }
{
    for element in elements {
        made.push(element.share()?)?;
    }
    Ok(())
}

/// Returns the elements with one more before the place.
fn with_more(
    alloc: Global,
    elements: &[Tree],
    place: usize,
    new: &Tree,
) -> Result<Vec<Tree>, AllocError>
    requires { place ≤ length elements.now }
    ensures { IfOk result (λ made. made.items
        ≡ take place elements.now ++ new.now ∷ drop place elements.now) }
{
    let (before, behind) = elements.split_at(place);
    let mut made = Vec::with_capacity(alloc, elements.len() + 1)?;
    push_shared(&mut made, before)?;
    made.push(new.share()?)?;
    push_shared(&mut made, behind)?;
    Ok(made)
}

/// Returns the elements without the one at the place.
fn with_less(alloc: Global, elements: &[Tree], place: usize) -> Result<Vec<Tree>, AllocError>
    requires { place < length elements.now }
    ensures { IfOk result (λ made. made.items
        ≡ take place elements.now ++ drop (suc place) elements.now) }
{
    let mut made = Vec::with_capacity(alloc, elements.len())?;
    push_shared(&mut made, &elements[..place])?;
    push_shared(&mut made, &elements[place + 1..])?;
    Ok(made)
}

/// Returns the list of the elements.
fn list_tree(
    alloc: Global,
    list: u32,
    elements: Vec<Tree>,
    unfinished: bool,
) -> Result<Tree, AllocError>
    ensures { IfOk result (λ tree. tree ≡ list_of list elements.items unfinished) }
{
    Tree::new(
        alloc,
        Shape::List {
            list,
            elements: Seq::of(elements),
            unfinished,
        },
    )
}

/// Returns the list with one more element before the place.
fn inserted(alloc: Global, node: &Tree, place: u32, new: &Tree) -> Result<Tree, TreeFault>
    ensures ok { IfOk result (edits.IsLonger node.now place new.now) }
    ensures err { IfErr result (edits.IsLongerFault node.now place) }
{
    match node.shape() {
        Shape::List {
            list,
            elements,
            unfinished,
        } => {
            let elements = elements.as_slice();
            if place as usize > elements.len() {
                return Err(TreeFault::NoPlace);
            }
            let more = with_more(alloc, elements, place as usize, new)?;
            Ok(list_tree(alloc, *list, more, *unfinished)?)
        }
        Shape::Op { .. } => Err(TreeFault::NotList),
        Shape::Hole { .. } => Err(TreeFault::NotList),
    }
}

/// Returns the list without the element at the place.
fn removed(alloc: Global, node: &Tree, place: u32) -> Result<Tree, TreeFault>
    ensures ok { IfOk result (edits.IsShorter node.now place) }
    ensures err { IfErr result (edits.IsShorterFault node.now place) }
{
    match node.shape() {
        Shape::List {
            list,
            elements,
            unfinished,
        } => {
            let elements = elements.as_slice();
            if place as usize >= elements.len() {
                return Err(TreeFault::NoPlace);
            }
            let less = with_less(alloc, elements, place as usize)?;
            Ok(list_tree(alloc, *list, less, *unfinished)?)
        }
        Shape::Op { .. } => Err(TreeFault::NotList),
        Shape::Hole { .. } => Err(TreeFault::NotList),
    }
}

/// Returns the list, unfinished or finished as wanted.
fn ended(alloc: Global, node: &Tree, unfinished: bool) -> Result<Tree, TreeFault>
    ensures ok { IfOk result (edits.IsEnded node.now unfinished) }
    ensures err { IfErr result (edits.IsEndedFault node.now) }
{
    match node.shape() {
        Shape::List { list, elements, .. } => {
            let mut same = Vec::with_capacity(alloc, elements.as_slice().len())?;
            push_shared(&mut same, elements.as_slice())?;
            Ok(list_tree(alloc, *list, same, unfinished)?)
        }
        Shape::Op { .. } => Err(TreeFault::NotList),
        Shape::Hole { .. } => Err(TreeFault::NotList),
    }
}

/// Returns the tree with one more element before the place of the list at the path. `NoNode` is returned exactly where
/// the path leads to no node, `NotList` exactly where the node is no list, and `NoPlace` exactly where the place is
/// above the number of elements. It walks along the path twice, and makes the nodes on it and the list again.
pub fn insert(
    alloc: Global,
    tree: &Tree,
    path: &Path,
    place: u32,
    new: &Tree,
) -> Result<Tree, TreeFault>
    ensures ok { IfOk result (edits.IsInserted tree.now path.now place new.now) }
    ensures err { IfErr result (edits.IsInsertFault tree.now path.now place) }
{
    match at(tree, path) {
        None => Err(TreeFault::NoNode),
        Some(node) => {
            let changed = inserted(alloc, node, place, new)?;
            replace(alloc, tree, path, &changed)
        }
    }
}

/// Returns the tree without the element at the place of the list at the path. `NoNode` and `NotList` are returned as in
/// `insert`, and `NoPlace` exactly where the place isn't below the number of elements. Its cost is that of `insert`.
pub fn remove(alloc: Global, tree: &Tree, path: &Path, place: u32) -> Result<Tree, TreeFault>
    ensures ok { IfOk result (edits.IsRemoved tree.now path.now place) }
    ensures err { IfErr result (edits.IsRemoveFault tree.now path.now place) }
{
    match at(tree, path) {
        None => Err(TreeFault::NoNode),
        Some(node) => {
            let changed = removed(alloc, node, place)?;
            replace(alloc, tree, path, &changed)
        }
    }
}

/// Returns the tree with the list at the path unfinished or finished as wanted. `NoNode` and `NotList` are returned as
/// in `insert`, and `NoPlace` never. Its cost is that of `insert`.
pub fn set_unfinished(
    alloc: Global,
    tree: &Tree,
    path: &Path,
    unfinished: bool,
) -> Result<Tree, TreeFault>
    ensures ok { IfOk result (edits.IsSet tree.now path.now unfinished) }
    ensures err { IfErr result (edits.IsSetFault tree.now path.now) }
{
    match at(tree, path) {
        None => Err(TreeFault::NoNode),
        Some(node) => {
            let changed = ended(alloc, node, unfinished)?;
            replace(alloc, tree, path, &changed)
        }
    }
}
