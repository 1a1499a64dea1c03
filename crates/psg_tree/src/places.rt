//! The nodes of a tree by path, and trees with another node at a path.
ghost use Rattle.std.specs.Prelude.{◌≡◌, ◌∷◌, [], length, slice_get, cond, IfOk, IfErr};
ghost use Rattle.std.specs.Option.{option_copied};
ghost use Rattle.psg_grammar.specs.Fragments.{children_of};
ghost use Rattle.psg_grammar.specs.Paths.{node_at, put_child};
ghost use Rattle.psg_tree.specs.Shapes.{tree_of, child_among, subtrees, chosen_part, put_part, put_element};
ghost use Rattle.psg_tree.specs.Faults.{IsReplaced, IsReplaceFault};
ghost use Rattle.psg_tree.specs.declared.places.TreeFault.TheVariants.{Memory};

use crate::path::Path;
use crate::tree::{Part, Shape, Tree};
use psg_terms::Seq;
use std::alloc::{AllocError, AllocFailed, Global};
use thiserror::Error;

/// The reason why a tree was not changed.
#[derive(Clone, Copy, Debug, PartialEq, Eq, Error, Drop)]
pub enum TreeFault {
    /// The path leads to no node.
    #[error("the path leads to no node")]
    NoNode,
    /// The node at the path is no list.
    #[error("the node is no list")]
    NotList,
    /// The list at the path has no such place.
    #[error("the list has no such place")]
    NoPlace,
    /// Memory ran out.
    #[error("there is no memory left")]
    Memory,
}

impl<T: Drop> From<AllocFailed<T>> for TreeFault {
    ghost from_gives = { λ _ e. e ≡ Memory };

    fn from(_stop: AllocFailed<T>) -> TreeFault {
        TreeFault::Memory
    }
}

impl From<AllocError> for TreeFault {
    ghost from_gives = { λ _ e. e ≡ Memory };

    fn from(_stop: AllocError) -> TreeFault {
        TreeFault::Memory
    }
}

/// Returns the subtree of the given number among an operator's parts, from 0.
fn sub_at(parts: &[Part], number: u32) -> Option<&Tree>
    ensures { option_copied result ≡ child_among parts.now number }
{
    let mut left = number;
    for part in parts {
        if let Part::Sub(child) = part {
            if left == 0 {
                return Some(child);
            }
            left -= 1;
        }
    }
    None
}

/// Returns the child of a node by its number, from 0, and none exactly where the node has fewer children. It walks over
/// the parts of an operator.
pub fn child_at(tree: &Tree, number: u32) -> Option<&Tree>
    ensures { option_copied result ≡ slice_get (children_of tree.now) number }
{
    match tree.shape() {
        Shape::Op { parts, .. } => sub_at(parts.as_slice(), number),
        Shape::List { elements, .. } => elements.as_slice().get(number as usize),
        Shape::Hole { .. } => None,
    }
}

/// Returns the node at a path, or `None` exactly where the path leads to no node. It walks along the path, and over the
/// parts of the operators on it.
pub fn at<'t>(tree: &'t Tree, path: &Path) -> Option<&'t Tree>
    ensures { option_copied result ≡ node_at tree.now path.now }
{
    let mut node = tree;
    for step in path.steps() {
        match child_at(node, *step) {
            Some(next) => node = next,
            None => return None,
        }
    }
    Some(node)
}

/// Returns the new tree where it is wanted, and else the old one.
fn chosen<'t>(wanted: bool, new: &'t Tree, old: &'t Tree) -> &'t Tree
    ensures { result.now ≡ cond wanted new.now old.now }
{
    if wanted { new } else { old }
}

/// Returns one more owner of what the part has, with the new tree in place of its subtree where that is wanted.
fn changed_part(wanted: bool, new: &Tree, part: &Part) -> Result<Part, AllocError>
    ensures { IfOk result (λ p. p ≡ chosen_part wanted new.now part.now) }
{
    match part {
        Part::Sub(old) => Ok(Part::Sub(chosen(wanted, new, old).share()?)),
        Part::Name(name) => Ok(Part::Name(name.share()?)),
        Part::Number(value) => Ok(Part::Number(*value)),
        Part::Text(text) => Ok(Part::Text(text.share()?)),
    }
}

/// Returns how many subtrees the part is: one or none.
fn subtrees_in(part: &Part) -> usize
    ensures { result ≡ length (subtrees (part.now ∷ [])) }
{
    match part {
        Part::Sub(_) => 1,
        _ => 0,
    }
}

/// Returns the parts with another subtree of the given number.
fn with_part(
    alloc: Global,
    parts: &[Part],
    number: u32,
    new: &Tree,
) -> Result<Vec<Part>, AllocError>
    ensures { IfOk result (λ made. made.items ≡ put_part new.now number parts.now) }
{
    let mut made = Vec::with_capacity(alloc, parts.len())?;
    let mut seen: usize = 0;
    for part in parts {
        let copy = changed_part(seen == number as usize, new, part)?;
        made.push(copy)?;
        seen += subtrees_in(part);
    }
    Ok(made)
}

/// Returns the elements with another one at the given number.
fn with_element(
    alloc: Global,
    elements: &[Tree],
    number: u32,
    new: &Tree,
) -> Result<Vec<Tree>, AllocError>
    ensures { IfOk result (λ made. made.items ≡ put_element new.now number elements.now) }
{
    let mut made = Vec::with_capacity(alloc, elements.len())?;
    for i in 0..elements.len() {
        let copy = chosen(i == number as usize, new, &elements[i]).share()?;
        made.push(copy)?;
    }
    Ok(made)
}

/// Returns the tree with another child of the given number.
fn with_child(alloc: Global, tree: &Tree, number: u32, new: &Tree) -> Result<Tree, AllocError>
    ensures { IfOk result (λ t. t ≡ put_child new.now number tree.now) }
{
    match tree.shape() {
        Shape::Op { op, parts } => {
            let parts = with_part(alloc, parts.as_slice(), number, new)?;
            Ok(Tree::new(
                alloc,
                Shape::Op {
                    op: *op,
                    parts: Seq::of(parts),
                },
            )?)
        }
        Shape::List {
            list,
            elements,
            unfinished,
        } => {
            let elements = with_element(alloc, elements.as_slice(), number, new)?;
            Ok(Tree::new(
                alloc,
                Shape::List {
                    list: *list,
                    elements: Seq::of(elements),
                    unfinished: *unfinished,
                },
            )?)
        }
        Shape::Hole { .. } => Ok(tree.share()?),
    }
}

/// Returns the tree with another node after these steps.
fn replace_below(alloc: Global, tree: &Tree, steps: &[u32], new: &Tree) -> Result<Tree, TreeFault>
    ensures ok { IfOk result (IsReplaced tree.now steps.now new.now) }
    ensures err { IfErr result (IsReplaceFault tree.now steps.now) }
{
    match steps {
        [] => Ok(new.share()?),
        [step, rest @ ..] => match child_at(tree, *step) {
            None => Err(TreeFault::NoNode),
            Some(inner) => {
                let changed = replace_below(alloc, inner, rest, new)?;
                let made = with_child(alloc, tree, *step, &changed)?;
                Ok(made)
            }
        },
    }
}

/// Returns the tree with another node at the path, or `NoNode` exactly where the path leads to no node. The nodes on
/// the path are made again, and all others shared.
pub fn replace(alloc: Global, tree: &Tree, path: &Path, new: &Tree) -> Result<Tree, TreeFault>
    ensures ok { IfOk result (IsReplaced tree.now path.now new.now) }
    ensures err { IfErr result (IsReplaceFault tree.now path.now) }
{
    let made = replace_below(alloc, tree, path.steps(), new)?;
    Ok(made)
}
