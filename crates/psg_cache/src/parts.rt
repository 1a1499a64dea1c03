//! The parts of trees and of paths.
ghost use Rattle.std.specs.Prelude.{◌≡◌, ◌<◌, ◌^◌, ◌++◌, ◌∷◌, [], length, IfOk, IsOk, Some, slice_get};
ghost use Rattle.psg_grammar.specs.Fragments.{children_of};
ghost use Rattle.psg_tree.specs.Shapes.{subtrees};
ghost use Rattle.psg_cache.specs.Walks.{names_in};

use psg_eval::Tables;
use psg_grammar::Definition;
use psg_terms::{Txt, uncountable};
use psg_tree::{Part, Shape, Tree, child_at};
use std::alloc::{AllocError, Global};

/// The language of a walk.
#[derive(Clone, Copy)]
pub(crate) struct Language<'a> {
    pub(crate) definition: &'a Definition,
    /// What is made of the definition once for its evaluations.
    pub(crate) tables: &'a Tables,
}

/// Returns the subtrees among the parts, each with one more owner.
fn subtrees_of(alloc: Global, parts: &[Part]) -> Result<Vec<Tree>, AllocError>
    ensures { IfOk result (λ found. found.items ≡ subtrees parts.now) }
{
    let mut found = Vec::new(alloc);
    for part in parts {
        if let Part::Sub(child) = part {
            found.push(child.share()?)?;
        }
    }
    Ok(found)
}

/// Returns the names among the parts, each with one more owner.
pub(crate) fn names_of(alloc: Global, parts: &[Part]) -> Result<Vec<Txt>, AllocError>
    ensures { IfOk result (λ found. found.items ≡ names_in parts.now) }
{
    let mut found = Vec::new(alloc);
    for part in parts {
        if let Part::Name(name) = part {
            found.push(name.share()?)?;
        }
    }
    Ok(found)
}

/// Returns the trees, each with one more owner.
fn copies_of(alloc: Global, trees: &[Tree]) -> Result<Vec<Tree>, AllocError>
    ensures { IfOk result (λ found. found.items ≡ trees.now) }
{
    let mut found = Vec::new(alloc);
    for tree in trees {
        let copy = tree.share()?;
        found.push(copy)?;
    }
    Ok(found)
}

/// Returns the children of a node, each with one more owner.
pub(crate) fn children(alloc: Global, tree: &Tree) -> Result<Vec<Tree>, AllocError>
    ensures { IfOk result (λ found. found.items ≡ children_of tree.now) }
{
    match tree.shape() {
        Shape::Op { parts, .. } => {
            let found = subtrees_of(alloc, parts.as_slice())?;
            Ok(found)
        }
        Shape::List { elements, .. } => {
            let found = copies_of(alloc, elements.as_slice())?;
            Ok(found)
        }
        Shape::Hole { .. } => Ok(Vec::new(alloc)),
    }
}

/// Returns the step to the child of the number. Exactly for a number that 32 bits do not hold a path has no step, and
/// the call fails as if out of memory.
pub(crate) fn step_of(number: usize) -> Result<u32, AllocError>
    ensures step { IfOk result (λ step. step ≡ number) }
    ensures fits { number < 2 ^ 32 → IsOk result }
{
    if number < 0x1_0000_0000 {
        Ok(number as u32)
    } else {
        Err(uncountable(number))
    }
}

/// Returns the steps with one more after them.
pub(crate) fn longer(alloc: Global, steps: &[u32], step: u32) -> Result<Vec<u32>, AllocError>
    ensures { IfOk result (λ all. all.items ≡ steps.now ++ step ∷ []) }
{
    let mut all = Vec::from_slice(alloc, steps)?;
    all.push(step)?;
    Ok(all)
}

/// Returns the child of a node by its number, from 0.
pub(crate) fn child_of(tree: &Tree, number: u32) -> &Tree
    requires { number < length (children_of tree.now) }
    ensures { slice_get (children_of tree.now) number ≡ Some result.now }
{
    match child_at(tree, number) {
        Some(child) => child,
        None => unreachable!(),
    }
}
