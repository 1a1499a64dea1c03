//! Where the arrows lead.
ghost use Rattle.std.specs.Prelude.{◌≡◌, ◌≤◌, ◌++◌, ◌||◌, ◌∷◌, [], cond, is_some, IfOk, take, length, option_copied};
ghost use Rattle.psg_grammar.specs.Paths.{node_at};
ghost use Rattle.psg_face.specs.Moves as moves;

use psg_terms::uncountable;
use psg_tree::{Path, Shape, Tree, at, child_at};
use std::alloc::{AllocError, Global};

/// Returns one more path of the same steps.
pub(crate) fn copied(alloc: Global, path: &Path) -> Result<Path, AllocError>
    ensures { IfOk result (λ same. same ≡ path.now) }
{
    Path::of(alloc, path.steps())
}

/// Says whether the node is an unfinished list with that many elements.
fn is_end(node: &Tree, number: u32) -> bool
    ensures { result ≡ moves.is_end node.now number }
{
    match node.shape() {
        Shape::List {
            elements,
            unfinished,
            ..
        } => *unfinished && elements.as_slice().len() == number as usize,
        Shape::Op { .. } => false,
        Shape::Hole { .. } => false,
    }
}

/// Returns the node to which the steps lead.
fn node_along<'t>(tree: &'t Tree, steps: &[u32]) -> Option<&'t Tree>
    ensures { option_copied result ≡ node_at tree.now steps.now }
{
    let mut node = tree;
    for step in steps {
        match child_at(node, *step) {
            Some(next) => node = next,
            None => return None,
        }
    }
    Some(node)
}

/// Says whether the steps to a list and the last step lead to the `...` of an unfinished list.
fn is_end_along(tree: &Tree, front: &[u32], last: u32) -> bool
    ensures { result ≡ moves.is_end_at (node_at tree.now front.now) last }
{
    match node_along(tree, front) {
        Some(node) => is_end(node, last),
        None => false,
    }
}

/// Says whether the path leads to the `...` of an unfinished list. It walks along the path.
pub fn is_dots(tree: &Tree, path: &Path) -> bool
    ensures { result ≡ moves.is_dots tree.now path.now }
{
    match path.steps().split_last() {
        Some((last, front)) => is_end_along(tree, front, *last),
        None => false,
    }
}

/// Says whether one of both is so.
fn is_either(left: bool, right: bool) -> bool
    ensures { result ≡ (left || right) }
{
    left || right
}

/// Says whether the path leads to a node.
fn is_node(tree: &Tree, path: &Path) -> bool
    ensures { result ≡ is_some (node_at tree.now path.now) }
{
    match at(tree, path) {
        Some(_) => true,
        None => false,
    }
}

/// Says whether the path leads to a node, or to the `...` of an unfinished list. It walks along the path.
pub fn leads(tree: &Tree, path: &Path) -> bool
    ensures { result ≡ moves.leads tree.now path.now }
{
    let node = is_node(tree, path);
    let dots = is_dots(tree, path);
    is_either(node, dots)
}

/// Returns the path without its last step; the top stays the top. It fails where memory runs out.
pub fn parent_of(alloc: Global, path: &Path) -> Result<Path, AllocError>
    ensures { IfOk result (λ led. led ≡ moves.parent_of path.now) }
{
    match path.steps().split_last() {
        Some((_, front)) => {
            let led = Path::of(alloc, front)?;
            Ok(led)
        }
        None => Path::of(alloc, &[]),
    }
}

/// Returns the steps with one more.
pub(crate) fn longer(alloc: Global, steps: &[u32], step: u32) -> Result<Path, AllocError>
    ensures { IfOk result (λ path. path ≡ steps.now ++ step ∷ []) }
{
    let mut more = Vec::from_slice(alloc, steps)?;
    more.push(step)?;
    Path::of(alloc, more.as_slice())
}

/// Returns the other path where it leads somewhere, else the path.
fn led_to(alloc: Global, tree: &Tree, path: &Path, other: Path) -> Result<Path, AllocError>
    ensures { IfOk result (λ led. led ≡ moves.led_to tree.now path.now other) }
{
    if leads(tree, &other) {
        return Ok(other);
    }
    let same = copied(alloc, path)?;
    Ok(same)
}

/// Returns the path of the first child, of a list without elements that of its `...`; the path itself where there is
/// neither. It walks along the path, and fails where memory runs out.
pub fn to_child(alloc: Global, tree: &Tree, path: &Path) -> Result<Path, AllocError>
    ensures { IfOk result (λ led. led ≡ moves.to_child tree.now path.now) }
{
    let other = longer(alloc, path.steps(), 0)?;
    let led = led_to(alloc, tree, path, other)?;
    Ok(led)
}

/// Returns the next step, where 32 bits hold it; else the call fails as if out of memory.
fn step_after(step: u32) -> Result<u32, AllocError>
    ensures { IfOk result (λ next. next ≡ moves.after step) }
{
    match step.checked_add(1) {
        Some(next) => Ok(next),
        None => Err(uncountable(step as usize)),
    }
}

/// Returns the path of the next sibling, after the last element of an unfinished list that of its `...`; the path
/// itself where there is none. It walks along the path, and fails where memory runs out, or at an element whose number
/// has no successor in 32 bits.
pub fn to_next(alloc: Global, tree: &Tree, path: &Path) -> Result<Path, AllocError>
    ensures { IfOk result (λ led. led ≡ moves.to_next tree.now path.now) }
{
    match path.steps().split_last() {
        Some((last, front)) => {
            let step = step_after(*last)?;
            let other = longer(alloc, front, step)?;
            let led = led_to(alloc, tree, path, other)?;
            Ok(led)
        }
        None => Path::of(alloc, &[]),
    }
}

/// Returns the path of the sibling before; the path itself where there is none. It fails where memory runs out.
pub fn to_previous(alloc: Global, path: &Path) -> Result<Path, AllocError>
    ensures { IfOk result (λ led. led ≡ moves.to_previous path.now) }
{
    match path.steps().split_last() {
        Some((last, front)) => {
            let led = longer(alloc, front, last.saturating_sub(1))?;
            Ok(led)
        }
        None => Path::of(alloc, &[]),
    }
}

/// Returns 1 if it is so, and else 0.
fn one_if(so: bool) -> usize
    ensures exact { result ≡ cond so 1 0 }
    ensures small { result ≤ 1 }
{
    if so { 1 } else { 0 }
}

/// Returns how many of the steps lead somewhere. It calls itself once for each of them that leads to a node.
#[tactic(auto, using(crate::proofs::MoveLaws::far_on, crate::proofs::MoveLaws::far_end))]
fn reach(tree: &Tree, steps: &[u32]) -> usize
    ensures within { result ≤ length steps.now }
    ensures far { take result steps.now ≡ moves.as_far tree.now steps.now }
{
    match steps.split_first() {
        Some((step, rest)) => match child_at(tree, *step) {
            Some(next) => {
                let count = reach(next, rest);
                count + 1
            }
            None => {
                let so = is_end(tree, *step);
                one_if(so)
            }
        },
        None => 0,
    }
}

/// Returns the path as far as it leads. It walks along the path, and fails where memory runs out.
pub fn as_far(alloc: Global, tree: &Tree, path: &Path) -> Result<Path, AllocError>
    ensures { IfOk result (λ far. far ≡ moves.as_far tree.now path.now) }
{
    let steps = path.steps();
    let count = reach(tree, steps);
    let far = Path::of(alloc, &steps[..count])?;
    Ok(far)
}
