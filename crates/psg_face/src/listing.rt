//! The open places of a program, and where Tab leads.
ghost use Rattle.std.specs.Prelude.{◌≡◌, ◌+◌, ◌++◌, ◌∷◌, [], cond, Some, IfOk, OnOk, option_copied};
ghost use Rattle.psg_unparse.specs.Splicing.{leads_along};
ghost use Rattle.psg_grammar.specs.Fragments.{operator};
ghost use Rattle.psg_tree.specs.Shapes.{with_parts};
ghost use Rattle.psg_face.specs.Opens as listed;

use crate::moves::{copied, longer};
use psg_terms::uncountable;
use psg_tree::{Part, Path, Shape, Tree};
use std::alloc::{AllocError, Global};

/// Returns the step to the child of the number. For a number that 32 bits do not hold a path has no step, and the call
/// fails as if out of memory.
fn step_of(number: usize) -> Result<u32, AllocError>
    ensures { IfOk result (λ step. step ≡ number) }
{
    if number < 0x1_0000_0000 {
        Ok(number as u32)
    } else {
        Err(uncountable(number))
    }
}

/// Returns the path to the child of the number.
fn below(alloc: Global, path: &[u32], child: usize) -> Result<Path, AllocError>
    ensures { IfOk result (λ led. led ≡ path.now ++ child ∷ []) }
{
    let step = step_of(child)?;
    longer(alloc, path, step)
}

/// Adds the path of the `...` of a list with that many elements, if it is unfinished.
fn push_dots(
    alloc: Global,
    path: &[u32],
    elements: usize,
    unfinished: bool,
    found: &mut Vec<Path>,
) -> Result<(), AllocError>
    ensures { OnOk result (found.new.items ≡ found.old.items ++ cond unfinished ((path.now ++ elements ∷ []) ∷ []) []) }
{
    if unfinished {
        let dots = below(alloc, path, elements)?;
        found.push(dots)?;
    }
    Ok(())
}

/// Returns how many children the part is.
fn children_in(part: &Part) -> usize
    ensures { result ≡ listed.children_in part.now }
{
    match part {
        Part::Sub(_) => 1,
        Part::Name(_) => 0,
        Part::Number(_) => 0,
        Part::Text(_) => 0,
    }
}

/// Adds both. Where 64 bits do not hold the sum, the call fails as if out of memory.
fn plus(left: usize, right: usize) -> Result<usize, AllocError>
    ensures { IfOk result (λ sum. sum ≡ left + right) }
{
    match left.checked_add(right) {
        Some(sum) => Ok(sum),
        None => Err(uncountable(left.max(right))),
    }
}

/// Adds the open places of a part of the node at the path.
#[cycle(opens)]
fn push_part(
    alloc: Global,
    path: &[u32],
    children: usize,
    part: &Part,
    found: &mut Vec<Path>,
) -> Result<(), AllocError>
    ensures { OnOk result (found.new.items ≡ found.old.items ++ listed.part_opens path.now children part.now) }
{
    match part {
        Part::Sub(tree) => {
            let inner = below(alloc, path, children)?;
            push_opens(alloc, inner.steps(), tree, found)?;
            Ok(())
        }
        Part::Name(_) => Ok(()),
        Part::Number(_) => Ok(()),
        Part::Text(_) => Ok(()),
    }
}

/// Adds the open places of the parts of the node at the path.
#[cycle(opens)]
fn push_parts(
    alloc: Global,
    op: u32,
    path: &[u32],
    parts: &[Part],
    found: &mut Vec<Path>,
) -> Result<(), AllocError>
    ensures { OnOk result (found.new.items
        ≡ found.old.items ++ listed.opens_from path.now 0 (with_parts (operator op) parts.now)) }
{
    let mut children = 0;
    for i in 0..parts.len() {
        let part = &parts[i];
        push_part(alloc, path, children, part, found)?;
        let own_children = children_in(part);
        let more_children = plus(children, own_children)?;
        children = more_children;
    }
    Ok(())
}

/// Adds the open places of the elements of the list at the path.
#[cycle(opens)]
fn push_elements(
    alloc: Global,
    path: &[u32],
    elements: &[Tree],
    found: &mut Vec<Path>,
) -> Result<(), AllocError>
    ensures { OnOk result (found.new.items ≡ found.old.items ++ listed.elements_opens path.now 0 elements.now) }
{
    for i in 0..elements.len() {
        let inner = below(alloc, path, i)?;
        push_opens(alloc, inner.steps(), &elements[i], found)?;
    }
    Ok(())
}

/// Adds the path of a placeholder.
fn push_hole(alloc: Global, path: &[u32], found: &mut Vec<Path>) -> Result<(), AllocError>
    ensures { OnOk result (found.new.items ≡ found.old.items ++ path.now ∷ []) }
{
    let hole = Path::of(alloc, path)?;
    found.push(hole)?;
    Ok(())
}

/// Adds the open places of the node at the path.
#[cycle(opens)]
fn push_opens(
    alloc: Global,
    path: &[u32],
    tree: &Tree,
    found: &mut Vec<Path>,
) -> Result<(), AllocError>
    ensures { OnOk result (found.new.items ≡ found.old.items ++ listed.opens_from path.now 0 tree.now) }
{
    match tree.shape() {
        Shape::Op { op, parts } => {
            push_parts(alloc, *op, path, parts.as_slice(), found)?;
            Ok(())
        }
        Shape::List {
            elements,
            unfinished,
            ..
        } => {
            let row = elements.as_slice();
            push_elements(alloc, path, row, found)?;
            push_dots(alloc, path, row.len(), *unfinished, found)?;
            Ok(())
        }
        Shape::Hole { .. } => {
            push_hole(alloc, path, found)?;
            Ok(())
        }
    }
}

/// Lists the open places of a program in the order of the text: the paths of its placeholders, and those of the `...`
/// of its unfinished lists. It walks once over the tree, and copies the path of each node. It fails where memory runs
/// out, or where 32 bits do not count the children of a node.
pub fn opens(alloc: Global, tree: &Tree) -> Result<Vec<Path>, AllocError>
    ensures { IfOk result (λ found. found.items ≡ listed.opens tree.now) }
{
    let mut found = Vec::new(alloc);
    push_opens(alloc, &[], tree, &mut found)?;
    Ok(found)
}

/// Says whether the first path is before the other one in the order of the text.
fn is_before(path: &[u32], other: &[u32]) -> bool
    ensures { result ≡ listed.is_before path.now other.now }
{
    path < other
}

/// Says whether the first path is that of the other one or of a node above it.
fn leads_along(above: &[u32], path: &[u32]) -> bool
    ensures { result ≡ leads_along above.now path.now }
{
    path.starts_with(above)
}

/// Returns the first of the paths that is after the path in the order of the text.
fn first_after<'a>(paths: &'a [Path], path: &Path) -> Option<&'a Path>
    ensures { option_copied result ≡ listed.first_after path.now paths.now }
{
    for place in 0..paths.len() {
        let other = &paths[place];
        let found = is_before(path.steps(), other.steps());
        if found {
            return Some(other);
        }
    }
    None
}

/// Returns the new path where it is wanted, and else the old one.
fn chosen<'a>(wanted: bool, new: &'a Path, old: Option<&'a Path>) -> Option<&'a Path>
    ensures { option_copied result ≡ cond wanted (Some new.now) (option_copied old.entry) }
{
    if wanted { Some(new) } else { old }
}

/// Returns the last of the paths that is before the path in the order of the text.
fn last_before<'a>(paths: &'a [Path], path: &Path) -> Option<&'a Path>
    ensures { option_copied result ≡ listed.last_before path.now paths.now }
{
    let mut last = None;
    for place in 0..paths.len() {
        let other = &paths[place];
        let found = is_before(other.steps(), path.steps());
        last = chosen(found, other, last);
    }
    last
}

/// Returns the first of the paths that leads to the node at the path or to a place below it.
fn first_below<'a>(paths: &'a [Path], path: &Path) -> Option<&'a Path>
    ensures { option_copied result ≡ listed.first_below path.now paths.now }
{
    for place in 0..paths.len() {
        let other = &paths[place];
        let found = leads_along(path.steps(), other.steps());
        if found {
            return Some(other);
        }
    }
    None
}

/// Returns the first path that there is: one of both, or else the last one.
fn first_of<'a>(near: Option<&'a Path>, far: Option<&'a Path>, path: &'a Path) -> &'a Path
    ensures { result.now ≡ listed.first_of (option_copied near.entry) (option_copied far.entry) path.now }
{
    match near {
        Some(found) => found,
        None => match far {
            Some(found) => found,
            None => path,
        },
    }
}

/// Returns the path of the next open place after the path in the order of the text, else of the first one, else the
/// path. It walks once over the tree, and fails as `opens` does.
pub fn next_open(alloc: Global, tree: &Tree, path: &Path) -> Result<Path, AllocError>
    ensures { IfOk result (λ led. led ≡ listed.next_open tree.now path.now) }
{
    let found = opens(alloc, tree)?;
    let paths = found.as_slice();
    let near = first_after(paths, path);
    let far = paths.first();
    let next = first_of(near, far, path);
    let led = copied(alloc, next)?;
    Ok(led)
}

/// Returns the path of the last open place before the path in the order of the text, else of the last one, else the
/// path. It walks once over the tree, and fails as `opens` does.
pub fn previous_open(alloc: Global, tree: &Tree, path: &Path) -> Result<Path, AllocError>
    ensures { IfOk result (λ led. led ≡ listed.previous_open tree.now path.now) }
{
    let found = opens(alloc, tree)?;
    let paths = found.as_slice();
    let near = last_before(paths, path);
    let far = paths.last();
    let next = first_of(near, far, path);
    let led = copied(alloc, next)?;
    Ok(led)
}

/// Returns the path of the first open place at the path or below it, else of the next one after it, else of the first
/// one, else the path. It walks once over the tree, and fails as `opens` does.
pub fn open_below(alloc: Global, tree: &Tree, path: &Path) -> Result<Path, AllocError>
    ensures { IfOk result (λ led. led ≡ listed.open_below tree.now path.now) }
{
    let found = opens(alloc, tree)?;
    let paths = found.as_slice();
    let near = first_after(paths, path);
    let far = paths.first();
    let next = first_of(near, far, path);
    let inside = first_below(paths, path);
    let below = first_of(inside, Some(next), path);
    let led = copied(alloc, below)?;
    Ok(led)
}
