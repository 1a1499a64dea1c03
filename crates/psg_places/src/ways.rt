//! Where a node of a tree is in the tree of its kept places, and where a node of that tree is in the whole one.
ghost use Rattle.std.specs.Prelude.{◌≡◌, ◌-◌, ◌&&◌, [], nat_eq, nat_lt, IfOk};
ghost use Rattle.std.specs.Cmp.Lexicographic.{pointwise};
ghost use Rattle.psg_places.specs.Ways as ways;
ghost use Rattle.psg_places.specs.Ways.{IsBack, IsElementBack, there_of};

use crate::numbers::{one_if, plus, step_of};
use crate::place::Place;
use psg_tree::Path;
use std::alloc::{AllocError, Global};

/// Says whether the path `at` leads to the node at the path or to one above it.
fn goes_through(at: &[u32], path: &[u32]) -> bool
    ensures { result ≡ ways.goes_through at.now path.now }
{
    path.starts_with(at)
}

/// Says whether the path `at` leads to a node below the top, and to the node at the path or to one above it.
fn goes_into(at: &[u32], path: &[u32]) -> bool
    ensures { result ≡ ways.goes_into at.now path.now }
{
    if at.is_empty() {
        return false;
    }
    goes_through(at, path)
}

/// Says whether the path `at` leads to a node above the one at the path.
fn goes_past(at: &[u32], path: &[u32]) -> bool
    ensures { result ≡ ways.goes_past at.now path.now }
{
    at.len() < path.len() && goes_through(at, path)
}

/// Says whether the node at the path is below the placeholder that the place becomes.
fn covers(path: &[u32], place: &Place) -> bool
    ensures { result ≡ ways.covers path.now place.now }
{
    match place {
        Place::Node(at) => goes_past(at.steps(), path),
        Place::Element(_) => false,
        Place::End(_) => false,
        Place::Name(_, _) => false,
    }
}

/// Says whether the node at the path is left out with the place.
fn takes_along(path: &[u32], place: &Place) -> bool
    ensures { result ≡ ways.takes_along path.now place.now }
{
    match place {
        Place::Node(_) => false,
        Place::Element(at) => goes_into(at.steps(), path),
        Place::End(_) => false,
        Place::Name(_, _) => false,
    }
}

/// Says whether the node at the path is below a placeholder that an opened place becomes.
fn is_covered(opened: &[Place], path: &[u32]) -> bool
    ensures { result ≡ ways.is_covered opened.now path.now }
{
    opened.iter().any(|place| covers(path, place))
}

/// Says whether the node at the path is left out with an opened place.
fn is_left_out(opened: &[Place], path: &[u32]) -> bool
    ensures { result ≡ ways.is_left_out opened.now path.now }
{
    opened.iter().any(|place| takes_along(path, place))
}

/// Says whether the number is less than the other, and both paths are the same.
fn is_below(number: u32, many: usize, path: &[u32], other: &[u32]) -> bool
    ensures { result ≡ (nat_lt number many && pointwise nat_eq path.now other.now) }
{
    (number as usize) < many && path == other
}

/// Says whether the path `at` leads to an element of the list at the path, one of that many at its front.
fn goes_before(many: usize, path: &[u32], at: &[u32]) -> bool
    ensures { result ≡ ways.goes_before many path.now at.now }
{
    match at.split_last() {
        Some((number, list)) => is_below(*number, many, list, path),
        None => false,
    }
}

/// Says whether the place is an element of the list at the path, one of that many at its front.
fn is_earlier(path: &[u32], many: usize, place: &Place) -> bool
    ensures { result ≡ ways.is_earlier path.now many place.now }
{
    match place {
        Place::Node(_) => false,
        Place::Element(at) => goes_before(many, path, at.steps()),
        Place::End(_) => false,
        Place::Name(_, _) => false,
    }
}

/// Counts the opened places among that many elements at the front of the list at the path.
fn earlier(opened: &[Place], path: &[u32], many: usize) -> usize
    ensures { result ≡ ways.earlier opened.now path.now many }
{
    let mut total = 0;
    for place in opened {
        let so = is_earlier(path, many, place);
        let more = one_if(so);
        total += more;
    }
    total
}

/// Returns the step less by so much, and 0 where that is more.
fn less(step: u32, much: usize) -> u32
    ensures { result ≡ step - much }
{
    if much < step as usize {
        step - much as u32
    } else {
        0
    }
}

/// Returns the steps in the tree of the kept places.
fn moved(alloc: Global, opened: &[Place], path: &[u32]) -> Result<Vec<u32>, AllocError>
    ensures { IfOk result (λ steps. steps.items ≡ ways.moved opened.now [] path.now) }
{
    let mut steps = Vec::new(alloc);
    let mut at = Vec::new(alloc);
    let mut left = path;
    'steps: while let Some((step, rest)) = left.split_first() {
        let before = earlier(opened, at.as_slice(), *step as usize);
        let there = less(*step, before);
        steps.push(there)?;
        at.push(*step)?;
        left = rest;
    }
    Ok(steps)
}

/// Returns the path in the tree of the kept places of the node at the path in the whole tree, where the list has the
/// places that are opened. A node that is opened itself is there as its placeholder. The call returns `None` exactly
/// for a node that is not there: one below a placeholder that an opened place becomes, or one that is left out. It
/// passes the places twice, and once more for each step. An error says that memory ran out.
pub fn path_there(alloc: Global, opened: &[Place], path: &Path) -> Result<Option<Path>, AllocError>
    ensures { IfOk result (λ found. found ≡ there_of opened.now path.now) }
{
    if is_covered(opened, path.steps()) {
        return Ok(None);
    }
    if is_left_out(opened, path.steps()) {
        return Ok(None);
    }
    let steps = moved(alloc, opened, path.steps())?;
    let there = Path::of(alloc, steps.as_slice())?;
    Ok(Some(there))
}

/// Returns the number in the whole tree of the element that has the number in the tree of the kept places, in the list
/// at the path. It counts once, and again each time that more elements before are left out than were counted.
fn element_back(opened: &[Place], at: &[u32], step: u32) -> Result<u32, AllocError>
    ensures { IfOk result (IsElementBack opened.now at.now step) }
{
    let mut back = step as usize;
    let after = plus(back, 1)?;
    let before = earlier(opened, at, after);
    let mut next = plus(back, before)?;
    'counts: while back < next {
        back = next;
        let more = plus(next, 1)?;
        let count = earlier(opened, at, more);
        let sum = plus(step as usize, count)?;
        next = sum;
    }
    let found = step_of(back)?;
    Ok(found)
}

/// Returns the path in the whole tree of the node at the path in the tree of the kept places, where the list has the
/// places that are opened. It passes the places once for each step, and once more for each run of elements that are
/// left out before. An error says that memory ran out, or that no path has a step so far.
pub fn path_back(alloc: Global, opened: &[Place], path: &Path) -> Result<Path, AllocError>
    ensures { IfOk result (IsBack opened.now path.now) }
{
    let mut at = Vec::new(alloc);
    let mut left = path.steps();
    'steps: while let Some((step, rest)) = left.split_first() {
        let back = element_back(opened, at.as_slice(), *step)?;
        at.push(back)?;
        left = rest;
    }
    let found = Path::of(alloc, at.as_slice())?;
    Ok(found)
}
