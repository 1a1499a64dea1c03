//! The wrong places of a program: which one is next, and what is wrong there.
ghost use Rattle.std.specs.Prelude.{None, ◌≡◌, ◌++◌, cond, map, option_copied, IfOk, Some, OnOk};
ghost use Rattle.psg_grammar.specs.Paths.{node_at};
ghost use Rattle.psg_face.specs.Opens as listed;
ghost use Rattle.psg_keymap.specs.Ranges as ranged;
ghost use Rattle.psg_keymap.specs.Repairs.{place_path};
ghost use Rattle.psg_keymap.specs.Views.{why_of};
ghost use Rattle.psg_modes.specs.Wrong as wrong;

use psg_keymap::{Why, copied, path_of};
use psg_keys::Key;
use psg_places::Place;
use psg_terms::Txt;
use psg_tree::{Part, Path, Shape, Tree, at};
use std::alloc::{AllocError, Global};

/// Says whether the key leads to the next wrong place, and not to the one before.
pub fn is_forward(key: Key) -> bool
    ensures { result ≡ wrong.is_forward key }
{
    match key {
        Key::Char(c) => c == 'n',
        _ => false,
    }
}

/// Returns the paths of the places. It fails where memory runs out.
pub fn paths_of(alloc: Global, places: &[Place]) -> Result<Vec<Path>, AllocError>
    ensures { IfOk result (λ paths. paths.items ≡ map place_path places.now) }
{
    let mut paths = Vec::new(alloc);
    for i in 0..places.len() {
        let path = copied(alloc, path_of(&places[i]))?;
        paths.push(path)?;
    }
    Ok(paths)
}

/// Says whether the first path is before the other one in the order of the text.
fn is_before(path: &[u32], other: &[u32]) -> bool
    ensures { result ≡ listed.is_before path.now other.now }
{
    path < other
}

/// Returns the new path where it is wanted, and else the old one.
fn chosen<'a>(wanted: bool, new: &'a Path, old: Option<&'a Path>) -> Option<&'a Path>
    ensures { option_copied result ≡ cond wanted (Some new.now) (option_copied old.entry) }
{
    if wanted { Some(new) } else { old }
}

/// Returns the lesser of both in the order of the text.
fn lesser<'a>(new: &'a Path, old: Option<&'a Path>) -> &'a Path
    ensures { result.now ≡ wrong.lesser new.now (option_copied old.entry) }
{
    match old {
        Some(path) => {
            if is_before(path.steps(), new.steps()) {
                path
            } else {
                new
            }
        }
        None => new,
    }
}

/// Returns the greater of both in the order of the text.
fn greater<'a>(new: &'a Path, old: Option<&'a Path>) -> &'a Path
    ensures { result.now ≡ wrong.greater new.now (option_copied old.entry) }
{
    match old {
        Some(path) => {
            if is_before(path.steps(), new.steps()) {
                new
            } else {
                path
            }
        }
        None => new,
    }
}

/// Returns the least of the paths that are after the path in the order of the text.
fn least_after<'a>(paths: &'a [Path], path: &Path) -> Option<&'a Path>
    ensures { option_copied result ≡ wrong.least_with (λ other. listed.is_before path.now other) None paths.now }
{
    let mut best = None;
    for place in 0..paths.len() {
        let other = &paths[place];
        let found = is_before(path.steps(), other.steps());
        let next = lesser(other, best);
        best = chosen(found, next, best);
    }
    best
}

/// Returns the greatest of the paths that are before the path in the order of the text.
fn greatest_before<'a>(paths: &'a [Path], path: &Path) -> Option<&'a Path>
    ensures { option_copied result ≡ wrong.greatest_with (λ other. listed.is_before other path.now) None paths.now }
{
    let mut best = None;
    for place in 0..paths.len() {
        let other = &paths[place];
        let found = is_before(other.steps(), path.steps());
        let next = greater(other, best);
        best = chosen(found, next, best);
    }
    best
}

/// Returns the least of the paths.
fn least(paths: &[Path]) -> Option<&Path>
    ensures { option_copied result ≡ wrong.least_with wrong.any None paths.now }
{
    let mut best = None;
    for place in 0..paths.len() {
        let next = lesser(&paths[place], best);
        best = Some(next);
    }
    best
}

/// Returns the greatest of the paths.
fn greatest(paths: &[Path]) -> Option<&Path>
    ensures { option_copied result ≡ wrong.greatest_with wrong.any None paths.now }
{
    let mut best = None;
    for place in 0..paths.len() {
        let next = greater(&paths[place], best);
        best = Some(next);
    }
    best
}

/// Returns the first path that there is.
fn one_of<'a>(near: Option<&'a Path>, far: Option<&'a Path>) -> Option<&'a Path>
    ensures { option_copied result ≡ wrong.one_of (option_copied near.entry) (option_copied far.entry) }
{
    match near {
        Some(found) => Some(found),
        None => far,
    }
}

/// Returns the next of the paths in the order of the text after this path, and after the last one the first; or the one
/// before, and before the first one the last at the beginning. The paths may be in any order. `None` where there are
/// none. It passes them twice.
pub fn next_of<'a>(paths: &'a [Path], path: &Path, forward: bool) -> Option<&'a Path>
    ensures { option_copied result ≡ wrong.next_of paths.now path.now forward }
{
    if forward {
        let near = least_after(paths, path);
        let far = least(paths);
        return one_of(near, far);
    }
    let near = greatest_before(paths, path);
    let far = greatest(paths);
    one_of(near, far)
}

/// Says whether both paths are the same.
fn is_same(path: &[u32], other: &[u32]) -> bool
    ensures { result ≡ ranged.is_same path.now other.now }
{
    path == other
}

/// Returns the first of the places that has this path.
pub fn place_of<'a>(places: &'a [Place], path: &Path) -> Option<&'a Place>
    ensures { option_copied result ≡ wrong.place_of places.now path.now }
{
    for number in 0..places.len() {
        let place = &places[number];
        let found = is_same(path_of(place).steps(), path.steps());
        if found {
            return Some(place);
        }
    }
    None
}

/// Returns what is wrong at a blamed place of the program. It fails where memory runs out.
pub fn why_at(alloc: Global, tree: &Tree, place: &Place) -> Result<Why, AllocError>
    ensures { IfOk result (λ why. why_of why ≡ wrong.why_at tree.now place.now) }
{
    match place {
        Place::Node(_) => Ok(Why::Node),
        Place::Element(_) => Ok(Why::Element),
        Place::End(_) => Ok(Why::End),
        Place::Name(path, number) => {
            let names = names_at(alloc, tree, path)?;
            let why = name_why(names.as_slice().get(*number))?;
            Ok(why)
        }
    }
}

/// Returns that the name is wrong, or the node where there is no such name.
fn name_why(name: Option<&Txt>) -> Result<Why, AllocError>
    ensures { IfOk result (λ why. why_of why ≡ wrong.name_why (option_copied name.entry)) }
{
    match name {
        Some(name) => {
            let same = name.share()?;
            Ok(Why::Name(same))
        }
        None => Ok(Why::Node),
    }
}

/// Returns the names of the node at the path, in the order of its items.
fn names_at(alloc: Global, tree: &Tree, path: &Path) -> Result<Vec<Txt>, AllocError>
    ensures { IfOk result (λ names. names.items ≡ wrong.names_at (node_at tree.now path.now)) }
{
    match at(tree, path) {
        Some(node) => {
            let names = names_of(alloc, node)?;
            Ok(names)
        }
        None => Ok(Vec::new(alloc)),
    }
}

/// Returns the names of the node, in the order of its items.
fn names_of(alloc: Global, node: &Tree) -> Result<Vec<Txt>, AllocError>
    ensures { IfOk result (λ names. names.items ≡ wrong.names_of node.now) }
{
    match node.shape() {
        Shape::Op { parts, .. } => {
            let names = names_in(alloc, parts.as_slice())?;
            Ok(names)
        }
        Shape::List { .. } => Ok(Vec::new(alloc)),
        Shape::Hole { .. } => Ok(Vec::new(alloc)),
    }
}

/// Returns the names among the parts, in order.
fn names_in(alloc: Global, parts: &[Part]) -> Result<Vec<Txt>, AllocError>
    ensures { IfOk result (λ names. names.items ≡ wrong.names_in parts.now) }
{
    let mut names = Vec::new(alloc);
    for i in 0..parts.len() {
        push_name(&mut names, &parts[i])?;
    }
    Ok(names)
}

/// Adds the part, if it is a name.
fn push_name(names: &mut Vec<Txt>, part: &Part) -> Result<(), AllocError>
    ensures { OnOk result (names.new.items ≡ names.old.items ++ wrong.name_in part.now) }
{
    match part {
        Part::Name(name) => {
            let same = name.share()?;
            names.push(same)?;
            Ok(())
        }
        Part::Sub(_) => Ok(()),
        Part::Number(_) => Ok(()),
        Part::Text(_) => Ok(()),
    }
}
