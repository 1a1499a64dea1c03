//! Moves in one tree, which were worked out by hand.
use psg_face::{
    as_far, leads, next_open, open_below, opens, parent_of, previous_open, to_child, to_next,
    to_previous,
};
use psg_terms::{Seq, Txt};
use psg_tree::{Part, Path, Shape, Tree};
use std::alloc::{AllocError, Global};
use std::process::Abort;
use std::test::Fail;

/// Where a move leads from a path.
type Row = (&'static str, &'static str, &'static str);

/// An operator with a placeholder `/0`; a name; an unfinished list `/1` of an operator `/1/0` and a placeholder `/1/1`; a
/// number; a finished list `/2` and an unfinished one `/3` without elements. So its open places are those of `OPENS`.
const ROWS: &[Row] = &[
    ("up", "/1/2", "/1"),
    ("up", "/0", "/"),
    ("up", "/", "/"),
    ("down", "/", "/0"),
    ("down", "/0", "/0"),
    ("down", "/1", "/1/0"),
    ("down", "/2", "/2"),
    ("down", "/3", "/3/0"),
    ("down", "/3/0", "/3/0"),
    ("right", "/", "/"),
    ("right", "/0", "/1"),
    ("right", "/1/0", "/1/1"),
    ("right", "/1/1", "/1/2"),
    ("right", "/1/2", "/1/2"),
    ("right", "/2", "/3"),
    ("right", "/3", "/3"),
    ("left", "/1", "/0"),
    ("left", "/0", "/0"),
    ("left", "/1/2", "/1/1"),
    ("left", "/", "/"),
    ("tab", "/", "/0"),
    ("tab", "/0", "/1/1"),
    ("tab", "/1", "/1/1"),
    ("tab", "/1/1", "/1/2"),
    ("tab", "/1/2", "/3/0"),
    ("tab", "/2", "/3/0"),
    ("tab", "/3/0", "/0"),
    ("back", "/", "/3/0"),
    ("back", "/0", "/3/0"),
    ("back", "/1", "/0"),
    ("back", "/1/2", "/1/1"),
    ("back", "/3", "/1/2"),
    ("back", "/3/0", "/1/2"),
    ("below", "/", "/0"),
    ("below", "/0", "/0"),
    ("below", "/1", "/1/1"),
    ("below", "/1/0", "/1/1"),
    ("below", "/2", "/3/0"),
    ("below", "/3/0", "/3/0"),
    ("far", "/1/0/5", "/1/0"),
    ("far", "/1/2", "/1/2"),
    ("far", "/1/2/0", "/1/2"),
    ("far", "/1/3", "/1"),
    ("far", "/2/0", "/2"),
    ("far", "/9", "/"),
];

const OPENS: &[&str] = &["/0", "/1/1", "/1/2", "/3/0"];

/// Paths that lead somewhere, and paths that lead nowhere.
const LEAD: &[&str] = &["/", "/0", "/1", "/1/0", "/1/1", "/1/2", "/2", "/3", "/3/0"];

const LOST: &[&str] = &["/0/0", "/1/3", "/1/2/0", "/2/0", "/3/1", "/4"];

fn operator(alloc: Global, op: u32, parts: Vec<Part>) -> Result<Tree, AllocError> {
    let parts = Seq::of(parts);
    Tree::new(alloc, Shape::Op { op, parts })
}

fn list(alloc: Global, elements: Vec<Tree>, unfinished: bool) -> Result<Tree, AllocError> {
    let elements = Seq::of(elements);
    Tree::new(
        alloc,
        Shape::List {
            list: 0,
            elements,
            unfinished,
        },
    )
}

fn worked_tree(alloc: Global) -> Result<Tree, AllocError> {
    let mut elements = Vec::new(alloc);
    elements.push(operator(alloc, 1, Vec::new(alloc))?)?;
    elements.push(Tree::new(alloc, Shape::Hole { phylum: 0 })?)?;
    let mut parts = Vec::new(alloc);
    parts.push(Part::Sub(Tree::new(alloc, Shape::Hole { phylum: 0 })?))?;
    parts.push(Part::Name(Txt::copy_of(alloc, "x")?))?;
    parts.push(Part::Sub(list(alloc, elements, true)?))?;
    parts.push(Part::Number(7))?;
    parts.push(Part::Sub(list(alloc, Vec::new(alloc), false)?))?;
    parts.push(Part::Sub(list(alloc, Vec::new(alloc), true)?))?;
    operator(alloc, 0, parts)
}

/// Reads a path, as `/1/0`.
fn path_of(alloc: Global, text: &str) -> Result<Path, AllocError> {
    let mut steps = Vec::new(alloc);
    for word in text.split('/') {
        if let Ok(step) = word.parse::<u32>() {
            steps.push(step)?;
        }
    }
    Path::of(alloc, steps.as_slice())
}

/// Writes a path, as `/1/0`.
fn text_of(alloc: Global, path: &Path) -> Result<String, AllocError> {
    let mut text = String::new(alloc);
    if path.steps().is_empty() {
        text.push('/')?;
    }
    for step in path.steps() {
        write!(&mut text, "/{step}")?;
    }
    Ok(text)
}

fn moved(alloc: Global, tree: &Tree, word: &str, path: &Path) -> Result<Path, AllocError> {
    match word {
        "up" => parent_of(alloc, path),
        "down" => to_child(alloc, tree, path),
        "right" => to_next(alloc, tree, path),
        "left" => to_previous(alloc, path),
        "tab" => next_open(alloc, tree, path),
        "back" => previous_open(alloc, tree, path),
        "below" => open_below(alloc, tree, path),
        _ => as_far(alloc, tree, path),
    }
}

#[test]
fn moves_lead(rt: HostRuntime) -> Result<(), Fail> {
    let alloc = rt.alloc();
    let tree = worked_tree(alloc)?;
    for (word, from, to) in ROWS {
        let led = moved(alloc, &tree, word, &path_of(alloc, from)?)?;
        let found = text_of(alloc, &led)?;
        assert_eq!(&rt; found.as_str(), *to, "{word} {from}");
    }
    Ok(())
}

#[test]
fn open_places_are_listed(rt: HostRuntime) -> Result<(), Fail> {
    let alloc = rt.alloc();
    let tree = worked_tree(alloc)?;
    let mut found = String::new(alloc);
    for path in opens(alloc, &tree)?.as_slice() {
        found.push_str(text_of(alloc, path)?.as_str())?;
        found.push(' ')?;
    }
    let mut wanted = String::new(alloc);
    for path in OPENS {
        wanted.push_str(path)?;
        wanted.push(' ')?;
    }
    assert_eq!(&rt; found.as_str(), wanted.as_str());
    Ok(())
}

#[test]
fn paths_lead_or_not(rt: HostRuntime) -> Result<(), Fail> {
    let alloc = rt.alloc();
    let tree = worked_tree(alloc)?;
    for path in LEAD {
        assert!(&rt; leads(&tree, &path_of(alloc, path)?), "{path}");
    }
    for path in LOST {
        assert!(&rt; !leads(&tree, &path_of(alloc, path)?), "{path}");
    }
    Ok(())
}

#[test]
fn nothing_is_open(rt: HostRuntime) -> Result<(), Fail> {
    let alloc = rt.alloc();
    let tree = operator(alloc, 0, Vec::new(alloc))?;
    let top = Path::of(alloc, &[])?;
    let next = text_of(alloc, &next_open(alloc, &tree, &top)?)?;
    assert_eq!(&rt; next.as_str(), "/");
    let below = text_of(alloc, &open_below(alloc, &tree, &top)?)?;
    assert_eq!(&rt; below.as_str(), "/");
    Ok(())
}
