//! All places of a program, the trees of some of them, and the paths there and back.
ghost use Rattle.psg_grammar.specs.Sound.{IsSound};
ghost use Rattle.psg_cache.specs.Notes.{AreTables, IsFormed};

use super::languages::{accepted, tree};
use super::programs::{blamed, write_path, write_place};
use psg_eval::Tables;
use psg_grammar::Definition;
use psg_langs::MINI;
use psg_places::{
    Blamed, Place, all_places, kept_part, new_name, opened_places, path_back, path_there,
};
use psg_terms::Txt;
use psg_tree::{Path, Tree, abstract_text};
use std::alloc::{AllocError, Global};
use std::process::Abort;
use std::test::Fail;

fn place_text(alloc: Global, place: &Place) -> Result<String, AllocError> {
    let mut text = String::new(alloc);
    write_place(&mut text, place)?;
    Ok(text)
}

/// All places, each with a comma after it.
fn told_places(alloc: Global, definition: &Definition, tree: &Tree) -> Result<String, AllocError>
    requires sound { IsSound definition.now }
{
    let tables = Tables::of(alloc, definition)?;
    let places = all_places(alloc, definition, &tables, tree)?;
    let mut text = String::new(alloc);
    for place in places.as_slice() {
        write_place(&mut text, place)?;
        text.push_str(", ")?;
    }
    Ok(text)
}

/// Each row is a text and its places.
fn lists(rt: &impl Abort, alloc: Global, rows: &[(&str, &str)]) -> Result<(), Fail> {
    let definition = accepted(alloc, MINI)?;
    for (text, expected) in rows {
        let Some(tree) = tree(alloc, &definition, "Stat", text)? else {
            panic!(rt; "no tree: {text}");
        };
        let said = told_places(alloc, &definition, &tree)?;
        assert!(rt; said.as_str() == *expected, "{text}: {said}");
    }
    Ok(())
}

fn is_among(alloc: Global, place: &Place, texts: &[&str]) -> Result<bool, AllocError> {
    let text = place_text(alloc, place)?;
    for other in texts {
        if text.as_str() == *other {
            return Ok(true);
        }
    }
    Ok(false)
}

/// Says of each place whether it is kept: whether it is not among these.
fn kept_but(alloc: Global, places: &[Place], opened: &[&str]) -> Result<Vec<bool>, AllocError> {
    let mut kept = Vec::new(alloc);
    for place in places {
        let gone = is_among(alloc, place, opened)?;
        kept.push(!gone)?;
    }
    Ok(kept)
}

/// The path where the node is, and the path back from there.
fn told_way(alloc: Global, opened: &[Place], path: &Path) -> Result<String, AllocError> {
    let mut text = String::new(alloc);
    match path_there(alloc, opened, path)? {
        Some(there) => {
            let back = path_back(alloc, opened, &there)?;
            write_path(&mut text, "there ", &there)?;
            write_path(&mut text, ", back ", &back)?;
        }
        None => text.push_str("none")?,
    }
    Ok(text)
}

/// Says of each place of the tree whether it is kept: whether it is not among these.
fn kept_answers(
    alloc: Global,
    definition: &Definition,
    tables: &Tables,
    tree: &Tree,
    opened: &[&str],
) -> Result<Vec<bool>, AllocError>
    requires sound { IsSound definition.now }
    requires tables { AreTables definition.now tables.now }
{
    let places = all_places(alloc, definition, tables, tree)?;
    kept_but(alloc, places.as_slice(), opened)
}

/// Returns the tree of the kept places as a text.
fn part_text(
    alloc: Global,
    definition: &Definition,
    tables: &Tables,
    tree: &Tree,
    kept: &[bool],
) -> Result<String, AllocError>
    requires sound { IsSound definition.now }
    requires tables { AreTables definition.now tables.now }
{
    let names = Txt::of(alloc, String::from_str(alloc, "q")?)?;
    let part = kept_part(alloc, definition, tables, &names, kept, tree)?;
    abstract_text(alloc, definition, &part)
}

/// Returns the way of the node at the path to that tree and back.
fn way_text(
    alloc: Global,
    definition: &Definition,
    tables: &Tables,
    tree: &Tree,
    kept: &[bool],
    path: &[u32],
) -> Result<String, AllocError>
    requires sound { IsSound definition.now }
    requires tables { AreTables definition.now tables.now }
{
    let gone = opened_places(alloc, definition, tables, kept, tree)?;
    let path = Path::of(alloc, path)?;
    told_way(alloc, gone.as_slice(), &path)
}

/// The tree without these places, and the way of the node at the path.
fn told_part(
    alloc: Global,
    definition: &Definition,
    tree: &Tree,
    opened: &[&str],
    path: &[u32],
) -> Result<String, AllocError>
    requires sound { IsSound definition.now }
{
    let tables = Tables::of(alloc, definition)?;
    let kept = kept_answers(alloc, definition, &tables, tree, opened)?;
    let mut text = part_text(alloc, definition, &tables, tree, kept.as_slice())?;
    text.push_str(" ")?;
    let way = way_text(alloc, definition, &tables, tree, kept.as_slice(), path)?;
    text.push_str(way.as_str())?;
    Ok(text)
}

/// Each row is what is opened of the text, a path, the tree that is left, and the way of the node at the path.
fn ways(
    rt: &impl Abort,
    alloc: Global,
    text: &str,
    rows: &[(&[&str], &[u32], &str)],
) -> Result<(), Fail> {
    let definition = accepted(alloc, MINI)?;
    let Some(tree) = tree(alloc, &definition, "Stat", text)? else {
        panic!(rt; "no tree: {text}");
    };
    for (opened, path, expected) in rows {
        let said = told_part(alloc, &definition, &tree, opened, path)?;
        assert!(rt; said.as_str() == *expected, "{said}");
    }
    Ok(())
}

/// The names that an operator declares are before its other places, and a literal is none.
#[test]
fn places(rt: HostRuntime) -> Result<(), Fail> {
    let rows = [
        (
            "begin var a : int do a := 1 end",
            "node /, element /0/0, name /0/0 0, node /0/0/0, end /0, element /1/0, node /1/0, name /1/0 0, \
             node /1/0/0, end /1, ",
        ),
        (
            "begin do skip; x := 1; skip end",
            "node /, end /0, element /1/0, node /1/0, element /1/1, node /1/1, name /1/1 0, node /1/1/0, \
             element /1/2, node /1/2, end /1, ",
        ),
    ];
    lists(&rt, rt.alloc(), &rows)
}

/// A node stays where it is unless an element of a list before it is left out, and is gone with an element, and below a
/// placeholder.
#[test]
fn nodes(rt: HostRuntime) -> Result<(), Fail> {
    let one = "block([],[assign(x,num(1)),skip]) there /1/0, back /1/1";
    let below = "block([],[assign(x,num(1)),skip]) there /1/0/0, back /1/1/0";
    let two = "block([],[skip]) there /1/0, back /1/2";
    let hole = "block([],[skip,?Stat,skip]) there /1/1, back /1/1";
    let after = "block([],[skip,?Stat,skip]) there /1/2, back /1/2";
    let name = "block([],[skip,assign(qa6,num(1)),skip]) there /1/1/0, back /1/1/0";
    ways(
        &rt,
        rt.alloc(),
        "begin do skip; x := 1; skip end",
        &[
            (&["element /1/0"], &[1, 1], one),
            (&["element /1/0"], &[1, 1, 0], below),
            (
                &["element /1/0"],
                &[1, 0],
                "block([],[assign(x,num(1)),skip]) none",
            ),
            (&["element /1/0", "element /1/1"], &[1, 2], two),
            (
                &["element /1/0", "element /1/1"],
                &[1, 1, 0],
                "block([],[skip]) none",
            ),
            (&["node /1/1"], &[1, 1], hole),
            (
                &["node /1/1"],
                &[1, 1, 0],
                "block([],[skip,?Stat,skip]) none",
            ),
            (&["node /1/1"], &[1, 2], after),
            (&["name /1/1 0"], &[1, 1, 0], name),
        ],
    )
}

/// The answers up to the first blamed place, with that place kept.
fn front_answers(alloc: Global, kept: &[bool]) -> Result<Vec<bool>, AllocError> {
    let mut front = Vec::new(alloc);
    for answer in kept {
        front.push(true)?;
        if !*answer {
            return Ok(front);
        }
    }
    Ok(front)
}

/// Returns the tree as a text, and after it the name.
fn named_text(
    alloc: Global,
    definition: &Definition,
    part: &Tree,
    name: &Txt,
) -> Result<String, AllocError> {
    let mut text = abstract_text(alloc, definition, part)?;
    text.push_str(" ")?;
    text.push_str(name.as_str())?;
    Ok(text)
}

/// Returns the front of the first place that is not kept, and its new name if it is a name.
fn front_text(
    alloc: Global,
    definition: &Definition,
    tables: &Tables,
    tree: &Tree,
    found: &Blamed,
) -> Result<String, AllocError>
    requires sound { IsSound definition.now }
    requires tables { AreTables definition.now tables.now }
{
    let front = front_answers(alloc, found.kept.as_slice())?;
    let name = new_name(alloc, &found.names, front.len())?;
    let answers = front.as_slice();
    let part = kept_part(alloc, definition, tables, &found.names, answers, tree)?;
    named_text(alloc, definition, &part, &name)
}

/// Returns that of the blamed places of the tree.
fn told_front(alloc: Global, definition: &Definition, tree: &Tree) -> Result<String, AllocError>
    requires sound { IsSound definition.now }
    requires formed { IsFormed definition.now tree.now }
{
    let tables = Tables::of(alloc, definition)?;
    match blamed(alloc, definition, &tables, tree) {
        Ok(Some(found)) => front_text(alloc, definition, &tables, tree, &found),
        Ok(None) => String::from_str(alloc, "none"),
        Err(_) => Err(AllocError),
    }
}

/// All after the blamed place is opened. The blamed name is the sixth place, so the name of the next number ends in 6.
#[test]
fn fronts(rt: HostRuntime) -> Result<(), Fail> {
    let alloc = rt.alloc();
    let definition = accepted(alloc, MINI)?;
    let text = "begin var a : int; var a : bool do a := 1 end";
    let Some(tree) = tree(alloc, &definition, "Stat", text)? else {
        panic!(&rt; "no tree: {text}");
    };
    let said = told_front(alloc, &definition, &tree)?;
    let expected = "block([vardecl(a,tint),vardecl(a,?TypeX)|...],[|...]) baa6";
    assert!(&rt; said.as_str() == expected, "{said}");
    Ok(())
}
