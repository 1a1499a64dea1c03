//! Notes of lists of placeholders.
ghost use Rattle.std.specs.Prelude.{◌≡◌, ◌<◌};
ghost use Rattle.psg_grammar.specs.Sound.{IsSound};
ghost use Rattle.psg_cache.specs.Notes.{IsFormed};

use super::trees::definition;
use psg_cache::{Note, NoteFault, build};
use psg_eval::Tables;
use psg_grammar::{Definition, Kind};
use psg_terms::{Seq, Steps};
use psg_tree::{Path, Shape, Tree, nodes, well_formed};
use std::alloc::{AllocError, Global};
use std::marker::Brand;
use std::sync::ledger::{Blank, Ledger};
use std::test::Fail;

/// Lists of numbers, of which the elements have the value that they want, of truth values, of which they have another
/// one, and of elements that have no value.
const LISTS: &str = "psg 1
sort Type = int bool
phylum Num : Type
phylum None : Type
list Nums : Type of Num \",\" inline fixed
list Truths : Type of Num \",\" inline fixed
list Nones : Type of None \",\" inline fixed
nil Nums int
cell Nums int : int int
nil Truths bool
cell Truths bool : bool bool
nil Nones int
cell Nones int : int int
hole Num int
";

/// The list of the given number of placeholders of the phylum.
fn placeholders(alloc: Global, list: u32, phylum: u32, count: usize) -> Result<Tree, AllocError> {
    let mut elements = Vec::new(alloc);
    for _number in 0..count {
        elements.push(Tree::new(alloc, Shape::Hole { phylum })?)?;
    }
    Tree::new(
        alloc,
        Shape::List {
            list,
            elements: Seq::of(elements),
            unfinished: false,
        },
    )
}

fn counted<L: Ledger>(
    alloc: Global,
    definition: &Definition,
    tree: &Tree,
    ledger: Blank,
) -> Result<Note, NoteFault>
    requires sound { IsSound definition.now }
    requires formed { IsFormed definition.now tree.now }
    requires name { ledger.name ≡ L.name }
    requires parts { ledger.parts ≡ L.parts }
    requires some { 0 < L.parts }
{
    let tables = Tables::of(alloc, definition)?;
    let mut steps = Steps::<L>::of(ledger);
    build(alloc, definition, &tables, tree, &mut steps)
}

/// The note of a tree of the kind.
pub(super) fn noted(
    alloc: Global,
    definition: &Definition,
    tree: &Tree,
    kind: Kind,
) -> Result<Note, NoteFault>
    requires { IsSound definition.now }
{
    let formed = well_formed(definition, tree, kind);
    if !formed {
        return Err(NoteFault::Memory);
    }
    counted::<Brand>(alloc, definition, tree, Blank::new(1))
}

/// The note of the list of the given number of placeholders of the phylum.
fn list_note(alloc: Global, list: u32, phylum: u32, count: usize) -> Result<Note, NoteFault> {
    let definition = definition(alloc, LISTS)?;
    let tree = placeholders(alloc, list, phylum, count)?;
    noted(alloc, &definition, &tree, Kind::List(list))
}

fn put_path(text: &mut String, path: &Path) -> Result<(), AllocError> {
    text.push_str(" .")?;
    for step in path.steps() {
        write!(text, "/{step}")?;
    }
    Ok(())
}

/// Whether the tree is good, how much its relations weigh, and the paths of the culprits.
pub(super) fn told(alloc: Global, note: &Note) -> Result<String, AllocError> {
    let mark = if note.is_good() { "good" } else { "wrong" };
    let weight = note.weight();
    let mut text = format!(in alloc; "{mark} {weight}")?;
    let culprits = note.culprits(alloc)?;
    for path in culprits.as_slice() {
        put_path(&mut text, path)?;
    }
    Ok(text)
}

/// What is noted of a list, or why nothing is.
fn answer(alloc: Global, list: u32, phylum: u32, count: usize) -> Result<String, AllocError> {
    match list_note(alloc, list, phylum, count) {
        Ok(note) => told(alloc, &note),
        Err(fault) => format!(in alloc; "{fault}"),
    }
}

#[test]
fn notes_of_lists(rt: HostRuntime) -> Result<(), Fail> {
    for (list, phylum, count, expected) in [
        (0, 0, 0, "good 1"),
        // two placeholders, two cells and the end
        (0, 0, 2, "good 5"),
        (1, 0, 0, "good 1"),
        // the cells have no row
        (1, 0, 2, "wrong 3 ."),
        // what is above a culprit is none
        (2, 1, 2, "wrong 1 ./0 ./1"),
        (0, 0, 4_096, "good 8193"),
        (0, 0, 4_097, "the tree is too big"),
    ] {
        let given = answer(rt.alloc(), list, phylum, count)?;
        assert_eq!(rt; given.as_str(), expected, "{count}");
    }
    Ok(())
}

#[test]
fn owners_of_one_note(rt: HostRuntime) -> Result<(), Fail> {
    let note = list_note(rt.alloc(), 0, 0, 2)?;
    let other = note.share()?;
    assert_eq!(rt; nodes(other.tree()), 3);
    assert_eq!(rt; other.root().kind(), Kind::List(0));
    assert_eq!(rt; other.weight(), note.weight());
    Ok(())
}
