//! What a changed note shares with the old one.
ghost use Rattle.std.specs.Prelude.{◌≡◌, ◌<◌, IfOk};
ghost use Rattle.psg_grammar.specs.Sound.{IsSound};
ghost use Rattle.psg_cache.specs.Annotated.{tree_in};
ghost use Rattle.psg_cache.specs.Notes.{IsFormed, IsNoteOf};

use super::trees::{definition, path, tree};
use psg_cache::{Note, NoteFault, build, replaced};
use psg_eval::Tables;
use psg_grammar::{Definition, Kind};
use psg_terms::Steps;
use psg_tree::{Path, Tree, at, well_formed};
use std::alloc::{AllocError, Global};
use std::marker::Brand;
use std::sync::ledger::{Blank, Ledger};
use std::test::Fail;

/// Lists of numbers.
const LIST: &str = "psg 1
sort Type = int
phylum Num : Type
list Nums : Type of Num \",\" inline fixed
op one : Num = \"one\"
row int
nil Nums int
cell Nums int : int int
hole Num int
";

/// Makes the list of this number of placeholders.
fn placeholders(alloc: Global, count: usize) -> Result<Tree, AllocError> {
    let mut words = format!(in alloc; "[{count}")?;
    for _number in 0..count {
        words.push_str(" ?0")?;
    }
    tree(alloc, words.as_str())
}

fn noted<L: Ledger>(
    alloc: Global,
    definition: &Definition,
    tree: &Tree,
    ledger: Blank,
) -> Result<Note, NoteFault>
    requires sound { IsSound definition.now }
    requires formed { IsFormed definition.now tree.now }
    requires name { ledger.name ≡ L.name }
    requires parts { ledger.parts ≡ L.parts }
    requires some { 0 < L.parts }
    ensures { IfOk result (λ n. IsNoteOf definition.now (tree_in n) n) }
{
    let tables = Tables::of(alloc, definition)?;
    let mut steps = Steps::<L>::of(ledger);
    let note = build(alloc, definition, &tables, tree, &mut steps)?;
    Ok(note)
}

fn exchanged<L: Ledger>(
    alloc: Global,
    definition: &Definition,
    note: &Note,
    path: &Path,
    new: &Tree,
    ledger: Blank,
) -> Result<Note, NoteFault>
    requires sound { IsSound definition.now }
    requires note { IsNoteOf definition.now (tree_in note.now) note.now }
    requires name { ledger.name ≡ L.name }
    requires parts { ledger.parts ≡ L.parts }
    requires some { 0 < L.parts }
{
    let kind = Kind::Phylum(0);
    let Some(node) = at(note.tree(), path) else {
        return Err(NoteFault::Memory);
    };
    let fits = well_formed(definition, node, kind);
    if !fits {
        return Err(NoteFault::Memory);
    }
    let formed = well_formed(definition, new, kind);
    if !formed {
        return Err(NoteFault::Memory);
    }
    let tables = Tables::of(alloc, definition)?;
    let mut steps = Steps::<L>::of(ledger);
    replaced(alloc, definition, &tables, note, path, new, &mut steps)
}

/// How many owners the notes at some places of a list have: the first, the changed one between its neighbours, and the
/// last; and before them how many the list's own note has.
fn owners(alloc: Global, note: &Note) -> Result<String, AllocError> {
    let mut text = String::new(alloc);
    for steps in ["", "0", "499", "500", "501", "999"] {
        let path = path(alloc, steps)?;
        let count = note.owners(&path);
        write!(text, " {count}")?;
    }
    Ok(text)
}

/// The note of the list of 1,000 placeholders.
fn long_note(alloc: Global, definition: &Definition) -> Result<Note, NoteFault>
    requires { IsSound definition.now }
    ensures { IfOk result (λ n. IsNoteOf definition.now (tree_in n) n) }
{
    let list = placeholders(alloc, 1_000)?;
    let formed = well_formed(definition, &list, Kind::List(0));
    if !formed {
        return Err(NoteFault::Memory);
    }
    let note = noted::<Brand>(alloc, definition, &list, Blank::new(1))?;
    Ok(note)
}

/// The note of the list in which the tree of the words is in place of element number 500.
fn changed_note(
    alloc: Global,
    definition: &Definition,
    old: &Note,
    words: &str,
) -> Result<Note, NoteFault>
    requires sound { IsSound definition.now }
    requires note { IsNoteOf definition.now (tree_in old.now) old.now }
{
    let new = tree(alloc, words)?;
    let path = path(alloc, "500")?;
    let note = exchanged::<Brand>(alloc, definition, old, &path, &new, Blank::new(1))?;
    Ok(note)
}

/// The owners in both notes.
fn both_owners(alloc: Global, old: &Note, changed: &Note) -> Result<String, AllocError> {
    let before = owners(alloc, old)?;
    let after = owners(alloc, changed)?;
    format!(in alloc; "{before},{after}")
}

/// The owners in the note of 1,000 placeholders and in that in which the tree of the words is in place of number 500.
fn answer(alloc: Global, words: &str) -> Result<String, NoteFault> {
    let definition = definition(alloc, LIST)?;
    let old = long_note(alloc, &definition)?;
    let changed = changed_note(alloc, &definition, &old, words)?;
    let text = both_owners(alloc, &old, &changed)?;
    Ok(text)
}

#[test]
fn neighbours_of_a_replaced_leaf(rt: HostRuntime) -> Result<(), Fail> {
    for (words, expected) in [
        // the lists own their own element; each of the others has two owners
        ("0/0", " 1 2 2 1 2 2, 1 2 2 1 2 2"),
        // an equal tree: one more owner of the whole list, which owns its elements alone
        ("?0", " 2 1 1 1 1 1, 2 1 1 1 1 1"),
    ] {
        let given = answer(rt.alloc(), words)?;
        assert_eq!(rt; given.as_str(), expected);
    }
    Ok(())
}
