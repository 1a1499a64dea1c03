//! Which trees of a whole language are good, and where the others go wrong.
ghost use Rattle.std.specs.Prelude.{◌≡◌, ◌<◌, IfOk};
ghost use Rattle.psg_grammar.specs.Sound.{IsSound};
ghost use Rattle.psg_cache.specs.Notes.{IsFormed, IsNoteOf};

use super::languages::{accepted, tree};
use psg_cache::{Note, NoteFault, build};
use psg_eval::Tables;
use psg_grammar::Definition;
use psg_langs::MINI;
use psg_terms::Steps;
use psg_tree::{Path, Tree};
use std::alloc::{AllocError, Global};
use std::marker::Brand;
use std::process::Abort;
use std::sync::ledger::{Blank, Ledger};
use std::test::Fail;

fn counted<L: Ledger>(
    alloc: Global,
    definition: &Definition,
    tree: &Tree,
    ledger: Blank,
) -> Result<Note, NoteFault>
    requires sound { IsSound definition.now }
    requires formed { IsFormed definition.now tree.now }
    requires name { ledger.name ≡ L.name }
    requires parts { ledger.parts ≡ L.parts }
    requires some { 0 < L.parts }
    ensures { IfOk result (IsNoteOf definition.now tree.now) }
{
    let tables = Tables::of(alloc, definition)?;
    let mut steps = Steps::<L>::of(ledger);
    build(alloc, definition, &tables, tree, &mut steps)
}

/// The note of the tree.
pub(super) fn noted(alloc: Global, definition: &Definition, tree: &Tree) -> Result<Note, NoteFault>
    requires sound { IsSound definition.now }
    requires formed { IsFormed definition.now tree.now }
    ensures { IfOk result (IsNoteOf definition.now tree.now) }
{
    counted::<Brand>(alloc, definition, tree, Blank::new(1))
}

fn put_path(text: &mut String, path: &Path) -> Result<(), AllocError> {
    text.push_str(" .")?;
    for step in path.steps() {
        write!(text, "/{step}")?;
    }
    Ok(())
}

/// Whether the tree is good, and the paths of the nodes that go wrong by themselves.
fn told(alloc: Global, note: &Note) -> Result<String, AllocError> {
    let mut text = String::from_str(alloc, if note.is_good() { "good" } else { "wrong" })?;
    let culprits = note.culprits(alloc)?;
    for path in culprits.as_slice() {
        put_path(&mut text, path)?;
    }
    Ok(text)
}

/// What the note of the tree says.
fn told_of(alloc: Global, definition: &Definition, tree: &Tree) -> Result<String, AllocError>
    requires sound { IsSound definition.now }
    requires formed { IsFormed definition.now tree.now }
{
    match noted(alloc, definition, tree) {
        Ok(note) => told(alloc, &note),
        Err(_) => Err(AllocError),
    }
}

/// Notes each text of the rows as one of the kind, and compares what goes wrong.
fn notes(rt: &impl Abort, alloc: Global, kind: &str, rows: &[(&str, &str)]) -> Result<(), Fail> {
    let definition = accepted(alloc, MINI)?;
    for (text, expected) in rows {
        let Some(tree) = tree(alloc, &definition, kind, text)? else {
            panic!(rt; "no tree: {text}");
        };
        let said = told_of(alloc, &definition, &tree)?;
        assert!(rt; said.as_str() == *expected, "{text}: {said}");
    }
    Ok(())
}

#[test]
fn expressions(rt: HostRuntime) -> Result<(), Fail> {
    let rows = [
        ("1 + 2", "good"),
        ("true + 1", "wrong ."),
        ("?Exp = 1", "good"),
        ("1 = true", "wrong ."),
        ("(1 = true) + (true + true)", "wrong ./0 ./1"),
        ("?Exp & ?Exp", "good"),
        ("(?Exp & ?Exp) + 1", "wrong ."),
        ("a + a", "good"),
        ("a + a[1]", "wrong ."),
        ("a[1] & true", "good"),
    ];
    notes(&rt, rt.alloc(), "Exp", &rows)
}

#[test]
fn blocks(rt: HostRuntime) -> Result<(), Fail> {
    let rows = [
        ("begin var a : int do a := 1 end", "good"),
        ("begin var a : bool do a := 1 end", "wrong ."),
        // a name that nothing declares may be declared outside
        ("begin do a := 1 end", "good"),
        ("begin do a := 1; a := true end", "wrong ./1"),
        ("begin ... do a := 1 end", "good"),
        ("begin ... do a := 1; a := true end", "wrong ./1"),
        ("begin var a : int; var a : int do end", "wrong ./0"),
        ("begin var a : ?TypeX do a := 1; ?Stat end", "good"),
        ("begin proc p(a : int) skip do call p(1) end", "good"),
        ("begin proc p(a : int) skip do call p(true) end", "wrong ."),
        ("begin proc p(a : int) skip do call p(1, ...) end", "good"),
        (
            "begin proc p(a : int) skip do call p(1, 2, ...) end",
            "wrong .",
        ),
    ];
    notes(&rt, rt.alloc(), "Stat", &rows)
}
