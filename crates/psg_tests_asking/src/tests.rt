//! Programs of MINI, and what is answered for their places.
ghost use Rattle.std.specs.Prelude.{◌≡◌, true, IfOk, IfSome};
ghost use Rattle.psg_cache.specs.Completed.{IsByCompletions};
ghost use Rattle.psg_cache.specs.Notes.{IsNoteOf};
ghost use Rattle.psg_grammar.specs.Kinds.{HasKind};
ghost use Rattle.psg_grammar.specs.Printable.{IsPrintable};
ghost use Rattle.psg_grammar.specs.WellFormed.{WellFormed};
ghost use Rattle.psg_keymap.specs.Repairs.{IsAnswer};

mod questions;
mod spots;

use psg_cache::{Note, build};
use psg_defread::read_definition;
use psg_grammar::{Definition, Kind};
use psg_keymap::{Repair, Spot, repair_of};
use psg_langs::MINI;
use psg_program::read_program;
use psg_specimen::{Language, accept};
use psg_terms::Steps;
use psg_tree::{Path, Tree};
use std::alloc::{AllocError, Global};
use std::sync::ledger::Ledger;

/// A program that has a completion. Its second assignment has a placeholder at `/1/1/0`.
const RIGHT: &str = "begin\n  var n : bool\ndo\n  n := true;\n  n := ?Exp\nend";

/// A program of which the second assignment does not fit; its repaired program is the one above.
const WRONG: &str = "begin\n  var n : bool\ndo\n  n := true;\n  n := 1 + 2\nend";

/// Returns the language of the definition.
fn language_of(alloc: Global, definition: &str) -> Result<Language, AllocError> {
    if definition.len() >= 1_048_576 {
        return Err(AllocError);
    }
    let Ok(read) = read_definition(alloc, definition.as_bytes()) else {
        return Err(AllocError);
    };
    match accept(alloc, read) {
        Ok(language) => Ok(language),
        Err(_) => Err(AllocError),
    }
}

/// Returns the language MINI.
fn mini(alloc: Global) -> Result<Language, AllocError> {
    language_of(alloc, MINI)
}

/// Returns the first phylum, if there is one.
fn kind_in(definition: &Definition) -> Option<Kind>
    ensures { IfSome result (HasKind definition.now) }
{
    let phyla = definition.phyla.as_slice();
    if 0 < phyla.len() {
        Some(Kind::Phylum(0))
    } else {
        None
    }
}

/// Returns the first phylum of the language.
fn first_kind(language: &Language) -> Result<Kind, AllocError>
    ensures { IfOk result (HasKind language.now) }
{
    let definition = language.definition();
    match kind_in(definition) {
        Some(kind) => Ok(kind),
        None => Err(AllocError),
    }
}

/// Returns the tree of the kind that the text spells.
fn tree_of<L: Ledger>(
    alloc: Global,
    language: &Language,
    kind: Kind,
    text: &str,
    steps: &mut Steps<L>,
) -> Result<Tree, AllocError>
    requires { HasKind language.now kind }
    ensures { IfOk result (λ tree. WellFormed language.now tree kind × IsPrintable tree) }
{
    match read_program(alloc, language, kind, text.as_bytes(), steps) {
        Ok(program) => Ok(program.tree),
        Err(_) => Err(AllocError),
    }
}

/// Notes the tree.
fn note_of<L: Ledger>(
    alloc: Global,
    language: &Language,
    kind: Kind,
    tree: &Tree,
    steps: &mut Steps<L>,
) -> Result<Note, AllocError>
    requires { WellFormed language.now tree.now kind }
    ensures note { IfOk result (IsNoteOf language.now tree.now) }
    ensures good { IfOk result (IsByCompletions language.now tree.now) }
{
    let parts = language.parts();
    match build(alloc, &parts.definition, &parts.tables, tree, steps) {
        Ok(note) => Ok(note),
        Err(_) => Err(AllocError),
    }
}

/// Finds the wrong places of the tree, if it is wrong.
fn repair_if<L: Ledger>(
    alloc: Global,
    language: &Language,
    kind: Kind,
    wrong: bool,
    tree: &Tree,
    steps: &mut Steps<L>,
) -> Result<Option<Repair>, AllocError>
    requires { WellFormed language.now tree.now kind }
    ensures { IfOk result (λ repair. wrong ≡ true → IsAnswer language.now tree.now repair) }
{
    if wrong {
        let repair = repair_of(alloc, language, tree, steps)?;
        return Ok(repair);
    }
    Ok(None)
}

/// Reads a path, as `/1/0`.
fn path_of(alloc: Global, text: &str) -> Result<Path, AllocError> {
    let mut steps = Vec::new(alloc);
    for word in text.split('/') {
        if let Ok(step) = word.parse::<u32>() {
            steps.push(step)?;
        }
    }
    Path::of(alloc, steps.as_slice())
}

/// Writes a path, as `/1/0`.
fn path_text(alloc: Global, path: &Path) -> Result<String, AllocError> {
    let mut text = String::new(alloc);
    if path.steps().is_empty() {
        text.push('/')?;
    }
    for step in path.steps() {
        write!(&mut text, "/{step}")?;
    }
    Ok(text)
}

/// Returns the spot at the path.
fn spot_of(alloc: Global, path: &str, place: Option<u32>) -> Result<Spot, AllocError> {
    let target = path_of(alloc, path)?;
    Ok(Spot { target, place })
}
