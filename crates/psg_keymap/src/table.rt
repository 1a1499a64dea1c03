//! The one table of keys: which command a key is, where it is one.
ghost use Rattle.std.specs.Prelude.{◌≡◌, ◌==◌, ◌+◌, cond, slice_get, None, Some, IfOk};
ghost use Rattle.psg_unparse.specs.Spans.{printed_of};
ghost use Rattle.psg_keymap.specs.Faces.{picked_offer, typed_text};
ghost use Rattle.psg_keymap.specs.Table as table;
ghost use Rattle.psg_keymap.specs.Views.{face_of};

use crate::acts::act_of;
use crate::face::{Face, Mode, with_place};
use crate::leaves::{Leaf, args_with, leaves_of};
use crate::nodes::place_at;
use crate::texts::text_put;
use psg_grammar::Definition;
use psg_keys::Key;
use psg_script::{Command, Where};
use psg_specimen::Language;
use psg_terms::Txt;
use psg_tree::{Path, Tree};
use psg_unparse::Printed;
use std::alloc::{AllocError, Global};

/// A command, and the path of what it puts into the program, if it puts something.
#[derive(Drop)]
pub struct Due {
    /// The command.
    pub command: Command,
    /// The path of what it puts into the program.
    pub grown: Option<Path>,
}

/// What a key is looked up in: the language, the program and its text.
#[derive(Clone, Copy)]
pub struct Seen<'a> {
    /// The language.
    pub language: &'a Language,
    /// The program.
    pub tree: &'a Tree,
    /// The text of the program, and where its nodes are.
    pub printed: &'a Printed,
}

/// Says whether the key is Enter.
fn is_enter(key: Key) -> bool
    ensures { result ≡ table.is_enter key }
{
    match key {
        Key::Enter => true,
        _ => false,
    }
}

/// Returns the command that the key is, if it is one.
pub fn command_of(
    alloc: Global,
    seen: Seen,
    face: &Face,
    key: Key,
) -> Result<Option<Due>, AllocError>
    requires printed { seen.printed.now ≡ printed_of seen.language.now seen.tree.now }
    ensures { IfOk result (λ due. due
        ≡ table.command_of seen.entry.language.now seen.entry.tree.now (face_of face.now) key) }
{
    match face.mode {
        Mode::Typing => {
            let due = typed_at(alloc, seen, face, is_enter(key))?;
            Ok(due)
        }
        Mode::Choosing => {
            let due = picked_at(alloc, seen.language.definition(), face, is_enter(key))?;
            Ok(due)
        }
        Mode::Naming => {
            let due = named_at(alloc, seen.language.definition(), face, is_enter(key))?;
            Ok(due)
        }
        Mode::Browsing => {
            let due = act_of(alloc, seen, &face.chosen, key)?;
            Ok(due)
        }
        _ => Ok(None),
    }
}

/// Returns the command of the line of text, where Enter is pressed.
fn typed_at(alloc: Global, seen: Seen, face: &Face, enters: bool) -> Result<Option<Due>, AllocError>
    requires printed { seen.printed.now ≡ printed_of seen.language.now seen.tree.now }
    ensures { IfOk result (λ due. due ≡ cond enters (Some (table.typed_due seen.entry.language.now seen.entry.tree.now
        face.now.chosen (typed_text (face_of face.now)))) None) }
{
    if enters {
        let text = face.line_text(alloc)?;
        let due = text_put(alloc, seen, &face.chosen, text)?;
        return Ok(Some(due));
    }
    Ok(None)
}

/// Returns the command of the operator that is picked, where Enter is pressed.
fn picked_at(
    alloc: Global,
    definition: &Definition,
    face: &Face,
    enters: bool,
) -> Result<Option<Due>, AllocError>
    ensures { IfOk result (λ due. due
        ≡ cond enters (table.picked definition.now (face_of face.now) (picked_offer (face_of face.now))) None) }
{
    if enters {
        let due = picked(alloc, definition, face)?;
        return Ok(due);
    }
    Ok(None)
}

/// Returns the command of the operator whose last name or literal is typed, where Enter is pressed.
fn named_at(
    alloc: Global,
    definition: &Definition,
    face: &Face,
    enters: bool,
) -> Result<Option<Due>, AllocError>
    ensures { IfOk result (λ due. due
        ≡ cond enters (table.named definition.now (face_of face.now) (face_of face.now).operator) None) }
{
    if enters {
        let due = named(alloc, definition, face)?;
        return Ok(due);
    }
    Ok(None)
}

/// Returns a command that puts nothing into the program.
pub fn stays(command: Command) -> Option<Due>
    ensures { result ≡ table.stays command }
{
    Some(Due {
        command,
        grown: None,
    })
}

/// Returns a command, and the path of what it puts into the program.
pub fn grows(path: Path, command: Command) -> Option<Due>
    ensures { result ≡ table.grows path command }
{
    Some(Due {
        command,
        grown: Some(path),
    })
}

/// Returns the command that puts the operator in its place, with these names and literals.
pub fn putting(
    alloc: Global,
    at: &Path,
    place: Option<u32>,
    op: &str,
    args: Txt,
) -> Result<Due, AllocError>
    ensures { IfOk result (λ due. due ≡ table.putting at.now place op.now args) }
{
    let grown = with_place(alloc, at, place)?;
    let target = place_at(alloc, at)?;
    let name = Txt::copy_of(alloc, op)?;
    let command = put_command(target, place, name, args);
    Ok(Due {
        command,
        grown: Some(grown),
    })
}

/// Returns `refine` of a placeholder, or `insert` before a place of a list.
fn put_command(at: Where, place: Option<u32>, op: Txt, args: Txt) -> Command
    ensures { result ≡ table.put_command at place op args }
{
    match place {
        Some(place) => Command::Insert {
            at,
            place,
            op,
            args,
        },
        None => Command::Refine { at, op, args },
    }
}

/// Returns the command of the operator that is picked, if it has no names and literals.
fn picked(alloc: Global, definition: &Definition, face: &Face) -> Result<Option<Due>, AllocError>
    ensures { IfOk result (λ due. due
        ≡ table.picked definition.now (face_of face.now) (picked_offer (face_of face.now))) }
{
    match face.picked(alloc)? {
        Some(op) => {
            let due = put_alone(alloc, definition, face, op.as_str())?;
            Ok(due)
        }
        None => Ok(None),
    }
}

/// Returns the command of the operator, if it has no names and literals.
fn put_alone(
    alloc: Global,
    definition: &Definition,
    face: &Face,
    op: &str,
) -> Result<Option<Due>, AllocError>
    ensures { IfOk result (λ due. due ≡ table.picked definition.now (face_of face.now) (Some op.now)) }
{
    let leaves = leaves_of(alloc, definition, op)?;
    let found = leaves.as_slice();
    let alone = found.is_empty();
    if alone {
        let none = Txt::copy_of(alloc, "")?;
        let due = putting(alloc, &face.target, face.place, op, none)?;
        return Ok(Some(due));
    }
    Ok(None)
}

/// Returns the command of the operator whose last name or literal is typed.
fn named(alloc: Global, definition: &Definition, face: &Face) -> Result<Option<Due>, AllocError>
    ensures { IfOk result (λ due. due
        ≡ table.named definition.now (face_of face.now) (face_of face.now).operator) }
{
    match &face.operator {
        Some(op) => {
            let due = put_named(alloc, definition, face, op.as_str())?;
            Ok(due)
        }
        None => Ok(None),
    }
}

/// Returns the command of the operator, if its last name or literal is typed.
fn put_named(
    alloc: Global,
    definition: &Definition,
    face: &Face,
    op: &str,
) -> Result<Option<Due>, AllocError>
    ensures { IfOk result (λ due. due ≡ table.named definition.now (face_of face.now) (Some op.now)) }
{
    let leaves = leaves_of(alloc, definition, op)?;
    let found = leaves.as_slice();
    match last_leaf(found, face.leaf) {
        Some(leaf) => {
            let args = args_with(alloc, face, leaf)?;
            let due = putting(alloc, &face.target, face.place, op, args)?;
            Ok(Some(due))
        }
        None => Ok(None),
    }
}

/// Returns the name or literal of this number, if it is the last one.
fn last_leaf(leaves: &[Leaf], number: usize) -> Option<Leaf>
    ensures { result ≡ table.last_leaf leaves.now number }
{
    let last = is_next(number, leaves.len());
    if last { leaf_at(leaves, number) } else { None }
}

/// Returns the name or literal of this number, if there is one.
fn leaf_at(leaves: &[Leaf], number: usize) -> Option<Leaf>
    ensures { result ≡ slice_get leaves.now number }
{
    match leaves.get(number) {
        Some(leaf) => Some(*leaf),
        None => None,
    }
}

/// Says whether the second number is the one after the first.
fn is_next(number: usize, next: usize) -> bool
    ensures { result ≡ (next == number + 1) }
{
    match number.checked_add(1) {
        Some(after) => next == after,
        None => false,
    }
}
