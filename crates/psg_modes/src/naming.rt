//! The names and literals of an operator, which are typed one after the other.
ghost use Rattle.std.specs.Prelude.{◌≡◌, ◌+◌, chars, length, map, string_bytes, IfOk, OnErr, OnOk};
ghost use Rattle.psg_keymap.specs.Faces.{picked_offer};
ghost use Rattle.psg_keymap.specs.Leaves.{spaced};
ghost use Rattle.psg_keymap.specs.Views.{face_of};
ghost use Rattle.psg_modes.specs.Turning as turning;

use crate::picking::{narrow, pick_after, pick_before};
use psg_grammar::Definition;
use psg_keymap::{Face, Leaf, Mode, args_with, leaves_of};
use psg_keys::Key;
use psg_terms::{Txt, uncountable};
use std::alloc::{AllocError, Global};

/// Begins the names and literals of an operator. `offers` are the names that fit. It fails where memory runs out, and
/// the face is then as before.
pub fn begin_names(
    alloc: Global,
    face: &mut Face,
    op: Txt,
    offers: Vec<String>,
) -> Result<(), AllocError>
    ensures begun { OnOk result (face_of face.new
        ≡ turning.naming op (map string_bytes offers.items) (face_of face.old)) }
    ensures memory { OnErr result (face_of face.new ≡ face_of face.old) }
{
    let args = Txt::copy_of(alloc, "")?;
    face.enter(alloc, Mode::Naming);
    face.offers = offers;
    face.pick = 0;
    face.operator = Some(op);
    face.args = args;
    face.leaf = 0;
    Ok(())
}

/// Returns what is typed now of the operator that was picked.
pub fn leaf_at(
    alloc: Global,
    definition: &Definition,
    face: &Face,
) -> Result<Option<Leaf>, AllocError>
    ensures { IfOk result (λ leaf. leaf ≡ turning.leaf_at definition.now (face_of face.now)) }
{
    match &face.operator {
        Some(op) => {
            let leaf = leaf_of(alloc, definition, op.as_str(), face.leaf)?;
            Ok(leaf)
        }
        None => Ok(None),
    }
}

/// Returns the name or literal of this number of the operator, if it has that many.
fn leaf_of(
    alloc: Global,
    definition: &Definition,
    op: &str,
    number: usize,
) -> Result<Option<Leaf>, AllocError>
    ensures { IfOk result (λ leaf. leaf ≡ turning.leaf_in definition.now number (Some op.now)) }
{
    let leaves = leaves_of(alloc, definition, op)?;
    let all = leaves.as_slice();
    Ok(all.get(number).copied())
}

/// Does a key while the names and literals of an operator are typed: up and down pick a name, Tab puts it into the
/// line, and Enter takes the line, if something is typed, except the last one, which is a command. It fails where
/// memory runs out, and the face is then as before.
pub fn name_key(
    alloc: Global,
    definition: &Definition,
    face: &mut Face,
    key: Key,
) -> Result<(), AllocError>
    ensures named { OnOk result (face_of face.new ≡ turning.named_key definition.now (face_of face.old) key) }
    ensures memory { OnErr result (face_of face.new ≡ face_of face.old) }
{
    match key {
        Key::Up => {
            pick_before(face);
            Ok(())
        }
        Key::BackTab => {
            pick_before(face);
            Ok(())
        }
        Key::Down => pick_after(alloc, face),
        Key::Tab => complete(alloc, face),
        Key::Enter => take_leaf(alloc, definition, face),
        _ => narrow(alloc, face, key),
    }
}

/// Puts the name that is picked into the line.
fn complete(alloc: Global, face: &mut Face) -> Result<(), AllocError>
    ensures completed { OnOk result (face_of face.new
        ≡ turning.completed (face_of face.old) (picked_offer (face_of face.old))) }
    ensures memory { OnErr result (face_of face.new ≡ face_of face.old) }
{
    match face.picked(alloc)? {
        Some(name) => {
            let text = chars_of(alloc, name.as_str())?;
            face.open_line(alloc, Mode::Naming, text);
            face.pick = 0;
            Ok(())
        }
        None => Ok(()),
    }
}

/// Returns the characters of a text.
pub(crate) fn chars_of(alloc: Global, text: &str) -> Result<Vec<char>, AllocError>
    ensures { IfOk result (λ all. all.items ≡ chars text.now) }
{
    let all: Vec<char> = text.chars().collect(alloc)?;
    Ok(all)
}

/// Takes the line as the next name or literal, if the operator has one more.
fn take_leaf(alloc: Global, definition: &Definition, face: &mut Face) -> Result<(), AllocError>
    ensures taken { OnOk result (face_of face.new ≡ turning.next_leaf definition.now (face_of face.old)) }
    ensures memory { OnErr result (face_of face.new ≡ face_of face.old) }
{
    let leaf = leaf_at(alloc, definition, face)?;
    match leaf {
        Some(leaf) => put_leaf(alloc, face, leaf),
        None => Ok(()),
    }
}

/// Takes the line as the name or literal; where nothing is typed, all stays as it is.
fn put_leaf(alloc: Global, face: &mut Face, leaf: Leaf) -> Result<(), AllocError>
    ensures taken { OnOk result (face_of face.new ≡ turning.with_leaf (face_of face.old) (Some leaf)) }
    ensures memory { OnErr result (face_of face.new ≡ face_of face.old) }
{
    let args = args_with(alloc, face, leaf)?;
    let nothing = is_nothing(face, args.as_str());
    if nothing {
        return Ok(());
    }
    put_args(alloc, face, args)
}

/// Says whether nothing is typed: whether these arguments have no more bytes than those that were typed before.
fn is_nothing(face: &Face, args: &str) -> bool
    ensures { result ≡ turning.is_nothing (face_of face.now) args.now }
{
    args.len() == spaced_length(face.args.as_str())
}

/// Returns the length of the arguments with a space after them, if there are any.
fn spaced_length(args: &str) -> usize
    ensures { result ≡ length (spaced args.now) }
{
    if args.is_empty() { 0 } else { args.len() + 1 }
}

/// Goes on to the next name or literal with these arguments.
fn put_args(alloc: Global, face: &mut Face, args: Txt) -> Result<(), AllocError>
    ensures taken { OnOk result (face_of face.new ≡ turning.with_args (face_of face.old) args) }
    ensures memory { OnErr result (face_of face.new ≡ face_of face.old) }
{
    let next = number_after(face.leaf)?;
    face.enter(alloc, Mode::Naming);
    face.args = args;
    face.leaf = next;
    face.pick = 0;
    Ok(())
}

/// Returns the next number, where 64 bits hold it; else the call fails as if out of memory.
fn number_after(number: usize) -> Result<usize, AllocError>
    ensures { IfOk result (λ next. next ≡ number + 1) }
{
    match number.checked_add(1) {
        Some(next) => Ok(next),
        None => Err(uncountable(number)),
    }
}
