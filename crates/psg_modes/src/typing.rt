//! The line of text that is typed.
ghost use Rattle.std.specs.Prelude.{◌≡◌, OnErr, OnOk};
ghost use Rattle.psg_keymap.specs.Views.{face_of};
ghost use Rattle.psg_modes.specs.Turning as turning;

use psg_keymap::{Face, Message, Mode};
use psg_keys::Key;
use std::alloc::{AllocError, Global};

/// Does what a key says in a line of text. Escape and Ctrl-C leave the line, and keep it as the latest earlier one
/// where it is the text of a node. A key that is none of a line's changes nothing. It fails where memory runs out, and
/// the face is then as before.
pub fn type_key(alloc: Global, face: &mut Face, key: Key) -> Result<(), AllocError>
    ensures typed { OnOk result (face_of face.new ≡ turning.line_key (face_of face.old) key) }
    ensures memory { OnErr result (face_of face.new ≡ face_of face.old) }
{
    match key {
        Key::Escape => leave_line(alloc, face),
        Key::Control(c) => control_key(alloc, face, c),
        _ => put_key(alloc, face, key),
    }
}

/// Leaves the line at Ctrl-C; another key goes into the line.
fn control_key(alloc: Global, face: &mut Face, c: char) -> Result<(), AllocError>
    ensures typed { OnOk result (face_of face.new ≡ turning.control_key (face_of face.old) c) }
    ensures memory { OnErr result (face_of face.new ≡ face_of face.old) }
{
    if c == 'c' {
        leave_line(alloc, face)
    } else {
        put_key(alloc, face, Key::Control(c))
    }
}

/// Leaves the line, and keeps it where it is the text of a node.
pub(crate) fn leave_line(alloc: Global, face: &mut Face) -> Result<(), AllocError>
    ensures left { OnOk result (face_of face.new ≡ turning.left_line (face_of face.old)) }
    ensures memory { OnErr result (face_of face.new ≡ face_of face.old) }
{
    match face.mode {
        Mode::Typing => {
            face.lines.keep(alloc)?;
            face.enter(alloc, Mode::Browsing);
            Ok(())
        }
        _ => {
            face.enter(alloc, Mode::Browsing);
            Ok(())
        }
    }
}

/// Puts the key into the line, where it is a key of a line.
fn put_key(alloc: Global, face: &mut Face, key: Key) -> Result<(), AllocError>
    ensures typed { OnOk result (face_of face.new ≡ turning.typed_key (face_of face.old) key) }
    ensures memory { OnErr result (face_of face.new ≡ face_of face.old) }
{
    let taken = face.lines.press(alloc, key)?;
    if taken {
        face.message = Message::Quiet;
        return Ok(());
    }
    Ok(())
}
