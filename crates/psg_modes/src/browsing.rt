//! Keys while a place is chosen.
ghost use Rattle.std.specs.Prelude.{◌≡◌, OnErr, OnOk};
ghost use Rattle.psg_grammar.specs.declared.types.Definition.{Definition as PlainDefinition};
ghost use Rattle.psg_keymap.specs.Views.{face_of, message_of};
ghost use Rattle.psg_unparse.specs.Spans.{printed_of};
ghost use Rattle.psg_modes.specs.Pages.{key_lines};
ghost use Rattle.psg_modes.specs.Turning as turning;

use crate::node_text::node_line;
use crate::paging::{key_page, show_page};
use psg_keymap::{Face, Message, Mode};
use psg_keys::{Key, Stroke};
use psg_tree::{Path, Tree};
use psg_unparse::Printed;
use std::alloc::{AllocError, Global};

/// The greatest number of rows and of columns of a screen.
const MOST_SIZE: u32 = 1000;

/// Takes the size of the screen, of which each number is a thousand at most. It takes no memory.
pub fn take_size(face: &mut Face, rows: u32, cols: u32)
    ensures { face_of face.new ≡ turning.sized rows cols (face_of face.old) }
{
    face.rows = rows.min(MOST_SIZE);
    face.cols = cols.min(MOST_SIZE);
}

/// Chooses the place at the path. It takes no memory.
pub fn choose_path(face: &mut Face, path: Path)
    ensures { face_of face.new ≡ turning.choosing path (face_of face.old) }
{
    face.chosen = path;
    face.message = Message::Quiet;
}

/// Says this in the last line. It takes no memory.
pub fn say(face: &mut Face, message: Message)
    ensures { face_of face.new ≡ turning.saying (message_of message) (face_of face.old) }
{
    face.message = message;
}

/// Says in the last line which bytes are no key: in each mode nothing else is changed by them. It fails where memory
/// runs out, and the face is then as before.
pub fn say_unknown(alloc: Global, face: &mut Face, stroke: &Stroke) -> Result<(), AllocError>
    ensures said { OnOk result (face_of face.new ≡ turning.no_key_of stroke.now.bytes (face_of face.old)) }
    ensures memory { OnErr result (face_of face.new ≡ face_of face.old) }
{
    let bytes = Vec::from_slice(alloc, stroke.bytes())?;
    say(face, Message::Unknown(bytes));
    Ok(())
}

/// Does a key while a place is chosen that is no command, leads nowhere and asks nothing: a line of text is opened by
/// Enter and `e`, with the text of the node, and by `o` and a paste, empty; `?` shows the keys; `q` and Ctrl-C end,
/// after a question where the program was `changed`. `printed` is the printed program. It fails where memory runs out,
/// and the face is then as before.
pub fn browse_key(
    alloc: Global,
    tree: &Tree,
    printed: &Printed,
    changed: bool,
    face: &mut Face,
    stroke: &Stroke,
) -> Result<(), AllocError>
    ensures browsed { OnOk result ((def : PlainDefinition) → printed.now ≡ printed_of def tree.now
        → face_of face.new ≡ turning.browsed def tree.now changed key_lines (face_of face.old)
        stroke.now.key stroke.now.bytes) }
    ensures memory { OnErr result (face_of face.new ≡ face_of face.old) }
{
    match stroke.key() {
        Key::Enter => open_node(alloc, tree, printed, face),
        Key::Char(c) => letter_key(alloc, tree, printed, changed, face, c),
        Key::PasteBegins => {
            face.enter(alloc, Mode::Typing);
            Ok(())
        }
        Key::PasteEnds => {
            say(face, Message::Quiet);
            Ok(())
        }
        Key::Control(c) => {
            control_key(alloc, changed, face, c);
            Ok(())
        }
        Key::Unknown => say_unknown(alloc, face, stroke),
        _ => {
            say(face, Message::NoKey);
            Ok(())
        }
    }
}

/// Opens a line with the text of the chosen node.
fn open_node(
    alloc: Global,
    tree: &Tree,
    printed: &Printed,
    face: &mut Face,
) -> Result<(), AllocError>
    ensures opened { OnOk result ((def : PlainDefinition) → printed.now ≡ printed_of def tree.now
        → face_of face.new ≡ turning.opened_node def tree.now (face_of face.old)) }
    ensures memory { OnErr result (face_of face.new ≡ face_of face.old) }
{
    let text = node_line(alloc, tree, printed, &face.chosen)?;
    face.open_line(alloc, Mode::Typing, text);
    Ok(())
}

/// Does a letter.
fn letter_key(
    alloc: Global,
    tree: &Tree,
    printed: &Printed,
    changed: bool,
    face: &mut Face,
    c: char,
) -> Result<(), AllocError>
    ensures browsed { OnOk result ((def : PlainDefinition) → printed.now ≡ printed_of def tree.now
        → face_of face.new ≡ turning.browsed_letter def tree.now changed key_lines (face_of face.old) c) }
    ensures memory { OnErr result (face_of face.new ≡ face_of face.old) }
{
    match c {
        'e' => open_node(alloc, tree, printed, face),
        'o' => {
            face.enter(alloc, Mode::Typing);
            Ok(())
        }
        '?' => {
            let page = key_page(alloc)?;
            show_page(face, page);
            Ok(())
        }
        'q' => {
            end(alloc, changed, face);
            Ok(())
        }
        _ => {
            say(face, Message::NoKey);
            Ok(())
        }
    }
}

/// Does Ctrl with a letter.
fn control_key(alloc: Global, changed: bool, face: &mut Face, c: char)
    ensures { face_of face.new ≡ turning.browsed_control changed (face_of face.old) c }
{
    match c {
        'c' => end(alloc, changed, face),
        'l' => say(face, Message::Quiet),
        _ => say(face, Message::NoKey),
    }
}

/// Ends, or asks before it where the program was changed.
fn end(alloc: Global, changed: bool, face: &mut Face)
    ensures { face_of face.new ≡ turning.ending changed (face_of face.old) }
{
    if changed {
        face.enter(alloc, Mode::Leaving);
    } else {
        face.ended = true;
    }
}
