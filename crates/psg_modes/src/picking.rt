//! Offers, of which one is picked, and what is typed to narrow them.
ghost use Rattle.std.specs.Prelude.{◌≡◌, length, map, string_bytes, IfOk, OnErr, OnOk};
ghost use Rattle.psg_keymap.specs.Faces.{shown_offers};
ghost use Rattle.psg_keymap.specs.Views.{face_of};
ghost use Rattle.psg_modes.specs.Turning as turning;

use crate::typing::leave_line;
use psg_keymap::{Face, Message, Mode, Spot};
use psg_keys::Key;
use std::alloc::{AllocError, Global};

/// Shows the operators that fit at a spot. It takes no memory.
pub fn show_offers(alloc: Global, face: &mut Face, spot: Spot, offers: Vec<String>)
    ensures { face_of face.new ≡ turning.offering spot (map string_bytes offers.items) (face_of face.old) }
{
    face.enter(alloc, Mode::Choosing);
    face.offers = offers;
    face.pick = 0;
    face.target = spot.target;
    face.place = spot.place;
}

/// Does a key while an operator is picked: arrows pick another one, what is typed narrows them, and Escape leaves. It
/// fails where memory runs out, and the face is then as before.
pub fn choose_key(alloc: Global, face: &mut Face, key: Key) -> Result<(), AllocError>
    ensures picked { OnOk result (face_of face.new ≡ turning.chosen_key (face_of face.old) key) }
    ensures memory { OnErr result (face_of face.new ≡ face_of face.old) }
{
    match key {
        Key::Up => {
            pick_before(face);
            Ok(())
        }
        Key::Left => {
            pick_before(face);
            Ok(())
        }
        Key::BackTab => {
            pick_before(face);
            Ok(())
        }
        Key::Down => pick_after(alloc, face),
        Key::Right => pick_after(alloc, face),
        Key::Tab => pick_after(alloc, face),
        _ => narrow(alloc, face, key),
    }
}

/// Picks the offer before.
pub(crate) fn pick_before(face: &mut Face)
    ensures { face_of face.new ≡ turning.pick_before (face_of face.old) }
{
    face.pick = face.pick.saturating_sub(1);
}

/// Picks the offer after.
pub(crate) fn pick_after(alloc: Global, face: &mut Face) -> Result<(), AllocError>
    ensures picked { OnOk result (face_of face.new ≡ turning.pick_after (face_of face.old)) }
    ensures memory { OnErr result (face_of face.new ≡ face_of face.old) }
{
    let count = count_shown(alloc, face)?;
    face.pick = later_pick(face.pick, count);
    Ok(())
}

/// Counts the offers that begin with the line.
fn count_shown(alloc: Global, face: &Face) -> Result<usize, AllocError>
    ensures { IfOk result (λ count. count ≡ length (shown_offers (face_of face.now))) }
{
    let shown = face.shown_offers(alloc)?;
    let offers = shown.as_slice();
    Ok(offers.len())
}

/// Returns the number after this one, of that many.
fn later_pick(pick: usize, count: usize) -> usize
    ensures { result ≡ turning.later_pick pick count }
{
    let last = count.saturating_sub(1);
    if pick < last { pick + 1 } else { pick }
}

/// Types a key, and picks the first offer; a key that is none of a line's changes nothing.
pub(crate) fn narrow(alloc: Global, face: &mut Face, key: Key) -> Result<(), AllocError>
    ensures typed { OnOk result (face_of face.new ≡ turning.narrowed (face_of face.old) key) }
    ensures memory { OnErr result (face_of face.new ≡ face_of face.old) }
{
    match key {
        Key::Escape => leave_offers(alloc, face),
        Key::Control(c) => narrow_control(alloc, face, c),
        _ => narrow_line(alloc, face, key),
    }
}

/// Leaves the line at Ctrl-C; another key goes into the line.
fn narrow_control(alloc: Global, face: &mut Face, c: char) -> Result<(), AllocError>
    ensures typed { OnOk result (face_of face.new ≡ turning.narrowed_control (face_of face.old) c) }
    ensures memory { OnErr result (face_of face.new ≡ face_of face.old) }
{
    if c == 'c' {
        leave_offers(alloc, face)
    } else {
        narrow_line(alloc, face, Key::Control(c))
    }
}

/// Leaves the line and the offers.
fn leave_offers(alloc: Global, face: &mut Face) -> Result<(), AllocError>
    ensures left { OnOk result (face_of face.new ≡ turning.first_picked (turning.left_line (face_of face.old))) }
    ensures memory { OnErr result (face_of face.new ≡ face_of face.old) }
{
    leave_line(alloc, face)?;
    face.pick = 0;
    Ok(())
}

/// Puts the key into the line, where it is a key of a line, and picks the first offer.
fn narrow_line(alloc: Global, face: &mut Face, key: Key) -> Result<(), AllocError>
    ensures typed { OnOk result (face_of face.new ≡ turning.narrowed_line (face_of face.old) key) }
    ensures memory { OnErr result (face_of face.new ≡ face_of face.old) }
{
    let taken = face.lines.press(alloc, key)?;
    if taken {
        face.message = Message::Quiet;
        face.pick = 0;
        return Ok(());
    }
    Ok(())
}
