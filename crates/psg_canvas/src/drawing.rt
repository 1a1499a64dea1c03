//! The bytes that turn one picture into another one.
ghost use Rattle.std.specs.Prelude.{ℕ, ◌≡◌, ◌↔◌, ◌++◌, true, List, Some, None, Option};
ghost use Rattle.std.specs.Prelude.{IfOk, IsTrue, OnOk, length, replicate};
ghost use Rattle.std.specs.Prelude.{string_bytes};
ghost use Rattle.std.specs.Option.{option_copied};
ghost use Rattle.psg_canvas.specs.Cells.{AreRows, Picture as Shown, Slot as Column, blank};
ghost use Rattle.psg_canvas.specs.Terminal.{Terminal, screen_after};
ghost use Rattle.psg_canvas.specs.Orders.{bytes_of_all, entering, leaving, paste_marked, paste_unmarked};
ghost use Rattle.psg_canvas.specs.Drawing.{Draws, IsKept};
ghost use Rattle.psg_canvas.specs.Walking.{AwaitsPicture, ShowsOld, Turns};

use crate::pen::Pen;
use crate::picture::Picture;
use crate::slot::Slot;
use crate::style::Style;
use std::alloc::{AllocError, Global};

/// Returns the bytes that turn the old picture on a screen into the new one. Where there is no old one, or one of
/// another size, the screen may show anything, and is erased first; else only the cells that differ are written. Fails
/// only when out of memory. Reads each cell of the new picture once.
pub fn draw(alloc: Global, old: Option<&Picture>, new: &Picture) -> Result<String, AllocError>
    ensures { IfOk result (λ bytes. Draws (option_copied old.entry) new.now (string_bytes bytes)) }
{
    let mut pen = Pen::new(alloc, new.cols());
    put_picture(&mut pen, old, new)?;
    pen.set_cursor(new.cursor())?;
    Ok(pen.into_text())
}

/// Returns the bytes that show the other screen, without its cursor, and ask for marks around a pasted text.
pub fn enter() -> &'static str
    ensures bytes { result.now ≡ bytes_of_all 1 entering ++ paste_marked }
    ensures other { (t : Terminal) → t.main ≡ None → (screen_after t entering).main ≡ Some t.shown }
{
    "\x1B[?1049h\x1B[?25l\x1B[?2004h"
}

/// Returns the bytes that ask for no marks any more, and show the first screen as it was, with its cursor, in the plain
/// style.
pub fn leave() -> &'static str
    ensures bytes { result.now ≡ paste_unmarked ++ bytes_of_all 1 leaving }
    ensures first { (t : Terminal) (main : List (Option Column)) → t.main ≡ Some main
        → ((screen_after t leaving).shown ≡ main) × ((screen_after t leaving).cursor ≡ true) }
{
    "\x1B[?2004l\x1B[0m\x1B[?25h\x1B[?1049l"
}

/// Writes what differs from an old picture of the same size, and all where there is none.
fn put_picture(pen: &mut Pen, old: Option<&Picture>, new: &Picture) -> Result<(), AllocError>
    requires cols { pen.old.cols ≡ new.now.cols }
    requires place { pen.old.at ≡ None }
    requires style { pen.old.style ≡ None }
    ensures turns { OnOk result (Turns (IsKept (option_copied old.entry) new.now)
        (AwaitsPicture (option_copied old.entry) new.now) new.now.cols new.now.slots (string_bytes pen.old.out)
        (string_bytes pen.new.out) pen.new.at pen.new.style) }
    ensures cols { pen.new.cols ≡ pen.old.cols }
{
    match old {
        Some(old) => {
            put_over(pen, old, new)?;
            Ok(())
        }
        None => {
            put_anew(pen, new)?;
            Ok(())
        }
    }
}

/// Writes what differs from an old picture, and all where that one is of another size.
fn put_over(pen: &mut Pen, old: &Picture, new: &Picture) -> Result<(), AllocError>
    requires cols { pen.old.cols ≡ new.now.cols }
    requires place { pen.old.at ≡ None }
    requires style { pen.old.style ≡ None }
    ensures turns { OnOk result (Turns (IsKept (Some old.now) new.now) (AwaitsPicture (Some old.now) new.now)
        new.now.cols new.now.slots (string_bytes pen.old.out) (string_bytes pen.new.out) pen.new.at pen.new.style) }
    ensures cols { pen.new.cols ≡ pen.old.cols }
{
    if is_same_size(old, new) {
        put_changes(pen, old.slots(), new.slots())?;
        return Ok(());
    }
    put_anew(pen, new)?;
    Ok(())
}

fn is_same_size(one: &Picture, other: &Picture) -> bool
    ensures { IsTrue result ↔ ((one.now.rows ≡ other.now.rows) × (one.now.cols ≡ other.now.cols)) }
{
    one.rows() == other.rows() && one.cols() == other.cols()
}

/// Writes the cells that differ from those of an old picture of this size.
fn put_changes(pen: &mut Pen, old: &[Slot], new: &[Slot]) -> Result<(), AllocError>
    requires whole { AreRows pen.old.cols old.now }
    requires new_whole { AreRows pen.old.cols new.now }
    requires size { length old.now ≡ length new.now }
    ensures turns { OnOk result (Turns (Unit {0}) (ShowsOld pen.old.cols old.now pen.old.at pen.old.style) pen.old.cols
        new.now (string_bytes pen.old.out) (string_bytes pen.new.out) pen.new.at pen.new.style) }
    ensures cols { pen.new.cols ≡ pen.old.cols }
{
    let mut place = 0;
    'cells: while place < new.len() {
        let cell = &new[place];
        let known = old[place].shows_same(cell);
        pen.put_unless(known, place, cell)?;
        place += cell.width();
    }
    Ok(())
}

/// Erases the screen, and writes the cells that are not empty.
fn put_anew(pen: &mut Pen, new: &Picture) -> Result<(), AllocError>
    requires cols { pen.old.cols ≡ new.now.cols }
    requires place { pen.old.at ≡ None }
    requires style { pen.old.style ≡ None }
    ensures turns { OnOk result ((old : Option Shown) → (IsKept old new.now → ⊥) → Turns (IsKept old new.now)
        (AwaitsPicture old new.now) new.now.cols new.now.slots (string_bytes pen.old.out) (string_bytes pen.new.out)
        pen.new.at pen.new.style) }
    ensures cols { pen.new.cols ≡ pen.old.cols }
{
    pen.erase()?;
    put_filled(pen, new.slots())?;
    Ok(())
}

/// Writes the cells that are not empty, on an empty screen.
fn put_filled(pen: &mut Pen, new: &[Slot]) -> Result<(), AllocError>
    requires whole { AreRows pen.old.cols new.now }
    ensures turns { OnOk result (Turns (Unit {0}) (ShowsOld pen.old.cols (replicate (length new.now) blank) pen.old.at
        pen.old.style) pen.old.cols new.now (string_bytes pen.old.out) (string_bytes pen.new.out) pen.new.at
        pen.new.style) }
    ensures cols { pen.new.cols ≡ pen.old.cols }
{
    let mut place = 0;
    'cells: while place < new.len() {
        let cell = &new[place];
        pen.put_unless(is_blank(cell), place, cell)?;
        place += cell.width();
    }
    Ok(())
}

/// Says whether the cell is a space in the plain style.
fn is_blank(cell: &Slot) -> bool
    ensures { IsTrue result ↔ (cell.now ≡ blank) }
{
    cell.text() == [' '].as_slice() && cell.style() == Style::plain()
}
