//! The rows of a program's text.
ghost use Rattle.std.specs.Prelude.{◌≡◌, ◌+◌, ◌<◌, ◌^◌, [], IfOk, OnOk, chars, cond, length, nat_le};
ghost use Rattle.psg_picture.specs.Marked.{marked_from, program_rows};
ghost use Rattle.psg_picture.specs.Rows.{plain_row, shown, with_row, with_rows};

use crate::marks::Marks;
use crate::row::{Styled, write_empty, write_plain};
use crate::windowed::shown;
use psg_canvas::Sketch;
use psg_screen::View;
use std::alloc::{AllocError, Global};

/// Writes the lines of the text that the window has, one a row, and empty rows after the last line, that many rows in
/// all.
pub(crate) fn write_program(
    alloc: Global,
    sketch: &mut Sketch,
    view: View,
    text: &str,
    marks: &Marks,
    rows: u32,
) -> Result<(), AllocError>
    ensures { OnOk result (sketch.new ≡ with_rows (program_rows view rows text.now marks.now) sketch.old) }
{
    let whole = text.len();
    let top = view.top as usize;
    let last = top + rows as usize;
    let mut number = 0usize;
    let mut byte = 0usize;
    for line in text.split('\n').take(last) {
        let is_shown = is_from(top, number);
        write_line(alloc, sketch, view, line, byte, marks, is_shown)?;
        number += 1;
        byte += line.len() + 1;
    }
    write_empty(alloc, sketch, last - number.max(top))?;
    Ok(())
}

/// Says whether the line of this number is the top one or below it.
fn is_from(top: usize, number: usize) -> bool
    ensures { result ≡ nat_le top number }
{
    top <= number
}

/// Writes a line that begins at this byte, where it is one of the window.
fn write_line(
    alloc: Global,
    sketch: &mut Sketch,
    view: View,
    line: &str,
    byte: usize,
    marks: &Marks,
    is_shown: bool,
) -> Result<(), AllocError>
    requires { byte + length line.now < 2 ^ 64 }
    ensures { OnOk result (sketch.new ≡ cond is_shown
        (with_row (plain_row (shown view [] (marked_from marks.now byte (chars line.now)))) sketch.old) sketch.old) }
{
    if !is_shown {
        return Ok(());
    }
    let marked = marked(alloc, line, byte, marks)?;
    let row = shown(alloc, view, marked)?;
    write_plain(alloc, sketch, row)?;
    Ok(())
}

/// Returns the characters of a line that begins at this byte, with their styles.
fn marked(alloc: Global, line: &str, start: usize, marks: &Marks) -> Result<Vec<Styled>, AllocError>
    requires { start + length line.now < 2 ^ 64 }
    ensures { IfOk result (λ row. row.items ≡ marked_from marks.now start (chars line.now)) }
{
    let mut row = Vec::new(alloc);
    let mut byte = start;
    for c in line.chars() {
        row.push(Styled {
            c,
            style: marks.style_at(byte),
        })?;
        byte += c.len_utf8();
    }
    Ok(row)
}
