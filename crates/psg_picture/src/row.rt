//! Rows of characters with their styles.
ghost use Rattle.std.specs.Prelude.{◌≡◌, ◌++◌, IfOk, OnOk, chars, replicate};
ghost use Rattle.psg_picture.specs.Rows.{in_style, plain_row, with_row, with_rows, written};
ghost use Rattle.psg_picture.specs.Rows as rowed;

use psg_canvas::{Sketch, Style};
use std::alloc::{AllocError, Global};

/// A character and how it is written.
#[derive(Clone, Copy)]
pub struct Styled {
    pub(crate) c: char,
    pub(crate) style: Style,
}

/// Puts the characters of a text at the end, in one style.
pub(crate) fn push_text(row: &mut Vec<Styled>, text: &str, style: Style) -> Result<(), AllocError>
    ensures { OnOk result (row.new.items ≡ row.old.items ++ in_style style (chars text.now)) }
{
    for c in text.chars() {
        row.push(Styled { c, style })?;
    }
    Ok(())
}

/// Puts that many of one character at the end.
pub(crate) fn push_same(
    row: &mut Vec<Styled>,
    count: u32,
    c: char,
    style: Style,
) -> Result<(), AllocError>
    ensures { OnOk result (row.new.items ≡ row.old.items ++ in_style style (replicate count c)) }
{
    for _ in 0..count {
        row.push(Styled { c, style })?;
    }
    Ok(())
}

/// Puts characters at the end, in the plain style.
pub(crate) fn push_chars(row: &mut Vec<Styled>, chars: &[char]) -> Result<(), AllocError>
    ensures { OnOk result (row.new.items ≡ row.old.items ++ in_style rowed.plain chars.now) }
{
    let style = Style::plain();
    let mut rest = chars;
    'chars: while let Some((first, others)) = rest.split_first() {
        row.push(Styled { c: *first, style })?;
        rest = others;
    }
    Ok(())
}

/// Writes a row of these characters, which is filled with spaces of a style.
pub(crate) fn write_row(
    alloc: Global,
    sketch: &mut Sketch,
    chars: Vec<Styled>,
    rest: Style,
) -> Result<(), AllocError>
    ensures { OnOk result
        (sketch.new ≡ with_row (record { chars = chars.items; rest = rest }) sketch.old) }
{
    write_chars(alloc, sketch, chars)?;
    sketch.end_row(alloc, rest)
}

/// Writes a row of these characters, which is filled with plain spaces.
pub(crate) fn write_plain(
    alloc: Global,
    sketch: &mut Sketch,
    chars: Vec<Styled>,
) -> Result<(), AllocError>
    ensures { OnOk result (sketch.new ≡ with_row (plain_row chars.items) sketch.old) }
{
    write_row(alloc, sketch, chars, Style::plain())
}

/// Writes characters at the end of the row.
fn write_chars(alloc: Global, sketch: &mut Sketch, chars: Vec<Styled>) -> Result<(), AllocError>
    ensures { OnOk result (sketch.new ≡ written chars.items sketch.old) }
{
    for styled in chars {
        sketch.write(alloc, styled.c, styled.style)?;
    }
    Ok(())
}

/// Writes that many empty rows.
pub(crate) fn write_empty(
    alloc: Global,
    sketch: &mut Sketch,
    count: usize,
) -> Result<(), AllocError>
    ensures { OnOk result (sketch.new ≡ with_rows (replicate count rowed.empty_row) sketch.old) }
{
    for _ in 0..count {
        sketch.end_row(alloc, Style::plain())?;
    }
    Ok(())
}
