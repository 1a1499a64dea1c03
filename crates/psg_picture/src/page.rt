//! The rows of a page of lines.
ghost use Rattle.std.specs.Prelude.{◌≡◌, [], OnOk, map, slice_index_or, string_bytes};
ghost use Rattle.psg_picture.specs.Marked.{page_row, page_rows};
ghost use Rattle.psg_picture.specs.Rows.{with_row, with_rows};

use crate::row::write_plain;
use crate::windowed::{columns_from, shown_text};
use psg_canvas::Sketch;
use std::alloc::{AllocError, Global};

/// Writes the lines of a page from the top one on, and empty rows after the last one, that many rows in all.
pub(crate) fn write_page(
    alloc: Global,
    sketch: &mut Sketch,
    cols: u32,
    lines: &[String],
    top: u32,
    rows: u32,
) -> Result<(), AllocError>
    ensures { OnOk result
        (sketch.new ≡ with_rows (page_rows cols (map string_bytes lines.now) top rows) sketch.old) }
{
    for row in 0..rows {
        write_line(alloc, sketch, cols, lines, top as usize + row as usize)?;
    }
    Ok(())
}

/// Writes a line of a page, or an empty row where there is none.
fn write_line(
    alloc: Global,
    sketch: &mut Sketch,
    cols: u32,
    lines: &[String],
    place: usize,
) -> Result<(), AllocError>
    ensures { OnOk result
        (sketch.new ≡ with_row (page_row cols (map string_bytes lines.now) place) sketch.old) }
{
    let text = line_at(lines, place);
    let row = shown_text(alloc, columns_from(0, cols), text)?;
    write_plain(alloc, sketch, row)
}

/// Returns a line of a page; an empty one where there is none.
fn line_at(lines: &[String], place: usize) -> &str
    ensures { result.now ≡ slice_index_or (map string_bytes lines.now) place [] }
{
    match lines.get(place) {
        Some(line) => line.as_str(),
        None => "",
    }
}
