//! How a picture is made, character by character.
ghost use Rattle.std.specs.Prelude.{◌≡◌, ◌+◌, ◌*◌, ◌≤◌, ◌<◌, ◌++◌, IfOk, OnOk, OnErr, length, replicate};
ghost use Rattle.psg_canvas.specs.Cells.{AreCells, columns, columns_of, cell_of, rest};
ghost use Rattle.psg_canvas.specs.Sketching.{empty_sketch, joined, row_after, has_room};
ghost use Rattle.psg_canvas.specs.Sketching.{with_char, with_row, with_row_end};
ghost use Rattle.psg_canvas.specs.Sketching.{filled_up, finished, place_of};

use crate::picture::Picture;
use crate::slot::{Slot, is_left_out, is_mark, width_of};
use crate::style::Style;
use std::alloc::{AllocError, Global};
use std::marker::Model;

/// A picture that is being made: the rows that are ended, and the cells of the row that is written now.
#[derive(Drop)]
pub struct Sketch {
    rows: u32,
    cols: u32,
    /// How many columns the picture has.
    total: usize,
    above: Vec<Slot>,
    row: Vec<Slot>,
    /// How many columns the row has already.
    column: usize,
}

impl Model for Sketch {
    ghost use Rattle.std.specs.Prelude.{◌≡◌, ◌*◌, length};
    ghost use Rattle.psg_canvas.specs.Cells.{columns};
    ghost use Rattle.psg_canvas.specs.Sketching.{Sketched, IsSketch};

    ghost Value = { Sketched };

    ghost view = { λ s. record { rows = s.rows; cols = s.cols; above = s.above.items; row = s.row.items } };

    ghost invariant = { λ s. (s.total ≡ s.rows * s.cols) × (s.column ≡ length (columns s.row.items))
        × IsSketch (record { rows = s.rows; cols = s.cols; above = s.above.items; row = s.row.items }) };
}

impl Sketch {
    /// Begins a picture of that many rows and columns. Takes the memory for its columns.
    pub fn new(alloc: Global, rows: u32, cols: u32) -> Result<Sketch, AllocError>
        ensures { IfOk result (λ s. s ≡ empty_sketch rows cols) }
    {
        let total = count(rows, cols);
        let above = Vec::with_capacity(alloc, total)?;
        Ok(Sketch {
            rows,
            cols,
            total,
            above,
            row: Vec::new(alloc),
            column: 0,
        })
    }

    /// Writes a character at the end of the row. A character of width 0 joins the cell before it. One that is left out,
    /// or that does not fit into the row, changes nothing. Fails only when out of memory, and the sketch is then as
    /// before.
    pub fn write(&mut self, alloc: Global, c: char, style: Style) -> Result<(), AllocError>
        ensures written { OnOk result (self.new ≡ with_char c style self.old) }
        ensures memory { OnErr result (self.new ≡ self.old) }
    {
        let column = write_char(
            alloc,
            &mut self.row,
            self.cols as usize,
            self.column,
            c,
            style,
        )?;
        self.column = column;
        Ok(())
    }

    /// Ends the row, which is filled with spaces of this style. One after the last row of the picture is left out.
    /// Fails only when out of memory, and the sketch is then empty.
    pub fn end_row(&mut self, alloc: Global, style: Style) -> Result<(), AllocError>
        ensures { OnOk result (self.new ≡ with_row_end style self.old) }
    {
        let left = self.cols as usize - self.column;
        let above = std::mem::replace(&mut self.above, Vec::new(alloc));
        let row = std::mem::replace(&mut self.row, Vec::new(alloc));
        self.column = 0;
        self.above = with_row(alloc, self.total, left, style, above, row)?;
        Ok(())
    }

    /// Ends the row in the plain style, and fills the rest of the picture with empty columns. The cursor is shown at
    /// its row and column, where both are within.
    pub fn finish(self, alloc: Global, cursor: Option<(u32, u32)>) -> Result<Picture, AllocError>
        ensures { IfOk result (λ picture. picture ≡ finished self cursor) }
    {
        let Sketch {
            rows,
            cols,
            total,
            above,
            row,
            column,
        } = self;
        let left = cols as usize - column;
        let ended = with_row(alloc, total, left, Style::plain(), above, row)?;
        let slots = fill_up(alloc, ended, total)?;
        let cursor = place_of(rows, cols, cursor);
        Ok(Picture {
            rows: rows as usize,
            cols: cols as usize,
            slots,
            cursor,
        })
    }
}

/// Returns the number of columns of that many rows.
fn count(rows: u32, cols: u32) -> usize
    ensures { result ≡ rows * cols }
{
    rows as usize * cols as usize
}

/// Writes a character at the end of a row that has cells in its first columns, and returns how many columns they have
/// then.
fn write_char(
    alloc: Global,
    row: &mut Vec<Slot>,
    cols: usize,
    column: usize,
    c: char,
    style: Style,
) -> Result<usize, AllocError>
    requires column { column ≡ length (columns row.old.items) }
    requires narrow { column ≤ cols }
    requires fit { AreCells cols 0 row.old.items }
    ensures row { OnOk result (row.new.items ≡ row_after cols row.old.items c style) }
    ensures column { IfOk result (λ next. next ≡ length (columns row.new.items)) }
    ensures memory { OnErr result (row.new.items ≡ row.old.items) }
{
    if is_left_out(c) {
        return Ok(column);
    }
    if is_mark(c) {
        join(row, c)?;
        return Ok(column);
    }
    if !has_room(cols, column, c) {
        return Ok(column);
    }
    row.push(Slot::cell(alloc, c, style)?)?;
    Ok(column + width_of(c))
}

/// Adds a mark to the last cell, if there is one.
fn join(row: &mut Vec<Slot>, mark: char) -> Result<(), AllocError>
    ensures joined { OnOk result (row.new.items ≡ joined mark row.old.items) }
    ensures memory { OnErr result (row.new.items ≡ row.old.items) }
{
    let Some(last) = row.len().checked_sub(1) else {
        return Ok(());
    };
    row[last].join(mark)?;
    Ok(())
}

/// Says whether the character has width 1 or 2, and a row has that many columns left.
fn has_room(cols: usize, column: usize, c: char) -> bool
    requires { column ≤ cols }
    ensures { result ≡ has_room cols column c }
{
    let width = width_of(c);
    (width == 1 || width == 2) && width <= cols - column
}

/// Returns the columns with those of a row and that many spaces after it, where they are not all columns already.
fn with_row(
    alloc: Global,
    total: usize,
    left: usize,
    style: Style,
    above: Vec<Slot>,
    row: Vec<Slot>,
) -> Result<Vec<Slot>, AllocError>
    ensures { IfOk result (λ more. more.items ≡ with_row total left style above.items row.items) }
{
    if above.len() >= total {
        return Ok(above);
    }
    let more = with_columns(alloc, above, row)?;
    with_spaces(alloc, more, left, style)
}

/// Returns the columns with those of the cells after them.
fn with_columns(alloc: Global, above: Vec<Slot>, row: Vec<Slot>) -> Result<Vec<Slot>, AllocError>
    ensures { IfOk result (λ more. more.items ≡ above.items ++ columns row.items) }
{
    let mut more = above;
    for cell in row {
        push_columns(alloc, &mut more, cell)?;
    }
    Ok(more)
}

/// Puts all columns of the cell at the end.
fn push_columns(alloc: Global, slots: &mut Vec<Slot>, cell: Slot) -> Result<(), AllocError>
    ensures { OnOk result (slots.new.items ≡ slots.old.items ++ columns_of cell) }
{
    let more = cell.width().saturating_sub(1);
    slots.push(cell)?;
    push_rests(alloc, slots, more)?;
    Ok(())
}

/// Puts that many further columns of a cell at the end.
fn push_rests(alloc: Global, slots: &mut Vec<Slot>, count: usize) -> Result<(), AllocError>
    ensures { OnOk result (slots.new.items ≡ slots.old.items ++ replicate count rest) }
{
    for _ in 0..count {
        slots.push(Slot::rest(alloc))?;
    }
    Ok(())
}

/// Returns the columns with that many spaces of a style after them.
fn with_spaces(
    alloc: Global,
    above: Vec<Slot>,
    count: usize,
    style: Style,
) -> Result<Vec<Slot>, AllocError>
    ensures { IfOk result (λ more. more.items ≡ above.items ++ replicate count (cell_of 32 style)) }
{
    let mut more = above;
    for _ in 0..count {
        more.push(Slot::cell(alloc, ' ', style)?)?;
    }
    Ok(more)
}

/// Returns the columns with empty ones after them, up to that many in all.
fn fill_up(alloc: Global, above: Vec<Slot>, total: usize) -> Result<Vec<Slot>, AllocError>
    ensures { IfOk result (λ filled. filled.items ≡ filled_up total above.items) }
{
    let missing = total.saturating_sub(above.len());
    with_spaces(alloc, above, missing, Style::plain())
}

/// Returns the place among the columns, where it is within.
fn place_of(rows: u32, cols: u32, cursor: Option<(u32, u32)>) -> Option<usize>
    ensures { result ≡ place_of rows cols cursor }
{
    match cursor {
        Some((row, col)) => {
            if row < rows && col < cols {
                return Some(place_at(row, cols, col));
            }
            None
        }
        None => None,
    }
}

/// Returns the place of a row and a column.
fn place_at(row: u32, cols: u32, col: u32) -> usize
    requires { col < cols }
    ensures { result ≡ row * cols + col }
{
    count(row, cols) + col as usize
}
