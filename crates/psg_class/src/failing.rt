//! The first things that fail, with their first tokens.
ghost use Rattle.std.specs.Prelude.{◌≡◌, ◌+◌, ◌++◌, ◌<◌, ℕ, IfOk, MatchOption, OnOk, Some, length, slice_get};
ghost use Rattle.psg_class.specs.declared.shape.Shape.{Shape as Formed};
ghost use Rattle.psg_class.specs.Shapes.{listed};
ghost use Rattle.psg_class.specs.Sources.{IsRows, IsShapeOf};
ghost use Rattle.psg_class.specs.Failing.{bracket_cell, bracket_cells, cells_from, ends, first_number, IsFirstFailing};
ghost use Rattle.psg_class.specs.Failing.{IsFirstLed, IsLeastIf, lead_cell, led_cell, LedBehind};
ghost use Rattle.psg_class.specs.Grids.{is_set, IsGrid, IsTable};

use crate::grid::{Cell, Grid};
use crate::shape::{Part, Shape};
use crate::sources::Rows;
use crate::vocabulary::Vocabulary;
use psg_grammar::Phylum;
use std::alloc::{AllocError, Global};

/// Returns the first row in which something is set, and of what is set there the one that is named first.
pub(crate) fn first_failing(vocabulary: &Vocabulary, grid: &Grid) -> Option<(usize, usize)>
    requires { IsGrid grid.now }
    ensures { IsFirstFailing vocabulary.now.base vocabulary.now.words.items grid.now.height grid.now.width
        (is_set grid.now) result }
{
    for row in 0..grid.height {
        if let Some(column) = least(vocabulary, grid, row) {
            return Some((row, column));
        }
    }
    None
}

fn least(vocabulary: &Vocabulary, grid: &Grid, row: usize) -> Option<usize>
    requires grid { IsGrid grid.now }
    requires row { row < grid.now.height }
    ensures { IsLeastIf vocabulary.now.base vocabulary.now.words.items (is_set grid.now row) grid.now.width result }
{
    let mut best = None;
    for column in 0..grid.width {
        if grid.has(row, column) {
            best = Some(first_of(vocabulary, best, column));
        }
    }
    best
}

/// Returns the number that is named first.
fn first_of(vocabulary: &Vocabulary, best: Option<usize>, number: usize) -> usize
    ensures { result ≡ first_number vocabulary.now.base vocabulary.now.words.items best number }
{
    match best {
        Some(other) => {
            if vocabulary.is_before(number, other) {
                number
            } else {
                other
            }
        }
        None => number,
    }
}

/// Returns the phylum and the first token of each operator that begins with one, and the bracket of each bracketed
/// phylum.
pub(crate) fn lead_cells(
    alloc: Global,
    shapes: &[Shape],
    phyla: &[Phylum],
    opening: usize,
) -> Result<Vec<Cell>, AllocError>
    ensures { IfOk result (λ v. v.items ≡ cells_from lead_cell shapes.now ++ bracket_cells opening 0 phyla.now) }
{
    let mut cells = Vec::with_capacity(alloc, shapes.len())?;
    for shape in shapes {
        push(&mut cells, lead_of(shape))?;
    }
    add_brackets(&mut cells, phyla, opening)?;
    Ok(cells)
}

/// Returns the phylum and the second token of each led operator.
pub(crate) fn led_cells(alloc: Global, shapes: &[Shape]) -> Result<Vec<Cell>, AllocError>
    ensures { IfOk result (λ v. v.items ≡ cells_from led_cell shapes.now) }
{
    let mut cells = Vec::with_capacity(alloc, shapes.len())?;
    for shape in shapes {
        push(&mut cells, led_of(shape))?;
    }
    Ok(cells)
}

fn add_brackets(cells: &mut Vec<Cell>, phyla: &[Phylum], opening: usize) -> Result<(), AllocError>
    ensures { OnOk result (cells.new.items ≡ cells.old.items ++ bracket_cells opening 0 phyla.now) }
{
    for row in 0..phyla.len() {
        push(cells, bracket_of(row, opening, phyla[row].bracketed))?;
    }
    Ok(())
}

fn bracket_of(row: usize, opening: usize, bracketed: bool) -> Option<Cell>
    ensures { result ≡ bracket_cell row opening bracketed }
{
    if bracketed {
        return Some(Cell {
            row,
            column: opening,
        });
    }
    None
}

fn push(cells: &mut Vec<Cell>, cell: Option<Cell>) -> Result<(), AllocError>
    ensures { OnOk result (cells.new.items ≡ cells.old.items ++ listed cell) }
{
    if let Some(cell) = cell {
        cells.push(cell)?;
    }
    Ok(())
}

fn lead_of(shape: &Shape) -> Option<Cell>
    ensures { result ≡ lead_cell shape.now }
{
    match shape.parts.as_slice().get(0) {
        Some(Part::Token(number)) => Some(Cell {
            row: shape.phylum as usize,
            column: *number,
        }),
        _ => None,
    }
}

/// Returns the phylum and the second token of a led operator.
pub(crate) fn led_of(shape: &Shape) -> Option<Cell>
    ensures { result ≡ led_cell shape.now }
{
    let parts = shape.parts.as_slice();
    match (parts.get(0), parts.get(1)) {
        (Some(Part::Slot(_)), Some(Part::Token(number))) => Some(Cell {
            row: shape.phylum as usize,
            column: *number,
        }),
        _ => None,
    }
}

/// Returns the first led operator whose second token can follow its phylum, with the number of that token.
pub(crate) fn first_led(shapes: &[Shape], rows: &Rows, sets: &Grid) -> Option<(usize, usize)>
    requires rows { IsRows rows.now }
    requires sets { IsTable rows.now.height sets.now.width sets.now }
    requires shapes { (n : ℕ) (s : Formed) → slice_get shapes.now n ≡ Some s → IsShapeOf rows.now sets.now.width s }
    ensures { IsFirstLed rows.now sets.now shapes.now result }
{
    for number in 0..shapes.len() {
        if let Some(column) = led_behind(&shapes[number], rows, sets) {
            return Some((number, column));
        }
    }
    None
}

fn led_behind(shape: &Shape, rows: &Rows, sets: &Grid) -> Option<usize>
    requires rows { IsRows rows.now }
    requires sets { IsTable rows.now.height sets.now.width sets.now }
    requires shape { IsShapeOf rows.now sets.now.width shape.now }
    ensures { MatchOption result ((c : ℕ) → LedBehind rows.now sets.now shape.now c → ⊥)
        (LedBehind rows.now sets.now shape.now) }
{
    match led_of(shape) {
        Some(cell) => {
            if sets.has(rows.kinds + cell.row, cell.column) {
                return Some(cell.column);
            }
            None
        }
        None => None,
    }
}

/// Returns the first list that its separator, or a terminal that begins the list, can follow, and of these terminals
/// the one that is named first.
pub(crate) fn first_end(
    vocabulary: &Vocabulary,
    rows: &Rows,
    sets: &Grid,
    separators: &[usize],
) -> Option<(usize, usize)>
    requires rows { IsRows rows.now }
    requires lists { rows.now.kinds ≡ rows.now.phyla + length separators.now }
    requires sets { IsTable rows.now.height sets.now.width sets.now }
    ensures { IsFirstFailing vocabulary.now.base vocabulary.now.words.items (length separators.now) sets.now.width
        (ends rows.now sets.now separators.now) result }
{
    for list in 0..separators.len() {
        if let Some(column) = least_end(vocabulary, rows, sets, separators, list) {
            return Some((list, column));
        }
    }
    None
}

fn least_end(
    vocabulary: &Vocabulary,
    rows: &Rows,
    sets: &Grid,
    separators: &[usize],
    list: usize,
) -> Option<usize>
    requires rows { IsRows rows.now }
    requires lists { rows.now.kinds ≡ rows.now.phyla + length separators.now }
    requires sets { IsTable rows.now.height sets.now.width sets.now }
    requires list { list < length separators.now }
    ensures { IsLeastIf vocabulary.now.base vocabulary.now.words.items
        (ends rows.now sets.now separators.now list) sets.now.width result }
{
    let mut best = None;
    for column in 0..sets.width {
        if is_end(rows, sets, separators, list, column) {
            best = Some(first_of(vocabulary, best, column));
        }
    }
    best
}

fn is_end(rows: &Rows, sets: &Grid, separators: &[usize], list: usize, column: usize) -> bool
    requires rows { IsRows rows.now }
    requires lists { rows.now.kinds ≡ rows.now.phyla + length separators.now }
    requires sets { IsTable rows.now.height sets.now.width sets.now }
    requires list { list < length separators.now }
    requires column { column < sets.now.width }
    ensures { result ≡ ends rows.now sets.now separators.now list column }
{
    let row = rows.phyla + list;
    sets.has(rows.kinds + row, column) && (sets.has(row, column) || column == separators[list])
}
