//! The conditions on operators that need no sets of terminals.
ghost use Rattle.std.specs.Prelude.{◌≡◌, ◌+◌, ◌*◌, ◌-◌, ◌<◌, ◌≤◌, ◌↔◌, IfOk, IfSome};
ghost use Rattle.std.specs.Prelude.{IfNone, IsTrue, map, slice_get, length, true, ℕ};
ghost use Rattle.psg_grammar.specs.Levels.{level_number};
ghost use Rattle.psg_grammar.specs.Sound.{IsLevel};
ghost use Rattle.psg_class.specs.Forms.{AreInPhyla, asked_cell, asks, bound_cell, cells_by, codes_width, FailsTest};
ghost use Rattle.psg_class.specs.Forms.{fits, form_cell, form_code, HaveLevels, is_own, is_token, IsBelow, IsFirstIf};
ghost use Rattle.psg_class.specs.Forms.{IsFirstPair, LacksBracket, levels_width, Mixes, MixesAny, starts};
ghost use Rattle.psg_class.specs.Grids.{is_set, IsTable};
ghost use Rattle.psg_class.specs.Refusal.{IsFirst};

use crate::grid::{Cell, Grid, marked};
use crate::shape::{Part, Shape};
use psg_grammar::{Kind, Level, Phylum, least_first, least_last};
use std::alloc::{AllocError, Global};

/// How many levels there are, with 0.
const LEVELS: usize = 11;
/// How many pairs of a form and an N there are, with those of N 0.
const CODES: usize = 50;

/// Returns the first operator that begins neither with a token nor with an own slot and then a token.
pub(crate) fn first_not_starting(shapes: &[Shape]) -> Option<usize>
    ensures { IsFirstIf (FailsTest starts shapes.now) result }
{
    for number in 0..shapes.len() {
        if !is_starting(&shapes[number]) {
            return Some(number);
        }
    }
    None
}

/// Returns the first operator whose parts are not of its form.
pub(crate) fn first_misfit(shapes: &[Shape]) -> Option<usize>
    ensures { IsFirstIf (FailsTest fits shapes.now) result }
{
    for number in 0..shapes.len() {
        if !is_fitting(&shapes[number]) {
            return Some(number);
        }
    }
    None
}

fn is_starting(shape: &Shape) -> bool
    ensures { result ≡ starts shape.now }
{
    let parts = shape.parts.as_slice();
    is_token_at(parts, 0) || (is_own_at(shape.phylum, parts, 0) && is_token_at(parts, 1))
}

fn is_fitting(shape: &Shape) -> bool
    ensures { result ≡ fits shape.now }
{
    let parts = shape.parts.as_slice();
    let last = parts.len().saturating_sub(1);
    match shape.level {
        Level::Plain => is_token_at(parts, 0) && !is_own_at(shape.phylum, parts, last),
        Level::Prefix(_) => is_token_at(parts, 0) && is_own_at(shape.phylum, parts, last),
        Level::Postfix(_) => is_own_at(shape.phylum, parts, 0) && is_token_at(parts, last),
        Level::InfixLeft(_) | Level::InfixRight(_) | Level::InfixNone(_) => {
            is_own_at(shape.phylum, parts, 0)
                && is_own_at(shape.phylum, parts, last)
                && parts.len() >= 3
        }
    }
}

fn is_token_at(parts: &[Part], place: usize) -> bool
    ensures { result ≡ is_token (slice_get parts.now place) }
{
    match parts.get(place) {
        Some(Part::Token(_)) => true,
        _ => false,
    }
}

fn is_own_at(phylum: u32, parts: &[Part], place: usize) -> bool
    ensures { result ≡ is_own phylum (slice_get parts.now place) }
{
    match parts.get(place) {
        Some(Part::Slot(Kind::Phylum(number))) => *number == phylum,
        _ => false,
    }
}

/// Returns the first phylum without brackets of which a slot asks for a level above that of one of its operators.
pub(crate) fn first_bare(
    alloc: Global,
    phyla: &[Phylum],
    shapes: &[Shape],
) -> Result<Option<usize>, AllocError>
    requires inside { AreInPhyla (length phyla.now) shapes.now }
    requires levels { HaveLevels shapes.now }
    ensures { IfOk result
        (IsFirstIf (LacksBracket phyla.now (cells_by bound_cell shapes.now) (cells_by asked_cell shapes.now))) }
{
    let bound = bound_cells(alloc, shapes)?;
    let bound = marked(alloc, phyla.len(), LEVELS, bound.as_slice())?;
    let asked = asked_cells(alloc, shapes)?;
    let asked = marked(alloc, phyla.len(), LEVELS, asked.as_slice())?;
    Ok(lowest_bare(phyla, &bound, &asked))
}

fn lowest_bare(phyla: &[Phylum], bound: &Grid, asked: &Grid) -> Option<usize>
    requires bound { IsTable (length phyla.now) levels_width bound.now }
    requires asked { IsTable (length phyla.now) levels_width asked.now }
    ensures { IsFirstIf (LacksBracket phyla.now (is_set bound.now) (is_set asked.now)) result }
{
    for phylum in 0..phyla.len() {
        if !phyla[phylum].bracketed && is_below(bound, asked, phylum) {
            return Some(phylum);
        }
    }
    None
}

fn is_below(bound: &Grid, asked: &Grid, row: usize) -> bool
    requires bound { IsTable bound.now.height levels_width bound.now }
    requires asked { IsTable bound.now.height levels_width asked.now }
    requires row { row < bound.now.height }
    ensures { IsTrue result ↔ IsBelow (is_set bound.now) (is_set asked.now) row }
{
    for high in 0..LEVELS {
        if asked.has(row, high) && has_lower(bound, row, high) {
            return true;
        }
    }
    false
}

fn has_lower(bound: &Grid, row: usize, high: usize) -> bool
    requires bound { IsTable bound.now.height levels_width bound.now }
    requires row { row < bound.now.height }
    requires high { high < levels_width }
    ensures { IsTrue result ↔ ((low : ℕ) × (low < high) × (is_set bound.now row low ≡ true)) }
{
    for low in 0..high {
        if bound.has(row, low) {
            return true;
        }
    }
    false
}

fn bound_cells(alloc: Global, shapes: &[Shape]) -> Result<Vec<Cell>, AllocError>
    ensures { IfOk result (λ v. v.items ≡ map bound_cell shapes.now) }
{
    let mut cells = Vec::with_capacity(alloc, shapes.len())?;
    for shape in shapes {
        cells.push(Cell {
            row: shape.phylum as usize,
            column: bound_level(shape.level) as usize,
        })?;
    }
    Ok(cells)
}

fn asked_cells(alloc: Global, shapes: &[Shape]) -> Result<Vec<Cell>, AllocError>
    requires { HaveLevels shapes.now }
    ensures { IfOk result (λ v. v.items ≡ map asked_cell shapes.now) }
{
    let mut cells = Vec::with_capacity(alloc, shapes.len())?;
    for shape in shapes {
        cells.push(Cell {
            row: shape.phylum as usize,
            column: asked_level(shape) as usize,
        })?;
    }
    Ok(cells)
}

fn bound_level(level: Level) -> u8
    ensures { result ≡ level_number level }
{
    match level {
        Level::Plain => 10,
        Level::Prefix(n) => n,
        Level::Postfix(n) => n,
        Level::InfixLeft(n) => n,
        Level::InfixRight(n) => n,
        Level::InfixNone(n) => n,
    }
}

/// Returns the greatest of the least levels of the slots.
fn asked_level(shape: &Shape) -> u8
    requires { IsLevel shape.now.level }
    ensures { result ≡ asks shape.now }
{
    let parts = shape.parts.as_slice();
    let last = parts.len().saturating_sub(1);
    let before = if is_own_at(shape.phylum, parts, 0) {
        least_first(shape.level)
    } else {
        0
    };
    let behind = if is_own_at(shape.phylum, parts, last) {
        least_last(shape.level)
    } else {
        0
    };
    before.max(behind)
}

/// Returns the first phylum, and its first N, for which there are two forms.
pub(crate) fn first_mixed(
    alloc: Global,
    phyla: usize,
    shapes: &[Shape],
) -> Result<Option<(usize, usize)>, AllocError>
    requires inside { AreInPhyla phyla shapes.now }
    requires levels { HaveLevels shapes.now }
    ensures { IfOk result (IsFirstPair (Mixes (cells_by form_cell shapes.now))) }
{
    let uses = form_cells(alloc, shapes)?;
    let uses = marked(alloc, phyla, CODES, uses.as_slice())?;
    Ok(lowest_mixed(phyla, &uses))
}

fn lowest_mixed(phyla: usize, uses: &Grid) -> Option<(usize, usize)>
    requires { IsTable phyla codes_width uses.now }
    ensures first { IfSome result
        (λ r. (r.0 < phyla) × IsFirst (MixesAny (is_set uses.now)) r.0 × IsFirst (Mixes (is_set uses.now) r.0) r.1) }
    ensures none { IfNone result ((p : ℕ) → p < phyla → MixesAny (is_set uses.now) p → ⊥) }
{
    for phylum in 0..phyla {
        if let Some(level) = mixed_level(uses, phylum) {
            return Some((phylum, level));
        }
    }
    None
}

fn mixed_level(uses: &Grid, row: usize) -> Option<usize>
    requires uses { IsTable uses.now.height codes_width uses.now }
    requires row { row < uses.now.height }
    ensures { IsFirstIf (Mixes (is_set uses.now) row) result }
{
    for level in 1..10 {
        if is_mixed(uses, row, level) {
            return Some(level);
        }
    }
    None
}

fn is_mixed(uses: &Grid, row: usize, level: usize) -> bool
    requires uses { IsTable uses.now.height codes_width uses.now }
    requires row { row < uses.now.height }
    requires positive { 1 ≤ level }
    requires small { level < 10 }
    ensures { IsTrue result ↔ Mixes (is_set uses.now) row level }
{
    for other in 1..5 {
        if uses.has(row, 5 * level + other) && has_earlier(uses, row, 5 * level, other) {
            return true;
        }
    }
    false
}

fn has_earlier(uses: &Grid, row: usize, from: usize, other: usize) -> bool
    requires uses { IsTable uses.now.height codes_width uses.now }
    requires row { row < uses.now.height }
    requires inside { from + other < codes_width }
    ensures { IsTrue result ↔ ((one : ℕ) × (one < other) × (is_set uses.now row (from + one) ≡ true)) }
{
    for one in 0..other {
        if uses.has(row, from + one) {
            return true;
        }
    }
    false
}

fn form_cells(alloc: Global, shapes: &[Shape]) -> Result<Vec<Cell>, AllocError>
    ensures { IfOk result (λ v. v.items ≡ map form_cell shapes.now) }
{
    let mut cells = Vec::with_capacity(alloc, shapes.len())?;
    for shape in shapes {
        cells.push(Cell {
            row: shape.phylum as usize,
            column: form_code(shape.level),
        })?;
    }
    Ok(cells)
}

fn form_code(level: Level) -> usize
    ensures { result ≡ form_code level }
{
    match level {
        Level::Plain => 0,
        Level::Prefix(n) => 5 * n as usize,
        Level::Postfix(n) => 5 * n as usize + 1,
        Level::InfixLeft(n) => 5 * n as usize + 2,
        Level::InfixRight(n) => 5 * n as usize + 3,
        Level::InfixNone(n) => 5 * n as usize + 4,
    }
}
