//! Tables of truth values, and their closure along links between rows.
ghost use Rattle.std.specs.Prelude.{◌≡◌, ◌||◌, ◌&&◌, ◌≢◌, ◌+◌, ◌*◌, ◌<◌, ◌≤◌, ◌⊎◌, ◌↔◌};
ghost use Rattle.std.specs.Prelude.{IfOk, OnOk, List, Contains, get_or, length, not, true, false, ℕ};
ghost use Rattle.std.specs.Bool.{OnTrue, OnFalse};
ghost use Rattle.psg_class.specs.Grids.{AreChains, AreInside, AreLinks, AreSetCells, begins_in, Derives, once, twice};
ghost use Rattle.psg_class.specs.Grids.{Follows, is_at, IsCell};
ghost use Rattle.psg_class.specs.Grids.{HasSetBelow, IsGrid, is_set, IsSameSize, IsStep, IsTable, unset};
ghost use Rattle.psg_class.specs.declared.grid.Link.{Link as Linked};

use psg_terms::{too_many_cells, uncountable};
use std::alloc::{AllocError, Global};

/// The number of cells that a table may have at most, 2^30. A cell takes a byte, and each is read a few times: a table
/// of this size is filled within seconds. A definition of 1 MB can have phyla for a table ten times as large.
const MOST_CELLS: u64 = 0x4000_0000;

/// A table, with its rows one after the other.
#[derive(Drop)]
pub(crate) struct Grid {
    pub(crate) height: usize,
    pub(crate) width: usize,
    pub(crate) cells: Vec<bool>,
}

/// What is set in the row `from` is to be set in the row `to`.
#[derive(Clone, Copy)]
pub(crate) struct Link {
    pub(crate) to: usize,
    pub(crate) from: usize,
}

/// A place in a table.
#[derive(Clone, Copy)]
pub(crate) struct Cell {
    pub(crate) row: usize,
    pub(crate) column: usize,
}

impl Grid {
    /// Makes a table in which nothing is set. It is out of memory if the table would have more than 2^30 cells.
    #[tactic(auto, using(crate::proofs::LargeLaws::large_product))]
    pub(crate) fn new(alloc: Global, height: usize, width: usize) -> Result<Grid, AllocError>
        ensures height { IfOk result (λ g. g.height ≡ height) }
        ensures width { IfOk result (λ g. g.width ≡ width) }
        ensures grid { IfOk result IsGrid }
        ensures empty { IfOk result (λ g. (row column : ℕ) → is_set g row column ≡ false) }
    {
        let Some(size) = height.checked_mul(width) else {
            return Err(uncountable(height.max(width)));
        };
        if MOST_CELLS < size as u64 {
            return Err(too_many_cells(size as u64));
        }
        Ok(Grid {
            height,
            width,
            cells: vec![in alloc; false; size]?,
        })
    }

    /// Says whether the cell is set.
    pub(crate) fn has(&self, row: usize, column: usize) -> bool
        requires grid { IsGrid self.now }
        requires cell { IsCell self.now row column }
        ensures { result ≡ is_set self.now row column }
    {
        self.cells[row * self.width + column]
    }

    /// Sets the cell; whether it was not set before.
    pub(crate) fn set(&mut self, row: usize, column: usize) -> bool
        requires grid { IsGrid self.old }
        requires cell { IsCell self.old row column }
        ensures size { IsSameSize self.old self.new }
        ensures changed { result ≡ not (is_set self.old row column) }
        ensures this { is_set self.new row column ≡ true }
        ensures others { (r c : ℕ) → c < self.old.width → (r ≢ row) ⊎ (c ≢ column)
            → is_set self.new r c ≡ is_set self.old r c }
        ensures fewer { OnTrue result (unset self.new.cells.items + 1 ≡ unset self.old.cells.items) }
        ensures same { OnFalse result (self.new ≡ self.old) }
    {
        let place = row * self.width + column;
        if self.cells[place] {
            return false;
        }
        self.cells[place] = true;
        true
    }
}

/// Returns the table of the cells.
pub(crate) fn marked(
    alloc: Global,
    height: usize,
    width: usize,
    cells: &[Cell],
) -> Result<Grid, AllocError>
    requires { AreInside height width cells.now }
    ensures size { IfOk result (IsTable height width) }
    ensures exact { IfOk result (λ g. (row column : ℕ) → column < width
        → is_set g row column ≡ once row column cells.now) }
{
    let mut grid = Grid::new(alloc, height, width)?;
    for cell in cells {
        grid.set(cell.row, cell.column);
    }
    Ok(grid)
}

/// Returns the table of the cells that are at two places of the list.
pub(crate) fn repeated(
    alloc: Global,
    height: usize,
    width: usize,
    cells: &[Cell],
) -> Result<Grid, AllocError>
    requires { AreInside height width cells.now }
    ensures size { IfOk result (IsTable height width) }
    ensures exact { IfOk result (λ g. (row column : ℕ) → column < width
        → is_set g row column ≡ twice row column cells.now) }
{
    let mut met = Grid::new(alloc, height, width)?;
    let mut again = Grid::new(alloc, height, width)?;
    for cell in cells {
        note(&mut met, &mut again, *cell);
    }
    Ok(again)
}

/// Sets the cell in the first table, or in the second one if it is set there.
fn note(met: &mut Grid, again: &mut Grid, cell: Cell)
    requires met { IsGrid met.old }
    requires again { IsGrid again.old }
    requires met_cell { IsCell met.old cell.row cell.column }
    requires again_cell { IsCell again.old cell.row cell.column }
    requires width { again.old.width ≡ met.old.width }
    ensures met_size { IsSameSize met.old met.new }
    ensures again_size { IsSameSize again.old again.new }
    ensures met { (r c : ℕ) → c < met.old.width → is_set met.new r c ≡ is_set met.old r c || is_at r c cell }
    ensures again { (r c : ℕ) → c < met.old.width
        → is_set again.new r c ≡ is_set again.old r c || (is_set met.old r c && is_at r c cell) }
{
    if !met.set(cell.row, cell.column) {
        again.set(cell.row, cell.column);
    }
}

/// Sets what follows along the links, and nothing else. First each set cell is passed on once along the links of its
/// row, which sets all of it. Then walks over all columns of all links go on until one changes nothing. That is the
/// first walk, and the proof that all is set rests on it alone.
pub(crate) fn saturate(alloc: Global, grid: &mut Grid, links: &[Link]) -> Result<(), AllocError>
    requires grid { IsGrid grid.old }
    requires links { AreLinks grid.old links.now }
    ensures size { IfOk result (λ _. IsSameSize grid.old grid.new) }
    ensures exact { IfOk result (λ _. (row column : ℕ) → IsCell grid.old row column
        → (is_set grid.new row column ≡ true) ↔ Derives grid.old links.now row column) }
{
    spread(alloc, grid, links)?;
    while follow_all(grid, links) {}
    Ok(())
}

/// The links by the rows that they begin in: the place of the first one of each row, and of the next one after each. A
/// place that is no link's ends them.
#[derive(Drop)]
struct Chains {
    first: Vec<usize>,
    next: Vec<usize>,
}

/// Returns the chains of the links. Takes memory for a number a row and a number a link.
fn chained(alloc: Global, height: usize, links: &[Link]) -> Result<Chains, AllocError>
    requires { (place : ℕ) → place < length links.now → begins_in links.now place < height }
    ensures one_each { IfOk result (λ c. length c.first.items ≡ height) }
    ensures each_next { IfOk result (λ c. length c.next.items ≡ length links.now) }
    ensures chains { IfOk result (λ c. AreChains links.now c.first.items c.next.items) }
{
    let mut first = vec![in alloc; links.len(); height]?;
    let mut next = Vec::with_capacity(alloc, links.len())?;
    for place in 0..links.len() {
        let from = links[place].from;
        next.push(first[from])?;
        first[from] = place;
    }
    Ok(Chains { first, next })
}

/// Returns the cells that are set.
fn set_cells(alloc: Global, grid: &Grid) -> Result<Vec<Cell>, AllocError>
    requires { IsGrid grid.now }
    ensures { IfOk result (λ v. AreSetCells grid.now v.items) }
{
    let mut cells = Vec::new(alloc);
    for row in 0..grid.height {
        add_row(grid, row, &mut cells)?;
    }
    Ok(cells)
}

/// Adds the cells of the row that are set.
#[tactic(auto, using(crate::proofs::SetCellLaws::set_below, crate::proofs::SetCellLaws::unset_below))]
fn add_row(grid: &Grid, row: usize, cells: &mut Vec<Cell>) -> Result<(), AllocError>
    requires grid { IsGrid grid.now }
    requires row { row < grid.now.height }
    ensures { OnOk result (HasSetBelow grid.now row grid.now.width cells.old.items cells.new.items) }
{
    for column in 0..grid.width {
        if grid.has(row, column) {
            cells.push(Cell { row, column })?;
        }
    }
    Ok(())
}

/// Passes each set cell on along the links, and so each cell that is set by that; whether it set a cell.
fn spread(alloc: Global, grid: &mut Grid, links: &[Link]) -> Result<bool, AllocError>
    requires grid { IsGrid grid.old }
    requires links { AreLinks grid.old links.now }
    ensures { IfOk result (IsStep links.now grid.old grid.new) }
{
    let chains = chained(alloc, grid.height, links)?;
    let mut cells = set_cells(alloc, grid)?;
    let mut more = false;
    for _ in 0..grid.cells.len() {
        let Some(cell) = cells.pop() else {
            break;
        };
        more = pass_on(grid, links, &chains, cell, &mut cells)? | more;
    }
    Ok(more)
}

/// Passes a cell on along the links that begin in its row, and adds the cells that it sets; whether it set a cell.
fn pass_on(
    grid: &mut Grid,
    links: &[Link],
    chains: &Chains,
    cell: Cell,
    cells: &mut Vec<Cell>,
) -> Result<bool, AllocError>
    requires grid { IsGrid grid.old }
    requires links { AreLinks grid.old links.now }
    ensures { IfOk result (IsStep links.now grid.old grid.new) }
{
    let mut more = false;
    if cell.column >= grid.width {
        return Ok(false);
    }
    let mut place = chained_first(chains, cell.row);
    for _ in 0..links.len() {
        let Some(link) = links.get(place) else {
            break;
        };
        if copy(grid, *link, cell.column) {
            cells.push(Cell {
                row: link.to,
                column: cell.column,
            })?;
            more = true;
        }
        place = chained_next(chains, place);
    }
    Ok(more)
}

/// Returns the place of the first link that begins in the row.
fn chained_first(chains: &Chains, row: usize) -> usize
    ensures { row < length chains.now.first.items → result ≡ get_or chains.now.first.items row 0 }
{
    match chains.first.get(row) {
        Some(place) => *place,
        None => usize::MAX,
    }
}

/// Returns the place of the link after the one at the place.
fn chained_next(chains: &Chains, place: usize) -> usize
    ensures { place < length chains.now.next.items → result ≡ get_or chains.now.next.items place 0 }
{
    match chains.next.get(place) {
        Some(behind) => *behind,
        None => usize::MAX,
    }
}

/// Makes one pass; says whether it set a cell.
fn follow_all(grid: &mut Grid, links: &[Link]) -> bool
    requires grid { IsGrid grid.old }
    requires links { AreLinks grid.old links.now }
    ensures step { IsStep links.now grid.old grid.new result }
    ensures followed { OnFalse result ((l : Linked) → Contains links.now l → Follows grid.old l) }
{
    let mut more = false;
    for link in links {
        more = follow(grid, *link) | more;
    }
    more
}

/// Sets what follows along the link; whether it set a cell.
fn follow(grid: &mut Grid, link: Link) -> bool
    requires grid { IsGrid grid.old }
    requires to { link.to < grid.old.height }
    requires from { link.from < grid.old.height }
    ensures size { IsSameSize grid.old grid.new }
    ensures step { (links : List Linked) → Contains links link → IsStep links grid.old grid.new result }
    ensures followed { OnFalse result (Follows grid.old link) }
{
    let mut more = false;
    for column in 0..grid.width {
        more = copy(grid, link, column) | more;
    }
    more
}

/// Sets the cell of one column if it follows; whether it was not set before.
fn copy(grid: &mut Grid, link: Link, column: usize) -> bool
    requires grid { IsGrid grid.old }
    requires to { link.to < grid.old.height }
    requires from { link.from < grid.old.height }
    requires column { column < grid.old.width }
    ensures size { IsSameSize grid.old grid.new }
    ensures step { (links : List Linked) → Contains links link → IsStep links grid.old grid.new result }
    ensures followed { OnFalse result (is_set grid.old link.from column ≡ true
        → is_set grid.old link.to column ≡ true) }
{
    if !grid.has(link.from, column) {
        return false;
    }
    grid.set(link.to, column)
}
