//! What begins each kind and what can follow it: the terminals that are given at once, and the rows from which the
//! others follow.
ghost use Rattle.std.specs.Prelude.{◌≡◌, ◌<◌, ◌&&◌, ◌+◌, ◌^◌, ◌≤◌, ◌↔◌, IfOk};
ghost use Rattle.std.specs.Prelude.{OnOk, Some, slice_get, length, true, ℕ};
ghost use Rattle.psg_class.specs.declared.shape.Part.TheVariants as parts;
ghost use Rattle.psg_class.specs.Grids.{IsCell, IsTable, is_set};
ghost use Rattle.psg_grammar.specs.declared.types.ListKind.{ListKind as List};
ghost use Rattle.psg_class.specs.Forms.{is_own};
ghost use Rattle.psg_class.specs.Sources.{Adds, AreParts, ArePartsOf, AreRows, BeginFact, BeginLink, Below};
ghost use Rattle.psg_class.specs.Sources.{can_end, Grown, If, is_phylum_kind, IsDraft, IsKind, IsOnly};
ghost use Rattle.psg_class.specs.Sources.{IsRows, IsShapeOf, kind_index, LeadFact, ListFact, ListFactAt};
ghost use Rattle.psg_class.specs.Sources.{ListLink, ListLinkAt, NoLink, none_behind, OneCell, parts_with};
ghost use Rattle.psg_class.specs.Sources.{PhylumFactAt, ShapeFact, ShapeLink, SlotFact, SlotLink};

use crate::grid::{Cell, Grid, Link, saturate};
use crate::shape::{Part, Shape};
use crate::vocabulary::HOLES;
use psg_grammar::{Kind, ListKind, Phylum};
use std::alloc::{AllocError, Global};

/// The rows of the sets, as numbers: first what begins each phylum and list, then what can follow each, then the
/// second tokens of the led operators of each phylum.
#[derive(Clone, Copy)]
pub(crate) struct Rows {
    pub(crate) phyla: usize,
    pub(crate) kinds: usize,
    pub(crate) height: usize,
}

/// What is given at once, and what follows from what.
#[derive(Drop)]
pub(crate) struct Draft {
    pub(crate) grid: Grid,
    pub(crate) links: Vec<Link>,
}

impl Rows {
    pub(crate) fn of(phyla: usize, lists: usize) -> Rows
        requires phyla { phyla < 2 ^ 32 }
        requires lists { lists < 2 ^ 32 }
        ensures rows { IsRows result }
        ensures sizes { AreRows phyla lists result }
    {
        let kinds = phyla + lists;
        Rows {
            phyla,
            kinds,
            height: kinds + kinds + phyla,
        }
    }

    fn kind(&self, kind: Kind) -> usize
        requires { IsKind self.now kind }
        ensures { result ≡ kind_index self.now.phyla kind }
    {
        match kind {
            Kind::Phylum(phylum) => phylum as usize,
            Kind::List(list) => self.phyla + list as usize,
        }
    }
}

impl Draft {
    /// Puts the terminal into the row.
    fn put(&mut self, row: usize, column: usize)
        requires draft { IsDraft self.old.grid.height self.old.grid.width self.old }
        requires cell { IsCell self.old.grid row column }
        ensures { Adds (OneCell row column) NoLink self.old self.new }
    {
        self.grid.set(row, column);
    }

    /// Puts the terminal into the row, if the condition holds.
    fn put_if(&mut self, holds: bool, row: usize, column: usize)
        requires draft { IsDraft self.old.grid.height self.old.grid.width self.old }
        requires cell { IsCell self.old.grid row column }
        ensures { Adds (If holds row column) NoLink self.old self.new }
    {
        if holds {
            self.put(row, column);
        }
    }

    /// Says that the row `to` has all that the row `from` has.
    fn link(&mut self, to: usize, from: usize) -> Result<(), AllocError>
        requires draft { IsDraft self.old.grid.height self.old.grid.width self.old }
        requires to { to < self.old.grid.height }
        requires from { from < self.old.grid.height }
        ensures { OnOk result (Adds NoLink (OneCell to from) self.old self.new) }
    {
        self.links.push(Link { to, from })?;
        Ok(())
    }
}

/// Notes what the operator says of what begins its phylum, and of what can follow its slots. For each slot it looks at
/// the parts after it up to the first that is no list.
pub(crate) fn note_shape(rows: &Rows, shape: &Shape, draft: &mut Draft) -> Result<(), AllocError>
    requires rows { IsRows rows.now }
    requires draft { IsDraft rows.now.height draft.old.grid.width draft.old }
    requires shape { IsShapeOf rows.now draft.old.grid.width shape.now }
    ensures { OnOk result (Adds (ShapeFact rows.now shape.now) (ShapeLink rows.now shape.now) draft.old draft.new) }
{
    note_lead(rows, shape, draft);
    note_slots(rows, shape, draft)?;
    Ok(())
}

fn note_lead(rows: &Rows, shape: &Shape, draft: &mut Draft)
    requires rows { IsRows rows.now }
    requires draft { IsDraft rows.now.height draft.old.grid.width draft.old }
    requires shape { IsShapeOf rows.now draft.old.grid.width shape.now }
    ensures { Adds (LeadFact rows.now shape.now) NoLink draft.old draft.new }
{
    if let Some(cell) = lead(rows, shape) {
        draft.put(cell.row, cell.column);
    }
}

/// Returns the first token as one that begins the phylum, or the second one after a slot as one that goes on with it.
fn lead(rows: &Rows, shape: &Shape) -> Option<Cell>
    requires rows { IsRows rows.now }
    requires phylum { shape.now.phylum < rows.now.phyla }
    ensures { IsOnly (LeadFact rows.now shape.now) result }
{
    let parts = shape.parts.as_slice();
    let phylum = shape.phylum as usize;
    match (parts.get(0), parts.get(1)) {
        (Some(Part::Token(number)), _) => Some(Cell {
            row: phylum,
            column: *number,
        }),
        (Some(Part::Slot(_)), Some(Part::Token(number))) => Some(Cell {
            row: rows.kinds + rows.kinds + phylum,
            column: *number,
        }),
        _ => None,
    }
}

fn note_slots(rows: &Rows, shape: &Shape, draft: &mut Draft) -> Result<(), AllocError>
    requires rows { IsRows rows.now }
    requires draft { IsDraft rows.now.height draft.old.grid.width draft.old }
    requires shape { IsShapeOf rows.now draft.old.grid.width shape.now }
    ensures { OnOk result (Adds (Below (SlotFact rows.now shape.now) (length shape.now.parts))
        (ShapeLink rows.now shape.now) draft.old draft.new) }
{
    let count = shape.parts.as_slice().len();
    for place in 0..count {
        note_slot(rows, shape, place, draft)?;
    }
    Ok(())
}

fn note_slot(rows: &Rows, shape: &Shape, place: usize, draft: &mut Draft) -> Result<(), AllocError>
    requires rows { IsRows rows.now }
    requires draft { IsDraft rows.now.height draft.old.grid.width draft.old }
    requires shape { IsShapeOf rows.now draft.old.grid.width shape.now }
    requires place { place < length shape.now.parts }
    ensures { OnOk result
        (Adds (SlotFact rows.now shape.now place) (SlotLink rows.now shape.now place) draft.old draft.new) }
{
    if place == 0 {
        return Ok(());
    }
    let parts = shape.parts.as_slice();
    let Part::Slot(kind) = parts[place] else {
        return Ok(());
    };
    let to = rows.kinds + rows.kind(kind);
    let behind = &parts[place + 1..];
    if !note_begin(rows, behind, to, draft)? {
        return Ok(());
    }
    if is_end(shape.phylum, kind, behind) {
        return Ok(());
    }
    let phylum = shape.phylum as usize;
    draft.link(to, rows.kinds + phylum)?;
    draft.link(to, rows.kinds + rows.kinds + phylum)?;
    Ok(())
}

/// Says whether the slot is of the own phylum, with no parts after it.
fn is_end(phylum: u32, kind: Kind, behind: &[Part]) -> bool
    ensures { result ≡ is_own phylum (Some (parts.Slot kind)) && none_behind behind.now }
{
    match kind {
        Kind::Phylum(number) => number == phylum && behind.is_empty(),
        Kind::List(_) => false,
    }
}

/// Notes what can begin the parts as what is in the row; whether they can be without tokens.
fn note_begin(rows: &Rows, parts: &[Part], to: usize, draft: &mut Draft) -> Result<bool, AllocError>
    requires rows { IsRows rows.now }
    requires draft { IsDraft rows.now.height draft.old.grid.width draft.old }
    requires to { to < rows.now.height }
    requires parts { ArePartsOf rows.now draft.old.grid.width parts.now }
    ensures adds { OnOk result (Adds (BeginFact to parts.now) (BeginLink rows.now to parts.now) draft.old draft.new) }
    ensures ends { IfOk result (λ b. b ≡ can_end parts.now) }
{
    for place in 0..parts.len() {
        match parts[place] {
            Part::Token(number) => {
                draft.put(to, number);
                return Ok(false);
            }
            Part::Slot(kind) => {
                draft.link(to, rows.kind(kind))?;
                if is_phylum(kind) {
                    return Ok(false);
                }
            }
        }
    }
    Ok(true)
}

fn is_phylum(kind: Kind) -> bool
    ensures { result ≡ is_phylum_kind kind }
{
    match kind {
        Kind::Phylum(_) => true,
        Kind::List(_) => false,
    }
}

/// What the sets of a definition are made of, beside its phyla and lists.
#[derive(Clone, Copy)]
pub(crate) struct Numbers<'a> {
    /// Whether each phylum has placeholders.
    pub(crate) holes: &'a [bool],
    /// The number of each list's separator.
    pub(crate) separators: &'a [usize],
    pub(crate) opening: usize,
    pub(crate) closing: usize,
}

/// Returns the sets of all rows.
pub(crate) fn sets(
    alloc: Global,
    width: usize,
    rows: &Rows,
    shapes: &[Shape],
    phyla: &[Phylum],
    lists: &[ListKind],
    numbers: Numbers,
) -> Result<Grid, AllocError>
    requires { AreParts width (parts_with rows.now shapes.now phyla.now lists.now numbers.holes.now
        numbers.separators.now numbers.opening numbers.closing) }
    ensures table { IfOk result (IsTable rows.now.height width) }
    ensures exact { IfOk result (λ g. (r c : ℕ) → r < rows.now.height → c < width →
        (is_set g r c ≡ true) ↔ Grown (parts_with rows.now shapes.now phyla.now lists.now numbers.entry.holes.now
        numbers.entry.separators.now numbers.entry.opening numbers.entry.closing) r c) }
{
    let mut draft = Draft {
        grid: Grid::new(alloc, rows.height, width)?,
        links: Vec::new(alloc),
    };
    for shape in shapes {
        note_shape(rows, shape, &mut draft)?;
    }
    note_phyla(rows, phyla, numbers, &mut draft);
    note_lists(rows, lists, numbers.separators, &mut draft)?;
    let Draft { mut grid, links } = draft;
    saturate(alloc, &mut grid, links.as_slice())?;
    Ok(grid)
}

fn note_phyla(rows: &Rows, phyla: &[Phylum], numbers: Numbers, draft: &mut Draft)
    requires rows { IsRows rows.now }
    requires draft { IsDraft rows.now.height draft.old.grid.width draft.old }
    requires phyla { rows.now.phyla ≡ length phyla.now }
    requires holes { length numbers.holes.now ≡ length phyla.now }
    requires opening { numbers.opening < draft.old.grid.width }
    requires closing { numbers.closing < draft.old.grid.width }
    requires terminals { rows.now.phyla + 4 ≤ draft.old.grid.width }
    ensures { Adds (Below (PhylumFactAt rows.now numbers.entry.opening numbers.entry.closing phyla.now
        numbers.entry.holes.now) (length phyla.now)) NoLink draft.old draft.new }
{
    for number in 0..phyla.len() {
        let hole = numbers.holes[number];
        let bracketed = phyla[number].bracketed;
        draft.put_if(hole, number, HOLES + number);
        draft.put_if(bracketed, number, numbers.opening);
        draft.put_if(bracketed, rows.kinds + number, numbers.closing);
    }
}

fn note_lists(
    rows: &Rows,
    lists: &[ListKind],
    separators: &[usize],
    draft: &mut Draft,
) -> Result<(), AllocError>
    requires rows { IsRows rows.now }
    requires draft { IsDraft rows.now.height draft.old.grid.width draft.old }
    requires lists { rows.now.kinds ≡ rows.now.phyla + length lists.now }
    requires elements { (l : ℕ) (k : List) → slice_get lists.now l ≡ Some k → k.element < rows.now.phyla }
    requires separators { length separators.now ≡ length lists.now }
    requires each { (l n : ℕ) → slice_get separators.now l ≡ Some n → n < draft.old.grid.width }
    requires terminals { rows.now.phyla + 4 ≤ draft.old.grid.width }
    ensures { OnOk result (Adds (Below (ListFactAt rows.now lists.now separators.now) (length lists.now))
        (Below (ListLinkAt rows.now lists.now) (length lists.now)) draft.old draft.new) }
{
    for number in 0..lists.len() {
        note_list(rows, &lists[number], number, separators[number], draft)?;
    }
    Ok(())
}

fn note_list(
    rows: &Rows,
    list: &ListKind,
    number: usize,
    separator: usize,
    draft: &mut Draft,
) -> Result<(), AllocError>
    requires rows { IsRows rows.now }
    requires draft { IsDraft rows.now.height draft.old.grid.width draft.old }
    requires list { rows.now.phyla + number < rows.now.kinds }
    requires element { list.now.element < rows.now.phyla }
    requires separator { separator < draft.old.grid.width }
    requires terminals { rows.now.phyla + 4 ≤ draft.old.grid.width }
    ensures { OnOk result (Adds (ListFact rows.now number list.now.element list.now.unfinished separator)
        (ListLink rows.now number list.now.element) draft.old draft.new) }
{
    let element = list.element as usize;
    let begin = rows.phyla + number;
    draft.put_if(list.unfinished, begin, rows.phyla + HOLES);
    draft.put(rows.kinds + element, separator);
    draft.link(begin, element)?;
    draft.link(rows.kinds + element, rows.kinds + begin)?;
    Ok(())
}
