//! Trees as a plain slow judge sees them: for each node its rows, and for each name its region.
use super::ground::Pattern;
use psg_grammar::{Definition, HoleRow, Item, Kind, ListKind, Row};
use psg_terms::{Term, Txt};
use psg_tree::{Part, Shape, Tree};
use std::alloc::{AllocError, Global};

/// What a column of a row is the value of.
#[derive(Clone, Copy)]
pub(super) enum Column {
    /// The child, or the rest of the list, at the site.
    Child(usize),
    /// The entity of the name at the position.
    Entity(usize),
}

/// A node, or the rest of a list, with the rows that it may have.
#[derive(Drop)]
pub(super) struct Site {
    pub(super) rows: Vec<Pattern>,
    pub(super) columns: Vec<Column>,
}

/// A name of a space.
#[derive(Drop)]
pub(super) struct Key {
    pub(super) space: u32,
    pub(super) name: Txt,
}

impl Key {
    pub(super) fn is(&self, space: u32, name: &Txt) -> bool {
        self.space == space && self.name.same(name)
    }
}

/// A position of a name.
#[derive(Drop)]
pub(super) struct Position {
    pub(super) region: usize,
    pub(super) key: Key,
    pub(super) declares: bool,
}

/// A region.
#[derive(Drop)]
pub(super) struct Region {
    /// The region around it.
    pub(super) outer: usize,
    /// The spaces in which more names may still be declared.
    pub(super) unfinished: Vec<u32>,
}

/// A tree: its sites, children before those above them, the positions of names, and the regions. The first region is
/// the outermost one.
#[derive(Drop)]
pub(super) struct Flat {
    pub(super) sites: Vec<Site>,
    pub(super) positions: Vec<Position>,
    pub(super) regions: Vec<Region>,
}

/// A definition with what declares.
#[derive(Clone, Copy)]
pub(super) struct Declared<'a> {
    pub(super) definition: &'a Definition,
    /// For each phylum the spaces in which it declares.
    pub(super) declaring: &'a [Vec<u32>],
}

fn of_rows(alloc: Global, rows: &[Row]) -> Result<Vec<Pattern>, AllocError> {
    let mut made = Vec::new(alloc);
    for row in rows {
        made.push(Pattern::new(alloc, &row.head, row.columns.as_slice())?)?;
    }
    Ok(made)
}

fn of_terms(alloc: Global, rows: &[Term]) -> Result<Vec<Pattern>, AllocError> {
    let mut made = Vec::new(alloc);
    for row in rows {
        made.push(Pattern::new(alloc, row, &[])?)?;
    }
    Ok(made)
}

fn of_holes(alloc: Global, rows: &[HoleRow], kind: Kind) -> Result<Vec<Pattern>, AllocError> {
    let mut made = Vec::new(alloc);
    for row in rows {
        if row.kind == kind {
            made.push(Pattern::new(alloc, &row.term, &[])?)?;
        }
    }
    Ok(made)
}

impl Flat {
    pub(super) fn new(alloc: Global) -> Result<Flat, AllocError> {
        let outermost = Region {
            outer: 0,
            unfinished: Vec::new(alloc),
        };
        Ok(Flat {
            sites: Vec::new(alloc),
            positions: Vec::new(alloc),
            regions: vec![in alloc; outermost]?,
        })
    }

    fn put_site(&mut self, rows: Vec<Pattern>, columns: Vec<Column>) -> Result<usize, AllocError> {
        let site = self.sites.len();
        self.sites.push(Site { rows, columns })?;
        Ok(site)
    }

    fn put_position(
        &mut self,
        region: usize,
        key: Key,
        declares: bool,
    ) -> Result<Column, AllocError> {
        let position = self.positions.len();
        self.positions.push(Position {
            region,
            key,
            declares,
        })?;
        Ok(Column::Entity(position))
    }

    fn put_region(&mut self, alloc: Global, outer: usize) -> Result<usize, AllocError> {
        let region = self.regions.len();
        self.regions.push(Region {
            outer,
            unfinished: Vec::new(alloc),
        })?;
        Ok(region)
    }

    /// Marks the spaces of a list that may go on.
    fn put_unfinished(
        &mut self,
        declared: Declared,
        list: &ListKind,
        region: usize,
    ) -> Result<(), AllocError> {
        let Some(spaces) = declared.declaring.get(list.element as usize) else {
            return Err(AllocError);
        };
        let Some(region) = self.regions.get_mut(region) else {
            return Err(AllocError);
        };
        for space in spaces.as_slice() {
            region.unfinished.push(*space)?;
        }
        Ok(())
    }
}

/// Puts a part of an operator at its item; the column that it has, if any.
#[cycle(flat)]
fn put_part(
    alloc: Global,
    flat: &mut Flat,
    declared: Declared,
    item: &Item,
    part: &Part,
    region: usize,
    deep: u32,
) -> Result<Option<Column>, AllocError> {
    match (item, part) {
        (Item::Slot(_), Part::Sub(tree)) => {
            let site = put_tree(alloc, flat, declared, tree, region, deep)?;
            Ok(Some(Column::Child(site)))
        }
        (Item::Refers(space), Part::Name(name)) => {
            let key = Key {
                space: *space,
                name: name.share()?,
            };
            Ok(Some(flat.put_position(region, key, false)?))
        }
        (Item::Declares(space), Part::Name(name)) => {
            let key = Key {
                space: *space,
                name: name.share()?,
            };
            Ok(Some(flat.put_position(region, key, true)?))
        }
        (Item::Number, Part::Number(_)) | (Item::Text, Part::Text(_)) => Ok(None),
        _ => Err(AllocError),
    }
}

fn has_part(item: &Item) -> bool {
    matches!(
        item,
        Item::Slot(_) | Item::Refers(_) | Item::Declares(_) | Item::Number | Item::Text
    )
}

/// Puts an operator with its parts. The parts of a scope operator are in a region of their own.
#[cycle(flat)]
fn put_operator(
    alloc: Global,
    flat: &mut Flat,
    declared: Declared,
    op: u32,
    parts: &[Part],
    outer: usize,
    deep: u32,
) -> Result<usize, AllocError> {
    let Some(operator) = declared.definition.operators.as_slice().get(op as usize) else {
        return Err(AllocError);
    };
    let region = if operator.scope {
        flat.put_region(alloc, outer)?
    } else {
        outer
    };
    let mut rest = parts;
    let mut columns = Vec::new(alloc);
    for item in operator.items.as_slice() {
        if has_part(item) {
            let Some((part, behind)) = rest.split_first() else {
                return Err(AllocError);
            };
            rest = behind;
            if let Some(column) = put_part(alloc, flat, declared, item, part, region, deep)? {
                columns.push(column)?;
            }
        }
    }
    let rows = of_rows(alloc, operator.rows.as_slice())?;
    flat.put_site(rows, columns)
}

/// Puts the end of a list, and each element with the rest after it, from the last to the first.
#[cycle(flat)]
fn put_list(
    alloc: Global,
    flat: &mut Flat,
    declared: Declared,
    list: u32,
    elements: &[Tree],
    unfinished: bool,
    region: usize,
    deep: u32,
) -> Result<usize, AllocError> {
    let Some(kind) = declared.definition.lists.as_slice().get(list as usize) else {
        return Err(AllocError);
    };
    let end = if unfinished {
        flat.put_unfinished(declared, kind, region)?;
        of_holes(
            alloc,
            declared.definition.hole_rows.as_slice(),
            Kind::List(list),
        )?
    } else {
        of_terms(alloc, kind.nil_rows.as_slice())?
    };
    let mut rest = flat.put_site(end, Vec::new(alloc))?;
    for element in elements.iter().rev() {
        let first = put_tree(alloc, flat, declared, element, region, deep)?;
        let cells = of_rows(alloc, kind.cell_rows.as_slice())?;
        let columns = vec![in alloc; Column::Child(first), Column::Child(rest)]?;
        rest = flat.put_site(cells, columns)?;
    }
    Ok(rest)
}

fn put_hole(
    alloc: Global,
    flat: &mut Flat,
    declared: Declared,
    phylum: u32,
) -> Result<usize, AllocError> {
    let holes = declared.definition.hole_rows.as_slice();
    let rows = of_holes(alloc, holes, Kind::Phylum(phylum))?;
    flat.put_site(rows, Vec::new(alloc))
}

/// Puts a tree that is in the region; its site.
#[cycle(flat)]
fn put_tree(
    alloc: Global,
    flat: &mut Flat,
    declared: Declared,
    tree: &Tree,
    region: usize,
    deep: u32,
) -> Result<usize, AllocError> {
    if deep == 0 {
        return Err(AllocError);
    }
    match tree.shape() {
        Shape::Op { op, parts } => put_operator(
            alloc,
            flat,
            declared,
            *op,
            parts.as_slice(),
            region,
            deep - 1,
        ),
        Shape::List {
            list,
            elements,
            unfinished,
        } => put_list(
            alloc,
            flat,
            declared,
            *list,
            elements.as_slice(),
            *unfinished,
            region,
            deep - 1,
        ),
        Shape::Hole { phylum } => put_hole(alloc, flat, declared, *phylum),
    }
}

/// The tree, whose top is the last site. It is at most 64 deep.
pub(super) fn flattened(
    alloc: Global,
    declared: Declared,
    tree: &Tree,
) -> Result<Flat, AllocError> {
    let mut flat = Flat::new(alloc)?;
    put_tree(alloc, &mut flat, declared, tree, 0, 64)?;
    Ok(flat)
}
