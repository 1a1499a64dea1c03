//! A plain slow judge of trees: it tries all choices of rows with all terms up to a depth, and all entities of names.
use super::flat::{Column, Declared, Flat, Key, Position, flattened};
use super::ground::{Ground, choices};
use psg_scope::Header;
use psg_terms::matching::same;
use psg_terms::{SortId, Term, Txt};
use psg_tree::Tree;
use std::alloc::{AllocError, Global};

/// A name in the region where it has its entity.
#[derive(Drop)]
struct Bound {
    region: usize,
    key: Key,
}

/// A tree that is judged.
#[derive(Drop)]
pub(super) struct Judge {
    flat: Flat,
    /// The names of the outermost region in the order of the header, and then the inner ones.
    bounds: Vec<Bound>,
    /// For each position of a name its place among those.
    bound_at: Vec<usize>,
    /// The sorts of the entities of the outermost names, and those of the others.
    outer_sorts: Vec<SortId>,
    inner_sorts: Vec<SortId>,
}

/// What is tried: the terms for variables of rows, and the entities of the names.
#[derive(Clone, Copy)]
struct Tried<'a> {
    terms: &'a [Ground],
    entities: &'a [Term],
}

/// Sites are nested less deep, the rests of lists included. Where they are not, the answer is out of memory.
const MOST_DEEP: u32 = 64;

fn is_declared(flat: &Flat, region: usize, space: u32, name: &Txt) -> bool {
    for position in flat.positions.as_slice() {
        if position.declares && position.region == region && position.key.is(space, name) {
            return true;
        }
    }
    false
}

/// The region where the name at the position has its entity: the next one outward that declares it or may still declare
/// it, and otherwise the outermost one.
fn region_of(flat: &Flat, position: &Position) -> usize {
    let Key { space, name } = &position.key;
    let mut place = position.region;
    for _ in 0..flat.regions.len() {
        let Some(region) = flat.regions.get(place) else {
            return 0;
        };
        if is_declared(flat, place, *space, name) || region.unfinished.contains(space) {
            return place;
        }
        place = region.outer;
    }
    0
}

/// Whether the region declares a name twice.
fn declares_twice(flat: &Flat, region: usize) -> bool {
    let positions = flat.positions.as_slice();
    for (place, position) in positions.iter().enumerate() {
        for (earlier, other) in positions.iter().enumerate() {
            let are_two = earlier < place && position.region == region && other.region == region;
            let declare = position.declares && other.declares;
            if are_two && declare && position.key.is(other.key.space, &other.key.name) {
                return true;
            }
        }
    }
    false
}

/// Whether some region does.
fn is_twice(flat: &Flat) -> bool {
    for region in 0..flat.regions.len() {
        if declares_twice(flat, region) {
            return true;
        }
    }
    false
}

fn bound_place(bounds: &[Bound], region: usize, key: &Key) -> Option<usize> {
    bounds.iter().position(|bound| bound.region == region && bound.key.is(key.space, &key.name))
}

/// The header's names, which are of the outermost region.
fn outer_bounds(alloc: Global, header: &Header) -> Result<Vec<Bound>, AllocError> {
    let mut bounds = Vec::new(alloc);
    for column in header.names.as_slice() {
        let name = column.name.share()?;
        let key = Key {
            space: column.space,
            name,
        };
        bounds.push(Bound { region: 0, key })?;
    }
    Ok(bounds)
}

fn entity_sorts(
    alloc: Global,
    declared: Declared,
    bounds: &[Bound],
) -> Result<Vec<SortId>, AllocError> {
    let spaces = declared.definition.spaces.as_slice();
    let mut sorts = Vec::new(alloc);
    for bound in bounds {
        match spaces.get(bound.key.space as usize) {
            Some(space) => sorts.push(space.sort)?,
            None => return Err(AllocError),
        }
    }
    Ok(sorts)
}

fn has_all(numbers: &[u32], others: &[u32]) -> bool {
    for number in others {
        if !numbers.contains(number) {
            return false;
        }
    }
    true
}

/// Whether the names are in order, each once.
fn are_ascending(header: &Header) -> bool {
    let names = header.names.as_slice();
    for (column, next) in names.iter().zip(names.iter().skip(1)) {
        let is_later = column.space < next.space
            || (column.space == next.space && column.name.as_str() < next.name.as_str());
        if !is_later {
            return false;
        }
    }
    true
}

/// The outermost names, and then the others; and for each position of a name its place among them.
fn placed(
    alloc: Global,
    flat: &Flat,
    header: &Header,
) -> Result<(Vec<Bound>, Vec<usize>), AllocError> {
    let mut bounds = outer_bounds(alloc, header)?;
    let mut places = Vec::new(alloc);
    for position in flat.positions.as_slice() {
        let region = region_of(flat, position);
        match bound_place(bounds.as_slice(), region, &position.key) {
            Some(place) => places.push(place)?,
            None => {
                places.push(bounds.len())?;
                let key = Key {
                    space: position.key.space,
                    name: position.key.name.share()?,
                };
                bounds.push(Bound { region, key })?;
            }
        }
    }
    Ok((bounds, places))
}

impl Judge {
    /// The tree, whose region has the header by the program.
    pub(super) fn new(
        alloc: Global,
        declared: Declared,
        tree: &Tree,
        header: &Header,
    ) -> Result<Judge, AllocError> {
        let flat = flattened(alloc, declared, tree)?;
        let (bounds, bound_at) = placed(alloc, &flat, header)?;
        let outside = header.names.as_slice().len();
        let Some((outer, inner)) = bounds.as_slice().split_at_checked(outside) else {
            return Err(AllocError);
        };
        let outer_sorts = entity_sorts(alloc, declared, outer)?;
        let inner_sorts = entity_sorts(alloc, declared, inner)?;
        Ok(Judge {
            flat,
            bounds,
            bound_at,
            outer_sorts,
            inner_sorts,
        })
    }

    /// How many names have an entity that is seen nowhere outside.
    pub(super) fn inner_names(&self) -> usize {
        self.inner_sorts.len()
    }

    /// The sorts of the entities of the outermost names.
    pub(super) fn outer_sorts(&self) -> &[SortId] {
        self.outer_sorts.as_slice()
    }

    /// Whether the header has each name of the outermost region and no other, in order, and says which are declared,
    /// whether one is declared twice, and where more may be declared.
    pub(super) fn has_header(&self, header: &Header) -> bool {
        let Some(region) = self.flat.regions.first() else {
            return false;
        };
        let unfinished = header.unfinished.as_slice();
        are_ascending(header)
            && header.twice == declares_twice(&self.flat, 0)
            && has_all(unfinished, region.unfinished.as_slice())
            && has_all(region.unfinished.as_slice(), unfinished)
            && self.has_names(header)
    }

    fn has_names(&self, header: &Header) -> bool {
        for bound in self.bounds.iter().skip(self.outer_sorts.len()) {
            if bound.region == 0 {
                return false;
            }
        }
        for (place, column) in header.names.as_slice().iter().enumerate() {
            let declared = is_declared(&self.flat, 0, column.space, &column.name);
            if !self.bound_at.contains(&place) || column.declared != declared {
                return false;
            }
        }
        true
    }

    /// Whether the tree has the value under the entities of the outermost names, with some of the terms for variables
    /// of rows and some of the inner ones as entities of the other names. It never says so wrongly; it may miss what
    /// takes deeper terms.
    pub(super) fn is_possible(
        &self,
        alloc: Global,
        value: &Term,
        outside: &[Term],
        terms: &[Ground],
        inner: &[Ground],
    ) -> Result<bool, AllocError> {
        if is_twice(&self.flat) {
            return Ok(false);
        }
        let top = self.flat.sites.len().saturating_sub(1);
        for inside in choices(alloc, self.inner_sorts.as_slice(), inner)? {
            let mut entities = Vec::new(alloc);
            for entity in outside.iter().chain(inside.as_slice()) {
                entities.push(entity.share()?)?;
            }
            let tried = Tried {
                terms,
                entities: entities.as_slice(),
            };
            if has_value(alloc, self, top, value, tried, MOST_DEEP)? {
                return Ok(true);
            }
        }
        Ok(false)
    }
}

fn has_entity(judge: &Judge, position: usize, value: &Term, entities: &[Term]) -> bool {
    let Some(place) = judge.bound_at.get(position) else {
        return false;
    };
    match entities.get(*place) {
        Some(entity) => same(entity, value),
        None => false,
    }
}

/// Whether the site has the value by one of its rows, under the entities of the names.
#[cycle(values)]
fn has_value(
    alloc: Global,
    judge: &Judge,
    site: usize,
    value: &Term,
    tried: Tried,
    deep: u32,
) -> Result<bool, AllocError> {
    let Some(site) = judge.flat.sites.get(site) else {
        return Err(AllocError);
    };
    if deep == 0 {
        return Err(AllocError);
    }
    for row in site.rows.as_slice() {
        for values in row.columns_at(alloc, value, tried.terms)? {
            let columns = site.columns.as_slice();
            if have_values(alloc, judge, columns, values.as_slice(), tried, deep - 1)? {
                return Ok(true);
            }
        }
    }
    Ok(false)
}

/// Whether each column has its value.
#[cycle(values)]
fn have_values(
    alloc: Global,
    judge: &Judge,
    columns: &[Column],
    values: &[Term],
    tried: Tried,
    deep: u32,
) -> Result<bool, AllocError> {
    for (column, value) in columns.iter().zip(values) {
        let holds = match column {
            Column::Child(site) => has_value(alloc, judge, *site, value, tried, deep)?,
            Column::Entity(position) => has_entity(judge, *position, value, tried.entities),
        };
        if !holds {
            return Ok(false);
        }
    }
    Ok(true)
}
