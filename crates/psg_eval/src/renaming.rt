//! Summaries under another name.
ghost use Rattle.std.specs.Prelude.{◌≡◌, ◌∷◌, ◌++◌, [], ℕ, List, false, length, IfOk, OnOk};
ghost use Rattle.psg_terms.specs.Relations.{IsRelation};
ghost use Rattle.psg_grammar.specs.Keys.{Key};
ghost use Rattle.psg_grammar.specs.Sound.{IsSound};
ghost use Rattle.psg_relation.specs.Fewer.{KeptOnce};
ghost use Rattle.psg_relation.specs.Choices.{AllHaveSorts, AllWithin, IsProjected, picked};
ghost use Rattle.psg_scope.specs.Headers.{ArePlaces, keys};
ghost use Rattle.psg_eval.specs.Renamed.{GrowsBy, IsRenamed, is_name_of, moved_header, moved_names};
ghost use Rattle.psg_eval.specs.Renamed.{moved_places, other_header, other_names, other_places};
ghost use Rattle.psg_eval.specs.Summaries.{IsSummary};
ghost use Rattle.psg_eval.specs.Walks.{FillPlaces, IsWalk};

use crate::placing::{Placed, key_columns};
use crate::summary::{Summary, SummaryParts};
use psg_grammar::Definition;
use psg_relation::column_laws::fewer_columns;
use psg_relation::{Rel, RelFault, project};
use psg_scope::{Header, Joined, NameCol, Names, join};
use psg_terms::{Seq, Txt};
use std::alloc::{AllocError, Global};

/// The keys of a header with a name, under another one, and all its other keys, each with its column.
#[derive(Drop)]
struct Apart {
    moved: Vec<NameCol>,
    moved_columns: Vec<usize>,
    others: Vec<NameCol>,
    other_columns: Vec<usize>,
}

impl Apart {
    fn add_moved(&mut self, key: &NameCol, to: &Txt, column: usize) -> Result<(), AllocError>
        ensures moved { OnOk result (self.new.moved.items
            ≡ self.old.moved.items ++ record key.now { name = to.now } ∷ []) }
        ensures moved_columns { OnOk result
            (self.new.moved_columns.items ≡ self.old.moved_columns.items ++ column ∷ []) }
        ensures others { OnOk result (self.new.others.items ≡ self.old.others.items) }
        ensures other_columns { OnOk result (self.new.other_columns.items ≡ self.old.other_columns.items) }
    {
        let name = to.share()?;
        self.moved.push(NameCol {
            space: key.space,
            name,
            declared: key.declared,
        })?;
        self.moved_columns.push(column)?;
        Ok(())
    }

    fn add_other(&mut self, key: &NameCol, column: usize) -> Result<(), AllocError>
        ensures moved { OnOk result (self.new.moved.items ≡ self.old.moved.items) }
        ensures moved_columns { OnOk result (self.new.moved_columns.items ≡ self.old.moved_columns.items) }
        ensures others { OnOk result (self.new.others.items ≡ self.old.others.items ++ key.now ∷ []) }
        ensures other_columns { OnOk result
            (self.new.other_columns.items ≡ self.old.other_columns.items ++ column ∷ []) }
    {
        let name = key.name.share()?;
        self.others.push(NameCol {
            space: key.space,
            name,
            declared: key.declared,
        })?;
        self.other_columns.push(column)?;
        Ok(())
    }

    fn add(&mut self, key: &NameCol, column: usize, from: &Txt, to: &Txt) -> Result<(), AllocError>
        ensures { OnOk result (GrowsBy from.now to.now self.old self.new key.now column) }
    {
        if key.name.same(from) {
            self.add_moved(key, to, column)?;
            return Ok(());
        }
        self.add_other(key, column)?;
        Ok(())
    }
}

/// Takes the keys apart by whether they have the name.
fn taken_apart(alloc: Global, names: &[NameCol], from: &Txt, to: &Txt) -> Result<Apart, AllocError>
    ensures moved { IfOk result (λ a. a.moved.items ≡ moved_names from.now to.now names.now) }
    ensures moved_columns { IfOk result (λ a. a.moved_columns.items ≡ moved_places from.now 1 names.now) }
    ensures others { IfOk result (λ a. a.others.items ≡ other_names from.now names.now) }
    ensures other_columns { IfOk result (λ a. a.other_columns.items ≡ other_places from.now 1 names.now) }
{
    let mut made = Apart {
        moved: Vec::new(alloc),
        moved_columns: Vec::new(alloc),
        others: Vec::new(alloc),
        other_columns: Vec::new(alloc),
    };
    for i in 0..names.len() {
        let key = &names[i];
        made.add(key, 1 + i, from, to)?;
    }
    Ok(made)
}

/// The two parts of a header's keys, each with its columns.
#[derive(Drop)]
struct Parts {
    moved: Header,
    moved_columns: Vec<usize>,
    others: Header,
    other_columns: Vec<usize>,
}

/// Returns the header's keys with a name, under another one, and the rest of the header.
fn halves(alloc: Global, header: &Header, from: &Txt, to: &Txt) -> Result<Parts, AllocError>
    ensures moved { IfOk result (λ h. h.moved ≡ moved_header from.now to.now header.now) }
    ensures moved_columns { IfOk result (λ h. h.moved_columns.items ≡ moved_places from.now 1 header.now.names) }
    ensures others { IfOk result (λ h. h.others ≡ other_header from.now header.now) }
    ensures other_columns { IfOk result (λ h. h.other_columns.items ≡ other_places from.now 1 header.now.names) }
{
    let apart = taken_apart(alloc, header.names.as_slice(), from, to)?;
    let mut unfinished = Vec::new(alloc);
    unfinished.extend_from_slice(header.unfinished.as_slice())?;
    Ok(Parts {
        moved: Header {
            names: Names::of(alloc, apart.moved)?,
            unfinished: Seq::of(Vec::new(alloc)),
            twice: false,
        },
        moved_columns: apart.moved_columns,
        others: Header {
            names: Names::of(alloc, apart.others)?,
            unfinished: Seq::of(unfinished),
            twice: header.twice,
        },
        other_columns: apart.other_columns,
    })
}

/// Returns the columns of the joined keys, which are all in one row.
fn joined_columns(
    alloc: Global,
    joined: &Joined,
    moved: &[usize],
    others: &[usize],
) -> Result<Placed, AllocError>
    requires lefts { length moved.now ≡ length joined.now.left }
    requires rights { length others.now ≡ length joined.now.right }
    requires all { FillPlaces 0 (length joined.now.header.names) joined.now.left joined.now.right }
    ensures { IfOk result (λ p. (K L : List Key) → ArePlaces joined.now.header.names joined.now.left K
        → ArePlaces joined.now.header.names joined.now.right L
        → IsWalk 0 moved.now others.now K L (keys joined.now.header.names) p.pairs.items p.columns.items) }
{
    let placed = key_columns(alloc, joined, moved, others, 0)?;
    Ok(placed)
}

/// Returns the column of the value, and after it these columns.
fn with_value(alloc: Global, columns: &[usize]) -> Result<Vec<usize>, AllocError>
    ensures { IfOk result (λ v. v.items ≡ 0 ∷ columns.now) }
{
    let mut keep = Vec::with_capacity(alloc, 1)?;
    keep.push(0)?;
    keep.extend_from_slice(columns)?;
    Ok(keep)
}

/// Returns the relation of the columns. It is within the limit, since the rows are and no column is kept twice.
fn kept_rows(
    alloc: Global,
    definition: &Definition,
    rel: &Rel,
    keep: &[usize],
) -> Result<Rel, AllocError>
    requires sorts { (sorts : List ℕ) × AllHaveSorts definition.now.signature rel.now sorts }
    requires within { AllWithin rel.now keep.now }
    requires once { KeptOnce keep.now }
    ensures { IfOk result (λ made. (sorts : List ℕ) → AllHaveSorts definition.now.signature rel.now sorts
        → IsRelation definition.now.signature (picked sorts keep.now)
        (IsProjected definition.now.signature rel.now keep.now) made) }
{
    let _weight = rel.weight();
    fewer_columns(&definition.signature);
    match project(alloc, &definition.signature, rel, keep) {
        Ok(made) => Ok(made),
        Err(RelFault::Wide) => unreachable!(),
        Err(RelFault::Memory) => Err(AllocError),
    }
}

/// Returns the summary under another name: `to`, which is no key of the summary, in place of `from`.
///
/// `psg_menu` proves that it is the summary of each tree that becomes one with the given summary where the two names
/// change places. The summary has no seen values. `AllocError` is returned when memory runs out. It joins the keys of
/// the two parts and projects each row, and evaluates nothing.
pub fn renamed(
    alloc: Global,
    definition: &Definition,
    summary: &Summary,
    from: &Txt,
    to: &Txt,
) -> Result<Summary, AllocError>
    requires sound { IsSound definition.now }
    requires summary { IsSummary definition.now summary.now }
    requires silent { summary.now.seen ≡ 0 }
    requires fresh { is_name_of summary.now.header.names to.now ≡ false }
    ensures renamed { IfOk result (IsRenamed definition.now from.now to.now summary.now) }
    ensures summary { IfOk result (IsSummary definition.now) }
{
    let known = summary.known();
    let parts = halves(alloc, &known.header, from, to)?;
    let joined = join(alloc, &parts.moved, &parts.others)?;
    let moved = parts.moved_columns.as_slice();
    let others = parts.other_columns.as_slice();
    let placed = joined_columns(alloc, &joined, moved, others)?;
    let keep = with_value(alloc, placed.columns.as_slice())?;
    let rel = kept_rows(alloc, definition, &known.rel, keep.as_slice())?;
    let made = Summary::new(
        alloc,
        SummaryParts {
            kind: known.kind,
            header: joined.header,
            seen: known.seen,
            rel,
        },
    )?;
    Ok(made)
}
