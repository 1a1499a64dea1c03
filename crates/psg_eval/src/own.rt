//! The first step of an operator: its own rows and keys.
ghost use Rattle.std.specs.Prelude.{◌≡◌, ◌<◌, ◌^◌, ◌++◌, ◌∷◌, [], false, ℕ, List, IfErr, IfOk, OnOk, length};
ghost use Rattle.psg_terms.specs.Names.{Name};
ghost use Rattle.psg_terms.specs.Relations.{IsRelation};
ghost use Rattle.psg_terms.specs.Weight.{PassesLimit};
ghost use Rattle.psg_grammar.specs.declared.types.Kind.TheVariants.{Phylum};
ghost use Rattle.psg_grammar.specs.declared.types.Definition.{Definition as Language};
ghost use Rattle.psg_grammar.specs.Sound.{IsOperator};
ghost use Rattle.psg_relation.specs.Choices.{HasWide, MayBeWide};
ghost use Rattle.psg_scope.specs.Headers.{declared_keys, IsHeader, IsOrdered, keys};
ghost use Rattle.psg_eval.specs.Own.{AreOwn, IsOwn, IsOwnStep, name_columns, slot_columns};
ghost use Rattle.psg_eval.specs.OwnRows.{OwnRow, positions};
ghost use Rattle.psg_eval.specs.Partials.{IsPartial, MatchStep};
ghost use Rattle.psg_eval.specs.Summaries.{are_names, slot_kinds};

use crate::leaves::whole_rows;
use crate::partial::{Partial, numbers};
use crate::placing::key_columns;
use psg_grammar::{Definition, Item, Operator};
use psg_relation::{Rel, RelFault, select};
use psg_scope::{Header, NameCol, header_of, join};
use psg_terms::Txt;
use std::alloc::{AllocError, Global};

/// The name positions of an operator, with the columns of its rows for them and for its slots.
#[derive(Drop)]
pub(crate) struct Places {
    pub(crate) positions: Vec<NameCol>,
    names: Vec<usize>,
    slots: Vec<usize>,
}

/// The keys of name positions, a column for each, and pairs of columns of positions with one key.
#[derive(Drop)]
pub(crate) struct OwnKeys {
    header: Header,
    columns: Vec<usize>,
    pairs: Vec<(usize, usize)>,
}

impl Places {
    fn add_name(
        &mut self,
        column: usize,
        space: u32,
        name: &Txt,
        declared: bool,
    ) -> Result<(), AllocError>
        ensures positions { OnOk result (self.new.positions.items ≡ self.old.positions.items
            ++ record { space = space; name = name.now; declared = declared } ∷ []) }
        ensures names { OnOk result (self.new.names.items ≡ self.old.names.items ++ column ∷ []) }
        ensures slots { self.new.slots.items ≡ self.old.slots.items }
    {
        self.positions.push(NameCol {
            space,
            name: name.share()?,
            declared,
        })?;
        self.names.push(column)?;
        Ok(())
    }
}

/// Returns the places of the items' names and slots. The head has column 0.
pub(crate) fn item_places(
    alloc: Global,
    items: &[Item],
    names: &[Txt],
) -> Result<Places, AllocError>
    requires fits { (definition : Language) × (length (are_names definition items.now) ≡ length names.now) }
    requires few { length items.now < 2 ^ 32 }
    ensures positions { IfOk result (λ p. p.positions.items ≡ positions items.now names.now) }
    ensures names { IfOk result (λ p. p.names.items ≡ name_columns 1 items.now) }
    ensures slots { IfOk result (λ p. p.slots.items ≡ slot_columns 1 items.now) }
{
    let mut found = Places {
        positions: Vec::new(alloc),
        names: Vec::new(alloc),
        slots: Vec::new(alloc),
    };
    let mut column = 1;
    let mut next = 0;
    for item in items {
        match item {
            Item::Slot(_) => {
                found.slots.push(column)?;
                column += 1;
            }
            Item::Refers(space) => {
                let name = &names[next];
                found.add_name(column, *space, name, false)?;
                column += 1;
                next += 1;
            }
            Item::Declares(space) => {
                let name = &names[next];
                found.add_name(column, *space, name, true)?;
                column += 1;
                next += 1;
            }
            _ => {}
        }
    }
    Ok(found)
}

/// Returns the keys of positions with these columns. It joins the headers of both halves, as `header_of` does.
fn own_keys(alloc: Global, positions: &[NameCol], columns: &[usize]) -> Result<OwnKeys, AllocError>
    requires { length columns.now ≡ length positions.now }
    ensures header { IfOk result
        (λ o. IsHeader (keys positions.now) (declared_keys positions.now) (λ _. false) o.header) }
    ensures ordered { IfOk result (λ o. IsOrdered o.header) }
    ensures columns { IfOk result
        (λ o. IsOwn (keys positions.now) columns.now (keys o.header.names) o.columns.items o.pairs.items) }
{
    if positions.len() <= 1 {
        return Ok(OwnKeys {
            header: header_of(alloc, positions)?,
            columns: Vec::from_slice(alloc, columns)?,
            pairs: Vec::new(alloc),
        });
    }
    let half = positions.len() / 2;
    let (front, behind) = positions.split_at(half);
    let (fronts, behinds) = columns.split_at(half);
    let left = own_keys(alloc, front, fronts)?;
    let right = own_keys(alloc, behind, behinds)?;
    let joined = join(alloc, &left.header, &right.header)?;
    let lefts = left.columns.as_slice();
    let rights = right.columns.as_slice();
    let placed = key_columns(alloc, &joined, lefts, rights, 0)?;
    let mut pairs = left.pairs;
    pairs.extend_from_slice(right.pairs.as_slice())?;
    pairs.extend_from_slice(placed.pairs.as_slice())?;
    Ok(OwnKeys {
        header: joined.header,
        columns: placed.columns,
        pairs,
    })
}

/// Returns the relation of the operator's rows in which positions with one key have one entity.
fn own_rows(
    alloc: Global,
    definition: &Definition,
    operator: &Operator,
    slots: &[usize],
    own: &OwnKeys,
) -> Result<Rel, RelFault>
    requires operator { IsOperator definition.now operator.now }
    requires own { (names : List Name) × AreOwn definition.now operator.now names slots.now own.now }
    ensures sorted { IfOk result (λ rel. (names : List Name)
        → AreOwn definition.now operator.now names slots.now own.now
        → IsPartial definition.now (Phylum operator.now.phylum) (slot_kinds definition.now operator.now.items)
        (record { header = own.now.header; seen = 0; wanted = length slots.now; rel = rel })) }
    ensures rows { IfOk result (λ rel. (names : List Name) → AreOwn definition.now operator.now names slots.now own.now
        → (ss : List ℕ)
        × IsRelation definition.now.signature ss (OwnRow definition.now.signature operator.now names) rel) }
    ensures within { IfOk result (λ rel. PassesLimit rel → ⊥) }
    ensures wide { IfErr result
        (MayBeWide ((names : List Name) → AreOwn definition.now operator.now names slots.now own.now
        → (ss : List ℕ) × HasWide definition.now.signature ss (OwnRow definition.now.signature operator.now names))) }
{
    let rows = whole_rows(alloc, operator.rows.as_slice())?;
    let mut keep = numbers(alloc, 0, 1)?;
    keep.extend_from_slice(slots)?;
    keep.extend_from_slice(own.columns.as_slice())?;
    select(
        alloc,
        &definition.signature,
        rows.as_slice(),
        own.pairs.as_slice(),
        keep.as_slice(),
    )
}

/// Returns the operator with its names and without children. Where it declares a key twice, there are no rows.
pub(crate) fn first_step(
    alloc: Global,
    definition: &Definition,
    operator: &Operator,
    names: &[Txt],
) -> Result<Partial, RelFault>
    requires operator { IsOperator definition.now operator.now }
    requires names { length (are_names definition.now operator.now.items) ≡ length names.now }
    ensures step { MatchStep (IsOwnStep definition.now operator.now names.now) result }
    ensures partial { IfOk result
        (IsPartial definition.now (Phylum operator.now.phylum) (slot_kinds definition.now operator.now.items)) }
    ensures seen { IfOk result (λ p. p.seen ≡ 0) }
{
    let found = item_places(alloc, operator.items.as_slice(), names)?;
    let own = own_keys(alloc, found.positions.as_slice(), found.names.as_slice())?;
    let slots = found.slots.as_slice();
    let rel = if own.header.twice {
        Rel::empty(alloc, &definition.signature)
    } else {
        own_rows(alloc, definition, operator, slots, &own)?
    };
    Ok(Partial {
        header: own.header,
        seen: 0,
        wanted: slots.len() as u32,
        rel,
    })
}
