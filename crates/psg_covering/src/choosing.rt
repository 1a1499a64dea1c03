//! One slot more: what its hole rows make of the rows of a front.
ghost use Rattle.std.specs.Prelude.{◌≡◌, ◌≤◌, ◌<◌, ◌-◌, ◌⊎◌, ◌↔◌, ◌∷◌, ℕ, All, List, IfOk, IfSome, IsTrue, MatchOption};
ghost use Rattle.std.specs.Prelude.{OnOk, slice_get};
ghost use Rattle.psg_terms.specs.Terms.{Term as Plain};
ghost use Rattle.psg_terms.specs.Relations.{IsIn};
ghost use Rattle.psg_grammar.specs.declared.types.Kind.{Kind as PlainKind};
ghost use Rattle.psg_grammar.specs.declared.types.HoleRow.{HoleRow as PlainHole};
ghost use Rattle.psg_grammar.specs.Sound.{IsSound};
ghost use Rattle.psg_covering.specs.Choices.{Fits, HasCover, IsCovered, IsCoveredFor, IsRowOf};
ghost use Rattle.psg_covering.specs.Index.{IsIndex};
ghost use Rattle.psg_covering.specs.Fronts.{Adds, AllCovered, AllFit, AreBare, AreRowsOf, IsChosen, IsNone, run};

use crate::covers::has_cover;
use crate::front::Front;
use crate::index::{Index, rows_meeting};
use crate::numbers::row_at;
use crate::room::{choice_work, kept_work, row_work};
use psg_grammar::{Definition, HoleRow, Kind};
use psg_relation::RelRow;
use psg_relation::joining::with_join;
use psg_terms::{Room, Term};
use std::alloc::{AllocError, Global};
use std::slice;

/// Answers the rows that the rows of a front become where a hole row is chosen for the next slot, in each way.
pub(crate) fn next_front(
    alloc: Global,
    definition: &Definition,
    index: &Index,
    room: &mut Room,
    kind: Kind,
    slot: Kind,
    front: &[RelRow],
) -> Result<Vec<RelRow>, AllocError>
    requires sound { IsSound definition.now }
    requires index { IsIndex definition.now index.now }
    requires fits { (ks : List PlainKind) × AllFit definition.now kind (slot ∷ ks) front.now }
    ensures fits { IfOk result (λ next. (ks : List PlainKind) → AllFit definition.now kind (slot ∷ ks) front.now
        → AllFit definition.now kind ks next.items) }
    ensures bare { IfOk result (λ next. AreBare definition.now kind next.items) }
    ensures covered { IfOk result (λ next. (ks : List PlainKind) → AllFit definition.now kind (slot ∷ ks) front.now
        → AllCovered definition.now kind ks next.items ↔ AllCovered definition.now kind (slot ∷ ks) front.now) }
{
    let mut next = Front::new(alloc);
    for i in 0..front.len() {
        add_choices(
            alloc, definition, index, room, kind, slot, &front[i], &mut next,
        )?;
    }
    Ok(next.rows)
}

/// Puts in what the row becomes where a hole row is chosen for its first column, in each way.
fn add_choices(
    alloc: Global,
    definition: &Definition,
    index: &Index,
    room: &mut Room,
    kind: Kind,
    slot: Kind,
    row: &RelRow,
    next: &mut Front,
) -> Result<(), AllocError>
    requires sound { IsSound definition.now }
    requires index { IsIndex definition.now index.now }
    requires fits { (ks : List PlainKind) × Fits definition.now kind (slot ∷ ks) row.now }
    ensures { OnOk result ((ks : List PlainKind) → Fits definition.now kind (slot ∷ ks) row.now
        → Adds definition.now kind ks next.old.rows.items next.new.rows.items
        (IsCovered definition.now kind (slot ∷ ks) row.now)) }
{
    let numbers = rows_for(alloc, definition, index, room, slot, row.terms())?;
    let numbers = numbers.as_slice();
    for i in 0..numbers.len() {
        let hole = row_at(definition, slot, numbers, i);
        add_choice(alloc, definition, index, room, kind, slot, row, hole, next)?;
    }
    Ok(())
}

/// Answers the numbers of hole rows of the slot, among them all that have a value in common with the first column.
fn rows_for(
    alloc: Global,
    definition: &Definition,
    index: &Index,
    room: &mut Room,
    slot: Kind,
    row: &[Term],
) -> Result<Vec<usize>, AllocError>
    requires { IsIndex definition.now index.now }
    ensures rows { IfOk result (λ v. AreRowsOf definition.now slot v.items) }
    ensures among { IfOk result (λ v. (r : ℕ) (h : PlainHole) → IsRowOf definition.now slot r h
        → IsIn r v.items ⊎ IsNone definition.now row.now h) }
{
    match row.get(1) {
        Some(column) => {
            let numbers = rows_meeting(alloc, definition, index, room, slot, column)?;
            Ok(numbers)
        }
        None => Ok(Vec::new(alloc)),
    }
}

/// Puts in what the row becomes where the hole row is chosen for its first column, if they have a value in common.
fn add_choice(
    alloc: Global,
    definition: &Definition,
    index: &Index,
    room: &mut Room,
    kind: Kind,
    slot: Kind,
    row: &RelRow,
    hole: &HoleRow,
    next: &mut Front,
) -> Result<(), AllocError>
    requires sound { IsSound definition.now }
    requires index { IsIndex definition.now index.now }
    requires fits { (ks : List PlainKind) × Fits definition.now kind (slot ∷ ks) row.now }
    requires hole { (r : ℕ) × IsRowOf definition.now slot r hole.now }
    ensures { OnOk result ((ks : List PlainKind) → Fits definition.now kind (slot ∷ ks) row.now
        → Adds definition.now kind ks next.old.rows.items next.new.rows.items
        (IsCoveredFor definition.now kind ks row.now hole.now)) }
{
    let _ = slot;
    room.spend(choice_work(row, &hole.term))?;
    if let Some(made) = chosen(alloc, definition, slot, row.terms(), hole)? {
        add_row(alloc, definition, index, room, kind, made, next)?;
    }
    Ok(())
}

/// Answers the row without its first column, for the values that the hole row has there; `None` where it has none.
fn chosen(
    alloc: Global,
    definition: &Definition,
    slot: Kind,
    row: &[Term],
    hole: &HoleRow,
) -> Result<Option<RelRow>, AllocError>
    requires sound { IsSound definition.now }
    requires fits { (kind : PlainKind) × (ks : List PlainKind) × Fits definition.now kind (slot ∷ ks) row.now }
    requires hole { (r : ℕ) × IsRowOf definition.now slot r hole.now }
    ensures made { IfOk result (λ o. MatchOption o (IsNone definition.now row.now hole.now)
        (IsChosen definition.now row.now hole.now)) }
    ensures fits { IfOk result (λ o. (kind : PlainKind) (ks : List PlainKind)
        → Fits definition.now kind (slot ∷ ks) row.now → IfSome o (Fits definition.now kind ks)) }
{
    let _ = slot;
    let keep = kept(alloc, row.len())?;
    let made = with_join(
        alloc,
        &definition.signature,
        Vec::new(alloc),
        row,
        slice::from_ref(&hole.term),
        &[(1, 0)],
        keep.as_slice(),
    )?;
    let first = first_of(alloc, made.as_slice())?;
    Ok(first)
}

/// Answers one more owner of the first row, if there is one.
fn first_of(alloc: Global, rows: &[RelRow]) -> Result<Option<RelRow>, AllocError>
    ensures { IfOk result (λ o. o ≡ slice_get rows.now 0) }
{
    match rows.first() {
        Some(row) => {
            let first = row.share(alloc)?;
            Ok(Some(first))
        }
        None => Ok(None),
    }
}

/// Answers the numbers of all columns of a row of this width but the one after the head.
fn kept(alloc: Global, width: usize) -> Result<Vec<usize>, AllocError>
    requires { 2 ≤ width }
    ensures columns { IfOk result (λ v. v.items ≡ 0 ∷ run 2 (width - 2)) }
    ensures within { IfOk result (λ v. All (λ k. k < width) v.items) }
{
    let mut keep = vec![in alloc; 0]?;
    for column in 2..width {
        keep.push(column)?;
    }
    Ok(keep)
}

/// Puts a row in, unless its head is an instance of a hole row or the row is there already.
pub(crate) fn add_row(
    alloc: Global,
    definition: &Definition,
    index: &Index,
    room: &mut Room,
    kind: Kind,
    row: RelRow,
    front: &mut Front,
) -> Result<(), AllocError>
    requires sound { IsSound definition.now }
    requires index { IsIndex definition.now index.now }
    requires fits { (ks : List PlainKind) × Fits definition.now kind ks row }
    ensures { OnOk result ((ks : List PlainKind) → Fits definition.now kind ks row
        → Adds definition.now kind ks front.old.rows.items front.new.rows.items
        (IsCovered definition.now kind ks row)) }
{
    room.spend(row_work(&row))?;
    if has_head_cover(alloc, definition, index, room, kind, row.terms())? {
        return Ok(());
    }
    room.spend(kept_work(&row))?;
    front.put(alloc, &definition.signature, row)?;
    Ok(())
}

fn has_head_cover(
    alloc: Global,
    definition: &Definition,
    index: &Index,
    room: &mut Room,
    kind: Kind,
    row: &[Term],
) -> Result<bool, AllocError>
    requires { IsIndex definition.now index.now }
    ensures { IfOk result (λ b. (head : Plain) (columns : List Plain) → row.now ≡ head ∷ columns
        → IsTrue b ↔ HasCover definition.now kind head) }
{
    match row.first() {
        Some(head) => {
            let covered = has_cover(alloc, definition, index, room, kind, head)?;
            Ok(covered)
        }
        None => Ok(false),
    }
}
