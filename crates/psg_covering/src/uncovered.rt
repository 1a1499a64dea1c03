//! The first rows of operators and lists that have a value of no hole row.
ghost use Rattle.std.specs.Prelude.{◌≡◌, ◌↔◌, ◌∷◌, IfOk, IsTrue, Some, slice_get};
ghost use Rattle.psg_grammar.specs.declared.types.Row.{Row as PlainRow};
ghost use Rattle.psg_grammar.specs.Sound.{IsOperator, IsSound};
ghost use Rattle.psg_completions.specs.Covered.{IsCoveredCell, IsCoveredRow};
ghost use Rattle.psg_covering.specs.Index.{IsIndex};
ghost use Rattle.psg_covering.specs.Pairs.{Finds, FindsPair};
ghost use Rattle.psg_covering.specs.Rows.{IsCellCovered, IsCellOfList, IsRowCovered, IsRowOfOperator};

use crate::index::Index;
use crate::searching::is_covered;
use crate::slots::{slot_kinds, slot_row};
use psg_grammar::{Definition, Kind, ListKind, Operator, Row};
use psg_relation::RelRow;
use psg_terms::{Room, Term};
use std::alloc::{AllocError, Global};

/// Answers the first row of an operator that has values of no hole row: the operator and the row by their numbers, in
/// the order of operators and then of rows.
///
/// Hole rows are found by the constructors with which their terms begin. For a row whose head is an instance of a hole
/// row of the phylum, those that begin as its head does are gone over. Otherwise hole rows are chosen slot by slot, of
/// those that may have a value in common with the column, and each row that is made is looked up so. `AllocError` is
/// returned when memory runs out, and where the search takes more than is left of the room.
pub fn first_uncovered_row(
    alloc: Global,
    definition: &Definition,
    room: &mut Room,
) -> Result<Option<(u32, u32)>, AllocError>
    requires { IsSound definition.now }
    ensures { IfOk result (FindsPair (IsCoveredRow definition.now)) }
{
    let index = Index::of(alloc, definition)?;
    let operators = definition.operators.as_slice();
    for number in 0..operators.len() {
        if let Some(row) = first_of_operator(alloc, definition, &index, room, &operators[number])? {
            return Ok(Some((number as u32, row)));
        }
    }
    Ok(None)
}

/// Answers the first cell row of a list that has values of no hole row: the list and the row by their numbers, in the
/// order of lists and then of rows.
///
/// It costs as `first_uncovered_row` does, with the same room.
pub fn first_uncovered_cell(
    alloc: Global,
    definition: &Definition,
    room: &mut Room,
) -> Result<Option<(u32, u32)>, AllocError>
    requires { IsSound definition.now }
    ensures { IfOk result (FindsPair (IsCoveredCell definition.now)) }
{
    let index = Index::of(alloc, definition)?;
    let lists = definition.lists.as_slice();
    for number in 0..lists.len() {
        if let Some(row) = first_of_list(
            alloc,
            definition,
            &index,
            room,
            number as u32,
            &lists[number],
        )? {
            return Ok(Some((number as u32, row)));
        }
    }
    Ok(None)
}

/// Answers the first row of the operator that has values of no hole row.
fn first_of_operator(
    alloc: Global,
    definition: &Definition,
    index: &Index,
    room: &mut Room,
    operator: &Operator,
) -> Result<Option<u32>, AllocError>
    requires sound { IsSound definition.now }
    requires index { IsIndex definition.now index.now }
    requires operator { IsOperator definition.now operator.now }
    ensures { IfOk result (Finds (λ k. (row : PlainRow) → slice_get operator.now.rows k ≡ Some row
        → IsRowCovered definition.now operator.now row)) }
{
    let rows = operator.rows.as_slice();
    for number in 0..rows.len() {
        if !is_row_covered(alloc, definition, index, room, operator, &rows[number])? {
            return Ok(Some(number as u32));
        }
    }
    Ok(None)
}

fn is_row_covered(
    alloc: Global,
    definition: &Definition,
    index: &Index,
    room: &mut Room,
    operator: &Operator,
    row: &Row,
) -> Result<bool, AllocError>
    requires sound { IsSound definition.now }
    requires index { IsIndex definition.now index.now }
    requires row { IsRowOfOperator definition.now operator.now row.now }
    ensures { IfOk result (λ b. IsTrue b ↔ IsRowCovered definition.now operator.now row.now) }
{
    let items = operator.items.as_slice();
    let slots = slot_kinds(alloc, items)?;
    let terms = slot_row(alloc, items, &row.head, row.columns.as_slice())?;
    let kind = Kind::Phylum(operator.phylum);
    let covered = is_covered(
        alloc,
        definition,
        index,
        room,
        kind,
        slots.as_slice(),
        RelRow::new(terms),
    )?;
    Ok(covered)
}

/// Answers the first cell row of the list that has values of no hole row.
fn first_of_list(
    alloc: Global,
    definition: &Definition,
    index: &Index,
    room: &mut Room,
    number: u32,
    list: &ListKind,
) -> Result<Option<u32>, AllocError>
    requires sound { IsSound definition.now }
    requires index { IsIndex definition.now index.now }
    requires list { slice_get definition.now.lists number ≡ Some list.now }
    ensures { IfOk result (Finds (λ k. (row : PlainRow) → slice_get list.now.cell_rows k ≡ Some row
        → IsCellCovered definition.now number list.now row)) }
{
    let rows = list.cell_rows.as_slice();
    for cell in 0..rows.len() {
        if !is_cell_covered(alloc, definition, index, room, number, list, &rows[cell])? {
            return Ok(Some(cell as u32));
        }
    }
    Ok(None)
}

fn is_cell_covered(
    alloc: Global,
    definition: &Definition,
    index: &Index,
    room: &mut Room,
    number: u32,
    list: &ListKind,
    row: &Row,
) -> Result<bool, AllocError>
    requires sound { IsSound definition.now }
    requires index { IsIndex definition.now index.now }
    requires list { slice_get definition.now.lists number ≡ Some list.now }
    requires row { IsCellOfList definition.now list.now row.now }
    ensures { IfOk result (λ b. IsTrue b ↔ IsCellCovered definition.now number list.now row.now) }
{
    let slots = [Kind::Phylum(list.element), Kind::List(number)];
    let terms = whole_row(alloc, &row.head, row.columns.as_slice())?;
    let kind = Kind::List(number);
    let covered = is_covered(
        alloc,
        definition,
        index,
        room,
        kind,
        &slots,
        RelRow::new(terms),
    )?;
    Ok(covered)
}

/// Answers the head and after it the columns.
fn whole_row(alloc: Global, head: &Term, columns: &[Term]) -> Result<Vec<Term>, AllocError>
    ensures { IfOk result (λ v. v.items ≡ head.now ∷ columns.now) }
{
    let mut terms = Vec::new(alloc);
    terms.push(head.share()?)?;
    for column in columns {
        terms.push(column.share()?)?;
    }
    Ok(terms)
}
