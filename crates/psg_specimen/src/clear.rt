//! Whether the elements that declare rows show leave a list's value.
ghost use Rattle.std.specs.Prelude.{◌≡◌, ◌↔◌, IfOk, IsTrue};
ghost use Rattle.std.specs.List.{AllByRecursion};
ghost use Rattle.psg_completions.specs.Elements.{IsAbsent, IsClear, IsClearRow};
ghost use Rattle.psg_specimen.specs.Clear.{IsClearBy, IsClearDeclare, IsRest};
ghost use Rattle.psg_specimen.specs.Walks.{Finds};

use crate::cases::is_constant;
use crate::instances::is_made_of;
use psg_grammar::{DeclareRow, Definition, ListKind, Row};
use psg_terms::matching::same;
use psg_terms::{Node, Signature, SortId, Term};
use std::alloc::{AllocError, Global};

/// Answers the first declare row whose list has no cell row by which an element of the row's value leaves the list's
/// value.
///
/// For each declare row the cell rows of its list are gone over in order, up to one that serves.
pub(crate) fn first_unclear(
    alloc: Global,
    definition: &Definition,
) -> Result<Option<usize>, AllocError>
    ensures { IfOk result (Finds (IsClearRow definition.now)) }
{
    let rows = definition.declare_rows.as_slice();
    for number in 0..rows.len() {
        if !is_clear_declare(alloc, definition, &rows[number])? {
            return Ok(Some(number));
        }
    }
    Ok(None)
}

fn is_clear_declare(
    alloc: Global,
    definition: &Definition,
    row: &DeclareRow,
) -> Result<bool, AllocError>
    ensures { IfOk result (λ b. IsTrue b ↔ IsClearDeclare definition.now row.now) }
{
    match definition.lists.as_slice().get(row.list as usize) {
        Some(list) => {
            let found = is_clear(alloc, definition, list, &row.value)?;
            Ok(found)
        }
        None => Ok(true),
    }
}

fn is_clear(
    alloc: Global,
    definition: &Definition,
    list: &ListKind,
    value: &Term,
) -> Result<bool, AllocError>
    ensures { IfOk result (λ b. IsTrue b ↔ IsClear definition.now list.now value.now) }
{
    let rows = list.cell_rows.as_slice();
    for number in 0..rows.len() {
        if is_clear_by(
            alloc,
            &definition.signature,
            list.sort,
            &rows[number],
            value,
        )? {
            return Ok(true);
        }
    }
    Ok(false)
}

fn is_clear_by(
    alloc: Global,
    sig: &Signature,
    sort: SortId,
    row: &Row,
    value: &Term,
) -> Result<bool, AllocError>
    ensures { IfOk result (λ b. IsTrue b ↔ IsClearBy sig.now sort.0 row.now value.now) }
{
    let columns = row.columns.as_slice();
    if columns.len() != 2 {
        return Ok(false);
    }
    let element = &columns[0];
    let rest = &columns[1];
    if !same(&row.head, rest) {
        return Ok(false);
    }
    if !is_rest(sig, sort, element, rest) {
        return Ok(false);
    }
    let made = is_made_of(alloc, value, element)?;
    Ok(made)
}

fn is_rest(sig: &Signature, sort: SortId, element: &Term, rest: &Term) -> bool
    ensures { IsTrue result ↔ IsRest sig.now sort.0 element.now rest.now }
{
    match rest.node() {
        Node::Var { sort: own, number } => is_absent(*own, *number, element),
        Node::Con { .. } => match sig.constant_of(sort) {
            Some(con) => is_constant(rest, con),
            None => false,
        },
    }
}

/// Says whether the variable does not occur in the term. It calls itself as deep as the term is nested.
#[cycle(absent)]
fn is_absent(sort: SortId, number: u32, term: &Term) -> bool
    ensures { IsTrue result ↔ IsAbsent sort.0 number term.now }
{
    match term.node() {
        Node::Var {
            sort: own,
            number: count,
        } => !same_variable(sort, number, *own, *count),
        Node::Con { args, .. } => is_absent_in(sort, number, args.as_slice()),
    }
}

#[cycle(absent)]
fn is_absent_in(sort: SortId, number: u32, terms: &[Term]) -> bool
    ensures { IsTrue result ↔ AllByRecursion (IsAbsent sort.0 number) terms.now }
{
    for place in 0..terms.len() {
        if !is_absent(sort, number, &terms[place]) {
            return false;
        }
    }
    true
}

fn same_variable(sort: SortId, number: u32, own: SortId, count: u32) -> bool
    ensures { IsTrue result ↔ (sort.0 ≡ own.0) × (number ≡ count) }
{
    sort.0 == own.0 && number == count
}
