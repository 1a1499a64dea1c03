//! The own rows of an operator's node as cases.
ghost use Rattle.std.specs.Prelude.{◌≡◌, ◌++◌, [], drop, take, IfOk, OnOk};
ghost use Rattle.psg_scope.specs.Headers.{keys as keys_of};
ghost use Rattle.psg_eval.specs.OwnRows.{name_terms, positions as positions_of, slot_terms};
ghost use Rattle.psg_explain.specs.Given.{own_equations as given_of, own_subjects as subjects_of};
ghost use Rattle.psg_explain.specs.Splits.{first_position, item_name, item_position, item_slot, names_left};
ghost use Rattle.psg_explain.specs.Splits.{own_case_of};
ghost use Rattle.psg_explain.specs.Splits.{terms_left};

use crate::given::{Case, Equations, beside, push_all, push_keyed};
use crate::refutation::Label;
use psg_grammar::{Item, Row};
use psg_scope::NameCol;
use psg_terms::{Seq, Term, Txt};
use std::alloc::{AllocError, Global};

/// Adds a name position with the name of the number, if there is one, and returns the number of the next name.
fn add_name(
    found: &mut Vec<NameCol>,
    space: u32,
    declared: bool,
    names: &[Txt],
    next: usize,
) -> Result<usize, AllocError>
    ensures found { OnOk result (found.new.items
        ≡ found.old.items ++ first_position space declared (drop next names.now)) }
    ensures left { IfOk result (λ n. drop n names.now ≡ drop 1 (drop next names.now)) }
{
    match names.get(next) {
        Some(name) => {
            let name = name.share()?;
            found.push(NameCol {
                space,
                name,
                declared,
            })?;
            Ok(next + 1)
        }
        None => Ok(next),
    }
}

/// Adds the name position that the item is, and returns the number of the next name.
fn add_position(
    found: &mut Vec<NameCol>,
    item: &Item,
    names: &[Txt],
    next: usize,
) -> Result<usize, AllocError>
    ensures found { OnOk result (found.new.items ≡ found.old.items ++ item_position item.now (drop next names.now)) }
    ensures left { IfOk result (λ n. drop n names.now ≡ names_left item.now (drop next names.now)) }
{
    match item {
        Item::Refers(space) => {
            let n = add_name(found, *space, false, names, next)?;
            Ok(n)
        }
        Item::Declares(space) => {
            let n = add_name(found, *space, true, names, next)?;
            Ok(n)
        }
        _ => Ok(next),
    }
}

/// Returns the name positions among the items, with these names.
pub(crate) fn positions(
    alloc: Global,
    items: &[Item],
    names: &[Txt],
) -> Result<Vec<NameCol>, AllocError>
    ensures { IfOk result (λ v. v.items ≡ positions_of items.now names.now) }
{
    let mut found = Vec::new(alloc);
    let mut next = 0;
    for item in items {
        let n = add_position(&mut found, item, names, next)?;
        next = n;
    }
    Ok(found)
}

/// The columns of an operator's row: those of the slots, and those of the name positions.
#[derive(Drop)]
struct Columns {
    slots: Vec<Term>,
    names: Vec<Term>,
}

/// Adds the term of the number, if there is one, and returns the number of the next term.
fn add_term(found: &mut Vec<Term>, terms: &[Term], next: usize) -> Result<usize, AllocError>
    ensures found { OnOk result (found.new.items ≡ found.old.items ++ take 1 (drop next terms.now)) }
    ensures left { IfOk result (λ n. drop n terms.now ≡ drop 1 (drop next terms.now)) }
{
    match terms.get(next) {
        Some(term) => {
            found.push(term.share()?)?;
            Ok(next + 1)
        }
        None => Ok(next),
    }
}

/// Adds the column of the item, if it has one, and returns the number of the next column.
fn add_column(
    columns: &mut Columns,
    item: &Item,
    terms: &[Term],
    next: usize,
) -> Result<usize, AllocError>
    ensures slots { OnOk result (columns.new.slots.items
        ≡ columns.old.slots.items ++ item_slot item.now (drop next terms.now)) }
    ensures names { OnOk result (columns.new.names.items
        ≡ columns.old.names.items ++ item_name item.now (drop next terms.now)) }
    ensures left { IfOk result (λ n. drop n terms.now ≡ terms_left item.now (drop next terms.now)) }
{
    match item {
        Item::Slot(_) => {
            let n = add_term(&mut columns.slots, terms, next)?;
            Ok(n)
        }
        Item::Refers(_) => {
            let n = add_term(&mut columns.names, terms, next)?;
            Ok(n)
        }
        Item::Declares(_) => {
            let n = add_term(&mut columns.names, terms, next)?;
            Ok(n)
        }
        _ => Ok(next),
    }
}

/// Returns the columns of the slots and those of the name positions.
fn split_columns(alloc: Global, items: &[Item], terms: &[Term]) -> Result<Columns, AllocError>
    ensures slots { IfOk result (λ c. c.slots.items ≡ slot_terms items.now terms.now) }
    ensures names { IfOk result (λ c. c.names.items ≡ name_terms items.now terms.now) }
{
    let mut columns = Columns {
        slots: Vec::new(alloc),
        names: Vec::new(alloc),
    };
    let mut next = 0;
    for item in items {
        let n = add_column(&mut columns, item, terms, next)?;
        next = n;
    }
    Ok(columns)
}

/// Returns an equation for each position whose key was before, of these terms.
fn own_equations(
    alloc: Global,
    positions: &[NameCol],
    own: &[Term],
) -> Result<Equations, AllocError>
    ensures subjects { IfOk result (λ e. e.subjects.items ≡ subjects_of [] [] (keys_of positions.now) own.now) }
    ensures given { IfOk result (λ e. e.given.items ≡ given_of [] [] (keys_of positions.now) own.now) }
{
    let mut all = Equations::none(alloc);
    let count = positions.len().min(own.len());
    for i in 0..count {
        let key = &positions[i];
        let names = &positions[..i];
        let terms = &own[..i];
        let term = beside(names, terms, key);
        all.add_left(key, term, &own[i])?;
    }
    Ok(all)
}

/// Returns the case of an operator's own row: an equation for each position whose key was before, and the value, the
/// values of the slots, and the entities of the keys, those of their first positions.
pub(crate) fn own_case(
    alloc: Global,
    items: &[Item],
    positions: &[NameCol],
    keys: &[NameCol],
    number: usize,
    row: &Row,
) -> Result<Case, AllocError>
    ensures { IfOk result (λ c. c ≡ own_case_of items.now positions.now (keys_of keys.now) number row.now) }
{
    let split = split_columns(alloc, items, row.columns.as_slice())?;
    let own = split.names.as_slice();
    let all = own_equations(alloc, positions, own)?;
    let mut columns = Vec::new(alloc);
    columns.push(row.head.share()?)?;
    push_all(&mut columns, split.slots.as_slice())?;
    push_keyed(&mut columns, positions, own, keys)?;
    let Equations { subjects, given } = all;
    Ok(Case {
        label: Label::Row(number),
        subjects: Seq::of(subjects),
        given: Seq::of(given),
        columns: Seq::of(columns),
    })
}
