//! The slots of an operator's row, without its name positions.
ghost use Rattle.std.specs.Prelude.{◌≡◌, ◌++◌, ◌∷◌, List, IfOk, OnOk};
ghost use Rattle.psg_grammar.specs.declared.types.Item.{Item as PlainItem};
ghost use Rattle.psg_covering.specs.Slots.{IsMoved, kinds_in, slot_kinds, slot_terms, tail_of};

use psg_grammar::{Item, Kind};
use psg_terms::Term;
use std::alloc::{AllocError, Global};

/// Answers the kinds of the slots, in order.
pub(crate) fn slot_kinds(alloc: Global, items: &[Item]) -> Result<Vec<Kind>, AllocError>
    ensures { IfOk result (λ v. v.items ≡ slot_kinds items.now) }
{
    let mut kinds = Vec::new(alloc);
    for item in items {
        add_kind(&mut kinds, item)?;
    }
    Ok(kinds)
}

fn add_kind(kinds: &mut Vec<Kind>, item: &Item) -> Result<(), AllocError>
    ensures { OnOk result (kinds.new.items ≡ kinds.old.items ++ kinds_in item.now) }
{
    if let Item::Slot(kind) = item {
        kinds.push(*kind)?;
    }
    Ok(())
}

/// Answers the head and after it the columns of the slots.
pub(crate) fn slot_row(
    alloc: Global,
    items: &[Item],
    head: &Term,
    columns: &[Term],
) -> Result<Vec<Term>, AllocError>
    ensures { IfOk result (λ v. v.items ≡ head.now ∷ slot_terms items.now columns.now) }
{
    let mut terms = Vec::new(alloc);
    terms.push(head.share()?)?;
    let mut left = columns;
    for item in items {
        left = add_column(&mut terms, item, left)?;
    }
    Ok(terms)
}

/// Puts the column of a slot at the end, and answers the columns of the items that follow.
fn add_column<'a>(
    terms: &mut Vec<Term>,
    item: &Item,
    columns: &'a [Term],
) -> Result<&'a [Term], AllocError>
    ensures { IfOk result (λ left. (more : List PlainItem)
        → terms.old.items ++ slot_terms (item.now ∷ more) columns.now
        ≡ terms.new.items ++ slot_terms more left.now) }
{
    match item {
        Item::Slot(_) => {
            let left = add_first(terms, columns)?;
            Ok(left)
        }
        Item::Refers(_) => Ok(without_first(columns)),
        Item::Declares(_) => Ok(without_first(columns)),
        _ => Ok(columns),
    }
}

fn add_first<'a>(terms: &mut Vec<Term>, columns: &'a [Term]) -> Result<&'a [Term], AllocError>
    ensures { IfOk result (λ left. IsMoved terms.old.items columns.now terms.new.items left.now) }
{
    match columns.split_first() {
        Some((first, left)) => {
            terms.push(first.share()?)?;
            Ok(left)
        }
        None => Ok(columns),
    }
}

fn without_first<'a>(columns: &'a [Term]) -> &'a [Term]
    ensures { result.now ≡ tail_of columns.now }
{
    match columns.split_first() {
        Some((_, left)) => left,
        None => columns,
    }
}
