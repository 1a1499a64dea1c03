//! Operators with their rows.
ghost use Rattle.std.specs.Prelude.{◌↔◌, ◌∷◌, [], List, IfOk, IsTrue, OnOk};
ghost use Rattle.std.specs.List.{AllByRecursion};
ghost use Rattle.psg_terms.specs.Kept.{numbers_of};
ghost use Rattle.psg_grammar.specs.declared.types.Item.{Item as PlainItem};
ghost use Rattle.psg_grammar.specs.Sound.{AreColumns, IsItem as IsItemThere};
ghost use Rattle.psg_deflines.specs.Entries.{Entry, written};
ghost use Rattle.psg_deflines.specs.declared.lines.Line.{Line as PlainLine};
ghost use Rattle.psg_defcheck.specs.Faults.{ArePassed};
ghost use Rattle.psg_defcheck.specs.Meanings.{KnowsItem};
ghost use Rattle.psg_defnumber.specs.Declaring.{HasKinds, IsMeant, IsMeantEntry};
ghost use Rattle.psg_defnumber.specs.Sorts.{RowsStand};
ghost use Rattle.psg_defnumber.specs.Growing.{Lasts};
ghost use Rattle.psg_defnumber.specs.Numbers.{IsItem, AreItems, AreRows, AreOperators};
ghost use Rattle.psg_defnumber.specs.Putting.{Puts, ReadsColumns, ReadsRows, ReadsOperators, IsOperatorEntry};

use crate::lookups::{kind_named, kind_sort, phylum_named, phylum_sort, space_named, space_sort};
use crate::rows::row;
use psg_defcheck::CheckedLines;
use psg_deflines::{Line, LineItem};
use psg_grammar::{Definition, Item, Operator, Row};
use psg_terms::{Seq, SortId};
use std::alloc::{AllocError, Global};

/// Returns an item of an operator.
fn item(
    definition: &Definition,
    checked: &CheckedLines,
    part: &LineItem,
) -> Result<Item, AllocError>
    requires known { KnowsItem checked.now part.now }
    requires kinds { HasKinds checked.now definition.now }
    ensures { IfOk result (λ i. Lasts definition.now (λ full. IsItem full part.now i)) }
{
    match part {
        LineItem::Word(word) => {
            let word = word.share()?;
            Ok(Item::Word(word))
        }
        LineItem::Slot(name) => {
            let kind = kind_named(checked, name);
            Ok(Item::Slot(kind))
        }
        LineItem::Refers(name) => {
            let space = space_named(checked, name);
            Ok(Item::Refers(space))
        }
        LineItem::Declares(name) => {
            let space = space_named(checked, name);
            Ok(Item::Declares(space))
        }
        LineItem::Number => Ok(Item::Number),
        LineItem::Text => Ok(Item::Text),
        LineItem::Space => Ok(Item::Space),
        LineItem::Tight => Ok(Item::Tight),
        LineItem::Line => Ok(Item::Line),
        LineItem::In => Ok(Item::In),
        LineItem::Out => Ok(Item::Out),
    }
}

/// Returns the items of an operator, in order.
fn items(
    alloc: Global,
    definition: &Definition,
    checked: &CheckedLines,
    parts: &[LineItem],
) -> Result<Vec<Item>, AllocError>
    requires known { AllByRecursion (KnowsItem checked.now) parts.now }
    requires kinds { HasKinds checked.now definition.now }
    ensures { IfOk result (λ v. Lasts definition.now (λ full. AreItems full parts.now v.items)) }
{
    let mut made = Vec::with_capacity(alloc, parts.len())?;
    for part in parts {
        let one = item(definition, checked, part)?;
        made.push(one)?;
    }
    Ok(made)
}

/// Puts the sort of an item's column after the others, if it has one.
fn put_column(
    definition: &Definition,
    sorts: &mut Vec<SortId>,
    item: &Item,
) -> Result<(), AllocError>
    requires { IsItemThere definition.now item.now }
    ensures { OnOk result ((rest : List PlainItem)
        → Puts definition.now ReadsColumns item.now rest sorts.old.items sorts.new.items) }
{
    match item {
        Item::Slot(kind) => {
            let sort = kind_sort(definition, *kind);
            sorts.push(sort)?;
            Ok(())
        }
        Item::Refers(space) => {
            let sort = space_sort(definition, *space);
            sorts.push(sort)?;
            Ok(())
        }
        Item::Declares(space) => {
            let sort = space_sort(definition, *space);
            sorts.push(sort)?;
            Ok(())
        }
        _ => Ok(()),
    }
}

/// Returns the sorts of the columns of an operator's rows, in order.
fn columns(
    alloc: Global,
    definition: &Definition,
    items: &[Item],
) -> Result<Vec<SortId>, AllocError>
    requires { AllByRecursion (IsItemThere definition.now) items.now }
    ensures { IfOk result (λ v. Lasts definition.now (λ full. AreColumns full items.now (numbers_of v.items))) }
{
    let mut sorts = Vec::with_capacity(alloc, items.len())?;
    for item in items {
        put_column(definition, &mut sorts, item)?;
    }
    Ok(sorts)
}

/// Says whether the line declares an operator.
fn is_operator(entry: &Option<Line>) -> bool
    ensures { IsTrue result ↔ IsOperatorEntry entry.now }
{
    match entry {
        None => false,
        Some(line) => match line {
            Line::Operator { .. } => true,
            _ => false,
        },
    }
}

/// Puts the row of a line after the others, if it declares one.
fn put_row(
    alloc: Global,
    definition: &Definition,
    checked: &CheckedLines,
    sort: SortId,
    sorts: &[SortId],
    made: &mut Vec<Row>,
    entry: &Option<Line>,
) -> Result<(), AllocError>
    requires inside { IsOperatorEntry entry.now → ⊥ }
    requires known { IsMeantEntry checked.now entry.now }
    requires kinds { HasKinds checked.now definition.now }
    requires fits { RowsStand checked.now sort.0 (numbers_of sorts.now) (written (entry.now ∷ [])) }
    ensures { OnOk result ((rest : List Entry)
        → Puts definition.now (ReadsRows sort.0 (numbers_of sorts.now)) entry.now rest made.old.items made.new.items) }
{
    let Some(line) = entry else {
        return Ok(());
    };
    let Line::Row {
        head,
        columns: written,
    } = line
    else {
        return Ok(());
    };
    let one = row(
        alloc,
        definition,
        checked,
        sort,
        sorts,
        head,
        written.as_slice(),
    )?;
    made.push(one)?;
    Ok(())
}

/// Returns the rows in front of the next operator's line, in order.
fn rows(
    alloc: Global,
    definition: &Definition,
    checked: &CheckedLines,
    sort: SortId,
    sorts: &[SortId],
    behind: &[Option<Line>],
) -> Result<Vec<Row>, AllocError>
    requires known { AllByRecursion (IsMeant checked.now) (written behind.now) }
    requires kinds { HasKinds checked.now definition.now }
    requires fits { RowsStand checked.now sort.0 (numbers_of sorts.now) (written behind.now) }
    ensures { IfOk result (λ v. Lasts definition.now (λ full.
        AreRows full sort.0 (numbers_of sorts.now) (written behind.now) v.items)) }
{
    let mut made = Vec::new(alloc);
    for entry in behind {
        if is_operator(entry) {
            return Ok(made);
        }
        put_row(alloc, definition, checked, sort, sorts, &mut made, entry)?;
    }
    Ok(made)
}

/// Puts the operator of a line after the others, if it declares one, with the rows that follow the line.
fn put_operator(
    alloc: Global,
    definition: &Definition,
    checked: &CheckedLines,
    made: &mut Vec<Operator>,
    entry: &Option<Line>,
    behind: &[Option<Line>],
) -> Result<(), AllocError>
    requires known { IsMeantEntry checked.now entry.now }
    requires kinds { HasKinds checked.now definition.now }
    requires behind { AllByRecursion (IsMeant checked.now) (written behind.now) }
    requires passed { (above : List PlainLine) × ArePassed checked.now above (written (entry.now ∷ behind.now)) }
    ensures { OnOk result (Puts definition.now ReadsOperators entry.now behind.now made.old.items made.new.items) }
{
    let Some(line) = entry else {
        return Ok(());
    };
    let Line::Operator {
        name,
        phylum,
        scope,
        level,
        items: parts,
    } = line
    else {
        return Ok(());
    };
    let phylum = phylum_named(checked, phylum);
    let sort = phylum_sort(definition, phylum);
    let items = items(alloc, definition, checked, parts.as_slice())?;
    let sorts = columns(alloc, definition, items.as_slice())?;
    let rows = rows(alloc, definition, checked, sort, sorts.as_slice(), behind)?;
    let name = name.share()?;
    made.push(Operator {
        name,
        phylum,
        level: *level,
        scope: *scope,
        items: Seq::of(items),
        rows: Seq::of(rows),
    })?;
    Ok(())
}

/// Makes the operators, in order, each with its rows. It reads the rows once.
pub fn operators(
    alloc: Global,
    definition: &Definition,
    checked: &CheckedLines,
    entries: &[Option<Line>],
) -> Result<Vec<Operator>, AllocError>
    requires known { AllByRecursion (IsMeant checked.now) (written entries.now) }
    requires kinds { HasKinds checked.now definition.now }
    requires passed { (above : List PlainLine) × ArePassed checked.now above (written entries.now) }
    ensures { IfOk result (λ v. Lasts definition.now (λ full. AreOperators full (written entries.now) v.items)) }
{
    let mut made = Vec::new(alloc);
    for i in 0..entries.len() {
        put_operator(
            alloc,
            definition,
            checked,
            &mut made,
            &entries[i],
            &entries[i + 1..],
        )?;
    }
    Ok(made)
}
