//! The lines of operators, each with its rows after it.
ghost use Rattle.std.specs.Prelude.{◌≡◌, ◌++◌, map, IfOk, OnOk};
ghost use Rattle.std.specs.List.{flat_map};
ghost use Rattle.psg_grammar.specs.declared.types.Kind.TheVariants as kinds;
ghost use Rattle.psg_deflines.specs.declared.lines.Line.TheVariants as lines;
ghost use Rattle.psg_defread.specs.WrittenLines.{item_written, kind_name, operator_lines, row_line};

use crate::names::{kind_name, phylum_name, space_name};
use crate::terms::{term_written, terms_written};
use psg_deflines::{Line, LineItem};
use psg_grammar::{Definition, Item, Operator, Row};
use psg_terms::Seq;
use std::alloc::{AllocError, Global};

/// Returns an item as it is written.
fn item_written(alloc: Global, definition: &Definition, item: &Item) -> Result<LineItem, AllocError>
    ensures { IfOk result (λ w. w ≡ item_written definition.now item.now) }
{
    match item {
        Item::Word(word) => Ok(LineItem::Word(word.share()?)),
        Item::Slot(kind) => Ok(LineItem::Slot(kind_name(alloc, definition, *kind)?)),
        Item::Refers(space) => Ok(LineItem::Refers(space_name(alloc, definition, *space)?)),
        Item::Declares(space) => Ok(LineItem::Declares(space_name(alloc, definition, *space)?)),
        Item::Number => Ok(LineItem::Number),
        Item::Text => Ok(LineItem::Text),
        Item::Space => Ok(LineItem::Space),
        Item::Tight => Ok(LineItem::Tight),
        Item::Line => Ok(LineItem::Line),
        Item::In => Ok(LineItem::In),
        Item::Out => Ok(LineItem::Out),
    }
}

/// Items as they are written.
fn items_written(
    alloc: Global,
    definition: &Definition,
    items: &[Item],
) -> Result<Vec<LineItem>, AllocError>
    ensures { IfOk result (λ v. v.items ≡ map (item_written definition.now) items.now) }
{
    let mut written = Vec::with_capacity(alloc, items.len())?;
    for i in 0..items.len() {
        let one = item_written(alloc, definition, &items[i])?;
        written.push(one)?;
    }
    Ok(written)
}

/// Returns the line of a row of an operator.
fn row_line(alloc: Global, definition: &Definition, row: &Row) -> Result<Line, AllocError>
    ensures { IfOk result (λ l. l ≡ row_line definition.now row.now) }
{
    let head = term_written(alloc, definition, &row.head)?;
    let columns = terms_written(alloc, definition, row.columns.as_slice())?;
    let columns = Seq::of(columns);
    Ok(Line::Row { head, columns })
}

/// Puts the lines of rows after the others.
fn push_rows(
    alloc: Global,
    definition: &Definition,
    rows: &[Row],
    out: &mut Vec<Line>,
) -> Result<(), AllocError>
    ensures { OnOk result (out.new.items ≡ out.old.items ++ map (row_line definition.now) rows.now) }
{
    for i in 0..rows.len() {
        let line = row_line(alloc, definition, &rows[i])?;
        out.push(line)?;
    }
    Ok(())
}

/// Returns the line of an operator without its rows.
fn operator_line(
    alloc: Global,
    definition: &Definition,
    operator: &Operator,
) -> Result<Line, AllocError>
    ensures { IfOk result (λ l. l ≡ lines.Operator operator.now.name
        (kind_name definition.now (kinds.Phylum operator.now.phylum)) operator.now.scope operator.now.level
        (map (item_written definition.now) operator.now.items)) }
{
    let name = operator.name.share()?;
    let phylum = phylum_name(alloc, definition, operator.phylum)?;
    let items = items_written(alloc, definition, operator.items.as_slice())?;
    let items = Seq::of(items);
    Ok(Line::Operator {
        name,
        phylum,
        scope: operator.scope,
        level: operator.level,
        items,
    })
}

/// Puts the line of an operator and those of its rows after the others.
fn push_operator(
    alloc: Global,
    definition: &Definition,
    operator: &Operator,
    out: &mut Vec<Line>,
) -> Result<(), AllocError>
    ensures { OnOk result (out.new.items ≡ out.old.items ++ operator_lines definition.now operator.now) }
{
    let line = operator_line(alloc, definition, operator)?;
    out.push(line)?;
    push_rows(alloc, definition, operator.rows.as_slice(), out)?;
    Ok(())
}

/// Puts the lines of operators after the others.
pub fn push_operators(
    alloc: Global,
    definition: &Definition,
    operators: &[Operator],
    out: &mut Vec<Line>,
) -> Result<(), AllocError>
    ensures { OnOk result (out.new.items ≡ out.old.items ++ flat_map (operator_lines definition.now) operators.now) }
{
    for i in 0..operators.len() {
        push_operator(alloc, definition, &operators[i], out)?;
    }
    Ok(())
}
