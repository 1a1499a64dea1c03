//! The lines of the rows of lists.
ghost use Rattle.std.specs.Prelude.{◌≡◌, ◌++◌, IfOk, OnOk};
ghost use Rattle.std.specs.List.{flat_map};
ghost use Rattle.psg_deflines.specs.declared.lines.Line.TheVariants as lines;
ghost use Rattle.psg_defread.specs.WrittenLines.{cell_line, cell_lines, nil_lines, term_written};

use crate::terms::{column_written, term_written};
use psg_deflines::Line;
use psg_grammar::{Definition, ListKind, Row};
use psg_terms::{Term, Txt};
use std::alloc::{AllocError, Global};

/// Returns the line of a row of an empty list.
fn nil_line(
    alloc: Global,
    definition: &Definition,
    list: &Txt,
    term: &Term,
) -> Result<Line, AllocError>
    ensures { IfOk result (λ l. l ≡ lines.Nil list.now (term_written definition.now term.now)) }
{
    let list = list.share()?;
    let term = term_written(alloc, definition, term)?;
    Ok(Line::Nil { list, term })
}

/// Puts the lines of the rows of an empty list after the others.
fn push_list_nils(
    alloc: Global,
    definition: &Definition,
    list: &ListKind,
    out: &mut Vec<Line>,
) -> Result<(), AllocError>
    ensures { OnOk result (out.new.items ≡ out.old.items ++ nil_lines definition.now list.now) }
{
    let rows = list.nil_rows.as_slice();
    for i in 0..rows.len() {
        let line = nil_line(alloc, definition, &list.name, &rows[i])?;
        out.push(line)?;
    }
    Ok(())
}

/// Puts the lines of the rows of empty lists after the others.
pub fn push_nils(
    alloc: Global,
    definition: &Definition,
    lists: &[ListKind],
    out: &mut Vec<Line>,
) -> Result<(), AllocError>
    ensures { OnOk result (out.new.items ≡ out.old.items ++ flat_map (nil_lines definition.now) lists.now) }
{
    for i in 0..lists.len() {
        push_list_nils(alloc, definition, &lists[i], out)?;
    }
    Ok(())
}

/// Returns the line of a row of a list with an element: the terms of the list, of the element and of its rest.
fn cell_line(
    alloc: Global,
    definition: &Definition,
    list: &Txt,
    row: &Row,
) -> Result<Line, AllocError>
    ensures { IfOk result (λ l. l ≡ cell_line definition.now list.now row.now) }
{
    let list = list.share()?;
    let term = term_written(alloc, definition, &row.head)?;
    let element = column_written(alloc, definition, row, 0)?;
    let rest = column_written(alloc, definition, row, 1)?;
    Ok(Line::Cell {
        list,
        term,
        element,
        rest,
    })
}

/// Puts the lines of the rows of a list with an element after the others.
fn push_list_cells(
    alloc: Global,
    definition: &Definition,
    list: &ListKind,
    out: &mut Vec<Line>,
) -> Result<(), AllocError>
    ensures { OnOk result (out.new.items ≡ out.old.items ++ cell_lines definition.now list.now) }
{
    let rows = list.cell_rows.as_slice();
    for i in 0..rows.len() {
        let line = cell_line(alloc, definition, &list.name, &rows[i])?;
        out.push(line)?;
    }
    Ok(())
}

/// Puts the lines of the rows of lists with an element after the others.
pub fn push_cells(
    alloc: Global,
    definition: &Definition,
    lists: &[ListKind],
    out: &mut Vec<Line>,
) -> Result<(), AllocError>
    ensures { OnOk result (out.new.items ≡ out.old.items ++ flat_map (cell_lines definition.now) lists.now) }
{
    for i in 0..lists.len() {
        push_list_cells(alloc, definition, &lists[i], out)?;
    }
    Ok(())
}
