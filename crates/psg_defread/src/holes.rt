//! The lines of hole rows, each with its cases after it, and of declare rows.
ghost use Rattle.std.specs.Prelude.{◌≡◌, ◌++◌, None, map, IfOk, OnOk};
ghost use Rattle.std.specs.List.{flat_map};
ghost use Rattle.psg_deflines.specs.declared.lines.Line.TheVariants as lines;
ghost use Rattle.psg_defread.specs.WrittenLines.{case_line, declare_line, hole_lines, kind_name, term_written};

use crate::names::{kind_name, list_name, space_name};
use crate::specimens::tree_written;
use crate::terms::term_written;
use psg_deflines::Line;
use psg_grammar::{Case, DeclareRow, Definition, HoleRow};
use std::alloc::{AllocError, Global};

/// Returns the line of a case.
fn case_line(alloc: Global, definition: &Definition, case: &Case) -> Result<Line, AllocError>
    ensures { IfOk result (λ l. l ≡ case_line definition.now case.now) }
{
    let term = term_written(alloc, definition, &case.term)?;
    let specimen = tree_written(alloc, definition, &case.specimen)?;
    Ok(Line::Case { term, specimen })
}

/// Puts the lines of cases after the others.
fn push_cases(
    alloc: Global,
    definition: &Definition,
    cases: &[Case],
    out: &mut Vec<Line>,
) -> Result<(), AllocError>
    ensures { OnOk result (out.new.items ≡ out.old.items ++ map (case_line definition.now) cases.now) }
{
    for i in 0..cases.len() {
        let line = case_line(alloc, definition, &cases[i])?;
        out.push(line)?;
    }
    Ok(())
}

/// Returns the line of a hole row without its cases.
fn hole_line(alloc: Global, definition: &Definition, row: &HoleRow) -> Result<Line, AllocError>
    ensures { IfOk result (λ l. l
        ≡ lines.Hole (kind_name definition.now row.now.kind) (term_written definition.now row.now.term) None) }
{
    let kind = kind_name(alloc, definition, row.kind)?;
    let term = term_written(alloc, definition, &row.term)?;
    Ok(Line::Hole {
        kind,
        term,
        specimen: None,
    })
}

/// Puts the line of a hole row and those of its cases after the others.
fn push_hole(
    alloc: Global,
    definition: &Definition,
    row: &HoleRow,
    out: &mut Vec<Line>,
) -> Result<(), AllocError>
    ensures { OnOk result (out.new.items ≡ out.old.items ++ hole_lines definition.now row.now) }
{
    let line = hole_line(alloc, definition, row)?;
    out.push(line)?;
    push_cases(alloc, definition, row.cases.as_slice(), out)?;
    Ok(())
}

/// Puts the lines of hole rows after the others.
pub fn push_holes(
    alloc: Global,
    definition: &Definition,
    rows: &[HoleRow],
    out: &mut Vec<Line>,
) -> Result<(), AllocError>
    ensures { OnOk result (out.new.items ≡ out.old.items ++ flat_map (hole_lines definition.now) rows.now) }
{
    for i in 0..rows.len() {
        push_hole(alloc, definition, &rows[i], out)?;
    }
    Ok(())
}

/// Returns the line of a declare row.
fn declare_line(
    alloc: Global,
    definition: &Definition,
    row: &DeclareRow,
) -> Result<Line, AllocError>
    ensures { IfOk result (λ l. l ≡ declare_line definition.now row.now) }
{
    let space = space_name(alloc, definition, row.space)?;
    let list = list_name(alloc, definition, row.list)?;
    let entity = term_written(alloc, definition, &row.term)?;
    let value = term_written(alloc, definition, &row.value)?;
    let specimen = tree_written(alloc, definition, &row.specimen)?;
    Ok(Line::Declare {
        space,
        list,
        entity,
        value,
        specimen,
    })
}

/// Puts the lines of declare rows after the others.
pub fn push_declares(
    alloc: Global,
    definition: &Definition,
    rows: &[DeclareRow],
    out: &mut Vec<Line>,
) -> Result<(), AllocError>
    ensures { OnOk result (out.new.items ≡ out.old.items ++ map (declare_line definition.now) rows.now) }
{
    for i in 0..rows.len() {
        let line = declare_line(alloc, definition, &rows[i])?;
        out.push(line)?;
    }
    Ok(())
}
