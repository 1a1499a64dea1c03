//! The lines of spaces, of phyla and of lists.
ghost use Rattle.std.specs.Prelude.{◌≡◌, ◌++◌, map, IfOk, OnOk};
ghost use Rattle.psg_defread.specs.WrittenLines.{space_line, phylum_line, list_line};

use crate::names::{phylum_name, sort_name};
use psg_deflines::Line;
use psg_grammar::{Definition, ListKind, Phylum, Space};
use std::alloc::{AllocError, Global};

/// Returns the line of a space.
fn space_line(alloc: Global, definition: &Definition, space: &Space) -> Result<Line, AllocError>
    ensures { IfOk result (λ l. l ≡ space_line definition.now space.now) }
{
    let name = space.name.share()?;
    let sort = sort_name(alloc, definition, space.sort)?;
    Ok(Line::Space { name, sort })
}

/// Puts the lines of spaces after the others.
pub fn push_spaces(
    alloc: Global,
    definition: &Definition,
    spaces: &[Space],
    out: &mut Vec<Line>,
) -> Result<(), AllocError>
    ensures { OnOk result (out.new.items ≡ out.old.items ++ map (space_line definition.now) spaces.now) }
{
    for i in 0..spaces.len() {
        let line = space_line(alloc, definition, &spaces[i])?;
        out.push(line)?;
    }
    Ok(())
}

/// Returns the line of a phylum.
fn phylum_line(alloc: Global, definition: &Definition, phylum: &Phylum) -> Result<Line, AllocError>
    ensures { IfOk result (λ l. l ≡ phylum_line definition.now phylum.now) }
{
    let name = phylum.name.share()?;
    let sort = sort_name(alloc, definition, phylum.sort)?;
    let bracketed = phylum.bracketed;
    Ok(Line::Phylum {
        name,
        sort,
        bracketed,
    })
}

/// Puts the lines of phyla after the others.
pub fn push_phyla(
    alloc: Global,
    definition: &Definition,
    phyla: &[Phylum],
    out: &mut Vec<Line>,
) -> Result<(), AllocError>
    ensures { OnOk result (out.new.items ≡ out.old.items ++ map (phylum_line definition.now) phyla.now) }
{
    for i in 0..phyla.len() {
        let line = phylum_line(alloc, definition, &phyla[i])?;
        out.push(line)?;
    }
    Ok(())
}

/// Returns the line of a list.
fn list_line(alloc: Global, definition: &Definition, list: &ListKind) -> Result<Line, AllocError>
    ensures { IfOk result (λ l. l ≡ list_line definition.now list.now) }
{
    let name = list.name.share()?;
    let sort = sort_name(alloc, definition, list.sort)?;
    let element = phylum_name(alloc, definition, list.element)?;
    let separator = list.separator.share()?;
    Ok(Line::List {
        name,
        sort,
        element,
        separator,
        lines: list.lines,
        unfinished: list.unfinished,
    })
}

/// Puts the lines of lists after the others.
pub fn push_lists(
    alloc: Global,
    definition: &Definition,
    lists: &[ListKind],
    out: &mut Vec<Line>,
) -> Result<(), AllocError>
    ensures { OnOk result (out.new.items ≡ out.old.items ++ map (list_line definition.now) lists.now) }
{
    for i in 0..lists.len() {
        let line = list_line(alloc, definition, &lists[i])?;
        out.push(line)?;
    }
    Ok(())
}
