//! Spaces, phyla and lists from their lines.
ghost use Rattle.std.specs.Prelude.{List, [], IfOk, OnOk};
ghost use Rattle.std.specs.List.{AllByRecursion};
ghost use Rattle.psg_grammar.specs.declared.types.Definition.{Definition as Plain};
ghost use Rattle.psg_deflines.specs.Entries.{Entry, written};
ghost use Rattle.psg_defcheck.specs.Scopes.{spaces};
ghost use Rattle.psg_defnumber.specs.Declaring.{HasPhyla, HasSorts, IsMeant, IsMeantEntry};
ghost use Rattle.psg_defnumber.specs.Growing.{Lasts};
ghost use Rattle.psg_defnumber.specs.Numbers.{AreSpaces, ArePhyla, AreLists};
ghost use Rattle.psg_defnumber.specs.Putting.{Puts, ReadsSpaces, ReadsPhyla, ReadsLists};

use crate::lookups::{phylum_named, sort_named};
use psg_defcheck::CheckedLines;
use psg_deflines::Line;
use psg_grammar::{ListKind, Phylum, Space};
use psg_terms::Seq;
use std::alloc::{AllocError, Global};

/// Puts the space of a line after the others, if it declares one.
fn put_space(
    checked: &CheckedLines,
    made: &mut Vec<Space>,
    entry: &Option<Line>,
) -> Result<(), AllocError>
    requires { IsMeantEntry checked.now entry.now }
    ensures { OnOk result ((def : Plain) (rest : List Entry) → HasSorts checked.now def
        → Puts def ReadsSpaces entry.now rest made.old.items made.new.items) }
{
    let Some(line) = entry else {
        return Ok(());
    };
    let Line::Space { name, sort } = line else {
        return Ok(());
    };
    let sort = sort_named(checked, sort);
    let name = name.share()?;
    made.push(Space { name, sort })?;
    Ok(())
}

/// Makes the spaces, in order.
pub fn spaces(
    alloc: Global,
    checked: &CheckedLines,
    entries: &[Option<Line>],
) -> Result<Vec<Space>, AllocError>
    requires { AllByRecursion (IsMeant checked.now) (written entries.now) }
    ensures { IfOk result (λ v. (def : Plain) → HasSorts checked.now def
        → Lasts def (λ full. AreSpaces full (spaces (written entries.now)) v.items)) }
{
    let mut made = Vec::new(alloc);
    for entry in entries {
        put_space(checked, &mut made, entry)?;
    }
    Ok(made)
}

/// Puts the phylum of a line after the others, if it declares one.
fn put_phylum(
    checked: &CheckedLines,
    made: &mut Vec<Phylum>,
    entry: &Option<Line>,
) -> Result<(), AllocError>
    requires { IsMeantEntry checked.now entry.now }
    ensures { OnOk result ((def : Plain) (rest : List Entry) → HasSorts checked.now def
        → Puts def ReadsPhyla entry.now rest made.old.items made.new.items) }
{
    let Some(line) = entry else {
        return Ok(());
    };
    let Line::Phylum {
        name,
        sort,
        bracketed,
    } = line
    else {
        return Ok(());
    };
    let sort = sort_named(checked, sort);
    let name = name.share()?;
    made.push(Phylum {
        name,
        sort,
        bracketed: *bracketed,
    })?;
    Ok(())
}

/// Makes the phyla, in order.
pub fn phyla(
    alloc: Global,
    checked: &CheckedLines,
    entries: &[Option<Line>],
) -> Result<Vec<Phylum>, AllocError>
    requires { AllByRecursion (IsMeant checked.now) (written entries.now) }
    ensures { IfOk result (λ v. (def : Plain) → HasSorts checked.now def
        → Lasts def (λ full. ArePhyla full (written entries.now) v.items)) }
{
    let mut made = Vec::new(alloc);
    for entry in entries {
        put_phylum(checked, &mut made, entry)?;
    }
    Ok(made)
}

/// Puts the list of a line after the others, if it declares one. It has no rows yet.
fn put_list(
    alloc: Global,
    checked: &CheckedLines,
    made: &mut Vec<ListKind>,
    entry: &Option<Line>,
) -> Result<(), AllocError>
    requires { IsMeantEntry checked.now entry.now }
    ensures { OnOk result ((def : Plain) (rest : List Entry) → HasSorts checked.now def → HasPhyla checked.now def
        → Puts def ReadsLists entry.now rest made.old.items made.new.items) }
{
    let Some(line) = entry else {
        return Ok(());
    };
    let Line::List {
        name,
        sort,
        element,
        separator,
        lines,
        unfinished,
    } = line
    else {
        return Ok(());
    };
    let sort = sort_named(checked, sort);
    let element = phylum_named(checked, element);
    let name = name.share()?;
    let separator = separator.share()?;
    made.push(ListKind {
        name,
        sort,
        element,
        separator,
        lines: *lines,
        unfinished: *unfinished,
        nil_rows: Seq::of(Vec::new(alloc)),
        cell_rows: Seq::of(Vec::new(alloc)),
    })?;
    Ok(())
}

/// Makes the lists without their rows, in order.
pub fn lists(
    alloc: Global,
    checked: &CheckedLines,
    entries: &[Option<Line>],
) -> Result<Vec<ListKind>, AllocError>
    requires { AllByRecursion (IsMeant checked.now) (written entries.now) }
    ensures { IfOk result (λ v. (def : Plain) → HasSorts checked.now def → HasPhyla checked.now def
        → Lasts def (λ full. AreLists full [] (written entries.now) v.items)) }
{
    let mut made = Vec::new(alloc);
    for entry in entries {
        put_list(alloc, checked, &mut made, entry)?;
    }
    Ok(made)
}
