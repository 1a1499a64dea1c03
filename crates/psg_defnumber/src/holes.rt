//! Hole rows with their cases, and declare rows.
ghost use Rattle.std.specs.Prelude.{◌↔◌, ◌≡◌, ◌∷◌, [], None, Some, ℕ, List, IfOk, IsTrue, OnOk};
ghost use Rattle.std.specs.List.{AllByRecursion};
ghost use Rattle.psg_terms.specs.Names.{Name};
ghost use Rattle.psg_grammar.specs.Sound.{HasKindSort};
ghost use Rattle.psg_deflines.specs.Entries.{Entry, written};
ghost use Rattle.psg_deflines.specs.Forms.{HasFormBehindBy};
ghost use Rattle.psg_deflines.specs.declared.lines.Line.{Line as PlainLine};
ghost use Rattle.psg_defcheck.specs.Faults.{ArePassed};
ghost use Rattle.psg_defcheck.specs.Meanings.{KnowsBehindBy, KnowsTerm, SortsBehindBy, SortsTerm};
ghost use Rattle.psg_defcheck.specs.Scopes.{is_kind, kind_place, last_hole, value_place};
ghost use Rattle.psg_defnumber.specs.Declaring.{HasNames, IsMeant, IsMeantEntry};
ghost use Rattle.psg_defnumber.specs.Growing.{Lasts};
ghost use Rattle.psg_defnumber.specs.Placing.{CasesFit};
ghost use Rattle.psg_defnumber.specs.Numbers.{AreCases, IsHoleRow, AreHoleRows, AreDeclareRows};
ghost use Rattle.psg_defnumber.specs.Putting.{Puts, ReadsCases, ReadsHoleRows, ReadsDeclareRows, IsHoleEntry};

use crate::lookups::{kind_named, kind_sort};
use crate::rows::{case, declare_row, lone_term};
use psg_defcheck::CheckedLines;
use psg_deflines::{Line, LineTerm, LineTree};
use psg_grammar::{Case, DeclareRow, Definition, HoleRow, Kind};
use psg_terms::{Seq, SortId, Txt};
use std::alloc::{AllocError, Global};

/// Says whether the line declares a hole row.
fn is_hole(entry: &Option<Line>) -> bool
    ensures { IsTrue result ↔ IsHoleEntry entry.now }
{
    match entry {
        None => false,
        Some(line) => match line {
            Line::Hole { .. } => true,
            _ => false,
        },
    }
}

/// Puts the case of a line after the others, if it declares one.
fn put_case(
    alloc: Global,
    definition: &Definition,
    checked: &CheckedLines,
    kind: Kind,
    sort: SortId,
    made: &mut Vec<Case>,
    entry: &Option<Line>,
) -> Result<(), AllocError>
    requires inside { IsHoleEntry entry.now → ⊥ }
    requires known { IsMeantEntry checked.now entry.now }
    requires names { HasNames checked.now definition.now }
    requires there { (s : ℕ) × HasKindSort definition.now kind s }
    requires fits { CasesFit checked.now kind sort.0 (written (entry.now ∷ [])) }
    ensures { OnOk result ((rest : List Entry)
        → Puts definition.now (ReadsCases kind sort.0) entry.now rest made.old.items made.new.items) }
{
    let Some(line) = entry else {
        return Ok(());
    };
    let Line::Case { term, specimen } = line else {
        return Ok(());
    };
    let one = case(alloc, definition, checked, kind, sort, term, specimen)?;
    made.push(one)?;
    Ok(())
}

/// Returns the cases in front of the next hole row's line, in order.
fn cases(
    alloc: Global,
    definition: &Definition,
    checked: &CheckedLines,
    kind: Kind,
    sort: SortId,
    behind: &[Option<Line>],
) -> Result<Vec<Case>, AllocError>
    requires known { AllByRecursion (IsMeant checked.now) (written behind.now) }
    requires names { HasNames checked.now definition.now }
    requires there { (s : ℕ) × HasKindSort definition.now kind s }
    requires fits { CasesFit checked.now kind sort.0 (written behind.now) }
    ensures { IfOk result (λ v. Lasts definition.now (λ full. AreCases full kind sort.0 (written behind.now) v.items)) }
{
    let mut made = Vec::new(alloc);
    for entry in behind {
        if is_hole(entry) {
            return Ok(made);
        }
        put_case(alloc, definition, checked, kind, sort, &mut made, entry)?;
    }
    Ok(made)
}

/// Makes a hole row. Its specimen makes its one case; without one its cases follow its line.
fn hole_row(
    alloc: Global,
    definition: &Definition,
    checked: &CheckedLines,
    kind: &Txt,
    term: &LineTerm,
    specimen: &Option<LineTree>,
    behind: &[Option<Line>],
) -> Result<HoleRow, AllocError>
    requires kind { IsTrue (is_kind checked.now kind.now) }
    requires term { KnowsTerm checked.now term.now }
    requires specimen { KnowsBehindBy checked.now specimen.now }
    requires behind { AllByRecursion (IsMeant checked.now) (written behind.now) }
    requires names { HasNames checked.now definition.now }
    requires sorted { (sorts : Name → Name) × SortsTerm checked.now sorts [] (value_place checked.now kind.now) term.now
        × SortsBehindBy checked.now sorts (kind_place checked.now kind.now) specimen.now }
    requires form { HasFormBehindBy specimen.now }
    requires passed { (above : List PlainLine) × (last_hole None above ≡ Some kind.now)
        × ArePassed checked.now above (written behind.now) }
    ensures { IfOk result (λ r. Lasts definition.now (λ full.
        IsHoleRow full kind.now term.now specimen.now (written behind.now) r)) }
{
    let kind = kind_named(checked, kind);
    let sort = kind_sort(definition, kind);
    let Some(tree) = specimen else {
        let term = lone_term(alloc, definition, checked, sort, term)?;
        let cases = cases(alloc, definition, checked, kind, sort, behind)?;
        return Ok(HoleRow {
            kind,
            term,
            cases: Seq::of(cases),
        });
    };
    let one = case(alloc, definition, checked, kind, sort, term, tree)?;
    let term = one.term.share()?;
    let mut cases = Vec::with_capacity(alloc, 1)?;
    cases.push(one)?;
    Ok(HoleRow {
        kind,
        term,
        cases: Seq::of(cases),
    })
}

/// Puts the hole row of a line after the others, if it declares one, with the cases that follow the line.
fn put_hole_row(
    alloc: Global,
    definition: &Definition,
    checked: &CheckedLines,
    made: &mut Vec<HoleRow>,
    entry: &Option<Line>,
    behind: &[Option<Line>],
) -> Result<(), AllocError>
    requires known { IsMeantEntry checked.now entry.now }
    requires behind { AllByRecursion (IsMeant checked.now) (written behind.now) }
    requires names { HasNames checked.now definition.now }
    requires passed { (above : List PlainLine) × ArePassed checked.now above (written (entry.now ∷ behind.now)) }
    ensures { OnOk result (Puts definition.now ReadsHoleRows entry.now behind.now made.old.items made.new.items) }
{
    let Some(line) = entry else {
        return Ok(());
    };
    let Line::Hole {
        kind,
        term,
        specimen,
    } = line
    else {
        return Ok(());
    };
    let one = hole_row(alloc, definition, checked, kind, term, specimen, behind)?;
    made.push(one)?;
    Ok(())
}

/// Makes the hole rows, in order, each with its cases. It reads the cases once.
pub fn hole_rows(
    alloc: Global,
    definition: &Definition,
    checked: &CheckedLines,
    entries: &[Option<Line>],
) -> Result<Vec<HoleRow>, AllocError>
    requires known { AllByRecursion (IsMeant checked.now) (written entries.now) }
    requires names { HasNames checked.now definition.now }
    requires passed { (above : List PlainLine) × ArePassed checked.now above (written entries.now) }
    ensures { IfOk result (λ v. Lasts definition.now (λ full. AreHoleRows full (written entries.now) v.items)) }
{
    let mut made = Vec::new(alloc);
    for i in 0..entries.len() {
        put_hole_row(
            alloc,
            definition,
            checked,
            &mut made,
            &entries[i],
            &entries[i + 1..],
        )?;
    }
    Ok(made)
}

/// Puts the declare row of a line after the others, if it declares one.
fn put_declare_row(
    alloc: Global,
    definition: &Definition,
    checked: &CheckedLines,
    made: &mut Vec<DeclareRow>,
    entry: &Option<Line>,
) -> Result<(), AllocError>
    requires known { IsMeantEntry checked.now entry.now }
    requires names { HasNames checked.now definition.now }
    ensures { OnOk result ((rest : List Entry)
        → Puts definition.now ReadsDeclareRows entry.now rest made.old.items made.new.items) }
{
    let Some(line) = entry else {
        return Ok(());
    };
    let Line::Declare {
        space,
        list,
        entity,
        value,
        specimen,
    } = line
    else {
        return Ok(());
    };
    let one = declare_row(
        alloc, definition, checked, space, list, entity, value, specimen,
    )?;
    made.push(one)?;
    Ok(())
}

/// Makes the declare rows, in order.
pub fn declare_rows(
    alloc: Global,
    definition: &Definition,
    checked: &CheckedLines,
    entries: &[Option<Line>],
) -> Result<Vec<DeclareRow>, AllocError>
    requires known { AllByRecursion (IsMeant checked.now) (written entries.now) }
    requires names { HasNames checked.now definition.now }
    ensures { IfOk result (λ v. Lasts definition.now (λ full. AreDeclareRows full (written entries.now) v.items)) }
{
    let mut made = Vec::new(alloc);
    for entry in entries {
        put_declare_row(alloc, definition, checked, &mut made, entry)?;
    }
    Ok(made)
}
