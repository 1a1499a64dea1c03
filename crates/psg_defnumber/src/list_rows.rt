//! The rows of lists.
ghost use Rattle.std.specs.Prelude.{◌≡◌, ◌∷◌, ◌++◌, [], false, List, IfOk, IsTrue, OnOk, option_and_then};
ghost use Rattle.std.specs.List.{AllByRecursion};
ghost use Rattle.psg_terms.specs.Names.{Name, has_twice};
ghost use Rattle.psg_deflines.specs.Entries.{written};
ghost use Rattle.psg_deflines.specs.declared.lines.Line.{Line as PlainLine};
ghost use Rattle.psg_deflines.specs.declared.lines.Line.TheVariants as lines;
ghost use Rattle.psg_defcheck.specs.Meanings.{KnowsTerm, SortsTerm};
ghost use Rattle.psg_defcheck.specs.Scopes.{element_place, is_list, kind_names, value_place};
ghost use Rattle.psg_defnumber.specs.Declaring.{AreListsOf, HasConstructors, HasElements, IsMeant, IsMeantEntry};
ghost use Rattle.psg_defnumber.specs.Declaring.{HasElementPlace, HasListSort, HasPhyla, HasPhylumSort, HasSorts};
ghost use Rattle.psg_defnumber.specs.Sorts.{TermStands};
ghost use Rattle.psg_defnumber.specs.Growing.{Lasts};
ghost use Rattle.psg_defnumber.specs.Numbers.{AreLists, IsRow};
ghost use Rattle.psg_defnumber.specs.Filling.{Fills};

use crate::lookups::{list_named, phylum_sort};
use crate::rows::lone_term;
use crate::terms::term;
use crate::variables::LineVariables;
use indexmap::IndexMap;
use psg_defcheck::CheckedLines;
use psg_deflines::{Line, LineTerm};
use psg_grammar::{Definition, ListKind, Row};
use psg_terms::{Seq, SortId, Txt};
use std::alloc::{AllocError, Global};

/// Puts a nil row into its list, after the others.
fn put_nil(
    alloc: Global,
    definition: &Definition,
    checked: &CheckedLines,
    lists: &mut Vec<ListKind>,
    list: &Txt,
    term: &LineTerm,
) -> Result<(), AllocError>
    requires there { IsTrue (is_list checked.now list.now) }
    requires term { KnowsTerm checked.now term.now }
    requires lists { AreListsOf checked.now lists.old.items }
    requires list_sorts { AllByRecursion (HasListSort checked.now) lists.old.items }
    requires constructors { HasConstructors checked.now definition.now.signature }
    requires sorted { (sorts : Name → Name)
        × SortsTerm checked.now sorts [] (value_place checked.now list.now) term.now }
    ensures { OnOk result ((file : List PlainLine)
        → Fills definition.now file (file ++ lines.Nil list.now term.now ∷ []) lists.old.items lists.new.items) }
{
    let place = list_named(checked, list);
    let own = &mut lists[place as usize];
    let made = lone_term(alloc, definition, checked, own.sort, term)?;
    own.nil_rows.push(made)?;
    Ok(())
}

/// Makes a cell row, with the columns of an element and of the rest.
fn cell(
    alloc: Global,
    definition: &Definition,
    checked: &CheckedLines,
    sort: SortId,
    elements: SortId,
    head: &LineTerm,
    element: &LineTerm,
    rest: &LineTerm,
) -> Result<Row, AllocError>
    requires head { KnowsTerm checked.now head.now }
    requires element { KnowsTerm checked.now element.now }
    requires rest { KnowsTerm checked.now rest.now }
    requires constructors { HasConstructors checked.now definition.now.signature }
    requires fits { (sorts : Name → Name) × TermStands checked.now sorts sort.0 head.now
        × TermStands checked.now sorts elements.0 element.now × TermStands checked.now sorts sort.0 rest.now }
    ensures { IfOk result (λ r. Lasts definition.now (λ full.
        IsRow full sort.0 (elements.0 ∷ sort.0 ∷ []) head.now (element.now ∷ rest.now ∷ []) r)) }
{
    let mut known: LineVariables = IndexMap::new(alloc);
    let head = term(
        alloc,
        &definition.signature,
        checked,
        &mut known,
        sort,
        head,
    )?;
    let first = term(
        alloc,
        &definition.signature,
        checked,
        &mut known,
        elements,
        element,
    )?;
    let more = term(
        alloc,
        &definition.signature,
        checked,
        &mut known,
        sort,
        rest,
    )?;
    let columns = vec![in alloc; first, more]?;
    Ok(Row {
        head,
        columns: Seq::of(columns),
    })
}

/// Puts a cell row into its list, after the others.
fn put_cell(
    alloc: Global,
    definition: &Definition,
    checked: &CheckedLines,
    lists: &mut Vec<ListKind>,
    list: &Txt,
    term: &LineTerm,
    element: &LineTerm,
    rest: &LineTerm,
) -> Result<(), AllocError>
    requires there { IsTrue (is_list checked.now list.now) }
    requires term { KnowsTerm checked.now term.now }
    requires element { KnowsTerm checked.now element.now }
    requires rest { KnowsTerm checked.now rest.now }
    requires lists { AreListsOf checked.now lists.old.items }
    requires elements { AllByRecursion (HasElements definition.now) lists.old.items }
    requires places { AllByRecursion (HasElementPlace checked.now) lists.old.items }
    requires list_sorts { AllByRecursion (HasListSort checked.now) lists.old.items }
    requires phyla { HasPhyla checked.now definition.now }
    requires phylum_sorts { AllByRecursion (HasPhylumSort checked.now) definition.now.phyla }
    requires constructors { HasConstructors checked.now definition.now.signature }
    requires sorted { (sorts : Name → Name) × SortsTerm checked.now sorts [] (value_place checked.now list.now) term.now
        × SortsTerm checked.now sorts []
        (option_and_then (value_place checked.now) (element_place checked.now list.now)) element.now
        × SortsTerm checked.now sorts [] (value_place checked.now list.now) rest.now }
    ensures { OnOk result ((file : List PlainLine)
        → Fills definition.now file (file ++ lines.Cell list.now term.now element.now rest.now ∷ [])
        lists.old.items lists.new.items) }
{
    let place = list_named(checked, list);
    let own = &mut lists[place as usize];
    let elements = phylum_sort(definition, own.element);
    let made = cell(
        alloc, definition, checked, own.sort, elements, term, element, rest,
    )?;
    own.cell_rows.push(made)?;
    Ok(())
}

/// Puts the row of a line into its list, if the line declares one.
fn put_list_row(
    alloc: Global,
    definition: &Definition,
    checked: &CheckedLines,
    lists: &mut Vec<ListKind>,
    entry: &Option<Line>,
) -> Result<(), AllocError>
    requires known { IsMeantEntry checked.now entry.now }
    requires lists { AreListsOf checked.now lists.old.items }
    requires elements { AllByRecursion (HasElements definition.now) lists.old.items }
    requires places { AllByRecursion (HasElementPlace checked.now) lists.old.items }
    requires list_sorts { AllByRecursion (HasListSort checked.now) lists.old.items }
    requires phyla { HasPhyla checked.now definition.now }
    requires phylum_sorts { AllByRecursion (HasPhylumSort checked.now) definition.now.phyla }
    requires constructors { HasConstructors checked.now definition.now.signature }
    ensures { OnOk result ((file : List PlainLine)
        → Fills definition.now file (file ++ written (entry.now ∷ [])) lists.old.items lists.new.items) }
{
    let Some(line) = entry else {
        return Ok(());
    };
    match line {
        Line::Nil { list, term } => {
            put_nil(alloc, definition, checked, lists, list, term)?;
            Ok(())
        }
        Line::Cell {
            list,
            term,
            element,
            rest,
        } => {
            put_cell(alloc, definition, checked, lists, list, term, element, rest)?;
            Ok(())
        }
        _ => Ok(()),
    }
}

/// Puts the rows of all lines into their lists, in order. The lists are those of the checked lines, without rows.
pub fn fill_lists(
    alloc: Global,
    definition: &Definition,
    checked: &CheckedLines,
    lists: &mut Vec<ListKind>,
    entries: &[Option<Line>],
) -> Result<(), AllocError>
    requires known { AllByRecursion (IsMeant checked.now) (written entries.now) }
    requires meant { AllByRecursion (IsMeant checked.now) checked.now }
    requires once { has_twice (kind_names checked.now) ≡ false }
    requires lists { AreLists definition.now [] checked.now lists.old.items }
    requires sorts { HasSorts checked.now definition.now }
    requires phyla { HasPhyla checked.now definition.now }
    requires phylum_sorts { AllByRecursion (HasPhylumSort checked.now) definition.now.phyla }
    requires constructors { HasConstructors checked.now definition.now.signature }
    ensures { OnOk result (Fills definition.now [] (written entries.now) lists.old.items lists.new.items) }
{
    for entry in entries {
        put_list_row(alloc, definition, checked, lists, entry)?;
    }
    Ok(())
}
