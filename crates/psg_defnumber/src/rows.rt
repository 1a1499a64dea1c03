//! Rows from their lines.
ghost use Rattle.std.specs.Prelude.{ℕ, [], IfOk, IsTrue, is_some, option_and_then};
ghost use Rattle.std.specs.List.{AllByRecursion};
ghost use Rattle.psg_terms.specs.Kept.{numbers_of};
ghost use Rattle.psg_grammar.specs.Sound.{HasKindSort};
ghost use Rattle.psg_terms.specs.Names.{Name};
ghost use Rattle.psg_deflines.specs.WrittenTrees.{HasTreeForm};
ghost use Rattle.psg_defcheck.specs.Meanings.{KnowsSpace, KnowsTerm, KnowsTree, SortsTerm, SortsTree};
ghost use Rattle.psg_defcheck.specs.Scopes.{element_place, entity_place, entity_sort, is_list, value_place};
ghost use Rattle.psg_defnumber.specs.Declaring.{HasConstructors, HasNames};
ghost use Rattle.psg_defnumber.specs.Growing.{Lasts};
ghost use Rattle.psg_defnumber.specs.Placing.{CaseFits};
ghost use Rattle.psg_defnumber.specs.Sorts.{RowStands, TermStands};
ghost use Rattle.psg_defnumber.specs.Numbers.{IsRow, IsNil, IsCase, IsDeclareRow};

use crate::lookups::{list_at, list_named, phylum_sort, space_named, space_sort};
use crate::specimens::specimen;
use crate::terms::{term, terms};
use crate::variables::LineVariables;
use indexmap::IndexMap;
use psg_defcheck::CheckedLines;
use psg_deflines::{LineTerm, LineTree};
use psg_grammar::{Case, DeclareRow, Definition, Kind, Row};
use psg_terms::{Seq, SortId, Term, Txt};
use std::alloc::{AllocError, Global};

/// Makes a row: the term of the sort, and terms of these sorts, one by one.
pub fn row(
    alloc: Global,
    definition: &Definition,
    checked: &CheckedLines,
    sort: SortId,
    sorts: &[SortId],
    head: &LineTerm,
    columns: &[LineTerm],
) -> Result<Row, AllocError>
    requires head { KnowsTerm checked.now head.now }
    requires columns { AllByRecursion (KnowsTerm checked.now) columns.now }
    requires constructors { HasConstructors checked.now definition.now.signature }
    requires fits { (own : Name → Name)
        × RowStands checked.now own sort.0 (numbers_of sorts.now) head.now columns.now }
    ensures { IfOk result (λ r. Lasts definition.now (λ full.
        IsRow full sort.0 (numbers_of sorts.now) head.now columns.now r)) }
{
    let mut known: LineVariables = IndexMap::new(alloc);
    let head = term(
        alloc,
        &definition.signature,
        checked,
        &mut known,
        sort,
        head,
    )?;
    let columns = terms(
        alloc,
        &definition.signature,
        checked,
        &mut known,
        sorts,
        columns,
    )?;
    Ok(Row {
        head,
        columns: Seq::of(columns),
    })
}

/// Makes the term of a line that has one alone.
pub fn lone_term(
    alloc: Global,
    definition: &Definition,
    checked: &CheckedLines,
    sort: SortId,
    written: &LineTerm,
) -> Result<Term, AllocError>
    requires term { KnowsTerm checked.now written.now }
    requires constructors { HasConstructors checked.now definition.now.signature }
    requires fits { (sorts : Name → Name) × TermStands checked.now sorts sort.0 written.now }
    ensures { IfOk result (λ t. Lasts definition.now (λ full. IsNil full sort.0 written.now t)) }
{
    let mut known: LineVariables = IndexMap::new(alloc);
    let made = term(
        alloc,
        &definition.signature,
        checked,
        &mut known,
        sort,
        written,
    )?;
    Ok(made)
}

/// Makes a case: a part of a kind's values with a specimen.
pub fn case(
    alloc: Global,
    definition: &Definition,
    checked: &CheckedLines,
    kind: Kind,
    sort: SortId,
    written: &LineTerm,
    tree: &LineTree,
) -> Result<Case, AllocError>
    requires term { KnowsTerm checked.now written.now }
    requires tree { KnowsTree checked.now tree.now }
    requires names { HasNames checked.now definition.now }
    requires there { (s : ℕ) × HasKindSort definition.now kind s }
    requires fits { (sorts : Name → Name) × CaseFits checked.now sorts kind sort.0 written.now tree.now }
    ensures { IfOk result (λ one. Lasts definition.now (λ full. IsCase full kind sort.0 written.now tree.now one)) }
{
    let mut known: LineVariables = IndexMap::new(alloc);
    let made = term(
        alloc,
        &definition.signature,
        checked,
        &mut known,
        sort,
        written,
    )?;
    let shown = specimen(alloc, definition, checked, &mut known, kind, tree)?;
    Ok(Case {
        term: made,
        specimen: shown,
    })
}

/// Makes a declare row of the space and the list.
pub fn declare_row(
    alloc: Global,
    definition: &Definition,
    checked: &CheckedLines,
    space: &Txt,
    list: &Txt,
    entity: &LineTerm,
    value: &LineTerm,
    tree: &LineTree,
) -> Result<DeclareRow, AllocError>
    requires space { KnowsSpace checked.now space.now }
    requires spaces { IsTrue (is_some (entity_sort checked.now)) }
    requires list { IsTrue (is_list checked.now list.now) }
    requires entity { KnowsTerm checked.now entity.now }
    requires value { KnowsTerm checked.now value.now }
    requires tree { KnowsTree checked.now tree.now }
    requires names { HasNames checked.now definition.now }
    requires form { HasTreeForm tree.now }
    requires sorted { (sorts : Name → Name)
        × SortsTerm checked.now sorts [] (entity_place checked.now space.now) entity.now
        × SortsTerm checked.now sorts []
        (option_and_then (value_place checked.now) (element_place checked.now list.now)) value.now
        × SortsTree checked.now sorts [] (element_place checked.now list.now) tree.now }
    ensures { IfOk result (λ r. Lasts definition.now
        (λ full. IsDeclareRow full space.now list.now entity.now value.now tree.now r)) }
{
    let list = list_named(checked, list);
    let own = list_at(definition, list);
    let space = space_named(checked, space);
    let entities = space_sort(definition, space);
    let values = phylum_sort(definition, own.element);
    let mut known: LineVariables = IndexMap::new(alloc);
    let entity = term(
        alloc,
        &definition.signature,
        checked,
        &mut known,
        entities,
        entity,
    )?;
    let value = term(
        alloc,
        &definition.signature,
        checked,
        &mut known,
        values,
        value,
    )?;
    let kind = Kind::Phylum(own.element);
    let shown = specimen(alloc, definition, checked, &mut known, kind, tree)?;
    Ok(DeclareRow {
        space,
        list,
        term: entity,
        value,
        specimen: shown,
    })
}
