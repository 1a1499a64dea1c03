//! Whether all of a line is at places of its own sorts and kinds.
ghost use Rattle.std.specs.Prelude.{◌≡◌, ◌↔◌, List, IfOk, IsTrue, length, [], option_and_then};
ghost use Rattle.std.specs.List.{AllByRecursion};
ghost use Rattle.std.specs.Option.{option_map};
ghost use Rattle.psg_deflines.specs.declared.lines.Line.{Line as Plain};
ghost use Rattle.psg_defcheck.specs.Scopes as scopes;
ghost use Rattle.psg_defcheck.specs.Meanings as meanings;
ghost use Rattle.psg_defcheck.specs.Tables.{name_told, operator_told};
ghost use Rattle.psg_defcheck.specs.Aboves.{IsAbove};
ghost use Rattle.psg_defcheck.specs.Sorting.{Narrows, place_told};

use crate::above::Above;
use crate::places::{column_places, kinds_place, values_place};
use crate::scope::Scope;
use crate::sorted::{Sorts, sorts_term, sorts_terms};
use crate::sorted_trees::sorts_tree;
use psg_deflines::{Line, LineTerm, LineTree};
use std::alloc::{AllocError, Global};
use std::collections::HashMap;

/// Says whether a row's terms may be at the places of its operator's value and columns.
fn sorts_row<'a>(
    alloc: Global,
    scope: &Scope<'a>,
    above: &Above<'a>,
    sorts: &mut Sorts<'a>,
    head: &'a LineTerm,
    columns: &'a [LineTerm],
) -> Result<bool, AllocError>
    requires head_known { meanings.KnowsTerm scope.now head.now }
    requires head_counted { meanings.CountsTerm scope.now 0 head.now }
    requires known { AllByRecursion (meanings.KnowsTerm scope.now) columns.now }
    requires counted { AllByRecursion (meanings.CountsTerm scope.now 0) columns.now }
    requires count { meanings.IsColumnCount (option_map operator_told above.now.operator) (length columns.now) }
    ensures { IfOk result (Narrows
        (λ of. meanings.SortsRow scope.now of
        (option_map operator_told above.now.operator) head.now columns.now) sorts.old sorts.new) }
{
    let Some(operator) = above.operator else {
        return Ok(true);
    };
    let values = scope.value_place(operator.phylum);
    let head_fits = sorts_term(alloc, scope, sorts, values, head)?;
    if !head_fits {
        return Ok(false);
    }
    let places = column_places(alloc, scope, operator.items)?;
    let fits = sorts_terms(alloc, scope, sorts, places.as_slice(), columns)?;
    Ok(fits)
}

/// Says whether the terms of a cell row may be at the places of the list, its elements and the list again.
fn sorts_cell<'a>(
    alloc: Global,
    scope: &Scope<'a>,
    sorts: &mut Sorts<'a>,
    list: &'a str,
    term: &'a LineTerm,
    element: &'a LineTerm,
    rest: &'a LineTerm,
) -> Result<bool, AllocError>
    requires known { meanings.KnowsTerm scope.now term.now × meanings.KnowsTerm scope.now element.now
        × meanings.KnowsTerm scope.now rest.now }
    requires counted { meanings.CountsTerm scope.now 0 term.now × meanings.CountsTerm scope.now 0 element.now
        × meanings.CountsTerm scope.now 0 rest.now }
    ensures { IfOk result (Narrows
        (λ of. meanings.SortsTerm scope.now of [] (scopes.value_place scope.now list.now) term.now
        × meanings.SortsTerm scope.now of []
        (option_and_then (scopes.value_place scope.now) (scopes.element_place scope.now list.now)) element.now
        × meanings.SortsTerm scope.now of [] (scopes.value_place scope.now list.now) rest.now) sorts.old sorts.new) }
{
    let own = scope.value_place(list);
    let term_fits = sorts_term(alloc, scope, sorts, own, term)?;
    if !term_fits {
        return Ok(false);
    }
    let elements = values_place(scope, scope.element_place(list));
    let element_fits = sorts_term(alloc, scope, sorts, elements, element)?;
    if !element_fits {
        return Ok(false);
    }
    let fits = sorts_term(alloc, scope, sorts, own, rest)?;
    Ok(fits)
}

/// Says whether the term may be at the place, and the specimen at a place of the kind.
fn sorts_by<'a>(
    alloc: Global,
    scope: &Scope<'a>,
    sorts: &mut Sorts<'a>,
    place: Option<&'a str>,
    term: &'a LineTerm,
    kind: Option<&'a str>,
    specimen: &'a LineTree,
) -> Result<bool, AllocError>
    requires known { meanings.KnowsTerm scope.now term.now × meanings.KnowsTree scope.now specimen.now }
    requires counted { meanings.CountsTerm scope.now 0 term.now × meanings.CountsTree scope.now 0 specimen.now }
    ensures { IfOk result (Narrows (λ of. meanings.SortsTerm scope.now of [] (place_told place.entry) term.now
        × meanings.SortsTree scope.now of [] (place_told kind.entry) specimen.now) sorts.old sorts.new) }
{
    let term_fits = sorts_term(alloc, scope, sorts, place, term)?;
    if !term_fits {
        return Ok(false);
    }
    let fits = sorts_tree(alloc, scope, sorts, kind, specimen)?;
    Ok(fits)
}

/// Says whether the term of a hole row and its specimen, if it has one, may be at the places of the kind.
fn sorts_hole<'a>(
    alloc: Global,
    scope: &Scope<'a>,
    sorts: &mut Sorts<'a>,
    kind: &'a str,
    term: &'a LineTerm,
    specimen: &'a Option<LineTree>,
) -> Result<bool, AllocError>
    requires known { meanings.KnowsTerm scope.now term.now × meanings.KnowsBehindBy scope.now specimen.now }
    requires counted { meanings.CountsTerm scope.now 0 term.now × meanings.CountsBehindBy scope.now specimen.now }
    ensures { IfOk result (Narrows
        (λ of. meanings.SortsTerm scope.now of [] (scopes.value_place scope.now kind.now) term.now
        × meanings.SortsBehindBy scope.now of
        (scopes.kind_place scope.now kind.now) specimen.now) sorts.old sorts.new) }
{
    let values = scope.value_place(kind);
    match specimen {
        None => {
            let fits = sorts_term(alloc, scope, sorts, values, term)?;
            Ok(fits)
        }
        Some(tree) => {
            let own = scope.kind_place(kind);
            let fits = sorts_by(alloc, scope, sorts, values, term, own, tree)?;
            Ok(fits)
        }
    }
}

/// Says whether the terms and the specimen of a declare row may be at the places of the space and of the list's
/// elements.
fn sorts_declare<'a>(
    alloc: Global,
    scope: &Scope<'a>,
    sorts: &mut Sorts<'a>,
    space: &str,
    list: &'a str,
    entity: &'a LineTerm,
    value: &'a LineTerm,
    specimen: &'a LineTree,
) -> Result<bool, AllocError>
    requires known { meanings.KnowsTerm scope.now entity.now × meanings.KnowsTerm scope.now value.now
        × meanings.KnowsTree scope.now specimen.now }
    requires counted { meanings.CountsTerm scope.now 0 entity.now × meanings.CountsTerm scope.now 0 value.now
        × meanings.CountsTree scope.now 0 specimen.now }
    ensures { IfOk result (Narrows
        (λ of. meanings.SortsTerm scope.now of [] (scopes.entity_place scope.now space.now) entity.now
        × meanings.SortsTerm scope.now of []
        (option_and_then (scopes.value_place scope.now) (scopes.element_place scope.now list.now)) value.now
        × meanings.SortsTree scope.now of []
        (scopes.element_place scope.now list.now) specimen.now) sorts.old sorts.new) }
{
    let names = scope.entity_place(space);
    let entity_fits = sorts_term(alloc, scope, sorts, names, entity)?;
    if !entity_fits {
        return Ok(false);
    }
    let phylum = scope.element_place(list);
    let values = values_place(scope, phylum);
    let fits = sorts_by(alloc, scope, sorts, values, value, phylum, specimen)?;
    Ok(fits)
}

/// Says whether all of the line may be where it is.
fn sorts_line<'a>(
    alloc: Global,
    scope: &Scope<'a>,
    above: &Above<'a>,
    sorts: &mut Sorts<'a>,
    line: &'a Line,
) -> Result<bool, AllocError>
    requires known { meanings.IsKnown scope.now line.now }
    requires counted { (lines : List Plain) × IsAbove lines above.now × meanings.IsCounted scope.now lines line.now }
    ensures { (lines : List Plain) → IsAbove lines above.now
        → IfOk result (Narrows (λ of. meanings.SortsLine scope.now of lines line.now) sorts.old sorts.new) }
{
    match line {
        Line::Row { head, columns } => {
            let fits = sorts_row(alloc, scope, above, sorts, head, columns.as_slice())?;
            Ok(fits)
        }
        Line::Nil { list, term } => {
            let own = scope.value_place(list.as_str());
            let fits = sorts_term(alloc, scope, sorts, own, term)?;
            Ok(fits)
        }
        Line::Cell {
            list,
            term,
            element,
            rest,
        } => {
            let fits = sorts_cell(alloc, scope, sorts, list.as_str(), term, element, rest)?;
            Ok(fits)
        }
        Line::Hole {
            kind,
            term,
            specimen,
        } => {
            let fits = sorts_hole(alloc, scope, sorts, kind.as_str(), term, specimen)?;
            Ok(fits)
        }
        Line::Case { term, specimen } => {
            let values = values_place(scope, above.hole);
            let kind = kinds_place(scope, above.hole);
            let fits = sorts_by(alloc, scope, sorts, values, term, kind, specimen)?;
            Ok(fits)
        }
        Line::Declare {
            space,
            list,
            entity,
            value,
            specimen,
        } => {
            let space = space.as_str();
            let list = list.as_str();
            let fits = sorts_declare(alloc, scope, sorts, space, list, entity, value, specimen)?;
            Ok(fits)
        }
        _ => Ok(true),
    }
}

/// Says whether each term and specimen of the line is at a place of its own sort or kind, and each variable at places
/// of one sort. Where no line declares the sort or kind of a place, anything may be there. It takes one walk over the
/// line.
pub fn is_sorted<'a>(
    alloc: Global,
    scope: &Scope<'a>,
    above: &Above<'a>,
    line: &'a Line,
) -> Result<bool, AllocError>
    requires known { meanings.IsKnown scope.now line.now }
    requires counted { (lines : List Plain) × IsAbove lines above.now × meanings.IsCounted scope.now lines line.now }
    ensures { (lines : List Plain) → IsAbove lines above.now
        → IfOk result (λ b. IsTrue b ↔ meanings.IsSorted scope.now lines line.now) }
{
    let mut sorts = HashMap::new(alloc);
    let fits = sorts_line(alloc, scope, above, &mut sorts, line)?;
    Ok(fits)
}
