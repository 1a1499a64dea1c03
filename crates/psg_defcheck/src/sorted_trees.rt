//! Whether the specimens of a line are at places of their own kinds.
ghost use Rattle.std.specs.Prelude.{◌≡◌, IfOk, length, []};
ghost use Rattle.std.specs.List.{AllByRecursion};
ghost use Rattle.psg_defcheck.specs.Scopes as scopes;
ghost use Rattle.psg_defcheck.specs.Meanings as meanings;
ghost use Rattle.psg_defcheck.specs.Parts.{KnowsPart, KnowsEnd, CountsPart, CountsEnd};
ghost use Rattle.psg_defcheck.specs.Sorting.{EndStands, Narrows, PartStands, PartsStand, part_place_told};
ghost use Rattle.psg_defcheck.specs.Sorting.{part_places_told, place_told};

use crate::places::{PartPlace, elements_place, list_may_stand, may_stand, part_places};
use crate::scope::Scope;
use crate::sorted::{Sorts, sorts_term};
use psg_deflines::{LinePart, LinePlace, LineTree, TreeShape};
use std::alloc::{AllocError, Global};

/// Says whether the hole place may be at the place.
fn sorts_place<'a>(
    alloc: Global,
    scope: &Scope<'a>,
    sorts: &mut Sorts<'a>,
    place: Option<&'a str>,
    own: &'a LinePlace,
) -> Result<bool, AllocError>
    requires known { meanings.KnowsTerm scope.now own.now.term }
    requires counted { meanings.CountsTerm scope.now 0 own.now.term }
    ensures { IfOk result (Narrows (λ of. meanings.MayStand (place_told place.entry) own.now.kind
        × meanings.SortsTerm scope.now of []
        (scopes.value_place scope.now own.now.kind) own.now.term) sorts.old sorts.new) }
{
    let kind = own.kind.as_str();
    if !may_stand(place, kind) {
        return Ok(false);
    }
    let values = scope.value_place(kind);
    let fits = sorts_term(alloc, scope, sorts, values, &own.term)?;
    Ok(fits)
}

/// Says whether the rest of a list may be at the place.
fn sorts_end<'a>(
    alloc: Global,
    scope: &Scope<'a>,
    sorts: &mut Sorts<'a>,
    place: Option<&'a str>,
    rest: &'a Option<LinePlace>,
) -> Result<bool, AllocError>
    requires known { KnowsEnd scope.now rest.now }
    requires counted { CountsEnd scope.now rest.now }
    ensures { IfOk result (Narrows
        (λ of. EndStands scope.now of (place_told place.entry) rest.now) sorts.old sorts.new) }
{
    match rest {
        None => Ok(true),
        Some(own) => {
            let fits = sorts_place(alloc, scope, sorts, place, own)?;
            Ok(fits)
        }
    }
}

/// Says whether the part may be at the place.
#[cycle(sorts_tree)]
fn sorts_part<'a>(
    alloc: Global,
    scope: &Scope<'a>,
    sorts: &mut Sorts<'a>,
    place: PartPlace<'a>,
    part: &'a LinePart,
) -> Result<bool, AllocError>
    requires known { KnowsPart scope.now part.now }
    requires counted { CountsPart scope.now part.now }
    ensures { IfOk result (Narrows
        (λ of. PartStands scope.now of (part_place_told place.entry) part.now) sorts.old sorts.new) }
{
    match part {
        LinePart::Tree(tree) => match place {
            PartPlace::Tree(kind) => {
                let fits = sorts_tree(alloc, scope, sorts, kind, tree)?;
                Ok(fits)
            }
            _ => Ok(false),
        },
        LinePart::Name(_) => match place {
            PartPlace::Name => Ok(true),
            _ => Ok(false),
        },
        LinePart::Number(_) => match place {
            PartPlace::Number => Ok(true),
            _ => Ok(false),
        },
        LinePart::Text(_) => match place {
            PartPlace::Text => Ok(true),
            _ => Ok(false),
        },
    }
}

/// Says whether the parts may be at the places, one by one.
#[cycle(sorts_tree)]
fn sorts_parts<'a>(
    alloc: Global,
    scope: &Scope<'a>,
    sorts: &mut Sorts<'a>,
    places: &[PartPlace<'a>],
    parts: &'a [LinePart],
) -> Result<bool, AllocError>
    requires known { AllByRecursion (KnowsPart scope.now) parts.now }
    requires counted { AllByRecursion (CountsPart scope.now) parts.now }
    requires count { length places.now ≡ length parts.now }
    ensures { IfOk result (Narrows
        (λ of. PartsStand scope.now of (part_places_told places.now) parts.now) sorts.old sorts.new) }
{
    for i in 0..parts.len() {
        let fits = sorts_part(alloc, scope, sorts, places[i], &parts[i])?;
        if !fits {
            return Ok(false);
        }
    }
    Ok(true)
}

/// Says whether each of the specimens may be at the place.
#[cycle(sorts_tree)]
fn sorts_trees<'a>(
    alloc: Global,
    scope: &Scope<'a>,
    sorts: &mut Sorts<'a>,
    place: Option<&'a str>,
    trees: &'a [LineTree],
) -> Result<bool, AllocError>
    requires known { AllByRecursion (meanings.KnowsTree scope.now) trees.now }
    requires counted { AllByRecursion (meanings.CountsTree scope.now 0) trees.now }
    ensures { IfOk result (Narrows
        (λ of. AllByRecursion
        (meanings.SortsTree scope.now of [] (place_told place.entry)) trees.now) sorts.old sorts.new) }
{
    for tree in trees {
        let fits = sorts_tree(alloc, scope, sorts, place, tree)?;
        if !fits {
            return Ok(false);
        }
    }
    Ok(true)
}

/// Says whether the specimen may be at the place.
#[cycle(sorts_tree)]
pub fn sorts_tree<'a>(
    alloc: Global,
    scope: &Scope<'a>,
    sorts: &mut Sorts<'a>,
    place: Option<&'a str>,
    tree: &'a LineTree,
) -> Result<bool, AllocError>
    requires known { meanings.KnowsTree scope.now tree.now }
    requires counted { meanings.CountsTree scope.now 0 tree.now }
    ensures { IfOk result (Narrows
        (λ of. meanings.SortsTree scope.now of [] (place_told place.entry) tree.now) sorts.old sorts.new) }
{
    match &tree.shape {
        TreeShape::Operator { name, parts } => {
            let Some(operator) = scope.operator(name.as_str()) else {
                unreachable!()
            };
            if !may_stand(place, operator.phylum) {
                return Ok(false);
            }
            let places = part_places(alloc, scope, operator.items)?;
            let fits = sorts_parts(alloc, scope, sorts, places.as_slice(), parts.as_slice())?;
            Ok(fits)
        }
        TreeShape::List { elements, rest } => {
            if !list_may_stand(scope, place) {
                return Ok(false);
            }
            let end_fits = sorts_end(alloc, scope, sorts, place, rest)?;
            if !end_fits {
                return Ok(false);
            }
            let phylum = elements_place(scope, place);
            let fits = sorts_trees(alloc, scope, sorts, phylum, elements.as_slice())?;
            Ok(fits)
        }
        TreeShape::Place(own) => {
            let fits = sorts_place(alloc, scope, sorts, place, own)?;
            Ok(fits)
        }
    }
}
