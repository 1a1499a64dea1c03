//! Whether the terms and specimens of a line are at places of their own sorts and kinds.
ghost use Rattle.std.specs.Prelude.{◌≡◌, ◌↔◌, IfOk, IsTrue, length, None, List, Some, [], option_and_then};
ghost use Rattle.std.specs.List.{AllByRecursion};
ghost use Rattle.std.specs.Option.{option_map};
ghost use Rattle.psg_deflines.specs.declared.lines.Line.{Line as Plain};
ghost use Rattle.psg_defcheck.specs.Scopes as scopes;
ghost use Rattle.psg_defcheck.specs.Meanings as meanings;
ghost use Rattle.psg_defcheck.specs.Parts.{KnowsPart, KnowsEnd, CountsPart, CountsEnd};
ghost use Rattle.psg_defcheck.specs.Tables.{operator_told};
ghost use Rattle.psg_defcheck.specs.Sorting.{EndStands, Narrows, PartStands, PartsStand, part_place_told};
ghost use Rattle.psg_defcheck.specs.Sorting.{part_places_told, place_told, places_told};

use crate::places::{
    PartPlace, elements_place, list_may_stand, may_stand, part_places, sort_places,
};
use crate::scope::Scope;
use psg_deflines::{LinePart, LinePlace, LineTerm, LineTree, TermShape, TreeShape};
use std::alloc::{AllocError, Global};
use std::collections::HashMap;

/// The sorts of the variables of a line so far: a variable has the sort of its first place of known sort.
pub type Sorts<'a> = HashMap<&'a str, &'a str>;

/// Says whether the variable may be at the place. It then has the sort of the place.
fn sorts_variable<'a>(
    sorts: &mut Sorts<'a>,
    place: Option<&'a str>,
    name: &'a str,
) -> Result<bool, AllocError>
    ensures { IfOk result (Narrows
        (λ of. meanings.MayStand (place_told place.entry) (of name.now)) sorts.old sorts.new) }
{
    let Some(wanted) = place else {
        return Ok(true);
    };
    if let Some(sort) = sorts.get(name).copied() {
        return Ok(sort == wanted);
    }
    sorts.insert(name, wanted)?;
    Ok(true)
}

/// Says whether the term may be at the place.
#[cycle(sorts_term)]
pub fn sorts_term<'a>(
    alloc: Global,
    scope: &Scope<'a>,
    sorts: &mut Sorts<'a>,
    place: Option<&'a str>,
    term: &'a LineTerm,
) -> Result<bool, AllocError>
    requires known { meanings.KnowsTerm scope.now term.now }
    requires counted { meanings.CountsTerm scope.now 0 term.now }
    ensures { IfOk result (Narrows
        (λ of. meanings.SortsTerm scope.now of [] (place_told place.entry) term.now) sorts.old sorts.new) }
{
    match &term.shape {
        TermShape::Variable(name) => {
            let fitting = sorts_variable(sorts, place, name.as_str())?;
            Ok(fitting)
        }
        TermShape::Named { name, args } => {
            let Some(constructor) = scope.constructor(name.as_str()) else {
                unreachable!()
            };
            if !may_stand(place, constructor.sort) {
                return Ok(false);
            }
            let places = sort_places(alloc, scope, constructor.decl.args.as_slice())?;
            let fitting = sorts_terms(alloc, scope, sorts, places.as_slice(), args.as_slice())?;
            Ok(fitting)
        }
    }
}

/// Says whether the terms may be at the places, one by one.
#[cycle(sorts_term)]
pub fn sorts_terms<'a>(
    alloc: Global,
    scope: &Scope<'a>,
    sorts: &mut Sorts<'a>,
    places: &[Option<&'a str>],
    terms: &'a [LineTerm],
) -> Result<bool, AllocError>
    requires known { AllByRecursion (meanings.KnowsTerm scope.now) terms.now }
    requires counted { AllByRecursion (meanings.CountsTerm scope.now 0) terms.now }
    requires count { length places.now ≡ length terms.now }
    ensures { IfOk result (Narrows
        (λ of. meanings.SortAll scope.now of (places_told places.now) terms.now) sorts.old sorts.new) }
{
    for i in 0..terms.len() {
        let fits = sorts_term(alloc, scope, sorts, places[i], &terms[i])?;
        if !fits {
            return Ok(false);
        }
    }
    Ok(true)
}
