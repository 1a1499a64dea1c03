//! The sorts and kinds of the places of a line.
ghost use Rattle.std.specs.Prelude.{◌≡◌, ◌↔◌, ◌∷◌, [], IfOk, IsTrue, MatchOption, map, option_and_then};
ghost use Rattle.psg_defcheck.specs.Scopes as scopes;
ghost use Rattle.psg_defcheck.specs.Meanings as meanings;
ghost use Rattle.psg_defcheck.specs.Sorting.{place_told, places_told, part_place_told, part_places_told};

use crate::scope::Scope;
use psg_deflines::LineItem;
use psg_terms::Txt;
use std::alloc::{AllocError, Global};

/// What a part of an operator has to be: a tree of a kind, where it is known, a name, a number or a text.
#[derive(Clone, Copy)]
pub enum PartPlace<'a> {
    /// A tree of the phylum or list; none where no line declares it.
    Tree(Option<&'a str>),
    /// A name.
    Name,
    /// A number.
    Number,
    /// A text.
    Text,
}

/// Says whether what has the name may be at the place. Where no line declares the sort or kind of the place, anything
/// may.
pub fn may_stand(place: Option<&str>, name: &str) -> bool
    ensures { IsTrue result ↔ meanings.MayStand (place_told place.entry) name.now }
{
    match place {
        None => true,
        Some(wanted) => name == wanted,
    }
}

/// Says whether a list may be at the place. Where no line declares the kind of the place, it may.
pub fn list_may_stand(scope: &Scope, place: Option<&str>) -> bool
    ensures { IsTrue result ↔ meanings.ListMayStand scope.now (place_told place.entry) }
{
    match place {
        None => true,
        Some(wanted) => scope.is_list(wanted),
    }
}

/// Returns the phylum of the elements of a list at the place.
pub fn elements_place<'a>(scope: &Scope<'a>, place: Option<&str>) -> Option<&'a str>
    ensures { place_told result ≡ meanings.elements_place scope.now (place_told place.entry) }
{
    scope.element_place(place?)
}

/// Returns the sort of the values of trees at the place.
pub fn values_place<'a>(scope: &Scope<'a>, place: Option<&str>) -> Option<&'a str>
    ensures { place_told result ≡ option_and_then (scopes.value_place scope.now) (place_told place.entry) }
{
    scope.value_place(place?)
}

/// Returns the phylum or list that is at the place, where a line declares it.
pub fn kinds_place<'a>(scope: &Scope<'a>, place: Option<&'a str>) -> Option<&'a str>
    ensures { place_told result ≡ option_and_then (scopes.kind_place scope.now) (place_told place.entry) }
{
    scope.kind_place(place?)
}

/// Returns the places of a constructor's arguments.
pub fn sort_places<'a>(
    alloc: Global,
    scope: &Scope<'a>,
    sorts: &'a [Txt],
) -> Result<Vec<Option<&'a str>>, AllocError>
    ensures { IfOk result (λ v. places_told v.items ≡ map (scopes.sort_place scope.now) sorts.now) }
{
    let mut places = Vec::new(alloc);
    for sort in sorts {
        places.push(scope.sort_place(sort.as_str()))?;
    }
    Ok(places)
}

/// Returns the place of an item's column, if it has one.
fn column_place<'a>(scope: &Scope<'a>, item: &'a LineItem) -> Option<Option<&'a str>>
    ensures { MatchOption result (meanings.column_places scope.now (item.now ∷ []) ≡ [])
        (λ p. meanings.column_places scope.now (item.now ∷ []) ≡ place_told p ∷ []) }
{
    match item {
        LineItem::Slot(kind) => Some(scope.value_place(kind.as_str())),
        LineItem::Refers(space) => Some(scope.entity_place(space.as_str())),
        LineItem::Declares(space) => Some(scope.entity_place(space.as_str())),
        _ => None,
    }
}

/// Returns the places of the columns of an operator's rows.
pub fn column_places<'a>(
    alloc: Global,
    scope: &Scope<'a>,
    items: &'a [LineItem],
) -> Result<Vec<Option<&'a str>>, AllocError>
    ensures { IfOk result (λ v. places_told v.items ≡ meanings.column_places scope.now items.now) }
{
    let mut places = Vec::new(alloc);
    for item in items {
        if let Some(place) = column_place(scope, item) {
            places.push(place)?;
        }
    }
    Ok(places)
}

/// Returns the place of an item's part, if it has one.
fn part_place<'a>(scope: &Scope<'a>, item: &'a LineItem) -> Option<PartPlace<'a>>
    ensures { MatchOption result (meanings.part_places scope.now (item.now ∷ []) ≡ [])
        (λ p. meanings.part_places scope.now (item.now ∷ []) ≡ part_place_told p ∷ []) }
{
    match item {
        LineItem::Slot(kind) => Some(PartPlace::Tree(scope.kind_place(kind.as_str()))),
        LineItem::Refers(_) => Some(PartPlace::Name),
        LineItem::Declares(_) => Some(PartPlace::Name),
        LineItem::Number => Some(PartPlace::Number),
        LineItem::Text => Some(PartPlace::Text),
        _ => None,
    }
}

/// Returns the places of the parts of an operator.
pub fn part_places<'a>(
    alloc: Global,
    scope: &Scope<'a>,
    items: &'a [LineItem],
) -> Result<Vec<PartPlace<'a>>, AllocError>
    ensures { IfOk result (λ v. part_places_told v.items ≡ meanings.part_places scope.now items.now) }
{
    let mut places = Vec::new(alloc);
    for item in items {
        if let Some(place) = part_place(scope, item) {
            places.push(place)?;
        }
    }
    Ok(places)
}
