//! Hole places, and the ends of lists, from parts of a line.
ghost use Rattle.std.specs.Prelude.{ℕ, ◌≡◌, ◌∷◌, List, IfOk, MatchOption, MatchBool, codes, option_map, length, drop};
ghost use Rattle.std.specs.Prelude.{◌≤◌};
ghost use Rattle.psg_deflines.specs.Parts.{texts};
ghost use Rattle.psg_deflines.specs.TermWalks.{Parts};
ghost use Rattle.psg_deflines.specs.TreeWalks.{GoesOn};
ghost use Rattle.psg_deflines.specs.TreePieces.{HasNoHead, HasNoPlace, IsPlaceFound, HasNoEnd, IsEndFound, CanEnd};
ghost use Rattle.psg_deflines.specs.TreePieces.{place_of};

use crate::names::{is, kind_name};
use crate::term_reading::{TermRead, line_term};
use crate::terms::LineTerm;
use crate::trees::LinePlace;
use psg_terms::Txt;
use std::alloc::{AllocError, Global};

/// A hole place, and how many parts it takes. There is no place where its term is nested too deep.
#[derive(Drop)]
pub struct PlaceRead {
    /// The place, if it is kept.
    pub place: Option<LinePlace>,
    /// The number of parts that it takes.
    pub taken: usize,
}

/// What follows the last element of a list: the place of the other elements, if there is one. The place is not kept
/// where its term is nested too deep.
#[derive(Drop)]
pub struct ListEnd {
    /// The place of the other elements, if there is one that is kept.
    pub rest: Option<LinePlace>,
    /// Whether the term of the place is nested too deep.
    pub deep: bool,
}

/// The end of a list, and how many parts it takes.
#[derive(Drop)]
pub struct EndRead {
    /// The end.
    pub end: ListEnd,
    /// The number of parts that it takes.
    pub taken: usize,
}

/// Returns the parts after the word, if they begin with it.
pub fn behind<'a>(parts: &'a [&'a [u8]], word: &str) -> Option<&'a [&'a [u8]]>
    ensures { MatchOption result ((rest : Parts) → texts parts.now ≡ word.now ∷ rest → ⊥)
        (λ r. texts parts.now ≡ word.now ∷ texts r.now) }
{
    let (first, rest) = parts.split_first()?;
    if is(first, word) { Some(rest) } else { None }
}

/// Returns the parts without the first `taken` ones.
pub fn rest_behind<'a>(parts: &'a [&'a [u8]], taken: usize) -> &'a [&'a [u8]]
    requires { taken ≤ length (texts parts.now) }
    ensures { texts result.now ≡ drop taken (texts parts.now) }
{
    let (_, rest) = parts.split_at(taken);
    rest
}

/// Returns the name of the kind of a hole place, and the parts after its comma.
fn place_head<'a>(parts: &'a [&'a [u8]]) -> Option<(&'a [u8], &'a [&'a [u8]])>
    ensures { MatchOption result (HasNoHead (texts parts.now))
        (λ r. texts parts.now ≡ codes "hole" ∷ codes "(" ∷ r.0.now ∷ codes "," ∷ texts r.1.now) }
{
    let opened = behind(parts, "hole")?;
    let inside = behind(opened, "(")?;
    let (kind, rest) = inside.split_first()?;
    let term = behind(rest, ",")?;
    Some((*kind, term))
}

/// Returns the place of the kind with the values of the term, if the term is kept.
fn kept_place(kind: Txt, term: Option<LineTerm>) -> Option<LinePlace>
    ensures { result ≡ option_map (place_of kind) term }
{
    match term {
        Some(term) => Some(LinePlace { kind, term }),
        None => None,
    }
}

/// Reads the hole place with which the parts begin, and how many parts it takes; `None` where they begin with none.
pub fn line_place(alloc: Global, parts: &[&[u8]]) -> Result<Option<PlaceRead>, AllocError>
    ensures { IfOk result (λ o. MatchOption o (HasNoPlace (texts parts.now)) (IsPlaceFound (texts parts.now))) }
{
    let Some((name, inside)) = place_head(parts) else {
        return Ok(None);
    };
    let Some(kind) = kind_name(alloc, name)? else {
        return Ok(None);
    };
    let Some(read) = line_term(alloc, inside)? else {
        return Ok(None);
    };
    let TermRead { term, taken } = read;
    let Some(_) = behind(rest_behind(inside, taken), ")") else {
        return Ok(None);
    };
    let place = kept_place(kind, term);
    Ok(Some(PlaceRead {
        place,
        taken: taken + 5,
    }))
}

/// Says whether the parts begin as the end of a list does.
pub fn can_end(parts: &[&[u8]]) -> bool
    ensures { MatchBool result (CanEnd (texts parts.now)) (GoesOn (texts parts.now)) }
{
    let Some((first, _)) = parts.split_first() else {
        return false;
    };
    is(first, "]") || is(first, "|")
}

/// Reads the end of a list with which the parts begin: a bracket, and before it perhaps the place of the other elements
/// after a bar; `None` where they begin with none.
pub fn list_end(alloc: Global, parts: &[&[u8]]) -> Result<Option<EndRead>, AllocError>
    ensures { IfOk result (λ o. MatchOption o (HasNoEnd (texts parts.now)) (IsEndFound (texts parts.now))) }
{
    if behind(parts, "]").is_some() {
        let end = ListEnd {
            rest: None,
            deep: false,
        };
        return Ok(Some(EndRead { end, taken: 1 }));
    }
    let Some(inside) = behind(parts, "|") else {
        return Ok(None);
    };
    let Some(read) = line_place(alloc, inside)? else {
        return Ok(None);
    };
    let PlaceRead { place, taken } = read;
    let Some(_) = behind(rest_behind(inside, taken), "]") else {
        return Ok(None);
    };
    let deep = place.is_none();
    let end = ListEnd { rest: place, deep };
    Ok(Some(EndRead {
        end,
        taken: taken + 2,
    }))
}
