//! The hole places of specimens: what is wanted of each, and the first one of a definition of which it is not so.
ghost use Rattle.std.specs.Prelude.{◌≡◌, ◌⊎◌, ◌↔◌, ◌<◌, ◌^◌, IfOk, IsOk, IsTrue, Some, length, slice_get};
ghost use Rattle.psg_grammar.specs.declared.types.Case.{Case as PlainCase};
ghost use Rattle.psg_grammar.specs.declared.types.DeclareRow.{DeclareRow as PlainRow};
ghost use Rattle.psg_grammar.specs.declared.types.HoleRow.{HoleRow as PlainHole};
ghost use Rattle.psg_grammar.specs.Sound.{IsSound};
ghost use Rattle.psg_completions.specs.Places.{IsPart};
ghost use Rattle.psg_specimen.specs.Parts.{IsAmong};
ghost use Rattle.psg_specimen.specs.declared.fault.Site.TheVariants as sites;
ghost use Rattle.psg_specimen.specs.Walks.{Finds, FindsPlace, FindsThree, FindsTwo};
ghost use Rattle.psg_specimen.specs.Wanted.{IsWanted, IsWantedPlace, Wants};

use crate::fault::Site;
use crate::holes::add_places;
use crate::instances::is_of_one_row;
use psg_grammar::{Case, DeclareRow, Definition, HoleRow, Specimen, SpecimenHole};
use psg_terms::matching::same;
use psg_terms::{Node, Term, uncountable};
use std::alloc::{AllocError, Global};

/// What is wanted of the term of a hole place.
#[derive(Clone, Copy)]
pub(crate) enum Wanted {
    /// It is a proper subterm of the case's term, or of the declare row's entity.
    Smaller,
    /// It is an instance of the term of one hole row of its kind.
    OfOneRow,
}

/// Answers the first hole place that is not as wanted, with its number in its specimen: cases of hole rows before
/// declare rows. A place whose number has more than 32 bits fails as if out of memory.
pub(crate) fn first_place(
    alloc: Global,
    definition: &Definition,
    wanted: Wanted,
) -> Result<Option<(Site, u32)>, AllocError>
    requires { IsSound definition.now }
    ensures { IfOk result (FindsPlace (Wants definition.now wanted)) }
{
    let rows = definition.hole_rows.as_slice();
    if let Some((row, (case, place))) = first_in_rows(alloc, definition, wanted, rows)? {
        let number = number_of(place)?;
        return Ok(Some((in_case(row as u32, case as u32), number)));
    }
    let declares = definition.declare_rows.as_slice();
    if let Some((row, place)) = first_in_declares(alloc, definition, wanted, declares)? {
        let number = number_of(place)?;
        return Ok(Some((in_declare(row as u32), number)));
    }
    Ok(None)
}

fn in_case(row: u32, case: u32) -> Site
    ensures { result ≡ sites.Hole row case }
{
    Site::Hole { row, case }
}

fn in_declare(row: u32) -> Site
    ensures { result ≡ sites.Declare row }
{
    Site::Declare { row }
}

/// Returns the number of a place. Exactly where it does not fit into 32 bits, the call fails as if out of memory.
fn number_of(place: usize) -> Result<u32, AllocError>
    ensures number { IfOk result (λ n. n ≡ place) }
    ensures fits { place < 2 ^ 32 → IsOk result }
{
    if place >= 0x1_0000_0000 {
        return Err(uncountable(place));
    }
    Ok(place as u32)
}

/// Answers the first hole row with a case with a hole place that is not as wanted, and the case and the place.
fn first_in_rows(
    alloc: Global,
    definition: &Definition,
    wanted: Wanted,
    rows: &[HoleRow],
) -> Result<Option<(usize, (usize, usize))>, AllocError>
    ensures { IfOk result (FindsThree (λ r c h. (row : PlainHole) → slice_get rows.now r ≡ Some row
        → (one : PlainCase) → slice_get row.cases c ≡ Some one
        → IsWantedPlace definition.now wanted one.specimen one.term h)) }
{
    for number in 0..rows.len() {
        let row = &rows[number];
        if let Some(pair) = first_in_cases(alloc, definition, wanted, row.cases.as_slice())? {
            return Ok(Some((number, pair)));
        }
    }
    Ok(None)
}

/// Answers the first case with a hole place that is not as wanted, and the place.
fn first_in_cases(
    alloc: Global,
    definition: &Definition,
    wanted: Wanted,
    cases: &[Case],
) -> Result<Option<(usize, usize)>, AllocError>
    ensures { IfOk result (FindsTwo (λ c h. (one : PlainCase) → slice_get cases.now c ≡ Some one
        → IsWantedPlace definition.now wanted one.specimen one.term h)) }
{
    for number in 0..cases.len() {
        let case = &cases[number];
        if let Some(place) = first_unwanted(
            alloc,
            definition,
            wanted,
            &case.specimen,
            &case.term,
        )? {
            return Ok(Some((number, place)));
        }
    }
    Ok(None)
}

/// Answers the first declare row with a hole place that is not as wanted, and the place.
fn first_in_declares(
    alloc: Global,
    definition: &Definition,
    wanted: Wanted,
    rows: &[DeclareRow],
) -> Result<Option<(usize, usize)>, AllocError>
    ensures { IfOk result (FindsTwo (λ k h. (d : PlainRow) → slice_get rows.now k ≡ Some d
        → IsWantedPlace definition.now wanted d.specimen d.term h)) }
{
    for number in 0..rows.len() {
        let row = &rows[number];
        if let Some(place) = first_unwanted(alloc, definition, wanted, &row.specimen, &row.term)? {
            return Ok(Some((number, place)));
        }
    }
    Ok(None)
}

/// Answers the first hole place of a specimen that is not as wanted.
fn first_unwanted(
    alloc: Global,
    definition: &Definition,
    wanted: Wanted,
    specimen: &Specimen,
    bound: &Term,
) -> Result<Option<usize>, AllocError>
    ensures { IfOk result (Finds (IsWantedPlace definition.now wanted specimen.now bound.now)) }
{
    let mut places = Vec::new(alloc);
    add_places(specimen, &mut places)?;
    let places = places.as_slice();
    for number in 0..places.len() {
        if !is_wanted(alloc, definition, wanted, &places[number], bound)? {
            return Ok(Some(number));
        }
    }
    Ok(None)
}

fn is_wanted(
    alloc: Global,
    definition: &Definition,
    wanted: Wanted,
    place: &SpecimenHole,
    bound: &Term,
) -> Result<bool, AllocError>
    ensures { IfOk result (λ b. IsTrue b ↔ IsWanted definition.now wanted place.now bound.now) }
{
    match wanted {
        Wanted::Smaller => Ok(is_part(&place.term, bound)),
        Wanted::OfOneRow => {
            let found = is_of_one_row(alloc, definition, place)?;
            Ok(found)
        }
    }
}

/// Says whether the part is a proper subterm. Only subterms that are as large as the part are compared with it, so each
/// place of the whole is read at most twice.
#[cycle(part)]
pub(crate) fn is_part(part: &Term, whole: &Term) -> bool
    ensures { IsTrue result ↔ IsPart part.now whole.now }
{
    match whole.node() {
        Node::Con { args, .. } => is_in_any(part, args.as_slice()),
        Node::Var { .. } => false,
    }
}

/// Says whether the part is one of the terms or a proper subterm of one.
#[cycle(part)]
fn is_in_any(part: &Term, terms: &[Term]) -> bool
    ensures { IsTrue result ↔ IsAmong part.now terms.now }
{
    for number in 0..terms.len() {
        if is_in(part, &terms[number]) {
            return true;
        }
    }
    false
}

#[cycle(part)]
fn is_in(part: &Term, term: &Term) -> bool
    ensures { IsTrue result ↔ (part.now ≡ term.now) ⊎ IsPart part.now term.now }
{
    if term.symbols() < part.symbols() {
        return false;
    }
    if term.symbols() > part.symbols() {
        return is_part(part, term);
    }
    is_equal_or_part(part, term)
}

#[cycle(part)]
fn is_equal_or_part(part: &Term, term: &Term) -> bool
    ensures { IsTrue result ↔ (part.now ≡ term.now) ⊎ IsPart part.now term.now }
{
    if same(part, term) {
        return true;
    }
    is_part(part, term)
}
