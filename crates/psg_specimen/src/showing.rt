//! Whether a specimen shows all values of its case or of its declare row.
ghost use Rattle.std.specs.Prelude.{◌≡◌, ◌+◌, ◌-◌, ◌^◌, ◌<◌, ◌++◌, ◌∷◌, ◌↔◌, [], IfOk, IfSome, IsTrue, OnOk, Some};
ghost use Rattle.std.specs.Prelude.{length, min};
ghost use Rattle.psg_grammar.specs.declared.types.Definition.{Definition as Language};
ghost use Rattle.psg_grammar.specs.Sound.{IsDeclareRow, IsSound};
ghost use Rattle.psg_grammar.specs.Specimens.{holes_of, tree_of};
ghost use Rattle.psg_completions.specs.General.{it, IsGeneralCase, IsGeneralDeclare};
ghost use Rattle.psg_relation.specs.Choices.{picked};
ghost use Rattle.psg_scope.specs.Headers.{key_of};
ghost use Rattle.psg_eval.specs.Walks.{run};
ghost use Rattle.psg_specimen.specs.Patterns.{IsPatternOf};
ghost use Rattle.psg_specimen.specs.Shown.{FindsKey, IsFirstTerm, IsRowShown, IsSomeCase, value_terms};
ghost use Rattle.psg_specimen.specs.Work.{shown_work};

use crate::holes::add_places;
use crate::room::shown_work;
use psg_eval::Pattern;
use psg_grammar::{Case, DeclareRow, SpecimenHole};
use psg_relation::Rel;
use psg_scope::NameCol;
use psg_terms::matching::{is_instance, same};
use psg_terms::{Room, Term};
use std::alloc::{AllocError, Global};

/// Tests whether the specimen of a case shows all values of the case, by the specimen's pattern: the term of the case
/// with those of the hole places is an instance of the value and the seen values of one of the pattern's rows. A
/// specimen that is a hole place alone shows the values of its own term.
pub(crate) fn shows_case(
    alloc: Global,
    one: &Case,
    pattern: &Option<Pattern>,
    room: &mut Room,
) -> Result<bool, AllocError>
    ensures { IfOk result (λ b. (def : Language) → IsSound def → IsSomeCase def one.now
        → IsPatternOf def (tree_of one.now.specimen) pattern.now → IsTrue b ↔ IsGeneralCase def one.now) }
{
    let mut places = Vec::new(alloc);
    add_places(&one.specimen, &mut places)?;
    match pattern {
        Some(pattern) => {
            let shown = shows_values(alloc, &one.term, places.as_slice(), pattern.rel(), room)?;
            Ok(shown)
        }
        None => Ok(is_first_term(places.as_slice(), &one.term)),
    }
}

/// Says whether a declare row's specimen shows all values of the row, whose entity is that of the key `it` where the
/// specimen has this key in the row's space.
pub(crate) fn shows_declare(
    alloc: Global,
    row: &DeclareRow,
    pattern: &Option<Pattern>,
    room: &mut Room,
) -> Result<bool, AllocError>
    ensures { IfOk result (λ b. (def : Language) → IsSound def → IsDeclareRow def row.now
        → IsPatternOf def (tree_of row.now.specimen) pattern.now → IsTrue b ↔ IsGeneralDeclare def row.now) }
{
    let mut places = Vec::new(alloc);
    add_places(&row.specimen, &mut places)?;
    match pattern {
        Some(pattern) => {
            let shown = shows_element(alloc, row, places.as_slice(), pattern, room)?;
            Ok(shown)
        }
        None => Ok(is_first_term(places.as_slice(), &row.value)),
    }
}

fn shows_element(
    alloc: Global,
    row: &DeclareRow,
    places: &[SpecimenHole],
    pattern: &Pattern,
    room: &mut Room,
) -> Result<bool, AllocError>
    ensures { IfOk result (λ b. (def : Language) → IsSound def → IsDeclareRow def row.now
        → places.now ≡ holes_of row.now.specimen
        → IsPatternOf def (tree_of row.now.specimen) (Some pattern.now) → IsTrue b ↔ IsGeneralDeclare def row.now) }
{
    let names = pattern.header().names.as_slice();
    match it_place(names, row.space) {
        Some(place) => {
            let shown = shows_entity(alloc, row, places, place, pattern.rel(), room)?;
            Ok(shown)
        }
        None => {
            let shown = shows_values(alloc, &row.value, places, pattern.rel(), room)?;
            Ok(shown)
        }
    }
}

/// Tests whether the value and the terms of the hole places are an instance of the first columns of a row.
fn shows_values(
    alloc: Global,
    value: &Term,
    places: &[SpecimenHole],
    rel: &Rel,
    room: &mut Room,
) -> Result<bool, AllocError>
    ensures { IfOk result (λ b. IsTrue b ↔ IsRowShown rel.now (run 0 (length places.now + 1))
        (value_terms value.now places.now)) }
{
    let terms = terms_of(alloc, value, places)?;
    let keep = columns(alloc, terms.len())?;
    let shown = is_shown(alloc, rel, terms.as_slice(), keep.as_slice(), room)?;
    Ok(shown)
}

/// Says whether the rows show the terms and, after the others, the row's entity, in the column of the key at this
/// place.
fn shows_entity(
    alloc: Global,
    row: &DeclareRow,
    places: &[SpecimenHole],
    place: usize,
    rel: &Rel,
    room: &mut Room,
) -> Result<bool, AllocError>
    requires { place < 2 ^ 63 }
    ensures { IfOk result (λ b. IsTrue b ↔ IsRowShown rel.now
        (run 0 (length places.now + 1) ++ (length places.now + 1 + place) ∷ [])
        (value_terms row.now.value places.now ++ row.now.term ∷ [])) }
{
    let mut terms = terms_of(alloc, &row.value, places)?;
    let mut keep = columns(alloc, terms.len())?;
    keep.push(terms.len() + place)?;
    terms.push(row.term.share()?)?;
    let shown = is_shown(alloc, rel, terms.as_slice(), keep.as_slice(), room)?;
    Ok(shown)
}

/// Says whether the first of the places has this term.
fn is_first_term(places: &[SpecimenHole], value: &Term) -> bool
    ensures { IsTrue result ↔ IsFirstTerm value.now places.now }
{
    match places.first() {
        Some(place) => same(&place.term, value),
        None => false,
    }
}

/// Returns the value and the terms of the places, in order.
fn terms_of(alloc: Global, value: &Term, places: &[SpecimenHole]) -> Result<Vec<Term>, AllocError>
    ensures { IfOk result (λ v. v.items ≡ value_terms value.now places.now) }
{
    let mut terms = Vec::new(alloc);
    terms.push(value.share()?)?;
    for place in places {
        terms.push(place.term.share()?)?;
    }
    Ok(terms)
}

/// Returns the numbers below the count.
fn columns(alloc: Global, count: usize) -> Result<Vec<usize>, AllocError>
    ensures { IfOk result (λ v. v.items ≡ run 0 count) }
{
    let mut numbers = Vec::with_capacity(alloc, count)?;
    for number in 0..count {
        numbers.push(number)?;
    }
    Ok(numbers)
}

/// Returns the place of the key `it` of this space, if it is among the keys.
fn it_place(names: &[NameCol], space: u32) -> Option<usize>
    ensures found { FindsKey (it space) names.now result }
    ensures few { IfSome result (λ place. place < 2 ^ 63) }
{
    for number in 0..names.len() {
        if is_it(&names[number], space) {
            return Some(number);
        }
    }
    None
}

fn is_it(key: &NameCol, space: u32) -> bool
    ensures { IsTrue result ↔ (key_of key.now ≡ it space) }
{
    key.space == space && key.name.as_str() == "it"
}

/// Tests whether the terms are an instance of these columns of one of the relation's rows.
fn is_shown(
    alloc: Global,
    rel: &Rel,
    terms: &[Term],
    keep: &[usize],
    room: &mut Room,
) -> Result<bool, AllocError>
    ensures shown { IfOk result (λ b. IsTrue b ↔ IsRowShown rel.now keep.now terms.now) }
    ensures work { OnOk result (room.old.left ≡ room.new.left + min (shown_work rel.now terms.now) (2 ^ 64 - 1)) }
{
    room.spend(shown_work(rel, terms))?;
    let rows = rel.rows();
    for number in 0..rows.len() {
        let general = columns_of(alloc, rows[number].terms(), keep)?;
        if is_instance(alloc, terms, general.as_slice())? {
            return Ok(true);
        }
    }
    Ok(false)
}

/// Returns these columns of a row.
fn columns_of(alloc: Global, terms: &[Term], keep: &[usize]) -> Result<Vec<Term>, AllocError>
    ensures { IfOk result (λ v. v.items ≡ picked terms.now keep.now) }
{
    let mut columns = Vec::with_capacity(alloc, keep.len())?;
    for number in 0..keep.len() {
        add_column(terms, keep[number], &mut columns)?;
    }
    Ok(columns)
}

fn add_column(terms: &[Term], column: usize, columns: &mut Vec<Term>) -> Result<(), AllocError>
    ensures { OnOk result (columns.new.items ≡ columns.old.items ++ picked terms.now (column ∷ [])) }
{
    if let Some(term) = terms.get(column) {
        columns.push(term.share()?)?;
    }
    Ok(())
}
