//! Rows with new numbers for their variables.
ghost use Rattle.std.specs.Prelude.{◌≡◌, ◌+◌, ◌<◌, ◌^◌, ◌∷◌, [], false, true, IfOk, IfSome, IsOk, IsTrue};
ghost use Rattle.std.specs.Prelude.{MatchOption, List, ℕ};
ghost use Rattle.psg_terms.specs.Terms.{Term as Plain, variable};
ghost use Rattle.psg_terms.specs.Canonical.{Variable, is_noted, noted, IsCanonical};
ghost use Rattle.psg_terms.specs.Instances.{HasSameInstances};
ghost use Rattle.psg_terms.specs.Signature.{HaveSorts, AreTerms};
ghost use Rattle.psg_terms.specs.Renaming.{keys, place, numbered_from, GoesOn, Renumbered};

use crate::counting::uncountable;
use crate::known::Known;
use crate::sorts::{Signature, SortId};
use crate::term::{Node, Term};
use indexmap::IndexSet;
use std::alloc::{AllocError, Global};

/// A variable, by its sort and number.
#[derive(Clone, Copy, Debug, PartialEq, Eq, Hash)]
pub struct Key {
    /// The sort of the variable.
    pub sort: SortId,
    /// The number of the variable. Variables of one row are equal where sort and number are.
    pub number: u32,
}

/// Returns the place of a variable among known ones.
pub fn place_of(known: &IndexSet<Key>, sort: SortId, number: u32) -> Option<usize>
    ensures { MatchOption result (is_noted (sort.0, number) (keys known.now.keys) ≡ false)
        (λ i. (is_noted (sort.0, number) (keys known.now.keys) ≡ true)
        × (i ≡ place (sort.0, number) (keys known.now.keys))) }
{
    known.get_index_of(&Key { sort, number })
}

/// Notes a variable among the known ones, unless it is one of them, and returns its place there.
pub fn note(known: &mut IndexSet<Key>, sort: SortId, number: u32) -> Result<usize, AllocError>
    ensures noted { IfOk result (λ i. keys known.new.keys ≡ noted (keys known.old.keys) (sort.0, number)) }
    ensures place { IfOk result (λ i. i ≡ place (sort.0, number) (keys known.new.keys)) }
{
    let added = known.insert_full(Key { sort, number })?;
    Ok(added.0)
}

/// Returns the variable with another number. Where it is the same number, the variable is shared.
fn with_number(
    alloc: Global,
    term: &Term,
    sort: SortId,
    number: u32,
    fresh: u32,
) -> Result<Term, AllocError>
    requires { term.now ≡ variable sort.0 number }
    ensures { IfOk result (λ t. t ≡ variable sort.0 fresh) }
{
    if number == fresh {
        let copy = term.share()?;
        return Ok(copy);
    }
    let copy = Term::var(alloc, sort, fresh)?;
    Ok(copy)
}

/// Returns the term with numbers from 1 on for its variables. Where it has none, it is shared.
#[cycle(renumber)]
fn renumber(
    alloc: Global,
    sig: &Signature,
    known: &mut Known,
    term: &Term,
) -> Result<Term, AllocError>
    ensures { IfOk result (λ t. Renumbered sig.now 0 known.old known.new (term.now ∷ []) (t ∷ [])) }
{
    if term.above() == 0 {
        let copy = term.share()?;
        return Ok(copy);
    }
    match term.node() {
        Node::Var { sort, number } => match sig.constant_of(*sort) {
            Some(con) => {
                let copy = Term::apply(alloc, con, Vec::new(alloc))?;
                Ok(copy)
            }
            None => {
                let place = known.note(*sort, *number)?;
                let fresh = number_of(0, place)?;
                let copy = with_number(alloc, term, *sort, *number, fresh)?;
                Ok(copy)
            }
        },
        Node::Con { con, args } => {
            let parts = renumber_all(alloc, sig, known, args.as_slice())?;
            let copy = Term::apply(alloc, *con, parts)?;
            Ok(copy)
        }
    }
}

/// Renumbers the terms of a row, in order.
#[cycle(renumber)]
fn renumber_all(
    alloc: Global,
    sig: &Signature,
    known: &mut Known,
    row: &[Term],
) -> Result<Vec<Term>, AllocError>
    ensures { IfOk result (λ v. Renumbered sig.now 0 known.old known.new row.now v.items) }
{
    let mut copies = Vec::with_capacity(alloc, row.len())?;
    for i in 0..row.len() {
        let copy = renumber(alloc, sig, known, &row[i])?;
        copies.push(copy)?;
    }
    Ok(copies)
}

/// Returns the number of a place. Exactly where it does not fit into 32 bits, there are too many variables, and the
/// call fails as if out of memory.
pub fn number_of(base: usize, place: usize) -> Result<u32, AllocError>
    ensures number { IfOk result (λ n. n ≡ base + place + 1) }
    ensures fits { base + place + 1 < 2 ^ 32 → IsOk result }
{
    if base >= 0xffff_ffff {
        return Err(uncountable(base));
    }
    if place >= 0xffff_ffff {
        return Err(uncountable(place));
    }
    let sum = base + place;
    if sum >= 0xffff_ffff {
        return Err(uncountable(sum));
    }
    Ok((sum + 1) as u32)
}

/// Says whether the variable goes on a numbering from 1: it is the next one, which is known afterwards, or a known one.
fn goes_on(known: &mut Vec<SortId>, sort: SortId, number: u32) -> Result<bool, AllocError>
    ensures { IfOk result (λ b. IsTrue b
        → noted (numbered_from 1 known.old.items) (sort.0, number) ≡ numbered_from 1 known.new.items) }
{
    let count = known.len();
    if number as usize == count + 1 {
        known.push(sort)?;
        return Ok(true);
    }
    if number == 0 || number as usize > count {
        return Ok(false);
    }
    let place = number as usize - 1;
    Ok(known[place].0 == sort.0)
}

/// Says whether the term's variables go on a numbering from 1 by first occurrence, with one-constant sorts written out.
/// It needs no table, and passes over what has no variable.
#[cycle(recognise)]
fn is_numbered(sig: &Signature, known: &mut Vec<SortId>, term: &Term) -> Result<bool, AllocError>
    ensures { IfOk result (λ b. IsTrue b → GoesOn sig.now known.old.items known.new.items (term.now ∷ [])) }
{
    if term.above() == 0 {
        return Ok(true);
    }
    match term.node() {
        Node::Var { sort, number } => match sig.constant_of(*sort) {
            Some(_) => Ok(false),
            None => {
                let next = goes_on(known, *sort, *number)?;
                Ok(next)
            }
        },
        Node::Con { args, .. } => {
            let all = are_numbered(sig, known, args.as_slice())?;
            Ok(all)
        }
    }
}

/// Says whether the variables of a row go on the numbering, term by term.
#[cycle(recognise)]
fn are_numbered(sig: &Signature, known: &mut Vec<SortId>, row: &[Term]) -> Result<bool, AllocError>
    ensures { IfOk result (λ b. IsTrue b → GoesOn sig.now known.old.items known.new.items row.now) }
{
    for i in 0..row.len() {
        if !is_numbered(sig, known, &row[i])? {
            return Ok(false);
        }
    }
    Ok(true)
}

/// Returns one more owner of each of the terms.
fn shared(alloc: Global, row: &[Term]) -> Result<Vec<Term>, AllocError>
    ensures { IfOk result (λ v. v.items ≡ row.now) }
{
    let mut copies = Vec::with_capacity(alloc, row.len())?;
    for term in row {
        copies.push(term.share()?)?;
    }
    Ok(copies)
}

/// Returns the row as it is, where the walk finds that it is canonical.
fn as_it_is(alloc: Global, sig: &Signature, row: &[Term]) -> Result<Option<Vec<Term>>, AllocError>
    ensures same { IfOk result (λ o. IfSome o (λ r. r.items ≡ row.now)) }
    ensures canonical { IfOk result (λ o. IfSome o (λ _. IsCanonical sig.now row.now)) }
{
    let mut known = Vec::new(alloc);
    if !are_numbered(sig, &mut known, row)? {
        return Ok(None);
    }
    let copies = shared(alloc, row)?;
    Ok(Some(copies))
}

/// Returns the row renumbered by a table of its variables.
fn numbered_anew(alloc: Global, sig: &Signature, row: &[Term]) -> Result<Vec<Term>, AllocError>
    ensures { IfOk result (λ r. (known : List Variable) × Renumbered sig.now 0 [] known row.now r.items) }
{
    let mut known = Known::of(alloc, row)?;
    let copies = renumber_all(alloc, sig, &mut known, row)?;
    Ok(copies)
}

/// Returns the row with its variables numbered from 1 by first occurrence and one-constant sorts written out, in two
/// walks at most. A row that is canonical is given back as it is: by `only`, where the other row is the row itself.
/// Parts without variables are shared, so a walk takes one step for each of them.
pub fn canonical(alloc: Global, sig: &Signature, row: &[Term]) -> Result<Vec<Term>, AllocError>
    requires { AreTerms sig.now row.now }
    ensures canonical { IfOk result (λ r. IsCanonical sig.now r.items) }
    ensures same { IfOk result (λ r. HasSameInstances sig.now r.items row.now) }
    ensures sorted { IfOk result (λ r. (ss : List ℕ) → HaveSorts sig.now row.now ss → HaveSorts sig.now r.items ss) }
    // Canonical rows with the same ground instances are equal.
    ensures only { IfOk result (λ r. (other : List Plain) (ss : List ℕ) → HaveSorts sig.now row.now ss
        → HaveSorts sig.now other ss → IsCanonical sig.now other → HasSameInstances sig.now other row.now
        → other ≡ r.items) }
{
    sig.sound();
    if let Some(given) = as_it_is(alloc, sig, row)? {
        return Ok(given);
    }
    let copies = numbered_anew(alloc, sig, row)?;
    Ok(copies)
}
