//! The cases of hole rows.
ghost use Rattle.std.specs.Prelude.{◌≡◌, ◌<◌, ◌∷◌, ◌↔◌, [], List, ℕ, length, false, IfOk, IsTrue};
ghost use Rattle.std.specs.List.{AllByRecursion};
ghost use Rattle.psg_terms.specs.Terms.{Term as Plain, symbol};
ghost use Rattle.psg_terms.specs.Signature.{HasSort};
ghost use Rattle.psg_terms.specs.Kept.{numbers_of};
ghost use Rattle.psg_terms.specs.Marks.{con_numbers};
ghost use Rattle.psg_terms.specs.declared.canonical.Key.{Key as PlainKey};
ghost use Rattle.psg_grammar.specs.Sound.{IsSound};
ghost use Rattle.psg_completions.specs.Cases.{AreCases, AreDifferent, CasesFor, HasCases, IsOver};
ghost use Rattle.psg_specimen.specs.Variables.{AreMet, has_key, IsDifferent, IsWhole};
ghost use Rattle.psg_specimen.specs.Walks.{Finds};

use psg_grammar::{Case, Definition, HoleRow};
use psg_terms::canonical::Key;
use psg_terms::matching::same;
use psg_terms::{ConId, Node, Signature, SortId, Term};
use std::alloc::{AllocError, Global};
use std::collections::HashSet;

/// Returns the first hole row whose cases are neither one with its term, nor one for each constructor of its variable's
/// sort.
pub(crate) fn first_uncased(
    alloc: Global,
    definition: &Definition,
) -> Result<Option<usize>, AllocError>
    requires { IsSound definition.now }
    ensures { IfOk result (Finds (HasCases definition.now)) }
{
    let rows = definition.hole_rows.as_slice();
    for number in 0..rows.len() {
        if !has_cases(alloc, &definition.signature, &rows[number])? {
            return Ok(Some(number));
        }
    }
    Ok(None)
}

fn has_cases(alloc: Global, sig: &Signature, row: &HoleRow) -> Result<bool, AllocError>
    requires { (s : ℕ) × HasSort sig.now row.now.term s }
    ensures { IfOk result (λ b. IsTrue b ↔ AreCases sig.now row.now) }
{
    let cases = row.cases.as_slice();
    if is_whole(cases, &row.term) {
        return Ok(true);
    }
    match row.term.node() {
        Node::Var { sort, .. } => {
            let each = cases_for(alloc, sig, cases, sig.constructors_of(*sort))?;
            Ok(each)
        }
        Node::Con { .. } => Ok(false),
    }
}

/// Says whether there is one case alone, with the term.
fn is_whole(cases: &[Case], term: &Term) -> bool
    ensures { IsTrue result ↔ IsWhole cases.now term.now }
{
    if cases.len() != 1 {
        return false;
    }
    same(&cases[0].term, term)
}

fn cases_for(
    alloc: Global,
    sig: &Signature,
    cases: &[Case],
    constructors: &[ConId],
) -> Result<bool, AllocError>
    requires { AllByRecursion (λ c. c < length sig.now.symbols) (con_numbers constructors.now) }
    ensures { IfOk result (λ b. IsTrue b ↔ CasesFor sig.now cases.now (con_numbers constructors.now)) }
{
    if cases.len() != constructors.len() {
        return Ok(false);
    }
    for number in 0..cases.len() {
        if !is_over(alloc, sig, &constructors[number], &cases[number].term)? {
            return Ok(false);
        }
    }
    Ok(true)
}

/// Says whether the term is the constructor over different variables. It reads each argument once.
pub(crate) fn is_over(
    alloc: Global,
    sig: &Signature,
    con: &ConId,
    term: &Term,
) -> Result<bool, AllocError>
    requires { con.now.0 < length sig.now.symbols }
    ensures { IfOk result (λ b. IsTrue b ↔ IsOver sig.now con.now.0 term.now) }
{
    match term.node() {
        Node::Con { con: made, args } => {
            if made.0 != con.0 {
                return Ok(false);
            }
            let sorts = sig.constructor(*con).args.as_slice();
            let different = are_different(alloc, sig, args.as_slice(), sorts)?;
            Ok(different)
        }
        Node::Var { .. } => Ok(false),
    }
}

/// Says whether the terms are different variables, each of its sort. It walks from the last one, and keeps those met in
/// a set.
fn are_different(
    alloc: Global,
    sig: &Signature,
    terms: &[Term],
    sorts: &[SortId],
) -> Result<bool, AllocError>
    ensures { IfOk result (λ b. IsTrue b ↔ AreDifferent sig.now terms.now (numbers_of sorts.now)) }
{
    if terms.len() != sorts.len() {
        return Ok(false);
    }
    let mut met = no_keys(alloc);
    for done in 0..terms.len() {
        let place = terms.len() - 1 - done;
        if !is_different(sig, &mut met, &terms[place], &sorts[place])? {
            return Ok(false);
        }
    }
    Ok(true)
}

fn no_keys(alloc: Global) -> HashSet<Key>
    ensures { (k : PlainKey) → has_key result k ≡ false }
{
    HashSet::new(alloc)
}

/// Says whether an argument is the constant of its sort, or a variable that was not met.
fn is_different(
    sig: &Signature,
    met: &mut HashSet<Key>,
    arg: &Term,
    sort: &SortId,
) -> Result<bool, AllocError>
    ensures test { IfOk result (λ b. (rest : List Plain) → AreMet (has_key met.old) rest
        → IsTrue b ↔ IsDifferent sig.now arg.now sort.now.0 rest) }
    ensures met { IfOk result (λ b. (rest : List Plain) → AreMet (has_key met.old) rest
        → IsTrue b → AreMet (has_key met.new) (arg.now ∷ rest)) }
{
    if let Some(con) = sig.constant_of(*sort) {
        return Ok(is_constant(arg, con));
    }
    match arg.node() {
        Node::Var { sort: own, number } => {
            let key = Key {
                sort: *own,
                number: *number,
            };
            if own.0 != sort.0 {
                return Ok(false);
            }
            if met.contains(&key) {
                return Ok(false);
            }
            met.insert(key)?;
            Ok(true)
        }
        Node::Con { .. } => Ok(false),
    }
}

pub(crate) fn is_constant(term: &Term, con: ConId) -> bool
    ensures { IsTrue result ↔ (term.now ≡ symbol con.0) }
{
    match term.node() {
        Node::Con { con: made, args } => {
            if made.0 != con.0 {
                return false;
            }
            args.as_slice().is_empty()
        }
        Node::Var { .. } => false,
    }
}
