//! The values with which a row becomes given columns.
ghost use Rattle.std.specs.Prelude.{◌≡◌, [], ℕ, List, MatchOption, map, true, IfOk};
ghost use Rattle.psg_terms.specs.Terms.{Term as Plain, variable as plain_variable};
ghost use Rattle.psg_terms.specs.Instances.{IsInstance, Substitution, substitute};
ghost use Rattle.psg_terms.specs.Canonical.{IsNumberedFrom, Variable as PlainVariable, noted, noted_all, variables};
ghost use Rattle.psg_terms.specs.Canonical.{variables_of};
ghost use Rattle.psg_explain.specs.Equations.{Derives, Equation};
ghost use Rattle.psg_explain.specs.Fitted.{IsCoverable, IsFitting, IsSolved, IsUnfitting, IsValued};
ghost use Rattle.psg_explain.specs.Plans.{AreCanonical};
ghost use Rattle.psg_explain.specs.Solutions.{IsFailed};
ghost use Rattle.psg_explain.specs.Verdicts.{AreMade, IsRight, Rewrites};

use crate::applying::{are_under, rewritten};
use crate::derived::{Derived, counted};
use crate::given::Case;
use crate::indexing::{Index, number_of};
use crate::putting::{alike, bounded};
use crate::refutation::{Reason, Rule, Verdict};
use crate::solver::{Solution, derive};
use psg_terms::{Node, Seq, Term};
use std::alloc::{AllocError, Global};

/// Puts the value for the variable of the number; says whether it has no other one. The variables of a canonical row
/// are in the order of their numbers.
fn fit_variable(values: &mut Vec<Term>, number: u32, special: &Term) -> Result<bool, AllocError>
    ensures { IfOk result (λ b. (f : Substitution) (known : List PlainVariable) (s : ℕ)
        → IsValued f known values.old.items → IsNumberedFrom 1 (noted known (s, number)) → special.now ≡ f s number
        → (b ≡ true) × IsValued f (noted known (s, number)) values.new.items) }
{
    bounded(special)?;
    if number == 0 {
        return Ok(false);
    }
    let place = number as usize - 1;
    if place == values.len() {
        values.push(special.share()?)?;
        return Ok(true);
    }
    match values.as_slice().get(place) {
        Some(value) => {
            let same = alike(value, special)?;
            Ok(same)
        }
        None => Ok(false),
    }
}

/// Finds the values with which the general term becomes the special one, beside those found before; says whether there
/// are some. Where there are, these are the ones.
#[cycle(fits)]
fn fit(values: &mut Vec<Term>, general: &Term, special: &Term) -> Result<bool, AllocError>
    ensures { IfOk result (λ b. (f : Substitution) (known : List PlainVariable) → IsValued f known values.old.items
        → IsNumberedFrom 1 (noted_all known (variables general.now)) → special.now ≡ substitute f general.now
        → (b ≡ true) × IsValued f (noted_all known (variables general.now)) values.new.items) }
{
    match general.node() {
        Node::Var { number, .. } => {
            let met = fit_variable(values, *number, special)?;
            Ok(met)
        }
        Node::Con { con, args } => match special.node() {
            Node::Con {
                con: other,
                args: parts,
            } => {
                if con.0 != other.0 {
                    return Ok(false);
                }
                let met = fit_all(values, args.as_slice(), parts.as_slice())?;
                Ok(met)
            }
            Node::Var { .. } => Ok(false),
        },
    }
}

/// Finds the values for the terms of two rows, place by place.
#[cycle(fits)]
fn fit_all(values: &mut Vec<Term>, general: &[Term], special: &[Term]) -> Result<bool, AllocError>
    ensures { IfOk result (λ b. (f : Substitution) (known : List PlainVariable) → IsValued f known values.old.items
        → IsNumberedFrom 1 (noted_all known (variables_of general.now))
        → special.now ≡ map (substitute f) general.now
        → (b ≡ true) × IsValued f (noted_all known (variables_of general.now)) values.new.items) }
{
    if general.len() != special.len() {
        return Ok(false);
    }
    for i in 0..general.len() {
        let met = fit(values, &general[i], &special[i])?;
        if !met {
            return Ok(false);
        }
    }
    Ok(true)
}

/// Returns the values with which the canonical row becomes the columns, if there are some.
fn values_for(
    alloc: Global,
    row: &[Term],
    columns: &[Term],
) -> Result<Option<Vec<Term>>, AllocError>
    requires { IsNumberedFrom 1 (noted_all [] (variables_of row.now)) }
    ensures { IfOk result
        (λ o. MatchOption o (IsInstance columns.now row.now → ⊥) (λ v. AreMade v.items row.now columns.now)) }
{
    let mut values = Vec::new(alloc);
    let found = fit_all(&mut values, row, columns)?;
    if !found {
        return Ok(None);
    }
    let met = are_under(values.as_slice(), row, columns)?;
    if met { Ok(Some(values)) } else { Ok(None) }
}

/// A row that becomes the columns, by its number, and the values of its variables from 1 on.
#[derive(Drop)]
pub(crate) struct Fitting {
    pub(crate) to: usize,
    pub(crate) values: Vec<Term>,
}

/// Tries the row at the place.
fn fitting_at(
    alloc: Global,
    rows: &[Seq<Term>],
    to: usize,
    columns: &[Term],
) -> Result<Option<Fitting>, AllocError>
    requires { AreCanonical rows.now }
    ensures { IfOk result (λ o. (t : Fitting) → o ≡ Some t → IsFitting rows.now columns.now t) }
{
    if rows.len() <= to {
        return Ok(None);
    }
    let row = rows[to].as_slice();
    let found = values_for(alloc, row, columns)?;
    match found {
        Some(values) => Ok(Some(Fitting { to, values })),
        None => Ok(None),
    }
}

/// Finds a row that becomes the columns among those with their number.
fn fitting_alike(
    alloc: Global,
    rows: &[Seq<Term>],
    index: &Index,
    columns: &[Term],
) -> Result<Option<Fitting>, AllocError>
    requires { AreCanonical rows.now }
    ensures { IfOk result (λ o. (t : Fitting) → o ≡ Some t → IsFitting rows.now columns.now t) }
{
    let number = number_of(columns);
    for (other, to) in index.from(number) {
        if *other != number {
            return Ok(None);
        }
        let found = fitting_at(alloc, rows, *to, columns)?;
        if found.is_some() {
            return Ok(found);
        }
    }
    Ok(None)
}

/// Finds the first row that becomes the columns.
fn first_fitting(
    alloc: Global,
    rows: &[Seq<Term>],
    columns: &[Term],
) -> Result<Option<Fitting>, AllocError>
    requires { AreCanonical rows.now }
    ensures { IfOk result (λ o. MatchOption o (IsUnfitting rows.now columns.now) (IsFitting rows.now columns.now)) }
{
    for to in 0..rows.len() {
        let row = rows[to].as_slice();
        let found = values_for(alloc, row, columns)?;
        match found {
            Some(values) => return Ok(Some(Fitting { to, values })),
            None => {}
        }
    }
    Ok(None)
}

/// Finds a row that becomes the columns. Where there is one with their number, no other row is tried.
fn some_fitting(
    alloc: Global,
    rows: &[Seq<Term>],
    index: &Index,
    columns: &[Term],
) -> Result<Option<Fitting>, AllocError>
    requires { AreCanonical rows.now }
    ensures { IfOk result (λ o. MatchOption o (IsUnfitting rows.now columns.now) (IsFitting rows.now columns.now)) }
{
    let alike = fitting_alike(alloc, rows, index, columns)?;
    match alike {
        Some(found) => Ok(Some(found)),
        None => {
            let found = first_fitting(alloc, rows, columns)?;
            Ok(found)
        }
    }
}

/// Returns the verdict on a case where the derived equation of the number cannot be solved.
fn failed(rules: Seq<Rule>, number: u32, reason: &Reason) -> Verdict
    ensures { (rows : List (List Plain)) (given all : List Equation) (columns : List Plain) → Derives given rules all
        → IsFailed all number reason.now → IsRight rows given columns result }
{
    match reason {
        Reason::Clash(..) => Verdict::Clash { rules, number },
        Reason::Circle(..) => Verdict::Circle { rules, number },
    }
}

/// Makes the verdict that one of the rows covers the case, whose columns become these by the bindings.
fn fitted(
    alloc: Global,
    rows: &[Seq<Term>],
    index: &Index,
    case: &Case,
    derived: Derived,
    bindings: Vec<u32>,
    made: &[Term],
) -> Result<Verdict, AllocError>
    requires canonical { AreCanonical rows.now }
    requires covered { IsCoverable rows.now case.now.given case.now.columns }
    requires solved { IsSolved case.now.given derived bindings.items }
    requires made { Rewrites derived.all.items bindings.items case.now.columns made.now }
    ensures { IfOk result (IsRight rows.now case.now.given case.now.columns) }
{
    let found = some_fitting(alloc, rows, index, made)?;
    match found {
        Some(found) => {
            let to = counted(found.to)?;
            Ok(Verdict::Covered {
                to,
                rules: Seq::of(derived.rules),
                bindings: Seq::of(bindings),
                values: Seq::of(found.values),
            })
        }
        None => unreachable!(),
    }
}

/// Makes the verdict on a case whose equations have a solution.
fn covered_case(
    alloc: Global,
    rows: &[Seq<Term>],
    index: &Index,
    case: &Case,
    derived: Derived,
    bindings: Vec<u32>,
) -> Result<Verdict, AllocError>
    requires canonical { AreCanonical rows.now }
    requires covered { IsCoverable rows.now case.now.given case.now.columns }
    requires solved { IsSolved case.now.given derived bindings.items }
    ensures { IfOk result (IsRight rows.now case.now.given case.now.columns) }
{
    let columns = case.columns.as_slice();
    let answer = rewritten(alloc, derived.all.as_slice(), bindings.as_slice(), columns)?;
    match answer {
        Some(made) => {
            let verdict = fitted(alloc, rows, index, case, derived, bindings, made.as_slice())?;
            Ok(verdict)
        }
        None => unreachable!(),
    }
}

/// Makes the verdict on a case of a step with these rows, of which one covers the case where its equations have a
/// solution. The index is to be that of the rows; another one takes longer, and the verdict is right.
pub(crate) fn verdict(
    alloc: Global,
    rows: &[Seq<Term>],
    index: &Index,
    case: &Case,
) -> Result<Verdict, AllocError>
    requires canonical { AreCanonical rows.now }
    requires covered { IsCoverable rows.now case.now.given case.now.columns }
    ensures { IfOk result (IsRight rows.now case.now.given case.now.columns) }
{
    let solution = derive(alloc, case.given.as_slice())?;
    let Solution {
        derived,
        bindings,
        failure,
    } = solution;
    match failure {
        Some(failure) => {
            let rules = Seq::of(derived.rules);
            Ok(failed(rules, failure.number, &failure.reason))
        }
        None => {
            let verdict = covered_case(alloc, rows, index, case, derived, bindings)?;
            Ok(verdict)
        }
    }
}
