//! A term put for a variable.
ghost use Rattle.std.specs.Prelude.{◌≡◌, ◌≤◌, ◌^◌, IfOk, IsOk, IsTrue, map};
ghost use Rattle.std.specs.Prelude.{◌↔◌, ◌||◌};
ghost use Rattle.psg_terms.specs.Canonical.{is_noted, variables, variables_of};
ghost use Rattle.psg_terms.specs.Instances.{substitute};
ghost use Rattle.psg_terms.specs.Weight.{symbols_of};
ghost use Rattle.psg_explain.specs.Equations.{put_for, rewritten};

use psg_terms::matching::same;
use psg_terms::{Node, SortId, Term, too_many_symbols};
use std::alloc::{AllocError, Global};

/// How many variables and constructors a term has at most that is compared or rewritten. A part that is shared is read
/// as often as it occurs, so without a bound work on small terms with much sharing would not end.
const MOST_SYMBOLS: u64 = 0x10_0000;

/// A variable, by its sort and number.
#[derive(Clone, Copy)]
pub(crate) struct Variable {
    pub(crate) sort: SortId,
    pub(crate) number: u32,
}

/// Fails as if out of memory where the term has more than 2^20 variables and constructors.
pub(crate) fn bounded(term: &Term) -> Result<(), AllocError>
    ensures fits { symbols_of term.now ≤ 2 ^ 20 → IsOk result }
{
    let symbols = term.symbols();
    if symbols > MOST_SYMBOLS {
        return Err(too_many_symbols(symbols));
    }
    Ok(())
}

/// Says whether the terms are equal. It fails as if out of memory where one has more than 2^20 variables and
/// constructors.
pub(crate) fn alike(one: &Term, other: &Term) -> Result<bool, AllocError>
    ensures { IfOk result (λ b. IsTrue b ↔ (one.now ≡ other.now)) }
{
    bounded(one)?;
    bounded(other)?;
    Ok(same(one, other))
}

/// Says whether the variable occurs in the term.
#[cycle(occurs)]
pub(crate) fn occurs(variable: Variable, term: &Term) -> bool
    ensures { result ≡ is_noted (variable.sort.0, variable.number) (variables term.now) }
{
    if term.above() <= variable.number as u64 {
        return false;
    }
    match term.node() {
        Node::Var { sort, number } => variable.sort.0 == sort.0 && variable.number == *number,
        Node::Con { args, .. } => occurs_among(variable, args.as_slice()),
    }
}

/// Says whether the variable occurs in one of the terms.
#[cycle(occurs)]
fn occurs_among(variable: Variable, row: &[Term]) -> bool
    ensures { result ≡ is_noted (variable.sort.0, variable.number) (variables_of row.now) }
{
    for i in 0..row.len() {
        if occurs(variable, &row[i]) {
            return true;
        }
    }
    false
}

/// Says whether the variable occurs in a side of the equation.
pub(crate) fn occurs_in(variable: Variable, equation: &(Term, Term)) -> bool
    ensures { result ≡ (is_noted (variable.sort.0, variable.number) (variables equation.now.0)
        || is_noted (variable.sort.0, variable.number) (variables equation.now.1)) }
{
    if occurs(variable, &equation.0) {
        return true;
    }
    occurs(variable, &equation.1)
}

/// Returns the term with the other one in place of the variable. A part without it is shared.
#[cycle(put)]
pub(crate) fn put(
    alloc: Global,
    variable: Variable,
    by: &Term,
    term: &Term,
) -> Result<Term, AllocError>
    ensures { IfOk result
        (λ t. t ≡ substitute (put_for (variable.sort.0, variable.number) by.now) term.now) }
{
    if term.above() <= variable.number as u64 {
        let copy = term.share()?;
        return Ok(copy);
    }
    match term.node() {
        Node::Var { sort, number } => {
            if variable.sort.0 == sort.0 && variable.number == *number {
                let copy = by.share()?;
                return Ok(copy);
            }
            let copy = term.share()?;
            Ok(copy)
        }
        Node::Con { con, args } => {
            let parts = put_all(alloc, variable, by, args.as_slice())?;
            let copy = Term::apply(alloc, *con, parts)?;
            Ok(copy)
        }
    }
}

/// Returns the terms with the other one in place of the variable.
#[cycle(put)]
fn put_all(
    alloc: Global,
    variable: Variable,
    by: &Term,
    row: &[Term],
) -> Result<Vec<Term>, AllocError>
    ensures { IfOk result
        (λ v. v.items ≡ map (substitute (put_for (variable.sort.0, variable.number) by.now)) row.now) }
{
    let mut copies = Vec::with_capacity(alloc, row.len())?;
    for i in 0..row.len() {
        let copy = put(alloc, variable, by, &row[i])?;
        copies.push(copy)?;
    }
    Ok(copies)
}

/// Returns the equation with the term in place of the variable. It fails as if out of memory where a side has more than
/// 2^20 variables and constructors.
pub(crate) fn put_in(
    alloc: Global,
    variable: Variable,
    by: &Term,
    equation: &(Term, Term),
) -> Result<(Term, Term), AllocError>
    ensures { IfOk result
        (λ e. e ≡ rewritten (variable.sort.0, variable.number) by.now equation.now) }
{
    bounded(&equation.0)?;
    bounded(&equation.1)?;
    let left = put(alloc, variable, by, &equation.0)?;
    let right = put(alloc, variable, by, &equation.1)?;
    Ok((left, right))
}

/// Returns the row with the term in place of the variable. It fails as if out of memory where a term has more than 2^20
/// variables and constructors.
pub(crate) fn put_in_row(
    alloc: Global,
    variable: Variable,
    by: &Term,
    row: &[Term],
) -> Result<Vec<Term>, AllocError>
    ensures { IfOk result
        (λ v. v.items ≡ map (substitute (put_for (variable.sort.0, variable.number) by.now)) row.now) }
{
    for i in 0..row.len() {
        bounded(&row[i])?;
    }
    put_all(alloc, variable, by, row)
}

/// Returns one more owner of each side.
pub(crate) fn shared(equation: &(Term, Term)) -> Result<(Term, Term), AllocError>
    ensures { IfOk result (λ e. e ≡ equation.now) }
{
    let left = equation.0.share()?;
    let right = equation.1.share()?;
    Ok((left, right))
}

/// Returns one more owner of each of the terms.
pub(crate) fn shared_row(alloc: Global, row: &[Term]) -> Result<Vec<Term>, AllocError>
    ensures { IfOk result (λ v. v.items ≡ row.now) }
{
    let mut copies = Vec::with_capacity(alloc, row.len())?;
    for term in row {
        copies.push(term.share()?)?;
    }
    Ok(copies)
}
