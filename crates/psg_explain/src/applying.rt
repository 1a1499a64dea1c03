//! Rules applied to equations, and verdicts tested by them.
ghost use Rattle.std.specs.Prelude.{◌≡◌, ◌↔◌, ◌<◌, ℕ, List, IfOk, IsTrue, length};
ghost use Rattle.std.specs.Prelude.{MatchOption, Some, slice_get};
ghost use Rattle.std.specs.List.{AllByRecursion};
ghost use Rattle.psg_terms.specs.Canonical.{IsCanonical};
ghost use Rattle.psg_terms.specs.Signature.{Signature as PlainSignature};
ghost use Rattle.psg_terms.specs.Terms.{Term as Plain, variable as plain_variable};
ghost use Rattle.psg_explain.specs.Equations.{Derives, Equation, Gives, IsCircle, IsClash, IsInside, IsPart};
ghost use Rattle.psg_explain.specs.declared.refutation.Verdict.TheVariants.{Circle, Clash, Covered};
ghost use Rattle.psg_explain.specs.Verdicts.{AreMade, IsDerived, IsMade, IsMadeBy, IsRight, Rewrites};

use crate::given::Case;
use crate::putting::{Variable, alike, bounded, occurs, put_in, put_in_row, shared};
use crate::refutation::{Rule, Verdict};
use psg_terms::{Node, Seq, Term};
use std::alloc::{AllocError, Global};

/// Returns the variable that the term is; nothing where it is none.
pub(crate) fn variable_of(term: &Term) -> Option<Variable>
    ensures { MatchOption result ((s n : ℕ) → term.now ≡ plain_variable s n → ⊥)
        (λ v. term.now ≡ plain_variable v.sort.0 v.number) }
{
    match term.node() {
        Node::Var { sort, number } => Some(Variable {
            sort: *sort,
            number: *number,
        }),
        Node::Con { .. } => None,
    }
}

/// Returns the arguments of the number of both sides, where they have one constructor and that many arguments.
fn part(equation: &(Term, Term), number: usize) -> Result<Option<(Term, Term)>, AllocError>
    ensures { IfOk result (λ o. MatchOption o ((e : Equation) → IsPart equation.now number e → ⊥)
        (λ e. IsPart equation.now number e)) }
{
    let Node::Con { con, args } = equation.0.node() else {
        return Ok(None);
    };
    let Node::Con {
        con: other,
        args: parts,
    } = equation.1.node()
    else {
        return Ok(None);
    };
    if con.0 != other.0 {
        return Ok(None);
    }
    let Some(left) = args.as_slice().get(number) else {
        return Ok(None);
    };
    let Some(right) = parts.as_slice().get(number) else {
        return Ok(None);
    };
    let one = left.share()?;
    let two = right.share()?;
    Ok(Some((one, two)))
}

/// Returns the equation that the rule gives of the given ones and of those before it; nothing where it gives none.
fn given_by(
    alloc: Global,
    given: &[(Term, Term)],
    before: &[(Term, Term)],
    rule: Rule,
) -> Result<Option<(Term, Term)>, AllocError>
    ensures { IfOk result (λ o. MatchOption o ((e : Equation) → Gives given.now before.now rule e → ⊥)
        (λ e. Gives given.now before.now rule e)) }
{
    match rule {
        Rule::Given(i) => match given.get(i as usize) {
            Some(equation) => {
                let copy = shared(equation)?;
                Ok(Some(copy))
            }
            None => Ok(None),
        },
        Rule::Part(n, k) => match before.get(n as usize) {
            Some(equation) => {
                let found = part(equation, k as usize)?;
                Ok(found)
            }
            None => Ok(None),
        },
        Rule::Flip(n) => match before.get(n as usize) {
            Some(equation) => {
                let one = equation.1.share()?;
                let two = equation.0.share()?;
                Ok(Some((one, two)))
            }
            None => Ok(None),
        },
        Rule::Replace(n, m) => {
            if n == m {
                return Ok(None);
            }
            let Some(whole) = before.get(n as usize) else {
                return Ok(None);
            };
            let Some(binding) = before.get(m as usize) else {
                return Ok(None);
            };
            let Some(variable) = variable_of(&binding.0) else {
                return Ok(None);
            };
            let made = put_in(alloc, variable, &binding.1, whole)?;
            Ok(Some(made))
        }
    }
}

/// Returns the rule at the place.
fn rule_at(rules: &[Rule], place: usize) -> Rule
    requires { place < length rules.now }
    ensures { slice_get rules.now place ≡ Some result }
{
    rules[place]
}

/// Returns the equations that the rules give one after the other; nothing where one gives none.
fn all_given_by(
    alloc: Global,
    given: &[(Term, Term)],
    rules: &[Rule],
) -> Result<Option<Vec<(Term, Term)>>, AllocError>
    ensures { IfOk result (λ o. MatchOption o ((all : List Equation) → Derives given.now rules.now all → ⊥)
        (λ v. Derives given.now rules.now v.items)) }
{
    let mut all = Vec::with_capacity(alloc, rules.len())?;
    for i in 0..rules.len() {
        let rule = rule_at(rules, i);
        let before = all.as_slice();
        let found = given_by(alloc, given, before, rule)?;
        let Some(equation) = found else {
            return Ok(None);
        };
        all.push(equation)?;
    }
    Ok(Some(all))
}

/// Says whether the sides have different constructors.
fn is_clash(equation: &(Term, Term)) -> bool
    ensures { IsTrue result ↔ IsClash equation.now }
{
    match equation.0.node() {
        Node::Con { con, .. } => match equation.1.node() {
            Node::Con { con: other, .. } => con.0 != other.0,
            Node::Var { .. } => false,
        },
        Node::Var { .. } => false,
    }
}

/// Says whether one term is a variable that is properly inside the other one.
fn stands_inside(one: &Term, other: &Term) -> bool
    ensures { IsTrue result ↔ IsInside one.now other.now }
{
    match variable_of(one) {
        Some(variable) => match other.node() {
            Node::Con { .. } => occurs(variable, other),
            Node::Var { .. } => false,
        },
        None => false,
    }
}

/// Says whether a variable on one side is properly inside the other side.
fn is_circle(equation: &(Term, Term)) -> Result<bool, AllocError>
    ensures { IfOk result (λ b. IsTrue b ↔ IsCircle equation.now) }
{
    bounded(&equation.0)?;
    bounded(&equation.1)?;
    Ok(stands_inside(&equation.0, &equation.1) || stands_inside(&equation.1, &equation.0))
}

/// Returns the number at the place.
fn number_at(numbers: &[u32], place: usize) -> u32
    requires { place < length numbers.now }
    ensures { slice_get numbers.now place ≡ Some result }
{
    numbers[place]
}

/// Returns the columns rewritten by the equations of these numbers one after the other; nothing where one is not there
/// or has no variable on its left.
pub(crate) fn rewritten(
    alloc: Global,
    all: &[(Term, Term)],
    bindings: &[u32],
    columns: &[Term],
) -> Result<Option<Vec<Term>>, AllocError>
    ensures { IfOk result
        (λ o. MatchOption o ((made : List Plain) → Rewrites all.now bindings.now columns.now made → ⊥)
        (λ v. Rewrites all.now bindings.now columns.now v.items)) }
{
    let mut made = crate::putting::shared_row(alloc, columns)?;
    for i in 0..bindings.len() {
        let number = number_at(bindings, i);
        let Some(binding) = all.get(number as usize) else {
            return Ok(None);
        };
        let Some(variable) = variable_of(&binding.0) else {
            return Ok(None);
        };
        made = put_in_row(alloc, variable, &binding.1, made.as_slice())?;
    }
    Ok(Some(made))
}

/// Says whether the term is the general one with these values for its variables from 1 on, each of which has one.
#[cycle(under)]
fn is_under(values: &[Term], general: &Term, special: &Term) -> Result<bool, AllocError>
    ensures { IfOk result (λ b. IsTrue b ↔ IsMade values.now general.now special.now) }
{
    match general.node() {
        Node::Var { number, .. } => {
            if *number == 0 {
                return Ok(false);
            }
            let Some(value) = values.get(*number as usize - 1) else {
                return Ok(false);
            };
            let met = alike(value, special)?;
            Ok(met)
        }
        Node::Con { con, args } => match special.node() {
            Node::Con {
                con: other,
                args: parts,
            } => {
                if con.0 != other.0 {
                    return Ok(false);
                }
                let met = are_under(values, args.as_slice(), parts.as_slice())?;
                Ok(met)
            }
            Node::Var { .. } => Ok(false),
        },
    }
}

/// Says whether the terms are the general ones with these values, place by place.
#[cycle(under)]
pub(crate) fn are_under(
    values: &[Term],
    general: &[Term],
    special: &[Term],
) -> Result<bool, AllocError>
    ensures { IfOk result (λ b. IsTrue b ↔ AreMade values.now general.now special.now) }
{
    if general.len() != special.len() {
        return Ok(false);
    }
    for i in 0..general.len() {
        let met = is_under(values, &general[i], &special[i])?;
        if !met {
            return Ok(false);
        }
    }
    Ok(true)
}

/// Says whether the case's columns, rewritten by the derived equations of these numbers, are the row with these values.
fn is_covered(
    alloc: Global,
    case: &Case,
    row: &[Term],
    rules: &[Rule],
    bindings: &[u32],
    values: &[Term],
) -> Result<bool, AllocError>
    ensures { IfOk result
        (λ b. IsTrue b ↔ IsMadeBy case.now.given case.now.columns row.now rules.now bindings.now values.now) }
{
    let given = case.given.as_slice();
    let columns = case.columns.as_slice();
    let derived = all_given_by(alloc, given, rules)?;
    let Some(all) = derived else {
        return Ok(false);
    };
    let equations = all.as_slice();
    let changed = rewritten(alloc, equations, bindings, columns)?;
    let Some(made) = changed else {
        return Ok(false);
    };
    let terms = made.as_slice();
    let met = are_under(values, row, terms)?;
    Ok(met)
}

/// Returns the derived equation of the number; nothing where a rule gives none, or there are fewer.
fn derived_at(
    alloc: Global,
    case: &Case,
    rules: &[Rule],
    number: u32,
) -> Result<Option<(Term, Term)>, AllocError>
    ensures { IfOk result (λ o. MatchOption o ((e : Equation) → IsDerived case.now.given rules.now number e → ⊥)
        (λ e. IsDerived case.now.given rules.now number e)) }
{
    let given = case.given.as_slice();
    let derived = all_given_by(alloc, given, rules)?;
    let Some(all) = derived else {
        return Ok(None);
    };
    let equations = all.as_slice();
    let Some(equation) = equations.get(number as usize) else {
        return Ok(None);
    };
    let copy = shared(equation)?;
    Ok(Some(copy))
}

/// Says whether the case is covered by the claimed row of the number.
fn covers(
    alloc: Global,
    rows: &[Seq<Term>],
    case: &Case,
    to: u32,
    rules: &[Rule],
    bindings: &[u32],
    values: &[Term],
) -> Result<bool, AllocError>
    requires { AllByRecursion (λ (row : List Plain). (sig : PlainSignature) × IsCanonical sig row) rows.now }
    ensures { IfOk result (λ b. IsTrue b ↔ IsRight rows.now case.now.given case.now.columns
        (Covered to rules.now bindings.now values.now)) }
{
    let Some(row) = rows.get(to as usize) else {
        return Ok(false);
    };
    let terms = row.as_slice();
    let met = is_covered(alloc, case, terms, rules, bindings, values)?;
    Ok(met)
}

/// Says whether the derived equation of the number has different constructors.
fn clashes(alloc: Global, case: &Case, rules: &[Rule], number: u32) -> Result<bool, AllocError>
    ensures { IfOk result (λ b. (rows : List (List Plain))
        → IsTrue b ↔ IsRight rows case.now.given case.now.columns (Clash rules.now number)) }
{
    let found = derived_at(alloc, case, rules, number)?;
    let Some(equation) = found else {
        return Ok(false);
    };
    let met = is_clash(&equation);
    Ok(met)
}

/// Says whether in the derived equation of the number a variable is properly inside the other side.
fn circles(alloc: Global, case: &Case, rules: &[Rule], number: u32) -> Result<bool, AllocError>
    ensures { IfOk result (λ b. (rows : List (List Plain))
        → IsTrue b ↔ IsRight rows case.now.given case.now.columns (Circle rules.now number)) }
{
    let found = derived_at(alloc, case, rules, number)?;
    let Some(equation) = found else {
        return Ok(false);
    };
    let met = is_circle(&equation)?;
    Ok(met)
}

/// Says whether the verdict on the case is right for the claimed rows, which are canonical.
pub(crate) fn is_right(
    alloc: Global,
    rows: &[Seq<Term>],
    case: &Case,
    verdict: &Verdict,
) -> Result<bool, AllocError>
    requires { AllByRecursion (λ (row : List Plain). (sig : PlainSignature) × IsCanonical sig row) rows.now }
    ensures { IfOk result (λ b. IsTrue b ↔ IsRight rows.now case.now.given case.now.columns verdict.now) }
{
    match verdict {
        Verdict::Covered {
            to,
            rules,
            bindings,
            values,
        } => {
            let derived = rules.as_slice();
            let numbers = bindings.as_slice();
            let terms = values.as_slice();
            let covered = covers(alloc, rows, case, *to, derived, numbers, terms)?;
            Ok(covered)
        }
        Verdict::Clash { rules, number } => {
            let derived = rules.as_slice();
            let clash = clashes(alloc, case, derived, *number)?;
            Ok(clash)
        }
        Verdict::Circle { rules, number } => {
            let derived = rules.as_slice();
            let circle = circles(alloc, case, derived, *number)?;
            Ok(circle)
        }
    }
}
