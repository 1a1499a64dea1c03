//! Why the rows and pairs of rows of the last step make none.
ghost use Rattle.std.specs.Prelude.{◌≡◌, ◌+◌, ◌-◌, ◌<◌, ◌≤◌, length, take, IfOk, None, Some};
ghost use Rattle.std.specs.List.{AllByRecursion};
ghost use Rattle.psg_grammar.specs.Fragments.{Fragment};
ghost use Rattle.psg_grammar.specs.Paths.{node_at};
ghost use Rattle.psg_cache.specs.Notes.{IsFormed};
ghost use Rattle.psg_explain.specs.LastReasons.{AreCaseReasons, AreLastReasons, IsReasonOf};
ghost use Rattle.psg_explain.specs.Reasons.{IsReason};
ghost use Rattle.psg_explain.specs.Reached.{IsFirst, IsReady, IsSpan, IsUnsolved};
ghost use Rattle.psg_explain.specs.Refutations.{ClaimTo, Refutes};
ghost use Rattle.psg_explain.specs.Walks.{At};

use crate::casing::cases_after;
use crate::checking::claims_before;
use crate::given::Case;
use crate::putting::shared;
use crate::reasons::reason_in;
use crate::refutation::{CaseReason, Claim, Reason, Refutation, Subject};
use crate::stages::Stage;
use crate::staging::stages_of;
use psg_grammar::Definition;
use psg_specimen::Language;
use psg_terms::{Seq, Term};
use psg_tree::{Path, Tree, at};
use std::alloc::{AllocError, Global};

/// The first given equation with which there is no common solution, and why.
#[derive(Drop)]
struct First {
    number: usize,
    reason: Reason,
}

/// That many of the given equations have a common solution, and that many have none, and why.
#[derive(Drop)]
struct Span {
    low: usize,
    high: usize,
    reason: Reason,
}

/// Returns the equations before the place.
fn equations_before(given: &[(Term, Term)], place: usize) -> &[(Term, Term)]
    requires { place ≤ length given.now }
    ensures { result.now ≡ take place given.now }
{
    &given[..place]
}

/// Halves the distance of the two numbers.
fn halved(alloc: Global, given: &[(Term, Term)], span: Span) -> Result<Span, AllocError>
    requires span { IsSpan given.now span }
    requires wide { span.low + 1 < span.high }
    ensures span { IfOk result (IsSpan given.now) }
    ensures smaller { IfOk result (λ s. s.high - s.low < span.high - span.low) }
{
    let middle = span.low + (span.high - span.low) / 2;
    let front = equations_before(given, middle);
    let found = reason_in(alloc, front)?;
    match found {
        Some(reason) => Ok(Span {
            low: span.low,
            high: middle,
            reason,
        }),
        None => Ok(Span {
            low: middle,
            high: span.high,
            reason: span.reason,
        }),
    }
}

/// Finds the first given equation with which there is no common solution; there is one. It halves the equations each
/// time.
fn first_failing(alloc: Global, given: &[(Term, Term)]) -> Result<First, AllocError>
    requires { IsReason given.now None → ⊥ }
    ensures { IfOk result (IsFirst given.now) }
{
    let found = reason_in(alloc, given)?;
    let Some(whole) = found else { unreachable!() };
    let mut span = Span {
        low: 0,
        high: given.len(),
        reason: whole,
    };
    while span.low + 1 < span.high {
        let next = halved(alloc, given, span)?;
        span = next;
    }
    Ok(First {
        number: span.low,
        reason: span.reason,
    })
}

/// Returns the subject once more.
fn copied(subject: &Subject) -> Result<Subject, AllocError>
    ensures { IfOk result (λ s. s ≡ subject.now) }
{
    match subject {
        Subject::Value => Ok(Subject::Value),
        Subject::Key { space, name } => {
            let shared = name.share()?;
            Ok(Subject::Key {
                space: *space,
                name: shared,
            })
        }
    }
}

/// Returns why the case has no solution.
fn reason_of(alloc: Global, case: &Case) -> Result<CaseReason, AllocError>
    requires { IsUnsolved case.now }
    ensures { IfOk result (IsReasonOf case.now) }
{
    let given = case.given.as_slice();
    let subjects = case.subjects.as_slice();
    let first = first_failing(alloc, given)?;
    let number = first.number;
    let sides = shared(&given[number])?;
    let subject = copied(&subjects[number])?;
    Ok(CaseReason {
        label: case.label,
        number,
        subject,
        left: sides.0,
        right: sides.1,
        reason: first.reason,
    })
}

/// Returns why each of the cases has no solution.
fn reasons_of(alloc: Global, cases: &[Case]) -> Result<Vec<CaseReason>, AllocError>
    requires { AllByRecursion IsUnsolved cases.now }
    ensures { IfOk result (λ v. AreCaseReasons cases.now v.items) }
{
    let mut told = Vec::with_capacity(alloc, cases.len())?;
    for i in 0..cases.len() {
        let one = reason_of(alloc, &cases[i])?;
        told.push(one)?;
    }
    Ok(told)
}

/// Returns why each case of the last step has no solution, where these are the steps and the claims.
fn reasons_after(
    alloc: Global,
    definition: &Definition,
    stages: &[Stage],
    claims: &[Claim],
) -> Result<Vec<CaseReason>, AllocError>
    requires { (last : At) × IsReady definition.now claims.now stages.now last }
    ensures { IfOk result (λ told. (last : At) → IsReady definition.now claims.now stages.now last
        → AreCaseReasons last.cases told.items) }
{
    let count = claims.len();
    if count == 0 {
        unreachable!()
    }
    let place = count - 1;
    let before = claims_before(claims, place);
    let all = cases_after(alloc, definition, &stages[place], before)?;
    let told = reasons_of(alloc, all.as_slice())?;
    Ok(told)
}

/// Returns why each case of the last step has no solution, where these are the claims.
fn reasons_at(
    alloc: Global,
    lang: &Language,
    tree: &Tree,
    path: &Path,
    claims: &Seq<Claim>,
) -> Result<Vec<CaseReason>, AllocError>
    requires formed { IsFormed lang.now tree.now }
    requires right { (node : Fragment) × (node_at tree.now path.now ≡ Some node)
        × (last : At) × ClaimTo lang.now path.now node claims.now last }
    ensures { IfOk result (λ told. (node : Fragment) × (node_at tree.now path.now ≡ Some node)
        × (last : At) × ClaimTo lang.now path.now node claims.now last × AreCaseReasons last.cases told.items) }
{
    let found = at(tree, path);
    let Some(node) = found else { unreachable!() };
    let known = lang.definition();
    let stages = stages_of(alloc, lang, path, node)?;
    let inner = claims.as_slice();
    let told = reasons_after(alloc, known, stages.as_slice(), inner)?;
    Ok(told)
}

/// Returns for each row or pair of rows of the last step, in order, the first given equation with which there is no
/// common solution, and the equation that cannot be solved then.
///
/// The refutation is right. One of a key that is declared twice has no such rows. The call fails where memory runs out,
/// and as if out of memory where a term has more than 2^20 variables and constructors.
pub fn last_reasons(
    alloc: Global,
    lang: &Language,
    tree: &Tree,
    refutation: &Refutation,
) -> Result<Vec<CaseReason>, AllocError>
    requires formed { IsFormed lang.now tree.now }
    requires right { Refutes lang.now tree.now refutation.now }
    ensures { IfOk result (λ told. AreLastReasons lang.now tree.now refutation.now told.items) }
{
    match refutation {
        Refutation::Twice { .. } => Ok(Vec::new(alloc)),
        Refutation::Empty { path, claims } => {
            let told = reasons_at(alloc, lang, tree, path, claims)?;
            Ok(told)
        }
    }
}
