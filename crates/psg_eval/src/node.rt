//! An operator's node with its children.
ghost use Rattle.std.specs.Prelude.{◌≡◌, ◌+◌, ◌<◌, ◌≤◌, ◌^◌, [], ℕ, List, drop, length, slice_get, take};
ghost use Rattle.std.specs.Prelude.{Some, IfOk, sum_by};
ghost use Rattle.std.specs.List.{AllByRecursion};
ghost use Rattle.psg_grammar.specs.Fragments.{Fragment};
ghost use Rattle.psg_grammar.specs.Sound.{IsOperator, IsSound};
ghost use Rattle.psg_grammar.specs.declared.types.Kind.{Kind as PlainKind};
ghost use Rattle.psg_grammar.specs.declared.types.Kind.TheVariants.{Phylum as OfPhylum};
ghost use Rattle.psg_eval.specs.declared.summary.SummaryParts.{SummaryParts as PlainParts};
ghost use Rattle.psg_eval.specs.Partials.{IsPartial};
ghost use Rattle.psg_eval.specs.Starts.{IsNamed, IsOperatorStart, IsOwnBegun};
ghost use Rattle.psg_eval.specs.Stages.{kinds_of, IsMade, MatchMade, MatchWhole};
ghost use Rattle.psg_eval.specs.Summaries.{Answers, AreSummariesOf, IsSummary, Takes};
ghost use Rattle.psg_eval.specs.Trees.{HasParts, IsNode};

use crate::outside::closed;
use crate::own::first_step;
use crate::partial::{Partial, numbered, summary_of, with_child};
use crate::starts::{NamedStart, OperatorStart};
use crate::summary::{EvalFault, Summary, SummaryParts};
use psg_grammar::{Definition, Kind, Operator};
use psg_terms::Txt;
use std::alloc::Global;

/// Returns the node with all its children, where `first` is the node with as many of them as `from` says. They are
/// added one after the other, the first of all in step 1.
fn with_children(
    alloc: Global,
    definition: &Definition,
    first: Partial,
    children: &[Summary],
    from: usize,
) -> Result<Partial, EvalFault>
    requires sound { IsSound definition.now }
    requires from { from ≤ length children.now }
    requires partial { (kind : PlainKind) × IsPartial definition.now kind (kinds_of (drop from children.now)) first }
    requires summaries { AllByRecursion (IsSummary definition.now) children.now }
    ensures made { (f : Fragment) → HasParts definition.now f [] → AreSummariesOf definition.now f children.now
        → IsMade definition.now f from first
        → MatchMade definition.now f (length children.now) result }
    ensures partial { IfOk result (λ p. (kind : PlainKind)
        → IsPartial definition.now kind (kinds_of (drop from children.now)) first
        → IsPartial definition.now kind [] p) }
    ensures seen { IfOk result (λ p. p.seen + sum_by (λ (s : PlainParts). s.seen) (take from children.now)
        ≡ first.seen + sum_by (λ (s : PlainParts). s.seen) children.now) }
{
    let mut partial = first;
    for i in from..children.len() {
        let child = children[i].known();
        let next = numbered(with_child(alloc, definition, &partial, child), i + 1)?;
        partial = next;
    }
    Ok(partial)
}

/// Returns what is known of the first child.
fn first_of(children: &[Summary]) -> &SummaryParts
    requires { 0 < length children.now }
    ensures { slice_get children.now 0 ≡ Some result.now }
{
    children[0].known()
}

/// Returns the first name.
fn first_name(names: &[Txt]) -> &Txt
    requires { 0 < length names.now }
    ensures { slice_get names.now 0 ≡ Some result.now }
{
    &names[0]
}

/// Returns the operator with its own rows and all its children, of which there is at least one. `bare` is the operator
/// without children.
fn with_all(
    alloc: Global,
    definition: &Definition,
    bare: &Partial,
    children: &[Summary],
) -> Result<Partial, EvalFault>
    requires sound { IsSound definition.now }
    requires some { 0 < length children.now }
    requires partial { (kind : PlainKind) × IsPartial definition.now kind (kinds_of children.now) bare.now }
    requires summaries { AllByRecursion (IsSummary definition.now) children.now }
    ensures made { (f : Fragment) → HasParts definition.now f [] → AreSummariesOf definition.now f children.now
        → IsMade definition.now f 0 bare.now
        → MatchMade definition.now f (length children.now) result }
    ensures partial { IfOk result (λ p. (kind : PlainKind)
        → IsPartial definition.now kind (kinds_of children.now) bare.now
        → IsPartial definition.now kind [] p) }
    ensures seen { IfOk result (λ p. p.seen ≡ bare.now.seen + sum_by (λ (s : PlainParts). s.seen) children.now) }
{
    let child = first_of(children);
    let first = numbered(with_child(alloc, definition, bare, child), 1)?;
    let whole = with_children(alloc, definition, first, children, 1)?;
    Ok(whole)
}

/// Returns the operator with its own rows and all its children.
fn all_children(
    alloc: Global,
    definition: &Definition,
    operator: &Operator,
    names: &[Txt],
    children: &[Summary],
) -> Result<Partial, EvalFault>
    requires sound { IsSound definition.now }
    requires operator { IsOperator definition.now operator.now }
    requires takes { Takes definition.now operator.now names.now children.now }
    ensures made { (o : ℕ) (f : Fragment) → slice_get definition.now.operators o ≡ Some operator.now
        → IsNode definition.now o names.now f
        → AreSummariesOf definition.now f children.now → MatchMade definition.now f (length children.now) result }
    ensures partial { IfOk result (IsPartial definition.now (OfPhylum operator.now.phylum) []) }
    ensures seen { IfOk result (λ p. p.seen ≡ sum_by (λ (s : PlainParts). s.seen) children.now) }
{
    let first = numbered(first_step(alloc, definition, operator, names), 0)?;
    let whole = with_children(alloc, definition, first, children, 0)?;
    Ok(whole)
}

/// Returns the operator with its own rows and all its children, where `bare` is the operator without names and
/// children.
fn bare_children(
    alloc: Global,
    definition: &Definition,
    bare: &Partial,
    operator: &Operator,
    names: &[Txt],
    children: &[Summary],
) -> Result<Partial, EvalFault>
    requires sound { IsSound definition.now }
    requires bare { IsOwnBegun definition.now operator.now [] bare.now }
    requires operator { IsOperator definition.now operator.now }
    requires takes { Takes definition.now operator.now names.now children.now }
    ensures made { (o : ℕ) (f : Fragment) → slice_get definition.now.operators o ≡ Some operator.now
        → IsNode definition.now o names.now f
        → AreSummariesOf definition.now f children.now → MatchMade definition.now f (length children.now) result }
    ensures partial { IfOk result (IsPartial definition.now (OfPhylum operator.now.phylum) []) }
    ensures seen { IfOk result (λ p. p.seen ≡ sum_by (λ (s : PlainParts). s.seen) children.now) }
{
    if children.is_empty() {
        return all_children(alloc, definition, operator, names, children);
    }
    let whole = with_all(alloc, definition, bare, children)?;
    Ok(whole)
}

/// Returns the operator with its own rows and all its children, where `named` is the operator under some name and
/// without children.
fn named_children(
    alloc: Global,
    definition: &Definition,
    named: &NamedStart,
    operator: &Operator,
    names: &[Txt],
    children: &[Summary],
) -> Result<Partial, EvalFault>
    requires sound { IsSound definition.now }
    requires named { IsNamed definition.now operator.now named.now }
    requires operator { IsOperator definition.now operator.now }
    requires takes { Takes definition.now operator.now names.now children.now }
    ensures made { (o : ℕ) (f : Fragment) → slice_get definition.now.operators o ≡ Some operator.now
        → IsNode definition.now o names.now f
        → AreSummariesOf definition.now f children.now → MatchMade definition.now f (length children.now) result }
    ensures partial { IfOk result (IsPartial definition.now (OfPhylum operator.now.phylum) []) }
    ensures seen { IfOk result (λ p. p.seen ≡ sum_by (λ (s : PlainParts). s.seen) children.now) }
{
    let name = first_name(names);
    let first = named.under(alloc, name)?;
    let whole = with_children(alloc, definition, first, children, 0)?;
    Ok(whole)
}

/// Returns the operator with its own rows and all its children. Its first step is made where it is not given.
fn started(
    alloc: Global,
    definition: &Definition,
    start: &OperatorStart,
    operator: &Operator,
    names: &[Txt],
    children: &[Summary],
) -> Result<Partial, EvalFault>
    requires sound { IsSound definition.now }
    requires start { IsOperatorStart definition.now operator.now start.now }
    requires operator { IsOperator definition.now operator.now }
    requires takes { Takes definition.now operator.now names.now children.now }
    ensures made { (o : ℕ) (f : Fragment) → slice_get definition.now.operators o ≡ Some operator.now
        → IsNode definition.now o names.now f
        → AreSummariesOf definition.now f children.now → MatchMade definition.now f (length children.now) result }
    ensures partial { IfOk result (IsPartial definition.now (OfPhylum operator.now.phylum) []) }
    ensures seen { IfOk result (λ p. p.seen ≡ sum_by (λ (s : PlainParts). s.seen) children.now) }
{
    match start {
        OperatorStart::Bare(bare) => {
            bare_children(alloc, definition, bare, operator, names, children)
        }
        OperatorStart::Named(named) => {
            named_children(alloc, definition, named, operator, names, children)
        }
        OperatorStart::Whole(_) => all_children(alloc, definition, operator, names, children),
        OperatorStart::Unknown => all_children(alloc, definition, operator, names, children),
    }
}

/// Returns the node as it is seen from outside: of a scope operator only the keys remain that pass outward.
pub(crate) fn outer(
    alloc: Global,
    definition: &Definition,
    operator: &Operator,
    count: usize,
    whole: Partial,
) -> Result<Partial, EvalFault>
    requires sound { IsSound definition.now }
    requires room { count + 1 < 2 ^ 64 }
    requires partial { IsPartial definition.now (OfPhylum operator.now.phylum) [] whole }
    ensures made { MatchWhole definition.now operator.now whole count result }
    ensures partial { IfOk result (IsPartial definition.now (OfPhylum operator.now.phylum) []) }
    ensures seen { IfOk result (λ p. p.seen ≡ whole.seen) }
{
    if !operator.scope {
        return Ok(whole);
    }
    let outside = numbered(closed(alloc, definition, &whole), count + 1)?;
    Ok(outside)
}

/// Returns the summary of an operator's node from its steps.
fn stepped(
    alloc: Global,
    definition: &Definition,
    start: &OperatorStart,
    operator: &Operator,
    names: &[Txt],
    children: &[Summary],
) -> Result<Summary, EvalFault>
    requires sound { IsSound definition.now }
    requires start { IsOperatorStart definition.now operator.now start.now }
    requires operator { IsOperator definition.now operator.now }
    requires takes { Takes definition.now operator.now names.now children.now }
    ensures answer { (o : ℕ) (f : Fragment) → slice_get definition.now.operators o ≡ Some operator.now
        → IsNode definition.now o names.now f
        → AreSummariesOf definition.now f children.now → Answers definition.now f result }
    ensures summary { IfOk result (IsSummary definition.now) }
    ensures kind { IfOk result (λ s. s.kind ≡ OfPhylum operator.now.phylum) }
    ensures seen { IfOk result (λ s. s.seen ≡ sum_by (λ (c : PlainParts). c.seen) children.now) }
{
    let whole = started(alloc, definition, start, operator, names, children)?;
    let outside = outer(alloc, definition, operator, children.len(), whole)?;
    let summary = summary_of(alloc, Kind::Phylum(operator.phylum), outside)?;
    Ok(summary)
}

/// Returns the summary of an operator's node. What it begins with is made where it is not given.
pub(crate) fn node(
    alloc: Global,
    definition: &Definition,
    start: &OperatorStart,
    operator: &Operator,
    names: &[Txt],
    children: &[Summary],
) -> Result<Summary, EvalFault>
    requires sound { IsSound definition.now }
    requires start { IsOperatorStart definition.now operator.now start.now }
    requires operator { IsOperator definition.now operator.now }
    requires takes { Takes definition.now operator.now names.now children.now }
    ensures answer { (o : ℕ) (f : Fragment) → slice_get definition.now.operators o ≡ Some operator.now
        → IsNode definition.now o names.now f
        → AreSummariesOf definition.now f children.now → Answers definition.now f result }
    ensures summary { IfOk result (IsSummary definition.now) }
    ensures kind { IfOk result (λ s. s.kind ≡ OfPhylum operator.now.phylum) }
    ensures seen { IfOk result (λ s. s.seen ≡ sum_by (λ (c : PlainParts). c.seen) children.now) }
{
    let OperatorStart::Whole(given) = start else {
        return stepped(alloc, definition, start, operator, names, children);
    };
    let summary = given.share()?;
    Ok(summary)
}
