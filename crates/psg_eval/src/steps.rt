//! The steps of a node one by one.
ghost use Rattle.std.specs.Prelude.{◌≡◌, ◌+◌, ◌<◌, ◌⊎◌, ◌∷◌, ◌++◌, ◌↔◌, [], ℕ, false, drop, length, slice_get, Some};
ghost use Rattle.std.specs.Prelude.{IfOk, IsTrue};
ghost use Rattle.std.specs.List.{AllByRecursion};
ghost use Rattle.psg_grammar.specs.Fragments.{Fragment, cell};
ghost use Rattle.psg_grammar.specs.Lookups.{is_scope};
ghost use Rattle.psg_grammar.specs.Sound.{IsOperator, IsSound};
ghost use Rattle.psg_grammar.specs.Steps.{children_count};
ghost use Rattle.psg_grammar.specs.declared.types.Kind.{Kind as PlainKind};
ghost use Rattle.psg_eval.specs.Partials.{IsPartial};
ghost use Rattle.psg_eval.specs.Stages.{IsMade, kinds_of};
ghost use Rattle.psg_eval.specs.StepRows.{Grows, IsGrown, MatchGrown, MatchSteps};
ghost use Rattle.psg_eval.specs.Summaries.{AreSummariesOf, IsSummary, IsSummaryOf, Takes, TakesAt, TakesCell};
ghost use Rattle.psg_eval.specs.Trees.{HasParts, IsNode};

use crate::cell::cell_start;
use crate::outside::closed;
use crate::own::first_step;
use crate::partial::{Partial, numbered, with_child};
use crate::summary::{EvalFault, Summary, SummaryParts};
use psg_grammar::{Definition, Operator};
use psg_relation::Rel;
use psg_scope::Header;
use psg_terms::{Steps, Txt};
use std::alloc::{AllocError, Global};
use std::sync::ledger::Ledger;

/// The keys and the rows of a step.
#[derive(Drop)]
pub struct StepRows {
    /// The keys of the region so far; of the last step of a scope operator those that pass outward.
    pub header: Header,
    /// The columns are the value, the seen values, a value for each child that is still to be added, and the entities
    /// of the keys.
    pub rel: Rel,
}

/// A node with its first children: the steps before the last, each of which has rows, and what is known after the last.
#[derive(Drop)]
struct Grown {
    before: Vec<StepRows>,
    last: Partial,
}

/// Returns the keys and the rows of the step that the node is at.
fn rows_of(partial: Partial) -> StepRows
    ensures { result ≡ record { header = partial.header; rel = partial.rel } }
{
    StepRows {
        header: partial.header,
        rel: partial.rel,
    }
}

/// Returns what is known of the child of this number.
fn nth(children: &[Summary], number: usize) -> &SummaryParts
    requires { number < length children.now }
    ensures { slice_get children.now number ≡ Some result.now }
{
    children[number].known()
}

/// Adds one child after the other, the first of all in step 1, up to the first step without rows. `first` is the node
/// without children.
fn grow(
    alloc: Global,
    definition: &Definition,
    first: Partial,
    children: &[Summary],
) -> Result<Grown, EvalFault>
    requires sound { IsSound definition.now }
    requires partial { (kind : PlainKind) × IsPartial definition.now kind (kinds_of children.now) first }
    requires summaries { AllByRecursion (IsSummary definition.now) children.now }
    ensures steps { (f : Fragment) → Grows definition.now f children.now → IsMade definition.now f 0 first
        → MatchGrown definition.now f result }
    ensures partial { IfOk result (λ g. (kind : PlainKind)
        → IsPartial definition.now kind (kinds_of children.now) first
        → IsPartial definition.now kind (kinds_of (drop (length g.before.items) children.now)) g.last) }
    ensures ended { IfOk result (λ g. (length g.before.items ≡ length children.now) ⊎ (g.last.rel ≡ [])) }
{
    let mut before = Vec::new(alloc);
    let mut last = first;
    for i in 0..children.len() {
        if last.rel.is_empty() {
            return Ok(Grown { before, last });
        }
        let child = nth(children, i);
        let next = numbered(with_child(alloc, definition, &last, child), i + 1)?;
        let step = rows_of(last);
        before.push(step)?;
        last = next;
    }
    Ok(Grown { before, last })
}

/// Returns the steps with the last of them.
fn with_last(grown: Grown) -> Result<Vec<StepRows>, AllocError>
    ensures { IfOk result (λ v. v.items
        ≡ grown.before.items ++ record { header = grown.last.header; rel = grown.last.rel } ∷ []) }
{
    let Grown { before, last } = grown;
    let mut all = before;
    all.push(rows_of(last))?;
    Ok(all)
}

/// Says whether no step follows the last: the operator is no scope operator, or there are no rows.
fn is_over(scope: bool, last: &Partial) -> bool
    ensures { IsTrue result ↔ ((scope ≡ false) ⊎ (last.now.rel ≡ [])) }
{
    !scope || last.rel.is_empty()
}

/// Returns all steps, where those of the children are made: a scope operator has one more, in which the keys that end
/// there are dropped.
fn whole_steps(
    alloc: Global,
    definition: &Definition,
    scope: bool,
    grown: Grown,
) -> Result<Vec<StepRows>, EvalFault>
    requires sound { IsSound definition.now }
    requires partial { (grown.last.rel ≡ [] → ⊥) → (kind : PlainKind) × IsPartial definition.now kind [] grown.last }
    ensures { (f : Fragment) → HasParts definition.now f [] → is_scope definition.now f ≡ scope
        → IsGrown definition.now f grown.before.items grown.last
        → (length grown.before.items ≡ children_count f) ⊎ (grown.last.rel ≡ [])
        → MatchSteps definition.now f result }
{
    if is_over(scope, &grown.last) {
        let all = with_last(grown)?;
        return Ok(all);
    }
    let made = grown.before.as_slice();
    let number = made.len() + 1;
    let outside = numbered(closed(alloc, definition, &grown.last), number)?;
    let mut whole = with_last(grown)?;
    let step = rows_of(outside);
    whole.push(step)?;
    Ok(whole)
}

/// Returns the steps of an operator's node, up to the first without rows.
fn operator_steps(
    alloc: Global,
    definition: &Definition,
    operator: &Operator,
    names: &[Txt],
    children: &[Summary],
) -> Result<Vec<StepRows>, EvalFault>
    requires sound { IsSound definition.now }
    requires operator { IsOperator definition.now operator.now }
    requires takes { Takes definition.now operator.now names.now children.now }
    ensures { (o : ℕ) (f : Fragment) → slice_get definition.now.operators o ≡ Some operator.now
        → IsNode definition.now o names.now f
        → AreSummariesOf definition.now f children.now → MatchSteps definition.now f result }
{
    let first = numbered(first_step(alloc, definition, operator, names), 0)?;
    let made = grow(alloc, definition, first, children)?;
    let all = whole_steps(alloc, definition, operator.scope, made)?;
    Ok(all)
}

/// Returns the two summaries, each with one owner more.
fn pair(alloc: Global, one: &Summary, two: &Summary) -> Result<Vec<Summary>, AllocError>
    ensures { IfOk result (λ both. both.items ≡ one.now ∷ two.now ∷ []) }
{
    let mut both = Vec::with_capacity(alloc, 2)?;
    both.push(one.share()?)?;
    both.push(two.share()?)?;
    Ok(both)
}

/// Returns the steps of a cell of the list, up to the first without rows.
fn both_steps(
    alloc: Global,
    definition: &Definition,
    list: u32,
    element: &Summary,
    rest: &Summary,
) -> Result<Vec<StepRows>, EvalFault>
    requires sound { IsSound definition.now }
    requires takes { TakesCell definition.now list element.now rest.now }
    ensures { (e r : Fragment) → IsSummaryOf definition.now e element.now → IsSummaryOf definition.now r rest.now
        → MatchSteps definition.now (cell list e r) result }
{
    let first = numbered(cell_start(alloc, definition, list), 0)?;
    let both = pair(alloc, element, rest)?;
    let children = both.as_slice();
    let made = grow(alloc, definition, first, children)?;
    let all = with_last(made)?;
    Ok(all)
}

/// Returns the steps of an operator's node, up to the first without rows, which is the last.
///
/// The number of a step is its place: step 0 has the operator's rows and own keys, step k adds the child k - 1, and a
/// scope operator has one step more, in which the keys that end there are dropped. `Wide` names the first step whose
/// relation passes the limit, as in `eval_op`; a step after one without rows is not made and never passes it. It takes
/// one tick.
pub fn op_steps<L: Ledger>(
    alloc: Global,
    definition: &Definition,
    op: u32,
    names: &[Txt],
    children: &[Summary],
    steps: &mut Steps<L>,
) -> Result<Vec<StepRows>, EvalFault>
    requires sound { IsSound definition.now }
    requires takes { TakesAt definition.now op names.now children.now }
    // whatever the children are: for every tree whose children have these summaries
    ensures answer { (f : Fragment) → IsNode definition.now op names.now f
        → AreSummariesOf definition.now f children.now → MatchSteps definition.now f result }
    ensures ticks { steps.new ≡ steps.old + 1 }
{
    steps.tick();
    let operator = &definition.operators.as_slice()[op as usize];
    let all = operator_steps(alloc, definition, operator, names, children)?;
    Ok(all)
}

/// Returns the steps of a cell of the list, up to the first without rows, which is the last.
///
/// The number of a step is its place: step 0 has the list's cell rows, step 1 adds the element and step 2 the list
/// after it. `Wide` names the first step whose relation passes the limit, as in `eval_cell`. It takes one tick.
pub fn cell_steps<L: Ledger>(
    alloc: Global,
    definition: &Definition,
    list: u32,
    element: &Summary,
    rest: &Summary,
    steps: &mut Steps<L>,
) -> Result<Vec<StepRows>, EvalFault>
    requires sound { IsSound definition.now }
    requires takes { TakesCell definition.now list element.now rest.now }
    ensures answer { (e r : Fragment) → IsSummaryOf definition.now e element.now → IsSummaryOf definition.now r rest.now
        → MatchSteps definition.now (cell list e r) result }
    ensures ticks { steps.new ≡ steps.old + 1 }
{
    steps.tick();
    let all = both_steps(alloc, definition, list, element, rest)?;
    Ok(all)
}
