//! Nodes and cells some of whose children may be places with any value.
ghost use Rattle.std.specs.Prelude.{◌≡◌, ◌+◌, ◌-◌, ◌^◌, ◌≤◌, ◌∷◌, [], ℕ, List, length, slice_get, min, Some, IfOk};
ghost use Rattle.std.specs.Prelude.{OnOk, sum_by};
ghost use Rattle.psg_grammar.specs.Fragments.{Fragment, cell as a_cell, children_of};
ghost use Rattle.psg_grammar.specs.Sound.{IsOperator, IsSound};
ghost use Rattle.psg_grammar.specs.declared.types.Kind.{Kind as PlainKind};
ghost use Rattle.psg_grammar.specs.declared.types.Kind.TheVariants.{List as OfList, Phylum as OfPhylum};
ghost use Rattle.psg_eval.specs.Partials.{IsAdded, IsPartial, MatchStep};
ghost use Rattle.psg_eval.specs.Patterns.{AreChildrenOf, IsChildOf, MatchPart, SuitKinds};
ghost use Rattle.psg_eval.specs.Patterns.{SuitsKind, TakesCellOf, TakesChildren, seen_of};
ghost use Rattle.psg_eval.specs.Stages.{IsMade, MatchMade};
ghost use Rattle.psg_eval.specs.Summaries.{Answers, IsSummary};
ghost use Rattle.psg_eval.specs.Trees.{HasParts, IsNode};
ghost use Rattle.psg_eval.specs.Work.{AreJoined, IsCellWork, IsNodeWork, IsWholeWork, join_work, part_work, rows_work};

use crate::cell::cell_start;
use crate::node::outer;
use crate::own::first_step;
use crate::partial::{Partial, numbered, summary_of, with_child, with_place};
use crate::pattern::Pattern;
use crate::summary::{EvalFault, Summary, SummaryParts};
use psg_grammar::{Definition, Kind, Operator};
use psg_relation::{Rel, RelFault};
use psg_terms::{Room, Txt};
use std::alloc::Global;

/// Returns the work of a join, or `u64::MAX` if it is more.
fn join_work(left: &Rel, right: &Rel) -> u64
    ensures { result ≡ min (join_work left.now right.now) (2 ^ 64 - 1) }
{
    let lefts = left.weight().saturating_mul(right.rows().len() as u64);
    let rights = right.weight().saturating_mul(left.rows().len() as u64);
    lefts.saturating_add(rights)
}

/// How much a term of the definition's own rows counts, where a comparison of two symbols counts 1.
const TERM_WORK: u64 = 8;

/// Returns the work of making a relation of `rows` rows of the definition, with `terms` terms each, or `u64::MAX` if it
/// is more.
fn rows_work(rows: usize, terms: usize) -> u64
    ensures { result ≡ min (rows_work rows terms) (2 ^ 64 - 1) }
{
    TERM_WORK
        .saturating_mul(rows as u64)
        .saturating_mul(terms as u64)
}

/// Returns the node with one child more.
fn with_known(
    alloc: Global,
    definition: &Definition,
    before: &Partial,
    child: &SummaryParts,
    room: &mut Room,
) -> Result<Partial, RelFault>
    requires partial { (kind : PlainKind) × (kinds : List PlainKind)
        × IsPartial definition.now kind (child.now.kind ∷ kinds) before.now }
    requires child { IsSummary definition.now child.now }
    ensures step { MatchStep (IsAdded definition.now before.now child.now) result }
    ensures partial { IfOk result (λ p. (kind : PlainKind) (kinds : List PlainKind)
        → IsPartial definition.now kind (child.now.kind ∷ kinds) before.now
        → IsPartial definition.now kind kinds p) }
    ensures seen { IfOk result (λ p. p.seen ≡ before.now.seen + child.now.seen) }
    ensures work { OnOk result (room.old.left ≡ room.new.left + part_work before.now.rel (Some child.now)) }
    ensures room { room.new.left ≤ room.old.left }
{
    room.spend(join_work(&before.rel, &child.rel))?;
    with_child(alloc, definition, before, child)
}

/// Returns the node with one child more, which may be a place with any value.
fn with_part(
    alloc: Global,
    definition: &Definition,
    before: Partial,
    child: &Option<Pattern>,
    room: &mut Room,
) -> Result<Partial, RelFault>
    requires { (kind : PlainKind) × (k : PlainKind) × (kinds : List PlainKind) × SuitsKind definition.now child.now k
        × IsPartial definition.now kind (k ∷ kinds) before }
    ensures step { MatchPart definition.now before child.now result }
    ensures partial { IfOk result (λ p. (kind k : PlainKind) (kinds : List PlainKind)
        → SuitsKind definition.now child.now k → IsPartial definition.now kind (k ∷ kinds) before
        → IsPartial definition.now kind kinds p) }
    ensures seen { IfOk result (λ p. p.seen ≡ before.seen + seen_of child.now) }
    ensures work { OnOk result (room.old.left ≡ room.new.left + part_work before.rel child.now) }
    ensures room { room.new.left ≤ room.old.left }
{
    match child {
        Some(pattern) => with_known(alloc, definition, &before, pattern.known(), room),
        None => {
            let next = with_place(before)?;
            Ok(next)
        }
    }
}

/// Returns the node with all its children, one after the other. The first of them is added in step 1.
fn with_parts(
    alloc: Global,
    definition: &Definition,
    first: Partial,
    children: &[Option<Pattern>],
    room: &mut Room,
) -> Result<Partial, EvalFault>
    requires sound { IsSound definition.now }
    requires partial { (kind : PlainKind) × (kinds : List PlainKind) × SuitKinds definition.now children.now kinds
        × IsPartial definition.now kind kinds first }
    ensures made { (f : Fragment) → HasParts definition.now f []
        → AreChildrenOf definition.now (children_of f) children.now → IsMade definition.now f 0 first
        → MatchMade definition.now f (length children.now) result }
    ensures partial { IfOk result (λ p. (kind : PlainKind) (kinds : List PlainKind)
        → SuitKinds definition.now children.now kinds → IsPartial definition.now kind kinds first
        → IsPartial definition.now kind [] p) }
    ensures seen { IfOk result (λ p. p.seen ≡ first.seen + sum_by seen_of children.now) }
    ensures work { IfOk result (λ p. (work : ℕ) × AreJoined definition.now first children.now p work
        × (room.old.left ≡ room.new.left + work)) }
    ensures room { room.new.left ≤ room.old.left }
{
    let mut partial = first;
    for i in 0..children.len() {
        let next = numbered(
            with_part(alloc, definition, partial, &children[i], room),
            i + 1,
        )?;
        partial = next;
    }
    Ok(partial)
}

/// Returns the operator with its own rows and all its children.
fn all_parts(
    alloc: Global,
    definition: &Definition,
    operator: &Operator,
    names: &[Txt],
    children: &[Option<Pattern>],
    room: &mut Room,
) -> Result<Partial, EvalFault>
    requires sound { IsSound definition.now }
    requires operator { IsOperator definition.now operator.now }
    requires takes { TakesChildren definition.now operator.now names.now children.now }
    ensures made { (o : ℕ) (f : Fragment) → slice_get definition.now.operators o ≡ Some operator.now
        → IsNode definition.now o names.now f
        → AreChildrenOf definition.now (children_of f) children.now
        → MatchMade definition.now f (length children.now) result }
    ensures partial { IfOk result (IsPartial definition.now (OfPhylum operator.now.phylum) []) }
    ensures seen { IfOk result (λ p. p.seen ≡ sum_by seen_of children.now) }
    ensures work { IfOk result (λ p. (work : ℕ)
        × IsWholeWork definition.now operator.now names.now children.now p work
        × (room.old.left ≡ room.new.left + work)) }
    ensures room { room.new.left ≤ room.old.left }
{
    let rows = operator.rows.as_slice().len();
    let items = operator.items.as_slice().len();
    room.spend(rows_work(rows, items.saturating_add(1)))?;
    let first = numbered(first_step(alloc, definition, operator, names), 0)?;
    let whole = with_parts(alloc, definition, first, children, room)?;
    Ok(whole)
}

/// Returns the summary of an operator's node some of whose children may be places.
pub(crate) fn node_with(
    alloc: Global,
    definition: &Definition,
    operator: &Operator,
    names: &[Txt],
    children: &[Option<Pattern>],
    room: &mut Room,
) -> Result<Summary, EvalFault>
    requires sound { IsSound definition.now }
    requires operator { IsOperator definition.now operator.now }
    requires takes { TakesChildren definition.now operator.now names.now children.now }
    ensures answer { (o : ℕ) (f : Fragment) → slice_get definition.now.operators o ≡ Some operator.now
        → IsNode definition.now o names.now f
        → AreChildrenOf definition.now (children_of f) children.now → Answers definition.now f result }
    ensures summary { IfOk result (IsSummary definition.now) }
    ensures kind { IfOk result (λ s. s.kind ≡ OfPhylum operator.now.phylum) }
    ensures seen { IfOk result (λ s. s.seen ≡ sum_by seen_of children.now) }
    ensures work { OnOk result ((work : ℕ) × IsNodeWork definition.now operator.now names.now children.now work
        × (room.old.left ≡ room.new.left + work)) }
    ensures room { room.new.left ≤ room.old.left }
{
    let whole = all_parts(alloc, definition, operator, names, children, room)?;
    room.spend(whole.rel.weight())?;
    let outside = outer(alloc, definition, operator, children.len(), whole)?;
    let summary = summary_of(alloc, Kind::Phylum(operator.phylum), outside)?;
    Ok(summary)
}

/// Returns the cell with its element and the list after it, each of which may be a place.
pub(crate) fn cell_with(
    alloc: Global,
    definition: &Definition,
    list: u32,
    element: &Option<Pattern>,
    rest: &Option<Pattern>,
    room: &mut Room,
) -> Result<Partial, EvalFault>
    requires sound { IsSound definition.now }
    requires takes { TakesCellOf definition.now list element.now rest.now }
    ensures made { (e r : Fragment) → IsChildOf definition.now e element.now → IsChildOf definition.now r rest.now
        → MatchMade definition.now (a_cell list e r) 2 result }
    ensures partial { IfOk result (IsPartial definition.now (OfList list) []) }
    ensures seen { IfOk result (λ p. p.seen ≡ seen_of element.now + seen_of rest.now) }
    ensures work { OnOk result ((work : ℕ) × IsCellWork definition.now list element.now rest.now work
        × (room.old.left ≡ room.new.left + work)) }
    ensures room { room.new.left ≤ room.old.left }
{
    let rows = definition.lists.as_slice()[list as usize]
        .cell_rows
        .as_slice()
        .len();
    room.spend(rows_work(rows, 3))?;
    let first = numbered(cell_start(alloc, definition, list), 0)?;
    let begun = numbered(with_part(alloc, definition, first, element, room), 1)?;
    let whole = numbered(with_part(alloc, definition, begun, rest, room), 2)?;
    Ok(whole)
}
