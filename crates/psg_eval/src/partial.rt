//! A node with its first children, and one child more.
ghost use Rattle.std.specs.Prelude.{◌≡◌, ◌+◌, ◌<◌, ◌∷◌, ◌-◌, ◌^◌, ℕ, List, IfOk, IfErr, IsOk, OnOk, length, ◌++◌};
ghost use Rattle.psg_terms.specs.Relations.{IsGlued, IsRelation};
ghost use Rattle.psg_terms.specs.Weight.{PassesLimit};
ghost use Rattle.psg_grammar.specs.declared.types.Definition.{Definition as Language};
ghost use Rattle.psg_grammar.specs.declared.types.Kind.{Kind as PlainKind};
ghost use Rattle.psg_relation.specs.Choices.{HasWide, MayBeWide};
ghost use Rattle.psg_scope.specs.Headers.{ArePlaces, IsOrdered, keys};
ghost use Rattle.psg_eval.specs.Glues.{NextGlue};
ghost use Rattle.psg_eval.specs.Partials.{IsAdded, IsPartial, MatchStep};
ghost use Rattle.psg_eval.specs.Stages.{IsNumbered};
ghost use Rattle.psg_eval.specs.Summaries.{IsSummary};
ghost use Rattle.psg_eval.specs.Walks.{FillPlaces, IsLayout, run};

use crate::placing::key_columns;
use crate::summary::{EvalFault, Summary, SummaryParts, at_step};
use psg_grammar::{Definition, Kind};
use psg_relation::{Rel, RelFault};
use psg_scope::{Header, Joined};
use psg_terms::uncountable;
use std::alloc::{AllocError, Global};

/// What is known of a node with its first children.
#[derive(Drop)]
pub(crate) struct Partial {
    /// The keys of the region so far.
    pub(crate) header: Header,
    /// How many values are seen in the children.
    pub(crate) seen: u32,
    /// How many children are still to be added.
    pub(crate) wanted: u32,
    /// The columns are the value, the seen values, a value for each child that is still to be added, and the entities
    /// of the keys.
    pub(crate) rel: Rel,
}

/// The pairs of columns on which a child's rows are joined, and the columns that are kept.
#[derive(Drop)]
pub(crate) struct Layout {
    pub(crate) pairs: Vec<(usize, usize)>,
    pub(crate) keep: Vec<usize>,
}

/// Returns how many values are seen on both sides. It fails as if out of memory exactly where 32 bits do not hold the
/// number.
fn both_seen(one: u32, two: u32) -> Result<u32, AllocError>
    ensures sum { IfOk result (λ n. n ≡ one + two) }
    ensures fits { one + two < 2 ^ 32 → IsOk result }
{
    let sum = one as usize + two as usize;
    if sum > 0xffff_ffff {
        return Err(uncountable(sum));
    }
    Ok(sum as u32)
}

/// Adds `count` numbers, from `from` on.
pub(crate) fn push_run(
    numbers: &mut Vec<usize>,
    from: usize,
    count: usize,
) -> Result<(), AllocError>
    requires { from + count < 2 ^ 64 }
    ensures { OnOk result (numbers.new.items ≡ numbers.old.items ++ run from count) }
{
    for step in 0..count {
        numbers.push(from + step)?;
    }
    Ok(())
}

/// Returns `count` numbers, from `from` on.
pub(crate) fn numbers(alloc: Global, from: usize, count: usize) -> Result<Vec<usize>, AllocError>
    requires { from + count < 2 ^ 64 }
    ensures { IfOk result (λ v. v.items ≡ run from count) }
{
    let mut made = Vec::with_capacity(alloc, count)?;
    push_run(&mut made, from, count)?;
    Ok(made)
}

/// Returns how many columns are kept: these numbers of columns of the node and of the child, and the columns of the
/// keys.
fn kept_count(of_node: usize, of_child: usize, keys: &[usize]) -> usize {
    keys.len().saturating_add(of_node).saturating_add(of_child)
}

/// Returns the columns of the next child's rows, by one walk over the keys.
fn child_layout(
    alloc: Global,
    before: &Partial,
    child: &SummaryParts,
    joined: &Joined,
) -> Result<Layout, AllocError>
    requires some { 0 < before.now.wanted }
    requires left { ArePlaces joined.now.header.names joined.now.left (keys before.now.header.names) }
    requires right { ArePlaces joined.now.header.names joined.now.right (keys child.now.header.names) }
    requires all { FillPlaces 0 (length joined.now.header.names) joined.now.left joined.now.right }
    ensures { IfOk result (λ l. IsLayout before.now.seen before.now.wanted child.now.seen (keys before.now.header.names)
        (keys child.now.header.names)
        (keys joined.now.header.names) l.pairs.items l.keep.items) }
{
    let first = 1 + before.seen as usize;
    let more = child.seen as usize;
    let wanted = before.wanted as usize;
    let lefts = before.header.names.as_slice().len();
    let rights = child.header.names.as_slice().len();
    let width = first + wanted + lefts;
    let left = numbers(alloc, first + wanted, lefts)?;
    let right = numbers(alloc, 1 + more, rights)?;
    let placed = key_columns(alloc, joined, left.as_slice(), right.as_slice(), width)?;
    let columns = placed.columns.as_slice();
    let shared = placed.pairs.as_slice();
    let count = kept_count(first + wanted - 1, more, columns);
    let mut keep = Vec::with_capacity(alloc, count)?;
    push_run(&mut keep, 0, first)?;
    push_run(&mut keep, width + 1, more)?;
    push_run(&mut keep, first + 1, wanted - 1)?;
    keep.extend_from_slice(columns)?;
    let mut pairs = Vec::with_capacity(alloc, shared.len() + 1)?;
    pairs.push((first, 0))?;
    pairs.extend_from_slice(shared)?;
    Ok(Layout { pairs, keep })
}

/// Returns the rows of a node with one child more.
fn joined_rows(
    alloc: Global,
    definition: &Definition,
    before: &Partial,
    child: &SummaryParts,
    joined: &Joined,
) -> Result<Rel, RelFault>
    requires partial { (kind : PlainKind) × (kinds : List PlainKind)
        × IsPartial definition.now kind (child.now.kind ∷ kinds) before.now }
    requires child { IsSummary definition.now child.now }
    requires ordered { IsOrdered joined.now.header }
    requires left { ArePlaces joined.now.header.names joined.now.left (keys before.now.header.names) }
    requires right { ArePlaces joined.now.header.names joined.now.right (keys child.now.header.names) }
    requires all { FillPlaces 0 (length joined.now.header.names) joined.now.left joined.now.right }
    ensures sorted { IfOk result (λ rel. (kind : PlainKind) (kinds : List PlainKind)
        → IsPartial definition.now kind (child.now.kind ∷ kinds) before.now
        → (more : ℕ) → more + 1 ≡ before.now.wanted
        → IsPartial definition.now kind kinds
        (record { header = joined.now.header; seen = before.now.seen + child.now.seen; wanted = more; rel = rel })) }
    ensures rows { IfOk result (λ rel. (ss : List ℕ) × IsRelation definition.now.signature ss
        (IsGlued definition.now.signature (NextGlue before.now.seen (keys before.now.header.names)
        (keys child.now.header.names) (keys joined.now.header.names)) before.now.rel child.now.rel) rel) }
    ensures within { IfOk result (λ rel. PassesLimit rel → ⊥) }
    ensures wide { IfErr result (MayBeWide ((ss : List ℕ) × HasWide definition.now.signature ss
        (IsGlued definition.now.signature (NextGlue before.now.seen (keys before.now.header.names)
        (keys child.now.header.names) (keys joined.now.header.names)) before.now.rel child.now.rel))) }
{
    let layout = child_layout(alloc, before, child, joined)?;
    psg_relation::join(
        alloc,
        &definition.signature,
        &before.rel,
        &child.rel,
        layout.pairs.as_slice(),
        layout.keep.as_slice(),
    )
}

/// Returns the node with one child more. Where the region then declares a key twice, there are no rows.
pub(crate) fn with_child(
    alloc: Global,
    definition: &Definition,
    before: &Partial,
    child: &SummaryParts,
) -> Result<Partial, RelFault>
    requires partial { (kind : PlainKind) × (kinds : List PlainKind)
        × IsPartial definition.now kind (child.now.kind ∷ kinds) before.now }
    requires child { IsSummary definition.now child.now }
    ensures step { MatchStep (IsAdded definition.now before.now child.now) result }
    ensures partial { IfOk result (λ p. (kind : PlainKind) (kinds : List PlainKind)
        → IsPartial definition.now kind (child.now.kind ∷ kinds) before.now
        → IsPartial definition.now kind kinds p) }
    ensures seen { IfOk result (λ p. p.seen ≡ before.now.seen + child.now.seen) }
{
    let seen = both_seen(before.seen, child.seen)?;
    let joined = psg_scope::join(alloc, &before.header, &child.header)?;
    let rel = if joined.header.twice {
        Rel::empty(alloc, &definition.signature)
    } else {
        joined_rows(alloc, definition, before, child, &joined)?
    };
    Ok(Partial {
        header: joined.header,
        seen,
        wanted: before.wanted - 1,
        rel,
    })
}

/// Returns the step's answer, with its number.
pub(crate) fn numbered(made: Result<Partial, RelFault>, step: usize) -> Result<Partial, EvalFault>
    ensures { IsNumbered made step result }
{
    match made {
        Ok(partial) => Ok(partial),
        Err(fault) => Err(at_step(fault, step)),
    }
}

/// Returns the summary of a node of this kind, all of whose children are added.
pub(crate) fn summary_of(alloc: Global, kind: Kind, whole: Partial) -> Result<Summary, AllocError>
    ensures { IfOk result (λ s. s ≡ record { kind = kind; header = whole.header; seen = whole.seen; rel = whole.rel }) }
{
    let known = SummaryParts {
        kind,
        header: whole.header,
        seen: whole.seen,
        rel: whole.rel,
    };
    let summary = Summary::new(alloc, known)?;
    Ok(summary)
}

/// Returns the node with a place as its next child. A place may have any value, so the first wanted value is now the
/// last that is seen, and the rows are the same. It takes no memory, and fails as if out of memory exactly where 32
/// bits do not hold the number of seen values.
pub(crate) fn with_place(before: Partial) -> Result<Partial, AllocError>
    requires { 0 < before.wanted }
    ensures partial { IfOk result (λ p.
        p ≡ record { header = before.header; seen = before.seen + 1; wanted = before.wanted - 1; rel = before.rel }) }
    ensures fits { before.seen + 1 < 2 ^ 32 → IsOk result }
{
    let seen = both_seen(before.seen, 1)?;
    Ok(Partial {
        header: before.header,
        seen,
        wanted: before.wanted - 1,
        rel: before.rel,
    })
}
