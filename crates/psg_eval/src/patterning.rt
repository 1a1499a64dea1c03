//! Patterns of nodes, cells and ends. They are of trees in the definition itself, so they count no step.
ghost use Rattle.std.specs.Prelude.{◌≡◌, ◌+◌, ◌<◌, ◌≤◌, ℕ, false, length, slice_get, Some, IfOk, OnOk, sum_by};
ghost use Rattle.psg_grammar.specs.Fragments.{Fragment, cell, ending, children_of};
ghost use Rattle.psg_grammar.specs.Sound.{IsSound};
ghost use Rattle.psg_grammar.specs.declared.types.Kind.TheVariants.{List as OfList, Phylum as OfPhylum};
ghost use Rattle.psg_grammar.specs.declared.types.Operator.{Operator};
ghost use Rattle.psg_eval.specs.Patterns.{AreChildrenOf, IsChildOf, TakesCellOf, TakesChildrenAt, seen_of};
ghost use Rattle.psg_eval.specs.Summaries.{Answers, IsSummary};
ghost use Rattle.psg_eval.specs.Trees.{IsNode};
ghost use Rattle.psg_eval.specs.Work.{IsCellWork, IsNodeWork};

use crate::leaves::closed_end;
use crate::partial::summary_of;
use crate::parts::{cell_with, node_with};
use crate::pattern::Pattern;
use crate::summary::EvalFault;
use psg_grammar::{Definition, Kind};
use psg_terms::{Room, Txt};
use std::alloc::Global;

/// Returns the pattern of an operator's node, from its names and its children, of which `None` is a place with any
/// value.
///
/// Its steps are those of `eval_op`, and `Wide` names the first whose relation passes the limit. A place adds a value
/// and makes no step larger. Before each step `room` falls by what the step's work counts: 8 for the head and for each
/// item, marks too, of each of the operator's own rows; for a join the weight of each side times the rows of the other;
/// and at the end the weight of the rows. Where less room is left, the answer is `Memory`.
pub fn pattern_op(
    alloc: Global,
    definition: &Definition,
    op: u32,
    names: &[Txt],
    children: &[Option<Pattern>],
    room: &mut Room,
) -> Result<Pattern, EvalFault>
    requires sound { IsSound definition.now }
    requires takes { TakesChildrenAt definition.now op names.now children.now }
    // whatever the children are: for every tree whose children have these patterns, or are places
    ensures answer { (f : Fragment) → IsNode definition.now op names.now f
        → AreChildrenOf definition.now (children_of f) children.now → Answers definition.now f result }
    ensures pattern { IfOk result (IsSummary definition.now) }
    ensures kind { IfOk result (λ s. (o : Operator) → slice_get definition.now.operators op ≡ Some o
        → s.kind ≡ OfPhylum o.phylum) }
    ensures seen { IfOk result (λ s. s.seen ≡ sum_by seen_of children.now) }
    // what is taken from the room is the work of the steps, exactly
    ensures work { OnOk result ((o : Operator) → slice_get definition.now.operators op ≡ Some o
        → (work : ℕ) × IsNodeWork definition.now o names.now children.now work
        × (room.old.left ≡ room.new.left + work)) }
    ensures room { room.new.left ≤ room.old.left }
{
    let operator = &definition.operators.as_slice()[op as usize];
    let summary = node_with(alloc, definition, operator, names, children, room)?;
    Ok(Pattern::new(summary))
}

/// Returns the pattern of a list from its first element and the list after it, of which `None` is a place with any
/// value.
///
/// Its steps are those of `eval_cell`, and `room` falls as that of `pattern_op`.
pub fn pattern_cell(
    alloc: Global,
    definition: &Definition,
    list: u32,
    element: &Option<Pattern>,
    rest: &Option<Pattern>,
    room: &mut Room,
) -> Result<Pattern, EvalFault>
    requires sound { IsSound definition.now }
    requires takes { TakesCellOf definition.now list element.now rest.now }
    ensures answer { (e r : Fragment) → IsChildOf definition.now e element.now → IsChildOf definition.now r rest.now
        → Answers definition.now (cell list e r) result }
    ensures pattern { IfOk result (IsSummary definition.now) }
    ensures kind { IfOk result (λ s. s.kind ≡ OfList list) }
    ensures seen { IfOk result (λ s. s.seen ≡ seen_of element.now + seen_of rest.now) }
    ensures work { OnOk result ((work : ℕ) × IsCellWork definition.now list element.now rest.now work
        × (room.old.left ≡ room.new.left + work)) }
    ensures room { room.new.left ≤ room.old.left }
{
    let whole = cell_with(alloc, definition, list, element, rest, room)?;
    let summary = summary_of(alloc, Kind::List(list), whole)?;
    Ok(Pattern::new(summary))
}

/// Returns the pattern of the end of a finished list: its values are those of the list's nil rows. It makes their
/// relation again at each call and is given no room, so a caller that makes many ends counts them.
pub fn pattern_end(alloc: Global, definition: &Definition, list: u32) -> Result<Pattern, EvalFault>
    requires sound { IsSound definition.now }
    requires there { list < length definition.now.lists }
    ensures answer { Answers definition.now (ending list false) result }
    ensures pattern { IfOk result (IsSummary definition.now) }
    ensures kind { IfOk result (λ s. s.kind ≡ OfList list) }
    ensures seen { IfOk result (λ s. s.seen ≡ 0) }
{
    let summary = closed_end(alloc, definition, list)?;
    Ok(Pattern::new(summary))
}
