//! From the summary of a tree to that of the whole tree around it.
ghost use Rattle.std.specs.Prelude.{◌≡◌, ◌+◌, ◌≤◌, ◌<◌, [], ℕ, true, false, length, slice_get, IfOk, Some};
ghost use Rattle.std.specs.List.{AllByRecursion};
ghost use Rattle.psg_grammar.specs.Fragments.{Fragment, children_of};
ghost use Rattle.psg_grammar.specs.Paths.{Path};
ghost use Rattle.psg_grammar.specs.Sound.{IsSound};
ghost use Rattle.psg_grammar.specs.declared.types.Kind.{Kind as PlainKind};
ghost use Rattle.psg_grammar.specs.declared.types.Kind.TheVariants.{List as OfList, Phylum as OfPhylum};
ghost use Rattle.psg_grammar.specs.declared.types.Operator.{Operator};
ghost use Rattle.psg_grammar.specs.Steps.{steps_at};
ghost use Rattle.psg_eval.specs.Climbing.{IsClimbed, IsReached};
ghost use Rattle.psg_eval.specs.Frames.{AllSummariesBut, AreSilentBut, CanClimb, IsElement};
ghost use Rattle.psg_eval.specs.Frames.{IsFrame, IsSilent, StandFor, TakesBefore};
ghost use Rattle.psg_eval.specs.Frames.{TakesInFrame, put_at, rungs, rungs_in};
ghost use Rattle.psg_eval.specs.Starts.{AreStarts};
ghost use Rattle.psg_eval.specs.Summaries.{IsSummary, IsSummaryOf, TakesAt, TakesCell};
ghost use Rattle.psg_eval.specs.Trees.{IsNode};

use crate::evaluating::{cell_from, op_from};
use crate::frame::Frame;
use crate::starts::Starts;
use crate::summary::{EvalFault, Summary};
use psg_grammar::Definition;
use psg_terms::{Steps, Txt};
use std::alloc::{AllocError, Global};
use std::sync::ledger::Ledger;

/// Returns `own` where `here` holds, else `old`.
fn chosen<'a>(here: bool, own: &'a Summary, old: &'a Summary) -> &'a Summary
    ensures here { here ≡ true → result.now ≡ own.now }
    ensures other { here ≡ false → result.now ≡ old.now }
{
    if here { own } else { old }
}

/// Gives each of the summaries one more owner, with another one at the place of the number.
fn with_summary(
    alloc: Global,
    children: &[Summary],
    hot: u32,
    own: &Summary,
) -> Result<Vec<Summary>, AllocError>
    ensures { IfOk result (λ all. all.items ≡ put_at hot own.now children.now) }
{
    let mut all = Vec::with_capacity(alloc, children.len())?;
    for i in 0..children.len() {
        let next = chosen(i == hot as usize, own, &children[i]);
        let copy = next.share()?;
        all.push(copy)?;
    }
    Ok(all)
}

/// Returns the summary of a list from that of an element: its cell with the rest, and then each cell before it, the
/// last one first.
fn raised_in_list<L: Ledger>(
    alloc: Global,
    definition: &Definition,
    starts: &Starts,
    list: u32,
    before: &[Summary],
    rest: &Summary,
    own: &Summary,
    steps: &mut Steps<L>,
) -> Result<Summary, EvalFault>
    requires sound { IsSound definition.now }
    requires starts { AreStarts definition.now starts.now }
    requires takes { TakesCell definition.now list own.now rest.now }
    requires silent { IsSilent rest.now }
    requires before { AllByRecursion (TakesBefore definition.now own.now.kind) before.now }
    ensures answer { (u t : Fragment) (path : Path) → IsElement definition.now list before.now rest.now u t
        → IsSummaryOf definition.now t own.now
        → IsReached definition.now (steps_at definition.now path (length before.now) u) u result }
    ensures summary { IfOk result (IsSummary definition.now) }
    ensures kind { IfOk result (λ s. s.kind ≡ OfList list) }
    ensures seen { IfOk result (λ s. s.seen ≡ own.now.seen) }
    ensures ticks { IfOk result (λ _. steps.new ≡ steps.old + (length before.now + 1)) }
    ensures most { steps.new ≤ steps.old + (length before.now + 1) }
{
    let first = cell_from(alloc, definition, starts, list, own, rest, steps)?;
    let mut whole = first;
    let mut left = before;
    while let Some((last, front)) = left.split_last() {
        let next = cell_from(alloc, definition, starts, list, last, &whole, steps)?;
        whole = next;
        left = front;
    }
    Ok(whole)
}

/// Returns the summary of an operator's node from that of its child of the number `hot`. `children` has summaries for
/// all children, of which that of the child `hot` is not used. What it begins with is made where it is not among the
/// starts.
pub(crate) fn operator_raised<L: Ledger>(
    alloc: Global,
    definition: &Definition,
    starts: &Starts,
    op: u32,
    names: &[Txt],
    children: &[Summary],
    hot: u32,
    own: &Summary,
    steps: &mut Steps<L>,
) -> Result<Summary, EvalFault>
    requires sound { IsSound definition.now }
    requires starts { AreStarts definition.now starts.now }
    requires hot { hot < length children.now }
    requires silent { AreSilentBut hot children.now }
    requires takes { TakesAt definition.now op names.now (put_at hot own.now children.now) }
    ensures answer { (u t : Fragment) (path : Path) (k : ℕ) → IsNode definition.now op names.now u → k ≡ hot
        → slice_get (children_of u) k ≡ Some t → AllSummariesBut definition.now k (children_of u) children.now
        → IsSummaryOf definition.now t own.now
        → IsReached definition.now (steps_at definition.now path k u) u result }
    ensures summary { IfOk result (IsSummary definition.now) }
    ensures kind { IfOk result (λ s. (o : Operator) → slice_get definition.now.operators op ≡ Some o
        → s.kind ≡ OfPhylum o.phylum) }
    ensures seen { IfOk result (λ s. s.seen ≡ own.now.seen) }
    ensures ticks { IfOk result (λ _. steps.new ≡ steps.old + 1) }
    ensures most { steps.new ≤ steps.old + 1 }
{
    let all = with_summary(alloc, children, hot, own)?;
    let below = all.as_slice();
    let node = op_from(alloc, definition, starts, op, names, below, steps)?;
    Ok(node)
}

/// Returns the summary of an operator's node from that of its child of the number `hot`. `children` has summaries for
/// all children, of which that of the child `hot` is not used.
///
/// `Wide` names the first step whose relation passes the limit. It takes one tick, or none where memory runs out
/// before.
pub fn raised_operator<L: Ledger>(
    alloc: Global,
    definition: &Definition,
    op: u32,
    names: &[Txt],
    children: &[Summary],
    hot: u32,
    own: &Summary,
    steps: &mut Steps<L>,
) -> Result<Summary, EvalFault>
    requires sound { IsSound definition.now }
    requires hot { hot < length children.now }
    requires silent { AreSilentBut hot children.now }
    requires takes { TakesAt definition.now op names.now (put_at hot own.now children.now) }
    ensures answer { (u t : Fragment) (path : Path) (k : ℕ) → IsNode definition.now op names.now u → k ≡ hot
        → slice_get (children_of u) k ≡ Some t → AllSummariesBut definition.now k (children_of u) children.now
        → IsSummaryOf definition.now t own.now
        → IsReached definition.now (steps_at definition.now path k u) u result }
    ensures summary { IfOk result (IsSummary definition.now) }
    ensures kind { IfOk result (λ s. (o : Operator) → slice_get definition.now.operators op ≡ Some o
        → s.kind ≡ OfPhylum o.phylum) }
    ensures seen { IfOk result (λ s. s.seen ≡ own.now.seen) }
    ensures ticks { IfOk result (λ _. steps.new ≡ steps.old + 1) }
    ensures most { steps.new ≤ steps.old + 1 }
{
    let starts = Starts::none(alloc);
    operator_raised(
        alloc, definition, &starts, op, names, children, hot, own, steps,
    )
}

/// Returns the summary of the frame's node from that of the tree at its place.
fn raised<L: Ledger>(
    alloc: Global,
    definition: &Definition,
    starts: &Starts,
    frame: &Frame,
    own: &Summary,
    steps: &mut Steps<L>,
) -> Result<Summary, EvalFault>
    requires sound { IsSound definition.now }
    requires starts { AreStarts definition.now starts.now }
    requires takes { (above : PlainKind) × TakesInFrame definition.now frame.now own.now above }
    ensures answer { (u t : Fragment) (path : Path) (k : ℕ) → IsFrame definition.now frame.now k u t
        → IsSummaryOf definition.now t own.now
        → IsReached definition.now (steps_at definition.now path k u) u result }
    ensures summary { IfOk result (IsSummary definition.now) }
    ensures kind { IfOk result (λ s. (above : PlainKind) → TakesInFrame definition.now frame.now own.now above
        → s.kind ≡ above) }
    ensures seen { IfOk result (λ s. s.seen ≡ own.now.seen) }
    ensures ticks { IfOk result (λ _. steps.new ≡ steps.old + rungs_in frame.now) }
    ensures most { steps.new ≤ steps.old + rungs_in frame.now }
{
    match frame {
        Frame::Op {
            op,
            names,
            children,
            hot,
        } => {
            let words = names.as_slice();
            let below = children.as_slice();
            let node = operator_raised(
                alloc, definition, starts, *op, words, below, *hot, own, steps,
            )?;
            Ok(node)
        }
        Frame::Elem { list, before, rest } => {
            let front = before.as_slice();
            let whole = raised_in_list(alloc, definition, starts, *list, front, rest, own, steps)?;
            Ok(whole)
        }
    }
}

/// Returns the summary of the whole tree from that of the tree at the place that the frames surround. What a node
/// begins with is made where it is not among the starts.
pub(crate) fn climb_from<L: Ledger>(
    alloc: Global,
    definition: &Definition,
    starts: &Starts,
    frames: &[Frame],
    own: &Summary,
    steps: &mut Steps<L>,
) -> Result<Summary, EvalFault>
    requires sound { IsSound definition.now }
    requires starts { AreStarts definition.now starts.now }
    requires own { IsSummary definition.now own.now }
    requires frames { CanClimb definition.now frames.now own.now.kind }
    ensures answer { (f t : Fragment) (path : Path) → StandFor definition.now frames.now path f t
        → IsSummaryOf definition.now t own.now
        → IsClimbed definition.now path f result }
    ensures nothing { IfOk result (λ s. frames.now ≡ [] → s ≡ own.now) }
    ensures summary { IfOk result (IsSummary definition.now) }
    ensures seen { IfOk result (λ s. s.seen ≡ own.now.seen) }
    ensures ticks { IfOk result (λ _. steps.new ≡ steps.old + rungs frames.now) }
    ensures most { steps.new ≤ steps.old + rungs frames.now }
{
    let mut whole = own.share()?;
    let mut left = frames;
    while let Some((frame, more)) = left.split_first() {
        let next = raised(alloc, definition, starts, frame, &whole, steps)?;
        whole = next;
        left = more;
    }
    Ok(whole)
}

/// Returns the summary of the whole tree from that of the tree at the place that the frames surround, the innermost
/// frame first. It serves whichever tree is there: the one that the frames were made of, one with its value observed,
/// or another one of the same kind.
///
/// It takes one tick for an `Op` frame, and for an `Elem` frame one for its element and for each of those before it.
/// `Wide` has the number of the first step, in this order, whose relation passes the limit; `Memory` is returned when
/// memory runs out. The cost is that of these evaluations.
pub fn climb<L: Ledger>(
    alloc: Global,
    definition: &Definition,
    frames: &[Frame],
    own: &Summary,
    steps: &mut Steps<L>,
) -> Result<Summary, EvalFault>
    requires sound { IsSound definition.now }
    requires own { IsSummary definition.now own.now }
    requires frames { CanClimb definition.now frames.now own.now.kind }
    ensures answer { (f t : Fragment) (path : Path) → StandFor definition.now frames.now path f t
        → IsSummaryOf definition.now t own.now
        → IsClimbed definition.now path f result }
    ensures nothing { IfOk result (λ s. frames.now ≡ [] → s ≡ own.now) }
    ensures summary { IfOk result (IsSummary definition.now) }
    ensures seen { IfOk result (λ s. s.seen ≡ own.now.seen) }
    ensures ticks { IfOk result (λ _. steps.new ≡ steps.old + rungs frames.now) }
    ensures most { steps.new ≤ steps.old + rungs frames.now }
{
    let starts = Starts::none(alloc);
    climb_from(alloc, definition, &starts, frames, own, steps)
}
