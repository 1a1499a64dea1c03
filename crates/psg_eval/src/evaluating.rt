//! Summaries of nodes, cells, ends and placeholders.
ghost use Rattle.std.specs.Prelude.{◌≡◌, ◌+◌, ◌<◌, ℕ, true, length, slice_get, Some, IfOk, List, sum_by};
ghost use Rattle.psg_grammar.specs.Fragments.{Fragment, hole, ending, cell};
ghost use Rattle.psg_grammar.specs.declared.types.Kind.TheVariants.{List as OfList, Phylum as OfPhylum};
ghost use Rattle.psg_grammar.specs.declared.types.Operator.{Operator};
ghost use Rattle.psg_eval.specs.declared.summary.SummaryParts.{SummaryParts as PlainParts};
ghost use Rattle.psg_grammar.specs.Sound.{IsSound};
ghost use Rattle.psg_grammar.specs.WellFormed.{IsListEnd};
ghost use Rattle.psg_eval.specs.Starts.{AreStarts};
ghost use Rattle.psg_eval.specs.Trees.{IsNode};
ghost use Rattle.psg_eval.specs.Summaries.{Answers, AreSpacesOfList, AreSummariesOf, IsSummary};
ghost use Rattle.psg_eval.specs.Summaries.{IsSummaryOf, TakesAt, TakesCell};

use crate::cell::cell_parts;
use crate::leaves::{closed_end, open_end, placeholder};
use crate::node::node;
use crate::partial::summary_of;
use crate::starts::Starts;
use crate::summary::{EvalFault, Summary};
use psg_grammar::{Definition, Kind};
use psg_terms::{Steps, Txt};
use std::alloc::Global;
use std::sync::ledger::Ledger;

/// Returns the summary of a placeholder: its values are those of the hole rows of its phylum. It declares nothing.
///
/// It takes one tick. Its only step has the number 0, and `Wide` names it exactly where its relation passes the limit.
pub fn eval_hole<L: Ledger>(
    alloc: Global,
    definition: &Definition,
    phylum: u32,
    steps: &mut Steps<L>,
) -> Result<Summary, EvalFault>
    requires sound { IsSound definition.now }
    requires phylum { phylum < length definition.now.phyla }
    ensures answer { Answers definition.now (hole phylum) result }
    ensures summary { IfOk result (IsSummary definition.now) }
    ensures ticks { steps.new ≡ steps.old + 1 }
{
    steps.tick();
    placeholder(alloc, definition, phylum)
}

/// Returns the summary of an operator's node, from its names and the summaries of its children.
///
/// Step 0 has the operator's rows and own keys, step k adds the child k - 1, and a scope operator has one step more, in
/// which the keys that end there are dropped. `Wide` names the first step whose relation passes the limit. It takes one
/// tick.
pub fn eval_op<L: Ledger>(
    alloc: Global,
    definition: &Definition,
    op: u32,
    names: &[Txt],
    children: &[Summary],
    steps: &mut Steps<L>,
) -> Result<Summary, EvalFault>
    requires sound { IsSound definition.now }
    requires takes { TakesAt definition.now op names.now children.now }
    // whatever the children are: for every tree whose children have these summaries
    ensures answer { (f : Fragment) → IsNode definition.now op names.now f
        → AreSummariesOf definition.now f children.now → Answers definition.now f result }
    ensures summary { IfOk result (IsSummary definition.now) }
    ensures kind { IfOk result (λ s. (o : Operator) → slice_get definition.now.operators op ≡ Some o
        → s.kind ≡ OfPhylum o.phylum) }
    ensures seen { IfOk result (λ s. s.seen ≡ sum_by (λ (c : PlainParts). c.seen) children.now) }
    ensures ticks { steps.new ≡ steps.old + 1 }
{
    let starts = Starts::none(alloc);
    op_from(alloc, definition, &starts, op, names, children, steps)
}

/// Returns the summary of a list from those of its first element and of the list after it, in the steps 0 to 2. `Wide`
/// names the first step whose relation passes the limit. It takes one tick.
pub fn eval_cell<L: Ledger>(
    alloc: Global,
    definition: &Definition,
    list: u32,
    element: &Summary,
    rest: &Summary,
    steps: &mut Steps<L>,
) -> Result<Summary, EvalFault>
    requires sound { IsSound definition.now }
    requires takes { TakesCell definition.now list element.now rest.now }
    ensures answer { (e r : Fragment) → IsSummaryOf definition.now e element.now → IsSummaryOf definition.now r rest.now
        → Answers definition.now (cell list e r) result }
    ensures summary { IfOk result (IsSummary definition.now) }
    ensures kind { IfOk result (λ s. s.kind ≡ OfList list) }
    ensures seen { IfOk result (λ s. s.seen ≡ element.now.seen + rest.now.seen) }
    ensures ticks { steps.new ≡ steps.old + 1 }
{
    let starts = Starts::none(alloc);
    cell_from(alloc, definition, &starts, list, element, rest, steps)
}

/// Returns the summary of a list's end: its values are those of the list's nil rows, or of its hole rows where it is
/// unfinished. An unfinished end may still declare in the spaces in which the list's elements do. The caller gives
/// them, ascending, since they are found once for a definition: psg_grammar's `declaring` has them for the element
/// phylum. It takes one tick.
pub fn eval_end<L: Ledger>(
    alloc: Global,
    definition: &Definition,
    spaces: &[u32],
    list: u32,
    unfinished: bool,
    steps: &mut Steps<L>,
) -> Result<Summary, EvalFault>
    requires sound { IsSound definition.now }
    requires end { IsListEnd definition.now list unfinished }
    requires spaces { AreSpacesOfList definition.now list spaces.now }
    ensures answer { Answers definition.now (ending list unfinished) result }
    ensures summary { IfOk result (IsSummary definition.now) }
    ensures ticks { steps.new ≡ steps.old + 1 }
{
    steps.tick();
    if unfinished {
        open_end(alloc, definition, spaces, list)
    } else {
        closed_end(alloc, definition, list)
    }
}

/// Returns the summary of a placeholder, which is made where it is not among the starts.
pub(crate) fn hole_from<L: Ledger>(
    alloc: Global,
    definition: &Definition,
    starts: &Starts,
    phylum: u32,
    steps: &mut Steps<L>,
) -> Result<Summary, EvalFault>
    requires sound { IsSound definition.now }
    requires starts { AreStarts definition.now starts.now }
    requires phylum { phylum < length definition.now.phyla }
    ensures answer { Answers definition.now (hole phylum) result }
    ensures summary { IfOk result (IsSummary definition.now) }
    ensures ticks { steps.new ≡ steps.old + 1 }
{
    steps.tick();
    match starts.hole(phylum) {
        Some(kept) => {
            let summary = kept.share()?;
            Ok(summary)
        }
        None => placeholder(alloc, definition, phylum),
    }
}

/// Returns the summary of an operator's node. What it begins with is made where it is not among the starts.
pub(crate) fn op_from<L: Ledger>(
    alloc: Global,
    definition: &Definition,
    starts: &Starts,
    op: u32,
    names: &[Txt],
    children: &[Summary],
    steps: &mut Steps<L>,
) -> Result<Summary, EvalFault>
    requires sound { IsSound definition.now }
    requires starts { AreStarts definition.now starts.now }
    requires takes { TakesAt definition.now op names.now children.now }
    ensures answer { (f : Fragment) → IsNode definition.now op names.now f
        → AreSummariesOf definition.now f children.now → Answers definition.now f result }
    ensures summary { IfOk result (IsSummary definition.now) }
    ensures kind { IfOk result (λ s. (o : Operator) → slice_get definition.now.operators op ≡ Some o
        → s.kind ≡ OfPhylum o.phylum) }
    ensures seen { IfOk result (λ s. s.seen ≡ sum_by (λ (c : PlainParts). c.seen) children.now) }
    ensures ticks { steps.new ≡ steps.old + 1 }
{
    steps.tick();
    let operator = &definition.operators.as_slice()[op as usize];
    let start = starts.operator(op);
    let summary = node(alloc, definition, start, operator, names, children)?;
    Ok(summary)
}

/// Returns the summary of a list from those of its first element and of the list after it. The cell without them is
/// made where it is not among the starts.
pub(crate) fn cell_from<L: Ledger>(
    alloc: Global,
    definition: &Definition,
    starts: &Starts,
    list: u32,
    element: &Summary,
    rest: &Summary,
    steps: &mut Steps<L>,
) -> Result<Summary, EvalFault>
    requires sound { IsSound definition.now }
    requires starts { AreStarts definition.now starts.now }
    requires takes { TakesCell definition.now list element.now rest.now }
    ensures answer { (e r : Fragment) → IsSummaryOf definition.now e element.now → IsSummaryOf definition.now r rest.now
        → Answers definition.now (cell list e r) result }
    ensures summary { IfOk result (IsSummary definition.now) }
    ensures kind { IfOk result (λ s. s.kind ≡ OfList list) }
    ensures seen { IfOk result (λ s. s.seen ≡ element.now.seen + rest.now.seen) }
    ensures ticks { steps.new ≡ steps.old + 1 }
{
    steps.tick();
    let start = starts.cell(list);
    let whole = cell_parts(
        alloc,
        definition,
        list,
        start,
        element.known(),
        rest.known(),
    )?;
    let summary = summary_of(alloc, Kind::List(list), whole)?;
    Ok(summary)
}

/// Returns the summary of a list's end, which is made where it is not among the starts.
pub(crate) fn end_from<L: Ledger>(
    alloc: Global,
    definition: &Definition,
    starts: &Starts,
    spaces: &[u32],
    list: u32,
    unfinished: bool,
    steps: &mut Steps<L>,
) -> Result<Summary, EvalFault>
    requires sound { IsSound definition.now }
    requires starts { AreStarts definition.now starts.now }
    requires end { IsListEnd definition.now list unfinished }
    requires spaces { AreSpacesOfList definition.now list spaces.now }
    ensures answer { Answers definition.now (ending list unfinished) result }
    ensures summary { IfOk result (IsSummary definition.now) }
    ensures ticks { steps.new ≡ steps.old + 1 }
{
    match starts.end(list, unfinished) {
        Some(kept) => {
            steps.tick();
            let summary = kept.share()?;
            Ok(summary)
        }
        None => eval_end(alloc, definition, spaces, list, unfinished, steps),
    }
}
