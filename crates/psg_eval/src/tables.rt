//! What is looked up of a definition where its trees are evaluated, made once.
ghost use Rattle.std.specs.Prelude.{◌≡◌, ◌+◌, ◌<◌, ◌≤◌, [], ℕ, IfOk, Some, length, slice_get, sum_by};
ghost use Rattle.psg_grammar.specs.declared.types.Definition.{Definition as Language};
ghost use Rattle.psg_grammar.specs.declared.types.Kind.TheVariants.{List as OfList, Phylum as OfPhylum};
ghost use Rattle.psg_grammar.specs.declared.types.Operator.{Operator};
ghost use Rattle.psg_grammar.specs.Fragments.{Fragment, cell, children_of, ending, hole};
ghost use Rattle.psg_grammar.specs.Paths.{Path};
ghost use Rattle.psg_grammar.specs.Sound.{IsSound};
ghost use Rattle.psg_grammar.specs.Steps.{steps_at};
ghost use Rattle.psg_grammar.specs.WellFormed.{IsListEnd};
ghost use Rattle.psg_eval.specs.Climbing.{IsClimbed, IsReached};
ghost use Rattle.psg_eval.specs.Frames.{AllSummariesBut, AreSilentBut, CanClimb, StandFor, put_at, rungs};
ghost use Rattle.psg_eval.specs.SpaceTables.{AreDeclaringSpaces};
ghost use Rattle.psg_eval.specs.Starts.{AreTables};
ghost use Rattle.psg_eval.specs.Summaries.{Answers, AreSummariesOf, IsSummary, IsSummaryOf, TakesAt, TakesCell};
ghost use Rattle.psg_eval.specs.Trees.{IsNode};
ghost use Rattle.psg_eval.specs.declared.summary.SummaryParts.{SummaryParts as PlainParts};

use crate::climbing::{climb_from, operator_raised};
use crate::evaluating::{cell_from, end_from, hole_from, op_from};
use crate::frame::Frame;
use crate::starts::{Starts, spaces_of};
use crate::summary::{EvalFault, Summary};
use psg_grammar::{Definition, declaring};
use psg_terms::{Steps, Txt};
use std::alloc::{AllocError, Global};
use std::sync::ledger::Ledger;

/// What is looked up of a definition where its trees are evaluated: for each phylum the spaces in which it declares,
/// the summaries of placeholders and ends, and what nodes and cells begin with. It is made once for a definition.
///
/// Its calls answer what those of the same name answer without tables, and count the same steps. No call gives a
/// summary that it keeps without a tick.
#[derive(Drop)]
pub struct Tables {
    pub(crate) spaces: Vec<Vec<u32>>,
    pub(crate) starts: Starts,
}

impl Tables {
    /// Makes the tables of the definition. It makes a relation for each phylum and for each operator with at most one
    /// name position, and three for each list, as the first steps of evaluations do, and searches what declares. It
    /// fails where memory runs out.
    pub fn of(alloc: Global, definition: &Definition) -> Result<Tables, AllocError>
        requires { IsSound definition.now }
        ensures { IfOk result (AreTables definition.now) }
    {
        let spaces = declaring(alloc, definition)?;
        let starts = Starts::of(alloc, definition, spaces.as_slice())?;
        Ok(Tables { spaces, starts })
    }

    /// Returns for each phylum the numbers of the spaces in which it declares, ascending.
    pub fn spaces(&self) -> &[Vec<u32>]
        ensures { (def : Language) → AreTables def self.now → AreDeclaringSpaces def result.now }
    {
        self.spaces.as_slice()
    }

    /// Returns the summary of a placeholder, as `eval_hole` does. The summary is shared. It takes one tick.
    pub fn eval_hole<L: Ledger>(
        &self,
        alloc: Global,
        definition: &Definition,
        phylum: u32,
        steps: &mut Steps<L>,
    ) -> Result<Summary, EvalFault>
        requires sound { IsSound definition.now }
        requires tables { AreTables definition.now self.now }
        requires phylum { phylum < length definition.now.phyla }
        ensures answer { Answers definition.now (hole phylum) result }
        ensures summary { IfOk result (IsSummary definition.now) }
        ensures ticks { steps.new ≡ steps.old + 1 }
    {
        hole_from(alloc, definition, &self.starts, phylum, steps)
    }

    /// Returns the summary of an operator's node, as `eval_op` does. Its step 0 is looked up where the operator has at
    /// most one name position, and the whole summary where it has no names and no children. It takes one tick.
    pub fn eval_op<L: Ledger>(
        &self,
        alloc: Global,
        definition: &Definition,
        op: u32,
        names: &[Txt],
        children: &[Summary],
        steps: &mut Steps<L>,
    ) -> Result<Summary, EvalFault>
        requires sound { IsSound definition.now }
        requires tables { AreTables definition.now self.now }
        requires takes { TakesAt definition.now op names.now children.now }
        ensures answer { (f : Fragment) → IsNode definition.now op names.now f
            → AreSummariesOf definition.now f children.now → Answers definition.now f result }
        ensures summary { IfOk result (IsSummary definition.now) }
        ensures kind { IfOk result (λ s. (o : Operator) → slice_get definition.now.operators op ≡ Some o
            → s.kind ≡ OfPhylum o.phylum) }
        ensures seen { IfOk result (λ s. s.seen ≡ sum_by (λ (c : PlainParts). c.seen) children.now) }
        ensures ticks { steps.new ≡ steps.old + 1 }
    {
        op_from(alloc, definition, &self.starts, op, names, children, steps)
    }

    /// Returns the summary of a list from those of its first element and of the list after it, as `eval_cell` does. Its
    /// step 0 is looked up. It takes one tick.
    pub fn eval_cell<L: Ledger>(
        &self,
        alloc: Global,
        definition: &Definition,
        list: u32,
        element: &Summary,
        rest: &Summary,
        steps: &mut Steps<L>,
    ) -> Result<Summary, EvalFault>
        requires sound { IsSound definition.now }
        requires tables { AreTables definition.now self.now }
        requires takes { TakesCell definition.now list element.now rest.now }
        ensures answer { (e r : Fragment) → IsSummaryOf definition.now e element.now
            → IsSummaryOf definition.now r rest.now → Answers definition.now (cell list e r) result }
        ensures summary { IfOk result (IsSummary definition.now) }
        ensures kind { IfOk result (λ s. s.kind ≡ OfList list) }
        ensures seen { IfOk result (λ s. s.seen ≡ element.now.seen + rest.now.seen) }
        ensures ticks { steps.new ≡ steps.old + 1 }
    {
        cell_from(alloc, definition, &self.starts, list, element, rest, steps)
    }

    /// Returns the summary of a list's end, as `eval_end` does. The summary is shared. It takes one tick.
    pub fn eval_end<L: Ledger>(
        &self,
        alloc: Global,
        definition: &Definition,
        list: u32,
        unfinished: bool,
        steps: &mut Steps<L>,
    ) -> Result<Summary, EvalFault>
        requires sound { IsSound definition.now }
        requires tables { AreTables definition.now self.now }
        requires end { IsListEnd definition.now list unfinished }
        ensures answer { Answers definition.now (ending list unfinished) result }
        ensures summary { IfOk result (IsSummary definition.now) }
        ensures ticks { steps.new ≡ steps.old + 1 }
    {
        let spaces = spaces_of(definition, self.spaces.as_slice(), list);
        end_from(
            alloc,
            definition,
            &self.starts,
            spaces,
            list,
            unfinished,
            steps,
        )
    }

    /// Returns the summary of the whole tree from that of the tree at the place that the frames surround, as `climb`
    /// does. The steps 0 are looked up, as in `eval_op` and `eval_cell`.
    ///
    /// It takes one tick for an `Op` frame, and for an `Elem` frame one for its element and for each of those before
    /// it.
    pub fn climb<L: Ledger>(
        &self,
        alloc: Global,
        definition: &Definition,
        frames: &[Frame],
        own: &Summary,
        steps: &mut Steps<L>,
    ) -> Result<Summary, EvalFault>
        requires sound { IsSound definition.now }
        requires tables { AreTables definition.now self.now }
        requires own { IsSummary definition.now own.now }
        requires frames { CanClimb definition.now frames.now own.now.kind }
        ensures answer { (f t : Fragment) (path : Path) → StandFor definition.now frames.now path f t
            → IsSummaryOf definition.now t own.now
            → IsClimbed definition.now path f result }
        ensures nothing { IfOk result (λ s. frames.now ≡ [] → s ≡ own.now) }
        ensures summary { IfOk result (IsSummary definition.now) }
        ensures seen { IfOk result (λ s. s.seen ≡ own.now.seen) }
        ensures ticks { IfOk result (λ _. steps.new ≡ steps.old + rungs frames.now) }
        ensures most { steps.new ≤ steps.old + rungs frames.now }
    {
        climb_from(alloc, definition, &self.starts, frames, own, steps)
    }

    /// Returns the summary of an operator's node from that of its child of the number `hot`, as `raised_operator` does.
    /// Its step 0 is looked up, as in `eval_op`. It takes one tick, or none where memory runs out before.
    pub fn raised_operator<L: Ledger>(
        &self,
        alloc: Global,
        definition: &Definition,
        op: u32,
        names: &[Txt],
        children: &[Summary],
        hot: u32,
        own: &Summary,
        steps: &mut Steps<L>,
    ) -> Result<Summary, EvalFault>
        requires sound { IsSound definition.now }
        requires tables { AreTables definition.now self.now }
        requires hot { hot < length children.now }
        requires silent { AreSilentBut hot children.now }
        requires takes { TakesAt definition.now op names.now (put_at hot own.now children.now) }
        ensures answer { (u t : Fragment) (path : Path) (k : ℕ) → IsNode definition.now op names.now u → k ≡ hot
            → slice_get (children_of u) k ≡ Some t → AllSummariesBut definition.now k (children_of u) children.now
            → IsSummaryOf definition.now t own.now
            → IsReached definition.now (steps_at definition.now path k u) u result }
        ensures summary { IfOk result (IsSummary definition.now) }
        ensures kind { IfOk result (λ s. (o : Operator) → slice_get definition.now.operators op ≡ Some o
            → s.kind ≡ OfPhylum o.phylum) }
        ensures seen { IfOk result (λ s. s.seen ≡ own.now.seen) }
        ensures ticks { IfOk result (λ _. steps.new ≡ steps.old + 1) }
        ensures most { steps.new ≤ steps.old + 1 }
    {
        operator_raised(
            alloc,
            definition,
            &self.starts,
            op,
            names,
            children,
            hot,
            own,
            steps,
        )
    }
}
