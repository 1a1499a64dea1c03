//! The relations of a node's own steps.
ghost use Rattle.std.specs.Prelude.{◌≡◌, ◌≤◌, ◌+◌, ◌<◌, ◌∷◌, ◌++◌, [], ℕ, length, map, IfOk, Err, Ok, Some};
ghost use Rattle.std.specs.List.{AllByRecursion};
ghost use Rattle.psg_grammar.specs.declared.types.Definition.{Definition as PlainDefinition};
ghost use Rattle.psg_grammar.specs.Fragments.{Fragment, cell, children_of, ending, hole, operator};
ghost use Rattle.psg_grammar.specs.Paths.{node_at};
ghost use Rattle.psg_grammar.specs.WellFormed.{IsListEnd};
ghost use Rattle.psg_tree.specs.Shapes.{subtrees, with_parts};
ghost use Rattle.psg_cache.specs.Annotated.{tree_in};
ghost use Rattle.psg_cache.specs.Notes.{IsFormed, IsNoteOf};
ghost use Rattle.psg_eval.specs.declared.summary.EvalFault.TheVariants as faults;
ghost use Rattle.psg_eval.specs.Summaries.{AllSummaries, IsSummary, IsSummaryOf, StaysWithin, TakesCell};
ghost use Rattle.psg_specimen.specs.Languages.{IsLanguage};
ghost use Rattle.psg_explain.specs.Relations.{AreOwnFrom, rel_of};

use crate::derived::counted;
use crate::putting::shared_row;
use crate::stages::names_of;
use psg_cache::Note;
use psg_eval::{EvalFault, StepRows, Summary, cell_steps, op_steps};
use psg_relation::Rel;
use psg_specimen::LanguageParts;
use psg_terms::{Seq, Steps, Term};
use psg_tree::{Part, Path};
use std::alloc::{AllocError, Global};
use std::sync::ledger::Ledger;

/// The rows of a relation.
pub(crate) type Rows = Seq<Seq<Term>>;

/// Returns the rows of the relation, with one more owner of each term.
fn rows_of(alloc: Global, rel: &Rel) -> Result<Rows, AllocError>
    ensures { IfOk result (λ rows. rows ≡ rel.now) }
{
    let kept = rel.rows();
    let mut rows = Vec::with_capacity(alloc, kept.len())?;
    for row in kept {
        let own = shared_row(alloc, row.terms())?;
        rows.push(Seq::of(own))?;
    }
    Ok(Seq::of(rows))
}

/// Returns the rows of each step.
fn rows_of_steps(alloc: Global, steps: &[StepRows]) -> Result<Vec<Rows>, AllocError>
    ensures { IfOk result (λ v. v.items ≡ map rel_of steps.now) }
{
    let mut all = Vec::with_capacity(alloc, steps.len())?;
    for step in steps {
        let rows = rows_of(alloc, &step.rel)?;
        all.push(rows)?;
    }
    Ok(all)
}

/// Returns the rows of a node that has one step.
fn rows_of_leaf(alloc: Global, whole: &Summary) -> Result<Vec<Rows>, AllocError>
    ensures { IfOk result (λ v. v.items ≡ whole.now.rel ∷ []) }
{
    let rows = rows_of(alloc, whole.rel())?;
    let mut all = Vec::with_capacity(alloc, 1)?;
    all.push(rows)?;
    Ok(all)
}

/// Returns the summary, where no relation is too large.
fn known(answer: Result<Summary, EvalFault>) -> Result<Summary, AllocError>
    requires { (step : ℕ) → answer ≡ Err (faults.Wide step) → ⊥ }
    ensures { IfOk result (λ s. answer ≡ Ok s) }
{
    match answer {
        Ok(summary) => Ok(summary),
        Err(EvalFault::Memory) => Err(AllocError),
        Err(EvalFault::Wide { .. }) => unreachable!(),
    }
}

/// Returns the steps, where no relation is too large.
fn known_steps(answer: Result<Vec<StepRows>, EvalFault>) -> Result<Vec<StepRows>, AllocError>
    requires { (step : ℕ) → answer ≡ Err (faults.Wide step) → ⊥ }
    ensures { IfOk result (λ s. answer ≡ Ok s) }
{
    match answer {
        Ok(steps) => Ok(steps),
        Err(EvalFault::Memory) => Err(AllocError),
        Err(EvalFault::Wide { .. }) => unreachable!(),
    }
}

/// Returns the summary of the child of the number of the node at the path.
pub(crate) fn summary_at(
    alloc: Global,
    note: &Note,
    path: &[u32],
    number: usize,
) -> Result<Summary, AllocError>
    requires { (definition : PlainDefinition) × IsNoteOf definition (tree_in note.now) note.now
        × (t : Fragment) × (node_at (tree_in note.now) (path.now ++ number ∷ []) ≡ Some t) }
    ensures { IfOk result (λ s. (definition : PlainDefinition) (t : Fragment)
        → IsNoteOf definition (tree_in note.now) note.now
        → node_at (tree_in note.now) (path.now ++ number ∷ []) ≡ Some t
        → IsSummaryOf definition t s × IsSummary definition s) }
{
    let step = counted(number)?;
    let mut steps = Vec::from_slice(alloc, path)?;
    steps.push(step)?;
    let below = Path::of(alloc, steps.as_slice())?;
    let found = note.summary(&below);
    match found {
        Some(summary) => {
            let copy = summary.share()?;
            Ok(copy)
        }
        None => unreachable!(),
    }
}

/// Returns the summaries of the children of the node at the path, which are as many as the number says.
fn summaries(
    alloc: Global,
    note: &Note,
    path: &[u32],
    count: usize,
) -> Result<Vec<Summary>, AllocError>
    requires { (definition : PlainDefinition) × IsNoteOf definition (tree_in note.now) note.now
        × (node : Fragment) × (node_at (tree_in note.now) path.now ≡ Some node)
        × (length (children_of node) ≡ count) }
    ensures { IfOk result (λ v. (definition : PlainDefinition) (node : Fragment)
        → IsNoteOf definition (tree_in note.now) note.now → node_at (tree_in note.now) path.now ≡ Some node
        → length (children_of node) ≡ count
        → AllSummaries definition (children_of node) v.items × AllByRecursion (IsSummary definition) v.items) }
{
    let mut found = Vec::with_capacity(alloc, count)?;
    for i in 0..count {
        let one = summary_at(alloc, note, path, i)?;
        found.push(one)?;
    }
    Ok(found)
}

/// Counts the trees among the parts.
fn count_trees(parts: &[Part]) -> usize
    ensures { result ≡ length (subtrees parts.now) }
{
    let mut count = 0usize;
    for i in 0..parts.len() {
        count += is_tree(&parts[i]);
    }
    count
}

/// Counts 1 for a tree and 0 for another part.
fn is_tree(part: &Part) -> usize
    ensures most { result ≤ 1 }
    ensures one { result ≡ length (subtrees (part.now ∷ [])) }
{
    match part {
        Part::Sub(_) => 1,
        Part::Name(_) => 0,
        Part::Number(_) => 0,
        Part::Text(_) => 0,
    }
}

/// Returns the relation of a placeholder.
pub(crate) fn hole_rows<L: Ledger>(
    alloc: Global,
    language: &LanguageParts,
    phylum: u32,
    steps: &mut Steps<L>,
) -> Result<Vec<Rows>, AllocError>
    requires language { IsLanguage language.now }
    requires formed { IsFormed language.now.definition (hole phylum) }
    requires light { StaysWithin language.now.definition (hole phylum) }
    ensures rows { IfOk result (λ v. AreOwnFrom language.now.definition (hole phylum) 0 v.items) }
    ensures ticks { steps.new ≤ steps.old + 2 }
{
    let answer = language
        .tables
        .eval_hole(alloc, &language.definition, phylum, steps);
    let whole = known(answer)?;
    let rows = rows_of_leaf(alloc, &whole)?;
    Ok(rows)
}

/// Returns the relations of an operator's node at the path, up to the first without rows.
pub(crate) fn node_rows<L: Ledger>(
    alloc: Global,
    language: &LanguageParts,
    note: &Note,
    path: &[u32],
    op: u32,
    parts: &[Part],
    steps: &mut Steps<L>,
) -> Result<Vec<Rows>, AllocError>
    requires language { IsLanguage language.now }
    requires note { IsNoteOf language.now.definition (tree_in note.now) note.now }
    requires there { node_at (tree_in note.now) path.now ≡ Some (with_parts (operator op) parts.now) }
    requires formed { IsFormed language.now.definition (with_parts (operator op) parts.now) }
    requires light { StaysWithin language.now.definition (with_parts (operator op) parts.now) }
    ensures rows { IfOk result
        (λ v. AreOwnFrom language.now.definition (with_parts (operator op) parts.now) 0 v.items) }
    ensures ticks { steps.new ≤ steps.old + 2 }
{
    let names = names_of(alloc, parts)?;
    let count = count_trees(parts);
    let children = summaries(alloc, note, path, count)?;
    let definition = &language.definition;
    let answer = op_steps(
        alloc,
        definition,
        op,
        names.as_slice(),
        children.as_slice(),
        steps,
    );
    let all = known_steps(answer)?;
    let rows = rows_of_steps(alloc, all.as_slice())?;
    Ok(rows)
}

/// The relations of the steps of a list's end or of a cell, and what is known of the list from there on.
#[derive(Drop)]
pub(crate) struct Ended {
    pub(crate) rows: Vec<Rows>,
    pub(crate) whole: Summary,
}

/// Returns the relation of a list's end.
pub(crate) fn end_rows<L: Ledger>(
    alloc: Global,
    language: &LanguageParts,
    list: u32,
    unfinished: bool,
    steps: &mut Steps<L>,
) -> Result<Ended, AllocError>
    requires language { IsLanguage language.now }
    requires end { IsListEnd language.now.definition list unfinished }
    requires light { StaysWithin language.now.definition (ending list unfinished) }
    ensures rows { IfOk result (λ e. AreOwnFrom language.now.definition (ending list unfinished) 0 e.rows.items) }
    ensures whole { IfOk result (λ e. IsSummaryOf language.now.definition (ending list unfinished) e.whole
        × IsSummary language.now.definition e.whole) }
    ensures ticks { steps.new ≤ steps.old + 2 }
{
    let definition = &language.definition;
    let answer = language
        .tables
        .eval_end(alloc, definition, list, unfinished, steps);
    let whole = known(answer)?;
    let rows = rows_of_leaf(alloc, &whole)?;
    Ok(Ended { rows, whole })
}

/// Returns the relations of a cell's steps, up to the first without rows.
pub(crate) fn cell_rows<L: Ledger>(
    alloc: Global,
    language: &LanguageParts,
    list: u32,
    element: &Summary,
    rest: &Summary,
    steps: &mut Steps<L>,
) -> Result<Ended, AllocError>
    requires language { IsLanguage language.now }
    requires takes { TakesCell language.now.definition list element.now rest.now }
    requires light { (e : Fragment) × (r : Fragment) × IsSummaryOf language.now.definition e element.now
        × IsSummaryOf language.now.definition r rest.now × StaysWithin language.now.definition (cell list e r) }
    ensures rows { IfOk result (λ m. (e r : Fragment) → IsSummaryOf language.now.definition e element.now
        → IsSummaryOf language.now.definition r rest.now
        → AreOwnFrom language.now.definition (cell list e r) 0 m.rows.items) }
    ensures whole { IfOk result (λ m. (e r : Fragment) → IsSummaryOf language.now.definition e element.now
        → IsSummaryOf language.now.definition r rest.now
        → IsSummaryOf language.now.definition (cell list e r) m.whole × IsSummary language.now.definition m.whole) }
    ensures ticks { steps.new ≤ steps.old + 2 }
{
    let definition = &language.definition;
    let answer = cell_steps(alloc, definition, list, element, rest, steps);
    let all = known_steps(answer)?;
    let summary = language
        .tables
        .eval_cell(alloc, definition, list, element, rest, steps);
    let whole = known(summary)?;
    let rows = rows_of_steps(alloc, all.as_slice())?;
    Ok(Ended { rows, whole })
}
