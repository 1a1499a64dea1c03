//! The relations of the steps of a tree, and the claims on them.
ghost use Rattle.std.specs.Prelude.{◌≡◌, ◌↔◌, ◌≤◌, ◌+◌, ◌-◌, ◌*◌, ◌^◌, ◌++◌, [], length, IfOk, IsTrue, List, OnOk};
ghost use Rattle.std.specs.Prelude.{Some, ℕ};
ghost use Rattle.psg_grammar.specs.Fragments.{Fragment};
ghost use Rattle.psg_grammar.specs.Paths.{node_at};
ghost use Rattle.psg_grammar.specs.Work.{work_of};
ghost use Rattle.psg_cache.specs.Annotated.{tree_in};
ghost use Rattle.psg_cache.specs.Notes.{IsFormed, IsNoteOf};
ghost use Rattle.psg_eval.specs.Summaries.{StaysWithin};
ghost use Rattle.psg_specimen.specs.Languages.{IsLanguage};
ghost use Rattle.psg_explain.specs.declared.stages.Site.TheVariants as sites;
ghost use Rattle.psg_explain.specs.Plans.{Step};
ghost use Rattle.psg_explain.specs.Relations.{AreOwnFrom, EndsEmpty, HasRows, IsNodeStep, IsRelated, IsWholeOf};
ghost use Rattle.psg_explain.specs.Sources.{IsNodeSite};

use crate::checking::is_none;
use crate::relating::{Ended, Rows, cell_rows, end_rows, hole_rows, node_rows, summary_at};
use crate::stages::{Site, Stage};
use psg_cache::Note;
use psg_eval::Summary;
use psg_specimen::{Language, LanguageParts};
use psg_terms::Steps;
use psg_tree::{Shape, Tree};
use std::alloc::{AllocError, Global};
use std::sync::ledger::Ledger;

/// The relations of a node's own steps, and of a list's end or cell what is known of the list from there on.
#[derive(Drop)]
struct NodeRows {
    rows: Vec<Rows>,
    rest: Option<Summary>,
}

/// Returns the relations of the steps of a placeholder or of an operator's node.
fn tree_rows<L: Ledger>(
    alloc: Global,
    language: &LanguageParts,
    note: &Note,
    path: &[u32],
    tree: &Tree,
    steps: &mut Steps<L>,
) -> Result<Vec<Rows>, AllocError>
    requires language { IsLanguage language.now }
    requires note { IsNoteOf language.now.definition (tree_in note.now) note.now }
    requires there { node_at (tree_in note.now) path.now ≡ Some tree.now }
    requires site { IsNodeSite tree.now }
    requires formed { IsFormed language.now.definition tree.now }
    requires light { StaysWithin language.now.definition tree.now }
    ensures rows { IfOk result (λ v. AreOwnFrom language.now.definition tree.now 0 v.items) }
    ensures ticks { steps.new ≤ steps.old + 2 }
{
    match tree.shape() {
        Shape::Hole { phylum } => {
            let rows = hole_rows(alloc, language, *phylum, steps)?;
            Ok(rows)
        }
        Shape::Op { op, parts } => {
            let rows = node_rows(alloc, language, note, path, *op, parts.as_slice(), steps)?;
            Ok(rows)
        }
        Shape::List { .. } => unreachable!(),
    }
}

/// Returns the relations of the steps of a cell, where this is known of the list after its element.
fn rows_of_cell<L: Ledger>(
    alloc: Global,
    language: &LanguageParts,
    note: &Note,
    stage: &Stage,
    list: u32,
    rest: &Option<Summary>,
    steps: &mut Steps<L>,
) -> Result<Ended, AllocError>
    requires language { IsLanguage language.now }
    requires note { IsNoteOf language.now.definition (tree_in note.now) note.now }
    requires step { (s : Step) × IsNodeStep language.now.definition (tree_in note.now) stage.now rest.now s
        × (stage.now.site ≡ sites.Cell list) }
    ensures rows { IfOk result (λ m. (s : Step)
        → IsNodeStep language.now.definition (tree_in note.now) stage.now rest.now s
        → AreOwnFrom language.now.definition s.part 0 m.rows.items) }
    ensures whole { IfOk result (λ m. (s : Step)
        → IsNodeStep language.now.definition (tree_in note.now) stage.now rest.now s
        → IsWholeOf language.now.definition s.part (Some m.whole)) }
    ensures ticks { steps.new ≤ steps.old + 2 }
{
    let Some(number) = stage.cell else {
        unreachable!()
    };
    let Some(known) = rest else { unreachable!() };
    let path = stage.path.as_slice();
    let element = summary_at(alloc, note, path, number as usize)?;
    let made = cell_rows(alloc, language, list, &element, known, steps)?;
    Ok(made)
}

/// Returns the relations of the steps of the node whose first step this is, up to the first without rows.
fn rows_at<L: Ledger>(
    alloc: Global,
    language: &LanguageParts,
    note: &Note,
    stage: &Stage,
    rest: &Option<Summary>,
    steps: &mut Steps<L>,
) -> Result<NodeRows, AllocError>
    requires language { IsLanguage language.now }
    requires note { IsNoteOf language.now.definition (tree_in note.now) note.now }
    requires step { (s : Step) × IsNodeStep language.now.definition (tree_in note.now) stage.now rest.now s }
    ensures rows { IfOk result (λ m. (s : Step)
        → IsNodeStep language.now.definition (tree_in note.now) stage.now rest.now s
        → AreOwnFrom language.now.definition s.part 0 m.rows.items) }
    ensures whole { IfOk result (λ m. (s : Step)
        → IsNodeStep language.now.definition (tree_in note.now) stage.now rest.now s
        → IsWholeOf language.now.definition s.part m.rest) }
    ensures ticks { steps.new ≤ steps.old + 2 }
{
    match &stage.site {
        Site::Node(tree) => {
            let path = stage.path.as_slice();
            let rows = tree_rows(alloc, language, note, path, tree, steps)?;
            Ok(NodeRows { rows, rest: None })
        }
        Site::End { list, unfinished } => {
            let end = end_rows(alloc, language, *list, *unfinished, steps)?;
            Ok(NodeRows {
                rows: end.rows,
                rest: Some(end.whole),
            })
        }
        Site::Cell(list) => {
            let cell = rows_of_cell(alloc, language, note, stage, *list, rest, steps)?;
            Ok(NodeRows {
                rows: cell.rows,
                rest: Some(cell.whole),
            })
        }
    }
}

/// Says whether the last of the relations has no rows.
fn is_over(rows: &[Rows]) -> bool
    ensures { IsTrue result ↔ EndsEmpty rows.now }
{
    match rows.last() {
        Some(last) => {
            let none = is_none(last.as_slice());
            none
        }
        None => false,
    }
}

/// Returns the relations with others after them. All of them are moved.
fn joined(made: Vec<Rows>, more: Vec<Rows>) -> Result<Vec<Rows>, AllocError>
    ensures { IfOk result (λ all. all.items ≡ made.items ++ more.items) }
{
    let mut all = made;
    let mut rest = more;
    all.append(&mut rest)?;
    Ok(all)
}

/// Returns the relations of a node's steps, up to the first without rows.
fn rows_along<L: Ledger>(
    alloc: Global,
    language: &LanguageParts,
    note: &Note,
    stages: &[Stage],
    steps: &mut Steps<L>,
) -> Result<Vec<Rows>, AllocError>
    requires language { IsLanguage language.now }
    requires note { IsNoteOf language.now.definition (tree_in note.now) note.now }
    requires related { (path : List ℕ) × (node : Fragment)
        × IsRelated language.now.definition (tree_in note.now) path node stages.now }
    ensures rows { IfOk result (λ v. (path : List ℕ) (node : Fragment)
        → IsRelated language.now.definition (tree_in note.now) path node stages.now
        → HasRows language.now.definition path node v.items) }
    ensures ticks { (path : List ℕ) (node : Fragment)
        → IsRelated language.now.definition (tree_in note.now) path node stages.now
        → steps.new ≤ steps.old + 2 * work_of node }
{
    let mut made = Vec::new(alloc);
    let mut rest = None;
    'nodes: while made.len() < stages.len() {
        let place = made.len();
        let own = rows_at(alloc, language, note, &stages[place], &rest, steps)?;
        let over = is_over(own.rows.as_slice());
        rest = own.rest;
        let all = joined(made, own.rows)?;
        if over {
            return Ok(all);
        }
        made = all;
    }
    Ok(made)
}

/// Returns the relations of a node's steps in the language, up to the first without rows.
pub(crate) fn rows_up_to_none<L: Ledger>(
    alloc: Global,
    lang: &Language,
    note: &Note,
    stages: &[Stage],
    steps: &mut Steps<L>,
) -> Result<Vec<Rows>, AllocError>
    requires note { IsNoteOf lang.now (tree_in note.now) note.now }
    requires related { (path : List ℕ) × (node : Fragment)
        × IsRelated lang.now (tree_in note.now) path node stages.now }
    ensures rows { IfOk result (λ v. (path : List ℕ) (node : Fragment)
        → IsRelated lang.now (tree_in note.now) path node stages.now → HasRows lang.now path node v.items) }
    ensures ticks { (path : List ℕ) (node : Fragment)
        → IsRelated lang.now (tree_in note.now) path node stages.now
        → steps.new ≤ steps.old + 2 * work_of node }
{
    let language = lang.parts();
    let made = rows_along(alloc, language, note, stages, steps)?;
    Ok(made)
}
