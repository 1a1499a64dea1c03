//! The summaries of the suffixes of a list.
ghost use Rattle.std.specs.Prelude.{◌≡◌, ◌+◌, ◌++◌, ◌∷◌, ◌≤◌, ◌<◌, ◌⊎◌, ℕ, [], false, drop, reverse, length, take};
ghost use Rattle.std.specs.Prelude.{IfErr, IfOk, IsTrue, OnOk};
ghost use Rattle.std.specs.List.{AllByRecursion};
ghost use Rattle.psg_eval.specs.Summaries.{IsSummary};
ghost use Rattle.psg_cache.specs.Annotated.{rests_in, whole_in};
ghost use Rattle.psg_cache.specs.Renoting.{AreOfCells, first_or, IsCellsFault, TakesCells};
ghost use Rattle.psg_cache.specs.Walks.{IsAnswerFault, IsKnown, IsListFault, IsListTopped, TakesElements};
ghost use Rattle.std.specs.Prelude.{Ok as InOk};

use crate::note::{Note, NoteFault};
use crate::parts::Language;
use psg_eval::{EvalFault, Summary};
use psg_terms::{Seq, Steps};
use psg_tree::Path;
use std::alloc::{AllocError, Global};
use std::sync::ledger::Ledger;

/// The summary of a tree, and of a list those of the suffixes after each element.
#[derive(Drop)]
pub(crate) struct Suffixes {
    pub(crate) whole: Summary,
    pub(crate) rests: Seq<Summary>,
}

/// Returns the summary, or the path beside the step whose relation is too large.
pub(crate) fn answered(
    alloc: Global,
    path: &[u32],
    answer: Result<Summary, EvalFault>,
) -> Result<Summary, NoteFault>
    ensures ok { IfOk result (λ s. answer ≡ InOk s) }
    ensures err { IfErr result (IsAnswerFault path.now answer) }
{
    match answer {
        Ok(summary) => Ok(summary),
        Err(EvalFault::Wide { step }) => {
            let path = Path::of(alloc, path)?;
            Err(NoteFault::Wide { path, step })
        }
        Err(EvalFault::Memory) => Err(NoteFault::Memory),
    }
}

/// Returns the last summary, or the second argument where there is none.
fn latest<'a>(made: &'a [Summary], behind: &'a Summary) -> &'a Summary
    ensures { result.now ≡ first_or behind.now (reverse made.now) }
{
    match made.last() {
        Some(last) => last,
        None => behind,
    }
}

/// Adds one more owner of each of the summaries.
fn push_shared(made: &mut Vec<Summary>, summaries: &[Summary]) -> Result<(), AllocError>
    ensures { OnOk result (made.new.items ≡ made.old.items ++ summaries.now) }
{
    for summary in summaries {
        made.push(summary.share()?)?;
    }
    Ok(())
}

/// Returns the summary of the old suffix at the place, or `was`, that of the suffix after them, where there is none.
fn old_at<'a>(olds: &'a [Summary], was: &'a Summary, place: usize) -> &'a Summary
    ensures { result.now ≡ first_or was.now (drop place olds.now) }
{
    match olds.get(place) {
        Some(old) => old,
        None => was,
    }
}

/// Says whether the cell before the place is evaluated: there is one, and the suffix at the place is not the old one.
fn is_due(made: &[Summary], behind: &Summary, olds: &[Summary], was: &Summary, place: usize) -> bool
    ensures more { IsTrue result → 0 < place }
    ensures done { result ≡ false → (place ≤ length olds.now)
        × ((place ≡ 0) ⊎ (first_or behind.now (reverse made.now) ≡ first_or was.now (drop place olds.now))) }
{
    if place == 0 {
        return false;
    }
    if place > olds.len() {
        return true;
    }
    let old = old_at(olds, was, place);
    let new = latest(made, behind);
    !new.same(old)
}

/// Puts the new summaries after the first old ones, as many as `number` says. All of them are moved.
fn following(
    olds: Vec<Summary>,
    number: usize,
    news: Vec<Summary>,
) -> Result<Vec<Summary>, AllocError>
    ensures { IfOk result (λ all. all.items ≡ take number olds.items ++ news.items) }
{
    let mut all = olds;
    let mut rest = news;
    all.truncate(number);
    all.append(&mut rest)?;
    Ok(all)
}

/// Returns the summaries of the suffixes that begin with these elements, in front of a suffix: of the cells from the
/// last to the first. `olds` has those of an old list with the same first elements, in front of `was`: from a suffix on
/// that is the old one, they are kept.
pub(crate) fn cells<L: Ledger>(
    alloc: Global,
    language: Language,
    list: u32,
    elements: &[Summary],
    olds: Vec<Summary>,
    was: &Summary,
    behind: &Summary,
    path: &[u32],
    steps: &mut Steps<L>,
) -> Result<Vec<Summary>, NoteFault>
    requires language { IsKnown language }
    requires takes { TakesCells language.definition.now list elements.now behind.now }
    requires olds { (k : ℕ) × AreOfCells language.definition.now list (take k elements.now) was.now olds.items }
    requires old_usual { AllByRecursion (IsSummary language.definition.now) olds.items }
    ensures ok { IfOk result
        (λ news. AreOfCells language.entry.definition.now list elements.now behind.now news.items) }
    ensures usual { IfOk result (λ news. AllByRecursion (IsSummary language.entry.definition.now) news.items) }
    ensures ticks { IfOk result (λ _. olds.items ≡ [] → steps.new ≡ steps.old + length elements.now) }
    ensures bounded { steps.new ≤ steps.old + length elements.now }
    ensures err { IfErr result
        (IsCellsFault language.entry.definition.now path.now list elements.now behind.now) }
{
    let definition = language.definition;
    let tables = language.tables;
    let mut made = Vec::new(alloc);
    let mut left = elements.len();
    let before = olds.as_slice();
    'turn: while is_due(made.as_slice(), behind, before, was, left) {
        left -= 1;
        let latter = made.as_slice();
        let rest = latest(latter, behind);
        let answer = tables.eval_cell(alloc, definition, list, &elements[left], rest, steps);
        let cell = answered(alloc, path, answer)?;
        made.push(cell)?;
    }
    made.reverse();
    let all = following(olds, left, made)?;
    Ok(all)
}

/// Returns, of a list, the summaries of the first suffixes, as many as `number` says.
pub(crate) fn suffixes_before(
    alloc: Global,
    note: &Note,
    number: usize,
) -> Result<Vec<Summary>, AllocError>
    requires { number ≤ length (rests_in note.now) }
    ensures { IfOk result (λ found. found.items ≡ take number (whole_in note.now ∷ rests_in note.now)) }
{
    let mut found = Vec::new(alloc);
    if number > 0 {
        found.push(note.root().share()?)?;
        push_shared(&mut found, &note.rests()[..number - 1])?;
    }
    Ok(found)
}

/// Cuts the summaries, of which there are some, into the first one and those after it. It moves all of them.
fn split(all: Vec<Summary>) -> Suffixes
    requires some { 0 < length all.items }
    ensures { result.whole ∷ result.rests ≡ all.items }
{
    let mut rests = all;
    let whole = rests.remove(0);
    Suffixes {
        whole,
        rests: Seq::of(rests),
    }
}

/// Joins the summaries of all suffixes: the new ones, a kept one, and those after it.
pub(crate) fn joined(
    news: Vec<Summary>,
    kept: &Summary,
    rests: &[Summary],
) -> Result<Suffixes, AllocError>
    ensures { IfOk result (λ s. s.whole ∷ s.rests ≡ news.items ++ kept.now ∷ rests.now) }
{
    let mut all = news;
    all.push(kept.share()?)?;
    push_shared(&mut all, rests)?;
    let suffixes = split(all);
    Ok(suffixes)
}

/// Returns the summaries of a list's suffixes from those of its elements: of its end, and then of its cells.
pub(crate) fn top_list<L: Ledger>(
    alloc: Global,
    language: Language,
    list: u32,
    elements: &[Summary],
    unfinished: bool,
    path: &[u32],
    steps: &mut Steps<L>,
) -> Result<Suffixes, NoteFault>
    requires language { IsKnown language }
    requires takes { TakesElements language.definition.now list unfinished elements.now }
    ensures ok { IfOk result (λ s.
        IsListTopped language.entry.definition.now list unfinished elements.now s.whole s.rests) }
    ensures ticks { IfOk result (λ _. steps.new ≡ steps.old + (length elements.now + 1)) }
    ensures bounded { steps.new ≤ steps.old + (length elements.now + 1) }
    ensures err { IfErr result (IsListFault language.entry.definition.now path.now list unfinished elements.now) }
{
    let definition = language.definition;
    let tables = language.tables;
    let ended = tables.eval_end(alloc, definition, list, unfinished, steps);
    let end = answered(alloc, path, ended)?;
    let none = Vec::new(alloc);
    let news = cells(
        alloc, language, list, elements, none, &end, &end, path, steps,
    )?;
    let all = joined(news, &end, &[])?;
    Ok(all)
}
