//! How many pairs of rows the steps of a tree are made of.
ghost use Rattle.std.specs.Prelude.{◌≡◌, ◌-◌, ◌≤◌, ◌^◌, [], List, length, min, take};
ghost use Rattle.psg_grammar.specs.declared.types.Definition.{Definition as PlainDefinition};
ghost use Rattle.psg_explain.specs.Explanations.{all_pairs_in};
ghost use Rattle.psg_explain.specs.PairSums.{made_from};
ghost use Rattle.psg_explain.specs.Plans.{Step, pairs_of, rows_at};
ghost use Rattle.psg_explain.specs.Sources.{AreStages, IsStage};

use crate::relating::Rows;
use crate::stages::{Source, Stage};

/// Counts the rows of the step at the place; none where there is no such step.
fn many(rows: &[Rows], place: usize) -> usize
    ensures { result ≡ length (rows_at rows.now place) }
{
    match rows.get(place) {
        Some(own) => own.as_slice().len(),
        None => 0,
    }
}

/// Counts the pairs of rows of which the step is made, where the steps before it have these rows.
fn pairs_of_step(stage: &Stage, front: &[Rows]) -> u128
    ensures { (def : PlainDefinition) (s : Step) → IsStage def stage.now s → result ≡ pairs_of def s.origin front.now }
{
    match &stage.source {
        Source::Own => 0,
        Source::Pair { before, child, .. } => {
            let lefts = many(front, *before);
            let rights = many(front, *child);
            (lefts as u128) * (rights as u128)
        }
        Source::Closed { .. } => 0,
    }
}

/// Counts the pairs of rows of which the steps are made; at 2^128 - 1 the count stays.
pub(crate) fn pairs_in(stages: &[Stage], rows: &[Rows]) -> u128
    ensures { (def : PlainDefinition) (steps : List Step) → AreStages def stages.now steps
        → result ≡ min (all_pairs_in (made_from def [] steps rows.now)) (2 ^ 128 - 1) }
{
    let mut pairs = 0u128;
    let count = rows.len().min(stages.len());
    for i in 0..count {
        let front = &rows[..i];
        let more = pairs_of_step(&stages[i], front);
        pairs = pairs.saturating_add(more);
    }
    pairs
}
