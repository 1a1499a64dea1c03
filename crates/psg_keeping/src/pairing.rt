//! Which tokens of two lists are paired.
ghost use Rattle.std.specs.Prelude.{◌≡◌, ◌≤◌, ◌-◌, ◌⊎◌, ◌++◌, IfOk, OnOk, drop, length, replicate, take};
ghost use Rattle.psg_keeping.specs.Pairing.{ArePairs, BeginApart, EndApart, IsFar, IsMost};
ghost use Rattle.psg_keeping.specs.Rows.{end_of};

use crate::rows::middle_steps;
use crate::same::is_same;
use psg_lexis::Token;
use std::alloc::{AllocError, Global};

/// A step along two lists of tokens.
#[derive(Clone, Copy, Drop)]
pub enum Step {
    /// The next tokens of both lists are paired.
    Both,
    /// The next token of the old list has no partner.
    Old,
    /// The next token of the new list has no partner.
    New,
}

/// Returns how many tokens at the beginning of both lists are the same.
fn common_front(old: &[Token], new: &[Token]) -> usize
    ensures same { take result old.now ≡ take result new.now }
    ensures old { result ≤ length old.now }
    ensures new { result ≤ length new.now }
    ensures apart { BeginApart (drop result old.now) (drop result new.now) }
{
    let mut count = 0;
    'same: while count < old.len() && count < new.len() {
        if !is_same(&old[count], &new[count]) {
            return count;
        }
        count += 1;
    }
    count
}

/// Returns how many tokens at the end of both lists are the same.
fn common_back(old: &[Token], new: &[Token]) -> usize
    ensures same { end_of result old.now ≡ end_of result new.now }
    ensures old { result ≤ length old.now }
    ensures new { result ≤ length new.now }
    ensures apart { EndApart (take (length old.now - result) old.now) (take (length new.now - result) new.now) }
{
    let mut count = 0;
    'same: while count < old.len() && count < new.len() {
        if !is_same(&old[old.len() - 1 - count], &new[new.len() - 1 - count]) {
            return count;
        }
        count += 1;
    }
    count
}

/// Puts the step at the end so many times.
pub(crate) fn push_steps(steps: &mut Vec<Step>, step: Step, times: usize) -> Result<(), AllocError>
    ensures { OnOk result (steps.new.items ≡ steps.old.items ++ replicate times step) }
{
    for _turn in 0..times {
        steps.push(step)?;
    }
    Ok(())
}

/// Returns how the tokens of the lists are paired: a longest common subsequence. Where the lists without the tokens
/// that are the same at the beginning and at the end have more than 4,000,000 pairs of a token each, none of these
/// tokens is paired. It fails where memory runs out, and takes time linear in the lists and in the number of these
/// pairs.
pub fn alignment(alloc: Global, old: &[Token], new: &[Token]) -> Result<Vec<Step>, AllocError>
    ensures pairs { IfOk result (λ s. ArePairs old.now new.now s.items) }
    ensures most { IfOk result (λ s. IsFar old.now new.now s.items ⊎ IsMost old.now new.now s.items) }
{
    let front = common_front(old, new);
    let (_, old_rest) = old.split_at(front);
    let (_, new_rest) = new.split_at(front);
    let back = common_back(old_rest, new_rest);
    let (own, _) = old_rest.split_at(old_rest.len() - back);
    let (other, _) = new_rest.split_at(new_rest.len() - back);
    let middle = middle_steps(alloc, own, other)?;
    let mut steps = Vec::new(alloc);
    push_steps(&mut steps, Step::Both, front)?;
    steps.extend_from_slice(middle.as_slice())?;
    push_steps(&mut steps, Step::Both, back)?;
    Ok(steps)
}
