//! A longest common subsequence of two lists, by a table of the lengths of those of their ends.
ghost use Rattle.std.specs.Prelude.{◌≡◌, ◌<◌, ◌≤◌, ◌+◌, ◌*◌, ◌^◌, ◌⊎◌, ◌∷◌, [], IfOk, List, get_or, length};
ghost use Rattle.psg_keeping.specs.Pairing.{ArePairs, IsMost, alone, most_cells};
ghost use Rattle.psg_keeping.specs.Rows.{AreRows, IsBest, IsNext, IsRow, new_in as new_in_of, old_in as old_in_of};
ghost use Rattle.psg_keeping.specs.Rows.{end_of, value_at};
ghost use Rattle.psg_lexis.specs.declared.token.Token.{Token as Plain};

use crate::pairing::{Step, push_steps};
use crate::same::is_same;
use psg_lexis::Token;
use psg_terms::Seq;
use std::alloc::{AllocError, Global};

/// The most entries of a table.
const MOST_CELLS: usize = 4_000_000;

/// Returns the length for two lists by those for the lists without one of their first tokens, or without both.
fn cell(token: &Token, other: &Token, both: usize, old: usize, new: usize) -> usize
    requires { both + 1 < 2 ^ 64 }
    ensures { (xs ys : List Plain) → IsBest xs ys both → IsBest xs (other.now ∷ ys) old
        → IsBest (token.now ∷ xs) ys new → IsBest (token.now ∷ xs) (other.now ∷ ys) result }
{
    if is_same(token, other) {
        return both + 1;
    }
    if old >= new {
        return old;
    }
    new
}

/// Returns the row of a list with the token in front, by that of the list.
fn next_row(
    alloc: Global,
    token: &Token,
    new: &[Token],
    row: &[usize],
) -> Result<Seq<usize>, AllocError>
    requires { (old : List Plain) × IsRow old new.now row.now }
    ensures { IfOk result (λ next. (old : List Plain) → IsRow old new.now row.now
        → IsRow (token.now ∷ old) new.now next) }
{
    let mut next = Vec::new(alloc);
    next.push(0)?;
    for count in 0..new.len() {
        let done = next.as_slice();
        let other = &new[new.len() - 1 - count];
        let value = cell(token, other, row[count], row[count + 1], done[count]);
        next.push(value)?;
    }
    Ok(Seq::of(next))
}

/// Returns a row of zeros, that of a list without tokens.
fn first_row(alloc: Global, new: &[Token]) -> Result<Seq<usize>, AllocError>
    ensures { IfOk result (IsRow [] new.now) }
{
    let mut row = Vec::new(alloc);
    row.push(0)?;
    for _count in 0..new.len() {
        row.push(0)?;
    }
    Ok(Seq::of(row))
}

/// Returns the rows of all ends of the old list, the shortest first.
fn rows_of(alloc: Global, old: &[Token], new: &[Token]) -> Result<Vec<Seq<usize>>, AllocError>
    ensures { IfOk result (λ rows. AreRows old.now new.now (length old.now) rows.items) }
{
    let mut rows = Vec::new(alloc);
    rows.push(first_row(alloc, new)?)?;
    for count in 0..old.len() {
        let token = &old[old.len() - 1 - count];
        let done = rows.as_slice();
        let below = done[count].as_slice();
        let row = next_row(alloc, token, new, below)?;
        rows.push(row)?;
    }
    Ok(rows)
}

/// Returns the number at the place of the row.
fn value(rows: &[Seq<usize>], row: usize, place: usize) -> usize
    requires row { row < length rows.now }
    requires place { place < length (get_or rows.now row []) }
    ensures { result ≡ value_at rows.now row place }
{
    rows[row].as_slice()[place]
}

/// Returns the next step of a longest pairing of lists that begin with these tokens, by the lengths for the lists
/// without one of them.
fn next_step(token: &Token, other: &Token, old: usize, new: usize) -> Step
    ensures { (xs ys : List Plain) → IsBest xs (other.now ∷ ys) old → IsBest (token.now ∷ xs) ys new
        → IsNext token.now other.now xs ys result }
{
    if is_same(token, other) {
        return Step::Both;
    }
    if old >= new {
        return Step::Old;
    }
    Step::New
}

/// Returns how many tokens of the old list the step takes.
pub(crate) fn old_in(step: Step) -> usize
    ensures { result ≡ old_in_of step }
{
    match step {
        Step::Both | Step::Old => 1,
        Step::New => 0,
    }
}

/// Returns how many tokens of the new list the step takes.
pub(crate) fn new_in(step: Step) -> usize
    ensures { result ≡ new_in_of step }
{
    match step {
        Step::Both | Step::New => 1,
        Step::Old => 0,
    }
}

/// Returns a longest pairing by the rows.
fn traced(
    alloc: Global,
    old: &[Token],
    new: &[Token],
    rows: &[Seq<usize>],
) -> Result<Vec<Step>, AllocError>
    requires { AreRows old.now new.now (length old.now) rows.now }
    ensures pairs { IfOk result (λ s. ArePairs old.now new.now s.items) }
    ensures most { IfOk result (λ s. IsMost old.now new.now s.items) }
{
    let mut steps = Vec::new(alloc);
    let mut own = old.len();
    let mut theirs = new.len();
    'walk: while own > 0 && theirs > 0 {
        let token = &old[old.len() - own];
        let other = &new[new.len() - theirs];
        let without = value(rows, own - 1, theirs);
        let with = value(rows, own, theirs - 1);
        let step = next_step(token, other, without, with);
        own -= old_in(step);
        theirs -= new_in(step);
        steps.push(step)?;
    }
    push_steps(&mut steps, Step::Old, own)?;
    push_steps(&mut steps, Step::New, theirs)?;
    Ok(steps)
}

/// Returns steps that pair no tokens.
fn unpaired(alloc: Global, old: &[Token], new: &[Token]) -> Result<Vec<Step>, AllocError>
    ensures pairs { IfOk result (λ s. ArePairs old.now new.now s.items) }
    ensures alone { IfOk result (λ s. s.items ≡ alone (length old.now) (length new.now)) }
{
    let mut steps = Vec::new(alloc);
    push_steps(&mut steps, Step::Old, old.len())?;
    push_steps(&mut steps, Step::New, new.len())?;
    Ok(steps)
}

/// Returns a longest pairing, or one of no tokens where the table would have more than 4,000,000 entries.
pub(crate) fn middle_steps(
    alloc: Global,
    old: &[Token],
    new: &[Token],
) -> Result<Vec<Step>, AllocError>
    ensures pairs { IfOk result (λ s. ArePairs old.now new.now s.items) }
    ensures most { IfOk result (λ s. ((most_cells < length old.now * length new.now)
        × (s.items ≡ alone (length old.now) (length new.now))) ⊎ IsMost old.now new.now s.items) }
{
    if old.len().saturating_mul(new.len()) > MOST_CELLS {
        return unpaired(alloc, old, new);
    }
    let rows = rows_of(alloc, old, new)?;
    traced(alloc, old, new, rows.as_slice())
}
