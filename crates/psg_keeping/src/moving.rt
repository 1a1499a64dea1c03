//! Where the comments of a text go in a new one.
ghost use Rattle.std.specs.Prelude.{◌≡◌, ◌<◌, ◌≤◌, ◌+◌, ◌++◌, IfOk, List, OnOk, Some, drop, length, map, max, position};
ghost use Rattle.std.specs.Prelude.{replicate, reverse, slice_get, take};
ghost use Rattle.psg_commented.specs.Keeping.{words_of};
ghost use Rattle.psg_keeping.specs.Moving.{AreAfters, after_partner, before_partner};
ghost use Rattle.psg_keeping.specs.Moving.{is_late as is_late_of, is_paired as is_paired_of};
ghost use Rattle.psg_keeping.specs.Moving.{is_paired_next as is_paired_next_of};
ghost use Rattle.psg_keeping.specs.Moving.{goes as goes_of, last_of, moved as moved_of, near_end as near_end_of, news};
ghost use Rattle.psg_keeping.specs.Moving.{place_between as place_between_of, placed as placed_of};
ghost use Rattle.psg_keeping.specs.Rows.{old_in as old_in_of};
ghost use Rattle.psg_keeping.specs.declared.pairing.Step.{Step as Plain};

use crate::pairing::Step;
use crate::rows::{new_in, old_in};
use psg_commented::Note;
use psg_terms::Seq;
use std::alloc::{AllocError, Global};

/// For each number of old tokens, from none to all, how many new ones there are up to the partner of the last paired
/// one of them, and how many new ones there are.
#[derive(Drop)]
struct Table {
    places: Seq<usize>,
    all: usize,
}

/// Returns how many new tokens there are up to the last partner after the step, where `seen` new ones are up to its
/// end.
fn last_after(step: Step, seen: usize, last: usize) -> usize
    ensures { result ≡ last_of step seen last }
{
    match step {
        Step::Both => seen,
        Step::Old | Step::New => last,
    }
}

/// Puts the place at the end for each token of the old list that the step takes.
fn push_place(places: &mut Vec<usize>, step: Step, place: usize) -> Result<(), AllocError>
    ensures { OnOk result (places.new.items ≡ places.old.items ++ replicate (old_in_of step) place) }
{
    for _turn in 0..old_in(step) {
        places.push(place)?;
    }
    Ok(())
}

/// Returns the step at the place.
fn step_at(steps: &[Step], place: usize) -> Step
    requires { place < length steps.now }
    ensures { slice_get steps.now place ≡ Some result }
{
    steps[place]
}

/// Returns the places after partners, for the steps.
fn afters(alloc: Global, steps: &[Step]) -> Result<Table, AllocError>
    ensures places { IfOk result (λ a. AreAfters steps.now a.places) }
    ensures all { IfOk result (λ a. a.all ≡ news steps.now) }
{
    let mut places = Vec::new(alloc);
    places.push(0)?;
    let mut seen = 0;
    let mut last = 0;
    for place in 0..steps.len() {
        let step = step_at(steps, place);
        seen += new_in(step);
        last = last_after(step, seen, last);
        push_place(&mut places, step, last)?;
    }
    Ok(Table {
        places: Seq::of(places),
        all: seen,
    })
}

/// Returns the place for the number of old tokens.
fn place_at(places: &[usize], count: usize) -> usize
    requires { 0 < length places.now }
    ensures { (steps : List Plain) → AreAfters steps places.now → result ≡ after_partner count steps }
{
    let at = count.min(places.len() - 1);
    places[at]
}

/// Returns the steps from the last one to the first one.
fn reversed(alloc: Global, steps: &[Step]) -> Result<Vec<Step>, AllocError>
    ensures { IfOk result (λ back. back.items ≡ reverse steps.now) }
{
    let mut back = Vec::from_slice(alloc, steps)?;
    back.reverse();
    Ok(back)
}

/// Returns the lines from the last one to the first one.
fn backwards(alloc: Global, lines: &[bool]) -> Result<Vec<bool>, AllocError>
    ensures { IfOk result (λ back. back.items ≡ reverse lines.now) }
{
    let mut back = Vec::from_slice(alloc, lines)?;
    back.reverse();
    Ok(back)
}

/// Says whether the last of so many old tokens is paired.
fn is_paired(places: &[usize], count: usize) -> bool
    requires { 0 < length places.now }
    ensures { (steps : List Plain) → AreAfters steps places.now → result ≡ is_paired_of count steps }
{
    place_at(places, count.saturating_sub(1)) < place_at(places, count)
}

/// Says whether the first of the old tokens after so many is paired, or there is none.
fn is_paired_next(places: &[usize], count: usize) -> bool
    requires { 0 < length places.now }
    ensures { (steps : List Plain) → AreAfters (reverse steps) places.now → result ≡ is_paired_next_of count steps }
{
    let all = places.len() - 1;
    let paired = is_paired(places, all.saturating_sub(count));
    paired || all <= count
}

/// Returns how many new tokens there are before the partner of the first paired one of the old tokens after so many.
fn place_before(places: &[usize], count: usize, all: usize) -> usize
    requires { 0 < length places.now }
    ensures { (steps : List Plain) → AreAfters (reverse steps) places.now → all ≡ news steps
        → result ≡ before_partner count steps }
{
    let left = (places.len() - 1).saturating_sub(count);
    all.saturating_sub(place_at(places, left))
}

/// Returns the lines from `skip` on, and at most one more than `most`.
fn part_of(lines: &[bool], skip: usize, most: usize) -> &[bool]
    ensures { result.now ≡ take (most + 1) (drop skip lines.now) }
{
    if skip >= lines.len() {
        return &[];
    }
    let (_, rest) = lines.split_at(skip);
    if most >= rest.len() {
        return rest;
    }
    let (part, _) = rest.split_at(most + 1);
    part
}

/// Returns the first place at which a line ends, if there is one.
fn first_end(lines: &[bool]) -> Option<usize>
    ensures { result ≡ position (λ line. line) lines.now }
{
    lines.iter().position(|line| *line)
}

/// Returns how far from `skip` the first end of a line is, where it is not farther than `most`, and 0 otherwise.
fn near_end(lines: &[bool], skip: usize, most: usize) -> usize
    ensures count { result ≡ near_end_of lines.now skip most }
    ensures within { result ≤ most }
{
    let near = first_end(part_of(lines, skip, most)).unwrap_or(0);
    near.min(most)
}

/// Returns the place between the two where a comment goes.
fn place_between(lines: &[bool], back: &[bool], late: bool, from: usize, to: usize) -> usize
    requires { back.now ≡ reverse lines.now }
    ensures { result ≡ place_between_of lines.now late from to }
{
    let most = to.saturating_sub(from);
    if late {
        let skip = lines.len().saturating_sub(1).saturating_sub(to);
        return to - near_end(back, skip, most);
    }
    from + near_end(lines, from, most)
}

/// Says whether the comment goes with the tokens after it.
fn is_late(note: &Note, after: &[usize], before: &[usize]) -> bool
    requires after { 0 < length after.now }
    requires before { 0 < length before.now }
    ensures { (steps : List Plain) → AreAfters steps after.now → AreAfters (reverse steps) before.now
        → result ≡ is_late_of steps note.now }
{
    if note.trails {
        return !is_paired(after, note.before);
    }
    is_paired_next(before, note.before)
}

/// Returns the comment with so many tokens before it.
fn placed(alloc: Global, note: &Note, before: usize) -> Result<Note, AllocError>
    ensures { IfOk result (λ n. n ≡ placed_of before note.now) }
{
    Ok(Note {
        before,
        trails: note.trails,
        text: Seq::of(Vec::from_slice(alloc, note.text.as_slice())?),
    })
}

/// Returns a comment's place by the tables.
fn goes(
    note: &Note,
    after: &[usize],
    before: &[usize],
    all: usize,
    lines: &[bool],
    back: &[bool],
) -> usize
    requires after { 0 < length after.now }
    requires before { 0 < length before.now }
    requires back { back.now ≡ reverse lines.now }
    ensures { (steps : List Plain) → AreAfters steps after.now → AreAfters (reverse steps) before.now
        → all ≡ news steps → result ≡ goes_of steps lines.now note.now }
{
    let from = place_at(after, note.before);
    let to = place_before(before, note.before, all);
    let late = is_late(note, after, before);
    place_between(lines, back, late, from, to)
}

/// Returns the later one of two places.
fn later(one: usize, other: usize) -> usize
    ensures { result ≡ max one other }
{
    one.max(other)
}

/// Returns the comments with as many tokens before them as the steps say, by the lines of the new text. No comment is
/// before the one before it.
pub fn moved(
    alloc: Global,
    steps: &[Step],
    lines: &[bool],
    notes: &[Note],
) -> Result<Vec<Note>, AllocError>
    ensures moved { IfOk result (λ new. new.items ≡ moved_of 0 steps.now lines.now notes.now) }
    ensures words { IfOk result (λ new. map words_of new.items ≡ map words_of notes.now) }
{
    let after = afters(alloc, steps)?;
    let turned = reversed(alloc, steps)?;
    let before = afters(alloc, turned.as_slice())?;
    let back = backwards(alloc, lines)?;
    let mut new = Vec::new(alloc);
    let mut low = 0;
    for note in notes {
        let place = goes(
            note,
            after.places.as_slice(),
            before.places.as_slice(),
            after.all,
            lines,
            back.as_slice(),
        );
        low = later(low, place);
        new.push(placed(alloc, note, low)?)?;
    }
    Ok(new)
}
