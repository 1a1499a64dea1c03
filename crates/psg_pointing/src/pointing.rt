//! The node at a byte of a text.
ghost use Rattle.std.specs.Prelude.{◌≡◌, ◌≤◌, ◌<◌, ◌-◌, ◌⊎◌, ℕ, IfNone, IfOk, IfSome, Some};
ghost use Rattle.std.specs.Prelude.{drop, false, length, slice_get, suc, take, true};
ghost use Rattle.psg_ranges.specs.Forests.{Forest, below_first, from_nth, ranges_in};
ghost use Rattle.psg_ranges.specs.Owns.{end_before as end_before_of};
ghost use Rattle.psg_pointing.specs.Pointing as points;
ghost use Rattle.psg_pointing.specs.Pointing.{IsLastOn, IsPointed, Leads};
ghost use Rattle.psg_pointing.specs.Walking as walks;
ghost use Rattle.psg_pointing.specs.Walking.{IsSoFar};

use psg_lexis::Spanned;
use psg_ranges::{Range, byte_of_end};
use psg_terms::uncountable;
use psg_tree::Path;
use std::alloc::{AllocError, Global};

/// Returns where the token of the number begins, or 0 where there is none.
fn start_of(tokens: &[Spanned], number: usize) -> usize
    ensures { result ≡ points.start_of (slice_get tokens.now number) }
{
    match tokens.get(number) {
        Some(token) => token.start,
        None => 0,
    }
}

/// Returns the byte after the last one of that many tokens, or 0 where there are none.
fn end_before(tokens: &[Spanned], number: usize) -> usize
    ensures { result ≡ end_before_of tokens.now number }
{
    if number <= tokens.len() {
        return byte_of_end(tokens, number);
    }
    0
}

/// Returns the byte where a node of the range begins. One without tokens is where the token before it ends.
pub fn begin_of(tokens: &[Spanned], range: &Range) -> usize
    ensures { result ≡ points.begin_of tokens.now range.now }
{
    if range.start == range.end {
        return end_before(tokens, range.start);
    }
    start_of(tokens, range.start)
}

/// Returns the byte after the last one of a node of the range.
pub fn finish_of(tokens: &[Spanned], range: &Range) -> usize
    ensures { result ≡ points.finish_of tokens.now range.now }
{
    end_before(tokens, range.end)
}

/// Says whether the byte is one of the node's, or the one after its last one.
fn covers(tokens: &[Spanned], byte: usize, range: &Range) -> bool
    ensures { result ≡ points.covers tokens.now byte range.now }
{
    let begin = begin_of(tokens, range);
    let finish = finish_of(tokens, range);
    begin <= byte && byte <= finish
}

/// Says whether the first of the nodes covers the byte.
fn first_covers(tokens: &[Spanned], byte: usize, ranges: &[Range]) -> bool
    ensures { result ≡ points.covers_by tokens.now byte (slice_get ranges.now 0) }
{
    match ranges.get(0) {
        Some(range) => covers(tokens, byte, range),
        None => false,
    }
}

/// Says whether the first of the nodes covers the byte.
fn is_on(tokens: &[Spanned], byte: usize, ranges: &[Range]) -> bool
    ensures { (f : Forest) → ranges_in f ≡ ranges.now → result ≡ points.is_on tokens.now byte f }
{
    first_covers(tokens, byte, ranges)
}

/// Returns the ranges after the first ones of this number, none where there are fewer.
fn after(ranges: &[Range], count: usize) -> &[Range]
    ensures { result.now ≡ drop count ranges.now }
{
    if count < ranges.len() {
        &ranges[count..]
    } else {
        &[]
    }
}

/// Returns that many of the first ranges, all if there are fewer.
fn front(ranges: &[Range], count: usize) -> &[Range]
    ensures { result.now ≡ take count ranges.now }
{
    if count < ranges.len() {
        &ranges[..count]
    } else {
        ranges
    }
}

/// Returns the ranges after the first one.
fn behind_first(ranges: &[Range]) -> &[Range]
    ensures { result.now ≡ walks.behind_first ranges.now }
{
    match ranges.split_first() {
        Some((_, behind)) => behind,
        None => &[],
    }
}

/// Returns how many nodes the tree of the first node has; 0 where there is none.
fn first_nodes(ranges: &[Range]) -> usize
    ensures { result ≡ walks.first_nodes ranges.now }
{
    match ranges.first() {
        Some(range) => range.nodes,
        None => 0,
    }
}

/// Returns the number less by one, or 0.
fn one_less(number: usize) -> usize
    ensures { result ≡ number - 1 }
{
    number.saturating_sub(1)
}

/// Returns the ranges of the nodes beside the first one, which follow it.
fn beside(ranges: &[Range]) -> &[Range]
    ensures shorter { length result.now ≤ length ranges.now - 1 }
    ensures nodes { (f : Forest) → ranges_in f ≡ ranges.now → ranges_in (from_nth f 1) ≡ result.now }
{
    let rest = behind_first(ranges);
    let nodes = first_nodes(ranges);
    let count = one_less(nodes);
    after(rest, count)
}

/// Returns the ranges of the nodes below the first one.
fn below(ranges: &[Range]) -> &[Range]
    ensures shorter { length result.now ≤ length ranges.now - 1 }
    ensures nodes { (f : Forest) → ranges_in f ≡ ranges.now → ranges_in (below_first f) ≡ result.now }
{
    let rest = behind_first(ranges);
    let nodes = first_nodes(ranges);
    let count = one_less(nodes);
    front(rest, count)
}

/// A node among those side by side: its number, and the ranges from it on.
#[derive(Clone, Copy)]
pub(crate) struct Child<'a> {
    pub(crate) number: usize,
    pub(crate) ranges: &'a [Range],
}

/// Returns the next node where it covers the byte, and else the one that was found before.
fn found_with<'a>(
    tokens: &[Spanned],
    byte: usize,
    next: Child<'a>,
    found: Option<Child<'a>>,
) -> Option<Child<'a>>
    ensures so_far { (f : Forest) → ranges_in (from_nth f next.entry.number) ≡ next.entry.ranges.now
        → IsSoFar tokens.now byte f next.entry.number found.entry
        → IsSoFar tokens.now byte f (suc next.entry.number) result }
    ensures either { (result ≡ Some next.entry) ⊎ (result ≡ found.entry) }
{
    let on = is_on(tokens, byte, next.ranges);
    if on {
        return Some(next);
    }
    found
}

/// Says whether there is a range.
fn has_some(ranges: &[Range]) -> bool
    ensures yes { result ≡ true → 0 < length ranges.now }
    ensures no { result ≡ false → length ranges.now ≡ 0 }
{
    let count = ranges.len();
    0 < count
}

/// Returns the last of the nodes side by side that covers the byte.
fn last_on<'a>(tokens: &[Spanned], byte: usize, ranges: &'a [Range]) -> Option<Child<'a>>
    ensures none { IfNone result ((f : Forest) → ranges_in f ≡ ranges.now
        → (n : ℕ) → points.is_on tokens.now byte (from_nth f n) ≡ false) }
    ensures last { IfSome result (λ child. (f : Forest) → ranges_in f ≡ ranges.now
        → IsLastOn tokens.now byte f child.number × (ranges_in (from_nth f child.number) ≡ child.ranges.now)) }
    ensures shorter { IfSome result (λ child. (0 < length child.ranges.now)
        × (length child.ranges.now ≤ length ranges.now)) }
{
    let mut found = None;
    let mut next = Child { number: 0, ranges };
    'nodes: while has_some(next.ranges) {
        found = found_with(tokens, byte, next, found);
        let rest = beside(next.ranges);
        let number = next.number + 1;
        next = Child {
            number,
            ranges: rest,
        };
    }
    found
}

/// Returns the number as a step of a path. It fails where 32 bits do not hold the number after it.
fn step_of(number: usize) -> Result<u32, AllocError>
    ensures { IfOk result (λ step. step ≡ number) }
{
    if number < 0xffff_ffff {
        Ok(number as u32)
    } else {
        Err(uncountable(number))
    }
}

/// Returns the last child of the first of the nodes that covers the byte.
fn child_on<'a>(tokens: &[Spanned], byte: usize, ranges: &'a [Range]) -> Option<Child<'a>>
    ensures none { IfNone result ((f : Forest) → ranges_in f ≡ ranges.now
        → (n : ℕ) → points.is_on tokens.now byte (from_nth (below_first f) n) ≡ false) }
    ensures last { IfSome result (λ child. (f : Forest) → ranges_in f ≡ ranges.now
        → IsLastOn tokens.now byte (below_first f) child.number
        × (ranges_in (from_nth (below_first f) child.number) ≡ child.ranges.now)) }
    ensures shorter { IfSome result (λ child. length child.ranges.now < length ranges.now) }
{
    let children = below(ranges);
    last_on(tokens, byte, children)
}

/// Returns the way from the first of the nodes to the smallest one that covers the byte.
fn way(alloc: Global, tokens: &[Spanned], byte: usize, ranges: &[Range]) -> Result<Path, AllocError>
    ensures { IfOk result (λ path. (f : Forest) → ranges_in f ≡ ranges.now → Leads tokens.now byte f path) }
{
    let mut steps = Vec::new(alloc);
    let mut rest = ranges;
    'levels: while let Some(child) = child_on(tokens, byte, rest) {
        let step = step_of(child.number)?;
        steps.push(step)?;
        rest = child.ranges;
    }
    let row = steps.as_slice();
    let path = Path::of(alloc, row)?;
    Ok(path)
}

/// Returns the path of the smallest node that covers the byte, and of two nodes that touch there that of the later one.
/// `None` where the whole program does not cover the byte. A node covers its bytes and the one after its last one; one
/// without tokens is where the token before it ends. The ranges are those of all nodes of a program, and the tokens are
/// its tokens.
///
/// It fails where memory runs out. It passes the children of each node on the way once.
pub fn pointed(
    alloc: Global,
    tokens: &[Spanned],
    byte: usize,
    ranges: &[Range],
) -> Result<Option<Path>, AllocError>
    ensures { IfOk result (λ o. (f : Forest) → ranges_in f ≡ ranges.now → IsPointed tokens.now byte f o) }
{
    let on = is_on(tokens, byte, ranges);
    if on {
        let path = way(alloc, tokens, byte, ranges)?;
        return Ok(Some(path));
    }
    Ok(None)
}
