//! The range of the node at a path, and the byte of a range without tokens.
ghost use Rattle.std.specs.Prelude.{◌≡◌, ◌≤◌, drop, length};
ghost use Rattle.std.specs.Option.{option_copied};
ghost use Rattle.psg_ranges.specs.Forests.{Forest, at_path, below_first, first_range, from_nth, ranges_in};
ghost use Rattle.psg_ranges.specs.Owns.{end_before};

use crate::ranges::{Range, Ranges};
use psg_lexis::Spanned;

/// Returns the ranges after the first ones of this number, none where there are fewer.
fn after(ranges: &[Range], count: usize) -> &[Range]
    ensures { result.now ≡ drop count ranges.now }
{
    if count < ranges.len() {
        &ranges[count..]
    } else {
        &[]
    }
}

/// Returns the ranges of the nodes beside the first one, which follow it.
fn beside(ranges: &[Range]) -> &[Range]
    ensures { (f : Forest) → ranges_in f ≡ ranges.now → ranges_in (from_nth f 1) ≡ result.now }
{
    match ranges.first() {
        Some(first) => after(ranges, first.nodes),
        None => &[],
    }
}

/// Returns the ranges of the nodes below the first one.
fn below(ranges: &[Range]) -> &[Range]
    ensures { (f : Forest) → ranges_in f ≡ ranges.now → ranges_in (below_first f) ≡ result.now }
{
    match ranges.split_first() {
        Some((first, rest)) => {
            let count = first.nodes.saturating_sub(1);
            if count < rest.len() {
                &rest[..count]
            } else {
                rest
            }
        }
        None => &[],
    }
}

/// Returns the ranges from the node of this number on, among nodes side by side.
fn from_nth(ranges: &[Range], number: u32) -> &[Range]
    ensures { (f : Forest) → ranges_in f ≡ ranges.now → ranges_in (from_nth f number) ≡ result.now }
{
    let mut rest = ranges;
    let mut left = number;
    'nodes: while left > 0 {
        if rest.is_empty() {
            return rest;
        }
        rest = beside(rest);
        left -= 1;
    }
    rest
}

impl Ranges {
    /// Returns the range of the node at the path, and `None` exactly where the path leads to no node. It walks along
    /// the path, and over the nodes beside those on it, and takes no memory.
    pub fn at(&self, path: &[u32]) -> Option<&Range>
        ensures { (f : Forest) → ranges_in f ≡ self.now.nodes
            → option_copied result ≡ first_range (at_path f path.now) }
    {
        let mut rest = self.all();
        let mut steps = path;
        while let Some((step, more)) = steps.split_first() {
            rest = from_nth(below(rest), *step);
            steps = more;
        }
        rest.first()
    }
}

/// Returns the byte after the last token in front of the token of the number, or 0 where there is none: where a node
/// without tokens is whose range begins at this number.
pub fn byte_of_end(tokens: &[Spanned], number: usize) -> usize
    requires { number ≤ length tokens.now }
    ensures { result ≡ end_before tokens.now number }
{
    if number == 0 {
        return 0;
    }
    tokens[number - 1].end
}
