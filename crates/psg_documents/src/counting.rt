//! Places of a text, and the units between them.
ghost use Rattle.std.specs.Prelude.{◌≡◌, ◌+◌, ◌-◌, ◌<◌, ◌≤◌, ◌↔◌, ℕ, IsTrue, length, slice_index, take};
ghost use Rattle.std.specs.Str.{IsCharBoundary};
ghost use Rattle.psg_documents.specs.Positions.{IsStop, IsLastStop, units};

use crate::encoding::{Encoding, goes_on};

/// Says whether a person may be at the place: a character begins there, or the text ends, and it is not within the end
/// of a line.
fn is_stop(text: &[u8], place: usize) -> bool
    requires { place ≤ length text.now }
    ensures { IsTrue result ↔ IsStop text.now place }
{
    if place == text.len() {
        return true;
    }
    if goes_on(text[place]) {
        return false;
    }
    place == 0 || text[place] != b'\n' || text[place - 1] != b'\r'
}

/// Returns the last place that is not after the byte. It looks at a few bytes.
pub(crate) fn last_stop(text: &[u8], byte: usize) -> usize
    requires { IsCharBoundary text.now 0 }
    ensures { IsLastStop text.now byte result }
{
    let mut place = byte.min(text.len());
    'back: while !is_stop(text, place) {
        place -= 1;
    }
    place
}

/// Returns the end of the line that begins at `start`. Its line feed is at `feed`, which is the end of the text for
/// the last line.
pub(crate) fn end_of(text: &[u8], start: usize, feed: usize) -> usize
    requires within { start ≤ feed }
    requires feed_in { feed ≤ length text.now }
    requires is_feed { feed < length text.now → slice_index text.now feed ≡ 10 }
    ensures from { start ≤ result }
    ensures to { result ≤ feed }
    ensures last { (other : ℕ) → IsStop text.now other → other ≤ feed → start ≤ other → other ≤ result }
{
    if feed < text.len() && feed > start && text[feed - 1] == b'\r' {
        feed - 1
    } else {
        feed
    }
}

/// Returns the last place from `start` up to `end` that has at most `column` units before it. It takes a step for each
/// byte.
pub(crate) fn reached(
    text: &[u8],
    encoding: Encoding,
    start: usize,
    end: usize,
    column: usize,
) -> usize
    requires within { start ≤ end }
    requires end_in { end ≤ length text.now }
    ensures from { start ≤ result }
    ensures to { result ≤ end }
    ensures most { units encoding (take result text.now) ≤ units encoding (take start text.now) + column }
    ensures next { result < end
        → units encoding (take start text.now) + column < units encoding (take (result + 1) text.now) }
{
    let mut left = column;
    let mut place = start;
    'bytes: while place < end {
        let size = encoding.unit(text[place]);
        if size > left {
            return place;
        }
        left -= size;
        place += 1;
    }
    place
}

/// Returns how many units there are from `start` up to `end`. It takes a step for each byte.
pub(crate) fn units_between(text: &[u8], encoding: Encoding, start: usize, end: usize) -> usize
    requires within { start ≤ end }
    requires end_in { end ≤ length text.now }
    ensures { units encoding (take start text.now) + result ≡ units encoding (take end text.now) }
{
    let mut sum = 0;
    let mut place = start;
    'bytes: while place < end {
        sum += encoding.unit(text[place]);
        place += 1;
    }
    sum
}
