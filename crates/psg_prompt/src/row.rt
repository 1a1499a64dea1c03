//! The row of a terminal that a prompt draws.
ghost use Rattle.std.specs.Prelude.{◌≡◌, ◌++◌, ◌+◌, ◌-◌, ◌≤◌, ◌<◌, ◌^◌, IfOk, OnOk, length, reverse, string_bytes, take};
ghost use Rattle.psg_prompt.specs.Rows as rows;
ghost use Rattle.psg_prompt.specs.Rows.{back, drawn, encoded, fitting, front, front_columns, front_room, is_control};
ghost use Rattle.psg_prompt.specs.Rows.{is_left_out, left_over, room, row, width_of};

use psg_keys::Line;
use std::alloc::{AllocError, Global};
use unicode_width::UnicodeWidthChar;

/// Writes the row of a terminal of that many columns: to the left edge, the prompt, the part of the line around its
/// cursor, an erasure of what is behind it, and the cursor at its place. Reads the line a few times.
pub(crate) fn push_row(
    alloc: Global,
    cols: u32,
    line: &Line,
    out: &mut String,
) -> Result<(), AllocError>
    ensures { OnOk result (string_bytes out.new ≡ string_bytes out.old ++ row cols line.now) }
{
    let (before, after) = line.chars().split_at(line.place());
    let near = reversed(alloc, before)?;
    let limit = front_room(cols);
    let fit = fit_of(limit, near.as_slice());
    let columns = limit - fit.left;
    let more = fit_of(room(cols) - columns, after);
    out.push_str("\rpsg> ")?;
    push_drawn(&before[before.len() - fit.count..], out)?;
    push_drawn(&after[..more.count], out)?;
    push_end(5 + columns, out)
}

/// Writes an erasure of what is behind the cursor, and a move of the cursor to the column, which is counted from 0.
fn push_end(column: u64, out: &mut String) -> Result<(), AllocError>
    ensures { OnOk result (string_bytes out.new ≡ string_bytes out.old ++ rows.end_of_row column) }
{
    write!(out, "\x1B[K\r\x1B[{column}C")
}

/// Returns the columns after the prompt, of which the last one of the terminal stays free.
fn room(cols: u32) -> u64
    ensures { result ≡ room cols }
{
    u64::from(cols.max(8)) - 6
}

/// Returns the columns that the characters before the cursor may have.
fn front_room(cols: u32) -> u64
    ensures value { result ≡ front_room cols }
    ensures within { result ≤ room cols }
    ensures small { result < 2 ^ 32 }
{
    room(cols) * 3 / 4
}

/// How many characters have room, and how many columns are left.
#[derive(Clone, Copy)]
struct Fit {
    count: usize,
    left: u64,
}

/// Returns how many of the characters have room in that many columns.
fn fit_of(room: u64, text: &[char]) -> Fit
    ensures count { result.count ≡ fitting room text.now }
    ensures left { result.left ≡ left_over room text.now }
    ensures within { result.count ≤ length text.now }
    ensures less { result.left ≤ room }
{
    let mut left = room;
    for place in 0..text.len() {
        let width = width_of(text[place]);
        if width > left {
            return Fit { count: place, left };
        }
        left -= width;
    }
    Fit {
        count: text.len(),
        left,
    }
}

/// Returns the characters, the last one first.
pub(crate) fn reversed(alloc: Global, text: &[char]) -> Result<Vec<char>, AllocError>
    ensures { IfOk result (λ back. back.items ≡ reverse text.now) }
{
    let mut back = Vec::from_slice(alloc, text)?;
    back.as_mut_slice().reverse();
    Ok(back)
}

/// Writes the characters as they are drawn.
pub(crate) fn push_drawn(text: &[char], out: &mut String) -> Result<(), AllocError>
    ensures { OnOk result (string_bytes out.new ≡ string_bytes out.old ++ encoded text.now) }
{
    for c in text {
        out.push(drawn(*c))?;
    }
    Ok(())
}

/// Returns the columns of the character as it is drawn.
#[tactic(auto, unfolding(crate::specs::Rows::width_of))]
fn width_of(c: char) -> u64
    ensures { result ≡ width_of c }
{
    drawn(c).width().unwrap_or(0) as u64
}

/// Returns the character that is drawn for this one.
fn drawn(c: char) -> char
    ensures { result ≡ drawn c }
{
    if is_control(c) || is_left_out(c) {
        return '\u{FFFD}';
    }
    c
}

/// Says whether the character could turn the state of a terminal.
fn is_control(c: char) -> bool
    ensures { result ≡ is_control c }
{
    matches!(c, '\0'..='\x1F' | '\x7F'..='\u{9F}')
}

/// Says whether the character turns the direction of writing, ends a line, or changes how wide others are.
fn is_left_out(c: char) -> bool
    ensures { result ≡ is_left_out c }
{
    matches!(
        c,
        '\u{61C}'
            | '\u{200D}'..='\u{200F}'
            | '\u{2028}'..='\u{202E}'
            | '\u{2066}'..='\u{2069}'
            | '\u{FE00}'..='\u{FE0F}'
    )
}
