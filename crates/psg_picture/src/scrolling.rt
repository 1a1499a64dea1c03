//! Where the window of a program is.
ghost use Rattle.std.specs.Prelude.{◌≡◌, ◌+◌, ◌-◌, ◌^◌, ◌≤◌, ◌&&◌, cond, drop, length, min, nat_le, nat_lt, take};
ghost use Rattle.std.specs.List.{count_by, prefix_len};
ghost use Rattle.psg_screen.specs.Window.{width_of};
ghost use Rattle.psg_picture.specs.Scrolling.{is_feed, is_other};
ghost use Rattle.psg_picture.specs.Scrolling as scrolled;

use crate::windowed::width;
use psg_screen::View;

/// The rows that are not the program's.
const OTHER_ROWS: u32 = 5;

/// Returns the view with the first line and column at which the chosen place is shown: its first line is in the middle
/// two thirds of the rows, except the text's first lines, and as much of that line is shown as fits. The first line
/// and column of before stay where the place is shown so. `rows` and `cols` of the view are those of the screen.
///
/// Takes no memory. Reads the text once.
pub fn scrolled(view: View, text: &str, chosen: (usize, usize)) -> View
    ensures view { result ≡ scrolled.scrolled_of view text.now chosen }
    ensures seen { scrolled.IsSeen (scrolled.text_rows view) result (scrolled.line_of text.now chosen.0)
        (scrolled.first_column text.now chosen) (scrolled.end_column text.now chosen) }
{
    moved(view, text, chosen)
}

/// Returns the view with the first line and column at which the chosen place is shown.
fn moved(view: View, text: &str, chosen: (usize, usize)) -> View
    ensures { result ≡ scrolled.scrolled_of view text.now chosen }
{
    let rows = view.rows.saturating_sub(OTHER_ROWS).max(1);
    let line = line_of(text.as_bytes(), chosen.0);
    let from = line_start(text.as_bytes(), chosen.0);
    let stop = line_stop(text.as_bytes(), chosen.0, chosen.1);
    let start = column_of(text, from, chosen.0);
    let end = column_of(text, from, stop);
    View {
        top: top_after(rows, view.top, line),
        left: left_after(view.cols, view.left, start, end),
        rows: view.rows,
        cols: view.cols,
    }
}

/// Returns the first line that is shown.
fn top_after(rows: u32, top: u32, line: u32) -> u32
    requires { 1 ≤ rows }
    ensures { result ≡ scrolled.top_after rows top line }
{
    let margin = rows / 6;
    if u64::from(line) < u64::from(top) + u64::from(margin) {
        return line.saturating_sub(margin);
    }
    if u64::from(top) + u64::from(rows) <= u64::from(line) + u64::from(margin) {
        return line - (rows - margin - 1);
    }
    top
}

/// Returns the first column that is shown.
fn left_after(cols: u32, left: u32, start: u32, end: u32) -> u32
    ensures { result ≡ scrolled.left_after cols left start end }
{
    if end <= cols {
        return 0;
    }
    if start < left {
        return start;
    }
    if u64::from(left) + u64::from(cols) < u64::from(end) {
        return start.min(end - cols);
    }
    left
}

/// Returns the bytes before a byte.
fn bytes_before(text: &[u8], byte: usize) -> &[u8]
    ensures { result.now ≡ take byte text.now }
{
    if byte >= text.len() {
        return text;
    }
    let (front, _) = text.split_at(byte);
    front
}

/// Returns the bytes from a byte on.
fn bytes_from(text: &[u8], byte: usize) -> &[u8]
    ensures { result.now ≡ drop byte text.now }
{
    if byte >= text.len() {
        return &[];
    }
    let (_, rest) = text.split_at(byte);
    rest
}

/// Returns the number of the line of a byte.
fn line_of(text: &[u8], byte: usize) -> u32
    ensures { result ≡ scrolled.line_of text.now byte }
{
    let front = bytes_before(text, byte);
    feeds(front)
}

/// Returns how many line feeds there are; 2^32 - 1 where they are more.
fn feeds(bytes: &[u8]) -> u32
    ensures { result ≡ min (count_by is_feed bytes.now) (2 ^ 32 - 1) }
{
    let mut line = 0u32;
    let mut rest = bytes;
    'bytes: while let Some((first, others)) = rest.split_first() {
        line = with_feed(line, *first);
        rest = others;
    }
    line
}

/// Returns the number of lines after a byte.
fn with_feed(line: u32, byte: u8) -> u32
    ensures { result ≡ min (line + cond (is_feed byte) 1 0) (2 ^ 32 - 1) }
{
    if byte == b'\n' {
        return line.saturating_add(1);
    }
    line
}

/// Says whether the byte is no line feed.
fn is_other(byte: u8) -> bool
    ensures { result ≡ is_other byte }
{
    byte != b'\n'
}

/// Returns the first byte of the line of a byte.
fn line_start(text: &[u8], byte: usize) -> usize
    ensures { result ≡ scrolled.line_start text.now byte }
{
    let front = bytes_before(text, byte);
    after_feed(front)
}

/// Returns how many bytes there are up to the last line feed.
fn after_feed(bytes: &[u8]) -> usize
    ensures { result ≡ scrolled.after_feed bytes.now }
{
    let mut front = bytes;
    'bytes: while let Some((last, others)) = front.split_last() {
        if !is_other(*last) {
            return front.len();
        }
        front = others;
    }
    0
}

/// Returns the byte after the bytes from `start` on that are before `end` and in the line of `start`.
fn line_stop(text: &[u8], start: usize, end: usize) -> usize
    ensures { result ≡ scrolled.line_stop text.now start end }
{
    let front = bytes_before(text, end);
    let rest = bytes_from(front, start);
    start.saturating_add(others(rest))
}

/// Returns how many bytes there are before the first line feed.
fn others(bytes: &[u8]) -> usize
    ensures value { result ≡ prefix_len is_other bytes.now }
    ensures within { result ≤ length bytes.now }
{
    for place in 0..bytes.len() {
        if !is_other(bytes[place]) {
            return place;
        }
    }
    bytes.len()
}

/// Returns the columns of the characters that begin at the bytes from `from` up to `to`.
fn column_of(text: &str, from: usize, to: usize) -> u32
    ensures { result ≡ scrolled.column_of text.now from to }
{
    let mut column = 0u32;
    let mut byte = 0usize;
    for c in text.chars() {
        column = with_width(column, c, from, to, byte);
        byte += c.len_utf8();
    }
    column
}

/// Returns the columns with those of a character that begins at the byte, where that is from `from` up to `to`.
fn with_width(column: u32, c: char, from: usize, to: usize, byte: usize) -> u32
    ensures { result
        ≡ min (column + cond (nat_le from byte && nat_lt byte to) (width_of c) 0) (2 ^ 32 - 1) }
{
    if from <= byte && byte < to {
        return column.saturating_add(width(c) as u32);
    }
    column
}
