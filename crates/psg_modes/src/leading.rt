//! Where the arrows, Tab and the keys of pages lead.
ghost use Rattle.std.specs.Prelude.{◌≡◌, ◌-◌, cond, max, nat_le, option_copied, take, IfOk};
ghost use Rattle.std.specs.List.{count_by};
ghost use Rattle.psg_keymap.specs.Views.{face_of};
ghost use Rattle.psg_modes.specs.Turning as turning;

use psg_face::{next_open, parent_of, previous_open, to_child, to_next, to_previous};
use psg_keymap::{Face, copied, span_at};
use psg_keys::Key;
use psg_tree::{Path, Tree};
use psg_unparse::{Printed, Span};
use std::alloc::{AllocError, Global};

/// The rows of the screen that are not the program's, and one more, which is shown in both windows.
const OTHER_ROWS: u32 = 6;

/// Returns the path to which an arrow, Tab or Home leads; `None` where the key is another one. It fails where memory
/// runs out.
pub fn led(alloc: Global, tree: &Tree, chosen: &Path, key: Key) -> Result<Option<Path>, AllocError>
    ensures { IfOk result (λ path. path ≡ turning.led tree.now chosen.now key) }
{
    match key {
        Key::Up => {
            let path = parent_of(alloc, chosen)?;
            Ok(Some(path))
        }
        Key::Down => {
            let path = to_child(alloc, tree, chosen)?;
            Ok(Some(path))
        }
        Key::Left => {
            let path = to_previous(alloc, chosen)?;
            Ok(Some(path))
        }
        Key::Right => {
            let path = to_next(alloc, tree, chosen)?;
            Ok(Some(path))
        }
        Key::Tab => {
            let path = next_open(alloc, tree, chosen)?;
            Ok(Some(path))
        }
        Key::BackTab => {
            let path = previous_open(alloc, tree, chosen)?;
            Ok(Some(path))
        }
        Key::Home => {
            let path = Path::of(alloc, &[])?;
            Ok(Some(path))
        }
        _ => Ok(None),
    }
}

/// Returns the path of the first node that begins in the line about a screen further down, or further up, or after that
/// line; of the last node where none does. It fails where memory runs out. It reads the text and the spans once.
pub fn led_by_lines(
    alloc: Global,
    printed: &Printed,
    face: &Face,
    down: bool,
) -> Result<Path, AllocError>
    ensures { IfOk result (λ path. path ≡ turning.page_path printed.now (face_of face.now) down) }
{
    let spans = printed.spans.as_slice();
    let line = line_wanted(printed, face, down);
    let byte = line_start(printed.text.as_str().as_bytes(), line);
    let near = first_from(spans, byte);
    let last = spans.last();
    let span = span_or(near, last);
    let path = path_or(alloc, &face.chosen, span)?;
    Ok(path)
}

/// Returns the first span that there is.
fn span_or<'a>(near: Option<&'a Span>, last: Option<&'a Span>) -> Option<&'a Span>
    ensures { option_copied result ≡ turning.span_or (option_copied near.entry) (option_copied last.entry) }
{
    match near {
        Some(span) => Some(span),
        None => last,
    }
}

/// Returns the path of the span; the chosen one where there is none.
fn path_or(alloc: Global, chosen: &Path, span: Option<&Span>) -> Result<Path, AllocError>
    ensures { IfOk result (λ path. path ≡ turning.path_or chosen.now (option_copied span.entry)) }
{
    match span {
        Some(span) => {
            let path = copied(alloc, &span.path)?;
            Ok(path)
        }
        None => {
            let path = copied(alloc, chosen)?;
            Ok(path)
        }
    }
}

/// Returns the number of the line about a screen further down, or further up.
fn line_wanted(printed: &Printed, face: &Face, down: bool) -> usize
    ensures { result ≡ turning.page_line printed.now (face_of face.now) down }
{
    let from = line_at(printed, face);
    let step = page_step(face.rows);
    if down {
        from.saturating_add(step)
    } else {
        from.saturating_sub(step)
    }
}

/// Returns how many lines a screen is, except one that is shown in both windows.
fn page_step(rows: u32) -> usize
    ensures { result ≡ max (rows - 6) 1 }
{
    rows.saturating_sub(OTHER_ROWS).max(1) as usize
}

/// Returns the number of the chosen node's first line; where it has no bytes of its own, of the first line that is
/// shown.
fn line_at(printed: &Printed, face: &Face) -> usize
    ensures { result ≡ turning.page_from printed.now (face_of face.now) }
{
    match span_at(printed.spans.as_slice(), face.chosen.steps()) {
        Some((start, _)) => {
            let front = bytes_before(printed.text.as_str().as_bytes(), start);
            feeds(front)
        }
        None => face.top as usize,
    }
}

/// Returns the bytes before this one.
fn bytes_before(text: &[u8], byte: usize) -> &[u8]
    ensures { result.now ≡ take byte text.now }
{
    if byte >= text.len() {
        return text;
    }
    let (front, _) = text.split_at(byte);
    front
}

/// Counts the line feeds.
fn feeds(bytes: &[u8]) -> usize
    ensures { result ≡ count_by turning.is_feed bytes.now }
{
    bytes.iter().filter(|b| **b == b'\n').count()
}

/// Returns the first span that begins at the byte or after it.
fn first_from(spans: &[Span], byte: usize) -> Option<&Span>
    ensures { option_copied result ≡ turning.first_from byte spans.now }
{
    for place in 0..spans.len() {
        let span = &spans[place];
        let found = is_from(byte, span.start);
        if found {
            return Some(span);
        }
    }
    None
}

/// Says whether the start is the byte or after it.
fn is_from(byte: usize, start: usize) -> bool
    ensures { result ≡ nat_le byte start }
{
    byte <= start
}

/// Says whether the byte ends one of the lines that are still to be passed.
fn passes(left: usize, byte: u8) -> bool
    ensures { result ≡ turning.passes left byte }
{
    byte == b'\n' && 0 < left
}

/// Returns the later start where a line is passed.
fn start_after(passed: bool, later: usize, start: usize) -> usize
    ensures { result ≡ cond passed later start }
{
    if passed { later } else { start }
}

/// Returns how many lines are still to be passed.
fn left_after(left: usize, passed: bool) -> usize
    ensures { result ≡ left - cond passed 1 0 }
{
    if passed { left.saturating_sub(1) } else { left }
}

/// Returns the byte at which the line begins; that of the last line where there are fewer.
fn line_start(text: &[u8], line: usize) -> usize
    ensures { result ≡ turning.line_from 0 0 line text.now }
{
    let mut start = 0;
    let mut left = line;
    for place in 0..text.len() {
        let passed = passes(left, text[place]);
        start = start_after(passed, place + 1, start);
        left = left_after(left, passed);
    }
    start
}
