//! The window of a text that a screen shows: lines and columns of it, counted from 0.
//!
//! `window(alloc, "変数 + 1", View { top: 0, left: 1, rows: 1, cols: 4 })?` is one line: a space, `数` and a space.
//!
//! A window never has half a character, keeps the columns of what it shows, and has exactly the lines that were asked
//! for.
#![tactic(auto)]

ghost use Rattle.std.specs.Prelude.{◌≡◌, ◌++◌, ◌-◌, [], IfOk, max, replicate, vec_len};
ghost use Rattle.psg_screen.specs.Window.{window_of};

mod line;

use line::shown_line;
use psg_terms::Txt;
use std::alloc::{AllocError, Global};

/// A window of a text, in lines and in columns of a terminal.
#[derive(Clone, Copy, Debug)]
pub struct View {
    /// The number of the first line, from 0.
    pub top: u32,
    /// The number of the first column, from 0.
    pub left: u32,
    /// How many lines there are.
    pub rows: u32,
    /// How many columns there are.
    pub cols: u32,
}

/// Returns the window of the text, as `rows` lines. A line ends at a line feed; past the text's last line the lines are
/// empty.
///
/// A character takes the columns that it has in a terminal by itself, and none if it is a control character. One that
/// the window has in part is shown as a space for each of its columns there. One that takes no column is shown where
/// the one before it is, and at the beginning of a line where `left` is 0. No line is filled up with spaces.
///
/// Fails only when out of memory. Reads the text once, up to the window's last line, and those lines that it shows once
/// more.
pub fn window(alloc: Global, text: &str, view: View) -> Result<Vec<Txt>, AllocError>
    ensures lines { IfOk result (λ lines. lines.items ≡ window_of text.now view) }
    ensures rows { IfOk result (λ lines. vec_len lines ≡ view.rows) }
{
    let rows = view.rows as usize;
    let mut lines = Vec::with_capacity(alloc, rows)?;
    for line in text.split('\n').skip(view.top as usize).take(rows) {
        lines.push(shown_line(alloc, line, view)?)?;
    }
    with_empty_lines(alloc, lines, rows)
}

/// Returns the lines, and empty ones after them up to `rows`.
fn with_empty_lines(alloc: Global, mut lines: Vec<Txt>, rows: usize) -> Result<Vec<Txt>, AllocError>
    ensures lines { IfOk result (λ filled. filled.items ≡ lines.items ++ replicate (rows - vec_len lines) []) }
    ensures len { IfOk result (λ filled. vec_len filled ≡ max (vec_len lines) rows) }
{
    let empty = Txt::of(alloc, String::new(alloc))?;
    'filling: while lines.len() < rows {
        lines.push(empty.share()?)?;
    }
    Ok(lines)
}
