//! What a window shows of one line.
ghost use Rattle.std.specs.Prelude.{◌≡◌, ◌++◌, ◌≤◌, ◌<◌, ◌^◌, IfOk, OnOk, encode_utf8_all, replicate, string_bytes};
ghost use Rattle.psg_screen.specs.Window.{width_of, is_written, columns_inside, shown_for, shown_line};

use crate::View;
use psg_terms::Txt;
use std::alloc::{AllocError, Global};
use unicode_width::UnicodeWidthChar;

/// Returns what the window shows of the line.
pub fn shown_line(alloc: Global, line: &str, view: View) -> Result<Txt, AllocError>
    ensures { IfOk result (λ shown. shown ≡ shown_line view line.now) }
{
    let end = u64::from(view.left) + u64::from(view.cols);
    let mut shown = String::new(alloc);
    let mut column = 0;
    let mut written = view.left == 0;
    for c in line.chars() {
        written = push_shown(&mut shown, view, column, c, written)?;
        // All columns from the window's end on are alike, and a sum of widths could pass a u64.
        column = (column + width(c)).min(end);
    }
    Ok(Txt::of(alloc, shown)?)
}

/// Puts at the end what the window shows of a character that begins at this column. `follows` says whether the
/// character before it is written, and the answer whether this one is.
#[tactic(auto, unfolding(crate::specs::Window::shown_for))]
fn push_shown(
    shown: &mut String,
    view: View,
    column: u64,
    c: char,
    follows: bool,
) -> Result<bool, AllocError>
    requires { column < 2 ^ 34 }
    ensures written { IfOk result (λ written. written ≡ is_written view column (width_of c) follows) }
    ensures text { OnOk result (string_bytes shown.new
        ≡ string_bytes shown.old ++ encode_utf8_all (shown_for view column c follows)) }
{
    let width = width(c);
    if is_written(view, column, width, follows) {
        shown.push(c)?;
        return Ok(true);
    }
    push_spaces(shown, columns_inside(view, column, width))?;
    Ok(false)
}

/// Returns the columns that the character takes by itself.
fn width(c: char) -> u64
    ensures value { result ≡ width_of c }
    ensures bound { result ≤ 3 }
{
    match c.width() {
        Some(width) => width as u64,
        None => 0,
    }
}

/// Says whether a character of this width, which begins at this column, is written.
#[tactic(auto, unfolding(crate::specs::Window::is_written))]
fn is_written(view: View, column: u64, width: u64, follows: bool) -> bool
    requires start { column < 2 ^ 34 }
    requires size { width ≤ 3 }
    ensures { result ≡ is_written view column width follows }
{
    if width == 0 {
        return follows;
    }
    let left = u64::from(view.left);
    left <= column && column + width <= left + u64::from(view.cols)
}

/// Returns how many of its columns the window has.
#[tactic(auto, unfolding(crate::specs::Window::columns_inside))]
fn columns_inside(view: View, column: u64, width: u64) -> u64
    requires start { column < 2 ^ 34 }
    requires size { width ≤ 3 }
    ensures { result ≡ columns_inside view column width }
{
    let left = u64::from(view.left);
    let end = left + u64::from(view.cols);
    (column + width).min(end).saturating_sub(column.max(left))
}

fn push_spaces(shown: &mut String, count: u64) -> Result<(), AllocError>
    ensures { OnOk result (string_bytes shown.new ≡ string_bytes shown.old ++ encode_utf8_all (replicate count 32)) }
{
    for _ in 0..count {
        shown.push(' ')?;
    }
    Ok(())
}
