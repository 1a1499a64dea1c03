//! What a window's columns show of a row.
ghost use Rattle.std.specs.Prelude.{◌≡◌, ◌++◌, ◌≤◌, ◌<◌, ◌^◌, [], IfOk, OnOk, chars, replicate};
ghost use Rattle.psg_screen.specs.Window.{width_of, is_written, columns_inside, shown_for};
ghost use Rattle.psg_picture.specs.Rows.{columns_from, column_within, in_style, plain, shown};

use crate::row::{Styled, push_text};
use psg_canvas::Style;
use psg_screen::View;
use std::alloc::{AllocError, Global};
use unicode_width::UnicodeWidthChar;

/// The most columns that are counted.
const MOST: u64 = 0xffff_ffff;

/// Returns the columns from `left` on, that many of them.
pub(crate) fn columns_from(left: u32, cols: u32) -> View
    ensures { result ≡ columns_from left cols }
{
    View {
        top: 0,
        left,
        rows: 0,
        cols,
    }
}

/// Returns what the window's columns show of the characters of a line. A character that is cut is spaces.
pub(crate) fn shown(alloc: Global, view: View, line: Vec<Styled>) -> Result<Vec<Styled>, AllocError>
    ensures { IfOk result (λ row. row.items ≡ shown view [] line.items) }
{
    let end = u64::from(view.left) + u64::from(view.cols);
    let mut row = Vec::new(alloc);
    let mut column = 0u64;
    let mut written = view.left == 0;
    for styled in line {
        written = push_shown(&mut row, view, column, styled, written)?;
        // all columns from the window's end on are alike, and a sum of widths could pass a u64
        column = (column + width(styled.c)).min(end);
    }
    Ok(row)
}

/// Returns what the window's columns show of a text, in the plain style.
pub(crate) fn shown_text(alloc: Global, view: View, text: &str) -> Result<Vec<Styled>, AllocError>
    ensures { IfOk result (λ row. row.items ≡ shown view [] (in_style plain (chars text.now))) }
{
    let words = plain_text(alloc, text)?;
    shown(alloc, view, words)
}

/// Returns the characters of a text, in the plain style.
fn plain_text(alloc: Global, text: &str) -> Result<Vec<Styled>, AllocError>
    ensures { IfOk result (λ row. row.items ≡ in_style plain (chars text.now)) }
{
    let style = Style::plain();
    styled_text(alloc, text, style)
}

/// Returns the characters of a text, in one style.
pub(crate) fn styled_text(
    alloc: Global,
    text: &str,
    style: Style,
) -> Result<Vec<Styled>, AllocError>
    ensures { IfOk result (λ row. row.items ≡ in_style style (chars text.now)) }
{
    let mut row = Vec::new(alloc);
    push_text(&mut row, text, style)?;
    Ok(row)
}

/// Puts at the end what the window shows of a character that begins at this column. `follows` says whether the
/// character before it is written, and the answer whether this one is.
#[tactic(auto, unfolding(psg_screen::specs::Window::shown_for))]
fn push_shown(
    row: &mut Vec<Styled>,
    view: View,
    column: u64,
    styled: Styled,
    follows: bool,
) -> Result<bool, AllocError>
    requires { column < 2 ^ 34 }
    ensures written { IfOk result (λ written. written ≡ is_written view column (width_of styled.c) follows) }
    ensures row { OnOk result (row.new.items
        ≡ row.old.items ++ in_style styled.style (shown_for view column styled.c follows)) }
{
    let width = width(styled.c);
    if is_written(view, column, width, follows) {
        row.push(styled)?;
        return Ok(true);
    }
    push_spaces(row, columns_inside(view, column, width), styled.style)?;
    Ok(false)
}

/// Returns the columns that the character takes by itself.
pub(crate) fn width(c: char) -> u64
    ensures value { result ≡ width_of c }
    ensures bound { result ≤ 3 }
{
    match c.width() {
        Some(width) => width as u64,
        None => 0,
    }
}

/// Says whether a character of this width, which begins at this column, is written.
#[tactic(auto, unfolding(psg_screen::specs::Window::is_written))]
fn is_written(view: View, column: u64, width: u64, follows: bool) -> bool
    requires start { column < 2 ^ 34 }
    requires size { width ≤ 3 }
    ensures { result ≡ is_written view column width follows }
{
    if width == 0 {
        return follows;
    }
    let left = u64::from(view.left);
    left <= column && column + width <= left + u64::from(view.cols)
}

/// Returns how many of its columns the window has.
#[tactic(auto, unfolding(psg_screen::specs::Window::columns_inside))]
fn columns_inside(view: View, column: u64, width: u64) -> u64
    requires start { column < 2 ^ 34 }
    requires size { width ≤ 3 }
    ensures { result ≡ columns_inside view column width }
{
    let left = u64::from(view.left);
    let end = left + u64::from(view.cols);
    (column + width).min(end).saturating_sub(column.max(left))
}

/// Puts that many spaces at the end.
fn push_spaces(row: &mut Vec<Styled>, count: u64, style: Style) -> Result<(), AllocError>
    ensures { OnOk result (row.new.items ≡ row.old.items ++ in_style style (replicate count 32)) }
{
    for _ in 0..count {
        row.push(Styled { c: ' ', style })?;
    }
    Ok(())
}

/// Returns the columns of characters; 2^32 - 1 where they are more.
pub(crate) fn columns_of(chars: &[char]) -> u32
    ensures { result ≡ column_within chars.now }
{
    let mut column = 0u64;
    let mut rest = chars;
    'chars: while let Some((first, others)) = rest.split_first() {
        column = (column + width(*first)).min(MOST);
        rest = others;
    }
    column as u32
}

/// Returns the columns of a text; 2^32 - 1 where they are more.
pub(crate) fn columns_of_text(text: &str) -> u32
    ensures { result ≡ column_within (chars text.now) }
{
    let mut column = 0u64;
    for c in text.chars() {
        column = (column + width(c)).min(MOST);
    }
    column as u32
}
