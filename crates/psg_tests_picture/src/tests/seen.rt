//! What a picture shows, as text.
use psg_canvas::{Color, Picture, Slot, Style};
use std::alloc::{AllocError, Global};

/// Returns a letter for a style: `r` reversed, `w` underlined and red, `b` bold and yellow, `n` cyan, `l` green, `x`
/// reversed and of another kind too, `.` where nothing is special.
fn letter(style: Style) -> char {
    let plain = Style::plain();
    let colored = style.bold || style.underlined || style.color != plain.color;
    if style.reversed {
        return if colored { 'x' } else { 'r' };
    }
    match style.color {
        Color::Red => 'w',
        Color::Yellow => 'b',
        Color::Cyan => 'n',
        Color::Green => 'l',
        _ => '.',
    }
}

fn push_slot(text: &mut String, slot: &Slot) -> Result<(), AllocError> {
    for c in slot.text() {
        text.push(*c)?;
    }
    Ok(())
}

/// Returns the rows of the picture, each after a line feed.
pub(crate) fn rows(alloc: Global, picture: &Picture) -> Result<String, AllocError> {
    let mut text = String::new(alloc);
    let mut column = 0usize;
    for slot in picture.slots() {
        if column == 0 {
            text.push('\n')?;
        }
        push_slot(&mut text, slot)?;
        column = next(column, picture.cols());
    }
    Ok(text)
}

/// Returns a letter for each cell of the picture, row by row.
pub(crate) fn styles(alloc: Global, picture: &Picture) -> Result<String, AllocError> {
    let mut text = String::new(alloc);
    let mut column = 0usize;
    for slot in picture.slots() {
        if column == 0 {
            text.push('\n')?;
        }
        if !slot.text().is_empty() {
            text.push(letter(slot.style()))?;
        }
        column = next(column, picture.cols());
    }
    Ok(text)
}

/// Returns the column after this one, which is the first one after the last.
fn next(column: usize, cols: usize) -> usize {
    let next = column.saturating_add(1);
    if next < cols { next } else { 0 }
}

/// Returns rows that are expected, each after a line feed.
pub(crate) fn wanted(alloc: Global, rows: &[&str]) -> Result<String, AllocError> {
    let mut text = String::new(alloc);
    for row in rows {
        text.push('\n')?;
        text.push_str(row)?;
    }
    Ok(text)
}

/// Says whether the picture has these rows.
pub(crate) fn has_rows(
    alloc: Global,
    picture: &Picture,
    expected: &[&str],
) -> Result<bool, AllocError> {
    Ok(rows(alloc, picture)?.as_str() == wanted(alloc, expected)?.as_str())
}

/// Says whether the cells of the picture have the styles of these letters.
pub(crate) fn has_styles(
    alloc: Global,
    picture: &Picture,
    expected: &[&str],
) -> Result<bool, AllocError> {
    Ok(styles(alloc, picture)?.as_str() == wanted(alloc, expected)?.as_str())
}
