//! The lines around the program.
ghost use Rattle.std.specs.Prelude.{◌≡◌, ◌++◌, ◌≤◌, IfOk, OnOk};
ghost use Rattle.std.specs.Option.{option_copied};
ghost use Rattle.psg_picture.specs.Pictures as pictured;
ghost use Rattle.psg_picture.specs.Rows.{column_within, with_row, with_rows};

use crate::row::{Styled, push_chars, push_same, push_text, write_plain, write_row};
use crate::windowed::{columns_from, columns_of, columns_of_text, shown, shown_text, styled_text};
use psg_canvas::{Sketch, Style};
use psg_keys::Line;
use std::alloc::{AllocError, Global};

/// A piece of a row.
#[derive(Drop)]
pub struct Piece {
    /// Its text.
    pub text: String,
    /// Whether it is written in the reversed style.
    pub reversed: bool,
}

/// The words of the lines around the program.
#[derive(Drop)]
pub struct Around {
    /// What the first row says: the file, the language and the kind.
    pub title: String,
    /// The mark at the end of the first row.
    pub mark: String,
    /// Where the chosen place is, and what it is.
    pub place: String,
    /// What may be put there.
    pub offers: Vec<Piece>,
    /// What the last row says where no line of text is open.
    pub said: String,
}

/// Returns the style that is reversed or plain.
fn style_of(reversed: bool) -> Style
    ensures { result ≡ pictured.style_of reversed }
{
    let Style {
        color,
        bold,
        underlined,
        ..
    } = Style::plain();
    Style {
        color,
        bold,
        underlined,
        reversed,
    }
}

/// Writes the first row: the title, as far as it is shown, and the mark two columns before the end of the row.
pub(crate) fn write_title(
    alloc: Global,
    sketch: &mut Sketch,
    cols: u32,
    around: &Around,
) -> Result<(), AllocError>
    ensures { OnOk result (sketch.new ≡ with_row (pictured.title_row cols around.now) sketch.old) }
{
    let style = style_of(true);
    let mark = around.mark.as_str();
    let most = before_mark(cols, mark);
    let mut row = title_part(alloc, most, around.title.as_str(), style)?;
    push_text(&mut row, mark, style)?;
    write_row(alloc, sketch, row, style)
}

/// Returns the columns before the mark, which has two columns after it.
fn before_mark(cols: u32, mark: &str) -> u32
    ensures { result ≡ pictured.before_mark cols mark.now }
{
    cols.saturating_sub(columns_of_text(mark).saturating_add(2))
}

/// Returns a title as far as that many columns show it, and spaces up to one column more.
fn title_part(
    alloc: Global,
    most: u32,
    title: &str,
    style: Style,
) -> Result<Vec<Styled>, AllocError>
    ensures { IfOk result (λ row. row.items ≡ pictured.title_part style most title.now) }
{
    let least = most.saturating_sub(1);
    let words = styled_text(alloc, title, style)?;
    let mut row = shown(alloc, columns_from(0, least), words)?;
    let left = most - columns_of_text(title).min(least);
    push_same(&mut row, left, ' ', style)?;
    Ok(row)
}

/// Writes the rows below the program: a rule, where the chosen place is, what may be put there, and the line of text,
/// or what is said where none is open.
pub(crate) fn write_below(
    alloc: Global,
    sketch: &mut Sketch,
    cols: u32,
    around: &Around,
    line: Option<&Line>,
) -> Result<(), AllocError>
    requires { 1 ≤ cols }
    ensures { OnOk result
        (sketch.new ≡ with_rows (pictured.rows_below cols around.now (option_copied line.entry)) sketch.old) }
{
    write_rule(alloc, sketch, cols)?;
    write_words(alloc, sketch, cols, around.place.as_str())?;
    write_offers(alloc, sketch, cols, around.offers.as_slice())?;
    write_last(alloc, sketch, cols, around, line)
}

/// Writes the last row: the line of text, or what is said where none is open.
fn write_last(
    alloc: Global,
    sketch: &mut Sketch,
    cols: u32,
    around: &Around,
    line: Option<&Line>,
) -> Result<(), AllocError>
    requires { 1 ≤ cols }
    ensures { OnOk result
        (sketch.new ≡ with_row (pictured.last_row cols around.now (option_copied line.entry)) sketch.old) }
{
    match line {
        Some(line) => write_typed(alloc, sketch, cols, line),
        None => write_words(alloc, sketch, cols, around.said.as_str()),
    }
}

/// Writes the row of what may be put at the chosen place.
fn write_offers(
    alloc: Global,
    sketch: &mut Sketch,
    cols: u32,
    pieces: &[Piece],
) -> Result<(), AllocError>
    ensures { OnOk result (sketch.new ≡ with_row (pictured.offers_row cols pieces.now) sketch.old) }
{
    let mut words = Vec::new(alloc);
    push_pieces(&mut words, pieces)?;
    let row = shown(alloc, columns_from(0, cols), words)?;
    write_plain(alloc, sketch, row)
}

/// Writes the rule below the program.
fn write_rule(alloc: Global, sketch: &mut Sketch, cols: u32) -> Result<(), AllocError>
    ensures { OnOk result (sketch.new ≡ with_row (pictured.rule_row cols) sketch.old) }
{
    let style = Style::plain();
    let mut rule = Vec::new(alloc);
    push_same(&mut rule, cols, '-', style)?;
    write_plain(alloc, sketch, rule)
}

/// Writes a row of words.
fn write_words(alloc: Global, sketch: &mut Sketch, cols: u32, text: &str) -> Result<(), AllocError>
    ensures { OnOk result (sketch.new ≡ with_row (pictured.words_row cols text.now) sketch.old) }
{
    let row = shown_text(alloc, columns_from(0, cols), text)?;
    write_plain(alloc, sketch, row)
}

/// Puts pieces at the end.
fn push_pieces(row: &mut Vec<Styled>, pieces: &[Piece]) -> Result<(), AllocError>
    ensures { OnOk result (row.new.items ≡ row.old.items ++ pictured.of_pieces pieces.now) }
{
    let mut rest = pieces;
    'pieces: while let Some((piece, others)) = rest.split_first() {
        push_text(row, piece.text.as_str(), style_of(piece.reversed))?;
        rest = others;
    }
    Ok(())
}

/// Returns the columns of the characters before the cursor of a line of text.
fn columns_before(line: &Line) -> u32
    ensures { result ≡ column_within line.now.before }
{
    let place = line.place();
    let (before, _) = line.chars().split_at(place);
    columns_of(before)
}

/// Returns the column of a line of text at which its row begins. A line that is longer than the screen is shown from
/// the column at which its cursor is the last.
fn skipped(cols: u32, line: &Line) -> u32
    requires { 1 ≤ cols }
    ensures { result ≡ pictured.skipped cols line.now }
{
    columns_before(line).saturating_sub(cols - 1)
}

/// Writes a line of text.
fn write_typed(alloc: Global, sketch: &mut Sketch, cols: u32, line: &Line) -> Result<(), AllocError>
    requires { 1 ≤ cols }
    ensures { OnOk result (sketch.new ≡ with_row (pictured.typed_row cols line.now) sketch.old) }
{
    let mut chars = Vec::new(alloc);
    push_chars(&mut chars, line.chars())?;
    let row = shown(alloc, columns_from(skipped(cols, line), cols), chars)?;
    write_plain(alloc, sketch, row)
}

/// Returns the place where the cursor is shown: in the last row, where a line of text is open.
pub(crate) fn cursor_of(rows: u32, cols: u32, line: Option<&Line>) -> Option<(u32, u32)>
    requires rows { 1 ≤ rows }
    requires cols { 1 ≤ cols }
    ensures { result ≡ pictured.cursor_at rows cols (option_copied line.entry) }
{
    match line {
        Some(line) => {
            let column = columns_before(line).min(cols - 1);
            Some((rows - 1, column))
        }
        None => None,
    }
}
