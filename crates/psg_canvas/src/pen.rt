//! The bytes of orders to a terminal.
ghost use Rattle.std.specs.Prelude.{◌≡◌, ◌<◌, ◌+◌, ◌^◌, ◌%◌, ◌==◌, ◌↔◌, ◌++◌, ◌∷◌, [], List, true, false, Some, None};
ghost use Rattle.std.specs.Prelude.{IfSome, IsTrue, OnOk, string_bytes, encode_utf8_all, if◌then◌else◌};
ghost use Rattle.psg_canvas.specs.Orders.{bytes_of_all, moved_to, style_code, color_code};
ghost use Rattle.psg_canvas.specs.Cells.{plain, width_of_text};
ghost use Rattle.psg_canvas.specs.Terminal.{Order, Erase};
ghost use Rattle.psg_canvas.specs.Drawing.{Puts, Restyles, moves, place_past, cursor_orders};

use crate::slot::Slot;
use crate::style::{Color, Style};
use std::alloc::{AllocError, Global};
use std::fmt::Write;

/// The bytes of orders so far, and what is known of the terminal after them: the place of the next cell and its style.
#[derive(Drop)]
pub(crate) struct Pen {
    cols: usize,
    out: String,
    at: Option<usize>,
    style: Option<Style>,
}

impl Pen {
    /// Makes the pen for a screen of that many columns, of which nothing is known.
    pub(crate) fn new(alloc: Global, cols: usize) -> Pen
        ensures cols { result.cols ≡ cols }
        ensures out { string_bytes result.out ≡ [] }
        ensures at { result.at ≡ None }
        ensures style { result.style ≡ None }
    {
        Pen {
            cols,
            out: String::new(alloc),
            at: None,
            style: None,
        }
    }

    /// Returns the bytes.
    pub(crate) fn into_text(self) -> String
        ensures { result ≡ self.out }
    {
        self.out
    }

    /// Writes a cell at a place.
    fn put(&mut self, place: usize, cell: &Slot) -> Result<(), AllocError>
        requires cols { 0 < self.old.cols }
        requires place { place + 1 < 2 ^ 64 }
        requires next { place + width_of_text cell.now.text < 2 ^ 64 }
        ensures bytes { OnOk result ((orders : List Order) × Puts self.old.at self.old.style place cell.now orders
            × (string_bytes self.new.out ≡ string_bytes self.old.out ++ bytes_of_all self.old.cols orders)) }
        ensures at { OnOk result (self.new.at ≡ place_past self.old.cols place cell.now.text) }
        ensures style { OnOk result (self.new.style ≡ Some cell.now.style) }
        ensures cols { self.new.cols ≡ self.old.cols }
    {
        self.go_to(place)?;
        self.restyle(cell.style())?;
        push_all(&mut self.out, cell.text())?;
        self.at = place_past(self.cols, place, cell.width());
        Ok(())
    }

    /// Writes a cell at a place, unless it is known that the terminal shows it there.
    pub(crate) fn put_unless(
        &mut self,
        known: bool,
        place: usize,
        cell: &Slot,
    ) -> Result<(), AllocError>
        requires cols { 0 < self.old.cols }
        requires place { place + 1 < 2 ^ 64 }
        requires next { place + width_of_text cell.now.text < 2 ^ 64 }
        ensures known { known ≡ true → self.new ≡ self.old }
        ensures bytes { OnOk result (known ≡ false → (orders : List Order)
            × Puts self.old.at self.old.style place cell.now orders
            × (string_bytes self.new.out ≡ string_bytes self.old.out ++ bytes_of_all self.old.cols orders)) }
        ensures at { OnOk result (known ≡ false → self.new.at ≡ place_past self.old.cols place cell.now.text) }
        ensures style { OnOk result (known ≡ false → self.new.style ≡ Some cell.now.style) }
        ensures cols { self.new.cols ≡ self.old.cols }
    {
        if known {
            return Ok(());
        }
        self.put(place, cell)?;
        Ok(())
    }

    /// Moves to a place, unless the terminal is there.
    fn go_to(&mut self, place: usize) -> Result<(), AllocError>
        requires cols { 0 < self.old.cols }
        requires place { place + 1 < 2 ^ 64 }
        ensures bytes { OnOk result (string_bytes self.new.out ≡ string_bytes self.old.out
            ++ bytes_of_all self.old.cols (moves self.old.at place)) }
        ensures at { OnOk result (self.new.at ≡ Some place) }
        ensures style { self.new.style ≡ self.old.style }
        ensures cols { self.new.cols ≡ self.old.cols }
    {
        if self.at != Some(place) {
            push_move(&mut self.out, place / self.cols + 1, place % self.cols + 1)?;
            self.at = Some(place);
        }
        Ok(())
    }

    /// Sets the style, unless it is set.
    fn restyle(&mut self, style: Style) -> Result<(), AllocError>
        ensures bytes { OnOk result ((orders : List Order) × Restyles self.old.style style orders
            × (string_bytes self.new.out ≡ string_bytes self.old.out ++ bytes_of_all self.old.cols orders)) }
        ensures style { OnOk result (self.new.style ≡ Some style) }
        ensures at { self.new.at ≡ self.old.at }
        ensures cols { self.new.cols ≡ self.old.cols }
    {
        if is_set(self.style, style) {
            return Ok(());
        }
        self.out.push_str("\x1B[0")?;
        push_style(&mut self.out, style)?;
        self.out.push_str("m")?;
        self.style = Some(style);
        Ok(())
    }

    /// Makes all columns empty, in the plain style.
    pub(crate) fn erase(&mut self) -> Result<(), AllocError>
        ensures bytes { OnOk result ((orders : List Order) × Restyles self.old.style plain orders
            × (string_bytes self.new.out ≡ string_bytes self.old.out
            ++ bytes_of_all self.old.cols (orders ++ Erase ∷ []))) }
        ensures at { self.new.at ≡ self.old.at }
        ensures style { OnOk result (self.new.style ≡ Some plain) }
        ensures cols { self.new.cols ≡ self.old.cols }
    {
        self.restyle(Style::plain())?;
        self.out.push_str("\x1B[2J")?;
        Ok(())
    }

    /// Shows the cursor at a place, or hides it.
    pub(crate) fn set_cursor(&mut self, cursor: Option<usize>) -> Result<(), AllocError>
        requires { IfSome cursor (λ place. (0 < self.old.cols) × (place + 1 < 2 ^ 64)) }
        ensures { OnOk result (string_bytes self.new.out ≡ string_bytes self.old.out
            ++ bytes_of_all self.old.cols (cursor_orders self.old.at cursor)) }
    {
        match cursor {
            Some(place) => {
                self.go_to(place)?;
                self.out.push_str("\x1B[?25h")?;
            }
            None => self.out.push_str("\x1B[?25l")?,
        }
        Ok(())
    }
}

/// Returns the place after a cell of that many columns, which is not known at the end of a row.
fn place_past(cols: usize, place: usize, width: usize) -> Option<usize>
    requires cols { 0 < cols }
    requires next { place + width < 2 ^ 64 }
    ensures { result ≡ (if (place + width) % cols == 0 then None else Some (place + width)) }
{
    let next = place + width;
    if next % cols == 0 { None } else { Some(next) }
}

fn is_same(one: Style, other: Style) -> bool
    ensures { IsTrue result ↔ (one ≡ other) }
{
    one == other
}

/// Says whether the style is known to be this one.
fn is_set(known: Option<Style>, style: Style) -> bool
    ensures { IsTrue result ↔ (known ≡ Some style) }
{
    match known {
        Some(known) => is_same(known, style),
        None => false,
    }
}

/// Puts what moves to a row and a column at the end, both counted from 1.
fn push_move(out: &mut String, row: usize, col: usize) -> Result<(), AllocError>
    ensures { OnOk result (string_bytes out.new ≡ string_bytes out.old ++ moved_to row col) }
{
    write!(out, "\x1B[{row};{col}H")
}

/// Puts the codes of the style at the end.
fn push_style(out: &mut String, style: Style) -> Result<(), AllocError>
    ensures { OnOk result (string_bytes out.new ≡ string_bytes out.old ++ style_code style) }
{
    push_where(out, style.bold, ";1")?;
    push_where(out, style.underlined, ";4")?;
    push_where(out, style.reversed, ";7")?;
    out.push_str(color_code(style.color))?;
    Ok(())
}

/// Puts the text at the end, where it is wanted.
fn push_where(out: &mut String, wanted: bool, text: &str) -> Result<(), AllocError>
    ensures { OnOk result (string_bytes out.new ≡ string_bytes out.old ++ (if wanted then text.now else [])) }
{
    if wanted {
        out.push_str(text)?;
    }
    Ok(())
}

fn color_code(color: Color) -> &'static str
    ensures { result.now ≡ color_code color }
{
    match color {
        Color::Own => "",
        Color::Red => ";31",
        Color::Green => ";32",
        Color::Yellow => ";33",
        Color::Blue => ";34",
        Color::Magenta => ";35",
        Color::Cyan => ";36",
    }
}

/// Puts the characters at the end.
fn push_all(out: &mut String, chars: &[char]) -> Result<(), AllocError>
    ensures { OnOk result (string_bytes out.new ≡ string_bytes out.old ++ encode_utf8_all chars.now) }
{
    for c in chars {
        out.push(*c)?;
    }
    Ok(())
}
