//! What one column of a screen shows.
ghost use Rattle.std.specs.Prelude.{◌≡◌, ◌≤◌, ◌++◌, ◌∷◌, [], ◌↔◌, IfOk, IsTrue, OnOk, OnErr};
ghost use Rattle.psg_canvas.specs.Cells.{cell_of, rest, width_of, width_of_text, is_mark, is_left_out};

use crate::style::Style;
use smallvec::SmallVec;
use std::alloc::{AllocError, Global};
use std::marker::Model;
use unicode_width::UnicodeWidthChar;

/// What one column of a screen shows: a cell that begins there, or nothing of its own where the cell began before it.
///
/// A cell is a character with columns and the characters of width 0 after it. One such character takes no memory.
#[derive(Drop)]
pub struct Slot {
    text: SmallVec<char, 2>,
    style: Style,
}

impl Model for Slot {
    ghost use Rattle.psg_canvas.specs.Cells.{Slot as Column};

    ghost Value = { Column };

    ghost view = { λ s. record { text = s.text.items; style = s.style } };
}

impl Slot {
    /// Makes a cell of one character, of width 1 or 2.
    pub(crate) fn cell(alloc: Global, c: char, style: Style) -> Result<Slot, AllocError>
        ensures { IfOk result (λ s. s ≡ cell_of c style) }
    {
        Ok(Slot {
            text: SmallVec::from_slice(alloc, &[c])?,
            style,
        })
    }

    /// Makes a further column of a cell.
    pub(crate) fn rest(alloc: Global) -> Slot
        ensures { result ≡ rest }
    {
        Slot {
            text: SmallVec::new(alloc),
            style: Style::plain(),
        }
    }

    /// Adds a character of width 0 to a cell.
    pub(crate) fn join(&mut self, mark: char) -> Result<(), AllocError>
        ensures text { OnOk result (self.new.text ≡ self.old.text ++ mark ∷ []) }
        ensures style { self.new.style ≡ self.old.style }
        ensures memory { OnErr result (self.new ≡ self.old) }
    {
        self.text.push(mark)?;
        Ok(())
    }

    /// Returns the characters of the cell that begins here, none where no cell does.
    pub fn text(&self) -> &[char]
        ensures { result.now ≡ self.now.text }
    {
        self.text.as_slice()
    }

    /// Returns the style of the cell.
    pub fn style(&self) -> Style
        ensures { result ≡ self.now.style }
    {
        self.style
    }

    /// Returns how many columns the cell has that begins here.
    pub fn width(&self) -> usize
        ensures { result ≡ width_of_text self.now.text }
    {
        match self.text().first() {
            Some(c) => width_of(*c),
            None => 0,
        }
    }

    /// Says whether two columns show the same.
    pub fn shows_same(&self, other: &Slot) -> bool
        ensures { IsTrue result ↔ (self.now ≡ other.now) }
    {
        self.text() == other.text() && self.style == other.style
    }
}

/// Returns the columns that a character takes by itself; none for a control character.
#[tactic(auto, unfolding(crate::specs::Cells::width_of))]
pub(crate) fn width_of(c: char) -> usize
    ensures value { result ≡ width_of c }
    ensures bound { result ≤ 3 }
{
    c.width().unwrap_or(0)
}

/// Says whether the character takes no column and is no control character, so that it joins the cell before it.
#[tactic(auto, unfolding(crate::specs::Cells::is_mark))]
pub(crate) fn is_mark(c: char) -> bool
    ensures { result ≡ is_mark c }
{
    c.width().unwrap_or(1) == 0
}

/// Says whether the character is in no cell: it turns the direction of writing, or changes how wide others are.
pub(crate) fn is_left_out(c: char) -> bool
    ensures { result ≡ is_left_out c }
{
    matches!(
        c,
        '\u{61C}'
            | '\u{200D}'..='\u{200F}'
            | '\u{202A}'..='\u{202E}'
            | '\u{2066}'..='\u{2069}'
            | '\u{FE00}'..='\u{FE0F}'
    )
}
