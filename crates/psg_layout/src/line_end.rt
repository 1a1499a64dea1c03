//! The end of a text: its line feeds, and its last line.
ghost use Rattle.std.specs.Prelude.{◌≡◌, ◌∷◌, [], OnOk, ℕ, List, chars, replicate, false, true};
ghost use Rattle.std.specs.Int.{is_in_range};
ghost use Rattle.std.specs.List.{list_all};
ghost use Rattle.psg_layout.specs.Pages.{columns, has_feed, last_line, spaces_before, width_of};
ghost use Rattle.psg_layout.specs.Sheets.{gap_bytes, IsEnd, PutsChars};

use crate::gap::{Gap, sum};
use std::alloc::AllocError;
use unicode_width::UnicodeWidthChar;

/// What is known of the end of a text.
#[derive(Clone, Copy)]
pub(crate) struct LineEnd {
    /// How many line feeds the text has.
    pub(crate) feeds: usize,
    /// The columns of its last line.
    pub(crate) columns: usize,
    /// How many spaces are in front on its last line, where that has other characters after them.
    pub(crate) front: Option<usize>,
}

/// Returns the columns that the character takes by itself.
fn width(c: char) -> usize
    ensures { result ≡ width_of c }
{
    match c.width() {
        Some(width) => width,
        None => 0,
    }
}

/// Says whether the byte is a printable ASCII character other than the space.
fn is_narrow_byte(byte: u8) -> bool
    ensures { result ≡ is_in_range 33 126 byte }
{
    byte >= 33 && byte <= 126
}

/// Says whether all bytes of the text are printable ASCII characters other than the space.
fn is_narrow(text: &str) -> bool
    ensures { result ≡ list_all (is_in_range 33 126) text.now }
{
    text.as_bytes().iter().all(|byte| is_narrow_byte(*byte))
}

impl LineEnd {
    /// Returns the end of the empty text.
    pub(crate) fn new() -> LineEnd
        ensures { IsEnd result [] }
    {
        LineEnd {
            feeds: 0,
            columns: 0,
            front: None,
        }
    }

    /// Returns how many spaces are in front on the last line.
    pub(crate) fn spaces(&self) -> usize
        ensures { (cs : List ℕ) → IsEnd self.now cs → result ≡ spaces_before (last_line cs) }
    {
        match self.front {
            Some(spaces) => spaces,
            None => self.columns,
        }
    }

    /// Puts a line feed at the end.
    fn put_feed(&mut self) -> Result<(), AllocError>
        ensures { OnOk result (PutsChars (10 ∷ []) self.old self.new) }
    {
        self.feeds = sum(self.feeds, 1)?;
        self.columns = 0;
        self.front = None;
        Ok(())
    }

    /// Puts spaces at the end.
    fn put_spaces(&mut self, spaces: usize) -> Result<(), AllocError>
        ensures { OnOk result (PutsChars (replicate spaces 32) self.old self.new) }
    {
        self.columns = sum(self.columns, spaces)?;
        Ok(())
    }

    /// Puts a character at the end that is no line feed and no space.
    fn put_mark(&mut self, c: char) -> Result<(), AllocError>
        requires feed { c ≡ 10 → ⊥ }
        requires space { c ≡ 32 → ⊥ }
        ensures { OnOk result (PutsChars (c ∷ []) self.old self.new) }
    {
        self.front = Some(self.spaces());
        self.columns = sum(self.columns, width(c))?;
        Ok(())
    }

    /// Puts a character at the end.
    pub(crate) fn put(&mut self, c: char) -> Result<(), AllocError>
        ensures { OnOk result (PutsChars (c ∷ []) self.old self.new) }
    {
        if c == '\n' {
            self.put_feed()?;
            return Ok(());
        }
        if c == ' ' {
            self.put_spaces(1)?;
            return Ok(());
        }
        self.put_mark(c)?;
        Ok(())
    }

    /// Puts a text at the end.
    pub(crate) fn put_str(&mut self, text: &str) -> Result<(), AllocError>
        ensures { OnOk result (PutsChars (chars text.now) self.old self.new) }
    {
        if is_narrow(text) {
            self.put_narrow(text)?;
            return Ok(());
        }
        self.put_chars(text)?;
        Ok(())
    }

    /// Puts a text at the end of which each byte is a printable ASCII character other than the space: each takes one
    /// column.
    fn put_narrow(&mut self, text: &str) -> Result<(), AllocError>
        requires { list_all (is_in_range 33 126) text.now ≡ true }
        ensures { OnOk result (PutsChars (chars text.now) self.old self.new) }
    {
        if text.is_empty() {
            return Ok(());
        }
        self.front = Some(self.spaces());
        self.columns = sum(self.columns, text.len())?;
        Ok(())
    }

    /// Puts a text of that many columns at the end, which has no line feed and begins with a character other than the
    /// space.
    pub(crate) fn put_flat(&mut self, width: usize) -> Result<(), AllocError>
        ensures { OnOk result ((c : ℕ) (cs : List ℕ) → has_feed (c ∷ cs) ≡ false → (c ≡ 32 → ⊥)
            → columns (c ∷ cs) ≡ width → PutsChars (c ∷ cs) self.old self.new) }
    {
        self.front = Some(self.spaces());
        self.columns = sum(self.columns, width)?;
        Ok(())
    }

    /// Puts the characters of a text at the end.
    fn put_chars(&mut self, text: &str) -> Result<(), AllocError>
        ensures { OnOk result (PutsChars (chars text.now) self.old self.new) }
    {
        for c in text.chars() {
            self.put(c)?;
        }
        Ok(())
    }

    /// Puts a gap at the end.
    pub(crate) fn put_gap(&mut self, gap: Gap) -> Result<(), AllocError>
        ensures { OnOk result (PutsChars (gap_bytes gap) self.old self.new) }
    {
        if gap.feed {
            self.put_feed()?;
            self.put_spaces(gap.spaces)?;
            return Ok(());
        }
        self.put_spaces(gap.spaces)?;
        Ok(())
    }
}
