//! What the plain gap in front of the next token depends on.
ghost use Rattle.std.specs.Prelude.{◌≡◌, ◌&&◌, not, true, cond, [], IfOk, OnOk, List, ℕ, chars, slice_get};
ghost use Rattle.psg_unparse.specs.Layout.{gap, last_char};
ghost use Rattle.psg_unparse.specs.Rows as rows;
ghost use Rattle.psg_unparse.specs.Rows.{Piece};
ghost use Rattle.psg_unparse.specs.Writing.{glues_with};
ghost use Rattle.psg_layout.specs.Sheets.{gap_after_char, gap_bytes, IsMarked, PutsPiece};

use crate::gap::{Gap, sum};
use psg_grammar::Item;
use psg_lexis::glues;
use std::alloc::AllocError;

/// The last character of the last token of a row, how many levels are open at its end, and which marks follow that
/// token.
#[derive(Clone, Copy)]
pub(crate) struct Marks {
    pub(crate) last: Option<char>,
    pub(crate) levels: usize,
    pub(crate) line: bool,
    pub(crate) tight: bool,
    pub(crate) space: bool,
}

impl Marks {
    /// Returns what is so of the row without a piece.
    pub(crate) fn new() -> Marks
        ensures { IsMarked result [] }
    {
        Marks {
            last: None,
            levels: 0,
            line: false,
            tight: false,
            space: false,
        }
    }

    /// Puts a mark at the end of the row. Any other item is passed over.
    pub(crate) fn put(&mut self, item: &Item) -> Result<(), AllocError>
        ensures { OnOk result (PutsPiece (rows.mark item.now) self.old self.new) }
    {
        match item {
            Item::Tight => {
                self.tight = true;
                Ok(())
            }
            Item::Space => {
                self.space = true;
                Ok(())
            }
            Item::Line => {
                self.line = true;
                Ok(())
            }
            Item::In => {
                self.levels = sum(self.levels, 1)?;
                Ok(())
            }
            Item::Out => {
                self.levels = self.levels.saturating_sub(1);
                Ok(())
            }
            _ => Ok(()),
        }
    }

    /// Puts a token at the end of the row, which ends with this character.
    pub(crate) fn end(&mut self, last: char)
        ensures { (t : List ℕ) → last ≡ last_char 0 (chars t) → PutsPiece (rows.token t) self.old self.new }
    {
        self.last = Some(last);
        self.line = false;
        self.tight = false;
        self.space = false;
    }

    /// Returns the plain gap in front of a token that begins with the character.
    pub(crate) fn gap(&self, begins: Option<char>) -> Result<Gap, AllocError>
        ensures { IfOk result (λ made. (row : List Piece) (t : List ℕ) → IsMarked self.now row
            → begins ≡ slice_get (chars t) 0 → gap_bytes made ≡ gap row t) }
    {
        match self.last {
            Some(last) => {
                let gap = self.gap_behind(last, begins)?;
                Ok(gap)
            }
            None => Ok(Gap {
                feed: false,
                spaces: 0,
            }),
        }
    }

    /// Returns the gap between a token that ends with a character and one that begins with another.
    fn gap_behind(&self, last: char, begins: Option<char>) -> Result<Gap, AllocError>
        ensures { IfOk result (λ made. gap_bytes made ≡ gap_after_char self.now last begins) }
    {
        if self.line {
            let spaces = sum(self.levels, self.levels)?;
            return Ok(Gap { feed: true, spaces });
        }
        if self.needs_space(last, begins) {
            return Ok(Gap {
                feed: false,
                spaces: 1,
            });
        }
        Ok(Gap {
            feed: false,
            spaces: 0,
        })
    }

    /// Says whether two tokens on one line, of which one ends and one begins with these characters, have a space
    /// between them.
    fn needs_space(&self, last: char, begins: Option<char>) -> bool
        ensures { result ≡ cond (self.now.tight && not self.now.space) (glues_with last begins) true }
    {
        if self.tight && !self.space {
            runs_together(last, begins)
        } else {
            true
        }
    }
}

/// Says whether a token that begins with the character would run together with one that ends with the other character.
fn runs_together(last: char, begins: Option<char>) -> bool
    ensures { result ≡ glues_with last begins }
{
    match begins {
        Some(first) => glues(last, first),
        None => false,
    }
}
