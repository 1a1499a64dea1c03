//! Laying out tokens and marks: the gap in front of a token depends on what is written before it.
ghost use Rattle.std.specs.Prelude.{◌≡◌, ◌++◌, ◌*◌, ◌&&◌, not, true, false, cond, ◌∷◌, [], Some, replicate, slice_get};
ghost use Rattle.std.specs.Prelude.{IfNone, IfSome, IsTrue, List, OnOk, chars, decimal, string_bytes};
ghost use Rattle.psg_grammar.specs.declared.types.Item.TheVariants as items;
ghost use Rattle.psg_tree.specs.AbstractText as text;
ghost use Rattle.psg_unparse.specs.Rows as rows;
ghost use Rattle.psg_unparse.specs.Rows.{Piece};
ghost use Rattle.psg_unparse.specs.Layout.{last_char};
ghost use Rattle.psg_unparse.specs.Writing.{Adds, IsBegun, IsWritten, ended_by, gap_behind, gap_in, glues_with};
ghost use Rattle.psg_unparse.specs.Writing.{head_with, piece};
ghost use Rattle.psg_unparse.specs.Plain.{has_token, IsPlain};

use itoa::Buffer;
use psg_grammar::Item;
use psg_lexis::glues;
use psg_terms::uncountable;
use psg_tree::write_quoted;
use std::alloc::{AllocError, Global};

/// The text of a row, and what the gap in front of the next token depends on: the last character of the last token, how
/// many levels are open, and which marks follow that token.
#[derive(Drop)]
pub(crate) struct Writer {
    pub(crate) out: String,
    pub(crate) last: Option<char>,
    pub(crate) levels: usize,
    pub(crate) line: bool,
    pub(crate) tight: bool,
    pub(crate) space: bool,
    /// The byte at which the first token begins that was written since this was set to `None`.
    pub(crate) first: Option<usize>,
    /// Whether each mark so far follows a token, and none puts a line or changes a level.
    pub(crate) plain: bool,
    /// The first character of the first token.
    pub(crate) head: Option<char>,
}

impl Writer {
    /// Makes a writer that has written nothing.
    pub(crate) fn new(alloc: Global) -> Writer
        ensures { IsWritten result [] }
    {
        Writer {
            out: String::new(alloc),
            last: None,
            levels: 0,
            line: false,
            tight: false,
            space: false,
            first: None,
            plain: true,
            head: None,
        }
    }

    /// Says whether the row is plain with one more mark that puts no line and changes no level.
    fn stays_plain(&self) -> bool
        ensures { result ≡ (self.now.plain && has_token self.now.last) }
    {
        self.plain && self.last.is_some()
    }

    /// Says whether the row that was written begins and ends with a token, and has no mark that puts a line or changes
    /// a level.
    #[tactic(auto, using(crate::proofs::PlainRows::not_line, crate::proofs::PlainRows::not_tight, crate::proofs::PlainRows::not_space))]
    pub(crate) fn is_plain(&self) -> bool
        ensures yes { IsTrue result → (row : List Piece) → IsWritten self.now row → IsPlain row }
        ensures no { result ≡ false → (row : List Piece) → IsWritten self.now row → IsPlain row → ⊥ }
    {
        if self.line {
            return false;
        }
        if self.tight {
            return false;
        }
        if self.space {
            return false;
        }
        self.stays_plain()
    }

    /// Keeps the next token beside the last one.
    pub(crate) fn put_tight(&mut self)
        ensures { Adds (rows.mark items.Tight ∷ []) self.old self.new }
    {
        self.plain = self.stays_plain();
        self.tight = true;
    }

    /// Puts a space in front of the next token.
    pub(crate) fn put_space(&mut self)
        ensures { Adds (rows.mark items.Space ∷ []) self.old self.new }
    {
        self.plain = self.stays_plain();
        self.space = true;
    }

    /// Puts the next token on a line of its own.
    pub(crate) fn put_line(&mut self)
        ensures { Adds (rows.mark items.Line ∷ []) self.old self.new }
    {
        self.plain = false;
        self.line = true;
    }

    /// Opens a level of indentation.
    fn put_in(&mut self) -> Result<(), AllocError>
        ensures { OnOk result (Adds (rows.mark items.In ∷ []) self.old self.new) }
    {
        let Some(levels) = self.levels.checked_add(1) else {
            return Err(uncountable(self.levels));
        };
        self.plain = false;
        self.levels = levels;
        Ok(())
    }

    /// Closes a level of indentation, if one is open.
    fn put_out(&mut self)
        ensures { Adds (rows.mark items.Out ∷ []) self.old self.new }
    {
        self.plain = false;
        self.levels = self.levels.saturating_sub(1);
    }

    /// Puts a mark. Any other item is passed over.
    pub(crate) fn put_mark(&mut self, item: &Item) -> Result<(), AllocError>
        ensures { OnOk result (Adds (rows.mark item.now ∷ []) self.old self.new) }
    {
        match item {
            Item::Tight => {
                self.put_tight();
                Ok(())
            }
            Item::Space => {
                self.put_space();
                Ok(())
            }
            Item::Line => {
                self.put_line();
                Ok(())
            }
            Item::In => self.put_in(),
            Item::Out => {
                self.put_out();
                Ok(())
            }
            _ => Ok(()),
        }
    }

    /// Puts a word or a mark.
    pub(crate) fn put_item(&mut self, item: &Item) -> Result<(), AllocError>
        ensures { OnOk result (Adds (piece item.now ∷ []) self.old self.new) }
    {
        match item {
            Item::Word(word) => self.put_token(word.as_str()),
            _ => self.put_mark(item),
        }
    }

    /// Puts a token of this text.
    pub(crate) fn put_token(&mut self, text: &str) -> Result<(), AllocError>
        ensures { OnOk result (Adds (rows.token text.now ∷ []) self.old self.new) }
    {
        self.begin(first_char(text))?;
        self.out.push_str(text)?;
        self.end(last_char(text, '\0'));
        Ok(())
    }

    /// Puts a placeholder of the phylum of this name.
    pub(crate) fn put_hole(&mut self, phylum: &str) -> Result<(), AllocError>
        ensures { OnOk result (Adds (rows.token (63 ∷ phylum.now) ∷ []) self.old self.new) }
    {
        self.begin(Some('?'))?;
        self.out.push('?')?;
        self.out.push_str(phylum)?;
        self.end(last_char(phylum, '?'));
        Ok(())
    }

    /// Puts a number in decimal.
    pub(crate) fn put_number(&mut self, value: u128) -> Result<(), AllocError>
        ensures { OnOk result (Adds (rows.token (decimal value) ∷ []) self.old self.new) }
    {
        let mut buffer = Buffer::new();
        self.put_token(buffer.format(value))?;
        Ok(())
    }

    /// Puts a text in quotes.
    pub(crate) fn put_text(&mut self, contents: &str) -> Result<(), AllocError>
        ensures { OnOk result (Adds (rows.token (text.quoted contents.now) ∷ []) self.old self.new) }
    {
        self.begin(Some('"'))?;
        write_quoted(&mut self.out, contents)?;
        self.end('"');
        Ok(())
    }

    /// Writes the gap in front of a token that begins with the character, and keeps where the token begins if it is the
    /// first.
    fn begin(&mut self, begins: Option<char>) -> Result<(), AllocError>
        ensures { OnOk result (IsBegun begins self.old self.new) }
    {
        self.write_gap(begins)?;
        self.head = head_with(self.last, begins, self.head);
        self.first = self.first.or(Some(self.out.len()));
        Ok(())
    }

    /// Writes the gap in front of a token that begins with the character: nothing in front of the first token.
    fn write_gap(&mut self, begins: Option<char>) -> Result<(), AllocError>
        ensures bytes { OnOk result
            (string_bytes self.new.out ≡ string_bytes self.old.out ++ gap_in self.old self.old.last begins) }
        ensures kept { self.new ≡ record self.old { out = self.new.out } }
    {
        match self.last {
            Some(last) => {
                self.write_gap_behind(last, begins)?;
                Ok(())
            }
            None => Ok(()),
        }
    }

    /// Writes the gap between a token that ends with a character and one that begins with another.
    fn write_gap_behind(&mut self, last: char, begins: Option<char>) -> Result<(), AllocError>
        ensures bytes { OnOk result
            (string_bytes self.new.out ≡ string_bytes self.old.out ++ gap_behind self.old last begins) }
        ensures kept { self.new ≡ record self.old { out = self.new.out } }
    {
        if self.line {
            write_line(&mut self.out, self.levels)?;
            return Ok(());
        }
        if self.needs_space(last, begins) {
            self.out.push(' ')?;
        }
        Ok(())
    }

    /// Says whether two tokens on one line, of which one ends and one begins with these characters, have a space
    /// between them.
    fn needs_space(&self, last: char, begins: Option<char>) -> bool
        ensures { result ≡ cond (self.now.tight && not self.now.space) (glues_with last begins) true }
    {
        if self.tight && !self.space {
            runs_together(last, begins)
        } else {
            true
        }
    }

    /// Keeps the last character of the token that was written. No mark follows it yet.
    fn end(&mut self, last: char)
        ensures { self.new ≡ ended_by last self.old }
    {
        self.last = Some(last);
        self.line = false;
        self.tight = false;
        self.space = false;
    }
}

/// Returns the first character of the first token, where the next one begins with this character.
fn head_with(last: Option<char>, begins: Option<char>, head: Option<char>) -> Option<char>
    ensures { result ≡ head_with last begins head }
{
    match last {
        Some(_) => head,
        None => begins,
    }
}

/// Writes a line feed, and two spaces for each open level.
fn write_line(out: &mut String, levels: usize) -> Result<(), AllocError>
    ensures { OnOk result (string_bytes out.new ≡ string_bytes out.old ++ 10 ∷ replicate (2 * levels) 32) }
{
    out.push('\n')?;
    for _level in 0..levels {
        out.push_str("  ")?;
    }
    Ok(())
}

/// Says whether a token that begins with the character would run together with one that ends with the other character.
fn runs_together(last: char, begins: Option<char>) -> bool
    ensures { result ≡ glues_with last begins }
{
    match begins {
        Some(first) => glues(last, first),
        None => false,
    }
}

/// Returns the first character of the text, if there is one.
fn first_char(text: &str) -> Option<char>
    ensures { result ≡ slice_get (chars text.now) 0 }
{
    match text.chars().next() {
        Some(first) => Some(first),
        None => None,
    }
}

/// Returns the last character of the text, or the other one where the text is empty.
fn last_char(text: &str, otherwise: char) -> char
    ensures { result ≡ last_char otherwise (chars text.now) }
{
    match split_last(text) {
        Some((_, last)) => last,
        None => otherwise,
    }
}

/// Returns the text in front of the last character, and that character.
fn split_last(text: &str) -> Option<(&str, char)>
    ensures none { IfNone result (chars text.now ≡ []) }
    ensures last { IfSome result (λ parts. chars text.now ≡ chars parts.0.now ++ parts.1 ∷ []) }
{
    let mut characters = text.chars();
    match characters.next_back() {
        Some(last) => Some((characters.as_str(), last)),
        None => None,
    }
}
