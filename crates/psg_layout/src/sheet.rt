//! Writing tokens with plain gaps and with breaks.
ghost use Rattle.std.specs.Prelude.{◌≡◌, ◌++◌, ◌∷◌, [], IfNone, IfOk, IfSome, OnOk, length, map, replicate};
ghost use Rattle.std.specs.Prelude.{chars, decimal, slice_get, string_bytes};
ghost use Rattle.psg_tree.specs.AbstractText as text;
ghost use Rattle.psg_unparse.specs.Layout.{last_char};
ghost use Rattle.psg_layout.specs.Pages.{gap_by};
ghost use Rattle.psg_layout.specs.Sheets as sheets;
ghost use Rattle.psg_layout.specs.Sheets.{Copy, Ink, Inks, IsInk, IsOwn, IsStop, PutsChars, begun, gap_bytes, ink_ask};
ghost use Rattle.psg_layout.specs.Sheets.{ink_copy, ink_mark, ink_token, new_ink};

use crate::gap::{Gap, sum};
use crate::line_end::LineEnd;
use crate::marks::Marks;
use itoa::Buffer;
use psg_grammar::Item;
use psg_tree::write_quoted;
use std::alloc::{AllocError, Global};

/// Where a token begins: the number of its first byte, the gap in front of it, the line feeds and the columns in front
/// of it, and its first character.
#[derive(Clone, Copy)]
pub(crate) struct Begin {
    pub(crate) byte: usize,
    pub(crate) gap: Gap,
    pub(crate) feeds: usize,
    pub(crate) columns: usize,
    pub(crate) head: Option<char>,
}

/// The bytes of a token: the number of the first one, and that of the one after the last one.
#[derive(Clone, Copy)]
pub(crate) struct Extent {
    pub(crate) begin: usize,
    pub(crate) end: usize,
}

/// The tokens of a node as they are written elsewhere, in one line: the plain gap in front of them, their columns, the
/// byte at which they begin there, their text and their bytes there, and the marks after the node.
#[derive(Clone, Copy)]
pub(crate) struct Own<'a> {
    pub(crate) lead: Gap,
    pub(crate) width: usize,
    pub(crate) start: usize,
    pub(crate) text: &'a str,
    pub(crate) tokens: &'a [Extent],
    pub(crate) after: Marks,
    /// How many nodes there are in the node, with itself.
    pub(crate) count: usize,
}

/// The end of what is written: the bytes and the tokens in front of it, its line, and the marks.
#[derive(Clone, Copy)]
pub(crate) struct Stop {
    pub(crate) bytes: usize,
    pub(crate) tokens: usize,
    pub(crate) line: LineEnd,
    pub(crate) marks: Marks,
}

/// What is written of a text.
#[derive(Drop)]
pub(crate) struct Sheet {
    pub(crate) out: String,
    /// The bytes of the tokens, in order.
    pub(crate) tokens: Vec<Extent>,
    pub(crate) line: LineEnd,
    pub(crate) marks: Marks,
    /// How many spaces are to be in front of the next token, on a line of its own.
    pub(crate) broken: Option<usize>,
    /// Where the first token begins that was written since this was set to `None`.
    pub(crate) first: Option<Begin>,
}

/// Returns the bytes of a token that is moved as from the one byte to the other one.
fn moved(token: Extent, from: usize, to: usize) -> Result<Extent, AllocError>
    ensures { IfOk result (λ made. made ≡ sheets.moved from to token) }
{
    let begin = sum(token.begin.saturating_sub(from), to)?;
    let end = sum(token.end.saturating_sub(from), to)?;
    Ok(Extent { begin, end })
}

impl Sheet {
    /// Makes a sheet on which nothing is written.
    pub(crate) fn new(alloc: Global) -> Sheet
        ensures { IsInk result new_ink }
    {
        Sheet {
            out: String::new(alloc),
            tokens: Vec::new(alloc),
            line: LineEnd::new(),
            marks: Marks::new(),
            broken: None,
            first: None,
        }
    }

    /// Returns the gap in front of a token of which this is the plain gap.
    fn broken_gap(&self, plain: Gap) -> Gap
        ensures { gap_bytes result ≡ gap_by self.now.marks.last self.now.broken (gap_bytes plain) }
    {
        match self.marks.last {
            Some(_) => match self.broken {
                Some(spaces) => Gap { feed: true, spaces },
                None => plain,
            },
            None => Gap {
                feed: false,
                spaces: 0,
            },
        }
    }

    /// Returns the end of the line at a token of which this is the plain gap.
    pub(crate) fn line_at(&self, plain: Gap) -> Result<LineEnd, AllocError>
        ensures { IfOk result
            (PutsChars (gap_by self.now.marks.last self.now.broken (gap_bytes plain)) self.now.line) }
    {
        let mut line = self.line;
        line.put_gap(self.broken_gap(plain))?;
        Ok(line)
    }

    /// Writes a gap.
    fn write_gap(&mut self, gap: Gap) -> Result<(), AllocError>
        ensures bytes { OnOk result (string_bytes self.new.out ≡ string_bytes self.old.out ++ gap_bytes gap) }
        ensures line { OnOk result (PutsChars (gap_bytes gap) self.old.line self.new.line) }
        ensures kept { self.new ≡ record self.old { out = self.new.out; line = self.new.line } }
    {
        push_gap(&mut self.out, gap)?;
        self.line.put_gap(gap)?;
        Ok(())
    }

    /// Keeps where a token begins that follows this gap and begins with this character, if it is the first.
    fn begin(&mut self, gap: Gap, head: Option<char>)
        ensures { self.new ≡ begun gap head self.old }
    {
        match self.first {
            Some(_) => {}
            None => {
                self.first = Some(Begin {
                    byte: self.out.len(),
                    gap,
                    feeds: self.line.feeds,
                    columns: self.line.columns,
                    head,
                });
            }
        }
    }

    /// Puts a token of this text.
    pub(crate) fn put_token(&mut self, text: &str) -> Result<(), AllocError>
        ensures { OnOk result (Inks (λ k. ink_token k text.now) self.old self.new) }
    {
        let head = first_char(text);
        let plain = self.marks.gap(head)?;
        let gap = self.broken_gap(plain);
        self.write_gap(gap)?;
        self.begin(gap, head);
        let begin = self.out.len();
        self.out.push_str(text)?;
        self.tokens.push(Extent {
            begin,
            end: self.out.len(),
        })?;
        self.line.put_str(text)?;
        self.marks.end(last_char(text));
        self.broken = None;
        Ok(())
    }

    /// Lists tokens that are listed elsewhere, moved as from the byte to the end of the text.
    fn list_moved(&mut self, tokens: &[Extent], from: usize) -> Result<(), AllocError>
        ensures tokens { OnOk result (self.new.tokens.items
            ≡ self.old.tokens.items ++ map (sheets.moved from (length (string_bytes self.old.out))) tokens.now) }
        ensures kept { self.new ≡ record self.old { tokens = self.new.tokens } }
    {
        let to = self.out.len();
        for token in tokens {
            let token = moved(*token, from, to)?;
            self.tokens.push(token)?;
        }
        Ok(())
    }

    /// Writes the tokens of a node that are written elsewhere in one line.
    pub(crate) fn copy(&mut self, own: Own<'_>) -> Result<(), AllocError>
        ensures { OnOk result ((c : Copy) → IsOwn own.entry c
            → Inks (λ k. ink_copy (gap_bytes own.entry.lead) c k) self.old self.new) }
    {
        let gap = self.broken_gap(own.lead);
        self.write_gap(gap)?;
        self.list_moved(own.tokens, own.start)?;
        self.out.push_str(own.text)?;
        self.line.put_flat(own.width)?;
        self.marks = own.after;
        self.broken = None;
        Ok(())
    }

    /// Returns the end of what is written.
    pub(crate) fn stop(&self) -> Stop
        ensures { (k : Ink) → IsInk self.now k → IsStop result k.page }
    {
        Stop {
            bytes: self.out.len(),
            tokens: self.tokens.len(),
            line: self.line,
            marks: self.marks,
        }
    }

    /// Puts a mark. Any other item is passed over.
    pub(crate) fn put_mark(&mut self, item: &Item) -> Result<(), AllocError>
        ensures { OnOk result (Inks (λ k. ink_mark k item.now) self.old self.new) }
    {
        self.marks.put(item)?;
        Ok(())
    }

    /// Puts a placeholder of the phylum of this name.
    pub(crate) fn put_hole(&mut self, alloc: Global, phylum: &str) -> Result<(), AllocError>
        ensures { OnOk result (Inks (λ k. ink_token k (63 ∷ phylum.now)) self.old self.new) }
    {
        let mut text = String::new(alloc);
        text.push('?')?;
        text.push_str(phylum)?;
        self.put_token(text.as_str())?;
        Ok(())
    }

    /// Puts a number in decimal.
    pub(crate) fn put_number(&mut self, value: u128) -> Result<(), AllocError>
        ensures { OnOk result (Inks (λ k. ink_token k (decimal value)) self.old self.new) }
    {
        let mut buffer = Buffer::new();
        self.put_token(buffer.format(value))?;
        Ok(())
    }

    /// Puts a text in quotes.
    pub(crate) fn put_text(&mut self, alloc: Global, contents: &str) -> Result<(), AllocError>
        ensures { OnOk result (Inks (λ k. ink_token k (text.quoted contents.now)) self.old self.new) }
    {
        let mut text = String::new(alloc);
        write_quoted(&mut text, contents)?;
        self.put_token(text.as_str())?;
        Ok(())
    }

    /// Asks for a break in front of the next token, where the mode has one.
    pub(crate) fn ask(&mut self, mode: Option<usize>)
        ensures { Inks (ink_ask mode) self.old self.new }
    {
        self.broken = mode.or(self.broken);
    }
}

/// Puts a gap at the end.
fn push_gap(out: &mut String, gap: Gap) -> Result<(), AllocError>
    ensures { OnOk result (string_bytes out.new ≡ string_bytes out.old ++ gap_bytes gap) }
{
    if gap.feed {
        out.push_str("\n")?;
        push_spaces(out, gap.spaces)?;
        return Ok(());
    }
    push_spaces(out, gap.spaces)?;
    Ok(())
}

/// Puts spaces at the end.
fn push_spaces(out: &mut String, spaces: usize) -> Result<(), AllocError>
    ensures { OnOk result (string_bytes out.new ≡ string_bytes out.old ++ replicate spaces 32) }
{
    for _space in 0..spaces {
        out.push_str(" ")?;
    }
    Ok(())
}

/// Returns the first character of the text, if there is one.
fn first_char(text: &str) -> Option<char>
    ensures { result ≡ slice_get (chars text.now) 0 }
{
    match text.chars().next() {
        Some(first) => Some(first),
        None => None,
    }
}

/// Returns the last character of the text, or the character of number 0 where the text is empty.
fn last_char(text: &str) -> char
    ensures { result ≡ last_char 0 (chars text.now) }
{
    match split_last(text) {
        Some((_, last)) => last,
        None => '\0',
    }
}

/// Returns the text in front of the last character, and that character.
fn split_last(text: &str) -> Option<(&str, char)>
    ensures none { IfNone result (chars text.now ≡ []) }
    ensures last { IfSome result (λ parts. chars text.now ≡ chars parts.0.now ++ parts.1 ∷ []) }
{
    let mut characters = text.chars();
    match characters.next_back() {
        Some(last) => Some((characters.as_str(), last)),
        None => None,
    }
}
