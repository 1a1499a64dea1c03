//! Quoted texts.
ghost use Rattle.std.specs.Prelude.{◌≡◌, ◌+◌, ◌^◌, ◌<◌, ◌∷◌, ℕ, List, false, if◌then◌else◌, IfErr, IfOk, chars, length};
ghost use Rattle.psg_lexis.specs.Pieces.{IsPiece};
ghost use Rattle.psg_lexis.specs.Splits.{IsFirst};
ghost use Rattle.psg_lexis.specs.Tokens.{Begins};
ghost use Rattle.psg_lexis.specs.Faults.{IsFault, OrMemory, is_closed};

use crate::splits::split_first;
use crate::token::{LexFault, Spanned, Token};
use psg_terms::Txt;
use std::alloc::Global;
use unicode_width::UnicodeWidthChar;

/// The most bytes of the contents of a quoted text.
pub(crate) const MOST_CONTENTS: usize = 4096;

/// What a quoted text has at a place inside it.
enum Piece<'a> {
    /// A character of the contents, and the text after it.
    Content(char, &'a str),
    /// The closing quote.
    Closing,
    /// The end of the line or of the text.
    LineEnd,
    /// A character without a width.
    NoWidth,
    /// A backslash that begins no escape.
    NoEscape,
}

/// Returns the quoted text whose opening quote is directly before this text, at the byte `at`.
pub(crate) fn literal(alloc: Global, text: &str, at: usize) -> Result<Spanned, LexFault>
    requires room { at + 1 + length text.now < 2 ^ 64 }
    ensures ok { IfOk result (λ s. (fixed : List (List ℕ)) → Begins fixed (34 ∷ chars text.now) at s) }
    ensures err { IfErr result (OrMemory (λ f. (fixed : List (List ℕ)) → IsFault fixed (34 ∷ chars text.now) at f)) }
{
    let mut contents = String::new(alloc);
    let mut size = 0usize;
    let mut rest = text;
    loop {
        let place = at + 1 + (text.len() - rest.len());
        match next_piece(rest) {
            Piece::Content(c, after) => {
                // What is too large is counted and not kept.
                if size <= MOST_CONTENTS {
                    contents.push(c)?;
                }
                size += c.len_utf8();
                rest = after;
            }
            Piece::Closing if size > MOST_CONTENTS => return Err(LexFault::TooLarge(at)),
            Piece::Closing => {
                return Ok(Spanned {
                    token: Token::Text(Txt::of(alloc, contents)?),
                    start: at,
                    end: place + 1,
                });
            }
            Piece::LineEnd => return Err(LexFault::Unended(at)),
            Piece::NoWidth => return Err(unless_open(rest, at, LexFault::BadChar(place))),
            Piece::NoEscape => return Err(unless_open(rest, at, LexFault::BadRun(place))),
        }
    }
}

/// Returns what the text begins with, where it is inside a quoted text.
fn next_piece(text: &str) -> Piece<'_>
    ensures { IsPiece text.now result }
{
    let Some((first, after)) = split_first(text) else {
        return Piece::LineEnd;
    };
    match first {
        '\n' => Piece::LineEnd,
        '"' => Piece::Closing,
        '\\' => escape(after),
        _ if first.width().is_none() => Piece::NoWidth,
        _ => Piece::Content(first, after),
    }
}

/// Returns the piece that begins with a backslash directly before this text.
fn escape(behind: &str) -> Piece<'_>
    ensures { (text : List ℕ) → IsFirst text 92 behind.now → IsPiece text result }
{
    match split_first(behind) {
        Some(('"', after)) => Piece::Content('"', after),
        Some(('\\', after)) => Piece::Content('\\', after),
        Some(('n', after)) => Piece::Content('\n', after),
        _ => Piece::NoEscape,
    }
}

/// Returns the fault at a place inside a quoted text that is opened at the byte `at`, or that the text is not closed on
/// its line.
fn unless_open(text: &str, at: usize, fault: LexFault) -> LexFault
    ensures { result ≡ (if is_closed false (chars text.now) then fault else LexFault.Unended at) }
{
    if is_closed(text) {
        fault
    } else {
        LexFault::Unended(at)
    }
}

/// Says whether a quoted text that goes on with this text is closed on its line.
fn is_closed(text: &str) -> bool
    ensures { result ≡ is_closed false (chars text.now) }
{
    let mut escaped = false;
    for c in text.chars() {
        if c == '\n' {
            return false;
        }
        if !escaped & (c == '"') {
            return true;
        }
        escaped = !escaped & (c == '\\');
    }
    false
}
