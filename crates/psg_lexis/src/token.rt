//! Tokens, and what keeps a text from having them.
ghost use Rattle.std.specs.Prelude.{◌≡◌};
ghost use Rattle.psg_lexis.specs.declared.token.LexFault.TheVariants.{Memory};

use psg_terms::Txt;
use std::alloc::{AllocError, AllocFailed};
use thiserror::Error;

/// A token of a text.
#[derive(Drop)]
pub enum Token {
    /// A start character or `_`, and the characters that go on a word after it.
    Word(Txt),
    /// A run of decimal digits, by its value.
    Number(u128),
    /// What a quoted text says, with its escapes resolved.
    Text(Txt),
    /// One of `( ) [ ] { } , ;`, by its byte.
    Solo(u8),
    /// A run of symbol characters that is a fixed word.
    Symbol(Txt),
    /// The word directly after a `?`.
    Hole(Txt),
    /// The run `...`.
    More,
}

/// A token and the bytes of the text that it takes, from `start` up to `end`.
#[derive(Drop)]
pub struct Spanned {
    /// The token.
    pub token: Token,
    /// The byte offset of its first byte.
    pub start: usize,
    /// The byte offset after its last byte.
    pub end: usize,
}

/// The first place of a text, as a byte offset, at which it has no token.
#[derive(Clone, Copy, Debug, PartialEq, Eq, Drop, Error)]
pub enum LexFault {
    /// A character that begins no token, a `?` with no word after it, or a character without a width inside a quoted
    /// text.
    #[error("no token begins with the character at byte {0}")]
    BadChar(usize),
    /// A run of symbols that is no fixed word, a number with a word character directly after it, or a backslash inside
    /// a quoted text that begins no escape.
    #[error("the characters from byte {0} on are no token")]
    BadRun(usize),
    /// A quoted text that is not closed on its line, by its opening quote.
    #[error("the text that is opened at byte {0} is not closed on its line")]
    Unended(usize),
    /// A word above 255 bytes, a number of 2^128 or more, or a quoted text above 4,096 bytes of contents, by its first
    /// byte. The word of a hole is after its `?`.
    #[error("the token at byte {0} is too large")]
    TooLarge(usize),
    /// There was no memory for the tokens.
    #[error("out of memory")]
    Memory,
}

impl From<AllocError> for LexFault {
    ghost from_gives = { λ _ fault. fault ≡ Memory };

    fn from(_error: AllocError) -> LexFault {
        LexFault::Memory
    }
}

impl<T: Drop> From<AllocFailed<T>> for LexFault {
    ghost from_gives = { λ _ fault. fault ≡ Memory };

    fn from(_error: AllocFailed<T>) -> LexFault {
        LexFault::Memory
    }
}
