//! The classes of characters that tokens are made of.
ghost use Rattle.std.specs.Prelude.{◌≡◌, ◌↔◌, ◌<◌, IsTrue};
ghost use Rattle.psg_lexis.specs.Classes.{is_blank, is_digit, is_solo, is_symbol, is_escape, Glue};

use psg_terms::goes_on_word;

/// The runs that reach as far as their characters do.
#[derive(Clone, Copy)]
pub(crate) enum Run {
    Word,
    Digits,
    Symbols,
}

impl Run {
    ghost use Rattle.psg_lexis.specs.Splits.{takes};

    /// Says whether the run goes on with the character.
    pub(crate) fn takes(self, c: char) -> bool
        ensures { result ≡ takes self c }
    {
        match self {
            Run::Word => goes_on_word(c),
            Run::Digits => is_digit(c),
            Run::Symbols => is_symbol(c),
        }
    }
}

/// Says whether the characters, written beside each other, would run together into one token: both are word characters,
/// or both are symbol characters. A word character goes on a word, so a digit is one too.
pub fn glues(a: char, b: char) -> bool
    ensures glue { IsTrue result ↔ Glue a b }
{
    (goes_on_word(a) && goes_on_word(b)) || (is_symbol(a) && is_symbol(b))
}

pub(crate) fn is_blank(c: char) -> bool
    ensures { result ≡ is_blank c }
{
    matches!(c, ' ' | '\t' | '\n' | '\r')
}

pub(crate) fn is_digit(c: char) -> bool
    ensures { result ≡ is_digit c }
{
    matches!(c, '0'..='9')
}

pub(crate) fn is_solo(c: char) -> bool
    ensures value { result ≡ is_solo c }
    ensures ascii { IsTrue result → c < 128 }
{
    matches!(c, '(' | ')' | '[' | ']' | '{' | '}' | ',' | ';')
}

/// Says whether the character is a symbol, of which runs are tokens.
pub fn is_symbol(c: char) -> bool
    ensures { result ≡ is_symbol c }
{
    matches!(
        c,
        '+' | '-'
            | '*'
            | '/'
            | '%'
            | '<'
            | '>'
            | '='
            | '!'
            | '&'
            | '|'
            | '^'
            | '~'
            | ':'
            | '.'
            | '@'
            | '#'
            | '$'
    )
}
