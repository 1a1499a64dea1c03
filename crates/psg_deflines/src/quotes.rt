//! Quoted texts in lines.
ghost use Rattle.std.specs.Prelude.{◌≡◌, ◌≢◌, false, ◌<◌, ◌+◌, ◌^◌, length, IfOk, MatchOption, OnOk};
ghost use Rattle.psg_lexis.specs.declared.token.LexFault.{LexFault};
ghost use Rattle.psg_deflines.specs.Quotes.{closing, IsTextAlone, HasNoTextAlone, IsQuoteOf, HasNoQuote};
ghost use Rattle.psg_deflines.specs.Only.{IsOnly};

use psg_lexis::{LexFault, Lexis, Spanned, Token, lex};
use psg_terms::Txt;
use std::alloc::{AllocError, Global};

/// Returns the index of the quote that closes a text, where the opening one is just before these bytes.
pub fn closing(text: &[u8]) -> Option<usize>
    ensures { result ≡ closing false text.now }
{
    let mut escaped = false;
    for (i, c) in text.iter().enumerate() {
        if !escaped & (*c == b'"') {
            return Some(i);
        }
        escaped = !escaped & (*c == b'\\');
    }
    None
}

/// Returns the contents of the only token, if it is a quoted text and takes all the bytes, `len` of them.
fn text_alone(tokens: &[Spanned], len: usize) -> Option<&Txt>
    ensures { MatchOption result (HasNoTextAlone tokens.now len) (λ t. IsTextAlone tokens.now len t.now) }
{
    match tokens {
        [found] if found.start == 0 && found.end == len => match &found.token {
            Token::Text(contents) => Some(contents),
            _ => None,
        },
        _ => None,
    }
}

/// Returns nothing, unless memory ran out.
fn no_text(fault: LexFault) -> Result<(), AllocError>
    ensures { OnOk result (fault ≢ LexFault.Memory) }
{
    match fault {
        LexFault::Memory => Err(AllocError),
        LexFault::BadChar(_) | LexFault::BadRun(_) | LexFault::Unended(_) | LexFault::TooLarge(_) =>
            Ok(()),
    }
}

/// Returns the contents of a quoted text on the whole part, with its escapes resolved, if the part is one.
pub fn quoted_text(alloc: Global, part: &[u8]) -> Result<Option<Txt>, AllocError>
    ensures { IfOk result (λ o. MatchOption o (HasNoQuote part.now) (IsOnly (IsQuoteOf part.now))) }
{
    let Ok(text) = str::from_utf8(part) else {
        return Ok(None);
    };
    let words = Vec::new(alloc);
    let lexis = Lexis::new(alloc, words.as_slice())?;
    match lex(alloc, &lexis, text) {
        Ok(tokens) => match text_alone(tokens.as_slice(), part.len()) {
            Some(contents) => Ok(Some(Txt::copy_of(alloc, contents.as_str())?)),
            None => Ok(None),
        },
        Err(fault) => {
            no_text(fault)?;
            Ok(None)
        }
    }
}
