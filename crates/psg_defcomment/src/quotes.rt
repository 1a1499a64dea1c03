//! The line that names the token of comments.
ghost use Rattle.std.specs.Prelude.{◌≡◌, ◌≢◌, IfOk, MatchOption, None, OnOk, Some};
ghost use Rattle.psg_lexis.specs.declared.token.LexFault.{LexFault};
ghost use Rattle.psg_deflines.specs.Quotes.{HasNoTextAlone, IsTextAlone};
ghost use Rattle.psg_defcomment.specs.Naming.{past_spaces as past_spaces_of, quoted_in, token_of as token_of_line};

use psg_lexis::{LexFault, Lexis, Spanned, Token, lex};
use psg_terms::Txt;
use std::alloc::{AllocError, Global};

/// Returns the contents of the only token, if it is a quoted text and takes all the bytes, `len` of them.
fn text_alone(tokens: &[Spanned], len: usize) -> Option<&Txt>
    ensures { MatchOption result (HasNoTextAlone tokens.now len) (λ t. IsTextAlone tokens.now len t.now) }
{
    match tokens {
        [found] if found.start == 0 && found.end == len => match &found.token {
            Token::Text(contents) => Some(contents),
            _ => None,
        },
        _ => None,
    }
}

/// Returns nothing, unless memory ran out.
fn no_text(fault: LexFault) -> Result<(), AllocError>
    ensures { OnOk result (fault ≢ LexFault.Memory) }
{
    match fault {
        LexFault::Memory => Err(AllocError),
        LexFault::BadChar(_) | LexFault::BadRun(_) | LexFault::Unended(_) | LexFault::TooLarge(_) =>
            Ok(()),
    }
}

/// Returns the contents of a quoted text on the whole part, with its escapes resolved, if the part is one.
fn quoted_text(alloc: Global, part: &[u8]) -> Result<Option<Txt>, AllocError>
    ensures { IfOk result (λ o. MatchOption o (quoted_in part.now ≡ None) (λ t. quoted_in part.now ≡ Some t)) }
{
    let Ok(text) = str::from_utf8(part) else {
        return Ok(None);
    };
    let words = Vec::new(alloc);
    let lexis = Lexis::new(alloc, words.as_slice())?;
    match lex(alloc, &lexis, text) {
        Ok(tokens) => match text_alone(tokens.as_slice(), part.len()) {
            Some(contents) => Ok(Some(Txt::copy_of(alloc, contents.as_str())?)),
            None => Ok(None),
        },
        Err(fault) => {
            no_text(fault)?;
            Ok(None)
        }
    }
}

/// Returns what follows the spaces at the beginning of the text.
pub(crate) fn past_spaces(text: &[u8]) -> &[u8]
    ensures { result.now ≡ past_spaces_of text.now }
{
    let mut rest = text;
    while let Some((first, after)) = rest.split_first() {
        if *first != b' ' {
            break;
        }
        rest = after;
    }
    rest
}

/// Returns the token that the line names, if it is a line that names one.
pub(crate) fn token_of(alloc: Global, line: &[u8]) -> Result<Option<Txt>, AllocError>
    ensures { IfOk result (λ o. MatchOption o (token_of_line line.now ≡ None) (λ t. token_of_line line.now ≡ Some t)) }
{
    let word = &[b'c', b'o', b'm', b'm', b'e', b'n', b't'];
    let Some(behind) = line.strip_prefix(word) else {
        return Ok(None);
    };
    quoted_text(alloc, past_spaces(behind))
}
