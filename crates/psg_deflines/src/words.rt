//! Fixed words of a language.
ghost use Rattle.std.specs.Prelude.{◌≡◌, ◌≢◌, false, IfOk, IsTrue, ◌↔◌};
ghost use Rattle.psg_lexis.specs.declared.token.LexFault.{LexFault};
ghost use Rattle.psg_deflines.specs.FixedTokens.{IsFixedToken, IsOneToken};
ghost use Rattle.psg_lexis.specs.Tokens.{IsFixedWord};

use psg_lexis::{LexFault, Lexis, Spanned, Token, lex};
use psg_terms::Txt;
use std::alloc::{AllocError, Global};

/// Says whether the token is of a kind that a fixed word may be.
fn is_fixed_token(token: &Token) -> bool
    ensures { IsTrue result ↔ IsFixedToken token.now }
{
    matches!(token, Token::Word(_) | Token::Solo(_) | Token::Symbol(_))
}

/// Says whether there is one token, which takes all the bytes, `len` of them, and is of a kind that a fixed word may
/// be.
fn is_one_token(tokens: &[Spanned], len: usize) -> bool
    ensures { IsTrue result ↔ IsOneToken tokens.now len }
{
    match tokens {
        [found] => found.start == 0 && found.end == len && is_fixed_token(&found.token),
        _ => false,
    }
}

/// Returns `false`, unless memory ran out.
fn unless_memory(fault: LexFault) -> Result<bool, AllocError>
    ensures { IfOk result (λ b. (b ≡ false) × (fault ≢ LexFault.Memory)) }
{
    match fault {
        LexFault::Memory => Err(AllocError),
        LexFault::BadChar(_) | LexFault::BadRun(_) | LexFault::Unended(_) | LexFault::TooLarge(_) =>
            Ok(false),
    }
}

/// Says whether the word is one token of a fragment's text: a word, a character that is a token by itself, or a run of
/// symbols.
pub fn is_fixed_word(alloc: Global, word: &Txt) -> Result<bool, AllocError>
    ensures { IfOk result (λ b. IsTrue b ↔ IsFixedWord word.now) }
{
    let words = vec![in alloc; word.share()?]?;
    let lexis = Lexis::new(alloc, words.as_slice())?;
    let text = word.as_str();
    match lex(alloc, &lexis, text) {
        Ok(tokens) => Ok(is_one_token(tokens.as_slice(), text.len())),
        Err(fault) => unless_memory(fault),
    }
}
