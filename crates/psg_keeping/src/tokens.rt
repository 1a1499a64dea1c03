//! The tokens of texts.
ghost use Rattle.std.specs.Prelude.{◌≡◌, ◌++◌, IfNone, IfOk, IfSome, List, OnOk, chars};
ghost use Rattle.psg_commented.specs.Noting.{is_counted as is_counted_of};
ghost use Rattle.psg_keeping.specs.Writing.{AreTokens, counted_of, counted_one};
ghost use Rattle.psg_lexis.specs.Tokens.{HasTokens};
ghost use Rattle.psg_lexis.specs.declared.token.Spanned.{Spanned as Place};

use psg_lexis::{LexFault, Lexis, Spanned, Token, lex};
use std::alloc::{AllocError, Global};

/// Returns the tokens of the text, or none where it has a fault.
pub(crate) fn tokens_in(
    alloc: Global,
    lexis: &Lexis,
    text: &str,
) -> Result<Option<Vec<Spanned>>, AllocError>
    ensures some { IfOk result (λ found. IfSome found (λ ts. HasTokens lexis.now (chars text.now) 0 ts.items)) }
    ensures only { IfOk result (λ found. IfSome found (λ ts. (other : List Place)
        → HasTokens lexis.now (chars text.now) 0 other → ts.items ≡ other)) }
    ensures none { IfOk result (λ found. IfNone found ((other : List Place)
        → HasTokens lexis.now (chars text.now) 0 other → ⊥)) }
{
    match lex(alloc, lexis, text) {
        Ok(tokens) => Ok(Some(tokens)),
        Err(LexFault::Memory) => Err(AllocError),
        Err(_) => Ok(None),
    }
}

/// Returns the tokens of the bytes, or an empty list where they have none.
pub(crate) fn tokens_or_none(
    alloc: Global,
    lexis: &Lexis,
    bytes: &[u8],
) -> Result<Vec<Spanned>, AllocError>
    ensures { IfOk result (λ ts. AreTokens lexis.now bytes.now ts.items) }
{
    let Ok(text) = str::from_utf8(bytes) else {
        return Ok(Vec::new(alloc));
    };
    let found = tokens_in(alloc, lexis, text)?;
    match found {
        Some(tokens) => Ok(tokens),
        None => Ok(Vec::new(alloc)),
    }
}

/// Says whether the token is counted: it is no round bracket.
pub(crate) fn is_counted(token: &Token) -> bool
    ensures { result ≡ is_counted_of token.now }
{
    match token {
        Token::Solo(byte) => *byte != b'(' && *byte != b')',
        _ => true,
    }
}

/// Returns one more owner of the token.
fn share(token: &Token) -> Result<Token, AllocError>
    ensures { IfOk result (λ t. t ≡ token.now) }
{
    match token {
        Token::Word(text) => Ok(Token::Word(text.share()?)),
        Token::Number(value) => Ok(Token::Number(*value)),
        Token::Text(text) => Ok(Token::Text(text.share()?)),
        Token::Solo(byte) => Ok(Token::Solo(*byte)),
        Token::Symbol(text) => Ok(Token::Symbol(text.share()?)),
        Token::Hole(text) => Ok(Token::Hole(text.share()?)),
        Token::More => Ok(Token::More),
    }
}

/// Puts the token at the end if it is counted.
fn push_counted(counted: &mut Vec<Token>, token: &Spanned) -> Result<(), AllocError>
    ensures { OnOk result (counted.new.items ≡ counted.old.items ++ counted_one token.now) }
{
    if is_counted(&token.token) {
        counted.push(share(&token.token)?)?;
    }
    Ok(())
}

/// Returns those of the tokens that are counted, in order.
pub(crate) fn counted_in(alloc: Global, tokens: &[Spanned]) -> Result<Vec<Token>, AllocError>
    ensures { IfOk result (λ ts. ts.items ≡ counted_of tokens.now) }
{
    let mut counted = Vec::new(alloc);
    for token in tokens {
        push_counted(&mut counted, token)?;
    }
    Ok(counted)
}
