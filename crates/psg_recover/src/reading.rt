//! Lists of tokens in which one token takes the place of some.
ghost use Rattle.std.specs.Prelude.{◌≡◌, ◌++◌, ◌∷◌, [], ◌≤◌, IfOk, OnOk, length, map};
ghost use Rattle.psg_program.specs.Messages.{end_of_last};
ghost use Rattle.psg_known.specs.Knowns.{IsKnown};
ghost use Rattle.psg_recover.specs.Reads as reads;

use psg_known::known::{Known, declares};
use psg_lexis::{Spanned, Token};
use psg_terms::Txt;
use std::alloc::{AllocError, Global};

/// Returns the same token, which shares the text.
fn shared(token: &Token) -> Result<Token, AllocError>
    ensures { IfOk result (λ same. same ≡ token.now) }
{
    match token {
        Token::Word(text) => {
            let own = text.share()?;
            Ok(Token::Word(own))
        }
        Token::Number(value) => Ok(Token::Number(*value)),
        Token::Text(text) => {
            let own = text.share()?;
            Ok(Token::Text(own))
        }
        Token::Solo(byte) => Ok(Token::Solo(*byte)),
        Token::Symbol(text) => {
            let own = text.share()?;
            Ok(Token::Symbol(own))
        }
        Token::Hole(name) => {
            let own = name.share()?;
            Ok(Token::Hole(own))
        }
        Token::More => Ok(Token::More),
    }
}

/// Returns the same token at the same bytes.
fn copy_of(token: &Spanned) -> Result<Spanned, AllocError>
    ensures { IfOk result (λ same. same ≡ token.now) }
{
    let own = shared(&token.token)?;
    Ok(Spanned {
        token: own,
        start: token.start,
        end: token.end,
    })
}

/// Adds the token to the row.
pub fn push_one(row: &mut Vec<Spanned>, token: &Spanned) -> Result<(), AllocError>
    ensures { OnOk result (row.new.items ≡ row.old.items ++ token.now ∷ []) }
{
    let own = copy_of(token)?;
    row.push(own)?;
    Ok(())
}

/// Adds the tokens to the row.
pub fn push_all(row: &mut Vec<Spanned>, tokens: &[Spanned]) -> Result<(), AllocError>
    ensures { OnOk result (row.new.items ≡ row.old.items ++ tokens.now) }
{
    for token in tokens {
        push_one(row, token)?;
    }
    Ok(())
}

/// Returns the end of the last of the tokens, or 0 where there is none.
fn end_of(tokens: &[Spanned]) -> usize
    ensures { result ≡ end_of_last 0 tokens.now }
{
    let mut end = 0;
    for token in tokens {
        end = token.end;
    }
    end
}

/// Returns where the token of the number begins, or where the last one ends.
fn start_at(tokens: &[Spanned], number: usize) -> usize
    ensures { result ≡ reads.start_at tokens.now number }
{
    match tokens.get(number) {
        Some(token) => token.start,
        None => end_of(tokens),
    }
}

/// Returns where a token begins that takes the place of those from `from` up to `to`.
fn begin_between(tokens: &[Spanned], from: usize, to: usize) -> usize
    ensures { result ≡ reads.resumed_byte tokens.now from to }
{
    if from < to {
        start_at(tokens, from)
    } else {
        start_at(tokens, to)
    }
}

/// Returns where it ends.
fn end_between(tokens: &[Spanned], from: usize, to: usize) -> usize
    requires { to ≤ length tokens.now }
    ensures { result ≡ reads.resumed_end tokens.now from to }
{
    if from < to {
        end_of(&tokens[..to])
    } else {
        start_at(tokens, to)
    }
}

/// Returns the placeholder with this name that takes the place of the tokens from `from` up to `to`.
pub fn stand_in(
    tokens: &[Spanned],
    from: usize,
    to: usize,
    name: &Txt,
) -> Result<Spanned, AllocError>
    requires { to ≤ length tokens.now }
    ensures { IfOk result (λ made. made ≡ reads.stand_in tokens.now from to name.now) }
{
    let own = name.share()?;
    Ok(Spanned {
        token: Token::Hole(own),
        start: begin_between(tokens, from, to),
        end: end_between(tokens, from, to),
    })
}

/// Says whether the name is that of a phylum that declares.
pub fn is_declaring(known: Known, name: &Txt) -> bool
    requires known { IsKnown known }
    ensures { result ≡ reads.is_declaring_name known.entry.definition.now 0 known.entry.definition.now.phyla name.now }
{
    let phyla = known.definition.phyla.as_slice();
    for place in 0..phyla.len() {
        if phyla[place].name.same(name) {
            return declares(known, place as u32);
        }
    }
    false
}

/// Returns the token as it is read: a placeholder of a phylum that declares is that of none.
fn own_token(alloc: Global, known: Known, token: &Token) -> Result<Token, AllocError>
    requires known { IsKnown known }
    ensures { IfOk result (λ made. made ≡ reads.own_token known.entry.definition.now token.now) }
{
    if let Token::Hole(name) = token {
        if is_declaring(known, name) {
            let none = Txt::copy_of(alloc, "")?;
            return Ok(Token::Hole(none));
        }
    }
    let same = shared(token)?;
    Ok(same)
}

/// Returns the tokens as they are read, at the same bytes: a placeholder of a phylum that declares is that of none.
pub fn own_tokens(
    alloc: Global,
    known: Known,
    tokens: &[Spanned],
) -> Result<Vec<Spanned>, AllocError>
    requires known { IsKnown known }
    ensures { IfOk result (λ row. row.items ≡ map (reads.own_spanned known.entry.definition.now) tokens.now) }
{
    let mut row = Vec::with_capacity(alloc, tokens.len())?;
    for token in tokens {
        let own = own_token(alloc, known, &token.token)?;
        row.push(Spanned {
            token: own,
            start: token.start,
            end: token.end,
        })?;
    }
    Ok(row)
}
