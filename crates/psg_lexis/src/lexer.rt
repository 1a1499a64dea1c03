//! The walk over a text that finds its tokens.
ghost use Rattle.std.specs.Prelude.{◌≡◌, ◌+◌, ◌^◌, ◌<◌, ◌∷◌, ℕ, List, IfErr, IfOk, IsTrue, MatchResult, SomeIff, chars};
ghost use Rattle.std.specs.Prelude.{length, not};
ghost use Rattle.psg_terms.specs.Words.{starts_word};
ghost use Rattle.psg_lexis.specs.Classes.{is_blank, is_digit, is_symbol, All, BeginsBy};
ghost use Rattle.psg_lexis.specs.Splits.{IsFirst};
ghost use Rattle.psg_lexis.specs.Tokens.{value_of, Begins, HasTokens};
ghost use Rattle.psg_lexis.specs.declared.token.Spanned.{Spanned};
ghost use Rattle.psg_lexis.specs.declared.token.LexFault.{LexFault};
ghost use Rattle.psg_lexis.specs.Faults.{IsFault, HasFault, OrMemory};

use crate::classes::{Run, is_blank, is_digit, is_solo, is_symbol};
use crate::lexis::Lexis;
use crate::literal::literal;
use crate::splits::{split_first, split_run, word_begins, word_goes_on};
use crate::token::{LexFault, Spanned, Token};
use psg_terms::{Txt, starts_word};
use std::alloc::Global;

/// The most bytes of a word.
const MOST_WORD: usize = 255;

/// Returns the tokens of the text, each with the bytes that it takes, or the first fault from the left. The fixed words
/// of the lexis are the runs of symbols that are tokens. It takes one step for each byte.
pub fn lex(alloc: Global, lexis: &Lexis, text: &str) -> Result<Vec<Spanned>, LexFault>
    ensures ok { IfOk result (λ tokens. HasTokens lexis.now (chars text.now) 0 tokens.items) }
    ensures err { IfErr result (OrMemory (HasFault lexis.now (chars text.now) 0)) }

    // No text has two lists of tokens, two faults, or both, so no other answer is possible, except out of memory.
    ensures whole { (tokens : List Spanned) → HasTokens lexis.now (chars text.now) 0 tokens
        → MatchResult result (λ found. found.items ≡ tokens) (λ fault. fault ≡ LexFault.Memory) }
    ensures broken { (fault : LexFault) → HasFault lexis.now (chars text.now) 0 fault
        → MatchResult result (λ _. ⊥) (OrMemory (λ found. found ≡ fault)) }
{
    let mut tokens = Vec::new(alloc);
    let mut rest = text;
    while let Some((first, after)) = split_first(rest) {
        if is_blank(first) {
            rest = after;
        } else {
            let at = text.len() - rest.len();
            let token = first_token(alloc, lexis, rest, at)?;
            rest = rest.split_at(token.end - at).1;
            tokens.push(token)?;
        }
    }
    Ok(tokens)
}

/// Returns the token at the beginning of the text, which is at the byte `at` and begins with no blank.
fn first_token(alloc: Global, lexis: &Lexis, text: &str, at: usize) -> Result<Spanned, LexFault>
    requires room { at + length text.now < 2 ^ 64 }
    requires begins { BeginsBy (λ c. not (is_blank c)) (chars text.now) }
    ensures ok { IfOk result (Begins lexis.now (chars text.now) at) }
    ensures err { IfErr result (OrMemory (IsFault lexis.now (chars text.now) at)) }
{
    let Some((first, after)) = split_first(text) else {
        unreachable!()
    };
    if starts_word(first) {
        word(alloc, text, at)
    } else if is_digit(first) {
        number(text, at)
    } else if is_symbol(first) {
        symbol(alloc, lexis, text, at)
    } else if is_solo(first) {
        Ok(Spanned {
            token: Token::Solo(first as u8),
            start: at,
            end: at + 1,
        })
    } else if first == '"' {
        literal(alloc, after, at)
    } else if first == '?' {
        hole(alloc, after, at)
    } else {
        Err(LexFault::BadChar(at))
    }
}

/// Returns the word at the beginning of the text, which begins with the start of one.
fn word(alloc: Global, text: &str, at: usize) -> Result<Spanned, LexFault>
    requires room { at + length text.now < 2 ^ 64 }
    requires begins { BeginsBy starts_word (chars text.now) }
    ensures ok { IfOk result (λ s. (fixed : List (List ℕ)) → Begins fixed (chars text.now) at s) }
    ensures err { IfErr result (OrMemory (λ f. (fixed : List (List ℕ)) → IsFault fixed (chars text.now) at f)) }
{
    let (word, _) = split_run(text, Run::Word);
    if word.len() > MOST_WORD {
        return Err(LexFault::TooLarge(at));
    }
    Ok(Spanned {
        token: Token::Word(Txt::copy_of(alloc, word)?),
        start: at,
        end: at + word.len(),
    })
}

/// Returns the hole whose `?` is directly before the text, at the byte `at`.
fn hole(alloc: Global, text: &str, at: usize) -> Result<Spanned, LexFault>
    requires room { at + 1 + length text.now < 2 ^ 64 }
    ensures ok { IfOk result (λ s. (fixed : List (List ℕ)) → Begins fixed (63 ∷ chars text.now) at s) }
    ensures err { IfErr result (OrMemory (λ f. (fixed : List (List ℕ)) → IsFault fixed (63 ∷ chars text.now) at f)) }
{
    if !word_begins(text) {
        return Err(LexFault::BadChar(at));
    }
    let (word, _) = split_run(text, Run::Word);
    if word.len() > MOST_WORD {
        return Err(LexFault::TooLarge(at + 1));
    }
    Ok(Spanned {
        token: Token::Hole(Txt::copy_of(alloc, word)?),
        start: at,
        end: at + 1 + word.len(),
    })
}

/// Returns the number at the beginning of the text, which begins with a digit.
fn number(text: &str, at: usize) -> Result<Spanned, LexFault>
    requires room { at + length text.now < 2 ^ 64 }
    requires begins { BeginsBy is_digit (chars text.now) }
    ensures ok { IfOk result (λ s. (fixed : List (List ℕ)) → Begins fixed (chars text.now) at s) }
    ensures err { IfErr result (λ f. (fixed : List (List ℕ)) → IsFault fixed (chars text.now) at f) }
{
    let (digits, rest) = split_run(text, Run::Digits);
    if word_goes_on(rest) {
        return Err(LexFault::BadRun(at));
    }
    match decimal(digits) {
        Some(value) => Ok(Spanned {
            token: Token::Number(value),
            start: at,
            end: at + digits.len(),
        }),
        None => Err(LexFault::TooLarge(at)),
    }
}

/// Returns the number that the digits write, if it is below 2^128.
fn decimal(digits: &str) -> Option<u128>
    requires { All is_digit (chars digits.now) }
    ensures { SomeIff result (value_of (chars digits.now) < 2 ^ 128) (value_of (chars digits.now)) }
{
    let mut value = 0u128;
    let mut rest = digits;
    while let Some((digit, after)) = split_first(rest) {
        let tens = value.checked_mul(10)?;
        value = tens.checked_add(u128::from(digit as u32 - 48))?;
        rest = after;
    }
    Some(value)
}

/// Returns the run of symbols at the beginning of the text, which begins with a symbol character.
fn symbol(alloc: Global, lexis: &Lexis, text: &str, at: usize) -> Result<Spanned, LexFault>
    requires room { at + length text.now < 2 ^ 64 }
    requires begins { BeginsBy is_symbol (chars text.now) }
    ensures ok { IfOk result (Begins lexis.now (chars text.now) at) }
    ensures err { IfErr result (OrMemory (IsFault lexis.now (chars text.now) at)) }
{
    let (run, _) = split_run(text, Run::Symbols);
    let token = if run == "..." {
        Token::More
    } else if lexis.has(run) {
        Token::Symbol(Txt::copy_of(alloc, run)?)
    } else {
        return Err(LexFault::BadRun(at));
    };
    Ok(Spanned {
        token,
        start: at,
        end: at + run.len(),
    })
}
