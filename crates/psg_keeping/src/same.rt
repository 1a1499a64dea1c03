//! Whether tokens and comments are the same.
ghost use Rattle.std.specs.Prelude.{◌≡◌, ◌↔◌, IsTrue, map};
ghost use Rattle.psg_lexis.specs.declared.token.Token.TheVariants as tokens;
ghost use Rattle.psg_commented.specs.Keeping.{AreKept, place_of, token_of, words_of};

use psg_commented::Note;
use psg_lexis::{Spanned, Token};
use psg_terms::Txt;

fn is_word(text: &Txt, other: &Token) -> bool
    ensures { IsTrue result ↔ (tokens.Word text.now ≡ other.now) }
{
    match other {
        Token::Word(own) => text.same(own),
        Token::Number(_) => false,
        Token::Text(_) => false,
        Token::Solo(_) => false,
        Token::Symbol(_) => false,
        Token::Hole(_) => false,
        Token::More => false,
    }
}

fn is_number(value: u128, other: &Token) -> bool
    ensures { IsTrue result ↔ (tokens.Number value ≡ other.now) }
{
    match other {
        Token::Word(_) => false,
        Token::Number(own) => value == *own,
        Token::Text(_) => false,
        Token::Solo(_) => false,
        Token::Symbol(_) => false,
        Token::Hole(_) => false,
        Token::More => false,
    }
}

fn is_text(text: &Txt, other: &Token) -> bool
    ensures { IsTrue result ↔ (tokens.Text text.now ≡ other.now) }
{
    match other {
        Token::Word(_) => false,
        Token::Number(_) => false,
        Token::Text(own) => text.same(own),
        Token::Solo(_) => false,
        Token::Symbol(_) => false,
        Token::Hole(_) => false,
        Token::More => false,
    }
}

fn is_solo(byte: u8, other: &Token) -> bool
    ensures { IsTrue result ↔ (tokens.Solo byte ≡ other.now) }
{
    match other {
        Token::Word(_) => false,
        Token::Number(_) => false,
        Token::Text(_) => false,
        Token::Solo(own) => byte == *own,
        Token::Symbol(_) => false,
        Token::Hole(_) => false,
        Token::More => false,
    }
}

fn is_symbol(text: &Txt, other: &Token) -> bool
    ensures { IsTrue result ↔ (tokens.Symbol text.now ≡ other.now) }
{
    match other {
        Token::Word(_) => false,
        Token::Number(_) => false,
        Token::Text(_) => false,
        Token::Solo(_) => false,
        Token::Symbol(own) => text.same(own),
        Token::Hole(_) => false,
        Token::More => false,
    }
}

fn is_hole(text: &Txt, other: &Token) -> bool
    ensures { IsTrue result ↔ (tokens.Hole text.now ≡ other.now) }
{
    match other {
        Token::Word(_) => false,
        Token::Number(_) => false,
        Token::Text(_) => false,
        Token::Solo(_) => false,
        Token::Symbol(_) => false,
        Token::Hole(own) => text.same(own),
        Token::More => false,
    }
}

fn is_more(other: &Token) -> bool
    ensures { IsTrue result ↔ (tokens.More ≡ other.now) }
{
    match other {
        Token::Word(_) => false,
        Token::Number(_) => false,
        Token::Text(_) => false,
        Token::Solo(_) => false,
        Token::Symbol(_) => false,
        Token::Hole(_) => false,
        Token::More => true,
    }
}

/// Says whether both are the same token.
pub(crate) fn is_same(one: &Token, other: &Token) -> bool
    ensures { IsTrue result ↔ (one.now ≡ other.now) }
{
    match one {
        Token::Word(text) => is_word(text, other),
        Token::Number(value) => is_number(*value, other),
        Token::Text(text) => is_text(text, other),
        Token::Solo(byte) => is_solo(*byte, other),
        Token::Symbol(text) => is_symbol(text, other),
        Token::Hole(text) => is_hole(text, other),
        Token::More => is_more(other),
    }
}

/// Says whether both are the same tokens, in the same order.
pub(crate) fn are_same(own: &[Spanned], shown: &[Spanned]) -> bool
    ensures { IsTrue result ↔ (map token_of own.now ≡ map token_of shown.now) }
{
    if own.len() != shown.len() {
        return false;
    }
    for place in 0..own.len() {
        if !is_same(&own[place].token, &shown[place].token) {
            return false;
        }
    }
    true
}

/// Says whether both comments are after as many tokens.
fn is_beside(one: &Note, other: &Note) -> bool
    ensures { IsTrue result ↔ (place_of one.now ≡ place_of other.now) }
{
    one.before == other.before
}

/// Says whether the comments are after as many tokens.
fn same_places(found: &[Note], notes: &[Note]) -> bool
    ensures { IsTrue result ↔ (map place_of found.now ≡ map place_of notes.now) }
{
    if found.len() != notes.len() {
        return false;
    }
    for place in 0..found.len() {
        if !is_beside(&found[place], &notes[place]) {
            return false;
        }
    }
    true
}

/// Says whether both comments say the same.
fn says_same(one: &Note, other: &Note) -> bool
    ensures { IsTrue result ↔ (words_of one.now ≡ words_of other.now) }
{
    one.text.as_slice() == other.text.as_slice()
}

/// Says whether the comments say the same.
fn same_words(found: &[Note], notes: &[Note]) -> bool
    ensures { IsTrue result ↔ (map words_of found.now ≡ map words_of notes.now) }
{
    if found.len() != notes.len() {
        return false;
    }
    for place in 0..found.len() {
        if !says_same(&found[place], &notes[place]) {
            return false;
        }
    }
    true
}

/// Says whether the comments say the same, each after as many tokens.
pub(crate) fn are_kept(notes: &[Note], found: &[Note]) -> bool
    ensures { IsTrue result ↔ AreKept notes.now found.now }
{
    if !same_places(found, notes) {
        return false;
    }
    same_words(found, notes)
}
