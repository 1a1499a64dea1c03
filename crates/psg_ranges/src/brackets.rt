//! Brackets around trees, in a row of tokens.
ghost use Rattle.std.specs.Prelude.{◌≡◌, ◌+◌, ◌-◌, cond, drop, slice_get};
ghost use Rattle.psg_class.specs.Texts.{tokens_of};
ghost use Rattle.psg_ranges.specs.Brackets.{closing, is_close, is_close_at, is_open, is_open_at, opening};
ghost use Rattle.psg_ranges.specs.Brackets.{element_brackets, has_brackets, is_bracketed};

use psg_grammar::{Definition, Kind};
use psg_lexis::{Spanned, Token};

/// Says whether the phylum of the number has brackets. One that the definition does not have has none.
fn is_bracketed(definition: &Definition, phylum: u32) -> bool
    ensures { result ≡ is_bracketed (slice_get definition.now.phyla phylum) }
{
    match definition.phyla.as_slice().get(phylum as usize) {
        Some(kind) => kind.bracketed,
        None => false,
    }
}

/// Says whether trees of the kind may be in brackets.
pub(crate) fn has_brackets(definition: &Definition, kind: Kind) -> bool
    ensures { result ≡ has_brackets definition.now kind }
{
    match kind {
        Kind::Phylum(phylum) => is_bracketed(definition, phylum),
        Kind::List(_) => false,
    }
}

/// Says whether the elements of the list of the number may be in brackets.
pub(crate) fn element_brackets(definition: &Definition, list: u32) -> bool
    ensures { result ≡ element_brackets definition.now (slice_get definition.now.lists list) }
{
    match definition.lists.as_slice().get(list as usize) {
        Some(kind) => is_bracketed(definition, kind.element),
        None => false,
    }
}

/// Says whether the token opens a bracket.
fn is_open(token: &Token) -> bool
    ensures { result ≡ is_open token.now }
{
    match token {
        Token::Solo(byte) => *byte == b'(',
        _ => false,
    }
}

/// Says whether the token closes a bracket.
fn is_close(token: &Token) -> bool
    ensures { result ≡ is_close token.now }
{
    match token {
        Token::Solo(byte) => *byte == b')',
        _ => false,
    }
}

/// Says whether there is a token of the number which opens a bracket.
fn is_open_at(tokens: &[Spanned], at: usize) -> bool
    ensures { result ≡ is_open_at (slice_get (tokens_of tokens.now) at) }
{
    match tokens.get(at) {
        Some(spanned) => is_open(&spanned.token),
        None => false,
    }
}

/// Says whether there is a token of the number which closes a bracket.
fn is_close_at(tokens: &[Spanned], at: usize) -> bool
    ensures { result ≡ is_close_at (slice_get (tokens_of tokens.now) at) }
{
    match tokens.get(at) {
        Some(spanned) => is_close(&spanned.token),
        None => false,
    }
}

/// Returns the number of the first token from the one of this number on that opens no bracket, or the number itself
/// where there are no brackets.
pub(crate) fn after_open(bracketed: bool, tokens: &[Spanned], at: usize) -> usize
    ensures { result ≡ at + cond bracketed (opening (drop at (tokens_of tokens.now))) 0 }
{
    if !bracketed {
        return at;
    }
    let mut next = at;
    'brackets: while is_open_at(tokens, next) {
        next += 1;
    }
    next
}

/// A tree with the brackets around it: the number of its first token, and that after its last one.
#[derive(Clone, Copy)]
pub(crate) struct Outer {
    pub(crate) start: usize,
    pub(crate) end: usize,
}

/// Returns the tree with the brackets that are closed directly after it. In front of it are brackets that are not
/// closed yet, from the token of the number `first` on.
pub(crate) fn in_brackets(tokens: &[Spanned], first: usize, inner: Outer) -> Outer
    ensures start { result.start ≡ inner.start - closing (inner.start - first) (drop inner.end (tokens_of tokens.now)) }
    ensures end { result.end ≡ inner.end + closing (inner.start - first) (drop inner.end (tokens_of tokens.now)) }
{
    let mut outer = inner;
    'brackets: while first < outer.start {
        if !is_close_at(tokens, outer.end) {
            return outer;
        }
        outer = Outer {
            start: outer.start - 1,
            end: outer.end + 1,
        };
    }
    outer
}
