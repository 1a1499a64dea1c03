//! Comments beside the tokens of their text.
ghost use Rattle.std.specs.Prelude.{◌≡◌, ◌≤◌, IfOk, count_by, drop, length, take};
ghost use Rattle.psg_commented.specs.Noting.{bytes_between, counts, end_of_last, ended_by};
ghost use Rattle.psg_commented.specs.Noting.{has_feed as has_feed_of, is_counted as is_counted_of, note_of};
ghost use Rattle.psg_commented.specs.Noting.{notes_of as notes_of_text, trails_after, trimmed as trimmed_of};
ghost use Rattle.psg_commented.specs.Steps.{IsPassed};

use psg_comments::Comment;
use psg_lexis::{Spanned, Token};
use psg_terms::Seq;
use std::alloc::{AllocError, Global};

/// A comment beside the tokens of its program.
#[derive(Drop)]
pub struct Note {
    /// How many tokens are before it, except round brackets.
    pub before: usize,
    /// Whether a token is before it on its line.
    pub trails: bool,
    /// Its text, without blanks at its end.
    pub text: Seq<u8>,
}

/// Tokens before a place: how many, and how many of them are counted.
#[derive(Clone, Copy, Drop)]
pub(crate) struct Passed {
    pub(crate) place: usize,
    pub(crate) tokens: usize,
    pub(crate) counted: usize,
}

/// Says whether the token is counted: it is no round bracket.
pub(crate) fn is_counted(token: &Token) -> bool
    ensures { result ≡ is_counted_of token.now }
{
    match token {
        Token::Solo(byte) => *byte != b'(' && *byte != b')',
        _ => true,
    }
}

/// Returns how many of the tokens at the beginning end before the place.
fn ended(tokens: &[Spanned], place: usize) -> usize
    ensures count { result ≡ ended_by tokens.now place }
    ensures within { result ≤ length tokens.now }
{
    for passed in 0..tokens.len() {
        if tokens[passed].end > place {
            return passed;
        }
    }
    tokens.len()
}

/// Returns how many of the tokens are counted.
fn counted(tokens: &[Spanned]) -> usize
    ensures count { result ≡ count_by counts tokens.now }
    ensures within { result ≤ length tokens.now }
{
    tokens
        .iter()
        .filter(|token| is_counted(&token.token))
        .count()
}

/// Returns tokens before the place: those, where they are before it, and none otherwise.
fn known(tokens: &[Spanned], passed: Passed, place: usize) -> Passed
    requires { IsPassed tokens.now passed }
    ensures passed { IsPassed tokens.now result }
    ensures within { result.tokens ≤ ended_by tokens.now place }
{
    if place < passed.place {
        return Passed {
            place: 0,
            tokens: 0,
            counted: 0,
        };
    }
    passed
}

/// Returns all tokens before the place, by some that are before an earlier one.
fn pass(tokens: &[Spanned], passed: Passed, place: usize) -> Passed
    requires { IsPassed tokens.now passed }
    ensures passed { IsPassed tokens.now result }
    ensures all { result.tokens ≡ ended_by tokens.now place }
{
    let before = known(tokens, passed, place);
    let (_, rest) = tokens.split_at(before.tokens);
    let more = ended(rest, place);
    let (front, _) = rest.split_at(more);
    Passed {
        place,
        tokens: before.tokens + more,
        counted: before.counted + counted(front),
    }
}

/// Returns the bytes of the text from one place on.
fn bytes_from(text: &[u8], from: usize) -> &[u8]
    ensures { result.now ≡ drop from text.now }
{
    if from >= text.len() {
        return &[];
    }
    let (_, rest) = text.split_at(from);
    rest
}

/// Returns the first bytes, or all where there are fewer.
fn bytes_up_to(text: &[u8], size: usize) -> &[u8]
    ensures { result.now ≡ take size text.now }
{
    if size >= text.len() {
        return text;
    }
    let (front, _) = text.split_at(size);
    front
}

/// Returns the bytes of the text from one place up to another.
pub(crate) fn between(text: &[u8], from: usize, to: usize) -> &[u8]
    ensures { result.now ≡ bytes_between text.now from to }
{
    let rest = bytes_from(text, from);
    bytes_up_to(rest, to.saturating_sub(from))
}

/// Says whether one of the bytes is a line feed.
pub(crate) fn has_feed(bytes: &[u8]) -> bool
    ensures { result ≡ has_feed_of bytes.now }
{
    bytes.iter().any(|byte| *byte == b'\n')
}

/// Returns the end of the last of the tokens, or 0 where there is none.
fn last_end(tokens: &[Spanned]) -> usize
    ensures { result ≡ end_of_last 0 tokens.now }
{
    let mut end = 0;
    for token in tokens {
        end = token.end;
    }
    end
}

/// Says whether one of the tokens, which are those before the place, is on its line.
fn trails(text: &[u8], place: usize, tokens: &[Spanned]) -> bool
    ensures { result ≡ trails_after text.now place tokens.now }
{
    if tokens.is_empty() {
        return false;
    }
    !has_feed(between(text, last_end(tokens), place))
}

/// Returns the bytes without the blanks at their end.
fn trimmed(bytes: &[u8]) -> &[u8]
    ensures { result.now ≡ trimmed_of bytes.now }
{
    bytes.trim_ascii_end()
}

/// Returns the comment beside the tokens, where all those before it are given.
fn noted(
    alloc: Global,
    text: &[u8],
    tokens: &[Spanned],
    passed: Passed,
    comment: Comment,
) -> Result<Note, AllocError>
    requires passed { IsPassed tokens.now passed }
    requires all { passed.tokens ≡ ended_by tokens.now comment.start }
    ensures { IfOk result (λ n. n ≡ note_of text.now tokens.now comment) }
{
    let (before, _) = tokens.split_at(passed.tokens);
    let own = trimmed(between(text, comment.start, comment.end));
    Ok(Note {
        before: passed.counted,
        trails: trails(text, comment.start, before),
        text: Seq::of(Vec::from_slice(alloc, own)?),
    })
}

/// Returns the comments beside the tokens of the text. It fails where memory runs out, and takes time linear in the
/// text where tokens and comments are in its order.
pub fn notes_of(
    alloc: Global,
    text: &[u8],
    tokens: &[Spanned],
    comments: &[Comment],
) -> Result<Vec<Note>, AllocError>
    ensures { IfOk result (λ notes. notes.items ≡ notes_of_text text.now tokens.now comments.now) }
{
    let mut notes = Vec::new(alloc);
    let mut passed = Passed {
        place: 0,
        tokens: 0,
        counted: 0,
    };
    for comment in comments {
        passed = pass(tokens, passed, comment.start);
        notes.push(noted(alloc, text, tokens, passed, *comment)?)?;
    }
    Ok(notes)
}
