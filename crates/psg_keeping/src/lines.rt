//! Where the lines of a text end among its tokens.
ghost use Rattle.std.specs.Prelude.{◌≡◌, ◌==◌, ◌||◌, ◌++◌, IfOk, OnOk, drop, take};
ghost use Rattle.psg_commented.specs.Noting.{bytes_between, has_feed as has_feed_of};
ghost use Rattle.psg_keeping.specs.Writing.{end_after as end_after_of, line_before, lines_of as lines_of_text};

use crate::tokens::is_counted;
use psg_lexis::Spanned;
use std::alloc::{AllocError, Global};

/// Returns the bytes of the text from one place on.
fn bytes_from(text: &[u8], from: usize) -> &[u8]
    ensures { result.now ≡ drop from text.now }
{
    if from >= text.len() {
        return &[];
    }
    let (_, rest) = text.split_at(from);
    rest
}

/// Returns the first bytes, or all where there are fewer.
fn bytes_up_to(text: &[u8], size: usize) -> &[u8]
    ensures { result.now ≡ take size text.now }
{
    if size >= text.len() {
        return text;
    }
    let (front, _) = text.split_at(size);
    front
}

/// Says whether a line feed is between the places.
fn has_feed(text: &[u8], from: usize, to: usize) -> bool
    ensures { result ≡ has_feed_of (bytes_between text.now from to) }
{
    let rest = bytes_from(text, from);
    let part = bytes_up_to(rest, to.saturating_sub(from));
    part.iter().any(|byte| *byte == b'\n')
}

/// Says whether a line ends between the places, or begins with the text.
fn is_line(text: &[u8], from: usize, to: usize) -> bool
    ensures { result ≡ ((from == 0) || has_feed_of (bytes_between text.now from to)) }
{
    from == 0 || has_feed(text, from, to)
}

/// Puts at the end whether a line ends before the token, if the token is counted.
fn push_line(
    lines: &mut Vec<bool>,
    text: &[u8],
    from: usize,
    token: &Spanned,
) -> Result<(), AllocError>
    ensures { OnOk result (lines.new.items ≡ lines.old.items ++ line_before text.now from token.now) }
{
    if is_counted(&token.token) {
        lines.push(is_line(text, from, token.start))?;
    }
    Ok(())
}

/// Returns where the last counted token ends, with one token more.
fn end_after(from: usize, token: &Spanned) -> usize
    ensures { result ≡ end_after_of from token.now }
{
    if is_counted(&token.token) {
        return token.end;
    }
    from
}

/// Returns for each number of counted tokens of the text whether a line ends after them.
pub(crate) fn lines_of(
    alloc: Global,
    text: &[u8],
    tokens: &[Spanned],
) -> Result<Vec<bool>, AllocError>
    ensures { IfOk result (λ lines. lines.items ≡ lines_of_text text.now tokens.now) }
{
    let mut lines = Vec::new(alloc);
    let mut from = 0;
    for token in tokens {
        push_line(&mut lines, text, from, token)?;
        from = end_after(from, token);
    }
    lines.push(true)?;
    Ok(lines)
}
