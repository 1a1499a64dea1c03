//! A printed text with comments beside its tokens.
ghost use Rattle.std.specs.Prelude.{◌≡◌, ◌≤◌, ◌<◌, ◌+◌, ◌^◌, ◌++◌, IfOk, OnOk, cond, drop, length, max};
ghost use Rattle.std.specs.List.{prefix_len};
ghost use Rattle.psg_commented.specs.Noting.{counts};
ghost use Rattle.psg_commented.specs.Printing.{after_feed as after_feed_of, behind_token};
ghost use Rattle.psg_commented.specs.Printing.{closes as closes_of, comment_level};
ghost use Rattle.psg_commented.specs.Printing.{is_other as is_other_of, due as due_of, gap_with};
ghost use Rattle.psg_commented.specs.Printing.{head_line, heads, is_due, lead, level_after, new_line, on_lines};
ghost use Rattle.psg_commented.specs.Printing.{own_level as own_level_of, own_line, printed_from};
ghost use Rattle.psg_commented.specs.Printing.{token_level, token_with};
ghost use Rattle.psg_commented.specs.Printing.{with_notes as with_notes_of};
ghost use Rattle.psg_commented.specs.Steps.{IsNext, IsSpot};

use crate::noting::{Note, between, has_feed, is_counted};
use psg_lexis::{Spanned, Token};
use std::alloc::{AllocError, Global};

/// Says whether the token closes a bracket.
fn closes(token: &Token) -> bool
    ensures { result ≡ closes_of token.now }
{
    match token {
        Token::Solo(byte) => *byte == b')',
        _ => false,
    }
}

/// Returns how many of the comments at the beginning are after that many tokens at most.
fn ready(notes: &[Note], seen: usize) -> usize
    ensures count { result ≡ prefix_len (is_due seen) notes.now }
    ensures within { result ≤ length notes.now }
{
    for place in 0..notes.len() {
        if notes[place].before > seen {
            return place;
        }
    }
    notes.len()
}

/// Returns how many of the comments at the beginning are due before the token.
fn due(token: &Token, seen: usize, notes: &[Note]) -> usize
    ensures count { result ≡ due_of token.now seen notes.now }
    ensures within { result ≤ length notes.now }
{
    if closes(token) {
        return 0;
    }
    ready(notes, seen)
}

/// Says whether the byte is no line feed.
fn is_other(byte: u8) -> bool
    ensures { result ≡ is_other_of byte }
{
    byte != b'\n'
}

/// Returns how many bytes there are up to the last line feed.
fn after_feed(bytes: &[u8]) -> usize
    ensures feed { result ≡ after_feed_of bytes.now }
    ensures within { result ≤ length bytes.now }
{
    let mut front = bytes;
    'bytes: while let Some((last, others)) = front.split_last() {
        if !is_other(*last) {
            return front.len();
        }
        front = others;
    }
    0
}

/// Returns how many bytes are after the last line feed.
fn own_level(gap: &[u8]) -> usize
    ensures level { result ≡ own_level_of gap.now }
    ensures within { result ≤ length gap.now }
{
    gap.len() - after_feed(gap)
}

/// How far lines are indented at a gap: that of comments in it, and that of the token after them, with comments and
/// without.
#[derive(Clone, Copy, Drop)]
struct Levels {
    comments: usize,
    token: usize,
    after: usize,
}

/// Returns how far lines are indented at the gap, where the line before is indented by `level`.
fn levels_at(level: usize, gap: &[u8]) -> Levels
    requires { level + 2 < 2 ^ 64 }
    ensures comments { result.comments ≡ comment_level level gap.now }
    ensures token { result.token ≡ token_level level gap.now }
    ensures after { result.after ≡ level_after level gap.now }
    ensures within { result.after ≤ max level (length gap.now) }
{
    if !has_feed(gap) {
        return Levels {
            comments: level + 2,
            token: level + 2,
            after: level,
        };
    }
    let own = own_level(gap);
    Levels {
        comments: level.max(own),
        token: own,
        after: own,
    }
}

/// Writes a line feed and that many spaces.
fn push_line(out: &mut Vec<u8>, level: usize) -> Result<(), AllocError>
    ensures { OnOk result (out.new.items ≡ out.old.items ++ new_line level) }
{
    out.push(b'\n')?;
    for _space in 0..level {
        out.push(b' ')?;
    }
    Ok(())
}

/// Writes the comment on a line of its own.
fn push_own(out: &mut Vec<u8>, level: usize, note: &Note) -> Result<(), AllocError>
    ensures { OnOk result (out.new.items ≡ out.old.items ++ own_line level note.now) }
{
    push_line(out, level)?;
    out.extend_from_slice(note.text.as_slice())?;
    Ok(())
}

/// Writes the comments, each on a line of its own.
fn push_lines(out: &mut Vec<u8>, level: usize, notes: &[Note]) -> Result<(), AllocError>
    ensures { OnOk result (out.new.items ≡ out.old.items ++ on_lines level notes.now) }
{
    for note in notes {
        push_own(out, level, note)?;
    }
    Ok(())
}

/// Writes a space, or a new line.
fn push_lead(out: &mut Vec<u8>, level: usize, trails: bool) -> Result<(), AllocError>
    ensures { OnOk result (out.new.items ≡ out.old.items ++ lead level trails) }
{
    if trails {
        out.push(b' ')?;
        return Ok(());
    }
    push_line(out, level)
}

/// Writes the comments after a token, of which the first may be on its line.
fn push_behind(out: &mut Vec<u8>, level: usize, notes: &[Note]) -> Result<(), AllocError>
    ensures { OnOk result (out.new.items ≡ out.old.items ++ behind_token level notes.now) }
{
    let Some((first, rest)) = notes.split_first() else {
        return Ok(());
    };
    push_lead(out, level, first.trails)?;
    out.extend_from_slice(first.text.as_slice())?;
    push_lines(out, level, rest)
}

/// Writes what is between two tokens: the gap, or the comments and a new line.
fn push_gap(
    out: &mut Vec<u8>,
    level: usize,
    levels: &Levels,
    gap: &[u8],
    notes: &[Note],
) -> Result<(), AllocError>
    requires comments { levels.now.comments ≡ comment_level level gap.now }
    requires token { levels.now.token ≡ token_level level gap.now }
    ensures { OnOk result (out.new.items ≡ out.old.items ++ gap_with level gap.now notes.now) }
{
    if notes.is_empty() {
        out.extend_from_slice(gap)?;
        return Ok(());
    }
    push_behind(out, levels.comments, notes)?;
    push_line(out, levels.token)
}

/// Writes a comment before the first token, on a line of its own.
fn push_head(out: &mut Vec<u8>, note: &Note) -> Result<(), AllocError>
    ensures { OnOk result (out.new.items ≡ out.old.items ++ head_line note.now) }
{
    out.extend_from_slice(note.text.as_slice())?;
    out.push(b'\n')?;
    Ok(())
}

/// Writes comments before the first token, each on a line of its own.
fn push_heads(out: &mut Vec<u8>, notes: &[Note]) -> Result<(), AllocError>
    ensures { OnOk result (out.new.items ≡ out.old.items ++ heads notes.now) }
{
    for note in notes {
        push_head(out, note)?;
    }
    Ok(())
}

/// Returns 1 where the token is counted, and else 0.
fn count_of(token: &Spanned) -> usize
    ensures count { result ≡ cond (counts token.now) 1 0 }
    ensures within { result ≤ 1 }
{
    if is_counted(&token.token) {
        return 1;
    }
    0
}

/// Where a printed text goes on: the byte, how many tokens that are counted and how many comments were written, and how
/// far the line is indented.
#[derive(Clone, Copy, Drop)]
pub(crate) struct Spot {
    pub(crate) from: usize,
    pub(crate) seen: usize,
    pub(crate) told: usize,
    pub(crate) level: usize,
}

/// Writes the token with the comments that are due before it. `written` is how many tokens were written.
fn push_token(
    out: &mut Vec<u8>,
    text: &[u8],
    token: &Spanned,
    notes: &[Note],
    spot: Spot,
    written: usize,
) -> Result<Spot, AllocError>
    requires spot { IsSpot text.now written notes.now spot }
    requires small { written + 1 < 2 ^ 64 }
    ensures token { OnOk result (out.new.items ≡ out.old.items
        ++ token_with text.now spot.from spot.seen spot.level token.now (drop spot.told notes.now)) }
    ensures next { IfOk result (IsNext text.now token.now notes.now spot) }
    ensures spot { IfOk result (IsSpot text.now (written + 1) notes.now) }
{
    let (_, left) = notes.split_at(spot.told);
    let count = due(&token.token, spot.seen, left);
    let (here, _) = left.split_at(count);
    let gap = between(text, spot.from, token.start);
    let at = levels_at(spot.level, gap);
    push_gap(out, spot.level, &at, gap, here)?;
    out.extend_from_slice(between(text, token.start, token.end))?;
    Ok(Spot {
        from: token.end,
        seen: spot.seen + count_of(token),
        told: spot.told + count,
        level: at.after,
    })
}

/// Writes the tokens with the comments in their gaps, and the other comments after the last token.
fn push_tokens(
    out: &mut Vec<u8>,
    text: &[u8],
    tokens: &[Spanned],
    notes: &[Note],
) -> Result<(), AllocError>
    ensures { OnOk result (out.new.items ≡ out.old.items ++ printed_from text.now 0 0 0 tokens.now notes.now) }
{
    let mut spot = Spot {
        from: 0,
        seen: 0,
        told: 0,
        level: 0,
    };
    for place in 0..tokens.len() {
        spot = push_token(out, text, &tokens[place], notes, spot, place)?;
    }
    let (_, left) = notes.split_at(spot.told);
    push_behind(out, 0, left)?;
    out.push(b'\n')?;
    Ok(())
}

/// Returns the printed text, of which the tokens are given, with the comments beside them. It fails where memory runs
/// out, and takes time linear in the text and the comments.
pub fn with_notes(
    alloc: Global,
    text: &[u8],
    tokens: &[Spanned],
    notes: &[Note],
) -> Result<Vec<u8>, AllocError>
    ensures { IfOk result (λ out. out.items ≡ with_notes_of text.now tokens.now notes.now) }
{
    let mut out = Vec::new(alloc);
    if tokens.is_empty() {
        push_heads(&mut out, notes)?;
        return Ok(out);
    }
    let (first, left) = notes.split_at(ready(notes, 0));
    push_heads(&mut out, first)?;
    push_tokens(&mut out, text, tokens, left)?;
    Ok(out)
}
