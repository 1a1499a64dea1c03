//! A definition file without its lines on comments.
ghost use Rattle.std.specs.Prelude.{◌≡◌, ◌<◌, ◌^◌, ◌++◌, ◌∷◌, [], Bool, IfOk, OnOk, cond, length, map};
ghost use Rattle.std.specs.Str.Lines.{lines as lines_of};
ghost use Rattle.psg_defcomment.specs.Plain.{is_head as is_head_of, named_in, plain_of};
ghost use Rattle.psg_defcomment.specs.Writing.{AddsLine, ArePlain};

use crate::lines::Named;
use crate::quotes::{past_spaces, token_of};
use std::alloc::{AllocError, Global};

/// A file without its lines on comments, and these lines.
#[derive(Drop)]
pub struct Plain {
    /// The bytes of the file, in which these lines are empty.
    pub bytes: Vec<u8>,
    /// The lines that name a token of comments, in order.
    pub named: Vec<Named>,
}

/// Says whether the line is the head of version 3.
fn is_head(line: &[u8]) -> bool
    ensures { result ≡ is_head_of line.now }
{
    let word = &[b'p', b's', b'g', b' '];
    match line.strip_prefix(word) {
        Some(behind) => past_spaces(behind) == [b'3'].as_slice(),
        None => false,
    }
}

/// Writes the line with a carriage return and a line feed after it.
fn push_line(bytes: &mut Vec<u8>, line: &[u8]) -> Result<(), AllocError>
    ensures { OnOk result (bytes.new.items ≡ bytes.old.items ++ (line.now ++ (13 ∷ 10 ∷ []))) }
{
    bytes.extend_from_slice(line)?;
    bytes.push(b'\r')?;
    bytes.push(b'\n')?;
    Ok(())
}

/// Writes the line of this number, or an empty one in its place where it names a token, which is kept.
fn push(
    alloc: Global,
    line: &[u8],
    number: usize,
    bytes: &mut Vec<u8>,
    named: &mut Vec<Named>,
) -> Result<(), AllocError>
    ensures { OnOk result (AddsLine line.now number bytes.old.items named.old.items bytes.new.items named.new.items) }
{
    match token_of(alloc, line)? {
        Some(token) => {
            named.push(Named {
                line: number,
                token,
            })?;
            push_line(bytes, &[])
        }
        None => push_line(bytes, line),
    }
}

/// Returns the lines after the head of a file of version 3, with a head of version 2.
fn plain_lines(alloc: Global, lines: &[&str]) -> Result<Plain, AllocError>
    ensures { IfOk result (λ p. ArePlain (map (λ l. l.now) lines.now) p.bytes.items p.named.items) }
{
    let mut bytes = Vec::new(alloc);
    let mut named = Vec::new(alloc);
    push_line(&mut bytes, &[b'p', b's', b'g', b' ', b'2'])?;
    let mut number = 2;
    for line in lines {
        push(alloc, line.as_bytes(), number, &mut bytes, &mut named)?;
        number += 1;
    }
    Ok(Plain { bytes, named })
}

/// Returns the bytes of a file as they are, which names no token.
fn as_it_is(alloc: Global, bytes: &[u8]) -> Result<Plain, AllocError>
    ensures bytes { IfOk result (λ p. p.bytes.items ≡ bytes.now) }
    ensures named { IfOk result (λ p. p.named.items ≡ []) }
{
    let copy = Vec::from_slice(alloc, bytes)?;
    Ok(Plain {
        bytes: copy,
        named: Vec::new(alloc),
    })
}

/// The lines of a text, each without its line feed and one carriage return in front of it.
fn text_lines<'a>(alloc: Global, text: &'a str) -> Result<Vec<&'a str>, AllocError>
    ensures { IfOk result (λ v. map (λ t. t.now) v.items ≡ lines_of text.now) }
{
    text.lines().collect(alloc)
}

/// Returns the text of a file without its lines on comments, and these lines.
fn plain_text(alloc: Global, text: &str) -> Result<Plain, AllocError>
    ensures bytes { IfOk result (λ p. p.bytes.items ≡ plain_of text.now) }
    ensures named { IfOk result (λ p. p.named.items ≡ named_in text.now) }
{
    let lines = text_lines(alloc, text)?;
    let Some((head, rest)) = lines.as_slice().split_first() else {
        return as_it_is(alloc, text.as_bytes());
    };
    if !is_head(head.as_bytes()) {
        return as_it_is(alloc, text.as_bytes());
    }
    plain_lines(alloc, rest)
}

/// Returns the file without its lines on comments, and these lines.
pub(crate) fn plain_file(alloc: Global, bytes: &[u8]) -> Result<Plain, AllocError>
    ensures bytes { IfOk result (λ p. p.bytes.items ≡ plain_of bytes.now) }
    ensures named { IfOk result (λ p. p.named.items ≡ named_in bytes.now) }
{
    match str::from_utf8(bytes) {
        Ok(text) => plain_text(alloc, text),
        Err(_) => as_it_is(alloc, bytes),
    }
}
