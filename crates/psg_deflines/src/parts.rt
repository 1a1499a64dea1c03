//! The parts of a line.
ghost use Rattle.std.specs.Prelude.{◌≡◌, ◌&&◌, ◌||◌, ◌==◌, IfOk, MatchOption, ◌<◌, length, slice_index, true};
ghost use Rattle.std.specs.List.{prefix_len};
ghost use Rattle.psg_deflines.specs.Written.{goes_on_word};
ghost use Rattle.psg_deflines.specs.Parts.{is_mark, is_sigil, goes_behind, IsFirst, HasNoFirst, HasParts, HasNoParts};
ghost use Rattle.psg_deflines.specs.Parts.{IsSplit, texts};
ghost use Rattle.psg_deflines.specs.Only.{IsOnly};

use crate::quotes::{closing, quoted_text};
use std::alloc::{AllocError, Global};

/// Says whether the character is a letter, a digit, `_` or `@`.
fn goes_on(c: u8) -> bool
    ensures { result ≡ goes_on_word c }
{
    c.is_ascii_alphanumeric() || c == b'_' || c == b'@'
}

/// Says whether the character is a part by itself.
fn is_mark(c: u8) -> bool
    ensures { result ≡ is_mark c }
{
    matches!(c, b':' | b'=' | b'(' | b')' | b',' | b'[' | b']' | b'|')
}

/// Says whether a name follows the character.
fn is_sigil(c: u8) -> bool
    ensures { result ≡ is_sigil c }
{
    c == b'?' || c == b'$'
}

/// Says whether a name after the sigil goes on with the character.
fn goes_behind(sigil: u8, c: u8) -> bool
    ensures { result ≡ goes_behind sigil c }
{
    if sigil == b'?' {
        c.is_ascii_alphanumeric()
    } else {
        c.is_ascii_lowercase() || c.is_ascii_digit()
    }
}

/// Returns the length of the longest run of letters, digits, `_` and `@` at the beginning of the text.
fn word_len(text: &[u8]) -> usize
    ensures { result ≡ prefix_len goes_on_word text.now }
{
    text.iter().take_while(|c| goes_on(**c)).count()
}

/// Returns the length of the longest run of spaces.
fn spaces_len(text: &[u8]) -> usize
    ensures { result ≡ prefix_len (λ c. c == 32) text.now }
{
    text.iter().take_while(|c| **c == b' ').count()
}

/// Returns the length of the longest run of characters of a name after the sigil.
fn name_len(sigil: u8, text: &[u8]) -> usize
    ensures { result ≡ prefix_len (goes_behind sigil) text.now }
{
    text.iter().take_while(|c| goes_behind(sigil, **c)).count()
}

/// Returns the length of the sigil and its name with which the text begins, if there is a name and nothing goes on with
/// it.
fn sigil_len(text: &[u8]) -> Option<usize>
    requires long { 0 < length text.now }
    requires sigil { is_sigil (slice_index text.now 0) ≡ true }
    ensures { MatchOption result (HasNoFirst text.now) (IsFirst text.now) }
{
    let name = &text[1..];
    let len = name_len(text[0], name);
    if len == 0 {
        return None;
    }
    if len < name.len() && goes_on(name[len]) {
        return None;
    }
    Some(len + 1)
}

/// Returns the length of the quoted text with which the text begins, if there is one.
fn quoted_len(alloc: Global, text: &[u8]) -> Result<Option<usize>, AllocError>
    requires long { 0 < length text.now }
    requires quote { slice_index text.now 0 ≡ 34 }
    ensures { IfOk result (λ o. MatchOption o (HasNoFirst text.now) (IsFirst text.now)) }
{
    let Some(inside) = closing(&text[1..]) else {
        return Ok(None);
    };
    let (part, _) = text.split_at(inside + 2);
    let Some(_contents) = quoted_text(alloc, part)? else {
        return Ok(None);
    };
    Ok(Some(inside + 2))
}

/// Returns the length of the first part of the text, if it begins with one.
fn first_part(alloc: Global, text: &[u8]) -> Result<Option<usize>, AllocError>
    requires { 0 < length text.now }
    ensures { IfOk result (λ o. MatchOption o (HasNoFirst text.now) (IsFirst text.now)) }
{
    let first = text[0];
    if first == b'"' {
        return quoted_len(alloc, text);
    }
    if is_mark(first) {
        return Ok(Some(1));
    }
    if is_sigil(first) {
        return Ok(sigil_len(text));
    }
    let len = word_len(text);
    Ok(if len > 0 { Some(len) } else { None })
}

/// Returns the first part of the text, and what is after the spaces that follow it. There is none where the text begins
/// with no part, or ends in spaces.
fn split_part(alloc: Global, text: &[u8]) -> Result<Option<(&[u8], &[u8])>, AllocError>
    requires { 0 < length text.now }
    ensures { IfOk result (λ o. MatchOption o (HasNoParts text.now) (λ r. IsSplit text.now r.0.now r.1.now)) }
{
    let Some(len) = first_part(alloc, text)? else {
        return Ok(None);
    };
    let (part, behind) = text.split_at(len);
    let spaces = spaces_len(behind);
    let (_, rest) = behind.split_at(spaces);
    if spaces > 0 && rest.is_empty() {
        return Ok(None);
    }
    Ok(Some((part, rest)))
}

/// Splits a line into its parts. There are none where a character belongs to no part, and where the line begins or ends
/// with spaces.
pub fn parts<'a>(alloc: Global, line: &'a [u8]) -> Result<Option<Vec<&'a [u8]>>, AllocError>
    ensures { IfOk result (λ o. MatchOption o (HasNoParts line.now) (λ v. IsOnly (HasParts line.now) (texts v.items))) }
{
    let mut parts = Vec::new(alloc);
    let mut left = line;
    while !left.is_empty() {
        let Some((part, rest)) = split_part(alloc, left)? else {
            return Ok(None);
        };
        parts.push(part)?;
        left = rest;
    }
    Ok(Some(parts))
}
