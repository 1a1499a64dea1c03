//! What is judged of a text: the text without its comments.
ghost use Rattle.std.specs.Prelude.{◌≡◌, [], IfOk, IfSome, IsUtf8, Some, set, string_bytes};
ghost use Rattle.psg_comments.specs.Blanking.{is_inside};
ghost use Rattle.psg_comments.specs.Fitting.{IsFit};
ghost use Rattle.psg_defcomment.specs.Reading.{IsCommentOf};
ghost use Rattle.psg_grammar.specs.WellFormed.{fixed_words};
ghost use Rattle.psg_program.specs.Decoding.{unmarked as unmarked_of};
ghost use Rattle.psg_server.specs.Judging as judging;
ghost use Rattle.psg_server.specs.Judging.{IsAsked, IsBlankedText, IsJudged, IsMark, is_within};
ghost use Rattle.psg_server.specs.Judging.{mark_of as mark, own_byte};

use psg_comments::{Blanked, Comment, blank_comments};
use psg_lexis::Lexis;
use psg_program::unmarked;
use psg_specimen::Language;
use psg_terms::Txt;
use std::alloc::{AllocError, Global};

/// A language, and the token of the comments of its texts, if there is one.
#[derive(Drop)]
pub struct Defined {
    /// The language.
    pub language: Language,
    /// The token that begins comments.
    pub comment: Option<Txt>,
}

/// What is judged of a text.
#[derive(Drop)]
pub(crate) struct Judged {
    /// The bytes of the text, with a space for each byte of a comment.
    pub(crate) bytes: Vec<u8>,
    /// The comments of the text, in order. Their places are counted after a byte order mark.
    pub(crate) comments: Vec<Comment>,
}

/// Returns the bytes as a text.
fn text_of(bytes: &[u8]) -> &str
    requires text { IsUtf8 bytes.now }
    ensures { result.now ≡ bytes.now }
{
    match str::from_utf8(bytes) {
        Ok(text) => text,
        Err(_) => unreachable!(),
    }
}

/// Returns the text without one byte order mark at its beginning.
pub(crate) fn unmarked_text(text: &str) -> &str
    ensures { result.now ≡ unmarked_of text.now }
{
    let bytes = unmarked(text.as_bytes());
    text_of(bytes)
}

/// Returns the byte order mark at the beginning, or nothing.
fn mark_of(bytes: &[u8]) -> &[u8]
    ensures { result.now ≡ mark bytes.now }
{
    let rest = unmarked(bytes);
    bytes.split_at(bytes.len() - rest.len()).0
}

/// Returns the text as it is, without comments.
fn as_it_is(alloc: Global, text: &str) -> Result<Judged, AllocError>
    ensures bytes { IfOk result (λ own. own.bytes.items ≡ text.now) }
    ensures comments { IfOk result (λ own. own.comments.items ≡ []) }
{
    Ok(Judged {
        bytes: Vec::from_slice(alloc, text.as_bytes())?,
        comments: Vec::new(alloc),
    })
}

/// Returns the comments of the text, and its bytes with a space for each byte of a comment.
fn blank_text(alloc: Global, lexis: &Lexis, token: &str, text: &str) -> Result<Judged, AllocError>
    requires fit { IsFit lexis.now token.now }
    ensures { IfOk result (λ own. IsBlankedText lexis.now token.now text.now own.comments.items own.bytes.items) }
{
    let rest = unmarked_text(text);
    let Blanked {
        bytes: blanked,
        comments,
    } = blank_comments(alloc, lexis, token, rest)?;
    let front = mark_of(text.as_bytes());
    let mut bytes = Vec::from_slice(alloc, front)?;
    bytes.extend_from_slice(blanked.as_slice())?;
    Ok(Judged { bytes, comments })
}

/// Returns what is judged of the text, with its comments. Fails only when out of memory, and takes time linear in the
/// text.
pub(crate) fn without_comments(
    alloc: Global,
    defined: &Defined,
    text: &str,
) -> Result<Judged, AllocError>
    requires fit { IsCommentOf (fixed_words defined.now.language) defined.now.comment }
    ensures { IfOk result (λ own. IsJudged (fixed_words defined.now.language) defined.now.comment text.now
        own.comments.items own.bytes.items) }
{
    match &defined.comment {
        None => as_it_is(alloc, text),
        Some(token) => blank_text(alloc, defined.language.lexis(), token.as_str(), text),
    }
}

/// Returns the place, if a `?` is there.
fn mark_there(text: &[u8], place: usize) -> Option<usize>
    ensures is { result ≡ judging.mark_there text.now place }
    ensures mark { IfSome result (IsMark text.now) }
{
    match text.get(place) {
        Some(byte) => {
            let mark = *byte == 63;
            if mark { Some(place) } else { None }
        }
        None => None,
    }
}

/// Returns the place before the byte, if a `?` is there.
fn mark_before(text: &[u8], byte: usize) -> Option<usize>
    ensures is { result ≡ judging.mark_before text.now byte }
    ensures mark { IfSome result (IsMark text.now) }
{
    match byte.checked_sub(1) {
        Some(last) => mark_there(text, last),
        None => None,
    }
}

/// Returns where a `?` is, right before the byte or at it.
fn mark_at(text: &[u8], byte: usize) -> Option<usize>
    ensures is { result ≡ judging.mark_at text.now byte }
    ensures mark { IfSome result (IsMark text.now) }
{
    match mark_before(text, byte) {
        Some(place) => Some(place),
        None => mark_there(text, byte),
    }
}

/// Returns the text with a space in place of a `?`.
fn with_space_at(alloc: Global, text: &str, place: usize) -> Result<String, AllocError>
    requires { IsMark text.now place }
    ensures { IfOk result (λ bare. string_bytes bare ≡ set text.now place 32) }
{
    let mut bare = String::from_str(alloc, &text[..place])?;
    bare.push(' ')?;
    bare.push_str(&text[place + 1..])?;
    Ok(bare)
}

/// Puts a `?` at the place, if there is a byte.
fn put_mark(bytes: &mut [u8], place: usize)
    ensures { bytes.new ≡ set bytes.old place 63 }
{
    if place < bytes.len() {
        bytes[place] = b'?';
    }
}

/// Returns what is judged of the text with a `?` at the place, with the comments that it has with a space there.
fn asked_at(
    alloc: Global,
    defined: &Defined,
    text: &str,
    place: usize,
) -> Result<Judged, AllocError>
    requires fit { IsCommentOf (fixed_words defined.now.language) defined.now.comment }
    requires mark { IsMark text.now place }
    ensures { IfOk result (λ own. IsAsked (fixed_words defined.now.language) defined.now.comment text.now (Some place)
        own.comments.items own.bytes.items) }
{
    let bare = with_space_at(alloc, text, place)?;
    let mut own = without_comments(alloc, defined, bare.as_str())?;
    put_mark(own.bytes.as_mut_slice(), place);
    Ok(own)
}

/// Returns what is judged of the text, with its comments, where a person asks at the byte: a `?` there, or right before
/// it, hides no comments after it. Fails only when out of memory, and takes time linear in the text.
pub(crate) fn asked_text(
    alloc: Global,
    defined: &Defined,
    text: &str,
    byte: usize,
) -> Result<Judged, AllocError>
    requires fit { IsCommentOf (fixed_words defined.now.language) defined.now.comment }
    ensures { IfOk result (λ own. IsAsked (fixed_words defined.now.language) defined.now.comment text.now
        (judging.mark_at text.now byte) own.comments.items own.bytes.items) }
{
    match mark_at(text.as_bytes(), byte) {
        Some(place) => {
            let own = asked_at(alloc, defined, text, place)?;
            Ok(own)
        }
        None => {
            let own = without_comments(alloc, defined, text)?;
            Ok(own)
        }
    }
}

/// Returns the byte of what was read, which is after a byte order mark.
pub(crate) fn own_byte(text: &[u8], byte: usize) -> usize
    ensures { result ≡ own_byte text.now byte }
{
    let own = unmarked(text).len();
    byte.saturating_sub(text.len().saturating_sub(own))
}

/// Says whether the byte at the place is one of a comment.
fn is_inside(comments: &[Comment], place: usize) -> bool
    ensures { result ≡ is_inside comments.now place }
{
    comments
        .iter()
        .any(|comment| comment.start <= place && place < comment.end)
}

/// Says whether what is typed at the place is part of a comment.
fn is_within(comments: &[Comment], place: usize) -> bool
    ensures { result ≡ is_within comments.now place }
{
    comments
        .iter()
        .any(|comment| comment.start < place && place <= comment.end)
}

/// Says whether the byte of the text is one of a comment.
pub(crate) fn is_comment(text: &str, own: &Judged, byte: usize) -> bool
    ensures { result ≡ is_inside own.now.comments.items (own_byte text.now byte) }
{
    let place = own_byte(text.as_bytes(), byte);
    is_inside(own.comments.as_slice(), place)
}

/// Says whether what is typed at the byte of the text is part of a comment.
pub(crate) fn is_commenting(text: &str, own: &Judged, byte: usize) -> bool
    ensures { result ≡ is_within own.now.comments.items (own_byte text.now byte) }
{
    let place = own_byte(text.as_bytes(), byte);
    is_within(own.comments.as_slice(), place)
}
