//! The words of an answer.
ghost use Rattle.std.specs.Prelude.{◌≡◌, ◌++◌, ◌∷◌, ◌==◌, ◌<◌, [], bytes_eq, codes, map, string_bytes, IfOk, OnOk};
ghost use Rattle.std.specs.List.{slice_split};
ghost use Rattle.psg_session.specs.Printing.{lines_in as lines_of};
ghost use Rattle.psg_session.specs.Views.{reply_of};
ghost use Rattle.psg_asking.specs.Told as told;

use psg_session::{Refusal, Reply, reply_lines};
use std::alloc::{AllocError, Global};

/// Returns the words of the lines that were answered, or the refusal. A line `none` says that there is none. It fails
/// where memory runs out.
pub(crate) fn words_told(
    alloc: Global,
    reply: Reply,
) -> Result<Result<Vec<String>, Refusal>, AllocError>
    ensures { IfOk result (λ read. told.read_of read ≡ told.words_told (reply_of reply)) }
{
    let read = words_read(alloc, &reply);
    // here and not at the end, where the proof would take each reply apart on each way out
    drop(reply);
    let read = read?;
    Ok(read)
}

/// Returns the words of the lines that were answered, or the refusal.
fn words_read(alloc: Global, reply: &Reply) -> Result<Result<Vec<String>, Refusal>, AllocError>
    ensures { IfOk result (λ read. told.read_of read ≡ told.words_told (reply_of reply.now)) }
{
    match refusal_in(reply) {
        Some(refusal) => Ok(Err(refusal)),
        None => {
            let text = reply_lines(alloc, reply)?;
            let words = words_in(alloc, text.as_str())?;
            Ok(Ok(words))
        }
    }
}

/// Returns the lines that were answered, except empty ones, or the refusal. It fails where memory runs out.
pub(crate) fn lines_told(
    alloc: Global,
    reply: Reply,
) -> Result<Result<Vec<String>, Refusal>, AllocError>
    ensures { IfOk result (λ read. told.read_of read ≡ told.lines_told (reply_of reply)) }
{
    let read = lines_read(alloc, &reply);
    drop(reply);
    let read = read?;
    Ok(read)
}

/// Returns the lines that were answered, except empty ones, or the refusal.
fn lines_read(alloc: Global, reply: &Reply) -> Result<Result<Vec<String>, Refusal>, AllocError>
    ensures { IfOk result (λ read. told.read_of read ≡ told.lines_told (reply_of reply.now)) }
{
    match refusal_in(reply) {
        Some(refusal) => Ok(Err(refusal)),
        None => {
            let text = reply_lines(alloc, reply)?;
            let lines = lines_in(alloc, text.as_str())?;
            Ok(Ok(lines))
        }
    }
}

/// Returns the refusal, if the reply is one.
pub(crate) fn refusal_in(reply: &Reply) -> Option<Refusal>
    ensures { result ≡ told.refusal_in (reply_of reply.now) }
{
    match reply {
        Reply::Refused(refusal) => Some(*refusal),
        Reply::Marked(_) => None,
        Reply::Shown(_, _) => None,
        Reply::Answered(_) => None,
        Reply::Seen(_) => None,
    }
}

/// Returns the lines of a text that are not empty.
fn lines_in(alloc: Global, text: &str) -> Result<Vec<String>, AllocError>
    ensures { IfOk result (λ lines. map string_bytes lines.items ≡ told.filled (lines_of text.now)) }
{
    let mut lines = Vec::new(alloc);
    push_parts(alloc, &mut lines, text, '\n')?;
    Ok(lines)
}

/// Returns the words of the lines of a text.
fn words_in(alloc: Global, text: &str) -> Result<Vec<String>, AllocError>
    ensures { IfOk result (λ words. map string_bytes words.items ≡ told.words_in (lines_of text.now)) }
{
    let mut words = Vec::new(alloc);
    for line in text.split('\n') {
        push_words(alloc, &mut words, line)?;
    }
    Ok(words)
}

/// Adds the words of the line.
fn push_words(alloc: Global, words: &mut Vec<String>, line: &str) -> Result<(), AllocError>
    ensures { OnOk result (map string_bytes words.new.items
        ≡ map string_bytes words.old.items ++ told.words_of line.now) }
{
    let none = is_none(line);
    if none {
        return Ok(());
    }
    push_parts(alloc, words, line, ' ')?;
    Ok(())
}

/// Says whether the line says that there is none.
fn is_none(line: &str) -> bool
    ensures { result ≡ bytes_eq line.now (codes "none") }
{
    line == "none"
}

/// Adds the parts of the text between this character, which is ASCII, except empty ones.
fn push_parts(
    alloc: Global,
    parts: &mut Vec<String>,
    text: &str,
    cut: char,
) -> Result<(), AllocError>
    requires { cut < 128 }
    ensures { OnOk result (map string_bytes parts.new.items
        ≡ map string_bytes parts.old.items ++ told.filled (slice_split (λ b. b == cut) text.now)) }
{
    for part in text.split(cut) {
        push_part(alloc, parts, part)?;
    }
    Ok(())
}

/// Adds the text, unless it is empty.
fn push_part(alloc: Global, parts: &mut Vec<String>, part: &str) -> Result<(), AllocError>
    ensures { OnOk result (map string_bytes parts.new.items
        ≡ map string_bytes parts.old.items ++ told.filled (part.now ∷ [])) }
{
    let empty = is_empty(part);
    if empty {
        return Ok(());
    }
    let copy = String::from_str(alloc, part)?;
    parts.push(copy)?;
    Ok(())
}

/// Says whether the text is empty.
fn is_empty(part: &str) -> bool
    ensures { result ≡ bytes_eq part.now [] }
{
    part == ""
}
