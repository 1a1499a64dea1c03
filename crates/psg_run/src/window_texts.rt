//! The text of a reply to a window.
ghost use Rattle.std.specs.Prelude.{◌≡◌, ◌<◌, ◌∷◌, ◌++◌, [], List, ℕ, Some, IfOk, map, string_bytes};
ghost use Rattle.psg_run.specs.Windowed.{labelled, text_for};
ghost use Rattle.psg_session.specs.Printing.{lines_in};
ghost use Rattle.psg_session.specs.Replies.{reply_lines as lines_of};
ghost use Rattle.psg_session.specs.Views.{mark_of, reply_of};
ghost use Rattle.psg_session.specs.Marked.{mark_text};
ghost use Rattle.psg_windows.specs.Moving.{windows as window_count};

use crate::lines::first_feed;
use psg_session::{Mark, Reply, reply_lines};
use psg_terms::Txt;
use std::alloc::{AllocError, Global};

/// Writes the line after the text, with the label before it and a line feed after it.
fn push_line(text: &mut Vec<u8>, label: &[u8], line: &[u8]) -> Result<(), AllocError>
    ensures { IfOk result (λ _. text.new.items ≡ text.old.items ++ labelled label.now (line.now ∷ [])) }
{
    text.extend_from_slice(label)?;
    text.extend_from_slice(line)?;
    text.push(b'\n')?;
    Ok(())
}

/// Writes the lines after the text, each with the label before it and a line feed after it.
fn push_lines(text: &mut Vec<u8>, label: &[u8], lines: &[String]) -> Result<(), AllocError>
    ensures { IfOk result (λ _. text.new.items
        ≡ text.old.items ++ labelled label.now (map string_bytes lines.now)) }
{
    for line in lines {
        push_line(text, label, line.as_bytes())?;
    }
    Ok(())
}

/// Writes the lines of a part of the program's text after the text, each with the label before it and a line feed
/// after it.
fn push_seen(text: &mut Vec<u8>, label: &[u8], lines: &[Txt]) -> Result<(), AllocError>
    ensures { IfOk result (λ _. text.new.items ≡ text.old.items ++ labelled label.now lines.now) }
{
    for line in lines {
        push_line(text, label, line.as_str().as_bytes())?;
    }
    Ok(())
}

/// Writes the lines of the shown text after the text, each with the label before it and a line feed after it.
fn push_shown(text: &mut Vec<u8>, label: &[u8], shown: &[u8]) -> Result<(), AllocError>
    ensures { IfOk result (λ _. text.new.items ≡ text.old.items ++ labelled label.now (lines_in shown.now)) }
{
    let mut rest = shown;
    while let Some(end) = first_feed(rest) {
        push_line(text, label, &rest[..end])?;
        rest = &rest[end + 1..];
    }
    push_line(text, label, rest)?;
    Ok(())
}

/// Writes the one line of the reply after the text, with the label before it and a line feed after it.
fn push_one(
    alloc: Global,
    text: &mut Vec<u8>,
    label: &[u8],
    reply: &Reply,
) -> Result<(), AllocError>
    ensures { IfOk result (λ _. (line : List ℕ) → lines_of (reply_of reply.now) ≡ line ∷ []
        → text.new.items ≡ text.old.items ++ labelled label.now (line ∷ [])) }
{
    let one = reply_lines(alloc, reply)?;
    text.extend_from_slice(label)?;
    text.extend_from_slice(one.as_bytes())?;
    Ok(())
}

/// Writes the lines of the shown text and that of the mark after the text, each with the label before it and a line
/// feed after it.
fn push_marked(
    alloc: Global,
    text: &mut Vec<u8>,
    label: &[u8],
    shown: &Txt,
    mark: Mark,
) -> Result<(), AllocError>
    ensures { IfOk result (λ _. text.new.items
        ≡ text.old.items ++ labelled label.now (lines_in shown.now ++ mark_text (mark_of mark) ∷ [])) }
{
    push_shown(text, label, shown.as_str().as_bytes())?;
    push_one(alloc, text, label, &Reply::Marked(mark))?;
    Ok(())
}

/// Writes the lines of the reply after the text, each with the label before it and a line feed after it.
fn push_reply(
    alloc: Global,
    text: &mut Vec<u8>,
    label: &[u8],
    reply: Reply,
) -> Result<(), AllocError>
    ensures { IfOk result (λ _. text.new.items
        ≡ text.old.items ++ labelled label.now (lines_of (reply_of reply))) }
{
    match reply {
        Reply::Refused(refusal) => push_one(alloc, text, label, &Reply::Refused(refusal)),
        Reply::Marked(mark) => push_one(alloc, text, label, &Reply::Marked(mark)),
        Reply::Shown(shown, mark) => push_marked(alloc, text, label, &shown, mark),
        Reply::Answered(lines) => push_lines(text, label, lines.as_slice()),
        Reply::Seen(lines) => push_seen(text, label, lines.as_slice()),
    }
}

/// Returns the text of the reply to the window: each of its lines with the digit of the window and a space in label.
/// Fails only when out of memory.
pub fn window_text(alloc: Global, window: u32, reply: Reply) -> Result<Vec<u8>, AllocError>
    requires { window < window_count }
    ensures { IfOk result (λ text. text.items ≡ text_for (Some window) (reply_of reply)) }
{
    let label = [48 + window as u8, 32];
    let mut text = Vec::new(alloc);
    push_reply(alloc, &mut text, &label, reply)?;
    Ok(text)
}
