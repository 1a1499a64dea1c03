//! Replies and how they are written.
ghost use Rattle.std.specs.Prelude.{◌≡◌, ◌∷◌, ◌++◌, [], map, IfOk, string_bytes};
ghost use Rattle.psg_session.specs.Marked.{path_text, paths_text, mark_text};
ghost use Rattle.psg_session.specs.Printing.{lines_in};
ghost use Rattle.psg_session.specs.Replies.{feed, feed_all, reply_text};
ghost use Rattle.psg_script.specs.Forms.{steps_text};
ghost use Rattle.psg_session.specs.Views.{mark_of, reply_of};

use crate::refusal::Refusal;
use itoa::Buffer;
use psg_terms::Txt;
use psg_tree::Path;
use std::alloc::{AllocError, Global};

/// Whether the fragment is open, and otherwise the paths of its culprits, a node before its children, children in
/// order.
#[derive(Drop)]
pub enum Mark {
    /// The fragment has a legal completion.
    Good,
    /// It has none; the paths lead to its culprits.
    Wrong(Vec<Path>),
}

/// What a command is answered.
#[derive(Drop)]
pub enum Reply {
    /// A refusal.
    Refused(Refusal),
    /// The mark of the fragment.
    Marked(Mark),
    /// The lines of a text, which end at line feeds, and then the mark.
    Shown(Txt, Mark),
    /// Lines of text.
    Answered(Vec<String>),
    /// The lines of a window.
    Seen(Vec<Txt>),
}

/// Writes the path after the text.
pub(crate) fn push_path(text: &mut String, path: &Path) -> Result<(), AllocError>
    ensures { IfOk result (λ _. string_bytes text.new ≡ string_bytes text.old ++ path_text path.now) }
{
    let steps = path.steps();
    if steps.is_empty() {
        text.push_str("/")?;
        return Ok(());
    }
    push_steps(text, steps)?;
    Ok(())
}

/// Writes each step after a slash.
fn push_steps(text: &mut String, steps: &[u32]) -> Result<(), AllocError>
    ensures { IfOk result (λ _. string_bytes text.new ≡ string_bytes text.old ++ steps_text steps.now) }
{
    for step in steps {
        let mut digits = Buffer::new();
        text.push_str("/")?;
        text.push_str(digits.format(*step))?;
    }
    Ok(())
}

/// Writes each path after a space.
fn push_paths(text: &mut String, paths: &[Path]) -> Result<(), AllocError>
    ensures { IfOk result (λ _. string_bytes text.new ≡ string_bytes text.old ++ paths_text paths.now) }
{
    for path in paths {
        text.push_str(" ")?;
        push_path(text, path)?;
    }
    Ok(())
}

/// Writes the mark after the text.
fn push_mark(text: &mut String, mark: &Mark) -> Result<(), AllocError>
    ensures { IfOk result (λ _. string_bytes text.new ≡ string_bytes text.old ++ mark_text (mark_of mark.now)) }
{
    match mark {
        Mark::Good => {
            text.push_str("ok")?;
            Ok(())
        }
        Mark::Wrong(culprits) => {
            text.push_str("wrong")?;
            push_paths(text, culprits.as_slice())?;
            Ok(())
        }
    }
}

/// Writes the lines of a reply, each with its line feed.
pub fn reply_lines(alloc: Global, reply: &Reply) -> Result<String, AllocError>
    ensures { IfOk result (λ text. string_bytes text ≡ reply_text (reply_of reply.now)) }
{
    let mut text = String::new(alloc);
    match reply {
        Reply::Refused(refusal) => {
            let mut digits = Buffer::new();
            text.push_str("refused ")?;
            text.push_str(digits.format(refusal.number()))?;
        }
        Reply::Marked(mark) => push_mark(&mut text, mark)?,
        Reply::Shown(shown, mark) => {
            push_shown(&mut text, shown.as_str(), mark)?;
            return Ok(text);
        }
        Reply::Answered(lines) => {
            push_lines(&mut text, lines.as_slice())?;
            return Ok(text);
        }
        Reply::Seen(lines) => {
            push_seen(&mut text, lines.as_slice())?;
            return Ok(text);
        }
    }
    text.push_str("\n")?;
    Ok(text)
}

/// Writes each line with its line feed after the text.
fn push_lines(text: &mut String, lines: &[String]) -> Result<(), AllocError>
    ensures { IfOk result (λ _. string_bytes text.new
        ≡ string_bytes text.old ++ feed_all (map string_bytes lines.now)) }
{
    for line in lines {
        text.push_str(line.as_str())?;
        text.push_str("\n")?;
    }
    Ok(())
}

/// Writes each line of a window with its line feed after the text.
fn push_seen(text: &mut String, lines: &[Txt]) -> Result<(), AllocError>
    ensures { IfOk result (λ _. string_bytes text.new ≡ string_bytes text.old ++ feed_all lines.now) }
{
    for line in lines {
        text.push_str(line.as_str())?;
        text.push_str("\n")?;
    }
    Ok(())
}

/// Writes the shown text, which has a line or more, and then the mark after the text, each line with its line feed.
fn push_shown(text: &mut String, shown: &str, mark: &Mark) -> Result<(), AllocError>
    ensures { IfOk result (λ _. string_bytes text.new
        ≡ string_bytes text.old ++ feed_all (lines_in shown.now ++ mark_text (mark_of mark.now) ∷ [])) }
{
    push_line(text, shown)?;
    push_mark(text, mark)?;
    text.push_str("\n")?;
    Ok(())
}

/// Writes the line with its line feed after the text.
fn push_line(text: &mut String, line: &str) -> Result<(), AllocError>
    ensures { IfOk result (λ _. string_bytes text.new ≡ string_bytes text.old ++ feed line.now) }
{
    text.push_str(line)?;
    text.push_str("\n")?;
    Ok(())
}
