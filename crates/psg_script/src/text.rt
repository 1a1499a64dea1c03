//! From a command to a line.
ghost use Rattle.std.specs.Prelude.{◌≡◌, ◌++◌, ◌∷◌, Some, IfOk, OnOk, string_bytes, decimal};
ghost use Rattle.psg_script.specs.Forms.{Spells, IsCommand, number_words, steps_text, place_text, tail_of};
ghost use Rattle.psg_script.specs.Keywords.{fields_of};
ghost use Rattle.psg_script.specs.Lines.{with_words, with_tail};

use crate::command::{Command, Where};
use crate::keyword::keyword_of;
use std::alloc::{AllocError, Global};
use std::fmt::Write;

/// Puts a space and a word at the end of a line.
fn push_word(line: &mut String, word: &str) -> Result<(), AllocError>
    ensures { OnOk result (string_bytes line.new ≡ string_bytes line.old ++ 32 ∷ word.now) }
{
    line.push(' ')?;
    line.push_str(word)
}

/// Puts a space and a number at the end of a line.
fn push_number(line: &mut String, number: u32) -> Result<(), AllocError>
    ensures { OnOk result (string_bytes line.new ≡ string_bytes line.old ++ 32 ∷ decimal number) }
{
    write!(line, " {number}")
}

/// Puts a `/` and a number for each step at the end of a line.
fn push_steps(line: &mut String, steps: &[u32]) -> Result<(), AllocError>
    ensures { OnOk result (string_bytes line.new ≡ string_bytes line.old ++ steps_text steps.now) }
{
    for step in steps {
        write!(line, "/{step}")?;
    }
    Ok(())
}

/// Puts a space and the word of a place at the end of a line.
fn push_place(line: &mut String, place: &Where) -> Result<(), AllocError>
    ensures { OnOk result (string_bytes line.new ≡ string_bytes line.old ++ 32 ∷ place_text place.now) }
{
    match place {
        Where::Cursor => push_word(line, "."),
        Where::At(path) => {
            let steps = path.steps();
            if steps.is_empty() {
                return push_word(line, "/");
            }
            line.push(' ')?;
            push_steps(line, steps)
        }
    }
}

/// Puts a space and a number at the end of a line, where there is one.
fn push_number_if_any(line: &mut String, number: Option<u32>) -> Result<(), AllocError>
    ensures { OnOk result (string_bytes line.new ≡ with_words (string_bytes line.old) (number_words number)) }
{
    match number {
        Some(number) => push_number(line, number),
        None => Ok(()),
    }
}

/// Puts the text at a line's end, with a space before it where it has bytes.
fn push_tail(line: &mut String, text: &str) -> Result<(), AllocError>
    ensures { OnOk result (string_bytes line.new ≡ with_tail (string_bytes line.old) (Some text.now)) }
{
    if text.is_empty() {
        Ok(())
    } else {
        push_word(line, text)
    }
}

/// Puts the words of a command after its first one, and then its text, where it has one.
fn push_parts(line: &mut String, command: &Command) -> Result<(), AllocError>
    ensures { OnOk result (string_bytes line.new
        ≡ with_tail (with_words (string_bytes line.old) (fields_of command.now)) (tail_of command.now)) }
{
    match command {
        Command::Show | Command::Free | Command::Undo | Command::Redo => Ok(()),
        Command::Goto { at }
        | Command::Cut { at }
        | Command::Close { at }
        | Command::Reopen { at }
        | Command::Relation { at }
        | Command::Own { at } => push_place(line, at),
        Command::New { phylum } => push_word(line, phylum.as_str()),
        Command::Fetch { file } => push_word(line, file.as_str()),
        Command::Refine { at, op, args } => {
            push_place(line, at)?;
            push_word(line, op.as_str())?;
            push_tail(line, args.as_str())
        }
        Command::Insert {
            at,
            place,
            op,
            args,
        } => {
            push_place(line, at)?;
            push_number(line, *place)?;
            push_word(line, op.as_str())?;
            push_tail(line, args.as_str())
        }
        Command::Remove { at, place } => {
            push_place(line, at)?;
            push_number(line, *place)
        }
        Command::Over { at, text } => {
            push_place(line, at)?;
            push_tail(line, text.as_str())
        }
        Command::Range { start, end, text } => {
            push_number(line, *start)?;
            push_number(line, *end)?;
            push_tail(line, text.as_str())
        }
        Command::Screen {
            top,
            left,
            rows,
            cols,
        } => {
            push_number(line, *top)?;
            push_number(line, *left)?;
            push_number(line, *rows)?;
            push_number(line, *cols)
        }
        Command::Menu { at, place } => {
            push_place(line, at)?;
            push_number_if_any(line, *place)
        }
        Command::Names { at, place, op } => {
            push_place(line, at)?;
            push_number_if_any(line, *place)?;
            push_word(line, op.as_str())
        }
        Command::Paste { at, place, name } => {
            push_place(line, at)?;
            push_number_if_any(line, *place)?;
            push_word(line, name.as_str())
        }
        Command::Save { name, at } => {
            push_word(line, name.as_str())?;
            push_place(line, at)
        }
        Command::Keep { name, file } => {
            push_word(line, name.as_str())?;
            push_word(line, file.as_str())
        }
    }
}

/// Returns the line of a command, with no more spaces than it needs: one before each word but the first, and one before
/// the text at its end where that has bytes. `read_command` gives the command back.
pub fn command_text(alloc: Global, command: &Command) -> Result<String, AllocError>
    requires { IsCommand command.now }
    ensures { IfOk result (λ line. Spells (string_bytes line) command.now) }
{
    let mut line = String::from_str(alloc, keyword_of(command).text())?;
    push_parts(&mut line, command)?;
    Ok(line)
}
