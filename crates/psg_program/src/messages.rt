//! The messages for texts that are no programs.
ghost use Rattle.std.specs.Prelude.{◌≡◌, ◌++◌, IfOk, OnOk, List, Some, ℕ, chars, map, slice_get, slice_range};
ghost use Rattle.std.specs.Prelude.{string_bytes};
ghost use Rattle.psg_grammar.specs.WellFormed.{fixed_words};
ghost use Rattle.psg_grammar.specs.declared.types.Definition.{Definition as Plain};
ghost use Rattle.psg_grammar.specs.declared.types.Kind.{Kind};
ghost use Rattle.psg_lexis.specs.Faults.{HasFault, OrMemory};
ghost use Rattle.psg_program.specs.Messages.{HasSpan, after_commas, end_of_last, enumerated, stop_byte as stop_byte_of};
ghost use Rattle.psg_program.specs.Messages.{stop_message as stop_message_of, unexpected as unexpected_of};
ghost use Rattle.psg_program.specs.Programs.{IsTextFault, IsToldAt};

use crate::fault::{ProgramFault, SyntaxError};
use crate::places::place_of;
use psg_lexis::{LexFault, Spanned};
use std::alloc::{AllocError, Global};

/// Returns the error with the message at the byte of the text.
fn syntax_error(
    alloc: Global,
    text: &str,
    byte: usize,
    message: &str,
) -> Result<SyntaxError, AllocError>
    ensures { IfOk result (λ e. IsToldAt text.now byte message.now (ProgramFault.Syntax e)) }
{
    let message = String::from_str(alloc, message)?;
    let place = place_of(text, byte);
    Ok(SyntaxError { place, message })
}

/// Returns the fault with the message at the byte of the text. It is `Memory` where there is no memory for the message.
pub(crate) fn told_at(alloc: Global, text: &str, byte: usize, message: &str) -> ProgramFault
    ensures { IsToldAt text.now byte message.now result }
{
    match syntax_error(alloc, text, byte, message) {
        Ok(error) => ProgramFault::Syntax(error),
        Err(_) => ProgramFault::Memory,
    }
}

/// Returns the fault of a text that has no tokens.
pub(crate) fn lexical_fault(alloc: Global, text: &str, fault: LexFault) -> ProgramFault
    ensures { (def : Plain) (kind : Kind) → OrMemory (HasFault (fixed_words def) (chars text.now) 0) fault
        → IsTextFault def kind text.now result }
{
    match fault {
        LexFault::BadChar(byte) => {
            told_at(alloc, text, byte, "no token begins with this character")
        }
        LexFault::BadRun(byte) => told_at(alloc, text, byte, "this is no token of the language"),
        LexFault::Unended(byte) => told_at(alloc, text, byte, "the text is not closed on its line"),
        LexFault::TooLarge(byte) => told_at(alloc, text, byte, "the token is too long"),
        LexFault::Memory => ProgramFault::Memory,
    }
}

/// Returns the end of the last token, or 0 where there is none.
fn last_end(tokens: &[Spanned]) -> usize
    ensures { result ≡ end_of_last 0 tokens.now }
{
    let mut end = 0;
    for token in tokens {
        end = token.end;
    }
    end
}

/// Returns the byte of the stop: where its token begins, or where the last token ends.
pub fn stop_byte(tokens: &[Spanned], stop: usize) -> usize
    ensures { result ≡ stop_byte_of tokens.now stop }
{
    match tokens.get(stop) {
        Some(token) => token.start,
        None => last_end(tokens),
    }
}

/// Returns the token as it is written in the text.
fn written<'t>(text: &'t str, token: &Spanned) -> &'t str
    requires { HasSpan text.now (Some token.now) }
    ensures { result.now ≡ slice_range text.now token.now.start token.now.end }
{
    match text.get(token.start..token.end) {
        Some(written) => written,
        None => unreachable!(),
    }
}

/// Writes what is at the stop.
fn unexpected(
    alloc: Global,
    text: &str,
    tokens: &[Spanned],
    stop: usize,
) -> Result<String, AllocError>
    requires { HasSpan text.now (slice_get tokens.now stop) }
    ensures { IfOk result (λ words. string_bytes words ≡ unexpected_of text.now (slice_get tokens.now stop)) }
{
    match tokens.get(stop) {
        Some(token) => {
            let own = written(text, token);
            format!(in alloc; "`{own}`")
        }
        None => String::from_str(alloc, "end of the text"),
    }
}

/// Adds the words, each after a comma and a space.
fn push_after_commas(line: &mut String, words: &[String]) -> Result<(), AllocError>
    ensures { OnOk result (string_bytes line.new ≡ string_bytes line.old ++ after_commas (map string_bytes words.now)) }
{
    for word in words {
        line.push_str(", ")?;
        line.push_str(word.as_str())?;
    }
    Ok(())
}

/// Adds the words with commas and spaces between them.
fn push_enumerated(line: &mut String, words: &[String]) -> Result<(), AllocError>
    ensures { OnOk result (string_bytes line.new ≡ string_bytes line.old ++ enumerated (map string_bytes words.now)) }
{
    let Some((first, rest)) = words.split_first() else {
        return Ok(());
    };
    line.push_str(first.as_str())?;
    push_after_commas(line, rest)?;
    Ok(())
}

/// Writes the message for the stop of the text's tokens, where these words may be there. A stop after the last token is
/// the end of the text. `words` are to be at least one: without them the message ends after `expected `.
pub fn stop_message(
    alloc: Global,
    text: &str,
    tokens: &[Spanned],
    stop: usize,
    words: &[String],
) -> Result<String, AllocError>
    requires { HasSpan text.now (slice_get tokens.now stop) }
    ensures { IfOk result (λ message. string_bytes message
        ≡ stop_message_of text.now tokens.now stop (map string_bytes words.now)) }
{
    let there = unexpected(alloc, text, tokens, stop)?;
    let mut message = format!(in alloc; "unexpected {}, expected ", there.as_str())?;
    push_enumerated(&mut message, words)?;
    Ok(message)
}
