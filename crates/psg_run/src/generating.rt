//! The script that is made for a number, played on a new session, and what is said of the session then.
ghost use Rattle.std.specs.Prelude.{◌≡◌, ◌≤◌, ℕ, List, IfOk, MatchOption, string_bytes};
ghost use Rattle.psg_grammar.specs.Legal.{IsCompletable};
ghost use Rattle.psg_grammar.specs.Marks.{good};
ghost use Rattle.psg_langs.specs.declared.named.TheConstants.{MINI as MINI_TEXT};
ghost use Rattle.psg_run.specs.Generated.{FiveLines, Generates, five_lines as five_lines_of, names_in};
ghost use Rattle.psg_run.specs.Generated.{operators_in};
ghost use Rattle.psg_run.specs.Playing.{last_of};
ghost use Rattle.psg_run.specs.Reading.{Defines};
ghost use Rattle.psg_run.specs.Worlds.{Incoming, seen};
ghost use Rattle.psg_session.specs.Replies.{feed_all};
ghost use Rattle.psg_session.specs.Sessions.{state_of};
ghost use Rattle.psg_session.specs.Views.{mark_of};

use crate::silent::apply_all;
use crate::source::{language_of, write_status};
use crate::status::Status;
use psg_langs::MINI;
use psg_script::make_script;
use psg_session::{Extent, Mark, Reply, Session, reply_lines};
use psg_specimen::Language;
use psg_terms::Steps;
use psg_world::{Files, Sink, put_all};
use std::alloc::{AllocError, Global};
use std::sync::ledger::Ledger;

/// Counts the names in the text of lines: each has one space or the line feed after it. The line `none` has none.
fn names_in(text: &str) -> usize
    ensures { result ≡ names_in text.now }
{
    if text == "none\n" {
        return 0;
    }
    let bytes = text.as_bytes();
    bytes
        .iter()
        .filter(|byte| **byte == b' ' || **byte == b'\n')
        .count()
}

/// Counts the operators that a menu has, by the reply to the last line; none where there was no line.
fn operators_in(alloc: Global, last: &Option<Reply>) -> Result<usize, AllocError>
    ensures { IfOk result (λ count. count ≡ operators_in (last_of last.now)) }
{
    match last {
        None | Some(Reply::Refused(_)) => Ok(0),
        Some(reply) => {
            let text = reply_lines(alloc, reply)?;
            Ok(names_in(text.as_str()))
        }
    }
}

/// Writes the five lines of these numbers and this mark, each with its line feed.
fn five_lines(
    alloc: Global,
    nodes: u64,
    bytes: usize,
    weight: u64,
    menu: usize,
    mark: Mark,
) -> Result<String, AllocError>
    ensures { IfOk result (λ text. string_bytes text
        ≡ feed_all (five_lines_of nodes bytes weight menu (mark_of mark))) }
{
    let mut text = format!(in alloc;
        "nodes {nodes}\nbytes {bytes}\nweight {weight}\nmenu {menu}\nmark "
    )?;
    let marked = reply_lines(alloc, &Reply::Marked(mark))?;
    text.push_str(marked.as_str())?;
    Ok(text)
}

/// Writes the five lines of what was found in a session, with the number of operators in the last reply. Where nothing
/// is opened all numbers are 0.
fn extent_lines(
    alloc: Global,
    found: Option<Extent>,
    operators: usize,
) -> Result<String, AllocError>
    ensures { IfOk result (λ text. MatchOption found (string_bytes text ≡ feed_all (five_lines_of 0 0 0 0 good))
        (λ e. string_bytes text ≡ feed_all (five_lines_of e.nodes e.bytes e.weight operators (mark_of e.mark)))) }
{
    match found {
        Some(extent) => five_lines(
            alloc,
            extent.nodes,
            extent.bytes,
            extent.weight,
            operators,
            extent.mark,
        ),
        None => five_lines(alloc, 0, 0, 0, 0, Mark::Good),
    }
}

/// Writes the five lines of the session, with the reply to the last line.
fn summary(alloc: Global, session: &Session, last: &Option<Reply>) -> Result<String, AllocError>
    ensures { IfOk result (λ text. (lines : List (List ℕ))
        × FiveLines session.now.language (IsCompletable session.now.language)
        (state_of session.now.editor).opened (operators_in (last_of last.now)) lines
        × (string_bytes text ≡ feed_all lines)) }
{
    let operators = operators_in(alloc, last)?;
    let found = session.extent(alloc)?;
    let text = extent_lines(alloc, found, operators)?;
    Ok(text)
}

/// Plays the script that is made for the number on the language, puts the five lines of the session then, and returns
/// how that ended.
fn tell<F: Files, O: Sink, L: Ledger>(
    alloc: Global,
    language: Language,
    number: u32,
    files: &mut F,
    out: &mut O,
    steps: &mut Steps<L>,
) -> Status
    requires low { 1 ≤ number }
    requires high { number ≤ 1000 }
    ensures { (input : Incoming) → Generates language number
        (seen (F.holds files.old) (F.faults files.old) input steps.old (O.written out.old) (O.faults out.old))
        (seen (F.holds files.new) (F.faults files.new) input steps.new (O.written out.new) (O.faults out.new))
        result }
{
    let Ok(script) = make_script(alloc, number) else {
        return Status::Memory;
    };
    let Ok(mut session) = Session::new(alloc, language) else {
        return Status::Memory;
    };
    let last = match apply_all(alloc, &mut session, script.as_slice(), files, steps) {
        Ok(last) => last,
        Err(_) => return Status::Memory,
    };
    let Ok(text) = summary(alloc, &session, &last) else {
        return Status::Memory;
    };
    match put_all(alloc, out, text.as_bytes()) {
        Ok(()) => Status::Done,
        Err(stop) => write_status(stop),
    }
}

/// Plays the script that is made for the number on the language MINI. Then it puts five lines: how many nodes the
/// opened program has, how many bytes its text, how much weight its relations, how many operators the last menu, and
/// its mark.
pub fn generate<F: Files, O: Sink, L: Ledger>(
    alloc: Global,
    number: u32,
    files: &mut F,
    out: &mut O,
    steps: &mut Steps<L>,
) -> Status
    requires low { 1 ≤ number }
    requires high { number ≤ 1000 }
    ensures { (input : Incoming) → Defines MINI_TEXT.now (λ def. Generates def number)
        (seen (F.holds files.old) (F.faults files.old) input steps.old (O.written out.old) (O.faults out.old))
        (seen (F.holds files.new) (F.faults files.new) input steps.new (O.written out.new) (O.faults out.new))
        result }
{
    let language = match language_of(alloc, MINI.as_bytes(), out) {
        Ok(language) => language,
        Err(status) => return status,
    };
    tell(alloc, language, number, files, out, steps)
}
