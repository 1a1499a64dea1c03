//! A script whose lines are for windows, played on a session.
ghost use Rattle.std.specs.Prelude.{◌≡◌, ◌<◌, ◌≤◌, ◌↔◌, ◌∷◌, ◌++◌, ℕ, List, Some, None, IsTrue};
ghost use Rattle.std.specs.Prelude.{MatchOption, IfOk, IfErr, OnOk};
ghost use Rattle.std.specs.Io.KnownBytes.{append_known};
ghost use Rattle.psg_run.specs.Playing.{AreOf};
ghost use Rattle.psg_run.specs.Scripts.{script_lines};
ghost use Rattle.psg_run.specs.Turns.{EndsAmong, EndsAt, PutsLine, PutsSome};
ghost use Rattle.psg_run.specs.Windowed.{BreaksFor, IsCommandFor, IsPlayedFor, PlaysWindows, SpellsForNone, Windowed};
ghost use Rattle.psg_run.specs.Windowed.{cursors_after, label_of, text_for, windowed};
ghost use Rattle.psg_run.specs.Worlds.{Incoming, PutsFront, seen};
ghost use Rattle.psg_script.specs.Forms.{Spells};
ghost use Rattle.psg_script.specs.declared.command.Command.{Command as Plain};
ghost use Rattle.psg_session.specs.Applied.{IsRefusal};
ghost use Rattle.psg_session.specs.Exchanges.{Outside};
ghost use Rattle.psg_session.specs.PlainState.{start};
ghost use Rattle.psg_session.specs.Replies.{refused};
ghost use Rattle.psg_session.specs.Sessions.{state_of};
ghost use Rattle.psg_session.specs.Views.{reply_of};
ghost use Rattle.psg_session.specs.declared.refusal.Refusal.TheVariants.{NoCommand};
ghost use Rattle.psg_windows.specs.Moving.{windows as window_count};
ghost use Rattle.psg_windows.specs.Resolving.{IsResolved};

use crate::lines::{cut_line, kept};
use crate::source::write_status;
use crate::status::Status;
use crate::window_texts::window_text;
use psg_script::{Command, CommandFault, read_command};
use psg_session::{Refusal, Reply, Session, reply_lines};
use psg_terms::{Steps, uncountable};
use psg_tree::Path;
use psg_windows::Cursors;
use psg_world::{Files, Sink, put_all};
use std::alloc::{AllocError, Global};
use std::sync::ledger::Ledger;

/// Returns the window that the line is for, and what follows the digit and the space. `None` if the line does not
/// begin with a digit from `0` to `7` and a space.
fn for_window(line: &[u8]) -> Option<(u32, &[u8])>
    ensures { MatchOption result ((w : ℕ) (rest : List ℕ) → w < window_count → line.now ≡ label_of w ++ rest → ⊥)
        (λ found. (found.0 < window_count) × (line.now ≡ label_of found.0 ++ found.1.now)) }
{
    let Some((digit, behind)) = line.split_first() else {
        return None;
    };
    let Some((space, rest)) = behind.split_first() else {
        return None;
    };
    let digit = *digit;
    let space = *space;
    if space != 32 {
        return None;
    }
    if digit < 48 {
        return None;
    }
    let window = digit - 48;
    if 8 <= window {
        return None;
    }
    Some((u32::from(window), rest))
}

/// Returns the command that the line spells, if it spells one. Fails only when out of memory.
fn command_of(alloc: Global, line: &[u8]) -> Result<Option<Command>, AllocError>
    ensures { IfOk result (λ found. MatchOption found ((command : Plain) → Spells line.now command → ⊥)
        (λ command. Spells line.now command)) }
{
    match read_command(alloc, line) {
        Ok(command) => Ok(Some(command)),
        Err(CommandFault::Memory) => Err(AllocError),
        Err(_) => Ok(None),
    }
}

/// Returns the window that the line is for, and its command with the window's cursor in place of `.`. `None` if the
/// line spells no command for a window. Fails only when out of memory.
fn command_for(
    alloc: Global,
    cursors: &Cursors,
    line: &[u8],
) -> Result<Option<(u32, Command)>, AllocError>
    ensures { IfOk result (λ found. MatchOption found (SpellsForNone line.now)
        (λ it. IsCommandFor cursors.now line.now it.0 it.1)) }
{
    let Some((window, rest)) = for_window(line) else {
        return Ok(None);
    };
    let found = command_of(alloc, rest)?;
    let command = match found {
        Some(command) => command,
        None => return Ok(None),
    };
    let resolved = cursors.resolved(alloc, window, &command);
    // here and not at the end, where the proof would take each command apart on each way out
    drop(command);
    let resolved = resolved?;
    Ok(Some((window, resolved)))
}

/// Puts the text. Otherwise it returns the status with which the run ends: a write fault, or out of memory. A front of
/// the text may be put then.
fn put_text<O: Sink>(alloc: Global, out: &mut O, text: &[u8]) -> Result<(), Status>
    ensures ok { OnOk result (O.written out.new ≡ append_known (O.written out.old) text.now) }
    ensures err { IfErr result (λ status. (files : Outside) (input : Incoming) (ticks : ℕ) → PutsFront text.now
        (seen files.held files.entries input ticks (O.written out.old) (O.faults out.old))
        (seen files.held files.entries input ticks (O.written out.new) (O.faults out.new)) status) }
    ensures never_falls { O.faults out.old ≤ O.faults out.new }
{
    match put_all(alloc, out, text) {
        Ok(()) => Ok(()),
        Err(stop) => Err(write_status(stop)),
    }
}

/// Puts the refusal of a line that spells no command for a window, without a digit. Otherwise it returns a status as
/// `put_text` does.
fn put_refusal<O: Sink>(alloc: Global, out: &mut O) -> Result<(), Status>
    ensures ok { OnOk result (O.written out.new
        ≡ append_known (O.written out.old) (text_for None (refused NoCommand))) }
    ensures err { IfErr result (λ status. (files : Outside) (input : Incoming) (ticks : ℕ)
        → PutsFront (text_for None (refused NoCommand))
        (seen files.held files.entries input ticks (O.written out.old) (O.faults out.old))
        (seen files.held files.entries input ticks (O.written out.new) (O.faults out.new)) status) }
    ensures never_falls { O.faults out.old ≤ O.faults out.new }
{
    let Ok(text) = reply_lines(alloc, &Reply::Refused(Refusal::NoCommand)) else {
        return Err(Status::Memory);
    };
    put_text(alloc, out, text.as_bytes())
}

/// Says whether the reply is a refusal.
fn is_refusal(reply: &Reply) -> bool
    ensures { IsTrue result ↔ IsRefusal (reply_of reply.now) }
{
    match reply {
        Reply::Refused(_) => true,
        Reply::Marked(_) => false,
        Reply::Shown(_, _) => false,
        Reply::Answered(_) => false,
        Reply::Seen(_) => false,
    }
}

/// Returns the cursors after the resolved command of the window, if the editor's is `own` then. A refusal leaves them
/// as they are. It fails only when out of memory; a step of a cursor that is the last number of 32 bits is one case of
/// that.
fn moved_by(
    alloc: Global,
    cursors: Cursors,
    window: u32,
    command: &Command,
    reply: &Reply,
    own: &Path,
) -> Result<Cursors, AllocError>
    requires window { window < window_count }
    requires resolved { IsResolved command.now }
    ensures { IfOk result (λ next. next ≡ cursors_after window command.now own.now (reply_of reply.now) cursors) }
{
    let refused = is_refusal(reply);
    if refused {
        return Ok(cursors);
    }
    let has_room = cursors.has_room();
    if !has_room {
        return Err(uncountable(4_294_967_295));
    }
    cursors.moved(alloc, window, command, own)
}

/// Moves the cursors by the resolved command of the window, and puts the reply to it for the window. Otherwise it
/// returns a status as `put_text` does.
fn put_reply<O: Sink>(
    alloc: Global,
    cursors: Cursors,
    window: u32,
    command: &Command,
    reply: Reply,
    own: &Path,
    out: &mut O,
) -> Result<Cursors, Status>
    requires window { window < window_count }
    requires resolved { IsResolved command.now }
    ensures moved { IfOk result (λ next. next ≡ cursors_after window command.now own.now (reply_of reply) cursors) }
    ensures put { OnOk result (O.written out.new
        ≡ append_known (O.written out.old) (text_for (Some window) (reply_of reply))) }
    ensures err { IfErr result (λ status. (files : Outside) (input : Incoming) (ticks : ℕ)
        → PutsFront (text_for (Some window) (reply_of reply))
        (seen files.held files.entries input ticks (O.written out.old) (O.faults out.old))
        (seen files.held files.entries input ticks (O.written out.new) (O.faults out.new)) status) }
    ensures never_falls { O.faults out.old ≤ O.faults out.new }
{
    let Ok(next) = moved_by(alloc, cursors, window, command, &reply, own) else {
        return Err(Status::Memory);
    };
    let Ok(text) = window_text(alloc, window, reply) else {
        return Err(Status::Memory);
    };
    match put_text(alloc, out, text.as_slice()) {
        Ok(()) => Ok(next),
        Err(status) => Err(status),
    }
}

/// Does the resolved command of the window, moves the cursors, and puts the reply. Otherwise it returns the status
/// with which the run ends: a write fault, or out of memory. A front of the reply may be put then.
fn play_command<F: Files, O: Sink, L: Ledger>(
    alloc: Global,
    session: &mut Session,
    cursors: Cursors,
    window: u32,
    command: &Command,
    files: &mut F,
    out: &mut O,
    steps: &mut Steps<L>,
) -> Result<Cursors, Status>
    requires window { window < window_count }
    requires resolved { IsResolved command.now }
    ensures ok { IfOk result (λ next. (input : Incoming) (line : List ℕ) → IsCommandFor cursors line window command.now
        → PutsLine Windowed (IsPlayedFor session.old.language) line
        (windowed (state_of session.old.editor) cursors) (windowed (state_of session.new.editor) next)
        (seen (F.holds files.old) (F.faults files.old) input steps.old (O.written out.old) (O.faults out.old))
        (seen (F.holds files.new) (F.faults files.new) input steps.new (O.written out.new) (O.faults out.new))) }
    ensures err { IfErr result (λ status. (input : Incoming) (line : List ℕ) (rest : List (List ℕ))
        → IsCommandFor cursors line window command.now
        → EndsAt Windowed (IsPlayedFor session.old.language) (BreaksFor session.old.language)
        (windowed (state_of session.old.editor) cursors) (line ∷ rest)
        (seen (F.holds files.old) (F.faults files.old) input steps.old (O.written out.old) (O.faults out.old))
        (seen (F.holds files.new) (F.faults files.new) input steps.new (O.written out.new) (O.faults out.new)) status) }
    ensures language { session.new.language ≡ session.old.language }
    ensures never_falls { O.faults out.old ≤ O.faults out.new }
{
    let reply = match session.apply(alloc, command, files, steps) {
        Ok(reply) => reply,
        Err(_) => return Err(Status::Memory),
    };
    put_reply(
        alloc,
        cursors,
        window,
        command,
        reply,
        session.cursor(),
        out,
    )
}

/// Plays the line, and puts the reply. Otherwise it returns a status as `play_command` does.
fn play_line<F: Files, O: Sink, L: Ledger>(
    alloc: Global,
    session: &mut Session,
    cursors: Cursors,
    line: &[u8],
    files: &mut F,
    out: &mut O,
    steps: &mut Steps<L>,
) -> Result<Cursors, Status>
    ensures ok { IfOk result (λ next. (input : Incoming)
        → PutsLine Windowed (IsPlayedFor session.old.language) line.now
        (windowed (state_of session.old.editor) cursors) (windowed (state_of session.new.editor) next)
        (seen (F.holds files.old) (F.faults files.old) input steps.old (O.written out.old) (O.faults out.old))
        (seen (F.holds files.new) (F.faults files.new) input steps.new (O.written out.new) (O.faults out.new))) }
    ensures err { IfErr result (λ status. (input : Incoming) (rest : List (List ℕ))
        → EndsAt Windowed (IsPlayedFor session.old.language) (BreaksFor session.old.language)
        (windowed (state_of session.old.editor) cursors) (line.now ∷ rest)
        (seen (F.holds files.old) (F.faults files.old) input steps.old (O.written out.old) (O.faults out.old))
        (seen (F.holds files.new) (F.faults files.new) input steps.new (O.written out.new) (O.faults out.new)) status) }
    ensures language { session.new.language ≡ session.old.language }
    ensures never_falls { O.faults out.old ≤ O.faults out.new }
{
    let found = match command_for(alloc, &cursors, line) {
        Ok(found) => found,
        Err(_) => return Err(Status::Memory),
    };
    match found {
        Some((window, command)) => {
            play_command(alloc, session, cursors, window, &command, files, out, steps)
        }
        None => match put_refusal(alloc, out) {
            Ok(()) => Ok(cursors),
            Err(status) => Err(status),
        },
    }
}

/// Plays the line, if there is one, and puts the reply. Otherwise it returns a status as `play_line` does.
fn play_some<F: Files, O: Sink, L: Ledger>(
    alloc: Global,
    session: &mut Session,
    cursors: Cursors,
    line: Option<&[u8]>,
    files: &mut F,
    out: &mut O,
    steps: &mut Steps<L>,
) -> Result<Cursors, Status>
    ensures ok { IfOk result (λ next. (input : Incoming) (lines : List (List ℕ)) → AreOf lines line.entry
        → PutsSome Windowed (IsPlayedFor session.old.language) lines
        (windowed (state_of session.old.editor) cursors) (windowed (state_of session.new.editor) next)
        (seen (F.holds files.old) (F.faults files.old) input steps.old (O.written out.old) (O.faults out.old))
        (seen (F.holds files.new) (F.faults files.new) input steps.new (O.written out.new) (O.faults out.new))) }
    ensures err { IfErr result (λ status. (input : Incoming) (lines : List (List ℕ)) → AreOf lines line.entry
        → EndsAmong Windowed (IsPlayedFor session.old.language) (BreaksFor session.old.language) lines
        (windowed (state_of session.old.editor) cursors)
        (seen (F.holds files.old) (F.faults files.old) input steps.old (O.written out.old) (O.faults out.old))
        (seen (F.holds files.new) (F.faults files.new) input steps.new (O.written out.new) (O.faults out.new)) status) }
    ensures language { session.new.language ≡ session.old.language }
    ensures never_falls { O.faults out.old ≤ O.faults out.new }
{
    match line {
        Some(line) => play_line(alloc, session, cursors, line, files, out, steps),
        None => Ok(cursors),
    }
}

/// Puts the replies to the lines of the script, each for its window, those of each line before the next one is looked
/// at, and returns how that ended. It takes the time of the script and of its commands.
pub fn play_windows<F: Files, O: Sink, L: Ledger>(
    alloc: Global,
    session: &mut Session,
    script: &[u8],
    files: &mut F,
    out: &mut O,
    steps: &mut Steps<L>,
) -> Status
    requires start { state_of session.old.editor ≡ start }
    ensures { (input : Incoming) → PlaysWindows session.old.language (script_lines script.now)
        (seen (F.holds files.old) (F.faults files.old) input steps.old (O.written out.old) (O.faults out.old))
        (seen (F.holds files.new) (F.faults files.new) input steps.new (O.written out.new) (O.faults out.new))
        result }
{
    let Ok(mut cursors) = Cursors::new(alloc) else {
        return Status::Memory;
    };
    let mut rest = script;
    while !rest.is_empty() {
        let cut = cut_line(rest);
        cursors = match play_some(alloc, session, cursors, kept(cut.line), files, out, steps) {
            Ok(next) => next,
            Err(status) => return status,
        };
        rest = cut.rest;
    }
    Status::Done
}
