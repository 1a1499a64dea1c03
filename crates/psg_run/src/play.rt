//! A script played on a session.
ghost use Rattle.std.specs.Prelude.{◌≡◌, ◌≤◌, ◌∷◌, [], ℕ, List, OnOk, IfErr};
ghost use Rattle.psg_run.specs.Editing.{Edits};
ghost use Rattle.psg_run.specs.Framed.{written_by};
ghost use Rattle.psg_run.specs.Playing.{AreOf, FinishesAt, FinishesIn, PutsLines, PutsReply};
ghost use Rattle.psg_run.specs.Scripts.{script_lines};
ghost use Rattle.psg_run.specs.Worlds.{Incoming, seen};
ghost use Rattle.psg_session.specs.PlainState.{start};
ghost use Rattle.psg_session.specs.Replies.{Reply as PlainReply};
ghost use Rattle.psg_session.specs.Sessions.{state_of};

use crate::framing::{Framing, written};
use crate::lines::{cut_line, kept};
use crate::source::write_status;
use crate::status::Status;
use psg_session::Session;
use psg_terms::Steps;
use psg_world::{Files, Sink, put_all};
use std::alloc::Global;
use std::sync::ledger::Ledger;

/// Plays a line on the session, and puts the reply, framed or not. Otherwise it returns the status with which the run
/// ends: a write fault, or out of memory. A front of the reply may be put then.
fn play_line<F: Files, O: Sink, L: Ledger>(
    alloc: Global,
    session: &mut Session,
    framing: Framing,
    line: &[u8],
    files: &mut F,
    out: &mut O,
    steps: &mut Steps<L>,
) -> Result<(), Status>
    ensures ok { OnOk result ((input : Incoming) (before : PlainReply)
        → PutsReply (written_by framing) session.old.language line.now
        (state_of session.old.editor) (state_of session.new.editor) before
        (seen (F.holds files.old) (F.faults files.old) input steps.old (O.written out.old) (O.faults out.old))
        (seen (F.holds files.new) (F.faults files.new) input steps.new (O.written out.new) (O.faults out.new))) }
    ensures err { IfErr result (λ status. (input : Incoming) (before : PlainReply) (rest : List (List ℕ))
        → FinishesAt (written_by framing) session.old.language (state_of session.old.editor) before (line.now ∷ rest)
        (seen (F.holds files.old) (F.faults files.old) input steps.old (O.written out.old) (O.faults out.old))
        (seen (F.holds files.new) (F.faults files.new) input steps.new (O.written out.new) (O.faults out.new)) status) }
    ensures language { session.new.language ≡ session.old.language }
    ensures never_falls { O.faults out.old ≤ O.faults out.new }
{
    let reply = match session.apply_line(alloc, line, files, steps) {
        Ok(reply) => reply,
        Err(_) => return Err(Status::Memory),
    };
    let Ok(text) = written(alloc, framing, &reply) else {
        return Err(Status::Memory);
    };
    match put_all(alloc, out, text.as_bytes()) {
        Ok(()) => Ok(()),
        Err(stop) => Err(write_status(stop)),
    }
}

/// Plays the line, if there is one, and puts the reply. Otherwise it returns the status with which the run ends, as
/// `play_line` does.
pub fn play_some<F: Files, O: Sink, L: Ledger>(
    alloc: Global,
    session: &mut Session,
    framing: Framing,
    line: Option<&[u8]>,
    files: &mut F,
    out: &mut O,
    steps: &mut Steps<L>,
) -> Result<(), Status>
    ensures ok { OnOk result ((input : Incoming) (before : PlainReply) (lines : List (List ℕ)) → AreOf lines line.entry
        → PutsLines (written_by framing) session.old.language lines (state_of session.old.editor)
        (state_of session.new.editor) before
        (seen (F.holds files.old) (F.faults files.old) input steps.old (O.written out.old) (O.faults out.old))
        (seen (F.holds files.new) (F.faults files.new) input steps.new (O.written out.new) (O.faults out.new))) }
    ensures err { IfErr result (λ status. (input : Incoming) (before : PlainReply) (lines : List (List ℕ))
        → AreOf lines line.entry
        → FinishesIn (written_by framing) session.old.language lines (state_of session.old.editor) before
        (seen (F.holds files.old) (F.faults files.old) input steps.old (O.written out.old) (O.faults out.old))
        (seen (F.holds files.new) (F.faults files.new) input steps.new (O.written out.new) (O.faults out.new)) status) }
    ensures language { session.new.language ≡ session.old.language }
    ensures never_falls { O.faults out.old ≤ O.faults out.new }
{
    match line {
        Some(line) => play_line(alloc, session, framing, line, files, out, steps),
        None => Ok(()),
    }
}

/// Puts the replies to the lines of the script, those of each line before the next one is looked at, and returns how
/// that ended. It takes the time of the script and of its commands.
pub fn play<F: Files, O: Sink, L: Ledger>(
    alloc: Global,
    session: &mut Session,
    script: &[u8],
    files: &mut F,
    out: &mut O,
    steps: &mut Steps<L>,
) -> Status
    requires start { state_of session.old.editor ≡ start }
    ensures { (input : Incoming) → Edits session.old.language (script_lines script.now)
        (seen (F.holds files.old) (F.faults files.old) input steps.old (O.written out.old) (O.faults out.old))
        (seen (F.holds files.new) (F.faults files.new) input steps.new (O.written out.new) (O.faults out.new))
        result }
{
    let mut rest = script;
    while !rest.is_empty() {
        let cut = cut_line(rest);
        let line = kept(cut.line);
        if let Err(status) = play_some(alloc, session, Framing::Plain, line, files, out, steps) {
            return status;
        }
        rest = cut.rest;
    }
    Status::Done
}
