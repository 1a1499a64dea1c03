//! A script played on a session in silence.
ghost use Rattle.std.specs.Prelude.{◌≡◌, [], ℕ, List, Option, IfOk, IfErr};
ghost use Rattle.psg_run.specs.Chain.{Runs};
ghost use Rattle.psg_run.specs.Editing.{Editor, IsSilent};
ghost use Rattle.psg_run.specs.Playing.{AreOf, BreaksAmong, BreaksIn, last_of, point};
ghost use Rattle.psg_run.specs.Scripts.{script_lines};
ghost use Rattle.psg_run.specs.Worlds.{Incoming, seen};
ghost use Rattle.psg_session.specs.PlainState.{start};
ghost use Rattle.psg_session.specs.Replies.{answered};
ghost use Rattle.psg_session.specs.Sessions.{state_of};

use crate::lines::{cut_line, kept};
use psg_session::{Reply, Session};
use psg_terms::Steps;
use psg_world::Files;
use std::alloc::{AllocError, Global};
use std::sync::ledger::Ledger;

/// Plays the line, if there is one, and returns the reply; where there is none, `last`. Nothing is put.
fn apply_some<F: Files, L: Ledger>(
    alloc: Global,
    session: &mut Session,
    line: Option<&[u8]>,
    last: Option<Reply>,
    files: &mut F,
    steps: &mut Steps<L>,
) -> Result<Option<Reply>, AllocError>
    ensures ok { IfOk result (λ next. (input : Incoming) (written : Option (List ℕ)) (count : ℕ) (lines : List (List ℕ))
        → AreOf lines line.entry → Runs Editor (IsSilent session.old.language)
        (point (state_of session.old.editor) (last_of last)
        (seen (F.holds files.old) (F.faults files.old) input steps.old written count)) lines []
        (point (state_of session.new.editor) (last_of next)
        (seen (F.holds files.new) (F.faults files.new) input steps.new written count))) }
    ensures err { IfErr result (λ _. (input : Incoming) (written : Option (List ℕ)) (count : ℕ) (lines : List (List ℕ))
        → AreOf lines line.entry → BreaksIn session.old.language lines (state_of session.old.editor)
        (seen (F.holds files.old) (F.faults files.old) input steps.old written count)
        (seen (F.holds files.new) (F.faults files.new) input steps.new written count)) }
    ensures language { session.new.language ≡ session.old.language }
{
    match line {
        Some(line) => {
            let reply = session.apply_line(alloc, line, files, steps)?;
            Ok(Some(reply))
        }
        None => Ok(last),
    }
}

/// Plays the lines of the script, and returns the reply to the last one; none where there is no line. Nothing is put.
/// It takes the time of the script and of its commands.
pub fn apply_all<F: Files, L: Ledger>(
    alloc: Global,
    session: &mut Session,
    script: &[u8],
    files: &mut F,
    steps: &mut Steps<L>,
) -> Result<Option<Reply>, AllocError>
    requires start { state_of session.old.editor ≡ start }
    ensures ok { IfOk result (λ last. (input : Incoming) (written : Option (List ℕ)) (count : ℕ)
        → Runs Editor (IsSilent session.old.language)
        (point start (answered []) (seen (F.holds files.old) (F.faults files.old) input steps.old written count))
        (script_lines script.now) []
        (point (state_of session.new.editor) (last_of last)
        (seen (F.holds files.new) (F.faults files.new) input steps.new written count))) }
    ensures err { IfErr result (λ _. (input : Incoming) (written : Option (List ℕ)) (count : ℕ)
        → BreaksAmong session.old.language (script_lines script.now)
        (seen (F.holds files.old) (F.faults files.old) input steps.old written count)
        (seen (F.holds files.new) (F.faults files.new) input steps.new written count)) }
    ensures language { session.new.language ≡ session.old.language }
{
    let mut last = None;
    let mut rest = script;
    while !rest.is_empty() {
        let cut = cut_line(rest);
        last = apply_some(alloc, session, kept(cut.line), last, files, steps)?;
        rest = cut.rest;
    }
    Ok(last)
}
