//! A session whose lines are read from the input one by one.
ghost use Rattle.std.specs.Prelude.{◌≡◌};
ghost use Rattle.psg_run.specs.Framed.{written_by};
ghost use Rattle.psg_run.specs.Live.{TalksBy, heard as heard_of};
ghost use Rattle.psg_run.specs.Playing.{AreOf};
ghost use Rattle.psg_run.specs.Worlds.{coming, seen};
ghost use Rattle.psg_session.specs.PlainState.{start};
ghost use Rattle.psg_session.specs.Sessions.{state_of};

use crate::framing::Framing;
use crate::limits::MOST_LINE_BYTES;
use crate::lines::kept;
use crate::play::play_some;
use crate::source::read_status;
use crate::status::Status;
use psg_session::Session;
use psg_terms::Steps;
use psg_world::{Files, Input, Sink};
use std::alloc::Global;
use std::sync::ledger::Ledger;

/// What the editor is given for a line of the input, if anything: an empty line gives nothing. A line that is too long
/// gives an empty one, which spells no command.
fn heard(piece: &[u8]) -> Option<&[u8]>
    ensures { AreOf (heard_of piece.now) result }
{
    if piece.len() > MOST_LINE_BYTES {
        return Some(&[]);
    }
    kept(piece)
}

/// Plays the lines of the input on the session, and returns how that ended. The reply to each line is put before the
/// next one is read, framed or not. After 2^64 - 1 lines it ends as where memory runs out.
pub fn talk<F: Files, I: Input, O: Sink, L: Ledger>(
    alloc: Global,
    session: &mut Session,
    framing: Framing,
    files: &mut F,
    input: &mut I,
    out: &mut O,
    steps: &mut Steps<L>,
) -> Status
    requires start { state_of session.old.editor ≡ start }
    ensures { TalksBy (written_by framing) session.old.language
        (seen (F.holds files.old) (F.faults files.old)
        (coming (I.lines input.old) (I.given input.old) (I.missed input.old))
        steps.old (O.written out.old) (O.faults out.old))
        (seen (F.holds files.new) (F.faults files.new)
        (coming (I.lines input.new) (I.given input.new) (I.missed input.new))
        steps.new (O.written out.new) (O.faults out.new)) result }
{
    for _ in 0..u64::MAX {
        match input.next_line(alloc, MOST_LINE_BYTES) {
            Ok(Some(piece)) => {
                let line = heard(piece.as_slice());
                if let Err(status) = play_some(alloc, session, framing, line, files, out, steps) {
                    return status;
                }
            }
            Ok(None) => return Status::Done,
            Err(stop) => return read_status(stop),
        }
    }
    Status::Memory
}
