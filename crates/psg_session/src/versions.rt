//! Steps to the versions of the opened fragment before and after the one that is opened.
ghost use Rattle.std.specs.Prelude.{IfOk};
ghost use Rattle.psg_script.specs.declared.command.Command.TheVariants as commands;
ghost use Rattle.psg_session.specs.Outcomes.{earlier_in, later_in, HasStepped, IfFound, IsOutcome};
ghost use Rattle.psg_session.specs.PlainState.{not_asked};
ghost use Rattle.psg_session.specs.Sessions.{IsEditor};

use crate::editor::{Editor, OpenedTree, Outcome};
use crate::noting::note_mark;
use crate::refusal::Refusal;
use crate::stop::Stop;
use psg_history::Undone;
use psg_specimen::LanguageParts;
use psg_tree::Path;
use std::alloc::{AllocError, Global};

impl Editor {
    /// Goes back to the nearest earlier version; where there is none the editor stays. It takes no memory.
    pub fn go_back(&mut self, cursor: Path)
        ensures { HasStepped earlier_in later_in self.old self.new cursor }
    {
        let Some(held) = self.opened.take() else {
            return;
        };
        let kind = held.kind;
        match self.history.undo(held.note) {
            Undone::Moved(note) => {
                self.opened = Some(OpenedTree { kind, note });
                self.cursor = cursor;
            }
            Undone::Nothing(note) => self.opened = Some(OpenedTree { kind, note }),
        }
    }

    /// Goes forward to the nearest later version; where there is none the editor stays. It takes no memory.
    pub fn go_forward(&mut self, cursor: Path)
        ensures { HasStepped later_in earlier_in self.old self.new cursor }
    {
        let Some(held) = self.opened.take() else {
            return;
        };
        let kind = held.kind;
        match self.history.redo(held.note) {
            Undone::Moved(note) => {
                self.opened = Some(OpenedTree { kind, note });
                self.cursor = cursor;
            }
            Undone::Nothing(note) => self.opened = Some(OpenedTree { kind, note }),
        }
    }
}

/// Finds what `undo` does: the nearest earlier version is opened, and the reply is its mark. It is refused with
/// `NothingOpened` where nothing is opened, and with `NothingEarlier` where there is no earlier version. It evaluates
/// nothing, and fails where memory runs out.
pub fn undo(alloc: Global, language: &LanguageParts, editor: &Editor) -> Result<Outcome, Stop>
    requires editor { IsEditor language.now.definition editor.now }
    ensures { IfFound result (IsOutcome language.now.definition editor.now not_asked commands.Undo) }
{
    let Some(_) = &editor.opened else {
        return Err(Stop::Refused(Refusal::NothingOpened));
    };
    let Some(note) = editor.history.nearest_earlier() else {
        return Err(Stop::Refused(Refusal::NothingEarlier));
    };
    let mark = note_mark(alloc, note)?;
    let cursor = Path::of(alloc, &[])?;
    Ok(Outcome::Undoes(cursor, mark))
}

/// Finds what `redo` does: the nearest later version is opened, and the reply is its mark. It is refused with
/// `NothingOpened` where nothing is opened, and with `NothingLater` where there is no later version. It evaluates
/// nothing, and fails where memory runs out.
pub fn redo(alloc: Global, language: &LanguageParts, editor: &Editor) -> Result<Outcome, Stop>
    requires editor { IsEditor language.now.definition editor.now }
    ensures { IfFound result (IsOutcome language.now.definition editor.now not_asked commands.Redo) }
{
    let Some(_) = &editor.opened else {
        return Err(Stop::Refused(Refusal::NothingOpened));
    };
    let Some(note) = editor.history.nearest_later() else {
        return Err(Stop::Refused(Refusal::NothingLater));
    };
    let mark = note_mark(alloc, note)?;
    let cursor = Path::of(alloc, &[])?;
    Ok(Outcome::Redoes(cursor, mark))
}
