//! A session: an editor with its language.
ghost use Rattle.std.specs.Prelude.{◌≡◌, IfErr, IfOk, MatchOption, None, Some};
ghost use Rattle.psg_cache.specs.Annotated.{tree_in};
ghost use Rattle.psg_cache.specs.Notes.{IsNoteOf};
ghost use Rattle.psg_session.specs.Applied.{HasApplied, HasStopped, IsRefusal};
ghost use Rattle.psg_grammar.specs.Legal.{IsCompletable};
ghost use Rattle.psg_grammar.specs.Sound.{IsSound};
ghost use Rattle.psg_session.specs.Extents.{IsExtentOf};
ghost use Rattle.psg_session.specs.Formed.{HasText, IsFormedState};
ghost use Rattle.psg_session.specs.Lines.{HasAnswered, HasBroken};
ghost use Rattle.psg_session.specs.PlainState.{start, Opened};
ghost use Rattle.psg_session.specs.Reached.{HasReached};
ghost use Rattle.psg_session.specs.Printouts.{IsKeptText, IsNextText};
ghost use Rattle.psg_session.specs.Sessions.{IsEditor, opened_of, state_of};
ghost use Rattle.psg_session.specs.Views.{reply_of};
ghost use Rattle.psg_specimen.specs.Refusal.{IsAccepted};

use crate::dispatch::outcome_of;
use crate::editor::{Editor, Outcome};
use crate::measuring::{Extent, extent_of};
use crate::printout::keep_for;
use crate::refusal::Refusal;
use crate::replies::Reply;
use crate::stop::Stop;
use psg_cache::Note;
use psg_history::History;
use psg_script::{Command, CommandFault, read_command};
use psg_specimen::Language;
use psg_terms::{Seq, Steps};
use psg_tree::Path;
use psg_unparse::Printed;
use psg_world::Files;
use std::alloc::{AllocError, Global};
use std::marker::Model;
use std::sync::ledger::Ledger;

/// What a session keeps.
#[derive(Drop)]
pub struct Parts {
    /// The language, which never changes.
    pub language: Language,
    /// The editor of its fragments.
    pub editor: Editor,
}

/// An editor of a language's fragments. It keeps the printed text of the opened fragment from the first command that is
/// answered from it until the tree changes. After a `range` it keeps the text of the new version, if the text around
/// the node that was read again stays as it was. So the first `show`, `goto`, `screen` or `range` after another change
/// prints the whole text, in time linear in it.
pub struct Session {
    parts: Parts,
    printed: Option<Printed>,
}

// written out, so that it is proved once, and not again in each crate where such a value is let go
impl Drop for Session {
    fn drop(self) {
        let Session { parts, printed } = self;
        let _ = parts;
        let _ = printed;
    }
}

impl Model for Session {
    ghost use Rattle.psg_session.specs.declared.session.Parts.{Parts as Kept};
    ghost use Rattle.psg_session.specs.contracts.session.Parts as kept_row;
    ghost use Rattle.psg_session.specs.Printouts.{IsKeeping};

    ghost Value = { Kept };

    ghost coded = { kept_row.the_row.coded };

    ghost view = { λ s. s.parts };

    ghost invariant = { λ s. IsKeeping s.parts s.printed };
}

impl Session {
    /// Makes an editor in which nothing is opened. It fails where memory runs out, and takes the memory for the
    /// versions that are kept.
    pub fn new(alloc: Global, language: Language) -> Result<Session, AllocError>
        ensures start { IfOk result (λ s. state_of s.editor ≡ start) }
        ensures language { IfOk result (λ s. s.language ≡ language) }
    {
        let cursor = Path::of(alloc, &[])?;
        let history = History::new(alloc)?;
        let editor = Editor {
            opened: None,
            cursor,
            history,
            saved: Seq::of(Vec::new(alloc)),
        };
        Ok(Session {
            parts: Parts { language, editor },
            printed: None,
        })
    }

    /// Does what the command says, and gives the reply. After a refusal, and where memory runs out, the session is as
    /// it was. A change evaluates what is new and the nodes above it, and `steps` counts the evaluations, and the
    /// tokens of typed text and of a fetched fragment. Where memory runs out in a `keep`, nothing is known of its file.
    pub fn apply<F: Files, L: Ledger>(
        &mut self,
        alloc: Global,
        command: &Command,
        files: &mut F,
        steps: &mut Steps<L>,
    ) -> Result<Reply, AllocError>
        ensures applied { IfOk result (λ reply. HasApplied self.old.language (state_of self.old.editor)
            (state_of self.new.editor) command.now
            (record { held = F.holds files.old; entries = F.faults files.old })
            (record { held = F.holds files.new; entries = F.faults files.new })
            steps.old steps.new (reply_of reply)) }
        ensures refused { IfOk result (λ reply. IsRefusal (reply_of reply) → self.new ≡ self.old) }
        ensures stopped { IfErr result (λ _. HasStopped self.old.language (state_of self.old.editor) command.now
            (record { held = F.holds files.old; entries = F.faults files.old })
            (record { held = F.holds files.new; entries = F.faults files.new })
            steps.old steps.new) }
        ensures memory { IfErr result (λ _. self.new ≡ self.old) }
        ensures language { self.new.language ≡ self.old.language }
    {
        let mut next = None;
        let outcome = found(
            alloc,
            &self.parts.language,
            &self.parts.editor,
            &mut self.printed,
            &mut next,
            command,
            files,
            steps,
        )?;
        keep_for(&mut self.printed, next, &outcome);
        let reply = self.parts.editor.settle(outcome);
        Ok(reply)
    }

    /// Does what the line says, and gives the reply; a line that is none of a command is refused. After a refusal, and
    /// where memory runs out, the session is as it was.
    pub fn apply_line<F: Files, L: Ledger>(
        &mut self,
        alloc: Global,
        line: &[u8],
        files: &mut F,
        steps: &mut Steps<L>,
    ) -> Result<Reply, AllocError>
        ensures answered { IfOk result (λ reply. HasAnswered self.old.language (state_of self.old.editor)
            (state_of self.new.editor) line.now
            (record { held = F.holds files.old; entries = F.faults files.old })
            (record { held = F.holds files.new; entries = F.faults files.new })
            steps.old steps.new (reply_of reply)) }
        ensures refused { IfOk result (λ reply. IsRefusal (reply_of reply) → self.new ≡ self.old) }
        ensures broken { IfErr result (λ _. HasBroken self.old.language (state_of self.old.editor) line.now
            (record { held = F.holds files.old; entries = F.faults files.old })
            (record { held = F.holds files.new; entries = F.faults files.new })
            steps.old steps.new) }
        ensures memory { IfErr result (λ _. self.new ≡ self.old) }
        ensures language { self.new.language ≡ self.old.language }
    {
        let command = match read_command(alloc, line) {
            Ok(command) => command,
            Err(CommandFault::Memory) => return Err(AllocError),
            Err(_) => return Ok(Reply::Refused(Refusal::NoCommand)),
        };
        let reply = self.apply(alloc, &command, files, steps);
        // here and not at the end, where the proof would take each command apart on each way out
        drop(command);
        let reply = reply?;
        Ok(reply)
    }

    /// Gives the note of the opened fragment; `None` where nothing is opened. The opened tree is of its kind and is
    /// printable, so it reads back.
    pub fn note(&self) -> Option<&Note>
        ensures noted { MatchOption result (self.now.editor.opened ≡ None) (λ note. (old : Opened)
            × ((state_of self.now.editor).opened ≡ Some old) × IsNoteOf self.now.language old.tree note.now) }
        ensures formed { IsFormedState self.now.language (state_of self.now.editor) }
    {
        match &self.parts.editor.opened {
            Some(held) => Some(&held.note),
            None => None,
        }
    }

    /// Gives the extent of the opened fragment: how large it is, and its mark; `None` where nothing is opened. It
    /// prints the whole text, and fails where memory runs out.
    pub fn extent(&self, alloc: Global) -> Result<Option<Extent>, AllocError>
        ensures { IfOk result (λ extent. MatchOption extent (self.now.editor.opened ≡ None)
            (λ e. (old : Opened) × ((state_of self.now.editor).opened ≡ Some old)
            × IsExtentOf self.now.language (IsCompletable self.now.language) old.tree e)) }
    {
        match &self.parts.editor.opened {
            Some(held) => {
                let extent = measured(alloc, &self.parts.language, &held.note)?;
                Ok(Some(extent))
            }
            None => Ok(None),
        }
    }

    /// Gives the path of the cursor.
    pub fn cursor(&self) -> &Path
        ensures { result.now ≡ (state_of self.now.editor).cursor }
    {
        &self.parts.editor.cursor
    }

    /// Gives the language that `new` was given. All trees of the session are of its kinds and can be printed so that
    /// they read back.
    pub fn language(&self) -> &Language
        ensures same { result.now ≡ self.now.language }
        ensures formed { IsFormedState self.now.language (state_of self.now.editor) }
    {
        &self.parts.language
    }
}

/// Finds what the command does to an editor of the language: one that is refused leaves it as it is. The definition is
/// sound and accepted, as that of each language.
fn found<F: Files, L: Ledger>(
    alloc: Global,
    language: &Language,
    editor: &Editor,
    printed: &mut Option<Printed>,
    next: &mut Option<Printed>,
    command: &Command,
    files: &mut F,
    steps: &mut Steps<L>,
) -> Result<Outcome, AllocError>
    requires editor { IsEditor language.now editor.now }
    requires formed { IsFormedState language.now (state_of editor.now) }
    requires kept { IsKeptText language.now (opened_of editor.now.opened) printed.old }
    requires fresh { next.old ≡ None }
    ensures reached { IfOk result (HasReached language.now editor.now command.now
        (record { held = F.holds files.old; entries = F.faults files.old })
        (record { held = F.holds files.new; entries = F.faults files.new })
        steps.old steps.new) }
    ensures stopped { IfErr result (λ _. HasStopped language.now (state_of editor.now) command.now
        (record { held = F.holds files.old; entries = F.faults files.old })
        (record { held = F.holds files.new; entries = F.faults files.new })
        steps.old steps.new) }
    ensures sound { IsSound language.now }
    ensures accepted { IsAccepted language.now }
    ensures text { HasText command.now }
    ensures kept { IsKeptText language.now (opened_of editor.now.opened) printed.new }
    ensures next { IfOk result (λ outcome. IsNextText language.now editor.now outcome next.new) }
{
    let parts = language.parts();
    match outcome_of(alloc, parts, editor, printed, next, command, files, steps) {
        Ok(outcome) => Ok(outcome),
        Err(Stop::Refused(refusal)) => Ok(Outcome::Stays(Reply::Refused(refusal))),
        Err(Stop::Memory) => Err(AllocError),
    }
}

/// Gives the extent of the note's tree in the language.
fn measured(alloc: Global, language: &Language, note: &Note) -> Result<Extent, AllocError>
    requires noted { IsNoteOf language.now (tree_in note.now) note.now }
    ensures { IfOk result (IsExtentOf language.now (IsCompletable language.now) (tree_in note.now)) }
{
    let parts = language.parts();
    let extent = extent_of(alloc, parts, note)?;
    Ok(extent)
}
