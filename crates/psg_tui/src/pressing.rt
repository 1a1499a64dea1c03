//! A key that is a command of the session.
ghost use Rattle.std.specs.Prelude.{◌≡◌, ◌==◌, ◌&&◌, ℕ, IfOk, IfSome, MatchResult, None, OnErr, OnOk, Some, true};
ghost use Rattle.std.specs.Prelude.{unwrap_or};
ghost use Rattle.psg_keymap.specs.OfKeys.{is_of_keys};
ghost use Rattle.psg_asking.specs.Putting.{IsTextOf};
ghost use Rattle.psg_grammar.specs.Fragments.{Fragment};
ghost use Rattle.psg_keys.specs.declared.key.Key.{Key as PlainKey};
ghost use Rattle.psg_keys.specs.Reading.{Spelled};
ghost use Rattle.psg_unparse.specs.Spans.{printed_of};
ghost use Rattle.psg_keymap.specs.Table as table;
ghost use Rattle.psg_keymap.specs.Views.{message_of};
ghost use Rattle.psg_keymap.specs.Faces.{refused as refused_with};
ghost use Rattle.psg_modes.specs.Pages.{key_lines};
ghost use Rattle.psg_modes.specs.Turning.{saying};
ghost use Rattle.psg_session.specs.Refusals.{number_of};
ghost use Rattle.psg_session.specs.declared.refusal.Refusal.TheVariants as refusals;
ghost use Rattle.psg_session.specs.Sessions.{state_of};
ghost use Rattle.psg_session.specs.Views.{reply_of};
ghost use Rattle.psg_tui.specs.declared.editing.Aim.TheVariants as aims;
ghost use Rattle.psg_tui.specs.Editing.{IsAsBefore, IsAt, IsEditing, IsHeard, IsKnownMore, IsOfSame, IsTried, is_wrong};
ghost use Rattle.psg_tui.specs.Pressing as pressing;
ghost use Rattle.psg_tui.specs.Pressing.{Does, IsDue, Presses};
ghost use Rattle.psg_tui.specs.Replied as replied;
ghost use Rattle.psg_tui.specs.Views.{desk, desk_of, face_of, outside};

use crate::editing::{Aim, Editing, formed, note_of};
use psg_asking::text_due;
use psg_keymap::{Due, Message, Mode, Seen, Spot, command_of, copied};
use psg_keys::{Key, Stroke};
use psg_modes::say;
use psg_script::Command;
use psg_session::{Refusal, Reply};
use psg_terms::{Steps, Txt};
use psg_tree::Path;
use psg_world::Files;
use std::alloc::{AllocError, Global};
use std::sync::ledger::Ledger;

/// Says whether an operator is put by Enter.
fn is_putting(mode: Mode) -> bool
    ensures { result ≡ pressing.is_putting mode }
{
    match mode {
        Mode::Choosing => true,
        Mode::Naming => true,
        _ => false,
    }
}

/// Says whether Enter puts an operator into a wrong program.
fn needs_text(mode: Mode, wrong: bool) -> bool
    ensures { result ≡ (pressing.is_putting mode && wrong) }
{
    is_putting(mode) && wrong
}

/// Says whether the command goes back to the version before.
fn is_undo(command: &Command) -> bool
    ensures { result ≡ table.is_undo command.now }
{
    match command {
        Command::Undo => true,
        _ => false,
    }
}

/// Says whether the command would go back further than to the program with which the editor began.
fn is_first(command: &Command, versions: u64) -> bool
    ensures { result ≡ (table.is_undo command.now && (versions == 0)) }
{
    is_undo(command) && versions == 0
}

/// Says whether the command keeps a node.
fn is_save(command: &Command) -> bool
    ensures { result ≡ table.is_save command.now }
{
    match command {
        Command::Save { .. } => true,
        _ => false,
    }
}

/// Returns the operator that the command puts, and its names and literals.
fn parts_of(command: &Command) -> Result<Option<(Txt, Txt)>, AllocError>
    ensures { IfOk result (λ parts. parts ≡ replied.parts_of command.now) }
{
    match command {
        Command::Refine { op, args, .. } => {
            let name = op.share()?;
            let typed = args.share()?;
            Ok(Some((name, typed)))
        }
        Command::Insert { op, args, .. } => {
            let name = op.share()?;
            let typed = args.share()?;
            Ok(Some((name, typed)))
        }
        _ => Ok(None),
    }
}

/// Returns the number of the refusal, if the reply is one.
fn refusal_in(reply: &Reply) -> Option<u8>
    ensures { result ≡ replied.number_in (reply_of reply.now) }
{
    match reply {
        Reply::Refused(refusal) => Some(refusal.number()),
        Reply::Answered(_) => None,
        Reply::Marked(_) => None,
        Reply::Shown(_, _) => None,
        Reply::Seen(_) => None,
    }
}

/// Returns the text, or the command where there is none.
fn text_or(text: Result<Option<Due>, AllocError>, due: Due) -> Result<Option<Due>, AllocError>
    ensures { MatchResult text (λ t. IfOk result (λ found. found ≡ Some (unwrap_or t due)))
        (λ _. IfOk result (λ found. ⊥)) }
{
    match text {
        Ok(Some(text)) => {
            drop(due);
            Ok(Some(text))
        }
        Ok(None) => Ok(Some(due)),
        Err(error) => {
            drop(due);
            Err(error)
        }
    }
}

/// Returns how many versions there are after a command that was done.
fn versions_after(command: &Command, versions: u64) -> u64
    ensures { result ≡ pressing.versions_done command.now versions }
{
    if is_undo(command) {
        return versions.saturating_sub(1);
    }
    if is_save(command) {
        return versions;
    }
    versions.saturating_add(1)
}

/// Returns what is chosen after a command that puts something.
fn aim_in(mode: Mode) -> Aim
    ensures { result ≡ replied.aim_in mode }
{
    match mode {
        Mode::Browsing => Aim::Below,
        Mode::Typing => Aim::Typed,
        Mode::Choosing => Aim::Below,
        Mode::Naming => Aim::Below,
        Mode::Saving => Aim::Below,
        Mode::Replacing => Aim::Below,
        Mode::Paging => Aim::Below,
        Mode::Leaving => Aim::Below,
    }
}

/// Returns what is said after a command that was done.
fn said_after(command: &Command) -> Message
    ensures { message_of result ≡ pressing.said_after command.now }
{
    if is_save(command) {
        return Message::Kept;
    }
    Message::Quiet
}

impl Editing {
    /// Does what the key says: at most one command of the session, from the table.
    #[tactic(auto, using(crate::proofs::EditingLaws::editing_before, crate::proofs::EditingLaws::editing_known, crate::proofs::TurnLaws::aim_settled))]
    pub(crate) fn press<F: Files, L: Ledger>(
        &mut self,
        alloc: Global,
        stroke: &Stroke,
        files: &mut F,
        steps: &mut Steps<L>,
    ) -> Result<(), AllocError>
        requires { IsEditing self.old }
        ensures pressed { OnOk result ((old : Fragment) → IsAt self.old old → (new : Fragment) × IsAt self.new new
            × Presses self.old.session.language self.old.kind key_lines (desk_of old self.old) (desk_of new self.new)
            (state_of self.old.session.editor) (state_of self.new.session.editor) old new stroke.now
            (outside (F.holds files.old) (F.faults files.old)) (outside (F.holds files.new) (F.faults files.new))) }
        ensures same { IsOfSame self.old self.new }
        ensures memory { OnErr result (IsAsBefore self.old self.new × (F.holds files.new ≡ F.holds files.old)) }
        ensures editing { IsEditing self.new }
    {
        self.begin_key(alloc)?;
        let due = self.due(alloc, stroke.key(), files, steps)?;
        self.act(alloc, stroke, due, files, steps)?;
        formed(&self.session);
        Ok(())
    }

    /// Does the command, or what the key says that is none.
    fn act<F: Files, L: Ledger>(
        &mut self,
        alloc: Global,
        stroke: &Stroke,
        due: Option<Due>,
        files: &mut F,
        steps: &mut Steps<L>,
    ) -> Result<(), AllocError>
        requires editing { IsEditing self.old }
        requires settled { self.old.aim ≡ aims.Settled }
        requires keys { IfSome due (λ d. is_of_keys d.command ≡ true) }
        ensures done { OnOk result ((old : Fragment) → IsAt self.old old → (new : Fragment) × IsAt self.new new
            × Does self.old.session.language self.old.kind key_lines (desk self.old) (desk_of new self.new)
            (state_of self.old.session.editor) (state_of self.new.session.editor) old new stroke.now
            (outside (F.holds files.old) (F.faults files.old)) (outside (F.holds files.new) (F.faults files.new))
            due) }
        ensures same { IsOfSame self.old self.new }
        ensures memory { OnErr result (IsAsBefore self.old self.new × (F.holds files.new ≡ F.holds files.old)) }
        ensures editing { IsEditing self.new }
    {
        match due {
            Some(due) => self.command(alloc, due, files, steps),
            None => self.turn(alloc, stroke, files, steps),
        }
    }

    /// Returns the command that the key is, if it is one. Where an operator is put into a wrong program, it is the text
    /// that the operator has in the repaired one.
    #[tactic(auto, using(crate::proofs::EditingLaws::known_same))]
    fn due<F: Files, L: Ledger>(
        &mut self,
        alloc: Global,
        key: Key,
        files: &mut F,
        steps: &mut Steps<L>,
    ) -> Result<Option<Due>, AllocError>
        requires editing { IsEditing self.old }
        requires settled { self.old.aim ≡ aims.Settled }
        ensures due { IfOk result (λ due. (tree : Fragment) → IsAt self.old tree
            → IsDue self.old.session.language self.old.kind tree key_lines (face_of self.old.face) key due) }
        ensures keys { IfOk result (λ due. IfSome due (λ d. is_of_keys d.command ≡ true)) }
        ensures left { IsKnownMore self.old self.new }
        ensures files { (F.holds files.new ≡ F.holds files.old) × (F.faults files.new ≡ F.faults files.old) }
    {
        let seen = Seen {
            language: self.session.language(),
            tree: note_of(&self.session).tree(),
            printed: &self.shown.printed,
        };
        match command_of(alloc, seen, &self.face, key)? {
            Some(due) => self.due_in(alloc, due, files, steps),
            None => Ok(None),
        }
    }

    /// Returns the command of the table, or the text of the operator that it would put into a wrong program.
    #[tactic(auto, using(crate::proofs::EditingLaws::known_same))]
    fn due_in<F: Files, L: Ledger>(
        &mut self,
        alloc: Global,
        due: Due,
        files: &mut F,
        steps: &mut Steps<L>,
    ) -> Result<Option<Due>, AllocError>
        requires editing { IsEditing self.old }
        requires settled { self.old.aim ≡ aims.Settled }
        ensures due { IfOk result (λ found. (tree : Fragment) (key : PlainKey) → IsAt self.old tree
            → Some due ≡ table.command_of self.old.session.language tree (face_of self.old.face) key
            → IsDue self.old.session.language self.old.kind tree key_lines (face_of self.old.face) key found) }
        ensures keys { is_of_keys due.command ≡ true
            → IfOk result (λ found. IfSome found (λ d. is_of_keys d.command ≡ true)) }
        ensures left { IsKnownMore self.old self.new }
        ensures files { (F.holds files.new ≡ F.holds files.old) × (F.faults files.new ≡ F.faults files.old) }
    {
        let needs = needs_text(self.face.mode, self.shown.is_wrong());
        if needs {
            let text = self.due_text(alloc, &due, files, steps);
            return text_or(text, due);
        }
        Ok(Some(due))
    }

    /// Returns the text of the operator that the command would put into the wrong program, if it has one.
    #[tactic(auto, using(crate::proofs::EditingLaws::editing_known, crate::proofs::TurnLaws::aim_settled))]
    fn due_text<F: Files, L: Ledger>(
        &mut self,
        alloc: Global,
        due: &Due,
        files: &mut F,
        steps: &mut Steps<L>,
    ) -> Result<Option<Due>, AllocError>
        requires editing { IsEditing self.old }
        requires settled { self.old.aim ≡ aims.Settled }
        requires putting { pressing.is_putting self.old.face.mode ≡ true }
        requires wrong { is_wrong self.old.shown.culprits.items ≡ true }
        ensures due { IfOk result (λ text. (tree : Fragment) (key : PlainKey) → IsAt self.old tree
            → Some due.now ≡ table.command_of self.old.session.language tree (face_of self.old.face) key
            → IsDue self.old.session.language self.old.kind tree key_lines (face_of self.old.face) key
            (Some (unwrap_or text due.now))) }
        ensures keys { IfOk result (λ text. IfSome text (λ d. is_of_keys d.command ≡ true)) }
        ensures left { IsKnownMore self.old self.new }
        ensures files { (F.holds files.new ≡ F.holds files.old) × (F.faults files.new ≡ F.faults files.old) }
    {
        self.find_repair(alloc, steps)?;
        match parts_of(&due.command)? {
            Some((op, args)) => {
                let text = self.text_of(alloc, op.as_str(), args, files, steps)?;
                Ok(text)
            }
            None => Ok(None),
        }
    }

    /// Returns the command that puts the operator into the wrong program as a text, if it has one there.
    fn text_of<F: Files, L: Ledger>(
        &self,
        alloc: Global,
        op: &str,
        args: Txt,
        files: &mut F,
        steps: &mut Steps<L>,
    ) -> Result<Option<Due>, AllocError>
        requires editing { IsEditing self.now }
        requires settled { self.now.aim ≡ aims.Settled }
        requires tried { IsTried self.now.shown }
        ensures text { IfOk result (λ text. (tree : Fragment) → IsAt self.now tree
            → IsTextOf self.now.session.language self.now.kind tree
            (printed_of self.now.session.language tree).spans
            (record { target = self.now.face.target; place = self.now.face.place }) op.now args text) }
        ensures files { (F.holds files.new ≡ F.holds files.old) × (F.faults files.new ≡ F.faults files.old) }
    {
        let known = self.known();
        let printed = &self.shown.printed;
        let target = copied(alloc, &self.face.target)?;
        let spot = Spot {
            target,
            place: self.face.place,
        };
        let text = text_due(alloc, known, printed, &spot, op, args, files, steps)?;
        Ok(text)
    }

    /// Does the command. Undo goes back to the program with which the editor began.
    fn command<F: Files, L: Ledger>(
        &mut self,
        alloc: Global,
        due: Due,
        files: &mut F,
        steps: &mut Steps<L>,
    ) -> Result<(), AllocError>
        requires editing { IsEditing self.old }
        requires settled { self.old.aim ≡ aims.Settled }
        requires keys { is_of_keys due.command ≡ true }
        ensures done { OnOk result ((stroke : Spelled) (old : Fragment) → IsAt self.old old
            → (new : Fragment) × IsAt self.new new
            × Does self.old.session.language self.old.kind key_lines (desk self.old) (desk_of new self.new)
            (state_of self.old.session.editor) (state_of self.new.session.editor) old new stroke
            (outside (F.holds files.old) (F.faults files.old)) (outside (F.holds files.new) (F.faults files.new))
            (Some due)) }
        ensures same { IsOfSame self.old self.new }
        ensures memory { OnErr result ((self.new ≡ self.old) × (F.holds files.new ≡ F.holds files.old)) }
        ensures editing { IsEditing self.new }
    {
        let grown = due.grown;
        let command = due.command;
        let done = self.do_command(alloc, &command, grown, files, steps);
        drop(command);
        done
    }

    /// Does the command, which puts something at the path, where there is one.
    fn do_command<F: Files, L: Ledger>(
        &mut self,
        alloc: Global,
        command: &Command,
        grown: Option<Path>,
        files: &mut F,
        steps: &mut Steps<L>,
    ) -> Result<(), AllocError>
        requires editing { IsEditing self.old }
        requires settled { self.old.aim ≡ aims.Settled }
        requires keys { is_of_keys command.now ≡ true }
        ensures done { OnOk result ((stroke : Spelled) (old : Fragment) → IsAt self.old old
            → (new : Fragment) × IsAt self.new new
            × Does self.old.session.language self.old.kind key_lines (desk self.old) (desk_of new self.new)
            (state_of self.old.session.editor) (state_of self.new.session.editor) old new stroke
            (outside (F.holds files.old) (F.faults files.old)) (outside (F.holds files.new) (F.faults files.new))
            (Some (record { command = command.now; grown = grown }))) }
        ensures same { IsOfSame self.old self.new }
        ensures memory { OnErr result ((self.new ≡ self.old) × (F.holds files.new ≡ F.holds files.old)) }
        ensures editing { IsEditing self.new }
    {
        let first = is_first(command, self.versions);
        if first {
            self.say_first();
            return Ok(());
        }
        let reply = self.session.apply(alloc, command, files, steps)?;
        let refused = refusal_in(&reply);
        drop(reply);
        self.hear(refused, command, grown);
        Ok(())
    }

    /// Says that there is no version before the program with which the editor began.
    fn say_first(&mut self)
        ensures said { desk self.new ≡ pressing.with_face (desk self.old)
            (saying (refused_with (number_of refusals.NothingEarlier)) (face_of self.old.face)) }
        ensures left { self.new ≡ record self.old { face = self.new.face } }
    {
        say(
            &mut self.face,
            Message::Refused(Refusal::NothingEarlier.number()),
        );
    }

    /// Takes the reply to a command: the number of a refusal, or that it was done. Takes no memory, so that nothing is
    /// half done: what needs memory is done by `settle`.
    fn hear(&mut self, refused: Option<u8>, command: &Command, grown: Option<Path>)
        requires { self.old.aim ≡ aims.Settled }
        ensures heard { (tree : Fragment) → desk_of tree self.new
            ≡ replied.heard tree refused (record { command = command.now; grown = grown }) (desk self.old) }
        ensures left { IsHeard self.old self.new }
        ensures refused { (number : ℕ) → refused ≡ Some number → self.new.aim ≡ aims.Settled }
        ensures done { refused ≡ None → self.new.aim ≡ aims.Settled → ⊥ }
    {
        match refused {
            Some(number) => say(&mut self.face, Message::Refused(number)),
            None => self.take(command, grown),
        }
    }

    /// Takes that the command was done.
    fn take(&mut self, command: &Command, grown: Option<Path>)
        ensures heard { (tree : Fragment) → desk_of tree self.new
            ≡ replied.done tree (record { command = command.now; grown = grown }) (desk self.old) }
        ensures left { IsHeard self.old self.new }
        ensures done { self.new.aim ≡ aims.Settled → ⊥ }
    {
        match grown {
            Some(path) => self.take_grown(command, path),
            None => self.take_far(command),
        }
    }

    /// Takes that a command was done that puts nothing.
    fn take_far(&mut self, command: &Command)
        ensures heard { (tree : Fragment) → desk_of tree self.new
            ≡ replied.done tree (record { command = command.now; grown = None }) (desk self.old) }
        ensures left { IsHeard self.old self.new }
        ensures done { self.new.aim ≡ aims.Settled → ⊥ }
    {
        self.versions = versions_after(command, self.versions);
        self.face.message = said_after(command);
        self.face.mode = Mode::Browsing;
        self.aim = Aim::Far;
    }

    /// Takes that a command was done that puts something at the path.
    fn take_grown(&mut self, command: &Command, path: Path)
        ensures heard { (tree : Fragment) → desk_of tree self.new
            ≡ replied.done tree (record { command = command.now; grown = Some path }) (desk self.old) }
        ensures left { IsHeard self.old self.new }
        ensures done { self.new.aim ≡ aims.Settled → ⊥ }
    {
        self.versions = versions_after(command, self.versions);
        self.aim = aim_in(self.face.mode);
        self.face.message = said_after(command);
        self.face.mode = Mode::Browsing;
        self.face.chosen = path;
    }
}
