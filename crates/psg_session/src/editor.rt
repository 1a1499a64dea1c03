//! The editor, and what opens and changes its fragment.
ghost use Rattle.std.specs.Prelude.{◌≡◌, IfOk, Ok, Some};
ghost use Rattle.psg_cache.specs.Annotated.{tree_in};
ghost use Rattle.psg_grammar.specs.declared.types.Definition.{Definition as PlainDefinition};
ghost use Rattle.psg_session.specs.Outcomes.{after, reply_in, IfFound, IsFit, IsGoneOn, IsOutcome, IsPlan, IsStay};
ghost use Rattle.psg_session.specs.Outcomes.{IsVersionOf, Spends};
ghost use Rattle.psg_session.specs.Edits.{edited};
ghost use Rattle.psg_session.specs.declared.changes.Proposal.{Proposal as PlainMade};
ghost use Rattle.psg_session.specs.declared.editor.OpenedTree.{OpenedTree as PlainHeld};
ghost use Rattle.psg_session.specs.PlainState.{not_asked};
ghost use Rattle.psg_session.specs.Sessions.{state_of, IsEditor};
ghost use Rattle.psg_session.specs.Ticks.{HasTicked};
ghost use Rattle.psg_session.specs.Views.{IsLanguage};
ghost use Rattle.psg_script.specs.declared.command.Command.{Command as PlainCommand};
ghost use Rattle.psg_script.specs.declared.command.Command.TheVariants as commands;

use crate::changes::Proposal;
use crate::insertion::blank;
use crate::judging::{Trial, judged};
use crate::noting::{note_after, note_mark, note_of};
use crate::refusal::Refusal;
use crate::replies::{Mark, Reply};
use crate::stop::Stop;
use psg_cache::Note;
use psg_grammar::{Kind, kind_named};
use psg_history::History;
use psg_library::SavedFragment;
use psg_specimen::LanguageParts;
use psg_terms::{Seq, Steps, Txt};
use psg_tree::Path;
use std::alloc::Global;
use std::sync::ledger::Ledger;

/// The opened fragment: its kind, and its tree with what is known of it.
#[derive(Drop)]
pub struct OpenedTree {
    /// The kind of the whole tree: a phylum or a list.
    pub kind: Kind,
    /// The tree with the summaries of its nodes.
    pub note: Note,
}

/// An editor of a definition's fragments.
#[derive(Drop)]
pub struct Editor {
    /// The opened fragment; none before the first `new`.
    pub opened: Option<OpenedTree>,
    /// The path of the cursor, which leads to a node of the opened fragment.
    pub cursor: Path,
    /// The earlier and later versions of the opened fragment.
    pub history: History<Note>,
    /// The saved fragments, the oldest first, each name once.
    pub saved: Seq<SavedFragment>,
}

/// What a command does. All that it needs memory for is in it.
#[derive(Drop)]
pub enum Outcome {
    /// The editor stays as it is.
    Stays(Reply),
    /// The cursor alone moves, and the reply is these lines.
    Goes(Path, Vec<String>),
    /// Another fragment is opened.
    Opens(OpenedTree, Path, Mark),
    /// The opened fragment has a new version.
    Changes(Note, Path, Mark),
    /// The nearest earlier version is opened.
    Undoes(Path, Mark),
    /// The nearest later version is opened.
    Redoes(Path, Mark),
    /// These are the saved fragments now, and the lines are the reply.
    Saves(Seq<SavedFragment>, Vec<String>),
}

impl Editor {
    /// Does what the outcome says, and gives the reply. It takes no memory.
    pub fn settle(&mut self, outcome: Outcome) -> Reply
        ensures state { state_of self.new ≡ after self.old outcome }
        ensures reply { result ≡ reply_in outcome }
        ensures stays { IsStay outcome → self.new ≡ self.old }
        ensures editor { (def : PlainDefinition) → IsEditor def self.old → IsFit def self.old.opened outcome
            → IsEditor def self.new }
    {
        match outcome {
            Outcome::Stays(reply) => reply,
            Outcome::Goes(cursor, lines) => {
                self.cursor = cursor;
                Reply::Answered(lines)
            }
            Outcome::Opens(held, cursor, mark) => {
                self.opened = Some(held);
                self.cursor = cursor;
                self.history.clear();
                Reply::Marked(mark)
            }
            Outcome::Changes(note, cursor, mark) => {
                self.go_on(note, cursor);
                Reply::Marked(mark)
            }
            Outcome::Undoes(cursor, mark) => {
                self.go_back(cursor);
                Reply::Marked(mark)
            }
            Outcome::Redoes(cursor, mark) => {
                self.go_forward(cursor);
                Reply::Marked(mark)
            }
            Outcome::Saves(saved, lines) => {
                self.saved = saved;
                Reply::Answered(lines)
            }
        }
    }

    /// Goes on with another version of the opened fragment; where nothing is opened the editor stays.
    fn go_on(&mut self, note: Note, cursor: Path)
        ensures { IsGoneOn self.old self.new note cursor }
    {
        let Some(held) = self.opened.take() else {
            return;
        };
        self.history.push(held.note);
        let kind = held.kind;
        self.opened = Some(OpenedTree { kind, note });
        self.cursor = cursor;
    }
}

/// Opens a new fragment of the phylum or list of the name.
#[tactic(auto, using(crate::proofs::Ticking::quiet))]
pub(crate) fn open_new<L: Ledger>(
    alloc: Global,
    language: &LanguageParts,
    editor: &Editor,
    name: &Txt,
    steps: &mut Steps<L>,
) -> Result<Outcome, Stop>
    requires language { IsLanguage language.now }
    ensures outcome { IfFound result (IsOutcome language.now.definition editor.now not_asked (commands.New name.now)) }
    ensures ticks { HasTicked language.now.definition (state_of editor.now)
        (commands.New name.now) steps.old steps.new }
{
    let Some(kind) = kind_named(&language.definition, name.as_str()) else {
        return Err(Stop::Refused(Refusal::Unknown));
    };
    if language.is_declaring(kind) {
        return Err(Stop::Refused(Refusal::NoPlaceholder));
    }
    let tree = blank(alloc, &language.definition, kind)?;
    let noted = note_of(alloc, language, &tree, steps);
    let note = judged(Trial::Opens, noted)?;
    let mark = note_mark(alloc, &note)?;
    let cursor = Path::of(alloc, &[])?;
    Ok(Outcome::Opens(OpenedTree { kind, note }, cursor, mark))
}

/// Does what was planned, where the tree passes the tests of the change. It evaluates what is new and the nodes above
/// it.
pub(crate) fn carry_out<L: Ledger>(
    alloc: Global,
    language: &LanguageParts,
    editor: &Editor,
    plan: Result<Proposal, Stop>,
    steps: &mut Steps<L>,
) -> Result<Outcome, Stop>
    requires language { IsLanguage language.now }
    requires editor { IsEditor language.now.definition editor.now }
    requires plan { (command : PlainCommand) × IsPlan language.now.definition editor.now command plan }
    ensures outcome { (command : PlainCommand) → IsPlan language.now.definition editor.now command plan
        → IfFound result (IsOutcome language.now.definition editor.now not_asked command) }
    ensures ticks { (command : PlainCommand) → IsPlan language.now.definition editor.now command plan
        → HasTicked language.now.definition (state_of editor.now) command steps.old steps.new }
    ensures spends { Spends editor.now plan steps.old steps.new }
    ensures version { IfOk result (λ outcome. (held : PlainHeld) (made : PlainMade) → editor.now.opened ≡ Some held
        → plan ≡ Ok made → IsVersionOf (edited made.edit (tree_in held.note)) outcome) }
{
    let made = plan?;
    // a plan that makes something has found the opened fragment
    let Some(held) = &editor.opened else {
        unreachable!()
    };
    let noted = note_after(alloc, language, &held.note, &made.edit, steps);
    let note = judged(made.trial, noted)?;
    let mark = note_mark(alloc, &note)?;
    Ok(Outcome::Changes(note, made.cursor, mark))
}
