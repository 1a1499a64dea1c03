//! The plain editor in which a program is opened, and nothing else.
ghost use Rattle.std.specs.Prelude.{◌≡◌, true, IfErr, IfOk};
ghost use Rattle.psg_cache.specs.Annotated.{tree_in};
ghost use Rattle.psg_grammar.specs.Sound.{IsSound};
ghost use Rattle.psg_session.specs.Applied.{HasApplied, HasStopped};
ghost use Rattle.psg_session.specs.Formed.{HasText, IsFormedState};
ghost use Rattle.psg_session.specs.Reached.{HasReached};
ghost use Rattle.psg_session.specs.Sessions.{IsEditor, IsSession, state_of};
ghost use Rattle.psg_session.specs.Views.{reply_of};
ghost use Rattle.psg_specimen.specs.Refusal.{IsAccepted};
ghost use Rattle.psg_asking.specs.Programs.{IsProgram, IsReply, is_question, opened_with};

use psg_cache::Note;
use psg_grammar::Kind;
use psg_history::History;
use psg_script::Command;
use psg_session::Reply;
use psg_session::dispatch::outcome_of;
use psg_session::editor::{Editor, OpenedTree, Outcome};
use psg_session::stop::Stop;
use psg_specimen::Language;
use psg_terms::{Seq, Steps};
use psg_tree::Path;
use psg_world::Files;
use std::alloc::{AllocError, Global};
use std::sync::ledger::Ledger;

/// A program: its language, its kind, and its tree with what is known of it.
#[derive(Clone, Copy)]
pub struct Program<'a> {
    /// Its language.
    pub language: &'a Language,
    /// Its kind.
    pub kind: Kind,
    /// Its tree, with the summaries of all nodes.
    pub note: &'a Note,
}

/// What a command made of a program: the editor after it, and the reply.
#[derive(Drop)]
pub struct Done {
    /// The editor after the command.
    pub editor: Editor,
    /// The reply of the command.
    pub reply: Reply,
}

/// Makes the editor in which the program is opened, and nothing else.
fn editor_of(alloc: Global, program: Program) -> Result<Editor, AllocError>
    requires { IsProgram program.language.now program.kind program.note.now }
    ensures state { IfOk result (λ e. state_of e
        ≡ opened_with program.entry.kind (tree_in program.entry.note.now)) }
    ensures session { IfOk result
        (λ e. IsSession (record { language = program.entry.language.now; editor = e })) }
{
    let note = program.note.share()?;
    let cursor = Path::of(alloc, &[])?;
    let history = History::new(alloc)?;
    let none = Vec::new(alloc);
    let saved = Seq::of(none);
    Ok(Editor {
        opened: Some(OpenedTree {
            kind: program.kind,
            note,
        }),
        cursor,
        history,
        saved,
    })
}

/// Finds what the command does to an editor of the language: one that is refused leaves it as it is.
fn found<F: Files, L: Ledger>(
    alloc: Global,
    language: &Language,
    editor: &Editor,
    command: &Command,
    files: &mut F,
    steps: &mut Steps<L>,
) -> Result<Outcome, AllocError>
    requires editor { IsEditor language.now editor.now }
    requires formed { IsFormedState language.now (state_of editor.now) }
    ensures reached { IfOk result (HasReached language.now editor.now command.now
        (record { held = F.holds files.old; entries = F.faults files.old })
        (record { held = F.holds files.new; entries = F.faults files.new })
        steps.old steps.new) }
    ensures stopped { IfErr result (λ _. HasStopped language.now (state_of editor.now) command.now
        (record { held = F.holds files.old; entries = F.faults files.old })
        (record { held = F.holds files.new; entries = F.faults files.new })
        steps.old steps.new) }
    ensures sound { IsSound language.now }
    ensures accepted { IsAccepted language.now }
    ensures text { HasText command.now }
{
    let mut printed = None;
    let mut next = None;
    let parts = language.parts();
    match outcome_of(
        alloc,
        parts,
        editor,
        &mut printed,
        &mut next,
        command,
        files,
        steps,
    ) {
        Ok(outcome) => Ok(outcome),
        Err(Stop::Refused(refusal)) => Ok(Outcome::Stays(Reply::Refused(refusal))),
        Err(Stop::Memory) => Err(AllocError),
    }
}

/// Does a command in the plain editor in which the program is opened, and nothing else. The program stays as it is.
/// `steps` counts as for the command. It fails where memory runs out.
pub fn tried<F: Files, L: Ledger>(
    alloc: Global,
    program: Program,
    command: &Command,
    files: &mut F,
    steps: &mut Steps<L>,
) -> Result<Done, AllocError>
    requires { IsProgram program.language.now program.kind program.note.now }
    ensures applied { IfOk result (λ d. HasApplied program.entry.language.now
        (opened_with program.entry.kind (tree_in program.entry.note.now)) (state_of d.editor) command.now
        (record { held = F.holds files.old; entries = F.faults files.old })
        (record { held = F.holds files.new; entries = F.faults files.new })
        steps.old steps.new (reply_of d.reply)) }
    ensures session { IfOk result
        (λ d. IsSession (record { language = program.entry.language.now; editor = d.editor })) }
    ensures stopped { IfErr result (λ _. (F.holds files.new ≡ F.holds files.old)
        × (F.faults files.new ≡ F.faults files.old)) }
{
    let mut editor = editor_of(alloc, program)?;
    let outcome = found(alloc, program.language, &editor, command, files, steps)?;
    let reply = editor.settle(outcome);
    Ok(Done { editor, reply })
}

/// Returns the reply of the plain editor to a question about the program: `menu`, `names` or `relation`. The files stay
/// as they are. It fails where memory runs out.
pub fn reply_to<F: Files, L: Ledger>(
    alloc: Global,
    program: Program,
    command: &Command,
    files: &mut F,
    steps: &mut Steps<L>,
) -> Result<Reply, AllocError>
    requires program { IsProgram program.language.now program.kind program.note.now }
    requires question { is_question command.now ≡ true }
    ensures reply { IfOk result (λ reply. IsReply program.entry.language.now program.entry.kind
        (tree_in program.entry.note.now) command.now (reply_of reply)) }
    ensures files { (F.holds files.new ≡ F.holds files.old) × (F.faults files.new ≡ F.faults files.old) }
{
    let made = tried(alloc, program, command, files, steps)?;
    Ok(made.reply)
}

/// Returns the reply of the plain editor to a question about the program, which it lets go.
pub(crate) fn reply_by<F: Files, L: Ledger>(
    alloc: Global,
    program: Program,
    command: Command,
    files: &mut F,
    steps: &mut Steps<L>,
) -> Result<Reply, AllocError>
    requires program { IsProgram program.language.now program.kind program.note.now }
    requires question { is_question command ≡ true }
    ensures reply { IfOk result (λ reply. IsReply program.entry.language.now program.entry.kind
        (tree_in program.entry.note.now) command (reply_of reply)) }
    ensures files { (F.holds files.new ≡ F.holds files.old) × (F.faults files.new ≡ F.faults files.old) }
{
    let reply = reply_to(alloc, program, &command, files, steps);
    // here and not at the end, where the proof would take each command apart on each way out
    drop(command);
    let reply = reply?;
    Ok(reply)
}
