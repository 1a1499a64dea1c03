//! The program with which an editor begins.
ghost use Rattle.std.specs.Prelude.{◌≡◌, IfOk};
ghost use Rattle.psg_asking.specs.Told.{refusal_in};
ghost use Rattle.psg_grammar.specs.declared.types.Kind.{Kind as PlainKind};
ghost use Rattle.psg_grammar.specs.Fragments.{Fragment};
ghost use Rattle.psg_grammar.specs.Kinds.{HasKind};
ghost use Rattle.psg_session.specs.Sessions.{state_of};
ghost use Rattle.psg_session.specs.Views.{reply_of};
ghost use Rattle.psg_tui.specs.Pressing.{IsOpened};

use psg_grammar::{Kind, kind_name};
use psg_program::{Place, ProgramFault, read_program};
use psg_script::{Command, Where};
use psg_session::{Refusal, Reply, Session};
use psg_specimen::Language;
use psg_terms::{Steps, Txt};
use psg_tree::Path;
use psg_unparse::unparse;
use psg_world::Files;
use std::alloc::{AllocError, Global};
use std::sync::ledger::Ledger;

/// Why there is no program to begin with.
#[derive(Drop)]
pub enum NoProgram {
    /// The bytes are no program: where this is seen, and the message.
    Syntax(Place, String),
    /// The program is refused by a limit, or the kind has no new program.
    Refused(Refusal),
    /// Memory ran out.
    Memory,
}

impl From<AllocError> for NoProgram {
    fn from(_error: AllocError) -> NoProgram {
        NoProgram::Memory
    }
}

/// What an editor begins with.
pub type Begun = Result<Session, NoProgram>;

/// Makes a session in which the program that the bytes are is opened, or a new one of the kind where there are no
/// bytes.
pub fn begin<F: Files, L: Ledger>(
    alloc: Global,
    language: Language,
    kind: Kind,
    bytes: Option<Vec<u8>>,
    files: &mut F,
    steps: &mut Steps<L>,
) -> Begun
    requires { HasKind language kind }
    ensures { IfOk result (λ session. (session.language ≡ language)
        × (tree : Fragment) × IsOpened (state_of session.editor) kind tree) }
{
    match bytes {
        Some(bytes) => {
            let text = text_in(alloc, &language, kind, bytes.as_slice(), steps)?;
            let session = begin_new(alloc, language, kind, files, steps)?;
            let filled = put_text(alloc, session, text, files, steps)?;
            Ok(filled)
        }
        None => begin_new(alloc, language, kind, files, steps),
    }
}

/// Makes a session in which a new program of the kind is opened.
fn begin_new<F: Files, L: Ledger>(
    alloc: Global,
    language: Language,
    kind: Kind,
    files: &mut F,
    steps: &mut Steps<L>,
) -> Begun
    requires { HasKind language kind }
    ensures { IfOk result (λ session. (session.language ≡ language)
        × (tree : Fragment) × IsOpened (state_of session.editor) kind tree) }
{
    let name = kind_name(language.definition(), kind);
    let phylum = Txt::copy_of(alloc, name)?;
    let mut session = Session::new(alloc, language)?;
    let command = Command::New { phylum };
    let reply = session.apply(alloc, &command, files, steps);
    // here and not at the end, where the proof would take each command apart on each way out
    drop(command);
    let reply = reply?;
    match refusal_of(reply) {
        Some(refusal) => Err(NoProgram::Refused(refusal)),
        None => Ok(session),
    }
}

/// Puts the text in place of the whole program.
fn put_text<F: Files, L: Ledger>(
    alloc: Global,
    mut session: Session,
    text: Txt,
    files: &mut F,
    steps: &mut Steps<L>,
) -> Begun
    ensures { IfOk result (λ new. (new.language ≡ session.language)
        × ((kind : PlainKind) (tree : Fragment) → IsOpened (state_of session.editor) kind tree
        → (grown : Fragment) × IsOpened (state_of new.editor) kind grown)) }
{
    let path = Path::of(alloc, &[])?;
    let command = Command::Over {
        at: Where::At(path),
        text,
    };
    let reply = session.apply(alloc, &command, files, steps);
    // here and not at the end, where the proof would take each command apart on each way out
    drop(command);
    let reply = reply?;
    match refusal_of(reply) {
        Some(refusal) => Err(NoProgram::Refused(refusal)),
        None => Ok(session),
    }
}

/// Returns the refusal, if the reply is one.
fn refusal_of(reply: Reply) -> Option<Refusal>
    ensures { result ≡ refusal_in (reply_of reply) }
{
    match reply {
        Reply::Refused(refusal) => Some(refusal),
        Reply::Answered(_) => None,
        Reply::Marked(_) => None,
        Reply::Shown(_, _) => None,
        Reply::Seen(_) => None,
    }
}

/// Returns the printed text of the program that the bytes are.
fn text_in<L: Ledger>(
    alloc: Global,
    language: &Language,
    kind: Kind,
    bytes: &[u8],
    steps: &mut Steps<L>,
) -> Result<Txt, NoProgram>
    requires { HasKind language.now kind }
{
    let program = match read_program(alloc, language, kind, bytes, steps) {
        Ok(program) => program,
        Err(ProgramFault::Memory) => return Err(NoProgram::Memory),
        Err(ProgramFault::Syntax(fault)) => {
            let place = fault.place;
            return Err(NoProgram::Syntax(place, fault.message));
        }
    };
    let printed = unparse(alloc, language.definition(), &program.tree)?;
    Ok(printed.text.share()?)
}
