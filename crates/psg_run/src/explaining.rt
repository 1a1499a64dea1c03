//! Why the program of a script has no completion.
ghost use Rattle.std.specs.Prelude.{ℕ, ◌≡◌, ◌≤◌, ◌+◌, ◌*◌, List, IfOk, IsTrue, string_bytes};
ghost use Rattle.psg_cache.specs.Annotated.{tree_in};
ghost use Rattle.psg_cache.specs.Notes.{IsFormed, IsNoteOf};
ghost use Rattle.psg_explain.specs.Explanations.{IsAbout, IsFirstCulprit};
ghost use Rattle.psg_explain.specs.Refutations.{Refutes};
ghost use Rattle.psg_grammar.specs.Fragments.{Fragment};
ghost use Rattle.psg_grammar.specs.Paths.{Path};
ghost use Rattle.psg_grammar.specs.Work.{work_of};
ghost use Rattle.psg_run.specs.Explaining.{AreRefutationLines, AreSaid, Explains, IsSaid, most_said};
ghost use Rattle.psg_run.specs.Promise.{IsRunOf, explain as explain_of};
ghost use Rattle.psg_run.specs.Reading.{Reads, most_script_bytes};
ghost use Rattle.psg_run.specs.Scripts.{script_lines};
ghost use Rattle.psg_run.specs.Worlds.{Incoming, seen};
ghost use Rattle.psg_session.specs.Replies.{feed_all};
ghost use Rattle.psg_session.specs.Sessions.{state_of};

use crate::limits::MOST_SCRIPT_BYTES;
use crate::refutation_texts::{culprit_text, twice_text};
use crate::silent::apply_all;
use crate::source::{read_language, read_within, write_status};
use crate::status::Status;
use psg_cache::Note;
use psg_explain::laws::{claims_in_order, ends_at_culprit};
use psg_explain::{Explained, Refutation, check_refutation, explain, last_reasons};
use psg_session::Session;
use psg_specimen::Language;
use psg_specimen::laws::promises;
use psg_terms::Steps;
use psg_tree::Tree;
use psg_world::{Files, Sink, put_all};
use std::alloc::{AllocError, Global};
use std::sync::ledger::Ledger;

/// Writes the lines of the refutation, which is of the first culprit.
fn refutation_text(
    alloc: Global,
    language: &Language,
    tree: &Tree,
    refutation: &Refutation,
) -> Result<String, AllocError>
    requires formed { IsFormed language.now tree.now }
    requires right { Refutes language.now tree.now refutation.now }
    requires about { (path : Path) × (node : Fragment) × IsFirstCulprit language.now tree.now path node
        × IsAbout language.now path node refutation.now }
    ensures { IfOk result (λ text. (lines : List (List ℕ))
        × AreRefutationLines language.now tree.now refutation.now lines × (string_bytes text ≡ feed_all lines)) }
{
    let told = last_reasons(alloc, language, tree, refutation)?;
    let definition = language.definition();
    promises(definition);
    claims_in_order();
    ends_at_culprit();
    match refutation {
        Refutation::Twice { path, space, name } => {
            twice_text(alloc, definition, path, *space, name.as_str())
        }
        Refutation::Empty { path, claims } => {
            let claims = claims.as_slice();
            culprit_text(alloc, definition, tree, path, claims, told.as_slice())
        }
    }
}

/// Checks the refutation, which is of the first culprit, and writes its lines then.
fn checked_text(
    alloc: Global,
    language: &Language,
    tree: &Tree,
    refutation: &Refutation,
) -> Result<String, AllocError>
    requires formed { IsFormed language.now tree.now }
    requires right { Refutes language.now tree.now refutation.now }
    requires about { (path : Path) × (node : Fragment) × IsFirstCulprit language.now tree.now path node
        × IsAbout language.now path node refutation.now }
    ensures { IfOk result (λ text. (lines : List (List ℕ))
        × AreRefutationLines language.now tree.now refutation.now lines × (string_bytes text ≡ feed_all lines)) }
{
    let right = check_refutation(alloc, language, tree, refutation)?;
    if !right {
        unreachable!()
    }
    refutation_text(alloc, language, tree, refutation)
}

/// Writes what is said of the noted program: that it has a completion, that to say why not takes too long, or why not.
fn noted_text<L: Ledger>(
    alloc: Global,
    language: &Language,
    note: &Note,
    steps: &mut Steps<L>,
) -> Result<String, AllocError>
    requires { IsNoteOf language.now (tree_in note.now) note.now }
    ensures text { IfOk result (λ text. (lines : List (List ℕ)) × AreSaid language.now (tree_in note.now) lines
        × (string_bytes text ≡ feed_all lines)) }
    ensures ticks { steps.new ≤ steps.old + 2 * work_of (tree_in note.now) }
{
    let explained = explain(alloc, language, note, steps)?;
    match explained {
        Explained::Fine => String::from_str(alloc, "ok\n"),
        Explained::Long => String::from_str(alloc, "long\n"),
        Explained::Wrong(refutation) => { checked_text(alloc, language, note.tree(), &refutation) }
    }
}

/// Writes what is said of the opened program; the line `none`, if nothing is opened.
fn opened_text<L: Ledger>(
    alloc: Global,
    session: &Session,
    steps: &mut Steps<L>,
) -> Result<String, AllocError>
    ensures text { IfOk result (λ text. IsSaid session.now.language (state_of session.now.editor).opened
        (string_bytes text)) }
    ensures ticks { steps.new ≤ steps.old + most_said (state_of session.now.editor).opened }
{
    match session.note() {
        Some(note) => noted_text(alloc, session.language(), note, steps),
        None => String::from_str(alloc, "none\n"),
    }
}

/// Plays the script on a new session of the language, puts what is said of what is opened then, and returns how that
/// ended.
fn tell<F: Files, O: Sink, L: Ledger>(
    alloc: Global,
    language: Language,
    script: &[u8],
    files: &mut F,
    out: &mut O,
    steps: &mut Steps<L>,
) -> Status
    ensures { (input : Incoming) → Explains language (script_lines script.now)
        (seen (F.holds files.old) (F.faults files.old) input steps.old (O.written out.old) (O.faults out.old))
        (seen (F.holds files.new) (F.faults files.new) input steps.new (O.written out.new) (O.faults out.new))
        result }
{
    let Ok(mut session) = Session::new(alloc, language) else {
        return Status::Memory;
    };
    if let Err(_) = apply_all(alloc, &mut session, script, files, steps) {
        return Status::Memory;
    }
    let text = match opened_text(alloc, &session, steps) {
        Ok(text) => text,
        Err(_) => return Status::Memory,
    };
    match put_all(alloc, out, text.as_bytes()) {
        Ok(()) => Status::Done,
        Err(stop) => write_status(stop),
    }
}

/// Reads the script, plays it on a new session of the language, and puts what is said of what is opened then.
fn explain_file<F: Files, O: Sink, L: Ledger>(
    alloc: Global,
    language: Language,
    script: &str,
    files: &mut F,
    out: &mut O,
    steps: &mut Steps<L>,
) -> Status
    ensures { (input : Incoming) → Reads script.now most_script_bytes
        (λ bytes. Explains language (script_lines bytes))
        (seen (F.holds files.old) (F.faults files.old) input steps.old (O.written out.old) (O.faults out.old))
        (seen (F.holds files.new) (F.faults files.new) input steps.new (O.written out.new) (O.faults out.new))
        result }
{
    let bytes = match read_within(alloc, script, MOST_SCRIPT_BYTES, files) {
        Ok(bytes) => bytes,
        Err(status) => return status,
    };
    tell(alloc, language, bytes.as_slice(), files, out, steps)
}

/// Plays the script on the definition in silence, and puts why the program that is opened then has no completion. The
/// order of tests is that of `edit`.
pub fn explain_script<F: Files, O: Sink, L: Ledger>(
    alloc: Global,
    definition: &str,
    script: &str,
    files: &mut F,
    out: &mut O,
    steps: &mut Steps<L>,
) -> Status
    ensures { (input : Incoming) → IsRunOf (explain_of definition.now script.now)
        (seen (F.holds files.old) (F.faults files.old) input steps.old (O.written out.old) (O.faults out.old))
        (seen (F.holds files.new) (F.faults files.new) input steps.new (O.written out.new) (O.faults out.new))
        result }
{
    let language = match read_language(alloc, definition, files, out) {
        Ok(language) => language,
        Err(status) => return status,
    };
    explain_file(alloc, language, script, files, out, steps)
}
