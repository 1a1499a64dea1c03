//! The definition that a script builds in the language of definitions, written to a file.
ghost use Rattle.std.specs.Prelude.{ℕ, ◌≡◌, ◌++◌, ◌↔◌, List, Option, Some, IfErr, IfOk, IsTrue, MatchResult, codes};
ghost use Rattle.std.specs.Prelude.{string_bytes};
ghost use Rattle.std.specs.List.{AllByRecursion};
ghost use Rattle.psg_defread.specs.Refusals.{Refusal};
ghost use Rattle.psg_grammar.specs.Sound.{IsSound};
ghost use Rattle.psg_grammar.specs.WellFormed.{IsComplete, WellFormed, fixed_words};
ghost use Rattle.psg_grammar.specs.declared.types.Definition.{Definition as Plain};
ghost use Rattle.psg_grammar.specs.declared.types.Kind.{Kind};
ghost use Rattle.psg_grammar.specs.declared.types.Kind.TheVariants as kinds;
ghost use Rattle.psg_lexis.specs.Tokens.{IsFixedWord};
ghost use Rattle.psg_run.specs.Exporting.{Exports, IsCheckLine, IsExport, IsReadOnlyAs};
ghost use Rattle.psg_run.specs.Promise.{IsRunOf, itself as itself_of};
ghost use Rattle.psg_run.specs.Reading.{IsRefusalLine, Reads, most_script_bytes};
ghost use Rattle.psg_run.specs.Scripts.{script_lines};
ghost use Rattle.psg_run.specs.Worlds.{Incoming, seen};
ghost use Rattle.psg_self.specs.Export.{IsExportFault, exported};
ghost use Rattle.psg_self.specs.SelfLanguage.{IsSelf};
ghost use Rattle.psg_session.specs.Marked.{path_text};
ghost use Rattle.psg_session.specs.PlainState.{Opened};
ghost use Rattle.psg_session.specs.Replies.{feed};
ghost use Rattle.psg_session.specs.Sessions.{state_of};
ghost use Rattle.psg_specimen.specs.Refusal.{Refuses};

use crate::limits::MOST_SCRIPT_BYTES;
use crate::paths::push_path;
use crate::silent::apply_all;
use crate::source::{language_of, put_line, read_within, write_status};
use crate::status::Status;
use psg_defread::{DefFault, fault_text};
use psg_grammar::Definition;
use psg_langs::SELF;
use psg_self::{ExportFault, check_export, export, is_self};
use psg_session::Session;
use psg_specimen::{AcceptFault, Language, Refused, accept, accept_text};
use psg_terms::{Steps, uncountable};
use psg_tree::{Path, Shape, Tree};
use psg_world::{Files, Sink, WriteStop, put_all};
use std::alloc::{AllocError, Global};
use std::sync::ledger::Ledger;

/// Writes the line that names the first open place of a program, with its line feed.
fn unfinished_line(alloc: Global, path: &Path) -> Result<String, AllocError>
    ensures { IfOk result (λ line. string_bytes line ≡ feed (codes "unfinished " ++ path_text path.now)) }
{
    let mut line = String::from_str(alloc, "unfinished ")?;
    push_path(&mut line, path)?;
    line.push_str("\n")?;
    Ok(line)
}

/// Writes why a definition is not accepted.
fn refusal_of(alloc: Global, refused: &Refused) -> Result<String, AllocError>
    requires refuses { Refuses refused.now.definition refused.now.fault }
    ensures { IfOk result (λ line. (bytes : List ℕ) → IsReadOnlyAs bytes refused.now.definition
        → IsRefusalLine bytes (string_bytes line)) }
{
    if let AcceptFault::Memory = refused.fault {
        return Err(AllocError);
    }
    accept_text(alloc, refused)
}

/// Writes the line that `check` writes for bytes that were read as a definition.
fn line_of_read(alloc: Global, definition: Definition) -> Result<String, AllocError>
    requires sound { IsSound definition }
    requires words { AllByRecursion IsFixedWord (fixed_words definition) }
    ensures { IfOk result (λ line. (bytes : List ℕ) → IsReadOnlyAs bytes definition
        → IsCheckLine bytes (string_bytes line)) }
{
    match accept(alloc, definition) {
        Ok(_) => String::from_str(alloc, "accepted"),
        Err(refused) => refusal_of(alloc, &refused),
    }
}

/// Writes the line that `check` writes for bytes of which this was read.
fn check_line(alloc: Global, read: Result<Definition, DefFault>) -> Result<String, AllocError>
    requires sound { IfOk read IsSound }
    requires words { IfOk read (λ d. AllByRecursion IsFixedWord (fixed_words d)) }
    ensures { IfOk result (λ line. (bytes : List ℕ) → MatchResult read (IsReadOnlyAs bytes) (Refusal bytes)
        → IsCheckLine bytes (string_bytes line)) }
{
    match read {
        Ok(definition) => line_of_read(alloc, definition),
        Err(fault) => fault_text(alloc, &fault),
    }
}

/// The text of a program, and what is said once it is written.
#[derive(Drop)]
struct Ready {
    bytes: Vec<u8>,
    line: String,
}

/// Writes the text of a program of the language of definitions, and the line that `check` would write for it.
fn prepared(alloc: Global, language: &Language, tree: &Tree) -> Result<Ready, ExportFault>
    requires itself { IsSelf language.now }
    requires formed { WellFormed language.now tree.now (kinds.List 0) }
    ensures complete { IfOk result (λ _. IsComplete tree.now) }
    ensures bytes { IfOk result (λ p. p.bytes.items ≡ exported tree.now) }
    ensures line { IfOk result (λ p. IsCheckLine (exported tree.now) (string_bytes p.line)) }
    ensures err { IfErr result (IsExportFault language.now tree.now) }
{
    let bytes = export(alloc, language, tree)?;
    let length = bytes.as_slice().len();
    if length >= 0xffff_ffff {
        return Err(ExportFault::from(uncountable(length)));
    }
    let read = check_export(alloc, language, tree)?;
    let line = check_line(alloc, read)?;
    Ok(Ready { bytes, line })
}

/// Writes the two lines that are said of a definition that was written.
fn told_lines(alloc: Global, line: &str) -> Result<String, AllocError>
    ensures { IfOk result (λ text. string_bytes text ≡ feed (codes "exported") ++ feed line.now) }
{
    format!(in alloc; "exported\n{line}\n")
}

/// Writes the text of a program of the language of definitions to the file, and returns what is said of that. Where
/// memory runs out, the file is not written.
fn export_to<F: Files>(
    alloc: Global,
    language: &Language,
    tree: &Tree,
    file: &str,
    files: &mut F,
) -> Result<String, AllocError>
    requires itself { IsSelf language.now }
    requires formed { WellFormed language.now tree.now (kinds.List 0) }
    ensures ok { IfOk result (λ text. (opened : Option Opened) (old : Opened) → opened ≡ Some old
        → old.kind ≡ kinds.List 0 → old.tree ≡ tree.now → IsExport language.now file.now opened
        (record { held = F.holds files.old; entries = F.faults files.old })
        (record { held = F.holds files.new; entries = F.faults files.new }) (string_bytes text)) }
    ensures holds { IfErr result (λ _. F.holds files.new ≡ F.holds files.old) }
    ensures entries { IfErr result (λ _. F.faults files.new ≡ F.faults files.old) }
{
    let Ready { bytes, line } = match prepared(alloc, language, tree) {
        Ok(made) => made,
        Err(ExportFault::Unfinished(path)) => return unfinished_line(alloc, &path),
        Err(ExportFault::Memory) => return Err(AllocError),
    };
    let told = told_lines(alloc, line.as_str())?;
    let lost = String::from_str(alloc, "refused 18\n")?;
    match files.replace(alloc, file, bytes.as_slice()) {
        Ok(()) => Ok(told),
        Err(WriteStop::Failed) => Ok(lost),
        Err(WriteStop::Memory) => Err(AllocError),
    }
}

/// Says whether a program is one of the kind of whole definitions, a list of lines.
fn is_lines(tree: &Tree) -> bool
    ensures { (def : Plain) (kind : Kind) → WellFormed def tree.now kind → IsTrue result ↔ (kind ≡ kinds.List 0) }
{
    match tree.shape() {
        Shape::List { list, .. } => *list == 0,
        Shape::Op { .. } => false,
        Shape::Hole { .. } => false,
    }
}

/// Writes the text of the opened program to the file, if it is a whole definition, and returns what is said of that.
/// Where memory runs out, the file is not written.
fn report<F: Files>(
    alloc: Global,
    session: &Session,
    file: &str,
    files: &mut F,
) -> Result<String, AllocError>
    requires itself { IsSelf session.now.language }
    ensures ok { IfOk result (λ text. IsExport session.now.language file.now (state_of session.now.editor).opened
        (record { held = F.holds files.old; entries = F.faults files.old })
        (record { held = F.holds files.new; entries = F.faults files.new }) (string_bytes text)) }
    ensures holds { IfErr result (λ _. F.holds files.new ≡ F.holds files.old) }
    ensures entries { IfErr result (λ _. F.faults files.new ≡ F.faults files.old) }
{
    let note = match session.note() {
        Some(note) => note,
        None => return String::from_str(alloc, "none\n"),
    };
    let tree = note.tree();
    if !is_lines(tree) {
        return String::from_str(alloc, "refused 5\n");
    }
    export_to(alloc, session.language(), tree, file, files)
}

/// Plays the script on a new session of the language, writes what is opened then to the file, puts what is said of
/// that, and returns how the run ended.
fn tell<F: Files, O: Sink, L: Ledger>(
    alloc: Global,
    language: Language,
    script: &[u8],
    file: &str,
    files: &mut F,
    out: &mut O,
    steps: &mut Steps<L>,
) -> Status
    requires itself { IsSelf language }
    ensures { (input : Incoming) → Exports language file.now (script_lines script.now)
        (seen (F.holds files.old) (F.faults files.old) input steps.old (O.written out.old) (O.faults out.old))
        (seen (F.holds files.new) (F.faults files.new) input steps.new (O.written out.new) (O.faults out.new))
        result }
{
    let Ok(mut session) = Session::new(alloc, language) else {
        return Status::Memory;
    };
    if let Err(_) = apply_all(alloc, &mut session, script, files, steps) {
        return Status::Memory;
    }
    let text = match report(alloc, &session, file, files) {
        Ok(text) => text,
        Err(_) => return Status::Memory,
    };
    match put_all(alloc, out, text.as_bytes()) {
        Ok(()) => Status::Done,
        Err(stop) => write_status(stop),
    }
}

/// Reads the script, plays it on a new session of the language, and writes what is opened then to the file.
fn export_file<F: Files, O: Sink, L: Ledger>(
    alloc: Global,
    language: Language,
    script: &str,
    file: &str,
    files: &mut F,
    out: &mut O,
    steps: &mut Steps<L>,
) -> Status
    requires itself { IsSelf language }
    ensures { (input : Incoming) → Reads script.now most_script_bytes
        (λ bytes. Exports language file.now (script_lines bytes))
        (seen (F.holds files.old) (F.faults files.old) input steps.old (O.written out.old) (O.faults out.old))
        (seen (F.holds files.new) (F.faults files.new) input steps.new (O.written out.new) (O.faults out.new))
        result }
{
    let bytes = match read_within(alloc, script, MOST_SCRIPT_BYTES, files) {
        Ok(bytes) => bytes,
        Err(status) => return status,
    };
    tell(alloc, language, bytes.as_slice(), file, files, out, steps)
}

/// Plays the script on the language of definitions, writes the definition that is opened then to the file, and puts
/// what is said of that. The order of tests is: the language is a definition, it is accepted, it is the one that is
/// meant, the script is read, its length, then its lines.
pub fn export_self<F: Files, O: Sink, L: Ledger>(
    alloc: Global,
    script: &str,
    file: &str,
    files: &mut F,
    out: &mut O,
    steps: &mut Steps<L>,
) -> Status
    ensures { (input : Incoming) → IsRunOf (itself_of script.now file.now)
        (seen (F.holds files.old) (F.faults files.old) input steps.old (O.written out.old) (O.faults out.old))
        (seen (F.holds files.new) (F.faults files.new) input steps.new (O.written out.new) (O.faults out.new))
        result }
{
    let language = match language_of(alloc, SELF.as_bytes(), out) {
        Ok(language) => language,
        Err(status) => return status,
    };
    if !is_self(&language) {
        return put_line(alloc, out, "refused Self", Status::DefinitionRefused);
    }
    export_file(alloc, language, script, file, files, out, steps)
}
