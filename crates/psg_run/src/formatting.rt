//! The text that a program file is to have.
ghost use Rattle.std.specs.Prelude.{ℕ, ◌≡◌, Bool, List, Option, IfErr, IfOk, IsUtf8, Some, string_bytes};
ghost use Rattle.psg_grammar.specs.Kinds.{HasKind, kind_name_of};
ghost use Rattle.psg_grammar.specs.declared.types.Definition.{Definition as Plain};
ghost use Rattle.psg_grammar.specs.declared.types.Kind.{Kind as PlainKind};
ghost use Rattle.psg_grammar.specs.Fragments.{Fragment};
ghost use Rattle.psg_grammar.specs.WellFormed.{fixed_words};
ghost use Rattle.psg_class.specs.Texts.{TextTokens};
ghost use Rattle.psg_comments.specs.declared.finding.Comment.{Comment as Aside};
ghost use Rattle.psg_defcomment.specs.Reading.{IsCommentOf};
ghost use Rattle.psg_terms.specs.Names.{Name};
ghost use Rattle.psg_program.specs.Decoding.{unmarked};
ghost use Rattle.psg_program.specs.Programs.{HasCounted, IsProgram, IsProgramFault};
ghost use Rattle.psg_run.specs.Formatting.{Formats, FormatsFile, IsFormatCheck, IsTold, IsWanted, OnKind, TellsProgram};
ghost use Rattle.psg_run.specs.Formatting.{error_line as error_line_of, most_program_bytes};
ghost use Rattle.psg_run.specs.Promise.{IsRunOf};
ghost use Rattle.psg_run.specs.Reading.{Nowhere, Reads};
ghost use Rattle.psg_run.specs.Wanted.{formatting};
ghost use Rattle.psg_run.specs.Without.{IsWithout};
ghost use Rattle.psg_run.specs.Worlds.{Incoming, Puts, seen};
ghost use Rattle.psg_session.specs.Exchanges.{Outside};
ghost use Rattle.psg_session.specs.Replies.{feed};
ghost use Rattle.psg_specimen.specs.Languages.{IsDeclaringPhylum};

use crate::limits::MOST_PROGRAM_BYTES;
use crate::source::{Defined, put_line, read_defined, read_within, write_status};
use crate::status::Status;
use crate::without::{Own, without_comments};
use psg_commented::with_comments;
use psg_comments::Comment;
use psg_grammar::{Kind, kind_named};
use psg_program::{
    Place, Program, ProgramFault, first_difference, formatted, read_program,
    unmarked as unmarked_part,
};
use psg_specimen::Language;
use psg_terms::Steps;
use psg_unparse::unparse;
use psg_world::{Files, Sink, put_all};
use std::alloc::{AllocError, Global};
use std::sync::ledger::Ledger;

/// Returns the phylum or list of the name. Where there is none, or it is a phylum that declares, the line of the
/// refusal is put, and the status says how that ended.
pub(crate) fn kind_of<O: Sink>(
    alloc: Global,
    language: &Language,
    name: &str,
    out: &mut O,
) -> Result<Kind, Status>
    ensures kind { IfOk result (λ kind. kind_name_of language.now kind ≡ Some name.now) }
    ensures quiet_kind { IfOk result (λ kind. IsDeclaringPhylum language.now kind → ⊥) }
    ensures there { IfOk result (HasKind language.now) }
    ensures quiet { IfOk result (λ _. out.new ≡ out.old) }
    ensures err { IfErr result (λ status. (files : Outside) (input : Incoming) (ticks : ℕ)
        → OnKind language.now name.now (λ _. Nowhere)
        (seen files.held files.entries input ticks (O.written out.old) (O.faults out.old))
        (seen files.held files.entries input ticks (O.written out.new) (O.faults out.new)) status) }
{
    let kind = match kind_named(language.definition(), name) {
        Some(kind) => kind,
        None => return Err(put_line(alloc, out, "refused 4", Status::Wrong)),
    };
    if language.is_declaring(kind) {
        return Err(put_line(alloc, out, "refused 21", Status::Wrong));
    }
    Ok(kind)
}

/// What is said of a program file, and how the run ends where that is put whole.
#[derive(Drop)]
struct Told {
    text: String,
    done: Status,
}

/// Writes the line of an error at a place of the file, with its line feed.
fn error_line(alloc: Global, file: &str, place: Place, message: &str) -> Result<String, AllocError>
    ensures { IfOk result (λ text. string_bytes text
        ≡ feed (error_line_of file.now place.line place.column message.now)) }
{
    let Place { line, column } = place;
    let text = format!(in alloc; "{file}:{line}:{column}: error: {message}\n")?;
    Ok(text)
}

/// Writes why the bytes of the file without their comments are no program.
fn told_fault(alloc: Global, file: &str, fault: ProgramFault) -> Result<Told, AllocError>
    ensures { IfOk result (λ told. (def : Plain) (comment : Option Name) (kind : PlainKind) (bytes : List ℕ)
        (comments : List Aside) (own : List ℕ) → IsProgramFault def kind own fault → (checks : Bool)
        → IsTold def comment file.now kind bytes comments own checks (string_bytes told.text) told.done) }
{
    match fault {
        ProgramFault::Syntax(error) => {
            let text = error_line(alloc, file, error.place, error.message.as_str())?;
            Ok(Told {
                text,
                done: Status::Wrong,
            })
        }
        ProgramFault::Memory => Err(AllocError),
    }
}

/// Writes in which line the bytes of the file are not the text first, or nothing where they are.
fn told_difference(
    alloc: Global,
    file: &str,
    bytes: &[u8],
    wanted: &str,
) -> Result<Told, AllocError>
    ensures { IfOk result (λ told. (def : Plain) (comment : Option Name) (kind : PlainKind) (comments : List Aside)
        (own : List ℕ) (f : Fragment) → IsProgram def kind own f
        → IsWanted def comment bytes.now comments own f wanted.now
        → IsFormatCheck def comment file.now kind bytes.now comments own (string_bytes told.text) told.done) }
{
    let Some(difference) = first_difference(bytes, wanted) else {
        return Ok(Told {
            text: String::new(alloc),
            done: Status::Done,
        });
    };
    let message = format!(in alloc; "not formatted: {}", difference.text)?;
    let place = Place {
        line: difference.line,
        column: 1,
    };
    let text = error_line(alloc, file, place, message.as_str())?;
    Ok(Told {
        text,
        done: Status::Wrong,
    })
}

/// Writes the text that the file is to have, whose tokens and tree are those of the program.
fn wanted_text(
    alloc: Global,
    defined: &Defined,
    bytes: &[u8],
    comments: &[Comment],
    program: &Program,
) -> Result<String, AllocError>
    requires fit { IsCommentOf (fixed_words defined.now.language) defined.now.comment }
    requires text { IsUtf8 (unmarked bytes.now) }
    ensures { IfOk result (λ text. (own : List ℕ)
        → TextTokens defined.now.language (unmarked own) program.now.tokens.items
        → IsWanted defined.now.language defined.now.comment bytes.now comments.now own program.now.tree
        (string_bytes text)) }
{
    let definition = defined.language.definition();
    let Some(token) = &defined.comment else {
        return formatted(alloc, definition, &program.tree);
    };
    let Ok(text) = str::from_utf8(unmarked_part(bytes)) else {
        unreachable!();
    };
    let printed = unparse(alloc, definition, &program.tree)?;
    with_comments(
        alloc,
        defined.language.lexis(),
        token.as_str(),
        text,
        program.tokens.as_slice(),
        comments,
        printed.text.as_str(),
    )
}

/// Writes the text that the file is to have, or where it only checks, in which line it does not have it first.
fn told_program(
    alloc: Global,
    defined: &Defined,
    file: &str,
    bytes: &[u8],
    comments: &[Comment],
    program: &Program,
    checks: bool,
) -> Result<Told, AllocError>
    requires fit { IsCommentOf (fixed_words defined.now.language) defined.now.comment }
    requires text { IsUtf8 (unmarked bytes.now) }
    ensures { IfOk result (λ told. (kind : PlainKind) (own : List ℕ)
        → TextTokens defined.now.language (unmarked own) program.now.tokens.items
        → IsProgram defined.now.language kind own program.now.tree
        → IsTold defined.now.language defined.now.comment file.now kind bytes.now comments.now own checks
        (string_bytes told.text) told.done) }
{
    let text = wanted_text(alloc, defined, bytes, comments, program)?;
    if checks {
        return told_difference(alloc, file, bytes, text.as_str());
    }
    Ok(Told {
        text,
        done: Status::Done,
    })
}

/// Writes what is said of the bytes of the file, where they are given without their comments too.
fn told_of<L: Ledger>(
    alloc: Global,
    defined: &Defined,
    kind: Kind,
    file: &str,
    bytes: &[u8],
    own: &Own,
    checks: bool,
    steps: &mut Steps<L>,
) -> Result<Told, AllocError>
    requires fit { IsCommentOf (fixed_words defined.now.language) defined.now.comment }
    requires kind { HasKind defined.now.language kind }
    requires own { IsWithout (fixed_words defined.now.language) defined.now.comment bytes.now
        own.now.comments.items own.now.bytes.items }
    ensures told { IfOk result (λ told. IsTold defined.now.language defined.now.comment file.now kind bytes.now
        own.now.comments.items own.now.bytes.items checks (string_bytes told.text) told.done) }
    ensures steps { HasCounted defined.now.language (unmarked own.now.bytes.items) steps.old steps.new }
{
    match read_program(alloc, &defined.language, kind, own.bytes.as_slice(), steps) {
        Ok(program) => told_program(
            alloc,
            defined,
            file,
            bytes,
            own.comments.as_slice(),
            &program,
            checks,
        ),
        Err(fault) => told_fault(alloc, file, fault),
    }
}

/// Puts the text, and returns `done` where it was put whole.
pub(crate) fn put_text<O: Sink>(alloc: Global, out: &mut O, text: &str, done: Status) -> Status
    ensures { (files : Outside) (input : Incoming) (ticks : ℕ) → Puts text.now done
        (seen files.held files.entries input ticks (O.written out.old) (O.faults out.old))
        (seen files.held files.entries input ticks (O.written out.new) (O.faults out.new)) result }
{
    match put_all(alloc, out, text.as_bytes()) {
        Ok(()) => done,
        Err(stop) => write_status(stop),
    }
}

/// Puts what is said of the bytes of the file, and returns how that ended.
fn tell<O: Sink, L: Ledger>(
    alloc: Global,
    defined: &Defined,
    kind: Kind,
    file: &str,
    bytes: &[u8],
    own: &Own,
    checks: bool,
    out: &mut O,
    steps: &mut Steps<L>,
) -> Status
    requires fit { IsCommentOf (fixed_words defined.now.language) defined.now.comment }
    requires kind { HasKind defined.now.language kind }
    requires own { IsWithout (fixed_words defined.now.language) defined.now.comment bytes.now
        own.now.comments.items own.now.bytes.items }
    ensures { (files : Outside) (input : Incoming)
        → TellsProgram defined.now.language own.now.bytes.items
        (IsTold defined.now.language defined.now.comment file.now kind bytes.now own.now.comments.items
        own.now.bytes.items checks)
        (seen files.held files.entries input steps.old (O.written out.old) (O.faults out.old))
        (seen files.held files.entries input steps.new (O.written out.new) (O.faults out.new)) result }
{
    match told_of(alloc, defined, kind, file, bytes, own, checks, steps) {
        Ok(told) => put_text(alloc, out, told.text.as_str(), told.done),
        Err(_) => Status::Memory,
    }
}

/// Puts what is said of the bytes of the file without their comments, and returns how that ended.
fn tell_without<O: Sink, L: Ledger>(
    alloc: Global,
    defined: &Defined,
    kind: Kind,
    file: &str,
    bytes: &[u8],
    checks: bool,
    out: &mut O,
    steps: &mut Steps<L>,
) -> Status
    requires fit { IsCommentOf (fixed_words defined.now.language) defined.now.comment }
    requires kind { HasKind defined.now.language kind }
    ensures { (files : Outside) (input : Incoming)
        → FormatsFile checks defined.now.language defined.now.comment file.now kind bytes.now
        (seen files.held files.entries input steps.old (O.written out.old) (O.faults out.old))
        (seen files.held files.entries input steps.new (O.written out.new) (O.faults out.new)) result }
{
    let Ok(own) = without_comments(alloc, defined, bytes) else {
        return Status::Memory;
    };
    tell(alloc, defined, kind, file, bytes, &own, checks, out, steps)
}

/// Reads the file and puts what is said of it.
fn tell_file<F: Files, O: Sink, L: Ledger>(
    alloc: Global,
    defined: &Defined,
    kind: Kind,
    file: &str,
    checks: bool,
    files: &mut F,
    out: &mut O,
    steps: &mut Steps<L>,
) -> Status
    requires fit { IsCommentOf (fixed_words defined.now.language) defined.now.comment }
    requires kind { HasKind defined.now.language kind }
    ensures { (input : Incoming) → Reads file.now most_program_bytes
        (FormatsFile checks defined.now.language defined.now.comment file.now kind)
        (seen (F.holds files.old) (F.faults files.old) input steps.old (O.written out.old) (O.faults out.old))
        (seen (F.holds files.new) (F.faults files.new) input steps.new (O.written out.new) (O.faults out.new))
        result }
{
    let bytes = match read_within(alloc, file, MOST_PROGRAM_BYTES, files) {
        Ok(bytes) => bytes,
        Err(status) => return status,
    };
    tell_without(
        alloc,
        defined,
        kind,
        file,
        bytes.as_slice(),
        checks,
        out,
        steps,
    )
}

/// Looks up the kind, reads the file, and puts what is said of it.
fn tell_kind<F: Files, O: Sink, L: Ledger>(
    alloc: Global,
    defined: &Defined,
    name: &str,
    file: &str,
    checks: bool,
    files: &mut F,
    out: &mut O,
    steps: &mut Steps<L>,
) -> Status
    requires fit { IsCommentOf (fixed_words defined.now.language) defined.now.comment }
    ensures { (input : Incoming) → Formats checks defined.now.language defined.now.comment name.now file.now
        (seen (F.holds files.old) (F.faults files.old) input steps.old (O.written out.old) (O.faults out.old))
        (seen (F.holds files.new) (F.faults files.new) input steps.new (O.written out.new) (O.faults out.new))
        result }
{
    let kind = match kind_of(alloc, &defined.language, name, out) {
        Ok(kind) => kind,
        Err(status) => return status,
    };
    tell_file(alloc, defined, kind, file, checks, files, out, steps)
}

/// Puts the text that the file is to have, which has a program of the kind; or where it only checks, the first line in
/// which it does not have it. Comments are kept. The order of tests is: the definition is read, its length, whether it
/// is one, whether it is accepted, the kind, the file is read, its length, then its text.
pub fn format_file<F: Files, O: Sink, L: Ledger>(
    alloc: Global,
    definition: &str,
    kind: &str,
    file: &str,
    checks: bool,
    files: &mut F,
    out: &mut O,
    steps: &mut Steps<L>,
) -> Status
    ensures { (input : Incoming) → IsRunOf (formatting checks definition.now kind.now file.now)
        (seen (F.holds files.old) (F.faults files.old) input steps.old (O.written out.old) (O.faults out.old))
        (seen (F.holds files.new) (F.faults files.new) input steps.new (O.written out.new) (O.faults out.new))
        result }
{
    let defined = match read_defined(alloc, definition, files, out) {
        Ok(defined) => defined,
        Err(status) => return status,
    };
    tell_kind(alloc, &defined, kind, file, checks, files, out, steps)
}
