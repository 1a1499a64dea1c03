//! What is found in a program file.
ghost use Rattle.std.specs.Prelude.{◌≡◌, IfOk, string_bytes};
ghost use Rattle.psg_defcomment.specs.Reading.{IsCommentOf};
ghost use Rattle.psg_grammar.specs.Kinds.{HasKind};
ghost use Rattle.psg_grammar.specs.WellFormed.{fixed_words};
ghost use Rattle.psg_recover.specs.Findings.{has_error as has_error_of};
ghost use Rattle.psg_specimen.specs.Languages.{IsDeclaringPhylum};
ghost use Rattle.psg_run.specs.Formatting.{most_program_bytes};
ghost use Rattle.psg_run.specs.Linting.{IsLint, Lints, LintsFile, TellsLint, ending as ending_of};
ghost use Rattle.psg_run.specs.Promise.{IsRunOf, lint as lint_form};
ghost use Rattle.psg_run.specs.Reading.{Reads};
ghost use Rattle.psg_run.specs.Worlds.{Incoming, seen};
ghost use Rattle.psg_session.specs.Exchanges.{Outside};

use crate::formatting::{kind_of, put_text};
use crate::limits::MOST_PROGRAM_BYTES;
use crate::source::{Defined, read_defined, read_within};
use crate::status::Status;
use crate::without::without_comments;
use psg_grammar::Kind;
use psg_lint::{Finding, Grade, Report, lint, report_text};
use psg_specimen::Language;
use psg_terms::Steps;
use psg_world::{Files, Sink};
use std::alloc::{AllocError, Global};
use std::sync::ledger::Ledger;

/// What is said of a program file, and how the run ends where that is put whole.
#[derive(Drop)]
struct Told {
    text: String,
    done: Status,
}

/// Says whether one of them is an error.
fn has_error(found: &[Finding]) -> bool
    ensures { result ≡ has_error_of found.now }
{
    found.iter().any(|one| matches!(one.grade, Grade::Error))
}

/// Returns how a run ends that has put the report.
fn ending(report: &Report) -> Status
    ensures { result ≡ ending_of report.now.found.items }
{
    if has_error(report.found.as_slice()) {
        Status::Wrong
    } else {
        Status::Done
    }
}

/// Writes what is found in the bytes of the file.
fn told_of<L: Ledger>(
    alloc: Global,
    language: &Language,
    kind: Kind,
    file: &str,
    bytes: &[u8],
    steps: &mut Steps<L>,
) -> Result<Told, AllocError>
    requires kind { HasKind language.now kind }
    requires quiet_kind { IsDeclaringPhylum language.now kind → ⊥ }
    ensures { IfOk result (λ told. IsLint language.now file.now kind bytes.now (string_bytes told.text) told.done) }
{
    let report = lint(alloc, language, kind, bytes, steps)?;
    let text = report_text(alloc, file, bytes, &report)?;
    let done = ending(&report);
    Ok(Told { text, done })
}

/// Puts what is found in the bytes of the file, and returns how that ended.
fn tell<O: Sink, L: Ledger>(
    alloc: Global,
    language: &Language,
    kind: Kind,
    file: &str,
    bytes: &[u8],
    out: &mut O,
    steps: &mut Steps<L>,
) -> Status
    requires kind { HasKind language.now kind }
    requires quiet_kind { IsDeclaringPhylum language.now kind → ⊥ }
    ensures { (files : Outside) (input : Incoming) → TellsLint language.now file.now kind bytes.now
        (seen files.held files.entries input steps.old (O.written out.old) (O.faults out.old))
        (seen files.held files.entries input steps.new (O.written out.new) (O.faults out.new)) result }
{
    match told_of(alloc, language, kind, file, bytes, steps) {
        Ok(told) => put_text(alloc, out, told.text.as_str(), told.done),
        Err(_) => Status::Memory,
    }
}

/// Puts what is found in the bytes of the file without their comments, and returns how that ended.
fn tell_without<O: Sink, L: Ledger>(
    alloc: Global,
    defined: &Defined,
    kind: Kind,
    file: &str,
    bytes: &[u8],
    out: &mut O,
    steps: &mut Steps<L>,
) -> Status
    requires fit { IsCommentOf (fixed_words defined.now.language) defined.now.comment }
    requires kind { HasKind defined.now.language kind }
    requires quiet_kind { IsDeclaringPhylum defined.now.language kind → ⊥ }
    ensures { (files : Outside) (input : Incoming)
        → LintsFile defined.now.language defined.now.comment file.now kind bytes.now
        (seen files.held files.entries input steps.old (O.written out.old) (O.faults out.old))
        (seen files.held files.entries input steps.new (O.written out.new) (O.faults out.new)) result }
{
    let Ok(own) = without_comments(alloc, defined, bytes) else {
        return Status::Memory;
    };
    tell(
        alloc,
        &defined.language,
        kind,
        file,
        own.bytes.as_slice(),
        out,
        steps,
    )
}

/// Reads the file and puts what is found in it.
fn tell_file<F: Files, O: Sink, L: Ledger>(
    alloc: Global,
    defined: &Defined,
    kind: Kind,
    file: &str,
    files: &mut F,
    out: &mut O,
    steps: &mut Steps<L>,
) -> Status
    requires fit { IsCommentOf (fixed_words defined.now.language) defined.now.comment }
    requires kind { HasKind defined.now.language kind }
    requires quiet_kind { IsDeclaringPhylum defined.now.language kind → ⊥ }
    ensures { (input : Incoming) → Reads file.now most_program_bytes
        (LintsFile defined.now.language defined.now.comment file.now kind)
        (seen (F.holds files.old) (F.faults files.old) input steps.old (O.written out.old) (O.faults out.old))
        (seen (F.holds files.new) (F.faults files.new) input steps.new (O.written out.new) (O.faults out.new))
        result }
{
    let bytes = match read_within(alloc, file, MOST_PROGRAM_BYTES, files) {
        Ok(bytes) => bytes,
        Err(status) => return status,
    };
    tell_without(alloc, defined, kind, file, bytes.as_slice(), out, steps)
}

/// Looks up the kind, reads the file, and puts what is found in it.
fn tell_kind<F: Files, O: Sink, L: Ledger>(
    alloc: Global,
    defined: &Defined,
    name: &str,
    file: &str,
    files: &mut F,
    out: &mut O,
    steps: &mut Steps<L>,
) -> Status
    requires fit { IsCommentOf (fixed_words defined.now.language) defined.now.comment }
    ensures { (input : Incoming) → Lints defined.now.language defined.now.comment name.now file.now
        (seen (F.holds files.old) (F.faults files.old) input steps.old (O.written out.old) (O.faults out.old))
        (seen (F.holds files.new) (F.faults files.new) input steps.new (O.written out.new) (O.faults out.new))
        result }
{
    let kind = match kind_of(alloc, &defined.language, name, out) {
        Ok(kind) => kind,
        Err(status) => return status,
    };
    tell_file(alloc, defined, kind, file, files, out, steps)
}

/// Puts what is found in the file without its comments, which is to have a program of the kind. The order of tests is
/// that of `format`.
pub fn lint_file<F: Files, O: Sink, L: Ledger>(
    alloc: Global,
    definition: &str,
    kind: &str,
    file: &str,
    files: &mut F,
    out: &mut O,
    steps: &mut Steps<L>,
) -> Status
    ensures { (input : Incoming) → IsRunOf (lint_form definition.now kind.now file.now)
        (seen (F.holds files.old) (F.faults files.old) input steps.old (O.written out.old) (O.faults out.old))
        (seen (F.holds files.new) (F.faults files.new) input steps.new (O.written out.new) (O.faults out.new))
        result }
{
    let defined = match read_defined(alloc, definition, files, out) {
        Ok(defined) => defined,
        Err(status) => return status,
    };
    tell_kind(alloc, &defined, kind, file, files, out, steps)
}
