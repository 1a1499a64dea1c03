//! What is published of a document.
ghost use Rattle.std.specs.Prelude.{◌≡◌, ◌++◌, ◌≤◌, [], List, IfOk, length, map, not, position};
ghost use Rattle.serde_json.specs.Data.{Data};
ghost use Rattle.serde_json.specs.View.{view};
ghost use Rattle.psg_documents.specs.Positions.{AreStarts};
ghost use Rattle.psg_defcomment.specs.Reading.{IsCommentOf};
ghost use Rattle.psg_grammar.specs.WellFormed.{fixed_words};
ghost use Rattle.psg_grammar.specs.Kinds.{HasKind};
ghost use Rattle.psg_specimen.specs.Languages.{IsDeclaringPhylum};
ghost use Rattle.psg_server.specs.Diagnostics.{AreDiagnostics, IsDiagnostic, IsMarked, IsPublished};
ghost use Rattle.psg_server.specs.Diagnostics.{IsReported, byte_in, cleared_data, cleared_params};
ghost use Rattle.psg_server.specs.Diagnostics.{diagnostic_data, is_word, marked, publish_data};
ghost use Rattle.psg_server.specs.Diagnostics.{publish_params, severity_of, word_length};
ghost use Rattle.psg_server.specs.Judging.{OfJudged};

use crate::documents::Document;
use crate::fields::Told;
use crate::judging::{Defined, Judged, without_comments};
use crate::ranges::{Page, after, range_value};
use psg_documents::{Encoding, Lines};
use psg_grammar::Kind;
use psg_lint::{Finding, Grade, Report, lint};
use psg_messages::note;
use psg_program::unmarked;
use psg_specimen::Language;
use psg_terms::Steps;
use serde_json::{Value, json};
use std::alloc::{AllocError, Global};
use std::sync::ledger::Ledger;

/// Returns the number that the protocol has for the grade.
fn severity(grade: Grade) -> u8
    ensures { result ≡ severity_of grade }
{
    match grade {
        Grade::Error => 1,
        Grade::Warning => 2,
        Grade::Note => 4,
    }
}

/// Says whether the byte is one of a word.
fn is_word(byte: u8) -> bool
    ensures { result ≡ is_word byte }
{
    (48 <= byte && byte <= 57)
        || (65 <= byte && byte <= 90)
        || (97 <= byte && byte <= 122)
        || byte == 95
        || 128 <= byte
}

/// Returns where a word ends that the bytes begin with, if something follows.
fn word_end(bytes: &[u8]) -> Option<usize>
    ensures { result ≡ position (λ b. not (is_word b)) bytes.now }
{
    bytes.iter().position(|byte| !is_word(*byte))
}

/// Returns how many bytes of a word are at the beginning.
fn word_length(bytes: &[u8]) -> usize
    ensures is { result ≡ word_length bytes.now }
    ensures within { result ≤ length bytes.now }
{
    match word_end(bytes) {
        Some(count) => count,
        None => bytes.len(),
    }
}

/// Returns how many bytes are marked from the beginning on.
fn marked(bytes: &[u8]) -> usize
    ensures is { result ≡ marked bytes.now }
    ensures within { result ≤ length bytes.now }
{
    let Some((first, rest)) = bytes.split_first() else {
        return 0;
    };
    if is_word(*first) || *first == 63 {
        1 + word_length(rest)
    } else if *first <= 32 {
        0
    } else {
        1
    }
}

/// Returns the byte of the whole text, which may have a byte order mark in front of what was judged.
pub(crate) fn byte_in(text: &[u8], byte: usize) -> usize
    ensures is { result ≡ byte_in text.now byte }
    ensures within { result ≤ length text.now }
{
    let own = unmarked(text).len();
    text.len() - own + byte.min(own)
}

/// Returns the value of a diagnostic.
fn diagnostic(alloc: Global, range: Value, severity: u8, message: &str) -> Result<Value, AllocError>
    ensures { IfOk result (λ v. view v ≡ diagnostic_data (view range) severity message.now) }
{
    json!(in alloc; {"range": range, "severity": severity, "source": "psg", "message": message})
}

/// Returns the range of what is marked from the byte on.
fn marked_range(alloc: Global, page: &Page<'_>, from: usize) -> Result<Value, AllocError>
    requires starts { AreStarts page.now.text.now page.now.lines.now }
    requires within { from ≤ length page.now.text.now }
    ensures { IfOk result (λ v. IsMarked page.now.encoding page.now.text.now from (view v)) }
{
    let size = marked(after(page.text.as_bytes(), from));
    let range = range_value(alloc, page, from, from + size)?;
    Ok(range)
}

/// Returns the diagnostic of what was found in the text.
fn found_value(alloc: Global, page: &Page<'_>, found: &Finding) -> Result<Value, AllocError>
    requires { AreStarts page.now.text.now page.now.lines.now }
    ensures { IfOk result (λ v. IsDiagnostic page.now.encoding page.now.text.now found.now (view v)) }
{
    let from = byte_in(page.text.as_bytes(), found.byte);
    let range = marked_range(alloc, page, from)?;
    let value = diagnostic(alloc, range, severity(found.grade), found.message.as_str())?;
    Ok(value)
}

/// Adds the hint that says that more may follow, if it may.
fn push_more(
    alloc: Global,
    page: &Page<'_>,
    values: &mut Vec<Value>,
    more: bool,
) -> Result<(), AllocError>
    requires { AreStarts page.now.text.now page.now.lines.now }
    ensures { IfOk result (λ _. (told : List Data) × AreDiagnostics page.now.encoding page.now.text.now [] more told
        × (map view values.new.items ≡ map view values.old.items ++ told)) }
{
    if more {
        let range = range_value(alloc, page, 0, 0)?;
        let value = diagnostic(alloc, range, 4, "more may follow")?;
        values.push(value)?;
    }
    Ok(())
}

/// Returns the diagnostics of the report, in order.
fn diagnostics(alloc: Global, page: &Page<'_>, report: &Report) -> Result<Vec<Value>, AllocError>
    requires { AreStarts page.now.text.now page.now.lines.now }
    ensures { IfOk result
        (λ vs. AreDiagnostics page.now.encoding page.now.text.now report.now.found.items report.now.more
        (map view vs.items)) }
{
    let mut values = Vec::new(alloc);
    let found = report.found.as_slice();
    for place in 0..found.len() {
        let value = found_value(alloc, page, &found[place])?;
        values.push(value)?;
    }
    push_more(alloc, page, &mut values, report.more)?;
    Ok(values)
}

/// Returns what is published of a document.
fn publish_params(
    alloc: Global,
    address: &str,
    version: i64,
    values: Vec<Value>,
) -> Result<Value, AllocError>
    ensures { IfOk result (λ v. view v ≡ publish_params address.now version (map view values.items)) }
{
    let values = Value::Array(values);
    json!(in alloc; {"uri": address, "version": version, "diagnostics": values})
}

/// Returns the note with the diagnostics of a document.
fn publish_value(
    alloc: Global,
    address: &str,
    version: i64,
    values: Vec<Value>,
) -> Result<Value, AllocError>
    ensures { IfOk result (λ v. view v ≡ publish_data address.now version (map view values.items)) }
{
    let params = publish_params(alloc, address, version, values)?;
    let told = note(alloc, "textDocument/publishDiagnostics", params)?;
    Ok(told)
}

/// Returns the note that says what is found in what is judged of the text of a document, which is to be a program of the
/// kind.
fn reported<L: Ledger>(
    alloc: Global,
    language: &Language,
    kind: Kind,
    encoding: Encoding,
    told: Told<'_>,
    own: &Judged,
    steps: &mut Steps<L>,
) -> Result<Value, AllocError>
    requires kind { HasKind language.now kind }
    requires quiet_kind { IsDeclaringPhylum language.now kind → ⊥ }
    ensures { IfOk result (λ v. IsReported language.now kind encoding told.entry.address.now told.entry.version
        told.entry.text.now own.now.bytes.items (view v)) }
{
    let text = told.text;
    let report = lint(alloc, language, kind, own.bytes.as_slice(), steps)?;
    let lines = Lines::of(alloc, text)?;
    let page = Page {
        encoding,
        text,
        lines: &lines,
    };
    let values = diagnostics(alloc, &page, &report)?;
    let value = publish_value(alloc, told.address, told.version, values)?;
    Ok(value)
}

/// Returns the note that says what is found in the text of a document, which is to be a program of the kind.
fn text_report<L: Ledger>(
    alloc: Global,
    defined: &Defined,
    kind: Kind,
    encoding: Encoding,
    told: Told<'_>,
    steps: &mut Steps<L>,
) -> Result<Value, AllocError>
    requires kind { HasKind defined.now.language kind }
    requires fit { IsCommentOf (fixed_words defined.now.language) defined.now.comment }
    requires quiet_kind { IsDeclaringPhylum defined.now.language kind → ⊥ }
    ensures { IfOk result (λ v. OfJudged defined.now told.entry.text.now (λ comments bytes.
        IsReported defined.now.language kind encoding told.entry.address.now told.entry.version told.entry.text.now
        bytes (view v))) }
{
    let own = without_comments(alloc, defined, told.text)?;
    let language = &defined.language;
    let value = reported(alloc, language, kind, encoding, told, &own, steps)?;
    Ok(value)
}

/// Returns what is published of a document without diagnostics.
fn cleared_params(alloc: Global, address: &str) -> Result<Value, AllocError>
    ensures { IfOk result (λ v. view v ≡ cleared_params address.now) }
{
    json!(in alloc; {"uri": address, "diagnostics": []})
}

/// Returns the note that a document has no diagnostics. Fails only when out of memory.
pub(crate) fn cleared(alloc: Global, address: &str) -> Result<Value, AllocError>
    ensures { IfOk result (λ v. view v ≡ cleared_data address.now) }
{
    let params = cleared_params(alloc, address)?;
    let told = note(alloc, "textDocument/publishDiagnostics", params)?;
    Ok(told)
}

/// Returns the note that says what is found in the text of the document, which is to be a program of the kind: nothing
/// where the text is not known. Fails only when out of memory.
pub(crate) fn published<L: Ledger>(
    alloc: Global,
    defined: &Defined,
    kind: Kind,
    encoding: Encoding,
    document: &Document,
    steps: &mut Steps<L>,
) -> Result<Value, AllocError>
    requires kind { HasKind defined.now.language kind }
    requires fit { IsCommentOf (fixed_words defined.now.language) defined.now.comment }
    requires quiet_kind { IsDeclaringPhylum defined.now.language kind → ⊥ }
    ensures { IfOk result (λ v. IsPublished defined.now kind encoding document.now (view v)) }
{
    let address = document.address.as_str();
    match &document.text {
        Some(text) => {
            let told = Told {
                address,
                version: document.version,
                text: text.as_str(),
            };
            let value = text_report(alloc, defined, kind, encoding, told, steps)?;
            Ok(value)
        }
        None => {
            let value = cleared(alloc, address)?;
            Ok(value)
        }
    }
}
