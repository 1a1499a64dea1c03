//! What may be put in place of the word at a position of a document.
ghost use Rattle.std.specs.Prelude.{ℕ, ◌≡◌, ◌++◌, ◌∷◌, [], ◌≤◌, ◌-◌, IfNone, IfOk, IfSome, List};
ghost use Rattle.std.specs.Prelude.{Some, drop, length, map, string_bytes, take};
ghost use Rattle.serde_json.specs.View.{view};
ghost use Rattle.psg_documents.specs.Positions.{AreStarts};
ghost use Rattle.psg_defcomment.specs.Reading.{IsCommentOf};
ghost use Rattle.psg_grammar.specs.WellFormed.{fixed_words};
ghost use Rattle.psg_server.specs.Completing as completed;
ghost use Rattle.psg_server.specs.Completing.{IsCompletedAt, IsCompletedIn, IsCompletedOf, IsCompletionValue};
ghost use Rattle.psg_server.specs.Completing.{IsTextBetween};
ghost use Rattle.psg_server.specs.Edits.{edit_data};
ghost use Rattle.psg_messages.specs.Messages.{given_of, request};
ghost use Rattle.psg_server.specs.declared.methods.Call.TheVariants as calls;
ghost use Rattle.psg_server.specs.Answering.{Serves, out_of};
ghost use Rattle.psg_server.specs.Methods.{call_of};

use crate::documents::Document;
use crate::edits::{edit_of, null_value};
use crate::judging::{Defined, Judged, asked_text, is_comment, is_commenting};
use crate::ranges::{Page, range_value};
use crate::server::{Reply, Server, answered, refused};
use psg_completing::{Completion, Entry, completion_at};
use psg_documents::{Encoding, Lines, Position};
use psg_grammar::Kind;
use psg_messages::{Fault, Params};
use psg_specimen::Language;
use psg_terms::{Steps, Txt};
use serde_json::{Value, json};
use std::alloc::{AllocError, Global};
use std::sync::ledger::Ledger;

/// Returns the bytes between two places, if there are such bytes.
fn bytes_between(bytes: &[u8], from: usize, to: usize) -> Option<&[u8]>
    ensures some { IfSome result (λ part. (from ≤ to) × (to ≤ length bytes.now)
        × (part.now ≡ take (to - from) (drop from bytes.now))) }
    ensures none { IfNone result (from ≤ to → to ≤ length bytes.now → ⊥) }
{
    if to < from {
        return None;
    }
    if bytes.len() < to {
        return None;
    }
    Some(&bytes[from..to])
}

/// Returns the text of the bytes between two places, if they are one.
fn text_between(bytes: &[u8], from: usize, to: usize) -> Option<&str>
    ensures some { IfSome result (λ part. part.now ≡ take (to - from) (drop from bytes.now)) }
    ensures none { IfNone result (IsTextBetween bytes.now from to → ⊥) }
{
    let part = bytes_between(bytes, from, to)?;
    match str::from_utf8(part) {
        Ok(text) => Some(text),
        Err(_) => None,
    }
}

/// Returns the word that is replaced; nothing where its bytes are no text.
fn word_of<'a>(text: &'a str, completion: &Completion) -> &'a str
    ensures { completed.IsWord text.now completion.now result.now }
{
    let bytes = text.as_bytes();
    match text_between(bytes, completion.from, completion.to) {
        Some(word) => word,
        None => "",
    }
}

/// Returns what the entry writes, with what is around it.
fn written(alloc: Global, completion: &Completion, entry: &Entry) -> Result<String, AllocError>
    ensures { IfOk result (λ text. string_bytes text ≡ completed.written completion.now entry.now) }
{
    let mut text = String::from_str(alloc, completion.before.as_str())?;
    text.push_str(entry.text.as_str())?;
    text.push_str(completion.behind.as_str())?;
    Ok(text)
}

/// Returns the entry with its edit.
fn item_with(alloc: Global, entry: &Entry, filter: &str, edit: Value) -> Result<Value, AllocError>
    ensures { IfOk result (λ v. view v ≡ completed.item_with entry.now filter.now (view edit)) }
{
    let operator = entry.operator.as_str();
    let label = entry.text.as_str();
    json!(in alloc; {"detail": operator, "filterText": filter, "label": label, "textEdit": edit})
}

/// Returns an entry as a value.
fn item_value(
    alloc: Global,
    page: &Page<'_>,
    completion: &Completion,
    filter: &str,
    entry: &Entry,
) -> Result<Value, AllocError>
    requires { AreStarts page.now.text.now page.now.lines.now }
    ensures { IfOk result (λ v. completed.IsItem page.now.encoding page.now.text.now completion.now filter.now entry.now
        (view v)) }
{
    let range = range_value(alloc, page, completion.from, completion.to)?;
    let text = written(alloc, completion, entry)?;
    let own = text.as_str();
    let edit = edit_of(alloc, range, own)?;
    let item = item_with(alloc, entry, filter, edit)?;
    Ok(item)
}

/// Returns the entries as values.
fn items(
    alloc: Global,
    page: &Page<'_>,
    completion: &Completion,
    filter: &str,
) -> Result<Vec<Value>, AllocError>
    requires { AreStarts page.now.text.now page.now.lines.now }
    ensures { IfOk result (λ vs. completed.AreItems page.now.encoding page.now.text.now completion.now filter.now
        completion.now.entries.items (map view vs.items)) }
{
    let mut values = Vec::new(alloc);
    let entries = completion.entries.as_slice();
    for place in 0..entries.len() {
        let value = item_value(alloc, page, completion, filter, &entries[place])?;
        values.push(value)?;
    }
    Ok(values)
}

/// Returns the list of the entries.
fn list_of(alloc: Global, more: bool, items: Vec<Value>) -> Result<Value, AllocError>
    ensures { IfOk result (λ v. view v ≡ completed.list_data more (map view items.items)) }
{
    let items = Value::Array(items);
    json!(in alloc; {"isIncomplete": more, "items": items})
}

/// Returns what may be put in place of a word as a value.
fn completion_value(
    alloc: Global,
    page: &Page<'_>,
    completion: &Completion,
) -> Result<Value, AllocError>
    requires { AreStarts page.now.text.now page.now.lines.now }
    ensures { IfOk result (λ v. IsCompletionValue page.now.encoding page.now.text.now completion.now (view v)) }
{
    let filter = word_of(page.text, completion);
    let values = items(alloc, page, completion, filter)?;
    let list = list_of(alloc, completion.incomplete, values)?;
    Ok(list)
}

/// Returns the text with a space after it.
fn with_space(alloc: Global, text: &str) -> Result<Txt, AllocError>
    ensures { IfOk result (λ put. put ≡ text.now ++ 32 ∷ []) }
{
    let mut put = String::from_str(alloc, text)?;
    put.push(' ')?;
    let own = Txt::of(alloc, put)?;
    Ok(own)
}

/// Returns what may be put in place of the word, with a space after it where a comment begins right after the word.
fn spaced(
    alloc: Global,
    text: &str,
    own: &Judged,
    completion: Completion,
) -> Result<Completion, AllocError>
    ensures { IfOk result (λ put. put ≡ completed.spaced text.now own.now.comments.items completion) }
{
    if !is_comment(text, own, completion.to) {
        return Ok(completion);
    }
    let Completion {
        from,
        to,
        before,
        behind,
        entries,
        incomplete,
    } = completion;
    let behind = with_space(alloc, behind.as_str())?;
    Ok(Completion {
        from,
        to,
        before,
        behind,
        entries,
        incomplete,
    })
}

/// Returns what may be put in place of the word at the byte, by what is judged of the text: null in a comment.
fn completed_at<L: Ledger>(
    alloc: Global,
    language: &Language,
    kind: Kind,
    page: &Page<'_>,
    own: &Judged,
    byte: usize,
    steps: &mut Steps<L>,
) -> Result<Value, AllocError>
    requires { AreStarts page.now.text.now page.now.lines.now }
    ensures { IfOk result (λ v. IsCompletedAt language.now kind page.now.encoding page.now.text.now
        own.now.comments.items own.now.bytes.items byte (view v)) }
{
    let text = page.text;
    if is_commenting(text, own, byte) {
        return Ok(null_value());
    }
    let bytes = own.bytes.as_slice();
    let completion = completion_at(alloc, language, kind, bytes, byte, steps)?;
    let put = spaced(alloc, text, own, completion)?;
    let value = completion_value(alloc, page, &put)?;
    Ok(value)
}

/// Returns what may be put in place of the word at the position of a text.
fn text_completion<L: Ledger>(
    alloc: Global,
    defined: &Defined,
    kind: Kind,
    encoding: Encoding,
    text: &str,
    position: Position,
    steps: &mut Steps<L>,
) -> Result<Value, AllocError>
    requires fit { IsCommentOf (fixed_words defined.now.language) defined.now.comment }
    ensures { IfOk result (λ v. IsCompletedOf defined.now kind encoding text.now position (view v)) }
{
    let lines = Lines::of(alloc, text)?;
    let page = Page {
        encoding,
        text,
        lines: &lines,
    };
    let byte = lines.byte_of(text, encoding, position);
    let own = asked_text(alloc, defined, text, byte)?;
    let language = &defined.language;
    let value = completed_at(alloc, language, kind, &page, &own, byte, steps)?;
    Ok(value)
}

/// Returns what may be put in place of the word at the position of a document, whose text is to be a program of the
/// kind: null where the text is not known, and in a comment. Fails only when out of memory.
pub(crate) fn document_completion<L: Ledger>(
    alloc: Global,
    defined: &Defined,
    kind: Kind,
    encoding: Encoding,
    document: &Document,
    position: Position,
    steps: &mut Steps<L>,
) -> Result<Value, AllocError>
    requires fit { IsCommentOf (fixed_words defined.now.language) defined.now.comment }
    ensures { IfOk result (λ v. IsCompletedIn defined.now kind encoding document.now.text position (view v)) }
{
    match &document.text {
        Some(text) => {
            let own = text.as_str();
            let value = text_completion(alloc, defined, kind, encoding, own, position, steps)?;
            Ok(value)
        }
        None => Ok(null_value()),
    }
}

impl Server {
    /// Serves `textDocument/completion`.
    pub(crate) fn complete<L: Ledger>(
        &self,
        alloc: Global,
        defined: &Defined,
        kind: Kind,
        id: &Value,
        given: Params<'_>,
        steps: &mut Steps<L>,
    ) -> Result<Reply, AllocError>
        requires fit { IsCommentOf (fixed_words defined.now.language) defined.now.comment }
        ensures { IfOk result (λ r. (method : List ℕ) → call_of method ≡ Some calls.Completion
            → Serves defined.now kind self.now (request (view id.now) method (given_of given.entry))
            self.now.encoding self.now.documents (out_of r)) }
    {
        match self.place_in(given) {
            Some(place) => {
                let document = place.document;
                let position = place.position;
                let encoding = self.encoding;
                let told = document_completion(
                    alloc, defined, kind, encoding, document, position, steps,
                )?;
                let reply = answered(alloc, id, told)?;
                Ok(reply)
            }
            None => {
                let reply = refused(alloc, Some(id), Fault::WrongParams)?;
                Ok(reply)
            }
        }
    }
}
