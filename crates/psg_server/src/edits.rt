//! The text that a document is to have, as an edit.
ghost use Rattle.std.specs.Prelude.{ℕ, ◌≡◌, ◌<◌, ◌≤◌, ◌+◌, ◌-◌, ◌↔◌, ◌==◌, List, IfOk};
ghost use Rattle.std.specs.Prelude.{IfSome, IsTrue, None, Some, cond, drop, length};
ghost use Rattle.std.specs.Prelude.{slice_get, slice_index, string_bytes, take};
ghost use Rattle.std.specs.Str.{IsUtf8};
ghost use Rattle.serde_json.specs.Data.{array, item, no_items, null};
ghost use Rattle.serde_json.specs.View.{view};
ghost use Rattle.psg_documents.specs.Positions.{AreStarts, IsLineStart};
ghost use Rattle.psg_defcomment.specs.Reading.{IsCommentOf};
ghost use Rattle.psg_grammar.specs.WellFormed.{fixed_words};
ghost use Rattle.psg_grammar.specs.Kinds.{HasKind};
ghost use Rattle.psg_server.specs.declared.judging.Defined.{Defined as PlainDefined};
ghost use Rattle.psg_comments.specs.declared.finding.Comment.{Comment as PlainComment};
ghost use Rattle.psg_class.specs.Texts.{TextTokens};
ghost use Rattle.psg_program.specs.Decoding.{unmarked};
ghost use Rattle.psg_grammar.specs.declared.types.Kind.{Kind as PlainKind};
ghost use Rattle.psg_documents.specs.declared.encoding.Encoding.{Encoding as PlainEncoding};
ghost use Rattle.psg_program.specs.Programs.{IsProgram, IsProgramFault};
ghost use Rattle.psg_server.specs.Edits.{IsEdit, IsFormatting, IsFormattingOf, IsFront, IsTail, IsWanted, edit_data};
ghost use Rattle.psg_server.specs.Judging.{OfJudged};

use crate::documents::Document;
use crate::judging::{Defined, Judged, unmarked_text, without_comments};
use crate::ranges::{Page, range_value};
use psg_commented::with_comments;
use psg_comments::Comment;
use psg_documents::{Encoding, Lines};
use psg_grammar::Kind;
use psg_program::{Program, ProgramFault, formatted, read_program};
use psg_terms::Steps;
use psg_unparse::unparse;
use serde_json::{Value, json};
use std::alloc::{AllocError, Global};
use std::sync::ledger::Ledger;

/// Returns the byte that both texts have at the place, if it is the same.
fn common_byte(text: &[u8], wanted: &[u8], place: usize) -> Option<u8>
    ensures text { IfSome result (λ b. slice_get text.now place ≡ Some b) }
    ensures wanted { IfSome result (λ b. slice_get wanted.now place ≡ Some b) }
    ensures none { result ≡ None → (b : ℕ) → slice_get text.now place ≡ Some b
        → slice_get wanted.now place ≡ Some b → ⊥ }
{
    let byte = *text.get(place)?;
    let other = *wanted.get(place)?;
    if byte == other { Some(byte) } else { None }
}

/// Returns where the last line begins, after the byte before the place.
fn start_after(start: usize, byte: u8, next: usize) -> usize
    ensures { result ≡ cond (byte == 10) next start }
{
    if byte == b'\n' { next } else { start }
}

/// Returns the beginning of the first line in which the text is not the one that is wanted.
fn same_front(text: &[u8], wanted: &[u8]) -> usize
    ensures { IsFront text.now wanted.now result }
{
    let mut start = 0;
    let mut place = 0;
    'same: while let Some(byte) = common_byte(text, wanted, place) {
        start = start_after(start, byte, place + 1);
        place += 1;
    }
    start
}

/// Says whether both texts have the same byte in front of their last ones, that many, and after the place.
fn are_alike(text: &[u8], wanted: &[u8], from: usize, size: usize) -> bool
    requires text { from + size ≤ length text.now }
    requires wanted { from + size ≤ length wanted.now }
    ensures { IsTrue result ↔ ((from + size < length text.now) × ((from + size < length wanted.now)
        × (slice_index text.now (length text.now - size - 1)
        ≡ slice_index wanted.now (length wanted.now - size - 1)))) }
{
    from + size < text.len()
        && from + size < wanted.len()
        && text[text.len() - size - 1] == wanted[wanted.len() - size - 1]
}

/// Says whether a line begins at the place.
fn begins_line(bytes: &[u8], place: usize) -> bool
    requires { place ≤ length bytes.now }
    ensures { IsTrue result ↔ IsLineStart bytes.now place }
{
    place == 0 || bytes[place - 1] == b'\n'
}

/// Says whether the last bytes, that many, begin with a line in both texts.
fn begin_lines(text: &[u8], wanted: &[u8], size: usize) -> bool
    requires text { size ≤ length text.now }
    requires wanted { size ≤ length wanted.now }
    ensures { IsTrue result
        ↔ (IsLineStart text.now (length text.now - size) × IsLineStart wanted.now (length wanted.now - size)) }
{
    begins_line(text, text.len() - size) && begins_line(wanted, wanted.len() - size)
}

/// Returns how many bytes are of whole lines, if that many more are.
fn tail_with(tail: usize, size: usize, are_lines: bool) -> usize
    ensures { result ≡ cond are_lines size tail }
{
    if are_lines { size } else { tail }
}

/// Returns how many bytes the whole lines have that are the same at the end, of what is not before the place.
fn same_back(text: &[u8], wanted: &[u8], from: usize) -> usize
    requires text { from ≤ length text.now }
    requires wanted { from ≤ length wanted.now }
    ensures text { from + result ≤ length text.now }
    ensures wanted { from + result ≤ length wanted.now }
    ensures tail { IsTail text.now wanted.now from (length text.now - result) (length wanted.now - result) }
{
    let mut tail = 0;
    let mut size = 0;
    'back: while are_alike(text, wanted, from, size) {
        size += 1;
        tail = tail_with(tail, size, begin_lines(text, wanted, size));
    }
    tail
}

/// Returns the text between two places.
fn text_between(bytes: &[u8], from: usize, to: usize) -> &str
    requires up_to { from ≤ to }
    requires within { to ≤ length bytes.now }
    requires text { IsUtf8 (take (to - from) (drop from bytes.now)) }
    ensures { result.now ≡ take (to - from) (drop from bytes.now) }
{
    match str::from_utf8(&bytes[from..to]) {
        Ok(text) => text,
        Err(_) => unreachable!(),
    }
}

/// Returns the edit that puts a text in place of a range.
pub(crate) fn edit_of(alloc: Global, range: Value, new: &str) -> Result<Value, AllocError>
    ensures { IfOk result (λ v. view v ≡ edit_data (view range) new.now) }
{
    json!(in alloc; {"range": range, "newText": new})
}

/// Returns the edit that makes the text the one that is wanted.
fn edit_value(alloc: Global, page: &Page<'_>, wanted: &str) -> Result<Value, AllocError>
    requires { AreStarts page.now.text.now page.now.lines.now }
    ensures { IfOk result (λ v. IsEdit page.now.encoding page.now.text.now wanted.now (view v)) }
{
    let text = page.text.as_bytes();
    let bytes = wanted.as_bytes();
    let from = same_front(text, bytes);
    let size = same_back(text, bytes, from);
    let new = text_between(bytes, from, bytes.len() - size);
    let range = range_value(alloc, page, from, text.len() - size)?;
    let edit = edit_of(alloc, range, new)?;
    Ok(edit)
}

/// Returns the edit for a text that is not as it is to be.
fn text_edit(
    alloc: Global,
    encoding: Encoding,
    text: &str,
    wanted: &str,
) -> Result<Value, AllocError>
    ensures { IfOk result (λ v. IsEdit encoding text.now wanted.now (view v)) }
{
    let lines = Lines::of(alloc, text)?;
    let page = Page {
        encoding,
        text,
        lines: &lines,
    };
    let edit = edit_value(alloc, &page, wanted)?;
    Ok(edit)
}

/// Says whether the texts are equal.
fn same_text(one: &str, other: &str) -> bool
    ensures { IsTrue result ↔ (one.now ≡ other.now) }
{
    one == other
}

/// Returns a list with no edit.
fn none_of(alloc: Global) -> Value
    ensures { view result ≡ array no_items }
{
    Value::Array(Vec::new(alloc))
}

/// Returns a list with one edit.
fn one_of(alloc: Global, edit: Value) -> Result<Value, AllocError>
    ensures { IfOk result (λ v. view v ≡ array (item (view edit) no_items)) }
{
    json!(in alloc; [edit])
}

/// Writes the text that the text is to be, whose tokens without its comments are those of the program.
fn wanted_text(
    alloc: Global,
    defined: &Defined,
    text: &str,
    comments: &[Comment],
    program: &Program,
) -> Result<String, AllocError>
    requires fit { IsCommentOf (fixed_words defined.now.language) defined.now.comment }
    ensures { IfOk result (λ wanted. (judged : List ℕ)
        → TextTokens defined.now.language (unmarked judged) program.now.tokens.items
        → IsWanted defined.now.language defined.now.comment text.now comments.now judged program.now.tree
        (string_bytes wanted)) }
{
    let definition = defined.language.definition();
    let Some(token) = &defined.comment else {
        return formatted(alloc, definition, &program.tree);
    };
    let printed = unparse(alloc, definition, &program.tree)?;
    with_comments(
        alloc,
        defined.language.lexis(),
        token.as_str(),
        unmarked_text(text),
        program.tokens.as_slice(),
        comments,
        printed.text.as_str(),
    )
}

/// Returns the edits that make the text as it is to be: none, or one. Its program is given.
fn edits(
    alloc: Global,
    defined: &Defined,
    encoding: Encoding,
    text: &str,
    comments: &[Comment],
    program: &Program,
) -> Result<Value, AllocError>
    requires fit { IsCommentOf (fixed_words defined.now.language) defined.now.comment }
    ensures { IfOk result (λ v. (kind : PlainKind) (judged : List ℕ)
        → IsProgram defined.now.language kind judged program.now.tree
        → TextTokens defined.now.language (unmarked judged) program.now.tokens.items
        → IsFormatting defined.now kind encoding text.now comments.now judged (view v)) }
{
    let wanted = wanted_text(alloc, defined, text, comments, program)?;
    let own = wanted.as_str();
    if same_text(text, own) {
        return Ok(none_of(alloc));
    }
    let edit = text_edit(alloc, encoding, text, own)?;
    let one = one_of(alloc, edit)?;
    Ok(one)
}

/// Returns null.
pub(crate) fn null_value() -> Value
    ensures { view result ≡ null }
{
    Value::Null
}

/// Returns what `formatting` answers for a text that is no program without its comments.
fn without_program(fault: &ProgramFault) -> Result<Value, AllocError>
    ensures { IfOk result (λ v. (def : PlainDefined) (kind : PlainKind) (encoding : PlainEncoding) (text : List ℕ)
        (comments : List PlainComment) (judged : List ℕ) → IsProgramFault def.language kind judged fault.now
        → IsFormatting def kind encoding text comments judged (view v)) }
{
    match fault {
        ProgramFault::Syntax(_) => Ok(null_value()),
        ProgramFault::Memory => Err(AllocError),
    }
}

/// Returns what `formatting` answers for a text that is to be a program of the kind, by what is judged of it: nothing
/// where it is none, and else the edits that make it as it is to be.
fn formatting<L: Ledger>(
    alloc: Global,
    defined: &Defined,
    kind: Kind,
    encoding: Encoding,
    text: &str,
    own: &Judged,
    steps: &mut Steps<L>,
) -> Result<Value, AllocError>
    requires kind { HasKind defined.now.language kind }
    requires fit { IsCommentOf (fixed_words defined.now.language) defined.now.comment }
    ensures { IfOk result (λ v. IsFormatting defined.now kind encoding text.now own.now.comments.items
        own.now.bytes.items (view v)) }
{
    let bytes = own.bytes.as_slice();
    match read_program(alloc, &defined.language, kind, bytes, steps) {
        Ok(program) => {
            let comments = own.comments.as_slice();
            let found = edits(alloc, defined, encoding, text, comments, &program)?;
            Ok(found)
        }
        Err(fault) => {
            let found = without_program(&fault)?;
            Ok(found)
        }
    }
}

/// Returns what `formatting` answers for a text that is to be a program of the kind.
fn text_edits<L: Ledger>(
    alloc: Global,
    defined: &Defined,
    kind: Kind,
    encoding: Encoding,
    text: &str,
    steps: &mut Steps<L>,
) -> Result<Value, AllocError>
    requires kind { HasKind defined.now.language kind }
    requires fit { IsCommentOf (fixed_words defined.now.language) defined.now.comment }
    ensures { IfOk result (λ v. OfJudged defined.now text.now (λ comments bytes.
        IsFormatting defined.now kind encoding text.now comments bytes (view v))) }
{
    let own = without_comments(alloc, defined, text)?;
    let value = formatting(alloc, defined, kind, encoding, text, &own, steps)?;
    Ok(value)
}

/// Returns what `formatting` answers for a document, whose text is to be a program of the kind: nothing where the text
/// is not known. Comments are kept. Fails only when out of memory.
pub(crate) fn document_edits<L: Ledger>(
    alloc: Global,
    defined: &Defined,
    kind: Kind,
    encoding: Encoding,
    document: &Document,
    steps: &mut Steps<L>,
) -> Result<Value, AllocError>
    requires kind { HasKind defined.now.language kind }
    requires fit { IsCommentOf (fixed_words defined.now.language) defined.now.comment }
    ensures { IfOk result (λ v. IsFormattingOf defined.now kind encoding document.now.text (view v)) }
{
    match &document.text {
        Some(text) => {
            let own = text.as_str();
            let value = text_edits(alloc, defined, kind, encoding, own, steps)?;
            Ok(value)
        }
        None => Ok(null_value()),
    }
}
