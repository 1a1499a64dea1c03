//! What is said of the node at a position of a document.
ghost use Rattle.std.specs.Prelude.{◌≡◌, ◌++◌, ◌∷◌, [], IfOk, OnOk, map, string_bytes};
ghost use Rattle.serde_json.specs.View.{view};
ghost use Rattle.psg_documents.specs.Positions.{AreStarts};
ghost use Rattle.psg_defcomment.specs.Reading.{IsCommentOf};
ghost use Rattle.psg_grammar.specs.WellFormed.{fixed_words};
ghost use Rattle.psg_grammar.specs.Kinds.{HasKind};
ghost use Rattle.psg_server.specs.Hovering as told;
ghost use Rattle.psg_server.specs.Hovering.{IsHoverValue, IsTold, IsToldAt, IsToldIn};
ghost use Rattle.psg_server.specs.Judging.{OfJudged};

use crate::documents::Document;
use crate::edits::null_value;
use crate::judging::{Defined, Judged, is_comment, without_comments};
use crate::ranges::{Page, range_value};
use psg_documents::{Encoding, Lines, Position};
use psg_grammar::Kind;
use psg_pointing::{Hover, hover_at};
use psg_specimen::Language;
use psg_terms::Steps;
use serde_json::{Value, json};
use std::alloc::{AllocError, Global};
use std::sync::ledger::Ledger;

/// Adds a line feed and the line.
fn push_line(text: &mut String, line: &str) -> Result<(), AllocError>
    ensures { OnOk result (string_bytes text.new ≡ string_bytes text.old ++ told.after_feeds (line.now ∷ [])) }
{
    text.push('\n')?;
    text.push_str(line)?;
    Ok(())
}

/// Adds the lines, each after a line feed.
fn push_lines(text: &mut String, lines: &[String]) -> Result<(), AllocError>
    ensures { OnOk result (string_bytes text.new
        ≡ string_bytes text.old ++ told.after_feeds (map string_bytes lines.now)) }
{
    for line in lines {
        let own = line.as_str();
        push_line(text, own)?;
    }
    Ok(())
}

/// Returns the lines as one text.
fn joined(alloc: Global, lines: &[String]) -> Result<String, AllocError>
    ensures { IfOk result (λ text. string_bytes text ≡ told.joined (map string_bytes lines.now)) }
{
    match lines.split_first() {
        Some((first, rest)) => {
            let own = first.as_str();
            let mut text = String::from_str(alloc, own)?;
            push_lines(&mut text, rest)?;
            Ok(text)
        }
        None => Ok(String::new(alloc)),
    }
}

/// Returns a text without marks as a value.
fn plain_text(alloc: Global, value: &str) -> Result<Value, AllocError>
    ensures { IfOk result (λ v. view v ≡ told.plain_text value.now) }
{
    json!(in alloc; {"kind": "plaintext", "value": value})
}

/// Returns what is said of a range.
fn contents(alloc: Global, range: Value, value: Value) -> Result<Value, AllocError>
    ensures { IfOk result (λ v. view v ≡ told.contents (view range) (view value)) }
{
    json!(in alloc; {"contents": value, "range": range})
}

/// Returns what is said of the node as a value.
fn hover_value(alloc: Global, page: &Page<'_>, hover: &Hover) -> Result<Value, AllocError>
    requires { AreStarts page.now.text.now page.now.lines.now }
    ensures { IfOk result (λ v. IsHoverValue page.now.encoding page.now.text.now hover.now (view v)) }
{
    let range = range_value(alloc, page, hover.start, hover.end)?;
    let lines = hover.lines.as_slice();
    let text = joined(alloc, lines)?;
    let own = text.as_str();
    let value = plain_text(alloc, own)?;
    let told = contents(alloc, range, value)?;
    Ok(told)
}

/// Returns what is said of a node, if there is one.
fn told_value(alloc: Global, page: &Page<'_>, hover: &Option<Hover>) -> Result<Value, AllocError>
    requires { AreStarts page.now.text.now page.now.lines.now }
    ensures { IfOk result (λ v. IsTold page.now.encoding page.now.text.now hover.now (view v)) }
{
    match hover {
        Some(hover) => {
            let value = hover_value(alloc, page, hover)?;
            Ok(value)
        }
        None => Ok(null_value()),
    }
}

/// Returns what is said of the node at the position of a text, by what is judged of it: null in a comment.
fn told_at<L: Ledger>(
    alloc: Global,
    language: &Language,
    kind: Kind,
    encoding: Encoding,
    text: &str,
    own: &Judged,
    position: Position,
    steps: &mut Steps<L>,
) -> Result<Value, AllocError>
    requires { HasKind language.now kind }
    ensures { IfOk result (λ v. IsToldAt language.now kind encoding text.now own.now.comments.items own.now.bytes.items
        position (view v)) }
{
    let lines = Lines::of(alloc, text)?;
    let page = Page {
        encoding,
        text,
        lines: &lines,
    };
    let byte = lines.byte_of(text, encoding, position);
    if is_comment(text, own, byte) {
        return Ok(null_value());
    }
    let bytes = own.bytes.as_slice();
    let hover = hover_at(alloc, language, kind, bytes, byte, steps)?;
    let value = told_value(alloc, &page, &hover)?;
    Ok(value)
}

/// Returns what is said of the node at the position of a text.
fn text_hover<L: Ledger>(
    alloc: Global,
    defined: &Defined,
    kind: Kind,
    encoding: Encoding,
    text: &str,
    position: Position,
    steps: &mut Steps<L>,
) -> Result<Value, AllocError>
    requires kind { HasKind defined.now.language kind }
    requires fit { IsCommentOf (fixed_words defined.now.language) defined.now.comment }
    ensures { IfOk result (λ v. OfJudged defined.now text.now (λ comments bytes.
        IsToldAt defined.now.language kind encoding text.now comments bytes position (view v))) }
{
    let own = without_comments(alloc, defined, text)?;
    let language = &defined.language;
    let value = told_at(alloc, language, kind, encoding, text, &own, position, steps)?;
    Ok(value)
}

/// Returns what is said of the node at the position of a document, whose text is to be a program of the kind: nothing
/// in a comment, where no node is there, and where the text is no program or not known. Fails only when out of memory.
pub(crate) fn document_hover<L: Ledger>(
    alloc: Global,
    defined: &Defined,
    kind: Kind,
    encoding: Encoding,
    document: &Document,
    position: Position,
    steps: &mut Steps<L>,
) -> Result<Value, AllocError>
    requires kind { HasKind defined.now.language kind }
    requires fit { IsCommentOf (fixed_words defined.now.language) defined.now.comment }
    ensures { IfOk result (λ v. IsToldIn defined.now kind encoding document.now.text position (view v)) }
{
    match &document.text {
        Some(text) => {
            let own = text.as_str();
            let value = text_hover(alloc, defined, kind, encoding, own, position, steps)?;
            Ok(value)
        }
        None => Ok(null_value()),
    }
}
