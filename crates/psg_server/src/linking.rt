//! What is answered of the name at a position of a document.
ghost use Rattle.std.specs.Prelude.{◌≡◌, ◌++◌, ◌∷◌, IfOk, List, map, true};
ghost use Rattle.serde_json.specs.Data.{Data, array, null};
ghost use Rattle.serde_json.specs.View.{items_of, view};
ghost use Rattle.psg_documents.specs.Positions.{AreStarts};
ghost use Rattle.psg_defcomment.specs.Reading.{IsCommentOf};
ghost use Rattle.psg_grammar.specs.WellFormed.{fixed_words};
ghost use Rattle.psg_grammar.specs.Kinds.{HasKind};
ghost use Rattle.psg_links.specs.declared.spot.Spot.{Spot as PlainSpot};
ghost use Rattle.psg_server.specs.Linking as linking;
ghost use Rattle.psg_server.specs.Judging.{OfJudged};
ghost use Rattle.psg_server.specs.Linking.{AreShown, IsDeclaration, IsFound, IsList, IsPrepared, IsReplied};
ghost use Rattle.psg_server.specs.Linking.{IsRepliedOf, IsReply, IsReplyOf, IsShown, IsSpotRange, IsThere, way_of};

use crate::diagnostics::byte_in;
use crate::documents::Document;
use crate::edits::{edit_of, null_value};
use crate::judging::{Defined, Judged, own_byte, without_comments};
use crate::methods::Ask;
use crate::ranges::{Page as Sheet, range_value};
use psg_documents::{Encoding, Lines, Position};
use psg_grammar::Kind;
use psg_links::{Linked, Page, Spot};
use psg_specimen::Language;
use psg_terms::Steps;
use serde_json::{Value, json};
use std::alloc::{AllocError, Global};
use std::sync::ledger::Ledger;

/// How a name is shown.
#[derive(Clone, Copy)]
pub enum Showing<'a> {
    /// As a place of the document with the address.
    Place(&'a str),
    /// As a name that is written or read.
    Light,
    /// As an edit that gives it the new name.
    Edit(&'a str),
}

/// Returns the range of the bytes that the name takes.
fn spot_range(alloc: Global, sheet: &Sheet<'_>, spot: &Spot) -> Result<Value, AllocError>
    requires { AreStarts sheet.now.text.now sheet.now.lines.now }
    ensures { IfOk result (λ v. IsSpotRange sheet.now.encoding sheet.now.text.now spot.now (view v)) }
{
    let bytes = sheet.text.as_bytes();
    let from = byte_in(bytes, spot.start);
    let to = byte_in(bytes, spot.end);
    let range = range_value(alloc, sheet, from, to)?;
    Ok(range)
}

/// Returns the place of the range in the document.
fn place_value(alloc: Global, address: &str, range: Value) -> Result<Value, AllocError>
    ensures { IfOk result (λ v. view v ≡ linking.shown_data (linking.as_place address.now) true (view range)) }
{
    json!(in alloc; {"uri": address, "range": range})
}

/// Returns the number for a name that is written, or for one that is read.
fn kind_of(declares: bool) -> u8
    ensures { result ≡ linking.kind_of declares }
{
    if declares { 3 } else { 2 }
}

/// Returns the range of a name that is written or read.
fn light_value(alloc: Global, declares: bool, range: Value) -> Result<Value, AllocError>
    ensures { IfOk result (λ v. view v ≡ linking.shown_data linking.as_light declares (view range)) }
{
    let kind = kind_of(declares);
    json!(in alloc; {"range": range, "kind": kind})
}

/// Returns the name with the range as it is shown.
fn shown_value(
    alloc: Global,
    how: Showing<'_>,
    declares: bool,
    range: Value,
) -> Result<Value, AllocError>
    ensures { IfOk result (λ v. view v ≡ linking.shown_data (way_of how.entry) declares (view range)) }
{
    match how {
        Showing::Place(address) => {
            let value = place_value(alloc, address, range)?;
            Ok(value)
        }
        Showing::Light => {
            let value = light_value(alloc, declares, range)?;
            Ok(value)
        }
        Showing::Edit(new) => {
            let value = edit_of(alloc, range, new)?;
            Ok(value)
        }
    }
}

/// Returns the name as it is shown.
fn shown(
    alloc: Global,
    sheet: &Sheet<'_>,
    how: Showing<'_>,
    spot: &Spot,
) -> Result<Value, AllocError>
    requires { AreStarts sheet.now.text.now sheet.now.lines.now }
    ensures { IfOk result (λ v. IsShown sheet.now.encoding sheet.now.text.now (way_of how.entry) spot.now (view v)) }
{
    let range = spot_range(alloc, sheet, spot)?;
    let value = shown_value(alloc, how, spot.declares, range)?;
    Ok(value)
}

/// Says whether the name is wanted, where all are or those that do not declare.
fn is_wanted(all: bool, spot: &Spot) -> bool
    ensures { result ≡ linking.is_wanted all spot.now }
{
    all || !spot.declares
}

/// Adds the name as it is shown, if it is wanted.
fn push_shown(
    alloc: Global,
    sheet: &Sheet<'_>,
    how: Showing<'_>,
    all: bool,
    spot: &Spot,
    values: &mut Vec<Value>,
) -> Result<(), AllocError>
    requires { AreStarts sheet.now.text.now sheet.now.lines.now }
    ensures { IfOk result (λ _. (told : List Data) × (map view values.new.items ≡ map view values.old.items ++ told)
        × ((ss : List PlainSpot) (ds : List Data)
        → AreShown sheet.now.encoding sheet.now.text.now (way_of how.entry) all ss ds
        → AreShown sheet.now.encoding sheet.now.text.now (way_of how.entry) all (spot.now ∷ ss) (told ++ ds))) }
{
    let wanted = is_wanted(all, spot);
    if !wanted {
        return Ok(());
    }
    let value = shown(alloc, sheet, how, spot)?;
    values.push(value)?;
    Ok(())
}

/// Returns the names that are wanted as they are shown.
pub(crate) fn all_shown(
    alloc: Global,
    sheet: &Sheet<'_>,
    how: Showing<'_>,
    all: bool,
    spots: &[Spot],
) -> Result<Vec<Value>, AllocError>
    requires { AreStarts sheet.now.text.now sheet.now.lines.now }
    ensures { IfOk result (λ vs. AreShown sheet.now.encoding sheet.now.text.now (way_of how.entry) all spots.now
        (map view vs.items)) }
{
    let mut values = Vec::new(alloc);
    let mut rest = spots;
    while let Some((spot, more)) = rest.split_first() {
        push_shown(alloc, sheet, how, all, spot, &mut values)?;
        rest = more;
    }
    Ok(values)
}

/// Returns the list of the values.
pub(crate) fn list_of(values: Vec<Value>) -> Value
    ensures { view result ≡ array (items_of (map view values.items)) }
{
    Value::Array(values)
}

/// Returns the list of the names that are wanted as they are shown.
fn list(
    alloc: Global,
    sheet: &Sheet<'_>,
    how: Showing<'_>,
    all: bool,
    spots: &[Spot],
) -> Result<Value, AllocError>
    requires { AreStarts sheet.now.text.now sheet.now.lines.now }
    ensures { IfOk result
        (λ v. IsList sheet.now.encoding sheet.now.text.now (way_of how.entry) all spots.now (view v)) }
{
    let values = all_shown(alloc, sheet, how, all, spots)?;
    Ok(list_of(values))
}

/// Returns the place of the declaration, or null.
fn declaration(
    alloc: Global,
    sheet: &Sheet<'_>,
    address: &str,
    declared: &Option<Spot>,
) -> Result<Value, AllocError>
    requires { AreStarts sheet.now.text.now sheet.now.lines.now }
    ensures { IfOk result (λ v. IsDeclaration sheet.now.encoding sheet.now.text.now address.now declared.now (view v)) }
{
    match declared {
        Some(spot) => {
            let value = shown(alloc, sheet, Showing::Place(address), spot)?;
            Ok(value)
        }
        None => Ok(null_value()),
    }
}

/// Returns the range of a name that is linked to a declaration, or null.
fn prepared(
    alloc: Global,
    sheet: &Sheet<'_>,
    declared: &Option<Spot>,
    own: &Spot,
) -> Result<Value, AllocError>
    requires { AreStarts sheet.now.text.now sheet.now.lines.now }
    ensures { IfOk result (λ v. IsPrepared sheet.now.encoding sheet.now.text.now declared.now own.now (view v)) }
{
    match declared {
        Some(_) => {
            let range = spot_range(alloc, sheet, own)?;
            Ok(range)
        }
        None => Ok(null_value()),
    }
}

/// Returns what is answered of the name.
fn reply_of(
    alloc: Global,
    sheet: &Sheet<'_>,
    address: &str,
    ask: Ask,
    all: bool,
    name: &Linked,
) -> Result<Value, AllocError>
    requires { AreStarts sheet.now.text.now sheet.now.lines.now }
    ensures { IfOk result (λ v. IsReplyOf sheet.now.encoding sheet.now.text.now address.now ask all name.now (view v)) }
{
    match ask {
        Ask::Definition => {
            let value = declaration(alloc, sheet, address, &name.declaration)?;
            Ok(value)
        }
        Ask::References => {
            let value = list(
                alloc,
                sheet,
                Showing::Place(address),
                all,
                name.together.as_slice(),
            )?;
            Ok(value)
        }
        Ask::Highlights => {
            let value = list(alloc, sheet, Showing::Light, true, name.together.as_slice())?;
            Ok(value)
        }
        Ask::Preparing => {
            let value = prepared(alloc, sheet, &name.declaration, &name.own)?;
            Ok(value)
        }
    }
}

/// Returns what is answered of the name, or null where there is none.
fn reply(
    alloc: Global,
    sheet: &Sheet<'_>,
    address: &str,
    ask: Ask,
    all: bool,
    linked: &Option<Linked>,
) -> Result<Value, AllocError>
    requires { AreStarts sheet.now.text.now sheet.now.lines.now }
    ensures { IfOk result (λ v. IsReply sheet.now.encoding sheet.now.text.now address.now ask all linked.now (view v)) }
{
    match linked {
        Some(name) => {
            let value = reply_of(alloc, sheet, address, ask, all, name)?;
            Ok(value)
        }
        None => Ok(null_value()),
    }
}

/// Returns the byte of the position in what was read.
pub(crate) fn byte_at(sheet: &Sheet<'_>, at: Position) -> usize
    requires { AreStarts sheet.now.text.now sheet.now.lines.now }
    ensures { IsThere sheet.now.encoding sheet.now.text.now at result }
{
    let there = sheet.lines.byte_of(sheet.text, sheet.encoding, at);
    own_byte(sheet.text.as_bytes(), there)
}

/// Returns the name at the position, if there is one, by what is judged of the text.
fn found<L: Ledger>(
    alloc: Global,
    language: &Language,
    kind: Kind,
    sheet: &Sheet<'_>,
    own: &Judged,
    at: Position,
    steps: &mut Steps<L>,
) -> Result<Option<Linked>, AllocError>
    requires kind { HasKind language.now kind }
    requires starts { AreStarts sheet.now.text.now sheet.now.lines.now }
    ensures { IfOk result
        (IsFound language.now kind sheet.now.encoding sheet.now.text.now own.now.bytes.items at) }
{
    let bytes = own.bytes.as_slice();
    let read = Page::of(alloc, language, kind, bytes, steps)?;
    match read {
        Some(page) => {
            let byte = byte_at(sheet, at);
            let linked = page.link_at(alloc, byte)?;
            Ok(linked)
        }
        None => Ok(None),
    }
}

/// Returns what is answered of the name at the position of the text, by what is judged of it.
fn sheet_reply<L: Ledger>(
    alloc: Global,
    language: &Language,
    kind: Kind,
    sheet: &Sheet<'_>,
    own: &Judged,
    address: &str,
    ask: Ask,
    all: bool,
    at: Position,
    steps: &mut Steps<L>,
) -> Result<Value, AllocError>
    requires kind { HasKind language.now kind }
    requires starts { AreStarts sheet.now.text.now sheet.now.lines.now }
    ensures { IfOk result (λ v. IsReplied sheet.now.encoding sheet.now.text.now address.now language.now kind
        own.now.bytes.items ask all at (view v)) }
{
    let linked = found(alloc, language, kind, sheet, own, at, steps)?;
    let value = reply(alloc, sheet, address, ask, all, &linked)?;
    Ok(value)
}

/// Returns what is answered of the name at the position of the text.
fn text_reply<L: Ledger>(
    alloc: Global,
    defined: &Defined,
    kind: Kind,
    encoding: Encoding,
    address: &str,
    text: &str,
    ask: Ask,
    all: bool,
    at: Position,
    steps: &mut Steps<L>,
) -> Result<Value, AllocError>
    requires kind { HasKind defined.now.language kind }
    requires fit { IsCommentOf (fixed_words defined.now.language) defined.now.comment }
    ensures { IfOk result (λ v. OfJudged defined.now text.now (λ comments bytes.
        IsReplied encoding text.now address.now defined.now.language kind bytes ask all at (view v))) }
{
    let own = without_comments(alloc, defined, text)?;
    let lines = Lines::of(alloc, text)?;
    let sheet = Sheet {
        encoding,
        text,
        lines: &lines,
    };
    let language = &defined.language;
    let value = sheet_reply(
        alloc, language, kind, &sheet, &own, address, ask, all, at, steps,
    )?;
    Ok(value)
}

/// Returns what is answered of the name at the position of the document: null where the text is not known. Fails only
/// when out of memory. It costs a reading of the text and the links of its names.
pub(crate) fn document_reply<L: Ledger>(
    alloc: Global,
    defined: &Defined,
    kind: Kind,
    encoding: Encoding,
    document: &Document,
    ask: Ask,
    all: bool,
    at: Position,
    steps: &mut Steps<L>,
) -> Result<Value, AllocError>
    requires kind { HasKind defined.now.language kind }
    requires fit { IsCommentOf (fixed_words defined.now.language) defined.now.comment }
    ensures { IfOk result (λ v. IsRepliedOf defined.now kind encoding document.now.address document.now.text ask all at
        (view v)) }
{
    let address = document.address.as_str();
    match &document.text {
        Some(text) => {
            let own = text.as_str();
            let value = text_reply(
                alloc, defined, kind, encoding, address, own, ask, all, at, steps,
            )?;
            Ok(value)
        }
        None => Ok(null_value()),
    }
}
