//! What the parameters of a message say.
ghost use Rattle.std.specs.Prelude.{◌≡◌, codes, unwrap_or};
ghost use Rattle.std.specs.List.{list_any};
ghost use Rattle.std.specs.Option.{option_map};
ghost use Rattle.serde_json.specs.Find.{as_str, get};
ghost use Rattle.serde_json.specs.View.{items_view, view};
ghost use Rattle.psg_messages.specs.Messages.{given_of};
ghost use Rattle.psg_server.specs.Fields.{address_in, changes_in, document_in, encoding_in};
ghost use Rattle.psg_server.specs.Fields.{fields_in, has_text, is_empty};
ghost use Rattle.psg_server.specs.Fields.{is_part, is_text, last_in, last_of, offered_in};
ghost use Rattle.psg_server.specs.Fields.{offers, opened_in, opened_text_in};
ghost use Rattle.psg_server.specs.Fields.{text_in, version_in, whole_in, whole_text};
ghost use Rattle.psg_server.specs.Fields as fields;
ghost use Rattle.psg_server.specs.Told.{document_of, naming_of};

use psg_documents::{Encoding, Position};
use psg_messages::Params;
use serde_json::Value;

/// What `didOpen` says of a document: its address, its version and its text.
#[derive(Clone, Copy)]
pub struct Told<'a> {
    /// The address of the document.
    pub address: &'a str,
    /// Its version.
    pub version: i64,
    /// Its text.
    pub text: &'a str,
}

/// What `rename` says: a position, and the new name of the name there.
#[derive(Clone, Copy)]
pub struct Naming<'a> {
    /// The position of the name.
    pub at: Position,
    /// The new name.
    pub name: &'a str,
}

/// Returns the object of the parameters.
fn fields_in<'a>(given: Params<'a>) -> Option<&'a Value>
    ensures { option_map (λ v. view v.now) result ≡ fields_in (given_of given.entry) }
{
    match given {
        Params::Nothing => None,
        Params::Fields(value) => Some(value),
        Params::Wrong => None,
    }
}

/// Returns the document that the parameters name.
fn document_in<'a>(given: Params<'a>) -> Option<&'a Value>
    ensures { option_map (λ v. view v.now) result ≡ document_in (given_of given.entry) }
{
    let fields = fields_in(given)?;
    fields.get("textDocument")
}

/// Returns the address of the document that the parameters name.
pub(crate) fn address_in<'a>(given: Params<'a>) -> Option<&'a str>
    ensures { option_map (λ s. s.now) result ≡ address_in (given_of given.entry) }
{
    let document = document_in(given)?;
    let address = document.get("uri")?;
    address.as_str()
}

/// Returns the version of the document.
fn version_in(given: Params<'_>) -> Option<i64>
    ensures { result ≡ version_in (given_of given.entry) }
{
    let document = document_in(given)?;
    let version = document.get("version")?;
    version.as_i64()
}

/// Returns the text of a document that is opened.
fn opened_text_in<'a>(given: Params<'a>) -> Option<&'a str>
    ensures { option_map (λ s. s.now) result ≡ opened_text_in (given_of given.entry) }
{
    let document = document_in(given)?;
    let text = document.get("text")?;
    text.as_str()
}

/// Returns the last of the items.
fn last_of(items: &[Value]) -> Option<&Value>
    ensures { option_map (λ v. view v.now) result ≡ last_of (items_view items.now) }
{
    if items.is_empty() {
        return None;
    }
    Some(&items[items.len() - 1])
}

/// Says whether a change has a range, which is not null.
fn is_part(change: &Value) -> bool
    ensures { result ≡ is_part (get (codes "range") (view change.now)) }
{
    match change.get("range") {
        Some(range) => !range.is_null(),
        None => false,
    }
}

/// Returns the text of a change of the whole text.
fn whole_text(change: &Value) -> Option<&str>
    ensures { option_map (λ s. s.now) result ≡ whole_text (Some (view change.now)) }
{
    if is_part(change) {
        return None;
    }
    let text = change.get("text")?;
    text.as_str()
}

/// Returns the changes of a document.
fn changes_in<'a>(given: Params<'a>) -> Option<&'a [Value]>
    ensures { option_map (λ v. items_view v.now) result ≡ changes_in (given_of given.entry) }
{
    let fields = fields_in(given)?;
    let changes = fields.get("contentChanges")?;
    let items = changes.as_array()?;
    Some(items.as_slice())
}

/// Says whether a document is given a list without changes.
pub(crate) fn has_no_changes(given: Params<'_>) -> bool
    ensures { result ≡ is_empty (changes_in (given_of given.entry)) }
{
    match changes_in(given) {
        Some(changes) => changes.is_empty(),
        None => false,
    }
}

/// Returns the text of the last change, if it is one of the whole text.
pub(crate) fn last_text_in<'a>(given: Params<'a>) -> Option<&'a str>
    ensures { option_map (λ s. s.now) result ≡ whole_text (last_in (changes_in (given_of given.entry))) }
{
    let changes = changes_in(given)?;
    let last = last_of(changes)?;
    whole_text(last)
}

/// Returns the version of a document that is changed, which had the old one.
pub(crate) fn version_after(given: Params<'_>, old: i64) -> i64
    ensures { result ≡ unwrap_or (version_in (given_of given.entry)) old }
{
    match version_in(given) {
        Some(version) => version,
        None => old,
    }
}

/// Returns what the parameters of `didOpen` say.
pub(crate) fn opened_in<'a>(given: Params<'a>) -> Option<Told<'a>>
    ensures { option_map document_of result ≡ opened_in (given_of given.entry) }
{
    let address = address_in(given)?;
    let version = version_in(given)?;
    let text = opened_text_in(given)?;
    Some(Told {
        address,
        version,
        text,
    })
}

/// Returns the whole number that the value is, if it is one that is not negative.
fn number_in(value: Option<&Value>) -> Option<u64>
    ensures { result ≡ fields.number_in (option_map (λ v. view v.now) value.entry) }
{
    let value = value?;
    value.as_u64()
}

/// Returns the position that the parameters name, as a value.
fn place_in<'a>(given: Params<'a>) -> Option<&'a Value>
    ensures { option_map (λ v. view v.now) result ≡ fields.place_of (given_of given.entry) }
{
    let fields = fields_in(given)?;
    fields.get("position")
}

/// Returns the number of the line that the parameters name.
fn line_in(given: Params<'_>) -> Option<u64>
    ensures { result ≡ fields.number_in (fields.member_in (codes "line") (fields.place_of (given_of given.entry))) }
{
    let place = place_in(given)?;
    number_in(place.get("line"))
}

/// Returns the column that the parameters name.
fn column_in(given: Params<'_>) -> Option<u64>
    ensures { result
        ≡ fields.number_in (fields.member_in (codes "character") (fields.place_of (given_of given.entry))) }
{
    let place = place_in(given)?;
    number_in(place.get("character"))
}

/// Returns the position that the parameters name.
pub(crate) fn position_in(given: Params<'_>) -> Option<Position>
    ensures { result ≡ fields.position_in (given_of given.entry) }
{
    let line = line_in(given)?;
    let column = column_in(given)?;
    Some(Position {
        line: line as usize,
        column: column as usize,
    })
}

/// Returns what the parameters say of names that declare.
fn declaring_in(given: Params<'_>) -> Option<bool>
    ensures { result ≡ fields.declaring_in (given_of given.entry) }
{
    let fields = fields_in(given)?;
    let context = fields.get("context")?;
    let wanted = context.get("includeDeclaration")?;
    wanted.as_bool()
}

/// Says whether names that declare are wanted too, which they are unless the parameters say otherwise.
pub(crate) fn wants_declaring(given: Params<'_>) -> bool
    ensures { result ≡ fields.wants_declaring (given_of given.entry) }
{
    match declaring_in(given) {
        Some(wanted) => wanted,
        None => true,
    }
}

/// Returns the new name that the parameters have.
fn new_name_in<'a>(given: Params<'a>) -> Option<&'a str>
    ensures { option_map (λ s. s.now) result ≡ fields.new_name_in (given_of given.entry) }
{
    let fields = fields_in(given)?;
    let name = fields.get("newName")?;
    name.as_str()
}

/// Returns the position that the parameters name, and the new name.
pub(crate) fn naming_in<'a>(given: Params<'a>) -> Option<Naming<'a>>
    ensures { option_map naming_of result ≡ fields.naming_in (given_of given.entry) }
{
    let at = position_in(given)?;
    let name = new_name_in(given)?;
    Some(Naming { at, name })
}

/// Says whether the value is this text.
fn is_text(value: &Value, name: &str) -> bool
    ensures { result ≡ is_text name.now (as_str (view value.now)) }
{
    match value.as_str() {
        Some(text) => text == name,
        None => false,
    }
}

/// Says whether one of the items is this text.
fn any_text(items: &[Value], name: &str) -> bool
    ensures { result ≡ list_any (λ v. is_text name.now (as_str (view v))) items.now }
{
    items.iter().any(|item| is_text(item, name))
}

/// Says whether one of the items is this text.
fn has_text(items: &[Value], name: &str) -> bool
    ensures { result ≡ has_text name.now (items_view items.now) }
{
    any_text(items, name)
}

/// Returns the encodings that the client offers.
fn offered_in<'a>(given: Params<'a>) -> Option<&'a [Value]>
    ensures { option_map (λ v. items_view v.now) result ≡ offered_in (given_of given.entry) }
{
    let fields = fields_in(given)?;
    let capabilities = fields.get("capabilities")?;
    let general = capabilities.get("general")?;
    let offered = general.get("positionEncodings")?;
    let items = offered.as_array()?;
    Some(items.as_slice())
}

/// Says whether the client offers utf-8.
fn offers_bytes(given: Params<'_>) -> bool
    ensures { result ≡ offers (codes "utf-8") (offered_in (given_of given.entry)) }
{
    match offered_in(given) {
        Some(items) => has_text(items, "utf-8"),
        None => false,
    }
}

/// Returns the encoding in which columns are to be counted.
pub(crate) fn encoding_in(given: Params<'_>) -> Encoding
    ensures { result ≡ encoding_in (given_of given.entry) }
{
    if offers_bytes(given) {
        Encoding::Utf8
    } else {
        Encoding::Utf16
    }
}
