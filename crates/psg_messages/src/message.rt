//! What a body says.
ghost use Rattle.std.specs.Prelude.{◌≡◌, ◌||◌, codes, is_some, IfOk, MatchOption, Option, if◌then◌else◌};
ghost use Rattle.std.specs.Option.{option_map};
ghost use Rattle.serde_json.specs.Data.{Data, array};
ghost use Rattle.serde_json.specs.Find.{get};
ghost use Rattle.serde_json.specs.View.{items_view, number_view, view};
ghost use Rattle.psg_messages.specs.Messages.{IsValueOf, answer, given_by, given_in, given_of, id_by, is_id, is_whole};
ghost use Rattle.psg_messages.specs.Messages.{said, said_of};
ghost use Rattle.psg_messages.specs.Messages.{said_with, wrong};

use serde_json::{Number, Value};
use std::alloc::{AllocError, Global};

/// What a message says.
#[derive(Clone, Copy)]
pub enum Message<'a> {
    /// A request, which wants an answer with its id: a whole number or a text.
    Request {
        id: &'a Value,
        method: &'a str,
        given: Params<'a>,
    },
    /// A note, which wants no answer.
    Note {
        method: &'a str,
        given: Params<'a>,
    },
    /// An answer to a request of the server.
    Answer,
    /// None of these, with its id if it has one.
    Wrong {
        id: Option<&'a Value>,
    },
}

/// The parameters of a message.
#[derive(Clone, Copy)]
pub enum Params<'a> {
    /// There are none.
    Nothing,
    /// An object.
    Fields(&'a Value),
    /// A value that is no parameters.
    Wrong,
}

/// Reads the value that the body is the text of. Returns none where it is no JSON, nests deeper than 127, or has half a
/// surrogate pair. Fails only when out of memory. Takes a step for each byte.
pub fn parsed(alloc: Global, body: &[u8]) -> Result<Option<Value>, AllocError>
    ensures { IfOk result (λ found. MatchOption found ((d : Data) → IsValueOf body.now d → ⊥)
        (λ value. IsValueOf body.now (view value))) }
{
    match Value::from_slice(alloc, body) {
        Ok(value) => Ok(Some(value)),
        Err(error) => {
            if error.is_memory() {
                Err(AllocError)
            } else {
                Ok(None)
            }
        }
    }
}

/// Returns what the value says as a message. The message borrows from the value, so this takes no memory.
pub fn message_of(value: &Value) -> Message<'_>
    ensures { said_of result ≡ said (view value.now) }
{
    match value.get("method") {
        None => without_method(value),
        Some(name) => match name.as_str() {
            None => Message::Wrong { id: id_of(value) },
            Some(method) => with_method(value, method),
        },
    }
}

/// Returns what the value says, which has no method.
fn without_method(value: &Value) -> Message<'_>
    ensures { said_of result ≡ (if is_some (get (codes "result") (view value.now))
        || is_some (get (codes "error") (view value.now))
        then answer else wrong (id_by (get (codes "id") (view value.now)))) }
{
    if value.get("result").is_some() || value.get("error").is_some() {
        Message::Answer
    } else {
        Message::Wrong { id: id_of(value) }
    }
}

/// Returns what the value says, which has the method.
fn with_method<'a>(value: &'a Value, method: &'a str) -> Message<'a>
    ensures { said_of result ≡ said_with (get (codes "id") (view value.now)) method.now
        (given_by (get (codes "params") (view value.now))) }
{
    let given = params_of(value);
    match value.get("id") {
        None => Message::Note { method, given },
        Some(id) => {
            if is_id(id) {
                Message::Request { id, method, given }
            } else {
                Message::Wrong { id: None }
            }
        }
    }
}

/// Returns the member `id` of the value, if it is an id.
fn id_of(value: &Value) -> Option<&Value>
    ensures { option_map (λ id. view id.now) result ≡ id_by (get (codes "id") (view value.now)) }
{
    let id = value.get("id")?;
    if is_id(id) { Some(id) } else { None }
}

/// Says whether the value is an id: a whole number or a text.
#[tactic(auto, using(serde_json::specs::declared::value::Value::the_lemmas))]
fn is_id(value: &Value) -> bool
    ensures { result ≡ is_id (view value.now) }
{
    match value {
        Value::Number(number) => is_whole(number),
        Value::String(_) => true,
        Value::Null => false,
        Value::Bool(_) => false,
        Value::Array(_) => false,
        Value::Object(_) => false,
    }
}

fn is_whole(number: &Number) -> bool
    ensures { result ≡ is_whole (number_view number.now) }
{
    !number.is_f64()
}

/// Returns the parameters of the value.
fn params_of(value: &Value) -> Params<'_>
    ensures { given_of result ≡ given_by (get (codes "params") (view value.now)) }
{
    match value.get("params") {
        None => Params::Nothing,
        Some(given) => params_in(given),
    }
}

/// Returns the parameters that the value of the member `params` is.
#[tactic(auto, using(serde_json::specs::declared::value::Value::the_lemmas))]
fn params_in(given: &Value) -> Params<'_>
    ensures { given_of result ≡ given_in (view given.now) }
{
    match given {
        Value::Null => Params::Nothing,
        Value::Array(items) => params_of_list(items.as_slice()),
        Value::Object(_) => Params::Fields(given),
        Value::Bool(_) => Params::Wrong,
        Value::Number(_) => Params::Wrong,
        Value::String(_) => Params::Wrong,
    }
}

/// Returns the parameters that a list is: nothing if it is empty.
fn params_of_list(items: &[Value]) -> Params<'static>
    ensures { given_of result ≡ given_in (array (items_view items.now)) }
{
    if items.is_empty() {
        Params::Nothing
    } else {
        Params::Wrong
    }
}
