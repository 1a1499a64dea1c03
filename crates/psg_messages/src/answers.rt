//! The values that a server sends.
ghost use Rattle.std.specs.Prelude.{◌≡◌, IfOk};
ghost use Rattle.std.specs.Option.{option_map};
ghost use Rattle.serde_json.specs.View.{view};
ghost use Rattle.psg_messages.specs.Answers.{answer_of, fault_of, note_of, refusal_of};

use crate::turns::Fault;
use serde_json::{Value, json};
use std::alloc::{AllocError, Global};

/// Returns the answer to the request with this id. Fails only when out of memory.
pub fn answer(alloc: Global, id: &Value, value: Value) -> Result<Value, AllocError>
    ensures { IfOk result (λ v. view v ≡ answer_of (view id.now) (view value)) }
{
    json!(in alloc; {"jsonrpc": "2.0", "id": id, "result": value})
}

/// Returns the answer to a message that is refused, with its id or null. Fails only when out of memory.
pub fn refusal(
    alloc: Global,
    id: Option<&Value>,
    fault: Fault,
    message: &str,
) -> Result<Value, AllocError>
    ensures { IfOk result (λ v. view v ≡ refusal_of (option_map (λ i. view i.now) id.entry) fault message.now) }
{
    let error = fault_value(alloc, fault, message)?;
    match id {
        Some(id) => json!(in alloc; {"jsonrpc": "2.0", "id": id, "error": error}),
        None => json!(in alloc; {"jsonrpc": "2.0", "id": null, "error": error}),
    }
}

/// Returns the value of a fault with its message.
fn fault_value(alloc: Global, fault: Fault, message: &str) -> Result<Value, AllocError>
    ensures { IfOk result (λ v. view v ≡ fault_of fault message.now) }
{
    let code = fault.code();
    json!(in alloc; {"code": code, "message": message})
}

/// Returns a note of the server with these parameters. Fails only when out of memory.
pub fn note(alloc: Global, method: &str, params: Value) -> Result<Value, AllocError>
    ensures { IfOk result (λ v. view v ≡ note_of method.now (view params)) }
{
    json!(in alloc; {"jsonrpc": "2.0", "method": method, "params": params})
}
