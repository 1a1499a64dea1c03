//! Messages of the Language Server Protocol: what a body says, what it gets, and the values that a server sends.
//!
//! ```text
//! match parsed(alloc, body)? {
//!     None => refusal(alloc, None, Fault::NoJson, "..")?,
//!     Some(value) => match turn_of(phase, known, &message_of(&value)) {
//!         Turn::Serve => .., Turn::Pass => .., Turn::Refuse { id, fault } => refusal(alloc, id, fault, "..")?,
//!     },
//! }
//! ```
//!
//! A message is an object. Its member `method` is a text; with an `id`, which is a whole number or a text, it is a
//! request, and without one a note. Its `params` are missing, null, an empty list or an object. An object without
//! `method` that has `result` or `error` is an answer. The member `jsonrpc` is not looked at.
#![tactic(auto)]

mod answers;
mod laws;
mod message;
mod turns;

pub use answers::{answer, note, refusal};
pub use laws::messages_come_back;
pub use message::{Message, Params, message_of, parsed};
pub use turns::{Fault, Phase, Turn, phase_after, turn_of};
