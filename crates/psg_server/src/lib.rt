//! A server of the Language Server Protocol for an accepted language: what a message makes of it, and what is sent.
//!
//! ```text
//! let mut server = Server::new(alloc);
//! match server.answer(alloc, &defined, kind, body, &mut steps)? {
//!     Reply::Nothing => .., Reply::Sent(value) => .., Reply::Ended(status) => ..,
//! }
//! ```
//!
//! A document is an address, a version and a text. What is published of it is made of its text alone, again at each
//! change, so that no older tree can be shown. A document is judged as a program of one kind, without its comments.
#![tactic(auto)]

mod capabilities;
mod completing;
mod diagnostics;
mod documents;
mod edits;
mod fields;
mod hovering;
mod judging;
mod laws;
mod linking;
mod methods;
mod names;
mod notices;
mod ranges;
mod renaming;
mod server;

pub use documents::{Document, Documents};
pub use judging::Defined;
pub use laws::{addresses_stay_apart, last_text_is_kept, others_stay};
pub use server::{Reply, Server};
