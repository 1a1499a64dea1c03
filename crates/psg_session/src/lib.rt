//! The editor: one fragment, and what the commands make of it.
//!
//! ```text
//! let mut session = Session::new(alloc, language)?;
//! let reply = session.apply(alloc, &command, &mut files, &mut steps)?;
//! ```
//!
//! What it does at a command is what the plain editor does, which is defined in this crate's specs and knows nothing
//! but trees: the first of the command's tests that holds refuses it, otherwise it is done.
//!
//! A command is looked at in one place (`dispatch`). A question is answered (`printing`, `questions`, `relating`,
//! `menus`). A change is first planned (`changes`, `pasting`, `typed`, `ranged`), then its tree is noted and judged
//! (`noting`, `judging`). A command that reaches the files asks them at its end (`kept`). A call that finds no outcome
//! says why by `Stop`: one of the command's tests refuses it, or memory ran out. An outcome has all memory that it
//! needs; one place (`Editor::settle`) then changes the editor and cannot fail.
#![tactic(auto)]

pub mod changes;
pub mod dispatch;
pub mod editor;
pub mod edits;
pub mod finding;
mod gathering;
mod insertion;
pub mod judging;
pub mod kept;
pub mod laws;
pub mod leaves;
pub mod measuring;
pub mod menus;
mod noting;
pub mod pasting;
mod printing;
mod printout;
mod questions;
mod ranged;
pub mod refusal;
mod relating;
pub mod replies;
pub mod saved;
pub mod session;
pub mod stop;
pub mod told_laws;
mod typed;
mod versions;

pub use measuring::Extent;
pub use refusal::Refusal;
pub use replies::{Mark, Reply, reply_lines};
pub use session::Session;
