//! Whether a definition is accepted: its hole rows and declare rows say the truth of trees.
//!
//! The conditions and their order are in `specs/Conditions` and `specs/Refusal`, the texts of refusals in
//! `specs/Texts`. `accept(alloc, definition)` tests them one after the other and gives the language, or the first
//! refusal; `accept_text(alloc, &refused)` writes its text.
//!
//! ```text
//! match accept(alloc, definition) {
//!     Ok(language) => edit(language),
//!     Err(refused) => say(accept_text(alloc, &refused)?),
//! }
//! ```
//!
//! Rows are covered by hole rows as psg_covering says. A specimen is tested by its pattern, which is made step by step
//! as the summary of a tree is: a hole place is a column of its relation. The work for the coverage of rows and for the
//! patterns of all specimens has a bound each, beyond which the call fails as if out of memory.
#![tactic(auto)]

mod acceptance;
mod accepting;
mod cases;
mod clear;
mod covering;
mod declarable;
mod declares;
pub mod fault;
mod forms;
mod holes;
mod instances;
mod its;
pub mod language;
pub mod laws;
mod patterns;
mod places;
mod room;
mod showing;
mod text;
mod unshown;

pub use acceptance::accept;
pub use fault::{AcceptFault, Refused, Site};
pub use language::{Language, LanguageParts};
pub use text::accept_text;
