//! The versions of one value, for undo and redo.
//!
//! A history keeps the values that were current before and those that were undone; the current value stays with the
//! caller, who lends it to each step and gets the other one back:
//!
//! ```text
//! let mut history = History::new(alloc)?;
//! history.push(1);                       // 1 was current, the caller goes on with 2
//! history.undo(2);                       // Moved(1): 1 is current again
//! history.redo(1);                       // Moved(2)
//! ```
//!
//! A contract sees a history as two lists, `earlier` and `later`, each with the nearest value first.
//!
//! Invariants:
//! - `earlier` and `later` together have at most `VERSIONS` values.
//! - Room for `VERSIONS` values on each side is taken when the history is made, so that no later call needs memory.
#![tactic(auto)]

mod history;
mod undone;

pub use history::{History, VERSIONS};
pub use undone::Undone;
