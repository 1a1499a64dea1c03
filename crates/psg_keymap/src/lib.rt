//! What a key means at a chosen place of a program: at most one command of the plain editor, from one table.
//!
//! ```text
//! let seen = Seen { language, tree, printed };
//! let due = command_of(alloc, seen, &face, key)?;
//! let spot = spot_for(alloc, tree, &face.chosen, key)?;
//! ```
//!
//! A *face* is what the editor on the screen keeps beside the program: the chosen path, what keys are for now, the
//! line of text, what is offered, and what the last line says. The chosen path is the face's own, so that each
//! command has its path written out. A refusal is known here by its number alone, so that the table is below the
//! session.
#![tactic(auto)]

mod acts;
mod face;
pub mod laws;
mod leaves;
mod nodes;
mod ranges;
mod repair;
mod spots;
mod table;
mod texts;

pub use face::{Face, Message, Mode, Why, copied, with_place};
pub use leaves::{Leaf, args_with, leaf_words, leaves_of};
pub use ranges::{Range, bytes_at, range_of, separator_of, span_at};
pub use repair::{Repair, path_of, place_in, repair_of};
pub use spots::{Spot, spot_at, spot_for};
pub use table::{Due, Seen, command_of, putting};
pub use texts::text_at;
