//! Menus: what may be put at a place of a fragment.
//!
//! ```text
//! let frames = note.frames(alloc, &path)?;
//! let choice = operators(alloc, &definition, frames.as_slice(), phylum, &used, &mut steps)?;
//! ```
//!
//! An operator is on a menu exactly where the fragment with it at the place, with new names, is open. In an accepted
//! language, of whose fragments all are well-formed, that is where it has a legal completion with new names.
#![tactic(auto)]

mod alike;
mod blanks;
pub mod choosing;
mod entries;
mod judging;
pub mod naming;
mod sharing;
mod words;

pub use choosing::{fits, operators};
pub use naming::names;
pub use psg_eval::FocusFault;
