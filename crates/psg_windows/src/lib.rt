//! The cursors of eight windows on one fragment.
//!
//! ```text
//! let command = cursors.resolved(alloc, 1, &command)?;
//! let reply = session.apply(alloc, &command, &mut files, &mut steps)?;
//! let cursors = cursors.moved(alloc, 1, &command, session.cursor())?;
//! ```
//!
//! Each window has a cursor of its own, and the fragment is common. A command of a window is resolved: its cursor is
//! put in place of `.`. After a command that was accepted all cursors are moved, so that those of the other windows
//! stay at their nodes where these are still there.
//!
//! This crate knows paths and commands, and no fragment. Laws say that moved cursors lead to nodes.
#![tactic(auto)]

pub mod cursors;
pub mod laws;
mod moving;
mod resolving;

pub use cursors::Cursors;
