//! What is asked at a byte of a program's text: which node is there, and what it can mean.
//!
//! ```text
//! match hover_at(alloc, &language, kind, text, byte, &mut steps)? {
//!     Some(hover) => show(hover.start, hover.end, hover.lines.as_slice()),
//!     None => ..,
//! }
//! ```
//!
//! No session is kept: each answer is made of the text alone, so none can be one of an older text. A wrong program is
//! asked in its repaired program, as `psg_asking` does.
#![tactic(auto)]

mod hovering;
mod judging;
pub mod laws;
mod pointing;
mod telling;

pub use hovering::{Hover, hover_at, own_byte, whole_byte};
pub use judging::{Judged, judge, judged_of};
pub use pointing::{begin_of, finish_of, pointed};
