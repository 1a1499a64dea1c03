//! Questions about a program, which leave it as it is: what may be put at a place, with which names, and what a node
//! can mean. A wrong program is asked in its repaired program, so that one slip does not make every other place dead.
//!
//! ```text
//! let known = Known { program, wrong, repair: repair.as_ref() };
//! match menu_at(alloc, known, &spot, &mut files, &mut steps)? {
//!     Some(Ok(offers)) => show_offers(alloc, &mut face, spot, offers),
//!     Some(Err(refusal)) => say(&mut face, Message::Refused(refusal.number())),
//!     None => say(&mut face, ..),
//! }
//! ```
//!
//! The answer is the reply of the plain editor in which this program is opened, and nothing else. An operator is put
//! into a wrong program as the text that it has in the repaired one (`text_due`), since the plain editor refuses
//! `refine` and `insert` there.
#![tactic(auto)]

mod asked;
mod asking;
mod named;
mod program;
mod putting;
mod words;

pub use asked::{Asked, Known, asked_at, spot_in};
pub use asking::{menu_at, names_at, relation_at};
pub use program::{Done, Program, reply_to, tried};
pub use putting::text_due;
