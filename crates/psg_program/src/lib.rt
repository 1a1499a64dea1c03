//! Program files: the program that bytes are, or the place and the reason why they are none; and the text that a
//! program file is to have.
//!
//! ```text
//! let program = read_program(alloc, &language, kind, bytes, &mut steps)?;
//! let text = formatted(alloc, language.definition(), &program.tree)?;
//! let difference = first_difference(bytes, text.as_str());
//! ```
//!
//! Lines and columns count from 1. A line ends at a line feed, and a column is a character. One byte order mark at the
//! beginning of a file is passed over, and takes no column. Carriage returns are white space.
#![tactic(auto)]

mod comparing;
mod decoding;
mod expected;
pub mod fault;
pub mod laws;
mod messages;
pub mod places;
pub mod reading;
mod texts;
mod words;

pub use comparing::{Difference, first_difference};
pub use decoding::unmarked;
pub use expected::expected_words;
pub use fault::{ProgramFault, SyntaxError};
pub use messages::{stop_byte, stop_message};
pub use places::{Place, place_of};
pub use reading::{Program, read_program};
pub use texts::formatted;
