//! The picture of the editor on the screen: a program's text in a window, with what is marked in it, and the lines
//! around it.
//!
//! ```text
//! let view = scrolled(view, text, marks.chosen);
//! let picture = program_picture(alloc, view, &around, text, &marks, None)?;
//! ```
//!
//! The picture is a function of what is given, row by row: the title, the program or a page, a rule, and three lines. A
//! row that is too long is cut at the screen's edge, and a wide character that the edge cuts is blank there.
#![tactic(auto)]

mod around;
pub mod laws;
mod marks;
mod page;
mod picture;
mod program;
mod row;
mod scrolling;
mod windowed;

pub use around::{Around, Piece};
pub use marks::{Marks, Part};
pub use picture::{page_picture, program_picture};
pub use scrolling::scrolled;
