//! The editor on the screen: a session, a face, and what a key makes of both.
//!
//! ```text
//! let session = begin(alloc, language, kind, bytes, &mut files, &mut steps)?;
//! let mut tui = Tui::new(alloc, session, kind, title, file, true, 24, 80)?;
//! for stroke in reader.read(alloc, piece)? {
//!     tui.press(alloc, &stroke, &mut files, &mut steps)?;
//! }
//! let picture = tui.picture(alloc)?;
//! ```
//!
//! A key is at most one command of the session, from one table (`psg_keymap`). The chosen path is the face's own, so
//! that no key moves the session's cursor. The picture is psg_picture's, of the program's text and the face.
#![tactic(auto)]

mod colors;
mod editing;
mod lines;
mod opening;
mod picture;
mod pressing;
mod running;
mod saving;
mod shown;
mod telling;
mod tui;
mod turning;
mod wondering;
mod words;

pub use editing::{Aim, Editing};
pub use opening::{Begun, NoProgram, begin};
pub use running::{Ending, run};
pub use shown::{Asked, Shown};
pub use tui::Tui;
