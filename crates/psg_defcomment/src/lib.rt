//! Language definitions that name the token of their comments.
//!
//! ```text
//! let file = read_commented(alloc, b"psg 3\ncomment \"//\"\nsort Type = int bool\n")?;
//! ```
//!
//! A definition file of version 3 is one of version 2 that may have one line more: `comment` and a quoted token. That
//! token begins the comments of program files. The definition is that of the file without the line.
#![tactic(auto)]

pub mod fault;
pub mod lines;
mod plain;
mod quotes;
pub mod reading;

pub use fault::{FileFault, file_fault_text};
pub use lines::Named;
pub use reading::{Commented, read_commented};
