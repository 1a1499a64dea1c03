//! The lines of a script.
//!
//! `read_command(alloc, b"goto /0/1")` gives the command of a line, `command_text` one line of a command, and
//! `make_script` a large script.
//!
//! A line is the words of its command with one or more spaces between them, and in four forms the rest of the line is a
//! text of its own. No space is before the first word. A line spells at most one command.
#![tactic(auto)]

pub mod command;
mod fields;
mod forms;
mod keyword;
pub mod read;
pub mod script;
pub mod text;
mod words;

pub use command::{Command, CommandFault, Where};
pub use fields::{is_name, read_up_to};
pub use read::read_command;
pub use script::make_script;
pub use text::command_text;
