//! A prompt at which lines are typed: keys in, and out come the lines that are finished and what a terminal shows.
//!
//! - What is handed on are exactly the lines at each Enter, in order, whatever the cuts of the input, and nothing else.
//! - What is drawn is the prompt and the part of the line around its cursor, with the cursor at its place. No character
//!   of the line that could turn the state of a terminal is drawn.
//! - Where memory runs out no finished line is lost: it is told before anything else is done.
#![tactic(auto)]

mod act;
mod completing;
mod prompt;
mod row;
mod running;

pub use act::Act;
pub use completing::Words;
pub use prompt::Prompt;
pub use running::{Ending, run};
