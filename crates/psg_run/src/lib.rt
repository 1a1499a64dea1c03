//! A run of the program: from words, files, an input and a sink to a status.
//!
//! `run(alloc, &words, &mut files, &mut input, &mut out, &mut steps)` does what the words say. For `check DEF` it says
//! whether a file has a definition. For `edit DEF SCRIPT` it writes the replies of the plain editor, which is defined
//! in psg_session's specs and knows nothing but trees. For `live DEF` it writes them to the lines of the input; for
//! `live --framed DEF` with a line before each that has the number of its lines. For `windows DEF SCRIPT` each line of
//! the script is for one of eight windows, which have a cursor each. For `gen N` it says how large a program is that it
//! makes. For `layout DEF SCRIPT LAY COLS` it writes the program of the script, arranged by the layout for that many
//! columns. For `self SCRIPT OUT` it writes the definition that the script builds to a file. For `format DEF KIND FILE`
//! it writes the text that a program file is to have. For `explain DEF SCRIPT` it says why the program of the script
//! has no completion.
#![tactic(auto)]

mod arranging;
mod explaining;
mod exporting;
mod formatting;
mod framing;
mod generating;
pub mod laws;
pub mod limits;
mod lines;
mod linting;
mod live;
mod paths;
mod play;
pub mod program;
mod refutation_texts;
mod silent;
mod source;
pub mod status;
mod term_texts;
mod window_texts;
mod windows;
mod without;
mod words;

pub use program::run;
pub use status::Status;
