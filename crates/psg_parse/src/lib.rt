//! The parser: the only tree of a list of tokens, where the definition is of the grammar class.
//!
//! ```text
//! let goal = Goal { kind: Kind::Phylum(0), least: 0, around: 0 };
//! let tree = parse(alloc, &definition, goal, tokens.as_slice(), &mut steps)?;
//! ```
//!
//! Where there is no tree, `reach` says how many of the first tokens begin one.
//!
//! What it looks up of a definition is a `ParseTable`; `parse_with` takes one that was made before, `parse` makes its
//! own.
//!
//! It goes over the tokens once, from left to right. The operator that begins or goes on with a token is looked up by
//! the token, and how tightly it binds says whether it is taken. What waits for a tree is on a stack of the parser's
//! own.
//!
//! What always holds:
//! - A stack says what is left to be read, and each step leaves the same trees with the same nesting of brackets.
//! - A finished tree knows its depth and the nesting of its brackets, counted up to one above the limits. Past a limit
//!   the tree itself is not kept, so what follows takes constant work for each token, and only the stack grows.
#![tactic(auto)]

mod advance;
mod begins;
pub mod fault;
mod gives;
mod grows;
mod lists;
mod lookup;
mod parser;
pub mod reaching;
mod seen;
mod spelling;
mod standing;
mod state;
mod steps;
mod tables;

pub use fault::{Goal, ParseFault};
pub use parser::{parse, parse_with};
pub use reaching::{Front, reach};
pub use spelling::word_token;
pub use tables::{ParseTable, fixed_words};
