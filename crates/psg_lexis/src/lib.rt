//! The tokens of a fragment's text.
//!
//! `let lexis = Lexis::new(alloc, &fixed_words)?; let tokens = lex(alloc, &lexis, "a := 1")?;`
//!
//! A word, a number and a run of symbols reach as far as their characters do. A token keeps the bytes that it takes,
//! from its start up to its end; no two tokens overlap, and between them are blanks alone. Which runs of symbols
//! are tokens the fixed words of the language decide.
#![tactic(auto)]

pub mod classes;
pub mod lexer;
pub mod lexis;
mod literal;
pub mod quoting;
mod splits;
pub mod token;

pub use classes::{glues, is_symbol};
pub use lexer::lex;
pub use lexis::Lexis;
pub use quoting::write_escaped;
pub use token::{LexFault, Spanned, Token};
