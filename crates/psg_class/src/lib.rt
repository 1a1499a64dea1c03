//! The grammar class: in a definition of the class no list of tokens is read as two trees of one kind.
//!
//! The shortest useful call is `class_check(alloc, &definition)`. Where it refuses, `class_text(alloc, &definition,
//! &fault)` returns the text, as `refused MixedLevel Exp 3`. `specs/Yields` defines the tokens of a tree, with its
//! levels and brackets; `specs/Follow` what can begin a tree and follow it; `specs/Class` the eight conditions; and
//! `specs/Only` that a definition which fails none of them has only one tree for each kind, level and list of tokens.
#![tactic(auto)]

mod behind;
mod check;
mod failing;
pub mod fault;
mod forms;
mod grid;
pub mod laws;
mod shape;
mod sources;
mod vocabulary;

pub use check::class_check;
pub use fault::{ClassFault, class_text};
