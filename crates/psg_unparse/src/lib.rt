//! Printing: the text of a tree, and the bytes on which each of its nodes is written.
//!
//! `unparse` writes a tree down by the words and the marks of its language. It returns the text and a span for each
//! node, a node before its children and children in order. Contracts see what is printed as `printed_of`: the tree is
//! first a row of tokens and marks, and the gap in front of a token depends on the row before it alone.
//!
//! `specs/Rows` says what row of tokens and marks a tree is written as, `specs/Layout` what text a row has, and
//! `specs/Back` what it means that the text reads back. `specs/Spots` and `specs/Nodes` say what it means that each
//! node of the tree does, `specs/Spaced` that each text with other gaps between the same tokens does. The calls of
//! `reading_back` do nothing: their contracts are the laws.
#![tactic(auto)]

pub mod laws;
mod layout;
pub mod nodes;
pub mod reading_back;
pub mod spans;
pub mod splicing;

pub use nodes::unparse;
pub use spans::{Printed, Span, place_of};
pub use splicing::spliced;
