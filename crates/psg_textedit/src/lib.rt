//! Typed text: bytes of a printed tree are replaced, and only the node around them is read again.
//!
//! No token is on two lines, so `type_over` cuts only the lines of the replaced bytes into tokens. It finds the
//! smallest node around the bytes and parses that node's new tokens alone. Where they are no tree of the node's kind,
//! or do not fit what is around it, it parses those of the node's parent, up to the whole text. It answers what parsing
//! the whole new text would answer.
#![tactic(auto)]

pub mod change;
mod nodes;
mod places;
mod reading;
pub mod region_laws;
mod spans;
mod texts;
pub mod typing;

pub use change::{Change, Reader, TextFault, Typed};
pub use typing::type_over;
