//! Where a list of tokens stops being the beginning of a tree, and what can be there in place of the token at the stop.
//!
//! `psg_parse::reach` says how far tokens begin a tree, where what waits for a tree can always be ended. `find_stop`
//! says also what goes on there, by asking for each kind of token.
//!
//! The calls in `laws` do nothing. Their contracts are the laws that what waits can be ended, and that each kind has a
//! tree, where no slot is of a phylum that declares and fixed words are tokens.
#![tactic(auto)]

pub mod laws;
mod naming;
mod stopping;
pub mod wanted;

pub use stopping::{Stop, find_stop};
pub use wanted::Wanted;
