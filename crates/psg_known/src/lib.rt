//! A definition with the spaces in which its phyla declare, and the numbers of paths.
#![tactic(auto)]

pub mod known;
pub mod numbers;
