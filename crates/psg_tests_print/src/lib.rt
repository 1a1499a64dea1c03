//! Worked prints: the texts of trees and the spans of their nodes, in languages with each layout mark. It has tests
//! alone.
#![tactic(auto)]

#[cfg(test)]
mod tests;
