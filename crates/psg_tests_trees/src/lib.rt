//! Worked trees: what is said of definitions, of trees and their edits, and of what is known of a whole tree, in small
//! languages. It has tests alone.
#![tactic(auto)]

#[cfg(test)]
mod tests;
