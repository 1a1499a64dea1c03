//! Worked texts with comments: what is written for a new text. It has tests alone.
#![tactic(auto)]

#[cfg(test)]
mod tests;
