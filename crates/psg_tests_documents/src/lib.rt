//! Worked positions: where they are in a text, and what the position of a byte is. It has tests alone.
#![tactic(auto)]

#[cfg(test)]
mod tests;
