//! What is answered at bytes of programs of a small language, worked by hand. It has tests alone.
#![tactic(auto)]

#[cfg(test)]
mod tests;
