//! Links of the names of a program, and new names. It has tests alone.
#![tactic(auto)]

#[cfg(test)]
mod tests;
