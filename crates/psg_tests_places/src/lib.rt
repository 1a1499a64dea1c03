//! Worked programs: which places of a tree are kept, and the repaired tree. It has tests alone.
#![tactic(auto)]

#[cfg(test)]
mod tests;
