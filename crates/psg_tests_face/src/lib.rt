//! Worked moves: where the arrows and Tab lead in a tree. It has tests alone.
#![tactic(auto)]

#[cfg(test)]
mod tests;
