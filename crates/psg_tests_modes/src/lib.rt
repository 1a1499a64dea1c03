//! Worked keys: what they make of a face in each mode. It has tests alone.
#![tactic(auto)]

#[cfg(test)]
mod tests;
