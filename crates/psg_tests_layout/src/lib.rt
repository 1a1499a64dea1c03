//! Worked layouts: files that are read or refused, and trees of MINI arranged by them. It has tests alone.
#![tactic(auto)]

#[cfg(test)]
mod tests;
