//! Where nodes are in texts: rows that were worked out by hand. It has tests alone.
#![tactic(auto)]

#[cfg(test)]
mod tests;
