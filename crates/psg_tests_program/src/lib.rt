//! Places of texts, and lines that differ. It has tests alone.
#![tactic(auto)]

#[cfg(test)]
mod tests;
