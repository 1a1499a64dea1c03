//! Worked values: what is said of signatures, terms, joined rows, relations and headers that were worked out by hand.
//! It has tests alone.
#![tactic(auto)]

#[cfg(test)]
mod tests;
