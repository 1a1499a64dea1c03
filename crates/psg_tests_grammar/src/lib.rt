//! Worked grammars: which definitions are of the grammar class, and which tree a text of their languages has. It has
//! tests alone.
#![tactic(auto)]

#[cfg(test)]
mod tests;
