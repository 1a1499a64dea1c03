//! Worked pictures of the editor: which row has which characters and styles. It has tests alone.
#![tactic(auto)]

#[cfg(test)]
mod tests;
