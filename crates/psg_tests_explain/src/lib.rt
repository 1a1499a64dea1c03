//! Worked explanations: what is said of wrong trees of small languages, and that the check refuses what is changed. It
//! has tests alone.
#![tactic(auto)]

#[cfg(test)]
mod tests;
