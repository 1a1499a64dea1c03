//! Worked runs: runs of the program whose files or output fail, whose words have no form, or which reach a limit. It
//! has tests alone.
#![tactic(auto)]

#[cfg(test)]
mod tests;
