//! What lint finds in program files, and the lines that tell it. It has tests alone.
#![tactic(auto)]

#[cfg(test)]
mod tests;
