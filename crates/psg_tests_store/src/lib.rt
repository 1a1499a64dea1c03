//! Worked stores: what is said of pools of cells, of histories, and of files and sinks, by scripts of their calls. It
//! has tests alone.
#![tactic(auto)]

#[cfg(test)]
mod tests;
