//! Worked windows: where the cursors of the windows are after commands. It has tests alone.
#![tactic(auto)]

#[cfg(test)]
mod tests;
