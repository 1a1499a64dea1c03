//! Worked frames: what is read of bytes that arrive in pieces. It has tests alone.
#![tactic(auto)]

#[cfg(test)]
mod tests;
