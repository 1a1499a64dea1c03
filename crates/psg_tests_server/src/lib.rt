//! A conversation with the server that was worked out by hand. It has tests alone.
#![tactic(auto)]

#[cfg(test)]
mod tests;
