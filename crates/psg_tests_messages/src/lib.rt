//! Worked messages: what bodies say, what they get, and what is sent. It has tests alone.
#![tactic(auto)]

#[cfg(test)]
mod tests;
