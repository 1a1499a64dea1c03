//! Worked keys: what is read from pieces of bytes, and what keys make of a line of text. It has tests alone.
#![tactic(auto)]

#[cfg(test)]
mod tests;
