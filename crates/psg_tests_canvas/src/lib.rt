//! Worked pictures: what bytes a picture is drawn with, and what a small terminal shows after them. It has tests alone.
#![tactic(auto)]

#[cfg(test)]
mod tests;
