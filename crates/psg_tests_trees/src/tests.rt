//! Definitions and trees written as texts, and what the calls make of them.
mod definitions;
mod edits;
mod forms;
mod framing;
mod limits;
mod little;
mod notes;
mod sharing;
mod trees;
