//! Scripts of calls, and what they answer.
mod copying;
mod files;
mod machine;
mod pieces;
mod pools;
mod sinks;
mod versions;
