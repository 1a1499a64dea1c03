//! Texts that are opened and replaced.
mod texts;
