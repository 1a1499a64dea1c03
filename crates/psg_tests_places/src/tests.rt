//! Programs of MINI with mistakes.
mod languages;
mod parts;
mod programs;
