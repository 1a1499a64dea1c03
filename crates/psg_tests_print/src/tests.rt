//! Trees written as words, and what is printed of them.
mod marks;
mod programs;
mod trees;
