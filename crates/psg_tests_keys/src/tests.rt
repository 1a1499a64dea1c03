//! Keys and lines that were worked out by hand.
mod lines;
mod reading;
