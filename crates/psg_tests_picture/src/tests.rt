//! Pictures that were worked out by hand.
mod seen;
mod shown;
mod words;
