//! Pictures that were worked out by hand.
mod drawing;
