//! Definitions that are read and checked, and texts that are read in their languages.
mod classes;
mod languages;
mod limits;
mod reference;
mod stops;
mod texts;
