//! Definitions that are read, checked and used.
mod agreement;
mod classes;
mod faults;
mod flat;
mod ground;
mod languages;
mod notes;
mod random;
mod slow;
mod texts;
mod trials;
