//! Layouts of MINI.
mod arranged;
mod languages;
mod refused;
