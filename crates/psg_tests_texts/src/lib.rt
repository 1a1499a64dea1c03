//! Worked texts: what is read from the texts of programs, screens, scripts and definitions, and how it is written. It
//! has tests alone.
#![tactic(auto)]

#[cfg(test)]
mod tests;
