//! Worked definitions in their own editor: what is exported of trees of the language of definitions. It has tests alone.
#![tactic(auto)]

#[cfg(test)]
mod tests;
