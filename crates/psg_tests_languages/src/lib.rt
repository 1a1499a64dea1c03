//! Worked languages: what the parts say together of definitions that were read. It has tests alone.
#![tactic(auto)]

#[cfg(test)]
mod tests;
