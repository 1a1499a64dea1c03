//! The law of new names: which names an operator is put into a fragment with does not matter, where they are new.
//!
//! ```text
//! laws::new_names(&definition); // a contract of a call that does nothing
//! ```
//!
//! A name that nothing else in the fragment has is as good as any other such name.
#![tactic(auto)]

pub mod laws;
