//! The law of completions: what true rows of placeholders and declarations are good for, as contracts of calls that do
//! nothing.
//!
//! ```text
//! laws::values_of_kinds(&definition); // hole rows have exactly the values of complete legal trees
//! laws::open_fragments(&definition); // what is open has a legal completion, and the other way around
//! laws::seen_values(&definition); // what a node is shown to be it can be in a legal completion
//! ```
//!
//! What always holds of a definition whose rows are true: a fragment that is judged by its hole rows is open exactly
//! where its placeholders can be filled and its unfinished lists continued so that the whole is legal under some
//! declarations outside.
#![tactic(auto)]

pub mod laws;
