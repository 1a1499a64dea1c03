//! Why a fragment is wrong.
//!
//! ```text
//! let explained = explain(alloc, &language, &note, &mut steps)?;
//! if let Explained::Wrong(refutation) = &explained {
//!     let right = check_refutation(alloc, &language, &tree, refutation)?;
//!     let reasons = last_reasons(alloc, &language, &tree, refutation)?;
//! }
//! ```
//!
//! A refutation has, for each step in which the relation of a node is made, the step's rows, and for each pair of rows
//! of which these are made a verdict: an equation that has no solution, or the row of which all that the pair has are
//! instances. The last step has no rows. That the verdicts are right is checked by rewriting alone; no equation is
//! solved.
#![tactic(auto)]

mod adding;
mod applying;
mod casing;
pub mod checking;
mod claiming;
mod claims;
mod counting_pairs;
mod derived;
pub mod explaining;
mod fitting;
mod given;
mod indexing;
pub mod last;
pub mod laws;
mod own_rows;
mod putting;
pub mod reasons;
pub mod refutation;
mod regions;
mod relating;
mod solver;
mod stages;
mod staging;

pub use checking::check_refutation;
pub use explaining::{Explained, explain};
pub use last::last_reasons;
pub use reasons::reason;
pub use refutation::{CaseReason, Claim, Label, Reason, Refutation, Rule, Subject, Verdict};
