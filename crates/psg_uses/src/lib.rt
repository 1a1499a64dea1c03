//! The names that a program declares and uses, by region, and the names that nothing declares.
//!
//! ```text
//! let here = region_of(alloc, known, tree, path)?;
//! let free = free_uses(alloc, linking)?;
//! ```
//!
//! A region is what a scope operator encloses: a name that is declared in it means that declaration, and an outer one
//! otherwise.
#![tactic(auto)]

pub mod elements;
pub mod free;
pub mod laws;
pub mod names;
pub mod regions;
