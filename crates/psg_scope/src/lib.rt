//! Headers: the keys of a region, and how those of its parts are joined.
//!
//! ```text
//! // a use of `x` beside a declaration of `x`: one key, declared; nothing passes outward
//! let body = join(alloc, &uses, &declares)?;
//! let outside = close_region(alloc, &body.header)?;
//! ```
//!
//! A header says of a region, without its tree, what a tree around it has to know: its keys in order, which of them are
//! declared, in which spaces more may still be declared, and whether a key is declared twice. A header is made from
//! those of the parts, by one walk over both.
#![tactic(auto)]

mod closing;
pub mod header;
mod joining;
mod merging;
pub mod names;
mod sharing;
mod spaces;

pub use closing::{Closed, close_region};
pub use header::{Header, NameCol};
pub use joining::{Joined, header_of, join};
pub use names::Names;
