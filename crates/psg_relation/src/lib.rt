//! Relations: lists of the most general rows of terms, and their joins and projections.
//!
//! ```text
//! // the rows  arr(?1)  and  arr(int)  and  bool: the relation has  arr(?1)  and  bool
//! let rel = Rel::of(alloc, &sig, rows.as_slice())?;
//! // the rows of both sides that agree where the left column 0 meets the right column 1, and of them the left column 0
//! let joined = join(alloc, &sig, &left, &right, &[(0, 1)], &[0])?;
//! ```
//!
//! A row describes its ground instances. A relation has no row that is an instance of another one, so it is the
//! shortest list of rows that describes them all. Its order is that of the rows' texts.
//!
//! What always holds:
//! - The rows of a `Rel` are canonical, none is an instance of another one, and they are in byte order of their
//!   texts.
//! - A `Rel` has at most 16,384 variables and constructors, and no term in it is deeper than 1,000.
#![tactic(auto)]

mod beside;
pub mod column_laws;
mod crossing;
mod forcing;
mod heads;
pub mod joining;
pub mod laws;
mod maximal;
mod narrowing;
mod order;
pub mod projection;
mod rejoining;
pub mod relation;
pub mod row;
pub mod selecting;
mod settling;
mod sifting;
mod weighing;

pub use joining::join;
pub use projection::project;
pub use relation::{Rel, RelFault};
pub use row::RelRow;
pub use selecting::select;
