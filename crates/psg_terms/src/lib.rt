//! Sorts, first-order terms over them, and rows of terms with their variables numbered by first occurrence.
//!
//! ```text
//! let sig = Signature::new(alloc, sorts)?;
//! let row = vec![in alloc; Term::var(alloc, SortId(0), 9)?]?;
//! let numbered = canonical::canonical(alloc, &sig, row.as_slice())?;
//! let text = row_text(alloc, &sig, numbered.as_slice())?;
//! ```
//!
//! What always holds:
//! - Each sort of a `Signature` has a term without variables, and is one constant or has two constructors or more.
//! - The owners of a `Term` share it, and it keeps how many symbols it has and how deep it is.
//! - Canonical rows of the same sorts that have the same ground instances are equal.
#![tactic(auto)]

pub mod canonical;
mod counting;
pub mod declare;
mod ground;
mod known;
pub mod laws;
pub mod matching;
mod raising;
pub mod seq;
pub mod sorting;
pub mod sorts;
pub mod steps;
pub mod term;
pub mod text;
pub mod words;

pub use counting::{Room, too_many_cells, too_many_symbols, uncountable};
pub use declare::{ConDecl, SigFault, SortDecl};
pub use raising::raise_all;
pub use seq::{Seq, Txt};
pub use sorting::{has_sort, have_sorts};
pub use sorts::{ConId, Constructor, Declared, Signature, SortId};
pub use steps::Steps;
pub use term::{Node, Term};
pub use text::{row_text, term_text};
pub use words::{goes_on_word, starts_word};
