//! The summary of a tree from those of its children.
//!
//! ```text
//! let left = eval_hole(alloc, &definition, expression, &mut steps)?;
//! let sum = eval_op(alloc, &definition, plus, &[], &[left.share()?, left], &mut steps)?;
//! ```
//!
//! A summary has the kind of a tree, its header, and its relation: the most general rows of what its value and the
//! entities of its keys can be. That of a node is made step by step, from its own rows and one child after the other,
//! so no tree is needed, and what a step keeps is as small as its most general rows. `op_steps` and `cell_steps` give
//! the rows of each of these steps. A frame has summaries of what is around a tree. `Tables` has what does not depend
//! on the tree, made once for a definition: its calls answer the same.
#![tactic(auto)]

mod cell;
pub mod climbing;
pub mod evaluating;
pub mod frame;
pub mod laws;
mod leaves;
mod node;
mod outside;
mod own;
mod partial;
mod parts;
pub mod pattern;
pub mod patterning;
mod placing;
pub mod question;
pub mod renaming;
pub mod reporting;
mod starts;
pub mod steps;
pub mod summary;
pub mod tables;

pub use climbing::climb;
pub use evaluating::{eval_cell, eval_end, eval_hole, eval_op};
pub use frame::Frame;
pub use pattern::Pattern;
pub use patterning::{pattern_cell, pattern_end, pattern_op};
pub use question::{FocusFault, asked};
pub use reporting::with_report;
pub use steps::{StepRows, cell_steps, op_steps};
pub use summary::{EvalFault, Summary};
pub use tables::Tables;
