//! Groups and optional breaks: the text of a tree arranged for a number of columns.
//!
//! `read_layout` reads a small file that says which operators are groups, and before which of their items they may
//! break. `arrange` writes a tree by it: a group that fits on its line is written as `psg_unparse` writes it, and all
//! other operators break before their break items.
//!
//! `specs/Layouts` says what the file means and which line of it is refused, `specs/Arranged` what the arranged text
//! is. The tokens of that text are those of the tree, so it reads back as the tree. The calls of `laws` do nothing:
//! their contracts are the laws.
#![tactic(auto)]

pub mod arranging;
mod deciding;
mod gap;
pub mod laws;
pub mod layout;
mod line_end;
mod marks;
mod nodes;
pub mod reading;
mod rule;
mod rules;
mod sheet;
mod walk;
mod writing;

pub use arranging::{arrange, arranged_text};
pub use layout::{Layout, LayoutFault};
pub use reading::read_layout;
