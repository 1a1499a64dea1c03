//! The most general row of two rows that agree on pairs of columns.
//!
//! ```text
//! // ?1 var(?1)  and  var(int)  with the columns 1 and 0 equal: int var(int) var(int)
//! let joined = join_rows(alloc, &sig, left.as_slice(), right.as_slice(), &[(1, 0)])?;
//! ```
//!
//! Both rows are put into a pool as cells, each variable a free one, and the pairs are equations of cells. Solving
//! binds free cells and joins classes of equal constructor cells, so nothing is copied; then one walk looks for
//! circles, and another one writes the row, each cell once.
//!
//! A row that is too large to be written out is kept as an `UnwrittenRow`, which says whether it is an instance of
//! another row. Cells are numbered by what they read as, one number for equal terms, so no term is written out to be
//! compared.
//!
//! What always holds:
//! - A pool fits the signature: its cells have sorts, and none leads back to itself. So each cell reads as one term.
//! - Each step of the solver keeps exactly those values of the cells for which its equation holds.
//! - `solve_in`, `join_rows_in` and `join_in` leave what they put and bound in the pool, and the caller releases it.
//!   Where there is no join, and after an error, the pool is as it was. All other calls leave it as it was.
#![tactic(auto)]

mod circles;
mod classes;
mod covering;
mod forms;
mod heads;
mod join;
mod making;
mod numbering;
mod putting;
mod reading;
mod regions;
mod solving;
mod unwritten;
mod walking;

pub use heads::is_clash;
pub use join::{JoinPool, join_in, join_rows, join_rows_in};
pub use reading::read_row;
pub use regions::solve_in;
pub use unwritten::UnwrittenRow;
