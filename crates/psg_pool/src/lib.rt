//! Cells for a unifier, taken in one region and given back from a mark on.
//!
//! A cell is free, of a sort, or a constructor over cells that were put before it. A free cell can be bound to another
//! cell. The crate knows sorts and constructors by their numbers alone:
//!
//! ```text
//! let mut pool = Pool::new(alloc);
//! let variable = pool.put_free(0)?;      // a free cell of the sort 0
//! let constant = pool.put_con(7, &[])?;  // the constructor 7 without arguments
//! let mark = pool.mark();
//! pool.bind(variable, constant)?;        // pool.cell(variable) is Bound(constant)
//! pool.release(mark);                    // pool.cell(variable) is Free(0) again
//! ```
//!
//! A contract sees a pool as two lists: `cells`, as they were put, and `bindings`, in the order in which they were
//! made.
//!
//! Invariants:
//! - A constructor cell never changes and is never bound; its arguments were put before it.
//! - A free cell is bound at most once, to a cell of the pool, and bindings do not lead around in a circle.
//! - The arguments of all constructor cells lie one after the other in one buffer.
#![tactic(auto)]

mod cells;
mod mark;
mod pool;

pub use cells::{Cell, CellId};
pub use mark::Mark;
pub use pool::Pool;
