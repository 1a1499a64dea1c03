//! The join of two rows, solved and not written out.
ghost use Rattle.std.specs.Prelude.{◌≡◌, ◌<◌, ◌+◌, ◌++◌, ◌↔◌, All, List, ℕ, IfOk, IfSome, IfNone, IsTrue, length};
ghost use Rattle.psg_terms.specs.Terms.{Term as Plain};
ghost use Rattle.psg_terms.specs.Signature.{HaveSorts};
ghost use Rattle.psg_terms.specs.Instances.{IsGroundInstance};
ghost use Rattle.psg_pool.specs.Cells.{IsAmong};
ghost use Rattle.psg_unify.specs.Pairs.{Pair, AreJoinable, IsAgreeing};
ghost use Rattle.psg_unify.specs.Columns.{picked, Joins};
ghost use Rattle.psg_unify.specs.Circles.{HasCircle};

use crate::covering::covers;
use crate::join::picked_cells;
use crate::regions::solve_in;
use psg_pool::{CellId, Pool};
use psg_terms::{Signature, Term};
use std::alloc::{AllocError, Global};

/// Some columns of the join of two rows, as cells of a pool of its own. It takes as much memory as the two rows,
/// however large the row is when it is written out.
#[derive(Drop)]
pub struct UnwrittenRow {
    pool: Pool,
    cells: Vec<CellId>,
    ghost among: { All (IsAmong pool.cells) cells.items },
    ghost circles: { HasCircle pool → ⊥ },
}

impl UnwrittenRow {
    ghost use Rattle.psg_unify.specs.Unwritten.{IsUnwritten};

    /// Solves the row that `join_rows` makes, of which the columns of the numbers in `keep` are kept, in this order.
    /// `None` and errors are returned as there.
    pub fn of(
        alloc: Global,
        sig: &Signature,
        left: &[Term],
        right: &[Term],
        pairs: &[(usize, usize)],
        keep: &[usize],
    ) -> Result<Option<UnwrittenRow>, AllocError>
        requires joinable { AreJoinable sig.now left.now right.now pairs.now }
        requires keep { All (λ k. k < length left.now + length right.now) keep.now }
        ensures some { IfOk result (λ o. IfSome o (λ row.
            IsUnwritten sig.now left.now right.now pairs.now keep.now row)) }
        ensures none { IfOk result (λ o. IfNone o ((values : List Plain)
            → IsAgreeing sig.now left.now right.now pairs.now values → ⊥)) }
    {
        let mut pool = Pool::new(alloc);
        let solved = solve_in(alloc, sig, &mut pool, left, right, pairs)?;
        match solved {
            Some(columns) => {
                let cells = picked_cells(alloc, columns.as_slice(), keep)?;
                Ok(Some(UnwrittenRow { pool, cells }))
            }
            None => Ok(None),
        }
    }

    /// Says whether each ground instance of the row is one of the general row. Each cell of the row is read once,
    /// however large the row is when it is written out. `AllocError` is returned when memory runs out.
    pub fn is_instance_of(
        &self,
        alloc: Global,
        sig: &Signature,
        general: &[Term],
    ) -> Result<bool, AllocError>
        ensures { IfOk result (λ b. (left right : List Plain) (pairs : List Pair) (keep : List ℕ)
            → IsUnwritten sig.now left right pairs keep self.now → (ls rs : List ℕ) → HaveSorts sig.now left ls
            → HaveSorts sig.now right rs → HaveSorts sig.now general.now (picked (ls ++ rs) keep)
            → IsTrue b
            ↔ ((x : List Plain) → Joins sig.now pairs keep left right x → IsGroundInstance sig.now general.now x)) }
    {
        let instance = covers(alloc, sig, &self.pool, self.cells.as_slice(), general)?;
        Ok(instance)
    }
}
