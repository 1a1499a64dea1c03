//! Paths to the nodes of a tree.
ghost use Rattle.std.specs.Prelude.{◌≡◌, IfOk};

use smallvec::SmallVec;
use std::alloc::{AllocError, Global};
use std::marker::Model;

/// The way from the top of a tree down to a node. Each step is the number of a child, from 0: of a slot under an
/// operator, of an element under a list. Up to eight steps take no memory.
#[derive(Debug, Drop)]
pub struct Path {
    kept: SmallVec<u32, 8>,
}

impl Model for Path {
    ghost use Rattle.std.specs.Prelude.{List, ℕ};

    ghost Value = { List ℕ };

    ghost view = { λ p. p.kept.items };
}

impl Path {
    /// Makes the path of these steps.
    pub fn of(alloc: Global, steps: &[u32]) -> Result<Path, AllocError>
        ensures { IfOk result (λ p. p ≡ steps.now) }
    {
        Ok(Path {
            kept: SmallVec::from_slice(alloc, steps)?,
        })
    }

    /// Returns the steps, from the top down.
    pub fn steps(&self) -> &[u32]
        ensures { result.now ≡ self.now }
    {
        self.kept.as_slice()
    }
}
