//! Why there is no answer.
use psg_cache::NoteFault;
use std::alloc::{AllocError, AllocFailed};
use thiserror::Error;

/// Why it is not known which places are blamed.
#[derive(Debug, Drop, Error)]
pub enum BlameFault {
    /// A tree that was tried passes a limit. `kept` says which places it keeps; the others are opened, also those after
    /// its end. A path in `fault` is one of that tree.
    #[error("a tree of some places can't be evaluated: {fault}")]
    Limit { kept: Vec<bool>, fault: NoteFault },
    /// Memory ran out.
    #[error("out of memory")]
    Memory,
}

impl From<AllocError> for BlameFault {
    ghost use Rattle.std.specs.Prelude.{◌≡◌};
    ghost use Rattle.psg_places.specs.declared.fault.BlameFault.TheVariants.{Memory};

    ghost from_gives = { λ _ fault. fault ≡ Memory };

    fn from(_error: AllocError) -> BlameFault {
        BlameFault::Memory
    }
}

impl<T: Drop> From<AllocFailed<T>> for BlameFault {
    ghost use Rattle.std.specs.Prelude.{◌≡◌};
    ghost use Rattle.psg_places.specs.declared.fault.BlameFault.TheVariants.{Memory};

    ghost from_gives = { λ _ fault. fault ≡ Memory };

    fn from(_error: AllocFailed<T>) -> BlameFault {
        BlameFault::Memory
    }
}
