//! Why a tree is not exported.
use psg_tree::Path;
use std::alloc::AllocError;
use thiserror::Error;

/// Why a tree is not exported.
#[derive(Debug, Drop, Error)]
pub enum ExportFault {
    /// The tree has a placeholder or an unfinished list, and the first one in the order of its text is at the path.
    #[error("the tree is unfinished")]
    Unfinished(Path),
    /// Memory ran out.
    #[error("out of memory")]
    Memory,
}

impl From<AllocError> for ExportFault {
    ghost use Rattle.std.specs.Prelude.{◌≡◌};
    ghost use Rattle.psg_self.specs.declared.fault.ExportFault.TheVariants.{Memory};

    ghost from_gives = { λ _ e. e ≡ Memory };

    fn from(_e: AllocError) -> ExportFault {
        ExportFault::Memory
    }
}
