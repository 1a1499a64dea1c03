//! Why bytes are no program.
ghost use Rattle.std.specs.Prelude.{◌≡◌};
ghost use Rattle.psg_program.specs.declared.fault.ProgramFault.TheVariants.{Memory};

use crate::places::Place;
use std::alloc::{AllocError, AllocFailed};

/// What is wrong with a text, and where.
#[derive(Debug, Drop)]
pub struct SyntaxError {
    /// The place at which it is reported.
    pub place: Place,
    /// The message, one line.
    pub message: String,
}

/// Why bytes are no program.
#[derive(Debug, Drop)]
pub enum ProgramFault {
    /// They are no text, or the text is no program.
    Syntax(SyntaxError),
    /// There was no memory left.
    Memory,
}

impl From<AllocError> for ProgramFault {
    ghost from_gives = { λ _ fault. fault ≡ Memory };

    fn from(_error: AllocError) -> ProgramFault {
        ProgramFault::Memory
    }
}

impl<T: Drop> From<AllocFailed<T>> for ProgramFault {
    ghost from_gives = { λ _ fault. fault ≡ Memory };

    fn from(_error: AllocFailed<T>) -> ProgramFault {
        ProgramFault::Memory
    }
}
