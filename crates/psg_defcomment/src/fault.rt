//! Why bytes are no definition with comments.
ghost use Rattle.std.specs.Prelude.{◌≡◌, IfOk, string_bytes};
ghost use Rattle.psg_defcomment.specs.Refusals.{file_fault_text as file_fault_text_of};
ghost use Rattle.psg_defcomment.specs.declared.fault.FileFault.TheVariants.{Memory};

use psg_deflines::{DefFault, fault_text};
use std::alloc::{AllocError, AllocFailed, Global};
use thiserror::Error;

/// The first fault of a definition file that may name a token of comments.
#[derive(Clone, Copy, Debug, Drop, Error)]
pub enum FileFault {
    /// The file without its lines on comments has this fault.
    #[error("the definition has a fault")]
    Definition(DefFault),
    /// The line, from 1, is the second one that names a token of comments.
    #[error("line {0} names a second token of comments")]
    Repeated(usize),
    /// The line, from 1, names a token that may not begin comments in this language.
    #[error("the token of line {0} does not fit the language")]
    Unfit(usize),
    /// Memory ran out.
    #[error("out of memory")]
    Memory,
}

impl From<AllocError> for FileFault {
    ghost use Rattle.std.specs.Prelude.{◌≡◌};
    ghost use Rattle.psg_defcomment.specs.declared.fault.FileFault.TheVariants.{Memory};

    ghost from_gives = { λ _ e. e ≡ Memory };

    fn from(_e: AllocError) -> FileFault {
        FileFault::Memory
    }
}

impl<T: Drop> From<AllocFailed<T>> for FileFault {
    ghost use Rattle.std.specs.Prelude.{◌≡◌};
    ghost use Rattle.psg_defcomment.specs.declared.fault.FileFault.TheVariants.{Memory};

    ghost from_gives = { λ _ e. e ≡ Memory };

    fn from(_e: AllocFailed<T>) -> FileFault {
        FileFault::Memory
    }
}

/// Returns the fault as it is printed: `line L code C`, with the numbers in decimal. A second token has the code 4, and
/// a token that does not fit has the code 14. There is no line when memory runs out. It fails where memory runs out.
pub fn file_fault_text(alloc: Global, fault: &FileFault) -> Result<String, AllocError>
    ensures { IfOk result (λ text. string_bytes text ≡ file_fault_text_of fault.now) }
{
    match fault {
        FileFault::Definition(fault) => fault_text(alloc, fault),
        FileFault::Repeated(line) => format!(in alloc; "line {line} code 4"),
        FileFault::Unfit(line) => format!(in alloc; "line {line} code 14"),
        FileFault::Memory => Ok(String::new(alloc)),
    }
}
