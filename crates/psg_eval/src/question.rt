//! Why a question about a fragment has no answer.
ghost use Rattle.psg_eval.specs.Questions.{IsAsked};

use crate::summary::{EvalFault, Summary};
use std::alloc::{AllocError, AllocFailed};
use thiserror::Error;

/// Why a question has no answer.
#[derive(Clone, Copy, Debug, PartialEq, Eq, Drop, Error)]
pub enum FocusFault {
    /// A relation that the answer needs is too large.
    #[error("a relation is too large")]
    Wide,
    /// Memory ran out.
    #[error("out of memory")]
    Memory,
}

impl From<AllocError> for FocusFault {
    ghost use Rattle.std.specs.Prelude.{◌≡◌};
    ghost use Rattle.psg_eval.specs.declared.question.FocusFault.TheVariants.{Memory};

    ghost from_gives = { λ _ fault. fault ≡ Memory };

    fn from(_error: AllocError) -> FocusFault {
        FocusFault::Memory
    }
}

impl<T: Drop> From<AllocFailed<T>> for FocusFault {
    ghost use Rattle.std.specs.Prelude.{◌≡◌};
    ghost use Rattle.psg_eval.specs.declared.question.FocusFault.TheVariants.{Memory};

    ghost from_gives = { λ _ fault. fault ≡ Memory };

    fn from(_error: AllocFailed<T>) -> FocusFault {
        FocusFault::Memory
    }
}

/// Returns the summary, or the fault without the number of its step.
pub fn asked(made: Result<Summary, EvalFault>) -> Result<Summary, FocusFault>
    ensures { IsAsked made result }
{
    match made {
        Ok(summary) => Ok(summary),
        Err(EvalFault::Wide { .. }) => Err(FocusFault::Wide),
        Err(EvalFault::Memory) => Err(FocusFault::Memory),
    }
}
