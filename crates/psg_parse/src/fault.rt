//! What is to be read, and what keeps tokens from being read.
ghost use Rattle.std.specs.Prelude.{◌≡◌};
ghost use Rattle.psg_parse.specs.declared.fault.ParseFault.TheVariants.{Memory};

use psg_grammar::Kind;
use std::alloc::{AllocError, AllocFailed};
use thiserror::Error;

/// What the tokens are to be.
#[derive(Clone, Copy, Debug, PartialEq, Eq)]
pub struct Goal {
    /// The phylum or the list of the tree.
    pub kind: Kind,
    /// The least level of a tree of a phylum. Lists have no level.
    pub least: u8,
    /// How many pairs of brackets are around the tokens already, at most 400.
    pub around: u32,
}

/// Why tokens have no tree.
#[derive(Clone, Copy, Debug, PartialEq, Eq, Drop, Error)]
pub enum ParseFault {
    /// No tree of the kind and level has these tokens.
    #[error("the tokens are no tree of the kind")]
    NoTree,
    /// One has them, and it is deeper than 200, or its brackets and those around it nest above 400.
    #[error("the tree of the tokens is too deep")]
    Deep,
    /// There was no memory for the tree or for what waits while it is read.
    #[error("out of memory")]
    Memory,
}

impl From<AllocError> for ParseFault {
    ghost from_gives = { λ _ fault. fault ≡ Memory };

    fn from(_error: AllocError) -> ParseFault {
        ParseFault::Memory
    }
}

impl<T: Drop> From<AllocFailed<T>> for ParseFault {
    ghost from_gives = { λ _ fault. fault ≡ Memory };

    fn from(_error: AllocFailed<T>) -> ParseFault {
        ParseFault::Memory
    }
}
