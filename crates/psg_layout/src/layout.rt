//! What a layout is, and why bytes are none.
use psg_terms::Seq;
use std::alloc::{AllocError, AllocFailed};
use thiserror::Error;

/// Which operators are groups, and before which of their items they may break.
#[derive(Drop)]
pub struct Layout {
    /// The operators that are groups, by their numbers.
    pub groups: Seq<u32>,
    /// Operators, each with the number of an item before which it may break. Items are counted from 0 without layout
    /// marks.
    pub breaks: Seq<(u32, u32)>,
}

/// Why bytes are no layout.
#[derive(Debug, Drop, Error)]
pub enum LayoutFault {
    /// The first line that fails a test, and the code of the first test that it fails.
    #[error("layout line {line} code {code}")]
    Line {
        /// The number of the line, from 1.
        line: u32,
        /// The code of the test: 1 where the bytes are no text, 2 where the line has neither form, 5 where there is no
        /// such operator, 7 where it has no such item, 4 where the line is there twice.
        code: u32,
    },
    /// Memory ran out.
    #[error("out of memory")]
    Memory,
}

impl From<AllocError> for LayoutFault {
    ghost use Rattle.std.specs.Prelude.{◌≡◌};
    ghost use Rattle.psg_layout.specs.declared.layout.LayoutFault.TheVariants.{Memory};

    ghost from_gives = { λ _ e. e ≡ Memory };

    fn from(_e: AllocError) -> LayoutFault {
        LayoutFault::Memory
    }
}

impl<T: Drop> From<AllocFailed<T>> for LayoutFault {
    ghost use Rattle.std.specs.Prelude.{◌≡◌};
    ghost use Rattle.psg_layout.specs.declared.layout.LayoutFault.TheVariants.{Memory};

    ghost from_gives = { λ _ e. e ≡ Memory };

    fn from(_e: AllocFailed<T>) -> LayoutFault {
        LayoutFault::Memory
    }
}
