//! Why a definition is not accepted.
use psg_class::ClassFault;
use psg_grammar::{Definition, Kind};
use psg_terms::ConId;
use std::alloc::AllocError;
use std::fmt;
use thiserror::Error;

/// A case of a hole row, or a declare row, by number.
#[derive(Clone, Copy, Debug, PartialEq, Eq)]
pub enum Site {
    /// A case of a hole row: the number of the row, and that of the case in the row, both from 0.
    Hole { row: u32, case: u32 },
    /// A declare row, by its number from 0.
    Declare { row: u32 },
}

impl fmt::Display for Site {
    fn fmt<W: fmt::Write>(&self, f: &mut fmt::Formatter<W>) -> fmt::Result {
        match self {
            Site::Hole { row, case } => write!(f, "case {case} of hole row {row}"),
            Site::Declare { row } => write!(f, "declare row {row}"),
        }
    }
}

/// The first condition that fails, with the numbers of the first thing for which it fails.
#[derive(Debug, Drop, Error)]
pub enum AcceptFault {
    /// The definition is not of the grammar class.
    #[error(transparent)]
    Class(ClassFault),
    /// The scope operator has a name position.
    #[error("scope operator {0} has a name position")]
    Scope(u32),
    /// The slot of the operator, counted among its slots, is of a phylum that declares.
    #[error("slot {1} of operator {0} is of a phylum that declares")]
    Declaring(u32, u32),
    /// The phylum or list has no hole row.
    #[error("{0:?} has no hole row")]
    NoRow(Kind),
    /// The operator's row has values that no hole row of its phylum has.
    #[error("row {1} of operator {0} has values of no hole row")]
    UncoveredOp(u32, u32),
    /// The list's nil row has values that no hole row of the list has.
    #[error("nil row {1} of list {0} has values of no hole row")]
    UncoveredNil(u32, u32),
    /// The list's cell row has values that no hole row of the list has.
    #[error("cell row {1} of list {0} has values of no hole row")]
    UncoveredCell(u32, u32),
    /// The cases of the hole row are not one with its term, nor one for each constructor of its variable's sort.
    #[error("the cases of hole row {0} are not all the cases of its term")]
    Cases(u32),
    /// The term of the hole place is no proper subterm of the case's or of the declare row's entity.
    #[error("the term of hole place {1} of {0} is not smaller")]
    NotSmaller(Site, u32),
    /// The term of the hole place is an instance of no hole row of its kind.
    #[error("the term of hole place {1} of {0} is an instance of no hole row")]
    OpenHole(Site, u32),
    /// A step of the specimen's relation is too large.
    #[error("a step of the specimen of {0} is too large")]
    Large(Site),
    /// The specimen does not take all values of the case or of the declare row.
    #[error("the specimen of {0} does not take all its values")]
    Weak(Site),
    /// The declare row's specimen is no operator that declares `$it` once and has it in no other space.
    #[error("the specimen of declare row {0} does not declare `$it` once in its space alone")]
    NotIt(u32),
    /// The unfinished list, which declares in the space, has no declare row there for the constructor.
    #[error("list {0} has no declare row in space {1} for constructor {con}", con = .2.0)]
    NoDeclare(u32, u32, ConId),
    /// No cell row of the list lets an element of the declare row's value be before any list with the list's value.
    #[error("no cell row of the list of declare row {0} leaves its value")]
    NotClear(u32),
    /// Memory ran out.
    #[error("out of memory")]
    Memory,
}

/// A definition that is not accepted, and why.
#[derive(Drop)]
pub struct Refused {
    /// The definition, as it was given.
    pub definition: Definition,
    /// The first condition that fails.
    pub fault: AcceptFault,
}

impl From<AllocError> for AcceptFault {
    ghost use Rattle.std.specs.Prelude.{◌≡◌};
    ghost use Rattle.psg_specimen.specs.declared.fault.AcceptFault.TheVariants.{Memory};

    ghost from_gives = { λ _ e. e ≡ Memory };

    fn from(_error: AllocError) -> AcceptFault {
        AcceptFault::Memory
    }
}
