//! Summaries of trees.
ghost use Rattle.std.specs.Prelude.{◌≡◌, ◌↔◌, ◌<◌, IfOk, IsTrue};
ghost use Rattle.psg_relation.specs.declared.relation.RelFault.TheVariants.{Wide};
ghost use Rattle.psg_eval.specs.Leaves.{IsFaultAt};

use psg_grammar::Kind;
use psg_relation::{Rel, RelFault};
use psg_scope::Header;
use psg_terms::uncountable;
use std::alloc::{AllocError, AllocFailed, Global};
use std::marker::Model;
use std::rc::Rc;
use thiserror::Error;

/// The parts of a summary, which its owners share.
#[derive(Drop)]
pub struct SummaryParts {
    /// The phylum or list of the tree.
    pub kind: Kind,
    /// The keys of its region, or those that pass outward from it where it is a scope operator.
    pub header: Header,
    /// How many values are seen, each in a column of its own after the value, from left to right.
    pub seen: u32,
    /// The columns are the value, the seen values, and the entities of the header's keys. Where a region declares a key
    /// twice there are no rows.
    pub rel: Rel,
}

/// The kind, header and relation of a tree, shared by its owners. Only the calls of this crate make one. Each call that
/// evaluates a node or repeats a value counts a tick; `renaming::renamed` makes one of another summary, evaluates
/// nothing and counts none.
pub struct Summary {
    shared: Rc<SummaryParts>,
}

// written out, so that it is proved once, and not again in each crate where such a value is let go
impl Drop for Summary {
    fn drop(self) {
        let Summary { shared } = self;
        let _ = shared;
    }
}

impl Model for Summary {
    ghost use Rattle.psg_eval.specs.declared.summary.SummaryParts.{SummaryParts as PlainParts};
    ghost use Rattle.psg_eval.specs.contracts.summary.SummaryParts as known;

    ghost Value = { PlainParts };

    ghost coded = { known.the_row.coded };

    ghost view = { λ s. s.shared.value };
}

impl Summary {
    pub(crate) fn new(alloc: Global, known: SummaryParts) -> Result<Summary, AllocError>
        ensures { IfOk result (λ s. s ≡ known) }
    {
        Ok(Summary {
            shared: Rc::new(alloc, known)?,
        })
    }

    /// Returns the phylum or list of the tree.
    pub fn kind(&self) -> Kind
        ensures { result ≡ self.now.kind }
    {
        self.shared.as_ref().kind
    }

    /// Returns the keys of its region, or those that pass outward from it where it is a scope operator.
    pub fn header(&self) -> &Header
        ensures { result.now ≡ self.now.header }
    {
        &self.shared.as_ref().header
    }

    /// Returns how many values are seen, each in a column of its own after the value, from left to right.
    pub fn seen(&self) -> u32
        ensures { result ≡ self.now.seen }
    {
        self.shared.as_ref().seen
    }

    /// Says whether a value is seen.
    pub fn report(&self) -> bool
        ensures { IsTrue result ↔ (0 < self.now.seen) }
    {
        self.seen() > 0
    }

    /// Returns the most general rows: the value, the seen values, and the entities of the header's keys.
    pub fn rel(&self) -> &Rel
        ensures { result.now ≡ self.now.rel }
    {
        &self.shared.as_ref().rel
    }

    /// Says whether the summaries are equal: the same kind, header, relation and number of seen values. It reads them
    /// up to the first part that differs, in at most as many steps as a header has keys, spaces and bytes of names and
    /// a relation has variables and constructors.
    pub fn same(&self, other: &Summary) -> bool
        ensures { IsTrue result ↔ (self.now ≡ other.now) }
    {
        self.seen() == other.seen()
            && self.kind() == other.kind()
            && self.header().same(other.header())
            && self.rel().same(other.rel())
    }

    /// Returns what is kept, as the steps of a node take it.
    pub(crate) fn known(&self) -> &SummaryParts
        ensures { result.now ≡ self.now }
    {
        self.shared.as_ref()
    }

    /// Returns one more owner of the same summary. It fails where memory runs out.
    pub fn share(&self) -> Result<Summary, AllocError>
        ensures { IfOk result (λ s. s ≡ self.now) }
    {
        Ok(Summary {
            shared: self.shared.clone()?,
        })
    }
}

/// Why there is no summary.
#[derive(Clone, Copy, Debug, PartialEq, Eq, Drop, Error)]
pub enum EvalFault {
    /// The relation of the step is the first that is too large.
    #[error("the relation of step {step} is too large")]
    Wide { step: u32 },
    /// Memory ran out.
    #[error("out of memory")]
    Memory,
}

impl From<AllocError> for EvalFault {
    ghost use Rattle.std.specs.Prelude.{◌≡◌};
    ghost use Rattle.psg_eval.specs.declared.summary.EvalFault.TheVariants.{Memory};

    ghost from_gives = { λ _ fault. fault ≡ Memory };

    fn from(_error: AllocError) -> EvalFault {
        EvalFault::Memory
    }
}

impl<T: Drop> From<AllocFailed<T>> for EvalFault {
    ghost use Rattle.std.specs.Prelude.{◌≡◌};
    ghost use Rattle.psg_eval.specs.declared.summary.EvalFault.TheVariants.{Memory};

    ghost from_gives = { λ _ fault. fault ≡ Memory };

    fn from(_error: AllocFailed<T>) -> EvalFault {
        EvalFault::Memory
    }
}

/// Returns the fault of a step whose relation is too large. It is `Memory` only where 32 bits do not hold the number of
/// the step.
fn wide_at(step: usize) -> EvalFault
    ensures { IsFaultAt Wide step result }
{
    if step > 0xffff_ffff {
        return EvalFault::from(uncountable(step));
    }
    EvalFault::Wide { step: step as u32 }
}

/// Returns the fault of a step's relation.
pub(crate) fn at_step(fault: RelFault, step: usize) -> EvalFault
    ensures { IsFaultAt fault step result }
{
    match fault {
        RelFault::Wide => wide_at(step),
        RelFault::Memory => EvalFault::Memory,
    }
}
