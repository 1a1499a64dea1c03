//! What is known of a tree some of whose nodes may be places with any value.
ghost use Rattle.std.specs.Prelude.{◌≡◌};

use crate::summary::{Summary, SummaryParts};
use psg_grammar::Kind;
use psg_relation::Rel;
use psg_scope::Header;
use std::marker::Model;

/// The kind, header and relation of a tree with places that may have any value. Only the calls of this crate make one.
///
/// It is no summary, and no call makes one of it: only calls that count a tick make summaries.
#[derive(Drop)]
pub struct Pattern {
    inner: Summary,
}

impl Model for Pattern {
    ghost use Rattle.psg_eval.specs.declared.summary.SummaryParts.{SummaryParts as PlainParts};
    ghost use Rattle.psg_eval.specs.contracts.summary.SummaryParts as kept;

    ghost Value = { PlainParts };

    ghost coded = { kept.the_row.coded };

    ghost view = { λ p. p.inner };
}

impl Pattern {
    pub(crate) fn new(inner: Summary) -> Pattern
        ensures { result ≡ inner }
    {
        Pattern { inner }
    }

    /// Returns the phylum or list of the tree.
    pub fn kind(&self) -> Kind
        ensures { result ≡ self.now.kind }
    {
        self.inner.kind()
    }

    /// Returns the keys of its region, or those that pass outward from it where it is a scope operator.
    pub fn header(&self) -> &Header
        ensures { result.now ≡ self.now.header }
    {
        self.inner.header()
    }

    /// Returns how many values are seen: one of each place, from left to right.
    pub fn seen(&self) -> u32
        ensures { result ≡ self.now.seen }
    {
        self.inner.seen()
    }

    /// Returns the most general rows: the value, the seen values, and the entities of the header's keys.
    pub fn rel(&self) -> &Rel
        ensures { result.now ≡ self.now.rel }
    {
        self.inner.rel()
    }

    /// Returns what is kept, as the steps of a node take it.
    pub(crate) fn known(&self) -> &SummaryParts
        ensures { result.now ≡ self.now }
    {
        self.inner.known()
    }
}
