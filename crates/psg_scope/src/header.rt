//! What is known of a region's keys.
ghost use Rattle.std.specs.Prelude.{◌≡◌, ◌↔◌, ◌∷◌, [], false, IfOk, IsTrue};
ghost use Rattle.psg_grammar.specs.Keys.{key_cmp};
ghost use Rattle.psg_scope.specs.Headers.{key_of};

use crate::names::Names;
use psg_terms::{Seq, Txt};
use std::alloc::{AllocError, Global};
use std::cmp::Ordering;

/// A key of a region: a name in a space, and whether the region declares it.
#[derive(Drop)]
pub struct NameCol {
    /// The number of the space.
    pub space: u32,
    /// The name.
    pub name: Txt,
    /// Whether the region declares the name in the space.
    pub declared: bool,
}

impl NameCol {
    /// Compares two keys: by the bytes of the names and, for one name, by the numbers of the spaces.
    pub(crate) fn order(&self, other: &NameCol) -> Ordering
        ensures { result ≡ key_cmp (key_of self.now) (key_of other.now) }
    {
        match self.name.as_str().cmp(other.name.as_str()) {
            Ordering::Less => Ordering::Less,
            Ordering::Equal => self.space.cmp(&other.space),
            Ordering::Greater => Ordering::Greater,
        }
    }

    /// Says whether the keys are equal and declared alike.
    fn same(&self, other: &NameCol) -> bool
        ensures { IsTrue result ↔ (self.now ≡ other.now) }
    {
        self.space == other.space && self.declared == other.declared && self.name.same(&other.name)
    }

    /// Returns the key once more, with one more owner of its name.
    pub(crate) fn share(&self, declared: bool) -> Result<NameCol, AllocError>
        ensures { IfOk result (λ c. c ≡ record self.now { declared = declared }) }
    {
        Ok(NameCol {
            space: self.space,
            name: self.name.share()?,
            declared,
        })
    }
}

/// Says whether the lists have equal keys, declared alike, at the same places.
fn same_names(left: &[NameCol], right: &[NameCol]) -> bool
    ensures { IsTrue result ↔ (left.now ≡ right.now) }
{
    if left.len() != right.len() {
        return false;
    }
    for i in 0..left.len() {
        if !left[i].same(&right[i]) {
            return false;
        }
    }
    true
}

/// Says whether the lists have the same spaces at the same places.
fn same_spaces(left: &[u32], right: &[u32]) -> bool
    ensures { IsTrue result ↔ (left.now ≡ right.now) }
{
    if left.len() != right.len() {
        return false;
    }
    for i in 0..left.len() {
        if left[i] != right[i] {
            return false;
        }
    }
    true
}

/// The keys of a region.
#[derive(Drop)]
pub struct Header {
    /// The keys in order, each once. Several headers may share one list.
    pub names: Names,
    /// The spaces in which the region may still declare more keys, ascending.
    pub unfinished: Seq<u32>,
    /// Whether the region declares a key twice.
    pub twice: bool,
}

impl Header {
    /// Returns the header of a region without keys.
    pub(crate) fn empty(alloc: Global) -> Header
        ensures { result ≡ record { names = []; unfinished = []; twice = false } }
    {
        Header {
            names: Names::none(),
            unfinished: Seq::of(Vec::new(alloc)),
            twice: false,
        }
    }

    /// Returns the header of one position.
    pub(crate) fn of_one(alloc: Global, position: &NameCol) -> Result<Header, AllocError>
        ensures { IfOk result (λ h. h ≡ record { names = position.now ∷ []; unfinished = []; twice = false }) }
    {
        let mut names = Vec::with_capacity(alloc, 1)?;
        names.push(position.share(position.declared)?)?;
        Ok(Header {
            names: Names::of(alloc, names)?,
            unfinished: Seq::of(Vec::new(alloc)),
            twice: false,
        })
    }

    /// Says whether the headers are equal: the same keys, declared alike, the same unfinished spaces, and whether a
    /// key is declared twice. It reads each list up to the first place that differs, in at most as many steps as the
    /// headers have keys, spaces and bytes of names.
    pub fn same(&self, other: &Header) -> bool
        ensures { IsTrue result ↔ (self.now ≡ other.now) }
    {
        self.twice == other.twice
            && same_spaces(self.unfinished.as_slice(), other.unfinished.as_slice())
            && same_names(self.names.as_slice(), other.names.as_slice())
    }
}
