//! Names in order.
ghost use Rattle.std.specs.Prelude.{◌≡◌, ◌||◌, ◌++◌, ◌∷◌, [], IfOk, IfSome, OnOk, Some, bytes_eq, false};
ghost use Rattle.std.specs.Prelude.{is_some, slice_get};
ghost use Rattle.psg_terms.specs.Names.{Name};

use indexmap::IndexSet;
use std::alloc::{AllocError, Global};

/// Names in the order in which they were put, each once. A name has the position at which it was put.
#[derive(Drop)]
pub struct Names<'a> {
    set: IndexSet<&'a str>,
}

impl<'a> Names<'a> {
    ghost use Rattle.psg_defcheck.specs.NameSets.{has, listed};

    /// Makes a list without names.
    pub fn none(alloc: Global) -> Names<'a>
        ensures none { (n : Name) → has result n ≡ false }
        ensures empty { listed result ≡ [] }
    {
        Names {
            set: IndexSet::new(alloc),
        }
    }

    /// Says whether the name is among them.
    pub fn contains(&self, name: &str) -> bool
        ensures { result ≡ has self.now name.now }
    {
        self.set.contains(name)
    }

    /// Returns the position of the name; `None` where it is not among them. It is one look-up.
    pub fn place(&self, name: &str) -> Option<usize>
        ensures there { is_some result ≡ has self.now name.now }
        ensures place { IfSome result (λ p. slice_get (listed self.now) p ≡ Some name.now) }
    {
        self.set.get_index_of(name)
    }

    /// Puts a name after the others, unless it is among them.
    pub fn insert(&mut self, name: &'a str) -> Result<(), AllocError>
        ensures has { OnOk result ((n : Name) → has self.new n ≡ (bytes_eq name.now n || has self.old n)) }
        ensures last { OnOk result (has self.old name.now ≡ false
            → listed self.new ≡ listed self.old ++ name.now ∷ []) }
    {
        self.set.insert(name)?;
        Ok(())
    }
}
