//! A layout, to be looked up.
ghost use Rattle.std.specs.Prelude.{◌≡◌, ◌==◌, ◌&&◌, ◌||◌, cond, false, true, ℕ, IfOk, OnOk};
ghost use Rattle.std.specs.List.{list_any};
ghost use Rattle.psg_layout.specs.Looked.{AreRulesOf, has_break, has_group};

use crate::layout::Layout;
use std::alloc::{AllocError, Global};
use std::collections::HashSet;

/// The operators that are groups, and the items before which operators may break.
#[derive(Drop)]
pub(crate) struct Rules {
    pub(crate) groups: HashSet<u32>,
    pub(crate) breaks: HashSet<(u32, u32)>,
}

impl Rules {
    /// Makes the rules of no line.
    pub(crate) fn new(alloc: Global) -> Rules
        ensures groups { (o : ℕ) → has_group result o ≡ false }
        ensures breaks { (o k : ℕ) → has_break result o k ≡ false }
    {
        Rules {
            groups: HashSet::new(alloc),
            breaks: HashSet::new(alloc),
        }
    }

    /// Makes the rules of the layout, in time linear in it.
    pub(crate) fn of(alloc: Global, layout: &Layout) -> Result<Rules, AllocError>
        ensures { IfOk result (AreRulesOf layout.now) }
    {
        let mut rules = Rules::new(alloc);
        rules.put_groups(layout.groups.as_slice())?;
        rules.put_breaks(layout.breaks.as_slice())?;
        Ok(rules)
    }

    /// Makes each of the operators a group.
    fn put_groups(&mut self, groups: &[u32]) -> Result<(), AllocError>
        ensures groups { OnOk result ((o : ℕ) → has_group self.new o
            ≡ (has_group self.old o || list_any (λ g. g == o) groups.now)) }
        ensures breaks { self.new.breaks ≡ self.old.breaks }
    {
        for group in groups {
            self.put_group(*group)?;
        }
        Ok(())
    }

    /// Lets operators break before the items of the numbers.
    fn put_breaks(&mut self, breaks: &[(u32, u32)]) -> Result<(), AllocError>
        ensures breaks { OnOk result ((o k : ℕ) → has_break self.new o k
            ≡ (has_break self.old o k || list_any (λ (b : ℕ × ℕ). (b.0 == o) && (b.1 == k)) breaks.now)) }
        ensures groups { self.new.groups ≡ self.old.groups }
    {
        for place in breaks {
            self.put_break(*place)?;
        }
        Ok(())
    }

    /// Makes the operator a group.
    pub(crate) fn put_group(&mut self, op: u32) -> Result<(), AllocError>
        ensures groups { OnOk result ((o : ℕ) → has_group self.new o ≡ cond (op == o) true (has_group self.old o)) }
        ensures breaks { self.new.breaks ≡ self.old.breaks }
    {
        self.groups.insert(op)?;
        Ok(())
    }

    /// Lets an operator break before the item of the number.
    pub(crate) fn put_break(&mut self, place: (u32, u32)) -> Result<(), AllocError>
        ensures breaks { OnOk result ((o k : ℕ) → has_break self.new o k
            ≡ cond ((place.0 == o) && (place.1 == k)) true (has_break self.old o k)) }
        ensures groups { self.new.groups ≡ self.old.groups }
    {
        self.breaks.insert(place)?;
        Ok(())
    }

    /// Says whether the operator is a group.
    pub(crate) fn is_group(&self, op: u32) -> bool
        ensures { result ≡ has_group self.now op }
    {
        self.groups.contains(&op)
    }

    /// Says whether the operator may break before the item of the number.
    pub(crate) fn is_break(&self, op: u32, item: u32) -> bool
        ensures { result ≡ has_break self.now op item }
    {
        self.breaks.contains(&(op, item))
    }
}
