//! Rules, one after the other, with the equations that they give.
ghost use Rattle.std.specs.Prelude.{◌≡◌, ◌<◌, ◌^◌, ◌++◌, ◌∷◌, [], length, IfOk, IsOk, OnOk};

use crate::refutation::Rule;
use psg_terms::{Term, uncountable};
use std::alloc::{AllocError, Global};

/// Rules with the equations that they give.
#[derive(Drop)]
pub(crate) struct Derived {
    pub(crate) rules: Vec<Rule>,
    pub(crate) all: Vec<(Term, Term)>,
}

/// Returns the number as one of 32 bits. It fails as if out of memory exactly where it has more.
pub(crate) fn counted(number: usize) -> Result<u32, AllocError>
    ensures number { IfOk result (λ n. n ≡ number) }
    ensures fits { number < 2 ^ 32 → IsOk result }
{
    if number < 0x1_0000_0000 {
        Ok(number as u32)
    } else {
        Err(uncountable(number))
    }
}

impl Derived {
    /// Returns no rules.
    pub(crate) fn none(alloc: Global) -> Derived
        ensures rules { result.rules.items ≡ [] }
        ensures all { result.all.items ≡ [] }
    {
        Derived {
            rules: Vec::new(alloc),
            all: Vec::new(alloc),
        }
    }

    /// Adds a rule with the equation that it gives, and returns its number.
    pub(crate) fn add(&mut self, rule: Rule, equation: (Term, Term)) -> Result<u32, AllocError>
        ensures number { IfOk result (λ n. n ≡ length self.old.all.items) }
        ensures rules { OnOk result (self.new.rules.items ≡ self.old.rules.items ++ rule ∷ []) }
        ensures all { OnOk result (self.new.all.items ≡ self.old.all.items ++ equation ∷ []) }
    {
        let number = counted(self.all.len())?;
        self.rules.push(rule)?;
        self.all.push(equation)?;
        Ok(number)
    }
}
