//! The history and its steps.
ghost use Rattle.std.specs.Prelude.{◌≡◌, ◌↔◌, [], ◌∷◌, length, take, slice_get, IsNone, IfOk, option_copied};
ghost use Rattle.psg_history.specs.Versions.{IsWithin};
ghost use Rattle.psg_history.specs.Undone.{IsNothing, IfMoved, IfNothing};

use crate::undone::Undone;
use std::alloc::{AllocError, Global};
use std::collections::VecDeque;
use std::marker::Model;

/// How many values a history keeps at most, earlier and later ones together.
pub const VERSIONS: usize = 32;

/// The earlier and the later values of one current value, which the caller keeps.
///
/// A contract sees it as two lists, `earlier` and `later`, each with the nearest value first.
#[derive(Drop)]
pub struct History<T> {
    earlier: VecDeque<T>,
    later: VecDeque<T>,
}

impl<T> Model for History<T> {
    ghost use Rattle.std.specs.Prelude.{◌≡◌, ◌+◌, ◌≤◌, length};
    ghost use Rattle.std.specs.VecDeque.{deque_capacity};
    ghost use Rattle.psg_history.specs.Versions.{Versions, versions_code};
    ghost use Rattle.psg_history.specs.declared.history.TheConstants.{VERSIONS};

    ghost Value = { Versions T };

    ghost coded = { versions_code T.code };

    ghost view = { λ h. record { earlier = h.earlier.items; later = h.later.items } };

    ghost invariant = { λ h.
        (length h.earlier.items + length h.later.items ≤ VERSIONS)
        × (deque_capacity h.earlier ≡ VERSIONS)
        × (deque_capacity h.later ≡ VERSIONS) };
}

impl<T: Drop> History<T> {
    /// Makes an empty history. It takes the memory for `VERSIONS` values on each side, and is the only call that takes
    /// any.
    pub fn new(alloc: Global) -> Result<History<T>, AllocError>
        ensures earlier { IfOk result (λ h. h.earlier ≡ []) }
        ensures later { IfOk result (λ h. h.later ≡ []) }
    {
        let earlier = VecDeque::with_capacity(alloc, VERSIONS)?;
        let later = VecDeque::with_capacity(alloc, VERSIONS)?;
        Ok(History { earlier, later })
    }

    /// Keeps `left`, the value that was current until now, as the nearest earlier one.
    ///
    /// The oldest earlier value is dropped where `VERSIONS` are kept, and so are all later ones. The time is constant
    /// except for the drop of these values, of which there are at most `VERSIONS`.
    pub fn push(&mut self, left: T)
        ensures earlier { self.new.earlier ≡ take VERSIONS (left ∷ self.old.earlier) }
        ensures later { self.new.later ≡ [] }
        ensures within { IsWithin VERSIONS self.new }
    {
        self.later.clear(); // the caller goes on from `left` another way
        self.earlier.truncate(VERSIONS - 1);
        self.earlier.push_front_reserved(left);
    }

    /// Steps back: the nearest earlier value is returned, and `current` becomes the nearest later one.
    ///
    /// `Nothing` hands `current` back where nothing earlier is kept. The time is constant.
    pub fn undo(&mut self, current: T) -> Undone<T>
        ensures exact { IsNothing result ↔ (self.old.earlier ≡ []) }
        ensures moved { IfMoved result (λ value. self.old.earlier ≡ value ∷ self.new.earlier) }
        ensures keeps { IfMoved result (λ _. self.new.later ≡ current ∷ self.old.later) }
        ensures nothing { IfNothing result (λ value. value ≡ current) }
        ensures unchanged { IfNothing result (λ _. self.new ≡ self.old) }
        ensures within { IsWithin VERSIONS self.new }
    {
        match self.earlier.pop_front() {
            Some(value) => {
                self.later.push_front_reserved(current);
                Undone::Moved(value)
            }
            None => Undone::Nothing(current),
        }
    }

    /// Steps forward: the nearest later value is returned, and `current` becomes the nearest earlier one.
    ///
    /// `Nothing` hands `current` back where nothing later is kept. The time is constant.
    pub fn redo(&mut self, current: T) -> Undone<T>
        ensures exact { IsNothing result ↔ (self.old.later ≡ []) }
        ensures moved { IfMoved result (λ value. self.old.later ≡ value ∷ self.new.later) }
        ensures keeps { IfMoved result (λ _. self.new.earlier ≡ current ∷ self.old.earlier) }
        ensures nothing { IfNothing result (λ value. value ≡ current) }
        ensures unchanged { IfNothing result (λ _. self.new ≡ self.old) }
        ensures within { IsWithin VERSIONS self.new }
    {
        match self.later.pop_front() {
            Some(value) => {
                self.earlier.push_front_reserved(current);
                Undone::Moved(value)
            }
            None => Undone::Nothing(current),
        }
    }

    /// Returns the value that `undo` would give, or `None` where nothing earlier is kept. The time is constant.
    pub fn nearest_earlier(&self) -> Option<&T>
        ensures value { option_copied result ≡ slice_get self.now.earlier 0 }
        ensures none { IsNone result ↔ (self.now.earlier ≡ []) }
    {
        self.earlier.front()
    }

    /// Returns the value that `redo` would give, or `None` where nothing later is kept. The time is constant.
    pub fn nearest_later(&self) -> Option<&T>
        ensures value { option_copied result ≡ slice_get self.now.later 0 }
        ensures none { IsNone result ↔ (self.now.later ≡ []) }
    {
        self.later.front()
    }

    /// Drops all values that are kept. The room for them stays.
    pub fn clear(&mut self)
        ensures earlier { self.new.earlier ≡ [] }
        ensures later { self.new.later ≡ [] }
    {
        self.earlier.clear();
        self.later.clear();
    }

    /// Returns how many earlier values are kept.
    pub fn earlier(&self) -> usize
        ensures count { result ≡ length self.now.earlier }
        ensures within { IsWithin VERSIONS self.now }
    {
        self.earlier.len()
    }

    /// Returns how many later values are kept.
    pub fn later(&self) -> usize
        ensures count { result ≡ length self.now.later }
        ensures within { IsWithin VERSIONS self.now }
    {
        self.later.len()
    }
}
