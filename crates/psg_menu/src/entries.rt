//! The summaries at a node of the way, each once, and where those below it went.
ghost use Rattle.std.specs.Prelude.{◌≡◌, ◌∷◌, ◌++◌, [], ℕ, Some, slice_get, IfOk, IfSome, OnOk};
ghost use Rattle.std.specs.List.{AllByRecursion};
ghost use Rattle.psg_terms.specs.Relations.{IsIn};
ghost use Rattle.psg_grammar.specs.declared.types.Definition.{Definition as Language};
ghost use Rattle.psg_grammar.specs.declared.types.Kind.{Kind as PlainKind};
ghost use Rattle.psg_menu.specs.Sharing.{IsUsual};

use crate::alike::{Alike, number_of};
use psg_eval::Summary;
use std::alloc::{AllocError, Global};

/// A summary that some candidates have at a node of the way: each its own, or, where it is shared, each under its own
/// name in place of the proxy.
#[derive(Drop)]
pub(crate) struct Entry {
    pub(crate) own: Summary,
    pub(crate) shared: bool,
}

/// Entries, and by a number of each its place.
#[derive(Drop)]
pub(crate) struct Entries {
    pub(crate) all: Vec<Entry>,
    alike: Alike,
}

/// Returns which of the places is that of an equal entry.
fn found(entries: &[Entry], places: &[usize], own: &Summary, shared: bool) -> Option<usize>
    ensures { IfSome result (λ place. slice_get entries.now place ≡ Some (record { own = own.now; shared = shared })) }
{
    for i in 0..places.len() {
        let place = places[i];
        if place >= entries.len() {
            continue;
        }
        let entry = &entries[place];
        if entry.shared != shared {
            continue;
        }
        if entry.own.same(own) {
            return Some(place);
        }
    }
    None
}

impl Entries {
    /// Returns no entries.
    pub(crate) fn new(alloc: Global) -> Entries
        ensures { result.all.items ≡ [] }
    {
        Entries {
            all: Vec::new(alloc),
            alike: Alike::new(alloc),
        }
    }

    /// Returns the place of the entry, which is put at the end if no equal one is found. It reads the summary once, and
    /// compares it with at most sixteen others.
    pub(crate) fn put(
        &mut self,
        alloc: Global,
        own: Summary,
        shared: bool,
    ) -> Result<usize, AllocError>
        ensures place { IfOk result
            (λ place. slice_get self.new.all.items place ≡ Some (record { own = own; shared = shared })) }
        ensures others { IfOk result (λ _. (k : ℕ) (e : Entry) → slice_get self.old.all.items k ≡ Some e
            → slice_get self.new.all.items k ≡ Some e) }
        ensures usual { (definition : Language) (kind : PlainKind)
            → IfOk result (λ _. AllByRecursion (λ (e : Entry). IsUsual definition kind e.own) self.old.all.items
            → IsUsual definition kind own
            → AllByRecursion (λ (e : Entry). IsUsual definition kind e.own) self.new.all.items) }
    {
        let number = number_of(&own);
        let places = self.alike.places(number);
        if let Some(place) = found(self.all.as_slice(), places, &own, shared) {
            return Ok(place);
        }
        let place = self.all.len();
        self.alike.note(alloc, number, place)?;
        self.all.push(Entry { own, shared })?;
        Ok(place)
    }
}

/// The place of a summary below a rung, and that of the one above it.
#[derive(Drop)]
pub(crate) struct Move {
    pub(crate) from: usize,
    pub(crate) to: usize,
}

/// Moves, and for each place below the rung where its move is, if there is one.
#[derive(Drop)]
pub(crate) struct Moves {
    pub(crate) all: Vec<Move>,
    at: Vec<usize>,
}

impl Moves {
    /// Returns no moves. There are `count` places below the rung.
    pub(crate) fn new(alloc: Global, count: usize) -> Result<Moves, AllocError>
        ensures { IfOk result (λ moves. moves.all.items ≡ []) }
    {
        let mut at = Vec::with_capacity(alloc, count)?;
        for _ in 0..count {
            at.push(0)?;
        }
        Ok(Moves {
            all: Vec::new(alloc),
            at,
        })
    }

    /// Returns where the summary at the place went, if it was raised.
    pub(crate) fn found(&self, from: usize) -> Option<usize>
        ensures { IfSome result (λ to. (m : Move) × IsIn m self.now.all.items × (m.from ≡ from) × (m.to ≡ to)) }
    {
        let moves = self.all.as_slice();
        let at = self.at.as_slice();
        if from >= at.len() {
            return None;
        }
        let place = at[from];
        if place >= moves.len() {
            return None;
        }
        let one = &moves[place];
        if one.from == from {
            return Some(one.to);
        }
        None
    }

    /// Adds a move.
    pub(crate) fn add(&mut self, from: usize, to: usize) -> Result<(), AllocError>
        ensures { OnOk result (self.new.all.items ≡ self.old.all.items ++ record { from = from; to = to } ∷ []) }
    {
        let place = self.all.len();
        if let Some(at) = self.at.get_mut(from) {
            *at = place;
        }
        self.all.push(Move { from, to })?;
        Ok(())
    }
}
