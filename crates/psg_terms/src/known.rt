//! Variables that are known while a row is numbered, each with its place.
ghost use Rattle.std.specs.Prelude.{◌≡◌, ◌<◌, ◌≤◌, ◌^◌, ◌↔◌, IfOk, IsTrue, MatchOption, true, false};
ghost use Rattle.std.specs.Prelude.{length, slice_get, set, position, Some};
ghost use Rattle.psg_terms.specs.Canonical.{is_noted, noted};
ghost use Rattle.psg_terms.specs.Matching.{same_key};
ghost use Rattle.psg_terms.specs.Renaming.{keys, place};
ghost use Rattle.psg_terms.specs.Places.{IsTable, IsMarked};
ghost use Rattle.psg_terms.specs.declared.canonical.Key.{Key as Plain};

use crate::canonical::Key;
use crate::sorts::SortId;
use crate::term::Term;
use std::alloc::{AllocError, Global};
use std::marker::Model;

/// How many numbers the table has at most.
const MOST: u64 = 0x10_0000;

/// The variables that were noted, each once, in order. A variable is found by its number in one step. Only where the
/// number is above those of the table, or a variable of another sort had it first, all variables are looked through.
#[derive(Drop)]
pub struct Known {
    order: Vec<Key>,
    table: Vec<usize>,
}

impl Model for Known {
    ghost use Rattle.std.specs.Prelude.{List};
    ghost use Rattle.psg_terms.specs.Canonical.{Variable};
    ghost use Rattle.psg_terms.specs.Renaming.{keys};
    ghost use Rattle.psg_terms.specs.Places.{IsTable};

    ghost Value = { List Variable };

    ghost view = { λ k. keys k.order.items };

    ghost invariant = { λ k. IsTable k.table.items k.order.items };
}

/// Returns the place of the key among others, which are looked through in order.
fn search(order: &[Key], key: Key) -> Option<usize>
    ensures { result ≡ position (same_key key) order.now }
{
    order.iter().position(|other| key == *other)
}

/// Says whether the key at the place is of the sort.
fn is_of_sort(order: &[Key], place: usize, sort: SortId) -> bool
    ensures { IsTrue result → (k : Plain) × (slice_get order.now place ≡ Some k) × (k.sort.0 ≡ sort.0) }
{
    match order.get(place) {
        Some(key) => key.sort.0 == sort.0,
        None => false,
    }
}

/// Returns the place of the variable among the keys.
fn find(order: &[Key], table: &[usize], sort: SortId, number: u32) -> Option<usize>
    requires { IsTable table.now order.now }
    ensures { MatchOption result (is_noted (sort.0, number) (keys order.now) ≡ false)
        (λ i. (is_noted (sort.0, number) (keys order.now) ≡ true) × (i ≡ place (sort.0, number) (keys order.now))) }
{
    let near = number as usize;
    if near < table.len() {
        let first = table[near];
        if first == 0 {
            return None;
        }
        if is_of_sort(order, first - 1, sort) {
            return Some(first - 1);
        }
    }
    let found = search(order, Key { sort, number });
    found
}

/// Says whether the table has the number, and no entry there.
fn is_free(table: &[usize], number: usize) -> bool
    ensures { IsTrue result ↔ (slice_get table.now number ≡ Some 0) }
{
    match table.get(number) {
        Some(first) => *first == 0,
        None => false,
    }
}

/// Writes the entry at the number.
fn put(table: &mut Vec<usize>, number: usize, entry: usize)
    requires { number < length table.old.items }
    ensures { table.new.items ≡ set table.old.items number entry }
{
    table[number] = entry;
}

/// Writes the entry at the number, where the table has the number and no entry there.
fn mark(table: &mut Vec<usize>, number: usize, entry: usize)
    ensures { IsMarked number entry table.old.items table.new.items }
{
    let free = is_free(table.as_slice(), number);
    if free {
        put(table, number, entry);
    }
}

/// Returns one more than the greatest number of a variable of the row, at most 2^20.
fn table_size(row: &[Term]) -> usize
    ensures { result ≤ 2 ^ 20 }
{
    let mut above = 0u64;
    for term in row {
        above = above.max(term.above());
    }
    above.min(MOST) as usize
}

impl Known {
    ghost use Rattle.std.specs.Prelude.{[]};

    /// Makes the list without variables, with a table for those of the row.
    pub fn of(alloc: Global, row: &[Term]) -> Result<Known, AllocError>
        ensures { IfOk result (λ k. k ≡ []) }
    {
        let size = table_size(row);
        let table = vec![in alloc; 0usize; size]?;
        let order = Vec::new(alloc);
        Ok(Known { order, table })
    }

    /// Notes the variable, unless it is a known one, and returns its place.
    pub fn note(&mut self, sort: SortId, number: u32) -> Result<usize, AllocError>
        ensures noted { IfOk result (λ i. self.new ≡ noted self.old (sort.0, number)) }
        ensures place { IfOk result (λ i. i ≡ place (sort.0, number) self.new) }
    {
        let found = find(self.order.as_slice(), self.table.as_slice(), sort, number);
        match found {
            Some(place) => Ok(place),
            None => {
                let count = self.order.len();
                self.order.push(Key { sort, number })?;
                mark(&mut self.table, number as usize, count + 1);
                Ok(count)
            }
        }
    }
}
