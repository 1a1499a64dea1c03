//! Which sorts have terms without variables, and which constructors each sort has.
ghost use Rattle.std.specs.Prelude.{◌≡◌, ◌+◌, ◌<◌, ◌^◌, ◌↔◌, length, slice_get, IfOk, IsTrue, MatchBool, MatchOption};
ghost use Rattle.std.specs.Prelude.{map, Some, true, false, ℕ};
ghost use Rattle.std.specs.Bool.{OnTrue, OnFalse};
ghost use Rattle.psg_terms.specs.Kept.{number_in, numbers_of, symbol_of, symbols_of};
ghost use Rattle.psg_terms.specs.Signature.{Signature as Plain, Symbol, sole, constructors_from};
ghost use Rattle.psg_terms.specs.Declarations.{IsWideAmong};
ghost use Rattle.psg_terms.specs.Marks.{AreMarked, AreBelow, AllBelow, AreRight, Keeps, AllKeep, unmarked};
ghost use Rattle.psg_terms.specs.Marks.{con_numbers, AreMade};

use crate::seq::Seq;
use crate::sorts::{ConId, Declared, SortId};
use std::alloc::{AllocError, Global};

/// Says whether each of the sorts is marked.
fn all_marked(sorts: &[SortId], marks: &[bool]) -> bool
    requires { AreBelow (length marks.now) (numbers_of sorts.now) }
    ensures { IsTrue result ↔ AreMarked marks.now (numbers_of sorts.now) }
{
    for s in sorts {
        if !marks[s.0 as usize] {
            return false;
        }
    }
    true
}

/// Marks the constructor's sort if its arguments' sorts are marked; whether it was not marked before.
fn mark(d: &Declared, marks: &mut [bool]) -> bool
    requires args { AreBelow (length marks.old) (numbers_of d.now.constructor.args) }
    requires sort { d.now.sort.0 < length marks.old }
    ensures right { (sig : Plain) (c : ℕ) → slice_get sig.symbols c ≡ Some (symbol_of d.now)
        → AreRight sig marks.old → AreRight sig marks.new }
    ensures fewer { OnTrue result (unmarked marks.new + 1 ≡ unmarked marks.old) }
    ensures same { OnFalse result (marks.new ≡ marks.old) }
    ensures keeps { OnFalse result (Keeps marks.new (symbol_of d.now)) }
{
    let sort = d.sort.0 as usize;
    if marks[sort] {
        return false;
    }
    if !all_marked(d.constructor.args.as_slice(), marks) {
        return false;
    }
    marks[sort] = true;
    true
}

/// Marks the sorts of which terms can be made of marked ones; whether it marked one. It reads each argument once.
fn mark_more(declared: &[Declared], marks: &mut [bool]) -> bool
    requires { AllBelow (length marks.old) (symbols_of declared.now) }
    ensures right { (sig : Plain) → sig.symbols ≡ symbols_of declared.now
        → AreRight sig marks.old → AreRight sig marks.new }
    ensures fewer { OnTrue result (unmarked marks.new < unmarked marks.old) }
    ensures keep { OnFalse result (AllKeep marks.new (symbols_of declared.now)) }
{
    let mut more = false;
    for d in declared {
        if mark(d, marks) {
            more = true;
        }
    }
    more
}

/// Marks the sorts that have terms without variables. It takes at most one pass for each sort, and a pass reads each
/// argument once.
pub(crate) fn inhabited(
    alloc: Global,
    sorts: usize,
    declared: &[Declared],
) -> Result<Vec<bool>, AllocError>
    requires { AllBelow sorts (symbols_of declared.now) }
    ensures len { IfOk result (λ v. length v.items ≡ sorts) }
    ensures right { IfOk result (λ v. (sig : Plain) → sig.symbols ≡ symbols_of declared.now → AreRight sig v.items) }
    ensures keep { IfOk result (λ v. AllKeep v.items (symbols_of declared.now)) }
{
    let mut marks = vec![in alloc; false; sorts]?;
    while mark_more(declared, &mut marks) {}
    Ok(marks)
}

/// Returns the first sort that is not marked.
pub(crate) fn first_unmarked(marks: &[bool]) -> Option<usize>
    ensures { MatchOption result ((s : ℕ) → s < length marks.now → slice_get marks.now s ≡ Some true)
        (λ i. (slice_get marks.now i ≡ Some false) × ((s : ℕ) → s < i → slice_get marks.now s ≡ Some true)) }
{
    for i in 0..marks.len() {
        if !marks[i] {
            return Some(i);
        }
    }
    None
}

/// Returns the constructors of each sort, in order.
pub(crate) fn made_by(
    alloc: Global,
    sorts: usize,
    declared: &[Declared],
) -> Result<Vec<Seq<ConId>>, AllocError>
    requires few { length declared.now < 2 ^ 32 }
    requires below { AllBelow sorts (symbols_of declared.now) }
    ensures len { IfOk result (λ v. length v.items ≡ sorts) }
    ensures made { IfOk result (λ v. AreMade 0 v.items (symbols_of declared.now)) }
{
    let mut made = Vec::with_capacity(alloc, sorts)?;
    for _ in 0..sorts {
        made.push(Seq::of(Vec::new(alloc)))?;
    }
    for i in 0..declared.len() {
        let ids = &mut made[declared[i].sort.0 as usize];
        ids.push(ConId(i as u32))?;
    }
    Ok(made)
}

/// Returns the only constructor, where there is one alone.
pub(crate) fn sole_of(ids: &[ConId]) -> Option<ConId>
    ensures { number_in result ≡ sole (con_numbers ids.now) }
{
    match ids {
        [one] => Some(*one),
        _ => None,
    }
}

/// Says whether there is only one constructor, and it has arguments.
fn is_wide(ids: &[ConId], declared: &[Declared]) -> bool
    ensures { IsTrue result ↔ IsWideAmong (con_numbers ids.now) (symbols_of declared.now) }
{
    match sole_of(ids) {
        Some(one) => has_arguments(one, declared),
        None => false,
    }
}

/// Says whether the constructor is there and has arguments.
fn has_arguments(con: ConId, declared: &[Declared]) -> bool
    ensures { IsTrue result ↔ ((x : Symbol) × (slice_get (symbols_of declared.now) con.0 ≡ Some x)
        × (0 < length x.arguments)) }
{
    match declared.get(con.0 as usize) {
        Some(d) => !d.constructor.args.as_slice().is_empty(),
        None => false,
    }
}

/// Returns the first sort whose only constructor has arguments.
pub(crate) fn first_wide(made: &[Seq<ConId>], declared: &[Declared]) -> Option<usize>
    requires { AreMade 0 made.now (symbols_of declared.now) }
    ensures { MatchOption result
        ((s : ℕ) → s < length made.now
        → IsWideAmong (constructors_from 0 s (symbols_of declared.now)) (symbols_of declared.now) → ⊥)
        (λ i. (i < length made.now) × IsWideAmong (constructors_from 0 i (symbols_of declared.now))
        (symbols_of declared.now)
        × ((s : ℕ) → s < i → IsWideAmong (constructors_from 0 s (symbols_of declared.now)) (symbols_of declared.now)
        → ⊥)) }
{
    for i in 0..made.len() {
        if is_wide(made[i].as_slice(), declared) {
            return Some(i);
        }
    }
    None
}
