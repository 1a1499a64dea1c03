//! The conditions on operators, slots and kinds: scopes without names, slots that declare nothing, and a hole row for
//! each kind.
ghost use Rattle.std.specs.Prelude.{◌≡◌, ◌<◌, ◌++◌, ◌↔◌, ◌^◌, ℕ, length, slice_get, true, IfOk, IfSome, IsTrue};
ghost use Rattle.std.specs.Prelude.{MatchOption, OnOk, Some};
ghost use Rattle.psg_grammar.specs.declared.types.Kind.{Kind as PlainKind};
ghost use Rattle.psg_grammar.specs.declared.types.Operator.{Operator as PlainOperator};
ghost use Rattle.psg_grammar.specs.Kinds.{HasKind};
ghost use Rattle.psg_grammar.specs.Sound.{IsSound};
ghost use Rattle.psg_specimen.specs.Conditions.{HasRow, IsBare, IsBareScope, IsQuiet, IsQuietSlot, slot_kinds};
ghost use Rattle.psg_specimen.specs.Tables.{AreKinds, AreTables, has_mark, IsMarked, IsRowOf, mark_of, slots_of};
ghost use Rattle.psg_specimen.specs.declared.forms.Mark.{Mark as PlainMark};
ghost use Rattle.psg_specimen.specs.Refusal.{IsFirst};
ghost use Rattle.psg_specimen.specs.Walks.{Finds, FindsKind, FindsTwo};

use psg_grammar::{Definition, HoleRow, Item, Kind, Operator, declaring, name_positions};
use std::alloc::{AllocError, Global};
use std::collections::HashSet;

/// Returns the first scope operator that has a name position.
pub(crate) fn first_scope(definition: &Definition) -> Option<usize>
    ensures { Finds (IsBareScope definition.now) result }
{
    let operators = definition.operators.as_slice();
    for number in 0..operators.len() {
        if !is_bare(&operators[number]) {
            return Some(number);
        }
    }
    None
}

fn is_bare(operator: &Operator) -> bool
    ensures { IsTrue result ↔ IsBare operator.now }
{
    !operator.scope || name_positions(operator) == 0
}

/// Returns the first operator with a slot of a phylum that declares, and the number of the slot among its slots.
///
/// The table of the spaces in which phyla declare is made once; then each slot is one look-up.
pub(crate) fn first_declaring(
    alloc: Global,
    definition: &Definition,
) -> Result<Option<(usize, usize)>, AllocError>
    requires { IsSound definition.now }
    ensures { IfOk result (FindsTwo (IsQuietSlot definition.now)) }
{
    let spaces = declaring(alloc, definition)?;
    let operators = definition.operators.as_slice();
    for number in 0..operators.len() {
        let slots = slots(alloc, operators[number].items.as_slice())?;
        if let Some(slot) = first_loud(definition, spaces.as_slice(), slots.as_slice()) {
            return Ok(Some((number, slot)));
        }
    }
    Ok(None)
}

/// Returns the kinds of the slots, in order.
pub(crate) fn slots(alloc: Global, items: &[Item]) -> Result<Vec<Kind>, AllocError>
    ensures { IfOk result (λ v. v.items ≡ slot_kinds items.now) }
{
    let mut slots = Vec::with_capacity(alloc, items.len())?;
    for item in items {
        add_slot(&mut slots, item)?;
    }
    Ok(slots)
}

fn add_slot(slots: &mut Vec<Kind>, item: &Item) -> Result<(), AllocError>
    ensures { OnOk result (slots.new.items ≡ slots.old.items ++ slots_of item.now) }
{
    if let Item::Slot(kind) = item {
        slots.push(*kind)?;
    }
    Ok(())
}

fn first_loud(definition: &Definition, spaces: &[Vec<u32>], slots: &[Kind]) -> Option<usize>
    requires tables { AreTables definition.now spaces.now }
    requires kinds { AreKinds definition.now slots.now }
    ensures { Finds (λ k. (kind : PlainKind) → slice_get slots.now k ≡ Some kind → IsQuiet definition.now kind) result }
{
    for number in 0..slots.len() {
        if !is_quiet(definition, spaces, &slots[number]) {
            return Some(number);
        }
    }
    None
}

fn is_quiet(definition: &Definition, spaces: &[Vec<u32>], kind: &Kind) -> bool
    requires tables { AreTables definition.now spaces.now }
    requires kind { HasKind definition.now kind.now }
    ensures { IsTrue result ↔ IsQuiet definition.now kind.now }
{
    let _ = definition;
    match kind {
        Kind::Phylum(phylum) => spaces[*phylum as usize].as_slice().is_empty(),
        Kind::List(_) => true,
    }
}

/// A kind, as a key of a set.
#[derive(Clone, Copy, PartialEq, Eq, Hash)]
struct Mark {
    is_list: bool,
    number: u32,
}

/// Returns the first kind without a hole row, phyla before lists.
///
/// One pass over the hole rows marks their kinds.
pub(crate) fn first_without_row(
    alloc: Global,
    definition: &Definition,
) -> Result<Option<Kind>, AllocError>
    requires { IsSound definition.now }
    ensures first { IfOk result (FindsKind (HasRow definition.now)) }
    ensures kind { IfOk result (λ o. IfSome o (HasKind definition.now)) }
{
    let marks = marks(alloc, definition.hole_rows.as_slice())?;
    if let Some(phylum) = first_unmarked(&marks, false, definition.phyla.as_slice().len()) {
        return Ok(Some(Kind::Phylum(phylum as u32)));
    }
    if let Some(list) = first_unmarked(&marks, true, definition.lists.as_slice().len()) {
        return Ok(Some(Kind::List(list as u32)));
    }
    Ok(None)
}

fn marks(alloc: Global, rows: &[HoleRow]) -> Result<HashSet<Mark>, AllocError>
    ensures { IfOk result (λ m. (k : PlainMark) → (has_mark m k ≡ true) ↔ IsRowOf rows.now k) }
{
    let mut marks = HashSet::new(alloc);
    for row in rows {
        let mark = mark_of(row.kind);
        marks.insert(mark)?;
    }
    Ok(marks)
}

fn mark_of(kind: Kind) -> Mark
    ensures { result ≡ mark_of kind }
{
    match kind {
        Kind::Phylum(number) => Mark {
            is_list: false,
            number,
        },
        Kind::List(number) => Mark {
            is_list: true,
            number,
        },
    }
}

fn first_unmarked(marks: &HashSet<Mark>, is_list: bool, count: usize) -> Option<usize>
    requires { count < 2 ^ 32 }
    ensures { MatchOption result ((n : ℕ) → n < count → IsMarked marks.now is_list n)
        (λ n. (n < count) × IsFirst (IsMarked marks.now is_list) n) }
{
    for number in 0..count {
        let mark = Mark {
            is_list,
            number: number as u32,
        };
        if !marks.contains(&mark) {
            return Some(number);
        }
    }
    None
}
