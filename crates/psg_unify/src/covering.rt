//! Whether what cells read as is an instance of a row.
ghost use Rattle.std.specs.Prelude.{◌≡◌, ◌↔◌, ◌<◌, ◌+◌, ◌++◌, ◌∷◌, ◌⊎◌, [], All, IfOk, OnOk, IsTrue, List, ℕ};
ghost use Rattle.std.specs.Prelude.{Some, None, cond, length, map, true, false};
ghost use Rattle.std.specs.Option.{option_copied};
ghost use Rattle.psg_terms.specs.Terms.{variable, symbol, applied};
ghost use Rattle.psg_terms.specs.Sizes.{size, sizes};
ghost use Rattle.psg_terms.specs.Canonical.{same_variable};
ghost use Rattle.psg_terms.specs.Signature.{Signature as Sig, HaveSorts, only_constructor};
ghost use Rattle.psg_terms.specs.Instances.{IsInstance, AllGroundInstancesIn};
ghost use Rattle.psg_pool.specs.Cells.{IsAmong, arguments_of};
ghost use Rattle.psg_pool.specs.Bindings.{target_of};
ghost use Rattle.psg_pool.specs.declared.cells.CellId.{CellId as Id};
ghost use Rattle.psg_unify.specs.Circles.{HasCircle};
ghost use Rattle.psg_unify.specs.Reading.{Reading, IsReading};
ghost use Rattle.psg_unify.specs.Numbering.{IsClearReading};
ghost use Rattle.psg_unify.specs.Covering.{first_cell, facing, facings, StaysFit, FitsNone, CanMatch, weigh};

use crate::forms::Numbers;
use crate::numbering::read_alike;
use psg_pool::{Cell, CellId, Pool};
use psg_terms::canonical::Key;
use psg_terms::{Node, Signature, SortId, Term};
use std::alloc::{AllocError, Global};
use std::collections::HashMap;

/// A term of the general row, and the cell that it is matched with.
#[derive(Drop)]
pub struct Facing {
    term: Term,
    cell: CellId,
}

/// What is known while a row is matched with cells.
#[derive(Drop)]
pub struct Matching {
    /// Numbers of what cells read as, where they were compared.
    numbers: Numbers,
    /// The cell that each variable of the general row met first.
    first: HashMap<Key, CellId>,
    /// What is still to be matched.
    left: Vec<Facing>,
}

/// Returns the cell that a variable met first, if it has met one.
fn first_of(first: &HashMap<Key, CellId>, sort: SortId, number: u32) -> Option<&CellId>
    ensures { option_copied result ≡ first_cell first.now sort.0 number }
{
    first.get(&Key { sort, number })
}

/// Notes the cell that a variable met first.
fn note_first(
    first: &mut HashMap<Key, CellId>,
    sort: SortId,
    number: u32,
    cell: CellId,
) -> Result<(), AllocError>
    ensures { OnOk result ((s n : ℕ) → first_cell first.new s n
        ≡ cond (same_variable (sort.0, number) (s, n)) (Some cell) (first_cell first.old s n)) }
{
    first.insert(Key { sort, number }, cell)?;
    Ok(())
}

/// Returns the cell that a cell is bound to, if it is bound.
fn target(pool: &Pool, id: CellId) -> Option<CellId>
    requires { IsAmong pool.now.cells id }
    ensures { result ≡ target_of pool.now.bindings id }
{
    let cell = pool.cell(id);
    match cell {
        Cell::Bound(to) => Some(to),
        Cell::Free(_) => None,
        Cell::Con { .. } => None,
    }
}

/// Returns the cell at which the bindings from a cell end.
fn end_of_bindings(pool: &Pool, from: CellId) -> CellId
    requires { IsAmong pool.now.cells from }
    ensures among { IsAmong pool.now.cells result }
    ensures ends { target_of pool.now.bindings result ≡ None }
    ensures same { (sig : Sig) (read : Reading) → IsClearReading sig pool.now read → read from ≡ read result }
{
    let _mark = pool.mark();
    let mut id = from;
    while let Some(to) = target(pool, id) {
        id = to;
    }
    id
}

/// Puts the arguments of a cell on what is left, each with the term at its place.
fn push_arguments(
    left: &mut Vec<Facing>,
    terms: &[Term],
    pool: &Pool,
    id: CellId,
    count: usize,
) -> Result<(), AllocError>
    requires cells { length (arguments_of pool.now.cells id) ≡ count }
    requires terms { length terms.now ≡ count }
    ensures { OnOk result (left.new.items
        ≡ left.old.items ++ facings terms.now (arguments_of pool.now.cells id)) }
{
    for k in 0..count {
        let term = terms[k].share()?;
        let cell = pool.arg(id, k);
        left.push(Facing { term, cell })?;
    }
    Ok(())
}

/// Puts the cells on what is left, each with the term at its place.
fn push_row(left: &mut Vec<Facing>, terms: &[Term], cells: &[CellId]) -> Result<(), AllocError>
    requires { length terms.now ≡ length cells.now }
    ensures { OnOk result (left.new.items ≡ left.old.items ++ facings terms.now cells.now) }
{
    for k in 0..terms.len() {
        let term = terms[k].share()?;
        let cell = cells[k];
        left.push(Facing { term, cell })?;
    }
    Ok(())
}

/// Matches a variable with a cell. Where the variable has met a cell before, it says whether both read as one term.
fn meet_variable(
    alloc: Global,
    sig: &Signature,
    pool: &Pool,
    state: &mut Matching,
    sort: SortId,
    number: u32,
    cell: CellId,
) -> Result<bool, AllocError>
    requires can { CanMatch pool.now state.old }
    requires there { IsAmong pool.now.cells cell }
    requires circles { HasCircle pool.now → ⊥ }
    ensures yes { IfOk result (λ d. d ≡ true → StaysFit sig.now pool.now state.old
        (facing (variable sort.0 number) cell ∷ state.old.left.items) state.new) }
    ensures no { IfOk result (λ d. d ≡ false → FitsNone sig.now pool.now state.old
        (facing (variable sort.0 number) cell ∷ state.old.left.items)) }
    ensures left { state.new.left ≡ state.old.left }
    ensures can { OnOk result (CanMatch pool.now state.new) }
{
    match first_of(&state.first, sort, number) {
        Some(other) => {
            let before = *other;
            let alike = read_alike(alloc, sig, pool, &mut state.numbers, before, cell)?;
            Ok(alike)
        }
        None => {
            note_first(&mut state.first, sort, number, cell)?;
            Ok(true)
        }
    }
}

/// Says whether an open cell of the sort is a constructor with as many arguments as these: the only constant of its
/// sort, without arguments.
fn is_constant(sig: &Signature, sort: SortId, con: u32, args: &[Term]) -> bool
    ensures yes { IsTrue result → (length args.now ≡ 0) × (only_constructor sig.now sort.0 ≡ Some con) }
    ensures no { result ≡ false → (length args.now ≡ 0 → ⊥) ⊎ (only_constructor sig.now sort.0 ≡ Some con → ⊥) }
{
    if args.len() != 0 {
        return false;
    }
    match sig.constant_of(sort) {
        Some(only) => only.0 == con,
        None => false,
    }
}

/// Matches a constructor over arguments with a cell.
fn meet_con(
    sig: &Signature,
    pool: &Pool,
    state: &mut Matching,
    con: u32,
    args: &[Term],
    cell: CellId,
) -> Result<bool, AllocError>
    requires can { CanMatch pool.now state.old }
    requires there { IsAmong pool.now.cells cell }
    ensures yes { IfOk result (λ d. d ≡ true → StaysFit sig.now pool.now state.old
        (facing (applied (symbol con) args.now) cell ∷ state.old.left.items) state.new) }
    ensures no { IfOk result (λ d. d ≡ false → FitsNone sig.now pool.now state.old
        (facing (applied (symbol con) args.now) cell ∷ state.old.left.items)) }
    ensures less { OnOk result (weigh state.new.left.items < sizes args.now + 1 + weigh state.old.left.items) }
    ensures can { OnOk result (CanMatch pool.now state.new) }
{
    let _mark = pool.mark();
    let id = end_of_bindings(pool, cell);
    let held = pool.cell(id);
    match held {
        Cell::Bound(_) => unreachable!(),
        Cell::Free(sort) => {
            let constant = is_constant(sig, SortId(sort), con, args);
            Ok(constant)
        }
        Cell::Con { con: other, count } => {
            if con != other {
                return Ok(false);
            }
            if args.len() != count {
                return Ok(false);
            }
            push_arguments(&mut state.left, args, pool, id, count)?;
            Ok(true)
        }
    }
}

/// Matches a term with a cell, and says whether they can match. What is left to be matched is put on the stack.
fn meet(
    alloc: Global,
    sig: &Signature,
    pool: &Pool,
    state: &mut Matching,
    term: &Term,
    cell: CellId,
) -> Result<bool, AllocError>
    requires can { CanMatch pool.now state.old }
    requires there { IsAmong pool.now.cells cell }
    requires circles { HasCircle pool.now → ⊥ }
    ensures yes { IfOk result (λ d. d ≡ true → StaysFit sig.now pool.now state.old
        (facing term.now cell ∷ state.old.left.items) state.new) }
    ensures no { IfOk result (λ d. d ≡ false → FitsNone sig.now pool.now state.old
        (facing term.now cell ∷ state.old.left.items)) }
    ensures less { OnOk result (weigh state.new.left.items < size term.now + 1 + weigh state.old.left.items) }
    ensures can { OnOk result (CanMatch pool.now state.new) }
{
    match term.node() {
        Node::Var { sort, number } => {
            let met = meet_variable(alloc, sig, pool, state, *sort, *number, cell)?;
            Ok(met)
        }
        Node::Con { con, args } => {
            let met = meet_con(sig, pool, state, con.0, args.as_slice(), cell)?;
            Ok(met)
        }
    }
}

/// Matches all that is left, and says whether it matches. Each turn takes one place of the general row.
fn match_all(
    alloc: Global,
    sig: &Signature,
    pool: &Pool,
    state: &mut Matching,
) -> Result<bool, AllocError>
    requires can { CanMatch pool.now state.old }
    requires circles { HasCircle pool.now → ⊥ }
    ensures yes { IfOk result (λ d. d ≡ true → StaysFit sig.now pool.now state.old state.old.left.items state.new) }
    ensures done { IfOk result (λ d. d ≡ true → state.new.left.items ≡ []) }
    ensures no { IfOk result (λ d. d ≡ false → FitsNone sig.now pool.now state.old state.old.left.items) }
{
    while let Some(next) = state.left.pop() {
        if !meet(alloc, sig, pool, state, &next.term, next.cell)? {
            return Ok(false);
        }
    }
    Ok(true)
}

/// Says whether what the cells read as, with one-constant sorts written out, is an instance of the row.
fn is_matched(
    alloc: Global,
    sig: &Signature,
    pool: &Pool,
    cells: &[CellId],
    general: &[Term],
) -> Result<bool, AllocError>
    requires among { All (IsAmong pool.now.cells) cells.now }
    requires circles { HasCircle pool.now → ⊥ }
    ensures { IfOk result (λ b. (read : Reading) → IsClearReading sig.now pool.now read
        → IsTrue b ↔ IsInstance (map read cells.now) general.now) }
{
    if general.len() != cells.len() {
        return Ok(false);
    }
    let mut state = Matching {
        numbers: Numbers::new(alloc, pool.count())?,
        first: HashMap::new(alloc),
        left: Vec::new(alloc),
    };
    push_row(&mut state.left, general, cells)?;
    let matched = match_all(alloc, sig, pool, &mut state)?;
    Ok(matched)
}

/// Says whether each ground instance of what the cells read as is one of the general row. Where the variables of
/// one-constant sorts are written out, this is whether it is an instance of that row. The cells are the pool's, and no
/// cell of the pool leads back to itself: such a cell reads as nothing.
///
/// The general row is read once, place by place, along the cells. A variable that is met again has its two cells
/// compared by numbers, which are equal exactly where the cells read as one term: each cell to which they lead is
/// numbered once, however large the term is when it is written out. `AllocError` is returned when memory runs out.
pub(crate) fn covers(
    alloc: Global,
    sig: &Signature,
    pool: &Pool,
    cells: &[CellId],
    general: &[Term],
) -> Result<bool, AllocError>
    requires among { All (IsAmong pool.now.cells) cells.now }
    requires circles { HasCircle pool.now → ⊥ }
    ensures { IfOk result (λ b. (read : Reading) → IsReading pool.now read → (sorts : List ℕ)
        → HaveSorts sig.now (map read cells.now) sorts → HaveSorts sig.now general.now sorts
        → IsTrue b ↔ AllGroundInstancesIn sig.now (map read cells.now) general.now) }
{
    sig.sound();
    let matched = is_matched(alloc, sig, pool, cells, general)?;
    Ok(matched)
}
