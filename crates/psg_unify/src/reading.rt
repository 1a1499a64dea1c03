//! Rows read out of a pool, with canonical numbers.
ghost use Rattle.std.specs.Prelude.{◌≡◌, ◌<◌, ◌+◌, ◌∷◌, ◌↔◌, [], All, IfOk, IfSome, IfNone, OnOk, IsTrue, List};
ghost use Rattle.std.specs.Prelude.{◌^◌, IsOk, Some, ℕ, set, slice_get, length, map, reverse};
ghost use Rattle.psg_terms.specs.Terms.{Term as Plain};
ghost use Rattle.psg_terms.specs.Canonical.{Variable, IsCanonical};
ghost use Rattle.psg_terms.specs.Instances.{HasSameInstances};
ghost use Rattle.psg_terms.specs.Renaming.{keys};
ghost use Rattle.psg_terms.specs.Signature.{Signature as Sig, HaveSorts};
ghost use Rattle.psg_pool.specs.Cells.{IsAmong, arguments_of};
ghost use Rattle.psg_pool.specs.Bindings.{Holds, IsSound};
ghost use Rattle.psg_pool.specs.declared.cells.Cell.TheVariants.{Free as Open};
ghost use Rattle.psg_pool.specs.declared.cells.CellId.{CellId as Id};
ghost use Rattle.psg_unify.specs.declared.walking.Item.{Item as Step};
ghost use Rattle.psg_unify.specs.declared.walking.Item.TheVariants.{Visit, Leave};
ghost use Rattle.psg_unify.specs.Fitting.{Fits, Falls};
ghost use Rattle.psg_unify.specs.Reading.{Reading, IsReading};
ghost use Rattle.psg_unify.specs.ReadOut.{AreWritten, ReadsOn};
ghost use Rattle.psg_unify.specs.Filling.{IsFilled, IsKept, IsFilling, StaysFilling};
ghost use Rattle.psg_unify.specs.ReadOut.{IsNextUnwritten};
ghost use Rattle.psg_unify.specs.Filling.{fresh};

use crate::walking::{Item, push_arguments, push_cells};
use indexmap::IndexSet;
use psg_pool::{Cell, CellId, Pool};
use psg_terms::canonical::{Key, note, number_of};
use psg_terms::{ConId, Signature, SortId, Term, uncountable};
use std::alloc::{AllocError, Global};

/// Returns as many empty places as this.
fn empty_places(alloc: Global, count: usize) -> Result<Vec<Option<Term>>, AllocError>
    ensures empty { IfOk result (λ v. (k : ℕ) (t : Plain) → slice_get v.items k ≡ Some (Some t) → ⊥) }
    ensures count { IfOk result (λ v. length v.items ≡ count) }
{
    let mut places = Vec::with_capacity(alloc, count)?;
    for _place in 0..count {
        places.push(None)?;
    }
    Ok(places)
}

/// Says whether the cell's term was written.
fn is_written(written: &[Option<Term>], id: CellId) -> bool
    ensures { IsTrue result ↔ IsFilled written.now id }
{
    match written.get(id.0) {
        Some(place) => place.is_some(),
        None => false,
    }
}

/// Returns the cell's term, which was written.
fn written_of(written: &[Option<Term>], id: CellId) -> Result<Term, AllocError>
    requires { IsFilled written.now id }
    ensures { IfOk result (λ t. slice_get written.now id.0 ≡ Some (Some t)) }
{
    match written.get(id.0) {
        Some(place) => match place {
            Some(term) => {
                let copy = term.share()?;
                Ok(copy)
            }
            None => unreachable!(),
        },
        None => unreachable!(),
    }
}

/// Keeps the cell's term.
fn keep(written: &mut Vec<Option<Term>>, id: CellId, term: Term)
    requires { id.0 < length written.old.items }
    ensures { written.new.items ≡ set written.old.items id.0 (Some term) }
{
    written[id.0] = Some(term);
}

/// Returns the terms of the arguments of a cell, which were written.
fn written_arguments(
    alloc: Global,
    pool: &Pool,
    written: &[Option<Term>],
    id: CellId,
    count: usize,
) -> Result<Vec<Term>, AllocError>
    requires count { length (arguments_of pool.now.cells id) ≡ count }
    requires there { All (IsFilled written.now) (arguments_of pool.now.cells id) }
    ensures { IfOk result (λ v. AreWritten written.now (arguments_of pool.now.cells id) v.items) }
{
    let mut terms = Vec::with_capacity(alloc, count)?;
    for k in 0..count {
        let argument = pool.arg(id, k);
        let term = written_of(written, argument)?;
        terms.push(term)?;
    }
    Ok(terms)
}

/// Returns the terms of the cells, which were written.
fn written_row(
    alloc: Global,
    written: &[Option<Term>],
    cells: &[CellId],
) -> Result<Vec<Term>, AllocError>
    requires { All (IsFilled written.now) cells.now }
    ensures { IfOk result (λ v. AreWritten written.now cells.now v.items) }
{
    let mut terms = Vec::with_capacity(alloc, cells.len())?;
    for k in 0..cells.len() {
        let term = written_of(written, cells[k])?;
        terms.push(term)?;
    }
    Ok(terms)
}

/// Returns the number of the variable that an open cell reads as. It fails as if out of memory exactly where that is
/// above 2^32 - 1.
fn number_at(id: CellId) -> Result<u32, AllocError>
    ensures number { IfOk result (λ n. n ≡ id.0 + 1) }
    ensures fits { id.0 + 1 < 2 ^ 32 → IsOk result }
{
    if id.0 >= 0xffff_ffff {
        return Err(uncountable(id.0));
    }
    Ok((id.0 + 1) as u32)
}

/// Writes an open cell: the constant of its sort if that is one constant, and else a variable by its place among the
/// known ones.
fn write_open(
    alloc: Global,
    sig: &Signature,
    pool: &Pool,
    known: &mut IndexSet<Key>,
    written: &mut Vec<Option<Term>>,
    id: CellId,
    sort: SortId,
) -> Result<(), AllocError>
    requires holds { Holds pool.now id (Open sort.0) }
    requires within { id.0 < length written.old.items }
    ensures reads { OnOk result ((rest : List Step) → ReadsOn sig.now pool.now (keys known.old.keys)
        (keys known.new.keys) written.old.items written.new.items (Visit id ∷ rest) rest) }
    ensures kept { OnOk result (IsKept written.old.items written.new.items id) }
{
    match sig.constant_of(sort) {
        Some(con) => {
            let term = Term::apply(alloc, con, Vec::new(alloc))?;
            keep(written, id, term);
            Ok(())
        }
        None => {
            let number = number_at(id)?;
            let place = note(known, sort, number)?;
            let fresh = number_of(0, place)?;
            let term = Term::var(alloc, sort, fresh)?;
            keep(written, id, term);
            Ok(())
        }
    }
}

/// Goes to a cell that was not written: an open one is written, and of the others first what they lead to.
fn go_to(
    alloc: Global,
    sig: &Signature,
    pool: &Pool,
    known: &mut IndexSet<Key>,
    written: &mut Vec<Option<Term>>,
    stack: &mut Vec<Item>,
    id: CellId,
) -> Result<(), AllocError>
    requires readable { (cells : List Id)
        × IsFilling pool.now cells written.old.items (Visit id ∷ reverse stack.old.items) }
    requires falls { (height : Id → ℕ) × Falls pool.now height }
    requires other { IsFilled written.old.items id → ⊥ }
    ensures reads { OnOk result
        (ReadsOn sig.now pool.now (keys known.old.keys) (keys known.new.keys) written.old.items written.new.items
        (Visit id ∷ reverse stack.old.items) (reverse stack.new.items)) }
    ensures stays { OnOk result (StaysFilling pool.now written.old.items written.new.items
        (Visit id ∷ reverse stack.old.items) (reverse stack.new.items)) }
    ensures fewer { OnOk result (fresh written.new.items (reverse stack.new.items)
        < fresh written.old.items (Visit id ∷ reverse stack.old.items)) }
{
    let _mark = pool.mark();
    let cell = pool.cell(id);
    match cell {
        Cell::Free(sort) => {
            write_open(alloc, sig, pool, known, written, id, SortId(sort))?;
            Ok(())
        }
        Cell::Bound(to) => {
            stack.push(Item::Leave(id))?;
            stack.push(Item::Visit(to))?;
            Ok(())
        }
        Cell::Con { count, .. } => {
            stack.push(Item::Leave(id))?;
            push_arguments(pool, stack, id, count)?;
            Ok(())
        }
    }
}

/// Writes a cell, what it leads to being written.
fn leave(
    alloc: Global,
    pool: &Pool,
    written: &mut Vec<Option<Term>>,
    id: CellId,
) -> Result<(), AllocError>
    requires { (cells : List Id) × (rest : List Step)
        × IsFilling pool.now cells written.old.items (Leave id ∷ rest) }
    ensures reads { OnOk result ((s : Sig) (known : List Variable) (rest : List Step) → ReadsOn s pool.now known known
        written.old.items written.new.items (Leave id ∷ rest) rest) }
    ensures kept { OnOk result (IsKept written.old.items written.new.items id) }
{
    let cell = pool.cell(id);
    match cell {
        Cell::Free(_) => unreachable!(),
        Cell::Bound(to) => {
            let term = written_of(written.as_slice(), to)?;
            keep(written, id, term);
            Ok(())
        }
        Cell::Con { con, count } => {
            let parts = written_arguments(alloc, pool, written.as_slice(), id, count)?;
            let term = Term::apply(alloc, ConId(con), parts)?;
            keep(written, id, term);
            Ok(())
        }
    }
}

/// Takes items from the stack up to a visit to a cell that was not written, and returns this cell. Cells that are to be
/// left before are written. `None` where the stack is empty.
fn next_unwritten(
    alloc: Global,
    pool: &Pool,
    written: &mut Vec<Option<Term>>,
    stack: &mut Vec<Item>,
) -> Result<Option<CellId>, AllocError>
    requires { (cells : List Id) × IsFilling pool.now cells written.old.items (reverse stack.old.items) }
    ensures some { IfOk result (λ o. IfSome o (λ id. IsNextUnwritten pool.now written.old.items written.new.items
        (reverse stack.old.items) (reverse stack.new.items) id)) }
    ensures reads { IfOk result (λ o. IfNone o ((s : Sig) (known : List Variable) → ReadsOn s pool.now known known
        written.old.items written.new.items (reverse stack.old.items) [])) }
    ensures stays { IfOk result (λ o. IfNone o (StaysFilling pool.now written.old.items written.new.items
        (reverse stack.old.items) [])) }
{
    while let Some(item) = stack.pop() {
        match item {
            Item::Leave(id) => {
                leave(alloc, pool, written, id)?;
            }
            Item::Visit(id) => {
                if !is_written(written.as_slice(), id) {
                    return Ok(Some(id));
                }
            }
        }
    }
    Ok(None)
}

/// Writes all cells that are on the stack, and those to which they lead. Each turn goes to a cell that was neither
/// written nor gone to.
fn read_all(
    alloc: Global,
    sig: &Signature,
    pool: &Pool,
    known: &mut IndexSet<Key>,
    written: &mut Vec<Option<Term>>,
    stack: &mut Vec<Item>,
) -> Result<(), AllocError>
    requires readable { (cells : List Id)
        × IsFilling pool.now cells written.old.items (reverse stack.old.items) }
    requires falls { (height : Id → ℕ) × Falls pool.now height }
    ensures reads { OnOk result
        (ReadsOn sig.now pool.now (keys known.old.keys) (keys known.new.keys) written.old.items written.new.items
        (reverse stack.old.items) []) }
    ensures stays { OnOk result (StaysFilling pool.now written.old.items written.new.items (reverse stack.old.items)
        []) }
{
    while let Some(id) = next_unwritten(alloc, pool, written, stack)? {
        go_to(alloc, sig, pool, known, written, stack, id)?;
    }
    Ok(())
}

/// Returns the canonical row of the cells. Each cell that the row reaches is written once and then shared. It takes a
/// place for each cell of the pool, also of those that the row does not reach.
///
/// `AllocError` is returned when memory runs out, and where 32 bits do not count the cells of the pool.
pub fn read_row(
    alloc: Global,
    sig: &Signature,
    pool: &Pool,
    cells: &[CellId],
) -> Result<Vec<Term>, AllocError>
    requires fits { Fits sig.now pool.now }
    requires among { All (IsAmong pool.now.cells) cells.now }
    ensures canonical { IfOk result (λ row. IsCanonical sig.now row.items) }
    ensures same { IfOk result (λ row. (read : Reading) → IsReading pool.now read
        → HasSameInstances sig.now row.items (map read cells.now)) }
    ensures sorted { IfOk result (λ row. (read : Reading) → IsReading pool.now read
        → (sorts : List ℕ) → HaveSorts sig.now (map read cells.now) sorts → HaveSorts sig.now row.items sorts) }
    ensures sound { IsSound pool.now }
{
    sig.sound();
    let _mark = pool.mark();
    let mut known = IndexSet::new(alloc);
    let mut written = empty_places(alloc, pool.count())?;
    let mut stack = Vec::new(alloc);
    push_cells(&mut stack, cells)?;
    read_all(alloc, sig, pool, &mut known, &mut written, &mut stack)?;
    let row = written_row(alloc, written.as_slice(), cells)?;
    Ok(row)
}
