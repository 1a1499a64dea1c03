//! The constructors of rows that are put into a pool, with a stack of what is still to be put.
ghost use Rattle.std.specs.Prelude.{◌≡◌, ◌<◌, ◌≤◌, ◌+◌, ◌^◌, ◌++◌, ◌∷◌, [], true, All, List};
ghost use Rattle.std.specs.Prelude.{reverse, map, length, OnOk, IfOk};
ghost use Rattle.psg_terms.specs.Renaming.{keys, place};
ghost use Rattle.psg_terms.specs.Canonical.{is_noted};
ghost use Rattle.psg_terms.specs.Signature.{AreTerms};
ghost use Rattle.psg_terms.specs.Terms.{Term as Plain};
ghost use Rattle.psg_pool.specs.Cells.{IsAmong};
ghost use Rattle.psg_pool.specs.Bindings.{Kept, IsSound};
ghost use Rattle.psg_unify.specs.Fitting.{Fits};
ghost use Rattle.psg_unify.specs.Putting.{IsLonger};
ghost use Rattle.psg_unify.specs.Making.{IsMade, IsPutting, IsPutRow, MayPut, work};
ghost use Rattle.psg_unify.specs.declared.making.Task.TheVariants.{Whole};

use crate::putting::put_variables;
use indexmap::IndexSet;
use psg_pool::{CellId, Pool};
use psg_terms::canonical::{Key, place_of};
use psg_terms::{ConId, Node, Signature, SortId, Term};
use std::alloc::{AllocError, Global};

/// What is still to be put.
#[derive(Drop)]
pub enum Task {
    /// A term.
    Whole(Term),
    /// A constructor over as many cells as this, which were made last.
    Make { con: ConId, count: usize },
}

/// Puts terms on the stack, the first one on top.
fn push_whole(tasks: &mut Vec<Task>, row: &[Term]) -> Result<(), AllocError>
    ensures { OnOk result (tasks.new.items ≡ tasks.old.items ++ reverse (map (λ (t : Plain). Whole t) row.now)) }
{
    let mut rest = row;
    while let Some((term, front)) = rest.split_last() {
        rest = front;
        let term = term.share()?;
        tasks.push(Task::Whole(term))?;
    }
    Ok(())
}

/// Puts a constructor cell over the last cells, in place of them.
fn make(
    pool: &mut Pool,
    cells: &mut Vec<CellId>,
    con: ConId,
    count: usize,
) -> Result<(), AllocError>
    requires among { All (IsAmong pool.old.cells) cells.old.items }
    requires count { count ≤ length cells.old.items }
    ensures made { OnOk result (IsMade pool.old pool.new cells.old.items cells.new.items con.0 count) }
    ensures sound { OnOk result (IsSound pool.new) }
    ensures longer { IsLonger pool.old pool.new }
{
    let start = cells.len() - count;
    let id = pool.put_con(con.0, &cells.as_slice()[start..])?;
    cells.truncate(start);
    cells.push(id)?;
    Ok(())
}

/// Returns the cell of a known variable. Each variable has a cell from `base` on, by its place.
fn cell_of(known: &IndexSet<Key>, base: usize, sort: SortId, number: u32) -> CellId
    requires known { is_noted (sort.0, number) (keys known.now.keys) ≡ true }
    requires room { base + length (keys known.now.keys) < 2 ^ 64 }
    ensures { result.0 ≡ base + place (sort.0, number) (keys known.now.keys) }
{
    match place_of(known, sort, number) {
        Some(place) => CellId(base + place),
        None => unreachable!(),
    }
}

/// Does a term: a variable has its cell, and of a constructor the arguments are put first, and then the constructor.
fn put_whole(
    sig: &Signature,
    known: &IndexSet<Key>,
    base: usize,
    tasks: &mut Vec<Task>,
    cells: &mut Vec<CellId>,
    term: &Term,
) -> Result<(), AllocError>
    requires may { MayPut sig.now (keys known.now.keys) (length cells.old.items)
        (Whole term.now ∷ reverse tasks.old.items) }
    requires room { base + length (keys known.now.keys) < 2 ^ 64 }
    ensures may { OnOk result (MayPut sig.now (keys known.now.keys) (length cells.new.items)
        (reverse tasks.new.items)) }
    ensures less { OnOk result (work (reverse tasks.new.items) < work (Whole term.now ∷ reverse tasks.old.items)) }
    ensures put { OnOk result ((old now : Kept) (row : List Plain) → IsSound old → base ≡ length old.cells
        → IsPutting sig.now old (keys known.now.keys) row now (Whole term.now ∷ reverse tasks.old.items) cells.old.items
        → IsPutting sig.now old (keys known.now.keys) row now (reverse tasks.new.items) cells.new.items) }
{
    match term.node() {
        Node::Var { sort, number } => match sig.constant_of(*sort) {
            Some(con) => {
                tasks.push(Task::Make { con, count: 0 })?;
                Ok(())
            }
            None => {
                let cell = cell_of(known, base, *sort, *number);
                cells.push(cell)?;
                Ok(())
            }
        },
        Node::Con { con, args } => {
            let args = args.as_slice();
            tasks.push(Task::Make {
                con: *con,
                count: args.len(),
            })?;
            push_whole(tasks, args)?;
            Ok(())
        }
    }
}

/// Does the task that was on top of the stack.
fn do_task(
    sig: &Signature,
    known: &IndexSet<Key>,
    base: usize,
    pool: &mut Pool,
    tasks: &mut Vec<Task>,
    cells: &mut Vec<CellId>,
    task: Task,
) -> Result<(), AllocError>
    requires among { All (IsAmong pool.old.cells) cells.old.items }
    requires may { MayPut sig.now (keys known.now.keys) (length cells.old.items) (task ∷ reverse tasks.old.items) }
    requires room { base + length (keys known.now.keys) < 2 ^ 64 }
    ensures may { OnOk result (MayPut sig.now (keys known.now.keys) (length cells.new.items)
        (reverse tasks.new.items)) }
    ensures less { OnOk result (work (reverse tasks.new.items) < work (task ∷ reverse tasks.old.items)) }
    ensures put { OnOk result ((old : Kept) (row : List Plain) → IsSound old → base ≡ length old.cells
        → IsPutting sig.now old (keys known.now.keys) row pool.old (task ∷ reverse tasks.old.items) cells.old.items
        → IsPutting sig.now old (keys known.now.keys) row pool.new (reverse tasks.new.items) cells.new.items) }
    ensures longer { IsLonger pool.old pool.new }
{
    match task {
        Task::Whole(term) => {
            put_whole(sig, known, base, tasks, cells, &term)?;
            Ok(())
        }
        Task::Make { con, count } => {
            make(pool, cells, con, count)?;
            Ok(())
        }
    }
}

/// Puts the terms of a row whose variables have their cells from `base` on, and gives the cell of each.
fn put_terms(
    alloc: Global,
    sig: &Signature,
    known: &IndexSet<Key>,
    base: usize,
    pool: &mut Pool,
    row: &[Term],
) -> Result<Vec<CellId>, AllocError>
    requires may { MayPut sig.now (keys known.now.keys) 0 (map (λ (t : Plain). Whole t) row.now) }
    requires room { base + length (keys known.now.keys) < 2 ^ 64 }
    requires putting { (old : Kept) × IsSound old × (base ≡ length old.cells)
        × IsPutting sig.now old (keys known.now.keys) row.now pool.old (map (λ (t : Plain). Whole t) row.now) [] }
    ensures put { IfOk result (λ cells. (old : Kept) × (base ≡ length old.cells)
        × IsPutting sig.now old (keys known.now.keys) row.now pool.new [] cells.items) }
    ensures longer { IsLonger pool.old pool.new }
{
    let mut tasks = Vec::new(alloc);
    push_whole(&mut tasks, row)?;
    let mut cells = Vec::new(alloc);
    while let Some(task) = tasks.pop() {
        do_task(sig, known, base, pool, &mut tasks, &mut cells, task)?;
    }
    Ok(cells)
}

/// Puts a row into the pool, apart from all that is there: a free cell for each variable, in order of first occurrence,
/// and then the constructors, arguments first, with a cell for each place of the row. A variable of a sort that is one
/// constant is this constant. The result has a cell for each column. It goes over each place of the row twice, with
/// stacks of its own, and keeps a table of the variables.
///
/// It returns `AllocError` when memory runs out. The pool then has some more cells.
pub fn put_row(
    alloc: Global,
    sig: &Signature,
    pool: &mut Pool,
    row: &[Term],
) -> Result<Vec<CellId>, AllocError>
    requires terms { AreTerms sig.now row.now }
    requires fits { Fits sig.now pool.old }
    ensures put { IfOk result (λ cells. IsPutRow sig.now pool.old pool.new row.now cells.items) }
    ensures longer { IsLonger pool.old pool.new }
{
    sig.sound();
    let _mark = pool.mark();
    let base = pool.count();
    let mut known = IndexSet::new(alloc);
    put_variables(alloc, sig, pool, &mut known, row)?;
    let _end = pool.count();
    let cells = put_terms(alloc, sig, &known, base, pool, row)?;
    Ok(cells)
}
