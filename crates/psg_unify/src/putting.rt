//! Rows put into a pool: first a free cell for each variable, and then the constructors.
ghost use Rattle.std.specs.Prelude.{◌≡◌, ◌++◌, reverse, OnOk};
ghost use Rattle.psg_terms.specs.Canonical.{noted, noted_all, variables_of};
ghost use Rattle.psg_terms.specs.Renaming.{keys, opens};
ghost use Rattle.psg_unify.specs.Putting.{IsLonger, PutsKnown, WalksOn};

use indexmap::IndexSet;
use psg_pool::Pool;
use psg_terms::canonical::{Key, note};
use psg_terms::{Node, Signature, SortId, Term};
use std::alloc::{AllocError, Global};

/// Puts the terms on the stack, the first one on top.
fn push_row(stack: &mut Vec<Term>, row: &[Term]) -> Result<(), AllocError>
    ensures { OnOk result (stack.new.items ≡ stack.old.items ++ reverse row.now) }
{
    let mut rest = row;
    while let Some((term, front)) = rest.split_last() {
        rest = front;
        let term = term.share()?;
        stack.push(term)?;
    }
    Ok(())
}

/// Notes a variable, and puts a free cell for it where it was not known.
fn put_variable(
    pool: &mut Pool,
    known: &mut IndexSet<Key>,
    sort: SortId,
    number: u32,
) -> Result<(), AllocError>
    ensures known { OnOk result (keys known.new.keys ≡ noted (keys known.old.keys) (sort.0, number)) }
    ensures cells { OnOk result (PutsKnown pool.old.cells pool.new.cells (keys known.old.keys) (keys known.new.keys)) }
    ensures longer { IsLonger pool.old pool.new }
{
    let count = known.len();
    note(known, sort, number)?;
    if known.len() == count {
        return Ok(());
    }
    pool.put_free(sort.0)?;
    Ok(())
}

/// Notes the term's variable where the term is one, and else puts its arguments on the stack, unless it has no
/// variables.
fn walk_term(
    sig: &Signature,
    pool: &mut Pool,
    known: &mut IndexSet<Key>,
    stack: &mut Vec<Term>,
    term: &Term,
) -> Result<(), AllocError>
    ensures walks { OnOk result
        (WalksOn sig.now (keys known.old.keys) (keys known.new.keys) term.now stack.old.items stack.new.items) }
    ensures cells { OnOk result (PutsKnown pool.old.cells pool.new.cells (keys known.old.keys) (keys known.new.keys)) }
    ensures longer { IsLonger pool.old pool.new }
{
    if term.above() == 0 {
        return Ok(());
    }
    match term.node() {
        Node::Var { sort, number } => match sig.constant_of(*sort) {
            Some(_) => Ok(()),
            None => {
                put_variable(pool, known, *sort, *number)?;
                Ok(())
            }
        },
        Node::Con { args, .. } => {
            push_row(stack, args.as_slice())?;
            Ok(())
        }
    }
}

/// Puts a free cell for each variable of the row that is not known yet, in order of first occurrence. A variable of a
/// sort that is one constant gets none. It goes over each place of the row once, with a stack of its own, but not into
/// terms without variables.
pub fn put_variables(
    alloc: Global,
    sig: &Signature,
    pool: &mut Pool,
    known: &mut IndexSet<Key>,
    row: &[Term],
) -> Result<(), AllocError>
    ensures known { OnOk result
        (keys known.new.keys ≡ noted_all (keys known.old.keys) (opens sig.now (variables_of row.now))) }
    ensures cells { OnOk result (PutsKnown pool.old.cells pool.new.cells (keys known.old.keys) (keys known.new.keys)) }
    ensures longer { IsLonger pool.old pool.new }
{
    let mut stack = Vec::new(alloc);
    push_row(&mut stack, row)?;
    while let Some(term) = stack.pop() {
        walk_term(sig, pool, known, &mut stack, &term)?;
    }
    Ok(())
}
