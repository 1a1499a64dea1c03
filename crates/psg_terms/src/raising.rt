//! Terms whose variables' numbers are raised.
ghost use Rattle.std.specs.Prelude.{◌≡◌, ◌+◌, ◌<◌, ◌^◌, IfOk, IsOk, IsTrue, map};
ghost use Rattle.psg_terms.specs.Instances.{substitute};
ghost use Rattle.psg_terms.specs.Renaming.{raised};

use crate::counting::uncountable;
use crate::term::{Node, Term};
use std::alloc::{AllocError, Global};

/// Says that the term stays as it is, where it does so at sight.
fn stays(base: usize, term: &Term) -> bool
    ensures { IsTrue result → substitute (raised base) term.now ≡ term.now }
{
    if base == 0 {
        return true;
    }
    term.above() == 0
}

/// Returns the sum, which is the number of a variable. It fails as if out of memory exactly where that is above
/// 2^32 - 2.
fn raised_number(base: usize, number: u32) -> Result<u32, AllocError>
    ensures sum { IfOk result (λ n. n ≡ base + number) }
    ensures fits { base + number + 1 < 2 ^ 32 → IsOk result }
{
    if base >= 0xffff_ffff {
        return Err(uncountable(base));
    }
    let sum = base + number as usize;
    if sum >= 0xffff_ffff {
        return Err(uncountable(sum));
    }
    Ok(sum as u32)
}

/// Returns the term with the base added to the number of each variable. A part that stays as it is is shared.
#[cycle(raise)]
fn raise(alloc: Global, base: usize, term: &Term) -> Result<Term, AllocError>
    ensures { IfOk result (λ t. t ≡ substitute (raised base) term.now) }
{
    if stays(base, term) {
        let copy = term.share()?;
        return Ok(copy);
    }
    match term.node() {
        Node::Var { sort, number } => {
            let higher = raised_number(base, *number)?;
            let copy = Term::var(alloc, *sort, higher)?;
            Ok(copy)
        }
        Node::Con { con, args } => {
            let parts = raise_all(alloc, base, args.as_slice())?;
            let copy = Term::apply(alloc, *con, parts)?;
            Ok(copy)
        }
    }
}

/// Returns the row with the base added to the number of each variable. A part that stays as it is is shared, so a walk
/// takes one step for a part without variables. It fails as if out of memory where such a sum is above 2^32 - 2.
#[cycle(raise)]
pub fn raise_all(alloc: Global, base: usize, row: &[Term]) -> Result<Vec<Term>, AllocError>
    ensures { IfOk result (λ v. v.items ≡ map (substitute (raised base)) row.now) }
{
    let mut copies = Vec::with_capacity(alloc, row.len())?;
    for i in 0..row.len() {
        let copy = raise(alloc, base, &row[i])?;
        copies.push(copy)?;
    }
    Ok(copies)
}
