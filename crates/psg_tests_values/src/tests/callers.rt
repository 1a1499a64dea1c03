//! Rows joined in a pool of the caller, by the calls that `join_rows` and `JoinPool::join` make for each pair of rows.
ghost use Rattle.std.specs.Prelude.{◌≡◌};
ghost use Rattle.psg_unify.specs.Fitting.{Fits};

use super::relations::within;
use super::rows::{are_of_equal_sort, pairs_of, row_of, sorts_of, types};
use psg_pool::Pool;
use psg_terms::matching::same_all;
use psg_terms::{Signature, Term, have_sorts};
use psg_unify::{join_in, join_rows_in};
use std::alloc::{AllocError, Global};
use std::test::Fail;

/// The row that two rows make, and how many cells were left in the pool, which is released.
fn whole_and_count(
    alloc: Global,
    sig: &Signature,
    pool: &mut Pool,
    left: &[Term],
    right: &[Term],
    pairs: &[(usize, usize)],
) -> Result<Option<(Vec<Term>, usize)>, AllocError>
    requires { Fits sig.now pool.old }
    ensures { pool.new ≡ pool.old }
{
    let lefts = sorts_of(alloc, left)?;
    let rights = sorts_of(alloc, right)?;
    let (lefts, rights) = (lefts.as_slice(), rights.as_slice());
    if !have_sorts(sig, left, lefts) || !have_sorts(sig, right, rights) {
        return Err(AllocError);
    }
    if !are_of_equal_sort(lefts, rights, pairs) {
        return Err(AllocError);
    }
    let mark = pool.mark();
    let joined = join_rows_in(alloc, sig, pool, left, right, pairs)?;
    match joined {
        Some(row) => {
            let count = pool.count();
            pool.release(mark);
            Ok(Some((row, count)))
        }
        None => Ok(None),
    }
}

/// The columns of these numbers of the row that two rows make, all of them of the left row, and how many cells were
/// left in the pool, which is released.
fn kept_and_count(
    alloc: Global,
    sig: &Signature,
    pool: &mut Pool,
    left: &[Term],
    right: &[Term],
    pairs: &[(usize, usize)],
    keep: &[usize],
) -> Result<Option<(Vec<Term>, usize)>, AllocError>
    requires { Fits sig.now pool.old }
    ensures { pool.new ≡ pool.old }
{
    let lefts = sorts_of(alloc, left)?;
    let rights = sorts_of(alloc, right)?;
    let (lefts, rights) = (lefts.as_slice(), rights.as_slice());
    if !have_sorts(sig, left, lefts) || !have_sorts(sig, right, rights) {
        return Err(AllocError);
    }
    if !are_of_equal_sort(lefts, rights, pairs) {
        return Err(AllocError);
    }
    if !within(left.len(), keep) {
        return Err(AllocError);
    }
    let mark = pool.mark();
    let joined = join_in(alloc, sig, pool, left, right, pairs, keep)?;
    match joined {
        Some(row) => {
            let count = pool.count();
            pool.release(mark);
            Ok(Some((row, count)))
        }
        None => Ok(None),
    }
}

/// Whether there is a row, it is the written one, and the pool had cells for it.
fn is_made(
    alloc: Global,
    made: Option<(Vec<Term>, usize)>,
    expected: &str,
) -> Result<bool, AllocError> {
    let expected = row_of(alloc, expected)?;
    match made {
        Some((row, count)) => Ok(count > 0 && same_all(row.as_slice(), expected.as_slice())),
        None => Ok(false),
    }
}

#[test]
fn a_whole_row(rt: HostRuntime) -> Result<(), Fail> {
    let alloc = rt.alloc();
    let sig = types(alloc)?;
    let mut pool = Pool::new(alloc);
    let left = row_of(alloc, "?1 var ?1")?;
    let right = row_of(alloc, "var int")?;
    let pairs = pairs_of(alloc, "1=0")?;
    let (left, right, pairs) = (left.as_slice(), right.as_slice(), pairs.as_slice());
    let made = whole_and_count(alloc, &sig, &mut pool, left, right, pairs)?;
    assert!(rt; is_made(alloc, made, "int var int var int")?);
    assert_eq!(rt; pool.count(), 0);
    Ok(())
}

#[test]
fn a_kept_column(rt: HostRuntime) -> Result<(), Fail> {
    let alloc = rt.alloc();
    let sig = types(alloc)?;
    let mut pool = Pool::new(alloc);
    let left = row_of(alloc, "?1 var ?1")?;
    let right = row_of(alloc, "var int")?;
    let pairs = pairs_of(alloc, "1=0")?;
    let (left, right, pairs) = (left.as_slice(), right.as_slice(), pairs.as_slice());
    let made = kept_and_count(alloc, &sig, &mut pool, left, right, pairs, &[0])?;
    assert!(rt; is_made(alloc, made, "int")?);
    assert_eq!(rt; pool.count(), 0);
    Ok(())
}
