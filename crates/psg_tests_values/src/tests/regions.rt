//! Rows solved in a pool, read and released.
ghost use Rattle.std.specs.Prelude.{◌≡◌};
ghost use Rattle.psg_unify.specs.Fitting.{Fits};

use super::rows::{are_of_equal_sort, pairs_of, row_of, sorts_of, types};
use psg_pool::Pool;
use psg_terms::matching::same_all;
use psg_terms::{Signature, Term, have_sorts};
use psg_unify::{read_row, solve_in};
use std::alloc::{AllocError, Global};
use std::test::Fail;

/// The row that the cells read as, and how many cells the pool had, which is released.
fn read_and_count(
    alloc: Global,
    sig: &Signature,
    pool: &mut Pool,
    left: &[Term],
    right: &[Term],
    pairs: &[(usize, usize)],
) -> Result<Option<(Vec<Term>, usize)>, AllocError>
    requires { Fits sig.now pool.old }
    ensures { pool.new ≡ pool.old }
{
    let lefts = sorts_of(alloc, left)?;
    let rights = sorts_of(alloc, right)?;
    let (lefts, rights) = (lefts.as_slice(), rights.as_slice());
    if !have_sorts(sig, left, lefts) || !have_sorts(sig, right, rights) {
        return Err(AllocError);
    }
    if !are_of_equal_sort(lefts, rights, pairs) {
        return Err(AllocError);
    }
    let mark = pool.mark();
    let solved = solve_in(alloc, sig, pool, left, right, pairs)?;
    match solved {
        Some(cells) => {
            let count = pool.count();
            match read_row(alloc, sig, pool, cells.as_slice()) {
                Ok(row) => {
                    pool.release(mark);
                    Ok(Some((row, count)))
                }
                Err(error) => {
                    pool.release(mark);
                    Err(error)
                }
            }
        }
        None => Ok(None),
    }
}

/// Whether two written rows solved in the pool are the written one, and the pool had cells for them.
fn is_solved(
    alloc: Global,
    sig: &Signature,
    pool: &mut Pool,
    rows: (&str, &str),
    pairs: &str,
    expected: &str,
) -> Result<bool, AllocError>
    requires { Fits sig.now pool.old }
    ensures { pool.new ≡ pool.old }
{
    let left = row_of(alloc, rows.0)?;
    let right = row_of(alloc, rows.1)?;
    let pairs = pairs_of(alloc, pairs)?;
    let expected = row_of(alloc, expected)?;
    let (left, right) = (left.as_slice(), right.as_slice());
    match read_and_count(alloc, sig, pool, left, right, pairs.as_slice())? {
        Some((row, count)) => Ok(count > 0 && same_all(row.as_slice(), expected.as_slice())),
        None => Ok(false),
    }
}

/// Whether two written rows have no join in the pool.
fn is_refused(
    alloc: Global,
    sig: &Signature,
    pool: &mut Pool,
    rows: (&str, &str),
    pairs: &str,
) -> Result<bool, AllocError>
    requires { Fits sig.now pool.old }
    ensures { pool.new ≡ pool.old }
{
    let left = row_of(alloc, rows.0)?;
    let right = row_of(alloc, rows.1)?;
    let pairs = pairs_of(alloc, pairs)?;
    let (left, right) = (left.as_slice(), right.as_slice());
    let solved = read_and_count(alloc, sig, pool, left, right, pairs.as_slice())?;
    Ok(solved.is_none())
}

#[test]
fn one_pool_for_two_joins(rt: HostRuntime) -> Result<(), Fail> {
    let alloc = rt.alloc();
    let sig = types(alloc)?;
    let mut pool = Pool::new(alloc);
    let first = ("?1 var ?1", "var int");
    assert!(rt; is_solved(alloc, &sig, &mut pool, first, "1=0", "int var int var int")?);
    assert_eq!(rt; pool.count(), 0);
    assert!(rt; is_refused(alloc, &sig, &mut pool, ("arr ?1 ?1", "?1 ?1"), "0=0 1=1")?);
    assert_eq!(rt; pool.count(), 0);
    assert!(rt; is_solved(alloc, &sig, &mut pool, first, "1=0", "int var int var int")?);
    assert_eq!(rt; pool.count(), 0);
    Ok(())
}
