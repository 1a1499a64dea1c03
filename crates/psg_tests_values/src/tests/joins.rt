//! Joins of small rows by hand.
ghost use Rattle.std.specs.Prelude.{IfOk, IfSome};
ghost use Rattle.psg_terms.specs.Signature.{AreTerms};

use super::rows::{are_of_equal_sort, pairs_of, row_of, sorts_of, types};
use psg_terms::{Signature, Term, have_sorts, row_text};
use psg_unify::join_rows;
use std::alloc::{AllocError, Global};
use std::test::Fail;

/// The join of two rows that can be joined.
fn joined(
    alloc: Global,
    sig: &Signature,
    left: &[Term],
    right: &[Term],
    pairs: &[(usize, usize)],
) -> Result<Option<Vec<Term>>, AllocError>
    ensures { IfOk result (λ o. IfSome o (λ row. AreTerms sig.now row.items)) }
{
    let lefts = sorts_of(alloc, left)?;
    let rights = sorts_of(alloc, right)?;
    let (lefts, rights) = (lefts.as_slice(), rights.as_slice());
    if !have_sorts(sig, left, lefts) || !have_sorts(sig, right, rights) {
        return Err(AllocError);
    }
    if !are_of_equal_sort(lefts, rights, pairs) {
        return Err(AllocError);
    }
    let row = join_rows(alloc, sig, left, right, pairs)?;
    Ok(row)
}

/// How many symbols the row's first column has, at most 2^64 - 1, and 0 where it has no column.
fn first_size(row: &[Term]) -> u64 {
    match row.first() {
        Some(term) => term.symbols(),
        None => 0,
    }
}

/// The join of two rows that are written: how many symbols its first column has and, where these are few, its text.
pub(super) fn join(
    alloc: Global,
    left: &str,
    right: &str,
    pairs: &str,
) -> Result<(u64, String), AllocError> {
    let sig = types(alloc)?;
    let left = row_of(alloc, left)?;
    let right = row_of(alloc, right)?;
    let pairs = pairs_of(alloc, pairs)?;
    let Some(row) = joined(
        alloc,
        &sig,
        left.as_slice(),
        right.as_slice(),
        pairs.as_slice(),
    )?
    else {
        return Ok((0, String::from_str(alloc, "nothing")?));
    };
    let size = first_size(row.as_slice());
    if size > 1_000 {
        return Ok((size, String::from_str(alloc, "a long text")?));
    }
    let text = row_text(alloc, &sig, row.as_slice())?;
    Ok((size, text))
}

#[test]
fn small_rows(rt: HostRuntime) -> Result<(), Fail> {
    for (left, right, pairs, expected) in [
        // equal columns
        ("?1 var ?1", "var int", "1=0", "int var(int) var(int)"),
        ("?1", "arr ?1", "0=0", "arr(?1) arr(?1)"),
        (
            "pair ?1 ?2 ?1",
            "pair ?2 int ?2",
            "0=0 1=1",
            "pair(?1,int) ?1 pair(?1,int) ?1",
        ),
        // numbers of the variables
        ("?9 ?9 !1", "", "", "?1 ?1 ok"),
        ("?7 ?1", "?1 ?7 ?1", "", "?1 ?2 ?3 ?4 ?3"),
        ("!1 ?1", "?2 !1", "0=1", "ok ?1 ?2 ok"),
        // clashes
        ("int int", "?1 ?1", "0=0 1=1", "int int int int"),
        ("int bool", "?1 ?1", "0=0 1=1", "nothing"),
        ("pair ?1 ?1", "pair int arr ?1", "0=0", "nothing"),
        // circles: ?1 = arr(?1), and ?1 = arr(?2) with ?2 = arr(?1)
        ("arr ?1 ?1", "?1 ?1", "0=0 1=1", "nothing"),
        (
            "?1 ?2 arr ?1 arr ?2",
            "?1 ?2 ?2 ?1",
            "0=0 1=1 2=2 3=3",
            "nothing",
        ),
    ] {
        let (_size, text) = join(rt.alloc(), left, right, pairs)?;
        assert_eq!(rt; text.as_str(), expected, "{left} and {right}");
    }
    Ok(())
}
