//! Joins that are not written out, and cells that are matched with a row.
use super::relations::within;
use super::rows::{are_of_equal_sort, columns_of, pairs_of, row_of, sorts_of, types};
use psg_terms::{Signature, Term, have_sorts};
use psg_unify::UnwrittenRow;
use std::alloc::{AllocError, Global};
use std::test::Fail;

/// The columns of these numbers of the row that two rows make, where they make one.
fn solved(
    alloc: Global,
    sig: &Signature,
    left: &[Term],
    right: &[Term],
    pairs: &[(usize, usize)],
    keep: &[usize],
) -> Result<Option<UnwrittenRow>, AllocError> {
    let lefts = sorts_of(alloc, left)?;
    let rights = sorts_of(alloc, right)?;
    let (lefts, rights) = (lefts.as_slice(), rights.as_slice());
    if !have_sorts(sig, left, lefts) || !have_sorts(sig, right, rights) {
        return Err(AllocError);
    }
    if !are_of_equal_sort(lefts, rights, pairs) {
        return Err(AllocError);
    }
    if !within(left.len().saturating_add(right.len()), keep) {
        return Err(AllocError);
    }
    UnwrittenRow::of(alloc, sig, left, right, pairs, keep)
}

/// Whether the kept columns of two written rows are an instance of each of the written rows, or, where this is not
/// expected, of none of them.
fn each_is(
    alloc: Global,
    sig: &Signature,
    rows: (&str, &str),
    pairs: &str,
    keep: &str,
    generals: &[&str],
    expected: bool,
) -> Result<bool, AllocError> {
    let left = row_of(alloc, rows.0)?;
    let right = row_of(alloc, rows.1)?;
    let pairs = pairs_of(alloc, pairs)?;
    let keep = columns_of(alloc, keep)?;
    let (left, right, keep) = (left.as_slice(), right.as_slice(), keep.as_slice());
    match solved(alloc, sig, left, right, pairs.as_slice(), keep)? {
        Some(row) => {
            for text in generals {
                let general = row_of(alloc, text)?;
                if row.is_instance_of(alloc, sig, general.as_slice())? != expected {
                    return Ok(false);
                }
            }
            Ok(true)
        }
        None => Ok(false),
    }
}

#[test]
fn a_bound_variable(rt: HostRuntime) -> Result<(), Fail> {
    let alloc = rt.alloc();
    let sig = types(alloc)?;
    // The join is `int var int var int`.
    let rows = ("?1 var ?1", "var int");
    let yes = ["?1 ?2 ?2", "?1 var ?1 ?2", "int ?1 ?1", "?1 var ?2 var ?1"];
    let no = [
        "?1 ?1 ?2",
        "bool ?1 ?2",
        "?1 ?2 arr ?1",
        "?1 ?2",
        "var ?1 ?2 ?3",
    ];
    assert!(rt; each_is(alloc, &sig, rows, "1=0", "0 1 2", &yes, true)?);
    assert!(rt; each_is(alloc, &sig, rows, "1=0", "0 1 2", &no, false)?);
    assert!(rt;
        each_is(
            alloc,
            &sig,
            rows,
            "1=0",
            "2 0",
            &["var ?1 ?1", "?1 int"],
            true
        )?
    );
    assert!(rt;
        each_is(
            alloc,
            &sig,
            rows,
            "1=0",
            "2 0",
            &["?1 ?1", "?1 var ?2"],
            false
        )?
    );
    Ok(())
}

#[test]
fn open_columns(rt: HostRuntime) -> Result<(), Fail> {
    let alloc = rt.alloc();
    let sig = types(alloc)?;
    // The join is `?1 ?2 ?1`.
    let rows = ("?1 ?2", "?1");
    assert!(rt;
        each_is(
            alloc,
            &sig,
            rows,
            "0=0",
            "0 1 2",
            &["?1 ?2 ?1", "?1 ?2 ?3"],
            true
        )?
    );
    let no = ["?1 ?1 ?2", "?1 ?2 ?2", "arr ?1 ?2 ?3", "?1 ?1 ?1"];
    assert!(rt; each_is(alloc, &sig, rows, "0=0", "0 1 2", &no, false)?);
    Ok(())
}

#[test]
fn a_sort_of_one_constant(rt: HostRuntime) -> Result<(), Fail> {
    let alloc = rt.alloc();
    let sig = types(alloc)?;
    // The join is `ok ok ?1`: `ok` is all that there is of its sort.
    let rows = ("!1 !2", "?1");
    let yes = ["!1 !1 ?1", "ok !1 ?1", "!1 ok ?1", "ok ok ?1"];
    assert!(rt; each_is(alloc, &sig, rows, "", "0 1 2", &yes, true)?);
    assert!(rt;
        each_is(
            alloc,
            &sig,
            rows,
            "",
            "0 1 2",
            &["!1 !2 int", "ok ok arr ?1"],
            false
        )?
    );
    Ok(())
}

#[test]
fn equal_terms_of_other_cells(rt: HostRuntime) -> Result<(), Fail> {
    let alloc = rt.alloc();
    let sig = types(alloc)?;
    // The join is `?1 pair ?1 ?1 pair ?1 ?1 ?1`: its second and third columns are equal terms, but not one cell.
    let rows = ("?1 pair ?1 ?1", "pair ?1 ?2 ?1");
    assert!(rt; each_is(alloc, &sig, rows, "1=0", "0 1 2 3", &["?1 ?2 ?2 ?1"], true)?);
    assert!(rt;
        each_is(
            alloc,
            &sig,
            rows,
            "1=0",
            "0 1 2 3",
            &["?1 ?2 ?2 ?2", "?1 ?1 ?2 ?3"],
            false
        )?
    );
    Ok(())
}

#[test]
fn no_join(rt: HostRuntime) -> Result<(), Fail> {
    let alloc = rt.alloc();
    let sig = types(alloc)?;
    let left = row_of(alloc, "arr ?1 ?1")?;
    let right = row_of(alloc, "?1 ?1")?;
    let pairs = pairs_of(alloc, "0=0 1=1")?;
    let (left, right, pairs) = (left.as_slice(), right.as_slice(), pairs.as_slice());
    assert!(rt; solved(alloc, &sig, left, right, pairs, &[0])?.is_none());
    Ok(())
}

#[test]
fn one_cell_in_two_columns(rt: HostRuntime) -> Result<(), Fail> {
    let alloc = rt.alloc();
    let sig = types(alloc)?;
    // The kept columns are `?1 var ?1 ?1`, the first and the third of them one cell.
    let rows = ("?1 var ?1", "?1");
    let yes = ["?1 var ?1 ?1", "?1 ?2 ?1"];
    assert!(rt; each_is(alloc, &sig, rows, "0=0", "0 1 0", &yes, true)?);
    assert!(rt; each_is(alloc, &sig, rows, "0=0", "0 1 0", &["?1 ?2 ?2"], false)?);
    Ok(())
}
