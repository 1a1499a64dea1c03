//! Relations of small rows by hand: the most general rows, some of their columns, and joins.
ghost use Rattle.std.specs.Prelude.{◌<◌, All, IsTrue, length};
ghost use Rattle.psg_terms.specs.Kept.{numbers_of};
ghost use Rattle.psg_relation.specs.Choices.{AllHaveSorts, AllWithin};

use super::rows::{TYPE, are_of_equal_sort, columns_of, pairs_of, row_of, types};
use psg_relation::laws::{some_join, some_projection, some_relation};
use psg_relation::{Rel, RelFault, RelRow, join, project, select};
use psg_terms::{Signature, SortId, have_sorts, row_text};
use std::alloc::{AllocError, Global};
use std::test::Fail;

/// Whether each row has these sorts.
fn all_sorted(sig: &Signature, rows: &[RelRow], sorts: &[SortId]) -> bool
    ensures { IsTrue result → AllHaveSorts sig.now rows.now (numbers_of sorts.now) }
{
    for row in rows {
        if !have_sorts(sig, row.terms(), sorts) {
            return false;
        }
    }
    true
}

/// Whether the columns are below the number.
pub(super) fn within(count: usize, keep: &[usize]) -> bool
    ensures { IsTrue result → All (λ k. k < count) keep.now }
{
    for place in keep {
        if *place >= count {
            return false;
        }
    }
    true
}

/// Whether each row has the columns.
fn all_within(rows: &[RelRow], keep: &[usize]) -> bool
    ensures { IsTrue result → AllWithin rows.now keep.now }
{
    for row in rows {
        if !within(row.terms().len(), keep) {
            return false;
        }
    }
    true
}

/// A relation and the sorts of its columns.
#[derive(Drop)]
struct Side {
    rel: Rel,
    sorts: Vec<SortId>,
}

/// The rows of a text, one on each line, and no row where the text is empty.
fn rows_of(alloc: Global, text: &str) -> Result<Vec<RelRow>, AllocError> {
    let mut rows = Vec::new(alloc);
    for line in text.lines() {
        rows.push(RelRow::new(row_of(alloc, line)?))?;
    }
    Ok(rows)
}

/// The relation of rows of these sorts.
fn checked(
    alloc: Global,
    sig: &Signature,
    rows: &[RelRow],
    sorts: &[SortId],
) -> Result<Rel, RelFault> {
    if !all_sorted(sig, rows, sorts) {
        return Err(RelFault::Memory);
    }
    Rel::of(alloc, sig, rows)
}

/// The relation of the rows of a text, of the given number of columns of `Type`.
fn one_side(
    alloc: Global,
    sig: &Signature,
    (text, width): (&str, usize),
) -> Result<Side, RelFault> {
    let rows = rows_of(alloc, text)?;
    let sorts = vec![in alloc; TYPE; width]?;
    let rel = checked(alloc, sig, rows.as_slice(), sorts.as_slice())?;
    Ok(Side { rel, sorts })
}

/// The texts of the rows of the given number of columns of `Type`, each with a bar after it.
fn shown(alloc: Global, sig: &Signature, rel: &Rel, width: usize) -> Result<String, AllocError> {
    let sorts = vec![in alloc; TYPE; width]?;
    let mut text = String::new(alloc);
    for row in rel.rows() {
        if !have_sorts(sig, row.terms(), sorts.as_slice()) {
            return Err(AllocError);
        }
        let own = row_text(alloc, sig, row.terms())?;
        text.push_str(own.as_str())?;
        text.push_str("|")?;
    }
    Ok(text)
}

/// What a call answers: the texts of the rows, or `wide`, or `memory`.
fn told(
    alloc: Global,
    sig: &Signature,
    answer: Result<Rel, RelFault>,
    width: usize,
) -> Result<String, AllocError> {
    match answer {
        Ok(rel) => shown(alloc, sig, &rel, width),
        Err(RelFault::Wide) => String::from_str(alloc, "wide"),
        Err(RelFault::Memory) => String::from_str(alloc, "memory"),
    }
}

/// The relation of rows of the given width.
pub(super) fn relation(alloc: Global, rows: (&str, usize)) -> Result<String, AllocError> {
    let sig = types(alloc)?;
    match one_side(alloc, &sig, rows) {
        Ok(one) => shown(alloc, &sig, &one.rel, rows.1),
        Err(fault) => told(alloc, &sig, Err(fault), rows.1),
    }
}

#[test]
fn most_general_rows(rt: HostRuntime) -> Result<(), Fail> {
    for (rows, width, expected) in [
        ("bool\narr ?7\narr int", 1, "arr(?1)|bool|"),
        ("int int\n?3 ?3\n?3 ?4", 2, "?1 ?2|"),
        ("int int\n?3 ?3", 2, "?1 ?1|"),
        ("int\nint", 1, "int|"),
        ("?9\n?8\n?9", 1, "?1|"),
        (
            "var int\narr bool\narr int",
            1,
            "arr(bool)|arr(int)|var(int)|",
        ),
    ] {
        let text = relation(rt.alloc(), (rows, width))?;
        assert_eq!(rt; text.as_str(), expected);
    }
    Ok(())
}

/// Whether there are no rows, how many there are, their weight and their depth.
fn sizes(rel: &Rel) -> (bool, usize, u64, u64) {
    (
        rel.is_empty(),
        rel.rows().len(),
        rel.weight(),
        rel.deepest(),
    )
}

#[test]
fn weight_and_depth(rt: HostRuntime) -> Result<(), Fail> {
    let sig = types(rt.alloc())?;
    let none = one_side(rt.alloc(), &sig, ("", 1))?;
    assert_eq!(rt; sizes(&none.rel), (true, 0, 0, 0));
    let one = one_side(rt.alloc(), &sig, ("pair ?1 arr int", 1))?;
    assert_eq!(rt; sizes(&one.rel), (false, 1, 4, 3));
    Ok(())
}

#[test]
fn relations_exist(rt: HostRuntime) -> Result<(), Fail> {
    let sig = types(rt.alloc())?;
    some_relation(&sig);
    some_projection(&sig);
    some_join(&sig);
    Ok(())
}

/// The columns of a relation of these sorts.
fn kept(
    alloc: Global,
    sig: &Signature,
    rel: &Rel,
    sorts: &[SortId],
    keep: &[usize],
) -> Result<Rel, RelFault> {
    let rows = rel.rows();
    if !all_sorted(sig, rows, sorts) {
        return Err(RelFault::Memory);
    }
    if !all_within(rows, keep) {
        return Err(RelFault::Memory);
    }
    project(alloc, sig, rel, keep)
}

/// Some columns of the relation of rows of the given width.
fn columns(alloc: Global, rows: (&str, usize), keep: &str) -> Result<String, AllocError> {
    let sig = types(alloc)?;
    let keep = columns_of(alloc, keep)?;
    let Ok(one) = one_side(alloc, &sig, rows) else {
        return Err(AllocError);
    };
    let part = kept(alloc, &sig, &one.rel, one.sorts.as_slice(), keep.as_slice());
    told(alloc, &sig, part, keep.len())
}

#[test]
fn kept_columns(rt: HostRuntime) -> Result<(), Fail> {
    for (rows, keep, expected) in [
        ("int bool\nbool bool", "1", "bool|"),
        ("?1 ?2\nint ?2", "1 0", "?1 ?2|"),
        ("?2 arr ?2\nbool int", "1 0", "arr(?1) ?1|int bool|"),
    ] {
        let text = columns(rt.alloc(), (rows, 2), keep)?;
        assert_eq!(rt; text.as_str(), expected);
    }
    Ok(())
}

/// What the rows make where their own columns agree on the pairs.
fn selected(
    alloc: Global,
    sig: &Signature,
    rows: &[RelRow],
    sorts: &[SortId],
    pairs: &[(usize, usize)],
    keep: &[usize],
) -> Result<Rel, RelFault> {
    if !all_sorted(sig, rows, sorts) {
        return Err(RelFault::Memory);
    }
    if !are_of_equal_sort(sorts, sorts, pairs) {
        return Err(RelFault::Memory);
    }
    if !all_within(rows, keep) {
        return Err(RelFault::Memory);
    }
    select(alloc, sig, rows, pairs, keep)
}

/// The last of two columns, of the rows that agree on the pairs.
fn column(alloc: Global, rows: &str, pairs: &str) -> Result<String, AllocError> {
    let sig = types(alloc)?;
    let rows = rows_of(alloc, rows)?;
    let pairs = pairs_of(alloc, pairs)?;
    let answer = selected(
        alloc,
        &sig,
        rows.as_slice(),
        &[TYPE, TYPE],
        pairs.as_slice(),
        &[1],
    );
    told(alloc, &sig, answer, 1)
}

// Raw rows would give `?1`, which has the selected one as an instance.
#[test]
fn equal_columns(rt: HostRuntime) -> Result<(), Fail> {
    for (rows, pairs, expected) in [
        (
            "arr ?1 ?2\nint bool\n?1 arr ?1\nbool bool",
            "0=1",
            "arr(?1)|bool|",
        ),
        ("int bool\nbool bool", "", "bool|"),
    ] {
        let text = column(rt.alloc(), rows, pairs)?;
        assert_eq!(rt; text.as_str(), expected);
    }
    Ok(())
}

/// The join of two relations.
fn met(
    alloc: Global,
    sig: &Signature,
    left: &Side,
    right: &Side,
    pairs: &[(usize, usize)],
    keep: &[usize],
) -> Result<Rel, RelFault> {
    let lefts = left.sorts.as_slice();
    let rights = right.sorts.as_slice();
    if !all_sorted(sig, left.rel.rows(), lefts) {
        return Err(RelFault::Memory);
    }
    if !all_sorted(sig, right.rel.rows(), rights) {
        return Err(RelFault::Memory);
    }
    if !are_of_equal_sort(lefts, rights, pairs) {
        return Err(RelFault::Memory);
    }
    let width = lefts.len().saturating_add(rights.len());
    if !within(width, keep) {
        return Err(RelFault::Memory);
    }
    join(alloc, sig, &left.rel, &right.rel, pairs, keep)
}

/// Two lists of rows, each with its width, the pairs of columns and the columns that are kept.
#[derive(Clone, Copy)]
pub(super) struct Joining<'a> {
    pub(super) left: (&'a str, usize),
    pub(super) right: (&'a str, usize),
    pub(super) pairs: &'a str,
    pub(super) keep: &'a str,
}

/// The join of rows.
fn joined(alloc: Global, sig: &Signature, what: Joining) -> Result<Rel, RelFault> {
    let left = one_side(alloc, sig, what.left)?;
    let right = one_side(alloc, sig, what.right)?;
    let pairs = pairs_of(alloc, what.pairs)?;
    let keep = columns_of(alloc, what.keep)?;
    met(alloc, sig, &left, &right, pairs.as_slice(), keep.as_slice())
}

/// The texts of the join's rows, or why there are none.
pub(super) fn joined_text(alloc: Global, what: Joining) -> Result<String, AllocError> {
    let sig = types(alloc)?;
    let width = columns_of(alloc, what.keep)?.len();
    told(alloc, &sig, joined(alloc, &sig, what), width)
}

/// How many rows the join has, and their weight; no row and 1 where it is too large.
pub(super) fn joined_sizes(alloc: Global, what: Joining) -> Result<(usize, u64), AllocError> {
    let sig = types(alloc)?;
    match joined(alloc, &sig, what) {
        Ok(rel) => Ok((rel.rows().len(), rel.weight())),
        Err(RelFault::Wide) => Ok((0, 1)),
        Err(RelFault::Memory) => Err(AllocError),
    }
}

#[test]
fn small_joins(rt: HostRuntime) -> Result<(), Fail> {
    for (left, right, pairs, keep, expected) in [
        (
            ("?1 var ?1", 2),
            ("var int", 1),
            "1=0",
            "0 1 2",
            "int var(int) var(int)|",
        ),
        (("arr ?1 ?1", 2), ("?1 ?1", 2), "0=0 1=1", "0", ""),
        (
            ("int bool\nbool bool", 2),
            ("int int", 2),
            "0=0",
            "3 1",
            "int bool|",
        ),
        (
            ("int bool\nbool bool", 2),
            ("int int", 2),
            "0=0 1=1",
            "3 1",
            "",
        ),
        (("var int\nint", 1), ("?1", 1), "0=0", "1", "int|var(int)|"),
        // no rows on one side
        (("", 1), ("?1\nint", 1), "", "0 1", ""),
        (("?1", 1), ("", 1), "0=0", "0", ""),
        // equal rows of two pairs
        (("int\nbool", 1), ("arr ?1", 1), "", "1", "arr(?1)|"),
    ] {
        let what = Joining {
            left,
            right,
            pairs,
            keep,
        };
        let text = joined_text(rt.alloc(), what)?;
        assert_eq!(rt; text.as_str(), expected);
    }
    Ok(())
}
