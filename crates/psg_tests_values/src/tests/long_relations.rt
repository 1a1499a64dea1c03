//! Relations and joins at the limit, and of rows that few other rows cover.
use super::relations::{Joining, joined_sizes, joined_text, relation};
use super::rows::put_each;
use std::alloc::{AllocError, Global};
use std::test::Fail;

/// The constant `int` in each of the columns.
fn wide_row(alloc: Global, width: usize) -> Result<String, AllocError> {
    let mut text = String::new(alloc);
    for _ in 0..width {
        text.push_str("int ")?;
    }
    Ok(text)
}

/// The relation of one row of the given number of columns.
fn width_told(alloc: Global, width: usize) -> Result<String, AllocError> {
    let row = wide_row(alloc, width)?;
    relation(alloc, (row.as_str(), width))
}

// Each of the columns has three letters, and a space or the bar after them.
#[test]
fn limit(rt: HostRuntime) -> Result<(), Fail> {
    assert_eq!(rt; width_told(rt.alloc(), 16_384)?.len(), 65_536);
    assert_eq!(rt; width_told(rt.alloc(), 16_385)?.as_str(), "wide");
    Ok(())
}

/// Pairs of pairs of `int`, which have 2^(n + 1) - 1 symbols.
fn doubled(alloc: Global, n: usize) -> Result<String, AllocError> {
    let mut text = String::from_str(alloc, "int")?;
    for _ in 0..n {
        text = format!(in alloc; "pair {text} {text}")?;
    }
    Ok(text)
}

/// The relation of a row of pairs of 32,767 symbols, and another one.
fn beside_pairs(alloc: Global, other: &str) -> Result<String, AllocError> {
    let mut rows = doubled(alloc, 14)?;
    rows.push_str("\n")?;
    rows.push_str(other)?;
    relation(alloc, (rows.as_str(), 1))
}

#[test]
fn heavy_row_vanishes(rt: HostRuntime) -> Result<(), Fail> {
    for (other, expected) in [
        ("?5", "?1|"),
        ("pair ?1 ?1", "pair(?1,?1)|"),
        ("int", "wide"),
    ] {
        let text = beside_pairs(rt.alloc(), other)?;
        assert_eq!(rt; text.as_str(), expected);
    }
    Ok(())
}

/// The given number of arrays of arrays of `int`, from no array on, and a variable.
fn arrays(alloc: Global, count: usize) -> Result<String, AllocError> {
    let mut rows = String::new(alloc);
    for depth in 0..count {
        for _ in 0..depth {
            rows.push_str("arr ")?;
        }
        rows.push_str("int\n")?;
    }
    rows.push_str("?4")?;
    Ok(rows)
}

#[test]
fn one_row_of_many(rt: HostRuntime) -> Result<(), Fail> {
    let rows = arrays(rt.alloc(), 199)?;
    assert_eq!(rt; rows.as_str().lines().count(), 200);
    let text = relation(rt.alloc(), (rows.as_str(), 1))?;
    assert_eq!(rt; text.as_str(), "?1|");
    Ok(())
}

/// `bool` before the given number of arrays of arrays of `int`, from no array on, and a variable before one array.
fn pairs_of_arrays(alloc: Global, count: usize) -> Result<String, AllocError> {
    let mut rows = String::new(alloc);
    for depth in 0..count {
        rows.push_str("bool ")?;
        for _ in 0..depth {
            rows.push_str("arr ")?;
        }
        rows.push_str("int\n")?;
    }
    rows.push_str("?3 arr int")?;
    Ok(rows)
}

// The row with a variable stays in place of the one with one array. It has 12 letters with the bar; one with n arrays
// has 9 + 5n, and n is 0 or 2 to 17.
#[test]
fn one_row_of_a_few(rt: HostRuntime) -> Result<(), Fail> {
    let rows = pairs_of_arrays(rt.alloc(), 18)?;
    let text = relation(rt.alloc(), (rows.as_str(), 2))?;
    assert_eq!(rt; text.as_str().len(), 925);
    assert!(rt; text.as_str().starts_with("?1 arr(int)|bool arr(arr("));
    Ok(())
}

/// The digits of a number below 256, as arrays for 1 and `var` for 0, the last one innermost.
fn put_digits(text: &mut String, number: u32) -> Result<(), AllocError> {
    let mut rest = number;
    for _ in 0..8 {
        text.push_str(if rest % 2 == 1 { "arr " } else { "var " })?;
        rest /= 2;
    }
    text.push_str("int")
}

/// The given number of rows with `bool` before different terms, and one with `int` before a variable.
fn many_rows(alloc: Global, count: u32) -> Result<String, AllocError> {
    let mut rows = String::from_str(alloc, "int ?1")?;
    for number in 0..count {
        rows.push_str("\nbool ")?;
        put_digits(&mut rows, number)?;
    }
    Ok(rows)
}

#[test]
fn one_join_of_many(rt: HostRuntime) -> Result<(), Fail> {
    let rows = many_rows(rt.alloc(), 199)?;
    for (keep, expected) in [("0", "bool|int|"), ("1", "?1|")] {
        let what = Joining {
            left: (rows.as_str(), 2),
            right: ("?1", 1),
            pairs: "",
            keep,
        };
        let text = joined_text(rt.alloc(), what)?;
        assert_eq!(rt; text.as_str(), expected);
    }
    Ok(())
}

// One row has three pairs of 8,191 symbols each.
#[test]
fn heavy_join_vanishes(rt: HostRuntime) -> Result<(), Fail> {
    let heavy = doubled(rt.alloc(), 12)?;
    for (rows, expected) in [
        ("bool ?1 ?2\nint ?1 pair ?1 ?1", (1, 8_192)),
        ("int ?1 pair ?1 ?1", (0, 1)),
    ] {
        let what = Joining {
            left: (rows, 3),
            right: (heavy.as_str(), 1),
            pairs: "1=0",
            keep: "1 2",
        };
        let found = joined_sizes(rt.alloc(), what)?;
        assert_eq!(rt; found, expected);
    }
    Ok(())
}

/// The sizes of the join of one constant in a number of columns with one in a number of other columns.
fn wide_sizes(alloc: Global, left: usize, right: usize) -> Result<(usize, u64), AllocError> {
    let lefts = wide_row(alloc, left)?;
    let rights = wide_row(alloc, right)?;
    let mut keep = String::new(alloc);
    put_each(&mut keep, ("", " "), 0, left.saturating_add(right))?;
    let what = Joining {
        left: (lefts.as_str(), left),
        right: (rights.as_str(), right),
        pairs: "0=0",
        keep: keep.as_str(),
    };
    joined_sizes(alloc, what)
}

#[test]
fn limit_of_joins(rt: HostRuntime) -> Result<(), Fail> {
    assert_eq!(rt; wide_sizes(rt.alloc(), 8_192, 8_192)?, (1, 16_384));
    assert_eq!(rt; wide_sizes(rt.alloc(), 8_192, 8_193)?, (0, 1));
    Ok(())
}

/// The rows of a chain of equations in which each variable is a pair of the one before it, and of one with a pair of
/// equal terms at the end.
fn chain(alloc: Global, count: usize) -> Result<String, AllocError> {
    let mut text = String::new(alloc);
    for i in 0..count {
        write!(text, "?{i} pair ?{i} ?{i} ")?;
    }
    text.push_str("int\n")?;
    put_each(
        &mut text,
        ("?", " "),
        1,
        count.saturating_mul(2).saturating_sub(1),
    )?;
    text.push_str("pair ?0 ?0 bool")?;
    Ok(text)
}

/// Each variable of a chain of the given number of equations with the pair of the one before it.
fn chain_pairs(alloc: Global, count: usize) -> Result<String, AllocError> {
    let mut pairs = String::new(alloc);
    for i in 1..count {
        let pair = i.saturating_mul(2).saturating_sub(1);
        let variable = i.saturating_mul(2);
        let middle = i.saturating_sub(1);
        write!(pairs, "{pair}={middle} {variable}={middle} ")?;
    }
    Ok(pairs)
}

/// The last pair of a chain of the given number of equations, and of the row beside it.
fn chained(alloc: Global, count: usize) -> Result<String, AllocError> {
    let lefts = chain(alloc, count)?;
    let middles = count.saturating_sub(1);
    let mut middle = String::new(alloc);
    put_each(&mut middle, ("?", " "), 1, middles)?;
    let pairs = chain_pairs(alloc, count)?;
    let last = count.saturating_mul(2).saturating_sub(1);
    let keep = format!(in alloc; "{last}")?;
    let what = Joining {
        left: (lefts.as_str(), last.saturating_add(2)),
        right: (middle.as_str(), middles),
        pairs: pairs.as_str(),
        keep: keep.as_str(),
    };
    joined_text(alloc, what)
}

// The chain's pair has 2^(n + 1) - 1 symbols: 16,383 within the limit, and 2^41 - 1, of which the halves are compared
// as cells. Each is an instance of the other row.
#[test]
fn chains(rt: HostRuntime) -> Result<(), Fail> {
    for count in [13, 18, 40] {
        let text = chained(rt.alloc(), count)?;
        assert_eq!(rt; text.as_str(), "pair(?1,?1)|", "{count}");
    }
    Ok(())
}
