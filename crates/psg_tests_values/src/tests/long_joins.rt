//! Joins of rows that a slow unifier would not end on.
use super::joins::join;
use super::rows::put_each;
use std::alloc::{AllocError, Global};
use std::test::Fail;

/// ?b, ?b+1 .. and then pair(?b+1,?b+1), pair(?b+2,?b+2) .., as many of each.
fn put_chain(text: &mut String, base: usize, count: usize) -> Result<(), AllocError> {
    put_each(text, ("?", " "), base, count)?;
    for i in 0..count {
        let n = base.saturating_add(i).saturating_add(1);
        write!(text, "pair ?{n} ?{n} ")?;
    }
    Ok(())
}

/// ?b, ?b+1 .., twice.
fn put_twice(text: &mut String, base: usize, count: usize) -> Result<(), AllocError> {
    put_each(text, ("?", " "), base, count)?;
    put_each(text, ("?", " "), base, count)
}

/// Pairs each of the given number of columns with the same column of the other row, from the last one on.
fn each(alloc: Global, count: usize) -> Result<String, AllocError> {
    let mut pairs = String::new(alloc);
    for i in 0..count {
        let n = count - 1 - i;
        write!(pairs, "{n}={n} ")?;
    }
    Ok(pairs)
}

/// The size of the first column of a chain of equations ?1 = pair(?2,?2), ?2 = pair(?3,?3) and so on.
fn chain_size(alloc: Global, count: usize) -> Result<u64, AllocError> {
    let mut left = String::new(alloc);
    let mut right = String::new(alloc);
    put_chain(&mut left, 1, count)?;
    put_twice(&mut right, 1, count)?;
    let pairs = each(alloc, count.saturating_mul(2))?;
    let (size, _text) = join(alloc, left.as_str(), right.as_str(), pairs.as_str())?;
    Ok(size)
}

/// The size of the first column of two chains that are made equal last.
fn chains_size(alloc: Global, count: usize) -> Result<u64, AllocError> {
    let mut left = String::new(alloc);
    let mut right = String::new(alloc);
    put_chain(&mut left, 1, count)?;
    put_chain(&mut left, 10_000, count)?;
    put_twice(&mut right, 1, count)?;
    put_twice(&mut right, 10_000, count)?;
    let half = count.saturating_mul(2);
    let mut pairs = each(alloc, half.saturating_mul(2))?;
    write!(pairs, "0={half}")?;
    let (size, _text) = join(alloc, left.as_str(), right.as_str(), pairs.as_str())?;
    Ok(size)
}

// A chain of n equations has 2^n places for its last variable and a constructor for each two: 2^(n + 1) - 1 symbols.
#[test]
fn chains(rt: HostRuntime) -> Result<(), Fail> {
    assert_eq!(rt; chain_size(rt.alloc(), 60)?, 0x1fff_ffff_ffff_ffff);
    assert_eq!(rt; chains_size(rt.alloc(), 60)?, 0x1fff_ffff_ffff_ffff);
    assert_eq!(rt; chain_size(rt.alloc(), 500)?, u64::MAX);
    Ok(())
}

/// The pairs of the given number of rows that are variables of the numbers from 1 on.
#[derive(Clone, Copy)]
enum Net {
    /// Each column with itself and with the next one.
    Line,
    /// Each left column with the first right one.
    Left,
    /// The first left column with each right one.
    Right,
}

fn net_pairs(alloc: Global, net: Net, count: usize) -> Result<String, AllocError> {
    let mut pairs = String::new(alloc);
    match net {
        Net::Line => {
            for i in 1..count {
                let before = i.saturating_sub(1);
                write!(pairs, "{before}={before} {before}={i} ")?;
            }
        }
        Net::Left => put_each(&mut pairs, ("", "=0 "), 0, count)?,
        Net::Right => put_each(&mut pairs, ("0=", " "), 0, count)?,
    }
    Ok(pairs)
}

/// The size of the first of many variables that are all made equal.
fn net_size(alloc: Global, net: Net, count: usize) -> Result<u64, AllocError> {
    let mut row = String::new(alloc);
    put_each(&mut row, ("?", " "), 1, count)?;
    let pairs = net_pairs(alloc, net, count)?;
    let (size, _text) = join(alloc, row.as_str(), row.as_str(), pairs.as_str())?;
    Ok(size)
}

#[test]
fn long_rows(rt: HostRuntime) -> Result<(), Fail> {
    assert_eq!(rt; net_size(rt.alloc(), Net::Line, 16_000)?, 1);
    assert_eq!(rt; net_size(rt.alloc(), Net::Left, 16_000)?, 1);
    assert_eq!(rt; net_size(rt.alloc(), Net::Right, 16_000)?, 1);
    Ok(())
}

/// The size of a term of the given number of nested constructors, joined with itself.
fn nested_size(alloc: Global, count: usize) -> Result<u64, AllocError> {
    let mut row = String::new(alloc);
    for _ in 0..count {
        row.push_str("arr ")?;
    }
    row.push_str("?1")?;
    let (size, _text) = join(alloc, row.as_str(), row.as_str(), "0=0")?;
    Ok(size)
}

#[test]
fn deep_terms(rt: HostRuntime) -> Result<(), Fail> {
    assert_eq!(rt; nested_size(rt.alloc(), 9_000)?, 9_001);
    assert_eq!(rt; nested_size(rt.alloc(), 32_768)?, 32_769);
    Ok(())
}
