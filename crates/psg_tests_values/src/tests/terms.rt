//! Texts of terms, canonical rows and instances.
ghost use Rattle.std.specs.Prelude.{IsTrue};

use super::rows::{TYPE, TYPES, row_of, sorts_of, types};
use psg_terms::{
    Signature, SortId, Term, canonical, has_sort, have_sorts, matching, row_text, term_text,
};
use std::alloc::{AllocError, Global};
use std::test::Fail;

/// The text of the canonical row, if the row has these sorts.
fn canonical_text(
    alloc: Global,
    sig: &Signature,
    row: &[Term],
    sorts: &[SortId],
) -> Result<String, AllocError> {
    if !have_sorts(sig, row, sorts) {
        return Err(AllocError);
    }
    let rows = canonical::canonical(alloc, sig, row)?;
    row_text(alloc, sig, rows.as_slice())
}

/// The text of the canonical row of the row that is written.
fn canonical_of(alloc: Global, text: &str) -> Result<String, AllocError> {
    let sig = types(alloc)?;
    let row = row_of(alloc, text)?;
    let sorts = sorts_of(alloc, row.as_slice())?;
    canonical_text(alloc, &sig, row.as_slice(), sorts.as_slice())
}

/// The text of a term, if it has the sort.
fn text_of(
    alloc: Global,
    sig: &Signature,
    term: &Term,
    sort: SortId,
) -> Result<String, AllocError> {
    if !has_sort(sig, term, sort) {
        return Err(AllocError);
    }
    term_text(alloc, sig, term)
}

/// The text of the term that is written, and how many symbols it has and how deep it is.
fn told(alloc: Global, text: &str, sort: SortId) -> Result<(String, u64, u64), AllocError> {
    let sig = types(alloc)?;
    let row = row_of(alloc, text)?;
    let term = row.as_slice().first().ok_or(AllocError)?;
    let text = text_of(alloc, &sig, term, sort)?;
    Ok((text, term.symbols(), term.depth()))
}

#[test]
fn texts(rt: HostRuntime) -> Result<(), Fail> {
    let list = told(rt.alloc(), "cons int *2", TYPES)?;
    assert_eq!(rt; list.0.as_str(), "cons(int,?2)");
    let nines = canonical_of(rt.alloc(), "?9 ?9 !9")?;
    assert_eq!(rt; nines.as_str(), "?1 ?1 ok");
    Ok(())
}

#[test]
fn deep_term(rt: HostRuntime) -> Result<(), Fail> {
    let mut text = String::new(rt.alloc());
    for _ in 0..1000u32 {
        text.push_str("arr ")?;
    }
    text.push_str("int")?;
    let (text, symbols, depth) = told(rt.alloc(), text.as_str(), TYPE)?;
    assert_eq!(rt; symbols, 1001);
    assert_eq!(rt; depth, 1001);
    assert_eq!(rt; text.len(), 5003);
    Ok(())
}

/// Whether the row of the one text is an instance of that of the other.
fn fits(alloc: Global, special: &str, general: &str) -> Result<bool, AllocError> {
    let special = row_of(alloc, special)?;
    let general = row_of(alloc, general)?;
    matching::is_instance(alloc, special.as_slice(), general.as_slice())
}

#[test]
fn instances(rt: HostRuntime) -> Result<(), Fail> {
    assert!(rt; fits(rt.alloc(), "int int", "?1 ?1")?);
    assert!(rt; !fits(rt.alloc(), "int bool", "?1 ?1")?);
    Ok(())
}

// The numbers have 68,894 digits together, before each is a question mark, and between two a space.
#[test]
fn long_row(rt: HostRuntime) -> Result<(), Fail> {
    let mut row = String::new(rt.alloc());
    for i in 0..16000u32 {
        let number = 16000 - i;
        write!(row, "?{number} ")?;
    }
    let text = canonical_of(rt.alloc(), row.as_str())?;
    assert_eq!(rt; text.len(), 100893);
    Ok(())
}

#[test]
fn numbers(rt: HostRuntime) {
    assert!(rt; canonical::number_of(0, 0xffff_fffe) == Ok(0xffff_ffff));
    assert!(rt; canonical::number_of(0, 0xffff_ffff).is_err());
    assert!(rt; canonical::number_of(0xffff_ffff, 0).is_err());
}
