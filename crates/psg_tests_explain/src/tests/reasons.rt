//! Reasons of equations of terms with much sharing.
use psg_defread::read_definition;
use psg_explain::reason;
use psg_langs::MINI;
use psg_terms::{ConId, SortId, Term};
use std::alloc::{AllocError, Global};
use std::test::Fail;

/// Returns a term that has two shared copies of a smaller one so often, around the variable 9.
fn doubled(alloc: Global, times: usize) -> Result<Term, AllocError> {
    let mut term = Term::var(alloc, SortId(0), 9)?;
    for _ in 0..times {
        let mut both = Vec::new(alloc);
        both.push(term.share()?)?;
        both.push(term)?;
        term = Term::apply(alloc, ConId(1), both)?;
    }
    Ok(term)
}

#[test]
fn large_sides_are_not_walked(rt: HostRuntime) -> Result<(), Fail> {
    let Ok(definition) = read_definition(rt.alloc(), MINI.as_bytes()) else {
        return Err(Fail::from(AllocError));
    };
    let constant = Term::apply(rt.alloc(), ConId(0), Vec::new(rt.alloc()))?;
    let mut equations = Vec::new(rt.alloc());
    equations.push((Term::var(rt.alloc(), SortId(0), 2)?, constant))?;
    let large = doubled(rt.alloc(), 60)?;
    equations.push((large.share()?, large))?;
    let answer = reason(rt.alloc(), &definition.signature, equations.as_slice());
    assert!(rt; answer.is_err());
    Ok(())
}
