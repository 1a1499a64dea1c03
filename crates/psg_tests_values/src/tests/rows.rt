//! Rows of terms, pairs of columns and columns, written as texts.
ghost use Rattle.std.specs.Prelude.{◌<◌, IsTrue};
ghost use Rattle.psg_terms.specs.Kept.{numbers_of};
ghost use Rattle.psg_unify.specs.Pairs.{AreOfEqualSort};

use super::signatures::signature;
use psg_terms::{ConId, Node, Signature, SortId, Term};
use std::alloc::{AllocError, Global};

pub(super) const UNIT: SortId = SortId(0);

pub(super) const TYPE: SortId = SortId(1);

pub(super) const TYPES: SortId = SortId(2);

/// The signature of the rows.
pub(super) fn types(alloc: Global) -> Result<Signature, AllocError> {
    signature(
        alloc,
        "Unit = ok\nType = int, bool, arr Type, var Type, pair Type Type\nTypes = nil, cons Type Types",
    )
}

/// The number and the arity of a constructor, or `None` where the word is none.
fn constructor_of(word: &str) -> Option<(ConId, usize)> {
    match word {
        "ok" => Some((ConId(0), 0)),
        "int" => Some((ConId(1), 0)),
        "bool" => Some((ConId(2), 0)),
        "arr" => Some((ConId(3), 1)),
        "var" => Some((ConId(4), 1)),
        "pair" => Some((ConId(5), 2)),
        "nil" => Some((ConId(6), 0)),
        "cons" => Some((ConId(7), 2)),
        _ => None,
    }
}

/// The variable of the word.
fn variable(alloc: Global, word: &str) -> Result<Term, AllocError> {
    let (sort, number) = if let Some(number) = word.strip_prefix('!') {
        (UNIT, number)
    } else if let Some(number) = word.strip_prefix('*') {
        (TYPES, number)
    } else {
        (TYPE, word.strip_prefix('?').unwrap_or(""))
    };
    match number.parse::<u32>() {
        Ok(number) => Term::var(alloc, sort, number),
        Err(_) => Err(AllocError),
    }
}

/// The constructor over terms that are taken from the end of a list, the first argument last.
fn applied(
    alloc: Global,
    con: ConId,
    arity: usize,
    stack: &mut Vec<Term>,
) -> Result<Term, AllocError> {
    let mut args = Vec::new(alloc);
    for _ in 0..arity {
        args.push(stack.pop().ok_or(AllocError)?)?;
    }
    Term::apply(alloc, con, args)
}

/// The row of words with each constructor before its arguments, as `pair int ?1`. The word `?1` is a variable of
/// `Type`, `!1` one of `Unit` and `*1` one of `Types`.
pub(super) fn row_of(alloc: Global, text: &str) -> Result<Vec<Term>, AllocError> {
    let mut stack = Vec::new(alloc);
    for word in text.rsplit(' ') {
        if word.is_empty() {
            continue;
        }
        let term = match constructor_of(word) {
            Some((con, arity)) => applied(alloc, con, arity, &mut stack)?,
            None => variable(alloc, word)?,
        };
        stack.push(term)?;
    }
    stack.as_mut_slice().reverse();
    Ok(stack)
}

/// The sort of a term of the signature of the rows.
fn sort_of(term: &Term) -> SortId {
    match term.node() {
        Node::Var { sort, .. } => *sort,
        Node::Con { con, .. } => {
            if con.0 == 0 {
                UNIT
            } else if con.0 < 6 {
                TYPE
            } else {
                TYPES
            }
        }
    }
}

/// The sorts of a row's terms.
pub(super) fn sorts_of(alloc: Global, row: &[Term]) -> Result<Vec<SortId>, AllocError> {
    let mut sorts = Vec::new(alloc);
    for term in row {
        sorts.push(sort_of(term))?;
    }
    Ok(sorts)
}

fn number(word: &str) -> Result<usize, AllocError> {
    match word.parse::<usize>() {
        Ok(number) => Ok(number),
        Err(_) => Err(AllocError),
    }
}

/// The columns of the text, as `3 1`.
pub(super) fn columns_of(alloc: Global, text: &str) -> Result<Vec<usize>, AllocError> {
    let mut columns = Vec::new(alloc);
    for word in text.split_whitespace() {
        columns.push(number(word)?)?;
    }
    Ok(columns)
}

/// The pairs of columns of the text, as `1=0 2=2`.
pub(super) fn pairs_of(alloc: Global, text: &str) -> Result<Vec<(usize, usize)>, AllocError> {
    let mut pairs = Vec::new(alloc);
    for word in text.split_whitespace() {
        let (left, right) = word.split_once('=').ok_or(AllocError)?;
        pairs.push((number(left)?, number(right)?))?;
    }
    Ok(pairs)
}

/// Whether the columns of each pair have one sort.
pub(super) fn are_of_equal_sort(left: &[SortId], right: &[SortId], pairs: &[(usize, usize)]) -> bool
    ensures { IsTrue result → AreOfEqualSort (numbers_of left.now) (numbers_of right.now) pairs.now }
{
    for i in 0..pairs.len() {
        let pair = pairs[i];
        if pair.0 >= left.len() || pair.1 >= right.len() {
            return false;
        }
        if left[pair.0].0 != right[pair.1].0 {
            return false;
        }
    }
    true
}

/// Words of a text, as many as given, of which each is made of a number from the first one on.
pub(super) fn put_each(
    text: &mut String,
    (before, after): (&str, &str),
    first: usize,
    count: usize,
) -> Result<(), AllocError> {
    for i in 0..count {
        let n = first.saturating_add(i);
        write!(text, "{before}{n}{after}")?;
    }
    Ok(())
}
