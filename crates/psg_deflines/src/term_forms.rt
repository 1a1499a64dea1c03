//! The forms of lines of terms.
ghost use Rattle.std.specs.Prelude.{ℕ, ◌≡◌, ◌++◌, ◌∷◌, [], Some, None, cond, ◌⊎◌, ◌≤◌, length, IfOk, MatchOption};
ghost use Rattle.std.specs.Prelude.{codes};
ghost use Rattle.psg_deflines.specs.Parts.{texts};
ghost use Rattle.psg_grammar.specs.Sound.{IsKindName};
ghost use Rattle.psg_deflines.specs.TermWalks.{Parts};
ghost use Rattle.psg_deflines.specs.WrittenTerms.{WrittenTerm};
ghost use Rattle.psg_deflines.specs.TailReads.{is_nothing, specimen_of, tree_behind, IsTailFound, HasNoNamedTail};
ghost use Rattle.psg_deflines.specs.TailReads.{IsNamedTailFound};
ghost use Rattle.psg_deflines.specs.Forms.{IsSpaceName, tag};
ghost use Rattle.psg_deflines.specs.LineReads.{IsFormRead};

use crate::lines::Line;
use crate::names::kind_name;
use crate::tails::{Behind, Tail, line_tail};
use crate::terms::LineTerm;
use crate::trees::LineTree;
use psg_terms::{Seq, Txt};
use std::alloc::{AllocError, Global};

/// A line from its parts.
#[derive(Drop)]
pub enum FormRead {
    /// The parts have none of the forms.
    Nothing,
    /// A term or a specimen is nested too deep.
    TooDeep,
    /// The line.
    Read(Line),
}

/// Says whether there is no specimen at the end.
fn is_nothing(behind: &Behind) -> bool
    ensures { result ≡ is_nothing behind.now }
{
    matches!(behind, Behind::Nothing)
}

/// Returns the specimen at the end, if there is one. There is no answer if it is nested too deep.
fn specimen(behind: Behind) -> Option<Option<LineTree>>
    ensures { result ≡ specimen_of behind }
{
    match behind {
        Behind::Nothing => Some(None),
        Behind::TooDeep => None,
        Behind::Tree(tree) => Some(Some(tree)),
    }
}

/// Returns the specimen at the end, if there is one that is kept.
fn tree(behind: Behind) -> Option<LineTree>
    ensures { result ≡ tree_behind behind }
{
    match behind {
        Behind::Nothing | Behind::TooDeep => None,
        Behind::Tree(tree) => Some(tree),
    }
}

/// Returns the last of some terms, if they are kept.
fn one_of(terms: Option<Seq<LineTerm>>) -> Option<LineTerm>
    ensures one { (t : WrittenTerm) → terms ≡ Some (t ∷ []) → result ≡ Some t }
    ensures none { terms ≡ None → result ≡ None }
{
    let mut terms = terms?.into_vec();
    terms.pop()
}

/// Returns the last two of some terms, if they are kept.
fn two_of(terms: Option<Seq<LineTerm>>) -> Option<(LineTerm, LineTerm)>
    ensures two { (t u : WrittenTerm) → terms ≡ Some (t ∷ u ∷ []) → result ≡ Some (t, u) }
    ensures none { terms ≡ None → result ≡ None }
{
    let mut terms = terms?.into_vec();
    let second = terms.pop()?;
    let first = terms.pop()?;
    Some((first, second))
}

/// Returns two values, if both are there.
fn both<T: Drop, U: Drop>(a: Option<T>, b: Option<U>) -> Option<(T, U)>
    ensures { MatchOption result ((a ≡ None) ⊎ (b ≡ None)) (λ r. (a ≡ Some r.0) × (b ≡ Some r.1)) }
{
    let a = a?;
    let b = b?;
    Some((a, b))
}

/// Returns the form if the condition holds, and else none.
fn only_if(holds: bool, read: FormRead) -> FormRead
    ensures { result ≡ cond holds read FormRead.Nothing }
{
    if holds { read } else { FormRead::Nothing }
}

/// Returns a name of a list or phylum, and what follows it.
fn named_tail(
    alloc: Global,
    parts: &[&[u8]],
    most: usize,
) -> Result<Option<(Txt, Tail)>, AllocError>
    ensures { IfOk result (λ o. MatchOption o (HasNoNamedTail most (texts parts.now))
        (λ r. IsNamedTailFound most (texts parts.now) r.0 r.1)) }
{
    let Some((first, rest)) = parts.split_first() else {
        return Ok(None);
    };
    let Some(name) = kind_name(alloc, first)? else {
        return Ok(None);
    };
    let Some(tail) = line_tail(alloc, rest, most)? else {
        return Ok(None);
    };
    Ok(Some((name, tail)))
}

/// Returns the row that is such a tail.
fn row_of(tail: Tail) -> FormRead
    ensures { (most : ℕ) (ps : Parts) → IsTailFound most ps tail → length ps ≤ most
        → IsFormRead (codes "row" ∷ ps) result }
{
    let Tail {
        head,
        columns,
        count: _,
        behind,
    } = tail;
    let ended = is_nothing(&behind);
    drop(behind);
    let read = match both(head, columns) {
        Some((head, columns)) => FormRead::Read(Line::Row { head, columns }),
        None => FormRead::TooDeep,
    };
    only_if(ended, read)
}

/// Returns the nil row that is such a tail.
fn nil_of(list: Txt, tail: Tail) -> FormRead
    ensures { (ps : Parts) → IsKindName list → IsTailFound 0 ps tail → IsFormRead (codes "nil" ∷ list ∷ ps) result }
{
    let Tail {
        head,
        columns,
        count: _,
        behind,
    } = tail;
    let ended = is_nothing(&behind);
    drop(behind);
    drop(columns);
    let read = match head {
        Some(term) => FormRead::Read(Line::Nil { list, term }),
        None => FormRead::TooDeep,
    };
    only_if(ended, read)
}

/// Returns the cell row that is such a tail.
fn cell_of(list: Txt, tail: Tail) -> FormRead
    ensures { (ps : Parts) → IsKindName list → IsTailFound 2 ps tail → IsFormRead (codes "cell" ∷ list ∷ ps) result }
{
    let Tail {
        head,
        columns,
        count,
        behind,
    } = tail;
    let ended = is_nothing(&behind);
    drop(behind);
    let read = match both(head, two_of(columns)) {
        Some((term, pair)) => {
            let (element, rest) = pair;
            FormRead::Read(Line::Cell {
                list,
                term,
                element,
                rest,
            })
        }
        None => FormRead::TooDeep,
    };
    only_if((count == 2) & ended, read)
}

/// Returns the hole row that is such a tail.
fn hole_of(kind: Txt, tail: Tail) -> FormRead
    ensures { (ps : Parts) → IsKindName kind → IsTailFound 0 ps tail → IsFormRead (codes "hole" ∷ kind ∷ ps) result }
{
    let Tail {
        head,
        columns,
        count: _,
        behind,
    } = tail;
    drop(columns);
    match both(head, specimen(behind)) {
        Some((term, specimen)) => FormRead::Read(Line::Hole {
            kind,
            term,
            specimen,
        }),
        None => FormRead::TooDeep,
    }
}

/// Returns the case that is such a tail.
fn case_of(tail: Tail) -> FormRead
    ensures { (ps : Parts) → IsTailFound 0 ps tail → IsFormRead (codes "case" ∷ ps) result }
{
    let Tail {
        head,
        columns,
        count: _,
        behind,
    } = tail;
    drop(columns);
    let ended = is_nothing(&behind);
    let read = match both(head, tree(behind)) {
        Some((term, specimen)) => FormRead::Read(Line::Case { term, specimen }),
        None => FormRead::TooDeep,
    };
    only_if(!ended, read)
}

/// Returns the declare row of the space that is such a tail.
fn declare_of(space: Txt, list: Txt, tail: Tail) -> FormRead
    ensures { (ps : Parts) → IsSpaceName space → IsKindName list → IsTailFound 1 ps tail
        → IsFormRead ((codes "declare" ++ tag space) ∷ list ∷ ps) result }
{
    let Tail {
        head,
        columns,
        count,
        behind,
    } = tail;
    let ended = is_nothing(&behind);
    let read = match both(both(head, one_of(columns)), tree(behind)) {
        Some((terms, specimen)) => {
            let (entity, value) = terms;
            FormRead::Read(Line::Declare {
                space,
                list,
                entity,
                value,
                specimen,
            })
        }
        None => FormRead::TooDeep,
    };
    only_if((count == 1) & !ended, read)
}

/// Reads `row term` or `row term : term term ..` from the parts after the first one.
pub fn line_row(alloc: Global, parts: &[&[u8]]) -> Result<FormRead, AllocError>
    ensures { IfOk result (IsFormRead (codes "row" ∷ texts parts.now)) }
{
    match line_tail(alloc, parts, parts.len())? {
        Some(tail) => Ok(row_of(tail)),
        None => Ok(FormRead::Nothing),
    }
}

/// Reads `nil L term` from the parts after the first one.
pub fn line_nil(alloc: Global, parts: &[&[u8]]) -> Result<FormRead, AllocError>
    ensures { IfOk result (IsFormRead (codes "nil" ∷ texts parts.now)) }
{
    match named_tail(alloc, parts, 0)? {
        Some((name, tail)) => Ok(nil_of(name, tail)),
        None => Ok(FormRead::Nothing),
    }
}

/// Reads `cell L term : term term` from the parts after the first one.
pub fn line_cell(alloc: Global, parts: &[&[u8]]) -> Result<FormRead, AllocError>
    ensures { IfOk result (IsFormRead (codes "cell" ∷ texts parts.now)) }
{
    match named_tail(alloc, parts, 2)? {
        Some((name, tail)) => Ok(cell_of(name, tail)),
        None => Ok(FormRead::Nothing),
    }
}

/// Reads `hole K term` or `hole K term by specimen` from the parts after the first one.
pub fn line_hole(alloc: Global, parts: &[&[u8]]) -> Result<FormRead, AllocError>
    ensures { IfOk result (IsFormRead (codes "hole" ∷ texts parts.now)) }
{
    match named_tail(alloc, parts, 0)? {
        Some((name, tail)) => Ok(hole_of(name, tail)),
        None => Ok(FormRead::Nothing),
    }
}

/// Reads `case term by specimen` from the parts after the first one.
pub fn line_case(alloc: Global, parts: &[&[u8]]) -> Result<FormRead, AllocError>
    ensures { IfOk result (IsFormRead (codes "case" ∷ texts parts.now)) }
{
    match line_tail(alloc, parts, 0)? {
        Some(tail) => Ok(case_of(tail)),
        None => Ok(FormRead::Nothing),
    }
}

/// Reads `declare L term : term by specimen` from the parts after the first one, which names the space.
pub fn line_declare(alloc: Global, space: Txt, parts: &[&[u8]]) -> Result<FormRead, AllocError>
    ensures { IfOk result (λ read. IsSpaceName space
        → IsFormRead ((codes "declare" ++ tag space) ∷ texts parts.now) read) }
{
    match named_tail(alloc, parts, 1)? {
        Some((name, tail)) => Ok(declare_of(space, name, tail)),
        None => Ok(FormRead::Nothing),
    }
}
