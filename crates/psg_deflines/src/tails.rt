//! What follows the keyword and the name of a line of terms.
ghost use Rattle.std.specs.Prelude.{◌≡◌, ◌++◌, ◌∷◌, [], List, IfOk, IsTrue, ◌↔◌, MatchBool, MatchOption, codes, drop};
ghost use Rattle.std.specs.Prelude.{Some};
ghost use Rattle.psg_deflines.specs.Parts.{texts};
ghost use Rattle.psg_deflines.specs.WrittenTerms.{WrittenTerm};
ghost use Rattle.psg_deflines.specs.WrittenTrees.{WrittenTree};
ghost use Rattle.psg_deflines.specs.TreeReads.{IsTreeKept};
ghost use Rattle.psg_deflines.specs.TermWalks.{IsKept};
ghost use Rattle.psg_deflines.specs.TailReads.{AreKept, AreTermsFound, HaveNoTerms, IsNotColon, AreColumnsFound};
ghost use Rattle.psg_deflines.specs.TailReads.{HaveNoColumns, IsBehind, IsBehindFound, HasNothingBehind, IsTailFound};
ghost use Rattle.psg_deflines.specs.TailReads.{HasNoTail};

use crate::names::is;
use crate::term_reading::{TermRead, line_term};
use crate::terms::LineTerm;
use crate::tree_reading::{TreeRead, line_tree};
use crate::trees::LineTree;
use psg_terms::Seq;
use std::alloc::{AllocError, Global};

/// The terms, how many they are, and how many parts they take. They are not kept where one is nested too deep.
#[derive(Drop)]
pub struct TermsRead {
    /// The terms, if they are kept.
    pub terms: Option<Seq<LineTerm>>,
    /// The number of terms, kept or not.
    pub count: usize,
    /// The number of parts that they take.
    pub taken: usize,
}

/// What is at the end of a line of terms.
#[derive(Drop)]
pub enum Behind {
    /// No specimen.
    Nothing,
    /// A specimen that is nested too deep.
    TooDeep,
    /// A specimen.
    Tree(LineTree),
}

/// A term, the terms after a colon and what is at the end. Terms are not kept where one is nested too deep.
#[derive(Drop)]
pub struct Tail {
    /// The first term, if it is kept.
    pub head: Option<LineTerm>,
    /// The terms after the colon, if they are kept.
    pub columns: Option<Seq<LineTerm>>,
    /// The number of the terms after the colon, kept or not.
    pub count: usize,
    /// What is after the terms.
    pub behind: Behind,
}

/// Returns the terms with one more, if all of them are kept.
fn with_term(
    kept: Option<Seq<LineTerm>>,
    term: Option<LineTerm>,
) -> Result<Option<Seq<LineTerm>>, AllocError>
    ensures { IfOk result (λ more. (ts : List WrittenTerm) (t : WrittenTerm) → AreKept kept ts → IsKept term t
        → AreKept more (ts ++ t ∷ [])) }
{
    let Some(mut terms) = kept else {
        return Ok(None);
    };
    let Some(term) = term else {
        return Ok(None);
    };
    terms.push(term)?;
    Ok(Some(terms))
}

/// Reads at most this number of terms, or fewer where nothing is left.
fn terms(alloc: Global, parts: &[&[u8]], most: usize) -> Result<Option<TermsRead>, AllocError>
    ensures { IfOk result (λ o. MatchOption o (HaveNoTerms most (texts parts.now))
        (AreTermsFound most (texts parts.now))) }
{
    let mut terms = Some(Seq::of(Vec::new(alloc)));
    let mut count = 0;
    let mut taken = 0;
    'terms: while count < most && taken < parts.len() {
        let Some(read) = line_term(alloc, &parts[taken..])? else {
            return Ok(None);
        };
        let TermRead { term, taken: more } = read;
        terms = with_term(terms, term)?;
        count += 1;
        taken += more;
    }
    Ok(Some(TermsRead {
        terms,
        count,
        taken,
    }))
}

/// Says whether the parts begin with a colon.
fn is_colon(parts: &[&[u8]]) -> bool
    ensures { MatchBool result (texts parts.now ≡ codes ":" ∷ drop 1 (texts parts.now)) (IsNotColon (texts parts.now)) }
{
    let Some((first, _)) = parts.split_first() else {
        return false;
    };
    is(first, ":")
}

/// Returns the terms after a colon, at most this number or up to the end, or none where there is no colon.
fn columns(alloc: Global, parts: &[&[u8]], most: usize) -> Result<Option<TermsRead>, AllocError>
    ensures { IfOk result (λ o. MatchOption o (HaveNoColumns most (texts parts.now))
        (AreColumnsFound most (texts parts.now))) }
{
    if !is_colon(parts) {
        let terms = Some(Seq::of(Vec::new(alloc)));
        return Ok(Some(TermsRead {
            terms,
            count: 0,
            taken: 0,
        }));
    }
    let Some(read) = terms(alloc, &parts[1..], most)? else {
        return Ok(None);
    };
    let TermsRead {
        terms,
        count,
        taken,
    } = read;
    if count == 0 {
        return Ok(None);
    }
    Ok(Some(TermsRead {
        terms,
        count,
        taken: taken + 1,
    }))
}

/// Returns the specimen at the end of a line, if it is kept.
fn specimen_behind(tree: Option<LineTree>) -> Behind
    ensures { (w : WrittenTree) → IsTreeKept tree w → IsBehind result (Some w) }
{
    match tree {
        Some(tree) => Behind::Tree(tree),
        None => Behind::TooDeep,
    }
}

/// Returns the specimen after `by` that ends the line, or nothing where nothing is left.
fn line_end(alloc: Global, parts: &[&[u8]]) -> Result<Option<Behind>, AllocError>
    ensures { IfOk result (λ o. MatchOption o (HasNothingBehind (texts parts.now)) (IsBehindFound (texts parts.now))) }
{
    let Some((first, rest)) = parts.split_first() else {
        return Ok(Some(Behind::Nothing));
    };
    if !is(first, "by") {
        return Ok(None);
    }
    let Some(read) = line_tree(alloc, rest)? else {
        return Ok(None);
    };
    let TreeRead { tree, taken } = read;
    if taken < rest.len() {
        return Ok(None);
    }
    Ok(Some(specimen_behind(tree)))
}

/// Reads a term, the terms after a colon, at most `most` of them or up to the end, and a specimen after `by`; `None`
/// where the parts have another form.
pub fn line_tail(alloc: Global, parts: &[&[u8]], most: usize) -> Result<Option<Tail>, AllocError>
    ensures { IfOk result (λ o. MatchOption o (HasNoTail most (texts parts.now)) (IsTailFound most (texts parts.now))) }
{
    let Some(head) = line_term(alloc, parts)? else {
        return Ok(None);
    };
    let TermRead { term: head, taken } = head;
    let (_, behind_head) = parts.split_at(taken);
    let Some(read) = columns(alloc, behind_head, most)? else {
        return Ok(None);
    };
    let TermsRead {
        terms: columns,
        count,
        taken,
    } = read;
    let (_, left) = behind_head.split_at(taken);
    let Some(behind) = line_end(alloc, left)? else {
        return Ok(None);
    };
    Ok(Some(Tail {
        head,
        columns,
        count,
        behind,
    }))
}
