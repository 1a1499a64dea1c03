//! Rows of the definition, and trees without children.
ghost use Rattle.std.specs.Prelude.{◌≡◌, ◌<◌, ◌↔◌, ◌∷◌, [], true, false, length, map, IfOk, IsTrue, List, ℕ};
ghost use Rattle.psg_grammar.specs.Fragments.{ending, hole};
ghost use Rattle.psg_grammar.specs.Sound.{IsSound};
ghost use Rattle.psg_eval.specs.Summaries.{Answers, AreSpacesOfList, IsSummary};
ghost use Rattle.psg_grammar.specs.declared.types.Kind.{Kind as PlainKind};
ghost use Rattle.psg_relation.specs.Choices.{AllHaveSorts};
ghost use Rattle.psg_eval.specs.Leaves.{IsLeafOf};
ghost use Rattle.psg_eval.specs.OwnRows.{AreHoleRows, whole_row};

use crate::summary::{EvalFault, Summary, SummaryParts, at_step};
use psg_grammar::{Definition, Kind, Row};
use psg_relation::{Rel, RelRow};
use psg_scope::{Header, Names};
use psg_terms::{Seq, Term};
use std::alloc::{AllocError, Global};

fn is_kind(one: Kind, other: Kind) -> bool
    ensures { IsTrue result ↔ (one ≡ other) }
{
    one == other
}

/// Returns a row of one term.
fn row_of_one(alloc: Global, term: &Term) -> Result<RelRow, AllocError>
    ensures { IfOk result (λ row. row ≡ term.now ∷ []) }
{
    let mut terms = Vec::with_capacity(alloc, 1)?;
    terms.push(term.share()?)?;
    Ok(RelRow::new(terms))
}

/// Returns the terms of the hole rows of the kind.
fn hole_rows(alloc: Global, definition: &Definition, kind: Kind) -> Result<Vec<RelRow>, AllocError>
    ensures { IfOk result (λ rows. AreHoleRows definition.now kind rows.items) }
{
    let mut rows = Vec::new(alloc);
    for row in definition.hole_rows.as_slice() {
        if is_kind(row.kind, kind) {
            rows.push(row_of_one(alloc, &row.term)?)?;
        }
    }
    Ok(rows)
}

/// Returns each term as a row.
fn rows_of_terms(alloc: Global, terms: &[Term]) -> Result<Vec<RelRow>, AllocError>
    ensures { IfOk result (λ rows. rows.items ≡ map (λ t. t ∷ []) terms.now) }
{
    let mut rows = Vec::with_capacity(alloc, terms.len())?;
    for term in terms {
        rows.push(row_of_one(alloc, term)?)?;
    }
    Ok(rows)
}

/// Returns the head of the row with the columns after it.
fn whole_row(alloc: Global, row: &Row) -> Result<RelRow, AllocError>
    ensures { IfOk result (λ r. r ≡ whole_row row.now) }
{
    let mut terms = Vec::new(alloc);
    terms.push(row.head.share()?)?;
    for term in row.columns.as_slice() {
        terms.push(term.share()?)?;
    }
    Ok(RelRow::new(terms))
}

/// Returns each row's head with the columns after it.
pub(crate) fn whole_rows(alloc: Global, rows: &[Row]) -> Result<Vec<RelRow>, AllocError>
    ensures { IfOk result (λ made. made.items ≡ map whole_row rows.now) }
{
    let mut made = Vec::with_capacity(alloc, rows.len())?;
    for row in rows {
        made.push(whole_row(alloc, row)?)?;
    }
    Ok(made)
}

/// Returns the header of a region without keys.
pub(crate) fn no_keys(unfinished: Vec<u32>) -> Header
    ensures { result ≡ record { names = []; unfinished = unfinished.items; twice = false } }
{
    Header {
        names: Names::none(),
        unfinished: Seq::of(unfinished),
        twice: false,
    }
}

/// Returns the summary of a tree without children, from the rows of its values.
fn leaf(
    alloc: Global,
    definition: &Definition,
    kind: Kind,
    header: Header,
    rows: &[RelRow],
) -> Result<Summary, EvalFault>
    requires { (sorts : List ℕ) × AllHaveSorts definition.now.signature rows.now sorts }
    ensures { (sorts : List ℕ) → AllHaveSorts definition.now.signature rows.now sorts
        → IsLeafOf definition.now.signature kind header rows.now sorts result }
{
    match Rel::of(alloc, &definition.signature, rows) {
        Ok(rel) => {
            let known = SummaryParts {
                kind,
                header,
                seen: 0,
                rel,
            };
            Ok(Summary::new(alloc, known)?)
        }
        Err(fault) => Err(at_step(fault, 0)),
    }
}

/// Returns a placeholder of a phylum.
pub(crate) fn placeholder(
    alloc: Global,
    definition: &Definition,
    phylum: u32,
) -> Result<Summary, EvalFault>
    requires sound { IsSound definition.now }
    requires phylum { phylum < length definition.now.phyla }
    ensures answer { Answers definition.now (hole phylum) result }
    ensures summary { IfOk result (IsSummary definition.now) }
{
    let kind = Kind::Phylum(phylum);
    let rows = hole_rows(alloc, definition, kind)?;
    let header = no_keys(Vec::new(alloc));
    leaf(alloc, definition, kind, header, rows.as_slice())
}

/// Returns the end of an unfinished list.
pub(crate) fn open_end(
    alloc: Global,
    definition: &Definition,
    spaces: &[u32],
    list: u32,
) -> Result<Summary, EvalFault>
    requires sound { IsSound definition.now }
    requires there { list < length definition.now.lists }
    requires spaces { AreSpacesOfList definition.now list spaces.now }
    ensures answer { Answers definition.now (ending list true) result }
    ensures summary { IfOk result (IsSummary definition.now) }
{
    let kind = Kind::List(list);
    let rows = hole_rows(alloc, definition, kind)?;
    let header = no_keys(Vec::from_slice(alloc, spaces)?);
    leaf(alloc, definition, kind, header, rows.as_slice())
}

/// Returns the end of a finished list.
pub(crate) fn closed_end(
    alloc: Global,
    definition: &Definition,
    list: u32,
) -> Result<Summary, EvalFault>
    requires sound { IsSound definition.now }
    requires there { list < length definition.now.lists }
    ensures answer { Answers definition.now (ending list false) result }
    ensures summary { IfOk result (IsSummary definition.now) }
{
    let this = &definition.lists.as_slice()[list as usize];
    let rows = rows_of_terms(alloc, this.nil_rows.as_slice())?;
    let header = no_keys(Vec::new(alloc));
    leaf(alloc, definition, Kind::List(list), header, rows.as_slice())
}
