//! The cases of a step.
ghost use Rattle.std.specs.Prelude.{◌≡◌, ◌++◌, ◌∷◌, [], map, slice_get, IfOk, OnOk};
ghost use Rattle.std.specs.List.{AllByRecursion};
ghost use Rattle.psg_terms.specs.Canonical.{IsCanonical};
ghost use Rattle.psg_terms.specs.Signature.{Signature as PlainSignature};
ghost use Rattle.psg_grammar.specs.Fragments.{Fragment, operator};
ghost use Rattle.psg_tree.specs.Shapes.{with_parts};
ghost use Rattle.psg_scope.specs.Headers.{keys as keys_of};
ghost use Rattle.psg_eval.specs.OwnRows.{whole_row};
ghost use Rattle.psg_explain.specs.Given.{all_pairs, cell_rows_of, closed_row, first_cases, hole_rows_of, nil_rows_of};
ghost use Rattle.psg_explain.specs.Given.{plain_cases as plain, row_pairs as pairs_of};
ghost use Rattle.psg_explain.specs.Given.{same_kind_as};
ghost use Rattle.psg_explain.specs.Splits.{own_cases_of};
ghost use Rattle.psg_explain.specs.Plans.{AreCanonical, Step, cases_at, cases_from, rows_at, rows_claimed};
ghost use Rattle.psg_explain.specs.Sources.{HasOwnKeys, IsNodeSite, IsSite, IsStage};

use crate::given::{Case, Keys, closed_case, pair_case, plain_case};
use crate::own_rows::{own_case, positions};
use crate::refutation::Claim;
use crate::stages::{Site, Source, Stage, names_of};
use psg_grammar::{Definition, HoleRow, Kind, Operator, Row};
use psg_scope::NameCol;
use psg_terms::{Seq, Term};
use psg_tree::{Part, Shape, Tree};
use std::alloc::{AllocError, Global};

/// Returns the rows as cases.
fn plain_cases(alloc: Global, rows: &[Seq<Term>]) -> Result<Vec<Case>, AllocError>
    ensures { IfOk result (λ v. v.items ≡ plain 0 rows.now) }
{
    let mut cases = Vec::with_capacity(alloc, rows.len())?;
    for i in 0..rows.len() {
        let row = rows[i].as_slice();
        let case = plain_case(alloc, i, row)?;
        cases.push(case)?;
    }
    Ok(cases)
}

/// Returns a row of one term.
fn row_of_one(alloc: Global, term: &Term) -> Result<Seq<Term>, AllocError>
    ensures { IfOk result (λ row. row ≡ term.now ∷ []) }
{
    let mut row = Vec::with_capacity(alloc, 1)?;
    row.push(term.share()?)?;
    Ok(Seq::of(row))
}

/// Says whether the kinds are one.
fn is_kind(one: Kind, other: Kind) -> bool
    ensures { result ≡ same_kind_as one other }
{
    match one {
        Kind::Phylum(number) => match other {
            Kind::Phylum(second) => number == second,
            Kind::List(_) => false,
        },
        Kind::List(number) => match other {
            Kind::List(second) => number == second,
            Kind::Phylum(_) => false,
        },
    }
}

/// Adds the row, if it is one of the kind.
fn push_hole(
    alloc: Global,
    rows: &mut Vec<Seq<Term>>,
    row: &HoleRow,
    kind: Kind,
) -> Result<(), AllocError>
    ensures { OnOk result (rows.new.items ≡ rows.old.items ++ hole_rows_of kind (row.now ∷ [])) }
{
    if is_kind(row.kind, kind) {
        let one = row_of_one(alloc, &row.term)?;
        rows.push(one)?;
        return Ok(());
    }
    Ok(())
}

/// Returns the rows of the kind.
fn hole_rows(alloc: Global, all: &[HoleRow], kind: Kind) -> Result<Vec<Seq<Term>>, AllocError>
    ensures { IfOk result (λ v. v.items ≡ hole_rows_of kind all.now) }
{
    let mut rows = Vec::new(alloc);
    for row in all {
        push_hole(alloc, &mut rows, row, kind)?;
    }
    Ok(rows)
}

/// Returns the hole rows of the kind as cases.
fn hole_cases(alloc: Global, definition: &Definition, kind: Kind) -> Result<Vec<Case>, AllocError>
    ensures { IfOk result (λ v. v.items ≡ plain 0 (hole_rows_of kind definition.now.hole_rows)) }
{
    let rows = hole_rows(alloc, definition.hole_rows.as_slice(), kind)?;
    let cases = plain_cases(alloc, rows.as_slice())?;
    Ok(cases)
}

/// Returns each term as a row.
fn rows_of_terms(alloc: Global, terms: &[Term]) -> Result<Vec<Seq<Term>>, AllocError>
    ensures { IfOk result (λ v. v.items ≡ map (λ t. t ∷ []) terms.now) }
{
    let mut rows = Vec::with_capacity(alloc, terms.len())?;
    for term in terms {
        let row = row_of_one(alloc, term)?;
        rows.push(row)?;
    }
    Ok(rows)
}

/// Returns the head of the row with the columns after it.
fn whole(alloc: Global, row: &Row) -> Result<Seq<Term>, AllocError>
    ensures { IfOk result (λ r. r ≡ whole_row row.now) }
{
    let mut terms = Vec::new(alloc);
    terms.push(row.head.share()?)?;
    for term in row.columns.as_slice() {
        terms.push(term.share()?)?;
    }
    Ok(Seq::of(terms))
}

/// Returns each row's head with the columns after it.
fn whole_rows(alloc: Global, rows: &[Row]) -> Result<Vec<Seq<Term>>, AllocError>
    ensures { IfOk result (λ v. v.items ≡ map whole_row rows.now) }
{
    let mut made = Vec::with_capacity(alloc, rows.len())?;
    for row in rows {
        let one = whole(alloc, row)?;
        made.push(one)?;
    }
    Ok(made)
}

/// Returns the rows of a finished end as cases.
fn nil_cases(alloc: Global, definition: &Definition, list: u32) -> Result<Vec<Case>, AllocError>
    ensures { IfOk result (λ v. v.items ≡ plain 0 (nil_rows_of (slice_get definition.now.lists list))) }
{
    match definition.lists.as_slice().get(list as usize) {
        Some(kind) => {
            let rows = rows_of_terms(alloc, kind.nil_rows.as_slice())?;
            let cases = plain_cases(alloc, rows.as_slice())?;
            Ok(cases)
        }
        None => Ok(Vec::new(alloc)),
    }
}

/// Returns the rows of cells as cases.
fn cell_cases(alloc: Global, definition: &Definition, list: u32) -> Result<Vec<Case>, AllocError>
    ensures { IfOk result (λ v. v.items ≡ plain 0 (cell_rows_of (slice_get definition.now.lists list))) }
{
    match definition.lists.as_slice().get(list as usize) {
        Some(kind) => {
            let rows = whole_rows(alloc, kind.cell_rows.as_slice())?;
            let cases = plain_cases(alloc, rows.as_slice())?;
            Ok(cases)
        }
        None => Ok(Vec::new(alloc)),
    }
}

/// Returns the operator's rows as cases, where these are its name positions and keys.
fn row_cases(
    alloc: Global,
    operator: &Operator,
    own: &[NameCol],
    keys: &[NameCol],
) -> Result<Vec<Case>, AllocError>
    ensures { IfOk result
        (λ v. v.items ≡ own_cases_of operator.now.items own.now (keys_of keys.now) 0 operator.now.rows) }
{
    let items = operator.items.as_slice();
    let rows = operator.rows.as_slice();
    let mut cases = Vec::with_capacity(alloc, rows.len())?;
    for i in 0..rows.len() {
        let case = own_case(alloc, items, own, keys, i, &rows[i])?;
        cases.push(case)?;
    }
    Ok(cases)
}

/// Returns the rows of an operator's node as cases.
fn operator_cases(
    alloc: Global,
    definition: &Definition,
    op: u32,
    parts: &[Part],
    keys: &[NameCol],
) -> Result<Vec<Case>, AllocError>
    ensures { IfOk result (λ v. HasOwnKeys definition.now (with_parts (operator op) parts.now) (keys_of keys.now)
        → v.items ≡ first_cases definition.now (with_parts (operator op) parts.now)) }
{
    match definition.operators.as_slice().get(op as usize) {
        Some(operator) => {
            let names = names_of(alloc, parts)?;
            let own = positions(alloc, operator.items.as_slice(), names.as_slice())?;
            let cases = row_cases(alloc, operator, own.as_slice(), keys)?;
            Ok(cases)
        }
        None => Ok(Vec::new(alloc)),
    }
}

/// Returns the own rows of a placeholder or of an operator's node as cases; of a list there are none here.
fn node_cases(
    alloc: Global,
    definition: &Definition,
    tree: &Tree,
    keys: &[NameCol],
) -> Result<Vec<Case>, AllocError>
    ensures { IfOk result (λ v. IsNodeSite tree.now → HasOwnKeys definition.now tree.now (keys_of keys.now)
        → v.items ≡ first_cases definition.now tree.now) }
{
    match tree.shape() {
        Shape::Hole { phylum } => {
            let cases = hole_cases(alloc, definition, Kind::Phylum(*phylum))?;
            Ok(cases)
        }
        Shape::Op { op, parts } => {
            let cases = operator_cases(alloc, definition, *op, parts.as_slice(), keys)?;
            Ok(cases)
        }
        Shape::List { .. } => Ok(Vec::new(alloc)),
    }
}

/// Returns the own rows of a node as cases.
fn own_cases(
    alloc: Global,
    definition: &Definition,
    site: &Site,
    keys: &[NameCol],
) -> Result<Vec<Case>, AllocError>
    ensures { IfOk result (λ v. (f : Fragment) → IsSite site.now f → HasOwnKeys definition.now f (keys_of keys.now)
        → v.items ≡ first_cases definition.now f) }
{
    match site {
        Site::Node(tree) => {
            let cases = node_cases(alloc, definition, tree, keys)?;
            Ok(cases)
        }
        Site::End { list, unfinished } => {
            if *unfinished {
                let cases = hole_cases(alloc, definition, Kind::List(*list))?;
                return Ok(cases);
            }
            let cases = nil_cases(alloc, definition, *list)?;
            Ok(cases)
        }
        Site::Cell(list) => {
            let cases = cell_cases(alloc, definition, *list)?;
            Ok(cases)
        }
    }
}

/// Adds a case for each pair of the row with the right ones.
fn push_pairs(
    alloc: Global,
    cases: &mut Vec<Case>,
    keys: Keys,
    number: usize,
    left: &[Term],
    rights: &[Seq<Term>],
) -> Result<(), AllocError>
    requires { (sig : PlainSignature) × IsCanonical sig left.now }
    ensures { OnOk result (cases.new.items ≡ cases.old.items ++ pairs_of (keys_of keys.entry.left.now)
        (keys_of keys.entry.right.now) (keys_of keys.entry.whole.now) number 0 left.now rights.now) }
{
    for j in 0..rights.len() {
        let right = rights[j].as_slice();
        let case = pair_case(alloc, keys, (number, j), left, right)?;
        cases.push(case)?;
    }
    Ok(())
}

/// Returns a case for each pair of rows, the left rows in order.
fn pair_cases(
    alloc: Global,
    keys: Keys,
    lefts: &[Seq<Term>],
    rights: &[Seq<Term>],
) -> Result<Vec<Case>, AllocError>
    requires { AreCanonical lefts.now }
    ensures { IfOk result (λ v. v.items ≡ all_pairs (keys_of keys.entry.left.now) (keys_of keys.entry.right.now)
        (keys_of keys.entry.whole.now) 0 lefts.now rights.now) }
{
    let mut cases = Vec::new(alloc);
    for i in 0..lefts.len() {
        let left = lefts[i].as_slice();
        push_pairs(alloc, &mut cases, keys, i, left, rights)?;
    }
    Ok(cases)
}

/// Returns a case for each row of the step before, with the entities of the keys that pass outward.
fn closed_cases(
    alloc: Global,
    inside: &[NameCol],
    outside: &[NameCol],
    rows: &[Seq<Term>],
) -> Result<Vec<Case>, AllocError>
    ensures { IfOk result
        (λ v. v.items ≡ plain 0 (map (closed_row (keys_of inside.now) (keys_of outside.now)) rows.now)) }
{
    let mut cases = Vec::with_capacity(alloc, rows.len())?;
    for i in 0..rows.len() {
        let row = rows[i].as_slice();
        let case = closed_case(alloc, inside, outside, i, row)?;
        cases.push(case)?;
    }
    Ok(cases)
}

/// Returns the cases of the step, of which these are the rows of the step before and of the child.
pub(crate) fn cases(
    alloc: Global,
    definition: &Definition,
    stage: &Stage,
    lefts: &[Seq<Term>],
    rights: &[Seq<Term>],
) -> Result<Vec<Case>, AllocError>
    requires { AreCanonical lefts.now }
    ensures { IfOk result (λ v. (s : Step) → IsStage definition.now stage.now s
        → v.items ≡ cases_from definition.now s.part s.origin lefts.now rights.now) }
{
    let whole = stage.header.names.as_slice();
    match &stage.source {
        Source::Own => {
            let cases = own_cases(alloc, definition, &stage.site, whole)?;
            Ok(cases)
        }
        Source::Pair { left, right, .. } => {
            let keys = Keys {
                left: left.as_slice(),
                right: right.as_slice(),
                whole,
            };
            let cases = pair_cases(alloc, keys, lefts, rights)?;
            Ok(cases)
        }
        Source::Closed { inside, .. } => {
            let cases = closed_cases(alloc, inside.as_slice(), whole, lefts)?;
            Ok(cases)
        }
    }
}

/// Returns the rows of the claim at the place; none where there is no such claim.
fn rows_of(claims: &[Claim], place: usize) -> &[Seq<Term>]
    ensures { result.now ≡ rows_at (map rows_claimed claims.now) place }
{
    match claims.get(place) {
        Some(claim) => claim.rows.as_slice(),
        None => &[],
    }
}

/// Returns the cases of the step, where the steps before it have the claimed rows.
pub(crate) fn cases_after(
    alloc: Global,
    definition: &Definition,
    stage: &Stage,
    claims: &[Claim],
) -> Result<Vec<Case>, AllocError>
    requires { AllByRecursion AreCanonical (map rows_claimed claims.now) }
    ensures { IfOk result (λ v. (s : Step) → IsStage definition.now stage.now s
        → v.items ≡ cases_at definition.now (map rows_claimed claims.now) s) }
{
    match &stage.source {
        Source::Own => {
            let cases = cases(alloc, definition, stage, &[], &[])?;
            Ok(cases)
        }
        Source::Pair { before, child, .. } => {
            let lefts = rows_of(claims, *before);
            let rights = rows_of(claims, *child);
            let cases = cases(alloc, definition, stage, lefts, rights)?;
            Ok(cases)
        }
        Source::Closed { before, .. } => {
            let lefts = rows_of(claims, *before);
            let cases = cases(alloc, definition, stage, lefts, &[])?;
            Ok(cases)
        }
    }
}
