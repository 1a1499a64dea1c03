//! The check of a refutation.
ghost use Rattle.std.specs.Prelude.{◌≡◌, ◌↔◌, ◌+◌, ◌*◌, ◌<◌, ◌≤◌, ◌∷◌, [], map, length, option_map, slice_get, take};
ghost use Rattle.std.specs.Prelude.{true};
ghost use Rattle.std.specs.Prelude.{IfOk, IsTrue, List, MatchOption, Some, ℕ};
ghost use Rattle.std.specs.List.{AllByRecursion};
ghost use Rattle.psg_terms.specs.Canonical.{IsCanonical};
ghost use Rattle.psg_terms.specs.Signature.{HaveSorts};
ghost use Rattle.psg_terms.specs.Kept.{numbers_of};
ghost use Rattle.psg_grammar.specs.declared.types.Definition.{Definition as PlainDefinition};
ghost use Rattle.psg_grammar.specs.declared.types.Space.{Space};
ghost use Rattle.psg_grammar.specs.Fragments.{Fragment};
ghost use Rattle.psg_grammar.specs.Kinds.{kind_sort_of};
ghost use Rattle.psg_grammar.specs.Legal.{IsCompletable};
ghost use Rattle.psg_grammar.specs.Paths.{node_at};
ghost use Rattle.psg_grammar.specs.Regions.{declared_inside};
ghost use Rattle.psg_scope.specs.Headers.{keys as keys_of};
ghost use Rattle.psg_cache.specs.Notes.{IsFormed};
ghost use Rattle.psg_eval.specs.Partials.{AreKindSorts};
ghost use Rattle.psg_explain.specs.Plans.{AreCanonical, Flows, Step, at_of, cases_at, halted, rows_at, rows_claimed};
ghost use Rattle.psg_explain.specs.Refutations.{AreClaimed, AreRight, AreSortsOfKeys, ClaimTo, IsClaim, Refutes};
ghost use Rattle.psg_explain.specs.Refutations.{is_twice_among};
ghost use Rattle.psg_explain.specs.Sources.{AreSortsAt, AreStages, IsClaimable, IsStage};
ghost use Rattle.psg_explain.specs.Walks.{At};

use crate::applying::is_right;
use crate::casing::cases_after;
use crate::given::Case;
use crate::putting::bounded;
use crate::refutation::{Claim, Refutation, Verdict};
use crate::regions::{declared, is_twice};
use crate::stages::{Source, Stage};
use crate::staging::{kinds_at, stages_of};
use psg_grammar::{Definition, Kind};
use psg_scope::NameCol;
use psg_specimen::Language;
use psg_specimen::laws::promises;
use psg_terms::canonical::canonical;
use psg_terms::matching::same_all;
use psg_terms::{Seq, Signature, SortId, Term, Txt, have_sorts};
use psg_tree::{Path, Tree, at};
use std::alloc::{AllocError, Global};

/// Returns the sort of the kind; nothing where there is no such kind.
fn sort_of(definition: &Definition, kind: Kind) -> Option<SortId>
    ensures { result ≡ kind_sort_of definition.now kind }
{
    match kind {
        Kind::Phylum(phylum) => match definition.phyla.as_slice().get(phylum as usize) {
            Some(phylum) => Some(phylum.sort),
            None => None,
        },
        Kind::List(list) => match definition.lists.as_slice().get(list as usize) {
            Some(list) => Some(list.sort),
            None => None,
        },
    }
}

/// Returns the sort of the space; nothing where there is no such space.
fn sort_of_space(definition: &Definition, space: u32) -> Option<SortId>
    ensures { result ≡ option_map (λ (e : Space). e.sort) (slice_get definition.now.spaces space) }
{
    match definition.spaces.as_slice().get(space as usize) {
        Some(space) => Some(space.sort),
        None => None,
    }
}

/// Returns the kind at the place.
fn kind_at(kinds: &[Kind], place: usize) -> Kind
    requires { place < length kinds.now }
    ensures { slice_get kinds.now place ≡ Some result }
{
    kinds[place]
}

/// Returns the sorts of the kinds; nothing where one is not there.
fn kind_sorts(
    alloc: Global,
    definition: &Definition,
    kinds: &[Kind],
) -> Result<Option<Vec<SortId>>, AllocError>
    ensures { IfOk result
        (λ o. MatchOption o ((sorts : List ℕ) → AreKindSorts definition.now kinds.now sorts → ⊥)
        (λ v. AreKindSorts definition.now kinds.now (numbers_of v.items))) }
{
    let mut sorts = Vec::new(alloc);
    for i in 0..kinds.len() {
        let kind = kind_at(kinds, i);
        let found = sort_of(definition, kind);
        let Some(sort) = found else {
            return Ok(None);
        };
        sorts.push(sort)?;
    }
    Ok(Some(sorts))
}

/// Returns the sorts of the entities of the keys; nothing where a space is not there.
fn key_sorts(
    alloc: Global,
    definition: &Definition,
    keys: &[NameCol],
) -> Result<Option<Vec<SortId>>, AllocError>
    ensures { IfOk result
        (λ o. MatchOption o ((sorts : List ℕ) → AreSortsOfKeys definition.now (keys_of keys.now) sorts → ⊥)
        (λ v. AreSortsOfKeys definition.now (keys_of keys.now) (numbers_of v.items))) }
{
    let mut sorts = Vec::new(alloc);
    for i in 0..keys.len() {
        let key = &keys[i];
        let found = sort_of_space(definition, key.space);
        let Some(sort) = found else {
            return Ok(None);
        };
        sorts.push(sort)?;
    }
    Ok(Some(sorts))
}

/// Returns the sorts of the columns of a step: of the value and of the wanted values, and of the entities of the keys.
fn sorts_at(
    alloc: Global,
    definition: &Definition,
    kinds: &[Kind],
    keys: &[NameCol],
) -> Result<Option<Vec<SortId>>, AllocError>
    ensures { IfOk result (λ o. MatchOption o
        ((sorts : List ℕ) → AreSortsAt definition.now kinds.now (keys_of keys.now) sorts → ⊥)
        (λ v. AreSortsAt definition.now kinds.now (keys_of keys.now) (numbers_of v.items))) }
{
    let values = kind_sorts(alloc, definition, kinds)?;
    let Some(mut sorts) = values else {
        return Ok(None);
    };
    let entities = key_sorts(alloc, definition, keys)?;
    let Some(others) = entities else {
        return Ok(None);
    };
    sorts.extend_from_slice(others.as_slice())?;
    Ok(Some(sorts))
}

/// Fails as if out of memory where one of the terms has more than 2^20 variables and constructors.
fn all_bounded(row: &[Term]) -> Result<(), AllocError> {
    for i in 0..row.len() {
        bounded(&row[i])?;
    }
    Ok(())
}

/// Says whether the row is canonical and has these sorts.
fn is_claimable(
    alloc: Global,
    sig: &Signature,
    sorts: &[SortId],
    row: &[Term],
) -> Result<bool, AllocError>
    ensures { IfOk result
        (λ b. IsTrue b ↔ (IsCanonical sig.now row.now × HaveSorts sig.now row.now (numbers_of sorts.now))) }
{
    all_bounded(row)?;
    let sorted = have_sorts(sig, row, sorts);
    if !sorted {
        return Ok(false);
    }
    let numbered = canonical(alloc, sig, row)?;
    let same = same_all(row, numbered.as_slice());
    Ok(same)
}

/// Says whether each of the rows is canonical and has these sorts.
fn are_sorted(
    alloc: Global,
    definition: &Definition,
    sorts: &[SortId],
    rows: &[Seq<Term>],
) -> Result<bool, AllocError>
    ensures { IfOk result (λ b. IsTrue b
        ↔ AllByRecursion (IsClaimable definition.now (numbers_of sorts.now)) rows.now) }
{
    for i in 0..rows.len() {
        let row = rows[i].as_slice();
        let met = is_claimable(alloc, &definition.signature, sorts, row)?;
        if !met {
            return Ok(false);
        }
    }
    Ok(true)
}

/// Says whether the rows are canonical and have the columns of the step in number and sorts.
fn are_claimable(
    alloc: Global,
    definition: &Definition,
    stage: &Stage,
    rows: &[Seq<Term>],
) -> Result<bool, AllocError>
    ensures claimed { IfOk result (λ b. (s : Step) → IsStage definition.now stage.now s
        → IsTrue b ↔ AreClaimed definition.now s.part s.number rows.now) }
    ensures canonical { IfOk result (λ b. IsTrue b → AreCanonical rows.now) }
{
    let kinds = kinds_at(alloc, definition, stage)?;
    let keys = stage.header.names.as_slice();
    let found = sorts_at(alloc, definition, kinds.as_slice(), keys)?;
    let Some(sorts) = found else {
        return Ok(false);
    };
    let met = are_sorted(alloc, definition, sorts.as_slice(), rows)?;
    Ok(met)
}

/// Says whether the claim is one of the step, by path, cell and number.
fn is_at(stage: &Stage, claim: &Claim) -> bool
    ensures { IsTrue result ↔ ((claim.now.path ≡ stage.now.path) × (claim.now.cell ≡ stage.now.cell)
        × (claim.now.step ≡ stage.now.step)) }
{
    if claim.path.steps() != stage.path.as_slice() {
        return false;
    }
    if claim.cell != stage.cell {
        return false;
    }
    claim.step as usize == stage.step
}

/// Says whether that many pairs of that many rows are as many as this.
fn are_pairs(lefts: usize, rights: usize, many: usize) -> bool
    ensures { lefts * rights ≡ many → result ≡ true }
{
    lefts.saturating_mul(rights) == many
}

/// Says whether there are as many verdicts as the step has pairs, where it has pairs. Where there are not, the cases
/// need not be made.
fn are_as_many(stage: &Stage, claims: &[Claim], verdicts: &[Verdict]) -> bool
    ensures { (definition : PlainDefinition) (s : Step) → IsStage definition stage.now s
        → length (cases_at definition (map rows_claimed claims.now) s) ≡ length verdicts.now → result ≡ true }
{
    match &stage.source {
        Source::Pair { before, child, .. } => {
            let lefts = count_at(claims, *before);
            let rights = count_at(claims, *child);
            let many = are_pairs(lefts, rights, verdicts.len());
            many
        }
        Source::Own => true,
        Source::Closed { .. } => true,
    }
}

/// Counts the rows of the claim at the place.
fn count_at(claims: &[Claim], place: usize) -> usize
    ensures { result ≡ length (rows_at (map rows_claimed claims.now) place) }
{
    if claims.len() <= place {
        return 0;
    }
    claims[place].rows.as_slice().len()
}

/// Says whether there is a right verdict on each of the cases, in order.
fn all_right(
    alloc: Global,
    rows: &[Seq<Term>],
    cases: &[Case],
    verdicts: &[Verdict],
) -> Result<bool, AllocError>
    requires { AreCanonical rows.now }
    ensures { IfOk result (λ b. IsTrue b ↔ AreRight rows.now cases.now verdicts.now) }
{
    if cases.len() != verdicts.len() {
        return Ok(false);
    }
    for i in 0..cases.len() {
        let right = is_right(alloc, rows, &cases[i], &verdicts[i])?;
        if !right {
            return Ok(false);
        }
    }
    Ok(true)
}

/// Says whether there is a right verdict on each case of the step, in order, where the claims are those before it.
fn are_right(
    alloc: Global,
    definition: &Definition,
    stage: &Stage,
    before: &[Claim],
    claim: &Claim,
) -> Result<bool, AllocError>
    requires rows { AreCanonical claim.now.rows }
    requires before { AllByRecursion AreCanonical (map rows_claimed before.now) }
    ensures { IfOk result (λ b. (s : Step) → IsStage definition.now stage.now s
        → IsTrue b ↔ AreRight claim.now.rows (cases_at definition.now (map rows_claimed before.now) s)
        claim.now.verdicts) }
{
    let verdicts = claim.verdicts.as_slice();
    let many = are_as_many(stage, before, verdicts);
    if !many {
        return Ok(false);
    }
    let all = cases_after(alloc, definition, stage, before)?;
    let right = all_right(alloc, claim.rows.as_slice(), all.as_slice(), verdicts)?;
    Ok(right)
}

/// Says whether the claim is that of the step, where the claims are those before it.
fn is_claim(
    alloc: Global,
    definition: &Definition,
    stage: &Stage,
    before: &[Claim],
    claim: &Claim,
) -> Result<bool, AllocError>
    requires { AllByRecursion AreCanonical (map rows_claimed before.now) }
    ensures { IfOk result (λ b. (s : Step) → IsStage definition.now stage.now s
        → IsTrue b ↔ IsClaim definition.now (at_of definition.now (map rows_claimed before.now) s) claim.now) }
{
    let here = is_at(stage, claim);
    if !here {
        return Ok(false);
    }
    let claimable = are_claimable(alloc, definition, stage, claim.rows.as_slice())?;
    if !claimable {
        return Ok(false);
    }
    let right = are_right(alloc, definition, stage, before, claim)?;
    Ok(right)
}

/// Says whether there are no rows.
pub(crate) fn is_none(rows: &[Seq<Term>]) -> bool
    ensures { IsTrue result ↔ (rows.now ≡ []) }
{
    rows.is_empty()
}

/// Says whether the claim at the place is the last one.
fn is_last(place: usize, claims: &[Claim]) -> bool
    requires { place < length claims.now }
    ensures { IsTrue result ↔ (place + 1 ≡ length claims.now) }
{
    place + 1 == claims.len()
}

/// Returns the claims before the place.
pub(crate) fn claims_before(claims: &[Claim], place: usize) -> &[Claim]
    requires { place ≤ length claims.now }
    ensures { result.now ≡ take place claims.now }
{
    &claims[..place]
}

/// Says whether the claims are those of the steps in order, up to a step without rows.
fn are_claims(
    alloc: Global,
    definition: &Definition,
    stages: &[Stage],
    claims: &[Claim],
) -> Result<bool, AllocError>
    requires { (steps : List Step) × AreStages definition.now stages.now steps }
    ensures { IfOk result (λ b. (steps : List Step) → AreStages definition.now stages.now steps
        → IsTrue b ↔ ((last : At)
        × Flows definition.now rows_claimed (IsClaim definition.now) [] steps claims.now (halted last))) }
{
    for place in 0..stages.len() {
        if claims.len() <= place {
            return Ok(false);
        }
        let before = claims_before(claims, place);
        let claim = &claims[place];
        let met = is_claim(alloc, definition, &stages[place], before, claim)?;
        if !met {
            return Ok(false);
        }
        let none = is_none(claim.rows.as_slice());
        if none {
            let over = is_last(place, claims);
            return Ok(over);
        }
    }
    Ok(false)
}

/// Says whether the node at the path declares the name twice in the space.
fn is_twice_at(
    alloc: Global,
    lang: &Language,
    tree: &Tree,
    path: &Path,
    space: u32,
    name: &Txt,
) -> Result<bool, AllocError>
    requires { IsFormed lang.now tree.now }
    ensures { IfOk result (λ b. IsTrue b ↔ ((node : Fragment) × (node_at tree.now path.now ≡ Some node)
        × (is_twice_among (declared_inside lang.now node) (space ∷ name.now) ≡ true))) }
{
    let found = at(tree, path);
    let Some(node) = found else {
        return Ok(false);
    };
    let keys = declared(alloc, lang.definition(), node)?;
    let twice = is_twice(keys.as_slice(), space, name.as_str());
    Ok(twice)
}

/// Says whether the claims are those of the steps of the node at the path, up to a step without rows.
fn are_claims_at(
    alloc: Global,
    lang: &Language,
    tree: &Tree,
    path: &Path,
    claims: &Seq<Claim>,
) -> Result<bool, AllocError>
    requires { IsFormed lang.now tree.now }
    ensures { IfOk result (λ b. IsTrue b ↔ ((node : Fragment) × (node_at tree.now path.now ≡ Some node)
        × (last : At) × ClaimTo lang.now path.now node claims.now last)) }
{
    let found = at(tree, path);
    let Some(node) = found else {
        return Ok(false);
    };
    let stages = stages_of(alloc, lang, path, node)?;
    let inner = claims.as_slice();
    let met = are_claims(alloc, lang.definition(), stages.as_slice(), inner)?;
    Ok(met)
}

/// Says whether the refutation is right.
fn is_right_refutation(
    alloc: Global,
    lang: &Language,
    tree: &Tree,
    refutation: &Refutation,
) -> Result<bool, AllocError>
    requires { IsFormed lang.now tree.now }
    ensures { IfOk result (λ right. IsTrue right ↔ Refutes lang.now tree.now refutation.now) }
{
    match refutation {
        Refutation::Twice { path, space, name } => {
            let twice = is_twice_at(alloc, lang, tree, path, *space, name)?;
            Ok(twice)
        }
        Refutation::Empty { path, claims } => {
            let met = are_claims_at(alloc, lang, tree, path, claims)?;
            Ok(met)
        }
    }
}

/// Says whether the refutation shows that the tree has no completion: whether its claims are those of the steps in
/// their order, and each verdict is right. It rewrites terms and compares them, and solves no equation. It fails where
/// memory runs out, and as if out of memory where a term that it derives has more than 2^20 variables and constructors.
pub fn check_refutation(
    alloc: Global,
    lang: &Language,
    tree: &Tree,
    refutation: &Refutation,
) -> Result<bool, AllocError>
    requires { IsFormed lang.now tree.now }
    ensures right { IfOk result (λ right. IsTrue right ↔ Refutes lang.now tree.now refutation.now) }
    ensures wrong { IfOk result (λ right. IsTrue right → IsCompletable lang.now tree.now → ⊥) }
{
    let definition = lang.definition();
    promises(definition);
    let right = is_right_refutation(alloc, lang, tree, refutation)?;
    Ok(right)
}
