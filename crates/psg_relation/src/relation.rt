//! Relations.
ghost use Rattle.std.specs.Prelude.{◌≡◌, ◌∷◌, ◌↔◌, IfOk, IfErr, IsTrue, List, ℕ, [], vec_len};
ghost use Rattle.psg_terms.specs.Terms.{Term as Plain};
ghost use Rattle.psg_terms.specs.Signature.{HaveSorts};
ghost use Rattle.psg_terms.specs.Sound.{IsSound};
ghost use Rattle.psg_terms.specs.Instances.{IsInstance};
ghost use Rattle.psg_terms.specs.Canonical.{IsCanonical};
ghost use Rattle.psg_terms.specs.Relations.{IsIn, IsOnce, IsRelation};
ghost use Rattle.psg_terms.specs.Text.{IsInTextOrder};
ghost use Rattle.psg_terms.specs.Weight.{PassesLimit};
ghost use Rattle.psg_relation.specs.Choices.{AllHaveSorts, HasWide, IsOfRow, MayBeWide};
ghost use Rattle.psg_relation.specs.Sealed.{AllReady, AreCanonicalOf};

use crate::row::{RelRow, same_rows, shared_rows};
use crate::sifting::sift;
use crate::weighing::{MOST_DEPTH, MOST_SYMBOLS, deepest_of, weight_of};
use psg_terms::canonical::canonical;
use psg_terms::{Seq, Signature};
use std::alloc::{AllocError, Global};
use std::marker::Model;
use thiserror::Error;

/// The reason why there is no relation.
#[derive(Clone, Copy, Debug, PartialEq, Eq, Error, Drop)]
pub enum RelFault {
    /// The relation has more than 16,384 variables and constructors, or a term deeper than 1,000.
    #[error("the relation is too large")]
    Wide,
    /// Memory ran out.
    #[error("there is no memory left")]
    Memory,
}

impl From<AllocError> for RelFault {
    ghost use Rattle.std.specs.Prelude.{◌≡◌};
    ghost use Rattle.psg_relation.specs.declared.relation.RelFault.TheVariants.{Memory};

    ghost from_gives = { λ _ e. e ≡ Memory };

    fn from(_stop: AllocError) -> RelFault {
        RelFault::Memory
    }
}

/// A list of canonical rows of one width, none an instance of another one, in byte order of their texts.
#[derive(Drop)]
pub struct Rel {
    kept: Seq<RelRow>,
    weight: u64,
    deepest: u64,
}

impl Model for Rel {
    ghost use Rattle.std.specs.Prelude.{List};
    ghost use Rattle.std.specs.Coded.{coded_list};
    ghost use Rattle.psg_terms.specs.Terms.{Term as Plain};
    ghost use Rattle.psg_terms.specs.TermCode.{coded_term};
    ghost use Rattle.psg_relation.specs.Sealed.{IsSealed};

    ghost Value = { List (List Plain) };

    ghost coded = { coded_list (coded_list coded_term) };

    ghost view = { λ r. r.kept };

    ghost invariant = { λ r. IsSealed r.kept r.weight r.deepest };
}

impl Rel {
    ghost use Rattle.psg_terms.specs.Weight.{weight_of, PassesLimit};
    ghost use Rattle.psg_relation.specs.Heavy.{deepest_of};
    ghost use Rattle.psg_relation.specs.Sealed.{AreSealed};

    /// Makes the relation of the rows: the most general ones of their canonical forms, each once.
    ///
    /// `Wide` is returned exactly where this relation has more than 16,384 variables and constructors or a term deeper
    /// than 1,000; a row that alone is too large does not count where it is an instance of another one. `Memory` is
    /// returned when memory runs out, and where a row too large for a relation repeats a variable of another row by two
    /// equally large terms of more than 2^20 variables and constructors, which are not compared.
    ///
    /// It writes each row out once, writes the text of each row that is not too large once to sort by it, and then
    /// compares each row with those of the most general ones so far that have its constructor, or a variable, at the
    /// head of one column: the first one of fewer than sixteen rows, and else one by whose heads the fewest pairs of
    /// rows are compared. A row with a variable there, and a row that has an instance among them, may be compared with
    /// all of them. A row that is alone needs no text and no comparison.
    pub fn of(alloc: Global, sig: &Signature, rows: &[RelRow]) -> Result<Rel, RelFault>
        requires { (sorts : List ℕ) × AllHaveSorts sig.now rows.now sorts }
        ensures relation { IfOk result (λ rel. (sorts : List ℕ) → AllHaveSorts sig.now rows.now sorts
            → IsRelation sig.now sorts (IsOfRow sig.now rows.now) rel) }
        ensures within { IfOk result (λ rel. PassesLimit rel → ⊥) }
        ensures wide { IfErr result (MayBeWide ((sorts : List ℕ) → AllHaveSorts sig.now rows.now sorts
            → (others : List (List Plain)) → IsRelation sig.now sorts (IsOfRow sig.now rows.now) others
            → PassesLimit others)) }
        ensures some { IfErr result (MayBeWide ((sorts : List ℕ) → AllHaveSorts sig.now rows.now sorts
            → HasWide sig.now sorts (IsOfRow sig.now rows.now))) }
    {
        sig.sound();
        let made = canonical_rows(alloc, sig, rows)?;
        relation_of(alloc, sig, made)
    }

    /// Returns the rows, in order.
    pub fn rows(&self) -> &[RelRow]
        ensures rows { result.now ≡ self.now }
        ensures sealed { AreSealed self.now }
    {
        self.kept.as_slice()
    }

    /// Returns the relation without rows.
    pub fn empty(alloc: Global, sig: &Signature) -> Rel
        ensures { result ≡ [] }
    {
        sig.sound();
        Rel {
            kept: Seq::of(Vec::new(alloc)),
            weight: 0,
            deepest: 0,
        }
    }

    /// Returns the same relation once more, with one more owner of each of its terms. It fails where memory runs out.
    pub fn share(&self, alloc: Global) -> Result<Rel, AllocError>
        ensures { IfOk result (λ r. r ≡ self.now) }
    {
        Ok(Rel {
            kept: Seq::of(shared_rows(alloc, self.rows())?),
            weight: self.weight,
            deepest: self.deepest,
        })
    }

    /// Says whether there is no row.
    pub fn is_empty(&self) -> bool
        ensures { IsTrue result ↔ (self.now ≡ []) }
    {
        self.kept.as_slice().is_empty()
    }

    /// Says whether the relations are equal, row by row. It takes one step where they weigh differently, else at most
    /// one for each variable and constructor, of which a relation has at most 16,384.
    pub fn same(&self, other: &Rel) -> bool
        ensures { IsTrue result ↔ (self.now ≡ other.now) }
    {
        if self.weight != other.weight {
            return false;
        }
        same_rows(self.rows(), other.rows())
    }

    /// Returns how many variables and constructors the rows have together, at most 16,384. It takes one step.
    pub fn weight(&self) -> u64
        ensures weight { result ≡ weight_of self.now }
        ensures within { PassesLimit self.now → ⊥ }
    {
        self.weight
    }

    /// Returns how deep the deepest term is, at most 1,000, and 0 where there is none. It takes one step.
    pub fn deepest(&self) -> u64
        ensures { result ≡ deepest_of self.now }
    {
        self.deepest
    }
}

/// Returns the canonical forms of rows.
fn canonical_rows(
    alloc: Global,
    sig: &Signature,
    rows: &[RelRow],
) -> Result<Vec<RelRow>, AllocError>
    requires { (sorts : List ℕ) × AllHaveSorts sig.now rows.now sorts }
    ensures { IfOk result (λ made. AreCanonicalOf sig.now rows.now made.items) }
{
    let mut made = Vec::with_capacity(alloc, rows.len())?;
    for row in rows {
        let form = canonical(alloc, sig, row.terms())?;
        made.push(RelRow::new(form))?;
    }
    Ok(made)
}

/// Returns the relation of the rows, of which those that are not too large are canonical. An error is `Wide` if a row,
/// or all together, pass the limit.
pub fn relation_of(alloc: Global, sig: &Signature, rows: Vec<RelRow>) -> Result<Rel, RelFault>
    requires sorts { (sorts : List ℕ) × AllHaveSorts sig.now rows.items sorts }
    requires ready { AllReady sig.now rows.items }
    ensures relation { IfOk result (λ rel. (sorts : List ℕ) → AllHaveSorts sig.now rows.items sorts
        → IsRelation sig.now sorts (IsOfRow sig.now rows.items) rel) }
    ensures within { IfOk result (λ rel. PassesLimit rel → ⊥) }
    ensures wide { IfErr result (MayBeWide ((sorts : List ℕ) → AllHaveSorts sig.now rows.items sorts
        → (others : List (List Plain)) → IsRelation sig.now sorts (IsOfRow sig.now rows.items) others
        → PassesLimit others)) }
    ensures some { IfErr result (MayBeWide ((sorts : List ℕ) → AllHaveSorts sig.now rows.items sorts
        → HasWide sig.now sorts (IsOfRow sig.now rows.items))) }
{
    sig.sound();
    match sift(alloc, sig, rows)? {
        Some(kept) => sealed(sig, kept),
        None => Err(RelFault::Wide),
    }
}

/// Returns the relation of the most general rows. An error is `Wide` if they are too large together. It walks once over
/// the rows.
pub fn sealed(sig: &Signature, kept: Vec<RelRow>) -> Result<Rel, RelFault>
    requires sound { IsSound sig.now }
    requires sorted { (sorts : List ℕ) × AllHaveSorts sig.now kept.items sorts }
    requires canonical { (row : List Plain) → IsIn row kept.items → IsCanonical sig.now row }
    requires apart { (row other : List Plain) → IsIn row kept.items → IsIn other kept.items → IsInstance row other
        → row ≡ other }
    requires once { IsOnce kept.items }
    requires order { IsInTextOrder sig.now kept.items }
    ensures rows { IfOk result (λ rel. rel ≡ kept.items) }
    ensures within { IfOk result (λ rel. PassesLimit rel → ⊥) }
    ensures wide { IfErr result (MayBeWide (PassesLimit kept.items)) }
{
    let weight = weight_of(kept.as_slice());
    let deepest = deepest_of(kept.as_slice());
    if weight > MOST_SYMBOLS || deepest > MOST_DEPTH {
        return Err(RelFault::Wide);
    }
    Ok(Rel {
        kept: Seq::of(kept),
        weight,
        deepest,
    })
}
