//! Laws of relations, as contracts of calls that do nothing. Where a call answers `Wide`, each relation passes the
//! limit; these laws say that there is one.
ghost use Rattle.std.specs.Prelude.{◌++◌, List, ℕ};
ghost use Rattle.psg_unify.specs.Pairs.{Pair};
ghost use Rattle.psg_terms.specs.Terms.{Term as Plain};
ghost use Rattle.psg_terms.specs.Relations.{IsGlued, IsRelation};
ghost use Rattle.psg_relation.specs.Choices.{Agrees, AllHaveSorts, IsOfRow, IsProjected, picked};
ghost use Rattle.psg_relation.specs.Joining.{MayJoin};

use psg_terms::Signature;

/// Shows that rows of equal sorts have a relation.
pub fn some_relation(sig: &Signature)
    ensures { (rows : List (List Plain)) (sorts : List ℕ) → AllHaveSorts sig.now rows sorts
        → (rel : List (List Plain)) × IsRelation sig.now sorts (IsOfRow sig.now rows) rel }
{
    sig.sound();
}

/// Shows that columns of rows of equal sorts have a relation.
pub fn some_projection(sig: &Signature)
    ensures { (rows : List (List Plain)) (keep sorts : List ℕ) → AllHaveSorts sig.now rows sorts
        → (rel : List (List Plain)) × IsRelation sig.now (picked sorts keep) (IsProjected sig.now rows keep) rel }
{
    sig.sound();
}

/// Shows that the joins of rows have a relation.
pub fn some_join(sig: &Signature)
    ensures { (left right : List (List Plain)) (pairs : List Pair) (keep : List ℕ)
        → MayJoin sig.now left right pairs keep
        → (ls rs : List ℕ) → AllHaveSorts sig.now left ls → AllHaveSorts sig.now right rs
        → (rel : List (List Plain)) × IsRelation sig.now (picked (ls ++ rs) keep)
        (IsGlued sig.now (Agrees pairs keep) left right) rel }
{
    sig.sound();
}
