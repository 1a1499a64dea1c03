//! Laws of rows and relations, as contracts of calls that do nothing.
ghost use Rattle.std.specs.Prelude.{◌≡◌, ◌↔◌, ◌<◌, ◌^◌, List, ℕ, map};
ghost use Rattle.psg_terms.specs.Terms.{Term as Plain};
ghost use Rattle.psg_terms.specs.Signature.{HaveSorts};
ghost use Rattle.psg_terms.specs.Instances.{Substitution, substitute, IsInstance, IsGrounding};
ghost use Rattle.psg_terms.specs.Instances.{IsGroundInstance, HasSameInstances};
ghost use Rattle.psg_terms.specs.Canonical.{IsCanonical, AreWrittenOut};
ghost use Rattle.psg_terms.specs.Refusals.{IsRefused};
ghost use Rattle.psg_terms.specs.declared.declare.SortDecl.{SortDecl};
ghost use Rattle.psg_terms.specs.declared.declare.SigFault.{SigFault};
ghost use Rattle.psg_terms.specs.Relations.{IsIn, IsMaximal, IsRelation};
ghost use Rattle.psg_terms.specs.Text.{row_text};
ghost use Rattle.psg_terms.specs.Clear.{HasClearNames};
ghost use Rattle.psg_terms.specs.Weight.{weight_of};

use crate::sorts::Signature;

/// A family of sets of rows without variables: what is possible for each choice.
pub trait Family {
    ghost use Rattle.std.specs.Prelude.{List};
    ghost use Rattle.psg_terms.specs.Terms.{Term as Plain};

    ghost possible: { Self → List Plain → Type 0 };
}

/// Shows that written sorts have at most one fault. So where they have one, `Signature::new` returns it, or
/// `Memory`.
pub fn one_fault()
    ensures { (written : List SortDecl) (f g : SigFault) → IsRefused written f → IsRefused written g → f ≡ g }
{}

/// Shows that an instance of an instance is an instance.
pub fn instances()
    ensures { (a b c : List Plain) → IsInstance a b → IsInstance b c → IsInstance a c }
{}

/// Shows that canonical rows of the same sorts are equal if they have the same ground instances, or are instances of
/// each other.
pub fn canonical_rows(sig: &Signature)
    ensures same { (a b : List Plain) (sorts : List ℕ) → HaveSorts sig.now a sorts → HaveSorts sig.now b sorts
        → IsCanonical sig.now a → IsCanonical sig.now b → HasSameInstances sig.now a b → a ≡ b }
    ensures instances { (a b : List Plain) (sorts : List ℕ) → HaveSorts sig.now a sorts → HaveSorts sig.now b sorts
        → IsCanonical sig.now a → IsCanonical sig.now b → IsInstance a b → IsInstance b a → a ≡ b }
{
    sig.sound();
}

/// Shows that the rows of a relation are exactly its maximal shapes.
pub fn maximal_rows<F: Family>(sig: &Signature)
    ensures { (sorts : List ℕ) (rows : List (List Plain)) → IsRelation sig.now sorts F.possible rows
        → (row : List Plain) → IsIn row rows ↔ IsMaximal sig.now sorts F.possible row }
{
    sig.sound();
}

/// Shows that a family has at most one relation: two have the same rows, and the same texts in the same order. They are
/// the same list where no constructor's name has a character that a term's text puts between names, and their weight is
/// below 2^64, so that the numbers of variables are written whole.
pub fn one_relation<F: Family>(sig: &Signature)
    ensures rows { (ls rs : List ℕ) (rows others : List (List Plain)) → IsRelation sig.now ls F.possible rows
        → IsRelation sig.now rs F.possible others → (row : List Plain) → IsIn row rows → IsIn row others }
    ensures texts { (ls rs : List ℕ) (rows others : List (List Plain)) → IsRelation sig.now ls F.possible rows
        → IsRelation sig.now rs F.possible others → map (row_text sig.now) rows ≡ map (row_text sig.now) others }
    ensures list { (ls rs : List ℕ) (rows others : List (List Plain)) → IsRelation sig.now ls F.possible rows
        → IsRelation sig.now rs F.possible others → HasClearNames sig.now → weight_of rows < 2 ^ 64 → rows ≡ others }
{
    sig.sound();
}

/// Shows that a row is an instance of a row of a relation exactly where all its ground instances are possible for one
/// choice.
pub fn general_rows<F: Family>(sig: &Signature)
    ensures { (sorts : List ℕ) (rows : List (List Plain)) → IsRelation sig.now sorts F.possible rows
        → (row : List Plain) → HaveSorts sig.now row sorts → AreWrittenOut sig.now row
        → ((general : List Plain) × IsIn general rows × IsInstance row general)
        ↔ ((c : F) × ((f : Substitution) → IsGrounding sig.now f → F.possible c (map (substitute f) row))) }
{
    sig.sound();
}

/// Shows that each row of a relation is an instance of one of other rows exactly where what is possible for a choice is
/// among the ground instances of one of them.
pub fn covered_rows<F: Family>(sig: &Signature)
    ensures { (sorts : List ℕ) (rows others : List (List Plain)) → IsRelation sig.now sorts F.possible rows
        → ((other : List Plain) → IsIn other others → HaveSorts sig.now other sorts)
        → ((general : List Plain) → IsIn general rows
        → (other : List Plain) × IsIn other others × IsInstance general other)
        ↔ ((c : F) → ((columns : List Plain) × F.possible c columns) → (other : List Plain) × IsIn other others
        × ((columns : List Plain) → F.possible c columns → IsGroundInstance sig.now other columns)) }
{
    sig.sound();
}
