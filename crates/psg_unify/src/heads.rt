//! Pairs of columns that have different constructors at their heads.
ghost use Rattle.std.specs.Prelude.{◌↔◌, IfSome, IfNone, IsTrue, List, ℕ};
ghost use Rattle.psg_terms.specs.Terms.{Term as Plain};
ghost use Rattle.psg_terms.specs.Signature.{Signature as Sig};
ghost use Rattle.psg_unify.specs.Clashing.{IsHeadOf, HaveClash, AreNeverEqual, NeverAgree};
ghost use Rattle.psg_unify.specs.Pairs.{IsAgreeing};

use psg_terms::{Node, Term};

/// Returns the constructor at the head of a term, or `None` for a variable.
fn head_of(term: &Term) -> Option<u32>
    ensures some { IfSome result (IsHeadOf term.now) }
    ensures none { IfNone result ((c : ℕ) → IsHeadOf term.now c → ⊥) }
{
    match term.node() {
        Node::Var { .. } => None,
        Node::Con { con, .. } => Some(con.0),
    }
}

/// Says whether the terms have different constructors at their heads. Then no values of their variables make them
/// equal. It takes one step.
pub fn is_clash(a: &Term, b: &Term) -> bool
    ensures says { IsTrue result ↔ HaveClash a.now b.now }
    ensures never { IsTrue result → AreNeverEqual a.now b.now }
{
    match head_of(a) {
        Some(first) => match head_of(b) {
            Some(second) => first != second,
            None => false,
        },
        None => false,
    }
}

/// Says whether the columns of a pair have different constructors at their heads.
fn is_pair_clash(left: &[Term], right: &[Term], pair: (usize, usize)) -> bool
    ensures { IsTrue result → NeverAgree left.now right.now pair }
{
    match left.get(pair.0) {
        Some(one) => match right.get(pair.1) {
            Some(other) => is_clash(one, other),
            None => false,
        },
        None => false,
    }
}

/// Says whether the columns of one of the pairs have different constructors at their heads. It takes one step a pair.
pub(crate) fn has_clash(left: &[Term], right: &[Term], pairs: &[(usize, usize)]) -> bool
    ensures { IsTrue result → (sig : Sig) (values : List Plain)
        → IsAgreeing sig left.now right.now pairs.now values → ⊥ }
{
    for i in 0..pairs.len() {
        let pair = pairs[i];
        if is_pair_clash(left, right, pair) {
            return true;
        }
    }
    false
}
