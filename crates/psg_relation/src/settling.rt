//! Columns of two rows that agree for all values of their variables, or for none, as far as that shows at once.
ghost use Rattle.std.specs.Prelude.{◌≡◌, ◌<◌, All, IfSome, IsTrue, Some, true, false, length};
ghost use Rattle.psg_terms.specs.Weight.{above_of};
ghost use Rattle.psg_relation.specs.Settling.{IsSettled, AreSettled};

use crate::weighing::{MOST_DEPTH, MOST_SYMBOLS};
use psg_terms::Term;
use psg_terms::matching::same;
use psg_unify::is_clash;

/// Says whether the term has no variable and is no larger than a term of a relation.
fn is_closed_term(term: &Term) -> bool
    ensures { IsTrue result → above_of term.now ≡ 0 }
{
    if term.above() > 0 {
        return false;
    }
    if term.symbols() > MOST_SYMBOLS {
        return false;
    }
    term.depth() <= MOST_DEPTH
}

/// Says whether two terms are equal for all values of their variables, or for none. `None` is returned where that has
/// to be solved: one of them has variables, or is larger than a term of a relation.
pub fn settled(a: &Term, b: &Term) -> Option<bool>
    ensures { IfSome result (λ equal. IsSettled a.now b.now equal) }
{
    if is_clash(a, b) {
        return Some(false);
    }
    if !is_closed_term(a) {
        return None;
    }
    if !is_closed_term(b) {
        return None;
    }
    let equal = same(a, b);
    Some(equal)
}

/// Says whether two terms are equal for no values.
fn is_never(equal: Option<bool>) -> bool
    ensures { IsTrue result → equal ≡ Some false }
{
    match equal {
        Some(settled) => !settled,
        None => false,
    }
}

/// Says whether all pairs so far agree for all values, and two terms are equal for all values.
fn is_always(all: bool, equal: Option<bool>) -> bool
    ensures { IsTrue result → (all ≡ true) × (equal ≡ Some true) }
{
    if !all {
        return false;
    }
    match equal {
        Some(settled) => settled,
        None => false,
    }
}

/// Says whether two rows agree on the pairs for all values of their variables, or for none. `None` is returned where
/// that has to be solved. It makes nothing, and reads of each pair the heads, and whole terms only without variables.
pub fn settled_pairs(left: &[Term], right: &[Term], pairs: &[(usize, usize)]) -> Option<bool>
    requires { All (λ p. (p.0 < length left.now) × (p.1 < length right.now)) pairs.now }
    ensures { IfSome result (λ equal. AreSettled left.now right.now pairs.now equal) }
{
    let mut all = true;
    for i in 0..pairs.len() {
        let pair = pairs[i];
        let equal = settled(&left[pair.0], &right[pair.1]);
        if is_never(equal) {
            return Some(false);
        }
        all = is_always(all, equal);
    }
    if all { Some(true) } else { None }
}
