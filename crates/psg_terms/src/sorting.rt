//! The test whether terms are of a signature.
ghost use Rattle.std.specs.Prelude.{◌↔◌, IsTrue};
ghost use Rattle.psg_terms.specs.Signature.{HasSort, HaveSorts};
ghost use Rattle.psg_terms.specs.Kept.{numbers_of};

use crate::sorts::{Signature, SortId};
use crate::term::{Node, Term};

/// Says whether the term is one of the signature, of this sort. It reads each place of the term at most once.
#[cycle(sorting)]
pub fn has_sort(sig: &Signature, term: &Term, sort: SortId) -> bool
    ensures { IsTrue result ↔ HasSort sig.now term.now sort.0 }
{
    match term.node() {
        Node::Var { sort: own, .. } => own.0 == sort.0 && own.0 < sig.sorts(),
        Node::Con { con, args } => {
            if con.0 >= sig.constructors() {
                return false;
            }
            let made = sig.sort_of(*con);
            if made.0 != sort.0 {
                return false;
            }
            let constructor = sig.constructor(*con);
            let fitting = have_sorts(sig, args.as_slice(), constructor.args.as_slice());
            fitting
        }
    }
}

/// Says whether the terms are ones of the signature, of these sorts place by place.
#[cycle(sorting)]
pub fn have_sorts(sig: &Signature, row: &[Term], sorts: &[SortId]) -> bool
    ensures { IsTrue result ↔ HaveSorts sig.now row.now (numbers_of sorts.now) }
{
    if row.len() != sorts.len() {
        return false;
    }
    for i in 0..row.len() {
        if !has_sort(sig, &row[i], sorts[i]) {
            return false;
        }
    }
    true
}
