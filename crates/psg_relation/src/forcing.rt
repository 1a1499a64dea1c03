//! Variables that have to be terms without variables, and rows with these terms in place of them.
ghost use Rattle.std.specs.Prelude.{◌≡◌, ◌<◌, ◌∷◌, [], All, IfOk, OnOk, IsTrue, length, map};
ghost use Rattle.psg_terms.specs.Terms.{variable};
ghost use Rattle.psg_terms.specs.Signature.{HasSort};
ghost use Rattle.psg_terms.specs.Weight.{above_of};
ghost use Rattle.psg_terms.specs.Instances.{Substitution, substitute};
ghost use Rattle.psg_unify.specs.Pairs.{AgreeOn};
ghost use Rattle.psg_relation.specs.Forcing.{by_forced, Forces, IsFit, IsForced};

use psg_terms::{Node, Signature, SortId, Term, has_sort};
use std::alloc::{AllocError, Global};

/// The most notes of variables, where a variable that is met twice is noted twice. It bounds the search for a variable.
const MOST: usize = 16;

/// A variable that has to be a term without variables.
#[derive(Drop)]
pub struct Forced {
    /// The variable's sort.
    pub sort: SortId,
    /// The variable's number.
    pub number: u32,
    /// The term.
    pub term: Term,
}

/// The variables of both rows that have to be terms without variables.
#[derive(Drop)]
pub struct BothForced {
    /// Those of the left row.
    pub left: Vec<Forced>,
    /// Those of the right row.
    pub right: Vec<Forced>,
}

/// Says whether there is room for one more variable, and whether the term has its sort and no variables.
fn may_force(sig: &Signature, forced: &Vec<Forced>, sort: SortId, term: &Term) -> bool
    ensures { IsTrue result → HasSort sig.now term.now sort.0 × (above_of term.now ≡ 0) }
{
    if forced.len() >= MOST {
        return false;
    }
    if term.above() > 0 {
        return false;
    }
    has_sort(sig, term, sort)
}

/// Notes that a variable has to be this term, where the term has its sort and no variables.
fn force_variable(
    sig: &Signature,
    forced: &mut Vec<Forced>,
    sort: SortId,
    number: u32,
    term: &Term,
) -> Result<(), AllocError>
    ensures { OnOk result (Forces sig.now forced.old.items forced.new.items (variable sort.0 number ∷ [])
        (term.now ∷ [])) }
{
    if may_force(sig, forced, sort, term) {
        let copy = term.share()?;
        forced.push(Forced {
            sort,
            number,
            term: copy,
        })?;
    }
    Ok(())
}

/// Notes which variables of a term have to be which terms so that it is the other term.
#[cycle(force)]
fn force(
    sig: &Signature,
    forced: &mut Vec<Forced>,
    general: &Term,
    closed: &Term,
) -> Result<(), AllocError>
    ensures { OnOk result (Forces sig.now forced.old.items forced.new.items (general.now ∷ []) (closed.now ∷ [])) }
{
    match general.node() {
        Node::Var { sort, number } => {
            force_variable(sig, forced, *sort, *number, closed)?;
            Ok(())
        }
        Node::Con { args, .. } => match closed.node() {
            Node::Con { args: parts, .. } => {
                force_all(sig, forced, args.as_slice(), parts.as_slice())?;
                Ok(())
            }
            Node::Var { .. } => Ok(()),
        },
    }
}

/// Notes which variables of a row have to be which terms so that it is the other row.
#[cycle(force)]
fn force_all(
    sig: &Signature,
    forced: &mut Vec<Forced>,
    row: &[Term],
    closed: &[Term],
) -> Result<(), AllocError>
    ensures { OnOk result (Forces sig.now forced.old.items forced.new.items row.now closed.now) }
{
    if row.len() != closed.len() {
        return Ok(());
    }
    for i in 0..row.len() {
        force(sig, forced, &row[i], &closed[i])?;
    }
    Ok(())
}

/// Returns the variables of both rows that have to be terms without variables, since they are paired with them, as far
/// as their number is small.
pub fn forced_pairs(
    alloc: Global,
    sig: &Signature,
    left: &[Term],
    right: &[Term],
    pairs: &[(usize, usize)],
) -> Result<BothForced, AllocError>
    requires { All (λ p. (p.0 < length left.now) × (p.1 < length right.now)) pairs.now }
    ensures left { IfOk result (λ both. All (IsFit sig.now) both.left.items
        × ((f g : Substitution) → AgreeOn pairs.now (map (substitute f) left.now) (map (substitute g) right.now)
        → All (IsForced f) both.left.items)) }
    ensures right { IfOk result (λ both. All (IsFit sig.now) both.right.items
        × ((f g : Substitution) → AgreeOn pairs.now (map (substitute f) left.now) (map (substitute g) right.now)
        → All (IsForced g) both.right.items)) }
{
    let mut lefts = Vec::new(alloc);
    let mut rights = Vec::new(alloc);
    for i in 0..pairs.len() {
        let pair = pairs[i];
        let one = &left[pair.0];
        let other = &right[pair.1];
        force_closed(sig, &mut lefts, one, other)?;
        force_closed(sig, &mut rights, other, one)?;
    }
    Ok(BothForced {
        left: lefts,
        right: rights,
    })
}

/// Says whether the first term has variables and the second one none.
fn is_open_alone(general: &Term, closed: &Term) -> bool
    ensures { IsTrue result → above_of closed.now ≡ 0 }
{
    general.above() > 0 && closed.above() == 0
}

/// Notes which variables of a term have to be which terms so that it is the other term, where that has no variables.
fn force_closed(
    sig: &Signature,
    forced: &mut Vec<Forced>,
    general: &Term,
    closed: &Term,
) -> Result<(), AllocError>
    ensures fit { OnOk result (All (IsFit sig.now) forced.old.items → All (IsFit sig.now) forced.new.items) }
    ensures forced { OnOk result ((f g : Substitution) → All (IsForced f) forced.old.items
        → substitute f general.now ≡ substitute g closed.now → All (IsForced f) forced.new.items) }
{
    if is_open_alone(general, closed) {
        force(sig, forced, general, closed)?;
    }
    Ok(())
}

/// Returns the term that a variable has to be, or the variable where none is noted.
fn forced_term(
    forced: &[Forced],
    sort: SortId,
    number: u32,
    term: &Term,
) -> Result<Term, AllocError>
    requires { term.now ≡ variable sort.0 number }
    ensures { IfOk result (λ t. t ≡ by_forced forced.now sort.0 number) }
{
    for i in 0..forced.len() {
        let one = &forced[i];
        if one.sort.0 == sort.0 && one.number == number {
            let found = one.term.share()?;
            return Ok(found);
        }
    }
    let own = term.share()?;
    Ok(own)
}

/// Returns a term with the terms of the variables in place of them. Parts without variables are shared.
#[cycle(fill)]
fn fill(alloc: Global, forced: &[Forced], term: &Term) -> Result<Term, AllocError>
    ensures { IfOk result (λ t. t ≡ substitute (by_forced forced.now) term.now) }
{
    if term.above() == 0 {
        let copy = term.share()?;
        return Ok(copy);
    }
    match term.node() {
        Node::Var { sort, number } => {
            let copy = forced_term(forced, *sort, *number, term)?;
            Ok(copy)
        }
        Node::Con { con, args } => {
            let parts = fill_all(alloc, forced, args.as_slice())?;
            let copy = Term::apply(alloc, *con, parts)?;
            Ok(copy)
        }
    }
}

/// Returns a row with the terms of the variables in place of them.
#[cycle(fill)]
pub fn fill_all(alloc: Global, forced: &[Forced], row: &[Term]) -> Result<Vec<Term>, AllocError>
    ensures { IfOk result (λ v. v.items ≡ map (substitute (by_forced forced.now)) row.now) }
{
    let mut copies = Vec::with_capacity(alloc, row.len())?;
    for i in 0..row.len() {
        let copy = fill(alloc, forced, &row[i])?;
        copies.push(copy)?;
    }
    Ok(copies)
}
