//! Equality and instances of terms.
ghost use Rattle.std.specs.Prelude.{◌≡◌, ◌↔◌, ◌∷◌, [], IfOk, OnOk, IsTrue, MatchBool, List, ℕ, Some, cond};
ghost use Rattle.std.specs.Option.{option_copied};
ghost use Rattle.psg_terms.specs.Instances.{IsInstance, AllGroundInstancesIn};
ghost use Rattle.psg_terms.specs.Canonical.{AreWrittenOut, same_variable};
ghost use Rattle.psg_terms.specs.Signature.{Signature as Plain, HaveSorts};
ghost use Rattle.psg_terms.specs.Sound.{IsSound};
ghost use Rattle.psg_terms.specs.Matching.{lookup, Matched, Unmatched};

use crate::canonical::Key;
use crate::counting::{COMPARED, too_many_symbols};
use crate::sorts::SortId;
use crate::term::{Node, Term};
use std::alloc::{AllocError, Global};
use std::collections::HashMap;

/// Says whether two terms are equal.
#[cycle(same)]
pub fn same(a: &Term, b: &Term) -> bool
    ensures { IsTrue result ↔ (a.now ≡ b.now) }
{
    match a.node() {
        Node::Var { sort, number } => match b.node() {
            Node::Var {
                sort: other,
                number: count,
            } => sort.0 == other.0 && *number == *count,
            Node::Con { .. } => false,
        },
        Node::Con { con, args } => match b.node() {
            Node::Con {
                con: other,
                args: parts,
            } => con.0 == other.0 && same_all(args.as_slice(), parts.as_slice()),
            Node::Var { .. } => false,
        },
    }
}

/// Says whether two rows are equal.
#[cycle(same)]
pub fn same_all(a: &[Term], b: &[Term]) -> bool
    ensures { IsTrue result ↔ (a.now ≡ b.now) }
{
    if a.len() != b.len() {
        return false;
    }
    for i in 0..a.len() {
        if !same(&a[i], &b[i]) {
            return false;
        }
    }
    true
}

/// Returns the term of a variable, or `None` where the table does not have it.
pub fn bound(table: &HashMap<Key, Term>, sort: SortId, number: u32) -> Option<&Term>
    ensures { option_copied result ≡ lookup table.now sort.0 number }
{
    table.get(&Key { sort, number })
}

/// Gives a variable a term, in place of another that it may have. After an error the table is as it was.
pub fn bind(
    table: &mut HashMap<Key, Term>,
    sort: SortId,
    number: u32,
    term: Term,
) -> Result<(), AllocError>
    ensures { OnOk result ((s n : ℕ) → lookup table.new s n
        ≡ cond (same_variable (sort.0, number) (s, n)) (Some term) (lookup table.old s n)) }
{
    table.insert(Key { sort, number }, term)?;
    Ok(())
}

/// Says whether two terms are equal. Two equally large terms of more than 2^20 variables and constructors are not
/// compared, and the call fails as if out of memory.
fn alike(a: &Term, b: &Term) -> Result<bool, AllocError>
    ensures { IfOk result (λ d. IsTrue d ↔ (a.now ≡ b.now)) }
{
    let size = a.symbols();
    let other = b.symbols();
    if size != other {
        return Ok(false);
    }
    if size > COMPARED {
        return Err(too_many_symbols(size));
    }
    Ok(same(a, b))
}

/// Says whether the table, with more variables bound, makes the special term of the general one.
#[cycle(fits)]
fn fits(table: &mut HashMap<Key, Term>, general: &Term, special: &Term) -> Result<bool, AllocError>
    ensures { IfOk result (λ b. MatchBool b
        (Matched (lookup table.old) (lookup table.new) (general.now ∷ []) (special.now ∷ []))
        (Unmatched (lookup table.old) (general.now ∷ []) (special.now ∷ []))) }
{
    match general.node() {
        Node::Var { sort, number } => {
            match bound(table, *sort, *number) {
                Some(term) => {
                    let equal = alike(term, special)?;
                    Ok(equal)
                }
                None => {
                    let term = special.share()?;
                    bind(table, *sort, *number, term)?;
                    Ok(true)
                }
            }
        }
        Node::Con { con, args } => match special.node() {
            Node::Con {
                con: other,
                args: parts,
            } => {
                if con.0 != other.0 {
                    return Ok(false);
                }
                let fitting = fit(table, args.as_slice(), parts.as_slice())?;
                Ok(fitting)
            }
            Node::Var { .. } => Ok(false),
        },
    }
}

/// Matches the terms of two rows, place by place. Rows of different lengths do not match.
#[cycle(fits)]
fn fit(
    table: &mut HashMap<Key, Term>,
    general: &[Term],
    special: &[Term],
) -> Result<bool, AllocError>
    ensures { IfOk result (λ b. MatchBool b
        (Matched (lookup table.old) (lookup table.new) general.now special.now)
        (Unmatched (lookup table.old) general.now special.now)) }
{
    if general.len() != special.len() {
        return Ok(false);
    }
    for i in 0..general.len() {
        if !fits(table, &general[i], &special[i])? {
            return Ok(false);
        }
    }
    Ok(true)
}

/// Says whether one substitution of the general row's variables gives the special row. It reads each place of the
/// general row once, and of the special one once for each occurrence of a variable that it replaces, except for the
/// first. Where two terms that would replace one variable are equally large and have more than 2^20 variables and
/// constructors, the call fails as if out of memory.
pub fn is_instance(alloc: Global, special: &[Term], general: &[Term]) -> Result<bool, AllocError>
    ensures instance { IfOk result (λ b. IsTrue b ↔ IsInstance special.now general.now) }
    ensures exact { IfOk result (λ b. (sig : Plain) → IsSound sig → (sorts : List ℕ)
        → HaveSorts sig special.now sorts → HaveSorts sig general.now sorts → AreWrittenOut sig special.now
        → IsTrue b ↔ AllGroundInstancesIn sig special.now general.now) }
{
    let mut table = HashMap::new(alloc);
    let fitting = fit(&mut table, general, special)?;
    Ok(fitting)
}
