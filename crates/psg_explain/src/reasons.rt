//! Why equations have no common solution.
ghost use Rattle.std.specs.Prelude.{◌≡◌, IfOk};
ghost use Rattle.psg_explain.specs.Reasons.{IsReason};
ghost use Rattle.psg_explain.specs.Solutions.{reason_of};

use crate::refutation::Reason;
use crate::solver::{Solution, derive};
use psg_terms::{Signature, Term};
use std::alloc::{AllocError, Global};

/// Returns why the equations have no common solution, or nothing where they have one.
///
/// The equations are solved from the front: an equation of equal sides is dropped, one of equal constructors is
/// replaced by those of its arguments, and a variable is replaced everywhere by the other side. The first equation that
/// cannot be solved is returned as it is then. The call fails where memory runs out, and as if out of memory where a
/// side has more than 2^20 variables and constructors.
pub fn reason(
    alloc: Global,
    sig: &Signature,
    equations: &[(Term, Term)],
) -> Result<Option<Reason>, AllocError>
    ensures { IfOk result (IsReason equations.now) }
{
    let _ = sig;
    let found = reason_in(alloc, equations)?;
    Ok(found)
}

/// Returns why the equations have no common solution, or nothing.
pub(crate) fn reason_in(
    alloc: Global,
    equations: &[(Term, Term)],
) -> Result<Option<Reason>, AllocError>
    ensures { IfOk result (IsReason equations.now) }
{
    let solution = derive(alloc, equations)?;
    Ok(reason_kept(solution))
}

/// Returns the reason of the solution, where there is one.
fn reason_kept(solution: Solution) -> Option<Reason>
    ensures { result ≡ reason_of solution.failure }
{
    let Solution {
        derived,
        bindings,
        failure,
    } = solution;
    let _ = derived;
    let _ = bindings;
    match failure {
        Some(failure) => Some(failure.reason),
        None => None,
    }
}
