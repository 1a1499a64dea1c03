//! Sums of places.
ghost use Rattle.std.specs.Prelude.{◌≡◌, ◌≤◌, ◌<◌, ◌+◌, ◌^◌, cond, IsOk, IfOk};

use psg_terms::uncountable;
use std::alloc::AllocError;

/// Returns the greater number.
fn greater(left: usize, right: usize) -> usize
    ensures { (left ≤ result) × (right ≤ result) }
{
    if left < right { right } else { left }
}

/// Adds both. Exactly if 64 bits do not hold the sum, the call fails as if out of memory.
pub(crate) fn plus(left: usize, right: usize) -> Result<usize, AllocError>
    ensures sum { IfOk result (λ sum. sum ≡ left + right) }
    ensures fits { left + right < 2 ^ 64 → IsOk result }
{
    match left.checked_add(right) {
        Some(sum) => Ok(sum),
        None => Err(uncountable(greater(left, right))),
    }
}

/// Returns 1 if it is so, and else 0.
pub(crate) fn one_if(so: bool) -> usize
    ensures exact { result ≡ cond so 1 0 }
    ensures small { result ≤ 1 }
{
    if so { 1 } else { 0 }
}

/// Returns the number, of which it says that 64 bits hold it.
pub(crate) fn held(number: usize) -> usize
    ensures same { result ≡ number }
    ensures small { number < 2 ^ 64 }
{
    number
}

/// Returns the step to the child of the number. Exactly for a number that 32 bits do not hold a path has no step, and
/// the call fails as if out of memory.
pub(crate) fn step_of(number: usize) -> Result<u32, AllocError>
    ensures step { IfOk result (λ step. step ≡ number) }
    ensures fits { number < 2 ^ 32 → IsOk result }
{
    if number < 0x1_0000_0000 {
        Ok(number as u32)
    } else {
        Err(uncountable(number))
    }
}
