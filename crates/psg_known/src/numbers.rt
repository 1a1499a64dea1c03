//! Sums, and steps to children.
ghost use Rattle.std.specs.Prelude.{◌≡◌, ◌<◌, ◌≤◌, ◌+◌, ◌^◌, IfOk, IsOk};

use psg_terms::uncountable;
use std::alloc::AllocError;

/// Returns the greater number.
fn greater(left: usize, right: usize) -> usize
    ensures { (left ≤ result) × (right ≤ result) }
{
    if left < right { right } else { left }
}

/// Adds both. Exactly if 64 bits do not hold the sum, the call fails as if out of memory.
pub fn plus(left: usize, right: usize) -> Result<usize, AllocError>
    ensures sum { IfOk result (λ sum. sum ≡ left + right) }
    ensures fits { left + right < 2 ^ 64 → IsOk result }
{
    match left.checked_add(right) {
        Some(sum) => Ok(sum),
        None => Err(uncountable(greater(left, right))),
    }
}

/// Returns the step to the child of the number. Exactly for a number that 32 bits do not hold a path has no step, and
/// the call fails as if out of memory.
pub fn step_of(number: usize) -> Result<u32, AllocError>
    ensures step { IfOk result (λ step. step ≡ number) }
    ensures fits { number < 2 ^ 32 → IsOk result }
{
    if number < 0x1_0000_0000 {
        Ok(number as u32)
    } else {
        Err(uncountable(number))
    }
}
