//! What is printed between two tokens.
ghost use Rattle.std.specs.Prelude.{◌≡◌, ◌+◌, IfOk};

use psg_terms::uncountable;
use std::alloc::AllocError;

/// Spaces, after a line feed or not.
#[derive(Clone, Copy)]
pub(crate) struct Gap {
    /// Whether there is a line feed.
    pub(crate) feed: bool,
    /// How many spaces there are, after the line feed if there is one.
    pub(crate) spaces: usize,
}

/// Returns the sum. It fails where 64 bits do not hold it.
pub(crate) fn sum(a: usize, b: usize) -> Result<usize, AllocError>
    ensures { IfOk result (λ sum. sum ≡ a + b) }
{
    let Some(sum) = a.checked_add(b) else {
        return Err(uncountable(a.max(b)));
    };
    Ok(sum)
}
