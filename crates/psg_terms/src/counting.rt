//! The answers of out of memory that no request for memory causes: a number that 32 bits do not hold, terms that are
//! too large to be compared, a table with too many cells, and work past a bound. No other code of the house makes such
//! an error.
ghost use Rattle.std.specs.Prelude.{◌≡◌, ◌+◌, ◌<◌, ◌≤◌, ◌^◌, ◌↔◌, IsOk, OnErr, OnOk};

use std::alloc::AllocError;

/// Returns the error of a call that meets a number which 32 bits do not hold beside the number after it, such as the
/// number of a variable, of a cell or of an element.
pub fn uncountable(number: usize) -> AllocError
    requires large { 2 ^ 32 ≤ number + 1 }
{
    let _ = number;
    AllocError
}

/// How many variables and constructors terms have at most that are compared. A part that is shared is read as often as
/// it occurs, so without a bound a comparison of small terms with much sharing would not end.
pub(crate) const COMPARED: u64 = 0x10_0000;

/// Returns the error of a call that would have to compare terms of this number of variables and constructors.
pub fn too_many_symbols(symbols: u64) -> AllocError
    requires large { 2 ^ 20 < symbols }
{
    let _ = symbols;
    AllocError
}

/// Returns the error of a call that would have to make a table of this number of cells.
pub fn too_many_cells(cells: u64) -> AllocError
    requires large { 2 ^ 30 < cells }
{
    let _ = cells;
    AllocError
}

/// What is left of an amount of work.
#[derive(Drop)]
pub struct Room {
    left: u64,
}

impl Room {
    /// Returns the room for this much work.
    pub fn of(work: u64) -> Room
        ensures { result.left ≡ work }
    {
        Room { left: work }
    }

    /// Takes the work from the room. Where less is left, nothing is taken, and the call fails as if out of memory.
    pub fn spend(&mut self, work: u64) -> Result<(), AllocError>
        ensures enough { IsOk result ↔ work ≤ self.old.left }
        ensures taken { OnOk result (self.old.left ≡ self.new.left + work) }
        ensures kept { OnErr result (self.new.left ≡ self.old.left) }
    {
        if work > self.left {
            return Err(AllocError);
        }
        self.left -= work;
        Ok(())
    }
}
