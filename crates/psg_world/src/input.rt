// The trait by which a program sees its input.
ghost use Rattle.std.specs.Prelude.{◌≡◌, ◌≤◌, ◌+◌, ℕ, List, Option, IfOk, IfSome, vec_len};
ghost use Rattle.psg_world.specs.Inputs.{GivesNext, given_after, missed_after};

use crate::world::ReadStop;
use std::alloc::Global;

/// An input, taken line by line.
pub trait Input {
    // the lines that are still to be given, where they are known
    ghost lines: { Self → Option (List (List ℕ)) };

    // how many lines were given
    ghost given: { Self → ℕ };

    // of each read that failed, how many lines were given before it
    ghost missed: { Self → List ℕ };

    /// Gives the next line without its line feed, or `None` at the end. Of a line of more than
    /// `limit` bytes it gives the first `limit + 1` and passes over the rest, so a result longer
    /// than `limit` says that the line is too long. `Failed` adds an entry to those of the failed
    /// reads, `Memory` adds none; after an `Err` nothing is known of the lines that are still to be given.
    fn next_line(&mut self, alloc: Global, limit: usize) -> Result<Option<Vec<u8>>, ReadStop>
        ensures gives { IfOk result (GivesNext limit (lines self.old) (lines self.new)) }
        ensures within { IfOk result (λ line. IfSome line (λ bytes. vec_len bytes ≤ limit + 1)) }
        ensures counted { given self.new ≡ given_after (given self.old) result }
        ensures entries { missed self.new ≡ missed_after (missed self.old) (given self.old) result };
}
