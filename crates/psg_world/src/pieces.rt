// The trait by which a program sees an input whose bytes it takes as they arrive.
ghost use Rattle.std.specs.Prelude.{◌≡◌, ◌<◌, ◌≤◌, ℕ, List, Option, IfOk, OnErr, vec_len};
ghost use Rattle.std.specs.Io.KnownBytes.{Keeps};
ghost use Rattle.psg_world.specs.Pieces.{IsPieceOf, given_after_piece, missed_after_piece};

use crate::world::ReadStop;
use std::alloc::Global;

/// An input, taken by pieces, as its bytes arrive.
pub trait Pieces {
    // the bytes that are still to be given, where they are known
    ghost left: { Self → Option (List ℕ) };

    // how many bytes were given
    ghost given: { Self → ℕ };

    // of each read that failed, how many bytes were given before it
    ghost missed: { Self → List ℕ };

    /// Gives the next bytes, at least one of them and at most `most`, or none at the end. Where they are cut is the
    /// input's choice. `Failed` adds an entry to those of the failed reads, `Memory` adds none; after an `Err` no byte
    /// is lost.
    fn next_piece(&mut self, alloc: Global, most: usize) -> Result<Vec<u8>, ReadStop>
        requires { 0 < most }
        ensures gives { IfOk result (λ piece. IsPieceOf (left self.old) (left self.new) piece.items) }
        ensures within { IfOk result (λ piece. vec_len piece ≤ most) }
        ensures keeps { OnErr result (Keeps (left self.old) (left self.new)) }
        ensures counted { given self.new ≡ given_after_piece (given self.old) result }
        ensures entries { missed self.new ≡ missed_after_piece (missed self.old) (given self.old) result };
}
