// An input in memory that is read by pieces, of which some reads are to fail.
ghost use Rattle.std.specs.Prelude.{◌≡◌, ◌<◌, ◌≤◌, [], false, Some, IsTrue, IfOk, OnOk, OnErr, IsErrOf, take, drop};
ghost use Rattle.std.specs.Prelude.{vec_len};
ghost use Rattle.psg_world.specs.Pieces.{IsPieceOf, given_after_piece, missed_after_piece, size_after};
ghost use Rattle.psg_world.specs.Memory.{is_due};
ghost use Rattle.psg_world.specs.Sinks.{raised};

use crate::calls::Calls;
use crate::pieces::Pieces;
use crate::tally::Tally;
use crate::world::ReadStop;
use std::alloc::Global;
use std::marker::Model;

/// An input in memory that is read by pieces of given sizes, and of which some reads fail.
#[derive(Drop)]
pub struct MemPieces {
    bytes: Vec<u8>,
    sizes: Vec<usize>,
    calls: Calls,
    tally: Tally,
}

impl Model for MemPieces {
    ghost use Rattle.std.specs.Prelude.{drop};
    ghost use Rattle.psg_world.specs.Pieces.{PiecesInMemory};

    ghost Value = { PiecesInMemory };

    ghost view = { λ input. record {
      left = drop input.tally.given input.bytes.items;
      sizes = input.sizes.items;
      failing = input.calls.failing.items;
      calls = input.calls.made;
      given = input.tally.given;
      missed = input.tally.missed.items;
    } };
}

impl MemPieces {
    /// Makes an input that gives these bytes. Reads are numbered from 1. The first of `sizes` is the most that the
    /// first read gives, the second that of the second read, and so on, but each read gives at least one byte; a read
    /// without a size gives as many as are asked for. `failing` has the numbers of the reads that fail. Takes no
    /// memory; `alloc` keeps the entries of the reads that fail.
    pub fn new(alloc: Global, bytes: Vec<u8>, sizes: Vec<usize>, failing: Vec<u64>) -> Self
        ensures left { result.left ≡ bytes.items }
        ensures sizes { result.sizes ≡ sizes.items }
        ensures failing { result.failing ≡ failing.items }
        ensures no_calls { result.calls ≡ 0 }
        ensures none_given { result.given ≡ 0 }
        ensures no_faults { result.missed ≡ [] }
    {
        Self {
            bytes,
            sizes,
            calls: Calls::new(failing),
            tally: Tally::new(alloc),
        }
    }
}

impl Pieces for MemPieces {
    ghost left = { λ input. Some input.left };

    ghost given = { λ input. input.given };

    ghost missed = { λ input. input.missed };

    /// Fails exactly where the number of the read is among those that are to fail, unless memory runs out. A walk over
    /// the numbers and over the piece.
    fn next_piece(&mut self, alloc: Global, most: usize) -> Result<Vec<u8>, ReadStop>
        requires { 0 < most }
        ensures gives { IfOk result (λ piece. IsPieceOf (Some self.old.left) (Some self.new.left) piece.items) }
        ensures cut { IfOk result
            (λ piece. piece.items ≡ take (size_after self.old.sizes self.old.calls most) self.old.left) }
        ensures within { IfOk result (λ piece. vec_len piece ≤ most) }
        ensures keeps { OnErr result (self.new.left ≡ self.old.left) }
        ensures counted { self.new.given ≡ given_after_piece self.old.given result }
        ensures entries { self.new.missed ≡ missed_after_piece self.old.missed self.old.given result }
        ensures sizes { self.new.sizes ≡ self.old.sizes }
        ensures numbers { self.new.failing ≡ self.old.failing }
        ensures called { self.new.calls ≡ raised self.old.calls }
        ensures read { OnOk result (is_due self.old.failing self.old.calls ≡ false) }
        ensures failed { IsErrOf result ReadStop.Failed → IsTrue (is_due self.old.failing self.old.calls) }
    {
        let size = size_after(&self.sizes, self.calls.made, most);
        if self.calls.next_fails() {
            self.tally.missed.try_reserve(1)?;
            self.tally.keep();
            return Err(ReadStop::Failed);
        }
        let rest = after(&self.bytes, self.tally.given);
        let piece = Vec::from_slice(alloc, &rest[..size.min(rest.len())])?;
        self.tally.count_bytes(piece.len());
        Ok(piece)
    }
}

// The number of bytes that a read gives at most, after that many reads.
fn size_after(sizes: &[usize], calls: u64, most: usize) -> usize
    requires { 0 < most }
    ensures size { result ≡ size_after sizes.now calls most }
    ensures some { 0 < result }
    ensures within { result ≤ most }
{
    match sizes.get(calls as usize) {
        Some(size) => most.min((*size).max(1)),
        None => most,
    }
}

// The bytes after that many of them.
fn after(bytes: &[u8], count: u64) -> &[u8]
    ensures { result.now ≡ drop count bytes.now }
{
    let place = (count as usize).min(bytes.len());
    &bytes[place..]
}
