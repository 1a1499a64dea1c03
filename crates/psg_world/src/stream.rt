// The bytes that a reader gives, as they arrive, such as those of the machine's standard input.
ghost use Rattle.std.specs.Prelude.{◌≡◌, ◌<◌, ◌≤◌, [], IfSome, IfNone, length, take};
ghost use Rattle.std.specs.Io.KnownBytes.{Consumes, IsAtEnd, Keeps};

use crate::pieces::Pieces;
use crate::tally::Tally;
use crate::world::ReadStop;
use std::alloc::Global;
use std::io::{ErrorKind, Read};

// How many bytes one read asks for, at most.
const CHUNK: usize = 8192;

/// The bytes of a reader, as its reads give them. Where the reader's bytes are known, those still to be given are known
/// too; of the machine's standard input they aren't. A read takes what is there and waits for no more.
#[derive(Drop)]
pub struct ReaderPieces<S: Read + Drop> {
    source: S,
    tally: Tally,
}

impl<S: Read + Drop> ReaderPieces<S> {
    /// Makes the input of the bytes that `source` gives. Takes no memory; `alloc` keeps the entries of the reads that
    /// fail.
    pub fn new(alloc: Global, source: S) -> Self
        ensures source { result.source ≡ source }
        ensures none_given { result.tally.given ≡ 0 }
        ensures no_faults { result.tally.missed.items ≡ [] }
    {
        Self {
            source,
            tally: Tally::new(alloc),
        }
    }
}

impl<S: Read + Drop> Pieces for ReaderPieces<S> {
    ghost left = { λ input. S.remaining input.source };

    ghost given = { λ input. input.tally.given };

    ghost missed = { λ input. input.tally.missed.items };

    /// Asks the reader once for at most 8,192 bytes, and again only where a signal broke the read off. All memory is
    /// taken before the reader is asked, so no byte is lost where it runs out.
    fn next_piece(&mut self, alloc: Global, most: usize) -> Result<Vec<u8>, ReadStop> {
        self.tally.missed.try_reserve(1)?;
        let mut piece = vec![in alloc; 0u8; most.min(CHUNK)]?;
        match read_some(&mut self.source, &mut piece) {
            Some(count) => {
                piece.truncate(count);
                self.tally.count_bytes(count);
                Ok(piece)
            }
            None => {
                self.tally.keep();
                Err(ReadStop::Failed)
            }
        }
    }
}

// How many bytes one read put at the front of the buffer, or none where it failed. A read that a signal broke off is
// tried again.
fn read_some<S: Read>(source: &mut S, buffer: &mut [u8]) -> Option<usize>
    requires { 0 < length buffer.old }
    ensures room { length buffer.new ≡ length buffer.old }
    ensures within { IfSome result (λ count. count ≤ length buffer.old) }
    ensures gives { IfSome result (λ count. Consumes (S.remaining source.old) (S.remaining source.new)
        (take count buffer.new)) }
    ensures ends { IfSome result (λ count. count ≡ 0 → IsAtEnd (S.remaining source.new)) }
    ensures keeps { IfNone result (Keeps (S.remaining source.old) (S.remaining source.new)) }
{
    for _ in 0..u64::MAX {
        match source.read(buffer) {
            Ok(count) => return Some(count),
            Err(error) if error.kind() == ErrorKind::Interrupted => {}
            Err(_) => return None,
        }
    }
    None
}
