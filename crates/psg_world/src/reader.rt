// The lines that a reader gives, as that of the machine's standard input.
ghost use Rattle.std.specs.Prelude.{◌≡◌, ◌≤◌, ◌+◌, [], IfOk, IfSome, vec_len};
ghost use Rattle.psg_world.specs.Inputs.{GivesByte, GivesNext, told_lines};

use crate::input::Input;
use crate::tally::Tally;
use crate::world::ReadStop;
use std::alloc::Global;
use std::io::{ErrorKind, Read};

/// The lines of a reader's bytes. Where the bytes are known, the lines are known too; of the machine's
/// standard input they aren't. No byte after the line that is given is read.
#[derive(Drop)]
pub struct ReaderInput<S: Read + Drop> {
    source: S,
    tally: Tally,
}

impl<S: Read + Drop> ReaderInput<S> {
    /// Makes the input of the lines that `source` gives. Takes no memory; `alloc` keeps the entries of the reads that
    /// fail.
    pub fn new(alloc: Global, source: S) -> Self
        ensures source { result.source ≡ source }
        ensures none_given { result.tally.given ≡ 0 }
        ensures no_faults { result.tally.missed.items ≡ [] }
    {
        Self {
            source,
            tally: Tally::new(alloc),
        }
    }
}

impl<S: Read + Drop> Input for ReaderInput<S> {
    ghost lines = { λ input. told_lines (S.remaining input.source) };

    ghost given = { λ input. input.tally.given };

    ghost missed = { λ input. input.tally.missed.items };

    /// Reads byte by byte up to the line's end. The room for an entry is taken before the reader is
    /// asked, so that a call which fails there can always keep its entry.
    fn next_line(&mut self, alloc: Global, limit: usize) -> Result<Option<Vec<u8>>, ReadStop> {
        self.tally.missed.try_reserve(1)?;
        match read_line(alloc, &mut self.source, limit) {
            Ok(Some(line)) => {
                self.tally.count();
                Ok(Some(line))
            }
            Ok(None) => Ok(None),
            Err(ReadStop::Failed) => {
                self.tally.keep();
                Err(ReadStop::Failed)
            }
            Err(ReadStop::Memory) => Err(ReadStop::Memory),
        }
    }
}

// The next line of the reader's bytes.
fn read_line<S: Read>(
    alloc: Global,
    source: &mut S,
    limit: usize,
) -> Result<Option<Vec<u8>>, ReadStop>
    ensures gives { IfOk result (GivesNext limit (told_lines (S.remaining source.old))
        (told_lines (S.remaining source.new))) }
    ensures within { IfOk result (λ line. IfSome line (λ bytes. vec_len bytes ≤ limit + 1)) }
{
    let mut line = Vec::new(alloc);
    for _ in 0..u64::MAX {
        let Some(byte) = read_byte(source)? else {
            if line.is_empty() {
                return Ok(None);
            }
            return Ok(Some(line));
        };
        if byte == b'\n' {
            return Ok(Some(line));
        }
        if line.len() <= limit {
            line.push(byte)?;
        }
    }
    Err(ReadStop::Failed)
}

// The next byte, or none at the end. A read that a signal broke off is tried again.
fn read_byte<S: Read>(source: &mut S) -> Result<Option<u8>, ReadStop>
    ensures gives { IfOk result (GivesByte (S.remaining source.old) (S.remaining source.new)) }
{
    let mut byte = [0u8; 1];
    for _ in 0..u64::MAX {
        match source.read(&mut byte) {
            Ok(0) => return Ok(None),
            Ok(_) => return Ok(Some(byte[0])),
            Err(error) if error.kind() == ErrorKind::Interrupted => {}
            Err(_) => return Err(ReadStop::Failed),
        }
    }
    Err(ReadStop::Failed)
}
