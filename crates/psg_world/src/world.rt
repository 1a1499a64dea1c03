// The traits by which a program sees files and its output.
ghost use Rattle.std.specs.Prelude.{◌≡◌, ◌+◌, ◌<◌, ◌≤◌, ℕ, List, Option, length, vec_len, IfOk, OnOk, OnErr, IfSome};
ghost use Rattle.std.specs.Prelude.{IsErrOf};
ghost use Rattle.std.specs.Option.{option_map};
ghost use Rattle.std.specs.FinMap as map;
ghost use Rattle.psg_world.specs.declared.world.ReadStop.TheVariants as read_stops;
ghost use Rattle.psg_world.specs.declared.world.WriteStop.TheVariants as write_stops;
ghost use Rattle.psg_world.specs.Files.{Held, Entry, bytes_of, front_of, entries_after_read};
ghost use Rattle.psg_world.specs.Files.{entries_after_write, OthersStand};
ghost use Rattle.psg_world.specs.Sinks.{HasRisen, written_after_put};

use std::alloc::{AllocError, AllocFailed, Global};
use thiserror::Error;

/// The reason why a read gave no bytes.
#[derive(Clone, Copy, Debug, PartialEq, Eq, Error)]
pub enum ReadStop {
    /// The file could not be read; the files keep an entry of this call.
    #[error("the file could not be read")]
    Failed,
    /// There was no memory for the bytes, or for what the files keep of the call.
    #[error("out of memory")]
    Memory,
}

impl From<AllocError> for ReadStop {
    ghost from_gives = { λ _ stop. stop ≡ read_stops.Memory };

    fn from(_error: AllocError) -> ReadStop {
        ReadStop::Memory
    }
}

impl<T: Drop> From<AllocFailed<T>> for ReadStop {
    ghost from_gives = { λ _ stop. stop ≡ read_stops.Memory };

    fn from(_error: AllocFailed<T>) -> ReadStop {
        ReadStop::Memory
    }
}

/// The reason why a write or a put was not done.
#[derive(Clone, Copy, Debug, PartialEq, Eq, Error)]
pub enum WriteStop {
    /// The file or the output refused the bytes; the files keep an entry of this call, the sink counts it.
    #[error("the bytes could not be written")]
    Failed,
    /// There was no memory for the bytes, or for what the files keep of the call.
    #[error("out of memory")]
    Memory,
}

impl From<AllocError> for WriteStop {
    ghost from_gives = { λ _ stop. stop ≡ write_stops.Memory };

    fn from(_error: AllocError) -> WriteStop {
        WriteStop::Memory
    }
}

impl<T: Drop> From<AllocFailed<T>> for WriteStop {
    ghost from_gives = { λ _ stop. stop ≡ write_stops.Memory };

    fn from(_error: AllocFailed<T>) -> WriteStop {
        WriteStop::Memory
    }
}

/// A set of named files. A name is text; what a call keeps of it are its bytes.
pub trait Files {
    // the bytes of each file by its name, where that is known
    ghost holds: { Self → Option Held };

    // the calls that failed, the first one first
    ghost faults: { Self → List Entry };

    /// Reads the file `name`: the whole of it where it has at most `limit` bytes, otherwise its
    /// first `limit + 1` bytes, so a result longer than `limit` says that the file is too long.
    /// A name that isn't there reads as an empty file, or fails. `Failed` adds an entry of this
    /// read to the faults, `Memory` adds none.
    fn read(&mut self, alloc: Global, name: &str, limit: usize) -> Result<Vec<u8>, ReadStop>
        ensures front { IfOk result (λ bytes. IfSome (holds self.old)
            (λ held. bytes.items ≡ front_of limit (bytes_of held name.now))) }
        ensures within { IfOk result (λ bytes. vec_len bytes ≤ limit + 1) }
        ensures keeps { holds self.new ≡ holds self.old }
        ensures entries { faults self.new ≡ entries_after_read (faults self.old) name.now result };

    /// Makes `bytes` the whole of the file `name`, which is made where it isn't there. After an
    /// `Err` nothing is known of this file; the others are unchanged in any case. `Failed` adds an entry
    /// of this write to the faults, `Memory` adds none.
    fn write(&mut self, alloc: Global, name: &str, bytes: &[u8]) -> Result<(), WriteStop>
        ensures replaces { OnOk result (holds self.new
            ≡ option_map (λ held. map.insert held name.now bytes.now) (holds self.old)) }
        ensures others { OthersStand name.now (holds self.old) (holds self.new) }
        ensures entries { faults self.new ≡ entries_after_write (faults self.old) name.now result };

    /// Makes `bytes` the whole of the file `name`, all or nothing: after an `Err` each file has what it had. `Failed`
    /// adds an entry to the faults, that of a write of this name, `Memory` adds none.
    fn replace(&mut self, alloc: Global, name: &str, bytes: &[u8]) -> Result<(), WriteStop>
        ensures replaces { OnOk result (holds self.new
            ≡ option_map (λ held. map.insert held name.now bytes.now) (holds self.old)) }
        ensures keeps { OnErr result (holds self.new ≡ holds self.old) }
        ensures entries { faults self.new ≡ entries_after_write (faults self.old) name.now result };
}

/// An output, taken piece by piece.
pub trait Sink {
    // all bytes taken, where that is known
    ghost written: { Self → Option (List ℕ) };

    // how often a put failed
    ghost faults: { Self → ℕ };

    /// Takes a front of the piece, at least one byte, and answers its length. After an `Err`
    /// nothing is taken. `Failed` raises the count of faults.
    fn put(&mut self, alloc: Global, bytes: &[u8]) -> Result<usize, WriteStop>
        requires { 0 < length bytes.now }
        ensures some { IfOk result (λ count. 0 < count) }
        ensures within { IfOk result (λ count. count ≤ length bytes.now) }
        ensures takes { written self.new ≡ written_after_put (written self.old) bytes.now result }
        ensures failed { IsErrOf result WriteStop.Failed
            → HasRisen (faults self.old) (faults self.new) }
        ensures never_falls { faults self.old ≤ faults self.new };
}
