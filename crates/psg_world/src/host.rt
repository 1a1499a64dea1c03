// The machine's files and its standard output.
ghost use Rattle.std.specs.Prelude.{◌≡◌, ◌<◌, ◌≤◌, ◌+◌, [], None, IfOk, IfSome, IfNone, length, take, vec_len};
ghost use Rattle.std.specs.Io.KnownBytes.{Appends, Keeps};
ghost use Rattle.psg_world.specs.Files.{front_of};

use crate::faults::{Fault, keep};
use crate::replacing::replace_file;
use crate::world::{Files, ReadStop, Sink, WriteStop};
use std::alloc::Global;
use std::io::{ErrorKind, Read, Write};
use std::marker::Model;
use std::{fs, io, rt};

// How many bytes one read asks for, at most.
const CHUNK: usize = 8192;

/// The machine's files, by their paths. What they hold isn't told. The room for an entry is taken
/// before the machine is asked, so that a call which fails there can always keep its entry.
#[derive(Drop)]
pub struct HostFiles<'a, R: rt::Files> {
    runtime: &'a R,
    alloc: Global,
    faults: Vec<Fault>,
}

impl<'a, R: rt::Files> Model for HostFiles<'a, R> {
    ghost use Rattle.std.specs.Prelude.{List};
    ghost use Rattle.std.specs.Coded.{coded_list};
    ghost use Rattle.psg_world.specs.Files.{Entry, entry_code};

    ghost Value = { List Entry };

    ghost coded = { coded_list entry_code };

    ghost view = { λ files. files.faults.items };
}

impl<'a, R: rt::Files> HostFiles<'a, R> {
    /// Makes the files of the machine, which `runtime` gives access to. Takes no memory; `alloc` keeps the
    /// entries of the calls that fail.
    pub fn new(alloc: Global, runtime: &'a R) -> Self
        ensures { result ≡ [] }
    {
        Self {
            runtime,
            alloc,
            faults: Vec::new(alloc),
        }
    }
}

impl<'a, R: rt::Files> Files for HostFiles<'a, R> {
    ghost holds = { λ _. None };

    ghost faults = { λ files. files };

    /// Reads by chunks of at most 8,192 bytes, and never more than `limit + 1` bytes in all, so a
    /// file without an end does no harm. A name that isn't there fails.
    fn read(&mut self, alloc: Global, name: &str, limit: usize) -> Result<Vec<u8>, ReadStop> {
        self.faults.try_reserve(1)?;
        let fault = Fault::reading(self.alloc, name)?;
        let result = read_file(alloc, self.runtime, name, limit);
        if let Err(ReadStop::Failed) = &result {
            keep(&mut self.faults, fault);
        }
        result
    }

    /// Cuts the file off before it is written, so a write that fails can leave less than was there.
    fn write(&mut self, _alloc: Global, name: &str, bytes: &[u8]) -> Result<(), WriteStop> {
        self.faults.try_reserve(1)?;
        let fault = Fault::writing(self.alloc, name)?;
        match fs::write(self.runtime, name, bytes) {
            Ok(()) => Ok(()),
            Err(_) => {
                keep(&mut self.faults, fault);
                Err(WriteStop::Failed)
            }
        }
    }

    /// Writes the bytes to a new file beside, whose name is this one with `.psg-new` after it, and gives it the name
    /// once all of them are on the disk. It has the rights of the file that it takes the place of, and where the name
    /// is a link, it takes the place of what the link leads to. It fails where there is a file beside already, where
    /// the name is that of a folder, a pipe or a device, and where the file may not be written; the file beside is then
    /// removed, if it was made here. One that a killed program has left stays, and is to be removed by hand.
    fn replace(&mut self, _alloc: Global, name: &str, bytes: &[u8]) -> Result<(), WriteStop> {
        self.faults.try_reserve(1)?;
        let fault = Fault::writing(self.alloc, name)?;
        let result = replace_file(self.alloc, self.runtime, name, bytes);
        if let Err(WriteStop::Failed) = &result {
            keep(&mut self.faults, fault);
        }
        result
    }
}

// The front of the machine's file.
fn read_file<R: rt::Files>(
    alloc: Global,
    runtime: &R,
    name: &str,
    limit: usize,
) -> Result<Vec<u8>, ReadStop>
    ensures within { IfOk result (λ bytes. vec_len bytes ≤ limit + 1) }
{
    match fs::open(runtime, name) {
        Ok(mut file) => read_front(alloc, &mut file, limit),
        Err(_) => Err(ReadStop::Failed),
    }
}

// Reads to the end, or until there are more than `limit` bytes, a chunk at a time. A read that a
// signal broke off is tried again.
fn read_front<S: Read>(alloc: Global, source: &mut S, limit: usize) -> Result<Vec<u8>, ReadStop>
    ensures within { IfOk result (λ bytes. vec_len bytes ≤ limit + 1) }
    ensures front { IfOk result (λ bytes. IfSome (S.remaining source.old)
        (λ left. bytes.items ≡ front_of limit left)) }
{
    let mut bytes = Vec::new(alloc);
    let mut chunk = [0u8; CHUNK];
    for _ in 0..u64::MAX {
        if bytes.len() > limit {
            return Ok(bytes);
        }
        let wanted = (limit - bytes.len()).min(CHUNK - 1) + 1;
        match source.read(&mut chunk[..wanted]) {
            Ok(0) => return Ok(bytes),
            Ok(count) => bytes.extend_from_slice(&chunk[..count])?,
            Err(error) if error.kind() == ErrorKind::Interrupted => {}
            Err(_) => return Err(ReadStop::Failed),
        }
    }
    Err(ReadStop::Failed)
}

/// The standard output. What it has taken isn't told.
#[derive(Drop)]
pub struct HostSink<'a, R: Print> {
    runtime: &'a R,
    faults: u64,
}

impl<'a, R: Print> Model for HostSink<'a, R> {
    ghost use Rattle.std.specs.Prelude.{ℕ};

    ghost Value = { ℕ };

    ghost view = { λ sink. sink.faults };
}

impl<'a, R: Print> HostSink<'a, R> {
    /// Makes the standard output of the machine, which `runtime` gives access to.
    pub fn new(runtime: &'a R) -> Self
        ensures { result ≡ 0 }
    {
        Self { runtime, faults: 0 }
    }
}

impl<'a, R: Print> Sink for HostSink<'a, R> {
    ghost written = { λ _. None };

    ghost faults = { λ sink. sink };

    /// Fails where the output refuses or takes nothing, and counts each time.
    fn put(&mut self, _alloc: Global, bytes: &[u8]) -> Result<usize, WriteStop> {
        match write_some(&mut io::writer(self.runtime), bytes) {
            Some(count) => Ok(count),
            None => {
                self.faults = self.faults.saturating_add(1);
                Err(WriteStop::Failed)
            }
        }
    }
}

// Writes a front of the bytes and answers its length, or `None` where nothing is written. A write
// that a signal broke off is tried again.
fn write_some<W: Write>(output: &mut W, bytes: &[u8]) -> Option<usize>
    ensures some { IfSome result (λ count. 0 < count) }
    ensures within { IfSome result (λ count. count ≤ length bytes.now) }
    ensures taken { IfSome result (λ count.
        Appends (W.contents output.old) (W.contents output.new) (take count bytes.now)) }
    ensures kept { IfNone result (Keeps (W.contents output.old) (W.contents output.new)) }
{
    for _ in 0..u64::MAX {
        match output.write(bytes) {
            Ok(0) => return None,
            Ok(count) => return Some(count),
            Err(error) if error.kind() == ErrorKind::Interrupted => {}
            Err(_) => return None,
        }
    }
    None
}
