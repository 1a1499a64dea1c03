// Files and a sink in memory, with calls that are to fail.
ghost use Rattle.std.specs.Prelude.{◌≡◌, ◌+◌, ◌<◌, ◌≤◌, ◌↔◌, [], ◌++◌, false, if◌then◌else◌, length, vec_len, Some};
ghost use Rattle.std.specs.Prelude.{IsTrue, IfOk, OnOk, OnErr, IsErrOf, is_ok};
ghost use Rattle.std.specs.Option.{option_copied};
ghost use Rattle.std.specs.FinMap as map;
ghost use Rattle.psg_world.specs.Files.{bytes_of, front_of, entries_after_read, entries_after_write, AgreesOutside};
ghost use Rattle.psg_world.specs.Memory.{held_of, is_due, fails_read};
ghost use Rattle.psg_world.specs.Sinks.{raised};

use crate::calls::Calls;
use crate::faults::Fault;
use crate::store::{Store, copy_front};
use crate::world::{Files, ReadStop, Sink, WriteStop};
use std::alloc::Global;
use std::marker::Model;

/// A set of files in memory, of which some calls are to fail. A name that isn't there can't be read.
#[derive(Drop)]
pub struct MemFiles {
    alloc: Global,
    store: Store,
    calls: Calls,
    faults: Vec<Fault>,
}

impl Model for MemFiles {
    ghost use Rattle.psg_world.specs.Memory.{FilesInMemory, files_code};

    ghost Value = { FilesInMemory };

    ghost coded = { files_code };

    ghost view = { λ files. record {
      held = files.store;
      failing = files.calls.failing.items;
      calls = files.calls.made;
      faults = files.faults.items;
    } };
}

impl MemFiles {
    /// Files that hold `held`, of two files of one name the first one. Reads, writes and replacements are
    /// numbered together, from 1; `failing` has the numbers of those that are to fail. Takes no
    /// memory; `alloc` keeps what the files keep later.
    pub fn new(alloc: Global, held: Vec<(String, Vec<u8>)>, failing: Vec<u64>) -> Self
        ensures holds { result.held ≡ held_of held.items }
        ensures failing { result.failing ≡ failing.items }
        ensures no_calls { result.calls ≡ 0 }
        ensures no_faults { result.faults ≡ [] }
    {
        Self {
            alloc,
            store: Store::new(held),
            calls: Calls::new(failing),
            faults: Vec::new(alloc),
        }
    }

    /// Returns the bytes of the file `name`, or `None` exactly where it isn't there. Takes no memory, and
    /// is no call that is counted. A walk over the files.
    pub fn held(&self, name: &str) -> Option<&[u8]>
        ensures { option_copied result ≡ map.get self.now.held name.now }
    {
        self.store.get(name)
    }

    // Makes the bytes the whole of the file, or fails where the call's number says so.
    fn put(&mut self, name: &str, bytes: &[u8]) -> Result<(), WriteStop>
        ensures replaces { OnOk result (self.new.held ≡ map.insert self.old.held name.now bytes.now) }
        ensures others { AgreesOutside name.now self.old.held self.new.held }
        ensures keeps { OnErr result (self.new.held ≡ self.old.held) }
        ensures entries { self.new.faults ≡ entries_after_write self.old.faults name.now result }
        ensures numbers { self.new.failing ≡ self.old.failing }
        ensures counted { self.new.calls ≡ raised self.old.calls }
        ensures written { OnOk result (is_due self.old.failing self.old.calls ≡ false) }
        ensures failed { IsErrOf result WriteStop.Failed
            → IsTrue (is_due self.old.failing self.old.calls) }
    {
        if self.calls.next_fails() {
            let fault = Fault::writing(self.alloc, name)?;
            self.faults.push(fault)?;
            return Err(WriteStop::Failed);
        }
        self.store.set(self.alloc, name, bytes)?;
        Ok(())
    }
}

impl Files for MemFiles {
    ghost holds = { λ files. Some files.held };

    ghost faults = { λ files. files.faults };

    /// Fails exactly where the call's number is among those that are to fail, or the name isn't
    /// there, unless memory runs out. A walk over the files and over the numbers.
    fn read(&mut self, alloc: Global, name: &str, limit: usize) -> Result<Vec<u8>, ReadStop>
        ensures front { IfOk result
            (λ bytes. bytes.items ≡ front_of limit (bytes_of self.old.held name.now)) }
        ensures within { IfOk result (λ bytes. vec_len bytes ≤ limit + 1) }
        ensures entries { self.new.faults ≡ entries_after_read self.old.faults name.now result }
        ensures keeps { self.new.held ≡ self.old.held }
        ensures numbers { self.new.failing ≡ self.old.failing }
        ensures counted { self.new.calls ≡ raised self.old.calls }
        ensures read { OnOk result (fails_read self.old name.now ≡ false) }
        ensures failed { IsErrOf result ReadStop.Failed → IsTrue (fails_read self.old name.now) }
    {
        if !self.calls.next_fails()
            && let Some(bytes) = self.store.get(name)
        {
            return Ok(copy_front(alloc, bytes, limit)?);
        }
        let fault = Fault::reading(self.alloc, name)?;
        self.faults.push(fault)?;
        Err(ReadStop::Failed)
    }

    /// Fails exactly where the call's number is among those that are to fail, unless memory runs
    /// out; after an `Err` no file has changed. A walk over the files and over the numbers.
    fn write(&mut self, _alloc: Global, name: &str, bytes: &[u8]) -> Result<(), WriteStop>
        ensures replaces { OnOk result (self.new.held ≡ map.insert self.old.held name.now bytes.now) }
        ensures others { AgreesOutside name.now self.old.held self.new.held }
        ensures keeps { OnErr result (self.new.held ≡ self.old.held) }
        ensures entries { self.new.faults ≡ entries_after_write self.old.faults name.now result }
        ensures numbers { self.new.failing ≡ self.old.failing }
        ensures counted { self.new.calls ≡ raised self.old.calls }
        ensures written { OnOk result (is_due self.old.failing self.old.calls ≡ false) }
        ensures failed { IsErrOf result WriteStop.Failed
            → IsTrue (is_due self.old.failing self.old.calls) }
    {
        self.put(name, bytes)
    }

    /// Fails exactly where the call's number is among those that are to fail, unless memory runs out. A walk over the
    /// files and over the numbers.
    fn replace(&mut self, _alloc: Global, name: &str, bytes: &[u8]) -> Result<(), WriteStop>
        ensures replaces { OnOk result (self.new.held ≡ map.insert self.old.held name.now bytes.now) }
        ensures others { AgreesOutside name.now self.old.held self.new.held }
        ensures keeps { OnErr result (self.new.held ≡ self.old.held) }
        ensures entries { self.new.faults ≡ entries_after_write self.old.faults name.now result }
        ensures numbers { self.new.failing ≡ self.old.failing }
        ensures counted { self.new.calls ≡ raised self.old.calls }
        ensures written { OnOk result (is_due self.old.failing self.old.calls ≡ false) }
        ensures failed { IsErrOf result WriteStop.Failed
            → IsTrue (is_due self.old.failing self.old.calls) }
    {
        self.put(name, bytes)
    }
}

/// A sink in memory, of which some calls are to fail.
#[derive(Drop)]
pub struct MemSink {
    taken: Vec<u8>,
    calls: Calls,
    faults: u64,
}

impl Model for MemSink {
    ghost use Rattle.psg_world.specs.Memory.{SinkInMemory};

    ghost Value = { SinkInMemory };

    ghost view = { λ sink. record {
      written = sink.taken.items;
      failing = sink.calls.failing.items;
      calls = sink.calls.made;
      faults = sink.faults;
    } };
}

impl MemSink {
    /// Makes an empty sink. Puts are numbered from 1; `failing` has the numbers of those that are to
    /// fail. Takes no memory; `alloc` keeps what the sink takes later.
    pub fn new(alloc: Global, failing: Vec<u64>) -> Self
        ensures written { result.written ≡ [] }
        ensures failing { result.failing ≡ failing.items }
        ensures no_calls { result.calls ≡ 0 }
        ensures no_faults { result.faults ≡ 0 }
    {
        Self {
            taken: Vec::new(alloc),
            calls: Calls::new(failing),
            faults: 0,
        }
    }

    /// Returns all bytes taken so far. Takes no memory.
    pub fn written(&self) -> &[u8]
        ensures { result.now ≡ self.now.written }
    {
        self.taken.as_slice()
    }
}

impl Sink for MemSink {
    ghost written = { λ sink. Some sink.written };

    ghost faults = { λ sink. sink.faults };

    /// Takes the whole piece. Fails exactly where the call's number is among those that are to
    /// fail. A walk over the piece and over the numbers.
    fn put(&mut self, _alloc: Global, bytes: &[u8]) -> Result<usize, WriteStop>
        requires { 0 < length bytes.now }
        ensures whole { IfOk result (λ count. count ≡ length bytes.now) }
        ensures takes { self.new.written
            ≡ (if is_ok result then self.old.written ++ bytes.now else self.old.written) }
        ensures failed { IsErrOf result WriteStop.Failed
            ↔ IsTrue (is_due self.old.failing self.old.calls) }
        ensures raises { self.new.faults ≡ (if is_due self.old.failing self.old.calls
            then raised self.old.faults else self.old.faults) }
        ensures never_falls { self.old.faults ≤ self.new.faults }
        ensures numbers { self.new.failing ≡ self.old.failing }
        ensures counted { self.new.calls ≡ raised self.old.calls }
    {
        if self.calls.next_fails() {
            self.faults = self.faults.saturating_add(1);
            return Err(WriteStop::Failed);
        }
        self.taken.extend_from_slice(bytes)?;
        Ok(bytes.len())
    }
}
