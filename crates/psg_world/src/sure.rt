// Files and a sink in memory that never fail.
ghost use Rattle.std.specs.Prelude.{◌≡◌, ◌+◌, ◌<◌, ◌≤◌, [], ◌++◌, if◌then◌else◌, length, vec_len, Some, IfOk, OnOk};
ghost use Rattle.std.specs.Prelude.{OnErr, IsOkUnless, is_ok};
ghost use Rattle.std.specs.Option.{option_copied};
ghost use Rattle.std.specs.FinMap as map;
ghost use Rattle.psg_world.specs.Files.{AgreesOutside, bytes_of, front_of};
ghost use Rattle.psg_world.specs.Memory.{held_of};

use crate::store::{Store, copy_front};
use crate::world::{Files, ReadStop, Sink, WriteStop};
use std::alloc::Global;
use std::marker::Model;

/// A set of files in memory that fails no call: a name that isn't there is read as an empty file.
#[derive(Drop)]
pub struct SureFiles {
    alloc: Global,
    store: Store,
}

impl Model for SureFiles {
    ghost use Rattle.psg_world.specs.Files.{Held, held_code};

    ghost Value = { Held };

    ghost coded = { held_code };

    ghost view = { λ files. files.store };
}

impl SureFiles {
    /// Files that hold `held`, of two files of one name the first one. Takes no memory; `alloc`
    /// keeps what is written later.
    pub fn new(alloc: Global, held: Vec<(String, Vec<u8>)>) -> Self
        ensures { result ≡ held_of held.items }
    {
        Self {
            alloc,
            store: Store::new(held),
        }
    }

    /// Returns the bytes of the file `name`, or `None` exactly where it isn't there. Takes no memory. A
    /// walk over the files.
    pub fn held(&self, name: &str) -> Option<&[u8]>
        ensures { option_copied result ≡ map.get self.now name.now }
    {
        self.store.get(name)
    }
}

impl Files for SureFiles {
    ghost holds = { λ files. Some files };

    ghost faults = { λ _. [] };

    /// Reads a name that isn't there as an empty file. The only error is that of running out of memory. A walk
    /// over the files.
    fn read(&mut self, alloc: Global, name: &str, limit: usize) -> Result<Vec<u8>, ReadStop>
        ensures front { IfOk result
            (λ bytes. bytes.items ≡ front_of limit (bytes_of self.old name.now)) }
        ensures within { IfOk result (λ bytes. vec_len bytes ≤ limit + 1) }
        ensures keeps { self.new ≡ self.old }
        ensures sure { IsOkUnless result ReadStop.Memory }
    {
        let bytes = self.store.get(name).unwrap_or(&[]);
        Ok(copy_front(alloc, bytes, limit)?)
    }

    /// Puts the bytes under the name. The only error is that of running out of memory, and no file has then changed. It
    /// walks once over the files.
    fn write(&mut self, _alloc: Global, name: &str, bytes: &[u8]) -> Result<(), WriteStop>
        ensures replaces { OnOk result (self.new ≡ map.insert self.old name.now bytes.now) }
        ensures others { AgreesOutside name.now self.old self.new }
        ensures keeps { OnErr result (self.new ≡ self.old) }
        ensures sure { IsOkUnless result WriteStop.Memory }
    {
        self.store.set(self.alloc, name, bytes)?;
        Ok(())
    }

    /// Puts the bytes under the name. The only error is that of running out of memory. It walks once over the files.
    fn replace(&mut self, _alloc: Global, name: &str, bytes: &[u8]) -> Result<(), WriteStop>
        ensures replaces { OnOk result (self.new ≡ map.insert self.old name.now bytes.now) }
        ensures others { AgreesOutside name.now self.old self.new }
        ensures keeps { OnErr result (self.new ≡ self.old) }
        ensures sure { IsOkUnless result WriteStop.Memory }
    {
        self.store.set(self.alloc, name, bytes)?;
        Ok(())
    }
}

/// A sink in memory that fails no put.
#[derive(Drop)]
pub struct SureSink {
    taken: Vec<u8>,
}

impl Model for SureSink {
    ghost use Rattle.std.specs.Prelude.{List, ℕ};

    ghost Value = { List ℕ };

    ghost view = { λ sink. sink.taken.items };
}

impl SureSink {
    /// Makes an empty sink. Takes no memory; `alloc` keeps what the sink takes later.
    pub fn new(alloc: Global) -> Self
        ensures { result ≡ [] }
    {
        Self {
            taken: Vec::new(alloc),
        }
    }

    /// Returns all bytes taken so far. Takes no memory.
    pub fn written(&self) -> &[u8]
        ensures { result.now ≡ self.now }
    {
        self.taken.as_slice()
    }
}

impl Sink for SureSink {
    ghost written = { λ sink. Some sink };

    ghost faults = { λ _. 0 };

    /// Takes the whole piece. The only error is that of running out of memory. A walk over the piece.
    fn put(&mut self, _alloc: Global, bytes: &[u8]) -> Result<usize, WriteStop>
        requires { 0 < length bytes.now }
        ensures whole { IfOk result (λ count. count ≡ length bytes.now) }
        ensures takes { self.new ≡ (if is_ok result then self.old ++ bytes.now else self.old) }
        ensures sure { IsOkUnless result WriteStop.Memory }
    {
        self.taken.extend_from_slice(bytes)?;
        Ok(bytes.len())
    }
}
