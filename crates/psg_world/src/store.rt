// Files in memory, without faults.
ghost use Rattle.std.specs.Prelude.{◌≡◌, IfOk, OnOk, OnErr, IfSome, IfNone};
ghost use Rattle.std.specs.Option.{option_copied};
ghost use Rattle.std.specs.FinMap as map;
ghost use Rattle.psg_world.specs.Files.{AgreesOutside, front_of};
ghost use Rattle.psg_world.specs.Memory.{held_of};
ghost use Rattle.psg_world.specs.Places.{IsAbsent, IsPlaceOf};

use std::alloc::{AllocError, Global};
use std::marker::Model;

/// A set of named files with their bytes. Of two files of one name the first one counts.
#[derive(Drop)]
pub struct Store {
    files: Vec<(String, Vec<u8>)>,
}

impl Model for Store {
    ghost use Rattle.psg_world.specs.Files.{Held, held_code};
    ghost use Rattle.psg_world.specs.Memory.{held_of};

    ghost Value = { Held };

    ghost coded = { held_code };

    ghost view = { λ store. held_of store.files.items };
}

impl Store {
    /// Makes a store of these files, each a name and its bytes.
    pub fn new(files: Vec<(String, Vec<u8>)>) -> Self
        ensures { result ≡ held_of files.items }
    {
        Self { files }
    }

    /// Returns the bytes of the file `name`, or `None` where it isn't there. It takes a walk over the files.
    pub fn get(&self, name: &str) -> Option<&[u8]>
        ensures { option_copied result ≡ map.get self.now name.now }
    {
        match position(&self.files, name) {
            Some(index) => Some(self.files[index].1.as_slice()),
            None => None,
        }
    }

    /// Makes `bytes` the whole of the file `name`. Where memory runs out, no file has changed. It takes a walk over the
    /// files.
    pub fn set(&mut self, alloc: Global, name: &str, bytes: &[u8]) -> Result<(), AllocError>
        ensures ok { OnOk result (self.new ≡ map.insert self.old name.now bytes.now) }
        ensures others { AgreesOutside name.now self.old self.new }
        ensures err { OnErr result (self.new ≡ self.old) }
    {
        let bytes = Vec::from_slice(alloc, bytes)?;
        match position(&self.files, name) {
            Some(index) => self.files[index].1 = bytes,
            None => self.files.push((String::from_str(alloc, name)?, bytes))?,
        }
        Ok(())
    }
}

// The index of the file that counts for a name.
fn position(files: &[(String, Vec<u8>)], name: &str) -> Option<usize>
    ensures found { IfSome result (IsPlaceOf name.now files.now) }
    ensures absent { IfNone result (IsAbsent name.now files.now) }
{
    for (index, file) in files.iter().enumerate() {
        if file.0.as_str() == name {
            return Some(index);
        }
    }
    None
}

/// Returns a copy of the bytes, or of the first `limit + 1` where there are more than `limit`.
pub fn copy_front(alloc: Global, bytes: &[u8], limit: usize) -> Result<Vec<u8>, AllocError>
    ensures { IfOk result (λ front. front.items ≡ front_of limit bytes.now) }
{
    let front = if bytes.len() > limit {
        &bytes[..limit + 1]
    } else {
        bytes
    };
    Vec::from_slice(alloc, front)
}
