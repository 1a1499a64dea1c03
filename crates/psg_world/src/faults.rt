// What is kept of a call that failed.
ghost use Rattle.std.specs.Prelude.{◌≡◌, ◌<◌, ◌++◌, ◌∷◌, [], vec_len, vec_capacity, IfOk};
ghost use Rattle.psg_world.specs.Files.{reading, writing};

use std::alloc::{AllocError, Global};
use std::marker::Model;

#[derive(Drop)]
enum Access {
    Read,
    Write,
}

/// A call that failed: a read or a write, and the name that it was given.
#[derive(Drop)]
pub struct Fault {
    access: Access,
    name: String,
}

impl Model for Fault {
    ghost use Rattle.std.specs.String.{string_bytes};
    ghost use Rattle.psg_world.specs.Files.{Entry};

    ghost Value = { Entry };

    ghost use Rattle.psg_world.specs.Faults.{entry_of};

    ghost view = { λ fault. entry_of fault.access (string_bytes fault.name) };
}

impl Fault {
    /// Makes the fault of a read of the name. `AllocError` is returned where there is no memory for the name.
    pub fn reading(alloc: Global, name: &str) -> Result<Self, AllocError>
        ensures { IfOk result (λ fault. fault ≡ reading name.now) }
    {
        Ok(Self {
            access: Access::Read,
            name: String::from_str(alloc, name)?,
        })
    }

    /// Makes the fault of a write of the name. `AllocError` is returned where there is no memory for the name.
    pub fn writing(alloc: Global, name: &str) -> Result<Self, AllocError>
        ensures { IfOk result (λ fault. fault ≡ writing name.now) }
    {
        Ok(Self {
            access: Access::Write,
            name: String::from_str(alloc, name)?,
        })
    }
}

/// Adds the fault at the end, where room was taken before.
pub fn keep(faults: &mut Vec<Fault>, fault: Fault)
    requires { vec_len faults.old < vec_capacity faults.old }
    ensures { faults.new.items ≡ faults.old.items ++ fault ∷ [] }
{
    faults.push(fault).unwrap();
}
