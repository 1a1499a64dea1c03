// A whole text put piece by piece.
ghost use Rattle.std.specs.Prelude.{◌≡◌, ◌≤◌, OnOk, OnErr, IsErrOf};
ghost use Rattle.std.specs.Io.KnownBytes.{append_known};
ghost use Rattle.psg_world.specs.Sinks.{HasRisen, TakesFront};

use crate::world::{Sink, WriteStop};
use std::alloc::Global;

/// Puts all the bytes, with as many puts as the sink wants; for no bytes there is no put. After an
/// `Err` a front of them was taken, and not all. `Failed` is the sink's own, `Memory` too.
pub fn put_all<O: Sink>(alloc: Global, out: &mut O, bytes: &[u8]) -> Result<(), WriteStop>
    ensures all { OnOk result (O.written out.new ≡ append_known (O.written out.old) bytes.now) }
    ensures front { OnErr result (TakesFront (O.written out.old) bytes.now (O.written out.new)) }
    ensures failed { IsErrOf result WriteStop.Failed → HasRisen (O.faults out.old) (O.faults out.new) }
    ensures never_falls { O.faults out.old ≤ O.faults out.new }
{
    let mut taken = 0;
    while taken < bytes.len() {
        taken += out.put(alloc, &bytes[taken..])?;
    }
    Ok(())
}
