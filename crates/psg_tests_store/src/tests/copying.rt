//! A caller that is generic over files and sinks, and what the constructors say to it.
ghost use Rattle.std.specs.Prelude.{◌≡◌, ◌++◌, [], ◌∷◌, IfOk, OnOk, IfSome, IsErrOf};
ghost use Rattle.std.specs.Io.KnownBytes.{append_known};
ghost use Rattle.psg_world.specs.Files.{bytes_of, front_of, reading};
ghost use Rattle.psg_world.specs.Memory.{held_of};
ghost use Rattle.psg_world.specs.Sinks.{HasRisen};

use super::files::three;
use psg_world::{Files, MemFiles, MemSink, ReadStop, Sink, WriteStop, put_all};
use std::alloc::Global;
use std::test::Fail;

#[derive(Clone, Copy, Debug, PartialEq, Eq)]
enum CopyStop {
    Read(ReadStop),
    Write(WriteStop),
}

/// Puts what a read of a file gives.
fn copy<F: Files, O: Sink>(
    alloc: Global,
    files: &mut F,
    name: &str,
    limit: usize,
    out: &mut O,
) -> Result<(), CopyStop>
    ensures copied { OnOk result (IfSome (F.holds files.old) (λ held.
        O.written out.new ≡ append_known (O.written out.old) (front_of limit (bytes_of held name.now)))) }
    ensures keeps { F.holds files.new ≡ F.holds files.old }
    ensures unread { IsErrOf result (CopyStop.Read ReadStop.Failed) →
        F.faults files.new ≡ F.faults files.old ++ reading name.now ∷ [] }
    ensures unwritten { IsErrOf result (CopyStop.Write WriteStop.Failed) →
        HasRisen (O.faults out.old) (O.faults out.new) }
    ensures read { OnOk result (F.faults files.new ≡ F.faults files.old) }
{
    let bytes = files.read(alloc, name, limit).map_err(CopyStop::Read)?;
    put_all(alloc, out, &bytes).map_err(CopyStop::Write)?;
    Ok(())
}

/// What the constructors say is what a generic caller needs.
fn copied(alloc: Global, held: Vec<(String, Vec<u8>)>, name: &str) -> Result<MemSink, CopyStop>
    ensures { IfOk result (λ sink. sink.written ≡ front_of 100 (bytes_of (held_of held.items) name.now)) }
{
    let mut files = MemFiles::new(alloc, held, Vec::new(alloc));
    let mut sink = MemSink::new(alloc, Vec::new(alloc));
    copy(alloc, &mut files, name, 100, &mut sink)?;
    Ok(sink)
}

#[test]
fn a_file_is_copied(rt: HostRuntime) -> Result<(), Fail> {
    let alloc = rt.alloc();
    let sink = copied(alloc, three(alloc)?, "a")?;
    assert!(rt; sink.written() == b"first".as_slice());
    assert_eq!(rt;
        copied(alloc, three(alloc)?, "c").err(),
        Some(CopyStop::Read(ReadStop::Failed))
    );
    Ok(())
}
