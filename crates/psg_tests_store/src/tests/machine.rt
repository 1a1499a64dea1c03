//! The machine's files and its standard output.
use psg_world::{Files, HostFiles, HostSink, ReadStop, Sink, WriteStop, put_all};
use std::fmt::Display;
use std::fs::Permissions;
use std::io::{self, ErrorKind};
use std::os::unix::fs::{PermissionsExt, symlink};
use std::test::Fail;
use std::{env, fs, process};

/// An output that takes nothing.
struct Full;

impl Print for Full {
    fn print<D: Display + Drop>(&self, _value: D) -> io::Result<()> {
        Err(io::Error::from(ErrorKind::StorageFull))
    }

    fn println<D: Display + Drop>(&self, _value: D) -> io::Result<()> {
        Err(io::Error::from(ErrorKind::StorageFull))
    }

    fn write_all(&self, _bytes: &[u8]) -> io::Result<()> {
        Err(io::Error::from(ErrorKind::StorageFull))
    }

    fn write_some(&self, _bytes: &[u8]) -> io::Result<usize> {
        Ok(0)
    }
}

#[test]
fn the_machine_reads_and_writes(rt: HostRuntime) -> Result<(), Fail> {
    let alloc = rt.alloc();
    let folder = env::temp_dir(&rt)?;
    let path = folder.join(
        alloc,
        format!(in alloc; "psg_tests_store_{}", process::id(rt.process()))?,
    )?;
    let name = path.as_str();
    let mut files = HostFiles::new(alloc, &rt);
    let bytes = vec![in alloc; b'x'; 20000]?;
    files.write(alloc, name, &bytes)?;
    for (limit, length) in [
        (0, 1),
        (8191, 8192),
        (19998, 19999),
        (19999, 20000),
        (20000, 20000),
        (usize::MAX, 20000),
    ] {
        let front = files.read(alloc, name, limit)?;
        assert_eq!(rt; front.len(), length, "at {limit}");
    }
    files.write(alloc, name, b"short")?;
    let short = files.read(alloc, name, 10)?;
    assert!(rt; short.as_slice() == b"short".as_slice());
    fs::remove_file(&rt, name)?;
    assert_eq!(rt; files.read(alloc, name, 10).err(), Some(ReadStop::Failed));
    assert_eq!(rt; files.read(alloc, "/dev/zero", 10)?.len(), 11);
    assert_eq!(rt;
        files.write(alloc, "/absent/file", b"a").err(),
        Some(WriteStop::Failed)
    );
    Ok(())
}

// A file that is replaced has the new bytes, and none is left beside; where there is a file beside, or the name is that of
// a folder, nothing changes.
#[test]
fn the_machine_replaces(rt: HostRuntime) -> Result<(), Fail> {
    let alloc = rt.alloc();
    let folder = env::temp_dir(&rt)?;
    let path = folder.join(
        alloc,
        format!(in alloc; "psg_tests_store_replaced_{}", process::id(rt.process()))?,
    )?;
    let name = path.as_str();
    let beside = format!(in alloc; "{name}.psg-new")?;
    let mut files = HostFiles::new(alloc, &rt);
    files.replace(alloc, name, b"first")?;
    files.replace(alloc, name, b"second")?;
    assert!(rt; files.read(alloc, name, 10)?.as_slice() == b"second".as_slice());
    assert_eq!(rt;
        files.read(alloc, &beside, 10).err(),
        Some(ReadStop::Failed)
    );
    files.write(alloc, &beside, b"of another")?;
    assert_eq!(rt;
        files.replace(alloc, name, b"third").err(),
        Some(WriteStop::Failed)
    );
    assert!(rt; files.read(alloc, name, 10)?.as_slice() == b"second".as_slice());
    assert!(rt; files.read(alloc, &beside, 10)?.as_slice() == b"of another".as_slice());
    assert_eq!(rt;
        files.replace(alloc, folder.as_str(), b"a").err(),
        Some(WriteStop::Failed)
    );
    assert_eq!(rt;
        files.replace(alloc, "/absent/file", b"a").err(),
        Some(WriteStop::Failed)
    );
    fs::remove_file(&rt, beside.as_str())?;
    fs::remove_file(&rt, name)?;
    Ok(())
}

// The rights of a file stay, and a link goes on leading to it.
#[test]
fn rights_and_links_stay(rt: HostRuntime) -> Result<(), Fail> {
    let alloc = rt.alloc();
    let folder = env::temp_dir(&rt)?;
    let path = folder.join(
        alloc,
        format!(in alloc; "psg_tests_store_linked_{}", process::id(rt.process()))?,
    )?;
    let name = path.as_str();
    let link = format!(in alloc; "{name}.link")?;
    let mut files = HostFiles::new(alloc, &rt);
    files.write(alloc, name, b"first")?;
    fs::set_permissions(&rt, name, Permissions::from_mode(0o600))?;
    symlink(&rt, name, link.as_str())?;
    files.replace(alloc, &link, b"second")?;
    assert!(rt; files.read(alloc, name, 10)?.as_slice() == b"second".as_slice());
    assert_eq!(rt;
        fs::metadata(&rt, name)?.permissions().mode() & 0o777,
        0o600
    );
    assert!(rt; fs::symlink_metadata(&rt, link.as_str())?.is_symlink());
    fs::remove_file(&rt, link.as_str())?;
    fs::remove_file(&rt, name)?;
    Ok(())
}

#[test]
fn the_standard_output_takes_bytes(rt: HostRuntime) -> Result<(), Fail> {
    let alloc = rt.alloc();
    let mut out = HostSink::new(&rt);
    put_all(alloc, &mut out, b"some bytes\n")?;
    let mut full = HostSink::new(&Full);
    assert_eq!(rt; full.put(alloc, b"a"), Err(WriteStop::Failed));
    Ok(())
}
