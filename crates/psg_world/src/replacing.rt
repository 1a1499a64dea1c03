// The replacement of one of the machine's files, all or nothing.
use crate::world::WriteStop;
use std::alloc::Global;
use std::fs::{File, OpenFile, OpenOptions, Permissions};
use std::io::{self, ErrorKind, Write};
use std::{fs, rt};

// What is added to a name for the file beside.
const BESIDE: &str = ".psg-new";

/// Writes the bytes to a new file beside the one of the name, which then takes its place. Where that fails, the new
/// file is removed.
pub fn replace_file<R: rt::Files>(
    alloc: Global,
    runtime: &R,
    name: &str,
    bytes: &[u8],
) -> Result<(), WriteStop> {
    let target = target_of(alloc, runtime, name)?;
    let mut beside = String::from_str(alloc, target.as_str())?;
    beside.push_str(BESIDE)?;
    let rights = rights_of(runtime, target.as_str()).map_err(stop_of)?;
    let mut file = File::create_new(runtime, beside.as_str()).map_err(stop_of)?;
    match put_in_place(
        runtime,
        &mut file,
        rights,
        bytes,
        (beside.as_str(), target.as_str()),
    ) {
        Ok(()) => Ok(()),
        Err(error) => {
            let _ = fs::remove_file(runtime, beside.as_str());
            Err(stop_of(error))
        }
    }
}

// The reason of an error of the machine.
fn stop_of(error: io::Error) -> WriteStop {
    match error.kind() {
        ErrorKind::OutOfMemory => WriteStop::Memory,
        _ => WriteStop::Failed,
    }
}

// The path of the file that the name leads to, or the name itself where there is no file yet.
fn target_of<R: rt::Files>(alloc: Global, runtime: &R, name: &str) -> Result<String, WriteStop> {
    match runtime.canonicalize(alloc, name) {
        Ok(path) => Ok(String::from_str(alloc, path.as_str())?),
        Err(error) if error.kind() == ErrorKind::NotFound => Ok(String::from_str(alloc, name)?),
        Err(error) => Err(stop_of(error)),
    }
}

// The rights of the file, or none where it isn't there. What is no file, or may not be written, is an error.
fn rights_of<R: rt::Files>(runtime: &R, target: &str) -> io::Result<Option<Permissions>> {
    let found = match fs::metadata(runtime, target) {
        Ok(found) => found,
        Err(error) if error.kind() == ErrorKind::NotFound => return Ok(None),
        Err(error) => return Err(error),
    };
    if !found.is_file() {
        return Err(io::Error::from(ErrorKind::InvalidInput));
    }
    OpenOptions::new().write(true).open(runtime, target)?;
    Ok(Some(found.permissions()))
}

// Fills the new file, which then takes the name of the old one.
fn put_in_place<R: rt::Files>(
    runtime: &R,
    file: &mut R::File,
    rights: Option<Permissions>,
    bytes: &[u8],
    (beside, target): (&str, &str),
) -> io::Result<()> {
    if let Some(rights) = rights {
        file.set_permissions(rights)?;
    }
    file.write_all(bytes)?;
    file.sync_all()?;
    fs::rename(runtime, beside, target)
}
