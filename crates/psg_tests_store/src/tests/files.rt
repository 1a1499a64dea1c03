//! Files in memory by scripts of their calls.
use psg_world::{Files, MemFiles, SureFiles};
use std::alloc::{AllocError, Global};
use std::test::Fail;

fn file(alloc: Global, name: &str, text: &str) -> Result<(String, Vec<u8>), AllocError> {
    Ok((
        String::from_str(alloc, name)?,
        Vec::from_slice(alloc, text.as_bytes())?,
    ))
}

/// Three files, two of them of one name.
pub(super) fn three(alloc: Global) -> Result<Vec<(String, Vec<u8>)>, AllocError> {
    let mut files = Vec::new(alloc);
    files.push(file(alloc, "a", "first")?)?;
    files.push(file(alloc, "b", "bee")?)?;
    files.push(file(alloc, "a", "second")?)?;
    Ok(files)
}

/// Puts an answer and a bar after it.
fn put(answers: &mut Vec<u8>, answer: &[u8]) -> Result<(), AllocError> {
    answers.extend_from_slice(answer)?;
    answers.push(b'|')?;
    Ok(())
}

fn put_read<F: Files>(
    alloc: Global,
    answers: &mut Vec<u8>,
    files: &mut F,
    (name, limit): (&str, &str),
) -> Result<(), AllocError> {
    let Ok(limit) = limit.parse::<usize>() else {
        return Err(AllocError);
    };
    match files.read(alloc, name, limit) {
        Ok(bytes) => put(answers, bytes.as_slice()),
        Err(stop) => put(answers, format!(in alloc; "{stop}")?.as_bytes()),
    }
}

fn put_write<F: Files>(
    alloc: Global,
    answers: &mut Vec<u8>,
    files: &mut F,
    (name, text): (&str, &str),
) -> Result<(), AllocError> {
    match files.write(alloc, name, text.as_bytes()) {
        Ok(()) => put(answers, b"done"),
        Err(stop) => put(answers, format!(in alloc; "{stop}")?.as_bytes()),
    }
}

fn put_replaced<F: Files>(
    alloc: Global,
    answers: &mut Vec<u8>,
    files: &mut F,
    (name, text): (&str, &str),
) -> Result<(), AllocError> {
    match files.replace(alloc, name, text.as_bytes()) {
        Ok(()) => put(answers, b"done"),
        Err(stop) => put(answers, format!(in alloc; "{stop}")?.as_bytes()),
    }
}

/// What the calls of a script answer, as `read a 10, write a new, replace a new`: a name, and the limit or the text.
pub(super) fn put_calls<F: Files>(
    alloc: Global,
    answers: &mut Vec<u8>,
    files: &mut F,
    script: &str,
) -> Result<(), AllocError> {
    for line in script.split(", ") {
        let (call, rest) = line.split_once(' ').ok_or(AllocError)?;
        let what = rest.split_once(' ').ok_or(AllocError)?;
        match call {
            "read" => put_read(alloc, answers, files, what)?,
            "write" => put_write(alloc, answers, files, what)?,
            "replace" => put_replaced(alloc, answers, files, what)?,
            _ => return Err(AllocError),
        }
    }
    Ok(())
}

/// What a file holds, or `none`.
fn put_held(answers: &mut Vec<u8>, held: Option<&[u8]>) -> Result<(), AllocError> {
    match held {
        Some(bytes) => put(answers, bytes),
        None => put(answers, b"none"),
    }
}

/// What the calls of a script on three files answer, of which those of some numbers fail, and what the names then hold.
fn answers_of_some(
    alloc: Global,
    failing: &[u64],
    script: &str,
    names: &str,
) -> Result<Vec<u8>, AllocError> {
    let failing = Vec::from_slice(alloc, failing)?;
    let mut files = MemFiles::new(alloc, three(alloc)?, failing);
    let mut answers = Vec::new(alloc);
    put_calls(alloc, &mut answers, &mut files, script)?;
    for name in names.split_whitespace() {
        put_held(&mut answers, files.held(name))?;
    }
    Ok(answers)
}

/// The same on files of which no call fails.
fn answers_of_sure(alloc: Global, script: &str, names: &str) -> Result<Vec<u8>, AllocError> {
    let mut files = SureFiles::new(alloc, three(alloc)?);
    let mut answers = Vec::new(alloc);
    put_calls(alloc, &mut answers, &mut files, script)?;
    for name in names.split_whitespace() {
        put_held(&mut answers, files.held(name))?;
    }
    Ok(answers)
}

#[test]
fn some_fail(rt: HostRuntime) -> Result<(), Fail> {
    for (failing, script, names, expected) in [
        // the first of a name counts
        (
            [0, 0],
            "read a 10, read b 10, write a new, write c see",
            "a b c d",
            "first|bee|done|done|new|bee|see|none|",
        ),
        // calls fail by their numbers
        (
            [2, 5],
            "read b 10, read b 10, read b 10, read absent 10, write b new, read b 10, write b new, read b 10",
            "",
            "bee|the file could not be read|bee|the file could not be read|\
            the bytes could not be written|bee|done|new|",
        ),
        // a replacement has a number too, and one that fails leaves each file
        (
            [1, 3],
            "replace a new, replace b new, replace b newer, replace c see, read b 10",
            "a b c",
            "the bytes could not be written|done|the bytes could not be written|done|new|first|new|see|",
        ),
    ] {
        let answers = answers_of_some(rt.alloc(), failing.as_slice(), script, names)?;
        assert!(rt; answers.as_slice() == expected.as_bytes(), "{script}");
    }
    Ok(())
}

// A name that is not there is read as an empty file.
#[test]
fn none_fails(rt: HostRuntime) -> Result<(), Fail> {
    let script = "read absent 10, write a new, write empty , replace b newer";
    let answers = answers_of_sure(rt.alloc(), script, "absent a b empty")?;
    assert!(rt; answers.as_slice() == b"|done|done|done|none|new|newer||".as_slice());
    Ok(())
}

// A long file shows one byte more than the limit.
#[test]
fn limits(rt: HostRuntime) -> Result<(), Fail> {
    let script = "read a 0, read a 3, read a 4, read a 5, read a 6, read a 18446744073709551615";
    let expected = b"f|firs|first|first|first|first|".as_slice();
    let some = answers_of_some(rt.alloc(), &[], script, "")?;
    assert!(rt; some.as_slice() == expected);
    let sure = answers_of_sure(rt.alloc(), script, "")?;
    assert!(rt; sure.as_slice() == expected);
    Ok(())
}
