//! Commands that are read line by line: an input that ends, fails, or has a line that is too long.
use super::{Run, ends, files, run_on};
use psg_langs::CONSTS;
use psg_run::Status;
use psg_world::MemInput;
use std::alloc::{AllocError, Global};
use std::test::Fail;

const LIVE: &[&str] = &["live", "lang"];

const FRAMED: &[&str] = &["live", "--framed", "lang"];

/// The lines of a session, with a carriage return, an empty line and one that is no command.
const LINES: &[&str] = &[
    "new Exp",
    "refine / plus\r",
    "",
    "shwo",
    "refine /0 tru",
    "\r",
    "show",
];

/// The lines that can't be read, counted from 1, and the writes that fail; how the run ends, and what it has written.
type Row<'a> = (&'a [u64], &'a [u64], Status, &'a str);

const ROWS: &[Row<'static>] = &[
    (
        &[],
        &[],
        Status::Done,
        "ok\nok\nrefused 1\nrefused 12\n( ?Exp + ?Exp )\nok\n",
    ),
    (&[1], &[], Status::ReadFault, ""),
    (&[3], &[], Status::ReadFault, "ok\nok\n"),
    (
        &[6],
        &[],
        Status::ReadFault,
        "ok\nok\nrefused 1\nrefused 12\n",
    ),
    (
        &[8],
        &[],
        Status::ReadFault,
        "ok\nok\nrefused 1\nrefused 12\n( ?Exp + ?Exp )\nok\n",
    ),
    (
        &[9],
        &[],
        Status::Done,
        "ok\nok\nrefused 1\nrefused 12\n( ?Exp + ?Exp )\nok\n",
    ),
    (&[], &[1], Status::WriteFault, ""),
    (&[], &[3], Status::WriteFault, "ok\nok\n"),
    (&[4], &[3], Status::ReadFault, "ok\nok\n"),
    (&[5], &[3], Status::WriteFault, "ok\nok\n"),
];

/// The same where each reply has a line with the number of its lines before it.
const FRAMED_ROWS: &[Row<'static>] = &[
    (
        &[],
        &[],
        Status::Done,
        "1\nok\n1\nok\n1\nrefused 1\n1\nrefused 12\n2\n( ?Exp + ?Exp )\nok\n",
    ),
    (&[3], &[], Status::ReadFault, "1\nok\n1\nok\n"),
    (&[], &[3], Status::WriteFault, "1\nok\n1\nok\n"),
];

fn lines_of(alloc: Global, lines: &[&str]) -> Result<Vec<Vec<u8>>, AllocError> {
    let mut all = Vec::new(alloc);
    for line in lines {
        all.push(Vec::from_slice(alloc, line.as_bytes())?)?;
    }
    Ok(all)
}

/// Runs for the words on the definition and the lines.
fn run_lines(
    alloc: Global,
    words: &[&str],
    definition: &str,
    lines: Vec<Vec<u8>>,
    unread: &[u64],
    puts: &[u64],
) -> Result<Run, AllocError> {
    let mut files = files(alloc, definition.as_bytes(), b"", &[])?;
    let mut input = MemInput::new(alloc, lines, Vec::from_slice(alloc, unread)?);
    run_on(alloc, words, &mut files, &mut input, puts)
}

/// A command that is as long as the number says, by spaces between its words.
fn spaced(alloc: Global, length: usize) -> Result<Vec<u8>, AllocError> {
    let mut line = Vec::with_capacity(alloc, length)?;
    line.extend_from_slice(b"new")?;
    for _ in 6..length {
        line.push(b' ')?;
    }
    line.extend_from_slice(b"Exp")?;
    Ok(line)
}

#[test]
fn lines_are_answered_up_to_a_fault(rt: HostRuntime) -> Result<(), Fail> {
    for (unread, puts, status, output) in ROWS {
        let lines = lines_of(rt.alloc(), LINES)?;
        let run = run_lines(rt.alloc(), LIVE, CONSTS, lines, unread, puts)?;
        ends(&rt, &run, *status, output);
    }
    Ok(())
}

#[test]
fn framed_lines_are_answered_with_numbers(rt: HostRuntime) -> Result<(), Fail> {
    for (unread, puts, status, output) in FRAMED_ROWS {
        let lines = lines_of(rt.alloc(), LINES)?;
        let run = run_lines(rt.alloc(), FRAMED, CONSTS, lines, unread, puts)?;
        ends(&rt, &run, *status, output);
    }
    Ok(())
}

#[test]
fn a_line_is_too_long_by_one_byte(rt: HostRuntime) -> Result<(), Fail> {
    for (length, output) in [(1_048_576, "ok\nok\n"), (1_048_577, "refused 1\nok\n")] {
        let mut lines = Vec::new(rt.alloc());
        lines.push(spaced(rt.alloc(), length)?)?;
        lines.push(Vec::from_slice(rt.alloc(), b"new Exp")?)?;
        let run = run_lines(rt.alloc(), LIVE, CONSTS, lines, &[], &[])?;
        ends(&rt, &run, Status::Done, output);
    }
    Ok(())
}

#[test]
fn a_refused_definition_reads_no_line(rt: HostRuntime) -> Result<(), Fail> {
    let lines = lines_of(rt.alloc(), LINES)?;
    let run = run_lines(rt.alloc(), LIVE, "", lines, &[1], &[])?;
    ends(&rt, &run, Status::DefinitionRefused, "line 1 code 3\n");
    Ok(())
}
