//! Program files that are formatted: reads and writes that fail, long files, and the order of the tests.
use super::{Failing, NONE, Run, ends, file, no_input, run_on};
use psg_langs::MINI;
use psg_run::Status;
use psg_world::MemFiles;
use std::alloc::{AllocError, Global};
use std::test::Fail;

const WORDS: &[&str] = &["format", "lang", "Stat", "program"];

const CHECKS: &[&str] = &["format", "lang", "Stat", "program", "--check"];

const READ_FAILS: Failing<'static> = Failing {
    reads: &[2],
    puts: &[],
};

const PUT_FAILS: Failing<'static> = Failing {
    reads: &[],
    puts: &[1],
};

/// Runs the words on MINI and a program file.
fn run_with(
    alloc: Global,
    words: &[&str],
    program: &[u8],
    failing: Failing<'_>,
) -> Result<Run, AllocError> {
    let mut held = Vec::new(alloc);
    held.push(file(alloc, "lang", MINI.as_bytes())?)?;
    held.push(file(alloc, "program", program)?)?;
    let reads = Vec::from_slice(alloc, failing.reads)?;
    let mut files = MemFiles::new(alloc, held, reads);
    let mut input = no_input(alloc);
    run_on(alloc, words, &mut files, &mut input, failing.puts)
}

/// The words, the program, the calls that fail, how the run ends, and what it has written by then.
type Row<'a> = (&'a [&'a str], &'a str, Failing<'a>, Status, &'a str);

const ROWS: &[Row<'static>] = &[
    (WORDS, "x:=((1))", NONE, Status::Done, "x := 1\n"),
    (CHECKS, "x := 1\n", NONE, Status::Done, ""),
    (
        CHECKS,
        "x := 1",
        NONE,
        Status::Wrong,
        "program:2:1: error: not formatted: \n",
    ),
    (
        WORDS,
        "x = 1",
        NONE,
        Status::Wrong,
        "program:1:3: error: unexpected `=`, expected `:=`\n",
    ),
    (WORDS, "skip", READ_FAILS, Status::ReadFault, ""),
    (WORDS, "skip", PUT_FAILS, Status::WriteFault, ""),
    (WORDS, "x = 1", PUT_FAILS, Status::WriteFault, ""),
    (CHECKS, "skip", PUT_FAILS, Status::WriteFault, ""),
    // nothing is put
    (CHECKS, "skip\n", PUT_FAILS, Status::Done, ""),
    // the kind is looked up before the file is read
    (
        &["format", "lang", "Nowhere", "program"],
        "skip",
        READ_FAILS,
        Status::Wrong,
        "refused 4\n",
    ),
    (
        &["format", "lang", "Decl", "absent"],
        "skip",
        NONE,
        Status::Wrong,
        "refused 21\n",
    ),
    (
        &["format", "lang", "Decl", "absent"],
        "skip",
        PUT_FAILS,
        Status::WriteFault,
        "",
    ),
    (
        &["format", "program", "Nowhere", "absent"],
        "skip",
        NONE,
        Status::DefinitionRefused,
        "line 1 code 3\n",
    ),
    (
        &["format", "lang", "Stat", "program", "--chec"],
        "skip",
        NONE,
        Status::Words,
        "",
    ),
];

#[test]
fn programs_are_formatted(rt: HostRuntime) -> Result<(), Fail> {
    for (words, program, failing, status, output) in ROWS {
        let run = run_with(rt.alloc(), words, program.as_bytes(), *failing)?;
        ends(&rt, &run, *status, output);
    }
    Ok(())
}

/// A statement, with spaces that make it that many bytes long.
fn long_program(alloc: Global, bytes: usize) -> Result<Vec<u8>, AllocError> {
    let mut program = Vec::from_slice(alloc, "skip".as_bytes())?;
    for _ in program.len()..bytes {
        program.push(b' ')?;
    }
    Ok(program)
}

#[test]
fn programs_have_a_limit(rt: HostRuntime) -> Result<(), Fail> {
    let alloc = rt.alloc();
    let longest = long_program(alloc, 4_194_304)?;
    let run = run_with(alloc, WORDS, longest.as_slice(), NONE)?;
    ends(&rt, &run, Status::Done, "skip\n");
    let longer = long_program(alloc, 4_194_305)?;
    let run = run_with(alloc, WORDS, longer.as_slice(), NONE)?;
    ends(&rt, &run, Status::TooLong, "");
    Ok(())
}
