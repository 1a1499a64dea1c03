//! Programs that are arranged by a layout: reads and writes that fail, long files, and the order of the tests.
use super::{Failing, NONE, Run, ends, file, no_input, run_on};
use psg_langs::MINI;
use psg_run::Status;
use psg_world::MemFiles;
use std::alloc::{AllocError, Global};
use std::test::Fail;

const WORDS: &[&str] = &["layout", "lang", "script", "rules", "11"];

const RULES: &str = "group plus\nbreak plus 1\n";

const SCRIPT: &str = "new Exp\nover / 10 + 20 + 30\nsave s /\nkeep s kept\n";

/// The layout, the reads and the puts that fail, how the run ends, and what it has written by then.
type Row<'a> = (&'a str, Failing<'a>, Status, &'a str);

const ROWS: &[Row<'static>] = &[
    (RULES, NONE, Status::Done, "10 + 20\n  + 30\n"),
    ("", NONE, Status::Done, "10 + 20 + 30\n"),
    (
        "break plus 2\nbreak plus 3\n",
        NONE,
        Status::LayoutRefused,
        "layout line 2 code 7\n",
    ),
    (
        RULES,
        Failing {
            reads: &[],
            puts: &[1],
        },
        Status::WriteFault,
        "",
    ),
    (
        RULES,
        Failing {
            reads: &[1],
            puts: &[],
        },
        Status::ReadFault,
        "",
    ),
    (
        RULES,
        Failing {
            reads: &[2],
            puts: &[],
        },
        Status::ReadFault,
        "",
    ),
    (
        RULES,
        Failing {
            reads: &[3],
            puts: &[],
        },
        Status::ReadFault,
        "",
    ),
    (
        "x",
        Failing {
            reads: &[],
            puts: &[1],
        },
        Status::WriteFault,
        "",
    ),
    (
        "x",
        Failing {
            reads: &[3],
            puts: &[],
        },
        Status::ReadFault,
        "",
    ),
];

/// Runs on the files `lang`, which has MINI, `script` and `rules`.
fn run_by(
    alloc: Global,
    words: &[&str],
    script: &[u8],
    rules: &[u8],
    failing: Failing,
) -> Result<Run, AllocError> {
    let mut held = Vec::new(alloc);
    held.push(file(alloc, "lang", MINI.as_bytes())?)?;
    held.push(file(alloc, "script", script)?)?;
    held.push(file(alloc, "rules", rules)?)?;
    let failing_reads = Vec::from_slice(alloc, failing.reads)?;
    let mut files = MemFiles::new(alloc, held, failing_reads);
    let mut input = no_input(alloc);
    run_on(alloc, words, &mut files, &mut input, failing.puts)
}

#[test]
fn programs_are_arranged(rt: HostRuntime) -> Result<(), Fail> {
    for (rules, failing, status, output) in ROWS {
        let run = run_by(
            rt.alloc(),
            WORDS,
            SCRIPT.as_bytes(),
            rules.as_bytes(),
            *failing,
        )?;
        ends(&rt, &run, *status, output);
    }
    Ok(())
}

/// The words, the script's length, how the run ends, and what it has written: of two faults the earlier one counts.
const ORDERS: &[(&[&str], usize, Status, &str)] = &[
    (
        &["layout", "absent", "absent", "absent", "11"],
        0,
        Status::ReadFault,
        "",
    ),
    (
        &["layout", "rules", "absent", "absent", "11"],
        0,
        Status::DefinitionRefused,
        "line 1 code 3\n",
    ),
    (
        &["layout", "lang", "absent", "script", "11"],
        0,
        Status::ReadFault,
        "",
    ),
    (
        &["layout", "lang", "script", "absent", "11"],
        4_194_305,
        Status::TooLong,
        "",
    ),
    (
        &["layout", "lang", "script", "lang", "11"],
        0,
        Status::LayoutRefused,
        "layout line 1 code 2\n",
    ),
];

#[test]
fn the_definition_then_the_script_then_the_layout_is_read(rt: HostRuntime) -> Result<(), Fail> {
    let alloc = rt.alloc();
    for (words, length, status, output) in ORDERS {
        let mut script = Vec::from_slice(alloc, SCRIPT.as_bytes())?;
        for _ in script.len()..*length {
            script.push(b'\n')?;
        }
        let run = run_by(alloc, words, script.as_slice(), RULES.as_bytes(), NONE)?;
        ends(&rt, &run, *status, output);
    }
    Ok(())
}

/// The rules, with a comment that makes them that many bytes long.
fn long_rules(alloc: Global, bytes: usize) -> Result<Vec<u8>, AllocError> {
    let mut rules = Vec::from_slice(alloc, RULES.as_bytes())?;
    rules.push(b'#')?;
    for _ in rules.len()..bytes {
        rules.push(b'x')?;
    }
    Ok(rules)
}

#[test]
fn layouts_have_a_limit(rt: HostRuntime) -> Result<(), Fail> {
    let alloc = rt.alloc();
    let longest = long_rules(alloc, 65_536)?;
    let run = run_by(alloc, WORDS, SCRIPT.as_bytes(), longest.as_slice(), NONE)?;
    ends(&rt, &run, Status::Done, "10 + 20\n  + 30\n");
    let longer = long_rules(alloc, 65_537)?;
    let run = run_by(alloc, WORDS, SCRIPT.as_bytes(), longer.as_slice(), NONE)?;
    ends(&rt, &run, Status::TooLong, "");
    Ok(())
}
