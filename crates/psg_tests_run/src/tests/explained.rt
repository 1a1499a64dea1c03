//! Programs that are explained: what is said of them, and reads, writes and puts that fail.
use super::{Failing, NONE, ends, file, no_input, run_on};
use psg_langs::MINI;
use psg_run::Status;
use psg_world::MemFiles;
use std::test::Fail;

const WORDS: &[&str] = &["explain", "lang", "script"];

const WRONG: &str = "new Exp\nover / 1 + 2\nsave s /\nkeep s kept\nover / true + 1\n";

const WHY: &str = "culprit / step 1\npair 0 0 clash int = bool\nchecked\n";

/// The script, the calls that fail, how the run ends, and what it has written by then. The first two calls of the files
/// are the reads of the definition and of the script.
type Row<'a> = (&'a str, Failing<'a>, Status, &'a str);

const ROWS: &[Row<'static>] = &[
    (WRONG, NONE, Status::Done, WHY),
    ("new Exp\nover / 1\n", NONE, Status::Done, "ok\n"),
    ("over / 1\n", NONE, Status::Done, "none\n"),
    (
        WRONG,
        Failing {
            reads: &[1],
            puts: &[],
        },
        Status::ReadFault,
        "",
    ),
    (
        WRONG,
        Failing {
            reads: &[2],
            puts: &[],
        },
        Status::ReadFault,
        "",
    ),
    (
        WRONG,
        Failing {
            reads: &[3],
            puts: &[],
        },
        Status::Done,
        WHY,
    ),
    (
        WRONG,
        Failing {
            reads: &[],
            puts: &[1],
        },
        Status::WriteFault,
        "",
    ),
];

#[test]
fn programs_are_explained(rt: HostRuntime) -> Result<(), Fail> {
    let alloc = rt.alloc();
    for (script, failing, status, output) in ROWS {
        let mut held = Vec::new(alloc);
        held.push(file(alloc, "lang", MINI.as_bytes())?)?;
        held.push(file(alloc, "script", script.as_bytes())?)?;
        let failing_calls = Vec::from_slice(alloc, failing.reads)?;
        let mut files = MemFiles::new(alloc, held, failing_calls);
        let mut input = no_input(alloc);
        let run = run_on(alloc, WORDS, &mut files, &mut input, failing.puts)?;
        ends(&rt, &run, *status, output);
    }
    Ok(())
}
