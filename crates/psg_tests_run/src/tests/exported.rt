//! Definitions that are exported from their own editor: reads, writes and puts that fail, and the order of the tests.
use super::{Failing, NONE, ends, file, no_input, run_on};
use psg_run::Status;
use psg_world::MemFiles;
use std::test::Fail;

const WORDS: &[&str] = &["self", "script", "out"];

const WHOLE: &str =
    "new Lines\nover / sort T = a(), b() ; phylum P : T ; op x : P plain = \"x\" rows row a() : ; hole P a() by x()\n";

/// The script, the calls that fail, how the run ends, and what it has written by then. The first call of the files is the
/// read of the script.
type Row<'a> = (&'a str, Failing<'a>, Status, &'a str);

const ROWS: &[Row<'static>] = &[
    (WHOLE, NONE, Status::Done, "exported\naccepted\n"),
    ("new Lines\n", NONE, Status::Done, "unfinished /\n"),
    ("new Term\n", NONE, Status::Done, "refused 5\n"),
    ("", NONE, Status::Done, "none\n"),
    (
        WHOLE,
        Failing {
            reads: &[1],
            puts: &[],
        },
        Status::ReadFault,
        "",
    ),
    (
        WHOLE,
        Failing {
            reads: &[2],
            puts: &[],
        },
        Status::Done,
        "refused 18\n",
    ),
    (
        WHOLE,
        Failing {
            reads: &[],
            puts: &[1],
        },
        Status::WriteFault,
        "",
    ),
];

#[test]
fn definitions_are_exported(rt: HostRuntime) -> Result<(), Fail> {
    let alloc = rt.alloc();
    for (script, failing, status, output) in ROWS {
        let mut held = Vec::new(alloc);
        held.push(file(alloc, "script", script.as_bytes())?)?;
        let failing_calls = Vec::from_slice(alloc, failing.reads)?;
        let mut files = MemFiles::new(alloc, held, failing_calls);
        let mut input = no_input(alloc);
        let run = run_on(alloc, WORDS, &mut files, &mut input, failing.puts)?;
        ends(&rt, &run, *status, output);
    }
    Ok(())
}
