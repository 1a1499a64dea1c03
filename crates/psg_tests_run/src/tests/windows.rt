//! Lines of several windows: reads and writes that fail, and a definition that is refused.
use super::{Failing, ends, run_words};
use psg_langs::CONSTS;
use psg_run::Status;
use std::test::Fail;

const WINDOWS: &[&str] = &["windows", "lang", "script"];

/// Lines for windows, with an empty line, lines for none and a command that is refused.
const LINES: &str =
    "0 new Exp\n1 refine / plus\n\n0 goto /1\r\n2 show\n8 show\nshow\n3 nosuch\n1 refine /1 tru\n0 goto .\n1 goto .\n";

const OUTPUT: &str =
    "0 ok\n1 ok\n0 at /1 Exp ? 9 13\n2 ( ?Exp + ?Exp )\n2 ok\nrefused 1\nrefused 1\nrefused 1\n1 refused 12\n0 at /1 Exp ? 9 13\n1 at / Exp plus 0 15\n";

/// A definition, the reads and the writes that fail, how the run ends, and what it has written.
type Row<'a> = (&'a str, &'a [u64], &'a [u64], Status, &'a str);

const ROWS: &[Row<'static>] = &[
    (CONSTS, &[], &[], Status::Done, OUTPUT),
    (CONSTS, &[1], &[], Status::ReadFault, ""),
    (CONSTS, &[2], &[], Status::ReadFault, ""),
    (CONSTS, &[3], &[], Status::Done, OUTPUT),
    (CONSTS, &[], &[1], Status::WriteFault, ""),
    (CONSTS, &[], &[3], Status::WriteFault, "0 ok\n1 ok\n"),
    (
        CONSTS,
        &[],
        &[6],
        Status::WriteFault,
        "0 ok\n1 ok\n0 at /1 Exp ? 9 13\n2 ( ?Exp + ?Exp )\n2 ok\nrefused 1\n",
    ),
    ("", &[], &[], Status::DefinitionRefused, "line 1 code 3\n"),
];

#[test]
fn lines_are_played_for_windows(rt: HostRuntime) -> Result<(), Fail> {
    for (definition, reads, puts, status, output) in ROWS {
        let failing = Failing { reads, puts };
        let definition = definition.as_bytes();
        let run = run_words(rt.alloc(), WINDOWS, definition, LINES.as_bytes(), failing)?;
        ends(&rt, &run, *status, output);
    }
    Ok(())
}
