//! The five lines of the program that is made for a number.
use super::{Failing, NONE, ends, run_words};
use psg_run::Status;
use std::test::Fail;

const ROWS: &[(&str, &str)] = &[
    ("1", "nodes 12\nbytes 79\nweight 29\nmenu 6\nmark ok\n"),
    ("2", "nodes 18\nbytes 111\nweight 55\nmenu 6\nmark ok\n"),
    (
        "30",
        "nodes 186\nbytes 1087\nweight 2407\nmenu 6\nmark ok\n",
    ),
];

/// The second put fails where there is one.
const SECOND: Failing<'static> = Failing {
    reads: &[],
    puts: &[2],
};

#[test]
fn five_lines_are_written_at_once(rt: HostRuntime) -> Result<(), Fail> {
    for (number, lines) in ROWS {
        for failing in [NONE, SECOND] {
            let run = run_words(rt.alloc(), &["gen", number], b"", b"", failing)?;
            ends(&rt, &run, Status::Done, lines);
        }
    }
    Ok(())
}
