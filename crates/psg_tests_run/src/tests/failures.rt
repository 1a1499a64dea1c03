//! Reads and writes that fail, and words that have no form.
use super::{CHECK, EDIT, Failing, NONE, SUM, ends, run_words};
use psg_langs::CONSTS;
use psg_run::Status;
use std::test::Fail;

/// Words, a definition and a script, the reads and the writes that fail, how the run ends, and what it has written by
/// then.
type Row<'a> = (
    &'a [&'a str],
    (&'a str, &'a str),
    (&'a [u64], &'a [u64]),
    Status,
    &'a str,
);

/// A definition that is read, of which an operator begins with a slot of another phylum.
const OUTSIDE: &str =
    "psg 1\nsort S = s\nphylum P : S\nphylum Q : S\nop q : Q = \"q\"\nop u : P = Q\n";

const ROWS: &[Row<'static>] = &[
    (CHECK, (CONSTS, ""), (&[], &[1]), Status::WriteFault, ""),
    (CHECK, (CONSTS, ""), (&[1], &[]), Status::ReadFault, ""),
    (EDIT, (CONSTS, SUM), (&[], &[1]), Status::WriteFault, ""),
    (EDIT, (CONSTS, SUM), (&[], &[2]), Status::WriteFault, "ok\n"),
    (
        EDIT,
        (CONSTS, SUM),
        (&[], &[3]),
        Status::WriteFault,
        "ok\nok\n",
    ),
    (
        EDIT,
        (CONSTS, SUM),
        (&[], &[4]),
        Status::WriteFault,
        "ok\nok\n( ?Exp + ?Exp )\nok\n",
    ),
    (
        EDIT,
        (CONSTS, SUM),
        (&[], &[5]),
        Status::WriteFault,
        "ok\nok\n( ?Exp + ?Exp )\nok\nrefused 12\n",
    ),
    (EDIT, ("", ""), (&[], &[1]), Status::WriteFault, ""),
    (CHECK, (OUTSIDE, ""), (&[], &[1]), Status::WriteFault, ""),
    (
        EDIT,
        (OUTSIDE, SUM),
        (&[2], &[]),
        Status::DefinitionRefused,
        "refused NoFirst u\n",
    ),
    (EDIT, (CONSTS, SUM), (&[1], &[]), Status::ReadFault, ""),
    (EDIT, (CONSTS, SUM), (&[2], &[]), Status::ReadFault, ""),
    (
        &["edit", "absent", "script"],
        (CONSTS, SUM),
        (&[], &[]),
        Status::ReadFault,
        "",
    ),
    (
        &["edit", "lang", "absent"],
        (CONSTS, SUM),
        (&[], &[]),
        Status::ReadFault,
        "",
    ),
    (
        &["gen", "1"],
        (CONSTS, SUM),
        (&[1], &[1]),
        Status::WriteFault,
        "",
    ),
];

const OTHER_WORDS: &[&[&str]] = &[
    &[],
    &["edit"],
    &["edit", "lang"],
    &["edit", "lang", "script", "script"],
    &["Edit", "lang", "script"],
    &["check"],
    &["gen"],
    &["gen", "0"],
    &["gen", "01"],
    &["gen", "+1"],
    &["gen", "1001"],
    &["gen", "4294967297"],
    &["gen", "one"],
    &["gen", "1", "1"],
    &["layout", "lang", "script", "script"],
    &["layout", "lang", "script", "script", "0"],
    &["layout", "lang", "script", "script", "401"],
    &["layout", "lang", "script", "script", "012"],
    &["layouts", "lang", "script", "script", "80"],
    &["layout", "lang", "script", "script", "80", "80"],
    &["check", "lang", "script"],
    &["edit", "check"],
    &["--help"],
];

#[test]
fn reads_and_writes_fail(rt: HostRuntime) -> Result<(), Fail> {
    for (words, (definition, script), (reads, puts), status, output) in ROWS {
        let failing = Failing { reads, puts };
        let definition = definition.as_bytes();
        let run = run_words(rt.alloc(), words, definition, script.as_bytes(), failing)?;
        ends(&rt, &run, *status, output);
    }
    Ok(())
}

#[test]
fn other_words_have_no_form(rt: HostRuntime) -> Result<(), Fail> {
    for words in OTHER_WORDS {
        let run = run_words(rt.alloc(), words, CONSTS.as_bytes(), SUM.as_bytes(), NONE)?;
        ends(&rt, &run, Status::Words, "");
    }
    Ok(())
}
