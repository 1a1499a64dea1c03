//! Layouts of MINI that are read or refused.
use super::languages::{mini, refusal};
use std::test::Fail;

/// A layout's file, and its line and code, or `read`.
const ROWS: &[(&str, &str)] = &[
    ("", "read"),
    ("group plus", "read"),
    ("# a comment\n\ngroup plus\nbreak plus 1\n", "read"),
    ("group   plus\nbreak  plus   2", "read"),
    ("group plus\r\nbreak plus 1\r\n", "read"),
    // neither form
    ("group Plus", "1 code 2"),
    ("grou plus", "1 code 2"),
    ("group", "1 code 2"),
    ("group plus 1", "1 code 2"),
    (" group plus", "1 code 2"),
    ("group plus ", "1 code 2"),
    ("group\tplus", "1 code 2"),
    ("break plus", "1 code 2"),
    ("break plus 1 ", "1 code 2"),
    ("break plus +1", "1 code 2"),
    ("break plus 01", "1 code 2"),
    ("break plus 4294967296", "1 code 2"),
    ("break plus 4294967295", "1 code 7"),
    ("break plus 1\r", "1 code 2"),
    ("\u{feff}group plus", "1 code 2"),
    ("   ", "1 code 2"),
    // no such operator
    ("group nosuch", "1 code 5"),
    ("break nosuch 01", "1 code 2"),
    ("#x\n\nbreak plus 2\nbreak nosuch 9", "4 code 5"),
    // no such item
    ("break plus 0", "1 code 7"),
    ("break plus 3", "1 code 7"),
    ("break tru 1", "1 code 7"),
    ("break while 4\nbreak while 5", "2 code 7"),
    ("break plus 9\nbreak plus 9", "1 code 7"),
    // twice
    ("group plus\ngroup plus", "2 code 4"),
    ("break plus 1\nbreak plus 2\nbreak  plus 1", "3 code 4"),
    // an earlier line is answered first
    ("group nosuch\nGROUP", "1 code 5"),
];

#[test]
fn first_faults(rt: HostRuntime) -> Result<(), Fail> {
    let definition = mini(rt.alloc())?;
    for (file, answer) in ROWS {
        let answered = refusal(rt.alloc(), &definition, file.as_bytes())?;
        assert_eq!(rt; answered.as_str(), *answer);
    }
    Ok(())
}

#[test]
fn no_text(rt: HostRuntime) -> Result<(), Fail> {
    let definition = mini(rt.alloc())?;
    let bytes: &[u8] = &[b'g', b'r', b'o', b'u', b'p', b' ', b'P', b'\n', b'\n', 255];
    let answered = refusal(rt.alloc(), &definition, bytes)?;
    assert_eq!(rt; answered.as_str(), "3 code 1");
    Ok(())
}
