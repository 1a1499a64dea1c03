//! Programs of MINI, arranged.
use super::languages::{arranged, mini, spans_shown, tree};
use std::test::Fail;

const SUMS: &str = "group plus\nbreak plus 1";

const EQUATIONS: &str = "group eq\nbreak plus 1";

const STATEMENTS: &str = "group assign\nbreak assign 2\ngroup plus\nbreak plus 1\n";

/// A layout's file, a kind, a program, the columns and the arranged text.
const ROWS: &[(&str, &str, &str, u32, &str)] = &[
    // a group is flat where it just fits
    (SUMS, "Exp", "10 + 20 + 30", 12, "10 + 20 + 30"),
    (SUMS, "Exp", "10 + 20 + 30", 11, "10 + 20\n  + 30"),
    (SUMS, "Exp", "10 + 20 + 30", 6, "10\n  + 20\n  + 30"),
    // an operator that is no group always breaks
    ("break plus 1", "Exp", "1 + 2", 80, "1\n  + 2"),
    // in a flat group nothing breaks
    (EQUATIONS, "Exp", "1 + 2 = 3 + 4", 40, "1 + 2 = 3 + 4"),
    // the second sum begins on the line that the first one broke
    (
        EQUATIONS,
        "Exp",
        "1 + 2 = 3 + 4",
        12,
        "1\n  + 2 = 3\n    + 4",
    ),
    // a flat group, and one after a break that breaks too
    (
        "group eq\ngroup plus\nbreak eq 1\nbreak plus 1",
        "Exp",
        "1 + 2 = 3 + 4",
        8,
        "1 + 2\n  = 3\n    + 4",
    ),
    // a break in front of a flat group
    (
        "group cat\nbreak eq 2\nbreak eq 1",
        "Exp",
        "漢字 = 漢字 & 漢字",
        80,
        "漢字\n  =\n  漢字 & 漢字",
    ),
    // a break in front of a bracket
    (
        "group eq\nbreak eq 2\nbreak plus 2",
        "Exp",
        "1 + (2 = 3 + 4)",
        10,
        "1 +\n  (2 =\n    3 +\n      4)",
    ),
    // eleven columns in fifteen bytes
    ("group cat\nbreak cat 1", "Exp", "漢字 & 漢字", 11, "漢字 & 漢字"),
    ("group cat\nbreak cat 1", "Exp", "漢字 & 漢字", 10, "漢字\n  & 漢字"),
    // marks are not counted
    (
        "break while 1\nbreak while 2",
        "Stats",
        "while x do y := 1 + 2 od",
        80,
        "while\n  x\n  do\n  y := 1 + 2\nod",
    ),
    (
        "break call 3\nbreak call 4",
        "Stat",
        "call p(1, 2)",
        80,
        "call p(\n  1, 2\n  )",
    ),
    // a break in front of an item without a token breaks nothing
    ("break call 3", "Stat", "call p()", 80, "call p()"),
    // levels of plain gaps do not move
    (
        STATEMENTS,
        "Stats",
        "while x do y := 1 + 2 ; z := 3 od",
        8,
        "while x do\n  y :=\n    1\n      + 2;\n  z := 3\nod",
    ),
    // a plain text with a line feed is never flat
    (
        "group while\nbreak while 1\n",
        "Stat",
        "while x do skip od",
        80,
        "while\n  x do\n  skip\nod",
    ),
    // without breaks it is the plain text
    (
        "group plus\ngroup while",
        "Stat",
        "while x do skip od",
        8,
        "while x do\n  skip\nod",
    ),
    ("", "Exp", "(1 = 2) + 3", 1, "(1 = 2) + 3"),
];

#[test]
fn texts(rt: HostRuntime) -> Result<(), Fail> {
    let definition = mini(rt.alloc())?;
    for (file, kind, program, cols, text) in ROWS {
        let tree = tree(rt.alloc(), &definition, kind, program)?;
        let printed = arranged(rt.alloc(), &definition, file, &tree, *cols)?;
        assert_eq!(rt; printed.text.as_str(), *text);
    }
    Ok(())
}

#[test]
fn spans(rt: HostRuntime) -> Result<(), Fail> {
    let definition = mini(rt.alloc())?;
    for (file, kind, program, cols, spans) in [
        (
            SUMS,
            "Exp",
            "10 + 20 + 30",
            11,
            "/ 0 14, /0 0 7, /0/0 0 2, /0/1 5 7, /1 12 14",
        ),
        // an empty list is where the token in front of it ends; brackets are outside
        ("break call 3", "Stat", "call p()", 80, "/ 0 8, /0 7 7"),
        (
            "break plus 2",
            "Exp",
            "1 + (2 = 3)",
            80,
            "/ 0 13, /0 0 1, /1 7 12, /1/0 7 8, /1/1 11 12",
        ),
        // two flat groups, of which the second one follows a break: it is moved as a whole
        (
            "group eq\ngroup plus\nbreak eq 1\nbreak plus 1",
            "Exp",
            "1 + 2 = 3 + 4",
            9,
            "/ 0 15, /0 0 5, /0/0 0 1, /0/1 4 5, /1 10 15, /1/0 10 11, /1/1 14 15",
        ),
        // an empty list in a flat group that is moved
        (
            "break assign 1\ngroup call",
            "Stats",
            "x := 1 ; call p()",
            80,
            "/ 0 18, /0 0 8, /0/0 7 8, /1 10 18, /1/0 17 17",
        ),
        // a flat group with characters of three bytes
        (
            "group cat\nbreak eq 1",
            "Exp",
            "漢字 & 漢字 = 漢字",
            80,
            "/ 0 26, /0 0 15, /0/0 0 6, /0/1 9 15, /1 20 26",
        ),
    ] {
        let tree = tree(rt.alloc(), &definition, kind, program)?;
        let printed = arranged(rt.alloc(), &definition, file, &tree, cols)?;
        let shown = spans_shown(rt.alloc(), printed.spans.as_slice())?;
        assert_eq!(rt; shown.as_str(), spans);
    }
    Ok(())
}
