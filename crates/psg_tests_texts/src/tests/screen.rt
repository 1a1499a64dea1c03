//! Windows of texts that were worked out by hand.
use psg_screen::{View, window};
use std::alloc::{AllocError, Global};

/// A text of one line, the first column, how many columns, and what is shown.
const COLUMNS: &[(&str, u32, u32, &str)] = &[
    // a wide character at the left edge, and a space after it
    ("変数 + 1", 1, 4, " 数 "),
    ("変数 + 1", 0, 80, "変数 + 1"),
    // one column of a wide character, its second and its first
    ("数", 1, 1, " "),
    ("数", 0, 1, " "),
    ("a数b", 1, 2, "数"),
    ("a数b", 2, 2, " b"),
    ("a数b", 0, 2, "a "),
    ("a数b", 3, 9, "b"),
    // a control character takes no column
    ("a\tb", 0, 1, "a\t"),
    ("a\tb", 1, 1, "b"),
    // a mark at the beginning of a line, and after a letter
    ("\u{301}e\u{301}x", 0, 1, "\u{301}e\u{301}"),
    ("\u{301}e\u{301}x", 1, 1, "x"),
    ("\u{301}", 0, 0, "\u{301}"),
    ("\u{301}", 1, 4, ""),
    // a mark after a wide character that is there in part
    ("数\u{301}b", 1, 2, " b"),
    ("数\u{301}b", 0, 1, " "),
    ("", 0, 80, ""),
    ("abc", 3, 80, ""),
    ("abc", 0, 0, ""),
    ("abc", 4294967295, 4294967295, ""),
];

/// A text, the first line and column, how many lines and columns, and the lines that are shown.
const LINES: &[(&str, (u32, u32, u32, u32), &[&str])] = &[
    ("変数 + 1", (0, 0, 2, 80), &["変数 + 1", ""]),
    ("", (0, 0, 2, 80), &["", ""]),
    ("ab\n\ncd\n", (0, 1, 5, 1), &["b", "", "d", "", ""]),
    ("ab\n\ncd\nef", (2, 0, 1, 80), &["cd"]),
    ("ab\n\ncd\nef", (3, 0, 2, 80), &["ef", ""]),
    ("ab\ncd", (4294967295, 0, 2, 80), &["", ""]),
    ("ab", (0, 0, 0, 80), &[]),
];

/// Whether the window of the text at top, left, rows and cols has these lines.
fn shows(
    alloc: Global,
    text: &str,
    top: u32,
    left: u32,
    rows: u32,
    cols: u32,
    expected: &[&str],
) -> Result<bool, AllocError> {
    let view = View {
        top,
        left,
        rows,
        cols,
    };
    let lines = window(alloc, text, view)?;
    Ok(
        lines.len() == expected.len()
            && lines
                .iter()
                .zip(expected)
                .all(|(line, text)| line.as_str() == *text),
    )
}

#[test]
fn columns(rt: HostRuntime) -> Result<(), AllocError> {
    for (text, left, cols, expected) in COLUMNS {
        assert!(rt;
            shows(rt.alloc(), text, 0, *left, 1, *cols, &[*expected])?,
            "{text} {left} {cols}"
        );
    }
    Ok(())
}

#[test]
fn lines(rt: HostRuntime) -> Result<(), AllocError> {
    for (text, (top, left, rows, cols), expected) in LINES {
        assert!(rt;
            shows(rt.alloc(), text, *top, *left, *rows, *cols, expected)?,
            "{text} {top} {left}"
        );
    }
    Ok(())
}
