//! Lines and columns, and the first line in which bytes are not a text.
use psg_program::{first_difference, place_of};
use std::test::Fail;

/// A text, a byte, and its line and column.
const PLACES: &[(&str, usize, usize, usize)] = &[
    ("", 0, 1, 1),
    ("a", 0, 1, 1),
    ("a", 1, 1, 2),
    ("a", 9, 1, 2),
    ("a\nb", 1, 1, 2),
    ("a\nb", 2, 2, 1),
    ("a\nb", 3, 2, 2),
    ("\n\n", 1, 2, 1),
    ("\n\n", 2, 3, 1),
    ("\t\tx", 2, 1, 3),
    ("x\r\ny", 2, 1, 3),
    ("x\r\ny", 3, 2, 1),
    // a character of three bytes is one column
    ("変数 x", 7, 1, 4),
    ("変数", 3, 1, 2),
    ("変数", 6, 1, 3),
    // for a byte inside a character it is the place after it
    ("変数", 1, 1, 2),
];

#[test]
fn places(rt: HostRuntime) -> Result<(), Fail> {
    for (text, byte, line, column) in PLACES {
        let place = place_of(text, *byte);
        assert_eq!(rt; place.line, *line);
        assert_eq!(rt; place.column, *column);
    }
    Ok(())
}

/// Bytes, the text that they are to be, and the first line that differs, with what it is to be; line 0 where none does.
const DIFFERENCES: &[(&str, &str, usize, &str)] = &[
    ("", "", 0, ""),
    ("a\n", "a\n", 0, ""),
    ("a", "a\n", 2, ""),
    ("a\n", "a", 2, ""),
    ("a\n\n", "a\n", 3, ""),
    ("", "\n", 2, ""),
    ("a\nb\nc", "a\nx\nc", 2, "x"),
    ("a\nb", "a\nb\nc", 3, "c"),
    ("a\nb\nc", "a\nb", 3, ""),
    ("a\r\nb", "a\nb", 1, "a"),
    ("\u{feff}a\n", "a\n", 1, "a"),
    ("é", "e", 1, "e"),
];

#[test]
fn differences(rt: HostRuntime) -> Result<(), Fail> {
    for (bytes, wanted, line, text) in DIFFERENCES {
        match first_difference(bytes.as_bytes(), wanted) {
            Some(difference) => {
                assert_eq!(rt; difference.line, *line);
                assert_eq!(rt; difference.text, *text);
            }
            None => assert_eq!(rt; 0, *line),
        }
    }
    Ok(())
}
