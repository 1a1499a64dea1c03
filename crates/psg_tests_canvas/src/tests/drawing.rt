//! The bytes that turn one picture into another one.
use psg_canvas::{Picture, Sketch, Style, draw};
use std::alloc::{AllocError, Global};

/// An old and a new picture of 2 rows and 6 columns, each with its rows beside each other, and the bytes between them.
/// A row ends at `/`, `*` before a character makes it bold, and `_` at the end shows the cursor in the second column.
const DRAWN: &[(&str, &str, &str)] = &[
    ("ab/cd", "ab/cd", "\x1B[?25l"),
    ("ab/cd", "ab/ce", "\x1B[2;2H\x1B[0me\x1B[?25l"),
    // two cells beside each other need one move, and a shorter line leaves no cell
    ("abc/", "axy/", "\x1B[1;2H\x1B[0mxy\x1B[?25l"),
    ("abc/", "a/", "\x1B[1;2H\x1B[0m  \x1B[?25l"),
    // the end of a row, after which the place is not known
    (
        "abcdef/",
        "abcdeg/x",
        "\x1B[1;6H\x1B[0mg\x1B[2;1Hx\x1B[?25l",
    ),
    // wide characters: over narrow ones, and narrow ones over them
    ("abcd/", "a変d/", "\x1B[1;2H\x1B[0m変\x1B[?25l"),
    ("a変d/", "abcd/", "\x1B[1;2H\x1B[0mbc\x1B[?25l"),
    ("変数/", "x変/", "\x1B[1;1H\x1B[0mx変 \x1B[?25l"),
    // a wide character that does not fit is left out
    ("abcde/", "abcde変/", "\x1B[?25l"),
    // styles, which are set where they change
    ("ab/", "a*b/", "\x1B[1;2H\x1B[0;1mb\x1B[?25l"),
    ("ab/", "*xy/", "\x1B[1;1H\x1B[0;1mx\x1B[0my\x1B[?25l"),
    // a mark is drawn with its character, and what turns the direction of writing is left out
    ("e/", "e\u{301}/", "\x1B[1;1H\x1B[0me\u{301}\x1B[?25l"),
    ("ab/", "a\u{202E}b/", "\x1B[?25l"),
    ("変/", "変\u{301}/", "\x1B[1;1H\x1B[0m変\u{301}\x1B[?25l"),
    // what no cell has: a mark at the beginning of a row, a selector, a character of three columns, a row too many
    ("", "\u{301}a/", "\x1B[1;1H\x1B[0ma\x1B[?25l"),
    ("ab/", "a\u{FE0F}b/", "\x1B[?25l"),
    ("ab/", "a\u{17D8}b/", "\x1B[?25l"),
    ("a/b", "a/b/c", "\x1B[?25l"),
    // the cursor
    ("ab/", "ab/_", "\x1B[1;2H\x1B[?25h"),
    ("ab/", "xb/_", "\x1B[1;1H\x1B[0mx\x1B[?25h"),
];

/// Makes the picture that the words say, of 2 rows and that many columns.
fn picture(alloc: Global, words: &str, cols: u32) -> Result<Picture, AllocError> {
    let mut sketch = Sketch::new(alloc, 2, cols)?;
    let mut style = Style::plain();
    let mut cursor = None;
    for c in words.chars() {
        match c {
            '/' => sketch.end_row(alloc, Style::plain())?,
            '*' => style.bold = true,
            '_' => cursor = Some((0, 1)),
            c => {
                sketch.write(alloc, c, style)?;
                style.bold = false;
            }
        }
    }
    sketch.finish(alloc, cursor)
}

/// Says whether the bytes between the pictures are these.
fn draws(alloc: Global, old: &str, new: &str, expected: &str) -> Result<bool, AllocError> {
    let old = picture(alloc, old, 6)?;
    let new = picture(alloc, new, 6)?;
    let found = draw(alloc, Some(&old), &new)?;
    Ok(found.as_str() == expected)
}

/// Says whether all rows are right.
fn all_drawn(alloc: Global) -> Result<bool, AllocError> {
    let mut right = true;
    for (old, new, expected) in DRAWN {
        right = draws(alloc, old, new, expected)? && right;
    }
    Ok(right)
}

/// Says whether a whole picture is drawn where the screen may show anything, and after a change of size.
fn drawn_anew(alloc: Global) -> Result<bool, AllocError> {
    let old = picture(alloc, "abcd/", 4)?;
    let new = picture(alloc, "a c/", 6)?;
    let expected = "\x1B[0m\x1B[2J\x1B[1;1Ha\x1B[1;3Hc\x1B[?25l";
    let first = draw(alloc, None, &new)?;
    let other = draw(alloc, Some(&old), &new)?;
    Ok(first.as_str() == expected && other.as_str() == expected)
}

#[test]
fn pictures_in_turn(rt: HostRuntime) {
    assert!(rt; all_drawn(rt.alloc()).expect(&rt, "memory"));
}

#[test]
fn pictures_anew(rt: HostRuntime) {
    assert!(rt; drawn_anew(rt.alloc()).expect(&rt, "memory"));
}
