//! The rows of the program.
use crate::tests::seen::{has_rows, has_styles};
use psg_canvas::Picture;
use psg_picture::{Around, Marks, Part, Piece, page_picture, program_picture, scrolled};
use psg_screen::View;
use std::alloc::{AllocError, Global};

/// Returns the words around a program: a short title, and a place.
pub(crate) fn around(alloc: Global, title: &str, place: &str) -> Result<Around, AllocError> {
    Ok(Around {
        title: String::from_str(alloc, title)?,
        mark: String::from_str(alloc, "ok")?,
        place: String::from_str(alloc, place)?,
        offers: Vec::new(alloc),
        said: String::new(alloc),
    })
}

/// Returns marks of a place that is chosen alone.
pub(crate) fn chosen(alloc: Global, start: usize, end: usize) -> Marks {
    Marks {
        parts: Vec::new(alloc),
        chosen: (start, end),
        wrong: Vec::new(alloc),
    }
}

fn small_view(left: u32) -> View {
    View {
        top: 0,
        left,
        rows: 6,
        cols: 20,
    }
}

fn of_text(alloc: Global, left: u32, text: &str, marks: &Marks) -> Result<Picture, AllocError> {
    let around = around(alloc, "t", "/0")?;
    program_picture(alloc, small_view(left), &around, text, marks, None)
}

/// Says whether the first line of the text is this row, in a window of 20 columns from `left` on.
fn has_line(alloc: Global, left: u32, text: &str, row: &str) -> Result<bool, AllocError> {
    let marks = chosen(alloc, 100, 100);
    let picture = of_text(alloc, left, text, &marks)?;
    has_rows(
        alloc,
        &picture,
        &[
            "t               ok  ",
            row,
            "--------------------",
            "/0                  ",
            "                    ",
            "                    ",
        ],
    )
}

#[test]
fn lines(rt: HostRuntime) {
    let alloc = rt.alloc();
    assert!(rt; has_line(alloc, 0, "a := 1\nb", "a := 1              ").expect(&rt, "memory"));
    // a wide character that the left edge cuts, and one that the right edge cuts
    assert!(rt; has_line(alloc, 1, "変数 + 1", " 数 + 1             ").expect(&rt, "memory"));
    assert!(rt;
        has_line(alloc, 0, "xxxxxxxxxxxxxxxxxxx変y", "xxxxxxxxxxxxxxxxxxx ").expect(&rt, "memory")
    );
    assert!(rt; has_line(alloc, 1, "変\u{301}a", " a                  ").expect(&rt, "memory"));
    // what turns the direction of writing, and a control character
    assert!(rt;
        has_line(alloc, 0, "a\u{202E}b\u{1B}c", "abc                 ").expect(&rt, "memory")
    );
    // an empty line, and a text without one
    assert!(rt; has_line(alloc, 0, "\nb", "                    ").expect(&rt, "memory"));
    assert!(rt; has_line(alloc, 0, "", "                    ").expect(&rt, "memory"));
    assert!(rt; has_line(alloc, 30, "a := 1", "                    ").expect(&rt, "memory"));
}

/// Returns the part of a letter: `n` a name, `l` a literal, `p` an open place, else a word.
fn part_of(letter: char) -> Part {
    match letter {
        'n' => Part::Name,
        'l' => Part::Literal,
        'p' => Part::Place,
        _ => Part::Word,
    }
}

/// Returns the marks of `if x ?E 12`: the `?` is chosen, and the name is wrong.
fn marks_of_all(alloc: Global) -> Result<Marks, AllocError> {
    let mut parts = Vec::new(alloc);
    for letter in "...n.pp.ll".chars() {
        parts.push(part_of(letter))?;
    }
    let mut wrong = Vec::new(alloc);
    wrong.push((3, 4))?;
    Ok(Marks {
        parts,
        chosen: (5, 6),
        wrong,
    })
}

fn has_marks(alloc: Global) -> Result<bool, AllocError> {
    let marks = marks_of_all(alloc)?;
    let picture = of_text(alloc, 0, "if x ?E 12", &marks)?;
    has_styles(
        alloc,
        &picture,
        &[
            "rrrrrrrrrrrrrrrrrrrr",
            "...w.xb.ll..........",
            "....................",
            "....................",
            "....................",
            "....................",
        ],
    )
}

/// Says whether a place without bytes is shown by the character after it.
fn has_empty_place(alloc: Global) -> Result<bool, AllocError> {
    let marks = chosen(alloc, 2, 2);
    let picture = of_text(alloc, 0, "p()", &marks)?;
    has_styles(
        alloc,
        &picture,
        &[
            "rrrrrrrrrrrrrrrrrrrr",
            "..r.................",
            "....................",
            "....................",
            "....................",
            "....................",
        ],
    )
}

#[test]
fn styles(rt: HostRuntime) {
    let alloc = rt.alloc();
    assert!(rt; has_marks(alloc).expect(&rt, "memory"));
    assert!(rt; has_empty_place(alloc).expect(&rt, "memory"));
}

const LONG: &str = "l0\nl1\nl2\nl3\nl4\nl5\nl6\nl7\nl8\nl9\nla\nlb\nlc\nld\nle\nlf\n";

/// Says whether a window of 12 rows and 40 columns shows the chosen line, the eleventh, in its last row but one.
fn has_scrolled(alloc: Global) -> Result<bool, AllocError> {
    let view = View {
        top: 0,
        left: 0,
        rows: 12,
        cols: 40,
    };
    let marks = chosen(alloc, 30, 32);
    let view = scrolled(view, LONG, marks.chosen);
    let around = around(alloc, "long", "/10")?;
    let picture = program_picture(alloc, view, &around, LONG, &marks, None)?;
    let rows = has_rows(
        alloc,
        &picture,
        &[
            "long                                ok  ",
            "l5                                      ",
            "l6                                      ",
            "l7                                      ",
            "l8                                      ",
            "l9                                      ",
            "la                                      ",
            "lb                                      ",
            "----------------------------------------",
            "/10                                     ",
            "                                        ",
            "                                        ",
        ],
    )?;
    let styles = has_styles(
        alloc,
        &picture,
        &[
            "rrrrrrrrrrrrrrrrrrrrrrrrrrrrrrrrrrrrrrrr",
            "........................................",
            "........................................",
            "........................................",
            "........................................",
            "........................................",
            "rr......................................",
            "........................................",
            "........................................",
            "........................................",
            "........................................",
            "........................................",
        ],
    )?;
    Ok(rows && styles)
}

/// Says whether the window of 7 lines and 20 columns at the line and the column is moved to these, where the bytes are
/// chosen.
fn moves(at: (u32, u32), text: &str, bytes: (usize, usize), to: (u32, u32)) -> bool {
    let view = View {
        top: at.0,
        left: at.1,
        rows: 12,
        cols: 20,
    };
    let found = scrolled(view, text, bytes);
    found.top == to.0 && found.left == to.1 && found.rows == 12 && found.cols == 20
}

const WIDE: &str = "first\n0123456789 123456789 123456789 変数 tail\nlast";

#[test]
fn scrolling(rt: HostRuntime) {
    let alloc = rt.alloc();
    assert!(rt; has_scrolled(alloc).expect(&rt, "memory"));
    // further down, where the place is shown already, further up, and to the first line
    assert!(rt; moves((0, 0), LONG, (30, 32), (5, 0)));
    assert!(rt; moves((5, 0), LONG, (18, 20), (5, 0)));
    assert!(rt; moves((5, 0), LONG, (15, 17), (4, 0)));
    assert!(rt; moves((5, 0), LONG, (0, 2), (0, 0)));
    // to the right as far as it must, back where the place begins before, and a place that is wider than the window
    assert!(rt; moves((0, 0), WIDE, (37, 43), (0, 15)));
    assert!(rt; moves((0, 14), WIDE, (17, 19), (0, 0)));
    assert!(rt; moves((0, 14), WIDE, (17, 36), (0, 11)));
    assert!(rt; moves((0, 0), WIDE, (6, 50), (0, 0)));
    assert!(rt; moves((0, 9), WIDE, (17, 60), (0, 11)));
}

fn page(alloc: Global) -> Result<bool, AllocError> {
    let mut lines = Vec::new(alloc);
    lines.push(String::from_str(alloc, "keys")?)?;
    lines.push(String::from_str(alloc, "q ends")?)?;
    let around = around(alloc, "a title that is too long", "/")?;
    let picture = page_picture(alloc, small_view(7), &around, lines.as_slice(), 1, None)?;
    has_rows(
        alloc,
        &picture,
        &[
            "a title that is ok  ",
            "q ends              ",
            "--------------------",
            "/                   ",
            "                    ",
            "                    ",
        ],
    )
}

/// Says whether a window of 5 rows says that it is too small.
fn too_small(alloc: Global) -> Result<bool, AllocError> {
    let view = View {
        top: 0,
        left: 0,
        rows: 2,
        cols: 18,
    };
    let marks = chosen(alloc, 0, 1);
    let around = around(alloc, "t", "/0")?;
    let picture = program_picture(alloc, view, &around, "a", &marks, None)?;
    has_rows(
        alloc,
        &picture,
        &["the window is too ", "                  "],
    )
}

#[test]
fn others(rt: HostRuntime) {
    let alloc = rt.alloc();
    assert!(rt; page(alloc).expect(&rt, "memory"));
    assert!(rt; too_small(alloc).expect(&rt, "memory"));
}

/// Returns a piece of a row.
pub(crate) fn piece(alloc: Global, text: &str, reversed: bool) -> Result<Piece, AllocError> {
    Ok(Piece {
        text: String::from_str(alloc, text)?,
        reversed,
    })
}
