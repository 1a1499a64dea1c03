//! The rows below the program.
use crate::tests::seen::{has_rows, has_styles};
use crate::tests::shown::{around, chosen, piece};
use psg_canvas::Picture;
use psg_keys::Line;
use psg_picture::{Around, program_picture};
use psg_screen::View;
use std::alloc::{AllocError, Global};

/// Returns a line of these characters, with the cursor after the last one.
fn line_of(alloc: Global, text: &str) -> Result<Line, AllocError> {
    let mut chars = Vec::new(alloc);
    for c in text.chars() {
        chars.push(c)?;
    }
    Ok(Line::of(chars))
}

fn picture(alloc: Global, around: &Around, line: Option<&Line>) -> Result<Picture, AllocError> {
    let view = View {
        top: 0,
        left: 0,
        rows: 6,
        cols: 20,
    };
    let marks = chosen(alloc, 5, 5);
    program_picture(alloc, view, around, "a", &marks, line)
}

/// Says whether the last row of a line of text is this, with the cursor at the place.
fn has_typed(alloc: Global, text: &str, row: &str, place: usize) -> Result<bool, AllocError> {
    let around = around(alloc, "t", "/0")?;
    let line = line_of(alloc, text)?;
    let picture = picture(alloc, &around, Some(&line))?;
    let shown = has_rows(
        alloc,
        &picture,
        &[
            "t               ok  ",
            "a                   ",
            "--------------------",
            "/0                  ",
            "                    ",
            row,
        ],
    )?;
    Ok(shown && picture.cursor() == Some(place))
}

#[test]
fn typed(rt: HostRuntime) {
    let alloc = rt.alloc();
    assert!(rt; has_typed(alloc, "", "                    ", 100).expect(&rt, "memory"));
    assert!(rt; has_typed(alloc, "ab", "ab                  ", 102).expect(&rt, "memory"));
    assert!(rt;
        has_typed(alloc, "abcdefghijklmnopqrs", "abcdefghijklmnopqrs ", 119).expect(&rt, "memory")
    );
    assert!(rt;
        has_typed(
            alloc,
            "abcdefghijklmnopqrstuvwxy",
            "ghijklmnopqrstuvwxy ",
            119
        )
        .expect(&rt, "memory")
    );
    // the wide character that the edge cuts is a space
    assert!(rt; has_typed(alloc, "変変変変変変変変変変", " 変変変変変変変変変 ", 119).expect(&rt, "memory"));
}

fn offers(alloc: Global) -> Result<bool, AllocError> {
    let mut around = around(alloc, "t", "/0")?;
    around.offers.push(piece(alloc, "one  ", false)?)?;
    around.offers.push(piece(alloc, "two", true)?)?;
    around.offers.push(piece(alloc, "  and more 変変", false)?)?;
    around.said = String::from_str(alloc, "? shows the keys")?;
    let picture = picture(alloc, &around, None)?;
    let rows = has_rows(
        alloc,
        &picture,
        &[
            "t               ok  ",
            "a                   ",
            "--------------------",
            "/0                  ",
            "one  two  and more  ",
            "? shows the keys    ",
        ],
    )?;
    let styles = has_styles(
        alloc,
        &picture,
        &[
            "rrrrrrrrrrrrrrrrrrrr",
            "....................",
            "....................",
            "....................",
            ".....rrr............",
            "....................",
        ],
    )?;
    Ok(rows && styles && picture.cursor().is_none())
}

#[test]
fn said(rt: HostRuntime) {
    let alloc = rt.alloc();
    assert!(rt; offers(alloc).expect(&rt, "memory"));
}
