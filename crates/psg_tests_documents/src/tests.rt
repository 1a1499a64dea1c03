//! Positions that were worked out by hand.
use psg_documents::{Encoding, Lines, Position};
use std::alloc::{AllocError, Global};

/// A text with characters of one, two and four bytes, and both ends of a line. Its bytes: `a` 0, `é` 1, a face 3, `b`
/// 7, a carriage return 8, a line feed 9, `x` 10, line feeds 11 and 12, `y` 13; the end 14.
const MIXED: &str = "aé\u{1F600}b\r\nx\n\ny";

/// Lines, columns and their bytes in `MIXED`.
const PAIRS: &[(usize, usize, usize)] = &[
    (0, 0, 0),
    (0, 1, 1),
    (0, 2, 3),
    // within the pair of units of the face
    (0, 3, 3),
    (0, 4, 7),
    (0, 5, 8),
    // past the end of the line, which is before the carriage return
    (0, 6, 8),
    (0, 7, 8),
    (0, 99, 8),
    (1, 0, 10),
    (1, 1, 11),
    (1, 9, 11),
    (2, 0, 12),
    (2, 3, 12),
    (3, 0, 13),
    (3, 1, 14),
    (3, 5, 14),
    // past the last line
    (4, 0, 14),
    (99, 0, 14),
];

const BYTES: &[(usize, usize, usize)] = &[
    (0, 1, 1),
    (0, 2, 1),
    (0, 3, 3),
    (0, 4, 3),
    (0, 5, 3),
    (0, 6, 3),
    (0, 7, 7),
    (0, 8, 8),
    (0, 9, 8),
    (1, 1, 11),
];

const CHARACTERS: &[(usize, usize, usize)] = &[
    (0, 1, 1),
    (0, 2, 3),
    (0, 3, 7),
    (0, 4, 8),
    (0, 5, 8),
];

/// Lines and columns of each byte of `MIXED`, and the byte of each.
const PLACES: &[(usize, usize, usize)] = &[
    (0, 0, 0),
    (0, 1, 1),
    // within a character
    (0, 1, 2),
    (0, 2, 3),
    (0, 2, 4),
    (0, 2, 6),
    (0, 4, 7),
    (0, 5, 8),
    // within the end of the line
    (0, 5, 9),
    (1, 0, 10),
    (1, 1, 11),
    (2, 0, 12),
    (3, 0, 13),
    (3, 1, 14),
    (3, 1, 99),
];

const BYTE_PLACES: &[(usize, usize, usize)] = &[
    (0, 1, 2),
    (0, 3, 3),
    (0, 7, 7),
    (0, 8, 9),
    (1, 0, 10),
];

const CHARACTER_PLACES: &[(usize, usize, usize)] = &[(0, 2, 6), (0, 3, 7), (0, 4, 8), (3, 1, 14)];

/// Says whether the bytes of the positions are those of the rows.
fn finds(
    alloc: Global,
    text: &str,
    encoding: Encoding,
    rows: &[(usize, usize, usize)],
) -> Result<bool, AllocError> {
    let lines = Lines::of(alloc, text)?;
    for (line, column, byte) in rows {
        let position = Position {
            line: *line,
            column: *column,
        };
        if lines.byte_of(text, encoding, position) != *byte {
            return Ok(false);
        }
    }
    Ok(true)
}

/// Says whether the positions of the bytes are those of the rows.
fn tells(
    alloc: Global,
    text: &str,
    encoding: Encoding,
    rows: &[(usize, usize, usize)],
) -> Result<bool, AllocError> {
    let lines = Lines::of(alloc, text)?;
    for (line, column, byte) in rows {
        let position = lines.position_of(text, encoding, *byte);
        if position.line != *line || position.column != *column {
            return Ok(false);
        }
    }
    Ok(true)
}

#[test]
fn positions_have_bytes(rt: HostRuntime) {
    let alloc = rt.alloc();
    let empty = &[(0, 0, 0), (0, 5, 0), (3, 3, 0)];
    let end = &[(0, 0, 0), (0, 1, 0), (1, 0, 2), (1, 1, 2)];
    let feed = &[(0, 1, 0), (1, 0, 1)];
    let lone = &[(0, 1, 1), (0, 2, 2), (0, 3, 3), (0, 4, 3)];
    assert!(rt; finds(alloc, MIXED, Encoding::Utf16, PAIRS).expect(&rt, "memory"));
    assert!(rt; finds(alloc, MIXED, Encoding::Utf8, BYTES).expect(&rt, "memory"));
    assert!(rt; finds(alloc, MIXED, Encoding::Utf32, CHARACTERS).expect(&rt, "memory"));
    assert!(rt; finds(alloc, "", Encoding::Utf16, empty).expect(&rt, "memory"));
    assert!(rt; finds(alloc, "\r\n", Encoding::Utf16, end).expect(&rt, "memory"));
    assert!(rt; finds(alloc, "\n", Encoding::Utf8, feed).expect(&rt, "memory"));
    assert!(rt; finds(alloc, "a\rb", Encoding::Utf16, lone).expect(&rt, "memory"));
}

#[test]
fn bytes_have_positions(rt: HostRuntime) {
    let alloc = rt.alloc();
    let empty = &[(0, 0, 0), (0, 0, 7)];
    let end = &[(0, 0, 0), (0, 0, 1), (1, 0, 2)];
    assert!(rt; tells(alloc, MIXED, Encoding::Utf16, PLACES).expect(&rt, "memory"));
    assert!(rt; tells(alloc, MIXED, Encoding::Utf8, BYTE_PLACES).expect(&rt, "memory"));
    assert!(rt; tells(alloc, MIXED, Encoding::Utf32, CHARACTER_PLACES).expect(&rt, "memory"));
    assert!(rt; tells(alloc, "", Encoding::Utf32, empty).expect(&rt, "memory"));
    assert!(rt; tells(alloc, "\r\n", Encoding::Utf16, end).expect(&rt, "memory"));
}
