//! Keys of pieces of bytes.
use psg_keys::{Key, KeyReader, Stroke};
use std::alloc::{AllocError, Global};

/// Pieces, the names of their keys, and the bytes that wait after the last one.
const READ: &[(&[&[u8]], &str)] = &[
    (&[b"ab"], "'a' 'b'"),
    (&[b"\xE5\xA4\x89"], "'変'"),
    (&[b"\xE5", b"\xA4\x89x"], "'変' 'x'"),
    (&[b"\x1B[A\x1B[B\x1Ba\t"], "Up Down Escape 'a' Tab"),
    (&[b"\x1BOC\x1BOD"], "Right Left"),
    // an escape that ends a piece is a key at once
    (&[b"\x1B", b"a"], "Escape 'a'"),
    (&[b"\x1B", b"["], "Escape '['"),
    // the rest of a sequence that a slow line cut after its escape
    (&[b"\x1B", b"[A"], "Escape Up"),
    (&[b"\x1B", b"[", b"A"], "Escape '[' 'A'"),
    (&[b"\x1B", b"", b"[A"], "Escape '[' 'A'"),
    (&[b"\x1B[[A"], "Unknown1b5b5b 'A'"),
    (&[b"\x1B[2;0R"], "Unknown1b5b323b3052"),
    (&[b"\x1B", b"[1", b";5A"], "Escape Unknown5b313b3541"),
    (&[b"\x1B", b"[3", b"~x"], "Escape Delete 'x'"),
    (&[b"\x1B", b"\x1B"], "Escape Escape"),
    // a sequence waits for its rest
    (&[b"\x1B[", b"3", b"~"], "Delete"),
    (&[b"\x1BO", b"H"], "Home"),
    (
        &[b"\x1B[1~\x1B[4~\x1B[5~\x1B[6~\x1B[Z"],
        "Home End PageUp PageDown BackTab",
    ),
    // a sequence that is broken off
    (&[b"\x1B[1\x1B[A"], "Unknown1b5b31 Up"),
    (&[b"\x1B[\r"], "Unknown1b5b Enter"),
    (
        &[b"\x1B[111111111111111111111111111111A"],
        "Unknown1b5b313131313131313131313131313131313131313131313131313131313131 'A'",
    ),
    // sizes, and a key that looks like one
    (&[b"\x1B[24;80R"], "Size24x80"),
    (&[b"\x1B[1;5R"], "Unknown1b5b313b3552"),
    (&[b"\x1B[2", b"4;8", b"0R"], "Size24x80"),
    (
        &[b"\x1B[99999;99999R\x1B[100000;2R"],
        "Size99999x99999 Unknown1b5b3130303030303b3252",
    ),
    // pastes, in which no escape is a key
    (
        &[b"\x1B[200~a\rb\x1B[201~c"],
        "PasteBegins ^61 ^d ^62 PasteEnds 'c'",
    ),
    (
        &[b"\x1B[200~", b"a\x1B", b"[20", b"1~"],
        "PasteBegins ^61 PasteEnds",
    ),
    (
        &[b"\x1B[200~\x1B[A\x1B[201~"],
        "PasteBegins ^1b ^5b ^41 PasteEnds",
    ),
    (&[b"\x1B[200~\xE5", b"\xA4", b"\x89"], "PasteBegins ^5909"),
    (&[b"\x1B[201~"], "Unknown1b5b3230317e"),
    // control characters
    (
        &[b"\r\n\t\x7F\x08\x03\x12\x15"],
        "Enter Ctrl-j Tab Backspace Backspace Ctrl-c Ctrl-r Ctrl-u",
    ),
    (&[b"\x00\x1C"], "Unknown00 Unknown1c"),
    (&[b"\xC2\x9BA"], "Unknownc29b 'A'"),
    // bytes that begin no character
    (&[b"\x80\xFFa"], "Unknown80 Unknownff 'a'"),
    (&[b"\xE5a"], "Unknowne5 'a'"),
    (&[b"\xED\xA0\x80"], "Unknowneda080"),
    (&[b"\xC0\x80"], "Unknownc0 Unknown80"),
    (&[b""], ""),
];

/// Writes the name of a stroke.
fn write_name(out: &mut String, stroke: &Stroke) -> Result<(), AllocError> {
    match stroke.key() {
        Key::Char(c) => write!(out, "'{c}'")?,
        Key::Pasted(c) => write!(out, "^{:x}", c as u32)?,
        Key::Control(c) => write!(out, "Ctrl-{c}")?,
        Key::Size { rows, cols } => write!(out, "Size{rows}x{cols}")?,
        Key::Unknown => {
            out.push_str("Unknown")?;
            for byte in stroke.bytes() {
                write!(out, "{:02x}", *byte)?;
            }
        }
        key => out.push_str(name(key))?,
    }
    Ok(())
}

/// Returns the name of a key without parts.
fn name(key: Key) -> &'static str {
    match key {
        Key::Enter => "Enter",
        Key::Tab => "Tab",
        Key::BackTab => "BackTab",
        Key::Backspace => "Backspace",
        Key::Escape => "Escape",
        Key::Up => "Up",
        Key::Down => "Down",
        Key::Left => "Left",
        Key::Right => "Right",
        Key::Home => "Home",
        Key::End => "End",
        Key::Insert => "Insert",
        Key::Delete => "Delete",
        Key::PageUp => "PageUp",
        Key::PageDown => "PageDown",
        Key::PasteBegins => "PasteBegins",
        Key::PasteEnds => "PasteEnds",
        _ => "?",
    }
}

/// Returns the names of the keys of the pieces, with spaces between.
fn names(alloc: Global, pieces: &[&[u8]]) -> Result<String, AllocError> {
    let mut out = String::new(alloc);
    let mut reader = KeyReader::new(alloc);
    for piece in pieces {
        let strokes = reader.read(alloc, piece)?;
        for stroke in &strokes {
            if !out.is_empty() {
                out.push(' ')?;
            }
            write_name(&mut out, stroke)?;
        }
    }
    Ok(out)
}

/// Says whether all rows are right, and prints those that are not.
fn all_read(alloc: Global) -> Result<bool, AllocError> {
    let mut right = true;
    for (pieces, expected) in READ {
        let found = names(alloc, pieces)?;
        right = right && found.as_str() == *expected;
    }
    Ok(right)
}

#[test]
fn keys_of_pieces(rt: HostRuntime) {
    assert!(rt; all_read(rt.alloc()).expect(&rt, "memory"));
}
