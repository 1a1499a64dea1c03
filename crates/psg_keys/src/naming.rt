//! Which key the bytes of a key are.
ghost use Rattle.std.specs.Prelude.{◌≡◌, ◌<◌, ◌==◌, ◌&&◌, IfSome, chars, length, nat_le, position, slice_get};
ghost use Rattle.psg_keys.specs.Names.{character_of, control_key, typed_key, character_key, letter_key, number_key};
ghost use Rattle.psg_keys.specs.Names.{numbered_key, number_of, with_digit, size_by};
ghost use Rattle.psg_keys.specs.Names.{size_key, sequence_key, escape_key};
ghost use Rattle.psg_keys.specs.Names.{pasted_escape_key, key_of};

use crate::key::Key;
use crate::sizes::ESCAPE;
use std::str;

/// Returns the key that these bytes are, in a paste or not.
pub(crate) fn key_of(pasting: bool, bytes: &[u8]) -> Key
    ensures { result ≡ key_of pasting bytes.now }
{
    let Some((first, rest)) = bytes.split_first() else {
        return Key::Unknown;
    };
    if *first != ESCAPE {
        character_key(pasting, character_of(bytes))
    } else if pasting {
        pasted_escape_key(rest)
    } else {
        escape_key(rest)
    }
}

/// Returns the character that the bytes are in UTF-8, the first one where there are several.
fn character_of(bytes: &[u8]) -> Option<char>
    ensures { result ≡ character_of bytes.now }
{
    match str::from_utf8(bytes) {
        Ok(text) => first_char(text),
        Err(_) => None,
    }
}

fn first_char(text: &str) -> Option<char>
    ensures { result ≡ slice_get (chars text.now) 0 }
{
    let mut characters = text.chars();
    match characters.next() {
        Some(first) => Some(first),
        None => None,
    }
}

fn character_key(pasting: bool, character: Option<char>) -> Key
    ensures { result ≡ character_key pasting character }
{
    match character {
        None => Key::Unknown,
        Some(c) if pasting => Key::Pasted(c),
        Some(c) => typed_key(c),
    }
}

fn typed_key(c: char) -> Key
    ensures { result ≡ typed_key c }
{
    match c {
        '\0'..='\x1F' => control_key(c),
        '\x7F' => Key::Backspace,
        '\u{80}'..='\u{9F}' => Key::Unknown,
        _ => Key::Char(c),
    }
}

/// Returns the key of a control character below 32.
fn control_key(c: char) -> Key
    requires { c < 32 }
    ensures { result ≡ control_key c }
{
    match c {
        '\r' => Key::Enter,
        '\t' => Key::Tab,
        '\x08' => Key::Backspace,
        '\x01'..='\x1A' => Key::Control((c as u8 + 96) as char),
        _ => Key::Unknown,
    }
}

fn pasted_escape_key(rest: &[u8]) -> Key
    ensures { result ≡ pasted_escape_key rest.now }
{
    if rest.is_empty() {
        Key::Pasted('\x1B')
    } else {
        Key::PasteEnds
    }
}

/// Returns the key that begins with an escape, of the bytes after it.
fn escape_key(rest: &[u8]) -> Key
    ensures { result ≡ escape_key rest.now }
{
    let Some((kind, body)) = rest.split_first() else {
        return Key::Escape;
    };
    match body.split_last() {
        Some((last, inside)) => sequence_key(*kind, inside, *last),
        None => Key::Unknown,
    }
}

/// Returns the key of a sequence, by its second byte, the bytes inside and the last one.
fn sequence_key(kind: u8, inside: &[u8], last: u8) -> Key
    ensures { result ≡ sequence_key kind inside.now last }
{
    if inside.is_empty() {
        letter_key(last)
    } else if kind == b'[' && last == b'~' {
        numbered_key(inside)
    } else if kind == b'[' && last == b'R' {
        size_key(inside)
    } else {
        Key::Unknown
    }
}

fn letter_key(last: u8) -> Key
    ensures { result ≡ letter_key last }
{
    match last {
        b'A' => Key::Up,
        b'B' => Key::Down,
        b'C' => Key::Right,
        b'D' => Key::Left,
        b'F' => Key::End,
        b'H' => Key::Home,
        b'Z' => Key::BackTab,
        _ => Key::Unknown,
    }
}

fn numbered_key(digits: &[u8]) -> Key
    ensures { result ≡ numbered_key (number_of digits.now) }
{
    match number_of(digits) {
        Some(number) => number_key(number),
        None => Key::Unknown,
    }
}

fn number_key(number: u32) -> Key
    ensures { result ≡ number_key number }
{
    match number {
        1 | 7 => Key::Home,
        2 => Key::Insert,
        3 => Key::Delete,
        4 | 8 => Key::End,
        5 => Key::PageUp,
        6 => Key::PageDown,
        200 => Key::PasteBegins,
        _ => Key::Unknown,
    }
}

/// Returns the number that the digits are the decimal of, below 100,000.
fn number_of(digits: &[u8]) -> Option<u32>
    ensures { result ≡ number_of digits.now }
{
    if digits.is_empty() {
        return None;
    }
    let mut number = 0;
    for digit in digits {
        number = with_digit(number, *digit)?;
    }
    Some(number)
}

/// Returns the number with one more digit.
fn with_digit(number: u32, digit: u8) -> Option<u32>
    ensures { result ≡ with_digit number digit }
{
    if matches!(digit, b'0'..=b'9') && number < 10_000 {
        Some(number * 10 + u32::from(digit - b'0'))
    } else {
        None
    }
}

/// Returns the size of the screen that the bytes inside a sequence tell.
fn size_key(inside: &[u8]) -> Key
    ensures { result ≡ size_key inside.now }
{
    match semicolon(inside) {
        Some(place) => {
            let rows = number_of(inside.split_at(place).0);
            let cols = number_of(inside.split_at(place + 1).1);
            size_by(rows, cols)
        }
        None => Key::Unknown,
    }
}

/// Returns the place of the first semicolon.
fn semicolon(bytes: &[u8]) -> Option<usize>
    ensures place { result ≡ position (λ b. b == 59) bytes.now }
    ensures inside { IfSome result (λ place. place < length bytes.now) }
{
    bytes.iter().position(|b| *b == b';')
}

fn size_by(rows: Option<u32>, cols: Option<u32>) -> Key
    ensures { result ≡ size_by rows cols }
{
    match (rows, cols) {
        (Some(rows), Some(cols)) if is_size(rows, cols) => Key::Size { rows, cols },
        _ => Key::Unknown,
    }
}

fn is_size(rows: u32, cols: u32) -> bool
    ensures { result ≡ (nat_le 2 rows && nat_le 1 cols) }
{
    rows >= 2 && cols >= 1
}
