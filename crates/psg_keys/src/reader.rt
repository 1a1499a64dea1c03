//! Keys from bytes that are read in pieces.
ghost use Rattle.std.specs.Prelude.{◌≡◌, ◌++◌, ◌&&◌, ◌||◌, IfOk, OnErr, OnOk, drop, if◌then◌else◌};
ghost use Rattle.psg_keys.specs.Reading.{Finds, HasRead, at_first, is_continued, is_escape, last_keys};
ghost use Rattle.psg_keys.specs.Reading.{spelled, unread};

use crate::key::{Key, Stroke};
use crate::naming::key_of;
use crate::sizes::{ESCAPE, begins_sequence, first_size};
use std::alloc::{AllocError, Global};
use std::marker::Model;

/// A reader of keys, which keeps the bytes of a key that is not known yet. What it keeps at the end of the input is
/// part of no key.
#[derive(Drop)]
pub struct KeyReader {
    pasting: bool,
    late: bool,
    kept: Vec<u8>,
}

impl Model for KeyReader {
    ghost use Rattle.std.specs.Prelude.{◌≡◌, true, Some, slice_get};
    ghost use Rattle.psg_keys.specs.Reading.{Waiting};

    ghost Value = { Waiting };

    ghost view = { λ r. record { pasting = r.pasting; late = r.late; bytes = r.kept.items } };

    ghost invariant = { λ r. r.late ≡ true → slice_get r.kept.items 0 ≡ Some 27 };
}

impl KeyReader {
    /// Makes a reader that has read nothing yet. Takes no memory; `alloc` keeps what waits later.
    pub fn new(alloc: Global) -> KeyReader
        ensures { result ≡ at_first }
    {
        KeyReader {
            pasting: false,
            late: false,
            kept: Vec::new(alloc),
        }
    }

    /// Reads the next piece of the input, and returns the keys that are known now, the first one first.
    ///
    /// An escape that ends the piece is the key Escape at once. Where the next piece is the rest of a sequence, that is
    /// a key of its own, without the escape. Fails only when out of memory, and the reader is then as before. Reads
    /// each byte of the piece and those that wait a few times.
    pub fn read(&mut self, alloc: Global, piece: &[u8]) -> Result<Vec<Stroke>, AllocError>
        ensures bytes { IfOk result (λ keys. spelled keys.items ++ unread self.new ≡ unread self.old ++ piece.now) }
        ensures reads { IfOk result (λ keys. HasRead self.old piece.now keys.items self.new) }
        ensures memory { OnErr result (self.new ≡ self.old) }
    {
        let next = next_keys(alloc, self.pasting, self.late, self.kept.as_slice(), piece)?;
        self.pasting = next.pasting;
        self.late = next.late;
        self.kept = next.kept;
        Ok(next.strokes)
    }
}

/// What is found in a text: its keys, whether a paste goes on after them, whether the text begins with an escape that
/// was given before and is in none of them, and the bytes after them.
#[derive(Drop)]
struct Found {
    strokes: Vec<Stroke>,
    pasting: bool,
    late: bool,
    kept: Vec<u8>,
}

/// Returns what is found in a piece after what is kept, and what is kept then.
fn next_keys(
    alloc: Global,
    pasting: bool,
    late: bool,
    kept: &[u8],
    piece: &[u8],
) -> Result<Found, AllocError>
    ensures { IfOk result (λ found. HasRead
        (record { pasting = pasting; late = late; bytes = kept.now }) piece.now found.strokes.items
        (record { pasting = found.pasting; late = found.late; bytes = found.kept.items })) }
{
    let continued = is_continued(kept, piece);
    let fresh = is_both(late, !continued);
    let again = is_both(late, continued);
    let text = text_of(alloc, fresh, kept, piece)?;
    let bytes = text.as_slice();
    let found = find_keys(alloc, pasting, again, bytes)?;
    let rest = found.kept.as_slice();
    let escape = is_escape(found.pasting, rest);
    let strokes = with_escape(alloc, found.strokes, escape)?;
    let late = is_either(escape, found.late);
    Ok(Found {
        strokes,
        pasting: found.pasting,
        late,
        kept: found.kept,
    })
}

/// Returns the bytes that are read with a piece: those that are kept, unless they are to be left out, and the
/// piece.
fn text_of(alloc: Global, fresh: bool, kept: &[u8], piece: &[u8]) -> Result<Vec<u8>, AllocError>
    ensures { IfOk result (λ text. text.items ≡ (if fresh then piece.now else kept.now ++ piece.now)) }
{
    let mut text = Vec::from_slice(alloc, if fresh { &[] } else { kept })?;
    text.extend_from_slice(piece)?;
    Ok(text)
}

/// Returns the keys, and Escape after them where an escape is at the end of a piece.
fn with_escape(
    alloc: Global,
    mut strokes: Vec<Stroke>,
    escape: bool,
) -> Result<Vec<Stroke>, AllocError>
    ensures { IfOk result (λ all. all.items ≡ strokes.items ++ last_keys escape) }
{
    if escape {
        let bytes = Vec::from_slice(alloc, &[ESCAPE])?;
        strokes.push(Stroke::new(Key::Escape, bytes))?;
    }
    Ok(strokes)
}

fn is_both(one: bool, other: bool) -> bool
    ensures { result ≡ (one && other) }
{
    one && other
}

fn is_either(one: bool, other: bool) -> bool
    ensures { result ≡ (one || other) }
{
    one || other
}

/// Finds the keys of the text. Where `late` says so, the text begins with an escape that was given before.
fn find_keys(alloc: Global, pasting: bool, late: bool, text: &[u8]) -> Result<Found, AllocError>
    ensures { IfOk result (λ found. Finds pasting late text.now
        found.strokes.items found.pasting found.late found.kept.items) }
{
    let mut strokes = Vec::new(alloc);
    let mut now = pasting;
    let mut still = late;
    let mut rest = text;
    'keys: while let Some(size) = first_size(now, rest) {
        let (bytes, behind) = rest.split_at(size);
        let key = key_of(now, bytes);
        let next = stroke(alloc, key, still, bytes)?;
        strokes.push(next)?;
        now = key.goes_on(now);
        still = false;
        rest = behind;
    }
    let kept = Vec::from_slice(alloc, rest)?;
    Ok(Found {
        strokes,
        pasting: now,
        late: still,
        kept,
    })
}

/// Makes the stroke of a key and its bytes, of which the first one is left out where `late` says so.
fn stroke(alloc: Global, key: Key, late: bool, bytes: &[u8]) -> Result<Stroke, AllocError>
    ensures key { IfOk result (λ s. s.key ≡ key) }
    ensures bytes { IfOk result (λ s. s.bytes ≡ drop (if late then 1 else 0) bytes.now) }
{
    let bytes = Vec::from_slice(alloc, without_first(late, bytes))?;
    Ok(Stroke::new(key, bytes))
}

/// Returns the bytes without the first one, where that is to be left out.
fn without_first(late: bool, bytes: &[u8]) -> &[u8]
    ensures { result.now ≡ drop (if late then 1 else 0) bytes.now }
{
    let from = if late { bytes.len().min(1) } else { 0 };
    &bytes[from..]
}

/// Says whether the piece goes on with the sequence whose escape was given before.
fn is_continued(kept: &[u8], piece: &[u8]) -> bool
    ensures { result ≡ is_continued kept.now piece.now }
{
    kept.len() >= 2 || (piece.len() >= 2 && begins_sequence(piece[0]))
}

/// Says whether the rest of a piece is an escape that is a key.
fn is_escape(pasting: bool, rest: &[u8]) -> bool
    ensures { result ≡ is_escape pasting rest.now }
{
    !pasting && rest.len() == 1 && rest[0] == ESCAPE
}
