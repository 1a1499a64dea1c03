//! How many bytes the first key of some bytes has.
ghost use Rattle.std.specs.Prelude.{◌≡◌, ◌<◌, ◌≤◌, IfSome, length, take, position, slice_get};
ghost use Rattle.psg_keys.specs.Sizes.{run, run_at, is_between, ends_sequence, ends_character};
ghost use Rattle.psg_keys.specs.Sizes.{body_size, escape_size, follow_count};
ghost use Rattle.psg_keys.specs.Sizes.{character_size, begins_with, begins_sequence, pasted_escape_size, first_size};

/// The most bytes that a sequence has after its first two.
const MOST_BODY: usize = 30;

/// The end of a paste after its escape.
const END_OF_PASTE: [u8; 5] = [b'[', b'2', b'0', b'1', b'~'];

pub(crate) const ESCAPE: u8 = 27;

/// Returns the size of the first key of the bytes, in a paste or not. `None` says that more bytes must be read before it
/// is known. It reads at most 32 bytes.
pub(crate) fn first_size(pasting: bool, bytes: &[u8]) -> Option<usize>
    ensures size { result ≡ first_size pasting bytes.now }
    ensures some { IfSome result (λ size. 0 < size) }
    ensures inside { IfSome result (λ size. size ≤ length bytes.now) }
{
    size_of_first(pasting, bytes)
}

fn size_of_first(pasting: bool, bytes: &[u8]) -> Option<usize>
    ensures { result ≡ first_size pasting bytes.now }
{
    let (first, rest) = bytes.split_first()?;
    if *first != ESCAPE {
        character_size(*first, rest)
    } else if pasting {
        pasted_escape_size(rest)
    } else {
        escape_size(rest)
    }
}

/// Returns the size of a key that begins with an escape, of the bytes after it.
fn escape_size(rest: &[u8]) -> Option<usize>
    ensures { result ≡ escape_size rest.now }
{
    let (first, body) = rest.split_first()?;
    if begins_sequence(*first) {
        Some(body_size(body)? + 2)
    } else {
        Some(1)
    }
}

/// Says whether the byte after an escape begins a sequence.
pub(crate) fn begins_sequence(byte: u8) -> bool
    ensures { result ≡ begins_sequence byte }
{
    byte == b'[' || byte == b'O'
}

/// Returns the size of a sequence without its first two bytes.
fn body_size(body: &[u8]) -> Option<usize>
    ensures size { result ≡ body_size body.now }
    ensures within { IfSome result (λ size. size ≤ 30) }
{
    let inside = inside_size(body)?;
    if inside < MOST_BODY && is_last(body[inside]) {
        Some(inside + 1)
    } else {
        Some(inside)
    }
}

/// Returns how many bytes are inside a sequence.
fn inside_size(body: &[u8]) -> Option<usize>
    ensures size { result ≡ run ends_sequence 30 body.now }
    ensures within { IfSome result (λ size. size ≤ 30) }
    ensures inside { IfSome result (λ size. size < 30 → size < length body.now) }
{
    let front = front_of(body, MOST_BODY);
    let place = sequence_end(front);
    run_at(MOST_BODY, body, place)
}

/// Returns the place of the first byte that is not inside a sequence.
fn sequence_end(bytes: &[u8]) -> Option<usize>
    ensures { result ≡ position ends_sequence bytes.now }
{
    bytes.iter().position(|b| ends_sequence(*b))
}

/// Returns the length of a run that ends at the place, or is as long as it may be. `None` where the bytes end first.
fn run_at(most: usize, bytes: &[u8], place: Option<usize>) -> Option<usize>
    ensures { result ≡ run_at most bytes.now place }
{
    match place {
        Some(place) => Some(place),
        None if bytes.len() < most => None,
        None => Some(most),
    }
}

/// Returns the first bytes, at most that many.
fn front_of(bytes: &[u8], most: usize) -> &[u8]
    ensures { result.now ≡ take most bytes.now }
{
    &bytes[..bytes.len().min(most)]
}

fn ends_sequence(byte: u8) -> bool
    ensures { result ≡ ends_sequence byte }
{
    !matches!(byte, 0x20..=0x3F)
}

fn is_last(byte: u8) -> bool
    ensures { result ≡ is_between 64 126 byte }
{
    matches!(byte, 0x40..=0x7E)
}

/// Returns the size of a character by its first byte and those after it.
fn character_size(first: u8, rest: &[u8]) -> Option<usize>
    ensures { result ≡ character_size first rest.now }
{
    let count = follow_count(first);
    let size = followers(rest, count)?;
    if size == count {
        Some(size + 1)
    } else {
        Some(1)
    }
}

/// Returns how many bytes a character has after this first one.
fn follow_count(first: u8) -> usize
    ensures count { result ≡ follow_count first }
    ensures within { result ≤ 3 }
{
    match first {
        0xC2..=0xDF => 1,
        0xE0..=0xEF => 2,
        0xF0..=0xF4 => 3,
        _ => 0,
    }
}

/// Returns how many of the bytes, at most that many, may follow the first one of a character.
fn followers(bytes: &[u8], most: usize) -> Option<usize>
    ensures size { result ≡ run ends_character most bytes.now }
    ensures within { IfSome result (λ size. size ≤ most) }
{
    let front = front_of(bytes, most);
    let place = character_end(front);
    run_at(most, bytes, place)
}

/// Returns the place of the first byte that is not inside a character.
fn character_end(bytes: &[u8]) -> Option<usize>
    ensures { result ≡ position ends_character bytes.now }
{
    bytes.iter().position(|b| ends_character(*b))
}

fn ends_character(byte: u8) -> bool
    ensures { result ≡ ends_character byte }
{
    !matches!(byte, 0x80..=0xBF)
}

/// Returns the size of a key that begins with an escape in a paste, of the bytes after it.
fn pasted_escape_size(rest: &[u8]) -> Option<usize>
    ensures { result ≡ pasted_escape_size rest.now }
{
    if begins_with(&END_OF_PASTE, rest)? {
        Some(6)
    } else {
        Some(1)
    }
}

/// Says whether the bytes begin with the mark. `None` says that more bytes must be read before it is known.
fn begins_with(mark: &[u8], bytes: &[u8]) -> Option<bool>
    ensures { result ≡ begins_with mark.now bytes.now }
{
    for place in 0..mark.len() {
        let byte = byte_at(bytes, place)?;
        if byte != mark[place] {
            return Some(false);
        }
    }
    Some(true)
}

fn byte_at(bytes: &[u8], place: usize) -> Option<u8>
    ensures { result ≡ slice_get bytes.now place }
{
    bytes.get(place).copied()
}
