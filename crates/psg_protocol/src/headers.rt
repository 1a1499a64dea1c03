//! The header of a frame.
ghost use Rattle.std.specs.Prelude.{◌≡◌, ◌==◌, ◌+◌, ◌<◌, ◌≤◌, ◌^◌, IfSome, length, position, take};
ghost use Rattle.psg_protocol.specs.Headers.{IsWithin, feed_of, head_after, head_of, is_blank, is_length_name};
ghost use Rattle.psg_protocol.specs.Headers.{length_after};
ghost use Rattle.psg_protocol.specs.Headers.{ended, number_of, short_head, trimmed, with_digit, without_return};
ghost use Rattle.psg_protocol.specs.Headers.{most_bytes, without_end_blanks, without_front_blanks};

/// The most lines that a header has, with the empty one.
const MOST_LINES: usize = 64;

/// The most bytes that a line of a header has, with its line feed.
const MOST_BYTES: usize = 4096;

/// What some bytes begin with.
#[derive(Clone, Copy)]
pub(crate) enum Head {
    /// More bytes are needed before it is known.
    Waits,
    /// No length can be told.
    Lost,
    /// A header of `size` bytes, which is followed by a body of `body` bytes.
    Whole { size: usize, body: usize },
}

/// Returns the header that the bytes begin with. It reads the header a few times, and nothing after it.
pub(crate) fn head_of(bytes: &[u8]) -> Head
    ensures head { result ≡ head_of bytes.now }
    ensures small { IsWithin (length bytes.now) result }
{
    head_after(MOST_LINES, None, 0, bytes)
}

/// Returns the header that the bytes begin with, after lines of `size` bytes that said `found`, and with that many
/// lines still to be read.
fn head_after(lines: usize, found: Option<usize>, size: usize, bytes: &[u8]) -> Head
    requires { size + length bytes.now < 2 ^ 63 }
    ensures { result ≡ head_after lines found size bytes.now }
{
    if lines == 0 {
        return Head::Lost;
    }
    match feed_of(bytes) {
        None => short_head(bytes.len()),
        Some(feed) => {
            let line = without_return(bytes.split_at(feed).0);
            let next = size + feed + 1;
            if line.is_empty() {
                ended(found, next)
            } else {
                let more = bytes.split_at(feed + 1).1;
                head_after(lines - 1, length_after(found, line), next, more)
            }
        }
    }
}

/// Returns what is known of that many bytes without a line feed.
fn short_head(size: usize) -> Head
    ensures { result ≡ short_head size }
{
    if size < MOST_BYTES {
        Head::Waits
    } else {
        Head::Lost
    }
}

/// Returns what a header is that ends after `size` bytes.
fn ended(found: Option<usize>, size: usize) -> Head
    ensures { result ≡ ended found size }
{
    match found {
        Some(body) => Head::Whole { size, body },
        None => Head::Lost,
    }
}

/// Returns where the line feed of the first line is, if it is soon enough.
fn feed_of(bytes: &[u8]) -> Option<usize>
    ensures place { result ≡ feed_of bytes.now }
    ensures inside { IfSome result (λ place. place < length bytes.now) }
{
    place_of(first_bytes(bytes), b'\n')
}

/// Returns the bytes that the first line must end in.
fn first_bytes(bytes: &[u8]) -> &[u8]
    ensures front { result.now ≡ take most_bytes bytes.now }
    ensures few { length result.now ≤ length bytes.now }
{
    if bytes.len() <= MOST_BYTES {
        return bytes;
    }
    bytes.split_at(MOST_BYTES).0
}

/// Returns the first place of the byte.
fn place_of(bytes: &[u8], wanted: u8) -> Option<usize>
    ensures place { result ≡ position (λ b. b == wanted) bytes.now }
    ensures inside { IfSome result (λ place. place < length bytes.now) }
{
    bytes.iter().position(|b| *b == wanted)
}

/// Returns the line without a carriage return at its end.
fn without_return(line: &[u8]) -> &[u8]
    ensures { result.now ≡ without_return line.now }
{
    match line.split_last() {
        Some((last, front)) => if *last == b'\r' { front } else { line },
        None => line,
    }
}

/// Returns the length that is known after a line.
fn length_after(found: Option<usize>, line: &[u8]) -> Option<usize>
    ensures { result ≡ length_after found line.now }
{
    match place_of(line, b':') {
        None => found,
        Some(colon) => {
            if is_length_name(line.split_at(colon).0) {
                number_of(trimmed(line.split_at(colon + 1).1))
            } else {
                found
            }
        }
    }
}

/// Says whether the name is that of the length, in any case.
fn is_length_name(name: &[u8]) -> bool
    ensures { result ≡ is_length_name name.now }
{
    name.eq_ignore_ascii_case(b"Content-Length")
}

fn is_blank(byte: u8) -> bool
    ensures { result ≡ is_blank byte }
{
    byte == b' ' || byte == b'\t'
}

/// Returns the text without spaces and tabs at both ends.
fn trimmed(text: &[u8]) -> &[u8]
    ensures { result.now ≡ trimmed text.now }
{
    without_end_blanks(without_front_blanks(text))
}

/// Returns the text without the spaces and tabs at its front.
fn without_front_blanks(text: &[u8]) -> &[u8]
    ensures { result.now ≡ without_front_blanks text.now }
{
    let mut rest = text;
    'front: while let Some((first, more)) = rest.split_first() {
        if !is_blank(*first) {
            return rest;
        }
        rest = more;
    }
    rest
}

/// Returns the text without the spaces and tabs at its end.
fn without_end_blanks(text: &[u8]) -> &[u8]
    ensures { result.now ≡ without_end_blanks text.now }
{
    let mut rest = text;
    'back: while let Some((last, front)) = rest.split_last() {
        if !is_blank(*last) {
            return rest;
        }
        rest = front;
    }
    rest
}

/// Returns the number that the digits are the decimal of. It has at most 15 digits.
fn number_of(digits: &[u8]) -> Option<usize>
    ensures { result ≡ number_of digits.now }
{
    if digits.is_empty() {
        return None;
    }
    let mut number = 0;
    for digit in digits {
        number = with_digit(number, *digit)?;
    }
    Some(number)
}

/// Returns the number with one more digit.
fn with_digit(number: usize, digit: u8) -> Option<usize>
    ensures { result ≡ with_digit number digit }
{
    if matches!(digit, b'0'..=b'9') && number < 100_000_000_000_000 {
        Some(number * 10 + usize::from(digit - b'0'))
    } else {
        None
    }
}
