//! The first line in which bytes are not the text that they are to be.
ghost use Rattle.std.specs.Prelude.{◌≡◌, ◌∷◌, ◌<◌, ◌^◌, ◌+◌, IfSome, MatchOption, length, position};
ghost use Rattle.std.specs.Str.{IsUtf8};
ghost use Rattle.psg_program.specs.Formatted.{IsFirstDifference, is_feed, pieces};
ghost use Rattle.psg_program.specs.Compared.{EndsBehind, pieces_in};

/// The first line that is not as it is to be.
#[derive(Drop)]
pub struct Difference<'t> {
    /// The line, from 1.
    pub line: usize,
    /// The line as it is to be, without its line feed; the empty text where there is to be none.
    pub text: &'t str,
}

/// Bytes up to a line feed, and those after it, where there is one.
#[derive(Drop)]
struct Piece<'b> {
    line: &'b [u8],
    rest: Option<&'b [u8]>,
}

/// A text up to a line feed, and that after it, where there is one.
#[derive(Drop)]
struct Line<'t> {
    line: &'t str,
    rest: Option<&'t str>,
}

/// Returns the place of the first line feed, if there is one.
fn first_feed(bytes: &[u8]) -> Option<usize>
    ensures { result ≡ position is_feed bytes.now }
{
    bytes.iter().position(|byte| *byte == b'\n')
}

/// Cuts off the bytes up to the first line feed.
fn first_piece(bytes: &[u8]) -> Piece<'_>
    ensures pieces { pieces bytes.now ≡ result.line.now ∷ pieces_in result.rest }
    ensures shorter { IfSome result.rest (λ rest. length rest.now < length bytes.now) }
{
    match first_feed(bytes) {
        Some(end) => Piece {
            line: &bytes[..end],
            rest: Some(&bytes[end + 1..]),
        },
        None => Piece {
            line: bytes,
            rest: None,
        },
    }
}

/// Cuts off the text up to the first line feed.
fn first_line(text: &str) -> Line<'_>
    ensures pieces { pieces text.now ≡ result.line.now ∷ pieces_in result.rest }
    ensures utf8 { IfSome result.rest (λ rest. IsUtf8 rest.now) }
{
    match text.split_once('\n') {
        Some((line, rest)) => Line {
            line,
            rest: Some(rest),
        },
        None => Line {
            line: text,
            rest: None,
        },
    }
}

/// Returns the difference where bytes end with a line, and this is wanted after its line feed.
fn behind<'t>(line: usize, wanted: Option<&'t str>) -> Option<Difference<'t>>
    requires { line + 1 < 2 ^ 64 }
    ensures { EndsBehind line (pieces_in wanted.entry) result }
{
    match wanted {
        Some(more) => Some(Difference {
            line: line + 1,
            text: first_line(more).line,
        }),
        None => None,
    }
}

/// Returns the first line in which the bytes are not the text that is wanted; none where they are that text. It takes a
/// step for each byte of the lines before.
pub fn first_difference<'t>(bytes: &[u8], wanted: &'t str) -> Option<Difference<'t>>
    ensures { MatchOption result (bytes.now ≡ wanted.now)
        (λ d. IsFirstDifference bytes.now wanted.now d.line d.text.now) }
{
    let mut line = 1;
    let mut rest = bytes;
    let mut left = wanted;
    'lines: loop {
        let own = first_piece(rest);
        let text = first_line(left);
        if own.line != text.line.as_bytes() {
            return Some(Difference {
                line,
                text: text.line,
            });
        }
        let after = match own.rest {
            Some(after) => after,
            None => return behind(line, text.rest),
        };
        line += 1;
        let more = match text.rest {
            Some(more) => more,
            None => return Some(Difference { line, text: "" }),
        };
        rest = after;
        left = more;
    }
}
