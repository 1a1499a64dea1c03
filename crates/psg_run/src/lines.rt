//! The lines of a script.
ghost use Rattle.std.specs.Prelude.{◌≡◌, ◌++◌, ◌∷◌, [], ◌<◌, length, position};
ghost use Rattle.std.specs.List.{slice_split};
ghost use Rattle.std.specs.Str.Lines.{strip_carriage_return};
ghost use Rattle.psg_run.specs.Playing.{AreOf};
ghost use Rattle.psg_run.specs.Scripts.{is_feed, kept_lines};

/// A line, and what is after its line feed.
#[derive(Drop)]
pub struct Cut<'a> {
    /// The first line, without its line feed.
    pub line: &'a [u8],
    /// The bytes after the line feed; none where there is no line feed.
    pub rest: &'a [u8],
}

/// Returns the place of the first line feed, if there is one.
pub fn first_feed(bytes: &[u8]) -> Option<usize>
    ensures { result ≡ position is_feed bytes.now }
{
    bytes.iter().position(|byte| *byte == b'\n')
}

/// Cuts off the first line, without its line feed. The rest is shorter than the bytes, unless they are empty.
pub fn cut_line(bytes: &[u8]) -> Cut<'_>
    requires { 0 < length bytes.now }
    ensures shorter { length result.rest.now < length bytes.now }
    ensures lines { kept_lines (slice_split is_feed bytes.now)
        ≡ kept_lines (result.line.now ∷ slice_split is_feed result.rest.now) }
{
    match first_feed(bytes) {
        Some(end) => Cut {
            line: &bytes[..end],
            rest: &bytes[end + 1..],
        },
        None => Cut {
            line: bytes,
            rest: &[],
        },
    }
}

/// Returns the line less one carriage return at its end.
fn without_return(line: &[u8]) -> &[u8]
    ensures { result.now ≡ strip_carriage_return line.now }
{
    match line {
        [front @ .., b'\r'] => front,
        _ => line,
    }
}

/// Returns the line that the piece of a script is, less one carriage return at its end; none where it is empty then.
pub fn kept(piece: &[u8]) -> Option<&[u8]>
    ensures { AreOf (kept_lines (piece.now ∷ [])) result }
{
    let line = without_return(piece);
    if line.is_empty() { None } else { Some(line) }
}
