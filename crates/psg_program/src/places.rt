//! The line and the column of a byte.
ghost use Rattle.std.specs.Prelude.{◌≡◌, ◌+◌, ◌<◌, ◌^◌, ◌==◌, [], IfNone, IfSome, chars, cond};
ghost use Rattle.psg_lexis.specs.Splits.{IsFirst};
ghost use Rattle.psg_program.specs.Places.{IsAt};

/// A place of a text, by its line and its column, both from 1. A line ends at a line feed, and a column is a character.
#[derive(Clone, Copy, Debug, PartialEq, Eq)]
pub struct Place {
    /// The line.
    pub line: usize,
    /// The column.
    pub column: usize,
}

/// Returns the first character of the text, and the text after it.
fn split_first(text: &str) -> Option<(char, &str)>
    ensures none { IfNone result (chars text.now ≡ []) }
    ensures first { IfSome result (λ parts. IsFirst text.now parts.0 parts.1.now) }
{
    let mut characters = text.chars();
    match characters.next() {
        Some(first) => Some((first, characters.as_str())),
        None => None,
    }
}

/// Returns the line of what is after the character.
fn line_past(line: usize, character: char) -> usize
    requires { line + 1 < 2 ^ 64 }
    ensures { result ≡ cond (character == 10) (line + 1) line }
{
    if character == '\n' { line + 1 } else { line }
}

/// Returns the column of what is after the character.
fn column_past(column: usize, character: char) -> usize
    requires { column + 1 < 2 ^ 64 }
    ensures { result ≡ cond (character == 10) 1 (column + 1) }
{
    if character == '\n' { 1 } else { column + 1 }
}

/// Returns the line and the column of the byte of the text: those of the first character that does not begin before it.
/// For the byte after the last one it is the end of the text. It takes a step for each character before the byte.
pub fn place_of(text: &str, byte: usize) -> Place
    ensures { IsAt text.now byte result.line result.column }
{
    let mut line = 1;
    let mut column = 1;
    let mut left = byte;
    let mut rest = text;
    while let Some((first, after)) = split_first(rest) {
        if left == 0 {
            break;
        }
        left = left.saturating_sub(rest.len() - after.len());
        line = line_past(line, first);
        column = column_past(column, first);
        rest = after;
    }
    Place { line, column }
}
