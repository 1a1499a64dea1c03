//! The lines of a text.
ghost use Rattle.std.specs.Prelude.{◌≡◌, ◌≢◌, ◌+◌, ◌<◌, ◌≤◌, ◌++◌, ◌∷◌, [], IfOk, length, slice_index};
ghost use Rattle.psg_documents.specs.Positions.{AreStarts, IsByteOf, IsPositionOf};

use crate::counting::{end_of, last_stop, reached, units_between};
use crate::encoding::Encoding;
use std::alloc::{AllocError, Global};
use std::marker::Model;

/// A position in a text.
#[derive(Clone, Copy, Debug, PartialEq, Eq)]
pub struct Position {
    /// The line, from 0.
    pub line: usize,
    /// The units of the line before the position.
    pub column: usize,
}

/// The beginnings of the lines of a text. They make positions of a text cheap.
#[derive(Drop)]
pub struct Lines {
    starts: Vec<usize>,
}

impl Model for Lines {
    ghost use Rattle.std.specs.Prelude.{ℕ, List};

    ghost Value = { List ℕ };

    ghost view = { λ l. l.starts.items };
}

impl Lines {
    /// Returns the beginnings of the lines of the text. It takes a step for each byte, and memory for each line. Fails
    /// only when out of memory.
    pub fn of(alloc: Global, text: &str) -> Result<Lines, AllocError>
        ensures { IfOk result (λ lines. AreStarts text.now lines) }
    {
        let starts = starts_of(alloc, text.as_bytes())?;
        Ok(Lines { starts })
    }

    /// Returns the byte of a position: the last place that is not after it. Past the end of a line that is the line's
    /// end, past the last line the end of the text, and within a character its beginning. It takes a step for each
    /// byte of the line. The text must be that of the lines.
    pub fn byte_of(&self, text: &str, encoding: Encoding, position: Position) -> usize
        requires { AreStarts text.now self.now }
        ensures { IsByteOf encoding text.now position.line position.column result }
    {
        byte_at(self.starts.as_slice(), text, encoding, position)
    }

    /// Returns the position of a byte: that of the last place which is not after it. So a byte within a character has
    /// the position of the character, and one past the end of the text the position of the end. It takes a step for
    /// each byte of the line, and a few to find the line. The text must be that of the lines.
    pub fn position_of(&self, text: &str, encoding: Encoding, byte: usize) -> Position
        requires { AreStarts text.now self.now }
        ensures { IsPositionOf encoding text.now byte result.line result.column }
    {
        position_at(self.starts.as_slice(), text, encoding, byte)
    }
}

/// Returns the beginnings of the lines.
fn starts_of(alloc: Global, text: &[u8]) -> Result<Vec<usize>, AllocError>
    ensures { IfOk result (λ starts. AreStarts text.now starts.items) }
{
    let mut starts = Vec::new(alloc);
    starts.push(0)?;
    let mut place = 0;
    'bytes: while place < text.len() {
        note(&mut starts, text[place], place + 1)?;
        place += 1;
    }
    Ok(starts)
}

/// Adds the place to the beginnings of lines where the byte before it is a line feed.
fn note(starts: &mut Vec<usize>, byte: u8, next: usize) -> Result<(), AllocError>
    ensures other { IfOk result (λ _. byte ≢ 10 → starts.new.items ≡ starts.old.items) }
    ensures feed { IfOk result (λ _. byte ≡ 10 → starts.new.items ≡ starts.old.items ++ next ∷ []) }
{
    if byte == b'\n' {
        starts.push(next)?;
    }
    Ok(())
}

/// Returns the last of the beginnings that is not after the byte. It takes a step for each digit of their number in
/// base 2.
fn line_at(starts: &[usize], byte: usize) -> usize
    requires some { 0 < length starts.now }
    requires first { slice_index starts.now 0 ≤ byte }
    ensures line { result < length starts.now }
    ensures from { slice_index starts.now result ≤ byte }
    ensures to { result + 1 < length starts.now → byte < slice_index starts.now (result + 1) }
{
    let mut low = 0;
    let mut high = starts.len();
    'halves: while high - low > 1 {
        let middle = low + (high - low) / 2;
        if starts[middle] <= byte {
            low = middle;
        } else {
            high = middle;
        }
    }
    low
}

/// Returns where the line feed of the line is, or the end of the text after the last line.
fn feed_of(starts: &[usize], text: &[u8], line: usize) -> usize
    requires starts { AreStarts text.now starts.now }
    requires line { line < length starts.now }
    ensures last { line + 1 ≡ length starts.now → result ≡ length text.now }
    ensures next { line + 1 < length starts.now → result + 1 ≡ slice_index starts.now (line + 1) }
{
    if starts.len() - line == 1 {
        text.len()
    } else {
        starts[line + 1] - 1
    }
}

/// Returns the byte of a position.
fn byte_at(starts: &[usize], text: &str, encoding: Encoding, position: Position) -> usize
    requires { AreStarts text.now starts.now }
    ensures { IsByteOf encoding text.now position.line position.column result }
{
    let bytes = text.as_bytes();
    if position.line >= starts.len() {
        return bytes.len();
    }
    let start = starts[position.line];
    let feed = feed_of(starts, bytes, position.line);
    let end = end_of(bytes, start, feed);
    let most = reached(bytes, encoding, start, end, position.column);
    last_stop(bytes, most)
}

/// Returns the position of a byte.
fn position_at(starts: &[usize], text: &str, encoding: Encoding, byte: usize) -> Position
    requires { AreStarts text.now starts.now }
    ensures { IsPositionOf encoding text.now byte result.line result.column }
{
    let bytes = text.as_bytes();
    let place = last_stop(bytes, byte);
    let line = line_at(starts, place);
    let column = units_between(bytes, encoding, starts[line], place);
    Position { line, column }
}
