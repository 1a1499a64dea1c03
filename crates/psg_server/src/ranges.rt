//! Ranges of a text, as values.
ghost use Rattle.std.specs.Prelude.{◌≡◌, ◌≤◌, IfOk, drop, length};
ghost use Rattle.serde_json.specs.View.{view};
ghost use Rattle.psg_documents.specs.Positions.{AreStarts};
ghost use Rattle.psg_server.specs.Ranges.{IsRange, position_data, range_data};

use psg_documents::{Encoding, Lines, Position};
use serde_json::{Value, json};
use std::alloc::{AllocError, Global};

/// A text with its lines, and the encoding in which its columns are counted.
#[derive(Clone, Copy)]
pub struct Page<'a> {
    /// How columns are counted.
    pub encoding: Encoding,
    /// The text.
    pub text: &'a str,
    /// Its lines.
    pub lines: &'a Lines,
}

/// Returns the bytes from a place on.
pub(crate) fn after(bytes: &[u8], from: usize) -> &[u8]
    requires { from ≤ length bytes.now }
    ensures { result.now ≡ drop from bytes.now }
{
    bytes.split_at(from).1
}

/// Returns the position as a value.
fn position_value(alloc: Global, position: Position) -> Result<Value, AllocError>
    ensures { IfOk result (λ v. view v ≡ position_data position.line position.column) }
{
    json!(in alloc; {"line": position.line, "character": position.column})
}

/// Returns the range between two positions.
fn between(alloc: Global, start: Value, end: Value) -> Result<Value, AllocError>
    ensures { IfOk result (λ v. view v ≡ range_data (view start) (view end)) }
{
    json!(in alloc; {"start": start, "end": end})
}

/// Returns the range from a byte up to another one as a value. Fails only when out of memory. It takes a step for each
/// byte of the two lines.
pub(crate) fn range_value(
    alloc: Global,
    page: &Page<'_>,
    from: usize,
    to: usize,
) -> Result<Value, AllocError>
    requires { AreStarts page.now.text.now page.now.lines.now }
    ensures { IfOk result (λ v. IsRange page.now.encoding page.now.text.now from to (view v)) }
{
    let first = page.lines.position_of(page.text, page.encoding, from);
    let last = page.lines.position_of(page.text, page.encoding, to);
    let start = position_value(alloc, first)?;
    let end = position_value(alloc, last)?;
    let range = between(alloc, start, end)?;
    Ok(range)
}
