//! Texts that are put at a place.
ghost use Rattle.std.specs.Prelude.{◌≡◌, None, Some, IfOk};
ghost use Rattle.psg_unparse.specs.Spans.{printed_of};
ghost use Rattle.psg_keymap.specs.Table as table;

use crate::face::with_place;
use crate::nodes::{list_above, place_at};
use crate::ranges::{Range, range_of, separator_of};
use crate::table::{Due, Seen};
use psg_face::is_dots;
use psg_script::Command;
use psg_terms::Txt;
use psg_tree::Path;
use std::alloc::{AllocError, Global};

/// Returns the command that puts a text at the chosen place: `over` of the node there, or `range` at a `...`.
pub fn text_put(alloc: Global, seen: Seen, path: &Path, text: Txt) -> Result<Due, AllocError>
    requires printed { seen.printed.now ≡ printed_of seen.language.now seen.tree.now }
    ensures { IfOk result (λ due. due ≡ table.typed_due seen.entry.language.now seen.entry.tree.now path.now text) }
{
    if is_dots(seen.tree, path) {
        let spot = list_above(alloc, seen.tree, path)?;
        let due = text_beside(alloc, seen, path, spot, text)?;
        return Ok(due);
    }
    let due = text_at(alloc, seen, path, None, text)?;
    Ok(due)
}

/// Returns the command that puts a text before the place of a list, or else in place of the node.
fn text_beside(
    alloc: Global,
    seen: Seen,
    path: &Path,
    spot: Option<(Path, u32)>,
    text: Txt,
) -> Result<Due, AllocError>
    requires printed { seen.printed.now ≡ printed_of seen.language.now seen.tree.now }
    ensures { IfOk result (λ due. due ≡ table.by_place_of spot
        (λ list place. table.text_at seen.entry.language.now seen.entry.tree.now
        (printed_of seen.entry.language.now seen.entry.tree.now).spans list (Some place) text)
        (table.text_at seen.entry.language.now seen.entry.tree.now
        (printed_of seen.entry.language.now seen.entry.tree.now).spans path.now None text)) }
{
    match spot {
        Some((list, place)) => {
            let due = text_at(alloc, seen, &list, Some(place), text)?;
            Ok(due)
        }
        None => {
            let due = text_at(alloc, seen, path, None, text)?;
            Ok(due)
        }
    }
}

/// Returns the command that puts a text in place of a node, or into a list before the place.
pub fn text_at(
    alloc: Global,
    seen: Seen,
    target: &Path,
    place: Option<u32>,
    text: Txt,
) -> Result<Due, AllocError>
    ensures { IfOk result (λ due. due ≡ table.text_at seen.entry.language.now seen.entry.tree.now
        seen.entry.printed.now.spans target.now place text) }
{
    let grown = with_place(alloc, target, place)?;
    let command = text_command(alloc, seen, target, place, text)?;
    Ok(Due {
        command,
        grown: Some(grown),
    })
}

/// Returns `over` of a node, or `range` before a place of a list.
fn text_command(
    alloc: Global,
    seen: Seen,
    target: &Path,
    place: Option<u32>,
    text: Txt,
) -> Result<Command, AllocError>
    ensures { IfOk result (λ command. command ≡ (table.text_at seen.entry.language.now seen.entry.tree.now
        seen.entry.printed.now.spans target.now place text).command) }
{
    match place {
        Some(place) => {
            let definition = seen.language.definition();
            let separator = separator_of(definition, seen.tree, target);
            let spans = seen.printed.spans.as_slice();
            let words = text.as_str();
            let range = range_of(alloc, seen.tree, spans, target, place, separator, words)?;
            let command = range_command(alloc, target, range, text)?;
            Ok(command)
        }
        None => {
            let at = place_at(alloc, target)?;
            Ok(Command::Over { at, text })
        }
    }
}

/// Returns `range`, or `over` where there is no range: a finished list without elements has no bytes of its own.
fn range_command(
    alloc: Global,
    target: &Path,
    range: Option<Range>,
    text: Txt,
) -> Result<Command, AllocError>
    ensures { IfOk result (λ command. command ≡ table.by_range target.now text range) }
{
    match range {
        Some(range) => Ok(Command::Range {
            start: range.byte,
            end: range.byte,
            text: range.text,
        }),
        None => {
            let at = place_at(alloc, target)?;
            Ok(Command::Over { at, text })
        }
    }
}
