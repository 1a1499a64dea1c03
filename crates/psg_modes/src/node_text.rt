//! The text of a node as a line.
ghost use Rattle.std.specs.Prelude.{◌≡◌, ◌&&◌, ◌==◌, [], chars, cond, nat_le, nat_lt, IfOk, None, Some, OnOk};
ghost use Rattle.std.specs.Prelude.{false, ◌++◌, ◌∷◌};
ghost use Rattle.psg_grammar.specs.declared.types.Definition.{Definition as PlainDefinition};
ghost use Rattle.psg_grammar.specs.Paths.{node_at};
ghost use Rattle.psg_keymap.specs.Ranges.{Bytes};
ghost use Rattle.psg_keymap.specs.Ranges as ranged;
ghost use Rattle.psg_places.specs.Places.{is_hole as is_hole_of};
ghost use Rattle.psg_unparse.specs.Spans.{printed_of};
ghost use Rattle.psg_modes.specs.Turning as turning;

use psg_keymap::span_at;
use psg_tree::{Path, Shape, Tree, at};
use psg_unparse::Printed;
use std::alloc::{AllocError, Global};

/// Returns the text of the chosen node as it is typed: a line feed and the spaces after it are one space. There is none
/// at a placeholder or a `...`. `printed` is the printed program. It fails where memory runs out. It reads the text and
/// the spans once.
pub fn node_line(
    alloc: Global,
    tree: &Tree,
    printed: &Printed,
    chosen: &Path,
) -> Result<Vec<char>, AllocError>
    ensures { IfOk result (λ line. (def : PlainDefinition) → printed.now ≡ printed_of def tree.now
        → line.items ≡ turning.node_line def tree.now chosen.now) }
{
    if is_filled(tree, chosen) {
        let line = line_at(alloc, printed, chosen)?;
        return Ok(line);
    }
    Ok(Vec::new(alloc))
}

/// Says whether the path leads to a node that is no placeholder.
fn is_filled(tree: &Tree, path: &Path) -> bool
    ensures { result ≡ turning.is_filled (node_at tree.now path.now) }
{
    match at(tree, path) {
        Some(node) => !is_hole(node),
        None => false,
    }
}

/// Says whether the node is a placeholder.
fn is_hole(node: &Tree) -> bool
    ensures { result ≡ is_hole_of node.now }
{
    match node.shape() {
        Shape::Op { .. } => false,
        Shape::List { .. } => false,
        Shape::Hole { .. } => true,
    }
}

/// Returns the text of the node at the path, as a line.
fn line_at(alloc: Global, printed: &Printed, path: &Path) -> Result<Vec<char>, AllocError>
    ensures { IfOk result (λ line. line.items ≡ turning.on_a_line false
        (turning.chars_at printed.now.text (ranged.span_at printed.now.spans path.now))) }
{
    let text = printed.text.as_str();
    match span_at(printed.spans.as_slice(), path.steps()) {
        Some((start, end)) => {
            let all = chars_between(alloc, text, start, end)?;
            let line = on_a_line(alloc, all.as_slice())?;
            Ok(line)
        }
        None => Ok(Vec::new(alloc)),
    }
}

/// Says whether the byte is one of these.
fn is_in(start: usize, end: usize, byte: usize) -> bool
    ensures { result ≡ (nat_le start byte && nat_lt byte end) }
{
    start <= byte && byte < end
}

/// Adds the character, if it is wanted.
fn push_if(all: &mut Vec<char>, wanted: bool, c: char) -> Result<(), AllocError>
    ensures { OnOk result (all.new.items ≡ all.old.items ++ cond wanted (c ∷ []) []) }
{
    if wanted {
        all.push(c)?;
        return Ok(());
    }
    Ok(())
}

/// Returns the characters that begin at the bytes from `start` up to `end`.
fn chars_between(
    alloc: Global,
    text: &str,
    start: usize,
    end: usize,
) -> Result<Vec<char>, AllocError>
    ensures { IfOk result (λ all. all.items ≡ turning.chars_between start end 0 (chars text.now)) }
{
    let mut all = Vec::new(alloc);
    let mut byte = 0;
    for c in text.chars() {
        let wanted = is_in(start, end, byte);
        push_if(&mut all, wanted, c)?;
        byte += c.len_utf8();
    }
    Ok(all)
}

/// Adds a character to a line. A line feed is a space, and a space after one is left out.
fn push_fed(line: &mut Vec<char>, fed: bool, c: char) -> Result<(), AllocError>
    ensures { OnOk result (line.new.items ≡ line.old.items ++ turning.fed_char fed c) }
{
    if c == '\n' {
        line.push(' ')?;
        return Ok(());
    }
    let skipped = is_skipped(fed, c);
    if skipped {
        return Ok(());
    }
    line.push(c)?;
    Ok(())
}

/// Says whether the character is a space after a line feed.
fn is_skipped(fed: bool, c: char) -> bool
    ensures { result ≡ (fed && (c == 32)) }
{
    fed && c == ' '
}

/// Says whether there are spaces alone since a line feed.
fn is_fed(fed: bool, c: char) -> bool
    ensures { result ≡ turning.is_fed fed c }
{
    c == '\n' || is_skipped(fed, c)
}

/// Returns the characters as one line: a line feed and the spaces after it are one space.
fn on_a_line(alloc: Global, all: &[char]) -> Result<Vec<char>, AllocError>
    ensures { IfOk result (λ line. line.items ≡ turning.on_a_line false all.now) }
{
    let mut line = Vec::new(alloc);
    let mut fed = false;
    for i in 0..all.len() {
        let c = all[i];
        push_fed(&mut line, fed, c)?;
        fed = is_fed(fed, c);
    }
    Ok(line)
}
