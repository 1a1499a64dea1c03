//! What is said of the node at a byte of a text.
ghost use Rattle.std.specs.Prelude.{◌≡◌, ◌≤◌, ◌+◌, ◌∷◌, [], IfOk, IsUtf8, Some, length, map, option_copied};
ghost use Rattle.std.specs.Prelude.{option_map, string_bytes};
ghost use Rattle.psg_asking.specs.Asked.{IsKnown, IsToldOf, relation_of};
ghost use Rattle.psg_asking.specs.Told.{lines_told, or_none, read_of};
ghost use Rattle.psg_cache.specs.Annotated.{tree_in};
ghost use Rattle.psg_class.specs.Texts.{TextTokens, tokens_of};
ghost use Rattle.psg_grammar.specs.Kinds.{HasKind};
ghost use Rattle.psg_pointing.specs.Hovering as told;
ghost use Rattle.psg_pointing.specs.Hovering.{IsHoverOf, IsHovered};
ghost use Rattle.psg_pointing.specs.Judging.{IsJudged};
ghost use Rattle.psg_pointing.specs.Pointing.{IsNodeThere};
ghost use Rattle.psg_program.specs.Decoding.{unmarked as unmarked_of};
ghost use Rattle.psg_grammar.specs.Fragments.{Fragment};
ghost use Rattle.psg_grammar.specs.Paths.{node_at};
ghost use Rattle.psg_ranges.specs.declared.ranges.Range.{Range as PlainRange};
ghost use Rattle.psg_ranges.specs.Forests.{Forest, at_path, first_range, ranges_in};

use crate::judging::{Judged, judge};
use crate::pointing::{begin_of, finish_of, pointed};
use crate::telling::head_of;
use psg_asking::{Known, relation_at};
use psg_grammar::Kind;
use psg_keymap::{Spot, copied};
use psg_program::unmarked;
use psg_ranges::{Range, Ranges};
use psg_session::Refusal;
use psg_specimen::Language;
use psg_terms::Steps;
use psg_tree::{Path, Tree, at};
use psg_world::SureFiles;
use std::alloc::{AllocError, Global};
use std::sync::ledger::Ledger;

/// What is said of a node of a text.
#[derive(Drop)]
pub struct Hover {
    /// The byte where the node begins.
    pub start: usize,
    /// The byte after its last one.
    pub end: usize,
    /// What the node is, and what it can mean.
    pub lines: Vec<String>,
}

/// Returns how many bytes are before what is judged: those of a byte order mark.
pub(crate) fn mark_size(text: &[u8]) -> usize
    ensures { result ≡ told.mark_size text.now }
{
    text.len() - unmarked(text).len()
}

/// Returns the byte of what is judged: of the text without its byte order mark. It takes one step.
pub fn own_byte(text: &[u8], byte: usize) -> usize
    ensures { result ≡ told.own_byte text.now byte }
{
    let mark = mark_size(text);
    byte.saturating_sub(mark)
}

/// Returns the line and those after it, if it was not refused.
fn lines_after(
    alloc: Global,
    head: String,
    told: Result<Vec<String>, Refusal>,
) -> Result<Vec<String>, AllocError>
    ensures { IfOk result (λ lines. map string_bytes lines.items ≡ string_bytes head ∷ or_none (read_of told)) }
{
    match told {
        Ok(more) => {
            let mut lines = more;
            lines.insert(0, head)?;
            Ok(lines)
        }
        Err(_) => {
            let lines = one_line(alloc, head)?;
            Ok(lines)
        }
    }
}

/// Returns the line and those after it, if there are any.
fn lines_with(
    alloc: Global,
    head: String,
    read: Option<Result<Vec<String>, Refusal>>,
) -> Result<Vec<String>, AllocError>
    ensures { IfOk result (λ lines. map string_bytes lines.items
        ≡ string_bytes head ∷ told.lines_of (option_map read_of read)) }
{
    match read {
        Some(told) => {
            let lines = lines_after(alloc, head, told)?;
            Ok(lines)
        }
        None => {
            let lines = one_line(alloc, head)?;
            Ok(lines)
        }
    }
}

/// Returns the line alone.
fn one_line(alloc: Global, head: String) -> Result<Vec<String>, AllocError>
    ensures { IfOk result (λ lines. map string_bytes lines.items ≡ string_bytes head ∷ []) }
{
    let mut lines = Vec::new(alloc);
    lines.push(head)?;
    Ok(lines)
}

/// Asks for the relation of the node at the path.
fn relation_read<L: Ledger>(
    alloc: Global,
    known: Known,
    path: &Path,
    steps: &mut Steps<L>,
) -> Result<Option<Result<Vec<String>, Refusal>>, AllocError>
    requires { IsKnown known.program.language.now known.program.kind known.program.note.now known.wrong
        (option_copied known.repair) }
    ensures { IfOk result (λ read. IsToldOf known.entry.program.language.now known.entry.program.kind
        (tree_in known.entry.program.note.now) (told.spot_at path.now) relation_of lines_told
        (option_map read_of read)) }
{
    let target = copied(alloc, path)?;
    let spot = Spot {
        target,
        place: None,
    };
    let mut files = SureFiles::new(alloc, Vec::new(alloc));
    let read = relation_at(alloc, known, &spot, &mut files, steps)?;
    Ok(read)
}

/// Returns the byte of the whole text, with its byte order mark. It takes one step.
pub fn whole_byte(text: &[u8], byte: usize) -> usize
    requires { byte ≤ length (unmarked_of text.now) }
    ensures { result ≡ told.mark_size text.now + byte }
{
    mark_size(text) + byte
}

/// Returns the node at the path.
fn node_there<'a>(tree: &'a Tree, path: &Path) -> &'a Tree
    requires { (node : Fragment) × (node_at tree.now path.now ≡ Some node) }
    ensures { node_at tree.now path.now ≡ Some result.now }
{
    match at(tree, path) {
        Some(node) => node,
        None => unreachable!(),
    }
}

/// Returns the range of the node at the path.
fn range_there<'a>(ranges: &'a Ranges, path: &Path) -> &'a Range
    requires { (nodes : Forest) × (ranges_in nodes ≡ ranges.now.nodes) × (range : PlainRange)
        × (first_range (at_path nodes path.now) ≡ Some range) }
    ensures { (nodes : Forest) → ranges_in nodes ≡ ranges.now.nodes
        → first_range (at_path nodes path.now) ≡ Some result.now }
{
    let steps = path.steps();
    match ranges.at(steps) {
        Some(range) => range,
        None => unreachable!(),
    }
}

/// Says what the node at the path is.
fn hover_of<L: Ledger>(
    alloc: Global,
    language: &Language,
    kind: Kind,
    text: &[u8],
    judged: &Judged,
    path: &Path,
    steps: &mut Steps<L>,
) -> Result<Hover, AllocError>
    requires known { IsKnown language.now kind judged.now.note judged.now.wrong judged.now.repair }
    requires text { IsUtf8 (unmarked_of text.now) }
    requires tokens { TextTokens language.now (unmarked_of text.now) judged.now.tokens.items }
    requires there { (nodes : Forest) × (ranges_in nodes ≡ judged.now.ranges.nodes)
        × IsNodeThere language.now (tokens_of judged.now.tokens.items) (tree_in judged.now.note) nodes path.now }
    ensures { IfOk result (λ h. (nodes : Forest) → ranges_in nodes ≡ judged.now.ranges.nodes
        → IsHoverOf language.now kind judged.now nodes (told.mark_size text.now) path.now h) }
{
    let tree = judged.note.tree();
    let node = node_there(tree, path);
    let range = range_there(&judged.ranges, path);
    let tokens = judged.tokens.as_slice();
    let first = begin_of(tokens, range);
    let last = finish_of(tokens, range);
    let start = whole_byte(text, first);
    let end = whole_byte(text, last);
    let definition = language.definition();
    let head = head_of(alloc, definition, node)?;
    let asked = judged.known(language, kind);
    let read = relation_read(alloc, asked, path, steps)?;
    let lines = lines_with(alloc, head, read)?;
    Ok(Hover { start, end, lines })
}

/// Says what the node at the byte of the text of a program is.
fn hovered<L: Ledger>(
    alloc: Global,
    language: &Language,
    kind: Kind,
    text: &[u8],
    byte: usize,
    judged: &Judged,
    steps: &mut Steps<L>,
) -> Result<Option<Hover>, AllocError>
    requires { IsJudged language.now kind (unmarked_of text.now) judged.now }
    ensures { IfOk result (IsHovered language.now kind text.now byte) }
{
    let own = own_byte(text, byte);
    let tokens = judged.tokens.as_slice();
    let ranges = judged.ranges.all();
    let found = pointed(alloc, tokens, own, ranges)?;
    match found {
        Some(path) => {
            let hover = hover_of(alloc, language, kind, text, judged, &path, steps)?;
            Ok(Some(hover))
        }
        None => Ok(None),
    }
}

/// Returns what is known of the node at the byte of a text that is to be a program of the kind: the smallest node that
/// covers the byte, and of two that touch there the later one. The lines begin with what the node is, followed by those
/// of the plain editor's `relation` for it; of a wrong program with those of the repaired one, and none where that has
/// no such node. `None` where the text is no program, where the program passes a limit of the evaluator, and where no
/// node covers the byte. Bytes are those of the whole text, with a byte order mark.
///
/// `steps` counts the tokens and the evaluations. It fails where memory runs out. It takes a reading of the text and an
/// evaluation of each node, of a wrong program the search for its blamed places, and the question.
pub fn hover_at<L: Ledger>(
    alloc: Global,
    language: &Language,
    kind: Kind,
    text: &[u8],
    byte: usize,
    steps: &mut Steps<L>,
) -> Result<Option<Hover>, AllocError>
    requires { HasKind language.now kind }
    ensures { IfOk result (IsHovered language.now kind text.now byte) }
{
    let found = judge(alloc, language, kind, text, steps)?;
    match found {
        Some(judged) => {
            let hover = hovered(alloc, language, kind, text, byte, &judged, steps)?;
            Ok(hover)
        }
        None => Ok(None),
    }
}
