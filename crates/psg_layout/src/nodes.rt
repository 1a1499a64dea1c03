//! The nodes that were written, and how wide they are.
ghost use Rattle.std.specs.Prelude.{◌≡◌, ◌<◌, ◌+◌, IfOk, List, ℕ, OnOk, drop, length, map, take};
ghost use Rattle.psg_unparse.specs.Spaced.{Put, text_in};
ghost use Rattle.psg_layout.specs.Pages.{Page};
ghost use Rattle.psg_layout.specs.PutSpans.{first_gap};
ghost use Rattle.psg_layout.specs.Sheets.{Copy, IsEnd, IsOwn, IsStop, extents, gap_bytes};
ghost use Rattle.psg_layout.specs.Walking as walking;
ghost use Rattle.psg_layout.specs.Walking.{Walk, IsWalk, closed, copied, ended, flat_in, flats_of, new_walk, opened};
ghost use Rattle.psg_layout.specs.Walking.{span_by};

use crate::gap::{Gap, sum};
use crate::line_end::LineEnd;
use crate::marks::Marks;
use crate::sheet::{Begin, Extent, Own, Sheet, Stop};
use psg_terms::Seq;
use psg_tree::Path;
use psg_unparse::Span;
use std::alloc::{AllocError, Global};

/// What a node is in one line: the gap in front of its first token, how many columns it has, if it has no line feed,
/// and its first character.
#[derive(Clone, Copy)]
pub(crate) struct Flat {
    /// Whether the node has a token.
    pub(crate) some: bool,
    pub(crate) lead: Gap,
    pub(crate) width: Option<usize>,
    pub(crate) head: Option<char>,
}

/// A node that was written: its bytes, as in a span, and what they are; how many tokens are in front of it, and how
/// many it has; the marks after it, and how many nodes there are in it, with itself.
#[derive(Drop)]
pub(crate) struct Node {
    pub(crate) span: Span,
    pub(crate) flat: Flat,
    pub(crate) before: usize,
    pub(crate) own: usize,
    pub(crate) after: Marks,
    pub(crate) count: usize,
}

/// What is written so far, with the nodes that were listed and the path to the one that is written.
#[derive(Drop)]
pub(crate) struct Arranger {
    pub(crate) sheet: Sheet,
    pub(crate) path: Vec<u32>,
    pub(crate) nodes: Vec<Node>,
    /// How many nodes are written, whether they were listed or copied.
    pub(crate) place: usize,
}

/// Returns what a node without tokens is.
fn no_tokens() -> Flat
    ensures { result ≡ walking.no_tokens }
{
    let lead = Gap {
        feed: false,
        spaces: 0,
    };
    Flat {
        some: false,
        lead,
        width: Some(0),
        head: None,
    }
}

/// Returns what a node is that begins with this token and ends at the end of the line.
fn flat_from(first: Begin, line: LineEnd) -> Flat
    ensures { (cs : List ℕ) → IsEnd line cs → result ≡ walking.flat_from first cs }
{
    let width = if first.feeds == line.feeds {
        Some(line.columns.saturating_sub(first.columns))
    } else {
        None
    };
    Flat {
        some: true,
        lead: first.gap,
        width,
        head: first.head,
    }
}

/// Returns what the node at the place is, as if without tokens where there is none.
pub(crate) fn flat_at(nodes: &[Node], place: usize) -> Flat
    ensures { result ≡ flat_in (flats_of nodes.now) place }
{
    match nodes.get(place) {
        Some(node) => node.flat,
        None => no_tokens(),
    }
}

/// Returns how many bytes the given number of first tokens have, of a text with that many bytes.
fn end_of(tokens: &[Extent], count: usize, bytes: usize) -> usize
    ensures { (puts : List Put) → tokens.now ≡ extents 0 puts → bytes ≡ length (text_in puts)
        → result ≡ length (text_in (take count puts)) }
{
    if count == 0 {
        return 0;
    }
    match tokens.get(count - 1) {
        Some(token) => token.end,
        None => bytes,
    }
}

/// Returns the byte at which a node begins that has that many tokens after that many other ones, in a text with that
/// many bytes.
fn start_of(tokens: &[Extent], before: usize, own: usize, bytes: usize) -> usize
    ensures { (puts : List Put) → tokens.now ≡ extents 0 puts → bytes ≡ length (text_in puts)
        → result ≡ length (text_in (take before puts)) + length (first_gap (take own (drop before puts))) }
{
    if own == 0 {
        return end_of(tokens, before, bytes);
    }
    match tokens.get(before) {
        Some(token) => token.begin,
        None => end_of(tokens, before, bytes),
    }
}

impl Node {
    /// Ends the node at the end of what is written, with its first token if it has one. There are that many nodes in
    /// it.
    fn end(&mut self, first: Option<Begin>, stop: Stop, count: usize)
        ensures { (p : Page) → IsStop stop p → self.new ≡ ended first p count self.old }
    {
        self.span.end = stop.bytes;
        self.own = stop.tokens.saturating_sub(self.before);
        self.after = stop.marks;
        self.count = count;
        if let Some(first) = first {
            self.span.start = first.byte;
            self.flat = flat_from(first, stop.line);
        }
    }

    /// Returns the span of the node in another text of the same tokens, which have these bytes, in a text of that many.
    fn span_in(self, tokens: &[Extent], bytes: usize) -> Result<Span, AllocError>
        ensures { IfOk result (λ span. (puts : List Put) → tokens.now ≡ extents 0 puts
            → bytes ≡ length (text_in puts) → span ≡ span_by puts self) }
    {
        let Node {
            span,
            before,
            own,
            ..
        } = self;
        let behind = sum(before, own)?;
        let start = start_of(tokens, before, own, bytes);
        let end = end_of(tokens, behind, bytes);
        let Span { path, .. } = span;
        Ok(Span { path, start, end })
    }
}

impl Arranger {
    /// Makes an arranger that has written nothing, with room for that many nodes.
    pub(crate) fn new(alloc: Global, count: usize) -> Result<Arranger, AllocError>
        ensures { IfOk result (λ made. IsWalk made new_walk) }
    {
        let sheet = Sheet::new(alloc);
        let path = Vec::new(alloc);
        let nodes = Vec::with_capacity(alloc, count)?;
        Ok(Arranger {
            sheet,
            path,
            nodes,
            place: 0,
        })
    }

    /// Begins a node: it is listed, and the place of its first token is to be found. It returns that of the node above,
    /// if it is known.
    pub(crate) fn open(&mut self, alloc: Global) -> Result<Option<Begin>, AllocError>
        ensures walk { IfOk result (λ outer. (w : Walk) → IsWalk self.old w
            → (outer ≡ w.ink.first) × IsWalk self.new (opened w)) }
        ensures long { IfOk result (λ _. length self.old.nodes.items < length self.new.nodes.items) }
    {
        let path = Path::of(alloc, self.path.as_slice())?;
        let stop = self.sheet.stop();
        let span = Span {
            path,
            start: stop.bytes,
            end: stop.bytes,
        };
        self.nodes.push(Node {
            span,
            flat: no_tokens(),
            before: stop.tokens,
            own: 0,
            after: stop.marks,
            count: 0,
        })?;
        self.place = sum(self.place, 1)?;
        Ok(self.sheet.first.take())
    }

    /// Ends the node that is listed there and was begun when that many nodes were written. The first token of the node
    /// above is its own one, unless another one is known.
    pub(crate) fn close(&mut self, listed: usize, place: usize, outer: Option<Begin>)
        requires { listed < length self.old.nodes.items }
        ensures walk { (w : Walk) → IsWalk self.old w → IsWalk self.new (closed listed place outer w) }
        ensures long { length self.new.nodes.items ≡ length self.old.nodes.items }
    {
        let first = self.sheet.first;
        let stop = self.sheet.stop();
        let count = self.place.saturating_sub(place);
        let node = &mut self.nodes[listed];
        node.end(first, stop, count);
        self.sheet.first = outer.or(first);
    }

    /// Writes a node as it is written elsewhere in one line.
    pub(crate) fn copy(&mut self, own: Own<'_>) -> Result<(), AllocError>
        ensures walk { OnOk result ((c : Copy) → IsOwn own.entry c → (w : Walk) → IsWalk self.old w
            → IsWalk self.new (copied (gap_bytes own.entry.lead) c w)) }
        ensures nodes { self.new.nodes.items ≡ self.old.nodes.items }
    {
        self.sheet.copy(own)?;
        self.place = sum(self.place, own.count)?;
        Ok(())
    }
}

/// Returns the spans of the nodes in another text of the same tokens, which have these bytes, in a text of that many.
pub(crate) fn spans_of(
    alloc: Global,
    nodes: Vec<Node>,
    tokens: &[Extent],
    bytes: usize,
) -> Result<Seq<Span>, AllocError>
    ensures { IfOk result (λ spans. (puts : List Put) → tokens.now ≡ extents 0 puts
        → bytes ≡ length (text_in puts) → spans ≡ map (span_by puts) nodes.items) }
{
    let mut spans = Vec::with_capacity(alloc, nodes.len())?;
    for node in nodes {
        let span = node.span_in(tokens, bytes)?;
        spans.push(span)?;
    }
    Ok(Seq::of(spans))
}
