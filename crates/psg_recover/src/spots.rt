//! Where the nodes and names of a program are in its text.
ghost use Rattle.std.specs.Prelude.{◌≡◌, IfOk, Some};
ghost use Rattle.std.specs.Option.{option_copied};
ghost use Rattle.psg_ranges.specs.Forests.{Forest};
ghost use Rattle.psg_ranges.specs.Owns.{end_before as end_before_of};
ghost use Rattle.psg_known.specs.Knowns.{IsKnown};
ghost use Rattle.psg_recover.specs.Spotted.{AreNodesOf, read_by};
ghost use Rattle.psg_recover.specs.TextPlaces as texts;

use crate::lost::path_back;
use psg_known::known::Known;
use psg_lexis::Spanned;
use psg_places::Place;
use psg_ranges::{Range, Ranges, byte_of_end};
use psg_tree::{Path, Tree};
use std::alloc::{AllocError, Global};

/// Where the nodes and names of a program are in its text. The program is what is left of a tree without lost elements.
#[derive(Clone, Copy)]
pub struct Spots<'a> {
    /// The tokens of the text.
    pub tokens: &'a [Spanned],
    /// Where the nodes of the whole tree are among the tokens.
    pub ranges: &'a Ranges,
    /// The whole tree.
    pub whole: &'a Tree,
    /// The definition of the language.
    pub known: Known<'a>,
}

/// Returns the byte where the token begins, or 0 where there is none.
fn token_byte(tokens: &[Spanned], number: usize) -> usize
    ensures { result ≡ texts.token_byte tokens.now number }
{
    match tokens.get(number) {
        Some(token) => token.start,
        None => 0,
    }
}

/// Returns the end of the last of that many tokens at the front, or 0 if there is none.
fn end_before(tokens: &[Spanned], number: usize) -> usize
    ensures { result ≡ end_before_of tokens.now number }
{
    if number <= tokens.len() {
        return byte_of_end(tokens, number);
    }
    0
}

/// Returns where the node of the range begins; one without tokens is after the token before it.
fn begin_of(tokens: &[Spanned], range: &Range) -> usize
    ensures { result ≡ texts.begin_of tokens.now (Some range.now) }
{
    if range.start == range.end {
        return end_before(tokens, range.start);
    }
    token_byte(tokens, range.start)
}

/// Returns where the last token of the node of the range begins.
fn last_of(tokens: &[Spanned], range: &Range) -> usize
    ensures { result ≡ texts.last_of tokens.now (Some range.now) }
{
    let number = range.end.saturating_sub(1);
    token_byte(tokens, number)
}

/// Returns where the name of the number of the node of the range begins.
fn name_of(tokens: &[Spanned], range: &Range, number: usize) -> usize
    ensures { result ≡ texts.name_of tokens.now (Some range.now) number }
{
    match range.names.as_slice().get(number) {
        Some(token) => token_byte(tokens, *token),
        None => 0,
    }
}

/// Finds the range of the node at the path.
fn range_at<'a>(
    alloc: Global,
    spots: Spots<'a>,
    path: &Path,
) -> Result<Option<&'a Range>, AllocError>
    requires known { IsKnown spots.known }
    ensures { IfOk result (λ found. (nodes : Forest) → AreNodesOf spots.entry nodes → option_copied found
        ≡ texts.range_at spots.entry.known.definition.now (read_by spots.entry nodes) path.now) }
{
    let steps = path.steps();
    let back = path_back(alloc, spots.known, spots.whole, steps)?;
    let found = spots.ranges.at(back.as_slice());
    Ok(found)
}

impl<'a> Spots<'a> {
    /// Returns the byte where the node at the path begins.
    pub fn node(self, alloc: Global, path: &Path) -> Result<usize, AllocError>
        requires known { IsKnown self.known }
        ensures { IfOk result (λ byte. (nodes : Forest) → AreNodesOf self.entry nodes
            → byte ≡ texts.node_byte self.entry.known.definition.now (read_by self.entry nodes) path.now) }
    {
        let found = range_at(alloc, self, path)?;
        match found {
            Some(range) => {
                let byte = begin_of(self.tokens, range);
                Ok(byte)
            }
            None => Ok(0),
        }
    }

    /// Returns the byte after the node at the path.
    pub fn end(self, alloc: Global, path: &Path) -> Result<usize, AllocError>
        requires known { IsKnown self.known }
        ensures { IfOk result (λ byte. (nodes : Forest) → AreNodesOf self.entry nodes
            → byte ≡ texts.end_byte self.entry.known.definition.now (read_by self.entry nodes) path.now) }
    {
        let found = range_at(alloc, self, path)?;
        match found {
            Some(range) => {
                let byte = end_before(self.tokens, range.end);
                Ok(byte)
            }
            None => Ok(0),
        }
    }

    /// Returns the byte where the last token of the node at the path begins.
    pub fn last(self, alloc: Global, path: &Path) -> Result<usize, AllocError>
        requires known { IsKnown self.known }
        ensures { IfOk result (λ byte. (nodes : Forest) → AreNodesOf self.entry nodes
            → byte ≡ texts.last_byte self.entry.known.definition.now (read_by self.entry nodes) path.now) }
    {
        let found = range_at(alloc, self, path)?;
        match found {
            Some(range) => {
                let byte = last_of(self.tokens, range);
                Ok(byte)
            }
            None => Ok(0),
        }
    }

    /// Returns the byte where the name of the number of the node at the path begins.
    pub fn name(self, alloc: Global, path: &Path, number: usize) -> Result<usize, AllocError>
        requires known { IsKnown self.known }
        ensures { IfOk result (λ byte. (nodes : Forest) → AreNodesOf self.entry nodes
            → byte ≡ texts.name_byte self.entry.known.definition.now (read_by self.entry nodes) path.now number) }
    {
        let found = range_at(alloc, self, path)?;
        match found {
            Some(range) => {
                let byte = name_of(self.tokens, range, number);
                Ok(byte)
            }
            None => Ok(0),
        }
    }

    /// Returns the byte where the first token begins.
    pub fn first(self) -> usize
        ensures { (nodes : Forest) → result
            ≡ texts.first_byte self.entry.known.definition.now (read_by self.entry nodes) }
    {
        token_byte(self.tokens, 0)
    }

    /// Returns the byte at which it is reported that the place is blamed.
    pub fn place(self, alloc: Global, place: &Place) -> Result<usize, AllocError>
        requires known { IsKnown self.known }
        ensures { IfOk result (λ byte. (nodes : Forest) → AreNodesOf self.entry nodes
            → byte ≡ texts.place_byte self.entry.known.definition.now (read_by self.entry nodes) place.now) }
    {
        match place {
            Place::Node(path) => {
                let byte = self.node(alloc, path)?;
                Ok(byte)
            }
            Place::Element(path) => {
                let byte = self.node(alloc, path)?;
                Ok(byte)
            }
            Place::End(path) => {
                let byte = self.end(alloc, path)?;
                Ok(byte)
            }
            Place::Name(path, number) => {
                let byte = self.name(alloc, path, *number)?;
                Ok(byte)
            }
        }
    }
}
