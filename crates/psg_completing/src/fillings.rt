//! What is put in place of a word so that a text becomes a program.
ghost use Rattle.std.specs.Prelude.{◌≡◌, ◌==◌, ◌≤◌, ◌++◌, ◌∷◌, [], IfOk, OnOk, drop};
ghost use Rattle.std.specs.Prelude.{length, slice_get, string_bytes, take};
ghost use Rattle.psg_grammar.specs.Sound.{IsSound};
ghost use Rattle.psg_completing.specs.Fillings as filling;

use crate::around::Word;
use psg_grammar::{Definition, ListKind};
use psg_tree::phylum_name;
use std::alloc::{AllocError, Global};

/// What is beside a placeholder.
#[derive(Clone, Copy, PartialEq, Eq)]
pub enum Side {
    /// Nothing.
    Alone,
    /// The placeholder is before the separator of the list of this number.
    Before(u32),
    /// It is after that.
    Behind(u32),
}

/// A placeholder of the phylum of a number, and what is beside it.
#[derive(Clone, Copy, PartialEq, Eq)]
pub struct Filling {
    /// The number of the phylum.
    pub phylum: u32,
    /// What is beside the placeholder.
    pub side: Side,
}

/// Says whether the elements of the list are of the phylum.
fn is_of(kind: &ListKind, phylum: u32) -> bool
    ensures { result ≡ (kind.now.element == phylum) }
{
    kind.element == phylum
}

/// Adds the fillings of a list: before and after its separator, where its elements are of the phylum.
fn push_list(
    found: &mut Vec<Filling>,
    phylum: u32,
    list: u32,
    kind: &ListKind,
) -> Result<(), AllocError>
    ensures { OnOk result (found.new.items ≡ found.old.items ++ filling.list_fillings phylum list kind.now) }
{
    if !is_of(kind, phylum) {
        return Ok(());
    }
    let side = Side::Before(list);
    found.push(Filling { phylum, side })?;
    let side = Side::Behind(list);
    found.push(Filling { phylum, side })?;
    Ok(())
}

/// Adds the fillings of a phylum with separators: before and after that of each list of its trees.
fn push_lists(
    found: &mut Vec<Filling>,
    definition: &Definition,
    phylum: u32,
) -> Result<(), AllocError>
    requires { IsSound definition.now }
    ensures { OnOk result (found.new.items
        ≡ found.old.items ++ filling.lists_from phylum 0 definition.now.lists) }
{
    let lists = definition.lists.as_slice();
    for number in 0..lists.len() {
        push_list(found, phylum, number as u32, &lists[number])?;
    }
    Ok(())
}

/// Adds the fillings of a phylum: the placeholder alone, and before and after the separator of each list of its trees.
fn push_phylum(
    found: &mut Vec<Filling>,
    definition: &Definition,
    phylum: u32,
) -> Result<(), AllocError>
    requires { IsSound definition.now }
    ensures { OnOk result (found.new.items ≡ found.old.items
        ++ (filling.filling phylum Side.Alone ∷ filling.lists_from phylum 0 definition.now.lists)) }
{
    let side = Side::Alone;
    found.push(Filling { phylum, side })?;
    push_lists(found, definition, phylum)?;
    Ok(())
}

/// Returns the fillings of the definition: of each phylum, in the order of the definition, the placeholder alone, and
/// then before and after the separator of each list of its trees.
pub(crate) fn fillings(alloc: Global, definition: &Definition) -> Result<Vec<Filling>, AllocError>
    requires { IsSound definition.now }
    ensures { IfOk result (λ found. found.items ≡ filling.fillings definition.now) }
{
    let mut found = Vec::new(alloc);
    let phyla = definition.phyla.as_slice();
    for number in 0..phyla.len() {
        push_phylum(&mut found, definition, number as u32)?;
    }
    Ok(found)
}

/// Returns the separator of the list of the number; none where there is no such list.
fn separator(definition: &Definition, list: u32) -> &str
    ensures { result.now ≡ filling.separator_of (slice_get definition.now.lists list) }
{
    match definition.lists.as_slice().get(list as usize) {
        Some(list) => list.separator.as_str(),
        None => "",
    }
}

/// Returns what is before the placeholder: a separator and a space, or nothing.
pub(crate) fn before(
    alloc: Global,
    definition: &Definition,
    side: Side,
) -> Result<String, AllocError>
    ensures { IfOk result (λ text. string_bytes text ≡ filling.before definition.now side) }
{
    match side {
        Side::Alone => Ok(String::new(alloc)),
        Side::Before(_) => Ok(String::new(alloc)),
        Side::Behind(list) => {
            let mut text = String::from_str(alloc, separator(definition, list))?;
            text.push(' ')?;
            Ok(text)
        }
    }
}

/// Returns what is after the placeholder: a space and a separator, or nothing.
pub(crate) fn behind(
    alloc: Global,
    definition: &Definition,
    side: Side,
) -> Result<String, AllocError>
    ensures { IfOk result (λ text. string_bytes text ≡ filling.behind definition.now side) }
{
    match side {
        Side::Alone => Ok(String::new(alloc)),
        Side::Before(list) => {
            let mut text = String::from_str(alloc, " ")?;
            text.push_str(separator(definition, list))?;
            Ok(text)
        }
        Side::Behind(_) => Ok(String::new(alloc)),
    }
}

/// A text with a filling in place of a word.
#[derive(Drop)]
pub(crate) struct Trial {
    pub(crate) text: Vec<u8>,
    /// Where its placeholder is.
    pub(crate) byte: usize,
}

/// Returns the bytes before the place.
fn bytes_before(own: &[u8], place: usize) -> &[u8]
    requires { place ≤ length own.now }
    ensures { result.now ≡ take place own.now }
{
    &own[..place]
}

/// Returns the bytes from the place on.
fn bytes_from(own: &[u8], place: usize) -> &[u8]
    requires { place ≤ length own.now }
    ensures { result.now ≡ drop place own.now }
{
    &own[place..]
}

/// Returns the text of a placeholder among what is before and after it, and where the placeholder is.
fn trial_of(
    alloc: Global,
    front: &[u8],
    head: &str,
    name: &str,
    tail: &str,
    back: &[u8],
) -> Result<Trial, AllocError>
    ensures text { IfOk result (λ f. f.text.items
        ≡ ((((((front.now ++ 32 ∷ []) ++ head.now) ++ 63 ∷ []) ++ name.now) ++ tail.now) ++ 32 ∷ []) ++ back.now) }
    ensures byte { IfOk result (λ f. f.byte ≡ length ((front.now ++ 32 ∷ []) ++ head.now)) }
{
    let mut text = Vec::new(alloc);
    text.extend_from_slice(front)?;
    text.push(b' ')?;
    text.extend_from_slice(head.as_bytes())?;
    let byte = text.len();
    text.push(b'?')?;
    text.extend_from_slice(name.as_bytes())?;
    text.extend_from_slice(tail.as_bytes())?;
    text.push(b' ')?;
    text.extend_from_slice(back)?;
    Ok(Trial { text, byte })
}

/// Returns the text with the filling in place of the word, and where its placeholder is.
pub(crate) fn filled(
    alloc: Global,
    definition: &Definition,
    own: &[u8],
    word: Word,
    put: Filling,
) -> Result<Trial, AllocError>
    requires from { word.from ≤ length own.now }
    requires to { word.to ≤ length own.now }
    ensures text { IfOk result (λ f. f.text.items ≡ filling.filled definition.now own.now word put) }
    ensures byte { IfOk result (λ f. f.byte ≡ filling.mark_byte definition.now word put) }
{
    let first = before(alloc, definition, put.side)?;
    let last = behind(alloc, definition, put.side)?;
    let name = phylum_name(definition, put.phylum);
    let front = bytes_before(own, word.from);
    let back = bytes_from(own, word.to);
    let head = first.as_str();
    let tail = last.as_str();
    let trial = trial_of(alloc, front, head, name, tail, back)?;
    Ok(trial)
}
