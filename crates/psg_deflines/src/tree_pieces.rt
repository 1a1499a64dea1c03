//! What begins in a specimen, and what ends there.
ghost use Rattle.std.specs.Prelude.{ℕ, ◌≡◌, ◌∷◌, ◌^◌, ◌<◌, List, IfOk, OnOk, MatchOption, MatchBool, IsTrue, ◌↔◌};
ghost use Rattle.std.specs.Prelude.{codes, true, false, SomeIff, cond, Some, None, option_map};
ghost use Rattle.std.specs.List.{list_all};
ghost use Rattle.psg_grammar.specs.Sound.{is_digit, is_upper, is_name_from, is_specimen_name, IsOwnName};
ghost use Rattle.psg_lexis.specs.Tokens.{value_of};
ghost use Rattle.psg_deflines.specs.Parts.{texts};
ghost use Rattle.psg_deflines.specs.WrittenTrees.{operator, place, is_digits};
ghost use Rattle.psg_deflines.specs.TreeShapes.{ending, list_of, with_parts};
ghost use Rattle.psg_deflines.specs.TreeWalks.{in_operator, in_list, literal_part, IsLiteral, first_of, Begins};
ghost use Rattle.psg_deflines.specs.TreeStages.{is_operator};
ghost use Rattle.psg_deflines.specs.TreePieces.{frame_of, ShowsEnd, HasNoLiteral, IsKeptTree, ShowsBegin, HasNoBegin};
ghost use Rattle.psg_deflines.specs.TreePieces.{IsBeginRead, HasNoPlace, HasNoFinish, IsFinishRead};

use crate::names::{ascii, is, is_digits, is_kind_name, is_own_name, is_specimen_name};
use crate::places::{EndRead, ListEnd, PlaceRead, behind, can_end, line_place, list_end};
use crate::quotes::quoted_text;
use crate::trees::{LinePart, LinePlace, LineTree, TreeShape};
use psg_terms::{Seq, Txt};
use std::alloc::{AllocError, Global};

/// An operator with its parts so far, or a list with its elements so far.
#[derive(Drop)]
pub enum OpenTree {
    /// An operator whose bracket is open.
    Operator { name: Txt, parts: Vec<LinePart> },
    /// A list whose square bracket is open.
    List { elements: Vec<LineTree> },
}

/// What begins.
#[derive(Drop)]
pub enum TreeBegin {
    /// A name, a number or a text.
    Part(LinePart),
    /// A whole specimen, which is not kept where a term in it is nested too deep.
    Tree(Option<LineTree>),
    /// An operator or a list that goes on.
    Frame(OpenTree),
}

/// What begins, and how many parts it takes.
#[derive(Drop)]
pub struct BeginRead {
    /// What begins.
    pub begin: TreeBegin,
    /// The number of parts that it takes.
    pub taken: usize,
}

/// What follows a part or an element.
#[derive(Drop)]
pub enum TreeFinish {
    /// A comma: another part or element follows.
    Comma,
    /// The bracket that closes an operator.
    Close,
    /// The end of a list.
    End(ListEnd),
}

/// What follows a part or an element, and how many parts it takes.
#[derive(Drop)]
pub struct FinishRead {
    /// What follows.
    pub finish: TreeFinish,
    /// The number of parts that it takes.
    pub taken: usize,
}

/// Returns the value of the digits, if it is below 2^128.
fn value(digits: &[u8]) -> Option<u128>
    requires { list_all is_digit digits.now ≡ true }
    ensures { SomeIff result (value_of digits.now < 2 ^ 128) (value_of digits.now) }
{
    let mut value = 0u128;
    let mut rest = digits;
    while let Some((digit, after)) = rest.split_first() {
        let tens = value.checked_mul(10)?;
        value = tens.checked_add(u128::from(*digit - b'0'))?;
        rest = after;
    }
    Some(value)
}

/// Says whether the part is a number below 2^128.
fn is_number(part: &[u8]) -> bool
    ensures { IsTrue result ↔ ((is_digits part.now ≡ true) × (value_of part.now < 2 ^ 128)) }
{
    is_digits(part) && value(part).is_some()
}

/// Returns the name of a specimen's entity without its mark, if the part is one.
fn specimen_name(part: &[u8]) -> Option<&[u8]>
    ensures { MatchOption result ((n : List ℕ) → part.now ≡ 36 ∷ n → is_specimen_name n ≡ true → ⊥)
        (λ n. (part.now ≡ 36 ∷ n.now) × (is_specimen_name n.now ≡ true)) }
{
    let (first, name) = part.split_first()?;
    if *first == b'$' && is_specimen_name(name) {
        Some(name)
    } else {
        None
    }
}

/// Returns the name, number or text that the part is, if it is one.
fn literal(alloc: Global, part: &[u8]) -> Result<Option<LinePart>, AllocError>
    ensures { IfOk result (λ o. MatchOption o (HasNoLiteral part.now)
        (λ l. IsLiteral l × (part.now ≡ literal_part l))) }
{
    if let Some(name) = specimen_name(part) {
        return Ok(Some(LinePart::Name(Txt::copy_of(alloc, ascii(name))?)));
    }
    if is_number(part) {
        return Ok(Some(LinePart::Number(Txt::copy_of(alloc, ascii(part))?)));
    }
    let Some(text) = quoted_text(alloc, part)? else {
        return Ok(None);
    };
    Ok(Some(LinePart::Text(text)))
}

/// Says whether the first part is a name of a sort, phylum or list.
fn starts_with_kind(parts: &[&[u8]]) -> bool
    ensures { result ≡ is_name_from is_upper (first_of (texts parts.now)) }
{
    match parts.first() {
        Some(first) => is_kind_name(first),
        None => false,
    }
}

/// Returns an operator without parts.
fn leaf(alloc: Global, name: &[u8]) -> Result<LineTree, AllocError>
    requires { IsOwnName name.now }
    ensures { IfOk result (λ t. t ≡ operator name.now) }
{
    let name = Txt::copy_of(alloc, ascii(name))?;
    Ok(operator_tree(name, Vec::new(alloc)))
}

/// Returns an operator whose bracket is opened.
fn open_operator(alloc: Global, name: &[u8]) -> Result<OpenTree, AllocError>
    requires { IsOwnName name.now }
    ensures { IfOk result (λ f. frame_of f ≡ in_operator (operator name.now)) }
{
    let name = Txt::copy_of(alloc, ascii(name))?;
    let parts = Vec::new(alloc);
    Ok(OpenTree::Operator { name, parts })
}

/// Makes an operator with the parts.
pub fn operator_tree(name: Txt, parts: Vec<LinePart>) -> LineTree
    ensures { result ≡ with_parts (operator name) parts.items }
{
    let parts = Seq::of(parts);
    let shape = TreeShape::Operator { name, parts };
    LineTree { shape }
}

/// Returns the name of an operator that is open, and its parts; `None` for a list.
pub fn as_operator(frame: OpenTree) -> Option<(Txt, Vec<LinePart>)>
    ensures { MatchOption result (is_operator (frame_of frame) ≡ false)
        (λ r. frame_of frame ≡ in_operator (with_parts (operator r.0) r.1.items)) }
{
    match frame {
        OpenTree::Operator { name, parts } => Some((name, parts)),
        OpenTree::List { .. } => None,
    }
}

/// Returns the elements of a list that is open; `None` for an operator.
pub fn as_list(frame: OpenTree) -> Option<Vec<LineTree>>
    ensures { MatchOption result (is_operator (frame_of frame) ≡ true) (λ es. frame_of frame ≡ in_list es.items) }
{
    match frame {
        OpenTree::Operator { .. } => None,
        OpenTree::List { elements } => Some(elements),
    }
}

/// Makes a list of the elements, if its rest is kept.
pub fn list_tree(elements: Vec<LineTree>, end: ListEnd) -> Option<LineTree>
    ensures { result ≡ cond end.deep None (Some (list_of (ending end.rest) elements.items)) }
{
    let ListEnd { rest, deep } = end;
    if deep {
        return None;
    }
    let elements = Seq::of(elements);
    let shape = TreeShape::List { elements, rest };
    Some(LineTree { shape })
}

/// Returns what begins after the bracket of a list.
fn begin_list(alloc: Global, parts: &[&[u8]]) -> Result<Option<BeginRead>, AllocError>
    ensures { IfOk result (λ o. MatchOption o (HasNoBegin (codes "[" ∷ texts parts.now))
        (IsBeginRead (codes "[" ∷ texts parts.now))) }
{
    if !can_end(parts) {
        let elements = Vec::new(alloc);
        let begin = TreeBegin::Frame(OpenTree::List { elements });
        return Ok(Some(BeginRead { begin, taken: 1 }));
    }
    let Some(read) = list_end(alloc, parts)? else {
        return Ok(None);
    };
    let EndRead { end, taken } = read;
    let begin = TreeBegin::Tree(list_tree(Vec::new(alloc), end));
    Ok(Some(BeginRead {
        begin,
        taken: taken + 1,
    }))
}

/// Returns the hole place as a specimen, if it is kept.
fn place_tree(kept: Option<LinePlace>) -> Option<LineTree>
    ensures { result ≡ option_map (λ p. place p.kind p.term) kept }
{
    match kept {
        Some(place) => Some(LineTree {
            shape: TreeShape::Place(place),
        }),
        None => None,
    }
}

/// Returns the hole place with which the parts begin.
fn begin_place(alloc: Global, parts: &[&[u8]]) -> Result<Option<BeginRead>, AllocError>
    ensures { IfOk result (λ o. MatchOption o (HasNoPlace (texts parts.now)) (IsBeginRead (texts parts.now))) }
{
    let Some(read) = line_place(alloc, parts)? else {
        return Ok(None);
    };
    let PlaceRead { place, taken } = read;
    let begin = TreeBegin::Tree(place_tree(place));
    Ok(Some(BeginRead { begin, taken }))
}

/// Returns what the name of an operator or the word of a place begins.
fn begin_operator(alloc: Global, parts: &[&[u8]]) -> Result<Option<BeginRead>, AllocError>
    requires { IsOwnName (first_of (texts parts.now)) }
    ensures { IfOk result (λ o. MatchOption o (HasNoBegin (texts parts.now)) (IsBeginRead (texts parts.now))) }
{
    let Some((name, rest)) = parts.split_first() else {
        return Ok(None);
    };
    let Some(inside) = behind(rest, "(") else {
        let begin = TreeBegin::Tree(Some(leaf(alloc, name)?));
        return Ok(Some(BeginRead { begin, taken: 1 }));
    };
    if starts_with_kind(inside) {
        return begin_place(alloc, parts);
    }
    let begin = TreeBegin::Frame(open_operator(alloc, name)?);
    Ok(Some(BeginRead { begin, taken: 2 }))
}

/// Reads what begins, and how many parts it takes; `None` where nothing of a specimen begins.
pub fn begins(alloc: Global, parts: &[&[u8]]) -> Result<Option<BeginRead>, AllocError>
    ensures { IfOk result (λ o. MatchOption o (HasNoBegin (texts parts.now)) (IsBeginRead (texts parts.now))) }
{
    let Some((first, rest)) = parts.split_first() else {
        return Ok(None);
    };
    if is(first, "[") {
        return begin_list(alloc, rest);
    }
    if is_own_name(first) {
        return begin_operator(alloc, parts);
    }
    let Some(part) = literal(alloc, first)? else {
        return Ok(None);
    };
    let begin = TreeBegin::Part(part);
    Ok(Some(BeginRead { begin, taken: 1 }))
}

/// Reads what follows a part or an element, and how many parts it takes; `None` where nothing does that may follow.
pub fn finishes(alloc: Global, parts: &[&[u8]]) -> Result<Option<FinishRead>, AllocError>
    ensures { IfOk result (λ o. MatchOption o (HasNoFinish (texts parts.now)) (IsFinishRead (texts parts.now))) }
{
    if behind(parts, ",").is_some() {
        let finish = TreeFinish::Comma;
        return Ok(Some(FinishRead { finish, taken: 1 }));
    }
    if behind(parts, ")").is_some() {
        let finish = TreeFinish::Close;
        return Ok(Some(FinishRead { finish, taken: 1 }));
    }
    let Some(read) = list_end(alloc, parts)? else {
        return Ok(None);
    };
    let EndRead { end, taken } = read;
    let finish = TreeFinish::End(end);
    Ok(Some(FinishRead { finish, taken }))
}
