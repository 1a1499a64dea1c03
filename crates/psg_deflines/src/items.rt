//! Operators' items and headers from parts of a line.
ghost use Rattle.std.specs.Prelude.{ℕ, ◌≡◌, ◌++◌, codes, ◌-◌, IfOk, MatchOption, ◌∷◌, [], ◌+◌, ◌≤◌};
ghost use Rattle.psg_grammar.specs.Sound.{IsLevel, IsBinding};
ghost use Rattle.psg_deflines.specs.Parts.{texts};
ghost use Rattle.psg_terms.specs.Names.{Name};
ghost use Rattle.psg_grammar.specs.Sound.{IsKindName};
ghost use Rattle.psg_deflines.specs.Quotes.{HasNoQuote};
ghost use Rattle.psg_deflines.specs.Forms.{level_parts, item_part, IsSpaceName, tag};
ghost use Rattle.psg_deflines.specs.FormReads.{IsItemPart, HasNoItem, IsWordItem, HasNoWordItem, HasNoNameItem};
ghost use Rattle.psg_deflines.specs.FormReads.{AreItemParts, HasNoItems, IsHeaderRead, HasNoHeader, IsLevelRead};
ghost use Rattle.psg_deflines.specs.FormReads.{HasNoLevelRead, HasNoLevel};
ghost use Rattle.psg_deflines.specs.Only.{IsOnly};

use crate::lines::LineItem;
use crate::names::{is, kind_name};
use crate::quotes::quoted_text;
use crate::spaces::space_behind;
use psg_grammar::Level;
use std::alloc::{AllocError, Global};

/// Returns the item that has a word of its own.
fn word_item(part: &[u8]) -> Option<LineItem>
    ensures { MatchOption result (HasNoWordItem part.now) (λ x. IsWordItem x × (item_part x ≡ part.now)) }
{
    if is(part, "number") {
        Some(LineItem::Number)
    } else if is(part, "text") {
        Some(LineItem::Text)
    } else if is(part, "space") {
        Some(LineItem::Space)
    } else if is(part, "tight") {
        Some(LineItem::Tight)
    } else if is(part, "line") {
        Some(LineItem::Line)
    } else if is(part, "in") {
        Some(LineItem::In)
    } else if is(part, "out") {
        Some(LineItem::Out)
    } else {
        None
    }
}

/// Returns the name position that declares, if the part is one.
fn declares_item(alloc: Global, part: &[u8]) -> Result<Option<LineItem>, AllocError>
    ensures { IfOk result (λ o. MatchOption o ((n : Name) → IsSpaceName n → part.now ≡ codes "declares" ++ tag n → ⊥)
        (IsOnly (IsItemPart part.now))) }
{
    match space_behind(alloc, part, "declares")? {
        Some(space) => Ok(Some(LineItem::Declares(space))),
        None => Ok(None),
    }
}

/// Returns the name position that the part is.
fn name_item(alloc: Global, part: &[u8]) -> Result<Option<LineItem>, AllocError>
    ensures { IfOk result (λ o. MatchOption o (HasNoNameItem part.now) (IsOnly (IsItemPart part.now))) }
{
    match space_behind(alloc, part, "refers")? {
        Some(space) => Ok(Some(LineItem::Refers(space))),
        None => declares_item(alloc, part),
    }
}

/// Returns the quoted word that the part is.
fn quoted_item(alloc: Global, part: &[u8]) -> Result<Option<LineItem>, AllocError>
    ensures { IfOk result (λ o. MatchOption o (HasNoQuote part.now) (IsOnly (IsItemPart part.now))) }
{
    match quoted_text(alloc, part)? {
        Some(word) => Ok(Some(LineItem::Word(word))),
        None => Ok(None),
    }
}

/// Returns the slot or the quoted word that the part is.
fn slot_item(alloc: Global, part: &[u8]) -> Result<Option<LineItem>, AllocError>
    ensures { IfOk result (λ o. MatchOption o ((IsKindName part.now → ⊥) × HasNoQuote part.now)
        (IsOnly (IsItemPart part.now))) }
{
    match kind_name(alloc, part)? {
        Some(name) => Ok(Some(LineItem::Slot(name))),
        None => quoted_item(alloc, part),
    }
}

/// Returns the item that the part is, if it is none with a word of its own.
fn other_item(alloc: Global, part: &[u8]) -> Result<Option<LineItem>, AllocError>
    ensures { IfOk result (λ o. MatchOption o (HasNoNameItem part.now × (IsKindName part.now → ⊥) × HasNoQuote part.now)
        (IsOnly (IsItemPart part.now))) }
{
    match name_item(alloc, part)? {
        Some(item) => Ok(Some(item)),
        None => slot_item(alloc, part),
    }
}

/// Returns an item of an operator.
fn line_item(alloc: Global, part: &[u8]) -> Result<Option<LineItem>, AllocError>
    ensures { IfOk result (λ o. MatchOption o (HasNoItem part.now) (IsOnly (IsItemPart part.now))) }
{
    match word_item(part) {
        Some(item) => Ok(Some(item)),
        None => other_item(alloc, part),
    }
}

/// Reads an item from each of the parts; `None` where one is no item.
pub fn line_items(alloc: Global, parts: &[&[u8]]) -> Result<Option<Vec<LineItem>>, AllocError>
    ensures { IfOk result (λ o. MatchOption o (HasNoItems (texts parts.now))
        (λ v. IsOnly (AreItemParts (texts parts.now)) v.items)) }
{
    let mut items = Vec::new(alloc);
    for part in parts {
        let Some(item) = line_item(alloc, part)? else {
            return Ok(None);
        };
        items.push(item)?;
    }
    Ok(Some(items))
}

/// What is between an operator's phylum and its items, the sign `=` included, and how many parts it takes.
#[derive(Drop)]
pub struct HeaderRead {
    /// Whether the word `scope` is there.
    pub scope: bool,
    /// The form and the level; `Plain` where there is none.
    pub level: Level,
    /// The number of parts up to the first item.
    pub taken: usize,
}

/// Returns the digit from 1 to 9 that is the part.
fn binding(part: &[u8]) -> Option<u8>
    ensures { MatchOption result ((n : ℕ) → IsBinding n → part.now ≡ (48 + n) ∷ [] → ⊥)
        (λ n. IsBinding n × (part.now ≡ (48 + n) ∷ [])) }
{
    match part {
        [digit @ b'1'..=b'9'] => Some(*digit - b'0'),
        _ => None,
    }
}

/// Returns the level that two parts are.
fn level(word: &[u8], digit: &[u8]) -> Option<Level>
    ensures { MatchOption result (HasNoLevel word.now digit.now)
        (λ l. IsLevel l × (level_parts l ≡ word.now ∷ digit.now ∷ [])) }
{
    let n = binding(digit)?;
    if is(word, "prefix") {
        Some(Level::Prefix(n))
    } else if is(word, "postfix") {
        Some(Level::Postfix(n))
    } else if is(word, "infixl") {
        Some(Level::InfixLeft(n))
    } else if is(word, "infixr") {
        Some(Level::InfixRight(n))
    } else if is(word, "infix") {
        Some(Level::InfixNone(n))
    } else {
        None
    }
}

/// Returns the level with which the parts begin, and how many parts it takes with the sign `=` after it.
fn level_and_equals(parts: &[&[u8]]) -> Option<(Level, usize)>
    ensures { MatchOption result (HasNoLevelRead (texts parts.now)) (λ r. IsLevelRead (texts parts.now) r.0 r.1) }
{
    match parts {
        [equals, ..] if is(equals, "=") => Some((Level::Plain, 1)),
        [word, digit, equals, ..] if is(equals, "=") => Some((level(word, digit)?, 3)),
        _ => None,
    }
}

/// Reads what is between an operator's phylum and its items: perhaps `scope`, perhaps a level, and the sign `=`.
pub fn header(parts: &[&[u8]]) -> Option<HeaderRead>
    ensures { MatchOption result (HasNoHeader (texts parts.now))
        (λ r. IsHeaderRead (texts parts.now) r.scope r.level r.taken) }
{
    let (first, rest) = parts.split_first()?;
    if is(first, "scope") {
        let (level, taken) = level_and_equals(rest)?;
        let taken = taken + 1;
        return Some(HeaderRead {
            scope: true,
            level,
            taken,
        });
    }
    let (level, taken) = level_and_equals(parts)?;
    Some(HeaderRead {
        scope: false,
        level,
        taken,
    })
}
