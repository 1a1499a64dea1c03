//! Names of spaces in lines, and the version of the file that a line is of.
ghost use Rattle.std.specs.Prelude.{◌≡◌, ◌++◌, ◌↔◌, IfOk, MatchOption, IsTrue};
ghost use Rattle.std.specs.List.{list_any};
ghost use Rattle.psg_terms.specs.Names.{Name};
ghost use Rattle.psg_deflines.specs.Forms.{IsSpaceName, tag};
ghost use Rattle.psg_deflines.specs.Versions.{is_named, names_rightly, names_space, is_of};

use crate::lines::{Line, LineItem};
use crate::names::{is, own_name};
use psg_terms::Txt;
use std::alloc::{AllocError, Global};

/// Returns the name of a space after its mark; nothing is the empty name.
fn tagged(alloc: Global, behind: &[u8]) -> Result<Option<Txt>, AllocError>
    ensures { IfOk result (λ o. MatchOption o ((n : Name) → IsSpaceName n → behind.now ≡ tag n → ⊥)
        (λ n. IsSpaceName n × (behind.now ≡ tag n))) }
{
    let Some((mark, name)) = behind.split_first() else {
        let none = Txt::copy_of(alloc, "")?;
        return Ok(Some(none));
    };
    if *mark != b'@' {
        return Ok(None);
    }
    let Some(name) = own_name(alloc, name)? else {
        return Ok(None);
    };
    Ok(Some(name))
}

/// Returns the name of a space after the word, empty where the part is the word; `None` where the part is neither.
pub fn space_behind(alloc: Global, part: &[u8], word: &str) -> Result<Option<Txt>, AllocError>
    ensures { IfOk result (λ o. MatchOption o ((n : Name) → IsSpaceName n → part.now ≡ word.now ++ tag n → ⊥)
        (λ n. IsSpaceName n × (part.now ≡ word.now ++ tag n))) }
{
    if part.len() < word.len() {
        return Ok(None);
    }
    let (front, behind) = part.split_at(word.len());
    if !is(front, word) {
        return Ok(None);
    }
    let Some(name) = tagged(alloc, behind)? else {
        return Ok(None);
    };
    Ok(Some(name))
}

/// Says whether the name is not empty.
fn is_named(name: &Txt) -> bool
    ensures { result ≡ is_named name.now }
{
    !name.as_str().is_empty()
}

/// Says whether a space is named as the version wants it.
fn names_rightly(version: u32, space: &Txt) -> bool
    ensures { result ≡ names_rightly version space.now }
{
    if version == 2 {
        is_named(space)
    } else {
        !is_named(space)
    }
}

/// Says whether the item names its space.
fn names_space(item: &LineItem) -> bool
    ensures { result ≡ names_space item.now }
{
    match item {
        LineItem::Refers(space) => is_named(space),
        LineItem::Declares(space) => is_named(space),
        _ => false,
    }
}

/// Says whether one of the items names its space.
fn name_spaces(items: &[LineItem]) -> bool
    ensures { result ≡ list_any names_space items.now }
{
    items.iter().any(|item| names_space(item))
}

/// Says whether the line is of the version.
pub fn is_of(version: u32, line: &Line) -> bool
    ensures { result ≡ is_of version line.now }
{
    match line {
        Line::Space { name, .. } => names_rightly(version, name),
        Line::Operator { items, .. } => version == 2 || !name_spaces(items.as_slice()),
        Line::Declare { space, .. } => names_rightly(version, space),
        _ => true,
    }
}
