//! Names and digits of lines.
ghost use Rattle.std.specs.Prelude.{◌≡◌, ◌||◌, IsTrue, ◌↔◌, IfOk, MatchOption};
ghost use Rattle.std.specs.List.{list_all};
ghost use Rattle.std.specs.Str.{IsAscii};
ghost use Rattle.psg_grammar.specs.Sound.{goes_on_name, is_name_from, is_upper, is_lower, is_digit, is_specimen_name};
ghost use Rattle.psg_grammar.specs.Sound.{IsKindName, IsOwnName};
ghost use Rattle.psg_deflines.specs.WrittenTerms.{is_plain, is_variable_name};
ghost use Rattle.psg_deflines.specs.WrittenTrees.{is_digits};

use psg_terms::Txt;
use std::alloc::{AllocError, Global};

/// Says whether the part is the word.
pub fn is(part: &[u8], word: &str) -> bool
    ensures { IsTrue result ↔ (part.now ≡ word.now) }
{
    part == word.as_bytes()
}

/// Says whether a name goes on with the character.
fn goes_on(c: u8) -> bool
    ensures { result ≡ goes_on_name c }
{
    c.is_ascii_alphanumeric() || c == b'_'
}

/// Says whether each character is a letter, a digit or `_`.
fn all_go_on(text: &[u8]) -> bool
    ensures { result ≡ list_all goes_on_name text.now }
{
    text.iter().all(|c| goes_on(*c))
}

/// Says whether each character is a letter or a digit.
fn all_plain(text: &[u8]) -> bool
    ensures { result ≡ list_all is_plain text.now }
{
    text.iter().all(|c| c.is_ascii_alphanumeric())
}

/// Says whether each character is a lower-case letter or a digit.
fn all_of_specimen(text: &[u8]) -> bool
    ensures { result ≡ list_all (λ c. is_lower c || is_digit c) text.now }
{
    text.iter()
        .all(|c| c.is_ascii_lowercase() || c.is_ascii_digit())
}

/// Says whether each character is a digit.
fn all_digits(text: &[u8]) -> bool
    ensures { result ≡ list_all is_digit text.now }
{
    text.iter().all(|c| c.is_ascii_digit())
}

/// Says whether the part is a name of a sort, phylum or list.
pub fn is_kind_name(part: &[u8]) -> bool
    ensures { result ≡ is_name_from is_upper part.now }
{
    match part.split_first() {
        Some((first, rest)) => first.is_ascii_uppercase() && all_go_on(rest) && rest.len() <= 63,
        None => false,
    }
}

/// Says whether the part is a name of a constructor or operator.
pub fn is_own_name(part: &[u8]) -> bool
    ensures { result ≡ is_name_from is_lower part.now }
{
    match part.split_first() {
        Some((first, rest)) => first.is_ascii_lowercase() && all_go_on(rest) && rest.len() <= 63,
        None => false,
    }
}

/// Says whether the text is a variable's name, without its mark.
pub fn is_variable_name(name: &[u8]) -> bool
    ensures { result ≡ is_variable_name name.now }
{
    match name.first() {
        Some(_) => all_plain(name),
        None => false,
    }
}

/// Says whether the text is a name of a specimen, without its mark.
pub fn is_specimen_name(name: &[u8]) -> bool
    ensures { result ≡ is_specimen_name name.now }
{
    match name.first() {
        Some(_) => all_of_specimen(name),
        None => false,
    }
}

/// Says whether the part is a number.
pub fn is_digits(part: &[u8]) -> bool
    ensures { result ≡ is_digits part.now }
{
    match part.first() {
        Some(_) => all_digits(part),
        None => false,
    }
}

/// Returns ASCII bytes as a text.
pub fn ascii(part: &[u8]) -> &str
    requires { IsAscii part.now }
    ensures { result.now ≡ part.now }
{
    match str::from_utf8(part) {
        Ok(text) => text,
        Err(_) => unreachable!(),
    }
}

/// Returns the part as a name of a sort, phylum or list, if it is one.
pub fn kind_name(alloc: Global, part: &[u8]) -> Result<Option<Txt>, AllocError>
    ensures { IfOk result (λ o. MatchOption o (IsKindName part.now → ⊥) (λ t. (t ≡ part.now) × IsKindName part.now)) }
{
    if !is_kind_name(part) {
        return Ok(None);
    }
    let name = Txt::copy_of(alloc, ascii(part))?;
    Ok(Some(name))
}

/// Returns the part as a name of a constructor or operator, if it is one.
pub fn own_name(alloc: Global, part: &[u8]) -> Result<Option<Txt>, AllocError>
    ensures { IfOk result (λ o. MatchOption o (IsOwnName part.now → ⊥) (λ t. (t ≡ part.now) × IsOwnName part.now)) }
{
    if !is_own_name(part) {
        return Ok(None);
    }
    let name = Txt::copy_of(alloc, ascii(part))?;
    Ok(Some(name))
}
