//! The words that a command's parts are written as.
ghost use Rattle.std.specs.Prelude.{◌≡◌, ◌↔◌, IfOk, IsTrue};
ghost use Rattle.std.specs.Option.{option_map};
ghost use Rattle.psg_script.specs.Forms.{IsName, IsWord, goes_on_name};
ghost use Rattle.std.specs.List.{AllByRecursion};
ghost use Rattle.psg_script.specs.Reading.{Reads, IsNumeral, IsNumeralUpTo, IsPlaceWord, IsNameWord, IsFileWord};
ghost use Rattle.psg_script.specs.Reading.{IsStepsText, IsPlacedName};

use crate::command::Where;
use psg_terms::Txt;
use psg_tree::Path;
use std::alloc::{AllocError, Global};

/// Returns the number that a word is the decimal of: digits, with no zero before others, below 2^32. `None` for any
/// other word.
pub fn read_number(word: &str) -> Option<u32>
    ensures { Reads IsNumeral word.now result }
{
    if word.starts_with('0') {
        return if word == "0" { Some(0) } else { None };
    }
    if word.starts_with('+') {
        return None;
    }
    word.parse().ok()
}

/// Gives the number from 1 to `most` that the word is the decimal of; `None` where it is the decimal of no such number.
/// A decimal has no sign, and no zero before other digits.
pub fn read_up_to(most: u32, word: &str) -> Option<u32>
    ensures { Reads (IsNumeralUpTo most) word.now result }
{
    let number = read_number(word)?;
    if 1 <= number && number <= most {
        Some(number)
    } else {
        None
    }
}

/// Says whether all bytes are letters, digits and `_` of ASCII.
fn goes_on_as_name(bytes: &[u8]) -> bool
    ensures { IsTrue result ↔ AllByRecursion (λ b. IsTrue (goes_on_name b)) bytes.now }
{
    bytes
        .iter()
        .all(|b| b.is_ascii_alphanumeric() || *b == b'_')
}

/// Says whether a word is a name: a letter, and then at most 63 letters, digits and `_`, all of ASCII.
pub fn is_name(word: &str) -> bool
    ensures { IsTrue result ↔ IsName word.now }
{
    let Some((first, rest)) = word.as_bytes().split_first() else {
        return false;
    };
    first.is_ascii_alphabetic() && rest.len() < 64 && goes_on_as_name(rest)
}

/// Returns the name that a word is, or `None` where it is none.
pub fn read_name(alloc: Global, word: &str) -> Result<Option<Txt>, AllocError>
    ensures { IfOk result (Reads IsNameWord word.now) }
{
    if is_name(word) {
        Ok(Some(Txt::copy_of(alloc, word)?))
    } else {
        Ok(None)
    }
}

/// Returns the file that a word names: any word of at most 255 bytes. `None` for a longer one.
pub fn read_file(alloc: Global, word: &str) -> Result<Option<Txt>, AllocError>
    requires { IsWord word.now }
    ensures { IfOk result (Reads IsFileWord word.now) }
{
    if word.len() <= 255 {
        Ok(Some(Txt::copy_of(alloc, word)?))
    } else {
        Ok(None)
    }
}

/// Returns the steps that a text is written as after a first `/`: numbers with `/` between them, one or more.
fn read_steps(alloc: Global, text: &str) -> Result<Option<Vec<u32>>, AllocError>
    ensures { IfOk result (λ read. Reads IsStepsText text.now (option_map (λ steps. steps.items) read)) }
{
    let mut steps = Vec::new(alloc);
    let mut rest = text;
    while let Some((word, behind)) = rest.split_once('/') {
        let Some(step) = read_number(word) else {
            return Ok(None);
        };
        steps.push(step)?;
        rest = behind;
    }
    let Some(step) = read_number(rest) else {
        return Ok(None);
    };
    steps.push(step)?;
    Ok(Some(steps))
}

/// Returns the node that a word names: `.` the one of the cursor, `/` the top, else the one at the steps after each
/// `/`. `None` for any other word.
pub fn read_place(alloc: Global, word: &str) -> Result<Option<Where>, AllocError>
    ensures { IfOk result (Reads IsPlaceWord word.now) }
{
    if word == "." {
        return Ok(Some(Where::Cursor));
    }
    let Some(text) = word.strip_prefix('/') else {
        return Ok(None);
    };
    if text.is_empty() {
        return Ok(Some(Where::At(Path::of(alloc, &[])?)));
    }
    match read_steps(alloc, text)? {
        Some(steps) => Ok(Some(Where::At(Path::of(alloc, steps.as_slice())?))),
        None => Ok(None),
    }
}

/// Returns the place and the name that two words are, or `None` where one of them is none.
pub fn read_placed_name(
    alloc: Global,
    place: &str,
    name: &str,
) -> Result<Option<(Where, Txt)>, AllocError>
    ensures { IfOk result (Reads IsPlacedName (place.now, name.now)) }
{
    let Some(name) = read_name(alloc, name)? else {
        return Ok(None);
    };
    let Some(place) = read_place(alloc, place)? else {
        return Ok(None);
    };
    Ok(Some((place, name)))
}
