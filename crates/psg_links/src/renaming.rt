//! New names for names that are together.
ghost use Rattle.std.specs.Prelude.{◌≡◌, ◌++◌, IfOk, OnOk, chars, cond, drop, is_none, take, true};
ghost use Rattle.psg_terms.specs.Names.{is_among as is_among_of};
ghost use Rattle.psg_terms.specs.Words.{goes_on_word as goes_on_word_of, starts_word as starts_word_of};
ghost use Rattle.psg_tree.specs.WordTests.{is_word_from};
ghost use Rattle.psg_grammar.specs.Kinds.{HasKind};
ghost use Rattle.psg_program.specs.Decoding.{unmarked as unmarked_of};
ghost use Rattle.psg_ranges.specs.Forests.{Forest, ranges_in};
ghost use Rattle.psg_links.specs.Renaming as renaming;
ghost use Rattle.psg_links.specs.Renaming.{IsAnswer, IsGiven, IsTried, IsWithin};

use crate::link::{Link, is_same_link};
use crate::page::Page;
use crate::refusal::Refusal;
use crate::spot::Spot;
use psg_grammar::{Definition, Kind};
use psg_parse::fixed_words;
use psg_program::laws::one_answer;
use psg_program::unmarked;
use psg_specimen::Language;
use psg_terms::{Steps, Txt, goes_on_word, starts_word};
use std::alloc::{AllocError, Global};
use std::sync::ledger::Ledger;

/// Says whether a word may have the character at its beginning, or else after it.
fn fits_word(first: bool, ch: char) -> bool
    ensures { result ≡ cond first (starts_word_of ch) (goes_on_word_of ch) }
{
    if first {
        starts_word(ch)
    } else {
        goes_on_word(ch)
    }
}

/// Says whether the text is a word.
fn is_word(text: &str) -> bool
    ensures { result ≡ is_word_from true (chars text.now) }
{
    let mut first = true;
    for ch in text.chars() {
        if !fits_word(first, ch) {
            return false;
        }
        first = false;
    }
    !first
}

/// Says whether the text is one of the words.
fn is_among(words: &[Txt], text: &str) -> bool
    ensures { result ≡ is_among_of words.now text.now }
{
    for word in words {
        if word.as_str() == text {
            return true;
        }
    }
    false
}

/// Says whether a text can have the name: whether it is a word of at most 255 bytes that is no fixed word.
fn is_new_name(alloc: Global, definition: &Definition, new: &str) -> Result<bool, AllocError>
    ensures { IfOk result (λ so. so ≡ renaming.is_new_name definition.now new.now) }
{
    let words = fixed_words(alloc, definition)?;
    let fixed = is_among(words.as_slice(), new);
    let word = is_word(new);
    Ok(word && !fixed && new.len() <= 255)
}

/// Returns the bytes in front of the place.
fn front(bytes: &[u8], to: usize) -> &[u8]
    ensures { result.now ≡ take to bytes.now }
{
    if to < bytes.len() {
        &bytes[..to]
    } else {
        bytes
    }
}

/// Returns the bytes from the place on, none where there are fewer.
fn after(bytes: &[u8], from: usize) -> &[u8]
    ensures { result.now ≡ drop from bytes.now }
{
    if from < bytes.len() {
        &bytes[from..]
    } else {
        &[]
    }
}

/// Returns the bytes from one place up to another; none where the second one is not after the first one.
fn between(bytes: &[u8], from: usize, to: usize) -> &[u8]
    ensures { result.now ≡ renaming.between from to bytes.now }
{
    after(front(bytes, to), from)
}

/// Adds the bytes.
fn put(made: &mut Vec<u8>, bytes: &[u8]) -> Result<(), AllocError>
    ensures { OnOk result (made.new.items ≡ made.old.items ++ bytes.now) }
{
    made.extend_from_slice(bytes)?;
    Ok(())
}

/// Adds the bytes that are kept, and then the new ones.
fn put_both(made: &mut Vec<u8>, kept: &[u8], new: &[u8]) -> Result<(), AllocError>
    ensures { OnOk result (made.new.items ≡ made.old.items ++ kept.now ++ new.now) }
{
    put(made, kept)?;
    made.extend_from_slice(new)?;
    Ok(())
}

/// Returns the bytes from the place up to the spot.
fn kept_before<'a>(bytes: &'a [u8], from: usize, spot: &Spot) -> &'a [u8]
    ensures { result.now ≡ renaming.between from spot.now.start bytes.now }
{
    between(bytes, from, spot.start)
}

/// Returns where the spot ends.
fn end_of(spot: &Spot) -> usize
    ensures { result ≡ spot.now.end }
{
    spot.end
}

/// Returns the bytes with the new name at each of the spots.
fn edited(alloc: Global, bytes: &[u8], new: &[u8], spots: &[Spot]) -> Result<Vec<u8>, AllocError>
    ensures { IfOk result (λ made. made.items ≡ renaming.edited bytes.now new.now 0 spots.now) }
{
    let mut made = Vec::with_capacity(alloc, bytes.len())?;
    let mut from = 0;
    let mut rest = spots;
    while let Some((spot, more)) = rest.split_first() {
        let kept = kept_before(bytes, from, spot);
        let next = end_of(spot);
        put_both(&mut made, kept, new)?;
        from = next;
        rest = more;
    }
    let last = after(bytes, from);
    put(&mut made, last)?;
    Ok(made)
}

/// Returns the name that another one has after those together with the name have got the new one.
fn new_name<'a>(own: &Link, new: &'a str, other: &'a Link) -> &'a str
    ensures { result.now ≡ renaming.new_name own.now new.now other.now }
{
    if own.is_together(other) {
        new
    } else {
        other.name.name.as_str()
    }
}

/// Says whether the second name is the first one after that.
fn is_renamed(own: &Link, new: &str, before: &Link, after: &Link) -> bool
    ensures { result ≡ renaming.is_renamed own.now new.now before.now after.now }
{
    let name = new_name(own, new, before);
    before.name.is_at(&after.name)
        && before.name.space == after.name.space
        && name == after.name.name.as_str()
}

/// Says whether the names are the same ones after those together with the name have got the new one.
fn are_renamed(own: &Link, new: &str, before: &[Link], after: &[Link]) -> bool
    ensures { result ≡ renaming.are_renamed own.now new.now before.now after.now }
{
    let mut rest = before;
    let mut others = after;
    while let Some((first, more)) = rest.split_first() {
        let Some((other, left)) = others.split_first() else {
            return false;
        };
        let so = is_renamed(own, new, first, other);
        if !so {
            return false;
        }
        rest = more;
        others = left;
    }
    others.is_empty()
}

/// Says whether each name is linked to the place to which that of the same number is.
fn are_linked_alike(before: &[Link], after: &[Link]) -> bool
    ensures { result ≡ renaming.are_linked_alike before.now after.now }
{
    let mut rest = before;
    let mut others = after;
    while let Some((first, more)) = rest.split_first() {
        let Some((other, left)) = others.split_first() else {
            return true;
        };
        let so = is_same_link(&first.declaration, &other.declaration);
        if !so {
            return false;
        }
        rest = more;
        others = left;
    }
    true
}

/// Returns why the names after the new name are not those that are wanted, by the names before it, if they are not.
fn within(own: &Link, new: &str, before: &[Link], after: &[Link]) -> Option<Refusal>
    ensures { IsWithin own.now new.now before.now after.now result }
{
    let renamed = are_renamed(own, new, before, after);
    if !renamed {
        return Some(Refusal::Unread);
    }
    let alike = are_linked_alike(before, after);
    if !alike {
        return Some(Refusal::Relinked);
    }
    None
}

/// Returns why the text can't be the one with the new name, if it can't. It reads the text.
fn tried<L: Ledger>(
    alloc: Global,
    language: &Language,
    kind: Kind,
    text: &[u8],
    own: &Link,
    new: &str,
    links: &[Link],
    steps: &mut Steps<L>,
) -> Result<Option<Refusal>, AllocError>
    requires kind { HasKind language.now kind }
    ensures { IfOk result (IsTried language.now kind text.now own.now new.now links.now) }
{
    let definition = language.definition();
    one_answer(definition);
    let read = Page::of(alloc, language, kind, text, steps)?;
    let Some(page) = read else {
        return Ok(Some(Refusal::Unread));
    };
    let why = within(own, new, links, page.links.as_slice());
    Ok(why)
}

/// Returns where the names are that are together with the name of the link, or why they get no new name.
fn given<L: Ledger>(
    alloc: Global,
    language: &Language,
    kind: Kind,
    bytes: &[u8],
    page: &Page,
    link: &Link,
    new: &str,
    steps: &mut Steps<L>,
) -> Result<Result<Vec<Spot>, Refusal>, AllocError>
    requires kind { HasKind language.now kind }
    ensures { IfOk result (λ answer. (f : Forest) → ranges_in f ≡ page.now.ranges.nodes
        → IsGiven language.now kind
        (unmarked_of bytes.now) page.now.tokens.items f page.now.links.items link.now new.now
        answer) }
{
    let definition = language.definition();
    let named = is_new_name(alloc, definition, new)?;
    if !named {
        return Ok(Err(Refusal::NewName));
    }
    let spots = page.together(alloc, link)?;
    let own = unmarked(bytes);
    let word = new.as_bytes();
    let places = spots.as_slice();
    let wanted = edited(alloc, own, word, places)?;
    let text = wanted.as_slice();
    let links = page.links.as_slice();
    let why = tried(alloc, language, kind, text, link, new, links, steps)?;
    match why {
        Some(refusal) => Ok(Err(refusal)),
        None => Ok(Ok(spots)),
    }
}

/// Says whether the name is linked to the outside.
fn is_outside(link: &Link) -> bool
    ensures { result ≡ is_none link.now.declaration }
{
    match &link.declaration {
        Some(_) => false,
        None => true,
    }
}

/// Returns where the names are that are together with the name at the byte, so that each of them is to be replaced by
/// the new name. The new name is a word of at most 255 bytes that is no fixed word, the text with it is read as the
/// program with the new names, and each name is linked there to the place to which it was linked before. Where that
/// can't be, the refusal says why; a name that is linked to the outside gets no new name.
///
/// The page is one of the bytes. It fails where memory runs out. It costs a reading of the text with the new name and
/// its links, as `Page::of` does.
pub fn rename<L: Ledger>(
    alloc: Global,
    language: &Language,
    kind: Kind,
    bytes: &[u8],
    page: &Page,
    byte: usize,
    new: &str,
    steps: &mut Steps<L>,
) -> Result<Result<Vec<Spot>, Refusal>, AllocError>
    requires kind { HasKind language.now kind }
    ensures { IfOk result (λ answer. (f : Forest) → ranges_in f ≡ page.now.ranges.nodes
        → IsAnswer language.now kind (unmarked_of bytes.now) page.now.tokens.items f page.now.links.items byte new.now
        answer) }
{
    let Some((link, _)) = page.covering(byte) else {
        return Ok(Err(Refusal::NoName));
    };
    let outside = is_outside(link);
    if outside {
        return Ok(Err(Refusal::Outside));
    }
    let answer = given(alloc, language, kind, bytes, page, link, new, steps)?;
    Ok(answer)
}
