//! What Tab makes of the word before the cursor.
ghost use Rattle.std.specs.Prelude.{◌≡◌, ◌++◌, ◌∷◌, [], ◌≤◌, IfOk, None, OnOk, Some, drop, encode_utf8_all, length, map};
ghost use Rattle.std.specs.Prelude.{reverse, string_bytes, take};
ghost use Rattle.std.specs.List.{prefix_len};
ghost use Rattle.std.specs.Option.{option_map};
ghost use Rattle.psg_prompt.specs.Completing as completing;
ghost use Rattle.psg_prompt.specs.Completing.{completion, found_from, is_first, is_letter, is_space, listed, listing};
ghost use Rattle.psg_prompt.specs.Completing.{ending_of, narrowed, rest_after, word_of, word_start, words_for};
ghost use Rattle.psg_prompt.specs.Rows.{encoded};

use crate::row::{push_drawn, reversed};
use std::alloc::{AllocError, Global};
use std::marker::Model;

/// The words that a prompt completes: those that may begin a line, and those that may follow.
#[derive(Drop)]
pub struct Words {
    first: Vec<Vec<char>>,
    others: Vec<Vec<char>>,
}

impl Model for Words {
    ghost use Rattle.std.specs.Prelude.{map};
    ghost use Rattle.psg_prompt.specs.Completing.{WordLists};

    ghost Value = { WordLists };

    ghost view = { λ w. record {
      first = map (λ word. word.items) w.first.items;
      others = map (λ word. word.items) w.others.items;
    } };
}

impl Words {
    /// Makes the words of those that may begin a line, and of those that may follow.
    pub fn new(first: Vec<Vec<char>>, others: Vec<Vec<char>>) -> Words
        ensures first { result.first ≡ map (λ word. word.items) first.items }
        ensures others { result.others ≡ map (λ word. word.items) others.items }
    {
        Words { first, others }
    }

    /// Returns what Tab types after these characters: what all words that begin so have in common, and a space after a
    /// word that is alone. Reads each word once.
    pub(crate) fn completion(&self, alloc: Global, before: &[char]) -> Result<Vec<char>, AllocError>
        ensures { IfOk result (λ text. text.items ≡ completion self.now before.now) }
    {
        let start = word_start(alloc, before)?;
        let found = found_in(alloc, &before[start..], self.words_for(before, start))?;
        ending_of(alloc, found)
    }

    /// Writes the words that begin as the word before the cursor, each with two spaces after it.
    pub(crate) fn push_listing(
        &self,
        alloc: Global,
        before: &[char],
        out: &mut String,
    ) -> Result<(), AllocError>
        ensures { OnOk result (string_bytes out.new ≡ string_bytes out.old ++ listing self.now before.now) }
    {
        let start = word_start(alloc, before)?;
        push_listed(&before[start..], self.words_for(before, start), out)
    }

    /// Returns the words for the place, where the word at the cursor begins there.
    fn words_for(&self, before: &[char], start: usize) -> &[Vec<char>]
        requires { start ≡ word_start before.now }
        ensures { map (λ word. word.items) result.now ≡ words_for self.now before.now }
    {
        let spaces = spaces(&before[..start]);
        if spaces == start {
            return self.first.as_slice();
        }
        self.others.as_slice()
    }
}

/// Returns where the word begins that ends at the cursor.
fn word_start(alloc: Global, before: &[char]) -> Result<usize, AllocError>
    ensures value { IfOk result (λ start. start ≡ word_start before.now) }
    ensures within { IfOk result (λ start. start ≤ length before.now) }
{
    let back = reversed(alloc, before)?;
    let letters = letters(back.as_slice());
    Ok(before.len() - letters)
}

/// Returns how many characters that are no spaces the text begins with.
fn letters(text: &[char]) -> usize
    ensures value { result ≡ prefix_len is_letter text.now }
    ensures within { result ≤ length text.now }
{
    for place in 0..text.len() {
        if text[place] == ' ' {
            return place;
        }
    }
    text.len()
}

/// Returns how many spaces the text begins with.
fn spaces(text: &[char]) -> usize
    ensures value { result ≡ prefix_len is_space text.now }
    ensures within { result ≤ length text.now }
{
    for place in 0..text.len() {
        if text[place] != ' ' {
            return place;
        }
    }
    text.len()
}

/// Returns what the word has after the characters that are typed, if it begins with them.
fn rest_after<'a>(typed: &[char], word: &'a [char]) -> Option<&'a [char]>
    ensures { option_map (λ rest. rest.now) result ≡ rest_after typed.now word.now }
{
    let mut rest = word;
    for place in 0..typed.len() {
        let Some((first, more)) = rest.split_first() else {
            return None;
        };
        if *first != typed[place] {
            return None;
        }
        rest = more;
    }
    Some(rest)
}

/// Returns how many characters both begin with.
fn common(one: &[char], other: &[char]) -> usize
    ensures value { result ≡ completing.common one.now other.now }
    ensures within { result ≤ length one.now }
{
    let mut count = 0;
    'same: while count < one.len() && count < other.len() {
        if one[count] != other[count] {
            return count;
        }
        count += 1;
    }
    count
}

/// What all words that were found begin with after what is typed, and whether there is only one of them.
#[derive(Drop)]
struct Found {
    text: Vec<char>,
    alone: bool,
}

impl Model for Found {
    ghost use Rattle.psg_prompt.specs.Completing.{Found as Common};

    ghost Value = { Common };

    ghost view = { λ f. record { text = f.text.items; alone = f.alone } };
}

/// Returns what was found with one more word, which has this rest.
fn narrowed(alloc: Global, old: Option<Found>, rest: &[char]) -> Result<Option<Found>, AllocError>
    ensures { IfOk result (λ found. found ≡ narrowed old (Some rest.now)) }
{
    match old {
        None => {
            let text = Vec::from_slice(alloc, rest)?;
            Ok(Some(Found { text, alone: true }))
        }
        Some(found) => {
            let mut text = found.text;
            let count = common(text.as_slice(), rest);
            text.truncate(count);
            Ok(Some(Found { text, alone: false }))
        }
    }
}

/// Returns what is found among the words for the characters that are typed.
fn found_in(alloc: Global, typed: &[char], words: &[Vec<char>]) -> Result<Option<Found>, AllocError>
    ensures { IfOk result (λ found. found ≡ found_from None typed.now (map (λ word. word.items) words.now)) }
{
    let mut found = None;
    for word in words {
        if let Some(rest) = rest_after(typed, word.as_slice()) {
            found = narrowed(alloc, found, rest)?;
        }
    }
    Ok(found)
}

/// Returns what is typed for what was found.
fn ending_of(alloc: Global, found: Option<Found>) -> Result<Vec<char>, AllocError>
    ensures { IfOk result (λ text. text.items ≡ ending_of found) }
{
    match found {
        None => Ok(Vec::new(alloc)),
        Some(found) => {
            let alone = found.alone;
            let mut text = found.text;
            if alone {
                text.push(' ')?;
            }
            Ok(text)
        }
    }
}

/// Writes the words that begin with the characters that are typed.
fn push_listed(typed: &[char], words: &[Vec<char>], out: &mut String) -> Result<(), AllocError>
    ensures { OnOk result (string_bytes out.new
        ≡ string_bytes out.old ++ listed typed.now (map (λ word. word.items) words.now)) }
{
    for word in words {
        push_if(typed, word.as_slice(), out)?;
    }
    Ok(())
}

/// Writes the word, if it begins with the characters that are typed.
fn push_if(typed: &[char], word: &[char], out: &mut String) -> Result<(), AllocError>
    ensures { OnOk result (string_bytes out.new
        ≡ string_bytes out.old ++ completing.listed_if word.now (rest_after typed.now word.now)) }
{
    match rest_after(typed, word) {
        Some(_) => push_word(word, out),
        None => Ok(()),
    }
}

/// Writes the word, and two spaces.
fn push_word(word: &[char], out: &mut String) -> Result<(), AllocError>
    ensures { OnOk result (string_bytes out.new ≡ string_bytes out.old ++ (encoded word.now ++ 32 ∷ 32 ∷ [])) }
{
    push_drawn(word, out)?;
    out.push_str("  ")?;
    Ok(())
}
