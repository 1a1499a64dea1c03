//! The fixed words of a definition, in the order of their bytes.
ghost use Rattle.std.specs.Prelude.{◌≡◌, ◌≤◌, IfOk, MatchOption, OnOk, insert, length};
ghost use Rattle.std.specs.Cmp.Lexicographic.{slice_cmp};
ghost use Rattle.std.specs.Ordering.{nat_cmp};
ghost use Rattle.psg_program.specs.Expected.{insert_word, with_words, words_in_order};

use psg_grammar::Definition;
use psg_parse::fixed_words;
use psg_terms::Txt;
use std::alloc::{AllocError, Global};
use std::cmp::Ordering;

/// Compares the words by their bytes.
fn order(word: &Txt, other: &Txt) -> Ordering
    ensures { result ≡ slice_cmp nat_cmp word.now other.now }
{
    word.as_str().cmp(other.as_str())
}

/// Returns the place at which the word is to be put; none where it is there.
fn place_for(words: &[Txt], word: &Txt) -> Option<usize>
    ensures { MatchOption result (insert_word word.now words.now ≡ words.now)
        (λ place. (place ≤ length words.now) × (insert_word word.now words.now ≡ insert words.now place word.now)) }
{
    let mut place = 0;
    while place < words.len() {
        match order(word, &words[place]) {
            Ordering::Less => return Some(place),
            Ordering::Equal => return None,
            Ordering::Greater => place += 1,
        }
    }
    Some(place)
}

/// Puts the word at its place, if it is not there.
fn put_word(words: &mut Vec<Txt>, word: &Txt) -> Result<(), AllocError>
    ensures { OnOk result (words.new.items ≡ insert_word word.now words.old.items) }
{
    let place = place_for(words.as_slice(), word);
    match place {
        Some(place) => {
            let own = word.share()?;
            words.insert(place, own)?;
            Ok(())
        }
        None => Ok(()),
    }
}

/// Puts each of the words at its place.
fn put_words(placed: &mut Vec<Txt>, words: &[Txt]) -> Result<(), AllocError>
    ensures { OnOk result (placed.new.items ≡ with_words placed.old.items words.now) }
{
    for word in words {
        put_word(placed, word)?;
    }
    Ok(())
}

/// Returns the fixed words of the definition and the brackets, in the order of their bytes, each once.
pub(crate) fn sorted_words(alloc: Global, definition: &Definition) -> Result<Vec<Txt>, AllocError>
    ensures { IfOk result (λ words. words.items ≡ words_in_order definition.now) }
{
    let open = Txt::copy_of(alloc, "(")?;
    let close = Txt::copy_of(alloc, ")")?;
    let mut placed = Vec::new(alloc);
    put_word(&mut placed, &open)?;
    put_word(&mut placed, &close)?;
    let words = fixed_words(alloc, definition)?;
    put_words(&mut placed, words.as_slice())?;
    Ok(placed)
}
