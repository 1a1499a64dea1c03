//! A name that is no fixed word.
ghost use Rattle.std.specs.Prelude.{◌≡◌, ◌≤◌, length, length as length_of, string_bytes, IfOk};
ghost use Rattle.std.specs.List.{AllByRecursion};
ghost use Rattle.psg_class.specs.Terminals.{a_name, terminal_of, word};
ghost use Rattle.psg_stop.specs.Runs.{run as run_of};

use psg_grammar::Definition;
use psg_parse::fixed_words;
use psg_terms::Txt;
use std::alloc::{AllocError, Global};

/// Returns the length of the text, where it is greater than the number, or the number.
fn longer(length: usize, text: &Txt) -> usize
    ensures old { length ≤ result }
    ensures text { length_of text.now ≤ result }
{
    let own = text.as_str().len();
    if own > length { own } else { length }
}

/// Returns a number that none of the texts is longer than.
fn longest(texts: &[Txt]) -> usize
    ensures { AllByRecursion (λ n. length n ≤ result) texts.now }
{
    let mut longest = 0;
    for text in texts {
        let next = longer(longest, text);
        longest = next;
    }
    longest
}

/// Returns a text of `count` letters a.
fn run(alloc: Global, count: usize) -> Result<String, AllocError>
    ensures { IfOk result (λ text. string_bytes text ≡ run_of count) }
{
    let mut letters = String::with_capacity(alloc, count)?;
    for _ in 0..count {
        letters.push_str("a")?;
    }
    Ok(letters)
}

/// Returns a word that the grammar sees as a name: a run of the letter a that is longer than all fixed words.
pub(crate) fn free_name(alloc: Global, definition: &Definition) -> Result<Txt, AllocError>
    ensures { IfOk result (λ name. terminal_of definition.now (word name) ≡ a_name) }
{
    let words = fixed_words(alloc, definition)?;
    let length = longest(words.as_slice());
    let mut text = run(alloc, length)?;
    text.push_str("a")?;
    let name = Txt::of(alloc, text)?;
    Ok(name)
}
