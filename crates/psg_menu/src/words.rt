//! Names that nothing else has.
ghost use Rattle.std.specs.Prelude.{◌≡◌, ◌≤◌, ◌∷◌, [], ℕ, length, length as length_of, string_bytes, IfOk};
ghost use Rattle.std.specs.List.{AllByRecursion};
ghost use Rattle.psg_grammar.specs.WellFormed.{fixed_words, separators, operator_words, words_in};
ghost use Rattle.psg_menu.specs.Trials.{AreNewWords, run as run_of};

use psg_grammar::{Definition, Item, ListKind, Operator};
use psg_terms::Txt;
use std::alloc::{AllocError, Global};

/// Returns the length of the text, where it is greater than the number, or the number.
fn longer(length: usize, text: &Txt) -> usize
    ensures old { length ≤ result }
    ensures text { length_of text.now ≤ result }
{
    let own = text.as_str().len();
    if own > length { own } else { length }
}

/// Returns a number that no name is longer than, and that is not less than the one given.
fn longest_name(least: usize, names: &[Txt]) -> usize
    ensures least { least ≤ result }
    ensures names { AllByRecursion (λ n. length n ≤ result) names.now }
{
    let mut longest = least;
    for name in names {
        let next = longer(longest, name);
        longest = next;
    }
    longest
}

/// Returns the length of the item's word, where it has one that is longer than the number, or the number.
fn longer_item(least: usize, item: &Item) -> usize
    ensures least { least ≤ result }
    ensures words { AllByRecursion (λ n. length n ≤ result) (words_in (item.now ∷ [])) }
{
    match item {
        Item::Word(word) => {
            let own = longer(least, word);
            own
        }
        _ => least,
    }
}

/// Returns a number that no word among the items is longer than, and that is not less than the one given.
fn longest_word(least: usize, items: &[Item]) -> usize
    ensures least { least ≤ result }
    ensures words { AllByRecursion (λ n. length n ≤ result) (words_in items.now) }
{
    let mut longest = least;
    for item in items {
        let next = longer_item(longest, item);
        longest = next;
    }
    longest
}

/// Returns a number that no word of the operators is longer than, and that is not less than the one given.
fn longest_in_operators(least: usize, operators: &[Operator]) -> usize
    ensures least { least ≤ result }
    ensures words { AllByRecursion (λ n. length n ≤ result) (operator_words operators.now) }
{
    let mut longest = least;
    for operator in operators {
        let items = operator.items.as_slice();
        let next = longest_word(longest, items);
        longest = next;
    }
    longest
}

/// Returns a number that no separator of the lists is longer than, and that is not less than the one given.
fn longest_separator(least: usize, lists: &[ListKind]) -> usize
    ensures least { least ≤ result }
    ensures words { AllByRecursion (λ n. length n ≤ result) (separators lists.now) }
{
    let mut longest = least;
    for list in lists {
        let next = longer(longest, &list.separator);
        longest = next;
    }
    longest
}

/// Returns a number that none of the names is longer than, nor a fixed word of the definition.
pub(crate) fn longest(definition: &Definition, used: &[Txt]) -> usize
    ensures used { AllByRecursion (λ n. length n ≤ result) used.now }
    ensures fixed { AllByRecursion (λ n. length n ≤ result) (fixed_words definition.now) }
{
    let names = longest_name(0, used);
    let operators = definition.operators.as_slice();
    let words = longest_in_operators(names, operators);
    let lists = definition.lists.as_slice();
    let whole = longest_separator(words, lists);
    whole
}

/// Returns a text of `count` letters a.
fn run(alloc: Global, count: usize) -> Result<String, AllocError>
    ensures { IfOk result (λ text. string_bytes text ≡ run_of count) }
{
    let mut letters = String::with_capacity(alloc, count)?;
    for _ in 0..count {
        letters.push_str("a")?;
    }
    Ok(letters)
}

/// Makes `count` names, all different, that are longer than `longest`, which none of `used` and no fixed word is longer
/// than: runs of the letter a, the shortest first. They are always the same for the same numbers. The cost is their
/// length.
pub(crate) fn new_words(
    alloc: Global,
    definition: &Definition,
    used: &[Txt],
    longest: usize,
    count: usize,
) -> Result<Vec<Txt>, AllocError>
    requires used { AllByRecursion (λ n. length n ≤ longest) used.now }
    requires fixed { AllByRecursion (λ n. length n ≤ longest) (fixed_words definition.now) }
    ensures many { IfOk result (λ words. length words.items ≡ count) }
    ensures new { IfOk result (λ words. AreNewWords definition.now used.now words.items) }
{
    let mut text = run(alloc, longest)?;
    let mut words = Vec::with_capacity(alloc, count)?;
    for _ in 0..count {
        text.push_str("a")?;
        let now = text.as_str();
        let word = Txt::copy_of(alloc, now)?;
        words.push(word)?;
    }
    Ok(words)
}
