//! Which names a definition allows.
ghost use Rattle.std.specs.Prelude.{◌≡◌, ◌↔◌, true, cond, IsTrue};
ghost use Rattle.std.specs.Str.{chars};
ghost use Rattle.psg_terms.specs.Names.{is_among};
ghost use Rattle.psg_terms.specs.Words.{starts_word, goes_on_word};
ghost use Rattle.psg_grammar.specs.WellFormed.{words_in, operator_words, separators, fixed_words, IsName};
ghost use Rattle.psg_tree.specs.WordTests.{is_word_from};

use psg_grammar::{Definition, Item, ListKind, Operator};
use psg_terms::{goes_on_word, starts_word};

/// Says whether a word may have the character at its beginning, or else after it.
fn fits_word(first: bool, ch: char) -> bool
    ensures { result ≡ cond first (starts_word ch) (goes_on_word ch) }
{
    if first {
        starts_word(ch)
    } else {
        goes_on_word(ch)
    }
}

/// Says whether the text is a word.
fn is_word(text: &str) -> bool
    ensures { result ≡ is_word_from true (chars text.now) }
{
    let mut first = true;
    for ch in text.chars() {
        if !fits_word(first, ch) {
            return false;
        }
        first = false;
    }
    !first
}

/// Says whether the text is one of the words among the items.
fn is_item_word(items: &[Item], text: &str) -> bool
    ensures { result ≡ is_among (words_in items.now) text.now }
{
    for item in items {
        if let Item::Word(word) = item {
            if word.as_str() == text {
                return true;
            }
        }
    }
    false
}

/// Says whether the text is one of the words of the operators.
fn is_operator_word(operators: &[Operator], text: &str) -> bool
    ensures { result ≡ is_among (operator_words operators.now) text.now }
{
    for operator in operators {
        if is_item_word(operator.items.as_slice(), text) {
            return true;
        }
    }
    false
}

/// Says whether the text is one of the separators of the lists.
fn is_separator(lists: &[ListKind], text: &str) -> bool
    ensures { result ≡ is_among (separators lists.now) text.now }
{
    for list in lists {
        if list.separator.as_str() == text {
            return true;
        }
    }
    false
}

/// Says whether the text is a word of the operators or a separator.
fn is_fixed(definition: &Definition, text: &str) -> bool
    ensures { result ≡ is_among (fixed_words definition.now) text.now }
{
    is_operator_word(definition.operators.as_slice(), text)
        || is_separator(definition.lists.as_slice(), text)
}

/// Says whether the text is a word that is no fixed one. It goes over all operators and lists.
pub fn is_name(definition: &Definition, text: &str) -> bool
    ensures { IsTrue result ↔ IsName definition.now text.now }
{
    if !is_word(text) {
        return false;
    }
    !is_fixed(definition, text)
}
