//! The terminals of a definition, by number.
ghost use Rattle.std.specs.Prelude.{◌≡◌, ◌+◌, ◌^◌, ◌<◌, IfOk, IsOk, OnOk, Some, length, option_copied, string_bytes};
ghost use Rattle.std.specs.Prelude.{true};
ghost use Rattle.psg_terms.specs.Names.{is_among};
ghost use Rattle.psg_grammar.specs.WellFormed.{separators, operator_words, words_in};
ghost use Rattle.psg_class.specs.Numbers.{Grown, HasWords, IsConsistent, is_number_before, IsVocabulary};
ghost use Rattle.psg_class.specs.Numbers.{number_text, other_text, word_at, word_number};

use psg_grammar::{Definition, Item, ListKind, Operator, Phylum};
use psg_terms::{Txt, uncountable};
use std::alloc::{AllocError, Global};
use std::collections::HashMap;

/// The numbers of the terminals that no definition names.
pub(crate) const NAME: usize = 0;

pub(crate) const NUMBER: usize = 1;

pub(crate) const TEXT: usize = 2;
/// The number of the placeholder of the first phylum. The number after that of the last one is the number of `...`.
pub(crate) const HOLES: usize = 3;

/// The fixed words of a definition, each once, with their numbers. These follow the numbers of names, numbers, texts,
/// the placeholders of the phyla, and `...`.
#[derive(Drop)]
pub(crate) struct Vocabulary {
    /// The number of the first word.
    pub(crate) base: usize,
    pub(crate) words: Vec<Txt>,
    pub(crate) numbers: HashMap<String, usize>,
}

impl Vocabulary {
    /// Collects the words of all operators, the separators of all lists, and the brackets. It takes a step for each
    /// byte of them.
    pub(crate) fn of(alloc: Global, definition: &Definition) -> Result<Vocabulary, AllocError>
        ensures { IfOk result (IsVocabulary definition.now) }
    {
        let phyla = definition.phyla.as_slice().len();
        let Some(base) = phyla.checked_add(4) else {
            return Err(uncountable(phyla));
        };
        let mut vocabulary = Vocabulary {
            base,
            words: Vec::new(alloc),
            numbers: HashMap::new(alloc),
        };
        vocabulary.add_operators(alloc, definition.operators.as_slice())?;
        vocabulary.add_separators(alloc, definition.lists.as_slice())?;
        vocabulary.add(alloc, &Txt::copy_of(alloc, "(")?)?;
        vocabulary.add(alloc, &Txt::copy_of(alloc, ")")?)?;
        Ok(vocabulary)
    }

    fn add_operators(&mut self, alloc: Global, operators: &[Operator]) -> Result<(), AllocError>
        requires { IsConsistent self.old }
        ensures grown { OnOk result (Grown self.old self.new) }
        ensures words { OnOk result (HasWords self.new (operator_words operators.now)) }
    {
        for operator in operators {
            self.add_items(alloc, operator.items.as_slice())?;
        }
        Ok(())
    }

    fn add_items(&mut self, alloc: Global, items: &[Item]) -> Result<(), AllocError>
        requires { IsConsistent self.old }
        ensures grown { OnOk result (Grown self.old self.new) }
        ensures words { OnOk result (HasWords self.new (words_in items.now)) }
    {
        for item in items {
            if let Item::Word(word) = item {
                self.add(alloc, word)?;
            }
        }
        Ok(())
    }

    fn add_separators(&mut self, alloc: Global, lists: &[ListKind]) -> Result<(), AllocError>
        requires { IsConsistent self.old }
        ensures grown { OnOk result (Grown self.old self.new) }
        ensures words { OnOk result (HasWords self.new (separators lists.now)) }
    {
        for list in lists {
            self.add(alloc, &list.separator)?;
        }
        Ok(())
    }

    /// Gives the word the next number, if it has none.
    #[tactic(auto, using(crate::proofs::LargeLaws::large_sum))]
    fn add(&mut self, alloc: Global, word: &Txt) -> Result<(), AllocError>
        requires { IsConsistent self.old }
        ensures grown { OnOk result (Grown self.old self.new) }
        ensures word { OnOk result (is_among self.new.words.items word.now ≡ true) }
    {
        if self.numbers.contains_key(word.as_str()) {
            return Ok(());
        }
        let key = String::from_str(alloc, word.as_str())?;
        let count = self.words.as_slice().len();
        let Some(number) = self.base.checked_add(count) else {
            return Err(uncountable(self.base.max(count)));
        };
        self.numbers.insert(key, number)?;
        self.words.push(word.share()?)?;
        Ok(())
    }

    /// Returns the number of the word.
    pub(crate) fn number(&self, word: &str) -> Option<usize>
        requires { IsConsistent self.now }
        ensures { result ≡ word_number self.now.base self.now.words.items word.now }
    {
        self.numbers.get(word).copied()
    }

    /// Returns the number of a word that is there.
    pub(crate) fn known(&self, word: &str) -> usize
        requires consistent { IsConsistent self.now }
        requires among { is_among self.now.words.items word.now ≡ true }
        ensures { Some result ≡ word_number self.now.base self.now.words.items word.now }
    {
        match self.number(word) {
            Some(number) => number,
            None => 0,
        }
    }

    /// Returns how many terminals there are. It fails as if out of memory where 64 bits do not hold their number.
    #[tactic(auto, using(crate::proofs::LargeLaws::large_sum))]
    pub(crate) fn width(&self) -> Result<usize, AllocError>
        ensures sum { IfOk result (λ n. n ≡ self.now.base + length self.now.words.items) }
        ensures fits { self.now.base + length self.now.words.items < 2 ^ 64 → IsOk result }
    {
        let words = self.words.as_slice().len();
        match self.base.checked_add(words) {
            Some(width) => Ok(width),
            None => Err(uncountable(self.base.max(words))),
        }
    }

    /// Says whether the terminal of `number` is before that of `other` in the order in which they are named: fixed
    /// words by their bytes, and then all others by number.
    pub(crate) fn is_before(&self, number: usize, other: usize) -> bool
        ensures { result ≡ is_number_before self.now.base self.now.words.items number other }
    {
        match (self.word(number), self.word(other)) {
            (Some(word), Some(second)) => word < second,
            (Some(_), None) => true,
            (None, Some(_)) => false,
            (None, None) => number < other,
        }
    }

    /// Returns the word of the number, or `None` where the number is not that of a word.
    fn word(&self, number: usize) -> Option<&str>
        ensures { option_copied result ≡ word_at self.now.base self.now.words.items number }
    {
        if number < self.base {
            return None;
        }
        match self.words.as_slice().get(number - self.base) {
            Some(word) => Some(word.as_str()),
            None => None,
        }
    }
}

/// Returns how the terminal of the number is written.
pub(crate) fn terminal_text(
    alloc: Global,
    vocabulary: &Vocabulary,
    phyla: &[Phylum],
    number: usize,
) -> Result<String, AllocError>
    ensures { IfOk result
        (λ t. string_bytes t ≡ number_text vocabulary.now.base vocabulary.now.words.items phyla.now number) }
{
    match vocabulary.word(number) {
        Some(word) => String::from_str(alloc, word),
        None => other_text(alloc, phyla, number),
    }
}

fn other_text(alloc: Global, phyla: &[Phylum], number: usize) -> Result<String, AllocError>
    ensures { IfOk result (λ t. string_bytes t ≡ other_text phyla.now number) }
{
    if number == NAME {
        return String::from_str(alloc, "name");
    }
    if number == NUMBER {
        return String::from_str(alloc, "number");
    }
    if number == TEXT {
        return String::from_str(alloc, "text");
    }
    match phyla.get(number - HOLES) {
        Some(phylum) => {
            let mut text = String::from_str(alloc, "?")?;
            text.push_str(phylum.name.as_str())?;
            Ok(text)
        }
        None => String::from_str(alloc, "..."),
    }
}
