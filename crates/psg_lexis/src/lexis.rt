//! The fixed words of a language, and which of them are reserved.
ghost use Rattle.std.specs.Prelude.{◌≡◌, ◌↔◌, IfOk, IsTrue, chars};
ghost use Rattle.psg_terms.specs.Names.{is_among};
ghost use Rattle.psg_terms.specs.Words.{IsWord};

use crate::classes::Run;
use crate::splits::{split_first, split_run};
use psg_terms::{Seq, Txt, starts_word};
use std::alloc::{AllocError, Global};
use std::collections::HashSet;
use std::marker::Model;

/// The fixed words of a language. Contracts see their list, as it was given; a look-up goes by a hashed table.
#[derive(Drop)]
pub struct Lexis {
    words: Seq<Txt>,
    table: HashSet<String>,
}

impl Model for Lexis {
    ghost use Rattle.std.specs.Prelude.{◌≡◌, List, ℕ};
    ghost use Rattle.std.specs.HashSet.{contains_text};
    ghost use Rattle.psg_terms.specs.Names.{is_among};

    ghost Value = { List (List ℕ) };

    ghost view = { λ l. l.words };

    ghost invariant = { λ l. (word : List ℕ) → contains_text l.table word ≡ is_among l.words word };
}

impl Lexis {
    /// Makes the lexis with these fixed words, of which some may occur twice. It takes one step for each byte of them.
    pub fn new(alloc: Global, words: &[Txt]) -> Result<Lexis, AllocError>
        ensures words { IfOk result (λ lexis. lexis ≡ words.now) }
    {
        let mut table = HashSet::with_capacity(alloc, words.len())?;
        let mut shared = Vec::with_capacity(alloc, words.len())?;
        for word in words {
            table.insert(String::from_str(alloc, word.as_str())?)?;
            shared.push(word.share()?)?;
        }
        Ok(Lexis {
            words: Seq::of(shared),
            table,
        })
    }

    /// Says whether the text is one of the fixed words and a word, so that it is no name.
    pub fn reserved(&self, word: &str) -> bool
        ensures exact { IsTrue result ↔ (IsTrue (is_among self.now word.now) × IsWord (chars word.now)) }
    {
        self.has(word) && is_word(word)
    }

    /// Says whether the text is one of the fixed words.
    pub(crate) fn has(&self, word: &str) -> bool
        ensures value { result ≡ is_among self.now word.now }
    {
        self.table.contains(word)
    }
}

/// Says whether the text is a word.
fn is_word(text: &str) -> bool
    ensures { IsTrue result ↔ IsWord (chars text.now) }
{
    match split_first(text) {
        Some((first, after)) => starts_word(first) && split_run(after, Run::Word).1.is_empty(),
        None => false,
    }
}
