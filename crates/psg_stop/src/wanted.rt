//! What may be written at a place of a text.
ghost use Rattle.std.specs.Prelude.{◌≡◌, ◌++◌, IfOk, MatchOption, OnOk, map};
ghost use Rattle.psg_class.specs.Terminals.{a_name, terminal_of, word};
ghost use Rattle.psg_parse.specs.Onward.{HasToken};
ghost use Rattle.psg_parse.specs.Tables.{IsParseTable};
ghost use Rattle.psg_stop.specs.Wanted.{all_terminals, hole_terminal, other_terminals, wanted_terminal};
ghost use Rattle.psg_stop.specs.Wanted.{wanted_terminals, word_terminal};

use psg_grammar::{Definition, Phylum};
use psg_lexis::Token;
use psg_parse::{ParseTable, fixed_words, word_token};
use psg_terms::Txt;
use std::alloc::{AllocError, Global};

/// A kind of token that may be written.
#[derive(Debug, Drop)]
pub enum Wanted {
    /// A fixed word, a separator or a bracket.
    Fixed(Txt),
    /// A word that is not fixed.
    Name,
    /// A number.
    Number,
    /// A quoted text.
    Text,
    /// The placeholder of a phylum, by its name.
    Hole(Txt),
    /// The mark `...`.
    More,
}

impl Wanted {
    /// Returns the same kind of token, which shares the text.
    pub(crate) fn share(&self) -> Result<Wanted, AllocError>
        ensures { IfOk result (λ same. wanted_terminal same ≡ wanted_terminal self.now) }
    {
        Ok(match self {
            Wanted::Fixed(text) => Wanted::Fixed(text.share()?),
            Wanted::Name => Wanted::Name,
            Wanted::Number => Wanted::Number,
            Wanted::Text => Wanted::Text,
            Wanted::Hole(phylum) => Wanted::Hole(phylum.share()?),
            Wanted::More => Wanted::More,
        })
    }
}

/// Collects all that a token of a tree can be. A fixed word may be in the list twice.
pub(crate) fn candidates(alloc: Global, definition: &Definition) -> Result<Vec<Wanted>, AllocError>
    ensures { IfOk result (λ all. wanted_terminals all.items ≡ all_terminals definition.now) }
{
    let words = fixed_words(alloc, definition)?;
    let mut all = others(alloc)?;
    add_words(&mut all, words.as_slice())?;
    add_holes(&mut all, definition.phyla.as_slice())?;
    Ok(all)
}

/// Collects the brackets, and what is the same in each definition.
fn others(alloc: Global) -> Result<Vec<Wanted>, AllocError>
    ensures { IfOk result (λ all. wanted_terminals all.items ≡ other_terminals) }
{
    let open = Txt::copy_of(alloc, "(")?;
    let close = Txt::copy_of(alloc, ")")?;
    let all = vec![in alloc;
        Wanted::Fixed(open),
        Wanted::Fixed(close),
        Wanted::Name,
        Wanted::Number,
        Wanted::Text,
        Wanted::More,
    ]?;
    Ok(all)
}

fn add_words(all: &mut Vec<Wanted>, words: &[Txt]) -> Result<(), AllocError>
    ensures { OnOk result (wanted_terminals all.new.items
        ≡ wanted_terminals all.old.items ++ map word_terminal words.now) }
{
    for word in words {
        let text = word.share()?;
        all.push(Wanted::Fixed(text))?;
    }
    Ok(())
}

fn add_holes(all: &mut Vec<Wanted>, phyla: &[Phylum]) -> Result<(), AllocError>
    ensures { OnOk result (wanted_terminals all.new.items
        ≡ wanted_terminals all.old.items ++ map hole_terminal phyla.now) }
{
    for phylum in phyla {
        let name = phylum.name.share()?;
        all.push(Wanted::Hole(name))?;
    }
    Ok(())
}

/// Returns a token that the grammar sees as this, if there is one. The name is a word that is not fixed.
pub(crate) fn token_of(
    alloc: Global,
    definition: &Definition,
    table: &ParseTable,
    name: &Txt,
    wanted: &Wanted,
) -> Result<Option<Token>, AllocError>
    requires table { IsParseTable definition.now table.now }
    requires name { terminal_of definition.now (word name.now) ≡ a_name }
    ensures { IfOk result (λ found. MatchOption found (HasToken definition.now (wanted_terminal wanted.now) → ⊥)
        (λ token. terminal_of definition.now token ≡ wanted_terminal wanted.now)) }
{
    match wanted {
        Wanted::Fixed(text) => {
            let found = word_token(definition, table, text)?;
            Ok(found)
        }
        Wanted::Name => {
            let own = name.share()?;
            Ok(Some(Token::Word(own)))
        }
        Wanted::Number => Ok(Some(Token::Number(0))),
        Wanted::Text => {
            let empty = Txt::copy_of(alloc, "")?;
            Ok(Some(Token::Text(empty)))
        }
        Wanted::Hole(phylum) => {
            let own = phylum.share()?;
            Ok(Some(Token::Hole(own)))
        }
        Wanted::More => Ok(Some(Token::More)),
    }
}
