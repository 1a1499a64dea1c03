//! Tokens of fixed words.
ghost use Rattle.std.specs.Prelude.{◌≡◌, ◌↔◌, IfOk, IsTrue, MatchOption};
ghost use Rattle.psg_class.specs.Terminals.{fixed, terminal_of};
ghost use Rattle.psg_grammar.specs.WellFormed.{fixed_words};
ghost use Rattle.psg_parse.specs.Onward.{HasToken};
ghost use Rattle.psg_parse.specs.Tables.{IsParseTable};

use crate::seen::see;
use crate::steps::is_fixed;
use crate::tables::ParseTable;
use psg_grammar::Definition;
use psg_lexis::{Lexis, Token};
use psg_terms::Txt;
use std::alloc::AllocError;

/// Returns a token that the grammar sees as the fixed word, if there is one: a word, one of the characters that are
/// tokens by themselves, or a run of symbols. It shares the text, and fails where memory runs out. It takes a step for
/// each byte of the text.
pub fn word_token(
    definition: &Definition,
    table: &ParseTable,
    text: &Txt,
) -> Result<Option<Token>, AllocError>
    requires { IsParseTable definition.now table.now }
    ensures { IfOk result (λ found. MatchOption found (HasToken definition.now (fixed text.now) → ⊥)
        (λ token. terminal_of definition.now token ≡ fixed text.now)) }
{
    let word = Token::Word(text.share()?);
    if is_seen(definition, &table.lexis, &word, text.as_str()) {
        return Ok(Some(word));
    }
    let run = Token::Symbol(text.share()?);
    if is_seen(definition, &table.lexis, &run, text.as_str()) {
        return Ok(Some(run));
    }
    let Some(first) = text.as_str().as_bytes().first() else {
        return Ok(None);
    };
    let solo = Token::Solo(*first);
    if is_seen(definition, &table.lexis, &solo, text.as_str()) {
        return Ok(Some(solo));
    }
    Ok(None)
}

/// Says whether the grammar sees the token as the fixed word.
fn is_seen(definition: &Definition, lexis: &Lexis, token: &Token, text: &str) -> bool
    requires { lexis.now ≡ fixed_words definition.now }
    ensures { IsTrue result ↔ (terminal_of definition.now token.now ≡ fixed text.now) }
{
    is_fixed(see(definition, lexis, token), text)
}
