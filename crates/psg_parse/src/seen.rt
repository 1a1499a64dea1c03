//! What the grammar sees of a token.
ghost use Rattle.std.specs.Prelude.{◌≡◌, ◌∷◌, [], chars};
ghost use Rattle.std.specs.List.{list_all};
ghost use Rattle.psg_terms.specs.Names.{is_among};
ghost use Rattle.psg_terms.specs.Words.{goes_on_word};
ghost use Rattle.psg_lexis.specs.Classes.{is_solo, is_symbol};
ghost use Rattle.psg_class.specs.Terminals.{fixed_if, is_word, is_run, terminal_of, word_terminal};
ghost use Rattle.psg_grammar.specs.WellFormed.{fixed_words};
ghost use Rattle.psg_parse.specs.Seen.{terminal_seen};

use psg_grammar::Definition;
use psg_lexis::{Lexis, Token, is_symbol};
use psg_terms::{goes_on_word, starts_word};

/// A token's terminal, with the texts that the token holds.
#[derive(Clone, Copy)]
pub(crate) enum Seen<'a> {
    Fixed(&'a str),
    Name,
    Number,
    Text,
    Hole(&'a str),
    More,
    /// A token that no text has.
    Stray,
}

/// Returns what the grammar sees of the token, where the lexis has the fixed words of the definition. It takes a step
/// for each byte of a word or a run of symbols.
pub(crate) fn see<'a>(definition: &Definition, lexis: &Lexis, token: &'a Token) -> Seen<'a>
    requires { lexis.now ≡ fixed_words definition.now }
    ensures { terminal_seen result ≡ terminal_of definition.now token.now }
{
    match token {
        Token::Word(text) => see_word(definition, lexis, text.as_str()),
        Token::Number(_) => Seen::Number,
        Token::Text(_) => Seen::Text,
        Token::Solo(byte) => see_solo(*byte),
        Token::Symbol(text) => see_run(text.as_str()),
        Token::Hole(name) => Seen::Hole(name.as_str()),
        Token::More => Seen::More,
    }
}

fn see_word<'a>(definition: &Definition, lexis: &Lexis, text: &'a str) -> Seen<'a>
    requires { lexis.now ≡ fixed_words definition.now }
    ensures { terminal_seen result
        ≡ word_terminal text.now (is_word text.now) (is_among (fixed_words definition.now) text.now) }
{
    if !is_word(text) {
        return Seen::Stray;
    }
    if lexis.reserved(text) {
        return Seen::Fixed(text);
    }
    Seen::Name
}

fn see_solo<'a>(byte: u8) -> Seen<'a>
    ensures { terminal_seen result ≡ fixed_if (is_solo byte) (byte ∷ []) }
{
    match byte {
        b'(' => Seen::Fixed("("),
        b')' => Seen::Fixed(")"),
        b'[' => Seen::Fixed("["),
        b']' => Seen::Fixed("]"),
        b'{' => Seen::Fixed("{"),
        b'}' => Seen::Fixed("}"),
        b',' => Seen::Fixed(","),
        b';' => Seen::Fixed(";"),
        _ => Seen::Stray,
    }
}

fn see_run(text: &str) -> Seen
    ensures { terminal_seen result ≡ fixed_if (is_run text.now) text.now }
{
    if is_run(text) {
        return Seen::Fixed(text);
    }
    Seen::Stray
}

/// Says whether the text is a word.
fn is_word(text: &str) -> bool
    ensures { result ≡ is_word text.now }
{
    let mut characters = text.chars();
    match characters.next() {
        Some(first) => starts_word(first) && all_go_on(characters.as_str()),
        None => false,
    }
}

fn all_go_on(text: &str) -> bool
    ensures { result ≡ list_all goes_on_word (chars text.now) }
{
    text.chars().all(|c| goes_on_word(c))
}

/// Says whether the text is a run of symbols other than `...`.
fn is_run(text: &str) -> bool
    ensures { result ≡ is_run text.now }
{
    let bytes = text.as_bytes();
    !bytes.is_empty() && all_symbols(bytes) && text != "..."
}

fn all_symbols(bytes: &[u8]) -> bool
    ensures { result ≡ list_all is_symbol bytes.now }
{
    bytes.iter().all(|byte| is_symbol_byte(*byte))
}

fn is_symbol_byte(byte: u8) -> bool
    ensures { result ≡ is_symbol byte }
{
    is_symbol(byte as char)
}
