//! Which token may begin comments.
ghost use Rattle.std.specs.Prelude.{◌≡◌, ◌↔◌, IsTrue, chars};
ghost use Rattle.std.specs.List.{list_any};
ghost use Rattle.psg_lexis.specs.Classes.{is_symbol, All, begins_by};
ghost use Rattle.psg_comments.specs.Fitting.{IsFit, begins_with as begins_with_of};

use crate::splits::{begins_with, split_first};
use psg_lexis::is_symbol;
use psg_terms::Txt;

/// Says whether each character of the text is a symbol.
fn all_symbols(text: &str) -> bool
    ensures { IsTrue result ↔ All is_symbol (chars text.now) }
{
    let mut rest = text;
    while let Some((first, after)) = split_first(rest) {
        if !is_symbol(first) {
            return false;
        }
        rest = after;
    }
    true
}

/// Says whether the text begins with a symbol.
fn begins_symbol(text: &str) -> bool
    ensures { result ≡ begins_by is_symbol (chars text.now) }
{
    match split_first(text) {
        Some((first, _)) => is_symbol(first),
        None => false,
    }
}

/// Says whether one of the words begins with the token.
fn begins_word(words: &[Txt], token: &str) -> bool
    ensures { result ≡ list_any (λ word. begins_with_of (chars word) (chars token.now)) words.now }
{
    for word in words {
        if begins_with(word.as_str(), token) {
            return true;
        }
    }
    false
}

/// Says whether the token may begin comments in a language with these fixed words: it is one run of symbols, and
/// neither `...` nor one of the words begins with it. It takes a step for each character of the words at most.
pub fn is_fit(words: &[Txt], token: &str) -> bool
    ensures { IsTrue result ↔ IsFit words.now token.now }
{
    if !begins_symbol(token) || !all_symbols(token) {
        return false;
    }
    !begins_with("...", token) && !begins_word(words, token)
}
