//! Cutting a text between its characters.
ghost use Rattle.std.specs.Prelude.{◌≡◌, [], IfNone, IfSome, chars};
ghost use Rattle.psg_terms.specs.Words.{starts_word, goes_on_word};
ghost use Rattle.psg_lexis.specs.Classes.{begins_by};
ghost use Rattle.psg_lexis.specs.Splits.{IsFirst, IsRun, takes};

use crate::classes::Run;
use psg_terms::{goes_on_word, starts_word};

/// Returns the first character of the text, and the text after it.
pub(crate) fn split_first(text: &str) -> Option<(char, &str)>
    ensures none { IfNone result (chars text.now ≡ []) }
    ensures first { IfSome result (λ parts. IsFirst text.now parts.0 parts.1.now) }
{
    let mut characters = text.chars();
    match characters.next() {
        Some(first) => Some((first, characters.as_str())),
        None => None,
    }
}

/// Says whether the text begins with the start of a word.
pub(crate) fn word_begins(text: &str) -> bool
    ensures { result ≡ begins_by starts_word (chars text.now) }
{
    match split_first(text) {
        Some((first, _)) => starts_word(first),
        None => false,
    }
}

/// Says whether the text begins with a character that goes on a word.
pub(crate) fn word_goes_on(text: &str) -> bool
    ensures { result ≡ begins_by goes_on_word (chars text.now) }
{
    match split_first(text) {
        Some((first, _)) => goes_on_word(first),
        None => false,
    }
}

/// Returns the longest run at the beginning of the text, which may be empty, and the text after it.
pub(crate) fn split_run(text: &str, run: Run) -> (&str, &str)
    ensures run { IsRun (takes run) text.now result.0.now result.1.now }
{
    let mut rest = text;
    while let Some((first, after)) = split_first(rest) {
        if !run.takes(first) {
            break;
        }
        rest = after;
    }
    text.split_at(text.len() - rest.len())
}
