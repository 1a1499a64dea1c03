//! The characters of words.
ghost use Rattle.std.specs.Prelude.{◌≡◌};
ghost use Rattle.psg_terms.specs.Words.{starts_word, goes_on_word};

use unicode_ident::{is_xid_continue, is_xid_start};

/// Says whether a word may begin with the character.
pub fn starts_word(c: char) -> bool
    ensures { result ≡ starts_word c }
{
    is_xid_start(c) | (c == '_')
}

/// Says whether a word may have the character after its first one.
pub fn goes_on_word(c: char) -> bool
    ensures { result ≡ goes_on_word c }
{
    is_xid_continue(c) | (c == '_')
}
