//! The first line of a text, and the words of a head.
ghost use Rattle.std.specs.Prelude.{◌≡◌, ◌≢◌, ◌∷◌, ◌++◌, ◌⊎◌, ◌↔◌, ℕ, List, IfNone, IfSome, IsTrue, codes};
ghost use Rattle.std.specs.List.{AllByRecursion, before_first, after_first};
ghost use Rattle.std.specs.Str.Lines.{strip_carriage_return};
ghost use Rattle.psg_script.specs.Forms.{IsInWord, IsName, IsWord};
ghost use Rattle.psg_library.specs.Heads.{IsHead, first_line, is_feed, is_in_word, text_in};

use psg_script::is_name;

/// Cuts a text into its first line, without the line feed, and what is after the line feed.
fn cut_line(text: &str) -> (&str, &str)
    ensures line { result.0.now ≡ before_first is_feed text.now }
    ensures rest { result.1.now ≡ after_first is_feed text.now }
{
    match text.split_once('\n') {
        Some(parts) => parts,
        None => (text, ""),
    }
}

/// Returns the line without one carriage return at its end.
fn without_return(line: &str) -> &str
    ensures { result.now ≡ strip_carriage_return line.now }
{
    match line.strip_suffix('\r') {
        Some(front) => front,
        None => line,
    }
}

/// Returns the first line of a text, without its line feed and one carriage return, and what is after the line feed.
pub(crate) fn first_line(text: &str) -> (&str, &str)
    ensures line { result.0.now ≡ first_line text.now }
    ensures rest { result.1.now ≡ text_in text.now }
{
    let (line, rest) = cut_line(text);
    (without_return(line), rest)
}

/// Returns what is before the first space of a text and what is after it, or `None` where there is no space.
fn cut_word(text: &str) -> Option<(&str, &str)>
    ensures some { IfSome result (λ parts. (text.now ≡ parts.0.now ++ 32 ∷ parts.1.now)
        × AllByRecursion IsInWord parts.0.now) }
    ensures none { IfNone result ((word rest : List ℕ) → text.now ≢ word ++ 32 ∷ rest) }
{
    match text.split_once(' ') {
        Some(parts) => Some(parts),
        None => None,
    }
}

/// Returns what is after the word `2` and a space, or the text itself.
fn without_version(text: &str) -> &str
    ensures { (text.now ≡ codes "2 " ++ result.now)
        ⊎ ((text.now ≡ result.now) × ((rest : List ℕ) → text.now ≢ codes "2 " ++ rest)) }
{
    let Some((word, rest)) = cut_word(text) else {
        return text;
    };
    if word == "2" { rest } else { text }
}

/// Says whether no byte is a space.
fn has_no_space(bytes: &[u8]) -> bool
    ensures { IsTrue result ↔ AllByRecursion (λ b. IsTrue (is_in_word b)) bytes.now }
{
    bytes.iter().all(|byte| *byte != b' ')
}

/// Says whether the text is one word: it has bytes, and no space.
fn is_one_word(text: &str) -> bool
    ensures { IsTrue result ↔ IsWord text.now }
{
    !text.is_empty() && has_no_space(text.as_bytes())
}

/// Says whether the first text is a name and the second is one word.
fn are_name_and_word(name: &str, word: &str) -> bool
    ensures { IsTrue result ↔ (IsName name.now × IsWord word.now) }
{
    is_name(name) && is_one_word(word)
}

/// Returns the name and the other word of a head line, or `None` where the line is none. It walks the line once.
pub(crate) fn read_head(line: &str) -> Option<(&str, &str)>
    ensures some { IfSome result (λ head. IsHead line.now head.0.now head.1.now) }
    ensures none { IfNone result ((name word : List ℕ) → IsHead line.now name word → ⊥) }
{
    let Some((first, behind)) = cut_word(line) else {
        return None;
    };
    if first != "fragment" {
        return None;
    }
    let Some((name, word)) = cut_word(without_version(behind)) else {
        return None;
    };
    if are_name_and_word(name, word) {
        Some((name, word))
    } else {
        None
    }
}
