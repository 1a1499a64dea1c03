//! The words of a line, and what follows them.
ghost use Rattle.std.specs.Prelude.{◌≡◌, ◌++◌, ℕ, List, [], ◌∷◌, length, None, IfNone, IfSome, IsTrue, ◌↔◌};
ghost use Rattle.std.specs.List.{AllByRecursion};
ghost use Rattle.psg_script.specs.Forms.{Text, IsInWord, IsTail, Follow, spaces};
ghost use Rattle.psg_script.specs.Words.{IsBehind, IsNext, IsOpen};
ghost use Rattle.psg_script.specs.Found.{AreWords};

/// Returns the text after the spaces that it begins with.
pub fn skip_spaces(mut text: &str) -> &str
    ensures spaces { (n : ℕ) × (text.now ≡ spaces n ++ result.now) }
    ensures rest { IsTail result.now }
{
    while let Some(rest) = text.strip_prefix(' ') {
        text = rest;
    }
    text
}

/// Returns the word that a text begins with, which is empty where it begins with a space, and what follows the word.
pub fn split_word(text: &str) -> (&str, &str)
    ensures parts { text.now ≡ result.0.now ++ result.1.now }
    ensures word { AllByRecursion IsInWord result.0.now }
    ensures behind { IsBehind result.1.now }
{
    match text.find(' ') {
        Some(end) => (&text[..end], &text[end..]),
        None => (text, ""),
    }
}

/// Returns the next word and what follows it, of a text that follows a word. `None` where only spaces are left.
pub fn next_word(behind: &str) -> Option<(&str, &str)>
    requires { IsBehind behind.now }
    ensures some { IfSome result (λ parts. IsNext behind.now parts.0.now parts.1.now) }
    ensures none { IfNone result ((n : ℕ) × (behind.now ≡ spaces n)) }
{
    let text = skip_spaces(behind);
    if text.is_empty() {
        return None;
    }
    Some(split_word(text))
}

/// Says whether only spaces are left after a word.
pub fn is_end(behind: &str) -> bool
    ensures { IsTrue result ↔ Follow [] None behind.now }
{
    skip_spaces(behind).is_empty()
}

/// The words after a word, in a line that has nothing else.
#[derive(Clone, Copy)]
pub enum Words<'a> {
    /// No word.
    Nothing,
    /// One word.
    One(&'a str),
    /// Two words, in order.
    Two(&'a str, &'a str),
    /// Three words, in order.
    Three(&'a str, &'a str, &'a str),
    /// Four words, in order.
    Four(&'a str, &'a str, &'a str, &'a str),
    /// Five or more, which no command has.
    More,
}

/// Returns the words that follow a word.
pub fn words_behind(behind: &str) -> Words<'_>
    requires { IsBehind behind.now }
    ensures { AreWords behind.now result }
{
    let Some((first, behind)) = next_word(behind) else {
        return Words::Nothing;
    };
    let Some((second, behind)) = next_word(behind) else {
        return Words::One(first);
    };
    let Some((third, behind)) = next_word(behind) else {
        return Words::Two(first, second);
    };
    let Some((fourth, behind)) = next_word(behind) else {
        return Words::Three(first, second, third);
    };
    if is_end(behind) {
        Words::Four(first, second, third, fourth)
    } else {
        Words::More
    }
}

/// Returns a word, and the text at the end of the line after it.
pub fn one_and_text(behind: &str) -> Option<(&str, &str)>
    requires { IsBehind behind.now }
    ensures some { IfSome result (λ found. IsOpen (found.0.now ∷ []) found.1.now behind.now) }
    ensures none { IfNone result ((ws : List Text) (text : Text) → length ws ≡ 1 → IsOpen ws text behind.now → ⊥) }
{
    let (first, behind) = next_word(behind)?;
    Some((first, skip_spaces(behind)))
}

/// Returns two words, and the text at the end of the line after them.
pub fn two_and_text(behind: &str) -> Option<(&str, &str, &str)>
    requires { IsBehind behind.now }
    ensures some { IfSome result (λ found. IsOpen (found.0.now ∷ found.1.now ∷ []) found.2.now behind.now) }
    ensures none { IfNone result ((ws : List Text) (text : Text) → length ws ≡ 2 → IsOpen ws text behind.now → ⊥) }
{
    let (first, behind) = next_word(behind)?;
    let (second, text) = one_and_text(behind)?;
    Some((first, second, text))
}

/// Returns three words, and the text at the end of the line after them.
pub fn three_and_text(behind: &str) -> Option<(&str, &str, &str, &str)>
    requires { IsBehind behind.now }
    ensures some { IfSome result (λ found.
        IsOpen (found.0.now ∷ found.1.now ∷ found.2.now ∷ []) found.3.now behind.now) }
    ensures none { IfNone result ((ws : List Text) (text : Text) → length ws ≡ 3 → IsOpen ws text behind.now → ⊥) }
{
    let (first, behind) = next_word(behind)?;
    let (second, third, text) = two_and_text(behind)?;
    Some((first, second, third, text))
}
