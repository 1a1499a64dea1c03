//! The lines of a layout's file.
ghost use Rattle.std.specs.Prelude.{◌≡◌, ◌↔◌, ◌++◌, ◌||◌, ℕ, IsTrue, MatchOption};
ghost use Rattle.std.specs.List.{AllByRecursion, list_all};
ghost use Rattle.psg_grammar.specs.Sound.{goes_on_name, is_lower, is_name_from};
ghost use Rattle.psg_deflines.specs.Entries.{IsSkipped};
ghost use Rattle.psg_script.specs.Forms.{IsInWord, IsTail, spaces};
ghost use Rattle.psg_script.specs.Reading.{IsNumeral, Reads};
ghost use Rattle.psg_script.specs.Words.{IsBehind};
ghost use Rattle.psg_layout.specs.Layouts.{Rule as PlainRule, SpellsRule, op_of};
ghost use Rattle.psg_layout.specs.Rules.{HasNoBreak, HasNoGroup, IsBreakBehind, IsGroupBehind, said};

/// A line: the operator of the name is a group, or it may break before the item of the number.
#[derive(Clone, Copy)]
pub(crate) enum Rule<'a> {
    Group(&'a str),
    Break(&'a str, u32),
}

impl<'a> Rule<'a> {
    /// Returns the name of the operator.
    pub(crate) fn op(&self) -> &'a str
        ensures { result.now ≡ op_of (said self.now) }
    {
        match self {
            Rule::Group(op) => op,
            Rule::Break(op, _) => op,
        }
    }
}

/// Says whether the line is empty or a comment.
pub(crate) fn is_skipped(line: &str) -> bool
    ensures { IsTrue result ↔ IsSkipped line.now }
{
    match line.as_bytes().first() {
        Some(first) => *first == b'#',
        None => true,
    }
}

/// Says whether a name goes on with the byte.
fn goes_on(byte: u8) -> bool
    ensures { result ≡ goes_on_name byte }
{
    byte.is_ascii_alphanumeric() || byte == b'_'
}

/// Says whether a name goes on with each of the bytes.
fn all_go_on(bytes: &[u8]) -> bool
    ensures { result ≡ list_all goes_on_name bytes.now }
{
    bytes.iter().all(|byte| goes_on(*byte))
}

/// Says whether the word is a name of an operator.
fn is_op_name(word: &str) -> bool
    ensures { result ≡ is_name_from is_lower word.now }
{
    match word.as_bytes().split_first() {
        Some((first, rest)) => first.is_ascii_lowercase() && all_go_on(rest) && rest.len() <= 63,
        None => false,
    }
}

/// Returns the number that a word is the decimal of: digits, with no zero before others, below 2^32.
fn number(word: &str) -> Option<u32>
    ensures { Reads IsNumeral word.now result }
{
    if word.starts_with('0') {
        return if word == "0" { Some(0) } else { None };
    }
    if word.starts_with('+') {
        return None;
    }
    word.parse().ok()
}

/// Returns the text after the spaces that it begins with.
fn skip_spaces(mut text: &str) -> &str
    ensures spaces { (n : ℕ) × (text.now ≡ spaces n ++ result.now) }
    ensures rest { IsTail result.now }
{
    while let Some(rest) = text.strip_prefix(' ') {
        text = rest;
    }
    text
}

/// Returns the word that a text begins with, which is empty where it begins with a space, and what follows the word.
fn split_word(text: &str) -> (&str, &str)
    ensures parts { text.now ≡ result.0.now ++ result.1.now }
    ensures word { AllByRecursion IsInWord result.0.now }
    ensures behind { IsBehind result.1.now }
{
    match text.find(' ') {
        Some(end) => (&text[..end], &text[end..]),
        None => (text, ""),
    }
}

/// Returns the line of a group with this after its first word.
fn group_of(behind: &str) -> Option<Rule<'_>>
    requires { IsBehind behind.now }
    ensures { MatchOption result (HasNoGroup behind.now) (IsGroupBehind behind.now) }
{
    let name = skip_spaces(behind);
    if is_op_name(name) {
        Some(Rule::Group(name))
    } else {
        None
    }
}

/// Returns the line of a break with this after its first word.
fn break_of(behind: &str) -> Option<Rule<'_>>
    requires { IsBehind behind.now }
    ensures { MatchOption result (HasNoBreak behind.now) (IsBreakBehind behind.now) }
{
    let text = skip_spaces(behind);
    let parts = split_word(text);
    let word = skip_spaces(parts.1);
    if is_op_name(parts.0) {
        match number(word) {
            Some(place) => Some(Rule::Break(parts.0, place)),
            None => None,
        }
    } else {
        None
    }
}

/// Returns what the line says, if it has one of the two forms.
pub(crate) fn rule_of(line: &str) -> Option<Rule<'_>>
    ensures { MatchOption result ((rule : PlainRule) → SpellsRule line.now rule → ⊥)
        (λ found. SpellsRule line.now (said found)) }
{
    let parts = split_word(line);
    if parts.0 == "group" {
        return group_of(parts.1);
    }
    if parts.0 == "break" {
        return break_of(parts.1);
    }
    None
}
