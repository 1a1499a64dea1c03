//! Texts and their tokens, as tables.
use super::repeated;
use psg_lexis::{LexFault, Lexis, Spanned, Token, glues, lex};
use psg_terms::Txt;
use std::alloc::{AllocError, Global};
use std::fmt::Write;
use std::process::Abort;
use std::test::Fail;

/// Words and marks.
const WORDS_AND_MARKS: &[(&str, &str)] = &[
    ("", ""),
    (" \t\r\n", ""),
    ("a", "Word a 0..1|"),
    ("_a1 b", "Word _a1 0..3|Word b 4..5|"),
    ("a := b", "Word a 0..1|Symbol := 2..4|Word b 5..6|"),
    ("a:=b", "Word a 0..1|Symbol := 1..3|Word b 3..4|"),
    ("a =: b", "BadRun(2)"),
    ("a +", "BadRun(2)"),
    (
        "f(x);",
        "Word f 0..1|Solo 40 1..2|Word x 2..3|Solo 41 3..4|Solo 59 4..5|",
    ),
    (
        "[{,}]",
        "Solo 91 0..1|Solo 123 1..2|Solo 44 2..3|Solo 125 3..4|Solo 93 4..5|",
    ),
    ("if iff", "Word if 0..2|Word iff 3..6|"),
    ("'", "BadChar(0)"),
    ("a `", "BadChar(2)"),
    ("\\", "BadChar(0)"),
    ("\u{a0}", "BadChar(0)"),
];

/// Numbers, and words that touch them.
const NUMBERS: &[(&str, &str)] = &[
    ("0", "Number 0 0..1|"),
    ("0012 3", "Number 12 0..4|Number 3 5..6|"),
    ("12=", "Number 12 0..2|Symbol = 2..3|"),
    ("12a", "BadRun(0)"),
    ("x 12_", "BadRun(2)"),
    ("12\u{e9}", "BadRun(0)"),
    ("1\u{ff11}", "BadRun(0)"),
    ("12\"a\"", "Number 12 0..2|Text a 2..5|"),
    (
        "340282366920938463463374607431768211455",
        "Number 340282366920938463463374607431768211455 0..39|",
    ),
    (
        "000340282366920938463463374607431768211455",
        "Number 340282366920938463463374607431768211455 0..42|",
    ),
    ("340282366920938463463374607431768211456", "TooLarge(0)"),
    ("x 340282366920938463463374607431768211456", "TooLarge(2)"),
    ("340282366920938463463374607431768211460", "TooLarge(0)"),
    ("340282366920938463463374607431768211456a", "BadRun(0)"),
];

/// Placeholders, and the dots of lists that may go on.
const HOLES_AND_DOTS: &[(&str, &str)] = &[
    ("?x", "Hole x 0..2|"),
    ("?_1 a", "Hole _1 0..3|Word a 4..5|"),
    ("a?b", "Word a 0..1|Hole b 1..3|"),
    ("?", "BadChar(0)"),
    ("a ?", "BadChar(2)"),
    ("?1", "BadChar(0)"),
    ("? x", "BadChar(0)"),
    ("??x", "BadChar(0)"),
    ("...", "More 0..3|"),
    ("x...", "Word x 0..1|More 1..4|"),
    ("... =", "More 0..3|Symbol = 4..5|"),
    ("...=", "BadRun(0)"),
    ("=...", "BadRun(0)"),
    ("....", "BadRun(0)"),
    ("..", "BadRun(0)"),
];

/// Texts in quotes.
const QUOTED_TEXTS: &[(&str, &str)] = &[
    ("\"\"", "Text  0..2|"),
    ("x\"a b\"y", "Word x 0..1|Text a b 1..6|Word y 6..7|"),
    ("\"a\\\"b\\\\c\\nd\"", "Text a\"b\\c\nd 0..12|"),
    ("\"\\\\\" x", "Text \\ 0..4|Word x 5..6|"),
    ("\"a", "Unended(0)"),
    ("x \"a\nb\"", "Unended(2)"),
    ("\"a\\\n\"", "Unended(0)"),
    ("\"a\\", "Unended(0)"),
    ("\"\\\"", "Unended(0)"),
    ("\"a\r\n\"", "Unended(0)"),
    ("\"a\rb\"", "BadChar(2)"),
    ("\"a\tb\"", "BadChar(2)"),
    ("\"a\tb", "Unended(0)"),
    ("\"a\tb\\\"", "Unended(0)"),
    ("\"a\\qb\"", "BadRun(2)"),
    ("\"a\\qb", "Unended(0)"),
    ("\"a\\q\tb\"", "BadRun(2)"),
    ("\"\t\\q\"", "BadChar(1)"),
    ("\"\\\t\"", "BadRun(1)"),
    ("\"\u{7f}\"", "BadChar(1)"),
    ("\"\u{85}\"", "BadChar(1)"),
    ("\"\\n\u{e9}\u{85}\"", "BadChar(5)"),
];

/// Characters beyond ASCII.
const BEYOND_ASCII: &[(&str, &str)] = &[
    ("\u{e9}t\u{e9}", "Word \u{e9}t\u{e9} 0..5|"),
    ("e\u{301} x", "Word e\u{301} 0..3|Word x 4..5|"),
    ("\u{301}", "BadChar(0)"),
    ("\u{6f22}\u{5b57} '", "BadChar(7)"),
    ("\u{6f22}\u{5b57}", "Word \u{6f22}\u{5b57} 0..6|"),
    (
        "\"\u{6f22}\u{301}\" x",
        "Text \u{6f22}\u{301} 0..7|Word x 8..9|",
    ),
    ("\u{ff11}", "BadChar(0)"),
    ("x \u{378}", "BadChar(2)"),
    ("\"\u{378}\"", "Text \u{378} 0..4|"),
    ("\u{3000}", "BadChar(0)"),
];

/// A unit the given number of times between a front and an end: the longest tokens, and those that are too long.
const LIMITS: &[((&str, &str, usize, &str), &str)] = &[
    (
        ("x ", "a", 255, " y"),
        "Word x 0..1|Word of 255 2..257|Word y 258..259|",
    ),
    (("x ", "a", 256, ""), "TooLarge(2)"),
    (("a", "\u{e9}", 127, ""), "Word of 255 0..255|"),
    (("", "\u{e9}", 128, ""), "TooLarge(0)"),
    (("?", "a", 255, ""), "Hole of 255 0..256|"),
    (("x ?", "a", 256, ""), "TooLarge(3)"),
    (("\"", "a", 4096, "\""), "Text of 4096 0..4098|"),
    (("x \"", "a", 4097, "\""), "TooLarge(2)"),
    (("\"", "\\\"", 4096, "\""), "Text of 4096 0..8194|"),
    (("\"", "\\\"", 4097, "\""), "TooLarge(0)"),
    (("\"", "a", 4097, "\t\""), "BadChar(4098)"),
    (("\"", "a", 4097, ""), "Unended(0)"),
];

/// Whether two characters side by side may be of one token.
const GLUED: &[(char, char, bool)] = &[
    ('a', '1', true),
    ('=', '-', true),
    ('_', 'a', true),
    ('1', '_', true),
    ('.', '.', true),
    ('(', 'a', false),
    ('a', '=', false),
    ('=', '1', false),
    ('"', 'a', false),
    ('(', ')', false),
    (' ', 'a', false),
    ('?', 'a', false),
];

/// Whether a word is one that names cannot have.
const RESERVED: &[(&str, bool)] = &[
    ("if", true),
    ("iff", false),
    ("i", false),
    (":=", false),
    ("(", false),
    ("", false),
];

fn lexis(alloc: Global) -> Result<Lexis, AllocError> {
    let mut words = Vec::new(alloc);
    for word in ["if", ":=", "=", "(", "if"] {
        words.push(Txt::copy_of(alloc, word)?)?;
    }
    Lexis::new(alloc, &words)
}

/// The tokens with their bytes, or the fault, as one text. A text above forty bytes is shown by its length.
fn shown(alloc: Global, outcome: Result<Vec<Spanned>, LexFault>) -> Result<String, AllocError> {
    let mut out = String::new(alloc);
    match outcome {
        Err(fault) => write!(out, "{fault:?}")?,
        Ok(tokens) => {
            for spanned in &tokens {
                show(&mut out, &spanned.token)?;
                let start = spanned.start;
                let end = spanned.end;
                write!(out, " {start}..{end}|")?;
            }
        }
    }
    Ok(out)
}

fn show(out: &mut String, token: &Token) -> Result<(), AllocError> {
    match token {
        Token::Word(word) => show_text(out, "Word", word),
        Token::Number(value) => write!(out, "Number {value}"),
        Token::Text(contents) => show_text(out, "Text", contents),
        Token::Solo(byte) => write!(out, "Solo {byte}"),
        Token::Symbol(run) => show_text(out, "Symbol", run),
        Token::Hole(word) => show_text(out, "Hole", word),
        Token::More => write!(out, "More"),
    }
}

fn show_text(out: &mut String, name: &str, text: &Txt) -> Result<(), AllocError> {
    let text = text.as_str();
    if text.len() <= 40 {
        write!(out, "{name} {text}")
    } else {
        let length = text.len();
        write!(out, "{name} of {length}")
    }
}

fn reads(
    rt: &impl Abort,
    alloc: Global,
    lexis: &Lexis,
    text: &str,
    expected: &str,
) -> Result<(), Fail> {
    let found = shown(alloc, lex(alloc, lexis, text))?;
    assert_eq!(rt; found.as_str(), expected, "at {text:?}");
    Ok(())
}

#[test]
fn texts_are_cut_into_tokens(rt: HostRuntime) -> Result<(), Fail> {
    let lexis = lexis(rt.alloc())?;
    for rows in [
        WORDS_AND_MARKS,
        NUMBERS,
        HOLES_AND_DOTS,
        QUOTED_TEXTS,
        BEYOND_ASCII,
    ] {
        for (text, expected) in rows {
            reads(&rt, rt.alloc(), &lexis, text, expected)?;
        }
    }
    Ok(())
}

#[test]
fn long_tokens(rt: HostRuntime) -> Result<(), Fail> {
    let lexis = lexis(rt.alloc())?;
    for ((front, unit, times, back), expected) in LIMITS {
        let text = repeated(rt.alloc(), front, unit, *times, back)?;
        reads(&rt, rt.alloc(), &lexis, text.as_str(), expected)?;
    }
    Ok(())
}

#[test]
fn tokens_that_touch(rt: HostRuntime) {
    for (left, right, expected) in GLUED {
        assert!(rt; glues(*left, *right) == *expected, "at {left:?} {right:?}");
    }
}

#[test]
fn reserved_words(rt: HostRuntime) -> Result<(), Fail> {
    let lexis = lexis(rt.alloc())?;
    for (word, expected) in RESERVED {
        assert!(rt; lexis.reserved(word) == *expected, "at {word:?}");
    }
    Ok(())
}
