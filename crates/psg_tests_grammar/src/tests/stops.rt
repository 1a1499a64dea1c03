//! How far rows of tokens begin a tree, and which tokens may follow them.
use super::languages::{expressions, tokens};
use psg_grammar::Kind;
use psg_parse::{Goal, ParseTable, reach};
use psg_stop::{Wanted, find_stop};
use std::alloc::{AllocError, Global};
use std::process::Abort;
use std::test::Fail;

/// How differences bind and whether lists are finished, the kind and the least level of the trees, and texts with how
/// many of their tokens begin a tree, and whether all are one.
#[derive(Clone, Copy)]
struct Reading<'a> {
    minus: &'a str,
    ends: &'a str,
    kind: Kind,
    least: u8,
    rows: &'a [(&'a str, usize, bool)],
}

const READINGS: &[Reading<'static>] = &[
    Reading {
        minus: "infixl 4",
        ends: "unfinished",
        kind: Kind::Phylum(0),
        least: 0,
        rows: &[
            ("", 0, false),
            ("1 + 2", 3, true),
            ("1 +", 2, false),
            // after `+` no tree as loose as `not` fits, and a bracket does
            ("1 + not 2", 2, false),
            ("1 + (not 2)", 6, true),
            ("~ not 1", 1, false),
            ("1 2", 1, false),
            ("! 1", 0, false),
            ("1 ! 2", 2, false),
            ("~ 1 ! ! + x", 6, true),
            // brackets: one that is not closed, one that closes nothing, a second tree
            ("((1", 3, false),
            ("1)", 1, false),
            ("((1)) + 2)", 7, false),
            ("(1 2)", 2, false),
            ("()", 1, false),
            // lists: a separator wants an element or `...`, and nothing goes on a list after `...`
            ("[1", 2, false),
            ("[1 2]", 2, false),
            ("[1,", 3, false),
            ("[1,]", 3, false),
            ("[1 ...]", 2, false),
            ("[1, ...", 4, false),
            ("[..., 1]", 2, false),
            ("[1, ..., 2]", 4, false),
            ("[1, 2 +, 3]", 5, false),
            ("...", 0, false),
            // words that are fixed, and placeholders of other phyla
            ("a + end", 2, false),
            ("?Stm", 0, false),
            ("1 + ?Args", 2, false),
            ("?Exp + ?Exp", 3, true),
        ],
    },
    Reading {
        minus: "infix 5",
        ends: "fixed",
        kind: Kind::Phylum(0),
        least: 0,
        rows: &[
            ("1 - 2 - 3", 3, false),
            ("1 - 2 + 3 - 4 - 5", 7, false),
            ("[...]", 1, false),
            ("[1, ...]", 3, false),
        ],
    },
    // trees of a level
    Reading {
        minus: "infixl 4",
        ends: "unfinished",
        kind: Kind::Phylum(0),
        least: 5,
        rows: &[
            ("1 + 2", 1, false),
            ("not 1", 0, false),
            ("(not 1)", 4, true),
        ],
    },
    // a list
    Reading {
        minus: "infixl 4",
        ends: "unfinished",
        kind: Kind::List(0),
        least: 0,
        rows: &[
            ("", 0, true),
            ("1, 2", 3, true),
            ("1]", 1, false),
            ("1 2", 1, false),
            ("..., 1", 1, false),
        ],
    },
];

fn reaches(rt: &impl Abort, alloc: Global, reading: &Reading) -> Result<(), Fail> {
    let definition = expressions(alloc, reading.minus, reading.ends)?;
    let table = ParseTable::of(alloc, &definition)?;
    let goal = Goal {
        kind: reading.kind,
        least: reading.least,
        around: 0,
    };
    for (text, count, whole) in reading.rows {
        let tokens = tokens(alloc, &definition, text)?;
        let front = reach(alloc, &definition, &table, goal, tokens.as_slice())?;
        assert_eq!(rt; front.tokens, *count, "{text}");
        assert!(rt; front.whole == *whole, "{text}");
    }
    Ok(())
}

#[test]
fn tokens_begin_a_tree_up_to_their_stop(rt: HostRuntime) -> Result<(), Fail> {
    for reading in READINGS {
        reaches(&rt, rt.alloc(), reading)?;
    }
    Ok(())
}

/// As a `Reading`, with texts, which tokens may follow their first ones, and whether those are a tree.
#[derive(Clone, Copy)]
struct Going<'a> {
    minus: &'a str,
    ends: &'a str,
    kind: Kind,
    least: u8,
    rows: &'a [(&'a str, &'a str, bool)],
}

const GOING: &[Going<'static>] = &[
    Going {
        minus: "infixl 4",
        ends: "unfinished",
        kind: Kind::Phylum(0),
        least: 0,
        rows: &[
            ("", "( name number text x not ~ [ do ?Exp", false),
            ("1", "+ - !", true),
            ("1 +", "( name number text x ~ [ do ?Exp", false),
            // the stop is in front of the end
            ("1 + not 2", "( name number text x ~ [ do ?Exp", false),
            ("(1", ") + - !", false),
            ("[", "( name number text ... x not ~ [ ] do ?Exp", false),
            ("[1", "+ - ! ] ,", false),
            ("[1,", "( name number text ... x not ~ [ do ?Exp", false),
            ("[1, ...", "]", false),
            ("do", "let", false),
            ("do let", "name", false),
            ("do let a", "be", false),
            ("do let a be 1", "+ - ! end", false),
            ("do let a be 1 end", "+ - !", true),
            ("not 1", "+ - !", true),
            ("~ 1", "+ - !", true),
        ],
    },
    Going {
        minus: "infix 5",
        ends: "fixed",
        kind: Kind::Phylum(0),
        least: 0,
        rows: &[
            ("1 - 2", "+ !", true),
            ("1 - 2 - 3", "+ !", true),
            ("[1,", "( name number text x not ~ [ do ?Exp", false),
        ],
    },
    Going {
        minus: "infixl 4",
        ends: "unfinished",
        kind: Kind::Phylum(0),
        least: 5,
        rows: &[("1", "!", true)],
    },
    Going {
        minus: "infixl 4",
        ends: "unfinished",
        kind: Kind::List(0),
        least: 0,
        rows: &[
            ("", "( name number text ... x not ~ [ do ?Exp", true),
            ("1", "+ - ! ,", true),
            ("1, ...", "", true),
        ],
    },
];

/// The kind of token, as the rows have it.
fn put(text: &mut String, wanted: &Wanted) -> Result<(), AllocError> {
    match wanted {
        Wanted::Fixed(word) => text.push_str(word.as_str())?,
        Wanted::Name => text.push_str("name")?,
        Wanted::Number => text.push_str("number")?,
        Wanted::Text => text.push_str("text")?,
        Wanted::Hole(name) => {
            text.push_str("?")?;
            text.push_str(name.as_str())?;
        }
        Wanted::More => text.push_str("...")?,
    }
    Ok(())
}

/// The kinds of token with a space between two.
fn joined(alloc: Global, wanted: &[Wanted]) -> Result<String, AllocError> {
    let mut text = String::new(alloc);
    for one in wanted {
        if !text.is_empty() {
            text.push_str(" ")?;
        }
        put(&mut text, one)?;
    }
    Ok(text)
}

fn goes(rt: &impl Abort, alloc: Global, going: &Going) -> Result<(), Fail> {
    let definition = expressions(alloc, going.minus, going.ends)?;
    let table = ParseTable::of(alloc, &definition)?;
    let goal = Goal {
        kind: going.kind,
        least: going.least,
        around: 0,
    };
    for (text, wanted, may_end) in going.rows {
        let tokens = tokens(alloc, &definition, text)?;
        let stop = find_stop(alloc, &definition, &table, goal, tokens.as_slice())?;
        let told = joined(alloc, stop.wanted.as_slice())?;
        assert_eq!(rt; told.as_str(), *wanted, "{text}");
        assert!(rt; stop.may_end == *may_end, "{text}");
    }
    Ok(())
}

#[test]
fn what_may_come_after_tokens(rt: HostRuntime) -> Result<(), Fail> {
    for going in GOING {
        goes(&rt, rt.alloc(), going)?;
    }
    Ok(())
}
