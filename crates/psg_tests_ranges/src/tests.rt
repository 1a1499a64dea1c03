//! Worked rows of MINI: where each node of a text is among its tokens.
ghost use Rattle.std.specs.Prelude.{◌≡◌, ◌<◌, ◌≤◌, IfOk};
ghost use Rattle.psg_grammar.specs.Sound.{IsSound};
ghost use Rattle.psg_grammar.specs.declared.limits.TheConstants.{MOST_BRACKETS};
ghost use Rattle.psg_class.specs.Class.{IsClass};

use psg_class::class_check;
use psg_defread::read_definition;
use psg_grammar::{Definition, Kind};
use psg_langs::MINI;
use psg_lexis::{Lexis, Spanned, lex};
use psg_parse::{Goal, ParseFault, fixed_words, parse};
use psg_ranges::{Range, byte_of_end, ranges_of};
use psg_terms::Steps;
use psg_tree::Tree;
use std::alloc::{AllocError, Global};
use std::marker::Brand;
use std::process::Abort;
use std::slice;
use std::sync::ledger::{Blank, Ledger};
use std::test::Fail;

/// The language of the rows, which is of the grammar class.
fn mini(alloc: Global) -> Result<Definition, AllocError>
    ensures sound { IfOk result IsSound }
    ensures class { IfOk result IsClass }
{
    let Ok(definition) = read_definition(alloc, MINI.as_bytes()) else {
        return Err(AllocError);
    };
    match class_check(alloc, &definition) {
        Ok(()) => Ok(definition),
        Err(_) => Err(AllocError),
    }
}

/// The tokens of a text.
fn tokens(alloc: Global, definition: &Definition, text: &str) -> Result<Vec<Spanned>, AllocError> {
    let words = fixed_words(alloc, definition)?;
    let lexis = Lexis::new(alloc, words.as_slice())?;
    match lex(alloc, &lexis, text) {
        Ok(tokens) => Ok(tokens),
        Err(_) => Err(AllocError),
    }
}

fn counted<L: Ledger>(
    alloc: Global,
    definition: &Definition,
    goal: Goal,
    tokens: &[Spanned],
    ledger: Blank,
) -> Result<Tree, ParseFault>
    requires sound { IsSound definition.now }
    requires class { IsClass definition.now }
    requires around { goal.around ≤ MOST_BRACKETS }
    requires name { ledger.name ≡ L.name }
    requires parts { ledger.parts ≡ L.parts }
    requires some { 0 < L.parts }
{
    let mut steps = Steps::<L>::of(ledger);
    parse(alloc, definition, goal, tokens, &mut steps)
}

/// The tree of the tokens, or why there is none.
fn parsed(
    alloc: Global,
    definition: &Definition,
    goal: Goal,
    tokens: &[Spanned],
) -> Result<Tree, ParseFault>
    requires sound { IsSound definition.now }
    requires class { IsClass definition.now }
    requires around { goal.around ≤ MOST_BRACKETS }
{
    counted::<Brand>(alloc, definition, goal, tokens, Blank::new(1))
}

/// The tree of the tokens.
fn tree(
    alloc: Global,
    definition: &Definition,
    kind: Kind,
    tokens: &[Spanned],
) -> Result<Tree, AllocError>
    requires sound { IsSound definition.now }
    requires class { IsClass definition.now }
{
    let goal = Goal {
        kind,
        least: 0,
        around: 0,
    };
    match parsed(alloc, definition, goal, tokens) {
        Ok(tree) => Ok(tree),
        Err(_) => Err(AllocError),
    }
}

/// The first token and the one after the last, and a colon and its number for each name, each range after a space.
fn written(alloc: Global, ranges: &[Range]) -> Result<String, AllocError> {
    let mut text = String::new(alloc);
    for range in ranges {
        text.push_str(format!(in alloc; " {}-{}", range.start, range.end)?.as_str())?;
        for name in range.names.as_slice() {
            text.push_str(format!(in alloc; ":{}", *name)?.as_str())?;
        }
    }
    Ok(text)
}

/// Texts of a kind, with the ranges of their nodes in order.
#[derive(Clone, Copy)]
struct Rows<'a> {
    kind: Kind,
    rows: &'a [(&'a str, &'a str)],
}

const ROWS: &[Rows<'static>] = &[
    // statements
    Rows {
        kind: Kind::Phylum(0),
        rows: &[
            ("x := (1)", " 0-5:0 3-4"),
            ("call p()", " 0-4:1 3-3"),
            ("call p(...)", " 0-5:1 3-4"),
            ("call p((1), ...)", " 0-9:1 3-8 4-5"),
            ("call p((1) + 2, (x))", " 0-13:1 3-12 3-8 4-5 7-8 10-11:10"),
            ("call p((1))", " 0-7:1 3-6 4-5"),
            (
                "call p(((a) + b), c)",
                " 0-13:1 3-12 4-9 5-6:5 8-9:8 11-12:11",
            ),
            ("begin do end", " 0-3 1-1 2-2"),
            (
                "begin var x : int; proc p (a : int, b : bool) skip do x := a; ... end",
                " 0-25 1-18 1-5:2 4-5 6-18:7 8-18 9-16 9-12:9 11-12 13-16:13 15-16 17-18 19-24 19-22:19 21-22:21",
            ),
        ],
    },
    // expressions
    Rows {
        kind: Kind::Phylum(1),
        rows: &[
            ("a", " 0-1:0"),
            ("((a))", " 2-3:2"),
            ("?Exp", " 0-1"),
            ("(?Exp)", " 1-2"),
            // an operator that begins with a slot begins with the brackets of its first child
            ("(a) + b", " 0-5 1-2:1 4-5:4"),
            ("((a + b)) + c", " 0-9 2-5 2-3:2 4-5:4 8-9:8"),
            ("((a) + b) & c", " 0-9 1-6 2-3:2 5-6:5 8-9:8"),
            ("(((a) + b) & c)", " 1-10 2-7 3-4:3 6-7:6 9-10:9"),
            ("a + b + c", " 0-5 0-3 0-1:0 2-3:2 4-5:4"),
            ("((a)) = b", " 0-7 2-3:2 6-7:6"),
            ("(a)[(1)]", " 0-8 1-2:1 5-6"),
            ("((a)[1])[2]", " 0-11 1-7 2-3:2 5-6 9-10"),
            ("c & ((a + b))", " 0-9 0-1:0 4-7 4-5:4 6-7:6"),
            ("not (a)", " 0-4 2-3:2"),
            ("not (a) + b", " 0-6 0-4 2-3:2 5-6:5"),
            ("not ((a) + b)", " 0-8 2-7 3-4:3 6-7:6"),
            ("(?Exp) + b", " 0-5 1-2 4-5:4"),
        ],
    },
    Rows {
        kind: Kind::Phylum(2),
        rows: &[("array array int", " 0-3 1-3 2-3")],
    },
    // lists
    Rows {
        kind: Kind::List(0),
        rows: &[(
            "proc p () begin proc q () skip do end",
            " 0-12 0-12:1 2-12 3-3 4-12 5-10 5-10:6 7-10 8-8 9-10 11-11",
        )],
    },
    Rows {
        kind: Kind::List(2),
        rows: &[("(a), b", " 0-5 1-2:1 4-5:4")],
    },
    Rows {
        kind: Kind::List(3),
        rows: &[("", " 0-0")],
    },
    Rows {
        kind: Kind::List(1),
        rows: &[
            ("", " 0-0"),
            ("...", " 0-1"),
            ("skip; skip", " 0-3 0-1 2-3"),
            ("skip; ...", " 0-3 0-1"),
        ],
    },
];

fn agrees(rt: &impl Abort, alloc: Global, definition: &Definition, rows: &Rows) -> Result<(), Fail>
    requires sound { IsSound definition.now }
    requires class { IsClass definition.now }
{
    for (text, wanted) in rows.rows {
        let tokens = tokens(alloc, definition, text)?;
        let tree = tree(alloc, definition, rows.kind, tokens.as_slice())?;
        let ranges = ranges_of(alloc, definition, rows.kind, &tree, tokens.as_slice())?;
        let found = written(alloc, ranges.all())?;
        assert_eq!(rt; found.as_str(), *wanted, "{text}");
    }
    Ok(())
}

#[test]
fn nodes_are_among_their_tokens(rt: HostRuntime) -> Result<(), Fail> {
    let definition = mini(rt.alloc())?;
    for rows in ROWS {
        agrees(&rt, rt.alloc(), &definition, rows)?;
    }
    Ok(())
}

/// A text of a kind, a path, and the range of the node there, as a range is written; `none` where there is no node.
const PATHS: &[(Kind, &str, &[u32], &str)] = &[
    (Kind::Phylum(1), "(a) + b", &[], " 0-5"),
    (Kind::Phylum(1), "(a) + b", &[0], " 1-2:1"),
    (Kind::Phylum(1), "(a) + b", &[1], " 4-5:4"),
    (Kind::Phylum(1), "(a) + b", &[2], "none"),
    (Kind::Phylum(1), "(a) + b", &[0, 0], "none"),
    (Kind::Phylum(1), "(a) + b", &[4_294_967_295], "none"),
    (Kind::Phylum(1), "((a) + b) & c", &[0, 1], " 5-6:5"),
    (Kind::Phylum(1), "((a) + b) & c", &[1], " 8-9:8"),
    (Kind::Phylum(0), "call p((1) + 2, (x))", &[0, 0, 1], " 7-8"),
    (
        Kind::Phylum(0),
        "call p((1) + 2, (x))",
        &[0, 1],
        " 10-11:10",
    ),
    (Kind::Phylum(0), "call p((1) + 2, (x))", &[1], "none"),
    (Kind::Phylum(0), "call p()", &[0], " 3-3"),
    (Kind::List(1), "skip; ...", &[0], " 0-1"),
    (Kind::List(1), "skip; ...", &[1], "none"),
    (Kind::List(1), "", &[], " 0-0"),
];

/// The range of the node at the path, as it is written.
fn found(
    alloc: Global,
    definition: &Definition,
    kind: Kind,
    text: &str,
    path: &[u32],
) -> Result<String, Fail>
    requires sound { IsSound definition.now }
    requires class { IsClass definition.now }
{
    let tokens = tokens(alloc, definition, text)?;
    let tree = tree(alloc, definition, kind, tokens.as_slice())?;
    let ranges = ranges_of(alloc, definition, kind, &tree, tokens.as_slice())?;
    match ranges.at(path) {
        Some(range) => Ok(written(alloc, slice::from_ref(range))?),
        None => Ok(String::from_str(alloc, "none")?),
    }
}

#[test]
fn paths_lead_to_ranges(rt: HostRuntime) -> Result<(), Fail> {
    let definition = mini(rt.alloc())?;
    for (kind, text, path, wanted) in PATHS {
        let found = found(rt.alloc(), &definition, *kind, text, path)?;
        assert_eq!(rt; found.as_str(), *wanted, "{text}");
    }
    Ok(())
}

#[test]
fn nothing_ends_where_the_token_before_does(rt: HostRuntime) -> Result<(), Fail> {
    let definition = mini(rt.alloc())?;
    let tokens = tokens(rt.alloc(), &definition, "(a)  + b")?;
    for (number, byte) in [(0, 0), (1, 1), (3, 3), (4, 6), (5, 8)] {
        assert!(rt; number <= tokens.len());
        assert_eq!(rt; byte_of_end(tokens.as_slice(), number), byte);
    }
    Ok(())
}
