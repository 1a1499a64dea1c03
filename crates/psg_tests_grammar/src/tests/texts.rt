//! Texts and their only trees.
ghost use Rattle.std.specs.Prelude.{◌≡◌, ◌≤◌};
ghost use Rattle.psg_grammar.specs.Sound.{IsSound};
ghost use Rattle.psg_grammar.specs.declared.limits.TheConstants.{MOST_BRACKETS};
ghost use Rattle.psg_class.specs.Class.{IsClass};

use super::languages::{expressions, tokens, tree};
use psg_grammar::{Definition, Kind};
use psg_parse::{Goal, ParseFault};
use psg_tree::abstract_text;
use std::alloc::{AllocError, Global};
use std::process::Abort;
use std::test::Fail;

/// How differences bind and whether lists are finished, the kind and the least level of the trees, and texts with the
/// abstract texts of their trees.
#[derive(Clone, Copy)]
struct Reading<'a> {
    minus: &'a str,
    ends: &'a str,
    kind: Kind,
    least: u8,
    rows: &'a [(&'a str, &'a str)],
}

const READINGS: &[Reading<'static>] = &[
    // differences to the left
    Reading {
        minus: "infixl 4",
        ends: "unfinished",
        kind: Kind::Phylum(0),
        least: 0,
        rows: &[
            ("1 - 2 - 3", "minus(minus(num(1),num(2)),num(3))"),
            ("1 - 2 + 3", "plus(minus(num(1),num(2)),num(3))"),
            ("1 + 2 - 3", "minus(plus(num(1),num(2)),num(3))"),
            ("1 - (2 - 3)", "minus(num(1),minus(num(2),num(3)))"),
        ],
    },
    // differences to the right
    Reading {
        minus: "infixr 5",
        ends: "unfinished",
        kind: Kind::Phylum(0),
        least: 0,
        rows: &[
            ("1 - 2 - 3", "minus(num(1),minus(num(2),num(3)))"),
            ("1 - 2 + 3", "plus(minus(num(1),num(2)),num(3))"),
            ("1 + 2 - 3", "plus(num(1),minus(num(2),num(3)))"),
            ("(1 - 2) - 3", "minus(minus(num(1),num(2)),num(3))"),
        ],
    },
    // differences neither way
    Reading {
        minus: "infix 5",
        ends: "unfinished",
        kind: Kind::Phylum(0),
        least: 0,
        rows: &[
            ("1 - 2 - 3", "no tree"),
            ("(1 - 2) - 3", "minus(minus(num(1),num(2)),num(3))"),
            (
                "1 - 2 + 3 - 4",
                "plus(minus(num(1),num(2)),minus(num(3),num(4)))",
            ),
        ],
    },
    // operators with one side
    Reading {
        minus: "infixl 4",
        ends: "unfinished",
        kind: Kind::Phylum(0),
        least: 0,
        rows: &[
            // `not` binds looser than `+`, and `~` tighter
            ("not 1 + 2", "not(plus(num(1),num(2)))"),
            ("~ 1 + 2", "plus(neg(num(1)),num(2))"),
            ("1 + not 2", "no tree"),
            ("1 + (not 2)", "plus(num(1),not(num(2)))"),
            ("1 + ~ 2", "plus(num(1),neg(num(2)))"),
            ("not ~ 1", "not(neg(num(1)))"),
            ("~ not 1", "no tree"),
            ("not not ~ ~ 1", "not(not(neg(neg(num(1)))))"),
            // `!` binds tighter than both
            ("1 + 2 !", "plus(num(1),fact(num(2)))"),
            ("(1 + 2) !", "fact(plus(num(1),num(2)))"),
            ("~ 1 !", "neg(fact(num(1)))"),
            ("(~ 1) ! !", "fact(fact(neg(num(1))))"),
            ("! 1", "no tree"),
            ("1 ! 2", "no tree"),
        ],
    },
    // lists that may be unfinished
    Reading {
        minus: "infixl 4",
        ends: "unfinished",
        kind: Kind::Phylum(0),
        least: 0,
        rows: &[
            ("[]", "list([])"),
            ("[...]", "list([|...])"),
            ("[1]", "list([num(1)])"),
            ("[1, 2 + 3, x]", "list([num(1),plus(num(2),num(3)),ex])"),
            ("[1, ...]", "list([num(1)|...])"),
            ("[[], [...], ...]", "list([list([]),list([|...])|...])"),
            ("[1 ...]", "no tree"),
            ("[1,]", "no tree"),
            ("[..., 1]", "no tree"),
            ("[1, ..., 2]", "no tree"),
            ("[1 2]", "no tree"),
            ("...", "no tree"),
        ],
    },
    // lists that are finished
    Reading {
        minus: "infixl 4",
        ends: "fixed",
        kind: Kind::Phylum(0),
        least: 0,
        rows: &[
            ("[]", "list([])"),
            ("[1, 2]", "list([num(1),num(2)])"),
            ("[...]", "no tree"),
            ("[1, ...]", "no tree"),
        ],
    },
    // names, texts and placeholders
    Reading {
        minus: "infixl 4",
        ends: "unfinished",
        kind: Kind::Phylum(0),
        least: 0,
        rows: &[
            ("a + b_1", "plus(var(a),var(b_1))"),
            ("x", "ex"),
            ("end", "no tree"),
            ("\"a b\"", "str(\"a b\")"),
            ("do let a be 1 end", "do(let(a,num(1)))"),
            ("do let x be 1 end", "no tree"),
            ("x + do let a be x end !", "plus(ex,fact(do(let(a,ex))))"),
            ("?Exp", "?Exp"),
            ("?Exp - 1", "minus(?Exp,num(1))"),
            // of another phylum, of a list, and of a phylum that declares
            ("?Stm", "no tree"),
            ("?Args", "no tree"),
            ("do ?Stm", "no tree"),
        ],
    },
    // brackets
    Reading {
        minus: "infixl 4",
        ends: "unfinished",
        kind: Kind::Phylum(0),
        least: 0,
        rows: &[
            ("((1))", "num(1)"),
            ("", "no tree"),
            ("()", "no tree"),
            ("(1", "no tree"),
            ("1)", "no tree"),
            ("(1 2)", "no tree"),
            ("1 2", "no tree"),
            // statements have none
            ("do (let a be 1 end)", "no tree"),
        ],
    },
    // trees of a level
    Reading {
        minus: "infixl 4",
        ends: "unfinished",
        kind: Kind::Phylum(0),
        least: 5,
        rows: &[
            ("1 + 2", "no tree"),
            ("(1 + 2)", "plus(num(1),num(2))"),
            ("not 1", "no tree"),
            ("~ 1", "neg(num(1))"),
            ("?Exp", "?Exp"),
        ],
    },
    // a list
    Reading {
        minus: "infixl 4",
        ends: "unfinished",
        kind: Kind::List(0),
        least: 0,
        rows: &[
            ("", "[]"),
            ("...", "[|...]"),
            ("1, 2", "[num(1),num(2)]"),
            ("1]", "no tree"),
        ],
    },
    // a statement
    Reading {
        minus: "infixl 4",
        ends: "unfinished",
        kind: Kind::Phylum(1),
        least: 0,
        rows: &[("let a be 1 end", "let(a,num(1))"), ("1", "no tree")],
    },
    // a phylum that is not there
    Reading {
        minus: "infixl 4",
        ends: "unfinished",
        kind: Kind::Phylum(2),
        least: 0,
        rows: &[("1", "no tree")],
    },
    // a list that is not there
    Reading {
        minus: "infixl 4",
        ends: "unfinished",
        kind: Kind::List(1),
        least: 0,
        rows: &[("", "no tree")],
    },
];

/// The abstract text of the tree of the text, or why there is none.
fn answer(
    alloc: Global,
    definition: &Definition,
    goal: Goal,
    text: &str,
) -> Result<String, AllocError>
    requires sound { IsSound definition.now }
    requires class { IsClass definition.now }
    requires around { goal.around ≤ MOST_BRACKETS }
{
    let tokens = tokens(alloc, definition, text)?;
    match tree(alloc, definition, goal, tokens.as_slice()) {
        Ok(tree) => abstract_text(alloc, definition, &tree),
        Err(ParseFault::NoTree) => String::from_str(alloc, "no tree"),
        Err(ParseFault::Deep) => String::from_str(alloc, "deep"),
        Err(ParseFault::Memory) => Err(AllocError),
    }
}

fn reads(rt: &impl Abort, alloc: Global, reading: &Reading) -> Result<(), Fail> {
    let definition = expressions(alloc, reading.minus, reading.ends)?;
    let goal = Goal {
        kind: reading.kind,
        least: reading.least,
        around: 0,
    };
    for (text, expected) in reading.rows {
        let said = answer(alloc, &definition, goal, text)?;
        assert_eq!(rt; said.as_str(), *expected, "{text}");
    }
    Ok(())
}

#[test]
fn texts_have_their_only_trees(rt: HostRuntime) -> Result<(), Fail> {
    for reading in READINGS {
        reads(&rt, rt.alloc(), reading)?;
    }
    Ok(())
}

/// A list of 50,000 elements in brackets, which follow each other and do not nest.
#[test]
fn a_long_list(rt: HostRuntime) -> Result<(), Fail> {
    let definition = expressions(rt.alloc(), "infixl 4", "unfinished")?;
    let mut text = String::from_str(rt.alloc(), "[")?;
    let mut expected = String::from_str(rt.alloc(), "list([")?;
    for _ in 0..49_999 {
        text.push_str("(x),")?;
        expected.push_str("ex,")?;
    }
    text.push_str("x]")?;
    expected.push_str("ex])")?;
    let goal = Goal {
        kind: Kind::Phylum(0),
        least: 0,
        around: 0,
    };
    let said = answer(rt.alloc(), &definition, goal, text.as_str())?;
    assert!(rt; said.as_str() == expected.as_str());
    Ok(())
}
