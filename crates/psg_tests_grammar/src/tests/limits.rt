//! How deep trees and brackets may be, and texts far beyond that.
ghost use Rattle.std.specs.Prelude.{◌≤◌};
ghost use Rattle.psg_grammar.specs.Sound.{IsSound};
ghost use Rattle.psg_grammar.specs.declared.limits.TheConstants.{MOST_BRACKETS};
ghost use Rattle.psg_class.specs.Class.{IsClass};

use super::languages::{expressions, tokens, tree};
use psg_grammar::{Definition, Kind, MOST_BRACKETS};
use psg_parse::{Goal, ParseFault};
use std::alloc::{AllocError, Global};
use std::test::Fail;

/// A text in parts, of which the first and the last are repeated, and how many pairs of brackets are around it already.
#[derive(Clone, Copy)]
struct Nested<'a> {
    around: u32,
    front: &'a str,
    times: usize,
    middle: &'a str,
    back: &'a str,
}

/// The brackets around a text, a front the given number of times, the middle and a back as often, and whether that is
/// read.
const ROWS: &[(u32, &str, usize, &str, &str, &str)] = &[
    // brackets nest to 400
    (0, "(", 400, "1", ")", "read"),
    (0, "(", 401, "1", ")", "deep"),
    (399, "(", 1, "1", ")", "read"),
    (400, "(", 0, "1", ")", "read"),
    (400, "(", 1, "1", ")", "deep"),
    // trees are 200 deep
    (0, "~ ", 199, "x", "", "read"),
    (0, "~ ", 200, "x", "", "deep"),
    (0, "", 199, "x", "+ x", "read"),
    (0, "", 200, "x", "+ x", "deep"),
    // a list and its operator are a level each
    (0, "[", 99, "~ x", "]", "read"),
    (0, "[", 100, "x", "]", "deep"),
    // both limits at once
    (0, "~ (", 199, "x", ")", "read"),
    (0, "~ (", 500, "x", ")", "deep"),
    // past the limits it is still seen that there is no tree
    (0, "~ (", 500, "x +", ")", "no tree"),
    (0, "~ (", 500, "x))", ")", "no tree"),
    (400, "(", 500, "let", ")", "no tree"),
    // long texts
    (0, "(", 100_000, "", "", "no tree"),
    (0, "(", 100_000, "x", ")", "deep"),
    (0, "~ ", 100_000, "x", "", "deep"),
    (0, "[", 100_000, "x", "]", "deep"),
    (0, "x + ", 100_000, "x", "", "deep"),
];

fn text_of(alloc: Global, nested: &Nested) -> Result<String, AllocError> {
    let mut text = String::new(alloc);
    for _ in 0..nested.times {
        text.push_str(nested.front)?;
    }
    text.push_str(nested.middle)?;
    for _ in 0..nested.times {
        text.push_str(nested.back)?;
    }
    Ok(text)
}

/// Whether the text is read, or why not.
fn outcome(
    alloc: Global,
    definition: &Definition,
    nested: &Nested,
) -> Result<&'static str, AllocError>
    requires sound { IsSound definition.now }
    requires class { IsClass definition.now }
    requires around { nested.now.around ≤ MOST_BRACKETS }
{
    let text = text_of(alloc, nested)?;
    let tokens = tokens(alloc, definition, text.as_str())?;
    let goal = Goal {
        kind: Kind::Phylum(0),
        least: 0,
        around: nested.around,
    };
    match tree(alloc, definition, goal, tokens.as_slice()) {
        Ok(_) => Ok("read"),
        Err(ParseFault::NoTree) => Ok("no tree"),
        Err(ParseFault::Deep) => Ok("deep"),
        Err(ParseFault::Memory) => Err(AllocError),
    }
}

#[test]
fn deep_and_long_texts(rt: HostRuntime) -> Result<(), Fail> {
    let definition = expressions(rt.alloc(), "infixl 4", "unfinished")?;
    for (around, front, times, middle, back, expected) in ROWS {
        assert!(rt; *around <= MOST_BRACKETS);
        let nested = Nested {
            around: *around,
            front,
            times: *times,
            middle,
            back,
        };
        let said = outcome(rt.alloc(), &definition, &nested)?;
        assert!(rt;
            said == *expected,
            "{around} {front} {times} {middle}: {said}"
        );
    }
    Ok(())
}
