//! A slow reference, which finds all trees of a text by splitting it, beside the parser.
ghost use Rattle.std.specs.Prelude.{length};
ghost use Rattle.psg_grammar.specs.Sound.{IsSound};
ghost use Rattle.psg_class.specs.Class.{IsClass};

use super::languages::{expressions, tree};
use psg_grammar::{Definition, Kind};
use psg_lexis::{Spanned, Token};
use psg_parse::{Goal, ParseFault};
use psg_terms::Txt;
use psg_tree::abstract_text;
use std::alloc::{AllocError, Global};
use std::process::Abort;
use std::test::Fail;

/// The level of an operator between two trees, and what it asks of them.
#[derive(Clone, Copy)]
struct Between {
    level: u8,
    left: u8,
    right: u8,
}

/// Sums bind to the left at 4.
const SUMS: Between = Between {
    level: 4,
    left: 4,
    right: 5,
};

/// The letters for tokens; `n` is for `not`, which binds at 3.
const LETTERS: [u8; 6] = [b'x', b'+', b'-', b'n', b'(', b')'];

/// The texts of all trees of at least the level. Each way to split the letters is tried.
fn trees(
    alloc: Global,
    letters: &[u8],
    least: u8,
    minus: Between,
) -> Result<Vec<String>, AllocError> {
    let mut found = Vec::new(alloc);
    let Some((first, rest)) = letters.split_first() else {
        return Ok(found);
    };
    if *first == b'x' && rest.is_empty() {
        found.push(String::from_str(alloc, "ex")?)?;
    }
    if *first == b'n' && least <= 3 {
        for tree in trees(alloc, rest, 3, minus)? {
            found.push(format!(in alloc; "not({tree})")?)?;
        }
    }
    if let Some((last, inside)) = rest.split_last() {
        if *first == b'(' && *last == b')' {
            for tree in trees(alloc, inside, 0, minus)? {
                found.push(tree)?;
            }
        }
    }
    for place in 0..letters.len() {
        let (name, between) = match letters[place] {
            b'+' => ("plus", SUMS),
            b'-' => ("minus", minus),
            _ => continue,
        };
        if between.level < least {
            continue;
        }
        let left = trees(alloc, &letters[..place], between.left, minus)?;
        let right = trees(alloc, &letters[place + 1..], between.right, minus)?;
        join(alloc, &mut found, name, left.as_slice(), right.as_slice())?;
    }
    Ok(found)
}

fn join(
    alloc: Global,
    found: &mut Vec<String>,
    name: &str,
    left: &[String],
    right: &[String],
) -> Result<(), AllocError> {
    for first in left {
        for second in right {
            found.push(format!(in alloc; "{name}({first},{second})")?)?;
        }
    }
    Ok(())
}

fn token(alloc: Global, letter: u8) -> Result<Spanned, AllocError> {
    let token = match letter {
        b'x' => Token::Word(Txt::copy_of(alloc, "x")?),
        b'n' => Token::Word(Txt::copy_of(alloc, "not")?),
        b'+' => Token::Symbol(Txt::copy_of(alloc, "+")?),
        b'-' => Token::Symbol(Txt::copy_of(alloc, "-")?),
        _ => Token::Solo(letter),
    };
    Ok(Spanned {
        token,
        start: 0,
        end: 0,
    })
}

/// The abstract text of the tree that the parser finds.
fn parsed(alloc: Global, definition: &Definition, tokens: &[Spanned]) -> Result<String, AllocError>
    requires sound { IsSound definition.now }
    requires class { IsClass definition.now }
{
    let goal = Goal {
        kind: Kind::Phylum(0),
        least: 0,
        around: 0,
    };
    match tree(alloc, definition, goal, tokens) {
        Ok(tree) => abstract_text(alloc, definition, &tree),
        Err(ParseFault::NoTree) => String::from_str(alloc, "no tree"),
        Err(_) => Err(AllocError),
    }
}

/// Compares the parser with the reference on the letters.
fn agrees(
    rt: &impl Abort,
    alloc: Global,
    definition: &Definition,
    letters: &[u8],
    minus: Between,
) -> Result<(), AllocError>
    requires sound { IsSound definition.now }
    requires class { IsClass definition.now }
{
    let mut tokens = Vec::new(alloc);
    for letter in letters {
        tokens.push(token(alloc, *letter)?)?;
    }
    let said = parsed(alloc, definition, tokens.as_slice())?;
    let found = trees(alloc, letters, 0, minus)?;
    match found.as_slice().split_first() {
        None => assert!(rt; said.as_str() == "no tree"),
        Some((tree, others)) => {
            assert!(rt; others.is_empty());
            assert!(rt; said.as_str() == tree.as_str());
        }
    }
    Ok(())
}

/// The list of the given number of letters that has the digits of the number.
fn letters_of(alloc: Global, number: u64, count: usize) -> Result<Vec<u8>, AllocError> {
    let mut letters = Vec::new(alloc);
    let mut left = number;
    for _ in 0..count {
        letters.push(LETTERS[(left % 6) as usize])?;
        left /= 6;
    }
    Ok(letters)
}

/// All lists of at most six letters, where differences have this level.
fn agrees_on_all(rt: &impl Abort, alloc: Global, level: &str, minus: Between) -> Result<(), Fail> {
    let definition = expressions(alloc, level, "unfinished")?;
    let mut lists = 1u64;
    for count in 0..7 {
        for number in 0..lists {
            let letters = letters_of(alloc, number, count)?;
            agrees(rt, alloc, &definition, letters.as_slice(), minus)?;
        }
        lists = lists.saturating_mul(6);
    }
    Ok(())
}

#[test]
fn short_texts_to_the_left(rt: HostRuntime) -> Result<(), Fail> {
    agrees_on_all(&rt, rt.alloc(), "infixl 4", SUMS)
}

#[test]
fn short_texts_to_the_right(rt: HostRuntime) -> Result<(), Fail> {
    let minus = Between {
        level: 5,
        left: 6,
        right: 5,
    };
    agrees_on_all(&rt, rt.alloc(), "infixr 5", minus)
}

#[test]
fn short_texts_neither_way(rt: HostRuntime) -> Result<(), Fail> {
    let minus = Between {
        level: 2,
        left: 3,
        right: 3,
    };
    agrees_on_all(&rt, rt.alloc(), "infix 2", minus)
}
