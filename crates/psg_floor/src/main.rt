//! `psg_floor ELEMENTS NAMES TIMES`: the least that it takes to know the suffixes of a list again.
//!
//! The list has this number of elements, each of which uses one of this number of names. Each time the list is walked
//! from its end: the header of an element is joined with that of the rest after it, and a row with a term for each key
//! is shared. Nothing is evaluated, compared or put in order. Each walk writes how many keys the list has.
//! `bench/floor` compares this with what psg takes for a changed element.
#![tactic(auto)]

ghost use Rattle.std.specs.Prelude.{◌<◌, IfSome};

mod element;
mod suffixes;

use crate::element::{elements, names};
use crate::suffixes::counted;
use psg_terms::{ConId, Term};
use std::alloc::{AllocError, Global};
use std::env;
use std::process::ExitCode;

/// What the words ask for.
#[derive(Drop)]
struct Request {
    elements: usize,
    names: usize,
    rounds: usize,
}

fn number(word: &str) -> Option<usize> {
    match word.parse::<u32>() {
        Ok(number) => Some(number as usize),
        Err(_) => None,
    }
}

/// Returns the numbers that three words are. There is at least one name to use.
fn asked(words: &[String]) -> Option<Request>
    ensures { IfSome result (λ c. 0 < c.names) }
{
    let [elements, names, rounds] = words else {
        return None;
    };
    let elements = number(elements.as_str())?;
    let names = number(names.as_str())?;
    let rounds = number(rounds.as_str())?;
    if names == 0 {
        return None;
    }
    Some(Request {
        elements,
        names,
        rounds,
    })
}

/// Returns how many keys the list has, that many times as are asked for.
fn answers(alloc: Global, request: &Request) -> Result<Vec<usize>, AllocError>
    requires { 0 < request.now.names }
{
    let names = names(alloc, request.names)?;
    let elements = elements(alloc, names.as_slice(), request.elements)?;
    let term = Term::apply(alloc, ConId(0), Vec::new(alloc))?;
    counted(alloc, elements.as_slice(), &term, request.rounds)
}

fn main(rt: HostRuntime) -> ExitCode {
    let alloc = rt.alloc();
    let Ok(words) = env::args(&rt) else {
        return ExitCode::from(2);
    };
    let Ok(words) = words.skip(1).collect::<Vec<String>>(alloc) else {
        return ExitCode::from(5);
    };
    let Some(request) = asked(words.as_slice()) else {
        return ExitCode::from(2);
    };
    let Ok(answers) = answers(alloc, &request) else {
        return ExitCode::from(5);
    };
    for count in answers {
        if println!(rt; "{count}").is_err() {
            return ExitCode::from(4);
        }
    }
    ExitCode::from(0)
}
