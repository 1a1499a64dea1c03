//! How long files, how deep trees and how wide relations may be.
use super::{CHECK, EDIT, NONE, SUM, SUM_OUTPUT, ends, plays, run_words};
use psg_langs::CONSTS;
use psg_run::Status;
use std::alloc::{AllocError, Global};
use std::test::Fail;

/// The words, the bytes of the definition and of the script, how the run ends, and what it has written.
const LENGTHS: &[(&[&str], (usize, usize), Status, &str)] = &[
    (CHECK, (1_048_577, 0), Status::TooLong, ""),
    (EDIT, (1_048_576, 0), Status::Done, SUM_OUTPUT),
    (EDIT, (1_048_577, 0), Status::TooLong, ""),
    (EDIT, (0, 4_194_304), Status::Done, SUM_OUTPUT),
    (EDIT, (0, 4_194_305), Status::TooLong, ""),
];

/// The text, and then empty lines up to the length.
fn filled(alloc: Global, text: &str, length: usize) -> Result<Vec<u8>, AllocError> {
    let mut bytes = Vec::with_capacity(alloc, length)?;
    bytes.extend_from_slice(text.as_bytes())?;
    for _ in text.len()..length {
        bytes.push(b'\n')?;
    }
    Ok(bytes)
}

/// A sum in the left part of a sum, the given number of times, and what is answered.
fn deep(alloc: Global, count: usize, last: &str) -> Result<(String, String), AllocError> {
    let mut script = String::from_str(alloc, "new Exp\n")?;
    let mut output = String::from_str(alloc, "ok\n")?;
    let mut path = String::from_str(alloc, "/")?;
    for i in 0..count {
        script.push_str("refine ")?;
        script.push_str(path.as_str())?;
        script.push_str(" plus\n")?;
        output.push_str(if i + 1 < count { "ok\n" } else { last })?;
        path.push_str(if i == 0 { "0" } else { "/0" })?;
    }
    Ok((script, output))
}

/// The given number of constants, as arguments.
fn arguments(text: &mut String, piece: &str, count: usize) -> Result<(), AllocError> {
    for i in 0..count {
        if i > 0 {
            text.push_str(",")?;
        }
        text.push_str(piece)?;
    }
    Ok(())
}

fn applied(text: &mut String, name: &str, piece: &str, count: usize) -> Result<(), AllocError> {
    text.push_str(name)?;
    text.push_str("(")?;
    arguments(text, piece, count)?;
    text.push_str(")")?;
    Ok(())
}

/// A box of 64 lines of 128 constructors; the line of the number, if there is one, has one less.
fn boxed(text: &mut String, shorter: usize) -> Result<(), AllocError> {
    text.push_str("x(")?;
    for i in 0..64 {
        if i > 0 {
            text.push_str(",")?;
        }
        if i == shorter {
            applied(text, "q", "a", 126)?;
        } else {
            applied(text, "r", "a", 127)?;
        }
    }
    text.push_str(")")?;
    Ok(())
}

/// A language whose one placeholder has two values of 8,192 constructors, or one of them one more. Each operator has
/// one of the values.
fn boxes(alloc: Global, full: bool) -> Result<String, AllocError> {
    let mut text = String::from_str(alloc, "psg 1\nsort Bit = a b\nsort Line = ")?;
    applied(&mut text, "r", "Bit", 127)?;
    text.push_str(" ")?;
    applied(&mut text, "q", "Bit", 126)?;
    text.push_str("\nsort Box = ")?;
    applied(&mut text, "x", "Line", 64)?;
    text.push_str(" y\nphylum P : Box\nop o : P = \"o\"\nrow ")?;
    let shorter = if full { 64 } else { 1 };
    boxed(&mut text, 0)?;
    text.push_str("\nop p : P = \"p\"\nrow ")?;
    boxed(&mut text, shorter)?;
    text.push_str("\nhole P ")?;
    boxed(&mut text, 0)?;
    text.push_str(" by o\nhole P ")?;
    boxed(&mut text, shorter)?;
    text.push_str(" by p\n")?;
    Ok(text)
}

#[test]
fn files_are_too_long_by_one_byte(rt: HostRuntime) -> Result<(), Fail> {
    for (words, (definition, script), status, output) in LENGTHS {
        let definition = filled(rt.alloc(), CONSTS, *definition)?;
        let script = filled(rt.alloc(), SUM, *script)?;
        let definition = definition.as_slice();
        let run = run_words(rt.alloc(), words, definition, script.as_slice(), NONE)?;
        ends(&rt, &run, *status, output);
    }
    assert!(rt; Status::TooLong.code() == 6);
    Ok(())
}

#[test]
fn a_tree_of_more_than_200_levels_is_refused(rt: HostRuntime) -> Result<(), Fail> {
    for (count, last) in [(199, "ok\n"), (200, "refused 9\n")] {
        let (script, output) = deep(rt.alloc(), count, last)?;
        plays(&rt, rt.alloc(), CONSTS, script.as_str(), output.as_str())?;
    }
    Ok(())
}

#[test]
fn a_relation_is_too_wide_by_one(rt: HostRuntime) -> Result<(), Fail> {
    for (full, output) in [(false, "ok\n"), (true, "refused 10\n")] {
        let definition = boxes(rt.alloc(), full)?;
        plays(&rt, rt.alloc(), definition.as_str(), "new P\n", output)?;
    }
    Ok(())
}
