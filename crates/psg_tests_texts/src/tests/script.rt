//! Lines of scripts, and the commands that they spell.
use super::repeated;
use psg_script::{Command, CommandFault, command_text, make_script, read_command};
use std::alloc::{AllocError, Global};
use std::process::Abort;
use std::test::Fail;

/// Lines that are written as they are read.
const FORMS: &[&str] = &[
    "new Stat",
    "goto .",
    "goto /",
    "goto /0/12/4294967295",
    "refine /0 plus",
    "refine /0 ref x y  ",
    "insert /1 0 num 7",
    "insert . 4294967295 skip",
    "cut /0",
    "remove / 3",
    "close .",
    "reopen /2",
    "over / 変数 + 1",
    "range 5 6 12 + z",
    "range 0 1",
    "show",
    "screen 0 1 1 1",
    "screen 4294967295 4294967295 200 400",
    "relation /1",
    "own /",
    "menu /0",
    "menu /0 2",
    "names /0 ref",
    "names /0 2 ref",
    "free",
    "undo",
    "redo",
    "save f_1 /",
    "paste / f",
    "paste / 0 f",
    "keep f out.psg",
    "fetch 変/数.psg",
];

/// Lines with spaces, and how they are written.
const SPACES: &[(&str, &str)] = &[
    ("new   Stat  ", "new Stat"),
    ("goto  /0 ", "goto /0"),
    ("show  ", "show"),
    ("over /", "over /"),
    ("over /   ", "over /"),
    ("over /  a  b ", "over / a  b "),
    ("over / \t", "over / \t"),
    ("refine / op  ", "refine / op"),
    ("insert  /  0  op  x  ", "insert / 0 op x  "),
    ("names  /  0  op ", "names / 0 op"),
];

/// Lines that are no commands.
const REFUSED: &[&str] = &[
    "",
    " ",
    " show",
    "sho",
    "shows",
    "Show",
    "show\t",
    "show x",
    "undo 1",
    "new",
    "new Stat x",
    "new 1a",
    "new _a",
    "new a-b",
    "new é",
    "new\tStat",
    "goto",
    "goto 0",
    "goto //",
    "goto /0/",
    "goto /0//1",
    "goto /01",
    "goto /00",
    "goto /-1",
    "goto /4294967296",
    "goto ..",
    "goto ./0",
    "goto /0 x",
    "refine /",
    "refine / 1",
    "insert / 0",
    "insert /0 plus x",
    "remove /",
    "remove / 01",
    "remove / +1",
    "remove / 4294967296",
    "remove / 18446744073709551616",
    "over",
    "range 1",
    "range 1 a",
    "range 01 2 x",
    "screen 0 0 0 80",
    "screen 0 0 201 80",
    "screen 0 0 1 0",
    "screen 0 0 1 401",
    "screen 0 0 1",
    "screen 0 0 1 1 1",
    "menu",
    "menu / x",
    "menu / 0 0",
    "names /",
    "names / 0",
    "names / op 0",
    "names / 0 op x",
    "save /",
    "save / f",
    "paste / 0 1",
    "paste f /",
    "keep f",
    "keep f a b",
    "fetch",
    "fetch a b",
];

/// A front and a number of letters `a`, and whether that is a command.
const LONG: &[(&str, usize, bool)] = &[
    ("new ", 64, true),
    ("new ", 65, false),
    ("fetch ", 255, true),
    ("fetch ", 256, false),
];

/// Bytes that are no text.
const NO_TEXTS: &[&[u8]] = &[b"\xff", b"over / \xe5\xa4"];

/// The scripts for one variable and for three.
const SCRIPTS: &[(u32, &[u8])] = &[
    (
        1,
        b"new Stat\nrefine / block\n\
        insert /0 0 vardecl v0\nrefine /0/0/0 tint\n\
        close /0\n\
        insert /1 0 assign v0\nrefine /1/0/0 plus\nrefine /1/0/0/0 ref v0\nrefine /1/0/0/1 num 0\n\
        insert /1 0 while\nmenu /1/0/0\n",
    ),
    (
        3,
        b"new Stat\nrefine / block\n\
        insert /0 0 vardecl v2\nrefine /0/0/0 tint\n\
        insert /0 0 vardecl v1\nrefine /0/0/0 tint\n\
        insert /0 0 vardecl v0\nrefine /0/0/0 tint\n\
        close /0\n\
        insert /1 0 assign v2\nrefine /1/0/0 plus\nrefine /1/0/0/0 ref v2\nrefine /1/0/0/1 num 2\n\
        insert /1 0 assign v1\nrefine /1/0/0 plus\nrefine /1/0/0/0 ref v1\nrefine /1/0/0/1 num 1\n\
        insert /1 0 assign v0\nrefine /1/0/0 plus\nrefine /1/0/0/0 ref v0\nrefine /1/0/0/1 num 0\n\
        insert /1 0 while\nmenu /1/0/0\n",
    ),
];

/// The shortest line of the command that a line spells, or why it spells none.
fn outcome(alloc: Global, line: &[u8]) -> Result<String, AllocError> {
    match read_command(alloc, line) {
        Ok(command) => command_text(alloc, &command),
        Err(CommandFault::NotText) => String::from_str(alloc, "not text"),
        Err(CommandFault::Form) => String::from_str(alloc, "no form"),
        Err(CommandFault::Memory) => String::from_str(alloc, "no memory"),
    }
}

fn is_answered(
    rt: &impl Abort,
    alloc: Global,
    line: &[u8],
    expected: &str,
) -> Result<(), AllocError> {
    let found = outcome(alloc, line)?;
    assert_eq!(rt; found.as_str(), expected, "at {line:?}");
    Ok(())
}

/// Whether the command asks for the names at this place of a node that the operator may have.
fn is_names(command: &Command, number: u32, name: &str) -> bool {
    match command {
        Command::Names { place, op, .. } => *place == Some(number) && op.as_str() == name,
        _ => false,
    }
}

/// Whether the command shows this part of the program.
fn is_screen(command: &Command, numbers: [u32; 4]) -> bool {
    match command {
        Command::Screen {
            top,
            left,
            rows,
            cols,
        } => [*top, *left, *rows, *cols] == numbers,
        _ => false,
    }
}

#[test]
fn lines_are_read_and_written(rt: HostRuntime) -> Result<(), Fail> {
    let alloc = rt.alloc();
    for line in FORMS {
        is_answered(&rt, alloc, line.as_bytes(), line)?;
    }
    for (line, expected) in SPACES {
        is_answered(&rt, alloc, line.as_bytes(), expected)?;
    }
    for line in REFUSED {
        is_answered(&rt, alloc, line.as_bytes(), "no form")?;
    }
    for bytes in NO_TEXTS {
        is_answered(&rt, alloc, bytes, "not text")?;
    }
    Ok(())
}

#[test]
fn names_and_files_are_bounded(rt: HostRuntime) -> Result<(), Fail> {
    for (front, letters, is_command) in LONG {
        let line = repeated(rt.alloc(), front, "a", *letters, "")?;
        let text = line.as_str();
        let expected = if *is_command { text } else { "no form" };
        is_answered(&rt, rt.alloc(), text.as_bytes(), expected)?;
    }
    Ok(())
}

#[test]
fn parts_of_commands(rt: HostRuntime) -> Result<(), Fail> {
    let names = read_command(rt.alloc(), b"names /7 2 ref")?;
    assert!(rt; is_names(&names, 2, "ref"));
    let screen = read_command(rt.alloc(), b"screen 1 2 3 4")?;
    assert!(rt; is_screen(&screen, [1, 2, 3, 4]));
    Ok(())
}

#[test]
fn scripts_are_made(rt: HostRuntime) -> Result<(), Fail> {
    for (count, expected) in SCRIPTS {
        assert!(rt; make_script(rt.alloc(), *count)?.as_slice() == *expected);
    }
    Ok(())
}
