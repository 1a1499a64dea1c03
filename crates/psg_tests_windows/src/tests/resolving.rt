//! Commands with a window's cursor in place of `.`.
use super::commands::{command, path};
use psg_script::{Command, Where};
use psg_windows::Cursors;
use std::alloc::Global;
use std::process::Abort;
use std::test::Fail;

/// Lines at the cursor.
const AT_CURSOR: &[&str] = &[
    "goto .",
    "refine . plus",
    "insert . 4 num 7",
    "cut .",
    "remove . 3",
    "close .",
    "reopen .",
    "over . x + 1",
    "relation .",
    "own .",
    "menu .",
    "menu . 2",
    "names . ref",
    "save f .",
    "paste . f",
    "paste . 0 f",
];

/// Lines at another node.
const ELSEWHERE: &[&str] = &["goto /5", "insert /5 0 skip", "over /5 x", "save f /5"];

/// Lines that name no place.
const NOWHERE: &[&str] = &[
    "new Stat",
    "range 0 1 x",
    "show",
    "screen 0 0 1 1",
    "free",
    "undo",
    "redo",
    "keep f g",
    "fetch g",
];

/// The place that a command names.
fn place_of(command: &Command) -> Option<&Where> {
    match command {
        Command::Goto { at }
        | Command::Refine { at, .. }
        | Command::Insert { at, .. }
        | Command::Cut { at }
        | Command::Remove { at, .. }
        | Command::Close { at }
        | Command::Reopen { at }
        | Command::Over { at, .. }
        | Command::Relation { at }
        | Command::Own { at }
        | Command::Menu { at, .. }
        | Command::Names { at, .. }
        | Command::Save { at, .. }
        | Command::Paste { at, .. } => Some(at),
        _ => None,
    }
}

/// The steps of the path that a command names.
fn steps_of(command: &Command) -> Option<&[u32]> {
    match place_of(command)? {
        Where::At(path) => Some(path.steps()),
        Where::Cursor => None,
    }
}

/// The cursors after window 3 went to a path.
fn at_path(rt: &impl Abort, alloc: Global, text: &str) -> Result<Cursors, Fail> {
    let cursors = Cursors::new(alloc)?;
    assert!(rt; cursors.has_room());
    let line = command(alloc, "goto .")?;
    let line = cursors.resolved(alloc, 3, &line)?;
    let own = path(rt, alloc, text)?;
    Ok(cursors.moved(alloc, 3, &line, &own)?)
}

fn are_resolved(
    rt: &impl Abort,
    alloc: Global,
    cursors: &Cursors,
    lines: &[&str],
    steps: Option<&[u32]>,
) -> Result<(), Fail> {
    for line in lines {
        let found = cursors.resolved(alloc, 3, &command(alloc, line)?)?;
        assert!(rt; steps_of(&found) == steps, "at {line:?}");
    }
    Ok(())
}

#[test]
fn cursors_are_put_in_place(rt: HostRuntime) -> Result<(), Fail> {
    let alloc = rt.alloc();
    let cursors = at_path(&rt, alloc, "/1/0/2")?;
    are_resolved(&rt, alloc, &cursors, AT_CURSOR, Some(&[1, 0, 2]))?;
    are_resolved(&rt, alloc, &cursors, ELSEWHERE, Some(&[5]))?;
    are_resolved(&rt, alloc, &cursors, NOWHERE, None)?;
    Ok(())
}

#[test]
fn other_parts_stay(rt: HostRuntime) -> Result<(), Fail> {
    let alloc = rt.alloc();
    let cursors = Cursors::new(alloc)?;
    let found = cursors.resolved(alloc, 0, &command(alloc, "names . 2 ref")?)?;
    let is_same = match &found {
        Command::Names { place, op, .. } => *place == Some(2) && op.as_str() == "ref",
        _ => false,
    };
    assert!(&rt; is_same);
    let found = cursors.resolved(alloc, 0, &command(alloc, "keep f out.psg")?)?;
    let is_same = match &found {
        Command::Keep { name, file } => name.as_str() == "f" && file.as_str() == "out.psg",
        _ => false,
    };
    assert!(&rt; is_same);
    Ok(())
}
