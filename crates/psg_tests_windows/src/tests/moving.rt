//! Lines of windows, each with the editor's cursor after it, and where all cursors are then.
use super::commands::{command, path, texts};
use psg_windows::Cursors;
use std::alloc::Global;
use std::process::Abort;
use std::test::Fail;

/// A line of a window, the editor's cursor after it, and the cursors of all windows then.
type Row = (u32, &'static str, &'static str, &'static str);

/// The window's own cursor follows it; another one stays at its element, and goes up where that goes.
const ELEMENTS: &[Row] = &[
    (0, "new Stats", "/", "/ / / / / / / /"),
    (1, "goto /", "/", "/ / / / / / / /"),
    (0, "insert / 0 skip", "/0", "/0 / / / / / / /"),
    (1, "goto /0", "/0", "/0 /0 / / / / / /"),
    (0, "insert / 0 while", "/0", "/0 /1 / / / / / /"),
    (1, "goto .", "/1", "/0 /1 / / / / / /"),
    (0, "remove / 1", "/", "/ / / / / / / /"),
];

/// Cursors before, at and after the place of a list, and below the element there.
const PLACES: &[Row] = &[
    (1, "goto /1/0", "/1/0", "/ /1/0 / / / / / /"),
    (2, "goto /0", "/0", "/ /1/0 /0 / / / / /"),
    (3, "goto /1", "/1", "/ /1/0 /0 /1 / / / /"),
    (0, "insert / 1 skip", "/1", "/1 /2/0 /0 /2 / / / /"),
    (0, "remove / 2", "/", "/ / /0 / / / / /"),
    (3, "goto /2", "/2", "/ / /0 /2 / / / /"),
    (0, "remove / 1", "/", "/ / /0 /1 / / / /"),
    (0, "paste / 0 a", "/0", "/0 / /1 /2 / / / /"),
];

/// Cursors below and beside a node that is replaced, and at it.
const NODES: &[Row] = &[
    (1, "goto /0/1", "/0/1", "/ /0/1 / / / / / /"),
    (2, "goto /1/0", "/1/0", "/ /0/1 /1/0 / / / / /"),
    (3, "goto /0", "/0", "/ /0/1 /1/0 /0 / / / /"),
    (0, "cut /0", "/0", "/0 /0 /1/0 /0 / / / /"),
    (1, "goto /0/2/5", "/0/2/5", "/0 /0/2/5 /1/0 /0 / / / /"),
    (7, "over /0/2 x", "/0/2", "/0 /0/2 /1/0 /0 / / / /0/2"),
    (0, "paste /0 a", "/0", "/0 /0 /1/0 /0 / / / /0"),
    (3, "goto /1/0/0", "/1/0/0", "/0 /0 /1/0 /1/0/0 / / / /0"),
    (0, "refine /1/0 num 1", "/1/0", "/1/0 /0 /1/0 /1/0 / / / /0"),
];

/// Another version of the program, or a text of it, sets the others to the top. A question and the end of a list leave
/// them.
const WHOLE: &[Row] = &[
    (1, "goto /1", "/1", "/ /1 / / / / / /"),
    (0, "undo", "/", "/ / / / / / / /"),
    (1, "goto /1", "/1", "/ /1 / / / / / /"),
    (0, "redo", "/", "/ / / / / / / /"),
    (1, "goto /0/3", "/0/3", "/ /0/3 / / / / / /"),
    (0, "goto /2", "/2", "/2 /0/3 / / / / / /"),
    (1, "own .", "/2", "/2 /0/3 / / / / / /"),
    (0, "close /", "/", "/ /0/3 / / / / / /"),
    (0, "reopen /", "/", "/ /0/3 / / / / / /"),
    (2, "save a /0", "/", "/ /0/3 / / / / / /"),
    (2, "keep a f", "/", "/ /0/3 / / / / / /"),
    (2, "fetch f", "/", "/ /0/3 / / / / / /"),
    (0, "range 0 1 7", "/", "/ / / / / / / /"),
];

/// The cursors after a line of a window.
fn played(rt: &impl Abort, alloc: Global, cursors: &Cursors, row: &Row) -> Result<Cursors, Fail> {
    let (window, line, own, _) = *row;
    assert!(rt; window < 8);
    assert!(rt; cursors.has_room());
    let written = command(alloc, line)?;
    let resolved = cursors.resolved(alloc, window, &written)?;
    let own = path(rt, alloc, own)?;
    Ok(cursors.moved(alloc, window, &resolved, &own)?)
}

fn are_played(rt: &impl Abort, alloc: Global, rows: &[Row]) -> Result<(), Fail> {
    let mut cursors = Cursors::new(alloc)?;
    for row in rows {
        cursors = played(rt, alloc, &cursors, row)?;
        let found = texts(alloc, &cursors)?;
        assert_eq!(rt; found.as_str(), row.3, "after {:?}", row.1);
    }
    Ok(())
}

#[test]
fn cursors_move(rt: HostRuntime) -> Result<(), Fail> {
    for rows in [ELEMENTS, PLACES, NODES, WHOLE] {
        are_played(&rt, rt.alloc(), rows)?;
    }
    Ok(())
}

#[test]
fn largest_steps_have_no_room(rt: HostRuntime) -> Result<(), Fail> {
    let alloc = rt.alloc();
    let row = (5, "goto /4294967294", "/4294967294", "");
    let cursors = played(&rt, alloc, &Cursors::new(alloc)?, &row)?;
    assert!(&rt; cursors.has_room());
    let row = (6, "goto /0/4294967295", "/0/4294967295", "");
    let cursors = played(&rt, alloc, &cursors, &row)?;
    assert!(&rt; !cursors.has_room());
    Ok(())
}
