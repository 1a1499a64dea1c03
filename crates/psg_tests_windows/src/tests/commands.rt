//! Commands, paths and cursors from texts.
use psg_script::{Command, Where, read_command};
use psg_tree::Path;
use psg_windows::Cursors;
use std::alloc::{AllocError, Global};
use std::fmt::Write;
use std::process::Abort;
use std::test::Fail;

/// The command that a line spells.
pub(super) fn command(alloc: Global, line: &str) -> Result<Command, Fail> {
    Ok(read_command(alloc, line.as_bytes())?)
}

/// The path of a text, as `/1/0`.
pub(super) fn path(rt: &impl Abort, alloc: Global, text: &str) -> Result<Path, Fail> {
    let line = format!(in alloc; "goto {text}")?;
    match command(alloc, line.as_str())? {
        Command::Goto {
            at: Where::At(path),
        } => Ok(path),
        _ => panic!(rt; "no path: {text}"),
    }
}

/// The text of a path, as `/1/0`.
fn push_path(text: &mut String, steps: &[u32]) -> Result<(), AllocError> {
    if steps.is_empty() {
        return text.push('/');
    }
    for step in steps {
        write!(text, "/{step}")?;
    }
    Ok(())
}

/// The paths of the cursors, with a space between them, as `/ /0 /1/2 / / / / /`.
pub(super) fn texts(alloc: Global, cursors: &Cursors) -> Result<String, AllocError> {
    let mut text = String::new(alloc);
    for window in 0..8u32 {
        if window > 0 {
            text.push(' ')?;
        }
        push_path(&mut text, cursors.cursor(window).steps())?;
    }
    Ok(text)
}
