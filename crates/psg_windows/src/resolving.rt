//! Commands with a path in place of the cursor.
ghost use Rattle.std.specs.Prelude.{◌≡◌, IfOk, None};
ghost use Rattle.psg_windows.specs.Resolving as plain;

use psg_script::{Command, Where};
use psg_tree::Path;
use std::alloc::{AllocError, Global};

/// Returns the place, with the path where it is the cursor.
fn at_path(alloc: Global, cursor: &Path, place: &Where) -> Result<Where, AllocError>
    ensures { IfOk result (λ at. at ≡ plain.at_path cursor.now place.now) }
{
    match place {
        Where::Cursor => Ok(Where::At(Path::of(alloc, cursor.steps())?)),
        Where::At(path) => Ok(Where::At(Path::of(alloc, path.steps())?)),
    }
}

/// Returns the command, with the path where it names the cursor.
pub fn resolve(alloc: Global, cursor: &Path, command: &Command) -> Result<Command, AllocError>
    ensures resolved { IfOk result (λ c. c ≡ plain.resolved cursor.now command.now) }
    ensures none { IfOk result (λ c. plain.IsResolved c) }
{
    match command {
        Command::Goto { at } => Ok(Command::Goto {
            at: at_path(alloc, cursor, at)?,
        }),
        Command::Refine { at, op, args } => Ok(Command::Refine {
            at: at_path(alloc, cursor, at)?,
            op: op.share()?,
            args: args.share()?,
        }),
        Command::Insert {
            at,
            place,
            op,
            args,
        } => Ok(Command::Insert {
            at: at_path(alloc, cursor, at)?,
            place: *place,
            op: op.share()?,
            args: args.share()?,
        }),
        Command::Cut { at } => Ok(Command::Cut {
            at: at_path(alloc, cursor, at)?,
        }),
        Command::Remove { at, place } => Ok(Command::Remove {
            at: at_path(alloc, cursor, at)?,
            place: *place,
        }),
        Command::Close { at } => Ok(Command::Close {
            at: at_path(alloc, cursor, at)?,
        }),
        Command::Reopen { at } => Ok(Command::Reopen {
            at: at_path(alloc, cursor, at)?,
        }),
        Command::Over { at, text } => Ok(Command::Over {
            at: at_path(alloc, cursor, at)?,
            text: text.share()?,
        }),
        Command::Relation { at } => Ok(Command::Relation {
            at: at_path(alloc, cursor, at)?,
        }),
        Command::Own { at } => Ok(Command::Own {
            at: at_path(alloc, cursor, at)?,
        }),
        Command::Menu { at, place } => Ok(Command::Menu {
            at: at_path(alloc, cursor, at)?,
            place: *place,
        }),
        Command::Names { at, place, op } => Ok(Command::Names {
            at: at_path(alloc, cursor, at)?,
            place: *place,
            op: op.share()?,
        }),
        Command::Save { name, at } => Ok(Command::Save {
            name: name.share()?,
            at: at_path(alloc, cursor, at)?,
        }),
        Command::Paste { at, place, name } => Ok(Command::Paste {
            at: at_path(alloc, cursor, at)?,
            place: *place,
            name: name.share()?,
        }),
        Command::New { .. }
        | Command::Range { .. }
        | Command::Show
        | Command::Screen { .. }
        | Command::Free
        | Command::Undo
        | Command::Redo
        | Command::Keep { .. }
        | Command::Fetch { .. } => copy_of(command),
    }
}

/// Returns a copy of a command that names no place.
fn copy_of(command: &Command) -> Result<Command, AllocError>
    requires { plain.place_of command.now ≡ None }
    ensures { IfOk result (λ c. c ≡ command.now) }
{
    match command {
        Command::New { phylum } => Ok(Command::New {
            phylum: phylum.share()?,
        }),
        Command::Range { start, end, text } => Ok(Command::Range {
            start: *start,
            end: *end,
            text: text.share()?,
        }),
        Command::Show => Ok(Command::Show),
        Command::Screen {
            top,
            left,
            rows,
            cols,
        } => Ok(Command::Screen {
            top: *top,
            left: *left,
            rows: *rows,
            cols: *cols,
        }),
        Command::Free => Ok(Command::Free),
        Command::Undo => Ok(Command::Undo),
        Command::Redo => Ok(Command::Redo),
        Command::Keep { name, file } => Ok(Command::Keep {
            name: name.share()?,
            file: file.share()?,
        }),
        Command::Fetch { file } => Ok(Command::Fetch {
            file: file.share()?,
        }),
        Command::Goto { .. }
        | Command::Refine { .. }
        | Command::Insert { .. }
        | Command::Cut { .. }
        | Command::Remove { .. }
        | Command::Close { .. }
        | Command::Reopen { .. }
        | Command::Over { .. }
        | Command::Relation { .. }
        | Command::Own { .. }
        | Command::Menu { .. }
        | Command::Names { .. }
        | Command::Save { .. }
        | Command::Paste { .. } => unreachable!(),
    }
}
