//! Where a cursor is after a command.
ghost use Rattle.std.specs.Prelude.{◌≡◌, ◌↔◌, ◌<◌, ◌++◌, ◌∷◌, List, ℕ, map, IfOk, IsTrue, MatchOption};
ghost use Rattle.std.specs.List.{AllByRecursion};
ghost use Rattle.psg_windows.specs.Resolving.{IsPath, IsResolved};
ghost use Rattle.psg_windows.specs.Moving as plain;

use psg_script::{Command, Where};
use psg_tree::Path;
use std::alloc::{AllocError, Global};

/// Returns what the cursor has after the path. `None` where it does not begin with the path.
fn rest_of<'a>(at: &[u32], cursor: &'a [u32]) -> Option<&'a [u32]>
    ensures { MatchOption result ((rest : List ℕ) → cursor.now ≡ at.now ++ rest → ⊥)
        (λ rest. cursor.now ≡ at.now ++ rest.now) }
{
    cursor.strip_prefix(at)
}

/// Returns the step of the cursor after the path, and all steps after that one. `None` where the cursor does not go on
/// below the path.
fn step_below<'a>(at: &[u32], cursor: &'a [u32]) -> Option<(u32, &'a [u32])>
    ensures { MatchOption result ((k : ℕ) (rest : List ℕ) → cursor.now ≡ at.now ++ k ∷ rest → ⊥)
        (λ found. cursor.now ≡ at.now ++ found.0 ∷ found.1.now) }
{
    let Some(rest) = rest_of(at, cursor) else {
        return None;
    };
    let Some((step, behind)) = rest.split_first() else {
        return None;
    };
    Some((*step, behind))
}

/// Says whether each step can be raised by one.
pub fn may_be_raised(steps: &[u32]) -> bool
    ensures { IsTrue result ↔ AllByRecursion (λ k. k < 4294967295) steps.now }
{
    steps.iter().all(|step| *step < u32::MAX)
}

/// Returns the path with one more step after it, and then these.
fn path_with(alloc: Global, at: &[u32], step: u32, behind: &[u32]) -> Result<Path, AllocError>
    ensures { IfOk result (λ path. path ≡ at.now ++ step ∷ behind.now) }
{
    let mut steps = Vec::from_slice(alloc, at)?;
    steps.push(step)?;
    steps.extend_from_slice(behind)?;
    Path::of(alloc, steps.as_slice())
}

/// Returns the cursor after an element was put before the place of the list at the path.
fn raised(alloc: Global, at: &[u32], place: u32, cursor: &[u32]) -> Result<Path, AllocError>
    requires { AllByRecursion (λ k. k < 4294967295) cursor.now }
    ensures { IfOk result (λ path. path ≡ plain.raised at.now place cursor.now) }
{
    let Some((step, behind)) = step_below(at, cursor) else {
        return Path::of(alloc, cursor);
    };
    if step < place {
        return Path::of(alloc, cursor);
    }
    path_with(alloc, at, step + 1, behind)
}

/// Returns the cursor after the element at the place was taken out of the list at the path.
fn lowered(alloc: Global, at: &[u32], place: u32, cursor: &[u32]) -> Result<Path, AllocError>
    ensures { IfOk result (λ path. path ≡ plain.lowered at.now place cursor.now) }
{
    let Some((step, behind)) = step_below(at, cursor) else {
        return Path::of(alloc, cursor);
    };
    if step == place {
        return Path::of(alloc, at);
    }
    if step < place {
        return Path::of(alloc, cursor);
    }
    path_with(alloc, at, step - 1, behind)
}

/// Returns the cursor after the node at the path was replaced.
fn lifted(alloc: Global, at: &[u32], cursor: &[u32]) -> Result<Path, AllocError>
    ensures { IfOk result (λ path. path ≡ plain.lifted at.now cursor.now) }
{
    match step_below(at, cursor) {
        Some(_) => Path::of(alloc, at),
        None => Path::of(alloc, cursor),
    }
}

/// Returns the path that a place is.
fn path_of(at: &Where) -> &[u32]
    requires { IsPath at.now }
    ensures { result.now ≡ plain.path_of at.now }
{
    match at {
        Where::At(path) => path.steps(),
        Where::Cursor => unreachable!(),
    }
}

/// Returns another window's cursor after the command.
fn other_moved(alloc: Global, command: &Command, cursor: &[u32]) -> Result<Path, AllocError>
    requires resolved { IsResolved command.now }
    requires room { AllByRecursion (λ k. k < 4294967295) cursor.now }
    ensures { IfOk result (λ path. path ≡ plain.other_moved command.now cursor.now) }
{
    match command {
        Command::New { .. } | Command::Range { .. } | Command::Undo | Command::Redo => {
            Path::of(alloc, &[])
        }
        Command::Insert { at, place, .. } => raised(alloc, path_of(at), *place, cursor),
        Command::Remove { at, place } => lowered(alloc, path_of(at), *place, cursor),
        Command::Refine { at, .. } => lifted(alloc, path_of(at), cursor),
        Command::Cut { at } => lifted(alloc, path_of(at), cursor),
        Command::Over { at, .. } => lifted(alloc, path_of(at), cursor),
        Command::Paste { at, place, .. } => match place {
            Some(place) => raised(alloc, path_of(at), *place, cursor),
            None => lifted(alloc, path_of(at), cursor),
        },
        Command::Goto { .. }
        | Command::Close { .. }
        | Command::Reopen { .. }
        | Command::Show
        | Command::Screen { .. }
        | Command::Relation { .. }
        | Command::Own { .. }
        | Command::Menu { .. }
        | Command::Names { .. }
        | Command::Free
        | Command::Save { .. }
        | Command::Keep { .. }
        | Command::Fetch { .. } => Path::of(alloc, cursor),
    }
}

/// Returns the cursors after the command, each as that of another window.
pub fn others_moved(
    alloc: Global,
    command: &Command,
    cursors: &[Path],
) -> Result<Vec<Path>, AllocError>
    requires resolved { IsResolved command.now }
    requires room { plain.HasRoom cursors.now }
    ensures { IfOk result (λ moved. moved.items ≡ map (plain.other_moved command.now) cursors.now) }
{
    let mut moved = Vec::with_capacity(alloc, cursors.len())?;
    for cursor in cursors {
        moved.push(other_moved(alloc, command, cursor.steps())?)?;
    }
    Ok(moved)
}

/// Says whether the command changes the program, or is `goto`.
fn moves_own(command: &Command) -> bool
    ensures { result ≡ plain.moves_own command.now }
{
    match command {
        Command::New { .. }
        | Command::Goto { .. }
        | Command::Refine { .. }
        | Command::Insert { .. }
        | Command::Cut { .. }
        | Command::Remove { .. }
        | Command::Close { .. }
        | Command::Reopen { .. }
        | Command::Over { .. }
        | Command::Range { .. }
        | Command::Undo
        | Command::Redo
        | Command::Paste { .. } => true,
        Command::Show
        | Command::Screen { .. }
        | Command::Relation { .. }
        | Command::Own { .. }
        | Command::Menu { .. }
        | Command::Names { .. }
        | Command::Free
        | Command::Save { .. }
        | Command::Keep { .. }
        | Command::Fetch { .. } => false,
    }
}

/// Returns the window's own cursor after its command, where the editor's is `own` then.
pub fn own_moved(
    alloc: Global,
    command: &Command,
    own: &[u32],
    cursor: &[u32],
) -> Result<Path, AllocError>
    ensures { IfOk result (λ path. path ≡ plain.own_moved command.now own.now cursor.now) }
{
    if moves_own(command) {
        Path::of(alloc, own)
    } else {
        Path::of(alloc, cursor)
    }
}
