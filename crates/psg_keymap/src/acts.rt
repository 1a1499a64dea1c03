//! The keys that are commands about the chosen place: x, c, u, Ctrl-R, y and p.
ghost use Rattle.std.specs.Prelude.{◌≡◌, ◌≤◌, ◌==◌, cond, None, Some, IfOk};
ghost use Rattle.psg_eval.specs.SpaceTables.{AreDeclaringSpaces};
ghost use Rattle.psg_grammar.specs.Lookups.{operator_at};
ghost use Rattle.psg_grammar.specs.Sound.{IsSound};
ghost use Rattle.psg_places.specs.Openings as openings;
ghost use Rattle.psg_places.specs.Places as places;
ghost use Rattle.psg_script.specs.declared.command.Command.TheVariants as commands;
ghost use Rattle.psg_script.specs.declared.command.Where.TheVariants.{At as AtPath};
ghost use Rattle.psg_keymap.specs.Table as table;

use crate::face::{copied, with_place};
use crate::nodes::{count_of, further, is_hole, is_list, is_unfinished, list_above, place_at};
use crate::table::{Due, Seen, grows, stays};
use psg_face::{is_dots, parent_of};
use psg_grammar::Definition;
use psg_keys::Key;
use psg_script::{Command, Where};
use psg_terms::Txt;
use psg_tree::{Path, Shape, Tree, at};
use std::alloc::{AllocError, Global};

/// The name under which `y` keeps a node.
const IT: &str = "it";

/// Returns the command of a key that needs no text.
pub fn act_of(alloc: Global, seen: Seen, path: &Path, key: Key) -> Result<Option<Due>, AllocError>
    ensures { IfOk result (λ due. due ≡ table.act_of seen.entry.language.now seen.entry.tree.now path.now key) }
{
    match key {
        Key::Backspace => {
            let due = cutting(alloc, seen, path)?;
            Ok(due)
        }
        Key::Delete => {
            let due = cutting(alloc, seen, path)?;
            Ok(due)
        }
        Key::Char(c) => {
            let due = letter_due(alloc, seen, path, c)?;
            Ok(due)
        }
        Key::Control(c) => Ok(control_due(c)),
        _ => Ok(None),
    }
}

/// Returns `redo` at Ctrl-R.
fn control_due(c: char) -> Option<Due>
    ensures { result ≡ cond (c == 114) (table.stays commands.Redo) None }
{
    if c == 'r' { stays(Command::Redo) } else { None }
}

/// Returns the command of a letter.
fn letter_due(alloc: Global, seen: Seen, path: &Path, c: char) -> Result<Option<Due>, AllocError>
    ensures { IfOk result (λ due. due ≡ table.letter_due seen.entry.language.now seen.entry.tree.now path.now c) }
{
    match c {
        'x' => {
            let due = cutting(alloc, seen, path)?;
            Ok(due)
        }
        'c' => {
            let due = finishing(alloc, seen.tree, path)?;
            Ok(due)
        }
        'u' => Ok(stays(Command::Undo)),
        'y' => {
            let due = saving(alloc, seen.tree, path)?;
            Ok(due)
        }
        'p' => {
            let due = pasting(alloc, seen.tree, path)?;
            Ok(due)
        }
        _ => Ok(None),
    }
}

/// Says whether the table has a space for the phylum.
fn has_spaces(spaces: &[Vec<u32>], phylum: u32) -> bool
    ensures { result ≡ openings.has_spaces spaces.now phylum }
{
    match spaces.get(phylum as usize) {
        Some(found) => !found.as_slice().is_empty(),
        None => false,
    }
}

/// Says whether trees of the operator's phylum declare.
fn declares(definition: &Definition, spaces: &[Vec<u32>], op: u32) -> bool
    requires sound { IsSound definition.now }
    requires spaces { AreDeclaringSpaces definition.now spaces.now }
    ensures { result ≡ places.declares_by definition.now (operator_at definition.now op) }
{
    match definition.operators.as_slice().get(op as usize) {
        Some(operator) => has_spaces(spaces, operator.phylum),
        None => false,
    }
}

/// Says whether the node is a placeholder, or one that no placeholder can take the place of.
fn is_removed(definition: &Definition, spaces: &[Vec<u32>], node: &Tree) -> bool
    requires sound { IsSound definition.now }
    requires spaces { AreDeclaringSpaces definition.now spaces.now }
    ensures { result ≡ table.is_removed definition.now node.now }
{
    match node.shape() {
        Shape::Op { op, .. } => declares(definition, spaces, *op),
        Shape::List { .. } => true,
        Shape::Hole { .. } => true,
    }
}

/// Returns the list and the place of an element that goes.
fn removal(
    alloc: Global,
    seen: Seen,
    path: &Path,
    node: &Tree,
) -> Result<Option<(Path, u32)>, AllocError>
    ensures { IfOk result (λ spot. spot
        ≡ table.removal seen.entry.language.now seen.entry.tree.now path.now (Some node.now)) }
{
    let parts = seen.language.parts();
    if is_removed(&parts.definition, parts.tables.spaces(), node) {
        let spot = list_above(alloc, seen.tree, path)?;
        return Ok(spot);
    }
    Ok(None)
}

/// Returns `remove` at an element that is a placeholder or declares, `cut` at another node, and nothing at a `...`.
fn cutting(alloc: Global, seen: Seen, path: &Path) -> Result<Option<Due>, AllocError>
    ensures { IfOk result (λ due. due ≡ table.cutting seen.entry.language.now seen.entry.tree.now path.now) }
{
    match at(seen.tree, path) {
        Some(node) => {
            let spot = removal(alloc, seen, path, node)?;
            let due = cut_at(alloc, path, spot)?;
            Ok(due)
        }
        None => Ok(None),
    }
}

/// Returns `remove` at the spot, and `cut` at the path where there is none.
fn cut_at(alloc: Global, path: &Path, spot: Option<(Path, u32)>) -> Result<Option<Due>, AllocError>
    ensures { IfOk result (λ due. due ≡ table.by_place_of spot
        (λ list place. table.stays (commands.Remove (AtPath list) place))
        (table.stays (commands.Cut (AtPath path.now)))) }
{
    match spot {
        Some((list, place)) => Ok(stays(Command::Remove {
            at: Where::At(list),
            place,
        })),
        None => {
            let at = place_at(alloc, path)?;
            Ok(stays(Command::Cut { at }))
        }
    }
}

/// Returns the list that is chosen, or whose `...` is.
fn list_of(alloc: Global, tree: &Tree, path: &Path) -> Result<Path, AllocError>
    ensures { IfOk result (λ list. list ≡ table.list_of tree.now path.now) }
{
    if is_dots(tree, path) {
        let list = parent_of(alloc, path)?;
        return Ok(list);
    }
    let same = copied(alloc, path)?;
    Ok(same)
}

/// Returns `close` at an unfinished list, `reopen` at a finished one, and nothing at another node.
fn finishing_of(path: Path, node: &Tree) -> Option<Due>
    ensures { result ≡ table.finishing_of path (Some node.now) }
{
    let at = Where::At(path);
    if !is_list(node) {
        return None;
    }
    if is_unfinished(node) {
        return stays(Command::Close { at });
    }
    stays(Command::Reopen { at })
}

/// Returns `close` at an unfinished list or its `...`, `reopen` at a finished one, and nothing elsewhere.
fn finishing(alloc: Global, tree: &Tree, path: &Path) -> Result<Option<Due>, AllocError>
    ensures { IfOk result (λ due. due ≡ table.finishing tree.now path.now) }
{
    let list = list_of(alloc, tree, path)?;
    match at(tree, &list) {
        Some(node) => Ok(finishing_of(list, node)),
        None => Ok(None),
    }
}

/// Returns the name under which a node is kept.
fn it(alloc: Global) -> Result<Txt, AllocError>
    ensures { IfOk result (λ name. name ≡ table.it) }
{
    let name = Txt::copy_of(alloc, IT)?;
    Ok(name)
}

/// Returns `save` at a node, and nothing at a `...`.
fn saving(alloc: Global, tree: &Tree, path: &Path) -> Result<Option<Due>, AllocError>
    ensures { IfOk result (λ due. due ≡ table.saving tree.now path.now) }
{
    if is_dots(tree, path) {
        return Ok(None);
    }
    let name = it(alloc)?;
    let at = place_at(alloc, path)?;
    Ok(stays(Command::Save { name, at }))
}

/// Returns `paste` at the path, or before a place of the list there.
fn pasted_at(alloc: Global, path: &Path, place: Option<u32>) -> Result<Option<Due>, AllocError>
    ensures { IfOk result (λ due. due ≡ table.pasted_at path.now place) }
{
    let name = it(alloc)?;
    let grown = with_place(alloc, path, place)?;
    let at = place_at(alloc, path)?;
    Ok(grows(grown, Command::Paste { at, place, name }))
}

/// Returns `paste` that many places after the path's own in its list, else in place of the node.
fn pasted_beside(
    alloc: Global,
    tree: &Tree,
    path: &Path,
    more: u32,
) -> Result<Option<Due>, AllocError>
    requires { more ≤ 1 }
    ensures { IfOk result (λ due. due ≡ table.pasted_beside tree.now path.now more) }
{
    match list_above(alloc, tree, path)? {
        Some((list, place)) => {
            let place = further(place, more)?;
            let due = pasted_at(alloc, &list, Some(place))?;
            Ok(due)
        }
        None => {
            let due = pasted_at(alloc, path, None)?;
            Ok(due)
        }
    }
}

/// Returns `paste` in place of an empty list, or at the end of one that has that many elements.
fn pasted_into(alloc: Global, path: &Path, count: u32) -> Result<Option<Due>, AllocError>
    ensures { IfOk result (λ due. due ≡ table.pasted_into path.now count) }
{
    if count == 0 {
        let due = pasted_at(alloc, path, None)?;
        return Ok(due);
    }
    let due = pasted_at(alloc, path, Some(count))?;
    Ok(due)
}

/// Returns `paste` at a node: in place of a placeholder or an empty list, at the end of another list, else after it
/// in its list.
fn pasting_at(
    alloc: Global,
    tree: &Tree,
    path: &Path,
    node: &Tree,
) -> Result<Option<Due>, AllocError>
    ensures { IfOk result (λ due. due ≡ table.pasting_of tree.now path.now (Some node.now)) }
{
    if is_hole(node) {
        let due = pasted_at(alloc, path, None)?;
        return Ok(due);
    }
    if is_list(node) {
        let count = count_of(node)?;
        let due = pasted_into(alloc, path, count)?;
        return Ok(due);
    }
    let due = pasted_beside(alloc, tree, path, 1)?;
    Ok(due)
}

/// Returns `paste` at the chosen place: at a node as `pasting_at` does, at a `...` before it.
fn pasting(alloc: Global, tree: &Tree, path: &Path) -> Result<Option<Due>, AllocError>
    ensures { IfOk result (λ due. due ≡ table.pasting tree.now path.now) }
{
    match at(tree, path) {
        Some(node) => {
            let due = pasting_at(alloc, tree, path, node)?;
            Ok(due)
        }
        None => {
            let due = pasted_beside(alloc, tree, path, 0)?;
            Ok(due)
        }
    }
}
