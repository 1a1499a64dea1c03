//! Where an operator is put.
ghost use Rattle.std.specs.Prelude.{◌≡◌, ◌≤◌, cond, Some, IfOk};
ghost use Rattle.psg_grammar.specs.Fragments.{Fragment};
ghost use Rattle.psg_face.specs.Moves.{is_dots as is_dots_of};
ghost use Rattle.psg_keymap.specs.Spots as spots;

use crate::face::copied;
use crate::nodes::{count_of, further, is_hole, is_list, list_above};
use psg_face::is_dots;
use psg_keys::Key;
use psg_tree::{Path, Tree, at};
use std::alloc::{AllocError, Global};

/// Where an operator is put: in place of the placeholder at the path, or before a place of the list there.
#[derive(Drop)]
pub struct Spot {
    /// The path of the placeholder, or of the list.
    pub target: Path,
    /// The place of the list, if it is one.
    pub place: Option<u32>,
}

/// Returns where the key puts an operator, if it does.
pub fn spot_for(
    alloc: Global,
    tree: &Tree,
    chosen: &Path,
    key: Key,
) -> Result<Option<Spot>, AllocError>
    ensures { IfOk result (λ spot. spot ≡ spots.spot_for tree.now chosen.now key) }
{
    match key {
        Key::Enter => {
            let spot = spot_at(alloc, tree, chosen)?;
            Ok(spot)
        }
        Key::Char(c) => {
            let spot = spot_by(alloc, tree, chosen, c)?;
            Ok(spot)
        }
        _ => Ok(None),
    }
}

/// Returns where `i` and `a` put an operator.
fn spot_by(alloc: Global, tree: &Tree, chosen: &Path, c: char) -> Result<Option<Spot>, AllocError>
    ensures { IfOk result (λ spot. spot ≡ spots.spot_by tree.now chosen.now c) }
{
    match c {
        'i' => {
            let spot = spot_beside(alloc, tree, chosen, 0)?;
            Ok(spot)
        }
        'a' => {
            let spot = spot_beside(alloc, tree, chosen, steps_after(tree, chosen))?;
            Ok(spot)
        }
        _ => Ok(None),
    }
}

/// Returns how many places after the chosen one `a` puts an operator: at a `...` it is put there.
fn steps_after(tree: &Tree, chosen: &Path) -> u32
    ensures exact { result ≡ cond (is_dots_of tree.now chosen.now) 0 1 }
    ensures small { result ≤ 1 }
{
    if is_dots(tree, chosen) { 0 } else { 1 }
}

/// Returns the spot that the chosen place is: a placeholder, the end of a list, or a `...`.
pub fn spot_at(alloc: Global, tree: &Tree, chosen: &Path) -> Result<Option<Spot>, AllocError>
    ensures { IfOk result (λ spot. spot ≡ spots.spot_at tree.now chosen.now) }
{
    match at(tree, chosen) {
        Some(node) => {
            let spot = spot_of(alloc, chosen, node)?;
            Ok(spot)
        }
        None => {
            let spot = spot_beside(alloc, tree, chosen, 0)?;
            Ok(spot)
        }
    }
}

/// Returns the spot that the node is: a placeholder, or the end of a list.
fn spot_of(alloc: Global, chosen: &Path, node: &Tree) -> Result<Option<Spot>, AllocError>
    ensures { (tree : Fragment) → IfOk result (λ spot. spot ≡ spots.spot_of tree chosen.now (Some node.now)) }
{
    if is_hole(node) {
        let target = copied(alloc, chosen)?;
        return Ok(Some(Spot {
            target,
            place: None,
        }));
    }
    if is_list(node) {
        let count = count_of(node)?;
        let target = copied(alloc, chosen)?;
        return Ok(Some(Spot {
            target,
            place: Some(count),
        }));
    }
    Ok(None)
}

/// Returns the spot before the chosen place of a list, or that many places further on.
fn spot_beside(
    alloc: Global,
    tree: &Tree,
    chosen: &Path,
    more: u32,
) -> Result<Option<Spot>, AllocError>
    requires { more ≤ 1 }
    ensures { IfOk result (λ spot. spot ≡ spots.spot_beside tree.now more chosen.now) }
{
    match list_above(alloc, tree, chosen)? {
        Some((target, place)) => {
            let place = further(place, more)?;
            Ok(Some(Spot {
                target,
                place: Some(place),
            }))
        }
        None => Ok(None),
    }
}
