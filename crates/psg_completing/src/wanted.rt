//! The level that is wanted at a path.
ghost use Rattle.std.specs.Prelude.{ℕ, ◌≡◌, ◌-◌, ◌==◌, ◌&&◌, IfNone, IfOk, IfSome, Some, cond};
ghost use Rattle.psg_grammar.specs.Fragments.{top_operator};
ghost use Rattle.psg_grammar.specs.Levels as levels;
ghost use Rattle.psg_grammar.specs.Lookups.{operator_at};
ghost use Rattle.psg_grammar.specs.Sound.{IsLevel, IsSound};
ghost use Rattle.psg_completing.specs.Samples.{IsLeast};
ghost use Rattle.psg_completing.specs.Wanted.{IsLeastUnder, IsSlotOf};
ghost use Rattle.psg_unparse.specs.Rows.{operator_of as operator_of_fragment};

use psg_grammar::{Definition, Item, Operator, least_level};
use psg_tree::{Path, Shape, Tree, at};
use std::alloc::{AllocError, Global};

/// Says whether the item is a slot.
fn is_slot(item: &Item) -> bool
    ensures { result ≡ levels.is_slot item.now }
{
    match item {
        Item::Slot(_) => true,
        _ => false,
    }
}

/// Returns how many slots are left before the wanted one, after the item.
fn left_after(slot: bool, left: u32) -> u32
    ensures { result ≡ cond slot (left - 1) left }
{
    if slot { left.saturating_sub(1) } else { left }
}

/// Says whether the item is the wanted slot.
fn is_due(slot: bool, left: u32) -> bool
    ensures { result ≡ (slot && left == 0) }
{
    slot && left == 0
}

/// Returns the place of the slot of the number among the items, if there are that many.
fn slot_place(operator: &Operator, number: u32) -> Option<usize>
    ensures some { IfSome result (IsSlotOf operator.now number) }
    ensures none { IfNone result ((place : ℕ) → IsSlotOf operator.now number place → ⊥) }
{
    let items = operator.items.as_slice();
    let mut left = number;
    for place in 0..items.len() {
        let slot = is_slot(&items[place]);
        let due = is_due(slot, left);
        if due {
            return Some(place);
        }
        left = left_after(slot, left);
    }
    None
}

/// Returns the least level of the slot of the number; 0 where there are fewer.
fn least_in(operator: &Operator, number: u32) -> u8
    requires { IsLevel operator.now.level }
    ensures { IsLeastUnder number (Some operator.now) result }
{
    match slot_place(operator, number) {
        Some(place) => {
            let least = least_level(operator, place);
            least
        }
        None => 0,
    }
}

/// Returns the least level of the slot of the number of the operator of a number; 0 where there is no such slot.
fn least_of(definition: &Definition, op: u32, number: u32) -> u8
    requires { IsSound definition.now }
    ensures { IsLeastUnder number (operator_at definition.now op) result }
{
    match definition.operators.as_slice().get(op as usize) {
        Some(operator) => least_in(operator, number),
        None => 0,
    }
}

/// Returns the operator at the top of the node, if there is one.
fn op_of(node: &Tree) -> Option<u32>
    ensures { result ≡ top_operator node.now }
{
    match node.shape() {
        Shape::Op { op, .. } => Some(*op),
        Shape::List { .. } => None,
        Shape::Hole { .. } => None,
    }
}

/// Returns the least level of the child of the number of the node; 0 where it has no operator.
fn least_under(definition: &Definition, node: &Tree, number: u32) -> u8
    requires { IsSound definition.now }
    ensures { IsLeastUnder number (operator_of_fragment definition.now node.now) result }
{
    match op_of(node) {
        Some(op) => least_of(definition, op, number),
        None => 0,
    }
}

/// Returns the least level that a tree must have at the path to be written there without brackets. It passes the path,
/// and the items of the operator above.
pub(crate) fn least_at(
    alloc: Global,
    definition: &Definition,
    tree: &Tree,
    path: &Path,
) -> Result<u8, AllocError>
    requires { IsSound definition.now }
    ensures { IfOk result (IsLeast definition.now tree.now path.now) }
{
    let Some((number, front)) = path.steps().split_last() else {
        return Ok(0);
    };
    let above = Path::of(alloc, front)?;
    match at(tree, &above) {
        Some(node) => Ok(least_under(definition, node, *number)),
        None => Ok(0),
    }
}
