//! New trees, and operators put into a tree.
ghost use Rattle.std.specs.Prelude.{◌≡◌, ◌∷◌, ◌<◌, ◌≤◌, List, length, map, drop, slice_get, IfOk};
ghost use Rattle.psg_grammar.specs.declared.types.Item.{Item as PlainItem};
ghost use Rattle.psg_grammar.specs.Fragments.{Fragment};
ghost use Rattle.psg_grammar.specs.Kinds.{HasKind, HasSlotKind};
ghost use Rattle.psg_grammar.specs.Lookups.{part_items};
ghost use Rattle.psg_grammar.specs.Sound.{IsSound};
ghost use Rattle.psg_grammar.specs.Insertion.{blank as blank_of, filled, fresh_operator as fresh_of};
ghost use Rattle.psg_grammar.specs.Insertion.{may_be_unfinished as may_be, with_leaf};
ghost use Rattle.psg_tree.specs.Shapes.{with_part, with_parts};
ghost use Rattle.psg_session.specs.Views.{plain_leaf};

use crate::leaves::{Leaf, takes_leaf};
use psg_grammar::{Definition, Item, Kind};
use psg_terms::Seq;
use psg_tree::{Part, Shape, Tree};
use std::alloc::{AllocError, Global};

/// Says whether lists of the kind may be unfinished.
fn may_be_unfinished(definition: &Definition, list: u32) -> bool
    requires { list < length definition.now.lists }
    ensures { result ≡ may_be (slice_get definition.now.lists list) }
{
    definition.lists.as_slice()[list as usize].unfinished
}

/// Makes the new tree of a kind: a placeholder, or an empty list, unfinished where the kind allows it. It fails only
/// where memory runs out.
pub fn blank(alloc: Global, definition: &Definition, kind: Kind) -> Result<Tree, AllocError>
    requires { HasKind definition.now kind }
    ensures { IfOk result (λ tree. tree ≡ blank_of definition.now kind) }
{
    match kind {
        Kind::Phylum(phylum) => {
            let tree = Tree::new(alloc, Shape::Hole { phylum })?;
            Ok(tree)
        }
        Kind::List(list) => {
            let unfinished = may_be_unfinished(definition, list);
            let elements = Seq::of(Vec::new(alloc));
            let shape = Shape::List {
                list,
                elements,
                unfinished,
            };
            let tree = Tree::new(alloc, shape)?;
            Ok(tree)
        }
    }
}

/// Returns the part that a leaf is.
fn part_of(leaf: &Leaf) -> Result<Part, AllocError>
    ensures { IfOk result (λ part. (f : Fragment) → with_part f part ≡ with_leaf f (plain_leaf leaf.now)) }
{
    match leaf {
        Leaf::Name(name) => Ok(Part::Name(name.share()?)),
        Leaf::Number(number) => Ok(Part::Number(*number)),
        Leaf::Text(text) => Ok(Part::Text(text.share()?)),
    }
}

/// Adds the item's part after the others, and returns the number of the next leaf. A part that takes a leaf is left out
/// where there is none.
fn push_part(
    alloc: Global,
    definition: &Definition,
    item: &Item,
    leaves: &[Leaf],
    at: usize,
    parts: &mut Vec<Part>,
) -> Result<usize, AllocError>
    requires { HasSlotKind definition.now item.now }
    ensures { IfOk result (λ next. (f : Fragment) (items : List PlainItem) →
        filled definition.now (with_parts f parts.new.items) (part_items items) (map plain_leaf (drop next leaves.now))
        ≡ filled definition.now (with_parts f parts.old.items) (part_items (item.now ∷ items))
        (map plain_leaf (drop at leaves.now))) }
{
    if let Item::Slot(kind) = item {
        let child = blank(alloc, definition, *kind)?;
        parts.push(Part::Sub(child))?;
        return Ok(at);
    }
    if !takes_leaf(item) {
        return Ok(at);
    }
    match leaves.get(at) {
        None => Ok(at),
        Some(leaf) => {
            let part = part_of(leaf)?;
            parts.push(part)?;
            Ok(at + 1)
        }
    }
}

/// Makes an operator with a new tree in each of its slots, and the leaves in order at its other parts. It fails only
/// where memory runs out.
pub fn fresh_operator(
    alloc: Global,
    definition: &Definition,
    op: u32,
    leaves: &[Leaf],
) -> Result<Tree, AllocError>
    requires sound { IsSound definition.now }
    requires found { op < length definition.now.operators }
    ensures { IfOk result (λ tree. tree ≡ fresh_of definition.now op (map plain_leaf leaves.now)) }
{
    let operator = &definition.operators.as_slice()[op as usize];
    let mut parts = Vec::new(alloc);
    let mut at: usize = 0;
    for item in operator.items.as_slice() {
        at = push_part(alloc, definition, item, leaves, at, &mut parts)?;
    }
    let parts = Seq::of(parts);
    let tree = Tree::new(alloc, Shape::Op { op, parts })?;
    Ok(tree)
}
