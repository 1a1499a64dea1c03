//! The level that is wanted at a node, and the brackets around it.
ghost use Rattle.std.specs.Prelude.{◌≡◌, ◌≤◌, ◌+◌, None, Some, IfNone, IfSome, MatchOption, slice_get};
ghost use Rattle.psg_grammar.specs.Fragments.{children_of};
ghost use Rattle.psg_grammar.specs.Kinds.{IsOfKind};
ghost use Rattle.psg_grammar.specs.Lookups.{operator_at};
ghost use Rattle.psg_grammar.specs.Paths.{node_at};
ghost use Rattle.psg_grammar.specs.Sizes.{depth_of};
ghost use Rattle.psg_grammar.specs.Sound.{IsSound};
ghost use Rattle.psg_grammar.specs.declared.types.Kind.{Kind as PlainKind};
ghost use Rattle.psg_grammar.specs.declared.limits.TheConstants.{MOST_DEPTH};
ghost use Rattle.psg_unparse.specs.Rows as rows;
ghost use Rattle.psg_unparse.specs.Walking.{count_of};
ghost use Rattle.psg_textedit.specs.Surroundings.{Surrounds, inner_level, more_around, wanted_in};
ghost use Rattle.psg_textedit.specs.Places.{wanted_among as wanted_among_parts};

use psg_grammar::{Definition, Item, Kind, is_part};
use psg_tree::{Part, Shape, Tree, child_at};
use psg_unparse::nodes::{behind_first, is_below, items_of, level_wanted};

/// A node, the least level of a tree in its place, and how many pairs of brackets are written around it.
#[derive(Clone, Copy)]
pub(crate) struct Place<'t> {
    pub(crate) node: &'t Tree,
    pub(crate) least: u8,
    pub(crate) around: u32,
}

/// Returns the items from the first part on.
fn from_part(items: &[Item]) -> &[Item]
    ensures { result.now ≡ rows.from_part items.now }
{
    let mut rest = items;
    while let Some((item, behind)) = rest.split_first() {
        if is_part(item) {
            return rest;
        }
        rest = behind;
    }
    rest
}

/// Returns the least level of the subtree of the number among an operator's parts; 0 where there is none.
fn wanted_among(definition: &Definition, op: u32, parts: &[Part], number: u32) -> u8
    requires sound { IsSound definition.now }
    ensures { result ≡ wanted_among_parts (operator_at definition.now op)
        (rows.from_part (rows.items_in (operator_at definition.now op))) parts.now number }
{
    let items = items_of(definition, op);
    let mut rest = from_part(items);
    let mut left = number;
    for part in parts {
        let own = subtrees_in(part);
        if left < own {
            return level_wanted(definition, op, items.len() - rest.len());
        }
        left -= own;
        rest = from_part(behind_first(rest));
    }
    0
}

/// Returns how many subtrees the part is: one or none.
fn subtrees_in(part: &Part) -> u32
    ensures { result ≡ count_of part.now }
{
    match part {
        Part::Sub(_) => 1,
        _ => 0,
    }
}

/// Returns the least level of the child of the number; 0 of an element of a list.
fn wanted_at(definition: &Definition, tree: &Tree, number: u32) -> u8
    requires sound { IsSound definition.now }
    ensures { result ≡ wanted_in definition.now tree.now number }
{
    match tree.shape() {
        Shape::Op { op, parts } => wanted_among(definition, *op, parts.as_slice(), number),
        Shape::List { .. } => 0,
        Shape::Hole { .. } => 0,
    }
}

/// Returns the child of the number as a place, where a tree of at least the level is wanted.
fn placed<'t>(definition: &Definition, node: &'t Tree, wanted: u8, around: u32) -> Place<'t>
    requires few { around ≤ MOST_DEPTH }
    ensures node { result.node.now ≡ node.now }
    ensures least { result.least ≡ inner_level definition.now node.now wanted }
    ensures around { result.around ≡ around + more_around definition.now node.now wanted }
{
    if is_below(definition, node, wanted) {
        return Place {
            node,
            least: 0,
            around: around + 1,
        };
    }
    Place {
        node,
        least: wanted,
        around,
    }
}

/// Finds the node at the path with what is around it; `None` where the path leads to no node. It walks along the path,
/// and over the parts of the operators on it.
pub(crate) fn place_of<'t>(
    definition: &Definition,
    tree: &'t Tree,
    path: &[u32],
) -> Option<Place<'t>>
    requires sound { IsSound definition.now }
    requires shallow { depth_of tree.now ≤ MOST_DEPTH }
    ensures some { IfSome result
        (λ place. Surrounds definition.now tree.now 0 0 path.now place.node.now place.least place.around) }
    ensures none { IfNone result (node_at tree.now path.now ≡ None) }
{
    let mut place = Place {
        node: tree,
        least: 0,
        around: 0,
    };
    for step in path {
        let Some(child) = child_at(place.node, *step) else {
            return None;
        };
        let wanted = wanted_at(definition, place.node, *step);
        place = placed(definition, child, wanted, place.around);
    }
    Some(place)
}

/// Returns the kind of a node.
pub(crate) fn kind_of(definition: &Definition, tree: &Tree) -> Kind
    ensures { (kind : PlainKind) → IsOfKind definition.now tree.now kind → result ≡ kind }
{
    match tree.shape() {
        Shape::Op { op, .. } => Kind::Phylum(phylum_of(definition, *op)),
        Shape::List { list, .. } => Kind::List(*list),
        Shape::Hole { phylum } => Kind::Phylum(*phylum),
    }
}

/// Returns the phylum of the operator of the number; 0 where the definition has none.
fn phylum_of(definition: &Definition, op: u32) -> u32
    ensures { MatchOption (operator_at definition.now op) (result ≡ 0) (λ o. result ≡ o.phylum) }
{
    match definition.operators.as_slice().get(op as usize) {
        Some(operator) => operator.phylum,
        None => 0,
    }
}
