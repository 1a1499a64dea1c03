//! Whether a tree is one of a kind.
ghost use Rattle.std.specs.Prelude.{◌≡◌, ◌↔◌, ◌≤◌, true, length, drop, IsTrue, IsUtf8};
ghost use Rattle.std.specs.List.{AllByRecursion};
ghost use Rattle.psg_grammar.specs.Fragments.{hole, operator};
ghost use Rattle.psg_grammar.specs.Lookups.{part_items};
ghost use Rattle.psg_grammar.specs.Sound.{IsSound};
ghost use Rattle.psg_grammar.specs.WellFormed.{WellFormed};
ghost use Rattle.psg_tree.specs.Shapes.{with_parts, list_of};
ghost use Rattle.psg_tree.specs.Forms as forms;

use crate::reach::declares;
use crate::tree::{Part, Shape, Tree};
use crate::words::is_name;
use psg_grammar::{Definition, Item, Kind, is_part};
use psg_terms::Txt;

/// Says whether a name position takes the name.
fn name_fits(definition: &Definition, name: &Txt, item: &Item) -> bool
    ensures { IsTrue result ↔ forms.NameFits definition.now name.now item.now }
{
    match item {
        Item::Refers(_) => is_name(definition, name.as_str()),
        Item::Declares(_) => is_name(definition, name.as_str()),
        _ => false,
    }
}

/// Says whether the item is for a number.
fn number_fits(value: u128, item: &Item) -> bool
    ensures { IsTrue result ↔ forms.NumberFits value item.now }
{
    match item {
        Item::Number => true,
        _ => false,
    }
}

/// Says whether the item is for a text.
fn text_fits(contents: &Txt, item: &Item) -> bool
    ensures { IsTrue result ↔ forms.TextFits contents.now item.now }
{
    let _text = contents.as_str();
    match item {
        Item::Text => true,
        _ => false,
    }
}

/// Says whether the item is a slot for the tree.
#[cycle(fits)]
fn tree_fits(definition: &Definition, tree: &Tree, item: &Item) -> bool
    requires { IsSound definition.now }
    ensures { IsTrue result ↔ forms.TreeFits definition.now tree.now item.now }
{
    match item {
        Item::Slot(kind) => well_formed(definition, tree, *kind),
        _ => false,
    }
}

/// Says whether the part is one of the item.
#[cycle(fits)]
fn part_fits(definition: &Definition, part: &Part, item: &Item) -> bool
    requires { IsSound definition.now }
    ensures { IsTrue result ↔ forms.PartFits definition.now part.now item.now }
{
    match part {
        Part::Sub(tree) => tree_fits(definition, tree, item),
        Part::Name(name) => name_fits(definition, name, item),
        Part::Number(value) => number_fits(*value, item),
        Part::Text(contents) => text_fits(contents, item),
    }
}

/// Returns the number of the next part after the item, or none where the part isn't one of it.
#[cycle(fits)]
fn next_part(definition: &Definition, parts: &[Part], at: usize, item: &Item) -> Option<usize>
    requires sound { IsSound definition.now }
    requires within { at ≤ length parts.now }
    ensures { forms.IsNextPart definition.now parts.now at item.now result }
{
    if !is_part(item) {
        return Some(at);
    }
    match parts.get(at) {
        None => None,
        Some(part) => {
            if part_fits(definition, part, item) {
                Some(at + 1)
            } else {
                None
            }
        }
    }
}

/// Says whether the parts are those of the items.
#[cycle(fits)]
fn parts_fit(definition: &Definition, parts: &[Part], items: &[Item]) -> bool
    requires { IsSound definition.now }
    ensures { IsTrue result ↔ forms.PartsFit definition.now parts.now (part_items items.now) }
{
    let mut at: usize = 0;
    for item in items {
        match next_part(definition, parts, at, item) {
            None => return false,
            Some(next) => at = next,
        }
    }
    at == parts.len()
}

/// Says whether the kind is that of the phylum.
fn is_phylum(kind: Kind, phylum: u32) -> bool
    ensures { IsTrue result ↔ (kind ≡ Kind.Phylum phylum) }
{
    match kind {
        Kind::Phylum(wanted) => wanted == phylum,
        Kind::List(_) => false,
    }
}

/// Says whether the kind is that of the lists.
fn is_list(kind: Kind, list: u32) -> bool
    ensures { IsTrue result ↔ (kind ≡ Kind.List list) }
{
    match kind {
        Kind::Phylum(_) => false,
        Kind::List(wanted) => wanted == list,
    }
}

/// Says whether an operator with these parts is a tree of the kind.
#[cycle(fits)]
fn operator_fits(definition: &Definition, op: u32, parts: &[Part], kind: Kind) -> bool
    requires { IsSound definition.now }
    ensures { IsTrue result ↔ WellFormed definition.now (with_parts (operator op) parts.now) kind }
{
    match definition.operators.as_slice().get(op as usize) {
        None => false,
        Some(operator) => {
            if !is_phylum(kind, operator.phylum) {
                return false;
            }
            parts_fit(definition, parts, operator.items.as_slice())
        }
    }
}

/// Says whether the elements are trees of the phylum.
#[cycle(fits)]
fn elements_fit(definition: &Definition, elements: &[Tree], phylum: u32) -> bool
    requires { IsSound definition.now }
    ensures { IsTrue result ↔ AllByRecursion (λ e. WellFormed definition.now e (Kind.Phylum phylum)) elements.now }
{
    for element in elements {
        if !well_formed(definition, element, Kind::Phylum(phylum)) {
            return false;
        }
    }
    true
}

/// Says whether a list may be unfinished where it is.
fn may_end(unfinished: bool, allowed: bool) -> bool
    ensures { IsTrue result ↔ (unfinished ≡ true → allowed ≡ true) }
{
    !unfinished || allowed
}

/// Says whether a list of these elements is a tree of the kind.
#[cycle(fits)]
fn list_fits(
    definition: &Definition,
    list: u32,
    elements: &[Tree],
    unfinished: bool,
    kind: Kind,
) -> bool
    requires { IsSound definition.now }
    ensures { IsTrue result ↔ WellFormed definition.now (list_of list elements.now unfinished) kind }
{
    match definition.lists.as_slice().get(list as usize) {
        None => false,
        Some(own) => {
            if !is_list(kind, list) {
                return false;
            }
            if !may_end(unfinished, own.unfinished) {
                return false;
            }
            elements_fit(definition, elements, own.element)
        }
    }
}

/// Says whether a placeholder is a tree of the kind.
fn hole_fits(definition: &Definition, phylum: u32, kind: Kind) -> bool
    requires { IsSound definition.now }
    ensures { IsTrue result ↔ WellFormed definition.now (hole phylum) kind }
{
    if !is_phylum(kind, phylum) || phylum as usize >= definition.phyla.as_slice().len() {
        return false;
    }
    !declares(definition, phylum)
}

/// Says whether the tree is one of the kind: each operator has the parts of its items, each child is of the kind of its
/// slot or list, a list is unfinished only where its kind is, no placeholder is one of a list or of a declaring phylum,
/// and each name is a word that isn't reserved.
///
/// It takes one walk over the tree and no memory. At each name it goes over the words of the definition, and at each
/// placeholder it searches the phyla that can be reached from its own.
#[cycle(fits)]
pub fn well_formed(definition: &Definition, tree: &Tree, kind: Kind) -> bool
    requires { IsSound definition.now }
    ensures { IsTrue result ↔ WellFormed definition.now tree.now kind }
{
    match tree.shape() {
        Shape::Op { op, parts } => operator_fits(definition, *op, parts.as_slice(), kind),
        Shape::List {
            list,
            elements,
            unfinished,
        } => list_fits(definition, *list, elements.as_slice(), *unfinished, kind),
        Shape::Hole { phylum } => hole_fits(definition, *phylum, kind),
    }
}
