//! What the nodes of a tree are made of.
//!
//! Each call is total: what a tree does not have is nothing, as the definitions of the exported text say it.
ghost use Rattle.std.specs.Prelude.{◌≡◌, slice_get, Some};
ghost use Rattle.std.specs.Option.{option_copied};
ghost use Rattle.psg_self.specs.NodeParts as node;
ghost use Rattle.psg_self.specs.NodeParts.{name_in, number_in, part_at, text_in, tree_in};

use crate::form::{Form, form_at};
use psg_tree::{Part, Shape, Tree};

/// Returns the form of the operator at the top, or `None` where there is none.
pub fn form_of(tree: &Tree) -> Option<Form>
    ensures { result ≡ node.form_of tree.now }
{
    match tree.shape() {
        Shape::Op { op, .. } => form_at(*op),
        Shape::List { .. } => None,
        Shape::Hole { .. } => None,
    }
}

/// Returns the parts of the operator at the top.
pub fn parts_of(tree: &Tree) -> &[Part]
    ensures { result.now ≡ node.node_parts tree.now }
{
    match tree.shape() {
        Shape::Op { parts, .. } => parts.as_slice(),
        Shape::List { .. } => &[],
        Shape::Hole { .. } => &[],
    }
}

/// Returns the elements of a list.
pub fn elements_of(tree: &Tree) -> &[Tree]
    ensures { result.now ≡ node.elements_of tree.now }
{
    match tree.shape() {
        Shape::Op { .. } => &[],
        Shape::List { elements, .. } => elements.as_slice(),
        Shape::Hole { .. } => &[],
    }
}

/// Returns the name that the part is.
fn name_of(part: &Part) -> &str
    ensures { result.now ≡ name_in (Some part.now) }
{
    match part {
        Part::Sub(_) => "",
        Part::Name(name) => name.as_str(),
        Part::Number(_) => "",
        Part::Text(_) => "",
    }
}

/// Returns the name that the part of this number is, among these.
pub fn name_among(parts: &[Part], number: usize) -> &str
    ensures { result.now ≡ name_in (slice_get parts.now number) }
{
    match parts.get(number) {
        Some(part) => name_of(part),
        None => "",
    }
}

/// Returns the name that the part of this number is.
pub fn name_at(tree: &Tree, number: usize) -> &str
    ensures { result.now ≡ node.name_at tree.now number }
{
    let parts = parts_of(tree);
    name_among(parts, number)
}

/// Returns the number that the part is.
fn number_of(part: &Part) -> u128
    ensures { result ≡ number_in (Some part.now) }
{
    match part {
        Part::Sub(_) => 0,
        Part::Name(_) => 0,
        Part::Number(value) => *value,
        Part::Text(_) => 0,
    }
}

/// Returns the number that the first part is.
pub fn first_number(tree: &Tree) -> u128
    ensures { result ≡ number_in (part_at tree.now 0) }
{
    let parts = parts_of(tree);
    match parts.get(0) {
        Some(part) => number_of(part),
        None => 0,
    }
}

/// Returns the text that the part is.
fn text_of(part: &Part) -> &str
    ensures { result.now ≡ text_in (Some part.now) }
{
    match part {
        Part::Sub(_) => "",
        Part::Name(_) => "",
        Part::Number(_) => "",
        Part::Text(text) => text.as_str(),
    }
}

/// Returns the text that the first part is.
pub fn first_text(tree: &Tree) -> &str
    ensures { result.now ≡ text_in (part_at tree.now 0) }
{
    let parts = parts_of(tree);
    match parts.get(0) {
        Some(part) => text_of(part),
        None => "",
    }
}

/// Returns the tree that the part is.
fn tree_of(part: &Part) -> Option<&Tree>
    ensures { option_copied result ≡ tree_in (Some part.now) }
{
    match part {
        Part::Sub(tree) => Some(tree),
        Part::Name(_) => None,
        Part::Number(_) => None,
        Part::Text(_) => None,
    }
}

/// Returns the tree that the part of this number is.
pub fn tree_at(tree: &Tree, number: usize) -> Option<&Tree>
    ensures { option_copied result ≡ node.tree_at tree.now number }
{
    let parts = parts_of(tree);
    match parts.get(number) {
        Some(part) => tree_of(part),
        None => None,
    }
}

/// Returns the elements of the list that the part of this number is.
pub fn elements_at(tree: &Tree, number: usize) -> &[Tree]
    ensures { result.now ≡ node.elements_at tree.now number }
{
    match tree_at(tree, number) {
        Some(list) => elements_of(list),
        None => &[],
    }
}
