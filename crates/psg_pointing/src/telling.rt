//! What a node is, in words.
ghost use Rattle.std.specs.Prelude.{◌≡◌, ◌++◌, ◌∷◌, IfOk, OnOk, slice_get, string_bytes};
ghost use Rattle.psg_pointing.specs.Hovering as told;
ghost use Rattle.psg_tree.specs.AbstractText as abstract;

use psg_grammar::Definition;
use psg_tree::{Shape, Tree, phylum_name};
use std::alloc::{AllocError, Global};

/// Returns the name of the list of the number; none where there is no such list.
fn list_name(definition: &Definition, list: u32) -> &str
    ensures { result.now ≡ told.list_name (slice_get definition.now.lists list) }
{
    match definition.lists.as_slice().get(list as usize) {
        Some(list) => list.name.as_str(),
        None => "",
    }
}

/// Returns the phylum and the name of the operator of the number.
fn operator_head(alloc: Global, definition: &Definition, op: u32) -> Result<String, AllocError>
    ensures { IfOk result (λ text. string_bytes text
        ≡ told.operator_head definition.now (slice_get definition.now.operators op)) }
{
    match definition.operators.as_slice().get(op as usize) {
        Some(operator) => {
            let phylum = phylum_name(definition, operator.phylum);
            let mut text = String::from_str(alloc, phylum)?;
            text.push_str(": ")?;
            text.push_str(operator.name.as_str())?;
            Ok(text)
        }
        None => Ok(String::new(alloc)),
    }
}

/// Returns the placeholder of the phylum of the number.
fn hole_head(alloc: Global, definition: &Definition, phylum: u32) -> Result<String, AllocError>
    ensures { IfOk result (λ text. string_bytes text ≡ 63 ∷ abstract.phylum_name definition.now phylum) }
{
    let mut text = String::from_str(alloc, "?")?;
    text.push_str(phylum_name(definition, phylum))?;
    Ok(text)
}

/// Returns what the node is: a placeholder as it is written, the name of a list, or an operator with its phylum in
/// front of it.
pub(crate) fn head_of(
    alloc: Global,
    definition: &Definition,
    node: &Tree,
) -> Result<String, AllocError>
    ensures { IfOk result (λ text. string_bytes text ≡ told.head_of definition.now node.now) }
{
    match node.shape() {
        Shape::Op { op, .. } => {
            let text = operator_head(alloc, definition, *op)?;
            Ok(text)
        }
        Shape::List { list, .. } => {
            let name = list_name(definition, *list);
            let text = String::from_str(alloc, name)?;
            Ok(text)
        }
        Shape::Hole { phylum } => {
            let text = hole_head(alloc, definition, *phylum)?;
            Ok(text)
        }
    }
}
