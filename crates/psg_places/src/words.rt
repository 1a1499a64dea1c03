//! The names of a tree and the fixed words of a definition, as a list.
ghost use Rattle.std.specs.Prelude.{◌≡◌, ◌∷◌, ◌++◌, [], false, OnOk, IfOk};
ghost use Rattle.psg_grammar.specs.Fragments.{operator};
ghost use Rattle.psg_grammar.specs.WellFormed.{fixed_words, separators, operator_words, words_in};
ghost use Rattle.psg_renaming.specs.Occurring.{occurring};
ghost use Rattle.psg_tree.specs.Shapes.{list_of, with_part, with_parts};

use psg_grammar::{Definition, Item, ListKind, Operator};
use psg_terms::Txt;
use psg_tree::{Part, Shape, Tree};
use std::alloc::{AllocError, Global};

/// Adds the word.
fn gather_word(found: &mut Vec<Txt>, word: &Txt) -> Result<(), AllocError>
    ensures { OnOk result (found.new.items ≡ found.old.items ++ word.now ∷ []) }
{
    let same = word.share()?;
    found.push(same)?;
    Ok(())
}

/// Adds the names of the part.
#[cycle(names)]
fn gather_part(found: &mut Vec<Txt>, part: &Part) -> Result<(), AllocError>
    ensures { OnOk result (found.new.items ≡ found.old.items ++ occurring (with_part (operator 0) part.now)) }
{
    match part {
        Part::Sub(tree) => {
            gather_tree(found, tree)?;
            Ok(())
        }
        Part::Name(name) => {
            gather_word(found, name)?;
            Ok(())
        }
        Part::Number(_) => Ok(()),
        Part::Text(_) => Ok(()),
    }
}

/// Adds the names of the parts.
#[cycle(names)]
fn gather_parts(found: &mut Vec<Txt>, parts: &[Part]) -> Result<(), AllocError>
    ensures { OnOk result (found.new.items ≡ found.old.items ++ occurring (with_parts (operator 0) parts.now)) }
{
    for part in parts {
        gather_part(found, part)?;
    }
    Ok(())
}

/// Adds the names of the elements.
#[cycle(names)]
fn gather_elements(found: &mut Vec<Txt>, elements: &[Tree]) -> Result<(), AllocError>
    ensures { OnOk result (found.new.items ≡ found.old.items ++ occurring (list_of 0 elements.now false)) }
{
    for element in elements {
        gather_tree(found, element)?;
    }
    Ok(())
}

/// Adds the names of the tree, each as often as it occurs.
#[cycle(names)]
fn gather_tree(found: &mut Vec<Txt>, tree: &Tree) -> Result<(), AllocError>
    ensures { OnOk result (found.new.items ≡ found.old.items ++ occurring tree.now) }
{
    match tree.shape() {
        Shape::Op { parts, .. } => {
            gather_parts(found, parts.as_slice())?;
            Ok(())
        }
        Shape::List { elements, .. } => {
            gather_elements(found, elements.as_slice())?;
            Ok(())
        }
        Shape::Hole { .. } => Ok(()),
    }
}

/// Adds the word of the item, if it is one.
fn gather_item(found: &mut Vec<Txt>, item: &Item) -> Result<(), AllocError>
    ensures { OnOk result (found.new.items ≡ found.old.items ++ words_in (item.now ∷ [])) }
{
    match item {
        Item::Word(word) => {
            gather_word(found, word)?;
            Ok(())
        }
        _ => Ok(()),
    }
}

/// Adds the words among the items.
fn gather_items(found: &mut Vec<Txt>, items: &[Item]) -> Result<(), AllocError>
    ensures { OnOk result (found.new.items ≡ found.old.items ++ words_in items.now) }
{
    for item in items {
        gather_item(found, item)?;
    }
    Ok(())
}

/// Adds the words of the operators.
fn gather_operators(found: &mut Vec<Txt>, operators: &[Operator]) -> Result<(), AllocError>
    ensures { OnOk result (found.new.items ≡ found.old.items ++ operator_words operators.now) }
{
    for operator in operators {
        gather_items(found, operator.items.as_slice())?;
    }
    Ok(())
}

/// Adds the separators of the lists.
fn gather_separators(found: &mut Vec<Txt>, lists: &[ListKind]) -> Result<(), AllocError>
    ensures { OnOk result (found.new.items ≡ found.old.items ++ separators lists.now) }
{
    for list in lists {
        gather_word(found, &list.separator)?;
    }
    Ok(())
}

/// Lists the names of the tree, and then the fixed words of the definition. It walks once over both.
pub(crate) fn all_words(
    alloc: Global,
    definition: &Definition,
    tree: &Tree,
) -> Result<Vec<Txt>, AllocError>
    ensures { IfOk result (λ words. words.items ≡ occurring tree.now ++ fixed_words definition.now) }
{
    let mut found = Vec::new(alloc);
    gather_tree(&mut found, tree)?;
    gather_operators(&mut found, definition.operators.as_slice())?;
    gather_separators(&mut found, definition.lists.as_slice())?;
    Ok(found)
}
