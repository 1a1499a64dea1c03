//! The names that occur in a tree.
ghost use Rattle.std.specs.Prelude.{◌≡◌, ◌++◌, ◌∷◌, false, cond, reverse, IfOk};
ghost use Rattle.psg_grammar.specs.Fragments.{operator};
ghost use Rattle.psg_tree.specs.Shapes.{list_of, with_part, with_parts};
ghost use Rattle.psg_renaming.specs.Occurring.{occurring};
ghost use Rattle.psg_menu.specs.Menus.{in_byte_order};
ghost use Rattle.psg_session.specs.Gathered.{is_first, IsFalling};

use psg_terms::Txt;
use psg_tree::{Part, Shape, Tree};
use std::alloc::{AllocError, Global};

/// Adds the names of an operator's part.
#[cycle(gather)]
fn gather_part(found: &mut Vec<Txt>, part: &Part) -> Result<(), AllocError>
    ensures { IfOk result (λ _. found.new.items ≡ found.old.items ++ occurring (with_part (operator 0) part.now)) }
{
    match part {
        Part::Sub(tree) => {
            gather(found, tree)?;
            Ok(())
        }
        Part::Name(name) => {
            found.push(name.share()?)?;
            Ok(())
        }
        Part::Number(_) => Ok(()),
        Part::Text(_) => Ok(()),
    }
}

/// Adds the names of an operator's parts.
#[cycle(gather)]
fn gather_parts(found: &mut Vec<Txt>, parts: &[Part]) -> Result<(), AllocError>
    ensures { IfOk result (λ _. found.new.items ≡ found.old.items ++ occurring (with_parts (operator 0) parts.now)) }
{
    for part in parts {
        gather_part(found, part)?;
    }
    Ok(())
}

/// Adds the names of a list's elements.
#[cycle(gather)]
fn gather_elements(found: &mut Vec<Txt>, elements: &[Tree]) -> Result<(), AllocError>
    ensures { IfOk result (λ _. found.new.items ≡ found.old.items ++ occurring (list_of 0 elements.now false)) }
{
    for element in elements {
        gather(found, element)?;
    }
    Ok(())
}

/// Adds the names of the tree, each as often as it occurs, with one more owner.
#[cycle(gather)]
fn gather(found: &mut Vec<Txt>, tree: &Tree) -> Result<(), AllocError>
    ensures { IfOk result (λ _. found.new.items ≡ found.old.items ++ occurring tree.now) }
{
    match tree.shape() {
        Shape::Op { parts, .. } => {
            gather_parts(found, parts.as_slice())?;
            Ok(())
        }
        Shape::List { elements, .. } => {
            gather_elements(found, elements.as_slice())?;
            Ok(())
        }
        Shape::Hole { .. } => Ok(()),
    }
}

/// Says whether the name is the last one.
fn is_last(names: &[Txt], name: &str) -> bool
    ensures { result ≡ is_first (reverse names.now) name.now }
{
    match names.split_last() {
        Some((last, _)) => last.as_str() == name,
        None => false,
    }
}

/// Puts the name after the others, unless it is the last one already.
fn push_new(names: &mut Vec<Txt>, name: &Txt) -> Result<(), AllocError>
    ensures { IfOk result (λ _. reverse names.new.items ≡ cond (is_first (reverse names.old.items) name.now)
        (reverse names.old.items) (name.now ∷ reverse names.old.items)) }
{
    if is_last(names.as_slice(), name.as_str()) {
        return Ok(());
    }
    let owned = name.share()?;
    names.push(owned)?;
    Ok(())
}

/// Gives each of the names once. They are in the order of bytes from the last to the first.
fn each_once(alloc: Global, falling: &[Txt]) -> Result<Vec<Txt>, AllocError>
    requires { IsFalling falling.now }
    ensures { IfOk result (λ names. reverse names.items ≡ in_byte_order (reverse falling.now)) }
{
    let mut names = Vec::new(alloc);
    for name in falling {
        push_new(&mut names, name)?;
    }
    Ok(names)
}

/// Gives the names that occur in the tree, in the order of bytes, each once. It visits each node, and sorts the names:
/// for n names it compares some n log n times.
pub(crate) fn names_in(alloc: Global, tree: &Tree) -> Result<Vec<Txt>, AllocError>
    ensures { IfOk result (λ names. names.items ≡ in_byte_order (occurring tree.now)) }
{
    let mut found = Vec::new(alloc);
    gather(&mut found, tree)?;
    found.sort_by(|a, b| b.as_str().cmp(a.as_str()))?;
    let mut names = each_once(alloc, found.as_slice())?;
    names.reverse();
    Ok(names)
}
