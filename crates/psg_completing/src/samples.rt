//! What an entry of a completion writes: an operator with nothing in it.
ghost use Rattle.std.specs.Prelude.{◌≡◌, IfOk, OnOk, Some, slice_get, string_bytes};
ghost use Rattle.psg_grammar.specs.Fragments.{Fragment};
ghost use Rattle.psg_grammar.specs.Insertion.{blank as blank_of, may_be_unfinished as may_be};
ghost use Rattle.psg_grammar.specs.Lookups.{operator_at};
ghost use Rattle.psg_grammar.specs.Sound.{IsSound};
ghost use Rattle.psg_tree.specs.Shapes.{with_parts};
ghost use Rattle.psg_unparse.specs.Rows.{is_below_level as is_below};
ghost use Rattle.psg_completing.specs.Samples as sampled;

use psg_grammar::{Definition, Item, Kind, Operator, op_level};
use psg_terms::{Seq, Txt};
use psg_tree::{Part, Shape, Tree};
use psg_unparse::unparse;
use std::alloc::{AllocError, Global};

/// Says whether the list of the number may be unfinished.
fn may_be_unfinished(definition: &Definition, list: u32) -> bool
    ensures { result ≡ may_be (slice_get definition.now.lists list) }
{
    match definition.lists.as_slice().get(list as usize) {
        Some(list) => list.unfinished,
        None => false,
    }
}

/// Makes the new tree of a kind: a placeholder, or an empty list, unfinished where the kind allows it.
fn blank(alloc: Global, definition: &Definition, kind: Kind) -> Result<Tree, AllocError>
    ensures { IfOk result (λ tree. tree ≡ blank_of definition.now kind) }
{
    match kind {
        Kind::Phylum(phylum) => {
            let tree = Tree::new(alloc, Shape::Hole { phylum })?;
            Ok(tree)
        }
        Kind::List(list) => {
            let unfinished = may_be_unfinished(definition, list);
            let elements = Seq::of(Vec::new(alloc));
            let shape = Shape::List {
                list,
                elements,
                unfinished,
            };
            let tree = Tree::new(alloc, shape)?;
            Ok(tree)
        }
    }
}

/// Adds the part of the item with nothing in it, if it has a part.
fn push_sample(
    alloc: Global,
    definition: &Definition,
    name: &str,
    item: &Item,
    parts: &mut Vec<Part>,
) -> Result<(), AllocError>
    ensures { OnOk result ((f : Fragment) → with_parts f parts.new.items
        ≡ sampled.with_sample definition.now name.now (with_parts f parts.old.items) item.now) }
{
    match item {
        Item::Slot(kind) => {
            let tree = blank(alloc, definition, *kind)?;
            parts.push(Part::Sub(tree))?;
            Ok(())
        }
        Item::Refers(_) => {
            let name = Txt::copy_of(alloc, name)?;
            parts.push(Part::Name(name))?;
            Ok(())
        }
        Item::Declares(_) => {
            let name = Txt::copy_of(alloc, name)?;
            parts.push(Part::Name(name))?;
            Ok(())
        }
        Item::Number => {
            parts.push(Part::Number(0))?;
            Ok(())
        }
        Item::Text => {
            let text = Txt::copy_of(alloc, "")?;
            parts.push(Part::Text(text))?;
            Ok(())
        }
        _ => Ok(()),
    }
}

/// Makes the operator of the number with nothing in it. Each name of it is the one that is given.
fn sample(
    alloc: Global,
    definition: &Definition,
    operator: &Operator,
    op: u32,
    name: &str,
) -> Result<Tree, AllocError>
    requires { operator_at definition.now op ≡ Some operator.now }
    ensures { IfOk result (λ tree. tree ≡ sampled.sample definition.now name.now op) }
{
    let items = operator.items.as_slice();
    let mut parts = Vec::new(alloc);
    for place in 0..items.len() {
        push_sample(alloc, definition, name, &items[place], &mut parts)?;
    }
    let parts = Seq::of(parts);
    let tree = Tree::new(alloc, Shape::Op { op, parts })?;
    Ok(tree)
}

/// Adds the line, without the blanks around it, after a space where there is something before it.
fn push_line(text: &mut String, line: &str) -> Result<(), AllocError>
    ensures { OnOk result (string_bytes text.new ≡ sampled.with_line (string_bytes text.old) line.now) }
{
    if !text.is_empty() {
        text.push(' ')?;
    }
    text.push_str(line.trim())?;
    Ok(())
}

/// Returns the text on one line.
fn one_line(alloc: Global, text: &str) -> Result<String, AllocError>
    ensures { IfOk result (λ line. string_bytes line ≡ sampled.one_line text.now) }
{
    let mut line = String::new(alloc);
    for part in text.split('\n') {
        push_line(&mut line, part)?;
    }
    Ok(line)
}

/// Returns the text, in brackets where it is to be.
fn in_brackets(alloc: Global, text: String, so: bool) -> Result<String, AllocError>
    ensures { IfOk result (λ put. string_bytes put ≡ sampled.in_brackets so (string_bytes text)) }
{
    if !so {
        return Ok(text);
    }
    let mut put = String::from_str(alloc, "(")?;
    put.push_str(text.as_str())?;
    put.push(')')?;
    Ok(put)
}

/// Says whether the operator binds less than the level.
fn is_below(operator: &Operator, least: u8) -> bool
    ensures { result ≡ is_below (Some operator.now) least }
{
    op_level(operator) < least
}

/// Returns the operator of the number with nothing in it, as it is written on one line where the level is wanted. A
/// slot is written as its placeholder, a list that may be unfinished as `...`, a number as 0, a text without contents,
/// and each name as the one that is given. It is in brackets where it binds less than the level.
pub(crate) fn sample_text(
    alloc: Global,
    definition: &Definition,
    operator: &Operator,
    op: u32,
    least: u8,
    name: &str,
) -> Result<Txt, AllocError>
    requires sound { IsSound definition.now }
    requires operator { operator_at definition.now op ≡ Some operator.now }
    ensures { IfOk result (λ text. text ≡ sampled.sample_text definition.now least name.now op) }
{
    let tree = sample(alloc, definition, operator, op, name)?;
    let printed = unparse(alloc, definition, &tree)?;
    let whole = printed.text.as_str();
    let line = one_line(alloc, whole)?;
    let below = is_below(operator, least);
    let put = in_brackets(alloc, line, below)?;
    let text = Txt::of(alloc, put)?;
    Ok(text)
}
