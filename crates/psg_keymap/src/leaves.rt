//! The names and literals of an operator, as they are typed one after the other.
ghost use Rattle.std.specs.Prelude.{◌≡◌, ◌++◌, [], bytes_eq, option_copied, slice_get, string_bytes, unwrap_or};
ghost use Rattle.std.specs.Prelude.{IfOk, OnOk};
ghost use Rattle.std.specs.Str.{trim};
ghost use Rattle.psg_keymap.specs.Faces.{picked_offer};
ghost use Rattle.psg_keymap.specs.Leaves as typed;
ghost use Rattle.psg_keymap.specs.Views.{face_of};

use crate::face::Face;
use psg_grammar::{Definition, Item, Operator};
use psg_terms::Txt;
use psg_tree::write_quoted;
use std::alloc::{AllocError, Global};

/// What is typed for an operator.
#[derive(Clone, Copy, PartialEq, Eq)]
pub enum Leaf {
    /// A name that the operator uses.
    Name,
    /// A name that it declares.
    NewName,
    /// A number.
    Number,
    /// A text.
    Text,
}

/// Returns what the item is, if it is a name or a literal.
fn leaf_of(item: &Item) -> Option<Leaf>
    ensures { result ≡ typed.leaf_of item.now }
{
    match item {
        Item::Refers(_) => Some(Leaf::Name),
        Item::Declares(_) => Some(Leaf::NewName),
        Item::Number => Some(Leaf::Number),
        Item::Text => Some(Leaf::Text),
        _ => None,
    }
}

/// Adds what the item is, if it is a name or a literal.
fn push_leaf(leaves: &mut Vec<Leaf>, item: &Item) -> Result<(), AllocError>
    ensures { OnOk result (leaves.new.items ≡ leaves.old.items ++ typed.listed (typed.leaf_of item.now)) }
{
    match leaf_of(item) {
        Some(leaf) => {
            leaves.push(leaf)?;
            Ok(())
        }
        None => Ok(()),
    }
}

/// Returns the names and literals among the items, in order.
fn leaves_in(alloc: Global, items: &[Item]) -> Result<Vec<Leaf>, AllocError>
    ensures { IfOk result (λ v. v.items ≡ typed.leaves_in items.now) }
{
    let mut leaves = Vec::new(alloc);
    for i in 0..items.len() {
        push_leaf(&mut leaves, &items[i])?;
    }
    Ok(leaves)
}

/// Says whether the operator has this name.
fn is_named(operator: &Operator, name: &str) -> bool
    ensures { result ≡ bytes_eq operator.now.name name.now }
{
    operator.name.as_str() == name
}

/// Returns the first operator of this name.
fn operator_named<'d>(operators: &'d [Operator], name: &str) -> Option<&'d Operator>
    ensures { option_copied result ≡ typed.operator_named operators.now name.now }
{
    for i in 0..operators.len() {
        let operator = &operators[i];
        let found = is_named(operator, name);
        if found {
            return Some(operator);
        }
    }
    None
}

/// Returns the items of the operator of this name; none where there is no such operator.
fn items_of<'d>(definition: &'d Definition, name: &str) -> &'d [Item]
    ensures { result.now ≡ typed.items_by (typed.operator_named definition.now.operators name.now) }
{
    match operator_named(definition.operators.as_slice(), name) {
        Some(operator) => operator.items.as_slice(),
        None => &[],
    }
}

/// Returns the names and literals of the operator of this name, in the order of its items.
pub fn leaves_of(
    alloc: Global,
    definition: &Definition,
    name: &str,
) -> Result<Vec<Leaf>, AllocError>
    ensures { IfOk result (λ v. v.items ≡ typed.leaves_of definition.now name.now) }
{
    let items = items_of(definition, name);
    let leaves = leaves_in(alloc, items)?;
    Ok(leaves)
}

/// Returns what the leaf is, in words.
pub fn leaf_words(leaf: Leaf) -> &'static str
    ensures { result.now ≡ typed.leaf_words leaf }
{
    match leaf {
        Leaf::Name => "a name",
        Leaf::NewName => "a new name",
        Leaf::Number => "a number",
        Leaf::Text => "a text",
    }
}

/// Returns the arguments with one more: what is typed, or the name that is picked where nothing is. A text is put in
/// quotes unless it begins with one. It fails where memory runs out.
pub fn args_with(alloc: Global, face: &Face, leaf: Leaf) -> Result<Txt, AllocError>
    ensures { IfOk result (λ args. args ≡ typed.args_with (face_of face.now) leaf) }
{
    let arg = arg_of(alloc, face, leaf)?;
    let mut args = spaced(alloc, face.args.as_str())?;
    args.push_str(arg.as_str())?;
    let all = Txt::of(alloc, args)?;
    Ok(all)
}

/// Returns the arguments with a space after them, if there are any.
fn spaced(alloc: Global, args: &str) -> Result<String, AllocError>
    ensures { IfOk result (λ text. string_bytes text ≡ typed.spaced args.now) }
{
    let mut text = String::from_str(alloc, args)?;
    if args.is_empty() {
        return Ok(text);
    }
    text.push(' ')?;
    Ok(text)
}

/// Returns what is typed as an argument.
fn arg_of(alloc: Global, face: &Face, leaf: Leaf) -> Result<Txt, AllocError>
    ensures { IfOk result (λ arg. arg ≡ typed.arg_of (face_of face.now) leaf) }
{
    let line = face.line_text(alloc)?;
    match leaf {
        Leaf::Text => {
            let arg = text_arg(alloc, line.as_str())?;
            Ok(arg)
        }
        Leaf::Name => {
            let arg = name_arg(alloc, face, line.as_str())?;
            Ok(arg)
        }
        Leaf::NewName => {
            let arg = trimmed(alloc, line.as_str())?;
            Ok(arg)
        }
        Leaf::Number => {
            let arg = trimmed(alloc, line.as_str())?;
            Ok(arg)
        }
    }
}

/// Returns the line without the white space around it.
fn trimmed(alloc: Global, line: &str) -> Result<Txt, AllocError>
    ensures { IfOk result (λ arg. arg ≡ trim line.now) }
{
    let word = line.trim();
    let same = Txt::copy_of(alloc, word)?;
    Ok(same)
}

/// Says whether the text begins with a quote.
fn is_quoted(text: &str) -> bool
    ensures { result ≡ typed.is_quote (slice_get text.now 0) }
{
    match text.as_bytes().get(0) {
        Some(byte) => *byte == b'"',
        None => false,
    }
}

/// Returns the line in quotes, unless it begins with one.
fn text_arg(alloc: Global, line: &str) -> Result<Txt, AllocError>
    ensures { IfOk result (λ arg. arg ≡ typed.text_arg line.now) }
{
    let word = line.trim();
    if is_quoted(word) {
        let same = Txt::copy_of(alloc, word)?;
        return Ok(same);
    }
    let mut text = String::new(alloc);
    write_quoted(&mut text, line)?;
    let made = Txt::of(alloc, text)?;
    Ok(made)
}

/// Returns the name that is typed, or the one that is picked where none is.
fn name_arg(alloc: Global, face: &Face, line: &str) -> Result<Txt, AllocError>
    ensures { IfOk result (λ arg. arg ≡ typed.or_picked (picked_offer (face_of face.now)) (trim line.now)) }
{
    let word = line.trim();
    if word.is_empty() {
        let picked = face.picked(alloc)?;
        let name = name_or_none(alloc, picked)?;
        return Ok(name);
    }
    let same = Txt::copy_of(alloc, word)?;
    Ok(same)
}

/// Returns the name, or the empty text where there is none.
fn name_or_none(alloc: Global, name: Option<Txt>) -> Result<Txt, AllocError>
    ensures { IfOk result (λ text. text ≡ unwrap_or name []) }
{
    match name {
        Some(name) => Ok(name),
        None => {
            let none = Txt::copy_of(alloc, "")?;
            Ok(none)
        }
    }
}
