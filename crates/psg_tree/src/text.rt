//! The abstract text of a tree.
ghost use Rattle.std.specs.Prelude.{◌≡◌, ◌==◌, ◌++◌, [], cond, codes, decimal, length, IfOk, OnOk};
ghost use Rattle.std.specs.Prelude.{string_bytes};
ghost use Rattle.psg_grammar.specs.Fragments.{hole, operator};
ghost use Rattle.psg_tree.specs.Shapes.{with_parts, list_of};
ghost use Rattle.psg_tree.specs.AbstractText as text;
ghost use Rattle.psg_tree.specs.AbstractText.{abstract_text};
ghost use Rattle.psg_tree.specs.PartTexts.{part_text};

use crate::tree::{Part, Shape, Tree};
use itoa::Buffer;
use psg_grammar::Definition;
use psg_lexis::write_escaped;
use std::alloc::{AllocError, Global};

/// Returns the operator's name, empty where the definition has no operator of the number.
fn operator_name(definition: &Definition, op: u32) -> &str
    ensures { result.now ≡ text.operator_name definition.now op }
{
    match definition.operators.as_slice().get(op as usize) {
        Some(operator) => operator.name.as_str(),
        None => "",
    }
}

/// Returns the phylum's name, empty where the definition has no phylum of the number. It takes constant time.
pub fn phylum_name(definition: &Definition, phylum: u32) -> &str
    ensures { result.now ≡ text.phylum_name definition.now phylum }
{
    match definition.phyla.as_slice().get(phylum as usize) {
        Some(phylum) => phylum.name.as_str(),
        None => "",
    }
}

/// Writes the text in quotes, each quote, backslash and line feed in it as its escape. It fails where memory runs out,
/// and takes time linear in the text.
pub fn write_quoted(out: &mut String, contents: &str) -> Result<(), AllocError>
    ensures { OnOk result (string_bytes out.new ≡ string_bytes out.old ++ text.quoted contents.now) }
{
    out.push('"')?;
    for ch in contents.chars() {
        write_escaped(out, ch)?;
    }
    out.push('"')
}

/// Writes the number in decimal.
fn write_number(out: &mut String, value: u128) -> Result<(), AllocError>
    ensures { OnOk result (string_bytes out.new ≡ string_bytes out.old ++ decimal value) }
{
    let mut buffer = Buffer::new();
    out.push_str(buffer.format(value))
}

/// Returns what is written before an operator's part of the number, from 0.
fn mark_before(number: usize) -> &'static str
    ensures { result.now ≡ cond (number == 0) (codes "(") (codes ",") }
{
    if number == 0 { "(" } else { "," }
}

/// Returns what follows an operator's parts.
fn bracket_behind(parts: &[Part]) -> &'static str
    ensures { result.now ≡ cond (length parts.now == 0) [] (codes ")") }
{
    if parts.is_empty() { "" } else { ")" }
}

/// Returns what is written before a list's element of the number, from 0.
fn comma_before(number: usize) -> &'static str
    ensures { result.now ≡ cond (number == 0) [] (codes ",") }
{
    if number == 0 { "" } else { "," }
}

/// Returns what follows a list's elements.
fn bracket_of(unfinished: bool) -> &'static str
    ensures { result.now ≡ cond unfinished (codes "|...") [] ++ codes "]" }
{
    if unfinished { "|...]" } else { "]" }
}

/// Writes a part of an operator.
#[cycle(write)]
fn write_part(out: &mut String, definition: &Definition, part: &Part) -> Result<(), AllocError>
    ensures { OnOk result (string_bytes out.new ≡ string_bytes out.old ++ part_text definition.now part.now) }
{
    match part {
        Part::Sub(tree) => write_tree(out, definition, tree),
        Part::Name(name) => out.push_str(name.as_str()),
        Part::Number(value) => write_number(out, *value),
        Part::Text(contents) => write_quoted(out, contents.as_str()),
    }
}

/// Writes an operator with its parts.
#[cycle(write)]
fn write_operator(
    out: &mut String,
    definition: &Definition,
    op: u32,
    parts: &[Part],
) -> Result<(), AllocError>
    ensures { OnOk result (string_bytes out.new
        ≡ string_bytes out.old ++ abstract_text definition.now (with_parts (operator op) parts.now)) }
{
    out.push_str(operator_name(definition, op))?;
    for (i, part) in parts.iter().enumerate() {
        out.push_str(mark_before(i))?;
        write_part(out, definition, part)?;
    }
    out.push_str(bracket_behind(parts))
}

/// Writes a list with its elements.
#[cycle(write)]
fn write_list(
    out: &mut String,
    definition: &Definition,
    elements: &[Tree],
    unfinished: bool,
) -> Result<(), AllocError>
    ensures { OnOk result (string_bytes out.new
        ≡ string_bytes out.old ++ abstract_text definition.now (list_of 0 elements.now unfinished)) }
{
    out.push_str("[")?;
    for (i, element) in elements.iter().enumerate() {
        out.push_str(comma_before(i))?;
        write_tree(out, definition, element)?;
    }
    out.push_str(bracket_of(unfinished))
}

/// Writes a placeholder.
fn write_hole(out: &mut String, definition: &Definition, phylum: u32) -> Result<(), AllocError>
    ensures { OnOk result (string_bytes out.new
        ≡ string_bytes out.old ++ abstract_text definition.now (hole phylum)) }
{
    out.push_str("?")?;
    out.push_str(phylum_name(definition, phylum))
}

/// Writes a tree.
#[cycle(write)]
fn write_tree(out: &mut String, definition: &Definition, tree: &Tree) -> Result<(), AllocError>
    ensures { OnOk result (string_bytes out.new ≡ string_bytes out.old ++ abstract_text definition.now tree.now) }
{
    match tree.shape() {
        Shape::Op { op, parts } => write_operator(out, definition, *op, parts.as_slice()),
        Shape::List {
            elements,
            unfinished,
            ..
        } => write_list(out, definition, elements.as_slice(), *unfinished),
        Shape::Hole { phylum } => write_hole(out, definition, *phylum),
    }
}

/// Returns the abstract text of a tree, in one walk over it: `o` or `o(part,part)` for an operator, with subtrees,
/// names, numbers and texts in quotes as parts; `[e,e]` for a list, with `|...` before its last bracket where it is
/// unfinished; `?P` for a placeholder. In a text the quote, the backslash and the line feed are escaped as `\"`, `\\`
/// and `\n`. Where the definition has no operator or phylum of a number, its name is empty.
pub fn abstract_text(
    alloc: Global,
    definition: &Definition,
    tree: &Tree,
) -> Result<String, AllocError>
    ensures { IfOk result (λ text. string_bytes text ≡ abstract_text definition.now tree.now) }
{
    let mut out = String::new(alloc);
    write_tree(&mut out, definition, tree)?;
    Ok(out)
}
