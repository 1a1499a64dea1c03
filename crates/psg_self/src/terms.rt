//! Constructors, terms and specimens as they are exported: a name, and brackets only where there is something in them.
ghost use Rattle.std.specs.Prelude.{◌≡◌, ◌==◌, ◌++◌, ◌∷◌, [], cond, codes, OnOk, slice_get, string_bytes};
ghost use Rattle.psg_self.specs.NodeParts.{elements_of, name_at, name_in};
ghost use Rattle.psg_self.specs.SelfLines.{constructor_of, term_of, specimen_of};
ghost use Rattle.psg_self.specs.Export.{constructor_text, term_text, specimen_text};
ghost use Rattle.psg_self.specs.Brackets.{bracketed};

use crate::nodes::{elements_at, elements_of, name_among, name_at, parts_of};
use psg_tree::{Part, Tree};
use std::alloc::AllocError;

/// Writes what is before the element of the number, from 0: the bracket, or a comma.
fn write_mark(out: &mut String, number: usize) -> Result<(), AllocError>
    ensures { OnOk result (string_bytes out.new
        ≡ string_bytes out.old ++ cond (number == 0) (codes "(") (codes ",")) }
{
    out.push_str(if number == 0 { "(" } else { "," })
}

/// Writes the closing bracket after the elements, where there are any.
fn write_closing(out: &mut String, count: usize) -> Result<(), AllocError>
    ensures { OnOk result (string_bytes out.new ≡ string_bytes out.old ++ cond (count == 0) [] (codes ")")) }
{
    if count > 0 {
        out.push_str(")")?;
    }
    Ok(())
}

/// Writes the name of a node.
fn write_name(out: &mut String, node: &Tree) -> Result<(), AllocError>
    ensures { OnOk result (string_bytes out.new ≡ string_bytes out.old ++ name_at node.now 0) }
{
    out.push_str(name_at(node, 0))
}

/// Writes the names of the nodes in brackets.
fn write_names(out: &mut String, nodes: &[Tree]) -> Result<(), AllocError>
    ensures { OnOk result (string_bytes out.new ≡ string_bytes out.old ++ bracketed (λ n. name_at n 0) nodes.now) }
{
    for i in 0..nodes.len() {
        write_mark(out, i)?;
        write_name(out, &nodes[i])?;
    }
    write_closing(out, nodes.len())
}

/// Writes a constructor with the sorts of its arguments.
pub fn write_constructor(out: &mut String, node: &Tree) -> Result<(), AllocError>
    ensures { OnOk result (string_bytes out.new
        ≡ string_bytes out.old ++ constructor_text (constructor_of node.now)) }
{
    write_name(out, node)?;
    write_names(out, elements_at(node, 1))
}

/// Writes a variable after its question mark.
fn write_variable(out: &mut String, name: &str) -> Result<(), AllocError>
    ensures { OnOk result (string_bytes out.new ≡ string_bytes out.old ++ 63 ∷ name.now) }
{
    out.push_str("?")?;
    out.push_str(name)
}

/// Writes the name that is the first of these parts.
fn write_front(out: &mut String, parts: &[Part]) -> Result<(), AllocError>
    ensures { OnOk result (string_bytes out.new ≡ string_bytes out.old ++ name_in (slice_get parts.now 0)) }
{
    out.push_str(name_among(parts, 0))
}

/// Writes the terms of a list in brackets.
#[cycle(term)]
fn write_terms(out: &mut String, list: &Tree) -> Result<(), AllocError>
    ensures { OnOk result (string_bytes out.new
        ≡ string_bytes out.old ++ bracketed (λ t. term_text (term_of t)) (elements_of list.now)) }
{
    let terms = elements_of(list);
    for i in 0..terms.len() {
        write_mark(out, i)?;
        write_term(out, &terms[i])?;
    }
    write_closing(out, terms.len())
}

/// Writes a term: a constructor with its arguments, or a variable. It calls itself as deep as the term is nested.
#[cycle(term)]
pub fn write_term(out: &mut String, term: &Tree) -> Result<(), AllocError>
    ensures { OnOk result (string_bytes out.new ≡ string_bytes out.old ++ term_text (term_of term.now)) }
{
    let parts = parts_of(term);
    match parts.split_last() {
        None => Ok(()),
        Some((last, front)) => match last {
            Part::Sub(list) => {
                write_front(out, front)?;
                write_terms(out, list)
            }
            Part::Name(name) => write_variable(out, name.as_str()),
            Part::Number(_) => Ok(()),
            Part::Text(_) => Ok(()),
        },
    }
}

/// Writes the specimens of a list in brackets.
#[cycle(specimen)]
fn write_specimens(out: &mut String, list: &Tree) -> Result<(), AllocError>
    ensures { OnOk result (string_bytes out.new
        ≡ string_bytes out.old ++ bracketed (λ s. specimen_text (specimen_of s)) (elements_of list.now)) }
{
    let specimens = elements_of(list);
    for i in 0..specimens.len() {
        write_mark(out, i)?;
        write_specimen(out, &specimens[i])?;
    }
    write_closing(out, specimens.len())
}

/// Writes a specimen: an operator with its parts. It calls itself as deep as the specimen is nested.
#[cycle(specimen)]
pub fn write_specimen(out: &mut String, specimen: &Tree) -> Result<(), AllocError>
    ensures { OnOk result (string_bytes out.new
        ≡ string_bytes out.old ++ specimen_text (specimen_of specimen.now)) }
{
    let parts = parts_of(specimen);
    match parts.split_last() {
        None => Ok(()),
        Some((last, front)) => match last {
            Part::Sub(list) => {
                write_front(out, front)?;
                write_specimens(out, list)
            }
            Part::Name(_) => Ok(()),
            Part::Number(_) => Ok(()),
            Part::Text(_) => Ok(()),
        },
    }
}
