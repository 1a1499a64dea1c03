//! Terms with names in place of positions.
ghost use Rattle.std.specs.Prelude.{◌≡◌, IfOk, map, decimal};
ghost use Rattle.psg_deflines.specs.WrittenTerms.{variable, named, applied};
ghost use Rattle.psg_defread.specs.WrittenLines.{constructor_name, term_at, term_written};

use crate::names::constructor_name;
use psg_deflines::{LineTerm, TermShape};
use psg_grammar::{Definition, Row};
use psg_terms::{ConId, Node, Seq, Term, Txt};
use std::alloc::{AllocError, Global};

/// Returns a variable, by its number.
fn variable(alloc: Global, number: u32) -> Result<LineTerm, AllocError>
    ensures { IfOk result (λ w. w ≡ variable (decimal number)) }
{
    let digits = format!(in alloc; "{number}")?;
    let name = Txt::of(alloc, digits)?;
    Ok(LineTerm {
        shape: TermShape::Variable(name),
    })
}

/// Returns a constructor with arguments.
fn applied(
    alloc: Global,
    definition: &Definition,
    con: ConId,
    args: Vec<LineTerm>,
) -> Result<LineTerm, AllocError>
    ensures { IfOk result (λ w. w ≡ applied (named (constructor_name definition.now con.0)) args.items) }
{
    let name = constructor_name(alloc, definition, con)?;
    let args = Seq::of(args);
    Ok(LineTerm {
        shape: TermShape::Named { name, args },
    })
}

/// Makes the term as it is written. It calls itself as deep as the term is nested.
#[cycle(term)]
pub fn term_written(
    alloc: Global,
    definition: &Definition,
    term: &Term,
) -> Result<LineTerm, AllocError>
    ensures { IfOk result (λ w. w ≡ term_written definition.now term.now) }
{
    match term.node() {
        Node::Var { number, .. } => {
            let made = variable(alloc, *number)?;
            Ok(made)
        }
        Node::Con { con, args } => {
            let written = terms_written(alloc, definition, args.as_slice())?;
            let made = applied(alloc, definition, *con, written)?;
            Ok(made)
        }
    }
}

/// Makes the terms as they are written.
#[cycle(term)]
pub fn terms_written(
    alloc: Global,
    definition: &Definition,
    terms: &[Term],
) -> Result<Vec<LineTerm>, AllocError>
    ensures { IfOk result (λ v. v.items ≡ map (term_written definition.now) terms.now) }
{
    let mut written = Vec::with_capacity(alloc, terms.len())?;
    for i in 0..terms.len() {
        let one = term_written(alloc, definition, &terms[i])?;
        written.push(one)?;
    }
    Ok(written)
}

/// Makes the term of a row's column.
pub fn column_written(
    alloc: Global,
    definition: &Definition,
    row: &Row,
    column: usize,
) -> Result<LineTerm, AllocError>
    ensures { IfOk result (λ w. w ≡ term_written definition.now (term_at row.now.columns column)) }
{
    match row.columns.as_slice().get(column) {
        Some(term) => Ok(term_written(alloc, definition, term)?),
        None => Ok(applied(alloc, definition, ConId(0), Vec::new(alloc))?),
    }
}
