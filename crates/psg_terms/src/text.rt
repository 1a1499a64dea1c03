//! Terms and rows as texts.
ghost use Rattle.std.specs.Prelude.{◌≡◌, ◌++◌, ℕ, IfOk, OnOk, string_bytes, decimal, ◌∷◌};
ghost use Rattle.psg_terms.specs.Signature.{HasSort, AreTerms};
ghost use Rattle.psg_terms.specs.Text.{term_text, row_text};
ghost use Rattle.psg_terms.specs.Writing.{before, after, between};

use crate::sorts::Signature;
use crate::term::{Node, Term};
use std::alloc::{AllocError, Global};

/// Returns the text of a term, as `?1`, `int` or `cons(int,?2)`. A shared part is written as often as it occurs.
pub fn term_text(alloc: Global, sig: &Signature, term: &Term) -> Result<String, AllocError>
    requires { (s : ℕ) × HasSort sig.now term.now s }
    ensures { IfOk result (λ t. string_bytes t ≡ term_text sig.now term.now) }
{
    let mut text = String::new(alloc);
    write_term(sig, &mut text, term)?;
    Ok(text)
}

/// Returns the texts of a row's terms, joined by one space.
pub fn row_text(alloc: Global, sig: &Signature, row: &[Term]) -> Result<String, AllocError>
    requires { AreTerms sig.now row.now }
    ensures { IfOk result (λ t. string_bytes t ≡ row_text sig.now row.now) }
{
    let mut text = String::new(alloc);
    for i in 0..row.len() {
        write_between(&mut text, i)?;
        write_term(sig, &mut text, &row[i])?;
    }
    Ok(text)
}

/// Puts the text of a term after what there is.
fn write_term(sig: &Signature, text: &mut String, term: &Term) -> Result<(), AllocError>
    requires { (s : ℕ) × HasSort sig.now term.now s }
    ensures { OnOk result (string_bytes text.new ≡ string_bytes text.old ++ term_text sig.now term.now) }
{
    match term.node() {
        Node::Var { number, .. } => {
            write_variable(text, *number)?;
            Ok(())
        }
        Node::Con { con, args } => {
            text.push_str(sig.constructor(*con).name.as_str())?;
            let args = args.as_slice();
            for i in 0..args.len() {
                write_before(text, i)?;
                write_term(sig, text, &args[i])?;
            }
            write_after(text, args.len())?;
            Ok(())
        }
    }
}

/// Writes a variable.
fn write_variable(text: &mut String, number: u32) -> Result<(), AllocError>
    ensures { OnOk result (string_bytes text.new ≡ string_bytes text.old ++ 63 ∷ decimal number) }
{
    write!(text, "?{number}")?;
    Ok(())
}

/// Writes what goes before an argument: the bracket before the first, a comma before each other one.
fn write_before(text: &mut String, place: usize) -> Result<(), AllocError>
    ensures { OnOk result (string_bytes text.new ≡ string_bytes text.old ++ before place) }
{
    if place == 0 {
        text.push_str("(")?;
    } else {
        text.push_str(",")?;
    }
    Ok(())
}

/// Writes what goes after the last of `count` arguments: the bracket, or nothing where there are none.
fn write_after(text: &mut String, count: usize) -> Result<(), AllocError>
    ensures { OnOk result (string_bytes text.new ≡ string_bytes text.old ++ after count) }
{
    if count > 0 {
        text.push_str(")")?;
    }
    Ok(())
}

/// Writes what goes before a term of a row: nothing before the first, a space before each other one.
fn write_between(text: &mut String, place: usize) -> Result<(), AllocError>
    ensures { OnOk result (string_bytes text.new ≡ string_bytes text.old ++ between place) }
{
    if place > 0 {
        text.push_str(" ")?;
    }
    Ok(())
}
