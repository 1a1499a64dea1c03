//! The texts of any terms, also of those that have no sort.
ghost use Rattle.std.specs.Prelude.{◌≡◌, ◌++◌, IfOk, slice_get, string_bytes};
ghost use Rattle.psg_terms.specs.Text.{symbol_name, term_text};
ghost use Rattle.psg_terms.specs.Writing.{after, before};

use psg_terms::{ConId, Node, Signature, Term};
use std::alloc::AllocError;
use std::fmt::Write;

/// Returns the name of the constructor; nothing if there is none of the number.
fn name_of(sig: &Signature, con: ConId) -> &str
    ensures { result.now ≡ symbol_name (slice_get sig.now.symbols con.0) }
{
    if con.0 < sig.constructors() {
        sig.constructor(con).name.as_str()
    } else {
        ""
    }
}

/// Writes what is before the argument of the number: the bracket before the first one, a comma before each other one.
fn push_before(text: &mut String, number: usize) -> Result<(), AllocError>
    ensures { IfOk result (λ _. string_bytes text.new ≡ string_bytes text.old ++ before number) }
{
    if number == 0 {
        text.push_str("(")?;
    } else {
        text.push_str(",")?;
    }
    Ok(())
}

/// Writes what is after the last of that many arguments: the bracket, or nothing if there are none.
fn push_after(text: &mut String, count: usize) -> Result<(), AllocError>
    ensures { IfOk result (λ _. string_bytes text.new ≡ string_bytes text.old ++ after count) }
{
    if count > 0 {
        text.push_str(")")?;
    }
    Ok(())
}

/// Writes the term after the text. A shared part is written as often as it occurs.
pub fn push_term(sig: &Signature, text: &mut String, term: &Term) -> Result<(), AllocError>
    ensures { IfOk result (λ _. string_bytes text.new ≡ string_bytes text.old ++ term_text sig.now term.now) }
{
    match term.node() {
        Node::Var { number, .. } => {
            write!(text, "?{number}")?;
            Ok(())
        }
        Node::Con { con, args } => {
            text.push_str(name_of(sig, *con))?;
            let args = args.as_slice();
            for i in 0..args.len() {
                push_before(text, i)?;
                push_term(sig, text, &args[i])?;
            }
            push_after(text, args.len())?;
            Ok(())
        }
    }
}
