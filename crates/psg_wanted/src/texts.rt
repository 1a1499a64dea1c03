//! How values and menus are reported.
ghost use Rattle.std.specs.Prelude.{◌≡◌, ◌++◌, ℕ, IfOk, OnOk, codes, map, slice_get, string_bytes};
ghost use Rattle.psg_terms.specs.Signature.{HasSort};
ghost use Rattle.psg_terms.specs.Text.{term_text as term_text_of};
ghost use Rattle.psg_wanted.specs.Texts as texts;
ghost use Rattle.psg_wanted.specs.Texts.{AreSorted, after_each, all_values};

use psg_grammar::{Definition, Operator};
use psg_terms::{Node, Signature, Term, term_text};
use std::alloc::{AllocError, Global};

/// How many values are reported at most.
const MOST_VALUES: usize = 6;

/// Says whether the term is a variable.
fn is_variable(term: &Term) -> bool
    ensures { result ≡ texts.is_variable term.now }
{
    match term.node() {
        Node::Var { .. } => true,
        Node::Con { .. } => false,
    }
}

/// Says whether nothing is said by these values: there is none, or one that may be any.
pub fn say_nothing(terms: &[Term]) -> bool
    ensures { result ≡ texts.say_nothing terms.now }
{
    match terms {
        [] => true,
        [one] => is_variable(one),
        _ => false,
    }
}

/// Adds ` or ` and the value.
fn push_after_or(
    alloc: Global,
    text: &mut String,
    sig: &Signature,
    term: &Term,
) -> Result<(), AllocError>
    requires { (s : ℕ) × HasSort sig.now term.now s }
    ensures { OnOk result (string_bytes text.new
        ≡ string_bytes text.old ++ (codes " or " ++ term_text_of sig.now term.now)) }
{
    text.push_str(" or ")?;
    let own = term_text(alloc, sig, term)?;
    text.push_str(own.as_str())?;
    Ok(())
}

/// Adds ` or ` and the value for each of the values.
fn push_after_ors(
    alloc: Global,
    text: &mut String,
    sig: &Signature,
    terms: &[Term],
) -> Result<(), AllocError>
    requires { AreSorted sig.now terms.now }
    ensures { OnOk result (string_bytes text.new
        ≡ string_bytes text.old ++ after_each (codes " or ") (map (term_text_of sig.now) terms.now)) }
{
    for term in terms {
        push_after_or(alloc, text, sig, term)?;
    }
    Ok(())
}

/// Writes the values, ` or ` between two.
fn joined_values(alloc: Global, sig: &Signature, terms: &[Term]) -> Result<String, AllocError>
    requires { AreSorted sig.now terms.now }
    ensures { IfOk result (λ text. string_bytes text ≡ all_values sig.now terms.now) }
{
    let Some((first, rest)) = terms.split_first() else {
        return Ok(String::new(alloc));
    };
    let mut text = term_text(alloc, sig, first)?;
    push_after_ors(alloc, &mut text, sig, rest)?;
    Ok(text)
}

/// Writes the values, ` or ` between two: the first six, and then `..` where there are more.
pub fn values_text(alloc: Global, sig: &Signature, terms: &[Term]) -> Result<String, AllocError>
    requires { AreSorted sig.now terms.now }
    ensures { IfOk result (λ text. string_bytes text ≡ texts.values_text sig.now terms.now) }
{
    if terms.len() <= MOST_VALUES {
        let text = joined_values(alloc, sig, terms)?;
        return Ok(text);
    }
    let mut text = joined_values(alloc, sig, &terms[..MOST_VALUES])?;
    text.push_str(" or ..")?;
    Ok(text)
}

/// Writes what is wanted at a node, and what is found there.
pub fn node_message(
    alloc: Global,
    sig: &Signature,
    wanted: &[Term],
    found: &[Term],
) -> Result<String, AllocError>
    requires wanted { AreSorted sig.now wanted.now }
    requires found { AreSorted sig.now found.now }
    ensures { IfOk result (λ text. string_bytes text ≡ texts.node_message sig.now wanted.now found.now) }
{
    if say_nothing(wanted) {
        return String::from_str(alloc, "this does not fit here");
    }
    let wishes = values_text(alloc, sig, wanted)?;
    if found.is_empty() {
        return format!(in alloc; "wanted {}", wishes.as_str());
    }
    let own = values_text(alloc, sig, found)?;
    format!(in alloc; "wanted {}, found {}", wishes.as_str(), own.as_str())
}

/// Writes what is wanted of an entity after a comma, if anything is.
pub fn entity_wanted(alloc: Global, sig: &Signature, terms: &[Term]) -> Result<String, AllocError>
    requires { AreSorted sig.now terms.now }
    ensures { IfOk result (λ text. string_bytes text ≡ texts.entity_wanted sig.now terms.now) }
{
    if say_nothing(terms) {
        return Ok(String::new(alloc));
    }
    let values = values_text(alloc, sig, terms)?;
    format!(in alloc; ", wanted {}", values.as_str())
}

/// Returns the name of the operator, and the empty text where there is none.
pub fn operator_name(operators: &[Operator], op: u32) -> &str
    ensures { result.now ≡ texts.operator_name (slice_get operators.now op) }
{
    match operators.get(op as usize) {
        Some(operator) => operator.name.as_str(),
        None => "",
    }
}

/// Adds a space and the name of each of the operators.
fn push_after_spaces(
    text: &mut String,
    definition: &Definition,
    ops: &[u32],
) -> Result<(), AllocError>
    ensures { OnOk result (string_bytes text.new
        ≡ string_bytes text.old ++ after_each (codes " ") (map (texts.name_of definition.now) ops.now)) }
{
    for op in ops {
        let name = operator_name(definition.operators.as_slice(), *op);
        text.push_str(" ")?;
        text.push_str(name)?;
    }
    Ok(())
}

/// Writes the names of the operators, a space between two.
pub fn menu_text(alloc: Global, definition: &Definition, ops: &[u32]) -> Result<String, AllocError>
    ensures { IfOk result (λ text. string_bytes text ≡ texts.menu_text definition.now ops.now) }
{
    let Some((first, rest)) = ops.split_first() else {
        return Ok(String::new(alloc));
    };
    let name = operator_name(definition.operators.as_slice(), *first);
    let mut text = String::from_str(alloc, name)?;
    push_after_spaces(&mut text, definition, rest)?;
    Ok(text)
}

/// Writes the names of the operators, or `none`.
pub fn menu_or_none(
    alloc: Global,
    definition: &Definition,
    ops: &[u32],
) -> Result<String, AllocError>
    ensures { IfOk result (λ text. string_bytes text ≡ texts.menu_or_none definition.now ops.now) }
{
    if ops.is_empty() {
        return String::from_str(alloc, "none");
    }
    let text = menu_text(alloc, definition, ops)?;
    Ok(text)
}
