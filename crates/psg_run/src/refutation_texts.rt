//! The lines that say why a program has no completion.
ghost use Rattle.std.specs.Prelude.{◌≡◌, ◌∷◌, ◌++◌, [], List, ℕ, Some, IfOk, codes, map, option_copied, string_bytes};
ghost use Rattle.psg_explain.specs.declared.refutation.Claim.{Claim as PlainClaim};
ghost use Rattle.psg_grammar.specs.Fragments.{Fragment};
ghost use Rattle.psg_grammar.specs.Paths.{node_at};
ghost use Rattle.psg_run.specs.Explaining.{AreCulpritLines, case_line, cell_text, culprit_line, equation_text};
ghost use Rattle.psg_run.specs.Explaining.{label_text, reason_text, step_text, twice_line};
ghost use Rattle.psg_session.specs.Answers.{key_text, space_name};
ghost use Rattle.psg_session.specs.Replies.{feed, feed_all};

use crate::paths::push_path;
use crate::term_texts::push_term;
use psg_explain::{CaseReason, Claim, Label, Reason};
use psg_grammar::{Definition, Space};
use psg_terms::{Signature, Term};
use psg_tree::{Path, Tree, at, child_at};
use std::alloc::{AllocError, Global};
use std::fmt::Write;

/// Writes the label of a row or of a pair of rows.
fn push_label(text: &mut String, label: Label) -> Result<(), AllocError>
    ensures { IfOk result (λ _. string_bytes text.new ≡ string_bytes text.old ++ label_text label) }
{
    match label {
        Label::Row(row) => {
            write!(text, "row {row}")?;
            Ok(())
        }
        Label::Pair(left, right) => {
            write!(text, "pair {left} {right}")?;
            Ok(())
        }
    }
}

/// Writes the equation of the two terms.
fn push_equation(
    sig: &Signature,
    text: &mut String,
    left: &Term,
    right: &Term,
) -> Result<(), AllocError>
    ensures { IfOk result (λ _. string_bytes text.new
        ≡ string_bytes text.old ++ equation_text sig.now left.now right.now) }
{
    push_term(sig, text, left)?;
    text.push_str(" = ")?;
    push_term(sig, text, right)?;
    Ok(())
}

/// Writes the equation that cannot be solved, after why.
fn push_reason(sig: &Signature, text: &mut String, reason: &Reason) -> Result<(), AllocError>
    ensures { IfOk result (λ _. string_bytes text.new ≡ string_bytes text.old ++ reason_text sig.now reason.now) }
{
    match reason {
        Reason::Clash(left, right) => {
            text.push_str("clash ")?;
            push_equation(sig, text, left, right)?;
            Ok(())
        }
        Reason::Circle(left, right) => {
            text.push_str("circle ")?;
            push_equation(sig, text, left, right)?;
            Ok(())
        }
    }
}

/// Writes the line of a row, or of a pair of rows, that makes none.
fn push_case(sig: &Signature, text: &mut String, told: &CaseReason) -> Result<(), AllocError>
    ensures { IfOk result (λ _. string_bytes text.new ≡ string_bytes text.old ++ feed (case_line sig.now told.now)) }
{
    push_label(text, told.label)?;
    text.push_str(" ")?;
    push_reason(sig, text, &told.reason)?;
    text.push_str("\n")?;
    Ok(())
}

/// Writes a line for each of them.
fn push_cases(sig: &Signature, text: &mut String, told: &[CaseReason]) -> Result<(), AllocError>
    ensures { IfOk result (λ _. string_bytes text.new
        ≡ string_bytes text.old ++ feed_all (map (case_line sig.now) told.now)) }
{
    for one in told {
        push_case(sig, text, one)?;
    }
    Ok(())
}

/// Writes the step of the cell of the element, or that it is the end of the list.
fn push_cell(
    text: &mut String,
    element: Option<&Tree>,
    cell: u32,
    step: u32,
) -> Result<(), AllocError>
    ensures { IfOk result (λ _. string_bytes text.new
        ≡ string_bytes text.old ++ cell_text (option_copied element.entry) cell step) }
{
    match element {
        Some(_) => {
            write!(text, "cell {cell} step {step}")?;
            Ok(())
        }
        None => {
            text.push_str("end")?;
            Ok(())
        }
    }
}

/// Writes the step of the node.
fn push_step(text: &mut String, node: &Tree, cell: Option<u32>, step: u32) -> Result<(), AllocError>
    ensures { IfOk result (λ _. string_bytes text.new ≡ string_bytes text.old ++ step_text node.now cell step) }
{
    match cell {
        Some(number) => {
            push_cell(text, child_at(node, number), number, step)?;
            Ok(())
        }
        None => {
            write!(text, "step {step}")?;
            Ok(())
        }
    }
}

/// Writes the line of the culprit at the path, and of its step of which the claim is.
fn push_culprit(
    text: &mut String,
    path: &Path,
    node: &Tree,
    claim: &Claim,
) -> Result<(), AllocError>
    ensures { IfOk result (λ _. string_bytes text.new
        ≡ string_bytes text.old ++ feed (culprit_line path.now node.now claim.now)) }
{
    text.push_str("culprit ")?;
    push_path(text, path)?;
    text.push_str(" ")?;
    push_step(text, node, claim.cell, claim.step)?;
    text.push_str("\n")?;
    Ok(())
}

/// Returns the node at the path, which is there.
fn node_of<'t>(tree: &'t Tree, path: &Path) -> &'t Tree
    requires { (node : Fragment) × (node_at tree.now path.now ≡ Some node) }
    ensures { node_at tree.now path.now ≡ Some result.now }
{
    match at(tree, path) {
        Some(node) => node,
        None => unreachable!(),
    }
}

/// Returns the last of the claims; there is one.
fn last_of(claims: &[Claim]) -> &Claim
    requires { claims.now ≡ [] → ⊥ }
    ensures { (front : List PlainClaim) × (claims.now ≡ front ++ result.now ∷ []) }
{
    match claims.split_last() {
        Some((last, _)) => last,
        None => unreachable!(),
    }
}

/// Writes the lines of a step without rows, which is one of the node at the path: which it is, why each row or pair of
/// rows makes none, and that all that was checked.
pub fn culprit_text(
    alloc: Global,
    definition: &Definition,
    tree: &Tree,
    path: &Path,
    claims: &[Claim],
    told: &[CaseReason],
) -> Result<String, AllocError>
    requires there { (node : Fragment) × (node_at tree.now path.now ≡ Some node) }
    requires some { claims.now ≡ [] → ⊥ }
    requires own { (front : List PlainClaim) (last : PlainClaim) → claims.now ≡ front ++ last ∷ []
        → last.path ≡ path.now }
    ensures { IfOk result (λ text. (lines : List (List ℕ))
        × AreCulpritLines definition.now tree.now path.now claims.now told.now lines
        × (string_bytes text ≡ feed_all lines)) }
{
    let node = node_of(tree, path);
    let claim = last_of(claims);
    let mut text = String::new(alloc);
    push_culprit(&mut text, path, node, claim)?;
    push_cases(&definition.signature, &mut text, told)?;
    text.push_str("checked\n")?;
    Ok(text)
}

/// Writes the name of the space.
fn push_space(text: &mut String, spaces: &[Space], space: u32) -> Result<(), AllocError>
    ensures { IfOk result (λ _. string_bytes text.new ≡ string_bytes text.old ++ space_name spaces.now space) }
{
    match spaces.get(space as usize) {
        Some(own) => text.push_str(own.name.as_str()),
        None => Ok(()),
    }
}

/// Writes the key as its name, in version 2 after the name of its space and a colon.
fn push_key(
    text: &mut String,
    definition: &Definition,
    space: u32,
    name: &str,
) -> Result<(), AllocError>
    ensures { IfOk result (λ _. string_bytes text.new
        ≡ string_bytes text.old ++ key_text definition.now (space ∷ name.now)) }
{
    if definition.version == 2 {
        push_space(text, definition.spaces.as_slice(), space)?;
        text.push_str(":")?;
        text.push_str(name)?;
        return Ok(());
    }
    text.push_str(name)?;
    Ok(())
}

/// Writes the lines of a key that is declared twice: the node and the key, and that it was checked.
pub fn twice_text(
    alloc: Global,
    definition: &Definition,
    path: &Path,
    space: u32,
    name: &str,
) -> Result<String, AllocError>
    ensures { IfOk result (λ text. string_bytes text
        ≡ feed_all (twice_line definition.now path.now space name.now ∷ codes "checked" ∷ [])) }
{
    let mut text = String::from_str(alloc, "twice ")?;
    push_path(&mut text, path)?;
    text.push_str(" ")?;
    push_key(&mut text, definition, space, name)?;
    text.push_str("\nchecked\n")?;
    Ok(text)
}
