//! The lines of the exported text.
ghost use Rattle.std.specs.Prelude.{◌≡◌, ◌++◌, ◌∷◌, ◌==◌, [], cond, codes, length, IfOk, OnOk, Some, string_bytes};
ghost use Rattle.std.specs.Prelude.{true, false};
ghost use Rattle.std.specs.Option.{option_copied};
ghost use Rattle.std.specs.List.{flat_map};
ghost use Rattle.psg_deflines.specs.Forms.{item_part};
ghost use Rattle.psg_deflines.specs.WrittenTrees.{quoted_part};
ghost use Rattle.psg_self.specs.NodeParts.{elements_at, name_at};
ghost use Rattle.psg_self.specs.SelfLines as lines;
ghost use Rattle.psg_self.specs.SelfLines.{constructor_of, item_of, level_by, level_in, lines_of, row_of};
ghost use Rattle.psg_self.specs.SelfLines.{specimen_in, term_in, term_of};
ghost use Rattle.psg_self.specs.Export.{constructor_text, exported, exported_line, level_words};
ghost use Rattle.psg_self.specs.Export.{specimen_text, term_text};

use crate::form::Form;
use crate::nodes::{elements_at, elements_of, first_number, first_text, form_of, name_at, tree_at};
use crate::terms::{write_constructor, write_specimen, write_term};
use psg_lexis::write_escaped;
use psg_tree::Tree;
use std::alloc::{AllocError, Global};

/// Writes the text in quotes, with a backslash before each quote and backslash, and a line feed as `\n`.
fn write_quoted(out: &mut String, contents: &str) -> Result<(), AllocError>
    ensures { OnOk result (string_bytes out.new ≡ string_bytes out.old ++ quoted_part contents.now) }
{
    out.push_str("\"")?;
    for ch in contents.chars() {
        write_escaped(out, ch)?;
    }
    out.push_str("\"")
}

/// Writes the term, where there is one.
fn write_term_of(out: &mut String, term: Option<&Tree>) -> Result<(), AllocError>
    ensures { OnOk result (string_bytes out.new
        ≡ string_bytes out.old ++ term_text (term_in (option_copied term.entry))) }
{
    match term {
        Some(term) => write_term(out, term),
        None => Ok(()),
    }
}

/// Writes the specimen, where there is one.
fn write_specimen_of(out: &mut String, specimen: Option<&Tree>) -> Result<(), AllocError>
    ensures { OnOk result (string_bytes out.new
        ≡ string_bytes out.old ++ specimen_text (specimen_in (option_copied specimen.entry))) }
{
    match specimen {
        Some(specimen) => write_specimen(out, specimen),
        None => Ok(()),
    }
}

/// Writes the constructors, each after a space.
fn write_constructors(out: &mut String, nodes: &[Tree]) -> Result<(), AllocError>
    ensures { OnOk result (string_bytes out.new
        ≡ string_bytes out.old ++ flat_map (λ c. 32 ∷ constructor_text (constructor_of c)) nodes.now) }
{
    for i in 0..nodes.len() {
        out.push_str(" ")?;
        write_constructor(out, &nodes[i])?;
    }
    Ok(())
}

/// Writes the beginning of the line of a sort.
fn write_sort_head(out: &mut String, line: &Tree) -> Result<(), AllocError>
    ensures { OnOk result (string_bytes out.new
        ≡ string_bytes out.old ++ (codes "sort " ++ (name_at line.now 0 ++ codes " ="))) }
{
    let name = name_at(line, 0);
    write!(out, "sort {name} =")
}

/// Writes the line of a sort.
fn write_sort(out: &mut String, line: &Tree) -> Result<(), AllocError>
    ensures { OnOk result (string_bytes out.new ≡ string_bytes out.old ++ exported_line (lines.sort_line line.now)) }
{
    write_sort_head(out, line)?;
    write_constructors(out, elements_at(line, 1))?;
    out.push_str("\n")
}

/// Writes the line of a phylum.
fn write_phylum(out: &mut String, line: &Tree) -> Result<(), AllocError>
    ensures { OnOk result (string_bytes out.new
        ≡ string_bytes out.old ++ exported_line (lines.phylum_line false line.now)) }
{
    let name = name_at(line, 0);
    let sort = name_at(line, 1);
    write!(out, "phylum {name} : {sort}\n")
}

/// Writes the line of a phylum whose trees may be in brackets.
fn write_bracketed(out: &mut String, line: &Tree) -> Result<(), AllocError>
    ensures { OnOk result (string_bytes out.new
        ≡ string_bytes out.old ++ exported_line (lines.phylum_line true line.now)) }
{
    let name = name_at(line, 0);
    let sort = name_at(line, 1);
    write!(out, "phylum {name} : {sort} bracketed\n")
}

/// Writes the words of the level, each after a space.
fn write_level(out: &mut String, level: Form, number: u128) -> Result<(), AllocError>
    ensures { OnOk result (string_bytes out.new
        ≡ string_bytes out.old ++ flat_map (λ w. 32 ∷ w) (level_words (level_by (Some level) number))) }
{
    match level {
        Form::Prefix => write!(out, " prefix {number}"),
        Form::Postfix => write!(out, " postfix {number}"),
        Form::InfixLeft => write!(out, " infixl {number}"),
        Form::InfixRight => write!(out, " infixr {number}"),
        Form::InfixNone => write!(out, " infix {number}"),
        _ => Ok(()),
    }
}

/// Writes the words of the level that a node is, each after a space.
fn write_level_node(out: &mut String, level: &Tree) -> Result<(), AllocError>
    ensures { OnOk result (string_bytes out.new
        ≡ string_bytes out.old ++ flat_map (λ w. 32 ∷ w) (level_words (level_in (Some level.now)))) }
{
    match form_of(level) {
        Some(form) => write_level(out, form, first_number(level)),
        None => Ok(()),
    }
}

/// Writes the words of the level, where there is one.
fn write_level_of(out: &mut String, level: Option<&Tree>) -> Result<(), AllocError>
    ensures { OnOk result (string_bytes out.new
        ≡ string_bytes out.old ++ flat_map (λ w. 32 ∷ w) (level_words (level_in (option_copied level.entry)))) }
{
    match level {
        Some(level) => write_level_node(out, level),
        None => Ok(()),
    }
}

/// Writes an item: a word in quotes, the name of a slot, or the word of a layout mark.
fn write_item(out: &mut String, item: &Tree) -> Result<(), AllocError>
    ensures { OnOk result (string_bytes out.new ≡ string_bytes out.old ++ item_part (item_of item.now)) }
{
    match form_of(item) {
        None => out.push_str("out"),
        Some(form) => match form {
            Form::Word => write_quoted(out, first_text(item)),
            Form::Slot => out.push_str(name_at(item, 0)),
            Form::Space => out.push_str("space"),
            Form::Tight => out.push_str("tight"),
            Form::Line => out.push_str("line"),
            Form::In => out.push_str("in"),
            _ => out.push_str("out"),
        },
    }
}

/// Writes the items, each after a space.
fn write_items(out: &mut String, items: &[Tree]) -> Result<(), AllocError>
    ensures { OnOk result (string_bytes out.new
        ≡ string_bytes out.old ++ flat_map (λ i. 32 ∷ item_part (item_of i)) items.now) }
{
    for i in 0..items.len() {
        out.push_str(" ")?;
        write_item(out, &items[i])?;
    }
    Ok(())
}

/// Writes the terms, each after a space.
fn write_terms(out: &mut String, terms: &[Tree]) -> Result<(), AllocError>
    ensures { OnOk result (string_bytes out.new
        ≡ string_bytes out.old ++ flat_map (λ t. 32 ∷ term_text (term_of t)) terms.now) }
{
    for i in 0..terms.len() {
        out.push_str(" ")?;
        write_term(out, &terms[i])?;
    }
    Ok(())
}

/// Writes the terms of a row's columns after a colon, where there are any.
fn write_columns(out: &mut String, terms: &[Tree]) -> Result<(), AllocError>
    ensures { OnOk result (string_bytes out.new ≡ string_bytes out.old
        ++ (cond (length terms.now == 0) [] (codes " :") ++ flat_map (λ t. 32 ∷ term_text (term_of t)) terms.now)) }
{
    if terms.len() == 0 {
        return Ok(());
    }
    out.push_str(" :")?;
    write_terms(out, terms)
}

/// Writes the line of a row.
fn write_row(out: &mut String, row: &Tree) -> Result<(), AllocError>
    ensures { OnOk result (string_bytes out.new ≡ string_bytes out.old ++ exported_line (row_of row.now)) }
{
    out.push_str("row ")?;
    write_term_of(out, tree_at(row, 0))?;
    write_columns(out, elements_at(row, 1))?;
    out.push_str("\n")
}

/// Writes the lines of the rows.
fn write_rows(out: &mut String, rows: &[Tree]) -> Result<(), AllocError>
    ensures { OnOk result (string_bytes out.new
        ≡ string_bytes out.old ++ flat_map (λ r. exported_line (row_of r)) rows.now) }
{
    for i in 0..rows.len() {
        write_row(out, &rows[i])?;
    }
    Ok(())
}

/// Writes the beginning of the line of an operator.
fn write_operator_head(out: &mut String, line: &Tree) -> Result<(), AllocError>
    ensures { OnOk result (string_bytes out.new ≡ string_bytes out.old
        ++ (codes "op " ++ (name_at line.now 0 ++ (codes " : " ++ name_at line.now 1)))) }
{
    let name = name_at(line, 0);
    let phylum = name_at(line, 1);
    write!(out, "op {name} : {phylum}")
}

/// Writes the line of an operator.
fn write_operator(out: &mut String, line: &Tree) -> Result<(), AllocError>
    ensures { OnOk result (string_bytes out.new
        ≡ string_bytes out.old ++ exported_line (lines.operator_line line.now)) }
{
    write_operator_head(out, line)?;
    write_level_of(out, tree_at(line, 2))?;
    out.push_str(" =")?;
    write_items(out, elements_at(line, 3))?;
    out.push_str("\n")
}

/// Writes the beginning of the line of a hole row.
fn write_hole_head(out: &mut String, line: &Tree) -> Result<(), AllocError>
    ensures { OnOk result (string_bytes out.new
        ≡ string_bytes out.old ++ (codes "hole " ++ (name_at line.now 0 ++ codes " "))) }
{
    let kind = name_at(line, 0);
    write!(out, "hole {kind} ")
}

/// Writes the line of a hole row.
fn write_hole(out: &mut String, line: &Tree) -> Result<(), AllocError>
    ensures { OnOk result (string_bytes out.new ≡ string_bytes out.old ++ exported_line (lines.hole_line line.now)) }
{
    write_hole_head(out, line)?;
    write_term_of(out, tree_at(line, 1))?;
    out.push_str(" by ")?;
    write_specimen_of(out, tree_at(line, 2))?;
    out.push_str("\n")
}

/// Writes the lines of an operator and of its rows.
fn write_operator_lines(out: &mut String, line: &Tree) -> Result<(), AllocError>
    ensures { OnOk result (string_bytes out.new ≡ string_bytes out.old
        ++ (exported_line (lines.operator_line line.now)
        ++ flat_map (λ r. exported_line (row_of r)) (elements_at line.now 4))) }
{
    write_operator(out, line)?;
    write_rows(out, elements_at(line, 4))
}

/// Writes the lines that a node represents: one, and for an operator those of its rows too.
fn write_lines(out: &mut String, line: &Tree) -> Result<(), AllocError>
    ensures { OnOk result (string_bytes out.new
        ≡ string_bytes out.old ++ flat_map exported_line (lines_of line.now)) }
{
    match form_of(line) {
        None => Ok(()),
        Some(form) => match form {
            Form::SortLine => write_sort(out, line),
            Form::PhylumLine => write_phylum(out, line),
            Form::BracketedLine => write_bracketed(out, line),
            Form::OperatorLine => write_operator_lines(out, line),
            Form::HoleLine => write_hole(out, line),
            _ => Ok(()),
        },
    }
}

/// Writes the lines that the nodes represent.
fn write_all(out: &mut String, nodes: &[Tree]) -> Result<(), AllocError>
    ensures { OnOk result (string_bytes out.new
        ≡ string_bytes out.old ++ flat_map (λ n. flat_map exported_line (lines_of n)) nodes.now) }
{
    for i in 0..nodes.len() {
        write_lines(out, &nodes[i])?;
    }
    Ok(())
}

/// Returns the exported text of a tree: the head of version 1, and the lines that its elements represent. It walks the
/// tree once.
pub fn exported_text(alloc: Global, tree: &Tree) -> Result<String, AllocError>
    ensures { IfOk result (λ text. string_bytes text ≡ exported tree.now) }
{
    let mut out = String::new(alloc);
    out.push_str("psg 1\n")?;
    write_all(&mut out, elements_of(tree))?;
    Ok(out)
}
