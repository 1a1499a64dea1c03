//! Lines as texts.
ghost use Rattle.std.specs.Prelude.{◌≡◌, ◌<◌, ◌+◌, ◌++◌, ◌∷◌, [], cond, codes, IfOk, Some, OnOk, map, string_bytes};
ghost use Rattle.psg_grammar.specs.Sound.{IsLevel};
ghost use Rattle.psg_deflines.specs.Forms.{HasForm, SpellsLine, argument_parts, by_parts, columns_parts};
ghost use Rattle.psg_deflines.specs.Forms.{constructor_parts, item_part, level_parts, parts_of, tag, terms_parts};
ghost use Rattle.psg_deflines.specs.Forms.{word_if};
ghost use Rattle.psg_deflines.specs.LineTexts.{behind, spaced, style_parts};
ghost use Rattle.psg_deflines.specs.declared.lines.Line.TheVariants as lines;

use crate::lines::{Line, LineItem};
use crate::part_writing::{
    write_closing, write_if, write_mark, write_quoted, write_term, write_tree, write_word,
};
use crate::terms::LineTerm;
use crate::trees::LineTree;
use psg_grammar::Level;
use psg_terms::{ConDecl, SortDecl, Txt};
use std::alloc::{AllocError, Global};

/// Writes the names of a constructor's sorts, in brackets where there are any.
fn write_arguments(out: &mut String, names: &[Txt]) -> Result<(), AllocError>
    ensures { OnOk result (string_bytes out.new ≡ string_bytes out.old ++ behind (argument_parts names.now)) }
{
    for i in 0..names.len() {
        write_mark(out, "(", i)?;
        write_word(out, names[i].as_str())?;
    }
    write_closing(out, names.len())
}

/// Writes a constructor.
fn write_constructor(out: &mut String, constructor: &ConDecl) -> Result<(), AllocError>
    ensures { OnOk result (string_bytes out.new ≡ string_bytes out.old
        ++ behind (constructor.now.name ∷ argument_parts constructor.now.args)) }
{
    write_word(out, constructor.name.as_str())?;
    write_arguments(out, constructor.args.as_slice())
}

/// Writes constructors.
fn write_constructors(out: &mut String, constructors: &[ConDecl]) -> Result<(), AllocError>
    ensures { OnOk result (string_bytes out.new
        ≡ string_bytes out.old ++ behind (constructor_parts constructors.now)) }
{
    for i in 0..constructors.len() {
        write_constructor(out, &constructors[i])?;
    }
    Ok(())
}

/// Puts the mark and the name of a space after what there is; nothing for the empty name.
fn push_tag(out: &mut String, space: &Txt) -> Result<(), AllocError>
    ensures { OnOk result (string_bytes out.new ≡ string_bytes out.old ++ tag space.now) }
{
    let name = space.as_str();
    if name.is_empty() {
        return Ok(());
    }
    out.push_str("@")?;
    out.push_str(name)
}

/// Writes a word with the name of a space.
fn write_tagged(out: &mut String, word: &str, space: &Txt) -> Result<(), AllocError>
    ensures { OnOk result (string_bytes out.new
        ≡ string_bytes out.old ++ behind ((word.now ++ tag space.now) ∷ [])) }
{
    write_word(out, word)?;
    push_tag(out, space)
}

/// Writes an item.
fn write_item(out: &mut String, item: &LineItem) -> Result<(), AllocError>
    ensures { OnOk result (string_bytes out.new ≡ string_bytes out.old ++ behind (item_part item.now ∷ [])) }
{
    match item {
        LineItem::Word(word) => write_quoted(out, word.as_str()),
        LineItem::Slot(kind) => write_word(out, kind.as_str()),
        LineItem::Refers(space) => write_tagged(out, "refers", space),
        LineItem::Declares(space) => write_tagged(out, "declares", space),
        LineItem::Number => write_word(out, "number"),
        LineItem::Text => write_word(out, "text"),
        LineItem::Space => write_word(out, "space"),
        LineItem::Tight => write_word(out, "tight"),
        LineItem::Line => write_word(out, "line"),
        LineItem::In => write_word(out, "in"),
        LineItem::Out => write_word(out, "out"),
    }
}

/// Writes items.
fn write_items(out: &mut String, items: &[LineItem]) -> Result<(), AllocError>
    ensures { OnOk result (string_bytes out.new
        ≡ string_bytes out.old ++ behind (map item_part items.now)) }
{
    for i in 0..items.len() {
        write_item(out, &items[i])?;
    }
    Ok(())
}

/// Returns the digit, and nothing for a number above 9.
fn digit_of(number: u8) -> &'static str
    ensures { number < 10 → result.now ≡ (48 + number) ∷ [] }
{
    match number {
        0 => "0",
        1 => "1",
        2 => "2",
        3 => "3",
        4 => "4",
        5 => "5",
        6 => "6",
        7 => "7",
        8 => "8",
        9 => "9",
        _ => "",
    }
}

/// Writes the word of a form and a digit.
fn write_form(out: &mut String, form: &str, number: u8) -> Result<(), AllocError>
    ensures { OnOk result (number < 10 → string_bytes out.new
        ≡ string_bytes out.old ++ behind (form.now ∷ ((48 + number) ∷ []) ∷ [])) }
{
    write_word(out, form)?;
    write_word(out, digit_of(number))
}

/// Writes a level.
fn write_level(out: &mut String, level: &Level) -> Result<(), AllocError>
    ensures { OnOk result (IsLevel level.now → string_bytes out.new
        ≡ string_bytes out.old ++ behind (level_parts level.now)) }
{
    match level {
        Level::Plain => Ok(()),
        Level::Prefix(number) => write_form(out, "prefix", *number),
        Level::Postfix(number) => write_form(out, "postfix", *number),
        Level::InfixLeft(number) => write_form(out, "infixl", *number),
        Level::InfixRight(number) => write_form(out, "infixr", *number),
        Level::InfixNone(number) => write_form(out, "infix", *number),
    }
}

/// Writes terms.
fn write_terms(out: &mut String, terms: &[LineTerm]) -> Result<(), AllocError>
    ensures { OnOk result (string_bytes out.new ≡ string_bytes out.old ++ behind (terms_parts terms.now)) }
{
    for i in 0..terms.len() {
        write_term(out, &terms[i])?;
    }
    Ok(())
}

/// Writes the terms of a row's columns, after a colon where there are any.
fn write_columns(out: &mut String, terms: &[LineTerm]) -> Result<(), AllocError>
    ensures { OnOk result (string_bytes out.new ≡ string_bytes out.old ++ behind (columns_parts terms.now)) }
{
    write_if(out, !terms.is_empty(), ":")?;
    write_terms(out, terms)
}

/// Writes a specimen after its word.
fn write_specimen(out: &mut String, specimen: &LineTree) -> Result<(), AllocError>
    ensures { OnOk result (string_bytes out.new
        ≡ string_bytes out.old ++ behind (by_parts (Some specimen.now))) }
{
    write_word(out, "by")?;
    write_tree(out, specimen)
}

/// Writes a specimen after its word, if there is one.
fn write_by(out: &mut String, specimen: &Option<LineTree>) -> Result<(), AllocError>
    ensures { OnOk result (string_bytes out.new ≡ string_bytes out.old ++ behind (by_parts specimen.now)) }
{
    match specimen {
        Some(specimen) => write_specimen(out, specimen),
        None => Ok(()),
    }
}

/// Writes the first part of a line, and the name that follows it.
fn write_head(out: &mut String, keyword: &str, name: &str) -> Result<(), AllocError>
    ensures { OnOk result (string_bytes out.new
        ≡ string_bytes out.old ++ spaced (keyword.now ∷ name.now ∷ [])) }
{
    out.push_str(keyword)?;
    write_word(out, name)
}

/// Writes the line of a sort.
fn write_sort(out: &mut String, sort: &SortDecl) -> Result<(), AllocError>
    ensures { OnOk result (string_bytes out.new
        ≡ string_bytes out.old ++ spaced (parts_of (lines.Sort sort.now))) }
{
    write_head(out, "sort", sort.name.as_str())?;
    write_word(out, "=")?;
    write_constructors(out, sort.constructors.as_slice())
}

/// Writes the line of a space.
fn write_space(out: &mut String, name: &Txt, sort: &Txt) -> Result<(), AllocError>
    ensures { OnOk result (string_bytes out.new
        ≡ string_bytes out.old ++ spaced (parts_of (lines.Space name.now sort.now))) }
{
    if name.as_str().is_empty() {
        return write_head(out, "entity", sort.as_str());
    }
    write_head(out, "space", name.as_str())?;
    write_word(out, ":")?;
    write_word(out, sort.as_str())
}

/// Writes the line of a phylum.
fn write_phylum(out: &mut String, name: &Txt, sort: &Txt, bracketed: bool) -> Result<(), AllocError>
    ensures { OnOk result (string_bytes out.new
        ≡ string_bytes out.old ++ spaced (parts_of (lines.Phylum name.now sort.now bracketed))) }
{
    write_head(out, "phylum", name.as_str())?;
    write_word(out, ":")?;
    write_word(out, sort.as_str())?;
    write_if(out, bracketed, "bracketed")
}

/// Writes what a list line has after its element: the separator, and how it is written.
fn write_style(
    out: &mut String,
    separator: &Txt,
    lines: bool,
    unfinished: bool,
) -> Result<(), AllocError>
    ensures { OnOk result (string_bytes out.new
        ≡ string_bytes out.old ++ behind (style_parts separator.now lines unfinished)) }
{
    write_quoted(out, separator.as_str())?;
    write_word(out, if lines { "lines" } else { "inline" })?;
    write_word(out, if unfinished { "unfinished" } else { "fixed" })
}

/// Writes the line of a list up to its separator.
fn write_list(out: &mut String, name: &Txt, sort: &Txt, element: &Txt) -> Result<(), AllocError>
    ensures { OnOk result (string_bytes out.new ≡ string_bytes out.old
        ++ spaced (codes "list" ∷ name.now ∷ codes ":" ∷ sort.now ∷ codes "of" ∷ element.now ∷ [])) }
{
    write_head(out, "list", name.as_str())?;
    write_word(out, ":")?;
    write_word(out, sort.as_str())?;
    write_word(out, "of")?;
    write_word(out, element.as_str())
}

/// Writes the line of an operator up to its level.
fn write_operator(out: &mut String, name: &Txt, phylum: &Txt, scope: bool) -> Result<(), AllocError>
    ensures { OnOk result (string_bytes out.new ≡ string_bytes out.old
        ++ spaced (codes "op" ∷ name.now ∷ codes ":" ∷ phylum.now ∷ word_if scope (codes "scope"))) }
{
    write_head(out, "op", name.as_str())?;
    write_word(out, ":")?;
    write_word(out, phylum.as_str())?;
    write_if(out, scope, "scope")
}

/// Writes the line.
fn write_line(out: &mut String, line: &Line) -> Result<(), AllocError>
    ensures { OnOk result (HasForm line.now → string_bytes out.new
        ≡ string_bytes out.old ++ spaced (parts_of line.now)) }
{
    match line {
        Line::Sort(sort) => write_sort(out, sort),
        Line::Space { name, sort } => write_space(out, name, sort),
        Line::Phylum {
            name,
            sort,
            bracketed,
        } => write_phylum(out, name, sort, *bracketed),
        Line::List {
            name,
            sort,
            element,
            separator,
            lines,
            unfinished,
        } => {
            write_list(out, name, sort, element)?;
            write_style(out, separator, *lines, *unfinished)
        }
        Line::Operator {
            name,
            phylum,
            scope,
            level,
            items,
        } => {
            write_operator(out, name, phylum, *scope)?;
            write_level(out, level)?;
            write_word(out, "=")?;
            write_items(out, items.as_slice())
        }
        Line::Row { head, columns } => {
            out.push_str("row")?;
            write_term(out, head)?;
            write_columns(out, columns.as_slice())
        }
        Line::Nil { list, term } => {
            write_head(out, "nil", list.as_str())?;
            write_term(out, term)
        }
        Line::Cell {
            list,
            term,
            element,
            rest,
        } => {
            write_head(out, "cell", list.as_str())?;
            write_term(out, term)?;
            write_word(out, ":")?;
            write_term(out, element)?;
            write_term(out, rest)
        }
        Line::Hole {
            kind,
            term,
            specimen,
        } => {
            write_head(out, "hole", kind.as_str())?;
            write_term(out, term)?;
            write_by(out, specimen)
        }
        Line::Case { term, specimen } => {
            out.push_str("case")?;
            write_term(out, term)?;
            write_specimen(out, specimen)
        }
        Line::Declare {
            space,
            list,
            entity,
            value,
            specimen,
        } => {
            out.push_str("declare")?;
            push_tag(out, space)?;
            write_word(out, list.as_str())?;
            write_term(out, entity)?;
            write_word(out, ":")?;
            write_term(out, value)?;
            write_specimen(out, specimen)
        }
    }
}

/// Returns the text of the line, without a line feed: its parts in order with one space between two of them. A line
/// that was read is spelled by it, and no other line is.
pub fn line_text(alloc: Global, line: &Line) -> Result<String, AllocError>
    ensures spelled { IfOk result (λ text. HasForm line.now → SpellsLine (string_bytes text) line.now) }
    ensures text { IfOk result (λ text. HasForm line.now → string_bytes text ≡ spaced (parts_of line.now)) }
{
    let mut out = String::new(alloc);
    write_line(&mut out, line)?;
    Ok(out)
}
