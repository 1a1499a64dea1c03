//! The walk over a tree that writes it.
ghost use Rattle.std.specs.Prelude.{◌≡◌, ◌+◌, ◌<◌, ◌==◌, ◌&&◌, not, [], ◌∷◌, ◌++◌, length, slice_get, Some};
ghost use Rattle.std.specs.Prelude.{IfOk, MatchOption, OnOk};
ghost use Rattle.std.specs.List.{AllByRecursion};
ghost use Rattle.psg_grammar.specs.Fragments.{operator as plain_operator};
ghost use Rattle.psg_grammar.specs.Lookups.{operator_at};
ghost use Rattle.psg_grammar.specs.Sound.{IsSound};
ghost use Rattle.psg_tree.specs.AbstractText as text;
ghost use Rattle.psg_tree.specs.Shapes.{list_of, with_parts};
ghost use Rattle.psg_unparse.specs.Rows.{between, closing, from_part, items_in, opening, row, words};
ghost use Rattle.psg_unparse.specs.Rows as rows;
ghost use Rattle.psg_grammar.specs.WellFormed.{fixed_words};
ghost use Rattle.psg_lexis.specs.Tokens.{IsFixedWord};
ghost use Rattle.psg_class.specs.Class.{IsClass};
ghost use Rattle.psg_unparse.specs.Back.{ReadsBackIfPrintable};
ghost use Rattle.psg_unparse.specs.Nodes.{NodesReadBackIfPrintable};
ghost use Rattle.psg_unparse.specs.Spans.{printed_of};
ghost use Rattle.psg_unparse.specs.Walking.{IsOpened, IsClosed, PrintsBelow, PrintsPart, PrintsTree};
ghost use Rattle.psg_unparse.specs.Walking.{count_of, IsWhole, ending_row, is_below, level_wanted};
ghost use Rattle.psg_unparse.specs.Plain.{IsPlain, IsPlainText};
ghost use Rattle.psg_unparse.specs.Writing.{Adds};

use crate::layout::Writer;
use crate::spans::{Printed, Span};
use psg_grammar::{Definition, Item, ListKind, is_part, least_level, op_level};
use psg_terms::{Seq, Txt, uncountable};
use psg_tree::{Part, Path, Shape, Tree, nodes, phylum_name};
use std::alloc::{AllocError, Global};

/// What is written so far, with the spans of the nodes that were met and the path to the one that is written.
#[derive(Drop)]
pub(crate) struct Printer {
    pub(crate) writer: Writer,
    pub(crate) path: Vec<u32>,
    pub(crate) spans: Vec<Span>,
}

impl Printer {
    /// Begins a node: its span is listed, and the place of its first token is to be found. It returns that of the node
    /// above, if it is known.
    fn open(&mut self, alloc: Global) -> Result<Option<usize>, AllocError>
        ensures { IfOk result (λ outer. IsOpened outer self.old self.new) }
    {
        let path = Path::of(alloc, self.path.as_slice())?;
        let start = self.writer.out.len();
        self.spans.push(Span {
            path,
            start,
            end: start,
        })?;
        Ok(self.writer.first.take())
    }

    /// Ends the node of which the span is at the place. The first token of the node above is its own one, unless
    /// another one is known.
    fn close(&mut self, place: usize, outer: Option<usize>)
        requires { place < length self.old.spans.items }
        ensures { IsClosed place outer self.old self.new }
    {
        let end = self.writer.out.len();
        let first = self.writer.first;
        let span = &mut self.spans[place];
        span.start = first.unwrap_or(span.start);
        span.end = end;
        self.writer.first = outer.or(first);
    }
}

/// What is printed of a tree by itself, with the first character of its first token and the last one of its last token.
#[derive(Drop)]
pub(crate) struct PlainText {
    pub(crate) printed: Printed,
    pub(crate) first: Option<char>,
    pub(crate) last: Option<char>,
}

/// Returns the items of the operator of the number, none where the definition has no such operator.
pub fn items_of(definition: &Definition, op: u32) -> &[Item]
    ensures { result.now ≡ items_in (operator_at definition.now op) }
{
    match definition.operators.as_slice().get(op as usize) {
        Some(operator) => operator.items.as_slice(),
        None => &[],
    }
}

/// Returns the items after the first one.
pub fn behind_first(items: &[Item]) -> &[Item]
    ensures { result.now ≡ rows.behind_first items.now }
{
    match items.split_first() {
        Some((_, behind)) => behind,
        None => &[],
    }
}

/// Returns the least level of a tree at the operator's item of the number: 0 where it is no slot.
pub fn level_wanted(definition: &Definition, op: u32, place: usize) -> u8
    requires { IsSound definition.now }
    ensures { result ≡ level_wanted (operator_at definition.now op) place }
{
    match definition.operators.as_slice().get(op as usize) {
        Some(operator) => match operator.items.as_slice().get(place) {
            Some(Item::Slot(_)) => least_level(operator, place),
            _ => 0,
        },
        None => 0,
    }
}

/// Says whether the tree needs brackets where a tree of at least the level is wanted. Placeholders and lists have no
/// level.
pub fn is_below(definition: &Definition, tree: &Tree, wanted: u8) -> bool
    ensures { result ≡ is_below definition.now tree.now wanted }
{
    match tree.shape() {
        Shape::Op { op, .. } => is_operator_below(definition, *op, wanted),
        Shape::List { .. } => false,
        Shape::Hole { .. } => false,
    }
}

/// Says whether the operator of the number has a lower level. One that the definition does not have has no level.
fn is_operator_below(definition: &Definition, op: u32, wanted: u8) -> bool
    ensures { result ≡ rows.is_below_level (operator_at definition.now op) wanted }
{
    match definition.operators.as_slice().get(op as usize) {
        Some(operator) => op_level(operator) < wanted,
        None => false,
    }
}

/// Writes the words and marks in front of the first part among the items, and returns the items from that part on.
fn write_words<'a>(writer: &mut Writer, items: &'a [Item]) -> Result<&'a [Item], AllocError>
    ensures adds { IfOk result (λ rest. Adds (words items.now) writer.old writer.new) }
    ensures rest { IfOk result (λ rest. rest.now ≡ from_part items.now) }
{
    let mut rest = items;
    while let Some((item, behind)) = rest.split_first() {
        if is_part(item) {
            return Ok(rest);
        }
        writer.put_item(item)?;
        rest = behind;
    }
    Ok(rest)
}

/// Writes an opening bracket if the tree after it needs brackets.
fn open_bracket(writer: &mut Writer, bracketed: bool) -> Result<(), AllocError>
    ensures { OnOk result (Adds (opening bracketed) writer.old writer.new) }
{
    if bracketed {
        writer.put_token("(")?;
        writer.put_tight();
    }
    Ok(())
}

/// Writes a closing bracket if the tree in front of it needs brackets.
fn close_bracket(writer: &mut Writer, bracketed: bool) -> Result<(), AllocError>
    ensures { OnOk result (Adds (closing bracketed) writer.old writer.new) }
{
    if bracketed {
        writer.put_tight();
        writer.put_token(")")?;
    }
    Ok(())
}

/// Writes what is between an element of a list and the elements after it, where there are some or the list is
/// unfinished.
fn write_between(
    writer: &mut Writer,
    definition: &Definition,
    list: u32,
    behind: &[Tree],
    unfinished: bool,
) -> Result<(), AllocError>
    ensures { OnOk result
        (Adds (between definition.now list (list_of list behind.now unfinished)) writer.old writer.new) }
{
    if is_ended(behind, unfinished) {
        return Ok(());
    }
    write_separator(writer, definition, list)?;
    Ok(())
}

/// Says whether a list ends after an element: it has no more elements, and it is finished.
fn is_ended(behind: &[Tree], unfinished: bool) -> bool
    ensures { result ≡ (length behind.now == 0 && not unfinished) }
{
    behind.is_empty() && !unfinished
}

/// Writes the separator of the list of the number.
fn write_separator(
    writer: &mut Writer,
    definition: &Definition,
    list: u32,
) -> Result<(), AllocError>
    ensures { OnOk result (Adds (rows.separating (slice_get definition.now.lists list)) writer.old writer.new) }
{
    match definition.lists.as_slice().get(list as usize) {
        Some(kind) => {
            write_separator_of(writer, kind)?;
            Ok(())
        }
        None => Ok(()),
    }
}

/// Writes the separator of a kind of lists.
fn write_separator_of(writer: &mut Writer, kind: &ListKind) -> Result<(), AllocError>
    ensures { OnOk result (Adds (rows.separating (Some kind.now)) writer.old writer.new) }
{
    writer.put_tight();
    writer.put_token(kind.separator.as_str())?;
    if kind.lines {
        writer.put_line();
    } else {
        writer.put_space();
    }
    Ok(())
}

/// Writes the end of a list.
fn write_ending(writer: &mut Writer, unfinished: bool) -> Result<(), AllocError>
    ensures { OnOk result (Adds (ending_row unfinished) writer.old writer.new) }
{
    if unfinished {
        writer.put_token("...")?;
    }
    Ok(())
}

/// Returns the number of the next child after a part that has this number if it is a child.
fn number_behind(number: u32, part: &Part) -> Result<u32, AllocError>
    ensures { IfOk result (λ next. next ≡ number + count_of part.now) }
{
    match part {
        Part::Sub(_) => number_after(number),
        _ => Ok(number),
    }
}

/// Returns the number and one. It fails where 32 bits do not count it.
fn number_after(number: u32) -> Result<u32, AllocError>
    ensures { IfOk result (λ next. next ≡ number + 1) }
{
    let Some(next) = number.checked_add(1) else {
        return Err(uncountable(number as usize));
    };
    Ok(next)
}

/// Writes the child of the number.
#[cycle(print)]
fn write_child(
    alloc: Global,
    printer: &mut Printer,
    definition: &Definition,
    number: u32,
    tree: &Tree,
) -> Result<(), AllocError>
    requires { IsSound definition.now }
    ensures { OnOk result
        (PrintsTree definition.now (printer.old.path.items ++ number ∷ []) tree.now printer.old printer.new) }
{
    printer.path.push(number)?;
    write_node(alloc, printer, definition, tree)?;
    printer.path.pop();
    Ok(())
}

/// Writes a part of an operator, where a tree of at least the level is wanted.
#[cycle(print)]
fn write_part(
    alloc: Global,
    printer: &mut Printer,
    definition: &Definition,
    wanted: u8,
    number: u32,
    part: &Part,
) -> Result<(), AllocError>
    requires { IsSound definition.now }
    ensures { OnOk result
        (PrintsPart definition.now (printer.old.path.items ++ number ∷ []) wanted part.now printer.old printer.new) }
{
    match part {
        Part::Sub(tree) => {
            let bracketed = is_below(definition, tree, wanted);
            open_bracket(&mut printer.writer, bracketed)?;
            write_child(alloc, printer, definition, number, tree)?;
            close_bracket(&mut printer.writer, bracketed)?;
            Ok(())
        }
        Part::Name(name) => {
            printer.writer.put_token(name.as_str())?;
            Ok(())
        }
        Part::Number(value) => {
            printer.writer.put_number(*value)?;
            Ok(())
        }
        Part::Text(contents) => {
            printer.writer.put_text(contents.as_str())?;
            Ok(())
        }
    }
}

/// Writes an operator with its parts.
#[cycle(print)]
fn write_operator(
    alloc: Global,
    printer: &mut Printer,
    definition: &Definition,
    op: u32,
    parts: &[Part],
) -> Result<(), AllocError>
    requires { IsSound definition.now }
    ensures { OnOk result
        (PrintsBelow definition.now (with_parts (plain_operator op) parts.now) printer.old printer.new) }
{
    let items = items_of(definition, op);
    let mut rest = write_words(&mut printer.writer, items)?;
    let mut number: u32 = 0;
    for part in parts {
        let wanted = level_wanted(definition, op, items.len() - rest.len());
        write_part(alloc, printer, definition, wanted, number, part)?;
        rest = write_words(&mut printer.writer, behind_first(rest))?;
        number = number_behind(number, part)?;
    }
    Ok(())
}

/// Writes a list with its elements.
#[cycle(print)]
fn write_list(
    alloc: Global,
    printer: &mut Printer,
    definition: &Definition,
    list: u32,
    elements: &[Tree],
    unfinished: bool,
) -> Result<(), AllocError>
    requires { IsSound definition.now }
    ensures { OnOk result
        (PrintsBelow definition.now (list_of list elements.now unfinished) printer.old printer.new) }
{
    let mut rest = elements;
    let mut number: u32 = 0;
    while let Some((element, behind)) = rest.split_first() {
        write_child(alloc, printer, definition, number, element)?;
        write_between(&mut printer.writer, definition, list, behind, unfinished)?;
        number = number_after(number)?;
        rest = behind;
    }
    write_ending(&mut printer.writer, unfinished)?;
    Ok(())
}

/// Writes what a node is made of.
#[cycle(print)]
fn write_shape(
    alloc: Global,
    printer: &mut Printer,
    definition: &Definition,
    tree: &Tree,
) -> Result<(), AllocError>
    requires { IsSound definition.now }
    ensures { OnOk result (PrintsBelow definition.now tree.now printer.old printer.new) }
{
    match tree.shape() {
        Shape::Op { op, parts } => {
            write_operator(alloc, printer, definition, *op, parts.as_slice())?;
            Ok(())
        }
        Shape::List {
            list,
            elements,
            unfinished,
        } => {
            write_list(
                alloc,
                printer,
                definition,
                *list,
                elements.as_slice(),
                *unfinished,
            )?;
            Ok(())
        }
        Shape::Hole { phylum } => {
            printer.writer.put_hole(phylum_name(definition, *phylum))?;
            Ok(())
        }
    }
}

/// Writes a node with its span.
#[cycle(print)]
fn write_node(
    alloc: Global,
    printer: &mut Printer,
    definition: &Definition,
    tree: &Tree,
) -> Result<(), AllocError>
    requires { IsSound definition.now }
    ensures { OnOk result (PrintsTree definition.now printer.old.path.items tree.now printer.old printer.new) }
{
    let place = printer.spans.len();
    let outer = printer.open(alloc)?;
    write_shape(alloc, printer, definition, tree)?;
    printer.close(place, outer);
    Ok(())
}

/// Writes a whole tree. It takes the memory for the spans at once.
fn print_whole(alloc: Global, definition: &Definition, tree: &Tree) -> Result<Printer, AllocError>
    requires { IsSound definition.now }
    ensures { IfOk result (IsWhole definition.now tree.now) }
{
    let writer = Writer::new(alloc);
    let path = Vec::new(alloc);
    // each node has a span
    let count = nodes(tree) as usize;
    let spans = Vec::with_capacity(alloc, count)?;
    let mut printer = Printer {
        writer,
        path,
        spans,
    };
    write_node(alloc, &mut printer, definition, tree)?;
    Ok(printer)
}

/// Prints a tree by itself, if it is written the same in all places except the gap in front of it and after it: its row
/// begins and ends with a token, and no mark in it puts a line or changes a level. Its cost is that of `unparse`.
pub(crate) fn print_plain(
    alloc: Global,
    definition: &Definition,
    tree: &Tree,
) -> Result<Option<PlainText>, AllocError>
    requires { IsSound definition.now }
    ensures { IfOk result (λ found. MatchOption found (IsPlain (row definition.now tree.now) → ⊥)
        (λ made. IsPlainText definition.now tree.now made.printed made.first made.last)) }
{
    let Printer { writer, spans, .. } = print_whole(alloc, definition, tree)?;
    if !writer.is_plain() {
        return Ok(None);
    }
    let first = writer.head;
    let last = writer.last;
    let text = Txt::of(alloc, writer.out)?;
    let printed = Printed {
        text,
        spans: Seq::of(spans),
    };
    Ok(Some(PlainText {
        printed,
        first,
        last,
    }))
}

/// Writes a tree as text, and lists the spans of its nodes, in one walk over it.
///
/// The text is that of the tree's tokens, which the marks between them keep apart: a mark for a line gives a line feed
/// and two spaces for each open level, and without a mark there is a space. Tokens that are kept tight have one space
/// between them where they would run together. A tree in a slot is in brackets where its level is below the slot's
/// least level. The elements of a list are separated, and an unfinished list ends with `...`.
///
/// A span has the bytes from the first token of a node to the end of its last one. Brackets around a node are outside
/// its span. A list without elements has an empty span, where the token in front of it ends.
///
/// In a definition of the grammar class whose fixed words are each one token, the text of a printable tree reads back
/// as the tree (`back`), and the bytes of each span as the node of its path (`spans`).
///
/// It returns out of memory also where 32 bits do not count the children of a node. It takes the memory for the spans
/// at once, and time linear in the text and in the paths of the nodes, and calls itself once for each level of the
/// tree.
pub fn unparse(alloc: Global, definition: &Definition, tree: &Tree) -> Result<Printed, AllocError>
    requires sound { IsSound definition.now }
    ensures printed { IfOk result (λ printed. printed ≡ printed_of definition.now tree.now) }
    ensures back { IfOk result (λ _. IsClass definition.now
        → AllByRecursion IsFixedWord (fixed_words definition.now) → ReadsBackIfPrintable definition.now tree.now) }
    ensures spans { IfOk result (λ _. IsClass definition.now
        → AllByRecursion IsFixedWord (fixed_words definition.now) → NodesReadBackIfPrintable definition.now tree.now) }
{
    let Printer { writer, spans, .. } = print_whole(alloc, definition, tree)?;
    let text = Txt::of(alloc, writer.out)?;
    Ok(Printed {
        text,
        spans: Seq::of(spans),
    })
}
