//! The walk over a tree and its tokens, side by side. It takes from the tree what the tokens are, and looks at them
//! only where brackets may be.
ghost use Rattle.std.specs.Prelude.{◌≡◌, ◌<◌, ◌≤◌, ◌+◌, ◌==◌, ◌&&◌, ◌++◌, ◌∷◌, [], not, false, true};
ghost use Rattle.std.specs.Prelude.{IfOk, OnOk, length, slice_get};
ghost use Rattle.psg_class.specs.Class.{IsClass};
ghost use Rattle.psg_class.specs.Places.{solid};
ghost use Rattle.psg_class.specs.Texts.{tokens_of};
ghost use Rattle.psg_grammar.specs.Levels.{is_mark};
ghost use Rattle.psg_parse.specs.Lookups.{IsBare};
ghost use Rattle.psg_grammar.specs.Fragments.{operator};
ghost use Rattle.psg_tree.specs.Shapes.{height, with_parts};
ghost use Rattle.psg_ranges.specs.Walking.{IsClosed, IsOpened, ReadsBelow, ReadsChild, ReadsElements};
ghost use Rattle.psg_ranges.specs.Walking.{ReadsItem, ReadsNode, ReadsOperator, ReadsParts, ReadsShape, items_in};
ghost use Rattle.psg_ranges.specs.Walking.{behind_first, behind_item, first_sub, is_name_item, is_word_item};
ghost use Rattle.psg_ranges.specs.Walking.{leading_kind, left_of, names_at, slot_kind};
ghost use Rattle.std.specs.Option.{option_copied};

use crate::brackets::{Outer, after_open, element_brackets, has_brackets, in_brackets};
use crate::ranges::Range;
use psg_grammar::{Definition, Item, Kind};
use psg_lexis::Spanned;
use psg_terms::Seq;
use psg_tree::{Part, Shape, Tree};
use std::alloc::{AllocError, Global};

/// The number of the next token, and the ranges of the nodes that were met.
#[derive(Drop)]
pub(crate) struct Reader {
    pub(crate) at: usize,
    pub(crate) ranges: Vec<Range>,
}

impl Reader {
    /// Passes over a token, if one is left.
    fn pass(&mut self, tokens: &[Spanned])
        ensures at { self.old.at < length tokens.now → self.new.at ≡ self.old.at + 1 }
        ensures ranges { self.new.ranges.items ≡ self.old.ranges.items }
    {
        if self.at < tokens.len() {
            self.at += 1;
        }
    }

    /// Passes over a token, if one is left and it is wanted.
    fn pass_if(&mut self, tokens: &[Spanned], wanted: bool)
        ensures kept { wanted ≡ false → self.new.at ≡ self.old.at }
        ensures passed { wanted ≡ true → self.old.at < length tokens.now → self.new.at ≡ self.old.at + 1 }
        ensures ranges { self.new.ranges.items ≡ self.old.ranges.items }
    {
        if wanted {
            self.pass(tokens);
        }
    }

    /// Passes over the `...` of a list that is unfinished.
    fn pass_end(&mut self, tokens: &[Spanned], unfinished: bool)
        ensures kept { unfinished ≡ false → self.new.at ≡ self.old.at }
        ensures passed { unfinished ≡ true → self.old.at < length tokens.now → self.new.at ≡ self.old.at + 1 }
        ensures ranges { self.new.ranges.items ≡ self.old.ranges.items }
    {
        if unfinished {
            self.pass(tokens);
        }
    }

    /// Begins a node, and returns the place of its range. What the range says is not known yet.
    fn open(&mut self, alloc: Global) -> Result<usize, AllocError>
        ensures { IfOk result (λ place. IsOpened place self.old self.new) }
    {
        let place = self.ranges.len();
        let names = Seq::of(Vec::new(alloc));
        self.ranges.push(Range {
            start: 0,
            end: 0,
            nodes: 0,
            names,
        })?;
        Ok(place)
    }

    /// Ends the node whose range is at the place, if there is one.
    fn close(&mut self, place: usize, start: usize, names: Vec<usize>)
        ensures { IsClosed place start names.items self.old self.new }
    {
        let end = self.at;
        let names = Seq::of(names);
        let count = self.ranges.len();
        if place < count {
            let nodes = count - place;
            self.ranges[place] = Range {
                start,
                end,
                nodes,
                names,
            };
        }
    }
}

/// Returns the items of the operator of the number, none where the definition has no such operator.
fn items_of(definition: &Definition, op: u32) -> &[Item]
    ensures { result.now ≡ items_in (slice_get definition.now.operators op) }
{
    match definition.operators.as_slice().get(op as usize) {
        Some(operator) => operator.items.as_slice(),
        None => &[],
    }
}

/// Returns the parts after the first one.
fn behind_first<'a>(parts: &'a [Part]) -> &'a [Part]
    ensures { result.now ≡ behind_first parts.now }
{
    match parts.split_first() {
        Some((_, behind)) => behind,
        None => &[],
    }
}

/// Says whether the item is a layout mark.
fn is_mark(item: &Item) -> bool
    ensures { result ≡ is_mark item.now }
{
    matches!(
        item,
        Item::Space | Item::Tight | Item::Line | Item::In | Item::Out
    )
}

/// Returns the items from the first one on that is no mark for the layout.
fn without_marks<'a>(items: &'a [Item]) -> &'a [Item]
    ensures same { solid result.now ≡ solid items.now }
    ensures bare { IsBare result.now }
{
    let mut left = items;
    while let Some((first, others)) = left.split_first() {
        if !is_mark(first) {
            break;
        }
        left = others;
    }
    left
}

/// Returns the kind of the slot that the item is.
fn slot_kind(item: &Item) -> Option<Kind>
    ensures { result ≡ slot_kind item.now }
{
    match item {
        Item::Slot(kind) => Some(*kind),
        _ => None,
    }
}

/// Says whether the item is a word.
fn is_word(item: &Item) -> bool
    ensures { result ≡ is_word_item item.now }
{
    match item {
        Item::Word(_) => true,
        _ => false,
    }
}

/// Says whether the item is a name, used or declared.
fn is_name(item: &Item) -> bool
    ensures { result ≡ is_name_item item.now }
{
    match item {
        Item::Refers(_) => true,
        Item::Declares(_) => true,
        _ => false,
    }
}

/// Lists the number of the token of the item, if it is a name.
fn note_name(names: &mut Vec<usize>, item: &Item, at: usize) -> Result<(), AllocError>
    ensures { OnOk result (names.new.items ≡ names.old.items ++ names_at item.now at) }
{
    if is_name(item) {
        names.push(at)?;
    }
    Ok(())
}

/// Returns the parts that are left after an item that is a token.
fn left_of<'a>(item: &Item, parts: &'a [Part]) -> &'a [Part]
    ensures { result.now ≡ left_of item.now parts.now }
{
    if is_word(item) {
        parts
    } else {
        behind_first(parts)
    }
}

/// Returns the tree that is the first of the parts.
fn first_sub<'a>(parts: &'a [Part]) -> Option<&'a Tree>
    ensures { option_copied result ≡ first_sub parts.now }
{
    match parts.first() {
        Some(Part::Sub(tree)) => Some(tree),
        _ => None,
    }
}

/// Returns the kind of the slot that the items begin with.
fn leading_kind(items: &[Item]) -> Option<Kind>
    ensures { result ≡ leading_kind items.now }
{
    match items.first() {
        Some(item) => slot_kind(item),
        None => None,
    }
}

/// Returns the items after the first one.
fn behind_item<'a>(items: &'a [Item]) -> &'a [Item]
    ensures { result.now ≡ behind_item items.now }
{
    match items.split_first() {
        Some((_, behind)) => behind,
        None => &[],
    }
}

/// Reads a tree with the brackets around it, and returns the number of its first token. From the token of the number
/// `first` on there are brackets in front of the tree that are not closed yet, some of them its own ones.
#[cycle(read)]
pub(crate) fn read_node(
    alloc: Global,
    reader: &mut Reader,
    definition: &Definition,
    tokens: &[Spanned],
    bracketed: bool,
    first: usize,
    tree: &Tree,
) -> Result<usize, AllocError>
    requires { IsClass definition.now }
    ensures { IfOk result (λ start.
        ReadsNode definition.now (tokens_of tokens.now) bracketed first tree.now start reader.old reader.new) }
{
    reader.at = after_open(bracketed, tokens, reader.at);
    let start = read_shape(alloc, reader, definition, tokens, first, tree)?;
    let inner = Outer {
        start,
        end: reader.at,
    };
    let outer = in_brackets(tokens, first, inner);
    reader.at = outer.end;
    Ok(outer.start)
}

/// Reads a node without the brackets around it, after them, and returns the number of its first token.
#[cycle(read)]
fn read_shape(
    alloc: Global,
    reader: &mut Reader,
    definition: &Definition,
    tokens: &[Spanned],
    first: usize,
    tree: &Tree,
) -> Result<usize, AllocError>
    requires { IsClass definition.now }
    ensures { IfOk result (λ start.
        ReadsShape definition.now (tokens_of tokens.now) first tree.now start reader.old reader.new) }
{
    let place = reader.open(alloc)?;
    let mut names = Vec::new(alloc);
    let start = read_below(alloc, reader, definition, tokens, first, tree, &mut names)?;
    reader.close(place, start, names);
    Ok(start)
}

/// Reads what a node is made of, and lists the numbers of its names.
#[cycle(read)]
fn read_below(
    alloc: Global,
    reader: &mut Reader,
    definition: &Definition,
    tokens: &[Spanned],
    first: usize,
    tree: &Tree,
    names: &mut Vec<usize>,
) -> Result<usize, AllocError>
    requires { IsClass definition.now }
    ensures { IfOk result (λ start. ReadsBelow definition.now (tokens_of tokens.now) first tree.now start reader.old
        reader.new names.old.items names.new.items) }
{
    match tree.shape() {
        Shape::Op { op, parts } => {
            let items = items_of(definition, *op);
            let start = read_operator(
                alloc,
                reader,
                definition,
                tokens,
                items,
                parts.as_slice(),
                first,
                names,
            )?;
            Ok(start)
        }
        Shape::List {
            list,
            elements,
            unfinished,
        } => {
            let start = reader.at;
            read_elements(
                alloc,
                reader,
                definition,
                tokens,
                *list,
                elements.as_slice(),
                *unfinished,
            )?;
            Ok(start)
        }
        Shape::Hole { .. } => {
            let start = reader.at;
            reader.pass(tokens);
            Ok(start)
        }
    }
}

/// Reads an operator with its parts. One that begins with a slot begins where the tree in the slot does, with the
/// brackets around that one.
#[cycle(read)]
fn read_operator(
    alloc: Global,
    reader: &mut Reader,
    definition: &Definition,
    tokens: &[Spanned],
    items: &[Item],
    parts: &[Part],
    first: usize,
    names: &mut Vec<usize>,
) -> Result<usize, AllocError>
    requires { IsClass definition.now }
    ensures { IfOk result (λ start. ReadsOperator definition.now (tokens_of tokens.now) items.now parts.now first start
        reader.old reader.new names.old.items names.new.items) }
{
    let bare = without_marks(items);
    match leading_kind(bare) {
        Some(kind) => {
            let bracketed = has_brackets(definition, kind);
            let start = read_child(alloc, reader, definition, tokens, bracketed, first, parts)?;
            let rest = behind_item(bare);
            let behind = behind_first(parts);
            read_parts(alloc, reader, definition, tokens, rest, behind, names)?;
            Ok(start)
        }
        None => {
            let start = reader.at;
            read_parts(alloc, reader, definition, tokens, items, parts, names)?;
            Ok(start)
        }
    }
}

/// Reads the tokens of the items, with the parts that are for them.
#[cycle(read)]
fn read_parts(
    alloc: Global,
    reader: &mut Reader,
    definition: &Definition,
    tokens: &[Spanned],
    items: &[Item],
    parts: &[Part],
    names: &mut Vec<usize>,
) -> Result<(), AllocError>
    requires { IsClass definition.now }
    ensures { IfOk result (λ _. ReadsParts definition.now (tokens_of tokens.now) items.now parts.now reader.old
        reader.new names.old.items names.new.items) }
{
    let mut rest = parts;
    for item in items {
        rest = read_item(alloc, reader, definition, tokens, item, rest, names)?;
    }
    Ok(())
}

/// Reads the tokens of an item, and returns the parts that are left.
#[cycle(read)]
fn read_item<'a>(
    alloc: Global,
    reader: &mut Reader,
    definition: &Definition,
    tokens: &[Spanned],
    item: &Item,
    parts: &'a [Part],
    names: &mut Vec<usize>,
) -> Result<&'a [Part], AllocError>
    requires { IsClass definition.now }
    ensures low { IfOk result (λ rest. height (with_parts (operator 0) rest.now)
        ≤ height (with_parts (operator 0) parts.now)) }
    ensures reads { IfOk result (λ rest. ReadsItem definition.now (tokens_of tokens.now) item.now parts.now rest.now
        reader.old reader.new names.old.items names.new.items) }
{
    if is_mark(item) {
        return Ok(parts);
    }
    match slot_kind(item) {
        Some(kind) => {
            let bracketed = has_brackets(definition, kind);
            let first = reader.at;
            read_child(alloc, reader, definition, tokens, bracketed, first, parts)?;
            let behind = behind_first(parts);
            Ok(behind)
        }
        None => {
            note_name(names, item, reader.at)?;
            reader.pass(tokens);
            let left = left_of(item, parts);
            Ok(left)
        }
    }
}

/// Reads the tree that is the first of the parts, as `read_node` does.
#[cycle(read)]
fn read_child(
    alloc: Global,
    reader: &mut Reader,
    definition: &Definition,
    tokens: &[Spanned],
    bracketed: bool,
    first: usize,
    parts: &[Part],
) -> Result<usize, AllocError>
    requires { IsClass definition.now }
    ensures { IfOk result (λ start. ReadsChild definition.now (tokens_of tokens.now) bracketed first parts.now start
        reader.old reader.new) }
{
    match first_sub(parts) {
        Some(tree) => {
            let start = read_node(alloc, reader, definition, tokens, bracketed, first, tree)?;
            Ok(start)
        }
        None => Ok(first),
    }
}

/// Says whether a list ends after an element: it has no more elements, and it is finished.
fn is_ended(behind: &[Tree], unfinished: bool) -> bool
    ensures { result ≡ (length behind.now == 0 && not unfinished) }
{
    behind.is_empty() && !unfinished
}

/// Says whether a separator is after an element.
fn goes_on(behind: &[Tree], unfinished: bool) -> bool
    ensures { result ≡ not (length behind.now == 0 && not unfinished) }
{
    !is_ended(behind, unfinished)
}

/// Reads the elements of a list with what is between them, and the end of an unfinished one.
#[cycle(read)]
fn read_elements(
    alloc: Global,
    reader: &mut Reader,
    definition: &Definition,
    tokens: &[Spanned],
    list: u32,
    elements: &[Tree],
    unfinished: bool,
) -> Result<(), AllocError>
    requires { IsClass definition.now }
    ensures { IfOk result (λ _. ReadsElements definition.now (tokens_of tokens.now) list elements.now unfinished
        reader.old reader.new) }
{
    let bracketed = element_brackets(definition, list);
    let mut rest = elements;
    while let Some((element, behind)) = rest.split_first() {
        let first = reader.at;
        read_node(alloc, reader, definition, tokens, bracketed, first, element)?;
        let more = goes_on(behind, unfinished);
        reader.pass_if(tokens, more);
        rest = behind;
    }
    reader.pass_end(tokens, unfinished);
    Ok(())
}
