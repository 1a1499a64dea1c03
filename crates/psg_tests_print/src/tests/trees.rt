//! Definitions and trees written as texts.
ghost use Rattle.std.specs.Prelude.{IfOk};
ghost use Rattle.psg_grammar.specs.Sound.{IsSound};

use psg_defread::read_definition;
use psg_grammar::Definition;
use psg_terms::{Seq, Txt};
use psg_tree::{Part, Shape, Tree};
use psg_unparse::{Span, unparse};
use std::alloc::{AllocError, Global};

/// The definition that the text spells.
pub(super) fn definition(alloc: Global, text: &str) -> Result<Definition, AllocError>
    ensures { IfOk result IsSound }
{
    if text.len() >= 65_536 {
        return Err(AllocError);
    }
    match read_definition(alloc, text.as_bytes()) {
        Ok(definition) => Ok(definition),
        Err(_) => Err(AllocError),
    }
}

fn number(word: &str) -> Result<u32, AllocError> {
    match word.parse::<u32>() {
        Ok(number) => Ok(number),
        Err(_) => Err(AllocError),
    }
}

/// The given number of parts from the end of a list, the last one first.
fn taken(alloc: Global, stack: &mut Vec<Part>, count: u32) -> Result<Vec<Part>, AllocError> {
    let mut parts = Vec::new(alloc);
    for _ in 0..count {
        parts.push(stack.pop().ok_or(AllocError)?)?;
    }
    Ok(parts)
}

/// The trees that parts are.
fn subtrees(alloc: Global, parts: &[Part]) -> Result<Vec<Tree>, AllocError> {
    let mut trees = Vec::new(alloc);
    for part in parts {
        let Part::Sub(tree) = part else {
            return Err(AllocError);
        };
        trees.push(tree.share()?)?;
    }
    Ok(trees)
}

/// The operator of the number over a number of parts, as `0/2`, or the list of a kind and a number of elements, as
/// `[1:2` or `[1:2..`, over what is taken from the end of a list of parts.
fn node(alloc: Global, word: &str, stack: &mut Vec<Part>) -> Result<Tree, AllocError> {
    if let Some((op, count)) = word.split_once('/') {
        let op = number(op)?;
        let parts = Seq::of(taken(alloc, stack, number(count)?)?);
        return Tree::new(alloc, Shape::Op { op, parts });
    }
    let list = word.strip_prefix('[').ok_or(AllocError)?;
    let (list, count) = list.split_once(':').ok_or(AllocError)?;
    let list = number(list)?;
    let parts = taken(alloc, stack, number(count.trim_end_matches('.'))?)?;
    let elements = Seq::of(subtrees(alloc, parts.as_slice())?);
    let unfinished = count.ends_with('.');
    Tree::new(
        alloc,
        Shape::List {
            list,
            elements,
            unfinished,
        },
    )
}

/// The part of a word: a placeholder of a phylum's number, as `?0`, a number, as `#7`, a name, as `'x`, a text with one
/// quote before it, or a node.
fn part(alloc: Global, word: &str, stack: &mut Vec<Part>) -> Result<Part, AllocError> {
    if let Some(phylum) = word.strip_prefix('?') {
        let phylum = number(phylum)?;
        return Ok(Part::Sub(Tree::new(alloc, Shape::Hole { phylum })?));
    }
    if let Some(value) = word.strip_prefix('#') {
        return Ok(Part::Number(number(value)? as u128));
    }
    if let Some(name) = word.strip_prefix('\'') {
        return Ok(Part::Name(Txt::copy_of(alloc, name)?));
    }
    if let Some(text) = word.strip_prefix('"') {
        return Ok(Part::Text(Txt::copy_of(alloc, text)?));
    }
    Ok(Part::Sub(node(alloc, word, stack)?))
}

/// The tree of words with one space between them and each node before its parts, as `0/2 ?0 1/1 #7`.
pub(super) fn tree(alloc: Global, text: &str) -> Result<Tree, AllocError> {
    let mut stack = Vec::new(alloc);
    for word in text.rsplit(' ') {
        let part = part(alloc, word, &mut stack)?;
        stack.push(part)?;
    }
    match stack.pop() {
        Some(Part::Sub(tree)) => Ok(tree),
        _ => Err(AllocError),
    }
}

/// Whether what is printed of the tree is the text, with these spans: for each node its path, and where it begins and
/// ends.
pub(super) fn prints(
    alloc: Global,
    definition: &Definition,
    tree_words: &str,
    text: &str,
    spans: &str,
) -> Result<bool, AllocError>
    requires { IsSound definition.now }
{
    let tree = tree(alloc, tree_words)?;
    let printed = unparse(alloc, definition, &tree)?;
    let shown = spans_shown(alloc, printed.spans.as_slice())?;
    Ok(printed.text.as_str() == text && shown.as_str() == spans)
}

/// The spans as one text, as `/ 0 5, /0 0 1, /1 4 5`.
fn spans_shown(alloc: Global, spans: &[Span]) -> Result<String, AllocError> {
    let mut out = String::new(alloc);
    for span in spans {
        if !out.is_empty() {
            out.push_str(", ")?;
        }
        if span.path.steps().is_empty() {
            out.push('/')?;
        }
        for step in span.path.steps() {
            write!(out, "/{step}")?;
        }
        write!(out, " {} {}", span.start, span.end)?;
    }
    Ok(out)
}
