//! Whether the numbers of arguments, parts and columns of a line are those of the declarations.
ghost use Rattle.std.specs.Prelude.{◌≡◌, ◌↔◌, ◌≤◌, IsTrue, List, length, None};
ghost use Rattle.std.specs.List.{AllByRecursion};
ghost use Rattle.std.specs.Option.{option_map};
ghost use Rattle.psg_deflines.specs.declared.lines.Line.{Line as Plain};
ghost use Rattle.psg_defcheck.specs.Scopes as scopes;
ghost use Rattle.psg_defcheck.specs.Meanings as meanings;
ghost use Rattle.psg_defcheck.specs.Parts.{CountsPart, CountsEnd};
ghost use Rattle.psg_defcheck.specs.Tables.{operator_told};
ghost use Rattle.psg_defcheck.specs.Aboves.{IsAbove};

use crate::above::Above;
use crate::scope::Scope;
use psg_deflines::{Line, LineItem, LinePart, LinePlace, LineTerm, LineTree, TermShape, TreeShape};

/// Says whether the constructor, if a line declares it, takes this many arguments.
fn has_arity(scope: &Scope, name: &str, count: usize) -> bool
    ensures { IsTrue result ↔ meanings.IsArity (scopes.constructor_declared scope.now name.now) count }
{
    match scope.constructor(name) {
        None => true,
        Some(constructor) => constructor.decl.args.as_slice().len() == count,
    }
}

/// Says whether the term's constructors have the arguments that they take.
#[cycle(counts_term)]
fn counts_term(scope: &Scope, term: &LineTerm) -> bool
    ensures { IsTrue result ↔ meanings.CountsTerm scope.now 0 term.now }
{
    match &term.shape {
        TermShape::Variable(_) => true,
        TermShape::Named { name, args } => {
            let args = args.as_slice();
            has_arity(scope, name.as_str(), args.len()) && counts_terms(scope, args)
        }
    }
}

/// Says whether the terms' constructors have the arguments that they take.
#[cycle(counts_term)]
fn counts_terms(scope: &Scope, terms: &[LineTerm]) -> bool
    ensures { IsTrue result ↔ AllByRecursion (meanings.CountsTerm scope.now 0) terms.now }
{
    for term in terms {
        if !counts_term(scope, term) {
            return false;
        }
    }
    true
}

/// Says whether a tree, a name, a number or a text is at the item.
fn has_part(item: &LineItem) -> bool
    ensures { result ≡ meanings.has_part item.now }
{
    match item {
        LineItem::Slot(_) => true,
        LineItem::Refers(_) => true,
        LineItem::Declares(_) => true,
        LineItem::Number => true,
        LineItem::Text => true,
        _ => false,
    }
}

/// Says whether a row has a column for the item.
fn has_column(item: &LineItem) -> bool
    ensures { result ≡ meanings.has_column item.now }
{
    match item {
        LineItem::Slot(_) => true,
        LineItem::Refers(_) => true,
        LineItem::Declares(_) => true,
        _ => false,
    }
}

/// Returns how many parts an operator of these items has.
fn part_count(items: &[LineItem]) -> usize
    ensures { result ≡ meanings.count_of meanings.has_part items.now }
{
    let mut count = 0;
    for item in items {
        if has_part(item) {
            count += 1;
        }
    }
    count
}

/// Returns how many columns the rows of an operator of these items have.
fn column_count(items: &[LineItem]) -> usize
    ensures { result ≡ meanings.count_of meanings.has_column items.now }
{
    let mut count = 0;
    for item in items {
        if has_column(item) {
            count += 1;
        }
    }
    count
}

/// Says whether the operator, if a line declares it, has this many parts.
fn has_part_count(scope: &Scope, name: &str, count: usize) -> bool
    ensures { IsTrue result ↔ meanings.IsPartCount (scopes.operator_declared scope.now name.now) count }
{
    match scope.operator(name) {
        None => true,
        Some(operator) => part_count(operator.items) == count,
    }
}

/// Says whether the operator of the row has this many columns.
fn has_column_count(above: &Above, count: usize) -> bool
    ensures { IsTrue result ↔ meanings.IsColumnCount (option_map operator_told above.now.operator) count }
{
    match above.operator {
        None => true,
        Some(operator) => column_count(operator.items) == count,
    }
}

/// Says whether the constructors of a list's rest have the arguments that they take.
fn counts_end(scope: &Scope, rest: &Option<LinePlace>) -> bool
    ensures { IsTrue result ↔ CountsEnd scope.now rest.now }
{
    match rest {
        None => true,
        Some(place) => counts_term(scope, &place.term),
    }
}

/// Says whether the constructors and operators of a part have the arguments and parts that they take.
#[cycle(counts_tree)]
fn counts_part(scope: &Scope, part: &LinePart) -> bool
    ensures { IsTrue result ↔ CountsPart scope.now part.now }
{
    match part {
        LinePart::Tree(tree) => counts_tree(scope, tree),
        _ => true,
    }
}

/// Says whether the constructors and operators of parts have the arguments and parts that they take.
#[cycle(counts_tree)]
fn counts_parts(scope: &Scope, parts: &[LinePart]) -> bool
    ensures { IsTrue result ↔ AllByRecursion (CountsPart scope.now) parts.now }
{
    for part in parts {
        if !counts_part(scope, part) {
            return false;
        }
    }
    true
}

/// Says whether the constructors and operators of specimens have the arguments and parts that they take.
#[cycle(counts_tree)]
fn counts_trees(scope: &Scope, trees: &[LineTree]) -> bool
    ensures { IsTrue result ↔ AllByRecursion (meanings.CountsTree scope.now 0) trees.now }
{
    for tree in trees {
        if !counts_tree(scope, tree) {
            return false;
        }
    }
    true
}

/// Says whether the constructors and operators of a specimen have the arguments and parts that they take.
#[cycle(counts_tree)]
fn counts_tree(scope: &Scope, tree: &LineTree) -> bool
    ensures { IsTrue result ↔ meanings.CountsTree scope.now 0 tree.now }
{
    match &tree.shape {
        TreeShape::Operator { name, parts } => {
            let parts = parts.as_slice();
            has_part_count(scope, name.as_str(), parts.len()) && counts_parts(scope, parts)
        }
        TreeShape::List { elements, rest } => {
            counts_end(scope, rest) && counts_trees(scope, elements.as_slice())
        }
        TreeShape::Place(place) => counts_term(scope, &place.term),
    }
}

/// Says whether the constructors and operators of a specimen, if there is one, have the arguments and parts that they
/// take.
fn counts_behind_by(scope: &Scope, specimen: &Option<LineTree>) -> bool
    ensures { IsTrue result ↔ meanings.CountsBehindBy scope.now specimen.now }
{
    match specimen {
        None => true,
        Some(tree) => counts_tree(scope, tree),
    }
}

/// Says whether the terms of a row are as many as its operator's columns, and their constructors have the arguments
/// that they take.
fn counts_row(scope: &Scope, above: &Above, head: &LineTerm, columns: &[LineTerm]) -> bool
    ensures { (lines : List Plain) → IsAbove lines above.now
        → IsTrue result ↔ (meanings.CountsTerm scope.now 0 head.now
        × AllByRecursion (meanings.CountsTerm scope.now 0) columns.now
        × meanings.IsColumnCount (scopes.last_operator None lines) (length columns.now)) }
{
    counts_term(scope, head)
        && counts_terms(scope, columns)
        && has_column_count(above, columns.len())
}

/// Says whether the numbers of arguments, parts and columns of the line are those of the declarations, a name's first
/// one.
pub fn is_counted(scope: &Scope, above: &Above, line: &Line) -> bool
    ensures { (lines : List Plain) → IsAbove lines above.now
        → IsTrue result ↔ meanings.IsCounted scope.now lines line.now }
{
    match line {
        Line::Row { head, columns } => counts_row(scope, above, head, columns.as_slice()),
        Line::Nil { term, .. } => counts_term(scope, term),
        Line::Cell {
            term,
            element,
            rest,
            ..
        } => { counts_term(scope, term) && counts_term(scope, element) && counts_term(scope, rest) }
        Line::Hole { term, specimen, .. } => {
            counts_term(scope, term) && counts_behind_by(scope, specimen)
        }
        Line::Case { term, specimen } => counts_term(scope, term) && counts_tree(scope, specimen),
        Line::Declare {
            entity,
            value,
            specimen,
            ..
        } => {
            counts_term(scope, entity) && counts_term(scope, value) && counts_tree(scope, specimen)
        }
        _ => true,
    }
}
