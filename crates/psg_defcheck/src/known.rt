//! Whether lines declare the names of a line.
ghost use Rattle.std.specs.Prelude.{◌↔◌, IsTrue};
ghost use Rattle.std.specs.List.{AllByRecursion};
ghost use Rattle.psg_defcheck.specs.Meanings as meanings;
ghost use Rattle.psg_defcheck.specs.Parts.{KnowsPart, KnowsPlace, KnowsEnd};

use crate::scope::Scope;
use psg_deflines::{Line, LineItem, LinePart, LinePlace, LineTerm, LineTree, TermShape, TreeShape};
use psg_terms::{ConDecl, Txt};

/// Says whether lines declare the term's constructors.
#[cycle(knows_term)]
fn knows_term(scope: &Scope, term: &LineTerm) -> bool
    ensures { IsTrue result ↔ meanings.KnowsTerm scope.now term.now }
{
    match &term.shape {
        TermShape::Variable(_) => true,
        TermShape::Named { name, args } => {
            scope.is_constructor(name.as_str()) && knows_terms(scope, args.as_slice())
        }
    }
}

/// Says whether lines declare the terms' constructors.
#[cycle(knows_term)]
fn knows_terms(scope: &Scope, terms: &[LineTerm]) -> bool
    ensures { IsTrue result ↔ AllByRecursion (meanings.KnowsTerm scope.now) terms.now }
{
    for term in terms {
        if !knows_term(scope, term) {
            return false;
        }
    }
    true
}

/// Says whether lines declare the kind and the constructors of a place.
fn knows_place(scope: &Scope, place: &LinePlace) -> bool
    ensures { IsTrue result ↔ KnowsPlace scope.now place.now }
{
    scope.is_kind(place.kind.as_str()) && knows_term(scope, &place.term)
}

/// Says whether lines declare the list and the constructors of a list's rest.
fn knows_end(scope: &Scope, rest: &Option<LinePlace>) -> bool
    ensures { IsTrue result ↔ KnowsEnd scope.now rest.now }
{
    match rest {
        None => true,
        Some(place) => scope.is_list(place.kind.as_str()) && knows_term(scope, &place.term),
    }
}

/// Says whether lines declare the names of a part.
#[cycle(knows_tree)]
fn knows_part(scope: &Scope, part: &LinePart) -> bool
    ensures { IsTrue result ↔ KnowsPart scope.now part.now }
{
    match part {
        LinePart::Tree(tree) => knows_tree(scope, tree),
        _ => true,
    }
}

/// Says whether lines declare the names of parts.
#[cycle(knows_tree)]
fn knows_parts(scope: &Scope, parts: &[LinePart]) -> bool
    ensures { IsTrue result ↔ AllByRecursion (KnowsPart scope.now) parts.now }
{
    for part in parts {
        if !knows_part(scope, part) {
            return false;
        }
    }
    true
}

/// Says whether lines declare the names of specimens.
#[cycle(knows_tree)]
fn knows_trees(scope: &Scope, trees: &[LineTree]) -> bool
    ensures { IsTrue result ↔ AllByRecursion (meanings.KnowsTree scope.now) trees.now }
{
    for tree in trees {
        if !knows_tree(scope, tree) {
            return false;
        }
    }
    true
}

/// Says whether lines declare the names of a specimen.
#[cycle(knows_tree)]
fn knows_tree(scope: &Scope, tree: &LineTree) -> bool
    ensures { IsTrue result ↔ meanings.KnowsTree scope.now tree.now }
{
    match &tree.shape {
        TreeShape::Operator { name, parts } => {
            scope.is_operator(name.as_str()) && knows_parts(scope, parts.as_slice())
        }
        TreeShape::List { elements, rest } => {
            knows_end(scope, rest) && knows_trees(scope, elements.as_slice())
        }
        TreeShape::Place(place) => knows_place(scope, place),
    }
}

/// Says whether lines declare the names of a specimen, if there is one.
fn knows_behind_by(scope: &Scope, specimen: &Option<LineTree>) -> bool
    ensures { IsTrue result ↔ meanings.KnowsBehindBy scope.now specimen.now }
{
    match specimen {
        None => true,
        Some(tree) => knows_tree(scope, tree),
    }
}

/// Says whether lines declare the sorts.
fn knows_sorts(scope: &Scope, sorts: &[Txt]) -> bool
    ensures { IsTrue result ↔ AllByRecursion (meanings.KnowsSort scope.now) sorts.now }
{
    for sort in sorts {
        if !scope.is_sort(sort.as_str()) {
            return false;
        }
    }
    true
}

/// Says whether lines declare the sorts of the constructors' arguments.
fn knows_arguments(scope: &Scope, constructors: &[ConDecl]) -> bool
    ensures { IsTrue result ↔ AllByRecursion
        (λ c. AllByRecursion (meanings.KnowsSort scope.now) c.args) constructors.now }
{
    for constructor in constructors {
        if !knows_sorts(scope, constructor.args.as_slice()) {
            return false;
        }
    }
    true
}

/// Says whether lines declare the space, if it is named.
fn knows_space(scope: &Scope, space: &Txt) -> bool
    ensures { IsTrue result ↔ meanings.KnowsSpace scope.now space.now }
{
    let name = space.as_str();
    if name.is_empty() {
        return true;
    }
    scope.space(name).is_some()
}

/// Says whether lines declare the kind or the space of an item, if it names one.
fn knows_item(scope: &Scope, item: &LineItem) -> bool
    ensures { IsTrue result ↔ meanings.KnowsItem scope.now item.now }
{
    match item {
        LineItem::Slot(kind) => scope.is_kind(kind.as_str()),
        LineItem::Refers(space) => knows_space(scope, space),
        LineItem::Declares(space) => knows_space(scope, space),
        _ => true,
    }
}

/// Says whether lines declare the kinds and spaces of the items.
fn knows_items(scope: &Scope, items: &[LineItem]) -> bool
    ensures { IsTrue result ↔ AllByRecursion (meanings.KnowsItem scope.now) items.now }
{
    for item in items {
        if !knows_item(scope, item) {
            return false;
        }
    }
    true
}

/// Says whether each name of the line is one that a line declares as what may be there.
pub fn is_known(scope: &Scope, line: &Line) -> bool
    ensures { IsTrue result ↔ meanings.IsKnown scope.now line.now }
{
    match line {
        Line::Sort(d) => knows_arguments(scope, d.constructors.as_slice()),
        Line::Space { sort, .. } => scope.is_sort(sort.as_str()),
        Line::Phylum { sort, .. } => scope.is_sort(sort.as_str()),
        Line::List { sort, element, .. } => {
            scope.is_sort(sort.as_str()) && scope.is_phylum(element.as_str())
        }
        Line::Operator { phylum, items, .. } => {
            scope.is_phylum(phylum.as_str()) && knows_items(scope, items.as_slice())
        }
        Line::Row { head, columns } => {
            knows_term(scope, head) && knows_terms(scope, columns.as_slice())
        }
        Line::Nil { list, term } => scope.is_list(list.as_str()) && knows_term(scope, term),
        Line::Cell {
            list,
            term,
            element,
            rest,
        } => {
            scope.is_list(list.as_str())
                && knows_term(scope, term)
                && knows_term(scope, element)
                && knows_term(scope, rest)
        }
        Line::Hole {
            kind,
            term,
            specimen,
        } => {
            scope.is_kind(kind.as_str())
                && knows_term(scope, term)
                && knows_behind_by(scope, specimen)
        }
        Line::Case { term, specimen } => knows_term(scope, term) && knows_tree(scope, specimen),
        Line::Declare {
            space,
            list,
            entity,
            value,
            specimen,
        } => {
            knows_space(scope, space)
                && scope.is_list(list.as_str())
                && knows_term(scope, entity)
                && knows_term(scope, value)
                && knows_tree(scope, specimen)
        }
    }
}
