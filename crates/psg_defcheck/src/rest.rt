//! Tests that look at one line alone, except for the sort of names.
ghost use Rattle.std.specs.Prelude.{◌≡◌, ◌↔◌, ◌⊎◌, IsTrue, is_some, false};
ghost use Rattle.std.specs.List.{list_any};
ghost use Rattle.psg_defcheck.specs.Scopes as scopes;
ghost use Rattle.psg_defcheck.specs.Meanings as meanings;

use crate::scope::Scope;
use psg_deflines::{Line, LineItem};
use psg_terms::ConDecl;

/// Says whether a name is at the item.
fn is_name_item(item: &LineItem) -> bool
    ensures { result ≡ meanings.is_name_item item.now }
{
    match item {
        LineItem::Refers(_) => true,
        LineItem::Declares(_) => true,
        _ => false,
    }
}

/// Says whether a name is at one of the items.
fn has_name_item(items: &[LineItem]) -> bool
    ensures { result ≡ list_any meanings.is_name_item items.now }
{
    items.iter().any(|item| is_name_item(item))
}

/// Says whether names need no sort, or have one.
fn may_have_names(scope: &Scope, items: &[LineItem]) -> bool
    ensures { IsTrue result ↔
        ((list_any meanings.is_name_item items.now ≡ false) ⊎ IsTrue (is_some (scopes.entity_sort scope.now))) }
{
    if has_name_item(items) {
        scope.entity().is_some()
    } else {
        true
    }
}

/// Says whether there is a space, if the line has name positions or is a declare row.
pub fn has_entity(scope: &Scope, line: &Line) -> bool
    ensures { IsTrue result ↔ meanings.HasEntity scope.now line.now }
{
    match line {
        Line::Operator { items, .. } => may_have_names(scope, items.as_slice()),
        Line::Declare { .. } => scope.entity().is_some(),
        _ => true,
    }
}

/// Says whether there are more constructors than one, or the only one has no arguments.
fn is_choice(constructors: &[ConDecl]) -> bool
    ensures { IsTrue result ↔ meanings.IsChoice constructors.now }
{
    match constructors {
        [only] => only.args.as_slice().is_empty(),
        _ => true,
    }
}

/// Says whether the line is no sort's, or that of a sort whose only constructor has no arguments, or that has more of
/// them.
pub fn has_choice(line: &Line) -> bool
    ensures { IsTrue result ↔ meanings.HasChoice line.now }
{
    match line {
        Line::Sort(d) => is_choice(d.constructors.as_slice()),
        _ => true,
    }
}
