//! Kinds and operators by name, and their names and sorts by number.
ghost use Rattle.std.specs.Prelude.{◌≡◌, ◌<◌, ◌↔◌, ℕ, length, IfSome, IsTrue, Some, position, bytes_eq};
ghost use Rattle.psg_grammar.specs.declared.types.Kind.{Kind};
ghost use Rattle.psg_grammar.specs.Kinds.{base_phylum_of, HasKind, kind_name_of, kind_sort_of, op_name_of};
ghost use Rattle.psg_grammar.specs.Sound.{IsSound};

use crate::types::{Definition, Kind, ListKind, Operator, Phylum};
use psg_terms::SortId;

/// Returns the phylum or list of the name, or `None` where there is none.
///
/// Each call compares the name with those of all phyla and lists up to the one that is found.
pub fn kind_named(definition: &Definition, name: &str) -> Option<Kind>
    requires { IsSound definition.now }
    ensures found { IfSome result (λ kind. kind_name_of definition.now kind ≡ Some name.now) }
    ensures only { (kind : Kind) → kind_name_of definition.now kind ≡ Some name.now → result ≡ Some kind }
{
    if let Some(place) = phylum_place(definition.phyla.as_slice(), name) {
        return Some(Kind::Phylum(place as u32));
    }
    match list_place(definition.lists.as_slice(), name) {
        Some(place) => Some(Kind::List(place as u32)),
        None => None,
    }
}

/// Returns the number of the operator of the name, or `None` where there is none.
///
/// Each call compares the name with those of all operators up to the one that is found.
pub fn op_named(definition: &Definition, name: &str) -> Option<u32>
    requires { IsSound definition.now }
    ensures found { IfSome result (λ o. op_name_of definition.now o ≡ Some name.now) }
    ensures only { (o : ℕ) → op_name_of definition.now o ≡ Some name.now → result ≡ Some o }
{
    match operator_place(definition.operators.as_slice(), name) {
        Some(place) => Some(place as u32),
        None => None,
    }
}

fn phylum_place(phyla: &[Phylum], name: &str) -> Option<usize>
    ensures { result ≡ position (λ p. bytes_eq p.name name.now) phyla.now }
{
    phyla.iter().position(|phylum| phylum.name.as_str() == name)
}

fn list_place(lists: &[ListKind], name: &str) -> Option<usize>
    ensures { result ≡ position (λ l. bytes_eq l.name name.now) lists.now }
{
    lists.iter().position(|list| list.name.as_str() == name)
}

fn operator_place(operators: &[Operator], name: &str) -> Option<usize>
    ensures { result ≡ position (λ o. bytes_eq o.name name.now) operators.now }
{
    operators
        .iter()
        .position(|operator| operator.name.as_str() == name)
}

/// Returns the name of a kind of the definition.
pub fn kind_name(definition: &Definition, kind: Kind) -> &str
    requires { HasKind definition.now kind }
    ensures { kind_name_of definition.now kind ≡ Some result.now }
{
    match kind {
        Kind::Phylum(number) => definition.phyla.as_slice()[number as usize].name.as_str(),
        Kind::List(number) => definition.lists.as_slice()[number as usize].name.as_str(),
    }
}

/// Returns the sort of the values of a kind of the definition.
pub fn kind_sort(definition: &Definition, kind: Kind) -> SortId
    requires { HasKind definition.now kind }
    ensures { kind_sort_of definition.now kind ≡ Some result }
{
    match kind {
        Kind::Phylum(number) => definition.phyla.as_slice()[number as usize].sort,
        Kind::List(number) => definition.lists.as_slice()[number as usize].sort,
    }
}

/// Returns the phylum itself, or that of the list's elements.
pub(crate) fn base_phylum(definition: &Definition, kind: Kind) -> u32
    requires sound { IsSound definition.now }
    requires there { HasKind definition.now kind }
    ensures base { base_phylum_of definition.now kind ≡ Some result }
    ensures inside { result < length definition.now.phyla }
{
    match kind {
        Kind::Phylum(number) => number,
        Kind::List(number) => definition.lists.as_slice()[number as usize].element,
    }
}

/// Says whether the two kinds are one phylum or one list.
pub fn same_kind(a: Kind, b: Kind) -> bool
    ensures { IsTrue result ↔ (a ≡ b) }
{
    match a {
        Kind::Phylum(number) => match b {
            Kind::Phylum(other) => number == other,
            Kind::List(_) => false,
        },
        Kind::List(number) => match b {
            Kind::List(other) => number == other,
            Kind::Phylum(_) => false,
        },
    }
}
