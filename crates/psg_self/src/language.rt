//! Whether a language is that of definitions.
ghost use Rattle.std.specs.Prelude.{◌≡◌, ◌↔◌, IsTrue, map};
ghost use Rattle.psg_grammar.specs.declared.types.Phylum.{Phylum as PhylumDeclared};
ghost use Rattle.psg_self.specs.SelfLanguage.{IsSelf};
ghost use Rattle.psg_self.specs.Signs.{item_of, key_of, list_key, operator_of};

use crate::signs::{LISTS, OPERATORS, PHYLA, Sign, Wanted};
use psg_grammar::{Definition, Item, ListKind, Operator, Phylum, same_kind};
use psg_specimen::Language;

/// Says whether the item is the expected one.
fn is_item(item: &Item, sign: Sign) -> bool
    ensures { IsTrue result ↔ (item.now ≡ item_of sign) }
{
    match sign {
        Sign::Word(wanted) => match item {
            Item::Word(word) => word.as_str() == wanted,
            _ => false,
        },
        Sign::Slot(wanted) => match item {
            Item::Slot(kind) => same_kind(*kind, wanted),
            _ => false,
        },
        Sign::Refers(wanted) => match item {
            Item::Refers(space) => *space == wanted,
            _ => false,
        },
        Sign::Declares(wanted) => match item {
            Item::Declares(space) => *space == wanted,
            _ => false,
        },
        Sign::Number => matches!(item, Item::Number),
        Sign::Text => matches!(item, Item::Text),
        Sign::Tight => matches!(item, Item::Tight),
    }
}

/// Says whether the items are the expected ones, in order.
fn are_items(items: &[Item], signs: &[Sign]) -> bool
    ensures { IsTrue result ↔ (items.now ≡ map item_of signs.now) }
{
    match items {
        [] => signs.is_empty(),
        [item, more @ ..] => match signs {
            [] => false,
            [sign, others @ ..] => is_item(item, *sign) && are_items(more, others),
        },
    }
}

/// Says whether the operator is the expected one.
fn is_operator(operator: &Operator, wanted: &Wanted) -> bool
    ensures { IsTrue result ↔ (key_of operator.now ≡ operator_of wanted.now) }
{
    operator.name.as_str() == wanted.name
        && operator.phylum == wanted.phylum
        && are_items(operator.items.as_slice(), wanted.items)
}

/// Says whether the operators are the expected ones, in order.
fn are_operators(operators: &[Operator], wanted: &[Wanted]) -> bool
    ensures { IsTrue result ↔ (map key_of operators.now ≡ map operator_of wanted.now) }
{
    match operators {
        [] => wanted.is_empty(),
        [operator, more @ ..] => match wanted {
            [] => false,
            [first, others @ ..] => is_operator(operator, first) && are_operators(more, others),
        },
    }
}

/// Says whether the phylum has the name.
fn is_named(phylum: &Phylum, name: &str) -> bool
    ensures { IsTrue result ↔ (phylum.now.name ≡ name.now) }
{
    phylum.name.as_str() == name
}

/// Says whether the phyla have these names, in order.
fn are_phyla(phyla: &[Phylum], names: &[&str]) -> bool
    ensures { IsTrue result ↔ (map (λ (p : PhylumDeclared). p.name) phyla.now ≡ map (λ n. n.now) names.now) }
{
    match phyla {
        [] => names.is_empty(),
        [phylum, more @ ..] => match names {
            [] => false,
            [name, others @ ..] => is_named(phylum, name) && are_phyla(more, others),
        },
    }
}

/// Says whether the lists have these names and elements of these phyla, in order.
fn are_lists(lists: &[ListKind], wanted: &[(&str, u32)]) -> bool
    ensures { IsTrue result ↔ (map list_key lists.now ≡ map (λ w. (w.0.now, w.1)) wanted.now) }
{
    match lists {
        [] => wanted.is_empty(),
        [list, more @ ..] => match wanted {
            [] => false,
            [(name, element), others @ ..] => {
                list.name.as_str() == *name && list.element == *element && are_lists(more, others)
            }
        },
    }
}

/// Says whether a definition is that of definitions.
fn is_own(definition: &Definition) -> bool
    ensures { IsTrue result ↔ IsSelf definition.now }
{
    are_phyla(definition.phyla.as_slice(), PHYLA)
        && are_lists(definition.lists.as_slice(), LISTS)
        && are_operators(definition.operators.as_slice(), OPERATORS)
}

/// Says whether a language is that of definitions: its phyla, its lists with the phyla of their elements, and its
/// operators with their phyla and items are those of that language, in order and by their names. It takes no memory,
/// and compares each of them once.
pub fn is_self(language: &Language) -> bool
    ensures { IsTrue result ↔ IsSelf language.now }
{
    is_own(language.definition())
}
