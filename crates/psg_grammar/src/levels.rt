//! What an operator's form says of its places.
ghost use Rattle.std.specs.Prelude.{◌≡◌, count_by, Some};
ghost use Rattle.std.specs.List.{list_all};
ghost use Rattle.psg_grammar.specs.Lookups.{is_part};
ghost use Rattle.psg_grammar.specs.Levels.{first_level, is_mark, is_name_position, is_slot, is_slot_of, last_level};
ghost use Rattle.psg_grammar.specs.Levels.{level_number, least_level_of, IsSlotAt};
ghost use Rattle.psg_grammar.specs.Sound.{IsLevel};

use crate::types::{Item, Kind, Level, Operator};

/// Says whether the item has a part of the tree: a slot, a name or a literal.
pub fn is_part(item: &Item) -> bool
    ensures { result ≡ is_part item.now }
{
    matches!(
        item,
        Item::Slot(_) | Item::Refers(_) | Item::Declares(_) | Item::Number | Item::Text
    )
}

/// Returns how many of the operator's items are slots, in one pass over them.
pub fn slots(operator: &Operator) -> usize
    ensures { result ≡ count_by is_slot operator.now.items }
{
    operator
        .items
        .as_slice()
        .iter()
        .filter(|item| matches!(item, Item::Slot(_)))
        .count()
}

/// Returns how many of the operator's items are places for names, in one pass over them.
pub fn name_positions(operator: &Operator) -> usize
    ensures { result ≡ count_by is_name_position operator.now.items }
{
    operator
        .items
        .as_slice()
        .iter()
        .filter(|item| matches!(item, Item::Refers(_) | Item::Declares(_)))
        .count()
}

/// Returns the level of the operator: the N of its form, or 10 without a form.
pub fn op_level(operator: &Operator) -> u8
    ensures { result ≡ level_number operator.now.level }
{
    match operator.level {
        Level::Plain => 10,
        Level::Prefix(n) => n,
        Level::Postfix(n) => n,
        Level::InfixLeft(n) => n,
        Level::InfixRight(n) => n,
        Level::InfixNone(n) => n,
    }
}

/// Returns the least level that a tree in a slot must have to be written there without brackets.
///
/// It is 0, except for a slot of the operator's own phylum at its first or last place, marks for the layout passed
/// over: there the form says it, and a slot that is both takes the greater one. It takes one pass over the items.
pub fn least_level(operator: &Operator, item: usize) -> u8
    requires slot { IsSlotAt operator.now item }
    requires level { IsLevel operator.now.level }
    ensures { result ≡ least_level_of operator.now item }
{
    let items = operator.items.as_slice();
    if !is_own_slot(&items[item], operator.phylum) {
        return 0;
    }
    let first = if all_marks(&items[..item]) {
        least_first(operator.level)
    } else {
        0
    };
    let last = if all_marks(&items[item + 1..]) {
        least_last(operator.level)
    } else {
        0
    };
    first.max(last)
}

fn is_own_slot(item: &Item, phylum: u32) -> bool
    ensures { result ≡ is_slot_of phylum (Some item.now) }
{
    match item {
        Item::Slot(Kind::Phylum(number)) => *number == phylum,
        _ => false,
    }
}

fn all_marks(items: &[Item]) -> bool
    ensures { result ≡ list_all is_mark items.now }
{
    items.iter().all(|item| {
        matches!(
            item,
            Item::Space | Item::Tight | Item::Line | Item::In | Item::Out
        )
    })
}

/// Returns the least level of a first own slot, by the operator's level: 0 for a form that has no such slot.
pub fn least_first(level: Level) -> u8
    requires { IsLevel level }
    ensures { result ≡ first_level level }
{
    match level {
        Level::Plain | Level::Prefix(_) => 0,
        Level::Postfix(n) | Level::InfixLeft(n) => n,
        Level::InfixRight(n) | Level::InfixNone(n) => n + 1,
    }
}

/// Returns the least level of a last own slot, by the operator's level: 0 for a form that has no such slot.
pub fn least_last(level: Level) -> u8
    requires { IsLevel level }
    ensures { result ≡ last_level level }
{
    match level {
        Level::Plain | Level::Postfix(_) => 0,
        Level::Prefix(n) | Level::InfixRight(n) => n,
        Level::InfixLeft(n) | Level::InfixNone(n) => n + 1,
    }
}
