//! What definitions answer, over the small language.
ghost use Rattle.std.specs.Prelude.{◌≡◌, slice_get, IfOk, Some};

use super::little::{language, operator};
use psg_grammar::{
    Item, Kind, Level, Operator, declaring, kind_name, kind_named, kind_sort, least_level,
    name_positions, op_level, op_named, slots,
};
use psg_terms::{SortId, Txt};
use std::alloc::{AllocError, Global};
use std::test::Fail;

#[test]
fn names(rt: HostRuntime) -> Result<(), Fail> {
    let definition = language(rt.alloc())?;
    for (name, kind, op) in [
        ("Item", Some(Kind::Phylum(1)), None),
        ("Items", Some(Kind::List(0)), None),
        ("blk", None, Some(0)),
        ("let", None, Some(2)),
        ("Exp", Some(Kind::Phylum(0)), None),
    ] {
        assert_eq!(rt; kind_named(&definition, name), kind, "{name}");
        assert_eq!(rt; op_named(&definition, name), op, "{name}");
    }
    assert_eq!(rt; kind_name(&definition, Kind::Phylum(2)), "Group");
    assert_eq!(rt; kind_name(&definition, Kind::List(0)), "Items");
    assert_eq!(rt; kind_sort(&definition, Kind::Phylum(0)), SortId(0));
    Ok(())
}

// A block keeps what its items declare, and a group lets it out.
#[test]
fn spaces_of_phyla(rt: HostRuntime) -> Result<(), Fail> {
    let definition = language(rt.alloc())?;
    let found = declaring(rt.alloc(), &definition)?;
    assert_eq!(rt; found.len(), 3);
    assert!(rt; found[0].is_empty());
    assert_eq!(rt; found[1].as_slice(), [0, 1].as_slice());
    assert_eq!(rt; found[2].as_slice(), [0, 1].as_slice());
    let value = &definition.operators.as_slice()[2];
    assert_eq!(rt; name_positions(value), 1);
    assert_eq!(rt; slots(value), 1);
    Ok(())
}

// `Exp = Exp tight "-" space Exp`
fn minus(alloc: Global, level: Level) -> Result<Operator, AllocError>
    ensures level { IfOk result (λ o. o.level ≡ level) }
    ensures first { IfOk result (λ o. slice_get o.items 0 ≡ Some (Item.Slot (Kind.Phylum 0))) }
    ensures last { IfOk result (λ o. slice_get o.items 4 ≡ Some (Item.Slot (Kind.Phylum 0))) }
{
    let mut operator = operator(
        alloc,
        "sub",
        0,
        false,
        vec![in alloc;
            Item::Slot(Kind::Phylum(0)),
            Item::Tight,
            Item::Word(Txt::copy_of(alloc, "-")?),
            Item::Space,
            Item::Slot(Kind::Phylum(0)),
        ]?,
    )?;
    operator.level = level;
    Ok(operator)
}

#[test]
fn levels_of_slots(rt: HostRuntime) -> Result<(), Fail> {
    let left = minus(rt.alloc(), Level::InfixLeft(4))?;
    assert_eq!(rt; slots(&left), 2);
    assert_eq!(rt; name_positions(&left), 0);
    assert_eq!(rt; op_level(&left), 4);
    assert_eq!(rt; least_level(&left, 0), 4);
    assert_eq!(rt; least_level(&left, 4), 5);
    let plain = minus(rt.alloc(), Level::Plain)?;
    assert_eq!(rt; op_level(&plain), 10);
    Ok(())
}
