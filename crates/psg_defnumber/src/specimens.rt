//! Specimens from the specimens of a line.
ghost use Rattle.std.specs.Prelude.{◌≡◌, ◌<◌, ◌^◌, ◌∷◌, ℕ, [], true, IfOk, OnOk, map};
ghost use Rattle.std.specs.Borrow.{Bor};
ghost use Rattle.std.specs.List.{AllByRecursion};
ghost use Rattle.psg_lexis.specs.Tokens.{value_of};
ghost use Rattle.psg_deflines.specs.WrittenTrees.{is_digits};
ghost use Rattle.psg_grammar.specs.declared.types.Item.{Item as PlainItem};
ghost use Rattle.psg_grammar.specs.declared.types.Kind.TheVariants as kinds;
ghost use Rattle.psg_grammar.specs.Lookups.{is_part, part_items};
ghost use Rattle.psg_grammar.specs.Sound.{HasKindSort, IsItem};
ghost use Rattle.psg_grammar.specs.Specimens.{holes_of_part, rest_hole};
ghost use Rattle.psg_defcheck.specs.Meanings.{KnowsTree, SortsTerm};
ghost use Rattle.psg_defcheck.specs.Scopes.{value_place};
ghost use Rattle.psg_defcheck.specs.Parts.{KnowsEnd, KnowsPart, KnowsPlace};
ghost use Rattle.psg_defnumber.specs.Declaring.{HasNames};
ghost use Rattle.psg_defnumber.specs.Placing.{TreeFits, IsPartAt, ArePartsAt, AreElementsAt, IsRestAt};
ghost use Rattle.psg_defnumber.specs.Sorts.{ForSomeSorts, StaysSorted};
ghost use Rattle.psg_defnumber.specs.Numbers.{IsPlace, IsTree, terms_of};
ghost use Rattle.psg_defnumber.specs.Fitting.{IsMade, hole_terms, part_terms, element_terms};
ghost use Rattle.psg_defnumber.specs.Fitting.{PartFits, PartsFit, ElementsFit, RestFits};

use crate::lookups::{kind_named, kind_sort, list_at, operator_named};
use crate::terms::term;
use crate::variables::LineVariables;
use psg_defcheck::CheckedLines;
use psg_deflines::{LinePart, LinePlace, LineTree, TreeShape};
use psg_grammar::{Definition, Item, Kind, Specimen, SpecimenHole, SpecimenPart, is_part};
use psg_terms::Seq;
use std::alloc::{AllocError, Global};

/// Returns the value of digits.
fn decimal(digits: &str) -> u128
    requires digits { is_digits digits.now ≡ true }
    requires small { value_of digits.now < 2 ^ 128 }
    ensures { value_of digits.now ≡ result }
{
    let mut value = 0u128;
    let mut rest = digits.as_bytes();
    while let Some((digit, after)) = rest.split_first() {
        value = value * 10 + u128::from(*digit - b'0');
        rest = after;
    }
    value
}

/// Returns the place of a kind with a term of its sort.
fn place<'a>(
    alloc: Global,
    definition: &Definition,
    checked: &CheckedLines,
    known: &mut LineVariables<'a>,
    written: &'a LinePlace,
) -> Result<SpecimenHole, AllocError>
    requires declared { KnowsPlace checked.now written.now }
    requires names { HasNames checked.now definition.now }
    requires fits { ForSomeSorts checked.now known.old.entries
        (λ sorts. SortsTerm checked.now sorts [] (value_place checked.now written.now.kind) written.now.term) }
    ensures made { IfOk result (λ h. IsMade definition.now known.old.entries known.new.entries (h.term ∷ [])
        (λ full names. IsPlace full names written.now.kind written.now.term h)) }
    ensures agrees { OnOk result (StaysSorted checked.now known.old.entries known.new.entries
        (λ sorts. SortsTerm checked.now sorts [] (value_place checked.now written.now.kind) written.now.term)) }
{
    let kind = kind_named(checked, &written.kind);
    let sort = kind_sort(definition, kind);
    let made = term(
        alloc,
        &definition.signature,
        checked,
        known,
        sort,
        &written.term,
    )?;
    Ok(SpecimenHole { kind, term: made })
}

/// Returns the rest of a list, which is a place of the list.
fn list_rest<'a>(
    alloc: Global,
    definition: &Definition,
    checked: &CheckedLines,
    known: &mut LineVariables<'a>,
    list: u32,
    written: &'a Option<LinePlace>,
) -> Result<Option<SpecimenHole>, AllocError>
    requires declared { KnowsEnd checked.now written.now }
    requires names { HasNames checked.now definition.now }
    requires fits { ForSomeSorts checked.now known.old.entries
        (λ sorts. IsRestAt checked.now sorts (kinds.List list) written.now) }
    ensures made { IfOk result (λ r. IsMade definition.now known.old.entries known.new.entries
        (hole_terms (rest_hole r)) (λ full names. RestFits full names list r written.now)) }
    ensures agrees { OnOk result (StaysSorted checked.now known.old.entries known.new.entries
        (λ sorts. IsRestAt checked.now sorts (kinds.List list) written.now)) }
{
    match written {
        None => Ok(None),
        Some(own) => {
            let made = place(alloc, definition, checked, known, own)?;
            Ok(Some(made))
        }
    }
}

/// Returns the items that have parts.
fn items_of<'d>(alloc: Global, items: &'d [Item]) -> Result<Vec<&'d Item>, AllocError>
    ensures { IfOk result (λ v. map (λ (b : Bor PlainItem). b.now) v.items ≡ part_items items.now) }
{
    let mut parts = Vec::new(alloc);
    for item in items {
        if is_part(item) {
            parts.push(item)?;
        }
    }
    Ok(parts)
}

/// Returns the part of an item.
#[cycle(specimen)]
fn part<'a>(
    alloc: Global,
    definition: &Definition,
    checked: &CheckedLines,
    known: &mut LineVariables<'a>,
    item: &Item,
    written: &'a LinePart,
) -> Result<SpecimenPart, AllocError>
    requires declared { KnowsPart checked.now written.now }
    requires names { HasNames checked.now definition.now }
    requires there { IsItem definition.now item.now }
    requires fits { ForSomeSorts checked.now known.old.entries
        (λ sorts. IsPartAt checked.now sorts item.now written.now) }
    ensures made { IfOk result (λ p. IsMade definition.now known.old.entries known.new.entries
        (hole_terms (holes_of_part p)) (λ full names. PartFits full names item.now p written.now)) }
    ensures agrees { OnOk result (StaysSorted checked.now known.old.entries known.new.entries
        (λ sorts. IsPartAt checked.now sorts item.now written.now)) }
{
    match item {
        Item::Slot(kind) => {
            let LinePart::Tree(tree) = written else {
                unreachable!()
            };
            let made = specimen(alloc, definition, checked, known, *kind, tree)?;
            Ok(SpecimenPart::Sub(made))
        }
        Item::Refers(_) | Item::Declares(_) => {
            let LinePart::Name(name) = written else {
                unreachable!()
            };
            Ok(SpecimenPart::Name(name.share()?))
        }
        Item::Number => {
            let LinePart::Number(digits) = written else {
                unreachable!()
            };
            Ok(SpecimenPart::Number(decimal(digits.as_str())))
        }
        Item::Text => {
            let LinePart::Text(text) = written else {
                unreachable!()
            };
            Ok(SpecimenPart::Text(text.share()?))
        }
        _ => unreachable!(),
    }
}

/// Returns the parts of these items, one by one.
#[cycle(specimen)]
fn parts<'a>(
    alloc: Global,
    definition: &Definition,
    checked: &CheckedLines,
    known: &mut LineVariables<'a>,
    items: &[&Item],
    written: &'a [LinePart],
) -> Result<Vec<SpecimenPart>, AllocError>
    requires declared { AllByRecursion (KnowsPart checked.now) written.now }
    requires names { HasNames checked.now definition.now }
    requires there { AllByRecursion (λ (b : Bor PlainItem). IsItem definition.now b.now) items.now }
    requires fits { ForSomeSorts checked.now known.old.entries
        (λ sorts. ArePartsAt checked.now sorts (map (λ (b : Bor PlainItem). b.now) items.now) written.now) }
    ensures made { IfOk result (λ v. IsMade definition.now known.old.entries known.new.entries (part_terms v.items)
        (λ full names. PartsFit full names (map (λ (b : Bor PlainItem). b.now) items.now) v.items written.now)) }
    ensures agrees { OnOk result (StaysSorted checked.now known.old.entries known.new.entries
        (λ sorts. ArePartsAt checked.now sorts (map (λ (b : Bor PlainItem). b.now) items.now) written.now)) }
{
    let mut made = Vec::with_capacity(alloc, written.len())?;
    for i in 0..written.len() {
        let one = part(alloc, definition, checked, known, items[i], &written[i])?;
        made.push(one)?;
    }
    Ok(made)
}

/// Specimens of the elements' phylum, one by one.
#[cycle(specimen)]
fn elements<'a>(
    alloc: Global,
    definition: &Definition,
    checked: &CheckedLines,
    known: &mut LineVariables<'a>,
    phylum: u32,
    written: &'a [LineTree],
) -> Result<Vec<Specimen>, AllocError>
    requires declared { AllByRecursion (KnowsTree checked.now) written.now }
    requires names { HasNames checked.now definition.now }
    requires there { (s : ℕ) × HasKindSort definition.now (kinds.Phylum phylum) s }
    requires fits { ForSomeSorts checked.now known.old.entries
        (λ sorts. AreElementsAt checked.now sorts (kinds.Phylum phylum) written.now) }
    ensures made { IfOk result (λ v. IsMade definition.now known.old.entries known.new.entries (element_terms v.items)
        (λ full names. ElementsFit full names phylum v.items written.now)) }
    ensures agrees { OnOk result (StaysSorted checked.now known.old.entries known.new.entries
        (λ sorts. AreElementsAt checked.now sorts (kinds.Phylum phylum) written.now)) }
{
    let mut made = Vec::with_capacity(alloc, written.len())?;
    for tree in written {
        let one = specimen(
            alloc,
            definition,
            checked,
            known,
            Kind::Phylum(phylum),
            tree,
        )?;
        made.push(one)?;
    }
    Ok(made)
}

/// Makes the specimen of the kind.
#[cycle(specimen)]
pub fn specimen<'a>(
    alloc: Global,
    definition: &Definition,
    checked: &CheckedLines,
    known: &mut LineVariables<'a>,
    kind: Kind,
    written: &'a LineTree,
) -> Result<Specimen, AllocError>
    requires declared { KnowsTree checked.now written.now }
    requires names { HasNames checked.now definition.now }
    requires there { (s : ℕ) × HasKindSort definition.now kind s }
    requires fits { ForSomeSorts checked.now known.old.entries (λ sorts. TreeFits checked.now sorts kind written.now) }
    ensures made { IfOk result (λ s. IsMade definition.now known.old.entries known.new.entries
        (terms_of definition.now s) (λ full names. IsTree full names kind s written.now)) }
    ensures agrees { OnOk result (StaysSorted checked.now known.old.entries known.new.entries
        (λ sorts. TreeFits checked.now sorts kind written.now)) }
{
    match &written.shape {
        TreeShape::Operator {
            name,
            parts: written,
        } => {
            let (op, own) = operator_named(definition, checked, name);
            let items = items_of(alloc, own.items.as_slice())?;
            let made = parts(
                alloc,
                definition,
                checked,
                known,
                items.as_slice(),
                written.as_slice(),
            )?;
            Ok(Specimen::Op {
                op,
                parts: Seq::of(made),
            })
        }
        TreeShape::List {
            elements: written,
            rest,
        } => {
            let Kind::List(list) = kind else {
                unreachable!()
            };
            let own = list_at(definition, list);
            let made = elements(
                alloc,
                definition,
                checked,
                known,
                own.element,
                written.as_slice(),
            )?;
            let rest = list_rest(alloc, definition, checked, known, list, rest)?;
            Ok(Specimen::List {
                list,
                elements: Seq::of(made),
                rest,
            })
        }
        TreeShape::Place(own) => {
            let made = place(alloc, definition, checked, known, own)?;
            Ok(Specimen::Hole(made))
        }
    }
}
