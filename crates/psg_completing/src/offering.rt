//! What is offered at a placeholder of a program.
ghost use Rattle.std.specs.Prelude.{◌≡◌, ◌<◌, ◌∷◌, [], ◌++◌, IfOk, OnOk, Some};
ghost use Rattle.std.specs.Prelude.{false, length, map, nat_lt, slice_get};
ghost use Rattle.std.specs.Prelude.{take};
ghost use Rattle.std.specs.Prelude.{option_copied, option_map, string_bytes};
ghost use Rattle.psg_asking.specs.Asked.{IsKnown};
ghost use Rattle.psg_asking.specs.Told.{or_none, read_of};
ghost use Rattle.psg_cache.specs.Annotated.{tree_in};
ghost use Rattle.psg_grammar.specs.declared.types.Operator.{Operator as PlainOperator};
ghost use Rattle.psg_grammar.specs.Kinds.{op_name_of};
ghost use Rattle.psg_grammar.specs.Lookups.{operator_at};
ghost use Rattle.psg_pointing.specs.Hovering.{lines_of};
ghost use Rattle.psg_completing.specs.Offering as offered;

use crate::samples::sample_text;
use psg_asking::{Known, menu_at, names_at};
use psg_grammar::{Definition, Operator, op_named};
use psg_keymap::{Leaf, Spot, leaves_of};
use psg_session::Refusal;
use psg_terms::{Steps, Txt};
use psg_world::SureFiles;
use std::alloc::{AllocError, Global};
use std::sync::ledger::Ledger;

/// How many entries an operator has at most.
const MOST_NAMES: usize = 100;

/// What may be put in place of a word.
#[derive(Drop)]
pub struct Entry {
    /// The name of the operator.
    pub operator: Txt,
    /// What is written.
    pub text: Txt,
}

/// Entries, and whether some more are not among them.
#[derive(Drop)]
pub(crate) struct Offers {
    pub(crate) entries: Vec<Entry>,
    pub(crate) more: bool,
}

/// A placeholder of a program, and what is wanted there.
#[derive(Clone, Copy)]
pub(crate) struct Open<'a> {
    pub(crate) known: Known<'a>,
    pub(crate) spot: &'a Spot,
    /// The level that is wanted there.
    pub(crate) least: u8,
    /// The name that is written where none is given.
    pub(crate) sample: &'a str,
    /// What names begin with.
    pub(crate) prefix: &'a [u8],
}

/// Says whether the leaf is a name that is used.
fn is_used(leaf: Leaf) -> bool
    ensures { result ≡ offered.is_used leaf }
{
    match leaf {
        Leaf::Name => true,
        Leaf::NewName => false,
        Leaf::Number => false,
        Leaf::Text => false,
    }
}

/// Says whether a name that is used is all that is typed.
fn one_name(leaves: &[Leaf]) -> bool
    ensures { result ≡ offered.one_name leaves.now }
{
    match leaves.split_first() {
        Some((leaf, more)) => {
            let used = is_used(*leaf);
            used && more.is_empty()
        }
        None => false,
    }
}

/// Returns those of the names that begin so.
fn begun(alloc: Global, prefix: &[u8], names: &[String]) -> Result<Vec<Txt>, AllocError>
    ensures { IfOk result (λ kept. kept.items ≡ offered.begun prefix.now (map string_bytes names.now)) }
{
    let mut kept = Vec::new(alloc);
    for name in names {
        let text = name.as_str();
        push_begun(alloc, &mut kept, prefix, text)?;
    }
    Ok(kept)
}

/// Adds the name, if it begins so.
fn push_begun(
    alloc: Global,
    kept: &mut Vec<Txt>,
    prefix: &[u8],
    name: &str,
) -> Result<(), AllocError>
    ensures { OnOk result (kept.new.items ≡ kept.old.items ++ offered.begun prefix.now (name.now ∷ [])) }
{
    let bytes = name.as_bytes();
    let begins = bytes.starts_with(prefix);
    if begins {
        let copy = Txt::copy_of(alloc, name)?;
        kept.push(copy)?;
        return Ok(());
    }
    Ok(())
}

/// Returns those of the names that begin so, or all of them where none begins so.
fn begun_or_all(alloc: Global, prefix: &[u8], names: &[String]) -> Result<Vec<Txt>, AllocError>
    ensures { IfOk result (λ kept. kept.items ≡ offered.begun_or_all prefix.now (map string_bytes names.now)) }
{
    let some = begun(alloc, prefix, names)?;
    let row = some.as_slice();
    let none = row.is_empty();
    if none {
        let all = begun(alloc, &[], names)?;
        return Ok(all);
    }
    Ok(some)
}

/// Returns the name alone.
fn alone(alloc: Global, name: &str) -> Result<Vec<Txt>, AllocError>
    ensures { IfOk result (λ names. names.items ≡ name.now ∷ []) }
{
    let copy = Txt::copy_of(alloc, name)?;
    let mut names = Vec::new(alloc);
    names.push(copy)?;
    Ok(names)
}

/// Returns the names, or the sample where there are none.
fn or_sample(alloc: Global, sample: &str, names: Vec<Txt>) -> Result<Vec<Txt>, AllocError>
    ensures { IfOk result (λ written. written.items ≡ offered.or_those names.items (sample.now ∷ [])) }
{
    let row = names.as_slice();
    let none = row.is_empty();
    if none {
        let single = alone(alloc, sample)?;
        return Ok(single);
    }
    Ok(names)
}

/// Returns the names of an answer that begin so, or all where none begins so; none where it was refused.
fn names_answered(
    alloc: Global,
    prefix: &[u8],
    told: Result<Vec<String>, Refusal>,
) -> Result<Vec<Txt>, AllocError>
    ensures { IfOk result (λ names. names.items ≡ offered.begun_or_all prefix.now (or_none (read_of told))) }
{
    match told {
        Ok(names) => {
            let row = names.as_slice();
            let kept = begun_or_all(alloc, prefix, row)?;
            Ok(kept)
        }
        Err(_) => Ok(Vec::new(alloc)),
    }
}

/// Returns the names that were given and begin so, or all where none begins so; none where none were given.
fn names_in(
    alloc: Global,
    prefix: &[u8],
    read: Option<Result<Vec<String>, Refusal>>,
) -> Result<Vec<Txt>, AllocError>
    ensures { IfOk result (λ names. names.items
        ≡ offered.begun_or_all prefix.now (lines_of (option_map read_of read))) }
{
    match read {
        Some(told) => {
            let names = names_answered(alloc, prefix, told)?;
            Ok(names)
        }
        None => Ok(Vec::new(alloc)),
    }
}

/// Returns the names with which the operator is written at the placeholder: those that fit and begin so, or all that
/// fit where none begins so, or the sample where none fits.
fn names_told<L: Ledger>(
    alloc: Global,
    open: Open,
    op: &str,
    steps: &mut Steps<L>,
) -> Result<Vec<Txt>, AllocError>
    requires { IsKnown open.known.program.language.now open.known.program.kind open.known.program.note.now
        open.known.wrong (option_copied open.known.repair) }
    ensures { IfOk result (λ names. offered.AreNamesTold open.entry.known.program.language.now
        open.entry.known.program.kind (tree_in open.entry.known.program.note.now) open.entry.spot.now op.now
        open.entry.sample.now open.entry.prefix.now names.items) }
{
    let mut files = SureFiles::new(alloc, Vec::new(alloc));
    let name = Txt::copy_of(alloc, op)?;
    let read = names_at(alloc, open.known, open.spot, name, &mut files, steps)?;
    let found = names_in(alloc, open.prefix, read)?;
    let names = or_sample(alloc, open.sample, found)?;
    Ok(names)
}

/// Returns the entries of the operator with each of the names.
fn entries_with(
    alloc: Global,
    open: Open,
    operator: &Operator,
    op: u32,
    names: &[Txt],
) -> Result<Vec<Entry>, AllocError>
    requires { operator_at open.known.program.language.now op ≡ Some operator.now }
    ensures { IfOk result (λ entries. entries.items ≡ offered.entries_with open.entry.known.program.language.now
        open.entry.least operator.now.name op names.now) }
{
    let definition = open.known.program.language.definition();
    let mut entries = Vec::new(alloc);
    for place in 0..names.len() {
        let name = name_at(names, place);
        let text = sample_text(alloc, definition, operator, op, open.least, name)?;
        let own = operator.name.share()?;
        entries.push(Entry {
            operator: own,
            text,
        })?;
    }
    Ok(entries)
}

/// Returns the one entry of the operator, with the sample.
fn one_entry(
    alloc: Global,
    open: Open,
    operator: &Operator,
    op: u32,
) -> Result<Vec<Entry>, AllocError>
    requires { operator_at open.known.program.language.now op ≡ Some operator.now }
    ensures { IfOk result (λ entries. entries.items ≡ offered.entries_with open.entry.known.program.language.now
        open.entry.least operator.now.name op (open.entry.sample.now ∷ [])) }
{
    let names = alone(alloc, open.sample)?;
    let row = names.as_slice();
    let entries = entries_with(alloc, open, operator, op, row)?;
    Ok(entries)
}

/// Returns the first names of a row, at most a hundred.
fn first_names(names: &[Txt]) -> &[Txt]
    ensures { result.now ≡ take offered.most_names names.now }
{
    if MOST_NAMES < names.len() {
        &names[..MOST_NAMES]
    } else {
        names
    }
}

/// Says whether there are more than a hundred names.
fn has_more(names: &[Txt]) -> bool
    ensures { result ≡ nat_lt offered.most_names (length names.now) }
{
    MOST_NAMES < names.len()
}

/// Returns the operator of the number, if there is one.
fn operator_in(definition: &Definition, op: u32) -> Option<&Operator>
    ensures { option_copied result ≡ operator_at definition.now op }
{
    definition.operators.as_slice().get(op as usize)
}

/// Returns the operator of the number.
fn operator_of(definition: &Definition, op: u32) -> &Operator
    requires { (operator : PlainOperator) × (operator_at definition.now op ≡ Some operator) }
    ensures { operator_at definition.now op ≡ Some result.now }
{
    match operator_in(definition, op) {
        Some(operator) => operator,
        None => unreachable!(),
    }
}

/// Returns the name of the number.
fn name_at(names: &[Txt], place: usize) -> &str
    requires { place < length names.now }
    ensures { slice_get names.now place ≡ Some result.now }
{
    names[place].as_str()
}

/// Returns what is offered of the operator of the number, which has this name.
fn offers_with<L: Ledger>(
    alloc: Global,
    open: Open,
    op: u32,
    name: &str,
    steps: &mut Steps<L>,
) -> Result<Offers, AllocError>
    requires known { IsKnown open.known.program.language.now open.known.program.kind open.known.program.note.now
        open.known.wrong (option_copied open.known.repair) }
    requires name { op_name_of open.known.program.language.now op ≡ Some name.now }
    ensures { IfOk result (offered.IsOfferedOf open.entry.known.program.language.now open.entry.known.program.kind
        (tree_in open.entry.known.program.note.now) open.entry.spot.now open.entry.least
        open.entry.sample.now open.entry.prefix.now name.now) }
{
    let definition = open.known.program.language.definition();
    let operator = operator_of(definition, op);
    let leaves = leaves_of(alloc, definition, name)?;
    let row = leaves.as_slice();
    let named = one_name(row);
    if named {
        let names = names_told(alloc, open, name, steps)?;
        let all = names.as_slice();
        let some = first_names(all);
        let entries = entries_with(alloc, open, operator, op, some)?;
        let more = has_more(all);
        return Ok(Offers { entries, more });
    }
    let single = one_entry(alloc, open, operator, op)?;
    Ok(Offers {
        entries: single,
        more: false,
    })
}

/// Returns what is offered of the operator of this name: an entry for each name with which it is written, where a name
/// that it uses is all that is typed, and else one entry with the sample.
fn offers_of<L: Ledger>(
    alloc: Global,
    open: Open,
    name: &str,
    steps: &mut Steps<L>,
) -> Result<Offers, AllocError>
    requires { IsKnown open.known.program.language.now open.known.program.kind open.known.program.note.now
        open.known.wrong (option_copied open.known.repair) }
    ensures { IfOk result (offered.IsOfferedOf open.entry.known.program.language.now open.entry.known.program.kind
        (tree_in open.entry.known.program.note.now) open.entry.spot.now open.entry.least
        open.entry.sample.now open.entry.prefix.now name.now) }
{
    let definition = open.known.program.language.definition();
    match op_named(definition, name) {
        Some(op) => {
            let offers = offers_with(alloc, open, op, name, steps)?;
            Ok(offers)
        }
        None => Ok(no_offers(alloc)),
    }
}

/// Returns no entries.
fn no_offers(alloc: Global) -> Offers
    ensures entries { result.entries.items ≡ [] }
    ensures more { result.more ≡ false }
{
    Offers {
        entries: Vec::new(alloc),
        more: false,
    }
}

/// Adds the entries.
fn push_all(entries: &mut Vec<Entry>, more: Vec<Entry>) -> Result<(), AllocError>
    ensures { OnOk result (entries.new.items ≡ entries.old.items ++ more.items) }
{
    let mut others = more;
    entries.append(&mut others)?;
    Ok(())
}

/// Adds what is offered after what is there.
fn push_offers(offers: &mut Offers, more: Offers) -> Result<(), AllocError>
    ensures { OnOk result (offered.AreJoined offers.old more offers.new) }
{
    let left = offers.more || more.more;
    push_all(&mut offers.entries, more.entries)?;
    offers.more = left;
    Ok(())
}

/// Returns what is offered of the operators, in their order.
fn offers_among<L: Ledger>(
    alloc: Global,
    open: Open,
    ops: &[String],
    steps: &mut Steps<L>,
) -> Result<Offers, AllocError>
    requires { IsKnown open.known.program.language.now open.known.program.kind open.known.program.note.now
        open.known.wrong (option_copied open.known.repair) }
    ensures { IfOk result (offered.AreOffersOf open.entry.known.program.language.now open.entry.known.program.kind
        (tree_in open.entry.known.program.note.now) open.entry.spot.now open.entry.least open.entry.sample.now
        open.entry.prefix.now (map string_bytes ops.now)) }
{
    let mut offers = no_offers(alloc);
    for op in ops {
        let name = op.as_str();
        let here = offers_of(alloc, open, name, steps)?;
        push_offers(&mut offers, here)?;
    }
    Ok(offers)
}

/// Returns what is offered of the operators of an answer; nothing where it was refused.
fn offers_answered<L: Ledger>(
    alloc: Global,
    open: Open,
    told: Result<Vec<String>, Refusal>,
    steps: &mut Steps<L>,
) -> Result<Offers, AllocError>
    requires { IsKnown open.known.program.language.now open.known.program.kind open.known.program.note.now
        open.known.wrong (option_copied open.known.repair) }
    ensures { IfOk result (offered.AreOffersOf open.entry.known.program.language.now open.entry.known.program.kind
        (tree_in open.entry.known.program.note.now) open.entry.spot.now open.entry.least open.entry.sample.now
        open.entry.prefix.now (or_none (read_of told))) }
{
    match told {
        Ok(ops) => {
            let row = ops.as_slice();
            let offers = offers_among(alloc, open, row, steps)?;
            Ok(offers)
        }
        Err(_) => Ok(no_offers(alloc)),
    }
}

/// Returns what is offered of the operators that were given; nothing where none were.
fn offers_told<L: Ledger>(
    alloc: Global,
    open: Open,
    read: Option<Result<Vec<String>, Refusal>>,
    steps: &mut Steps<L>,
) -> Result<Offers, AllocError>
    requires { IsKnown open.known.program.language.now open.known.program.kind open.known.program.note.now
        open.known.wrong (option_copied open.known.repair) }
    ensures { IfOk result (offered.AreOffersOf open.entry.known.program.language.now open.entry.known.program.kind
        (tree_in open.entry.known.program.note.now) open.entry.spot.now open.entry.least open.entry.sample.now
        open.entry.prefix.now (lines_of (option_map read_of read))) }
{
    match read {
        Some(told) => {
            let offers = offers_answered(alloc, open, told, steps)?;
            Ok(offers)
        }
        None => Ok(no_offers(alloc)),
    }
}

/// Returns what is offered at the placeholder: what the plain editor's `menu` lists, in its order.
pub(crate) fn offers_at<L: Ledger>(
    alloc: Global,
    open: Open,
    steps: &mut Steps<L>,
) -> Result<Offers, AllocError>
    requires { IsKnown open.known.program.language.now open.known.program.kind open.known.program.note.now
        open.known.wrong (option_copied open.known.repair) }
    ensures { IfOk result (offered.IsOfferedAt open.entry.known.program.language.now open.entry.known.program.kind
        (tree_in open.entry.known.program.note.now) open.entry.spot.now open.entry.least open.entry.sample.now
        open.entry.prefix.now) }
{
    let mut files = SureFiles::new(alloc, Vec::new(alloc));
    let read = menu_at(alloc, open.known, open.spot, &mut files, steps)?;
    let offers = offers_told(alloc, open, read, steps)?;
    Ok(offers)
}
