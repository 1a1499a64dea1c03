//! All that the parser looks up of a definition, made once.
ghost use Rattle.std.specs.Prelude.{◌≡◌, ◌<◌, ◌↔◌, ◌++◌};
ghost use Rattle.std.specs.Prelude.{ℕ, Bool, true, IfOk, MatchOption, None, OnOk, Some, length, slice_get, vec_len};
ghost use Rattle.psg_grammar.specs.declared.types.Kind.TheVariants as kinds;
ghost use Rattle.psg_grammar.specs.Sound.{IsSound};
ghost use Rattle.psg_grammar.specs.WellFormed.{fixed_words, separators, words_in};
ghost use Rattle.psg_grammar.specs.Declaring.{HasHoles};
ghost use Rattle.psg_class.specs.Terminals.{Terminal, item_terminal};
ghost use Rattle.psg_parse.specs.Lookups.{Finds, Has, PutsAt, opener_at, terminal_at};
ghost use Rattle.psg_parse.specs.Tables.{IsParseTable};

use crate::lookup::{Openers, without_marks};
use psg_grammar::{Definition, Item, ListKind, Operator, declaring};
use psg_lexis::Lexis;
use psg_terms::Txt;
use std::alloc::{AllocError, Global};

/// What the parser looks up of a definition: its fixed words, which phyla have placeholders, and its operators by
/// tokens.
#[derive(Drop)]
pub struct ParseTable {
    pub(crate) lexis: Lexis,
    /// For each phylum whether it has placeholders.
    pub(crate) holes: Vec<bool>,
    /// For each phylum the operators that begin with a token.
    pub(crate) leading: Vec<Openers>,
    /// For each phylum those that begin with a slot, by the token after it.
    pub(crate) led: Vec<Openers>,
}

/// The item by which operators are looked up.
#[derive(Clone, Copy)]
pub(crate) enum Place {
    First,
    /// The second one, where the first is a slot.
    BehindSlot,
}

impl ParseTable {
    /// Makes the table of the definition. It takes a step for each byte of the fixed words, and one for each item. It
    /// fails where memory runs out.
    pub fn of(alloc: Global, definition: &Definition) -> Result<ParseTable, AllocError>
        requires { IsSound definition.now }
        ensures { IfOk result (IsParseTable definition.now) }
    {
        let words = fixed_words(alloc, definition)?;
        Ok(ParseTable {
            lexis: Lexis::new(alloc, words.as_slice())?,
            holes: holes(alloc, definition)?,
            leading: openers(alloc, definition, Place::First)?,
            led: openers(alloc, definition, Place::BehindSlot)?,
        })
    }
}

/// Collects the fixed words of the definition: the words of the operators in order, and then the separators of the
/// lists. Some may be in the list twice. It goes over all operators and lists, shares each text, and fails where memory
/// runs out.
pub fn fixed_words(alloc: Global, definition: &Definition) -> Result<Vec<Txt>, AllocError>
    ensures { IfOk result (λ words. words.items ≡ fixed_words definition.now) }
{
    let mut words = Vec::new(alloc);
    for operator in definition.operators.as_slice() {
        add_words(&mut words, operator.items.as_slice())?;
    }
    add_separators(&mut words, definition.lists.as_slice())?;
    Ok(words)
}

fn add_words(words: &mut Vec<Txt>, items: &[Item]) -> Result<(), AllocError>
    ensures { OnOk result (words.new.items ≡ words.old.items ++ words_in items.now) }
{
    for item in items {
        if let Item::Word(word) = item {
            words.push(word.share()?)?;
        }
    }
    Ok(())
}

fn add_separators(words: &mut Vec<Txt>, lists: &[ListKind]) -> Result<(), AllocError>
    ensures { OnOk result (words.new.items ≡ words.old.items ++ separators lists.now) }
{
    for list in lists {
        words.push(list.separator.share()?)?;
    }
    Ok(())
}

/// Says of each phylum whether it has placeholders: where it declares in no space.
fn holes(alloc: Global, definition: &Definition) -> Result<Vec<bool>, AllocError>
    requires { IsSound definition.now }
    ensures count { IfOk result (λ holes. vec_len holes ≡ length definition.now.phyla) }
    ensures exact { IfOk result (λ holes. (p : ℕ) (b : Bool) → slice_get holes.items p ≡ Some b
        → (b ≡ true) ↔ HasHoles definition.now (kinds.Phylum p)) }
{
    let declared = declaring(alloc, definition)?;
    let mut holes = Vec::with_capacity(alloc, declared.len())?;
    for spaces in &declared {
        holes.push(spaces.as_slice().is_empty())?;
    }
    Ok(holes)
}

/// Returns the item of the operator at the place.
fn item_at<'a>(operator: &'a Operator, place: Place) -> Option<&'a Item>
    ensures { MatchOption result (terminal_at place operator.now ≡ None)
        (λ item. terminal_at place operator.now ≡ item_terminal item.now) }
{
    let Some((first, behind)) = without_marks(operator.items.as_slice()).split_first() else {
        return None;
    };
    if let Place::First = place {
        return Some(first);
    }
    let Item::Slot(_) = first else {
        return None;
    };
    without_marks(behind).first()
}

/// Collects for each phylum its operators by the token at the place.
fn openers(alloc: Global, definition: &Definition, place: Place) -> Result<Vec<Openers>, AllocError>
    requires { IsSound definition.now }
    ensures { IfOk result (λ found. (p : ℕ) (terminal : Terminal)
        → Finds (λ n. Has definition.now place p n terminal) (opener_at found.items p terminal)) }
{
    let mut found = no_openers(alloc, definition.phyla.as_slice().len())?;
    let operators = definition.operators.as_slice();
    for n in 0..operators.len() {
        let operator = &operators[n];
        let Some(item) = item_at(operator, place) else {
            continue;
        };
        put_at(alloc, &mut found, operator.phylum, item, n as u32)?;
    }
    Ok(found)
}

fn no_openers(alloc: Global, count: usize) -> Result<Vec<Openers>, AllocError>
    ensures count { IfOk result (λ found. vec_len found ≡ count) }
    ensures empty { IfOk result (λ found. (p : ℕ) (terminal : Terminal) → opener_at found.items p terminal ≡ None) }
{
    let mut found = Vec::with_capacity(alloc, count)?;
    for _ in 0..count {
        found.push(Openers::new(alloc))?;
    }
    Ok(found)
}

fn put_at(
    alloc: Global,
    found: &mut Vec<Openers>,
    phylum: u32,
    item: &Item,
    op: u32,
) -> Result<(), AllocError>
    requires { phylum < vec_len found.old }
    ensures count { vec_len found.new ≡ vec_len found.old }
    ensures puts { OnOk result (PutsAt found.old.items phylum item.now op found.new.items) }
{
    let openers = &mut found[phylum as usize];
    openers.put(alloc, item, op)?;
    Ok(())
}
