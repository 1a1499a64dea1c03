//! What may follow tokens that begin a program, in words.
ghost use Rattle.std.specs.Prelude.{◌≡◌, ◌↔◌, ◌++◌, ◌∷◌, [], IfOk, IsTrue, List, OnOk, map, string_bytes, true};
ghost use Rattle.psg_class.specs.Terminals.{a_hole, a_more, a_name, a_number, a_text, fixed};
ghost use Rattle.psg_program.specs.Expected.{AreTold, AreToldBoth, IsAdded, IsEndTold, terminals_in_order, told_of};
ghost use Rattle.psg_stop.specs.Wanted.{hole_terminal, wanted_terminal, wanted_terminals, word_terminal};
ghost use Rattle.psg_terms.specs.Relations.{IsIn};

use crate::words::sorted_words;
use psg_grammar::{Definition, Phylum};
use psg_stop::{Stop, Wanted};
use psg_terms::Txt;
use std::alloc::{AllocError, Global};

// ---- kinds of tokens

fn is_fixed(text: &Txt, other: &Wanted) -> bool
    ensures { IsTrue result ↔ (fixed text.now ≡ wanted_terminal other.now) }
{
    match other {
        Wanted::Fixed(own) => text.same(own),
        Wanted::Name => false,
        Wanted::Number => false,
        Wanted::Text => false,
        Wanted::Hole(_) => false,
        Wanted::More => false,
    }
}

fn is_name(other: &Wanted) -> bool
    ensures { IsTrue result ↔ (a_name ≡ wanted_terminal other.now) }
{
    match other {
        Wanted::Fixed(_) => false,
        Wanted::Name => true,
        Wanted::Number => false,
        Wanted::Text => false,
        Wanted::Hole(_) => false,
        Wanted::More => false,
    }
}

fn is_number(other: &Wanted) -> bool
    ensures { IsTrue result ↔ (a_number ≡ wanted_terminal other.now) }
{
    match other {
        Wanted::Fixed(_) => false,
        Wanted::Name => false,
        Wanted::Number => true,
        Wanted::Text => false,
        Wanted::Hole(_) => false,
        Wanted::More => false,
    }
}

fn is_text(other: &Wanted) -> bool
    ensures { IsTrue result ↔ (a_text ≡ wanted_terminal other.now) }
{
    match other {
        Wanted::Fixed(_) => false,
        Wanted::Name => false,
        Wanted::Number => false,
        Wanted::Text => true,
        Wanted::Hole(_) => false,
        Wanted::More => false,
    }
}

fn is_hole(phylum: &Txt, other: &Wanted) -> bool
    ensures { IsTrue result ↔ (a_hole phylum.now ≡ wanted_terminal other.now) }
{
    match other {
        Wanted::Fixed(_) => false,
        Wanted::Name => false,
        Wanted::Number => false,
        Wanted::Text => false,
        Wanted::Hole(own) => phylum.same(own),
        Wanted::More => false,
    }
}

fn is_more(other: &Wanted) -> bool
    ensures { IsTrue result ↔ (a_more ≡ wanted_terminal other.now) }
{
    match other {
        Wanted::Fixed(_) => false,
        Wanted::Name => false,
        Wanted::Number => false,
        Wanted::Text => false,
        Wanted::Hole(_) => false,
        Wanted::More => true,
    }
}

/// Says whether both are the same kind of token.
fn is_same(one: &Wanted, other: &Wanted) -> bool
    ensures { IsTrue result ↔ (wanted_terminal one.now ≡ wanted_terminal other.now) }
{
    match one {
        Wanted::Fixed(text) => is_fixed(text, other),
        Wanted::Name => is_name(other),
        Wanted::Number => is_number(other),
        Wanted::Text => is_text(other),
        Wanted::Hole(phylum) => is_hole(phylum, other),
        Wanted::More => is_more(other),
    }
}

/// Says whether this kind of token is among those.
fn is_among(one: &Wanted, all: &[Wanted]) -> bool
    ensures { IsTrue result ↔ IsIn (wanted_terminal one.now) (wanted_terminals all.now) }
{
    for other in all {
        let same = is_same(one, other);
        if same {
            return true;
        }
    }
    false
}

// ---- in the order in which they are reported

fn add_words(all: &mut Vec<Wanted>, words: &[Txt]) -> Result<(), AllocError>
    ensures { OnOk result (wanted_terminals all.new.items
        ≡ wanted_terminals all.old.items ++ map word_terminal words.now) }
{
    for word in words {
        let text = word.share()?;
        all.push(Wanted::Fixed(text))?;
    }
    Ok(())
}

fn add_leaves(all: &mut Vec<Wanted>) -> Result<(), AllocError>
    ensures { OnOk result (wanted_terminals all.new.items
        ≡ wanted_terminals all.old.items ++ (a_name ∷ a_number ∷ a_text ∷ [])) }
{
    all.push(Wanted::Name)?;
    all.push(Wanted::Number)?;
    all.push(Wanted::Text)?;
    Ok(())
}

fn add_holes(all: &mut Vec<Wanted>, phyla: &[Phylum]) -> Result<(), AllocError>
    ensures { OnOk result (wanted_terminals all.new.items
        ≡ wanted_terminals all.old.items ++ map hole_terminal phyla.now) }
{
    for phylum in phyla {
        let name = phylum.name.share()?;
        all.push(Wanted::Hole(name))?;
    }
    Ok(())
}

/// Returns all that a token of a program can be, in the order in which it is reported.
fn in_order(alloc: Global, definition: &Definition) -> Result<Vec<Wanted>, AllocError>
    ensures { IfOk result (λ all. wanted_terminals all.items ≡ terminals_in_order definition.now) }
{
    let words = sorted_words(alloc, definition)?;
    let mut all = Vec::new(alloc);
    add_words(&mut all, words.as_slice())?;
    add_leaves(&mut all)?;
    add_holes(&mut all, definition.phyla.as_slice())?;
    all.push(Wanted::More)?;
    Ok(all)
}

// ---- in words

/// Writes what is reported about the kind of token.
fn told(alloc: Global, one: &Wanted) -> Result<String, AllocError>
    ensures { IfOk result (λ text. string_bytes text ≡ told_of (wanted_terminal one.now)) }
{
    match one {
        Wanted::Fixed(text) => format!(in alloc; "`{}`", text.as_str()),
        Wanted::Name => String::from_str(alloc, "a name"),
        Wanted::Number => String::from_str(alloc, "a number"),
        Wanted::Text => String::from_str(alloc, "a text"),
        Wanted::Hole(phylum) => format!(in alloc; "`?{}`", phylum.as_str()),
        Wanted::More => String::from_str(alloc, "`...`"),
    }
}

/// Adds what is reported about the kind of token, if it is wanted.
fn tell_if(
    alloc: Global,
    one: &Wanted,
    wanted: &[Wanted],
    words: &mut Vec<String>,
) -> Result<(), AllocError>
    ensures { OnOk result (IsAdded (AreTold (λ t. IsIn t (wanted_terminals wanted.now)) (wanted_terminal one.now ∷ []))
        (map string_bytes words.old.items) (map string_bytes words.new.items)) }
{
    let goes = is_among(one, wanted);
    if !goes {
        return Ok(());
    }
    let word = told(alloc, one)?;
    words.push(word)?;
    Ok(())
}

/// Returns what is reported about those of the kinds of tokens that are wanted.
fn told_words(alloc: Global, all: &[Wanted], wanted: &[Wanted]) -> Result<Vec<String>, AllocError>
    ensures { IfOk result (λ words. AreTold (λ t. IsIn t (wanted_terminals wanted.now)) (wanted_terminals all.now)
        (map string_bytes words.items)) }
{
    let mut words = Vec::new(alloc);
    for one in all {
        tell_if(alloc, one, wanted, &mut words)?;
    }
    Ok(words)
}

/// Adds that the text may end, if it may.
fn tell_end(alloc: Global, may_end: bool, words: &mut Vec<String>) -> Result<(), AllocError>
    ensures { OnOk result (IsAdded (IsEndTold (may_end ≡ true)) (map string_bytes words.old.items)
        (map string_bytes words.new.items)) }
{
    if !may_end {
        return Ok(());
    }
    let end = String::from_str(alloc, "the end of the text")?;
    words.push(end)?;
    Ok(())
}

/// Returns what may be at the stop, in words: the fixed words in the order of their bytes, then names, numbers and
/// texts, the placeholders in the order of the phyla, the mark `...`, and the end of the text. It compares each kind of
/// token with each that is wanted.
pub fn expected_words(
    alloc: Global,
    definition: &Definition,
    stop: &Stop,
) -> Result<Vec<String>, AllocError>
    ensures { IfOk result (λ words. AreToldBoth (λ t. IsIn t (wanted_terminals stop.now.wanted.items))
        (stop.now.may_end ≡ true) (terminals_in_order definition.now) (map string_bytes words.items)) }
{
    let all = in_order(alloc, definition)?;
    let mut words = told_words(alloc, all.as_slice(), stop.wanted.as_slice())?;
    tell_end(alloc, stop.may_end, &mut words)?;
    Ok(words)
}
