//! What may be put in place of the word at a byte of a text.
ghost use Rattle.std.specs.Prelude.{◌≡◌, ◌≤◌, ◌||◌, IfOk, Some, length};
ghost use Rattle.psg_asking.specs.Asked.{IsKnown};
ghost use Rattle.psg_cache.specs.Annotated.{tree_in};
ghost use Rattle.psg_completing.specs.Fillings.{Fits, IsFirst, fillings as all_fillings};
ghost use Rattle.psg_completing.specs.Fitted.{IsFitted};
ghost use Rattle.psg_completing.specs.Offering as offered;
ghost use Rattle.psg_completing.specs.Offering.{IsCompletion};
ghost use Rattle.psg_completing.specs.Around.{is_word as is_word_of};
ghost use Rattle.psg_lexis.specs.Classes.{is_symbol as is_symbol_of};

use crate::around::{Word, is_word, word_around};
use crate::fillings::{Side, before, behind};
use crate::fitting::{Fitted, first_fit};
use crate::naming::sample_name;
use crate::offering::{Entry, Offers, Open, offers_at};
use crate::wanted::least_at;
use psg_grammar::{Definition, Kind};
use psg_keymap::Spot;
use psg_pointing::{Judged, judged_of, own_byte, whole_byte};
use psg_program::unmarked;
use psg_specimen::Language;
use psg_terms::{Steps, Txt};
use psg_tree::Path;
use std::alloc::{AllocError, Global};
use std::sync::ledger::Ledger;

/// What may be put in place of a word of a text.
#[derive(Drop)]
pub struct Completion {
    /// The byte where the word begins, with a `?` in front of it.
    pub from: usize,
    /// The byte after its last one.
    pub to: usize,
    /// What is written before the text of each entry.
    pub before: Txt,
    /// What is written after it.
    pub behind: Txt,
    /// What may be put there.
    pub entries: Vec<Entry>,
    /// Whether some names more fit there.
    pub incomplete: bool,
}

/// The word of a text, and its bytes in the whole text.
#[derive(Clone, Copy)]
struct Target {
    word: Word,
    from: usize,
    to: usize,
}

/// Says whether the byte is a symbol of those that run together.
fn is_symbol(byte: u8) -> bool
    ensures { result ≡ is_symbol_of byte }
{
    "+-*/%<>=!&|^~:.@#$"
        .as_bytes()
        .iter()
        .any(|symbol| byte == *symbol)
}

/// Says whether the byte runs together with one beside it.
fn is_close(byte: u8) -> bool
    ensures { result ≡ (is_symbol_of byte || is_word_of byte) }
{
    is_symbol(byte) || is_word(byte)
}

/// Says whether a byte that runs together with others is at the place.
fn is_close_at(text: &[u8], place: usize) -> bool
    ensures { result ≡ offered.is_close_at text.now place }
{
    match text.get(place) {
        Some(byte) => is_close(*byte),
        None => false,
    }
}

/// Says whether such a byte is before the place.
fn is_close_before(text: &[u8], place: usize) -> bool
    ensures { result ≡ offered.is_close_before text.now place }
{
    match place.checked_sub(1) {
        Some(last) => is_close_at(text, last),
        None => false,
    }
}

/// Returns what is put before a text in place of the word.
fn put_before(
    alloc: Global,
    definition: &Definition,
    own: &[u8],
    word: Word,
    side: Side,
) -> Result<Txt, AllocError>
    ensures { IfOk result (λ text. text ≡ offered.put_before definition.now own.now word side) }
{
    let text = before(alloc, definition, side)?;
    let close = is_close_before(own, word.from);
    if close {
        let mut spaced = String::from_str(alloc, " ")?;
        spaced.push_str(text.as_str())?;
        let put = Txt::of(alloc, spaced)?;
        return Ok(put);
    }
    let put = Txt::of(alloc, text)?;
    Ok(put)
}

/// Returns what is put after it.
fn put_behind(
    alloc: Global,
    definition: &Definition,
    own: &[u8],
    word: Word,
    side: Side,
) -> Result<Txt, AllocError>
    ensures { IfOk result (λ text. text ≡ offered.put_behind definition.now own.now word side) }
{
    let mut text = behind(alloc, definition, side)?;
    let close = is_close_at(own, word.to);
    if close {
        text.push(' ')?;
    }
    let put = Txt::of(alloc, text)?;
    Ok(put)
}

/// Returns what names begin with: the word, unless it has a `?` in front of it.
fn prefix_of(own: &[u8], word: Word) -> &[u8]
    requires order { word.from ≤ word.to }
    requires within { word.to ≤ length own.now }
    ensures { result.now ≡ offered.prefix_of own.now word }
{
    if word.from < word.inner {
        &[]
    } else {
        &own[word.from..word.to]
    }
}

/// Returns what is offered at the placeholder of the program.
fn offers_in<L: Ledger>(
    alloc: Global,
    language: &Language,
    kind: Kind,
    judged: &Judged,
    path: Path,
    prefix: &[u8],
    steps: &mut Steps<L>,
) -> Result<Offers, AllocError>
    requires { IsKnown language.now kind judged.now.note judged.now.wrong judged.now.repair }
    ensures { IfOk result (offered.AreOffersIn language.now kind (tree_in judged.now.note) path prefix.now) }
{
    let tree = judged.note.tree();
    let definition = language.definition();
    let least = least_at(alloc, definition, tree, &path)?;
    let spot = Spot {
        target: path,
        place: None,
    };
    let known = judged.known(language, kind);
    let name = sample_name(alloc, language)?;
    let sample = name.as_str();
    let open = Open {
        known,
        spot: &spot,
        least,
        sample,
        prefix,
    };
    let offers = offers_at(alloc, open, steps)?;
    Ok(offers)
}

/// Returns that nothing may be put in place of the word.
fn nothing(alloc: Global, target: Target) -> Result<Completion, AllocError>
    ensures { IfOk result (offered.IsEmpty target.from target.to) }
{
    let before = Txt::copy_of(alloc, "")?;
    let behind = Txt::copy_of(alloc, "")?;
    Ok(Completion {
        from: target.from,
        to: target.to,
        before,
        behind,
        entries: Vec::new(alloc),
        incomplete: false,
    })
}

/// Returns what may be put in place of the word, by the program that was read with a filling there.
fn completed_by<L: Ledger>(
    alloc: Global,
    language: &Language,
    kind: Kind,
    own: &[u8],
    target: Target,
    fit: Fitted,
    steps: &mut Steps<L>,
) -> Result<Completion, AllocError>
    requires order { target.word.from ≤ target.word.to }
    requires within { target.word.to ≤ length own.now }
    requires fitted { IsFitted language.now kind own.now target.word fit.filling fit }
    requires first { IsFirst (Fits language.now kind own.now target.word) (all_fillings language.now)
        (Some fit.filling) }
    ensures { IfOk result (offered.IsCompletedAt language.now kind own.now target.word target.from target.to) }
{
    let Fitted {
        filling,
        program,
        path,
    } = fit;
    let found = judged_of(alloc, language, kind, program, steps)?;
    match found {
        Some(judged) => {
            let prefix = prefix_of(own, target.word);
            let offers = offers_in(alloc, language, kind, &judged, path, prefix, steps)?;
            let definition = language.definition();
            let before = put_before(alloc, definition, own, target.word, filling.side)?;
            let behind = put_behind(alloc, definition, own, target.word, filling.side)?;
            Ok(Completion {
                from: target.from,
                to: target.to,
                before,
                behind,
                entries: offers.entries,
                incomplete: offers.more,
            })
        }
        None => {
            let empty = nothing(alloc, target)?;
            Ok(empty)
        }
    }
}

/// Returns what may be put in place of the word.
fn completed<L: Ledger>(
    alloc: Global,
    language: &Language,
    kind: Kind,
    own: &[u8],
    target: Target,
    steps: &mut Steps<L>,
) -> Result<Completion, AllocError>
    requires order { target.word.from ≤ target.word.to }
    requires within { target.word.to ≤ length own.now }
    ensures { IfOk result (offered.IsCompletedAt language.now kind own.now target.word target.from target.to) }
{
    let found = first_fit(alloc, language, kind, own, target.word, steps)?;
    match found {
        Some(fit) => {
            let made = completed_by(alloc, language, kind, own, target, fit, steps)?;
            Ok(made)
        }
        None => {
            let empty = nothing(alloc, target)?;
            Ok(empty)
        }
    }
}

/// Returns the byte, or the end of the text where that is before it.
fn inside(own: &[u8], byte: usize) -> usize
    ensures is { result ≡ offered.inside own.now byte }
    ensures within { result ≤ length own.now }
{
    own.len().min(byte)
}

/// Returns what may be put in place of the word at a byte of a text that is to be a program of the kind, with a `?` in
/// front of the word. The word is replaced by a placeholder of each phylum in turn, alone and beside a separator. The
/// first of these with which the text is a program counts; where there is none, and where that program passes a limit
/// of the evaluator, there are no entries.
///
/// The entries are what the plain editor's `menu` lists for that placeholder, in its order; of a wrong program that of
/// the repaired one. An operator of which only a name that it uses is typed has an entry for each name that fits and
/// begins with the word, or for each name that fits where none begins so, at most a hundred. Each other one, and one
/// that no name fits, has one entry, in which names are `name`, numbers 0 and texts empty. Where `name` is a fixed word
/// of the language, names have as many `_` after it as make it none. Bytes are those of the whole text, with a byte
/// order mark.
///
/// `steps` counts the tokens and the evaluations. It fails where memory runs out. It takes a reading of the text for
/// each placeholder that is tried, an evaluation of each node, of a wrong program the search for its blamed places, and
/// the questions.
pub fn completion_at<L: Ledger>(
    alloc: Global,
    language: &Language,
    kind: Kind,
    text: &[u8],
    byte: usize,
    steps: &mut Steps<L>,
) -> Result<Completion, AllocError>
    ensures { IfOk result (IsCompletion language.now kind text.now byte) }
{
    let own = unmarked(text);
    let first = own_byte(text, byte);
    let place = inside(own, first);
    let word = word_around(own, place);
    let from = whole_byte(text, word.from);
    let to = whole_byte(text, word.to);
    let target = Target { word, from, to };
    let made = completed(alloc, language, kind, own, target, steps)?;
    Ok(made)
}
