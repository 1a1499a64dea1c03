//! Saved fragments in files.
ghost use Rattle.std.specs.Prelude.{◌≡◌, ◌↔◌, ◌++◌, ◌∷◌, ℕ, [], IfOk, IsTrue, map, string_bytes};
ghost use Rattle.psg_terms.specs.Names.{Name};
ghost use Rattle.psg_grammar.specs.Sizes.{HasLongList, IsBig};
ghost use Rattle.psg_library.specs.Keeping.{MayCount};
ghost use Rattle.psg_script.specs.declared.command.Command.TheVariants as commands;
ghost use Rattle.psg_session.specs.Applied.{HasStopped};
ghost use Rattle.psg_session.specs.PlainState.{got};
ghost use Rattle.psg_session.specs.Outcomes.{IfFound, IsOutcome};
ghost use Rattle.psg_session.specs.Reached.{HasReached, IsFragmentAnswer};
ghost use Rattle.psg_session.specs.Sessions.{state_of, IsEditor};
ghost use Rattle.psg_session.specs.Stops.{IfMemory};
ghost use Rattle.psg_session.specs.Views.{IsLanguage};

use crate::editor::{Editor, Outcome};
use crate::refusal::Refusal;
use crate::replies::Reply;
use crate::saved::{is_full, saved_named, with_saved};
use crate::stop::Stop;
use psg_grammar::{MOST_ELEMENTS, MOST_NODES};
use psg_library::{SavedFragment, fragment_bytes, read_fragment};
use psg_specimen::LanguageParts;
use psg_terms::{Steps, Txt};
use psg_tree::{Tree, longest_list, nodes};
use psg_world::{Files, ReadStop, WriteStop};
use std::alloc::{AllocError, Global};
use std::sync::ledger::Ledger;

/// The most bytes of a kept fragment.
pub const MOST_KEPT_BYTES: usize = 262_144;

/// Gives the one line of a reply: the word and the name.
fn named_line(alloc: Global, word: &str, name: &str) -> Result<Vec<String>, AllocError>
    ensures { IfOk result (λ lines. map string_bytes lines.items ≡ (word.now ++ name.now) ∷ []) }
{
    let mut line = String::from_str(alloc, word)?;
    line.push_str(name)?;
    let mut lines = Vec::new(alloc);
    lines.push(line)?;
    Ok(lines)
}

/// Finds what `keep` does: the saved fragment of the name is written to the file. It is refused with `NoFragment` where
/// no saved fragment has the name, with `TooBig` where its bytes are more than a file may have, and with `ShelfFault`
/// where the file is not written. It fails where memory runs out. Where it does not end with a reply, each file is as
/// before. Its time is that of printing the fragment and of the write.
pub fn keep<F: Files>(
    alloc: Global,
    language: &LanguageParts,
    editor: &Editor,
    name: &Txt,
    file: &Txt,
    files: &mut F,
) -> Result<Outcome, Stop>
    requires language { IsLanguage language.now }
    requires editor { IsEditor language.now.definition editor.now }
    ensures reached { (count : ℕ) → IfFound result (HasReached language.now.definition editor.now
        (commands.Keep name.now file.now)
        (record { held = F.holds files.old; entries = F.faults files.old })
        (record { held = F.holds files.new; entries = F.faults files.new })
        count count) }
    ensures stopped { (count : ℕ) → IfMemory result (HasStopped language.now.definition (state_of editor.now)
        (commands.Keep name.now file.now)
        (record { held = F.holds files.old; entries = F.faults files.old })
        (record { held = F.holds files.new; entries = F.faults files.new })
        count count) }
{
    let Some(saved) = saved_named(editor.saved.as_slice(), name) else {
        return Err(Stop::Refused(Refusal::NoFragment));
    };
    let definition = &language.definition;
    let own_name = saved.name.as_str();
    let bytes = fragment_bytes(alloc, definition, own_name, saved.kind, &saved.tree)?;
    let word = name.as_str();
    let lines = named_line(alloc, "kept ", word)?;
    let shown = bytes.as_slice();
    if shown.len() > MOST_KEPT_BYTES {
        return Err(Stop::Refused(Refusal::TooBig));
    }
    let to = file.as_str();
    match files.replace(alloc, to, shown) {
        Ok(()) => Ok(Outcome::Stays(Reply::Answered(lines))),
        Err(WriteStop::Failed) => Err(Stop::Refused(Refusal::ShelfFault)),
        Err(WriteStop::Memory) => Err(Stop::Memory),
    }
}

/// Says whether a list of the tree has too many elements. It takes one step.
#[tactic(auto, using(psg_cache::proofs::LongLists::long_lists))]
fn has_long_list(tree: &Tree) -> bool
    ensures { IsTrue result ↔ HasLongList tree.now }
{
    longest_list(tree) > MOST_ELEMENTS
}

/// Says whether the tree has too many nodes, or a list of it too many elements. It takes one step.
fn is_big(tree: &Tree) -> bool
    ensures { IsTrue result ↔ IsBig tree.now }
{
    if nodes(tree) > MOST_NODES {
        return true;
    }
    has_long_list(tree)
}

/// Reads the fragment that the bytes of a file keep. It is refused with `KeptUnreadable` where they are too many or
/// keep none, and with `TooBig` where its tree has too many nodes or elements. It takes a step of the counter for each
/// token of the text, and fails where memory runs out.
fn read_kept<L: Ledger>(
    alloc: Global,
    language: &LanguageParts,
    bytes: &[u8],
    steps: &mut Steps<L>,
) -> Result<SavedFragment, Stop>
    requires language { IsLanguage language.now }
    ensures fragment { IsFragmentAnswer language.now.definition bytes.now result }
    ensures read { MayCount language.now.definition bytes.now steps.old steps.new }
{
    if bytes.len() > MOST_KEPT_BYTES {
        return Err(Stop::Refused(Refusal::KeptUnreadable));
    }
    let definition = &language.definition;
    let saved = read_fragment(
        alloc,
        definition,
        &language.lexis,
        &language.table,
        bytes,
        steps,
    )?;
    if is_big(&saved.tree) {
        return Err(Stop::Refused(Refusal::TooBig));
    }
    Ok(saved)
}

/// Finds what a fetch does that got these bytes. It is refused as `read_kept` says, and with `ShelfFull` where there is
/// no room for the name.
fn take_in<L: Ledger>(
    alloc: Global,
    language: &LanguageParts,
    editor: &Editor,
    bytes: &[u8],
    steps: &mut Steps<L>,
) -> Result<Outcome, Stop>
    requires language { IsLanguage language.now }
    requires editor { IsEditor language.now.definition editor.now }
    ensures outcome { (file : Name) → IfFound result (IsOutcome language.now.definition editor.now (got bytes.now)
        (commands.Fetch file)) }
    ensures read { MayCount language.now.definition bytes.now steps.old steps.new }
{
    let saved = read_kept(alloc, language, bytes, steps)?;
    let shelf = editor.saved.as_slice();
    if is_full(shelf, &saved.name) {
        return Err(Stop::Refused(Refusal::ShelfFull));
    }
    let word = saved.name.as_str();
    let lines = named_line(alloc, "fetched ", word)?;
    let kept = with_saved(alloc, shelf, saved)?;
    Ok(Outcome::Saves(kept, lines))
}

/// Finds what `fetch` does: the fragment that the file keeps is saved under its name. It is refused with `ShelfFault`
/// where the file is not read, with `KeptUnreadable` where its bytes are too many or keep no fragment of the language,
/// with `TooBig` where the tree has too many nodes or elements, and with `ShelfFull` where there is no room for the
/// name. It takes a step of the counter for each token of the text, evaluates nothing, and fails where memory runs out.
pub fn fetch<F: Files, L: Ledger>(
    alloc: Global,
    language: &LanguageParts,
    editor: &Editor,
    file: &Txt,
    files: &mut F,
    steps: &mut Steps<L>,
) -> Result<Outcome, Stop>
    requires language { IsLanguage language.now }
    requires editor { IsEditor language.now.definition editor.now }
    ensures reached { IfFound result (HasReached language.now.definition editor.now (commands.Fetch file.now)
        (record { held = F.holds files.old; entries = F.faults files.old })
        (record { held = F.holds files.new; entries = F.faults files.new })
        steps.old steps.new) }
    ensures stopped { IfMemory result (HasStopped language.now.definition (state_of editor.now)
        (commands.Fetch file.now)
        (record { held = F.holds files.old; entries = F.faults files.old })
        (record { held = F.holds files.new; entries = F.faults files.new })
        steps.old steps.new) }
{
    let from = file.as_str();
    let bytes = match files.read(alloc, from, MOST_KEPT_BYTES) {
        Ok(bytes) => bytes,
        Err(ReadStop::Failed) => return Err(Stop::Refused(Refusal::ShelfFault)),
        Err(ReadStop::Memory) => return Err(Stop::Memory),
    };
    let shown = bytes.as_slice();
    take_in(alloc, language, editor, shown, steps)
}
