//! Saved fragments.
ghost use Rattle.std.specs.Prelude.{◌≡◌, ◌↔◌, ◌≤◌, ◌++◌, ◌∷◌, [], None, IfOk, IsTrue, bytes_eq, codes, length, map};
ghost use Rattle.std.specs.Prelude.{option_copied, string_bytes};
ghost use Rattle.psg_script.specs.declared.command.Command.TheVariants as commands;
ghost use Rattle.psg_session.specs.Outcomes.{IfFound, IsOutcome};
ghost use Rattle.psg_session.specs.PlainState.{not_asked};
ghost use Rattle.psg_session.specs.Sessions.{IsEditor};
ghost use Rattle.psg_session.specs.Shelf.{most_saved, others as others_of, saved_at, saved_with, IsFull};
ghost use Rattle.psg_session.specs.Views.{IsLanguage};

use crate::changes::kind_of;
use crate::editor::{Editor, Outcome};
use crate::finding::find;
use crate::refusal::Refusal;
use crate::stop::Stop;
use psg_library::SavedFragment;
use psg_script::Where;
use psg_specimen::LanguageParts;
use psg_terms::{Seq, Txt};
use std::alloc::{AllocError, Global};

/// How many fragments are saved at most.
pub const MOST_SAVED: usize = 64;

/// Says whether the fragment has the name.
fn has_name(saved: &SavedFragment, name: &Txt) -> bool
    ensures { result ≡ bytes_eq saved.now.name name.now }
{
    saved.name.as_str() == name.as_str()
}

/// Finds the saved fragment of the name, if there is one. It looks at each once.
pub fn saved_named<'a>(saved: &'a [SavedFragment], name: &Txt) -> Option<&'a SavedFragment>
    ensures { option_copied result ≡ saved_at saved.now name.now }
{
    for fragment in saved {
        if has_name(fragment, name) {
            return Some(fragment);
        }
    }
    None
}

/// Gives the saved fragments of other names, each with one more owner.
fn others(
    alloc: Global,
    saved: &[SavedFragment],
    name: &Txt,
) -> Result<Vec<SavedFragment>, AllocError>
    ensures { IfOk result (λ kept. kept.items ≡ others_of name.now saved.now) }
{
    let mut kept = Vec::new(alloc);
    for fragment in saved {
        if !has_name(fragment, name) {
            kept.push(fragment.share()?)?;
        }
    }
    Ok(kept)
}

/// Gives the saved fragments with one more, in place of the one of its name.
pub(crate) fn with_saved(
    alloc: Global,
    saved: &[SavedFragment],
    new: SavedFragment,
) -> Result<Seq<SavedFragment>, AllocError>
    ensures { IfOk result (λ kept. kept ≡ saved_with saved.now new) }
{
    let mut kept = others(alloc, saved, &new.name)?;
    kept.push(new)?;
    Ok(Seq::of(kept))
}

/// Says whether no saved fragment has the name.
fn is_new(saved: &[SavedFragment], name: &Txt) -> bool
    ensures { IsTrue result ↔ (saved_at saved.now name.now ≡ None) }
{
    match saved_named(saved, name) {
        Some(_) => false,
        None => true,
    }
}

/// Says whether as many fragments are saved as is allowed.
fn has_most(saved: &[SavedFragment]) -> bool
    ensures { IsTrue result ↔ (most_saved ≤ length saved.now) }
{
    MOST_SAVED <= saved.len()
}

/// Says whether no fragment of this new name can be saved, since as many as allowed are.
pub(crate) fn is_full(saved: &[SavedFragment], name: &Txt) -> bool
    ensures { IsTrue result ↔ IsFull saved.now name.now }
{
    if !is_new(saved, name) {
        return false;
    }
    has_most(saved)
}

/// Gives the reply to a save.
fn saved_lines(alloc: Global, name: &Txt) -> Result<Vec<String>, AllocError>
    ensures { IfOk result (λ lines. map string_bytes lines.items ≡ (codes "saved " ++ name.now) ∷ []) }
{
    let mut line = String::from_str(alloc, "saved ")?;
    line.push_str(name.as_str())?;
    let mut lines = Vec::new(alloc);
    lines.push(line)?;
    Ok(lines)
}

/// Finds what `save` does: the node at the place is saved under the name. It is refused with `NothingOpened` or
/// `NoNode` where there is no node, and with `ShelfFull` where there is no room for the name. It evaluates nothing,
/// makes one more owner of each saved fragment, and fails where memory runs out.
pub fn save(
    alloc: Global,
    language: &LanguageParts,
    editor: &Editor,
    name: &Txt,
    place: &Where,
) -> Result<Outcome, Stop>
    requires language { IsLanguage language.now }
    requires editor { IsEditor language.now.definition editor.now }
    ensures { IfFound result (IsOutcome language.now.definition editor.now not_asked
        (commands.Save name.now place.now)) }
{
    let found = find(editor, place)?;
    let shelf = editor.saved.as_slice();
    if is_full(shelf, name) {
        return Err(Stop::Refused(Refusal::ShelfFull));
    }
    let kind = kind_of(&language.definition, found.node);
    let own_name = name.share()?;
    let tree = found.node.share()?;
    let new = SavedFragment {
        name: own_name,
        kind,
        tree,
    };
    let saved = with_saved(alloc, shelf, new)?;
    let lines = saved_lines(alloc, name)?;
    Ok(Outcome::Saves(saved, lines))
}
