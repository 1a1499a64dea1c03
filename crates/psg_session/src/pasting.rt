//! Saved fragments put into the opened one.
ghost use Rattle.std.specs.Prelude.{◌≡◌, ◌↔◌, ℕ, Some, None, IfErr, IfOk, IsTrue};
ghost use Rattle.psg_grammar.specs.Fragments.{hole};
ghost use Rattle.psg_cache.specs.Notes.{IsFormed};
ghost use Rattle.psg_script.specs.declared.command.Command.TheVariants as commands;
ghost use Rattle.psg_session.specs.Outcomes.{IsNoSource, IsPlan, IsSource};
ghost use Rattle.psg_session.specs.PlainStep.{IsEmptyPlace};
ghost use Rattle.psg_session.specs.Sessions.{IsEditor};
ghost use Rattle.psg_session.specs.Views.{IsLanguage};

use crate::changes::{Proposal, as_list, copied, hole_phylum, kind_of, longer, put};
use crate::editor::Editor;
use crate::edits::Edit;
use crate::finding::{Target, find};
use crate::judging::Trial;
use crate::refusal::Refusal;
use crate::saved::saved_named;
use crate::stop::Stop;
use psg_grammar::{Definition, Kind};
use psg_library::SavedFragment;
use psg_script::Where;
use psg_specimen::LanguageParts;
use psg_terms::Txt;
use psg_tree::Tree;
use std::alloc::Global;

/// A saved fragment, and the node to which it is pasted.
#[derive(Clone, Copy)]
pub struct Source<'a> {
    /// The saved fragment.
    pub saved: &'a SavedFragment,
    /// The node at which it is pasted.
    pub found: Target<'a>,
}

/// Finds the saved fragment of the name and the node of the place. It is refused with `NothingOpened` where nothing is
/// opened, with `NoFragment` where no saved fragment has the name, and with `NoNode` where no node is there.
fn source_of<'a>(editor: &'a Editor, place: &'a Where, name: &Txt) -> Result<Source<'a>, Refusal>
    ensures ok { IfOk result (IsSource editor.now place.now name.now) }
    ensures err { IfErr result (IsNoSource editor.now place.now name.now) }
{
    let Some(_) = &editor.opened else {
        return Err(Refusal::NothingOpened);
    };
    let Some(saved) = saved_named(editor.saved.as_slice(), name) else {
        return Err(Refusal::NoFragment);
    };
    match find(editor, place) {
        Ok(found) => Ok(Source { saved, found }),
        Err(refusal) => Err(refusal),
    }
}

/// Says whether the tree is a placeholder or an empty list.
fn is_empty_place(definition: &Definition, tree: &Tree) -> bool
    requires formed { IsFormed definition.now tree.now }
    ensures { IsTrue result ↔ IsEmptyPlace definition.now tree.now }
{
    match as_list(definition, tree) {
        Some(list) => list.elements == 0,
        None => is_hole(tree),
    }
}

/// Says whether the tree is a placeholder.
fn is_hole(tree: &Tree) -> bool
    ensures { IsTrue result ↔ ((p : ℕ) × (tree.now ≡ hole p)) }
{
    match hole_phylum(tree) {
        Some(_) => true,
        None => false,
    }
}

/// Says whether the two kinds are the same.
fn is_kind(kind: Kind, wanted: Kind) -> bool
    ensures { IsTrue result ↔ (kind ≡ wanted) }
{
    kind == wanted
}

/// Plans a paste: the saved fragment of the name in place of a placeholder or an empty list. Where a number is given,
/// it is a new element before this place of the list. A plan refuses with the first of `NothingOpened`, `NoFragment`,
/// `NoNode`, `NotHole` (or `NoPlace`, where a number is given) and `OtherPhylum` that holds. It fails where memory runs
/// out.
pub fn paste(
    alloc: Global,
    language: &LanguageParts,
    editor: &Editor,
    place: &Where,
    number: Option<u32>,
    name: &Txt,
) -> Result<Proposal, Stop>
    requires language { IsLanguage language.now }
    requires editor { IsEditor language.now.definition editor.now }
    ensures { IsPlan language.now.definition editor.now (commands.Paste place.now number name.now) result }
{
    match number {
        None => paste_here(alloc, language, editor, place, name),
        Some(number) => paste_element(alloc, language, editor, place, number, name),
    }
}

/// Plans the saved fragment of the name in place of a placeholder or an empty list.
fn paste_here(
    alloc: Global,
    language: &LanguageParts,
    editor: &Editor,
    place: &Where,
    name: &Txt,
) -> Result<Proposal, Stop>
    requires language { IsLanguage language.now }
    requires editor { IsEditor language.now.definition editor.now }
    ensures { IsPlan language.now.definition editor.now (commands.Paste place.now None name.now) result }
{
    let source = source_of(editor, place, name)?;
    if !is_empty_place(&language.definition, source.found.node) {
        return Err(Stop::Refused(Refusal::NotHole));
    }
    let kind = kind_of(&language.definition, source.found.node);
    if !is_kind(source.saved.kind, kind) {
        return Err(Stop::Refused(Refusal::OtherPhylum));
    }
    let new = source.saved.tree.share()?;
    let made = put(alloc, Trial::Grows, source.found.path, new)?;
    Ok(made)
}

/// Plans the saved fragment of the name as a new element before the place of the list.
fn paste_element(
    alloc: Global,
    language: &LanguageParts,
    editor: &Editor,
    place: &Where,
    number: u32,
    name: &Txt,
) -> Result<Proposal, Stop>
    requires language { IsLanguage language.now }
    requires editor { IsEditor language.now.definition editor.now }
    ensures { IsPlan language.now.definition editor.now
        (commands.Paste place.now (Some number) name.now) result }
{
    let source = source_of(editor, place, name)?;
    let Some(list) = as_list(&language.definition, source.found.node) else {
        return Err(Stop::Refused(Refusal::NoPlace));
    };
    if list.elements < number as usize {
        return Err(Stop::Refused(Refusal::NoPlace));
    }
    if !is_kind(source.saved.kind, Kind::Phylum(list.kind.element)) {
        return Err(Stop::Refused(Refusal::OtherPhylum));
    }
    let new = source.saved.tree.share()?;
    let at = copied(alloc, source.found.path)?;
    let cursor = longer(alloc, source.found.path, number)?;
    let edit = Edit::Add {
        at,
        place: number,
        new,
    };
    let trial = Trial::Grows;
    Ok(Proposal {
        trial,
        edit,
        cursor,
    })
}
