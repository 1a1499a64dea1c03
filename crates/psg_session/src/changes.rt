//! What the changing commands make of the opened fragment, before it is tested.
ghost use Rattle.std.specs.Prelude.{◌≡◌, ◌↔◌, ◌++◌, ◌∷◌, [], ℕ, true, Some, IfNone, IfOk, IfSome, IsTrue};
ghost use Rattle.psg_grammar.specs.Fragments.{hole};
ghost use Rattle.psg_grammar.specs.Kinds.{IsOfKind};
ghost use Rattle.psg_grammar.specs.Paths.{ended, IsList};
ghost use Rattle.psg_cache.specs.Notes.{IsFormed};
ghost use Rattle.psg_script.specs.declared.command.Command.TheVariants as commands;
ghost use Rattle.psg_session.specs.declared.edits.Edit.TheVariants as edits;
ghost use Rattle.psg_session.specs.Outcomes.{proposal_of, IsFreshAnswer, IsListed, IsPlan};
ghost use Rattle.psg_session.specs.PlainStep.{MayReopen, end_of};
ghost use Rattle.psg_session.specs.Sessions.{IsEditor};
ghost use Rattle.psg_session.specs.Views.{IsLanguage};

use crate::editor::Editor;
use crate::edits::Edit;
use crate::finding::find;
use crate::insertion::{blank, fresh_operator};
use crate::judging::Trial;
use crate::leaves::read_leaves;
use crate::noting::tree_of;
use crate::refusal::Refusal;
use crate::stop::Stop;
use psg_grammar::{Definition, Kind, ListKind, op_named};
use psg_script::Where;
use psg_specimen::LanguageParts;
use psg_terms::Txt;
use psg_tree::{Path, Shape, Tree, set_unfinished};
use std::alloc::{AllocError, Global};

/// A change of the opened fragment that a command proposes, whose tree is still to be tested.
#[derive(Drop)]
pub struct Proposal {
    /// The tests that the new tree must pass.
    pub trial: Trial,
    /// The change of the opened tree.
    pub edit: Edit,
    /// The path of the cursor after the change.
    pub cursor: Path,
}

/// Gives the phylum of the placeholder that the tree is, if it is one.
pub fn hole_phylum(tree: &Tree) -> Option<u32>
    ensures some { IfSome result (λ p. tree.now ≡ hole p) }
    ensures none { IfNone result ((p : ℕ) → tree.now ≡ hole p → ⊥) }
{
    match tree.shape() {
        Shape::Hole { phylum } => Some(*phylum),
        _ => None,
    }
}

/// A list's kind with its number of elements, and whether it is unfinished.
#[derive(Clone, Copy)]
pub struct Listed<'a> {
    /// The kind of the list in the definition.
    pub kind: &'a ListKind,
    /// The number of elements. The end of an unfinished list does not count.
    pub elements: usize,
    /// Whether the list itself is unfinished; `kind` says whether it may be.
    pub unfinished: bool,
}

/// Gives the list that the tree is, if it is one.
pub fn as_list<'a>(definition: &'a Definition, tree: &Tree) -> Option<Listed<'a>>
    requires formed { IsFormed definition.now tree.now }
    ensures some { IfSome result (λ l. IsListed definition.now tree.now l) }
    ensures none { IfNone result (IsList tree.now → ⊥) }
{
    match tree.shape() {
        Shape::List {
            list,
            elements,
            unfinished,
        } => Some(Listed {
            kind: &definition.lists.as_slice()[*list as usize],
            elements: elements.as_slice().len(),
            unfinished: *unfinished,
        }),
        _ => None,
    }
}

/// Says whether the tree is an unfinished list.
fn is_unfinished(definition: &Definition, tree: &Tree) -> bool
    requires formed { IsFormed definition.now tree.now }
    ensures { IsTrue result ↔ (end_of tree.now ≡ Some true) }
{
    match as_list(definition, tree) {
        Some(list) => list.unfinished,
        None => false,
    }
}

/// Says whether the tree is a finished list of a kind that may be unfinished.
fn may_reopen(definition: &Definition, tree: &Tree) -> bool
    requires formed { IsFormed definition.now tree.now }
    ensures { IsTrue result ↔ MayReopen definition.now tree.now }
{
    match as_list(definition, tree) {
        Some(list) => list.kind.unfinished && !list.unfinished,
        None => false,
    }
}

/// Gives the kind of a tree.
pub(crate) fn kind_of(definition: &Definition, tree: &Tree) -> Kind
    requires formed { IsFormed definition.now tree.now }
    ensures { IsOfKind definition.now tree.now result }
{
    match tree.shape() {
        Shape::Op { op, .. } => {
            Kind::Phylum(definition.operators.as_slice()[*op as usize].phylum)
        }
        Shape::List { list, .. } => Kind::List(*list),
        Shape::Hole { phylum } => Kind::Phylum(*phylum),
    }
}

/// Makes the list with this end.
fn with_end(alloc: Global, list: &Tree, unfinished: bool) -> Result<Tree, AllocError>
    requires { IsList list.now }
    ensures { IfOk result (λ tree. tree ≡ ended unfinished list.now) }
{
    let top = Path::of(alloc, &[])?;
    let tree = tree_of(set_unfinished(alloc, list, &top, unfinished))?;
    Ok(tree)
}

/// Makes one more path of the same steps.
pub(crate) fn copied(alloc: Global, path: &Path) -> Result<Path, AllocError>
    ensures { IfOk result (λ p. p ≡ path.now) }
{
    let copy = Path::of(alloc, path.steps())?;
    Ok(copy)
}

/// Plans the tree in place of the node at the path, to which the cursor goes.
pub(crate) fn put(
    alloc: Global,
    trial: Trial,
    path: &Path,
    new: Tree,
) -> Result<Proposal, AllocError>
    ensures { IfOk result (λ made. made ≡ proposal_of trial (edits.Put path.now new) path.now) }
{
    let at = copied(alloc, path)?;
    let cursor = copied(alloc, path)?;
    let edit = Edit::Put { at, new };
    Ok(Proposal {
        trial,
        edit,
        cursor,
    })
}

/// Plans a refinement: the operator in place of the placeholder. It is refused with `NothingOpened`, `NoNode`,
/// `NotHole`, `Unknown`, `OtherPhylum` or `BadArguments`. It walks along the path.
pub fn refine(
    alloc: Global,
    language: &LanguageParts,
    editor: &Editor,
    place: &Where,
    name: &Txt,
    arguments: &Txt,
) -> Result<Proposal, Stop>
    requires language { IsLanguage language.now }
    requires editor { IsEditor language.now.definition editor.now }
    ensures { IsPlan language.now.definition editor.now
        (commands.Refine place.now name.now arguments.now) result }
{
    let found = find(editor, place)?;
    let Some(phylum) = hole_phylum(found.node) else {
        return Err(Stop::Refused(Refusal::NotHole));
    };
    let fresh = fresh_of(alloc, language, phylum, name, arguments)?;
    let made = put(alloc, Trial::Grows, found.path, fresh)?;
    Ok(made)
}

/// Makes the operator of the name with the names and literals of the arguments, which is to be where one of the phylum
/// is wanted. It is refused with `Unknown` where no operator has the name, with `OtherPhylum` where it is of another
/// phylum, and with `BadArguments` where the arguments are not its names and literals.
fn fresh_of(
    alloc: Global,
    language: &LanguageParts,
    phylum: u32,
    name: &Txt,
    arguments: &Txt,
) -> Result<Tree, Stop>
    requires language { IsLanguage language.now }
    ensures { IsFreshAnswer language.now.definition phylum name.now arguments.now result }
{
    let definition = &language.definition;
    let Some(op) = op_named(definition, name.as_str()) else {
        return Err(Stop::Refused(Refusal::Unknown));
    };
    if definition.operators.as_slice()[op as usize].phylum != phylum {
        return Err(Stop::Refused(Refusal::OtherPhylum));
    }
    let Some(leaves) = read_leaves(alloc, language, op, arguments.as_str())? else {
        return Err(Stop::Refused(Refusal::BadArguments));
    };
    let fresh = fresh_operator(alloc, definition, op, leaves.as_slice())?;
    Ok(fresh)
}

/// Plans an insertion: the operator as a new element before the place of the list. It is refused as `refine` is, with
/// `NoPlace` in place of `NotHole`.
pub fn insert_element(
    alloc: Global,
    language: &LanguageParts,
    editor: &Editor,
    place: &Where,
    number: u32,
    name: &Txt,
    arguments: &Txt,
) -> Result<Proposal, Stop>
    requires language { IsLanguage language.now }
    requires editor { IsEditor language.now.definition editor.now }
    ensures { IsPlan language.now.definition editor.now
        (commands.Insert place.now number name.now arguments.now) result }
{
    let found = find(editor, place)?;
    let Some(list) = as_list(&language.definition, found.node) else {
        return Err(Stop::Refused(Refusal::NoPlace));
    };
    if list.elements < number as usize {
        return Err(Stop::Refused(Refusal::NoPlace));
    }
    let fresh = fresh_of(alloc, language, list.kind.element, name, arguments)?;
    let at = copied(alloc, found.path)?;
    let cursor = longer(alloc, found.path, number)?;
    let edit = Edit::Add {
        at,
        place: number,
        new: fresh,
    };
    let trial = Trial::Grows;
    Ok(Proposal {
        trial,
        edit,
        cursor,
    })
}

/// Makes the path with one more step.
pub fn longer(alloc: Global, path: &Path, step: u32) -> Result<Path, AllocError>
    ensures { IfOk result (λ p. p ≡ path.now ++ step ∷ []) }
{
    let mut steps = Vec::new(alloc);
    for known in path.steps() {
        steps.push(*known)?;
    }
    steps.push(step)?;
    let longer = Path::of(alloc, steps.as_slice())?;
    Ok(longer)
}

/// Plans a cut: a new tree of the node's kind in its place. It is refused with `NothingOpened` or `NoNode`, and with
/// `NoPlaceholder` if the kind declares names.
pub fn cut(
    alloc: Global,
    language: &LanguageParts,
    editor: &Editor,
    place: &Where,
) -> Result<Proposal, Stop>
    requires language { IsLanguage language.now }
    requires editor { IsEditor language.now.definition editor.now }
    ensures { IsPlan language.now.definition editor.now (commands.Cut place.now) result }
{
    let found = find(editor, place)?;
    let kind = kind_of(&language.definition, found.node);
    if language.is_declaring(kind) {
        return Err(Stop::Refused(Refusal::NoPlaceholder));
    }
    let new = blank(alloc, &language.definition, kind)?;
    let made = put(alloc, Trial::Loosens, found.path, new)?;
    Ok(made)
}

/// Plans a removal: the list without the element. It is refused with `NothingOpened` or `NoNode`, and with `NoPlace` if
/// the node is no list or has no such element.
pub fn remove_element(
    alloc: Global,
    language: &LanguageParts,
    editor: &Editor,
    place: &Where,
    number: u32,
) -> Result<Proposal, Stop>
    requires language { IsLanguage language.now }
    requires editor { IsEditor language.now.definition editor.now }
    ensures { IsPlan language.now.definition editor.now (commands.Remove place.now number) result }
{
    let found = find(editor, place)?;
    let Some(list) = as_list(&language.definition, found.node) else {
        return Err(Stop::Refused(Refusal::NoPlace));
    };
    if list.elements <= number as usize {
        return Err(Stop::Refused(Refusal::NoPlace));
    }
    let at = copied(alloc, found.path)?;
    let cursor = copied(alloc, found.path)?;
    let edit = Edit::Take { at, place: number };
    let trial = Trial::Loosens;
    Ok(Proposal {
        trial,
        edit,
        cursor,
    })
}

/// Plans that the list is finished. It is refused with `NothingOpened` or `NoNode`, and with `NoPlace` if the node is
/// no unfinished list.
pub fn close(
    alloc: Global,
    language: &LanguageParts,
    editor: &Editor,
    place: &Where,
) -> Result<Proposal, Stop>
    requires language { IsLanguage language.now }
    requires editor { IsEditor language.now.definition editor.now }
    ensures { IsPlan language.now.definition editor.now (commands.Close place.now) result }
{
    let found = find(editor, place)?;
    if !is_unfinished(&language.definition, found.node) {
        return Err(Stop::Refused(Refusal::NoPlace));
    }
    let new = with_end(alloc, found.node, false)?;
    let made = put(alloc, Trial::Closes, found.path, new)?;
    Ok(made)
}

/// Plans that the list is unfinished again. It is refused with `NothingOpened` or `NoNode`, and with `NoPlace` if the
/// node is no finished list, or is one of a kind that is always finished.
pub fn reopen(
    alloc: Global,
    language: &LanguageParts,
    editor: &Editor,
    place: &Where,
) -> Result<Proposal, Stop>
    requires language { IsLanguage language.now }
    requires editor { IsEditor language.now.definition editor.now }
    ensures { IsPlan language.now.definition editor.now (commands.Reopen place.now) result }
{
    let found = find(editor, place)?;
    if !may_reopen(&language.definition, found.node) {
        return Err(Stop::Refused(Refusal::NoPlace));
    }
    let new = with_end(alloc, found.node, true)?;
    let made = put(alloc, Trial::Loosens, found.path, new)?;
    Ok(made)
}
