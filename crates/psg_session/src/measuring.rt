//! How large the opened fragment is.
ghost use Rattle.std.specs.Prelude.{◌≡◌, ◌≤◌, length, IfOk};
ghost use Rattle.psg_cache.specs.Annotated.{tree_in};
ghost use Rattle.psg_cache.specs.Notes.{IsNoteOf};
ghost use Rattle.psg_grammar.specs.Legal.{IsCompletable};
ghost use Rattle.psg_grammar.specs.Sizes.{nodes_of};
ghost use Rattle.psg_session.specs.Extents.{IsExtentOf};
ghost use Rattle.psg_session.specs.Views.{IsLanguage};

use crate::noting::note_mark;
use crate::printing::text_of;
use crate::replies::Mark;
use psg_cache::Note;
use psg_specimen::LanguageParts;
use psg_terms::Txt;
use psg_tree::{Tree, nodes};
use std::alloc::{AllocError, Global};

/// The size of a fragment: its nodes, the bytes of its printed text, and the weight of the relations of its nodes and
/// list suffixes together. It has the mark too.
#[derive(Drop)]
pub struct Extent {
    /// The number of nodes.
    pub nodes: u64,
    /// The number of bytes of the printed text.
    pub bytes: usize,
    /// The weight of the relations of all nodes and list suffixes together.
    pub weight: u64,
    /// The mark of the fragment.
    pub mark: Mark,
}

/// Counts the nodes of a tree that is not too large. It takes one step.
fn counted(tree: &Tree) -> u64
    requires { nodes_of tree.now ≤ 20000 }
    ensures { result ≡ nodes_of tree.now }
{
    nodes(tree)
}

/// Counts the bytes of a text.
fn length_of(text: &Txt) -> usize
    ensures { result ≡ length text.now }
{
    text.as_str().len()
}

/// Gives the extent of the note's tree. It prints the whole text, and evaluates nothing.
pub(crate) fn extent_of(
    alloc: Global,
    language: &LanguageParts,
    note: &Note,
) -> Result<Extent, AllocError>
    requires language { IsLanguage language.now }
    requires noted { IsNoteOf language.now.definition (tree_in note.now) note.now }
    ensures { IfOk result (IsExtentOf language.now.definition (IsCompletable language.now.definition)
        (tree_in note.now)) }
{
    let tree = note.tree();
    let text = text_of(alloc, &language.definition, tree)?;
    let mark = note_mark(alloc, note)?;
    let nodes = counted(tree);
    let bytes = length_of(&text);
    let weight = note.weight();
    Ok(Extent {
        nodes,
        bytes,
        weight,
        mark,
    })
}
