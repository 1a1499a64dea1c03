//! Trees with a summary of each node.
ghost use Rattle.std.specs.Prelude.{◌≡◌, ◌↔◌, ◌≤◌, ◌∷◌, [], drop, length, option_copied};
ghost use Rattle.std.specs.Prelude.{slice_get, None, Some, IfOk, IfSome, IfNone, IsTrue};
ghost use Rattle.psg_cache.specs.Annotated.{Annotated, tree_in, whole_in, rests_in, weight_in, below_in, note_at};
ghost use Rattle.psg_cache.specs.Blames.{culprits_in};
ghost use Rattle.psg_cache.specs.Edits.{AreCulpritsIn, IsSummaryAt, IsNoSummaryAt};
ghost use Rattle.psg_cache.specs.Noting.{annotated_of};

use psg_eval::Summary;
use psg_terms::Seq;
use psg_tree::{Path, Tree};
use std::alloc::{AllocError, AllocFailed, Global};
use std::marker::Model;
use std::rc::Rc;
use thiserror::Error;

/// The root of a note, with the notes below it. The owners of the note share it.
#[cycle(note)]
#[derive(Drop)]
pub struct NoteNode {
    /// The tree.
    pub tree: Tree,
    /// The summary of the tree; of a list that of its first suffix.
    pub whole: Summary,
    /// The notes of the children or elements.
    pub below: Seq<Note>,
    /// Of a list the summaries of the suffixes after each element, the end last; of another tree none.
    pub rests: Seq<Summary>,
    /// How many variables and constructors all relations in the tree have together.
    pub weight: u64,
}

/// A tree with a summary for each node and list suffix, shared by its owners.
#[cycle(note)]
pub struct Note {
    shared: Rc<NoteNode>,
}

// written out, so that it is proved once, and not again in each crate where such a value is let go
impl Drop for Note {
    #[cycle(note)]
    fn drop(self) {
        let Note { shared } = self;
        let _ = shared;
    }
}

impl Model for Note {
    ghost use Rattle.psg_cache.specs.Annotated.{Annotated, coded_annotated, nested};

    ghost Value = { Annotated };

    ghost coded = { coded_annotated };

    ghost use Rattle.psg_cache.specs.Noting.{annotated_of};

    ghost view = { λ n. annotated_of n.shared.value };

    ghost size = { nested };

    ghost use Rattle.psg_cache.specs.NoteFalls.{noted_le-nested};

    ghost size_decreases = { λ a h. noted_le-nested a.shared.value };
}

impl Note {
    pub(crate) fn new(alloc: Global, noted: NoteNode) -> Result<Note, AllocError>
        ensures { IfOk result (λ n. n ≡ annotated_of noted) }
    {
        Ok(Note {
            shared: Rc::new(alloc, noted)?,
        })
    }

    /// Returns the tree.
    #[tactic(auto, using(crate::proofs::Inducting::noted_tree))]
    pub fn tree(&self) -> &Tree
        ensures { result.now ≡ tree_in self.now }
    {
        &self.shared.as_ref().tree
    }

    /// Returns the summary of the whole tree.
    #[tactic(auto, using(crate::proofs::Inducting::noted_whole))]
    pub fn root(&self) -> &Summary
        ensures { result.now ≡ whole_in self.now }
    {
        &self.shared.as_ref().whole
    }

    /// Returns the notes of the children or elements.
    #[tactic(auto, using(crate::proofs::Inducting::noted_below))]
    pub(crate) fn below(&self) -> &[Note]
        ensures { result.now ≡ below_in self.now }
    {
        self.shared.as_ref().below.as_slice()
    }

    /// Returns, of a list, the summaries of the suffixes after each element, the end last; of another tree none.
    #[tactic(auto, using(crate::proofs::Inducting::noted_rests))]
    pub(crate) fn rests(&self) -> &[Summary]
        ensures { result.now ≡ rests_in self.now }
    {
        self.shared.as_ref().rests.as_slice()
    }

    /// Returns, of a list, the summaries of all suffixes that are shorter than the one after `number` elements.
    pub(crate) fn rests_behind(&self, number: usize) -> &[Summary]
        requires { number ≤ length (rests_in self.now) }
        ensures { result.now ≡ drop number (rests_in self.now) }
    {
        &self.rests()[number..]
    }

    /// Returns, of a list, the summary of the suffix after `number` elements.
    pub(crate) fn suffix(&self, number: usize) -> &Summary
        requires { number ≤ length (rests_in self.now) }
        ensures { Some result.now ≡ slice_get (whole_in self.now ∷ rests_in self.now) number }
    {
        if number == 0 {
            self.root()
        } else {
            &self.rests()[number - 1]
        }
    }

    /// Counts the variables and constructors of all relations together. It takes one step.
    #[tactic(auto, using(crate::proofs::Inducting::noted_weight))]
    pub fn weight(&self) -> u64
        ensures { result ≡ weight_in self.now }
    {
        self.shared.as_ref().weight
    }

    /// Finds the summary of the node at the path; `None` where the path leads to no node. It walks along the path.
    pub fn summary(&self, path: &Path) -> Option<&Summary>
        ensures some { IfSome result (λ s. IsSummaryAt self.now path.now s.now) }
        ensures none { IfNone result (IsNoSummaryAt self.now path.now) }
    {
        match at(self, path) {
            Some(note) => Some(note.root()),
            None => None,
        }
    }

    /// Says whether the tree is good: its relation has a row, and no node goes wrong. It takes one step.
    #[tactic(auto, using(crate::proofs::NoteCulprits::none_blamed))]
    pub fn is_good(&self) -> bool
        ensures rows { IsTrue result ↔ ((whole_in self.now).rel ≡ [] → ⊥) }
        ensures culprits { IsTrue result ↔ (culprits_in self.now ≡ []) }
    {
        !self.root().rel().is_empty()
    }

    /// Counts the owners of the note of the node at the path: one for each note of a larger tree that shares it, and
    /// one for each of its own that a caller has. It returns 0 where the path leads to no node. It walks along the
    /// path. What is shared is in no clause: this call serves tests.
    pub fn owners(&self, path: &Path) -> usize
        ensures none { note_at self.now path.now ≡ None → result ≡ 0 }
    {
        match at(self, path) {
            Some(note) => Rc::strong_count(&note.shared),
            None => 0,
        }
    }

    /// Returns one more owner of the same note. It fails where memory runs out.
    pub fn share(&self) -> Result<Note, AllocError>
        ensures { IfOk result (λ n. n ≡ self.now) }
    {
        Ok(Note {
            shared: self.shared.clone()?,
        })
    }
}

/// Returns the note of the child of the number, from 0.
pub(crate) fn child_note(note: &Note, number: u32) -> Option<&Note>
    ensures { option_copied result ≡ slice_get (below_in note.now) number }
{
    note.below().get(number as usize)
}

/// Returns the note of the node at the path.
pub(crate) fn at<'n>(note: &'n Note, path: &Path) -> Option<&'n Note>
    ensures { option_copied result ≡ note_at note.now path.now }
{
    let mut node = note;
    for step in path.steps() {
        match child_note(node, *step) {
            Some(next) => node = next,
            None => return None,
        }
    }
    Some(node)
}

/// Returns the note of the node at the path, which is there.
pub(crate) fn there<'n>(note: &'n Note, path: &Path) -> &'n Note
    requires { (n : Annotated) × (note_at note.now path.now ≡ Some n) }
    ensures { note_at note.now path.now ≡ Some result.now }
{
    match at(note, path) {
        Some(node) => node,
        None => unreachable!(),
    }
}

/// Why a tree has no note.
#[derive(Debug, Drop, Error)]
pub enum NoteFault {
    /// It is deeper than 200.
    #[error("the tree is too deep")]
    Deep,
    /// It has more than 20,000 nodes, or a list of more than 4,096 elements.
    #[error("the tree is too big")]
    Big,
    /// The relation of the step of the node at the path is the first that is too large; a list's end and cells have the
    /// list's path.
    #[error("the relation of a node is too large")]
    Wide { path: Path, step: u32 },
    /// The relations of all nodes and list suffixes have more than 4,000,000 variables and constructors together.
    #[error("the relations of the nodes are too large together")]
    Heavy,
    /// Memory ran out.
    #[error("out of memory")]
    Memory,
}

impl From<AllocError> for NoteFault {
    ghost use Rattle.std.specs.Prelude.{◌≡◌};
    ghost use Rattle.psg_cache.specs.declared.note.NoteFault.TheVariants.{Memory};

    ghost from_gives = { λ _ fault. fault ≡ Memory };

    fn from(_error: AllocError) -> NoteFault {
        NoteFault::Memory
    }
}

impl<T: Drop> From<AllocFailed<T>> for NoteFault {
    ghost use Rattle.std.specs.Prelude.{◌≡◌};
    ghost use Rattle.psg_cache.specs.declared.note.NoteFault.TheVariants.{Memory};

    ghost from_gives = { λ _ fault. fault ≡ Memory };

    fn from(_error: AllocFailed<T>) -> NoteFault {
        NoteFault::Memory
    }
}
