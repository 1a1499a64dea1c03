//! Notes from trees.
ghost use Rattle.std.specs.Prelude.{◌≡◌, ◌↔◌, ◌+◌, ◌≤◌, ◌<◌, IfErr, IfOk, IsTrue};
ghost use Rattle.psg_grammar.specs.Sizes.{HasLongList, IsBig, IsDeep};
ghost use Rattle.psg_grammar.specs.Sound.{IsSound};
ghost use Rattle.psg_grammar.specs.declared.limits.TheConstants.{MOST_WEIGHTS};
ghost use Rattle.psg_grammar.specs.Work.{work_of};
ghost use Rattle.psg_cache.specs.declared.note.NoteFault.TheVariants.{Heavy};
ghost use Rattle.psg_cache.specs.Completed.{TellsCompletable};
ghost use Rattle.psg_cache.specs.Notes.{AreTables, IsFormed, IsNoteFault, IsNoteOf, TellsOpen};
ghost use Rattle.psg_cache.specs.Walks.{IsSizeFault, IsSmall};

use crate::note::{Note, NoteFault};
use crate::parts::Language;
use crate::walking::walk;
use psg_eval::Tables;
use psg_grammar::Definition;
use psg_grammar::limits::{MOST_DEPTH, MOST_ELEMENTS, MOST_NODES, MOST_WEIGHTS};
use psg_terms::Steps;
use psg_tree::{Tree, depth, longest_list, nodes};
use std::alloc::Global;
use std::sync::ledger::Ledger;

/// Makes the note of a tree. Each node and each list suffix is evaluated once, from the summaries of its children:
/// children in order, then the node; of a list its elements in order, then its end, then its cells from the last to the
/// first.
/// `steps` counts the evaluations, and where there is no note, those that were made. `tables` has what
/// is made of the definition once.
///
/// The tree is well-formed: no placeholder of it is of a phylum that declares names.
///
/// The faults are tested in their order: `Deep`, `Big`, then `Wide` with the first step whose relation passes the
/// limit, then `Heavy`. `Memory` is returned when memory runs out, at any time. The functions call each other as deep
/// as the tree is, at most 200.
pub fn build<L: Ledger>(
    alloc: Global,
    definition: &Definition,
    tables: &Tables,
    tree: &Tree,
    steps: &mut Steps<L>,
) -> Result<Note, NoteFault>
    requires sound { IsSound definition.now }
    requires tables { AreTables definition.now tables.now }
    requires formed { IsFormed definition.now tree.now }
    ensures note { IfOk result (IsNoteOf definition.now tree.now) }
    ensures good { IfOk result (TellsOpen definition.now tree.now) }
    ensures completions { IfOk result (TellsCompletable definition.now tree.now) }
    ensures ticks { IfOk result (λ _. steps.new ≡ steps.old + work_of tree.now) }
    // whatever it answers
    ensures bounded { steps.new ≤ steps.old + work_of tree.now }
    ensures fault { IfErr result (IsNoteFault definition.now tree.now) }
{
    small(tree)?;
    let language = Language { definition, tables };
    let note = walk(alloc, language, tree, &[], steps)?;
    light(note.weight())?;
    Ok(note)
}

/// Tests the sizes of the tree, first its depth.
pub(crate) fn small(tree: &Tree) -> Result<(), NoteFault>
    ensures ok { IfOk result (λ _. IsSmall tree.now) }
    ensures err { IfErr result (IsSizeFault tree.now) }
{
    if is_deep(tree) {
        return Err(NoteFault::Deep);
    }
    if is_big(tree) {
        return Err(NoteFault::Big);
    }
    Ok(())
}

/// Tests the weight of a whole tree.
pub(crate) fn light(weight: u64) -> Result<(), NoteFault>
    ensures ok { IfOk result (λ _. weight ≤ MOST_WEIGHTS) }
    ensures err { IfErr result (λ fault. (fault ≡ Heavy) × (MOST_WEIGHTS < weight)) }
{
    if weight > MOST_WEIGHTS {
        return Err(NoteFault::Heavy);
    }
    Ok(())
}

/// Says whether the tree is too deep. It takes one step.
fn is_deep(tree: &Tree) -> bool
    ensures { IsTrue result ↔ IsDeep tree.now }
{
    depth(tree) > MOST_DEPTH
}

/// Says whether a list of the tree has too many elements. It takes one step.
#[tactic(auto, using(crate::proofs::LongLists::long_lists))]
fn has_long_list(tree: &Tree) -> bool
    ensures { IsTrue result ↔ HasLongList tree.now }
{
    longest_list(tree) > MOST_ELEMENTS
}

/// Says whether the tree has too many nodes, or a list of it too many elements. It takes one step.
fn is_big(tree: &Tree) -> bool
    ensures { IsTrue result ↔ IsBig tree.now }
{
    if nodes(tree) > MOST_NODES {
        return true;
    }
    has_long_list(tree)
}
