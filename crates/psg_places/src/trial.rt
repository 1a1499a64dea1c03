//! One trial: the tree of some places is evaluated.
ghost use Rattle.std.specs.Prelude.{◌≡◌, ◌≤◌, ◌+◌, [], IfErr, IfOk};
ghost use Rattle.psg_cache.specs.Annotated.{tree_in};
ghost use Rattle.psg_cache.specs.Completed.{TellsCompletable};
ghost use Rattle.psg_cache.specs.Diff.{diff_of};
ghost use Rattle.psg_cache.specs.Notes.{AreTables, IsFormed, IsNoteFault, IsNoteOf, TellsOpen};
ghost use Rattle.psg_grammar.specs.Sound.{IsSound};
ghost use Rattle.psg_grammar.specs.Work.{work_of};
ghost use Rattle.psg_places.specs.Answers.{IsBeside, IsBlameFault, IsLimitOf, IsNear, IsTrial, IsTrialFault};
ghost use Rattle.psg_places.specs.Blame.{kept_in};
ghost use Rattle.psg_places.specs.NewNames.{IsFront, new_name};
ghost use Rattle.psg_places.specs.Opened.{opened};
ghost use Rattle.psg_places.specs.Places.{place_count};

use crate::fault::BlameFault;
use crate::numbers::held;
use crate::opening::{Keeping, Opened, open};
use psg_cache::{Note, NoteFault, build, replaced};
use psg_eval::Tables;
use psg_grammar::Definition;
use psg_terms::{Steps, Txt};
use psg_tree::{Path, Tree};
use std::alloc::{AllocError, Global};
use std::sync::ledger::Ledger;

/// A tree in which places are opened.
#[derive(Drop)]
pub(crate) struct Trial {
    /// The note of the tree of the kept places.
    pub(crate) note: Note,
    /// How many places the whole tree has.
    pub(crate) places: usize,
    /// Whether the tree has a completion.
    pub(crate) good: bool,
}

/// Opens the places of the tree that are not kept.
pub(crate) fn kept_tree(
    alloc: Global,
    definition: &Definition,
    tables: &Tables,
    front: &Txt,
    keep: &[bool],
    tree: &Tree,
) -> Result<Opened, AllocError>
    requires sound { IsSound definition.now }
    requires tables { AreTables definition.now tables.now }
    ensures tree { IfOk result (λ o. o.tree ≡ opened definition.now (kept_in keep.now) (new_name front.now) tree.now) }
    ensures count { IfOk result (λ o. o.others ≡ place_count definition.now tree.now) }
{
    let spaces = tables.spaces();
    let keeping = Keeping {
        definition,
        spaces,
        keep,
        front,
    };
    let opened = open(alloc, keeping, tree)?;
    Ok(opened)
}

/// Returns the tree in which only the kept places of a tree are kept. The places after the last answer are opened. A
/// name that is opened becomes the letters of `names`, an a and the number of its place, as in the repaired tree of an
/// answer with these letters. It walks over the tree, and twice over what declares. An error says that memory ran out.
pub fn kept_part(
    alloc: Global,
    definition: &Definition,
    tables: &Tables,
    names: &Txt,
    kept: &[bool],
    tree: &Tree,
) -> Result<Tree, AllocError>
    requires sound { IsSound definition.now }
    requires tables { AreTables definition.now tables.now }
    ensures { IfOk result (λ part. part ≡ opened definition.now (kept_in kept.now) (new_name names.now) tree.now) }
{
    let opened = kept_tree(alloc, definition, tables, names, kept, tree)?;
    Ok(opened.tree)
}

/// Returns the fault of a tree with these places kept.
fn limit(keep: Vec<bool>, fault: NoteFault) -> BlameFault
    ensures { IsLimitOf keep.items fault result }
{
    match fault {
        NoteFault::Deep => BlameFault::Limit {
            kept: keep,
            fault: NoteFault::Deep,
        },
        NoteFault::Big => BlameFault::Limit {
            kept: keep,
            fault: NoteFault::Big,
        },
        NoteFault::Wide { path, step } => BlameFault::Limit {
            kept: keep,
            fault: NoteFault::Wide { path, step },
        },
        NoteFault::Heavy => BlameFault::Limit {
            kept: keep,
            fault: NoteFault::Heavy,
        },
        NoteFault::Memory => BlameFault::Memory,
    }
}

/// Makes the note of a tree beside that of another tree of its kind: what both have in common is not evaluated again.
fn beside<L: Ledger>(
    alloc: Global,
    definition: &Definition,
    tables: &Tables,
    old: &Note,
    tree: &Tree,
    steps: &mut Steps<L>,
) -> Result<Note, NoteFault>
    requires sound { IsSound definition.now }
    requires tables { AreTables definition.now tables.now }
    requires old { IsNoteOf definition.now (tree_in old.now) old.now }
    requires kinds { IsBeside definition.now (tree_in old.now) tree.now }
    ensures note { IfOk result (IsNoteOf definition.now tree.now) }
    ensures good { IfOk result (TellsOpen definition.now tree.now) }
    ensures completions { IfOk result (TellsCompletable definition.now tree.now) }
    ensures fault { IfErr result (IsNoteFault definition.now tree.now) }
    // whatever it answers
    ensures ticks { steps.new ≤ steps.old + diff_of (tree_in old.now) tree.now }
{
    let root = Path::of(alloc, &[])?;
    replaced(alloc, definition, tables, old, &root, tree, steps)
}

/// Opens the places of the tree that are not kept, and makes the note of what is left beside that of another such tree.
pub(crate) fn tried<L: Ledger>(
    alloc: Global,
    definition: &Definition,
    tables: &Tables,
    front: &Txt,
    old: &Note,
    keep: Vec<bool>,
    tree: &Tree,
    steps: &mut Steps<L>,
) -> Result<Trial, BlameFault>
    requires sound { IsSound definition.now }
    requires tables { AreTables definition.now tables.now }
    requires formed { IsFormed definition.now tree.now }
    requires front { IsFront definition.now tree.now front.now }
    requires near { IsNear definition.now tree.now old.now }
    ensures trial { IfOk result (IsTrial definition.now front.now keep.items tree.now) }
    ensures near { IfOk result (λ t. IsNear definition.now tree.now t.note) }
    ensures fault { IfErr result (IsTrialFault definition.now front.now keep.items tree.now) }
    // whatever it answers
    ensures climb { steps.new ≤ steps.old
        + diff_of (tree_in old.now) (opened definition.now (kept_in keep.items) (new_name front.now) tree.now) }
    ensures ticks { steps.new ≤ steps.old + work_of tree.now }
{
    let kept = keep.as_slice();
    let opened = kept_tree(alloc, definition, tables, front, kept, tree)?;
    let places = held(opened.others);
    match beside(alloc, definition, tables, old, &opened.tree, steps) {
        Ok(note) => {
            let good = note.is_good();
            Ok(Trial { note, places, good })
        }
        Err(fault) => Err(limit(keep, fault)),
    }
}

/// Makes the note of the tree in which no place is kept.
pub(crate) fn nothing_noted<L: Ledger>(
    alloc: Global,
    definition: &Definition,
    tables: &Tables,
    front: &Txt,
    tree: &Tree,
    steps: &mut Steps<L>,
) -> Result<Note, BlameFault>
    requires sound { IsSound definition.now }
    requires tables { AreTables definition.now tables.now }
    requires formed { IsFormed definition.now tree.now }
    requires front { IsFront definition.now tree.now front.now }
    ensures note { IfOk result
        (IsNoteOf definition.now (opened definition.now (kept_in []) (new_name front.now) tree.now)) }
    ensures near { IfOk result (IsNear definition.now tree.now) }
    ensures fault { IfErr result (IsBlameFault definition.now tree.now) }
    // whatever it answers
    ensures anew { steps.new ≤ steps.old
        + work_of (opened definition.now (kept_in []) (new_name front.now) tree.now) }
    ensures ticks { steps.new ≤ steps.old + work_of tree.now }
{
    let none = Vec::new(alloc);
    let opened = kept_tree(alloc, definition, tables, front, &[], tree)?;
    let _places = held(opened.others);
    match build(alloc, definition, tables, &opened.tree, steps) {
        Ok(note) => Ok(note),
        Err(fault) => Err(limit(none, fault)),
    }
}
