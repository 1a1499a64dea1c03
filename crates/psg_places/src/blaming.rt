//! The search for the places that can't be kept.
ghost use Rattle.std.specs.Prelude.{ℕ, ◌≡◌, ◌+◌, ◌*◌, ◌^◌, ◌<◌, ◌≤◌, ◌↔◌, [], length, IfErr, IfOk, IsTrue};
ghost use Rattle.psg_cache.specs.Annotated.{tree_in};
ghost use Rattle.psg_cache.specs.Diff.{diff_of};
ghost use Rattle.psg_cache.specs.Notes.{AreTables, IsFormed, IsNoteOf};
ghost use Rattle.psg_completions.specs.Conditions.{HasTrueRows};
ghost use Rattle.psg_grammar.specs.Legal.{IsCompletable};
ghost use Rattle.psg_grammar.specs.Open.{IsOpen};
ghost use Rattle.psg_grammar.specs.Sound.{IsSound};
ghost use Rattle.psg_grammar.specs.Work.{work_of};
ghost use Rattle.psg_places.specs.Answers.{AreRounds, IsBlame, IsBlameFault, IsNear, IsSearch, answers_by, blamed_by};
ghost use Rattle.psg_places.specs.Answers.{trials_work};
ghost use Rattle.psg_places.specs.Blame.{AreAllAnswers, blamed_in, kept_in, most_blamed, none_kept};
ghost use Rattle.psg_places.specs.NewNames.{IsFront, new_name};
ghost use Rattle.psg_places.specs.Opened.{opened};
ghost use Rattle.psg_places.specs.Places.{place_count};

use crate::fault::BlameFault;
use crate::fronts::front_of;
use crate::halving::{add_found, next_found};
use crate::numbers::one_if;
use crate::trial::{kept_tree, nothing_noted, tried};
use psg_cache::Note;
use psg_eval::Tables;
use psg_grammar::Definition;
use psg_terms::{Seq, Steps, Txt};
use psg_tree::Tree;
use std::alloc::Global;
use std::sync::ledger::Ledger;

/// How many places are blamed at most.
pub const MOST_BLAMED: usize = 100;

/// Which places of a tree are kept, and the tree of these.
#[derive(Drop)]
pub struct Blamed {
    /// Whether each place is kept, in the order of the text, up to the hundredth that is not. The places below a blamed
    /// node or element are counted too: such a place can be kept, and is still not in `repaired`.
    pub kept: Seq<bool>,
    /// The tree of the kept places. The others are opened, and all after the hundredth that is not kept.
    pub repaired: Tree,
    /// The letters that each new name begins with. An a and the number of the name's place follow.
    pub names: Txt,
}

/// Finds which places of the tree are blamed. A place is kept exactly if the tree has a completion with it and the kept
/// places before it, all later places opened. Else it is blamed. Names that are opened are new ones, and which new
/// names are taken does not matter. The first hundred blamed places are found, and all after the hundredth are opened.
/// The call returns `None` exactly if the tree has no completion even with nothing kept. All this is so in a definition
/// with true hole rows, as an accepted one has them.
///
/// The search halves: it tries all places that are left. If these can't be kept together, it finds by halving the most
/// of them that can, and the place after these is blamed. So it makes two trials, and for each blamed place one and as
/// many as the number of places can be halved. The first trial evaluates a whole tree. Each other one evaluates what
/// its tree has not in common with that of the last trial in which all places that were left were kept; before there is
/// one, with that of the first trial. `steps` counts the evaluations.
///
/// A fault is that of the tree with nothing kept, or of the kept places so far and some of the next ones.
pub fn blame<L: Ledger>(
    alloc: Global,
    definition: &Definition,
    tables: &Tables,
    tree: &Tree,
    steps: &mut Steps<L>,
) -> Result<Option<Blamed>, BlameFault>
    requires sound { IsSound definition.now }
    requires tables { AreTables definition.now tables.now }
    requires formed { IsFormed definition.now tree.now }
    ensures open { HasTrueRows definition.now
        → IfOk result (IsBlame (IsOpen definition.now) definition.now tree.now) }
    ensures completable { HasTrueRows definition.now
        → IfOk result (IsBlame (IsCompletable definition.now) definition.now tree.now) }
    ensures fault { IfErr result (IsBlameFault definition.now tree.now) }
    // 2 ^ h is no less than the number of places
    ensures climbs { IfOk result (λ found. (h : ℕ) → place_count definition.now tree.now ≤ 2 ^ h
        → IsSearch definition.now tree.now work_of (λ nothing. nothing) (answers_by found) h steps.old steps.new) }
    ensures trials { IfOk result (λ found. (h : ℕ) → place_count definition.now tree.now ≤ 2 ^ h
        → steps.new ≤ steps.old + trials_work (2 + blamed_by found * (1 + h)) (work_of tree.now)) }
    // whatever it answers
    ensures ticks { (h : ℕ) → place_count definition.now tree.now ≤ 2 ^ h
        → steps.new ≤ steps.old + trials_work (2 + most_blamed * (1 + h)) (work_of tree.now) }
{
    let front = front_of(alloc, definition, tree)?;
    let nothing = nothing_noted(alloc, definition, tables, &front, tree, steps)?;
    searched(alloc, definition, tables, front, &nothing, tree, steps)
}

/// Finds which places of the tree are blamed, as `blame` does, for a tree that has a note. No trial evaluates again what
/// its tree has in common with the whole tree, or with the last one in which all places that were left were kept.
pub fn blame_noted<L: Ledger>(
    alloc: Global,
    definition: &Definition,
    tables: &Tables,
    note: &Note,
    tree: &Tree,
    steps: &mut Steps<L>,
) -> Result<Option<Blamed>, BlameFault>
    requires sound { IsSound definition.now }
    requires tables { AreTables definition.now tables.now }
    requires note { IsNoteOf definition.now tree.now note.now }
    ensures open { HasTrueRows definition.now
        → IfOk result (IsBlame (IsOpen definition.now) definition.now tree.now) }
    ensures completable { HasTrueRows definition.now
        → IfOk result (IsBlame (IsCompletable definition.now) definition.now tree.now) }
    ensures fault { IfErr result (IsBlameFault definition.now tree.now) }
    // 2 ^ h is no less than the number of places
    ensures climbs { IfOk result (λ found. (h : ℕ) → place_count definition.now tree.now ≤ 2 ^ h
        → IsSearch definition.now tree.now (diff_of tree.now) (λ nothing. tree.now) (answers_by found) h steps.old
        steps.new) }
    ensures trials { IfOk result (λ found. (h : ℕ) → place_count definition.now tree.now ≤ 2 ^ h
        → steps.new ≤ steps.old + trials_work (2 + blamed_by found * (1 + h)) (work_of tree.now)) }
    // whatever it answers
    ensures ticks { (h : ℕ) → place_count definition.now tree.now ≤ 2 ^ h
        → steps.new ≤ steps.old + trials_work (2 + most_blamed * (1 + h)) (work_of tree.now) }
{
    let front = front_of(alloc, definition, tree)?;
    searched(alloc, definition, tables, front, note, tree, steps)
}

/// Finds which places of the tree are blamed. The first trials are made beside the note.
fn searched<L: Ledger>(
    alloc: Global,
    definition: &Definition,
    tables: &Tables,
    front: Txt,
    old: &Note,
    tree: &Tree,
    steps: &mut Steps<L>,
) -> Result<Option<Blamed>, BlameFault>
    requires sound { IsSound definition.now }
    requires tables { AreTables definition.now tables.now }
    requires formed { IsFormed definition.now tree.now }
    requires front { IsFront definition.now tree.now front }
    requires near { IsNear definition.now tree.now old.now }
    ensures open { HasTrueRows definition.now
        → IfOk result (IsBlame (IsOpen definition.now) definition.now tree.now) }
    ensures completable { HasTrueRows definition.now
        → IfOk result (IsBlame (IsCompletable definition.now) definition.now tree.now) }
    ensures fault { IfErr result (IsBlameFault definition.now tree.now) }
    ensures climbs { IfOk result (λ found. (h : ℕ) → place_count definition.now tree.now ≤ 2 ^ h → (middle : ℕ)
        × (middle ≤ steps.old + diff_of (tree_in old.now) (opened definition.now (kept_in []) (new_name front) tree.now))
        × AreRounds definition.now front tree.now (tree_in old.now) (answers_by found) h middle steps.new) }
    ensures trials { IfOk result (λ found. (h : ℕ) → place_count definition.now tree.now ≤ 2 ^ h
        → steps.new ≤ steps.old + (diff_of (tree_in old.now) (opened definition.now (kept_in []) (new_name front) tree.now)
        + trials_work (1 + blamed_by found * (1 + h)) (work_of tree.now))) }
    // whatever it answers
    ensures ticks { (h : ℕ) → place_count definition.now tree.now ≤ 2 ^ h
        → steps.new ≤ steps.old + (diff_of (tree_in old.now) (opened definition.now (kept_in []) (new_name front) tree.now)
        + trials_work (1 + most_blamed * (1 + h)) (work_of tree.now)) }
{
    let none = Vec::new(alloc);
    let nothing = tried(alloc, definition, tables, &front, old, none, tree, steps)?;
    if !nothing.good {
        return Ok(None);
    }
    let kept = answers(
        alloc,
        definition,
        tables,
        &front,
        old,
        nothing.places,
        tree,
        steps,
    )?;
    let answered = kept.as_slice();
    let last = kept_tree(alloc, definition, tables, &front, answered, tree)?;
    Ok(Some(Blamed {
        kept: Seq::of(kept),
        repaired: last.tree,
        names: front,
    }))
}

/// Says whether a place is left, and fewer than a hundred are blamed.
fn is_due(kept: &[bool], places: usize, blamed: usize) -> bool
    ensures { IsTrue result ↔ (length kept.now < places) × (blamed < most_blamed) }
{
    kept.len() < places && blamed < MOST_BLAMED
}

/// Finds one blamed place after the other, until a hundred are found or none is left. The first trial is made beside
/// the old note.
fn answers<L: Ledger>(
    alloc: Global,
    definition: &Definition,
    tables: &Tables,
    front: &Txt,
    old: &Note,
    places: usize,
    tree: &Tree,
    steps: &mut Steps<L>,
) -> Result<Vec<bool>, BlameFault>
    requires sound { IsSound definition.now }
    requires tables { AreTables definition.now tables.now }
    requires formed { IsFormed definition.now tree.now }
    requires front { IsFront definition.now tree.now front.now }
    requires near { IsNear definition.now tree.now old.now }
    requires count { places ≡ place_count definition.now tree.now }
    requires nothing { IsOpen definition.now (opened definition.now none_kept (new_name front.now) tree.now) }
    ensures open { HasTrueRows definition.now
        → IfOk result (λ kept. AreAllAnswers (IsOpen definition.now) definition.now (new_name front.now)
        tree.now kept.items) }
    ensures fault { IfErr result (IsBlameFault definition.now tree.now) }
    ensures climbs { IfOk result (λ kept. (h : ℕ) → places ≤ 2 ^ h
        → AreRounds definition.now front.now tree.now (tree_in old.now) kept.items h steps.old steps.new) }
    ensures trials { IfOk result (λ kept. (h : ℕ) → places ≤ 2 ^ h
        → steps.new ≤ steps.old + trials_work (1 + blamed_in kept.items * (1 + h)) (work_of tree.now)) }
    // whatever it answers
    ensures ticks { (h : ℕ) → places ≤ 2 ^ h
        → steps.new ≤ steps.old + trials_work (1 + most_blamed * (1 + h)) (work_of tree.now) }
{
    let mut base = old.share()?;
    let mut kept = Vec::new(alloc);
    let mut blamed = 0;
    'places: while is_due(kept.as_slice(), places, blamed) {
        let done = kept.as_slice();
        let found = next_found(
            alloc, definition, tables, front, &base, done, places, tree, steps,
        )?;
        add_found(&mut kept, &found)?;
        let more = one_if(found.blamed);
        blamed += more;
        base = found.all;
    }
    Ok(kept)
}
