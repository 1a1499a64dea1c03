//! The next blamed place: the most places that can be kept together after those before them, by halving.
ghost use Rattle.std.specs.Prelude.{ℕ, ◌≡◌, ◌+◌, ◌^◌, ◌<◌, ◌≤◌, ◌++◌, ◌↔◌, true, false, cond, length, replicate, IfErr};
ghost use Rattle.std.specs.Prelude.{IfOk, IsTrue, List, OnOk};
ghost use Rattle.std.specs.List.{AllByRecursion};
ghost use Rattle.psg_cache.specs.Annotated.{tree_in};
ghost use Rattle.psg_cache.specs.Diff.{diff_of};
ghost use Rattle.psg_cache.specs.Notes.{AreTables, IsFormed};
ghost use Rattle.psg_grammar.specs.Fragments.{Fragment};
ghost use Rattle.psg_grammar.specs.Open.{IsOpen};
ghost use Rattle.psg_grammar.specs.Sound.{IsSound};
ghost use Rattle.psg_grammar.specs.Work.{work_of};
ghost use Rattle.psg_places.specs.Answers.{HasMore, IsBlameFault, IsMost, IsNear, IsNextFound, IsNextTree, IsRound};
ghost use Rattle.psg_places.specs.Answers.{Round, beside_work, next_tree, trials_work, with_found};
ghost use Rattle.psg_places.specs.NewNames.{IsFront, new_name};
ghost use Rattle.psg_places.specs.Places.{place_count};

use crate::fault::BlameFault;
use crate::trial::{Trial, tried};
use psg_cache::Note;
use psg_eval::Tables;
use psg_grammar::Definition;
use psg_terms::{Steps, Txt};
use psg_tree::Tree;
use std::alloc::{AllocError, Global};
use std::sync::ledger::Ledger;

/// How many of the next places are kept, and whether the place after these is blamed. Else no place is after them.
#[derive(Drop)]
pub(crate) struct Found {
    pub(crate) more: usize,
    pub(crate) blamed: bool,
    /// The note of the tree in which all the next places are kept.
    pub(crate) all: Note,
}

/// Adds that many answers that keep their places.
fn keep_more(kept: &mut Vec<bool>, more: usize) -> Result<(), AllocError>
    requires { length kept.old.items + more < 2 ^ 64 }
    ensures { OnOk result (kept.new.items ≡ kept.old.items ++ replicate more true) }
{
    let end = kept.len() + more;
    kept.resize(end, true)?;
    Ok(())
}

/// Adds the answers that were found.
pub(crate) fn add_found(kept: &mut Vec<bool>, found: &Found) -> Result<(), AllocError>
    requires { length kept.old.items + found.now.more < 2 ^ 64 }
    ensures { OnOk result (kept.new.items ≡ with_found kept.old.items found.now) }
{
    keep_more(kept, found.more)?;
    if !found.blamed {
        return Ok(());
    }
    kept.push(false)?;
    Ok(())
}

/// Returns the answers with that many more, which keep the next places.
fn with_next(alloc: Global, kept: &[bool], more: usize) -> Result<Vec<bool>, AllocError>
    requires { length kept.now + more < 2 ^ 64 }
    ensures { IfOk result (λ longer. longer.items ≡ kept.now ++ replicate more true) }
{
    let mut longer = Vec::from_slice(alloc, kept)?;
    keep_more(&mut longer, more)?;
    Ok(longer)
}

/// Tries that many of the next places together with those that are kept before them.
fn next_trial<L: Ledger>(
    alloc: Global,
    definition: &Definition,
    tables: &Tables,
    front: &Txt,
    old: &Note,
    kept: &[bool],
    more: usize,
    tree: &Tree,
    steps: &mut Steps<L>,
) -> Result<Trial, BlameFault>
    requires sound { IsSound definition.now }
    requires tables { AreTables definition.now tables.now }
    requires formed { IsFormed definition.now tree.now }
    requires front { IsFront definition.now tree.now front.now }
    requires near { IsNear definition.now tree.now old.now }
    requires small { place_count definition.now tree.now < 2 ^ 64 }
    requires more { HasMore definition.now (new_name front.now) tree.now kept.now more }
    ensures open { IfOk result (λ t. (t.good ≡ true)
        ↔ IsOpen definition.now (next_tree definition.now front.now kept.now more tree.now)) }
    ensures near { IfOk result (λ t. IsNear definition.now tree.now t.note) }
    ensures tree { IfOk result (λ t. tree_in t.note ≡ next_tree definition.now front.now kept.now more tree.now) }
    ensures fault { IfErr result (IsBlameFault definition.now tree.now) }
    // whatever it answers
    ensures climb { steps.new ≤ steps.old
        + diff_of (tree_in old.now) (next_tree definition.now front.now kept.now more tree.now) }
    ensures ticks { steps.new ≤ steps.old + work_of tree.now }
{
    let next = with_next(alloc, kept, more)?;
    let trial = tried(alloc, definition, tables, front, old, next, tree, steps)?;
    Ok(trial)
}

/// Says whether that many of the next places can be kept together with those that are kept before them.
fn keeps_next<L: Ledger>(
    alloc: Global,
    definition: &Definition,
    tables: &Tables,
    front: &Txt,
    old: &Note,
    kept: &[bool],
    more: usize,
    tree: &Tree,
    steps: &mut Steps<L>,
) -> Result<bool, BlameFault>
    requires sound { IsSound definition.now }
    requires tables { AreTables definition.now tables.now }
    requires formed { IsFormed definition.now tree.now }
    requires front { IsFront definition.now tree.now front.now }
    requires near { IsNear definition.now tree.now old.now }
    requires small { place_count definition.now tree.now < 2 ^ 64 }
    requires more { HasMore definition.now (new_name front.now) tree.now kept.now more }
    ensures open { IfOk result (λ good. (good ≡ true)
        ↔ IsOpen definition.now (next_tree definition.now front.now kept.now more tree.now)) }
    ensures fault { IfErr result (IsBlameFault definition.now tree.now) }
    // whatever it answers
    ensures climb { steps.new ≤ steps.old
        + diff_of (tree_in old.now) (next_tree definition.now front.now kept.now more tree.now) }
    ensures ticks { steps.new ≤ steps.old + work_of tree.now }
{
    let trial = next_trial(
        alloc, definition, tables, front, old, kept, more, tree, steps,
    )?;
    let good = trial.good;
    Ok(good)
}

/// Says whether there is a number between the two.
fn is_wide(low: usize, high: usize) -> bool
    requires { low < high }
    ensures { IsTrue result ↔ (low + 1 < high) }
{
    high - low > 1
}

/// Returns the number in the middle between the two.
fn between(low: usize, high: usize) -> usize
    requires { low + 1 < high }
    ensures above { low < result }
    ensures below { result < high }
    ensures half { (w : ℕ) → high ≤ low + (w + w) → (result ≤ low + w) × (high ≤ result + w) }
{
    low + (high - low) / 2
}

/// Returns the one number or the other.
fn either(first: bool, one: usize, other: usize) -> usize
    ensures { result ≡ cond first one other }
{
    if first { one } else { other }
}

/// Finds the most of the next places that can be kept together with those before them, where `left` of them can't.
fn most_kept<L: Ledger>(
    alloc: Global,
    definition: &Definition,
    tables: &Tables,
    front: &Txt,
    old: &Note,
    kept: &[bool],
    left: usize,
    tree: &Tree,
    steps: &mut Steps<L>,
) -> Result<usize, BlameFault>
    requires sound { IsSound definition.now }
    requires tables { AreTables definition.now tables.now }
    requires formed { IsFormed definition.now tree.now }
    requires front { IsFront definition.now tree.now front.now }
    requires near { IsNear definition.now tree.now old.now }
    requires small { place_count definition.now tree.now < 2 ^ 64 }
    requires more { HasMore definition.now (new_name front.now) tree.now kept.now left }
    requires good { IsOpen definition.now (next_tree definition.now front.now kept.now 0 tree.now) }
    requires bad { IsOpen definition.now (next_tree definition.now front.now kept.now left tree.now) → ⊥ }
    ensures most { IfOk result (IsMost definition.now front.now tree.now kept.now left) }
    ensures fault { IfErr result (IsBlameFault definition.now tree.now) }
    ensures climbs { IfOk result (λ _. (h : ℕ) → left ≤ 2 ^ h → (trees : List Fragment) × (length trees ≤ h)
        × AllByRecursion (IsNextTree definition.now front.now tree.now kept.now) trees
        × (steps.new ≤ steps.old + beside_work (tree_in old.now) trees)) }
    // whatever it answers
    ensures ticks { (h : ℕ) → left ≤ 2 ^ h → steps.new ≤ steps.old + trials_work h (work_of tree.now) }
{
    let mut low = 0;
    let mut high = left;
    'halves: while is_wide(low, high) {
        let middle = between(low, high);
        let good = keeps_next(
            alloc, definition, tables, front, old, kept, middle, tree, steps,
        )?;
        let next_low = either(good, middle, low);
        let next_high = either(good, high, middle);
        low = next_low;
        high = next_high;
    }
    Ok(low)
}

/// Finds how many of the next places are kept, and whether the place after these is blamed. All that are left are tried
/// beside the old note, and fewer of them beside the note of these.
pub(crate) fn next_found<L: Ledger>(
    alloc: Global,
    definition: &Definition,
    tables: &Tables,
    front: &Txt,
    old: &Note,
    kept: &[bool],
    places: usize,
    tree: &Tree,
    steps: &mut Steps<L>,
) -> Result<Found, BlameFault>
    requires sound { IsSound definition.now }
    requires tables { AreTables definition.now tables.now }
    requires formed { IsFormed definition.now tree.now }
    requires front { IsFront definition.now tree.now front.now }
    requires near { IsNear definition.now tree.now old.now }
    requires count { places ≡ place_count definition.now tree.now }
    requires more { HasMore definition.now (new_name front.now) tree.now kept.now 1 }
    requires good { IsOpen definition.now (next_tree definition.now front.now kept.now 0 tree.now) }
    ensures near { IfOk result (λ found. IsNear definition.now tree.now found.all) }
    ensures next { IfOk result (IsNextFound definition.now front.now tree.now kept.now) }
    ensures fault { IfErr result (IsBlameFault definition.now tree.now) }
    ensures round { IfOk result (λ found. (h : ℕ) → places ≤ 2 ^ h → (r : Round)
        × IsRound definition.now front.now tree.now kept.now h r × (tree_in found.all ≡ r.all)
        × (steps.new ≤ steps.old + (diff_of (tree_in old.now) r.all + beside_work r.all r.fewer))) }
    ensures all { IfOk result (λ found. found.blamed ≡ false → steps.new ≤ steps.old + work_of tree.now) }
    // whatever it answers
    ensures ticks { (h : ℕ) → places ≤ 2 ^ h → steps.new ≤ steps.old + trials_work (1 + h) (work_of tree.now) }
{
    let left = places - kept.len();
    let trial = next_trial(
        alloc, definition, tables, front, old, kept, left, tree, steps,
    )?;
    if trial.good {
        return Ok(Found {
            more: left,
            blamed: false,
            all: trial.note,
        });
    }
    let all = trial.note;
    let more = most_kept(
        alloc, definition, tables, front, &all, kept, left, tree, steps,
    )?;
    Ok(Found {
        more,
        blamed: true,
        all,
    })
}
