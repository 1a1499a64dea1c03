//! Trees in which some places of a wrong program are kept.
ghost use Rattle.std.specs.Prelude.{◌≡◌, ◌++◌, ◌+◌, ◌∷◌, ◌↔◌, ◌≤◌, [], IfOk, length, take, true};
ghost use Rattle.psg_cache.specs.Diff.{diff_of};
ghost use Rattle.psg_places.specs.Answers.{IsBeside};
ghost use Rattle.psg_places.specs.Blame.{kept_in};
ghost use Rattle.psg_places.specs.Listings as listings;
ghost use Rattle.psg_places.specs.NewNames.{new_name};
ghost use Rattle.psg_places.specs.Opened.{opened};
ghost use Rattle.psg_lint.specs.Hints.{IsGoodWith};
ghost use Rattle.psg_lint.specs.Judged.{IsWrong, def_of, fresh_of, tree_in};

use psg_cache::Note;
use psg_eval::Tables;
use psg_grammar::Definition;
use psg_places::{Place, kept_part};
use psg_recover::spots::Spots;
use psg_terms::{Steps, Txt};
use psg_tree::Tree;
use psg_wanted::beside::is_good;
use std::alloc::{AllocError, Global};
use std::sync::ledger::Ledger;

/// A program, with what is known of its definition and its text.
#[derive(Clone, Copy)]
pub(crate) struct Judged<'a> {
    pub(crate) definition: &'a Definition,
    pub(crate) tables: &'a Tables,
    pub(crate) text: &'a str,
    pub(crate) tree: &'a Tree,
    pub(crate) spots: Spots<'a>,
}

/// A wrong program, and which of its places are kept.
#[derive(Clone, Copy)]
pub(crate) struct Wrong<'a> {
    pub(crate) judged: Judged<'a>,
    /// Whether each place is kept, up to the hundredth that is not.
    pub(crate) kept: &'a [bool],
    /// All places.
    pub(crate) places: &'a [Place],
    /// The letters of new names.
    pub(crate) names: &'a Txt,
    /// The note of the program.
    pub(crate) note: &'a Note,
}

/// Returns the tree of the kept places.
pub(crate) fn tree_of(
    alloc: Global,
    wrong: Wrong,
    kept: &[bool],
    tree: &Tree,
) -> Result<Tree, AllocError>
    requires wrong { IsWrong wrong }
    ensures { IfOk result (λ part. part ≡ opened wrong.entry.judged.definition.now (kept_in kept.now)
        (new_name wrong.entry.names.now) tree.now) }
{
    let judged = wrong.judged;
    let definition = judged.definition;
    let tables = judged.tables;
    let part = kept_part(alloc, definition, tables, wrong.names, kept, tree)?;
    Ok(part)
}

/// Says whether the tree of the kept places has a completion; not where it passes a limit. It is evaluated beside the
/// program: what both have in common is not evaluated again.
pub(crate) fn can_be<L: Ledger>(
    alloc: Global,
    wrong: Wrong,
    kept: &[bool],
    tree: &Tree,
    steps: &mut Steps<L>,
) -> Result<bool, AllocError>
    requires wrong { IsWrong wrong }
    requires kinds { IsBeside (def_of wrong) (tree_in wrong) tree.now }
    ensures good { IfOk result (λ good. (good ≡ true) ↔ IsGoodWith (def_of wrong.entry) (fresh_of wrong.entry) tree.now
        kept.now) }
    // whatever it answers
    ensures ticks { steps.new ≤ steps.old + diff_of (tree_in wrong.entry)
        (opened (def_of wrong.entry) (kept_in kept.now) (fresh_of wrong.entry) tree.now) }
{
    let judged = wrong.judged;
    let part = tree_of(alloc, wrong, kept, tree)?;
    let good = is_good(
        alloc,
        judged.definition,
        judged.tables,
        wrong.note,
        &part,
        steps,
    )?;
    Ok(good)
}

/// Returns the answers for the places before the number, and that it is kept.
pub(crate) fn up_to(alloc: Global, kept: &[bool], number: usize) -> Result<Vec<bool>, AllocError>
    requires { number ≤ length kept.now }
    ensures { IfOk result (λ answers. answers.items ≡ take number kept.now ++ true ∷ []) }
{
    let mut answers = Vec::from_slice(alloc, &kept[..number])?;
    answers.push(true)?;
    Ok(answers)
}

/// Says whether the place of the number is blamed: there is an answer for it, and it is not kept.
pub(crate) fn is_blamed(kept: &[bool], number: usize) -> bool
    ensures { result ≡ listings.is_blamed kept.now number }
{
    match kept.get(number) {
        Some(kept) => !*kept,
        None => false,
    }
}
