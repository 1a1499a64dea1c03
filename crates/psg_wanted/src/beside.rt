//! What the nodes and names of a tree may be, where another tree of its kind has a note: what both trees have in common
//! is not evaluated again.
ghost use Rattle.std.specs.Prelude.{◌≡◌, ◌≤◌, ◌+◌, ◌↔◌, ◌∷◌, [], ℕ, IfOk, IfSome, IsTrue, None, Some};
ghost use Rattle.psg_terms.specs.Relations.{IsIn};
ghost use Rattle.psg_terms.specs.Signature.{HasSort};
ghost use Rattle.psg_terms.specs.Terms.{Term as Plain};
ghost use Rattle.psg_grammar.specs.Fragments.{Fragment};
ghost use Rattle.psg_grammar.specs.Open.{IsOpen};
ghost use Rattle.psg_grammar.specs.Paths.{node_at};
ghost use Rattle.psg_grammar.specs.Sound.{IsSound};
ghost use Rattle.psg_cache.specs.Annotated.{tree_in};
ghost use Rattle.psg_cache.specs.Diff.{diff_of};
ghost use Rattle.psg_cache.specs.Notes.{AreTables, IsNoteOf, TellsOpen};
ghost use Rattle.psg_places.specs.Answers.{IsBeside};
ghost use Rattle.psg_wanted.specs.Fronts.{AreKeyValues, AreValues, IsTooMuch};

use crate::values::{key_values_in, no_note, values_in};
use psg_cache::{Note, replaced};
use psg_eval::Tables;
use psg_grammar::Definition;
use psg_terms::{Steps, Term, Txt};
use psg_tree::{Path, Tree};
use std::alloc::{AllocError, Global};
use std::sync::ledger::Ledger;

/// Returns the note of the tree, made beside that of another tree of its kind; none where it passes a limit.
pub fn noted_beside<L: Ledger>(
    alloc: Global,
    definition: &Definition,
    tables: &Tables,
    old: &Note,
    tree: &Tree,
    steps: &mut Steps<L>,
) -> Result<Option<Note>, AllocError>
    requires sound { IsSound definition.now }
    requires tables { AreTables definition.now tables.now }
    requires old { IsNoteOf definition.now (tree_in old.now) old.now }
    requires kinds { IsBeside definition.now (tree_in old.now) tree.now }
    ensures note { IfOk result (λ found. IfSome found (IsNoteOf definition.now tree.now)) }
    ensures open { IfOk result (λ found. IfSome found (TellsOpen definition.now tree.now)) }
    ensures none { IfOk result (λ found. found ≡ None → IsTooMuch definition.now tree.now) }
    // whatever it answers
    ensures ticks { steps.new ≤ steps.old + diff_of (tree_in old.now) tree.now }
{
    let root = Path::of(alloc, &[])?;
    match replaced(alloc, definition, tables, old, &root, tree, steps) {
        Ok(note) => Ok(Some(note)),
        Err(fault) => {
            let none = no_note(fault)?;
            Ok(none)
        }
    }
}

/// Says whether the tree has a completion, beside the note of another tree of its kind; not where it passes a limit.
pub fn is_good<L: Ledger>(
    alloc: Global,
    definition: &Definition,
    tables: &Tables,
    old: &Note,
    tree: &Tree,
    steps: &mut Steps<L>,
) -> Result<bool, AllocError>
    requires sound { IsSound definition.now }
    requires tables { AreTables definition.now tables.now }
    requires old { IsNoteOf definition.now (tree_in old.now) old.now }
    requires kinds { IsBeside definition.now (tree_in old.now) tree.now }
    ensures good { IfOk result
        (λ good. IsTrue good ↔ ((IsTooMuch definition.now tree.now → ⊥) × IsOpen definition.now tree.now)) }
    // whatever it answers
    ensures ticks { steps.new ≤ steps.old + diff_of (tree_in old.now) tree.now }
{
    let found = noted_beside(alloc, definition, tables, old, tree, steps)?;
    match found {
        Some(note) => {
            let good = note.is_good();
            Ok(good)
        }
        None => Ok(false),
    }
}

/// Returns the values of the node at the path in completions of the tree, beside the note of another tree of its kind;
/// none where it passes a limit.
pub fn values_beside<L: Ledger>(
    alloc: Global,
    definition: &Definition,
    tables: &Tables,
    old: &Note,
    tree: &Tree,
    path: &Path,
    steps: &mut Steps<L>,
) -> Result<Vec<Term>, AllocError>
    requires sound { IsSound definition.now }
    requires tables { AreTables definition.now tables.now }
    requires old { IsNoteOf definition.now (tree_in old.now) old.now }
    requires kinds { IsBeside definition.now (tree_in old.now) tree.now }
    requires there { (node : Fragment) × (node_at tree.now path.now ≡ Some node) }
    ensures values { IfOk result (λ v. AreValues definition.now tree.now path.now v.items) }
    ensures sorted { IfOk result
        (λ v. (t : Plain) → IsIn t v.items → (s : ℕ) × HasSort definition.now.signature t s) }
{
    let found = noted_beside(alloc, definition, tables, old, tree, steps)?;
    match found {
        Some(note) => {
            let told = values_in(alloc, definition, tables, &note, path, steps)?;
            Ok(told)
        }
        None => Ok(Vec::new(alloc)),
    }
}

/// Returns the entities that the name may have in completions of the tree, as most general terms in the order of their
/// texts. It evaluates the tree beside the note of another tree of its kind. It returns none where the tree passes a
/// limit, and where its relation has no column for the name: the tree does not use it, or an unfinished list may still
/// declare it.
pub fn key_values<L: Ledger>(
    alloc: Global,
    definition: &Definition,
    tables: &Tables,
    old: &Note,
    tree: &Tree,
    space: u32,
    name: &Txt,
    steps: &mut Steps<L>,
) -> Result<Vec<Term>, AllocError>
    requires sound { IsSound definition.now }
    requires tables { AreTables definition.now tables.now }
    requires old { IsNoteOf definition.now (tree_in old.now) old.now }
    requires kinds { IsBeside definition.now (tree_in old.now) tree.now }
    ensures values { IfOk result (λ v. AreKeyValues definition.now tree.now (space ∷ name.now) v.items) }
    ensures sorted { IfOk result
        (λ v. (t : Plain) → IsIn t v.items → (s : ℕ) × HasSort definition.now.signature t s) }
{
    let found = noted_beside(alloc, definition, tables, old, tree, steps)?;
    match found {
        Some(note) => {
            let told = key_values_in(alloc, definition, &note, space, name)?;
            Ok(told)
        }
        None => Ok(Vec::new(alloc)),
    }
}
