//! What is said of a noted tree.
ghost use Rattle.std.specs.Prelude.{◌≡◌, ◌+◌, ◌*◌, ◌≤◌, false, [], IfOk, Some};
ghost use Rattle.psg_terms.specs.Names.{has_twice};
ghost use Rattle.psg_grammar.specs.Fragments.{Fragment};
ghost use Rattle.psg_grammar.specs.Paths.{node_at};
ghost use Rattle.psg_grammar.specs.Regions.{declared_inside};
ghost use Rattle.psg_grammar.specs.Work.{work_of};
ghost use Rattle.psg_cache.specs.Annotated.{tree_in};
ghost use Rattle.psg_cache.specs.Notes.{IsFormed, IsNoteOf};
ghost use Rattle.psg_explain.specs.Claiming.{MayClaimAll};
ghost use Rattle.psg_explain.specs.Explanations.{IsAbout, IsExplained, IsFirstCulprit};
ghost use Rattle.psg_explain.specs.Plans.{planned};
ghost use Rattle.psg_explain.specs.Refutations.{Refutes};
ghost use Rattle.psg_explain.specs.Relations.{AreRelations};
ghost use Rattle.psg_explain.specs.Sources.{AreStages};

use crate::claiming::rows_up_to_none;
use crate::claims::claims_of;
use crate::counting_pairs::pairs_in;
use crate::refutation::Refutation;
use crate::regions::{declared, first_twice};
use crate::relating::Rows;
use crate::stages::Stage;
use crate::staging::stages_of;
use psg_cache::Note;
use psg_specimen::Language;
use psg_specimen::laws::{promises, true_rows};
use psg_terms::{Seq, Steps};
use psg_tree::{Path, Tree, at};
use std::alloc::{AllocError, Global};
use std::sync::ledger::Ledger;

/// How many pairs of rows are looked at at most.
const MOST_PAIRS: u128 = 65_536;

/// What is said of a tree.
#[derive(Drop)]
pub enum Explained {
    /// It has a completion.
    Fine,
    /// It has none, but to say why takes more than 65,536 pairs of rows.
    Long,
    /// Why it has none.
    Wrong(Refutation),
}

/// Returns why the node at the path, of which these are the steps with their relations, has no completion: the first
/// key that is declared twice there, or claims.
fn refutation_of(
    alloc: Global,
    lang: &Language,
    path: &Path,
    node: &Tree,
    stages: &[Stage],
    rows: Vec<Rows>,
) -> Result<Refutation, AllocError>
    requires formed { IsFormed lang.now node.now }
    requires stages { AreStages lang.now stages.now (planned lang.now 0 path.now node.now) }
    requires relations { AreRelations lang.now path.now node.now rows.items }
    requires claimable { has_twice (declared_inside lang.now node.now) ≡ false
        → MayClaimAll lang.now [] (planned lang.now 0 path.now node.now) rows.items }
    ensures { IfOk result (λ r. (root : Fragment) → node_at root path.now ≡ Some node.now
        → Refutes lang.now root r × IsAbout lang.now path.now node.now r) }
{
    let itself = Path::of(alloc, path.steps())?;
    let definition = lang.definition();
    let keys = declared(alloc, definition, node)?;
    match first_twice(keys.as_slice()) {
        Some(key) => {
            let name = key.name.share()?;
            Ok(Refutation::Twice {
                path: itself,
                space: key.space,
                name,
            })
        }
        None => {
            let claims = claims_of(alloc, definition, stages, rows)?;
            let all = Seq::of(claims);
            Ok(Refutation::Empty {
                path: itself,
                claims: all,
            })
        }
    }
}

/// Says why the first culprit, which is this node, has no completion.
fn node_explained<L: Ledger>(
    alloc: Global,
    lang: &Language,
    note: &Note,
    path: &Path,
    node: &Tree,
    steps: &mut Steps<L>,
) -> Result<Explained, AllocError>
    requires note { IsNoteOf lang.now (tree_in note.now) note.now }
    requires culprit { IsFirstCulprit lang.now (tree_in note.now) path.now node.now }
    ensures explained { IfOk result (IsExplained lang.now (tree_in note.now)) }
    ensures ticks { steps.new ≤ steps.old + 2 * work_of node.now }
{
    let definition = lang.definition();
    promises(definition);
    let stages = stages_of(alloc, lang, path, node)?;
    let kept = stages.as_slice();
    let rows = rows_up_to_none(alloc, lang, note, kept, steps)?;
    let pairs = pairs_in(kept, rows.as_slice());
    if pairs > MOST_PAIRS {
        return Ok(Explained::Long);
    }
    let refutation = refutation_of(alloc, lang, path, node, kept, rows)?;
    Ok(Explained::Wrong(refutation))
}

/// Says why the first culprit, which is at the path, has no completion.
fn wrong<L: Ledger>(
    alloc: Global,
    lang: &Language,
    note: &Note,
    path: &Path,
    steps: &mut Steps<L>,
) -> Result<Explained, AllocError>
    requires note { IsNoteOf lang.now (tree_in note.now) note.now }
    requires culprit { (node : Fragment) × IsFirstCulprit lang.now (tree_in note.now) path.now node }
    ensures explained { IfOk result (IsExplained lang.now (tree_in note.now)) }
    ensures ticks { steps.new ≤ steps.old + 2 * work_of (tree_in note.now) }
{
    match at(note.tree(), path) {
        Some(node) => {
            let told = node_explained(alloc, lang, note, path, node, steps)?;
            Ok(told)
        }
        None => unreachable!(),
    }
}

/// Says why the tree of the note has no completion, by the steps of its first culprit up to the first one without rows;
/// or by the first key that is declared twice there. It evaluates the culprit's subtree once more, and each cell of a
/// list twice: once for its steps, and once for the summary that the cell before it needs. It fails where memory runs
/// out.
pub fn explain<L: Ledger>(
    alloc: Global,
    lang: &Language,
    note: &Note,
    steps: &mut Steps<L>,
) -> Result<Explained, AllocError>
    requires { IsNoteOf lang.now (tree_in note.now) note.now }
    ensures explained { IfOk result (IsExplained lang.now (tree_in note.now)) }
    ensures ticks { steps.new ≤ steps.old + 2 * work_of (tree_in note.now) }
{
    let definition = lang.definition();
    true_rows(definition);
    let culprits = note.culprits(alloc)?;
    match culprits.as_slice().first() {
        Some(path) => {
            let told = wrong(alloc, lang, note, path, steps)?;
            Ok(told)
        }
        None => Ok(Explained::Fine),
    }
}
