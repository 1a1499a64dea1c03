//! The values of a node in all completions of the fragment.
ghost use Rattle.std.specs.Prelude.{◌≡◌, ◌↔◌, ◌+◌, ◌≤◌, ◌∷◌, [], ℕ, List, length, IfOk};
ghost use Rattle.psg_terms.specs.Relations.{IsIn};
ghost use Rattle.psg_terms.specs.Terms.{Term as Plain};
ghost use Rattle.psg_terms.specs.Weight.{PassesLimit};
ghost use Rattle.psg_grammar.specs.declared.types.Kind.{Kind as PlainKind};
ghost use Rattle.psg_grammar.specs.Fragments.{Fragment};
ghost use Rattle.psg_grammar.specs.Legal.{IsPossibleAt};
ghost use Rattle.psg_grammar.specs.Paths.{Path};
ghost use Rattle.psg_grammar.specs.Relations.{IsSeenRelationOf};
ghost use Rattle.psg_grammar.specs.Sound.{IsSound};
ghost use Rattle.psg_grammar.specs.WellFormed.{WellFormed};
ghost use Rattle.psg_completions.specs.Conditions.{HasTrueRows};
ghost use Rattle.psg_eval.specs.Frames.{CanClimb, IsSilent, StandFor, rungs};
ghost use Rattle.psg_eval.specs.Starts.{AreTables};
ghost use Rattle.psg_eval.specs.Summaries.{IsSummary, IsSummaryOf};
ghost use Rattle.psg_relation.specs.Choices.{AllHaveSorts};
ghost use Rattle.psg_focus.specs.Shown.{IsOfSome, IsShown, rows_of};

use psg_eval::{FocusFault, Frame, Summary, Tables, asked, with_report};
use psg_grammar::Definition;
use psg_relation::column_laws::fewer_columns;
use psg_relation::{Rel, RelFault, RelRow, project};
use psg_terms::{Steps, Term};
use std::alloc::{AllocError, Global};
use std::sync::ledger::Ledger;

/// Returns the number of the column that a reported value has.
fn second(alloc: Global) -> Result<Vec<usize>, AllocError>
    ensures { IfOk result (λ v. v.items ≡ 1 ∷ []) }
{
    let mut columns = Vec::with_capacity(alloc, 1)?;
    columns.push(1)?;
    Ok(columns)
}

/// States that the relation is within the limit.
fn within_limit(rel: &Rel)
    ensures { PassesLimit rel.now → ⊥ }
{
    let _weight = rel.weight();
}

/// Returns the relation of the reported value alone. It is within the limit, since it is one column of rows that are.
fn reported_column(
    alloc: Global,
    definition: &Definition,
    whole: &Summary,
) -> Result<Rel, AllocError>
    requires summary { IsSummary definition.now whole.now }
    requires reported { whole.now.seen ≡ 1 }
    ensures seen { IfOk result (λ rel. (f : Fragment) → IsSummaryOf definition.now f whole.now
        → IsSeenRelationOf definition.now f rel) }
    ensures sorted { IfOk result (λ rel. (sort : ℕ) × AllHaveSorts definition.now.signature rel (sort ∷ [])) }
{
    let keep = second(alloc)?;
    let columns = keep.as_slice();
    let rows = whole.rel();
    within_limit(rows);
    fewer_columns(&definition.signature);
    match project(alloc, &definition.signature, rows, columns) {
        Ok(rel) => Ok(rel),
        Err(RelFault::Wide) => unreachable!(),
        Err(RelFault::Memory) => Err(AllocError),
    }
}

/// Returns the terms of rows of one term.
fn only_terms(alloc: Global, rows: &[RelRow]) -> Result<Vec<Term>, AllocError>
    requires { (row : List Plain) → IsIn row rows.now → length row ≡ 1 }
    ensures { IfOk result (λ terms. rows_of terms.items ≡ rows.now) }
{
    let mut found = Vec::with_capacity(alloc, rows.len())?;
    for row in rows {
        let terms = row.terms();
        let term = terms[0].share()?;
        found.push(term)?;
    }
    Ok(found)
}

/// Gives the values that the node still may have where the frames are those of its place in a fragment, as most general
/// terms in the order of their texts. `own` is the node's summary, and `tables` are those of the definition.
///
/// It takes one tick, and those of a climb through the frames. `Wide` is returned exactly where the node's relation
/// with its value once more passes the limit, or a step of a node above it does, with that value as one more column.
/// `Memory` says that memory ran out, which may be at any time. The cost is that of these evaluations.
pub fn relation_at<L: Ledger>(
    alloc: Global,
    definition: &Definition,
    tables: &Tables,
    frames: &[Frame],
    own: &Summary,
    steps: &mut Steps<L>,
) -> Result<Vec<Term>, FocusFault>
    requires sound { IsSound definition.now }
    requires tables { AreTables definition.now tables.now }
    requires own { IsSummary definition.now own.now }
    requires silent { IsSilent own.now }
    requires frames { CanClimb definition.now frames.now own.now.kind }
    ensures shown { (f node : Fragment) (path : Path) → StandFor definition.now frames.now path f node
        → IsSummaryOf definition.now node own.now → IsShown definition.now path f result }
    // with true hole rows the ground instances of the terms are the values that the node has in legal completions
    ensures possible { HasTrueRows definition.now → IfOk result (λ terms. (f node : Fragment) (path : Path)
        (kind : PlainKind) → WellFormed definition.now f kind → StandFor definition.now frames.now path f node
        → IsSummaryOf definition.now node own.now
        → (u : Plain) → IsOfSome definition.now terms.items u ↔ IsPossibleAt definition.now f path u) }
    ensures sorted { IfOk result (λ terms. (sort : ℕ)
        × AllHaveSorts definition.now.signature (rows_of terms.items) (sort ∷ [])) }
    ensures ticks { steps.new ≤ steps.old + (1 + rungs frames.now) }
{
    let noted = with_report(alloc, definition, own, steps);
    let seen = asked(noted)?;
    let climbed = tables.climb(alloc, definition, frames, &seen, steps);
    let whole = asked(climbed)?;
    let rel = reported_column(alloc, definition, &whole)?;
    let rows = rel.rows();
    let terms = only_terms(alloc, rows)?;
    Ok(terms)
}
