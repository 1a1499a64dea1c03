//! What the nodes and names of a tree may be.
ghost use Rattle.std.specs.Prelude.{◌≡◌, ◌∷◌, [], ℕ, IfNone, IfOk, IfSome, List, None, Some, bytes_eq};
ghost use Rattle.std.specs.Prelude.{false, length};
ghost use Rattle.psg_terms.specs.Names.{is_among};
ghost use Rattle.psg_terms.specs.Relations.{IsIn, IsRelation};
ghost use Rattle.psg_terms.specs.Signature.{HasSort, Signature as PlainSignature};
ghost use Rattle.psg_terms.specs.Terms.{Term as Plain};
ghost use Rattle.psg_terms.specs.Weight.{PassesLimit};
ghost use Rattle.psg_relation.specs.Choices.{AllHaveSorts};
ghost use Rattle.psg_grammar.specs.declared.types.Definition.{Definition as PlainDefinition};
ghost use Rattle.psg_grammar.specs.Fragments.{Fragment};
ghost use Rattle.psg_grammar.specs.Keys.{Key};
ghost use Rattle.psg_grammar.specs.Paths.{node_at};
ghost use Rattle.psg_grammar.specs.Sound.{IsSound};
ghost use Rattle.psg_scope.specs.Headers.{key_of, keys};
ghost use Rattle.psg_eval.specs.Frames.{IsSilent};
ghost use Rattle.psg_eval.specs.Summaries.{IsSummary, IsSummaryOf};
ghost use Rattle.psg_eval.specs.declared.question.FocusFault.TheVariants as questions;
ghost use Rattle.psg_focus.specs.Shown.{IsShown, rows_of};
ghost use Rattle.psg_cache.specs.declared.note.NoteFault.TheVariants as notes;
ghost use Rattle.psg_cache.specs.Annotated.{tree_in};
ghost use Rattle.psg_cache.specs.Notes.{AreTables, IsFormed, IsNoteOf, TellsOpen};
ghost use Rattle.psg_wanted.specs.Fronts.{AreKeyValues, AreValues, IsColumnOf, IsEntityOf, IsTooMuch};

use psg_cache::{Note, NoteFault, build};
use psg_eval::{FocusFault, Summary, Tables};
use psg_focus::relation_at;
use psg_grammar::Definition;
use psg_relation::column_laws::fewer_columns;
use psg_relation::{Rel, RelFault, RelRow, project};
use psg_scope::NameCol;
use psg_terms::{Steps, Term, Txt};
use psg_tree::{Path, Tree};
use std::alloc::{AllocError, Global};
use std::sync::ledger::Ledger;

/// Returns no note for a limit that is passed.
pub(crate) fn no_note(fault: NoteFault) -> Result<Option<Note>, AllocError>
    ensures none { IfOk result (λ found. found ≡ None) }
    ensures some { IfOk result (λ _. fault ≡ notes.Memory → ⊥) }
{
    match fault {
        NoteFault::Deep => Ok(None),
        NoteFault::Big => Ok(None),
        NoteFault::Wide { .. } => Ok(None),
        NoteFault::Heavy => Ok(None),
        NoteFault::Memory => Err(AllocError),
    }
}

/// Returns the note of the tree; none where it passes a limit.
fn noted<L: Ledger>(
    alloc: Global,
    definition: &Definition,
    tables: &Tables,
    tree: &Tree,
    steps: &mut Steps<L>,
) -> Result<Option<Note>, AllocError>
    requires sound { IsSound definition.now }
    requires tables { AreTables definition.now tables.now }
    requires formed { IsFormed definition.now tree.now }
    ensures note { IfOk result (λ found. IfSome found (IsNoteOf definition.now tree.now)) }
    ensures open { IfOk result (λ found. IfSome found (TellsOpen definition.now tree.now)) }
    ensures none { IfOk result (λ found. found ≡ None → IsTooMuch definition.now tree.now) }
{
    match build(alloc, definition, tables, tree, steps) {
        Ok(note) => Ok(Some(note)),
        Err(fault) => {
            let none = no_note(fault)?;
            Ok(none)
        }
    }
}

/// Returns no values where they are too many.
fn no_values(alloc: Global, fault: FocusFault) -> Result<Vec<Term>, AllocError>
    ensures none { IfOk result (λ v. v.items ≡ []) }
    ensures wide { IfOk result (λ _. fault ≡ questions.Wide) }
{
    match fault {
        FocusFault::Wide => Ok(Vec::new(alloc)),
        FocusFault::Memory => Err(AllocError),
    }
}

/// Returns the values that were found, and none where they are too many.
fn told_values(
    alloc: Global,
    answer: Result<Vec<Term>, FocusFault>,
) -> Result<Vec<Term>, AllocError>
    ensures values { IfOk result (λ v. (definition : PlainDefinition) (f : Fragment) (path : List ℕ)
        → (IsTooMuch definition f → ⊥) → IsShown definition path f answer → AreValues definition f path v.items) }
    ensures sorted { IfOk result (λ v. (sig : PlainSignature) → IfOk answer
        (λ terms. (sort : ℕ) × AllHaveSorts sig (rows_of terms.items) (sort ∷ []))
        → (t : Plain) → IsIn t v.items → (s : ℕ) × HasSort sig t s) }
{
    match answer {
        Ok(terms) => Ok(terms),
        Err(fault) => {
            let none = no_values(alloc, fault)?;
            Ok(none)
        }
    }
}

/// Returns the values of the node at the path in completions of the tree; none where it is too wide.
pub fn values_in<L: Ledger>(
    alloc: Global,
    definition: &Definition,
    tables: &Tables,
    note: &Note,
    path: &Path,
    steps: &mut Steps<L>,
) -> Result<Vec<Term>, AllocError>
    requires sound { IsSound definition.now }
    requires tables { AreTables definition.now tables.now }
    requires note { IsNoteOf definition.now (tree_in note.now) note.now }
    requires there { (node : Fragment) × (node_at (tree_in note.now) path.now ≡ Some node) }
    ensures values { IfOk result (λ v. AreValues definition.now (tree_in note.now) path.now v.items) }
    ensures sorted { IfOk result
        (λ v. (t : Plain) → IsIn t v.items → (s : ℕ) × HasSort definition.now.signature t s) }
{
    let Some(own) = note.summary(path) else {
        unreachable!()
    };
    let framed = note.frames(alloc, path)?;
    let Some(frames) = framed else { unreachable!() };
    let around = frames.as_slice();
    let answer = relation_at(alloc, definition, tables, around, own, steps);
    let told = told_values(alloc, answer)?;
    Ok(told)
}

/// Returns the values of the node at the path in completions of the tree; none where it passes a limit.
pub fn values_at<L: Ledger>(
    alloc: Global,
    definition: &Definition,
    tables: &Tables,
    tree: &Tree,
    path: &Path,
    steps: &mut Steps<L>,
) -> Result<Vec<Term>, AllocError>
    requires sound { IsSound definition.now }
    requires tables { AreTables definition.now tables.now }
    requires formed { IsFormed definition.now tree.now }
    requires there { (node : Fragment) × (node_at tree.now path.now ≡ Some node) }
    ensures values { IfOk result (λ v. AreValues definition.now tree.now path.now v.items) }
    ensures sorted { IfOk result
        (λ v. (t : Plain) → IsIn t v.items → (s : ℕ) × HasSort definition.now.signature t s) }
{
    let found = noted(alloc, definition, tables, tree, steps)?;
    match found {
        Some(note) => {
            let told = values_in(alloc, definition, tables, &note, path, steps)?;
            Ok(told)
        }
        None => Ok(Vec::new(alloc)),
    }
}

/// Says whether the column is that of the key.
fn is_key(column: &NameCol, space: u32, name: &Txt) -> bool
    ensures { result ≡ bytes_eq (key_of column.now) (space ∷ name.now) }
{
    column.space == space && column.name.as_str() == name.as_str()
}

/// Returns the number of the column of the key.
fn column_of(names: &[NameCol], space: u32, name: &Txt) -> Option<usize>
    ensures some { IfSome result (λ column. IsColumnOf names.now column (space ∷ name.now)) }
    ensures none { IfNone result (is_among (keys names.now) (space ∷ name.now) ≡ false) }
{
    for place in 0..names.len() {
        if is_key(&names[place], space, name) {
            return Some(place + 1);
        }
    }
    None
}

/// Returns a list of the number alone.
fn alone(alloc: Global, column: usize) -> Result<Vec<usize>, AllocError>
    ensures { IfOk result (λ keep. keep.items ≡ column ∷ []) }
{
    let mut keep = Vec::with_capacity(alloc, 1)?;
    keep.push(column)?;
    Ok(keep)
}

/// States that the relation is within the limit.
fn within_limit(rel: &Rel)
    ensures { PassesLimit rel.now → ⊥ }
{
    let _weight = rel.weight();
}

/// Returns the relation of the column alone. It is within the limit, since it is one column of rows that are.
fn one_column(
    alloc: Global,
    definition: &Definition,
    whole: &Summary,
    column: usize,
) -> Result<Rel, AllocError>
    requires summary { IsSummary definition.now whole.now }
    requires silent { IsSilent whole.now }
    requires there { (key : Key) × IsColumnOf whole.now.header.names column key }
    ensures entities { IfOk result (λ rel. (f : Fragment) (key : Key) → IsSummaryOf definition.now f whole.now
        → IsColumnOf whole.now.header.names column key
        → (sorts : List ℕ) × IsRelation definition.now.signature sorts (IsEntityOf definition.now f key) rel) }
    ensures sorted { IfOk result (λ rel. (sort : ℕ) × AllHaveSorts definition.now.signature rel (sort ∷ [])) }
{
    let keep = alone(alloc, column)?;
    let columns = keep.as_slice();
    let rows = whole.rel();
    within_limit(rows);
    fewer_columns(&definition.signature);
    match project(alloc, &definition.signature, rows, columns) {
        Ok(rel) => Ok(rel),
        Err(RelFault::Wide) => unreachable!(),
        Err(RelFault::Memory) => Err(AllocError),
    }
}

/// Returns the terms of rows of one term.
fn only_terms(alloc: Global, rows: &[RelRow]) -> Result<Vec<Term>, AllocError>
    requires { (row : List Plain) → IsIn row rows.now → length row ≡ 1 }
    ensures { IfOk result (λ terms. rows_of terms.items ≡ rows.now) }
{
    let mut found = Vec::with_capacity(alloc, rows.len())?;
    for row in rows {
        let terms = row.terms();
        let term = terms[0].share()?;
        found.push(term)?;
    }
    Ok(found)
}

/// Returns the entities of the key in completions of the tree of the note; none where its relation has no column for
/// it.
pub(crate) fn key_values_in(
    alloc: Global,
    definition: &Definition,
    note: &Note,
    space: u32,
    name: &Txt,
) -> Result<Vec<Term>, AllocError>
    requires { IsNoteOf definition.now (tree_in note.now) note.now }
    ensures values { IfOk result (λ v. AreKeyValues definition.now (tree_in note.now) (space ∷ name.now) v.items) }
    ensures sorted { IfOk result
        (λ v. (t : Plain) → IsIn t v.items → (s : ℕ) × HasSort definition.now.signature t s) }
{
    let whole = note.root();
    let names = whole.header().names.as_slice();
    match column_of(names, space, name) {
        Some(column) => {
            let rel = one_column(alloc, definition, whole, column)?;
            let rows = rel.rows();
            let terms = only_terms(alloc, rows)?;
            Ok(terms)
        }
        None => Ok(Vec::new(alloc)),
    }
}
