//! Notes of changed trees.
ghost use Rattle.std.specs.Prelude.{◌≡◌, ◌+◌, ◌^◌, ◌⊎◌, ◌≤◌, ◌<◌, [], drop, length, slice_get, Some, IfErr, IfOk};
ghost use Rattle.std.specs.Prelude.{Ok as InOk};
ghost use Rattle.psg_grammar.specs.Paths.{change_at, replaced as replaced_at, inserted as inserted_at};
ghost use Rattle.psg_grammar.specs.Paths.{removed as removed_at};
ghost use Rattle.psg_grammar.specs.Sound.{IsSound};
ghost use Rattle.psg_grammar.specs.Steps.{steps_of};
ghost use Rattle.psg_grammar.specs.Work.{climb_of, leaving, work_of};
ghost use Rattle.psg_tree.specs.declared.places.TreeFault.TheVariants.{Memory as NoMemory};
ghost use Rattle.psg_cache.specs.declared.note.NoteFault.TheVariants.{Memory};
ghost use Rattle.psg_cache.specs.Annotated.{tree_in, whole_in};
ghost use Rattle.psg_cache.specs.Changes.{IsExchange, IsPlace, IsPut, IsAdded, IsTaken, ticks_of};
ghost use Rattle.psg_cache.specs.Completed.{TellsCompletable};
ghost use Rattle.psg_cache.specs.Diff.{diff_of};
ghost use Rattle.psg_cache.specs.Edits.{MayReplace, MayInsert, MayRemove};
ghost use Rattle.psg_cache.specs.Noted.{IsNotedAs};
ghost use Rattle.psg_cache.specs.Notes.{AreTables, IsNoteFault, IsNoteOf, TellsOpen};
ghost use Rattle.psg_cache.specs.Walks.{IsKnown, IsSmall, IsStepFault};

use crate::building::{light, small};
use crate::note::{Note, NoteFault, there};
use crate::parts::{Language, child_of, longer};
use crate::remaking::{remade, spliced};
use crate::renoting::renoted;
use crate::walking::walk;
use psg_eval::Tables;
use psg_grammar::Definition;
use psg_terms::Steps;
use psg_tree::{Path, Tree, TreeFault, insert, remove, replace};
use std::alloc::Global;
use std::sync::ledger::Ledger;

/// A change of a node.
#[derive(Drop)]
pub(crate) enum Edit {
    /// Another tree in its place, which has this note.
    Put { new: Note },
    /// One more element before the place of a list.
    Add { place: u32, new: Tree },
    /// A list without the element at the place.
    Take { place: u32 },
}

/// Returns the note of a list with one more element.
fn added<L: Ledger>(
    alloc: Global,
    language: Language,
    note: &Note,
    place: u32,
    new: &Tree,
    made: &Tree,
    path: &[u32],
    steps: &mut Steps<L>,
) -> Result<Note, NoteFault>
    requires language { IsKnown language }
    requires place { IsAdded language.definition.now note.now place new.now made.now }
    ensures ok { IfOk result (IsNotedAs language.entry.definition.now made.now) }
    ensures bounded { steps.new ≤ steps.old + (work_of new.now + (place + 1)) }
    ensures err { IfErr result
        (IsStepFault language.entry.definition.now (steps_of language.entry.definition.now path.now made.now)) }
{
    let inside = longer(alloc, path, place)?;
    let child = walk(alloc, language, new, inside.as_slice(), steps)?;
    let number = place as usize;
    let notes = note.below();
    let below = spliced(alloc, notes, number, Some(child), number)?;
    let all = remade(
        alloc,
        language,
        note,
        number,
        number,
        number + 1,
        below,
        made,
        path,
        steps,
    )?;
    Ok(all)
}

/// Returns the note of a list without an element.
fn taken<L: Ledger>(
    alloc: Global,
    language: Language,
    note: &Note,
    place: u32,
    made: &Tree,
    path: &[u32],
    steps: &mut Steps<L>,
) -> Result<Note, NoteFault>
    requires language { IsKnown language }
    requires place { IsTaken language.definition.now note.now place made.now }
    ensures ok { IfOk result (IsNotedAs language.entry.definition.now made.now) }
    ensures bounded { steps.new ≤ steps.old + place }
    ensures err { IfErr result
        (IsStepFault language.entry.definition.now (steps_of language.entry.definition.now path.now made.now)) }
{
    let number = place as usize;
    let notes = note.below();
    let below = spliced(alloc, notes, number, None, number + 1)?;
    let all = remade(
        alloc,
        language,
        note,
        number,
        number + 1,
        number,
        below,
        made,
        path,
        steps,
    )?;
    Ok(all)
}

/// Returns how many first children have other summaries than before where the one at the place is new: none where its
/// summary is the old one's.
fn first_changed(old: &Note, new: &Note, place: usize) -> usize
    requires { place < 2 ^ 32 }
    ensures { ((result ≡ 0) × (whole_in new.now ≡ whole_in old.now)) ⊎ (result ≡ place + 1) }
{
    if new.root().same(old.root()) {
        return 0;
    }
    place + 1
}

/// Returns the note of a node with another child.
fn raised<L: Ledger>(
    alloc: Global,
    language: Language,
    note: &Note,
    number: u32,
    child: Note,
    made: &Tree,
    path: &[u32],
    steps: &mut Steps<L>,
) -> Result<Note, NoteFault>
    requires language { IsKnown language }
    requires put { IsPut language.definition.now note.now number child made.now }
    ensures ok { IfOk result (IsNotedAs language.entry.definition.now made.now) }
    ensures bounded { steps.new ≤ steps.old + leaving (tree_in note.now) number }
    ensures err { IfErr result
        (IsStepFault language.entry.definition.now (steps_of language.entry.definition.now path.now made.now)) }
{
    let place = number as usize;
    let notes = note.below();
    let front = first_changed(&notes[place], &child, place);
    let same = front.saturating_sub(1);
    let below = spliced(alloc, notes, place, Some(child), place + 1)?;
    let all = remade(
        alloc, language, note, same, front, front, below, made, path, steps,
    )?;
    Ok(all)
}

/// Returns the note of the changed node.
fn edited<L: Ledger>(
    alloc: Global,
    language: Language,
    note: &Note,
    edit: &Edit,
    made: &Tree,
    path: &[u32],
    steps: &mut Steps<L>,
) -> Result<Note, NoteFault>
    requires language { IsKnown language }
    requires place { IsPlace language.definition.now note.now [] edit.now made.now }
    ensures ok { IfOk result (IsNotedAs language.entry.definition.now made.now) }
    ensures bounded { steps.new ≤ steps.old + ticks_of edit.now }
    ensures err { IfErr result
        (IsStepFault language.entry.definition.now (steps_of language.entry.definition.now path.now made.now)) }
{
    match edit {
        Edit::Put { new } => {
            let all = new.share()?;
            Ok(all)
        }
        Edit::Add { place, new } => added(alloc, language, note, *place, new, made, path, steps),
        Edit::Take { place } => taken(alloc, language, note, *place, made, path, steps),
    }
}

/// Returns the first step.
fn head(left: &[u32]) -> u32
    requires { 0 < length left.now }
    ensures { slice_get left.now 0 ≡ Some result }
{
    left[0]
}

/// Returns the steps after the first one.
fn tail(left: &[u32]) -> &[u32]
    requires { 0 < length left.now }
    ensures { result.now ≡ drop 1 left.now }
{
    &left[1..]
}

/// Makes the note of the tree whose node at the end of the steps is changed: of the node, and then of those above it.
fn changed<L: Ledger>(
    alloc: Global,
    language: Language,
    note: &Note,
    left: &[u32],
    edit: &Edit,
    made: &Tree,
    path: &[u32],
    steps: &mut Steps<L>,
) -> Result<Note, NoteFault>
    requires language { IsKnown language }
    requires place { IsPlace language.definition.now note.now left.now edit.now made.now }
    ensures ok { IfOk result (IsNotedAs language.entry.definition.now made.now) }
    ensures bounded { steps.new ≤ steps.old + (ticks_of edit.now + climb_of (tree_in note.now) left.now) }
    ensures err { IfErr result
        (IsStepFault language.entry.definition.now (steps_of language.entry.definition.now path.now made.now)) }
{
    if left.is_empty() {
        return edited(alloc, language, note, edit, made, path, steps);
    }
    let number = head(left);
    let rest = tail(left);
    let inner = child_of(made, number);
    let place = longer(alloc, path, number)?;
    let notes = note.below();
    let old = &notes[number as usize];
    let child = changed(
        alloc,
        language,
        old,
        rest,
        edit,
        inner,
        place.as_slice(),
        steps,
    )?;
    let all = raised(alloc, language, note, number, child, made, path, steps)?;
    Ok(all)
}

/// Makes the changed tree. Where the place was tested a change has no other fault than that memory runs out.
fn tree_of(made: Result<Tree, TreeFault>) -> Result<Tree, NoteFault>
    requires { IfErr made (λ fault. fault ≡ NoMemory) }
    ensures ok { IfOk result (λ tree. made ≡ InOk tree) }
    ensures err { IfErr result (λ fault. fault ≡ Memory) }
{
    match made {
        Ok(tree) => Ok(tree),
        Err(_) => Err(NoteFault::Memory),
    }
}

/// Returns the note of the changed tree, whose sizes are tested, and then its weight.
fn climbed<L: Ledger>(
    alloc: Global,
    language: Language,
    note: &Note,
    path: &Path,
    edit: &Edit,
    made: &Tree,
    steps: &mut Steps<L>,
) -> Result<Note, NoteFault>
    requires language { IsKnown language }
    requires small { IsSmall made.now }
    requires place { IsPlace language.definition.now note.now path.now edit.now made.now }
    ensures note { IfOk result (IsNoteOf language.entry.definition.now made.now) }
    ensures ticks { steps.new ≤ steps.old + (ticks_of edit.now + climb_of (tree_in note.now) path.now) }
    ensures fault { IfErr result (IsNoteFault language.entry.definition.now made.now) }
{
    let all = changed(alloc, language, note, path.steps(), edit, made, &[], steps)?;
    light(all.weight())?;
    Ok(all)
}

/// Returns the note of the changed tree, whose limits are tested.
fn finished<L: Ledger>(
    alloc: Global,
    language: Language,
    note: &Note,
    path: &Path,
    edit: &Edit,
    made: &Tree,
    steps: &mut Steps<L>,
) -> Result<Note, NoteFault>
    requires language { IsKnown language }
    requires place { IsPlace language.definition.now note.now path.now edit.now made.now }
    ensures note { IfOk result (IsNoteOf language.entry.definition.now made.now) }
    ensures ticks { steps.new ≤ steps.old + (ticks_of edit.now + climb_of (tree_in note.now) path.now) }
    ensures fault { IfErr result (IsNoteFault language.entry.definition.now made.now) }
{
    small(made)?;
    let all = climbed(alloc, language, note, path, edit, made, steps)?;
    Ok(all)
}

/// Returns the note of the tree with the new one in place of the node at the path: the old one where that is equal to
/// the node.
fn exchanged<L: Ledger>(
    alloc: Global,
    language: Language,
    note: &Note,
    path: &Path,
    new: &Tree,
    made: &Tree,
    steps: &mut Steps<L>,
) -> Result<Note, NoteFault>
    requires language { IsKnown language }
    requires place { IsExchange language.definition.now note.now path.now new.now made.now }
    ensures note { IfOk result (IsNoteOf language.entry.definition.now made.now) }
    ensures ticks { steps.new ≤ steps.old + diff_of (tree_in note.now) made.now }
    ensures fault { IfErr result (IsNoteFault language.entry.definition.now made.now) }
{
    small(made)?;
    let old = there(note, path);
    let inner = renoted(alloc, language, old, new, path.steps(), steps)?;
    let Some(child) = inner else {
        let same = note.share()?;
        return Ok(same);
    };
    let edit = Edit::Put { new: child };
    let all = climbed(alloc, language, note, path, &edit, made, steps)?;
    Ok(all)
}

/// Makes the note of the tree with another one in place of the node at the path.
///
/// The new tree is compared with the old node, place by place, in one step for each of its nodes and the bytes of its
/// names and texts: equal subtrees at the same places keep their notes, and where the trees are equal the note is the
/// old one. Of a list that got longer or shorter the last elements are compared first, from the end on: those that both
/// have in common keep their notes. The nodes on the path are evaluated again, of a list on it the cells up to the
/// path's element, up to where a summary is the old one; all else is shared. `steps` counts the evaluations, whatever
/// is answered. The faults are tested as by `build`: `Deep`, `Big`, then `Wide` with the first step of the resulting
/// tree whose relation passes the limit, then `Heavy`. `Memory` is returned when memory runs out, at any time.
pub fn replaced<L: Ledger>(
    alloc: Global,
    definition: &Definition,
    tables: &Tables,
    note: &Note,
    path: &Path,
    new: &Tree,
    steps: &mut Steps<L>,
) -> Result<Note, NoteFault>
    requires sound { IsSound definition.now }
    requires tables { AreTables definition.now tables.now }
    requires note { IsNoteOf definition.now (tree_in note.now) note.now }
    requires place { MayReplace definition.now (tree_in note.now) path.now new.now }
    ensures note { IfOk result (IsNoteOf definition.now (replaced_at path.now new.now (tree_in note.now))) }
    ensures good { IfOk result (TellsOpen definition.now (replaced_at path.now new.now (tree_in note.now))) }
    ensures completions { IfOk result
        (TellsCompletable definition.now (replaced_at path.now new.now (tree_in note.now))) }
    ensures fault { IfErr result (IsNoteFault definition.now (replaced_at path.now new.now (tree_in note.now))) }
    ensures ticks { steps.new ≤ steps.old
        + diff_of (tree_in note.now) (replaced_at path.now new.now (tree_in note.now)) }
{
    let changed = replace(alloc, note.tree(), path, new);
    let made = tree_of(changed)?;
    let language = Language { definition, tables };
    let all = exchanged(alloc, language, note, path, new, &made, steps)?;
    Ok(all)
}

/// Makes the note of the tree with one more element before the place of the list at the path.
///
/// The nodes on the path are evaluated again, of a list on it the cells up to the path's element, up to where a summary
/// is the old one; all else is shared.
/// `steps` counts the evaluations, whatever is answered. The faults are tested as by `build`: `Deep`, `Big`, then
/// `Wide` with the first step of the resulting tree whose relation passes the limit, then `Heavy`. `Memory` is returned
/// when memory runs out, at any time.
pub fn inserted<L: Ledger>(
    alloc: Global,
    definition: &Definition,
    tables: &Tables,
    note: &Note,
    path: &Path,
    place: u32,
    new: &Tree,
    steps: &mut Steps<L>,
) -> Result<Note, NoteFault>
    requires sound { IsSound definition.now }
    requires tables { AreTables definition.now tables.now }
    requires note { IsNoteOf definition.now (tree_in note.now) note.now }
    requires place { MayInsert definition.now (tree_in note.now) path.now place new.now }
    ensures note { IfOk result
        (IsNoteOf definition.now (change_at (inserted_at place new.now) path.now (tree_in note.now))) }
    ensures good { IfOk result
        (TellsOpen definition.now (change_at (inserted_at place new.now) path.now (tree_in note.now))) }
    ensures completions { IfOk result
        (TellsCompletable definition.now (change_at (inserted_at place new.now) path.now (tree_in note.now))) }
    ensures fault { IfErr result
        (IsNoteFault definition.now (change_at (inserted_at place new.now) path.now (tree_in note.now))) }
    ensures ticks { steps.new ≤ steps.old + (work_of new.now + (place + 1) + climb_of (tree_in note.now) path.now) }
{
    let changed = insert(alloc, note.tree(), path, place, new);
    let made = tree_of(changed)?;
    let language = Language { definition, tables };
    let edit = Edit::Add {
        place,
        new: new.share()?,
    };
    let all = finished(alloc, language, note, path, &edit, &made, steps)?;
    Ok(all)
}

/// Makes the note of the tree without the element at the place of the list at the path.
///
/// The nodes on the path are evaluated again, of a list on it the cells up to the path's element, up to where a summary
/// is the old one; all else is shared.
/// `steps` counts the evaluations, whatever is answered. The faults are tested as by `build`: `Deep`, `Big`, then
/// `Wide` with the first step of the resulting tree whose relation passes the limit, then `Heavy`. `Memory` is returned
/// when memory runs out, at any time.
pub fn removed<L: Ledger>(
    alloc: Global,
    definition: &Definition,
    tables: &Tables,
    note: &Note,
    path: &Path,
    place: u32,
    steps: &mut Steps<L>,
) -> Result<Note, NoteFault>
    requires sound { IsSound definition.now }
    requires tables { AreTables definition.now tables.now }
    requires note { IsNoteOf definition.now (tree_in note.now) note.now }
    requires place { MayRemove definition.now (tree_in note.now) path.now place }
    ensures note { IfOk result (IsNoteOf definition.now (change_at (removed_at place) path.now (tree_in note.now))) }
    ensures good { IfOk result (TellsOpen definition.now (change_at (removed_at place) path.now (tree_in note.now))) }
    ensures completions { IfOk result
        (TellsCompletable definition.now (change_at (removed_at place) path.now (tree_in note.now))) }
    ensures fault { IfErr result
        (IsNoteFault definition.now (change_at (removed_at place) path.now (tree_in note.now))) }
    ensures ticks { steps.new ≤ steps.old + (place + climb_of (tree_in note.now) path.now) }
{
    let changed = remove(alloc, note.tree(), path, place);
    let made = tree_of(changed)?;
    let language = Language { definition, tables };
    let edit = Edit::Take { place };
    let all = finished(alloc, language, note, path, &edit, &made, steps)?;
    Ok(all)
}
