//! Lists that want a further element, and what is reported about them.
ghost use Rattle.std.specs.Prelude.{◌≡◌, ◌++◌, ◌∷◌, [], IfOk, IfSome, Some, None, codes, false, length, string_bytes};
ghost use Rattle.std.specs.Prelude.{true};
ghost use Rattle.psg_grammar.specs.Fragments.{Fragment, children_of};
ghost use Rattle.psg_grammar.specs.Paths as grammar;
ghost use Rattle.psg_grammar.specs.Paths.{IsList, node_at};
ghost use Rattle.psg_tree.specs.declared.places.TreeFault.TheVariants as faults;
ghost use Rattle.psg_cache.specs.Notes.{IsFormed};
ghost use Rattle.psg_places.specs.Answers.{IsBeside};
ghost use Rattle.psg_places.specs.Places as places;
ghost use Rattle.psg_wanted.specs.Fronts as fronts;
ghost use Rattle.psg_wanted.specs.Fronts.{AreValues, last_path};
ghost use Rattle.psg_wanted.specs.Texts as texts;
ghost use Rattle.psg_wanted.specs.Texts.{AreSorted};
ghost use Rattle.psg_lint.specs.Blamed.{IsElementMenu, IsEndMessage, element_phylum};
ghost use Rattle.psg_lint.specs.Judged.{IsJudged, IsWrong, def_of, tree_in};
ghost use Rattle.psg_lint.specs.Lists.{IsListOf, IsListThere};

use crate::trials::{Judged, Wrong};
use psg_known::known::declares;
use psg_known::numbers::step_of;
use psg_terms::{Steps, Term};
use psg_tree::{Path, Shape, Tree, TreeFault, at, insert};
use psg_wanted::beside::{noted_beside, values_beside};
use psg_wanted::menus::names_in;
use psg_wanted::places::element_menu;
use psg_wanted::texts::{menu_or_none, say_nothing, values_text};
use std::alloc::{AllocError, Global};
use std::sync::ledger::Ledger;

/// A list, by how many elements it has and the phylum of its elements.
#[derive(Clone, Copy)]
pub(crate) struct Listed {
    pub(crate) elements: usize,
    pub(crate) phylum: u32,
    pub(crate) unfinished: bool,
}

/// Returns what is known of the tree, if it is a list.
pub(crate) fn as_list(judged: Judged, tree: &Tree) -> Option<Listed>
    requires judged { IsJudged judged }
    requires formed { IsFormed judged.definition.now tree.now }
    ensures some { IfSome result (IsListOf judged.entry.definition.now tree.now) }
    ensures none { result ≡ None → IsList tree.now → ⊥ }
{
    match tree.shape() {
        Shape::List {
            list,
            elements,
            unfinished,
        } => match judged.definition.lists.as_slice().get(*list as usize) {
            Some(kind) => Some(Listed {
                elements: elements.as_slice().len(),
                phylum: kind.element,
                unfinished: *unfinished,
            }),
            None => unreachable!(),
        },
        Shape::Op { .. } => None,
        Shape::Hole { .. } => None,
    }
}

/// Returns what is known of the list at the path.
pub(crate) fn list_at(judged: Judged, tree: &Tree, path: &Path) -> Listed
    requires judged { IsJudged judged }
    requires formed { IsFormed judged.definition.now tree.now }
    requires there { (list : Fragment) × (node_at tree.now path.now ≡ Some list) × IsList list }
    ensures { IsListThere judged.entry.definition.now tree.now path.now result }
{
    let place = at(tree, path);
    let Some(node) = place else { unreachable!() };
    let found = as_list(judged, node);
    let Some(list) = found else { unreachable!() };
    list
}

/// Says whether elements of the list at the path of the program declare.
pub(crate) fn is_declaring_list(wrong: Wrong, path: &Path) -> bool
    requires wrong { IsWrong wrong }
    requires there { (list : Fragment) × (node_at (tree_in wrong) path.now ≡ Some list) × IsList list }
    ensures { result ≡ places.declares (def_of wrong.entry)
        (element_phylum (def_of wrong.entry) (node_at (tree_in wrong.entry) path.now)) }
{
    let judged = wrong.judged;
    let list = list_at(judged, judged.tree, path);
    declares(judged.spots.known, list.phylum)
}

/// Returns the path to the child of the number.
pub(crate) fn child_path(alloc: Global, path: &Path, number: u32) -> Result<Path, AllocError>
    ensures { IfOk result (λ longer. longer ≡ path.now ++ number ∷ []) }
{
    let mut steps = Vec::from_slice(alloc, path.steps())?;
    steps.push(number)?;
    let longer = Path::of(alloc, steps.as_slice())?;
    Ok(longer)
}

/// Returns the error of memory, which the fault is.
pub(crate) fn only_memory(fault: TreeFault) -> AllocError
    requires { fault ≡ faults.Memory }
{
    match fault {
        TreeFault::NoNode => unreachable!(),
        TreeFault::NotList => unreachable!(),
        TreeFault::NoPlace => unreachable!(),
        TreeFault::Memory => AllocError,
    }
}

/// Returns the tree with the element after those of the list at the path.
fn with_element(
    alloc: Global,
    tree: &Tree,
    path: &Path,
    place: u32,
    element: &Tree,
) -> Result<Tree, AllocError>
    requires there { (list : Fragment) × (node_at tree.now path.now ≡ Some list) × IsList list
        × (place ≡ length (children_of list)) }
    ensures { IfOk result (λ more. more ≡ grammar.change_at (grammar.inserted place element.now) path.now tree.now) }
{
    match insert(alloc, tree, path, place, element) {
        Ok(more) => Ok(more),
        Err(fault) => Err(only_memory(fault)),
    }
}

/// Returns the tree with a placeholder as the last element of the list at the path.
fn with_last(alloc: Global, tree: &Tree, path: &Path, list: Listed) -> Result<Tree, AllocError>
    requires there { (node : Fragment) × (node_at tree.now path.now ≡ Some node) × IsList node
        × (list.elements ≡ length (children_of node)) }
    ensures { IfOk result (λ more. more ≡ fronts.with_last tree.now path.now list.phylum) }
{
    let hole = Tree::new(
        alloc,
        Shape::Hole {
            phylum: list.phylum,
        },
    )?;
    let place = step_of(list.elements)?;
    let more = with_element(alloc, tree, path, place, &hole)?;
    Ok(more)
}

/// Returns the values that a further element of the list at the path may have; none where elements declare.
fn wanted_element<L: Ledger>(
    alloc: Global,
    wrong: Wrong,
    tree: &Tree,
    path: &Path,
    list: Listed,
    steps: &mut Steps<L>,
) -> Result<Vec<Term>, AllocError>
    requires wrong { IsWrong wrong }
    requires kinds { IsBeside (def_of wrong) (tree_in wrong) tree.now }
    requires there { IsListThere (def_of wrong) tree.now path.now list }
    ensures declaring { IfOk result (λ v. places.declares (def_of wrong.entry) list.phylum ≡ true
        → v.items ≡ []) }
    ensures values { IfOk result (λ v. places.declares (def_of wrong.entry) list.phylum ≡ false
        → AreValues (def_of wrong.entry) (fronts.with_last tree.now path.now list.phylum)
        (last_path tree.now path.now) v.items) }
    ensures sorted { IfOk result (λ v. AreSorted (def_of wrong.entry).signature v.items) }
{
    let judged = wrong.judged;
    let declaring = declares(judged.spots.known, list.phylum);
    if declaring {
        return Ok(Vec::new(alloc));
    }
    let more = with_last(alloc, tree, path, list)?;
    let place = step_of(list.elements)?;
    let last = child_path(alloc, path, place)?;
    let definition = judged.definition;
    let tables = judged.tables;
    let values = values_beside(alloc, definition, tables, wrong.note, &more, &last, steps)?;
    Ok(values)
}

/// Returns the operators that may be a further element of the list at the path; none where the tree passes a limit.
fn menu_at<L: Ledger>(
    alloc: Global,
    wrong: Wrong,
    tree: &Tree,
    path: &Path,
    list: Listed,
    steps: &mut Steps<L>,
) -> Result<Vec<u32>, AllocError>
    requires wrong { IsWrong wrong }
    requires kinds { IsBeside (def_of wrong) (tree_in wrong) tree.now }
    requires there { IsListThere (def_of wrong) tree.now path.now list }
    ensures { IfOk result (λ ops. IsElementMenu (def_of wrong.entry) tree.now path.now list.phylum ops.items) }
{
    let judged = wrong.judged;
    let definition = judged.definition;
    let tables = judged.tables;
    let place = step_of(list.elements)?;
    let used = names_in(alloc, tree)?;
    let names = used.as_slice();
    let found = noted_beside(alloc, definition, tables, wrong.note, tree, steps)?;
    match found {
        Some(note) => {
            let ops = element_menu(
                alloc,
                definition,
                tables,
                &note,
                path,
                place,
                list.phylum,
                names,
                steps,
            )?;
            Ok(ops)
        }
        None => Ok(Vec::new(alloc)),
    }
}

/// Says which values are wanted of a further element.
fn told_values(alloc: Global, judged: Judged, wanted: &[Term]) -> Result<String, AllocError>
    requires { AreSorted judged.definition.now.signature wanted.now }
    ensures { IfOk result (λ message. string_bytes message ≡ codes "an element is missing here, wanted "
        ++ texts.values_text judged.entry.definition.now.signature wanted.now) }
{
    let values = values_text(alloc, &judged.definition.signature, wanted)?;
    let message = format!(in alloc; "an element is missing here, wanted {}", values.as_str())?;
    Ok(message)
}

/// Says which operators may be a further element.
fn told_menu(alloc: Global, judged: Judged, ops: &[u32]) -> Result<String, AllocError>
    ensures { IfOk result (λ message. string_bytes message ≡ codes "an element is missing here: "
        ++ texts.menu_or_none judged.entry.definition.now ops.now) }
{
    let names = menu_or_none(alloc, judged.definition, ops)?;
    let message = format!(in alloc; "an element is missing here: {}", names.as_str())?;
    Ok(message)
}

/// Says which element the list at the path of the tree wants.
pub(crate) fn of_list<L: Ledger>(
    alloc: Global,
    wrong: Wrong,
    tree: &Tree,
    path: &Path,
    steps: &mut Steps<L>,
) -> Result<String, AllocError>
    requires wrong { IsWrong wrong }
    requires kinds { IsBeside (def_of wrong) (tree_in wrong) tree.now }
    requires there { (list : Fragment) × (node_at tree.now path.now ≡ Some list) × IsList list }
    ensures { IfOk result (λ message. IsEndMessage (def_of wrong.entry) tree.now path.now
        (string_bytes message)) }
{
    let judged = wrong.judged;
    let list = list_at(judged, tree, path);
    let wanted = wanted_element(alloc, wrong, tree, path, list, steps)?;
    let silent = say_nothing(wanted.as_slice());
    if silent {
        let ops = menu_at(alloc, wrong, tree, path, list, steps)?;
        let message = told_menu(alloc, judged, ops.as_slice())?;
        return Ok(message);
    }
    let told = told_values(alloc, judged, wanted.as_slice())?;
    Ok(told)
}
