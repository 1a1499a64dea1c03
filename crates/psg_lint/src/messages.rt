//! What is reported about a blamed place.
ghost use Rattle.std.specs.Prelude.{◌≡◌, ◌<◌, ◌≤◌, ◌⊎◌, ◌∷◌, ◌++◌, [], ℕ, IfOk, Some, false, length, slice_get};
ghost use Rattle.std.specs.Prelude.{string_bytes, take};
ghost use Rattle.psg_grammar.specs.Fragments.{Fragment};
ghost use Rattle.psg_grammar.specs.Lookups.{operator_at};
ghost use Rattle.psg_grammar.specs.Paths.{node_at};
ghost use Rattle.psg_places.specs.declared.place.Place.TheVariants as places;
ghost use Rattle.psg_places.specs.Blame.{kept_in};
ghost use Rattle.psg_places.specs.Opened.{opened};
ghost use Rattle.psg_places.specs.Places.{declares_by as declares_by_of};
ghost use Rattle.psg_program.specs.Places.{IsAt};
ghost use Rattle.psg_recover.specs.Spotted.{IsSpotsOf};
ghost use Rattle.psg_recover.specs.TextPlaces.{Read, name_byte};
ghost use Rattle.psg_wanted.specs.Fronts.{AreKeyValues, AreValues, IsThere, is_first};
ghost use Rattle.psg_wanted.specs.Texts.{AreSorted};
ghost use Rattle.psg_lint.specs.Blamed as blamed;
ghost use Rattle.psg_lint.specs.Blamed.{IsDeclaredMessage, IsDeclaredText, IsMessage, IsUseMessage, place_text};
ghost use Rattle.psg_lint.specs.Judged.{IsJudged, IsWrong, def_of, fresh_of, tree_in};

use crate::ends::of_list;
use crate::trials::{Judged, Wrong, tree_of};
use psg_known::known::declares;
use psg_places::{Place, new_name, opened_places, path_there};
use psg_program::place_of;
use psg_terms::{Steps, Term};
use psg_tree::{Path, Shape, Tree, at};
use psg_uses::names::{Written, name_at};
use psg_uses::regions::{declaration_of, declared_again};
use psg_wanted::beside::{key_values, values_beside};
use psg_wanted::texts::{entity_wanted, node_message, operator_name};
use psg_wanted::values::values_at;
use std::alloc::{AllocError, Global};
use std::sync::ledger::Ledger;

/// Returns the path of the blamed node or list, whose place has the number, in the tree of the places kept before it.
fn there(alloc: Global, wrong: Wrong, number: usize, path: &Path) -> Result<Path, AllocError>
    requires wrong { IsWrong wrong }
    requires number { number < length wrong.kept.now }
    requires blamed { slice_get wrong.kept.now number ≡ Some false }
    requires place { (slice_get wrong.places.now number ≡ Some (places.Node path.now))
        ⊎ (slice_get wrong.places.now number ≡ Some (places.End path.now)) }
    ensures { IfOk result (λ own. IsThere (def_of wrong.entry) (tree_in wrong.entry) (take number wrong.entry.kept.now)
        path.now own) }
{
    let judged = wrong.judged;
    let kept = &wrong.kept[..number];
    let opened = opened_places(alloc, judged.definition, judged.tables, kept, judged.tree)?;
    let found = path_there(alloc, opened.as_slice(), path)?;
    let Some(own) = found else { unreachable!() };
    Ok(own)
}

/// Returns the tree of the places that are kept before the number.
fn tree_before(alloc: Global, wrong: Wrong, number: usize) -> Result<Tree, AllocError>
    requires wrong { IsWrong wrong }
    requires number { number ≤ length wrong.kept.now }
    ensures { IfOk result (λ tree. tree ≡ opened (def_of wrong.entry) (kept_in (take number wrong.entry.kept.now))
        (fresh_of wrong.entry) (tree_in wrong.entry)) }
{
    let kept = &wrong.kept[..number];
    let tree = tree_of(alloc, wrong, kept, wrong.judged.tree)?;
    Ok(tree)
}

/// Returns the values of the node at the path in completions of the tree of the places that are kept before the number.
fn wanted_at<L: Ledger>(
    alloc: Global,
    wrong: Wrong,
    number: usize,
    own: &Path,
    steps: &mut Steps<L>,
) -> Result<Vec<Term>, AllocError>
    requires wrong { IsWrong wrong }
    requires number { number ≤ length wrong.kept.now }
    requires there { (node : Fragment) × (node_at (opened (def_of wrong) (kept_in (take number wrong.kept.now))
        (fresh_of wrong) (tree_in wrong)) own.now ≡ Some node) }
    ensures values { IfOk result (λ terms. AreValues (def_of wrong.entry) (opened (def_of wrong.entry)
        (kept_in (take number wrong.entry.kept.now)) (fresh_of wrong.entry) (tree_in wrong.entry)) own.now
        terms.items) }
    ensures sorted { IfOk result (λ terms. AreSorted (def_of wrong.entry).signature terms.items) }
{
    let judged = wrong.judged;
    let tree = tree_before(alloc, wrong, number)?;
    let definition = judged.definition;
    let tables = judged.tables;
    let values = values_beside(alloc, definition, tables, wrong.note, &tree, own, steps)?;
    Ok(values)
}

/// Returns the values of the operator of the node at the path alone, with all its other places opened.
fn found_at<L: Ledger>(
    alloc: Global,
    wrong: Wrong,
    path: &Path,
    steps: &mut Steps<L>,
) -> Result<Vec<Term>, AllocError>
    requires wrong { IsWrong wrong }
    requires there { (node : Fragment) × (node_at (tree_in wrong) path.now ≡ Some node) }
    ensures values { IfOk result (λ terms. (node : Fragment) → node_at (tree_in wrong.entry) path.now ≡ Some node
        → AreValues (def_of wrong.entry) (opened (def_of wrong.entry) is_first (fresh_of wrong.entry) node) []
        terms.items) }
    ensures sorted { IfOk result (λ terms. AreSorted (def_of wrong.entry).signature terms.items) }
{
    let judged = wrong.judged;
    let place = at(judged.tree, path);
    let Some(node) = place else { unreachable!() };
    let alone = tree_of(alloc, wrong, &[true], node)?;
    let top = Path::of(alloc, &[])?;
    let values = values_at(alloc, judged.definition, judged.tables, &alone, &top, steps)?;
    Ok(values)
}

fn of_node<L: Ledger>(
    alloc: Global,
    wrong: Wrong,
    number: usize,
    path: &Path,
    steps: &mut Steps<L>,
) -> Result<String, AllocError>
    requires wrong { IsWrong wrong }
    requires number { number < length wrong.kept.now }
    requires blamed { slice_get wrong.kept.now number ≡ Some false }
    requires place { slice_get wrong.places.now number ≡ Some (places.Node path.now) }
    ensures { IfOk result (λ message. (r : Read) → IsSpotsOf wrong.entry.judged.spots r
        → IsMessage (def_of wrong.entry) wrong.entry.judged.text.now (tree_in wrong.entry) r (fresh_of wrong.entry)
        (take number wrong.entry.kept.now) number (places.Node path.now) (string_bytes message)) }
{
    let own = there(alloc, wrong, number, path)?;
    let wanted = wanted_at(alloc, wrong, number, &own, steps)?;
    let found = found_at(alloc, wrong, path, steps)?;
    let sig = &wrong.judged.definition.signature;
    let message = node_message(alloc, sig, wanted.as_slice(), found.as_slice())?;
    Ok(message)
}

/// Says whether trees of the operator declare.
fn declares_by(judged: Judged, op: u32) -> bool
    requires judged { IsJudged judged }
    ensures { result ≡ declares_by_of judged.entry.definition.now (operator_at judged.entry.definition.now op) }
{
    match judged.definition.operators.as_slice().get(op as usize) {
        Some(operator) => declares(judged.spots.known, operator.phylum),
        None => false,
    }
}

/// Says that no further element fits, or, of an operator that declares, that it does not.
fn of_operator(alloc: Global, judged: Judged, op: u32) -> Result<String, AllocError>
    requires judged { IsJudged judged }
    ensures { IfOk result (λ message. string_bytes message ≡ blamed.operator_message judged.entry.definition.now
        (operator_at judged.entry.definition.now op)) }
{
    let declaring = declares_by(judged, op);
    if declaring {
        let name = operator_name(judged.definition.operators.as_slice(), op);
        let message = format!(in alloc; "{name} does not fit here")?;
        return Ok(message);
    }
    let message = String::from_str(alloc, "no further element fits here")?;
    Ok(message)
}

fn of_element(alloc: Global, judged: Judged, path: &Path) -> Result<String, AllocError>
    requires judged { IsJudged judged }
    requires there { (e : Fragment) × (node_at judged.tree.now path.now ≡ Some e) }
    ensures { IfOk result (λ message. (e : Fragment) → node_at judged.entry.tree.now path.now ≡ Some e
        → string_bytes message ≡ blamed.element_message judged.entry.definition.now e) }
{
    let place = at(judged.tree, path);
    let Some(node) = place else { unreachable!() };
    match node.shape() {
        Shape::Op { op, .. } => {
            let message = of_operator(alloc, judged, *op)?;
            Ok(message)
        }
        Shape::List { .. } => {
            let message = String::from_str(alloc, "no further element fits here")?;
            Ok(message)
        }
        Shape::Hole { .. } => {
            let message = String::from_str(alloc, "no further element fits here")?;
            Ok(message)
        }
    }
}

fn of_end<L: Ledger>(
    alloc: Global,
    wrong: Wrong,
    number: usize,
    path: &Path,
    steps: &mut Steps<L>,
) -> Result<String, AllocError>
    requires wrong { IsWrong wrong }
    requires number { number < length wrong.kept.now }
    requires blamed { slice_get wrong.kept.now number ≡ Some false }
    requires place { slice_get wrong.places.now number ≡ Some (places.End path.now) }
    ensures { IfOk result (λ message. (r : Read) → IsSpotsOf wrong.entry.judged.spots r
        → IsMessage (def_of wrong.entry) wrong.entry.judged.text.now (tree_in wrong.entry) r (fresh_of wrong.entry)
        (take number wrong.entry.kept.now) number (places.End path.now) (string_bytes message)) }
{
    let own = there(alloc, wrong, number, path)?;
    let tree = tree_before(alloc, wrong, number)?;
    let message = of_list(alloc, wrong, &tree, &own, steps)?;
    Ok(message)
}

/// Writes the line and the column of the name.
fn name_place(alloc: Global, judged: Judged, name: &Written) -> Result<String, AllocError>
    requires judged { IsJudged judged }
    ensures { IfOk result (λ own. (r : Read) → IsSpotsOf judged.entry.spots r → (line : ℕ) × (column : ℕ)
        × IsAt judged.entry.text.now (name_byte judged.entry.definition.now r name.now.path name.now.number) line column
        × (string_bytes own ≡ place_text line column)) }
{
    let byte = judged.spots.name(alloc, &name.path, name.number)?;
    let place = place_of(judged.text, byte);
    let own = format!(in alloc; "{}:{}", place.line, place.column)?;
    Ok(own)
}

/// Writes where the name is declared, or that nothing declares it.
fn declared_text(alloc: Global, judged: Judged, name: &Written) -> Result<String, AllocError>
    requires judged { IsJudged judged }
    ensures { IfOk result (λ own. (r : Read) → IsSpotsOf judged.entry.spots r
        → IsDeclaredText judged.entry.definition.now judged.entry.text.now judged.entry.tree.now r name.now
        (string_bytes own)) }
{
    let found = declaration_of(alloc, judged.definition, judged.tree, name)?;
    match found {
        Some(other) => {
            let place = name_place(alloc, judged, &other)?;
            let own = format!(in alloc; ", declared at {}", place.as_str())?;
            Ok(own)
        }
        None => {
            let own = String::from_str(alloc, ", used otherwise before")?;
            Ok(own)
        }
    }
}

/// Returns the entities that are wanted of a name, which has a new name in the tree of the answers.
fn wanted_entities<L: Ledger>(
    alloc: Global,
    wrong: Wrong,
    kept: &[bool],
    number: usize,
    space: u32,
    steps: &mut Steps<L>,
) -> Result<Vec<Term>, AllocError>
    requires wrong { IsWrong wrong }
    ensures values { IfOk result (λ terms. AreKeyValues (def_of wrong.entry) (opened (def_of wrong.entry)
        (kept_in kept.now) (fresh_of wrong.entry) (tree_in wrong.entry))
        (space ∷ fresh_of wrong.entry number) terms.items) }
    ensures sorted { IfOk result (λ terms. AreSorted (def_of wrong.entry).signature terms.items) }
{
    let judged = wrong.judged;
    let tree = tree_of(alloc, wrong, kept, judged.tree)?;
    let new = new_name(alloc, wrong.names, number)?;
    let definition = judged.definition;
    let tables = judged.tables;
    let terms = key_values(
        alloc, definition, tables, wrong.note, &tree, space, &new, steps,
    )?;
    Ok(terms)
}

/// Says what is reported about a name that is used and has a new name in the tree of the answers: what is wanted there.
pub(crate) fn use_message<L: Ledger>(
    alloc: Global,
    wrong: Wrong,
    kept: &[bool],
    number: usize,
    name: &Written,
    steps: &mut Steps<L>,
) -> Result<String, AllocError>
    requires wrong { IsWrong wrong }
    ensures { IfOk result (λ message. (r : Read) → IsSpotsOf wrong.entry.judged.spots r
        → IsUseMessage (def_of wrong.entry) wrong.entry.judged.text.now (tree_in wrong.entry) r (fresh_of wrong.entry)
        kept.now number name.now (string_bytes message)) }
{
    let terms = wanted_entities(alloc, wrong, kept, number, name.space, steps)?;
    let sig = &wrong.judged.definition.signature;
    let wanted = entity_wanted(alloc, sig, terms.as_slice())?;
    let declared = declared_text(alloc, wrong.judged, name)?;
    let message = format!(in alloc;
        "{} does not fit here{}{}",
        name.name.as_str(),
        wanted.as_str(),
        declared.as_str()
    )?;
    Ok(message)
}

/// Says what is reported about a name that is declared.
fn of_declared(alloc: Global, judged: Judged, name: &Written) -> Result<String, AllocError>
    requires judged { IsJudged judged }
    ensures { IfOk result (λ message. (r : Read) → IsSpotsOf judged.entry.spots r
        → IsDeclaredMessage judged.entry.definition.now judged.entry.text.now judged.entry.tree.now r name.now
        (string_bytes message)) }
{
    let found = declared_again(alloc, judged.definition, judged.tree, name)?;
    match found {
        Some(other) => {
            let place = name_place(alloc, judged, &other)?;
            let message = format!(in alloc;
                "{} is declared twice, at {} too",
                name.name.as_str(),
                place.as_str()
            )?;
            Ok(message)
        }
        None => {
            let message = format!(in alloc;
                "{} is used as something else before",
                name.name.as_str()
            )?;
            Ok(message)
        }
    }
}

fn of_name<L: Ledger>(
    alloc: Global,
    wrong: Wrong,
    number: usize,
    path: &Path,
    name: usize,
    steps: &mut Steps<L>,
) -> Result<String, AllocError>
    requires wrong { IsWrong wrong }
    requires number { number < length wrong.kept.now }
    requires place { slice_get wrong.places.now number ≡ Some (places.Name path.now name) }
    ensures { IfOk result (λ message. (r : Read) → IsSpotsOf wrong.entry.judged.spots r
        → IsMessage (def_of wrong.entry) wrong.entry.judged.text.now (tree_in wrong.entry) r (fresh_of wrong.entry)
        (take number wrong.entry.kept.now) number (places.Name path.now name) (string_bytes message)) }
{
    let judged = wrong.judged;
    let found = name_at(alloc, judged.definition, judged.tree, path, name)?;
    let Some(own) = found else { unreachable!() };
    if own.declares {
        let told = of_declared(alloc, judged, &own.name)?;
        return Ok(told);
    }
    let kept = &wrong.kept[..number];
    let message = use_message(alloc, wrong, kept, number, &own.name, steps)?;
    Ok(message)
}

/// Says what is reported about the blamed place of the number.
pub(crate) fn message_of<L: Ledger>(
    alloc: Global,
    wrong: Wrong,
    number: usize,
    place: &Place,
    steps: &mut Steps<L>,
) -> Result<String, AllocError>
    requires wrong { IsWrong wrong }
    requires number { number < length wrong.kept.now }
    requires blamed { slice_get wrong.kept.now number ≡ Some false }
    requires place { slice_get wrong.places.now number ≡ Some (place.now) }
    ensures { IfOk result (λ message. (r : Read) → IsSpotsOf wrong.entry.judged.spots r
        → IsMessage (def_of wrong.entry) wrong.entry.judged.text.now (tree_in wrong.entry) r (fresh_of wrong.entry)
        (take number wrong.entry.kept.now) number (place.now) (string_bytes message)) }
{
    match place {
        Place::Node(path) => {
            let message = of_node(alloc, wrong, number, path, steps)?;
            Ok(message)
        }
        Place::Element(path) => {
            let message = of_element(alloc, wrong.judged, path)?;
            Ok(message)
        }
        Place::End(path) => {
            let message = of_end(alloc, wrong, number, path, steps)?;
            Ok(message)
        }
        Place::Name(path, name) => {
            let message = of_name(alloc, wrong, number, path, *name, steps)?;
            Ok(message)
        }
    }
}
