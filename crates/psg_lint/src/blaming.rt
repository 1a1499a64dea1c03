//! What is reported about the blamed places of a program.
ghost use Rattle.std.specs.Prelude.{◌≡◌, ◌<◌, ◌++◌, ◌∷◌, ◌⊎◌, ◌↔◌, [], ℕ, Bool, IfOk, List, OnOk, Some, false, length};
ghost use Rattle.std.specs.Prelude.{slice_get, take, true};
ghost use Rattle.psg_cache.specs.Notes.{IsNoteOf};
ghost use Rattle.psg_completions.specs.Conditions.{HasTrueRows};
ghost use Rattle.psg_grammar.specs.Open.{IsOpen};
ghost use Rattle.psg_grammar.specs.Paths.{Path as PlainPath};
ghost use Rattle.psg_places.specs.declared.place.Place.{Place as PlainPlace};
ghost use Rattle.psg_places.specs.declared.place.Place.TheVariants as places;
ghost use Rattle.psg_places.specs.Answers.{IsBlame, IsBlameFault, IsFound, IsOfTree};
ghost use Rattle.psg_places.specs.Listings.{opened_among};
ghost use Rattle.psg_places.specs.Places.{places_of};
ghost use Rattle.psg_places.specs.Ways.{IsBack};
ghost use Rattle.psg_recover.specs.Findings.{error_at};
ghost use Rattle.psg_recover.specs.Spotted.{IsSpotsOf};
ghost use Rattle.psg_recover.specs.TextPlaces.{Read, name_byte, node_byte, place_byte};
ghost use Rattle.psg_recover.specs.declared.finding.Finding.{Finding as Told};
ghost use Rattle.psg_lint.specs.Blamed.{IsMessage, IsUseMessage};
ghost use Rattle.psg_lint.specs.Judged.{IsJudged, IsWrong, def_of, fresh_of, tree_in};
ghost use Rattle.psg_lint.specs.Suspects.{one_or_none};
ghost use Rattle.psg_lint.specs.Wrongs as wrongs;
ghost use Rattle.psg_lint.specs.Wrongs.{AreSuspects, AreTold, AreWrong, IsNumberTold, IsTold, IsToldBefore, limit_told};
ghost use Rattle.psg_lint.specs.Wrongs.{trial_told};
ghost use Rattle.psg_lint.specs.Wrongs.{wide_path};

use crate::ends::is_declaring_list;
use crate::hints::{OtherName, better_without, other_name};
use crate::messages::{message_of, use_message};
use crate::suspects::{blamed_in, push_some, tell_suspects};
use crate::trials::{Judged, Wrong, is_blamed};
use psg_cache::{Note, NoteFault};
use psg_places::{
    BlameFault, Blamed, MOST_BLAMED, Place, all_places, blame_noted, opened_places, path_back,
};
use psg_recover::finding::{Finding, error, plain_error};
use psg_terms::Steps;
use psg_tree::Path;
use std::alloc::{AllocError, Global};
use std::sync::ledger::Ledger;

/// Returns the path of the list of the element.
fn list_of(element: &Path) -> &[u32]
    ensures { result.now ≡ wrongs.list_path element.now }
{
    match element.steps().split_last() {
        Some((_, list)) => list,
        None => &[],
    }
}

/// Says whether the place is an element of the list.
fn is_element_of(place: &Place, list: &[u32]) -> bool
    ensures { (result ≡ true) ↔ ((other : PlainPath) × (place.now ≡ places.Element other)
        × (wrongs.list_path other ≡ list.now)) }
{
    match place {
        Place::Element(other) => list_of(other) == list,
        Place::Node(_) => false,
        Place::End(_) => false,
        Place::Name(_, _) => false,
    }
}

/// Returns the place of the number.
fn place_at<'a>(wrong: Wrong<'a>, number: usize) -> &'a Place
    requires wrong { IsWrong wrong }
    requires number { number < length wrong.kept.now }
    ensures { slice_get wrong.entry.places.now number ≡ Some (result.now) }
{
    let places = wrong.places;
    &places[number]
}

/// Says whether the place of the number is blamed, and an element of the list.
fn is_blamed_element(wrong: Wrong, number: usize, list: &[u32]) -> bool
    requires wrong { IsWrong wrong }
    requires number { number < length wrong.kept.now }
    ensures { (result ≡ true) ↔ ((other : PlainPath) × (slice_get wrong.entry.kept.now number ≡ Some false)
        × (slice_get wrong.entry.places.now number ≡ Some (places.Element other))
        × (wrongs.list_path other ≡ list.now)) }
{
    if !is_blamed(wrong.kept, number) {
        return false;
    }
    let place = place_at(wrong, number);
    is_element_of(place, list)
}

/// Says whether an earlier element of the list was blamed.
fn is_blamed_before(wrong: Wrong, number: usize, list: &[u32]) -> bool
    requires wrong { IsWrong wrong }
    requires number { number < length wrong.kept.now }
    ensures { (result ≡ true) ↔ ((before : ℕ) × (other : PlainPath) × (before < number)
        × (slice_get wrong.entry.kept.now before ≡ Some false)
        × (slice_get wrong.entry.places.now before ≡ Some (places.Element other))
        × (wrongs.list_path other ≡ list.now)) }
{
    for earlier in 0..number {
        if is_blamed_element(wrong, earlier, list) {
            return true;
        }
    }
    false
}

/// Says whether an earlier element of the same list was reported, so that no further one is.
fn is_told_before(
    alloc: Global,
    wrong: Wrong,
    number: usize,
    element: &Path,
) -> Result<bool, AllocError>
    requires wrong { IsWrong wrong }
    requires number { number < length wrong.kept.now }
    requires place { slice_get wrong.places.now number ≡ Some (places.Element element.now) }
    ensures { IfOk result (λ told. (told ≡ true) ↔ IsToldBefore (def_of wrong.entry) (tree_in wrong.entry)
        wrong.entry.kept.now number element.now) }
{
    let list = list_of(element);
    if !is_blamed_before(wrong, number, list) {
        return Ok(false);
    }
    let path = Path::of(alloc, list)?;
    let declaring = is_declaring_list(wrong, &path);
    Ok(!declaring)
}

/// Returns what is reported about the place itself.
fn tell_itself<L: Ledger>(
    alloc: Global,
    wrong: Wrong,
    number: usize,
    place: &Place,
    steps: &mut Steps<L>,
) -> Result<Finding, AllocError>
    requires wrong { IsWrong wrong }
    requires number { number < length wrong.kept.now }
    requires blamed { slice_get wrong.kept.now number ≡ Some false }
    requires place { slice_get wrong.places.now number ≡ Some (place.now) }
    ensures { IfOk result (λ told. (r : Read) → IsSpotsOf wrong.entry.judged.spots r → (message : List ℕ)
        × IsMessage (def_of wrong.entry) wrong.entry.judged.text.now (tree_in wrong.entry) r (fresh_of wrong.entry)
        (take number wrong.entry.kept.now) number (place.now) message
        × (told ≡ error_at (place_byte (def_of wrong.entry) r place.now) message)) }
{
    let message = message_of(alloc, wrong, number, place, steps)?;
    let byte = wrong.judged.spots.place(alloc, place)?;
    let told = error(alloc, byte, message)?;
    Ok(told)
}

/// Returns what is reported about the element without which the blamed place would be right.
fn tell_member(alloc: Global, wrong: Wrong, own: &Path) -> Result<Finding, AllocError>
    requires wrong { IsWrong wrong }
    ensures { IfOk result (λ told. (r : Read) → IsSpotsOf wrong.entry.judged.spots r
        → told ≡ error_at (node_byte (def_of wrong.entry) r own.now) wrongs.member_message) }
{
    let byte = wrong.judged.spots.node(alloc, own)?;
    let told = plain_error(alloc, byte, "this element does not fit here")?;
    Ok(told)
}

/// Returns what is reported about the blamed node or element: of the element of a fixed list without which it would be
/// right, or of itself.
fn tell_node<L: Ledger>(
    alloc: Global,
    wrong: Wrong,
    number: usize,
    place: &Place,
    path: &Path,
    steps: &mut Steps<L>,
) -> Result<Finding, AllocError>
    requires wrong { IsWrong wrong }
    requires number { number < length wrong.kept.now }
    requires blamed { slice_get wrong.kept.now number ≡ Some false }
    requires place { slice_get wrong.places.now number ≡ Some (place.now) }
    requires path { (place.now ≡ places.Node path.now) ⊎ (place.now ≡ places.Element path.now) }
    requires first { place.now ≡ places.Element path.now
        → IsToldBefore (def_of wrong) (tree_in wrong) wrong.kept.now number
        path.now → ⊥ }
    ensures { IfOk result (λ told. (r : Read) → IsSpotsOf wrong.entry.judged.spots r → IsTold (def_of wrong.entry)
        wrong.entry.judged.text.now (tree_in wrong.entry) r (fresh_of wrong.entry)
        wrong.entry.kept.now number (place.now)
        (told ∷ [])) }
{
    let found = better_without(alloc, wrong, number, path, steps)?;
    match found {
        Some(own) => {
            let told = tell_member(alloc, wrong, &own)?;
            Ok(told)
        }
        None => {
            let told = tell_itself(alloc, wrong, number, place, steps)?;
            Ok(told)
        }
    }
}

/// Returns what is reported about the use that gets another name.
fn tell_other<L: Ledger>(
    alloc: Global,
    wrong: Wrong,
    other: &OtherName,
    steps: &mut Steps<L>,
) -> Result<Finding, AllocError>
    requires wrong { IsWrong wrong }
    ensures { IfOk result (λ told. (r : Read) → IsSpotsOf wrong.entry.judged.spots r → (message : List ℕ)
        × IsUseMessage (def_of wrong.entry) wrong.entry.judged.text.now (tree_in wrong.entry) r (fresh_of wrong.entry)
        other.now.answers.items other.now.number other.now.name message
        × (told ≡ error_at (name_byte (def_of wrong.entry) r other.now.name.path other.now.name.number) message)) }
{
    let answers = other.answers.as_slice();
    let message = use_message(alloc, wrong, answers, other.number, &other.name, steps)?;
    let spots = wrong.judged.spots;
    let byte = spots.name(alloc, &other.name.path, other.name.number)?;
    let told = error(alloc, byte, message)?;
    Ok(told)
}

/// Returns what is reported about the blamed end: of a use that is wrong instead, or of itself.
fn tell_end<L: Ledger>(
    alloc: Global,
    wrong: Wrong,
    number: usize,
    place: &Place,
    path: &Path,
    steps: &mut Steps<L>,
) -> Result<Finding, AllocError>
    requires wrong { IsWrong wrong }
    requires number { number < length wrong.kept.now }
    requires blamed { slice_get wrong.kept.now number ≡ Some false }
    requires place { slice_get wrong.places.now number ≡ Some (place.now) }
    requires path { place.now ≡ places.End path.now }
    ensures { IfOk result (λ told. (r : Read) → IsSpotsOf wrong.entry.judged.spots r → IsTold (def_of wrong.entry)
        wrong.entry.judged.text.now (tree_in wrong.entry) r (fresh_of wrong.entry)
        wrong.entry.kept.now number (place.now)
        (told ∷ [])) }
{
    let found = other_name(alloc, wrong, number, path, steps)?;
    match found {
        Some(other) => {
            let told = tell_other(alloc, wrong, &other, steps)?;
            Ok(told)
        }
        None => {
            let told = tell_itself(alloc, wrong, number, place, steps)?;
            Ok(told)
        }
    }
}

/// Returns what is reported about the blamed element; nothing if an earlier one of its list was reported.
fn tell_element<L: Ledger>(
    alloc: Global,
    wrong: Wrong,
    number: usize,
    place: &Place,
    path: &Path,
    steps: &mut Steps<L>,
) -> Result<Option<Finding>, AllocError>
    requires wrong { IsWrong wrong }
    requires number { number < length wrong.kept.now }
    requires blamed { slice_get wrong.kept.now number ≡ Some false }
    requires place { slice_get wrong.places.now number ≡ Some (place.now) }
    requires path { place.now ≡ places.Element path.now }
    ensures { IfOk result (λ found. (r : Read) → IsSpotsOf wrong.entry.judged.spots r → IsTold (def_of wrong.entry)
        wrong.entry.judged.text.now (tree_in wrong.entry) r (fresh_of wrong.entry)
        wrong.entry.kept.now number (place.now)
        (one_or_none found)) }
{
    let before = is_told_before(alloc, wrong, number, path)?;
    if before {
        return Ok(None);
    }
    let told = tell_node(alloc, wrong, number, place, path, steps)?;
    Ok(Some(told))
}

/// Returns what is reported about the blamed place of the number.
fn told_place<L: Ledger>(
    alloc: Global,
    wrong: Wrong,
    number: usize,
    steps: &mut Steps<L>,
) -> Result<Option<Finding>, AllocError>
    requires wrong { IsWrong wrong }
    requires number { number < length wrong.kept.now }
    requires blamed { slice_get wrong.kept.now number ≡ Some false }
    ensures { IfOk result (λ found. (r : Read) → IsSpotsOf wrong.entry.judged.spots r → (place : PlainPlace)
        × (slice_get wrong.entry.places.now number ≡ Some place) × IsTold (def_of wrong.entry)
        wrong.entry.judged.text.now (tree_in wrong.entry) r (fresh_of wrong.entry) wrong.entry.kept.now number place
        (one_or_none found)) }
{
    let place = place_at(wrong, number);
    match place {
        Place::Node(path) => {
            let told = tell_node(alloc, wrong, number, place, path, steps)?;
            Ok(Some(told))
        }
        Place::Element(path) => {
            let told = tell_element(alloc, wrong, number, place, path, steps)?;
            Ok(told)
        }
        Place::End(path) => {
            let told = tell_end(alloc, wrong, number, place, path, steps)?;
            Ok(Some(told))
        }
        Place::Name(_, _) => {
            let told = tell_itself(alloc, wrong, number, place, steps)?;
            Ok(Some(told))
        }
    }
}

/// Adds what is reported about the place of the number, if it is blamed.
fn tell_place<L: Ledger>(
    alloc: Global,
    wrong: Wrong,
    number: usize,
    found: &mut Vec<Finding>,
    steps: &mut Steps<L>,
) -> Result<(), AllocError>
    requires wrong { IsWrong wrong }
    requires number { number < length wrong.kept.now }
    ensures { OnOk result ((r : Read) → IsSpotsOf wrong.entry.judged.spots r → (own : List Told)
        × (found.new.items ≡ found.old.items ++ own) × IsNumberTold (def_of wrong.entry) wrong.entry.judged.text.now
        (tree_in wrong.entry) r (fresh_of wrong.entry) wrong.entry.kept.now wrong.entry.places.now number own) }
{
    if !is_blamed(wrong.kept, number) {
        return Ok(());
    }
    let told = told_place(alloc, wrong, number, steps)?;
    push_some(found, told)?;
    Ok(())
}

/// Adds what is reported about the blamed places.
fn tell_all<L: Ledger>(
    alloc: Global,
    wrong: Wrong,
    found: &mut Vec<Finding>,
    steps: &mut Steps<L>,
) -> Result<(), AllocError>
    requires wrong { IsWrong wrong }
    ensures { OnOk result ((r : Read) → IsSpotsOf wrong.entry.judged.spots r → (own : List Told)
        × (found.new.items ≡ found.old.items ++ own) × AreTold (def_of wrong.entry) wrong.entry.judged.text.now
        (tree_in wrong.entry) r (fresh_of wrong.entry) wrong.entry.kept.now 0 wrong.entry.kept.now
        wrong.entry.places.now own) }
{
    for number in 0..wrong.kept.len() {
        tell_place(alloc, wrong, number, found, steps)?;
    }
    Ok(())
}

/// Adds the declarations that explain all that is wrong, if fewer than a hundred places are blamed; else says that more
/// may follow.
fn tell_more<L: Ledger>(
    alloc: Global,
    wrong: Wrong,
    found: &mut Vec<Finding>,
    steps: &mut Steps<L>,
) -> Result<bool, AllocError>
    requires wrong { IsWrong wrong }
    ensures { IfOk result (λ more. (r : Read) → IsSpotsOf wrong.entry.judged.spots r → (own : List Told)
        × (found.new.items ≡ found.old.items ++ own) × AreSuspects (def_of wrong.entry) wrong.entry.judged.text.now
        (tree_in wrong.entry) r (fresh_of wrong.entry) wrong.entry.kept.now own more) }
{
    let blamed = blamed_in(wrong.kept);
    if blamed >= MOST_BLAMED {
        return Ok(true);
    }
    tell_suspects(alloc, wrong, found, steps)?;
    Ok(false)
}

/// Adds what is reported about the blamed places, and says whether more may follow.
fn tell_places<L: Ledger>(
    alloc: Global,
    wrong: Wrong,
    found: &mut Vec<Finding>,
    steps: &mut Steps<L>,
) -> Result<bool, AllocError>
    requires wrong { IsWrong wrong }
    ensures { IfOk result (λ more. (r : Read) → IsSpotsOf wrong.entry.judged.spots r → (own suspects : List Told)
        × (found.new.items ≡ found.old.items ++ (own ++ suspects)) × AreTold (def_of wrong.entry)
        wrong.entry.judged.text.now (tree_in wrong.entry) r (fresh_of wrong.entry) wrong.entry.kept.now 0
        wrong.entry.kept.now wrong.entry.places.now own × AreSuspects (def_of wrong.entry) wrong.entry.judged.text.now
        (tree_in wrong.entry) r (fresh_of wrong.entry) wrong.entry.kept.now suspects more) }
{
    tell_all(alloc, wrong, found, steps)?;
    let more = tell_more(alloc, wrong, found, steps)?;
    Ok(more)
}

/// Adds what is reported about the blamed places of the program, and says whether more may follow.
fn tell_blamed<L: Ledger>(
    alloc: Global,
    judged: Judged,
    note: &Note,
    blamed: &Blamed,
    found: &mut Vec<Finding>,
    steps: &mut Steps<L>,
) -> Result<bool, AllocError>
    requires judged { IsJudged judged }
    requires note { IsNoteOf judged.definition.now judged.tree.now note.now }
    requires blamed { IsFound (IsOpen judged.definition.now) judged.definition.now judged.tree.now blamed.now }
    requires wrong { IsOpen judged.definition.now judged.tree.now → ⊥ }
    ensures { IfOk result (λ more. (r : Read) → IsSpotsOf judged.entry.spots r → (told : List Told)
        × (found.new.items ≡ found.old.items ++ told) × AreWrong judged.entry.definition.now judged.entry.text.now
        judged.entry.tree.now r false told more) }
{
    let places = all_places(alloc, judged.definition, judged.tables, judged.tree)?;
    let wrong = Wrong {
        judged,
        kept: blamed.kept.as_slice(),
        places: places.as_slice(),
        names: &blamed.names,
        note,
    };
    let more = tell_places(alloc, wrong, found, steps)?;
    Ok(more)
}

/// Returns the place of the report that the node at the path of the tree of the kept places is too wide.
fn wide_byte(alloc: Global, judged: Judged, kept: &[bool], path: &Path) -> Result<usize, AllocError>
    requires judged { IsJudged judged }
    ensures { IfOk result (λ byte. (r : Read) → IsSpotsOf judged.entry.spots r → (back : PlainPath)
        × IsBack (opened_among kept.now 0 (places_of judged.entry.definition.now judged.entry.tree.now)) path.now back
        × (byte ≡ node_byte judged.entry.definition.now r back)) }
{
    let definition = judged.definition;
    let tables = judged.tables;
    let opened = opened_places(alloc, definition, tables, kept, judged.tree)?;
    let own = path_back(alloc, opened.as_slice(), path)?;
    let byte = judged.spots.node(alloc, &own)?;
    Ok(byte)
}

/// Returns the place of the report about a limit that the tree of the kept places passes: the node that is too wide, or
/// the whole.
fn limit_byte(
    alloc: Global,
    judged: Judged,
    kept: &[bool],
    fault: &NoteFault,
) -> Result<usize, AllocError>
    requires judged { IsJudged judged }
    ensures { IfOk result (λ byte. (r : Read) → IsSpotsOf judged.entry.spots r → (back : PlainPath)
        × IsBack (opened_among kept.now 0 (places_of judged.entry.definition.now judged.entry.tree.now))
        (wide_path fault.now) back
        × (error_at byte wrongs.wide_message ≡ trial_told judged.entry.definition.now r fault.now back)) }
{
    let top = judged.spots.first();
    match fault {
        NoteFault::Wide { path, .. } => {
            let byte = wide_byte(alloc, judged, kept, path)?;
            Ok(byte)
        }
        NoteFault::Deep => Ok(top),
        NoteFault::Big => Ok(top),
        NoteFault::Heavy => Ok(top),
        NoteFault::Memory => Ok(top),
    }
}

/// Returns what is reported about a limit that the tree of the kept places passes.
fn tell_limit(
    alloc: Global,
    judged: Judged,
    kept: &[bool],
    fault: &NoteFault,
) -> Result<Finding, AllocError>
    requires judged { IsJudged judged }
    ensures { IfOk result (λ told. (r : Read) → IsSpotsOf judged.entry.spots r → (back : PlainPath)
        × IsBack (opened_among kept.now 0 (places_of judged.entry.definition.now judged.entry.tree.now))
        (wide_path fault.now) back × (told ≡ trial_told judged.entry.definition.now r fault.now back)) }
{
    let byte = limit_byte(alloc, judged, kept, fault)?;
    let told = plain_error(alloc, byte, "too many values are possible here")?;
    Ok(told)
}

/// Returns what is reported about a limit that the program passes.
pub(crate) fn told_limit(
    alloc: Global,
    judged: Judged,
    fault: &NoteFault,
) -> Result<Finding, AllocError>
    requires judged { IsJudged judged }
    ensures { IfOk result (λ told. (r : Read) → IsSpotsOf judged.entry.spots r
        → IsOfTree fault.now × (told ≡ limit_told judged.entry.definition.now r fault.now (wide_path fault.now))) }
{
    match fault {
        NoteFault::Deep => {
            let told = plain_error(alloc, 0, "the program is too deep")?;
            Ok(told)
        }
        NoteFault::Big => {
            let told = plain_error(alloc, 0, "the program is too large")?;
            Ok(told)
        }
        NoteFault::Wide { path, .. } => {
            let byte = judged.spots.node(alloc, path)?;
            let told = plain_error(alloc, byte, "too many values are possible here")?;
            Ok(told)
        }
        NoteFault::Heavy => {
            let told = plain_error(alloc, 0, "the program is too heavy")?;
            Ok(told)
        }
        NoteFault::Memory => Err(AllocError),
    }
}

/// Adds what the search answers of the program, which has no completion, and says whether more may follow.
fn tell_answer<L: Ledger>(
    alloc: Global,
    judged: Judged,
    note: &Note,
    answer: Option<Blamed>,
    found: &mut Vec<Finding>,
    steps: &mut Steps<L>,
) -> Result<bool, AllocError>
    requires judged { IsJudged judged }
    requires note { IsNoteOf judged.definition.now judged.tree.now note.now }
    requires answer { IsBlame (IsOpen judged.definition.now) judged.definition.now judged.tree.now answer }
    requires wrong { IsOpen judged.definition.now judged.tree.now → ⊥ }
    ensures { IfOk result (λ more. (r : Read) → IsSpotsOf judged.entry.spots r → (told : List Told)
        × (found.new.items ≡ found.old.items ++ told) × AreWrong judged.entry.definition.now judged.entry.text.now
        judged.entry.tree.now r false told more) }
{
    let top = judged.spots.first();
    match answer {
        Some(blamed) => {
            let more = tell_blamed(alloc, judged, note, &blamed, found, steps)?;
            Ok(more)
        }
        None => {
            let told = plain_error(alloc, top, "this does not fit here")?;
            found.push(told)?;
            Ok(false)
        }
    }
}

/// Adds what is reported about the fault of the search.
fn tell_fault(
    alloc: Global,
    judged: Judged,
    fault: BlameFault,
    found: &mut Vec<Finding>,
) -> Result<(), AllocError>
    requires judged { IsJudged judged }
    requires fault { IsBlameFault judged.definition.now judged.tree.now fault }
    requires wrong { IsOpen judged.definition.now judged.tree.now → ⊥ }
    ensures { OnOk result ((r : Read) → IsSpotsOf judged.entry.spots r → (told : List Told)
        × (found.new.items ≡ found.old.items ++ told) × AreWrong judged.entry.definition.now judged.entry.text.now
        judged.entry.tree.now r true told false) }
{
    match fault {
        BlameFault::Limit { kept, fault } => {
            let told = tell_limit(alloc, judged, kept.as_slice(), &fault)?;
            found.push(told)?;
            Ok(())
        }
        BlameFault::Memory => Err(AllocError),
    }
}

/// Adds what is wrong in the program, which has no completion, and says whether more may follow. The search is made
/// beside the note of the program.
pub(crate) fn tell_wrong<L: Ledger>(
    alloc: Global,
    judged: Judged,
    note: &Note,
    found: &mut Vec<Finding>,
    steps: &mut Steps<L>,
) -> Result<bool, AllocError>
    requires judged { IsJudged judged }
    requires rows { HasTrueRows judged.definition.now }
    requires note { IsNoteOf judged.definition.now judged.tree.now note.now }
    requires wrong { IsOpen judged.definition.now judged.tree.now → ⊥ }
    ensures { IfOk result (λ more. (r : Read) → IsSpotsOf judged.entry.spots r → (told : List Told)
        × (found.new.items ≡ found.old.items ++ told)
        × ((limited : Bool)
        × AreWrong judged.entry.definition.now judged.entry.text.now judged.entry.tree.now r limited told
        more)) }
{
    let definition = judged.definition;
    let tables = judged.tables;
    match blame_noted(alloc, definition, tables, note, judged.tree, steps) {
        Ok(answer) => {
            let more = tell_answer(alloc, judged, note, answer, found, steps)?;
            Ok(more)
        }
        Err(fault) => {
            tell_fault(alloc, judged, fault, found)?;
            Ok(false)
        }
    }
}
