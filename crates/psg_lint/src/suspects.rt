//! Declarations that explain all that is wrong.
ghost use Rattle.std.specs.Prelude.{◌≡◌, ◌<◌, ◌≤◌, ◌++◌, ◌↔◌, ℕ, IfOk, List, OnOk, Some, codes, cond, false, length};
ghost use Rattle.std.specs.Prelude.{slice_get, true};
ghost use Rattle.psg_places.specs.Blame as blame;
ghost use Rattle.psg_places.specs.Ways.{goes_through};
ghost use Rattle.psg_places.specs.declared.place.Place.{Place as PlainPlace};
ghost use Rattle.psg_places.specs.declared.place.Place.TheVariants as places;
ghost use Rattle.psg_recover.specs.Findings.{note_at};
ghost use Rattle.psg_recover.specs.Spotted.{IsSpotsOf};
ghost use Rattle.psg_recover.specs.TextPlaces.{Read, name_byte};
ghost use Rattle.psg_recover.specs.declared.finding.Finding.{Finding as Told};
ghost use Rattle.psg_uses.specs.Naming.{path_of_place};
ghost use Rattle.psg_uses.specs.declared.names.Written.{Written as Plain};
ghost use Rattle.psg_lint.specs.Judged.{IsWrong, def_of, fresh_of, tree_in};
ghost use Rattle.psg_lint.specs.Suspects.{AreOutside, AreSuspected, IsContent, IsDeclaration, IsExplaining};
ghost use Rattle.psg_lint.specs.Suspects.{IsSuspected};
ghost use Rattle.psg_lint.specs.Suspects.{one_or_none};

use crate::trials::{Wrong, can_be, is_blamed};
use psg_places::Place;
use psg_recover::finding::{Finding, note};
use psg_terms::Steps;
use psg_tree::Path;
use psg_uses::names::{Written, name_at, path_of};
use std::alloc::{AllocError, Global};
use std::sync::ledger::Ledger;

/// Says whether the place is at the path or below it.
fn is_inside(place: &Place, path: &Path) -> bool
    ensures { result ≡ goes_through path.now (path_of_place place.now) }
{
    path_of(place).steps().starts_with(path.steps())
}

/// Says whether the place of the number is blamed, and is at the path or below it.
fn is_blamed_inside(wrong: Wrong, number: usize, path: &Path) -> bool
    requires wrong { IsWrong wrong }
    requires number { number < length wrong.kept.now }
    ensures { (result ≡ true) ↔ ((p : PlainPlace) × (slice_get wrong.entry.kept.now number ≡ Some false)
        × (slice_get wrong.entry.places.now number ≡ Some p) × (goes_through path.now (path_of_place p) ≡ true)) }
{
    if !is_blamed(wrong.kept, number) {
        return false;
    }
    let place = &wrong.places[number];
    is_inside(place, path)
}

/// Says whether no blamed place is at the path or below it.
fn all_outside(wrong: Wrong, path: &Path) -> bool
    requires wrong { IsWrong wrong }
    ensures { (result ≡ true) ↔ AreOutside (def_of wrong.entry) (tree_in wrong.entry) wrong.entry.kept.now path.now }
{
    for number in 0..wrong.kept.len() {
        let inside = is_blamed_inside(wrong, number, path);
        if inside {
            return false;
        }
    }
    true
}

/// Says whether the place is a name that is declared.
fn is_declared(alloc: Global, wrong: Wrong, place: &Place) -> Result<bool, AllocError>
    ensures { IfOk result (λ declared. (declared ≡ true) ↔ ((w : Plain) × IsDeclaration (def_of wrong.entry)
        (tree_in wrong.entry) place.now w)) }
{
    match place {
        Place::Name(path, name) => {
            let judged = wrong.judged;
            let found = name_at(alloc, judged.definition, judged.tree, path, *name)?;
            match found {
                Some(own) => Ok(own.declares),
                None => Ok(false),
            }
        }
        Place::Node(_) => Ok(false),
        Place::Element(_) => Ok(false),
        Place::End(_) => Ok(false),
    }
}

/// Says whether the place of the number `later` is one of the contents of the declaration, whose place has the number.
fn is_content(
    alloc: Global,
    wrong: Wrong,
    number: usize,
    later: usize,
    path: &Path,
) -> Result<bool, AllocError>
    requires wrong { IsWrong wrong }
    requires later { later < length wrong.places.now }
    ensures { IfOk result (λ content. (content ≡ true) ↔ IsContent (def_of wrong.entry) (tree_in wrong.entry) path.now
        number later) }
{
    if later <= number {
        return Ok(false);
    }
    let place = &wrong.places[later];
    if !is_inside(place, path) {
        return Ok(false);
    }
    let declared = is_declared(alloc, wrong, place)?;
    Ok(!declared)
}

/// Returns the answers that keep all places but the contents of the declaration, whose place has the number.
fn all_answers(
    alloc: Global,
    wrong: Wrong,
    number: usize,
    path: &Path,
) -> Result<Vec<bool>, AllocError>
    requires wrong { IsWrong wrong }
    ensures each { IfOk result (λ answers. length answers.items ≡ length wrong.entry.places.now) }
    ensures opens { IfOk result (λ answers. (n : ℕ) → (slice_get answers.items n ≡ Some false)
        ↔ IsContent (def_of wrong.entry) (tree_in wrong.entry) path.now number n) }
{
    let mut answers = Vec::with_capacity(alloc, wrong.places.len())?;
    for later in 0..wrong.places.len() {
        let content = is_content(alloc, wrong, number, later, path)?;
        answers.push(!content)?;
    }
    Ok(answers)
}

/// Says whether one of the places is blamed.
fn some_blamed(kept: &[bool]) -> bool
    ensures { (result ≡ true) ↔ ((n : ℕ) × (slice_get kept.now n ≡ Some false)) }
{
    for place in 0..kept.len() {
        if is_blamed(kept, place) {
            return true;
        }
    }
    false
}

/// Says whether all the rest fits where the contents of the declaration are opened.
fn explains<L: Ledger>(
    alloc: Global,
    wrong: Wrong,
    number: usize,
    path: &Path,
    steps: &mut Steps<L>,
) -> Result<bool, AllocError>
    requires wrong { IsWrong wrong }
    ensures { IfOk result (λ good. (good ≡ true) ↔ IsExplaining (def_of wrong.entry) (tree_in wrong.entry)
        (fresh_of wrong.entry) wrong.entry.kept.now path.now number) }
{
    if !all_outside(wrong, path) {
        return Ok(false);
    }
    let answers = all_answers(alloc, wrong, number, path)?;
    if !some_blamed(answers.as_slice()) {
        return Ok(false);
    }
    let good = can_be(alloc, wrong, answers.as_slice(), wrong.judged.tree, steps)?;
    Ok(good)
}

/// Returns the note of the declaration.
fn told(alloc: Global, wrong: Wrong, name: &Written) -> Result<Finding, AllocError>
    requires wrong { IsWrong wrong }
    ensures { IfOk result (λ found. (r : Read) → IsSpotsOf wrong.entry.judged.spots r → found
        ≡ note_at (name_byte (def_of wrong.entry) r name.now.path name.now.number)
        (codes "with another declaration of " ++ (name.now.name ++ codes " all the rest would fit"))) }
{
    let byte = wrong.judged.spots.name(alloc, &name.path, name.number)?;
    let message = format!(in alloc;
        "with another declaration of {} all the rest would fit",
        name.name.as_str()
    )?;
    let found = note(alloc, byte, message)?;
    Ok(found)
}

/// Returns the note of the name of the number of the node at the path, if it is a declaration that explains all that is
/// wrong.
fn suspected_name<L: Ledger>(
    alloc: Global,
    wrong: Wrong,
    number: usize,
    path: &Path,
    name: usize,
    steps: &mut Steps<L>,
) -> Result<Option<Finding>, AllocError>
    requires wrong { IsWrong wrong }
    requires place { slice_get wrong.places.now number ≡ Some (places.Name path.now name) }
    requires several { 2 ≤ blame.blamed_in wrong.kept.now }
    ensures { IfOk result (λ found. (r : Read) → IsSpotsOf wrong.entry.judged.spots r → IsSuspected (def_of wrong.entry)
        (tree_in wrong.entry) r (fresh_of wrong.entry) wrong.entry.kept.now number (one_or_none found)) }
{
    let judged = wrong.judged;
    let found = name_at(alloc, judged.definition, judged.tree, path, name)?;
    let Some(own) = found else {
        return Ok(None);
    };
    if !own.declares {
        return Ok(None);
    }
    let good = explains(alloc, wrong, number, path, steps)?;
    if !good {
        return Ok(None);
    }
    let finding = told(alloc, wrong, &own.name)?;
    Ok(Some(finding))
}

/// Returns the note of the place of the number, if it is a declaration that explains all that is wrong.
fn suspected<L: Ledger>(
    alloc: Global,
    wrong: Wrong,
    number: usize,
    steps: &mut Steps<L>,
) -> Result<Option<Finding>, AllocError>
    requires wrong { IsWrong wrong }
    requires number { number < length wrong.places.now }
    requires several { 2 ≤ blame.blamed_in wrong.kept.now }
    ensures { IfOk result (λ found. (r : Read) → IsSpotsOf wrong.entry.judged.spots r → IsSuspected (def_of wrong.entry)
        (tree_in wrong.entry) r (fresh_of wrong.entry) wrong.entry.kept.now number (one_or_none found)) }
{
    match &wrong.places[number] {
        Place::Node(_) => Ok(None),
        Place::Element(_) => Ok(None),
        Place::End(_) => Ok(None),
        Place::Name(path, name) => {
            let found = suspected_name(alloc, wrong, number, path, *name, steps)?;
            Ok(found)
        }
    }
}

/// Adds what was found, if anything was.
pub(crate) fn push_some(found: &mut Vec<Finding>, told: Option<Finding>) -> Result<(), AllocError>
    ensures { OnOk result (found.new.items ≡ found.old.items ++ one_or_none told) }
{
    match told {
        Some(one) => {
            found.push(one)?;
            Ok(())
        }
        None => Ok(()),
    }
}

/// Returns 1 for true, and 0 for false.
fn one_if(test: bool) -> usize
    ensures exact { result ≡ cond test 1 0 }
    ensures small { result ≤ 1 }
{
    if test { 1 } else { 0 }
}

/// Returns how many places are blamed.
pub(crate) fn blamed_in(kept: &[bool]) -> usize
    ensures { result ≡ blame.blamed_in kept.now }
{
    let mut total = 0;
    for i in 0..kept.len() {
        let blamed = is_blamed(kept, i);
        let more = one_if(blamed);
        total += more;
    }
    total
}

/// Adds a note for each declaration that explains all that is wrong: where two places or more are blamed, none of them
/// in the declaration, and all but its contents can be kept.
pub(crate) fn tell_suspects<L: Ledger>(
    alloc: Global,
    wrong: Wrong,
    found: &mut Vec<Finding>,
    steps: &mut Steps<L>,
) -> Result<(), AllocError>
    requires wrong { IsWrong wrong }
    ensures { OnOk result ((r : Read) → IsSpotsOf wrong.entry.judged.spots r → (told : List Told)
        × (found.new.items ≡ found.old.items ++ told)
        × AreSuspected (def_of wrong.entry) (tree_in wrong.entry) r (fresh_of wrong.entry) wrong.entry.kept.now 0
        wrong.entry.places.now told) }
{
    let blamed = blamed_in(wrong.kept);
    if blamed < 2 {
        return Ok(());
    }
    for number in 0..wrong.places.len() {
        let told = suspected(alloc, wrong, number, steps)?;
        push_some(found, told)?;
    }
    Ok(())
}
