//! Other places than the blamed one, which say more of what is wrong.
ghost use Rattle.std.specs.Prelude.{◌≡◌, ◌<◌, ◌≤◌, ◌++◌, ◌∷◌, ◌↔◌, [], ℕ, IfOk, MatchOption, Some, length, take, true};
ghost use Rattle.std.specs.List.{AllByRecursion};
ghost use Rattle.psg_terms.specs.Relations.{IsIn};
ghost use Rattle.psg_grammar.specs.Fragments.{Fragment};
ghost use Rattle.psg_grammar.specs.Paths as grammar;
ghost use Rattle.psg_grammar.specs.Paths.{IsList, node_at};
ghost use Rattle.psg_places.specs.Ways.{goes_through};
ghost use Rattle.psg_places.specs.declared.place.Place.TheVariants as places;
ghost use Rattle.psg_uses.specs.Members as elements;
ghost use Rattle.psg_uses.specs.Regions as uses;
ghost use Rattle.psg_uses.specs.declared.elements.Member.{Member as PlainMember};
ghost use Rattle.psg_uses.specs.declared.names.Written.{Written as Plain};
ghost use Rattle.psg_lint.specs.Hints.{HasMember, HasNoOtherName, HasNoWithout, IsGoodWith, IsLast, IsLastOther};
ghost use Rattle.psg_lint.specs.Hints.{IsLoose};
ghost use Rattle.psg_lint.specs.Hints.{IsLooseUse, IsOther, IsOtherName, IsUndeclared, IsWithout, but_for};
ghost use Rattle.psg_lint.specs.Judged.{IsWrong, def_of, fresh_of, tree_in};

use crate::ends::{child_path, is_declaring_list, only_memory};
use crate::trials::{Wrong, can_be, is_blamed, up_to};
use psg_places::Place;
use psg_terms::Steps;
use psg_tree::{Path, Tree, at, remove};
use psg_uses::elements::{Member, add_members};
use psg_uses::names::{Named, Written, name_at};
use psg_uses::regions::{declaration_of, region_of};
use std::alloc::{AllocError, Global};
use std::sync::ledger::Ledger;

/// Returns the elements of the fixed lists of the node at the path.
fn members_at(alloc: Global, wrong: Wrong, path: &Path) -> Result<Vec<Member>, AllocError>
    requires wrong { IsWrong wrong }
    ensures { IfOk result (λ found. found.items
        ≡ elements.members_at (def_of wrong.entry) path.now (node_at (tree_in wrong.entry) path.now)) }
{
    let judged = wrong.judged;
    let mut found = Vec::new(alloc);
    match at(judged.tree, path) {
        Some(node) => {
            add_members(alloc, judged.spots.known, path.steps(), node, &mut found)?;
            Ok(found)
        }
        None => Ok(found),
    }
}

/// Returns the tree without the element.
fn without(alloc: Global, tree: &Tree, member: &Member) -> Result<Tree, AllocError>
    requires { HasMember tree.now member.now }
    ensures { IfOk result
        (λ less. less ≡ grammar.change_at (grammar.removed member.now.number) member.now.list tree.now) }
{
    match remove(alloc, tree, &member.list, member.number) {
        Ok(less) => Ok(less),
        Err(fault) => Err(only_memory(fault)),
    }
}

/// Says whether the blamed place can be kept where the element is left out, by the answers up to that place.
fn is_better<L: Ledger>(
    alloc: Global,
    wrong: Wrong,
    answers: &[bool],
    member: &Member,
    steps: &mut Steps<L>,
) -> Result<bool, AllocError>
    requires wrong { IsWrong wrong }
    requires member { HasMember (tree_in wrong) member.now }
    ensures { IfOk result (λ better. (better ≡ true) ↔ IsGoodWith (def_of wrong.entry) (fresh_of wrong.entry)
        (grammar.change_at (grammar.removed member.now.number) member.now.list (tree_in wrong.entry)) answers.now) }
{
    let less = without(alloc, wrong.judged.tree, member)?;
    let better = can_be(alloc, wrong, answers, &less, steps)?;
    Ok(better)
}

/// Returns the path of the last of the elements without which the blamed place can be kept, by the answers up to it.
fn last_better<L: Ledger>(
    alloc: Global,
    wrong: Wrong,
    answers: &[bool],
    members: &[Member],
    steps: &mut Steps<L>,
) -> Result<Option<Path>, AllocError>
    requires wrong { IsWrong wrong }
    requires members { AllByRecursion (HasMember (tree_in wrong)) members.now }
    ensures { IfOk result (λ found. MatchOption found
        ((m : PlainMember) → IsIn m members.now → IsGoodWith (def_of wrong.entry) (fresh_of wrong.entry)
        (grammar.change_at (grammar.removed m.number) m.list (tree_in wrong.entry)) answers.now → ⊥)
        (λ path. (m : PlainMember) × IsLast (λ (o : PlainMember). IsGoodWith (def_of wrong.entry) (fresh_of wrong.entry)
        (grammar.change_at (grammar.removed o.number) o.list (tree_in wrong.entry)) answers.now) members.now m
        × (path ≡ elements.member_path m))) }
{
    for less in 0..members.len() {
        let place = members.len() - 1 - less;
        let member = &members[place];
        let better = is_better(alloc, wrong, answers, member, steps)?;
        if !better {
            continue;
        }
        let path = child_path(alloc, &member.list, member.number)?;
        return Ok(Some(path));
    }
    Ok(None)
}

/// Returns the path of the last element of a fixed list of the node at the path without which the place of the number
/// can be kept.
pub(crate) fn better_without<L: Ledger>(
    alloc: Global,
    wrong: Wrong,
    number: usize,
    path: &Path,
    steps: &mut Steps<L>,
) -> Result<Option<Path>, AllocError>
    requires wrong { IsWrong wrong }
    requires number { number < length wrong.kept.now }
    ensures { IfOk result (λ found. MatchOption found
        (HasNoWithout (def_of wrong.entry) (fresh_of wrong.entry) (tree_in wrong.entry)
        (take number wrong.entry.kept.now) path.now)
        (λ own. (less : PlainMember) × IsWithout (def_of wrong.entry) (fresh_of wrong.entry) (tree_in wrong.entry)
        (take number wrong.entry.kept.now) path.now less × (own ≡ elements.member_path less))) }
{
    let members = members_at(alloc, wrong, path)?;
    let answers = up_to(alloc, wrong.kept, number)?;
    let found = last_better(alloc, wrong, answers.as_slice(), members.as_slice(), steps)?;
    Ok(found)
}

/// Says whether the path leads through the region.
fn is_in(region: &[u32], path: &Path) -> bool
    ensures { result ≡ goes_through region.now path.now }
{
    path.steps().starts_with(region)
}

/// Says whether a declaration of the name is in the region.
fn is_declared_in(
    alloc: Global,
    wrong: Wrong,
    region: &[u32],
    name: &Written,
) -> Result<bool, AllocError>
    ensures { IfOk result (λ inside. (inside ≡ true) ↔ ((d : Plain) × (uses.declaration_of (def_of wrong.entry)
        (tree_in wrong.entry) name.now ≡ Some d) × (goes_through region.now d.path ≡ true))) }
{
    let judged = wrong.judged;
    let found = declaration_of(alloc, judged.definition, judged.tree, name)?;
    match found {
        Some(other) => {
            let inside = is_in(region, &other.path);
            Ok(inside)
        }
        None => Ok(false),
    }
}

/// Returns the name if it is used, and nothing in the region declares it.
fn if_loose(
    alloc: Global,
    wrong: Wrong,
    region: &[u32],
    own: Named,
) -> Result<Option<Written>, AllocError>
    ensures { IfOk result (λ found. MatchOption found
        (IsUndeclared (def_of wrong.entry) (tree_in wrong.entry) region.now own → ⊥)
        (λ w. (w ≡ own.name) × IsUndeclared (def_of wrong.entry) (tree_in wrong.entry) region.now own)) }
{
    if own.declares {
        return Ok(None);
    }
    let name = own.name;
    let inside = is_declared_in(alloc, wrong, region, &name)?;
    if inside {
        return Ok(None);
    }
    Ok(Some(name))
}

/// Returns the name of the number of the node at the path if it is used in the region, and nothing in the region
/// declares it.
fn loose_name(
    alloc: Global,
    wrong: Wrong,
    region: &[u32],
    path: &Path,
    name: usize,
) -> Result<Option<Written>, AllocError>
    ensures { IfOk result (λ found. MatchOption found
        ((w : Plain) → IsLooseUse (def_of wrong.entry) (tree_in wrong.entry) region.now
        (places.Name path.now name) w → ⊥)
        (IsLooseUse (def_of wrong.entry) (tree_in wrong.entry) region.now (places.Name path.now name))) }
{
    if !is_in(region, path) {
        return Ok(None);
    }
    let judged = wrong.judged;
    let found = name_at(alloc, judged.definition, judged.tree, path, name)?;
    match found {
        Some(own) => {
            let loose = if_loose(alloc, wrong, region, own)?;
            Ok(loose)
        }
        None => Ok(None),
    }
}

/// Returns the name at the place if it is used in the region, and nothing in the region declares it.
fn loose_use(
    alloc: Global,
    wrong: Wrong,
    region: &[u32],
    place: &Place,
) -> Result<Option<Written>, AllocError>
    ensures { IfOk result (λ found. MatchOption found
        ((w : Plain) → IsLooseUse (def_of wrong.entry) (tree_in wrong.entry) region.now place.now w → ⊥)
        (IsLooseUse (def_of wrong.entry) (tree_in wrong.entry) region.now place.now)) }
{
    match place {
        Place::Node(_) => Ok(None),
        Place::Element(_) => Ok(None),
        Place::End(_) => Ok(None),
        Place::Name(path, name) => {
            let found = loose_name(alloc, wrong, region, path, *name)?;
            Ok(found)
        }
    }
}

/// A use that gets another name, with its place's number and the answers with which the end can then be kept.
#[derive(Drop)]
pub(crate) struct OtherName {
    pub(crate) name: Written,
    pub(crate) number: usize,
    pub(crate) answers: Vec<bool>,
}

/// Returns the answers for the places before the end, but that the place of the number is not kept, and that the end
/// is.
fn answers_but(
    alloc: Global,
    kept: &[bool],
    end: usize,
    number: usize,
) -> Result<Vec<bool>, AllocError>
    requires end { end ≤ length kept.now }
    requires number { number < end }
    ensures { IfOk result (λ answers. answers.items ≡ but_for (take end kept.now) number ++ true ∷ []) }
{
    let front = &kept[..end];
    let mut answers = Vec::from_slice(alloc, &front[..number])?;
    answers.push(false)?;
    answers.extend_from_slice(&front[number + 1..])?;
    answers.push(true)?;
    Ok(answers)
}

/// Returns the place of the number with another name if it is a loose use that is kept, with which the end can be kept.
fn tried_use<L: Ledger>(
    alloc: Global,
    wrong: Wrong,
    end: usize,
    region: &[u32],
    number: usize,
    steps: &mut Steps<L>,
) -> Result<Option<OtherName>, AllocError>
    requires wrong { IsWrong wrong }
    requires end { end ≤ length wrong.kept.now }
    requires number { number < end }
    ensures { IfOk result (λ found. MatchOption found
        ((w : Plain) → IsOther (def_of wrong.entry) (fresh_of wrong.entry) (tree_in wrong.entry)
        (take end wrong.entry.kept.now) region.now number w → ⊥)
        (λ other. (other.number ≡ number) × IsOther (def_of wrong.entry) (fresh_of wrong.entry) (tree_in wrong.entry)
        (take end wrong.entry.kept.now) region.now number other.name
        × (other.answers.items ≡ but_for (take end wrong.entry.kept.now) number ++ true ∷ []))) }
{
    let loose = loose_kept(alloc, wrong, region, number)?;
    match loose {
        Some(name) => {
            let answers = answers_but(alloc, wrong.kept, end, number)?;
            let good = can_be(alloc, wrong, answers.as_slice(), wrong.judged.tree, steps)?;
            if good {
                return Ok(Some(OtherName {
                    name,
                    number,
                    answers,
                }));
            }
            Ok(None)
        }
        None => Ok(None),
    }
}

/// Returns the name of the place of the number if the place is kept and a loose use.
fn loose_kept(
    alloc: Global,
    wrong: Wrong,
    region: &[u32],
    number: usize,
) -> Result<Option<Written>, AllocError>
    requires wrong { IsWrong wrong }
    requires number { number < length wrong.kept.now }
    ensures { IfOk result (λ found. MatchOption found
        ((w : Plain) → IsLoose (def_of wrong.entry) (tree_in wrong.entry) wrong.entry.kept.now region.now number w → ⊥)
        (IsLoose (def_of wrong.entry) (tree_in wrong.entry) wrong.entry.kept.now region.now number)) }
{
    if is_blamed(wrong.kept, number) {
        return Ok(None);
    }
    let place = &wrong.places[number];
    let found = loose_use(alloc, wrong, region, place)?;
    Ok(found)
}

/// Finds the last loose use of the region that is kept and with another name of which the end can be kept.
fn last_use<L: Ledger>(
    alloc: Global,
    wrong: Wrong,
    end: usize,
    region: &[u32],
    steps: &mut Steps<L>,
) -> Result<Option<OtherName>, AllocError>
    requires wrong { IsWrong wrong }
    requires end { end ≤ length wrong.kept.now }
    ensures { IfOk result (λ found. MatchOption found
        ((number : ℕ) (w : Plain) → IsOther (def_of wrong.entry) (fresh_of wrong.entry) (tree_in wrong.entry)
        (take end wrong.entry.kept.now) region.now number w → ⊥)
        (λ other. IsLastOther (def_of wrong.entry) (fresh_of wrong.entry) (tree_in wrong.entry)
        (take end wrong.entry.kept.now) region.now other.number other.name
        × (other.answers.items ≡ but_for (take end wrong.entry.kept.now) other.number ++ true ∷ []))) }
{
    for less in 0..end {
        let number = end - 1 - less;
        let found = tried_use(alloc, wrong, end, region, number, steps)?;
        match found {
            Some(other) => return Ok(Some(other)),
            None => continue,
        }
    }
    Ok(None)
}

/// Finds the last use of the region around the list at the path with another name for which the end of the list, the
/// place of the number, can be kept. Only uses are tried that are kept and that nothing in the region declares, and
/// only where elements of the list declare.
pub(crate) fn other_name<L: Ledger>(
    alloc: Global,
    wrong: Wrong,
    end: usize,
    path: &Path,
    steps: &mut Steps<L>,
) -> Result<Option<OtherName>, AllocError>
    requires wrong { IsWrong wrong }
    requires end { end < length wrong.kept.now }
    requires there { (list : Fragment) × (node_at (tree_in wrong) path.now ≡ Some list) × IsList list }
    ensures { IfOk result (λ found. MatchOption found
        (HasNoOtherName (def_of wrong.entry) (fresh_of wrong.entry) (tree_in wrong.entry)
        (take end wrong.entry.kept.now) path.now)
        (λ other. IsOtherName (def_of wrong.entry) (fresh_of wrong.entry) (tree_in wrong.entry)
        (take end wrong.entry.kept.now) path.now other.number other.name
        × (other.answers.items ≡ but_for (take end wrong.entry.kept.now) other.number ++ true ∷ []))) }
{
    if !is_declaring_list(wrong, path) {
        return Ok(None);
    }
    let judged = wrong.judged;
    let steps_in = path.steps();
    let length = region_of(alloc, judged.definition, judged.tree, steps_in)?;
    let region = &steps_in[..length];
    let found = last_use(alloc, wrong, end, region, steps)?;
    Ok(found)
}
