//! The keys that a region declares.
ghost use Rattle.std.specs.Prelude.{◌≡◌, ◌++◌, ◌+◌, ◌-◌, ◌<◌, ◌≤◌, ◌^◌, ◌∷◌, [], bytes_eq, drop, false, length};
ghost use Rattle.std.specs.Prelude.{slice_get};
ghost use Rattle.std.specs.Prelude.{IfOk, List, MatchOption, OnOk, option_copied};
ghost use Rattle.std.specs.List.{AllByRecursion};
ghost use Rattle.psg_terms.specs.Names.{has_twice, is_among};
ghost use Rattle.psg_grammar.specs.Keys.{Key, key_cmp};
ghost use Rattle.psg_grammar.specs.Regions.{declared_in, declared_inside};
ghost use Rattle.psg_scope.specs.Headers.{key_of, keys as keys_of};
ghost use Rattle.psg_tree.specs.Shapes.{subtrees};
ghost use Rattle.psg_cache.specs.Notes.{IsFormed};
ghost use Rattle.psg_explain.specs.DeclaredParts.{IsFirstAmong, IsLeast, element_keys, part_keys};
ghost use Rattle.psg_explain.specs.DeclaredParts.{parts_keys, position_keys};
ghost use Rattle.psg_explain.specs.Explanations.{IsFirstTwice};
ghost use Rattle.psg_explain.specs.Refutations.{is_twice_among};
ghost use Rattle.psg_explain.specs.Splits.{name_of_part};

use crate::adding::{is_scope, own_positions};
use psg_grammar::Definition;
use psg_scope::NameCol;
use psg_tree::{Part, Shape, Tree};
use std::alloc::{AllocError, Global};
use std::cmp::Ordering;

/// Returns the key once more.
fn copied(key: &NameCol) -> Result<NameCol, AllocError>
    ensures { IfOk result (λ k. k ≡ key.now) }
{
    Ok(NameCol {
        space: key.space,
        name: key.name.share()?,
        declared: key.declared,
    })
}

/// Adds the key of the position of the number, if there is one and it declares.
fn add_position(
    positions: &[NameCol],
    number: usize,
    found: &mut Vec<NameCol>,
) -> Result<(), AllocError>
    ensures { OnOk result
        (keys_of found.new.items ≡ keys_of found.old.items ++ position_keys (slice_get positions.now number)) }
{
    match positions.get(number) {
        Some(position) => {
            if position.declared {
                let key = copied(position)?;
                found.push(key)?;
                return Ok(());
            }
            Ok(())
        }
        None => Ok(()),
    }
}

/// Adds the keys that the region of the child declares; none where it is a scope operator.
#[cycle(declared)]
fn add_child(
    alloc: Global,
    definition: &Definition,
    tree: &Tree,
    found: &mut Vec<NameCol>,
) -> Result<(), AllocError>
    requires { IsFormed definition.now tree.now }
    ensures { OnOk result (keys_of found.new.items ≡ keys_of found.old.items ++ declared_in definition.now tree.now) }
{
    if is_scope(definition, tree) {
        return Ok(());
    }
    add_declared(alloc, definition, tree, found)?;
    Ok(())
}

/// Adds the keys of the part: those of a tree, or that of a name at the next of the positions. Returns the number of
/// the position after it.
#[cycle(declared)]
fn add_part(
    alloc: Global,
    definition: &Definition,
    positions: &[NameCol],
    next: usize,
    part: &Part,
    found: &mut Vec<NameCol>,
) -> Result<usize, AllocError>
    requires formed { AllByRecursion (IsFormed definition.now) (subtrees (part.now ∷ [])) }
    requires few { next < 2 ^ 64 - 1 }
    ensures found { IfOk result (λ _. keys_of found.new.items
        ≡ keys_of found.old.items ++ part_keys definition.now positions.now next part.now) }
    ensures next { IfOk result (λ n. n ≡ next + length (name_of_part part.now)) }
{
    match part {
        Part::Sub(child) => {
            add_child(alloc, definition, child, found)?;
            Ok(next)
        }
        Part::Name(_) => {
            add_position(positions, next, found)?;
            Ok(next + 1)
        }
        Part::Number(_) => Ok(next),
        Part::Text(_) => Ok(next),
    }
}

/// Adds the keys of the parts, with these positions of the names among them.
#[cycle(declared)]
fn add_parts(
    alloc: Global,
    definition: &Definition,
    positions: &[NameCol],
    parts: &[Part],
    found: &mut Vec<NameCol>,
) -> Result<(), AllocError>
    requires { AllByRecursion (IsFormed definition.now) (subtrees parts.now) }
    ensures { OnOk result (keys_of found.new.items
        ≡ keys_of found.old.items ++ parts_keys definition.now positions.now 0 parts.now) }
{
    let mut next = 0usize;
    for i in 0..parts.len() {
        let after = add_part(alloc, definition, positions, next, &parts[i], found)?;
        next = after;
    }
    Ok(())
}

/// Adds the keys that the regions of the elements declare.
#[cycle(declared)]
fn add_elements(
    alloc: Global,
    definition: &Definition,
    elements: &[Tree],
    found: &mut Vec<NameCol>,
) -> Result<(), AllocError>
    requires { AllByRecursion (IsFormed definition.now) elements.now }
    ensures { OnOk result
        (keys_of found.new.items ≡ keys_of found.old.items ++ element_keys definition.now elements.now) }
{
    for i in 0..elements.len() {
        add_child(alloc, definition, &elements[i], found)?;
    }
    Ok(())
}

/// Adds the keys that the region of the node declares, or the inside region where it is a scope operator.
#[cycle(declared)]
fn add_declared(
    alloc: Global,
    definition: &Definition,
    tree: &Tree,
    found: &mut Vec<NameCol>,
) -> Result<(), AllocError>
    requires { IsFormed definition.now tree.now }
    ensures { OnOk result
        (keys_of found.new.items ≡ keys_of found.old.items ++ declared_inside definition.now tree.now) }
{
    match tree.shape() {
        Shape::Hole { .. } => Ok(()),
        Shape::List { elements, .. } => {
            add_elements(alloc, definition, elements.as_slice(), found)?;
            Ok(())
        }
        Shape::Op { op, parts } => {
            let own = own_positions(alloc, definition, *op, parts.as_slice())?;
            let inner = parts.as_slice();
            add_parts(alloc, definition, own.as_slice(), inner, found)?;
            Ok(())
        }
    }
}

/// Returns the keys that the region of the node declares, or the inside region where it is a scope operator, each as
/// often as it is declared.
pub(crate) fn declared(
    alloc: Global,
    definition: &Definition,
    tree: &Tree,
) -> Result<Vec<NameCol>, AllocError>
    requires { IsFormed definition.now tree.now }
    ensures { IfOk result (λ v. keys_of v.items ≡ declared_inside definition.now tree.now) }
{
    let mut found = Vec::new(alloc);
    add_declared(alloc, definition, tree, &mut found)?;
    Ok(found)
}

/// Says whether the key is that of the name in the space.
fn is_this(key: &NameCol, space: u32, name: &str) -> bool
    ensures { result ≡ bytes_eq (key_of key.now) (space ∷ name.now) }
{
    key.space == space && key.name.as_str() == name
}

/// Says whether the key is at one of the places from this one on.
fn is_there(keys: &[NameCol], from: usize, space: u32, name: &str) -> bool
    requires { from ≤ length keys.now }
    ensures { result ≡ is_among (keys_of (drop from keys.now)) (space ∷ name.now) }
{
    for i in from..keys.len() {
        if is_this(&keys[i], space, name) {
            return true;
        }
    }
    false
}

/// Says whether the key is at two of the places.
pub(crate) fn is_twice(keys: &[NameCol], space: u32, name: &str) -> bool
    ensures { result ≡ is_twice_among (keys_of keys.now) (space ∷ name.now) }
{
    for i in 0..keys.len() {
        if is_this(&keys[i], space, name) {
            let again = is_there(keys, i + 1, space, name);
            return again;
        }
    }
    false
}

/// Compares two keys: by the bytes of their names, then by their spaces.
fn order(one: &NameCol, other: &NameCol) -> Ordering
    ensures { result ≡ key_cmp (key_of one.now) (key_of other.now) }
{
    match one.name.as_str().cmp(other.name.as_str()) {
        Ordering::Less => Ordering::Less,
        Ordering::Equal => one.space.cmp(&other.space),
        Ordering::Greater => Ordering::Greater,
    }
}

/// Returns the key, or the other one where the key is not before it in the order of keys.
fn least<'a>(found: Option<&'a NameCol>, key: &'a NameCol) -> &'a NameCol
    ensures { IsLeast (option_copied found.entry) key.now result.now }
{
    match found {
        Some(other) => match order(key, other) {
            Ordering::Less => key,
            Ordering::Equal => other,
            Ordering::Greater => other,
        },
        None => key,
    }
}

/// Returns the first of the key that was found and of this one, if this one is at two of the places.
fn first_of<'a>(
    keys: &'a [NameCol],
    found: Option<&'a NameCol>,
    key: &'a NameCol,
) -> Option<&'a NameCol>
    ensures { (front : List Key) → IsFirstAmong (keys_of keys.now) front (option_copied found.entry)
        → IsFirstAmong (keys_of keys.now) (front ++ key_of key.now ∷ []) (option_copied result) }
{
    if is_twice(keys, key.space, key.name.as_str()) {
        let first = least(found, key);
        return Some(first);
    }
    found
}

/// Returns the first key, in the order of keys, that is at two of the places. It compares each two keys.
pub(crate) fn first_twice(keys: &[NameCol]) -> Option<&NameCol>
    ensures { MatchOption result (has_twice (keys_of keys.now) ≡ false)
        (λ k. IsFirstTwice (keys_of keys.now) (key_of k.now)) }
{
    let mut found: Option<&NameCol> = None;
    for i in 0..keys.len() {
        found = first_of(keys, found, &keys[i]);
    }
    found
}
