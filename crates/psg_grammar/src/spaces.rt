//! In which spaces phyla declare.
ghost use Rattle.std.specs.Prelude.{◌≡◌, ℕ, ◌<◌, ◌↔◌, true, false, ◌∷◌, [], length, slice_get, vec_len, IfOk, IfSome};
ghost use Rattle.std.specs.Prelude.{Some, Contains};
ghost use Rattle.std.specs.List.Sorted.{IsStrictlyIncreasing};
ghost use Rattle.psg_grammar.specs.declared.types.Kind.{Kind};
ghost use Rattle.psg_grammar.specs.Declaring.{Declares, is_declaring};
ghost use Rattle.psg_grammar.specs.DeclaringTables.{Adds, AreSpacesOf, HasSpace, IsTable, PassesAll};
ghost use Rattle.psg_grammar.specs.DeclaringTables.{PassesOperator, spaces_at};
ghost use Rattle.psg_grammar.specs.Kinds.{HasSlotKind};
ghost use Rattle.psg_grammar.specs.Sound.{IsSound};

use crate::kinds::base_phylum;
use crate::types::{Definition, Item, Operator};
use std::alloc::{AllocError, Global};

/// Returns for each phylum the spaces in which it declares, ascending: those of the declaring positions that can be
/// reached from it without passing a scope operator. A list declares where its elements do.
///
/// All operators are gone over until a pass finds nothing new, so at most once more than the longest way to a position
/// has phyla. A pass looks up each space of each slot.
pub fn declaring(alloc: Global, definition: &Definition) -> Result<Vec<Vec<u32>>, AllocError>
    requires { IsSound definition.now }
    ensures one_each { IfOk result (λ found. vec_len found ≡ length definition.now.phyla) }
    ensures exact { IfOk result (λ found. (p : ℕ)
        → IfSome (slice_get found.items p) (λ spaces. AreSpacesOf definition.now p spaces.items)) }
    // the search by which regions are defined finds the same
    ensures search { (space : ℕ) (kind : Kind)
        → (is_declaring definition.now space kind ≡ true) ↔ Declares definition.now space kind }
{
    let mut found = no_spaces(alloc, definition.phyla.as_slice().len())?;
    'passes: loop {
        if !pass_all(definition, &mut found)? {
            return Ok(found);
        }
    }
}

fn no_spaces(alloc: Global, count: usize) -> Result<Vec<Vec<u32>>, AllocError>
    ensures one_each { IfOk result (λ found. vec_len found ≡ count) }
    ensures empty { IfOk result (λ found. (p : ℕ) → spaces_at found.items p ≡ []) }
{
    let mut found = Vec::with_capacity(alloc, count)?;
    for _ in 0..count {
        found.push(Vec::new(alloc))?;
    }
    Ok(found)
}

fn pass_all(definition: &Definition, found: &mut Vec<Vec<u32>>) -> Result<bool, AllocError>
    requires sound { IsSound definition.now }
    requires table { IsTable definition.now found.old.items }
    ensures { IfOk result (λ changed. PassesAll definition.now found.old.items found.new.items changed) }
{
    let mut changed = false;
    for operator in definition.operators.as_slice() {
        if pass_operator(definition, operator, found)? {
            changed = true;
        }
    }
    Ok(changed)
}

fn pass_operator(
    definition: &Definition,
    operator: &Operator,
    found: &mut Vec<Vec<u32>>,
) -> Result<bool, AllocError>
    requires sound { IsSound definition.now }
    requires part { Contains definition.now.operators operator.now }
    requires table { IsTable definition.now found.old.items }
    ensures { IfOk result (λ changed.
        PassesOperator definition.now operator.now found.old.items found.new.items changed) }
{
    let mut changed = false;
    if operator.scope {
        return Ok(changed);
    }
    for item in operator.items.as_slice() {
        if add_item(definition, operator.phylum, item, found)? {
            changed = true;
        }
    }
    Ok(changed)
}

fn add_item(
    definition: &Definition,
    phylum: u32,
    item: &Item,
    found: &mut Vec<Vec<u32>>,
) -> Result<bool, AllocError>
    requires sound { IsSound definition.now }
    requires kind { HasSlotKind definition.now item.now }
    requires inside { phylum < length definition.now.phyla }
    requires table { IsTable definition.now found.old.items }
    ensures { IfOk result (λ changed.
        Adds found.old.items phylum (HasSpace definition.now found.old.items item.now) found.new.items changed) }
{
    match item {
        Item::Declares(space) => add_space(found, phylum as usize, *space),
        Item::Slot(kind) => {
            let from = base_phylum(definition, *kind);
            add_all(found, phylum as usize, from as usize)
        }
        _ => Ok(false),
    }
}

fn add_all(found: &mut Vec<Vec<u32>>, phylum: usize, from: usize) -> Result<bool, AllocError>
    requires inside { phylum < vec_len found.old }
    requires from_inside { from < vec_len found.old }
    requires increasing { (p : ℕ) → IsStrictlyIncreasing (spaces_at found.old.items p) }
    ensures { IfOk result (λ changed.
        Adds found.old.items phylum (Contains (spaces_at found.old.items from)) found.new.items changed) }
{
    let mut changed = false;
    if phylum == from {
        return Ok(changed);
    }
    for place in 0..found[from].len() {
        let space = found[from][place];
        if add_space(found, phylum, space)? {
            changed = true;
        }
    }
    Ok(changed)
}

fn add_space(found: &mut Vec<Vec<u32>>, phylum: usize, space: u32) -> Result<bool, AllocError>
    requires inside { phylum < vec_len found.old }
    requires increasing { (p : ℕ) → IsStrictlyIncreasing (spaces_at found.old.items p) }
    ensures { IfOk result (λ changed. Adds found.old.items phylum (λ s. s ≡ space) found.new.items changed) }
{
    let spaces = &mut found[phylum];
    match spaces.binary_search(&space) {
        Ok(_) => Ok(false),
        Err(place) => {
            spaces.insert(place, space)?;
            Ok(true)
        }
    }
}
