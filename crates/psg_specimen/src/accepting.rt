//! The conditions in their order, as far as they are tested here: each part tests what it names where all before it
//! hold.
ghost use Rattle.std.specs.Prelude.{◌≡◌, ◌↔◌, IfErr, IsTrue, OnOk};
ghost use Rattle.psg_class.specs.declared.fault.ClassFault.TheVariants as classes;
ghost use Rattle.psg_class.specs.Class.{IsClass};
ghost use Rattle.psg_grammar.specs.Sound.{IsSound};
ghost use Rattle.psg_specimen.specs.Conditions.{IsMet, MetUpToCases, MetUpToCells, MetUpToDeclarable, MetUpToDeclares};
ghost use Rattle.psg_specimen.specs.Conditions.{MetUpToHoleRows, MetUpToNils, MetUpToPlaces, MetUpToRows, MetUpToShown};
ghost use Rattle.psg_specimen.specs.Conditions.{MetUpToSmaller};
ghost use Rattle.psg_specimen.specs.Refusal.{Refuses};

use crate::cases::first_uncased;
use crate::clear::first_unclear;
use crate::covering::first_uncovered_nil;
use crate::declarable::first_undeclared;
use crate::declares::first_astray;
use crate::fault::AcceptFault;
use crate::forms::{first_declaring, first_scope, first_without_row};
use crate::places::{Wanted, first_place};
use crate::unshown::{Walk, first_unshown};
use psg_class::{ClassFault, class_check};
use psg_covering::{first_uncovered_cell, first_uncovered_row, search_room};
use psg_grammar::Definition;
use psg_terms::{ConId, Room};
use std::alloc::Global;

/// Tests the grammar class, and then scopes, the slots of declaring phyla, and that each kind has a hole row.
pub(crate) fn check_beginning(alloc: Global, definition: &Definition) -> Result<(), AcceptFault>
    requires { IsSound definition.now }
    ensures class { OnOk result (IsClass definition.now) }
    ensures met { OnOk result (MetUpToHoleRows definition.now) }
    ensures refusal { IfErr result (Refuses definition.now) }
{
    check_class(alloc, definition)?;
    check_forms(alloc, definition)?;
    Ok(())
}

/// Tests that hole rows have the values of rows of operators, of nil rows, and of cell rows.
pub(crate) fn check_coverage(alloc: Global, definition: &Definition) -> Result<(), AcceptFault>
    requires sound { IsSound definition.now }
    requires class { IsClass definition.now }
    requires before { MetUpToHoleRows definition.now }
    ensures met { OnOk result (MetUpToCells definition.now) }
    ensures refusal { IfErr result (Refuses definition.now) }
{
    let mut room = search_room();
    check_rows(alloc, definition, &mut room)?;
    check_nils(alloc, definition)?;
    check_cells(alloc, definition, &mut room)?;
    Ok(())
}

/// Tests the cases of hole rows, and then that the hole places of specimens are smaller, and instances of hole rows.
pub(crate) fn check_places(alloc: Global, definition: &Definition) -> Result<(), AcceptFault>
    requires sound { IsSound definition.now }
    requires class { IsClass definition.now }
    requires before { MetUpToCells definition.now }
    ensures met { OnOk result (MetUpToPlaces definition.now) }
    ensures refusal { IfErr result (Refuses definition.now) }
{
    check_cases(alloc, definition)?;
    check_smaller(alloc, definition)?;
    check_instances(alloc, definition)?;
    Ok(())
}

/// Tests that no step of a specimen is too large, and then that each specimen shows all its values.
pub(crate) fn check_specimens(alloc: Global, definition: &Definition) -> Result<(), AcceptFault>
    requires sound { IsSound definition.now }
    requires class { IsClass definition.now }
    requires before { MetUpToPlaces definition.now }
    ensures met { OnOk result (MetUpToShown definition.now) }
    ensures refusal { IfErr result (Refuses definition.now) }
{
    match first_unshown(alloc, definition)? {
        Walk::Large(site) => Err(AcceptFault::Large(site)),
        Walk::Weak(Some(site)) => Err(AcceptFault::Weak(site)),
        Walk::Weak(None) => Ok(()),
    }
}

/// Tests what specimens of declare rows declare, for which entities there are declare rows, and that lists keep their
/// values. These are the last conditions.
pub(crate) fn check_elements(alloc: Global, definition: &Definition) -> Result<(), AcceptFault>
    requires sound { IsSound definition.now }
    requires class { IsClass definition.now }
    requires before { MetUpToShown definition.now }
    ensures met { OnOk result (IsMet definition.now) }
    ensures refusal { IfErr result (Refuses definition.now) }
{
    check_declares(alloc, definition)?;
    check_declarable(alloc, definition)?;
    check_clear(alloc, definition)?;
    Ok(())
}

fn check_class(alloc: Global, definition: &Definition) -> Result<(), AcceptFault>
    requires { IsSound definition.now }
    ensures class { OnOk result (IsClass definition.now) }
    ensures refusal { IfErr result (Refuses definition.now) }
{
    if let Err(fault) = class_check(alloc, definition) {
        if is_memory(&fault) {
            return Err(AcceptFault::Memory);
        }
        return Err(AcceptFault::Class(fault));
    }
    Ok(())
}

fn is_memory(fault: &ClassFault) -> bool
    ensures { IsTrue result ↔ (fault.now ≡ classes.Memory) }
{
    match fault {
        ClassFault::NoFirst(_)
        | ClassFault::Form(_)
        | ClassFault::NoBracket(_)
        | ClassFault::MixedLevel(..)
        | ClassFault::SameFirst(..)
        | ClassFault::SameLed(..)
        | ClassFault::LedFollows(..)
        | ClassFault::ListEnd(..) => false,
        ClassFault::Memory => true,
    }
}

/// Tests scopes, the slots of declaring phyla, and that each kind has a hole row.
pub(crate) fn check_forms(alloc: Global, definition: &Definition) -> Result<(), AcceptFault>
    requires sound { IsSound definition.now }
    requires class { IsClass definition.now }
    ensures met { OnOk result (MetUpToHoleRows definition.now) }
    ensures refusal { IfErr result (Refuses definition.now) }
{
    if let Some(operator) = first_scope(definition) {
        return Err(AcceptFault::Scope(operator as u32));
    }
    if let Some((operator, slot)) = first_declaring(alloc, definition)? {
        return Err(AcceptFault::Declaring(operator as u32, slot as u32));
    }
    if let Some(kind) = first_without_row(alloc, definition)? {
        return Err(AcceptFault::NoRow(kind));
    }
    Ok(())
}

/// Tests that hole rows have the values of rows of operators. Past the bound on work it fails as if out of memory.
pub(crate) fn check_rows(
    alloc: Global,
    definition: &Definition,
    room: &mut Room,
) -> Result<(), AcceptFault>
    requires sound { IsSound definition.now }
    requires class { IsClass definition.now }
    requires before { MetUpToHoleRows definition.now }
    ensures met { OnOk result (MetUpToRows definition.now) }
    ensures refusal { IfErr result (Refuses definition.now) }
{
    if let Some((operator, row)) = first_uncovered_row(alloc, definition, room)? {
        return Err(AcceptFault::UncoveredOp(operator, row));
    }
    Ok(())
}

/// Tests that hole rows have the values of cell rows. Past the bound on work it fails as if out of memory.
pub(crate) fn check_cells(
    alloc: Global,
    definition: &Definition,
    room: &mut Room,
) -> Result<(), AcceptFault>
    requires sound { IsSound definition.now }
    requires class { IsClass definition.now }
    requires before { MetUpToNils definition.now }
    ensures met { OnOk result (MetUpToCells definition.now) }
    ensures refusal { IfErr result (Refuses definition.now) }
{
    if let Some((list, row)) = first_uncovered_cell(alloc, definition, room)? {
        return Err(AcceptFault::UncoveredCell(list, row));
    }
    Ok(())
}

/// Tests that hole rows have the values of nil rows.
pub(crate) fn check_nils(alloc: Global, definition: &Definition) -> Result<(), AcceptFault>
    requires sound { IsSound definition.now }
    requires class { IsClass definition.now }
    requires before { MetUpToRows definition.now }
    ensures met { OnOk result (MetUpToNils definition.now) }
    ensures refusal { IfErr result (Refuses definition.now) }
{
    if let Some((list, row)) = first_uncovered_nil(alloc, definition)? {
        return Err(AcceptFault::UncoveredNil(list as u32, row as u32));
    }
    Ok(())
}

/// Tests the cases of each hole row.
pub(crate) fn check_cases(alloc: Global, definition: &Definition) -> Result<(), AcceptFault>
    requires sound { IsSound definition.now }
    requires class { IsClass definition.now }
    requires before { MetUpToCells definition.now }
    ensures met { OnOk result (MetUpToCases definition.now) }
    ensures refusal { IfErr result (Refuses definition.now) }
{
    if let Some(row) = first_uncased(alloc, definition)? {
        return Err(AcceptFault::Cases(row as u32));
    }
    Ok(())
}

/// Tests that the hole places of specimens are smaller than what they are in.
pub(crate) fn check_smaller(alloc: Global, definition: &Definition) -> Result<(), AcceptFault>
    requires sound { IsSound definition.now }
    requires class { IsClass definition.now }
    requires before { MetUpToCases definition.now }
    ensures met { OnOk result (MetUpToSmaller definition.now) }
    ensures refusal { IfErr result (Refuses definition.now) }
{
    if let Some((site, place)) = first_place(alloc, definition, Wanted::Smaller)? {
        return Err(AcceptFault::NotSmaller(site, place));
    }
    Ok(())
}

/// Tests that the hole places of specimens are instances of hole rows.
pub(crate) fn check_instances(alloc: Global, definition: &Definition) -> Result<(), AcceptFault>
    requires sound { IsSound definition.now }
    requires class { IsClass definition.now }
    requires before { MetUpToSmaller definition.now }
    ensures met { OnOk result (MetUpToPlaces definition.now) }
    ensures refusal { IfErr result (Refuses definition.now) }
{
    if let Some((site, place)) = first_place(alloc, definition, Wanted::OfOneRow)? {
        return Err(AcceptFault::OpenHole(site, place));
    }
    Ok(())
}

/// Tests what the specimens of declare rows declare.
pub(crate) fn check_declares(alloc: Global, definition: &Definition) -> Result<(), AcceptFault>
    requires sound { IsSound definition.now }
    requires class { IsClass definition.now }
    requires before { MetUpToShown definition.now }
    ensures met { OnOk result (MetUpToDeclares definition.now) }
    ensures refusal { IfErr result (Refuses definition.now) }
{
    if let Some(row) = first_astray(alloc, definition)? {
        return Err(AcceptFault::NotIt(row as u32));
    }
    Ok(())
}

/// Tests that each unfinished list that declares can declare a name with each entity.
pub(crate) fn check_declarable(alloc: Global, definition: &Definition) -> Result<(), AcceptFault>
    requires sound { IsSound definition.now }
    requires class { IsClass definition.now }
    requires before { MetUpToDeclares definition.now }
    ensures met { OnOk result (MetUpToDeclarable definition.now) }
    ensures refusal { IfErr result (Refuses definition.now) }
{
    if let Some((list, (space, con))) = first_undeclared(alloc, definition)? {
        return Err(AcceptFault::NoDeclare(list as u32, space, ConId(con)));
    }
    Ok(())
}

/// Tests that the elements that declare rows show leave the values of lists. It is the last condition.
pub(crate) fn check_clear(alloc: Global, definition: &Definition) -> Result<(), AcceptFault>
    requires sound { IsSound definition.now }
    requires class { IsClass definition.now }
    requires before { MetUpToDeclarable definition.now }
    ensures met { OnOk result (IsMet definition.now) }
    ensures refusal { IfErr result (Refuses definition.now) }
{
    if let Some(row) = first_unclear(alloc, definition)? {
        return Err(AcceptFault::NotClear(row as u32));
    }
    Ok(())
}
