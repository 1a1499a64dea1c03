//! The first specimen with a step that is too large, and where there is none the first that does not show its values.
ghost use Rattle.std.specs.Prelude.{◌≡◌, ◌+◌, ◌↔◌, cond, IfOk, IsTrue, None, Some, slice_get};
ghost use Rattle.psg_grammar.specs.declared.types.HoleRow.{HoleRow as PlainHole};
ghost use Rattle.psg_grammar.specs.Sound.{IsDeclareRow, IsSound};
ghost use Rattle.psg_completions.specs.General.{IsGeneralCase, IsGeneralDeclare};
ghost use Rattle.psg_specimen.specs.Conditions.{IsNarrow};
ghost use Rattle.psg_specimen.specs.declared.fault.Site.TheVariants as sites;
ghost use Rattle.psg_specimen.specs.declared.unshown.Flaw.TheVariants as flaws;
ghost use Rattle.psg_specimen.specs.Shown.{HasFlaw, IsSomeCase, IsUpTo, IsWalk, noted};

use crate::fault::Site;
use crate::patterns::pattern_of;
use crate::room::specimen_room;
use crate::showing::{shows_case, shows_declare};
use psg_eval::EvalFault;
use psg_grammar::{Case, DeclareRow, Definition};
use psg_terms::Room;
use std::alloc::{AllocError, Global};

/// What is wrong with a specimen.
#[derive(Clone, Copy)]
pub(crate) enum Flaw {
    /// Some step of it is too large.
    Large,
    /// No step is too large, and it does not show all its values.
    Weak,
}

/// What is found of the specimens that are gone over.
#[derive(Clone, Copy)]
pub(crate) enum Walk {
    /// The first specimen with a step that is too large.
    Large(Site),
    /// No step is too large, and this is the first specimen that does not show its values.
    Weak(Option<Site>),
}

/// Goes over all specimens, cases of hole rows before declare rows, and makes the pattern of each once. Where the work
/// for the whole definition passes its bound, the call fails as if out of memory.
pub(crate) fn first_unshown(alloc: Global, definition: &Definition) -> Result<Walk, AllocError>
    requires { IsSound definition.now }
    ensures { IfOk result (IsWalk definition.now None) }
{
    let mut room = specimen_room();
    match in_rows(alloc, definition, &mut room)? {
        Walk::Large(site) => Ok(Walk::Large(site)),
        Walk::Weak(weak) => {
            let walk = in_declares(alloc, definition, weak, &mut room)?;
            Ok(walk)
        }
    }
}

/// Goes over the cases of all hole rows.
fn in_rows(alloc: Global, definition: &Definition, room: &mut Room) -> Result<Walk, AllocError>
    requires { IsSound definition.now }
    ensures { IfOk result (IsWalk definition.now (Some (sites.Declare 0))) }
{
    let rows = definition.hole_rows.as_slice();
    let mut weak = None;
    for number in 0..rows.len() {
        let cases = rows[number].cases.as_slice();
        match in_cases(alloc, definition, number as u32, cases, weak, room)? {
            Walk::Large(site) => return Ok(Walk::Large(site)),
            Walk::Weak(found) => weak = found,
        }
    }
    Ok(Walk::Weak(weak))
}

/// Goes over the cases of one hole row.
fn in_cases(
    alloc: Global,
    definition: &Definition,
    row: u32,
    cases: &[Case],
    weak: Option<Site>,
    room: &mut Room,
) -> Result<Walk, AllocError>
    requires sound { IsSound definition.now }
    requires row { (whole : PlainHole) × (slice_get definition.now.hole_rows row ≡ Some whole)
        × (whole.cases ≡ cases.now) }
    requires before { IsUpTo definition.now (Some (sites.Hole row 0)) weak }
    ensures { IfOk result (IsWalk definition.now (Some (sites.Hole (row + 1) 0))) }
{
    let mut first = weak;
    for number in 0..cases.len() {
        let site = in_case(row, number as u32);
        let flaw = flaw_of_case(alloc, definition, &cases[number], room)?;
        if is_large(flaw) {
            return Ok(Walk::Large(site));
        }
        first = noted_site(first, flaw, site);
    }
    Ok(Walk::Weak(first))
}

/// Goes over the declare rows.
fn in_declares(
    alloc: Global,
    definition: &Definition,
    weak: Option<Site>,
    room: &mut Room,
) -> Result<Walk, AllocError>
    requires sound { IsSound definition.now }
    requires before { IsUpTo definition.now (Some (sites.Declare 0)) weak }
    ensures { IfOk result (IsWalk definition.now None) }
{
    let rows = definition.declare_rows.as_slice();
    let mut first = weak;
    for number in 0..rows.len() {
        let site = in_declare(number as u32);
        let flaw = flaw_of_declare(alloc, definition, &rows[number], room)?;
        if is_large(flaw) {
            return Ok(Walk::Large(site));
        }
        first = noted_site(first, flaw, site);
    }
    Ok(Walk::Weak(first))
}

fn flaw_of_case(
    alloc: Global,
    definition: &Definition,
    one: &Case,
    room: &mut Room,
) -> Result<Option<Flaw>, AllocError>
    requires sound { IsSound definition.now }
    requires case { IsSomeCase definition.now one.now }
    ensures { IfOk result (HasFlaw (IsNarrow definition.now one.now.specimen) (IsGeneralCase definition.now one.now)) }
{
    match pattern_of(alloc, definition, &one.specimen, room) {
        Ok(pattern) => {
            let shown = shows_case(alloc, one, &pattern, room)?;
            Ok(weak_unless(shown))
        }
        Err(EvalFault::Wide { .. }) => Ok(Some(Flaw::Large)),
        Err(EvalFault::Memory) => Err(AllocError),
    }
}

fn flaw_of_declare(
    alloc: Global,
    definition: &Definition,
    row: &DeclareRow,
    room: &mut Room,
) -> Result<Option<Flaw>, AllocError>
    requires sound { IsSound definition.now }
    requires row { IsDeclareRow definition.now row.now }
    ensures { IfOk result (HasFlaw (IsNarrow definition.now row.now.specimen)
        (IsGeneralDeclare definition.now row.now)) }
{
    match pattern_of(alloc, definition, &row.specimen, room) {
        Ok(pattern) => {
            let shown = shows_declare(alloc, row, &pattern, room)?;
            Ok(weak_unless(shown))
        }
        Err(EvalFault::Wide { .. }) => Ok(Some(Flaw::Large)),
        Err(EvalFault::Memory) => Err(AllocError),
    }
}

fn weak_unless(shown: bool) -> Option<Flaw>
    ensures { result ≡ cond shown None (Some flaws.Weak) }
{
    if shown { None } else { Some(Flaw::Weak) }
}

fn is_large(flaw: Option<Flaw>) -> bool
    ensures { IsTrue result ↔ (flaw ≡ Some flaws.Large) }
{
    match flaw {
        Some(Flaw::Large) => true,
        Some(Flaw::Weak) => false,
        None => false,
    }
}

/// Returns the site that was noted, or else this one where its specimen is weak.
fn noted_site(weak: Option<Site>, flaw: Option<Flaw>, site: Site) -> Option<Site>
    ensures { result ≡ noted weak flaw site }
{
    match weak {
        Some(before) => Some(before),
        None => match flaw {
            Some(Flaw::Weak) => Some(site),
            Some(Flaw::Large) => None,
            None => None,
        },
    }
}

fn in_case(row: u32, case: u32) -> Site
    ensures { result ≡ sites.Hole row case }
{
    Site::Hole { row, case }
}

fn in_declare(row: u32) -> Site
    ensures { result ≡ sites.Declare row }
{
    Site::Declare { row }
}
