//! The names of what is at a position. A sound definition has no position without a name.
ghost use Rattle.std.specs.Prelude.{◌≡◌, [], IfOk};
ghost use Rattle.psg_grammar.specs.declared.types.Kind.TheVariants as kinds;
ghost use Rattle.psg_defread.specs.WrittenLines.{name_at, sort_name, constructor_name, operator_name, kind_name};
ghost use Rattle.psg_defread.specs.WrittenLines.{space_name};

use psg_grammar::{Definition, Kind};
use psg_terms::{ConId, Signature, SortId, Txt};
use std::alloc::{AllocError, Global};

/// Returns the empty name.
fn no_name(alloc: Global) -> Result<Txt, AllocError>
    ensures { IfOk result (λ n. n ≡ []) }
{
    Ok(Txt::copy_of(alloc, "")?)
}

/// Returns the name of a sort, empty where there is none.
fn sort_text(sig: &Signature, sort: SortId) -> &str
    ensures { result.now ≡ name_at (λ n. n) sig.now.sorts sort.0 }
{
    if sort.0 < sig.sorts() {
        sig.sort_name(sort)
    } else {
        ""
    }
}

/// Returns the name of the sort.
pub fn sort_name(alloc: Global, definition: &Definition, sort: SortId) -> Result<Txt, AllocError>
    ensures { IfOk result (λ n. n ≡ sort_name definition.now sort.0) }
{
    Ok(Txt::copy_of(alloc, sort_text(&definition.signature, sort))?)
}

/// Returns the name of the constructor.
pub fn constructor_name(
    alloc: Global,
    definition: &Definition,
    con: ConId,
) -> Result<Txt, AllocError>
    ensures { IfOk result (λ n. n ≡ constructor_name definition.now con.0) }
{
    if con.0 >= definition.signature.constructors() {
        return Ok(no_name(alloc)?);
    }
    Ok(definition.signature.constructor(con).name.share()?)
}

/// Returns the name of the operator.
pub fn operator_name(alloc: Global, definition: &Definition, op: u32) -> Result<Txt, AllocError>
    ensures { IfOk result (λ n. n ≡ operator_name definition.now op) }
{
    match definition.operators.as_slice().get(op as usize) {
        Some(own) => Ok(own.name.share()?),
        None => Ok(no_name(alloc)?),
    }
}

/// Returns the name of the space.
pub fn space_name(alloc: Global, definition: &Definition, space: u32) -> Result<Txt, AllocError>
    ensures { IfOk result (λ n. n ≡ space_name definition.now space) }
{
    match definition.spaces.as_slice().get(space as usize) {
        Some(own) => Ok(own.name.share()?),
        None => Ok(no_name(alloc)?),
    }
}

/// Returns the name of the phylum.
pub fn phylum_name(alloc: Global, definition: &Definition, phylum: u32) -> Result<Txt, AllocError>
    ensures { IfOk result (λ n. n ≡ kind_name definition.now (kinds.Phylum phylum)) }
{
    match definition.phyla.as_slice().get(phylum as usize) {
        Some(own) => Ok(own.name.share()?),
        None => Ok(no_name(alloc)?),
    }
}

/// Returns the name of the list.
pub fn list_name(alloc: Global, definition: &Definition, list: u32) -> Result<Txt, AllocError>
    ensures { IfOk result (λ n. n ≡ kind_name definition.now (kinds.List list)) }
{
    match definition.lists.as_slice().get(list as usize) {
        Some(own) => Ok(own.name.share()?),
        None => Ok(no_name(alloc)?),
    }
}

/// Returns the name of the phylum or list.
pub fn kind_name(alloc: Global, definition: &Definition, kind: Kind) -> Result<Txt, AllocError>
    ensures { IfOk result (λ n. n ≡ kind_name definition.now kind) }
{
    match kind {
        Kind::Phylum(phylum) => Ok(phylum_name(alloc, definition, phylum)?),
        Kind::List(list) => Ok(list_name(alloc, definition, list)?),
    }
}
