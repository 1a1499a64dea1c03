//! Sorts and constructors as they are written, and what is wrong with them.
ghost use Rattle.std.specs.Prelude.{◌≡◌, ◌+◌, ◌<◌, ◌≤◌, ◌^◌, ◌++◌, [], length, take, slice_get, IfOk, IfErr, IfSome};
ghost use Rattle.std.specs.Prelude.{IfNone, OnOk, Some, ℕ, List, false};
ghost use Rattle.psg_terms.specs.Names.{Name, has_twice};
ghost use Rattle.psg_terms.specs.Declarations.{sort_names, Numbered, in_order, with_sort, names_in};
ghost use Rattle.psg_terms.specs.Declarations.{constructor_names, arguments_in, IsFirstRepeat, AreDistinct, AreNamed};
ghost use Rattle.psg_terms.specs.Declarations.{AreSpelled, IsSpelled};
ghost use Rattle.psg_terms.specs.Kept.{numbers_of, symbols_of};
ghost use Rattle.psg_terms.specs.declared.declare.SortDecl.{SortDecl as Written};
ghost use Rattle.psg_terms.specs.Numbered.{Knows, places, MayMiss, MayRepeat, MayMisspell};

use crate::seq::{Seq, Txt};
use crate::sorts::{Constructor, Declared, SortId};
use std::alloc::{AllocError, AllocFailed, Global};
use std::collections::HashMap;
use thiserror::Error;

/// A constructor as it is written: its name, and the names of the sorts of its arguments.
#[derive(Drop)]
pub struct ConDecl {
    /// The name of the constructor.
    pub name: Txt,
    /// The names of the sorts of its arguments, in order. A constant has none.
    pub args: Seq<Txt>,
}

/// A sort as it is written: its name, and its constructors in order.
#[derive(Drop)]
pub struct SortDecl {
    /// The name of the sort.
    pub name: Txt,
    /// The constructors of the sort, in order.
    pub constructors: Seq<ConDecl>,
}

/// The reason why written sorts make no signature.
#[derive(Debug, Drop, Error)]
pub enum SigFault {
    /// A sort's name or a constructor's name occurs twice.
    #[error("the name `{0}` stands twice")]
    Repeated(Txt),
    /// An argument's name is no sort's.
    #[error("there is no sort `{0}`")]
    UnknownSort(Txt),
    /// The sort has no term without variables.
    #[error("sort {} has no term without variables", .0.0)]
    NoGround(SortId),
    /// The sort's only constructor has arguments.
    #[error("the only constructor of sort {} has arguments", .0.0)]
    OneWide(SortId),
    /// Memory ran out.
    #[error("out of memory")]
    Memory,
}

impl From<AllocError> for SigFault {
    ghost use Rattle.std.specs.Prelude.{◌≡◌};
    ghost use Rattle.psg_terms.specs.declared.declare.SigFault.TheVariants.{Memory};

    ghost from_gives = { λ _ e. e ≡ Memory };

    fn from(_e: AllocError) -> SigFault {
        SigFault::Memory
    }
}

impl<T: Drop> From<AllocFailed<T>> for SigFault {
    ghost use Rattle.std.specs.Prelude.{◌≡◌};
    ghost use Rattle.psg_terms.specs.declared.declare.SigFault.TheVariants.{Memory};

    ghost from_gives = { λ _ e. e ≡ Memory };

    fn from(_e: AllocFailed<T>) -> SigFault {
        SigFault::Memory
    }
}

/// A constructor with the number of its sort.
#[derive(Drop)]
pub(crate) struct Placed<'a> {
    pub(crate) sort: SortId,
    pub(crate) decl: &'a ConDecl,
}

/// Returns the constructors of all sorts in order.
fn in_order<'a>(alloc: Global, sorts: &'a [SortDecl]) -> Result<Vec<Placed<'a>>, AllocError>
    requires { length sorts.now < 2 ^ 32 }
    ensures { IfOk result (λ v. places v.items ≡ in_order 0 sorts.now) }
{
    let mut placed = Vec::new(alloc);
    for i in 0..sorts.len() {
        place_all(
            &mut placed,
            SortId(i as u32),
            sorts[i].constructors.as_slice(),
        )?;
    }
    Ok(placed)
}

/// Puts the constructors of one sort after the others.
fn place_all<'a>(
    placed: &mut Vec<Placed<'a>>,
    sort: SortId,
    decls: &'a [ConDecl],
) -> Result<(), AllocError>
    ensures { OnOk result (places placed.new.items ≡ places placed.old.items ++ with_sort sort.0 decls.now) }
{
    for decl in decls {
        placed.push(Placed { sort, decl })?;
    }
    Ok(())
}

/// Returns the number of sorts before the first one whose name occurs before it, or of all sorts. Then the map has
/// their numbers by name.
fn repeated_sort<'a>(
    sorts: &'a [SortDecl],
    numbers: &mut HashMap<&'a str, u32>,
) -> Result<usize, AllocError>
    requires few { length sorts.now < 2 ^ 32 }
    requires empty { numbers.old.entries ≡ [] }
    ensures within { IfOk result (λ i. i ≤ length sorts.now) }
    ensures front { IfOk result (λ i. has_twice (take i (sort_names sorts.now)) ≡ false) }
    ensures repeat { IfOk result (λ i. i < length sorts.now → (n : Name) × IsFirstRepeat (sort_names sorts.now) i n) }
    ensures none { IfOk result (λ i. i ≡ length sorts.now → Knows (sort_names sorts.now) numbers.new) }
{
    for i in 0..sorts.len() {
        let name = sorts[i].name.as_str();
        if numbers.contains_key(name) {
            return Ok(i);
        }
        numbers.insert(name, i as u32)?;
    }
    Ok(sorts.len())
}

/// Returns the place of the first constructor whose name occurs before it, among those of the sorts below the limit.
fn repeated_constructor<'a>(
    placed: &[Placed<'a>],
    seen: &mut HashMap<&'a str, u32>,
    limit: usize,
) -> Result<Option<usize>, AllocError>
    requires empty { seen.old.entries ≡ [] }
    ensures none { IfOk result (λ o. IfNone o ((written : List Written) → places placed.now ≡ in_order 0 written
        → has_twice (constructor_names (take limit written)) ≡ false)) }
    ensures within { IfOk result (λ o. IfSome o (λ k. k < length placed.now)) }
    ensures some { IfOk result (λ o. IfSome o (λ k. (found : Numbered) × (slice_get (places placed.now) k ≡ Some found)
        × (found.0 < limit) × ((n : Name) × IsFirstRepeat (names_in (places placed.now)) k n))) }
{
    for i in 0..placed.len() {
        let p = &placed[i];
        if p.sort.0 as usize >= limit {
            return Ok(None);
        }
        let decl = p.decl;
        let name = decl.name.as_str();
        if seen.contains_key(name) {
            return Ok(Some(i));
        }
        seen.insert(name, 0)?;
    }
    Ok(None)
}

/// Returns the sorts that names name.
fn resolve(
    alloc: Global,
    numbers: &HashMap<&str, u32>,
    args: &[Txt],
) -> Result<Vec<SortId>, SigFault>
    ensures ok { IfOk result (λ v. (names : List Name) → Knows names numbers.now
        → AreNamed names args.now (numbers_of v.items)) }
    ensures err { IfErr result (λ e. (names : List Name) → Knows names numbers.now → MayMiss names args.now e) }
{
    let mut found = Vec::with_capacity(alloc, args.len())?;
    for name in args {
        match numbers.get(name.as_str()) {
            Some(number) => found.push(SortId(*number))?,
            None => return Err(SigFault::UnknownSort(name.share()?)),
        }
    }
    Ok(found)
}

/// Returns the constructors with the sorts that they name.
fn resolve_all(
    alloc: Global,
    numbers: &HashMap<&str, u32>,
    placed: &[Placed],
) -> Result<Vec<Declared>, SigFault>
    ensures ok { IfOk result (λ v. (names : List Name) → Knows names numbers.now
        → AreSpelled names (places placed.now) (symbols_of v.items)) }
    ensures err { IfErr result (λ e. (names : List Name) → Knows names numbers.now
        → MayMiss names (arguments_in (places placed.now)) e) }
{
    let mut made = Vec::with_capacity(alloc, placed.len())?;
    for p in placed {
        let args = resolve(alloc, numbers, p.decl.args.as_slice())?;
        let name = p.decl.name.share()?;
        made.push(Declared {
            constructor: Constructor {
                name,
                args: Seq::of(args),
            },
            sort: p.sort,
        })?;
    }
    Ok(made)
}

/// Returns the sorts' names, shared.
fn names_of(alloc: Global, sorts: &[SortDecl]) -> Result<Vec<Txt>, AllocError>
    ensures { IfOk result (λ v. v.items ≡ sort_names sorts.now) }
{
    let mut names = Vec::with_capacity(alloc, sorts.len())?;
    for sort in sorts {
        let name = sort.name.share()?;
        names.push(name)?;
    }
    Ok(names)
}

/// Finds the first name that occurs twice. Without one, the map has the sorts' numbers by name.
fn distinct<'a>(
    alloc: Global,
    sorts: &'a [SortDecl],
    placed: &[Placed<'a>],
    numbers: &mut HashMap<&'a str, u32>,
) -> Result<(), SigFault>
    requires few { length sorts.now < 2 ^ 32 }
    requires order { places placed.now ≡ in_order 0 sorts.now }
    requires empty { numbers.old.entries ≡ [] }
    ensures ok { OnOk result (AreDistinct sorts.now) }
    ensures known { OnOk result (Knows (sort_names sorts.now) numbers.new) }
    ensures err { IfErr result (MayRepeat sorts.now) }
{
    let sort = repeated_sort(sorts, numbers)?;
    let mut seen = HashMap::new(alloc);
    if let Some(k) = repeated_constructor(placed, &mut seen, sort)? {
        let decl = placed[k].decl;
        return Err(SigFault::Repeated(decl.name.share()?));
    }
    if sort < sorts.len() {
        return Err(SigFault::Repeated(sorts[sort].name.share()?));
    }
    Ok(())
}

/// The sorts' names, and the constructors with the numbers of their sorts.
#[derive(Drop)]
pub(crate) struct Spelling {
    pub(crate) names: Vec<Txt>,
    pub(crate) declared: Vec<Declared>,
}

/// Reads written sorts, and finds what is wrong with their names. It takes linear time.
pub(crate) fn spell(alloc: Global, sorts: &[SortDecl]) -> Result<Spelling, SigFault>
    requires { length sorts.now < 2 ^ 32 }
    ensures distinct { IfOk result (λ s. AreDistinct sorts.now) }
    ensures ok { IfOk result (λ s.
        IsSpelled sorts.now (record { sorts = s.names.items; symbols = symbols_of s.declared.items })) }
    ensures err { IfErr result (MayMisspell sorts.now) }
{
    let placed = in_order(alloc, sorts)?;
    let mut numbers = HashMap::new(alloc);
    distinct(alloc, sorts, placed.as_slice(), &mut numbers)?;
    let declared = resolve_all(alloc, &numbers, placed.as_slice())?;
    let names = names_of(alloc, sorts)?;
    Ok(Spelling { names, declared })
}
