//! Elements of a list.
ghost use Rattle.std.specs.Prelude.{◌≡◌, ◌<◌, ◌%◌, [], ℕ, IfOk, Some, get_or, length, slice_get};
ghost use Rattle.psg_scope.specs.Headers.{IsOrdered};
ghost use Rattle.psg_floor.specs.Suffixes.{IsHeaderOf, one_use};

use psg_scope::{Header, NameCol, header_of};
use psg_terms::Txt;
use std::alloc::{AllocError, Global};
use std::marker::Model;

/// An element of a list, with its header. Contracts see it as the positions of its names.
#[derive(Drop)]
pub struct Element {
    positions: Vec<NameCol>,
    header: Header,
}

impl Model for Element {
    ghost use Rattle.std.specs.Prelude.{List};
    ghost use Rattle.psg_scope.specs.declared.header.NameCol.{NameCol as Position};
    ghost use Rattle.psg_scope.specs.Headers.{IsOrdered};
    ghost use Rattle.psg_floor.specs.Suffixes.{IsHeaderOf};

    ghost Value = { List Position };

    ghost view = { λ e. e.positions.items };

    ghost invariant = { λ e. IsHeaderOf e.positions.items e.header × IsOrdered e.header };
}

impl Element {
    /// Makes the element that uses the name once.
    pub fn using(alloc: Global, name: &Txt) -> Result<Element, AllocError>
        ensures { IfOk result (λ e. e ≡ one_use name.now) }
    {
        let mut positions = Vec::with_capacity(alloc, 1)?;
        positions.push(NameCol {
            space: 0,
            name: name.share()?,
            declared: false,
        })?;
        let header = header_of(alloc, positions.as_slice())?;
        Ok(Element { positions, header })
    }

    /// Returns the header of its positions.
    pub fn header(&self) -> &Header
        ensures header { IsHeaderOf self.now result.now }
        ensures ordered { IsOrdered result.now }
    {
        &self.header
    }
}

/// Makes this number of names, all different.
pub fn names(alloc: Global, count: usize) -> Result<Vec<Txt>, AllocError>
    ensures { IfOk result (λ v. length v.items ≡ count) }
{
    let mut names = Vec::with_capacity(alloc, count)?;
    for number in 0..count {
        let name = format!(in alloc; "x{number}")?;
        names.push(Txt::of(alloc, name)?)?;
    }
    Ok(names)
}

/// Makes this number of elements. Each uses the next one of the names, and after the last name the first one again.
pub fn elements(alloc: Global, names: &[Txt], count: usize) -> Result<Vec<Element>, AllocError>
    requires { 0 < length names.now }
    ensures { IfOk result (λ v. (k : ℕ) → k < count
        → slice_get v.items k ≡ Some (one_use (get_or names.now (k % length names.now) []))) }
{
    let mut elements = Vec::with_capacity(alloc, count)?;
    for place in 0..count {
        let name = &names[place % names.len()];
        elements.push(Element::using(alloc, name)?)?;
    }
    Ok(elements)
}
