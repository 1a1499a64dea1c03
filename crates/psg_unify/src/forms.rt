//! Numbers of terms, one for equal terms.
ghost use Rattle.std.specs.Prelude.{◌≡◌, ◌<◌, ◌↔◌, ℕ, IfOk, IsTrue, Some, length, set, slice_get};
ghost use Rattle.psg_unify.specs.Reading.{Reading};
ghost use Rattle.psg_unify.specs.Numbering.{open_form, symbol_form, apply_form};
ghost use Rattle.psg_unify.specs.Numbering.{IsFound, IsNumbered};
ghost use Rattle.psg_unify.specs.Filling.{IsFilled};

use indexmap::IndexSet;
use psg_pool::CellId;
use std::alloc::{AllocError, Global};

/// What a term is made of: the variable of an open cell, a constructor, or two terms, of which the first one is applied
/// to the second one and which have numbers themselves.
#[derive(Clone, Copy, PartialEq, Eq, Hash)]
pub struct Form {
    kind: usize,
    first: usize,
    second: usize,
}

/// Returns the form of the variable that an open cell reads as.
pub fn of_open(sort: u32, id: CellId) -> Form
    ensures { result ≡ open_form sort id.0 }
{
    Form {
        kind: 0,
        first: sort as usize,
        second: id.0,
    }
}

/// Returns the form of a constructor.
pub fn of_symbol(con: u32) -> Form
    ensures { result ≡ symbol_form con }
{
    Form {
        kind: 1,
        first: con as usize,
        second: 0,
    }
}

/// Returns the form of a term that is applied to another one, by their numbers.
pub fn of_apply(function: usize, argument: usize) -> Form
    ensures { result ≡ apply_form function argument }
{
    Form {
        kind: 2,
        first: function,
        second: argument,
    }
}

/// The forms of terms, each with its place as the term's number, and the numbers of what cells read as.
#[derive(Drop)]
pub struct Numbers {
    /// The forms, each once.
    pub forms: IndexSet<Form>,
    /// For each cell of a pool the number of the term that it reads as, if it was numbered.
    pub cells: Vec<Option<usize>>,
}

impl Numbers {
    /// Makes numbers for the cells of a pool with this count, none of which is numbered.
    pub fn new(alloc: Global, count: usize) -> Result<Numbers, AllocError>
        ensures numbered { IfOk result (λ n. (read : Reading) → IsNumbered read n) }
        ensures count { IfOk result (λ n. length n.cells.items ≡ count) }
    {
        let forms = IndexSet::new(alloc);
        let cells = vec![in alloc; None; count]?;
        Ok(Numbers { forms, cells })
    }
}

/// Returns the number of a form, which is a new one where the form was not there.
pub fn find(forms: &mut IndexSet<Form>, form: Form) -> Result<usize, AllocError>
    ensures { IfOk result (λ k. IsFound forms.old.keys forms.new.keys form k) }
{
    let added = forms.insert_full(form)?;
    Ok(added.0)
}

/// Says whether the cell was numbered.
pub fn is_numbered(cells: &[Option<usize>], id: CellId) -> bool
    ensures { IsTrue result ↔ IsFilled cells.now id }
{
    match cells.get(id.0) {
        Some(number) => number.is_some(),
        None => false,
    }
}

/// Returns the number of what the cell reads as, which was numbered.
pub fn number_of(cells: &[Option<usize>], id: CellId) -> usize
    requires { IsFilled cells.now id }
    ensures { slice_get cells.now id.0 ≡ Some (Some result) }
{
    match cells.get(id.0) {
        Some(place) => match place {
            Some(number) => *number,
            None => unreachable!(),
        },
        None => unreachable!(),
    }
}

/// Gives the cell a number.
pub fn set_number(cells: &mut Vec<Option<usize>>, id: CellId, number: usize)
    requires { id.0 < length cells.old.items }
    ensures { cells.new.items ≡ set cells.old.items id.0 (Some number) }
{
    cells[id.0] = Some(number);
}
