//! Whether hole rows have the values of nil rows.
ghost use Rattle.std.specs.Prelude.{◌≡◌, IfOk, Some, slice_get};
ghost use Rattle.psg_terms.specs.Terms.{Term as Plain};
ghost use Rattle.psg_grammar.specs.declared.types.Kind.TheVariants as kinds;
ghost use Rattle.psg_grammar.specs.Sound.{IsSound};
ghost use Rattle.psg_completions.specs.Covered.{IsCoveredNil};
ghost use Rattle.psg_completions.specs.Places.{IsOfOneRow};
ghost use Rattle.psg_specimen.specs.Wanted.{as_place};
ghost use Rattle.psg_specimen.specs.Walks.{Finds, FindsTwo};

use crate::instances::is_of_one_row;
use psg_grammar::{Definition, Kind, SpecimenHole};
use psg_terms::Term;
use std::alloc::{AllocError, Global};

/// Answers the first list with a nil row that has values of no hole row of the list, and the number of the nil row.
///
/// A nil row has no columns, so its values are those of a hole row exactly where its term is an instance of that row's
/// term. For each nil row the hole rows are gone over in order, up to one that serves.
pub(crate) fn first_uncovered_nil(
    alloc: Global,
    definition: &Definition,
) -> Result<Option<(usize, usize)>, AllocError>
    requires { IsSound definition.now }
    ensures { IfOk result (FindsTwo (IsCoveredNil definition.now)) }
{
    let lists = definition.lists.as_slice();
    for list in 0..lists.len() {
        let rows = lists[list].nil_rows.as_slice();
        if let Some(row) = first_bare(alloc, definition, list as u32, rows)? {
            return Ok(Some((list, row)));
        }
    }
    Ok(None)
}

/// Answers the first term that is an instance of no hole row of the list.
fn first_bare(
    alloc: Global,
    definition: &Definition,
    list: u32,
    rows: &[Term],
) -> Result<Option<usize>, AllocError>
    ensures { IfOk result (Finds (λ k. (row : Plain) → slice_get rows.now k ≡ Some row
        → IsOfOneRow definition.now (as_place (kinds.List list) row))) }
{
    for number in 0..rows.len() {
        let place = list_place(list, &rows[number])?;
        if !is_of_one_row(alloc, definition, &place)? {
            return Ok(Some(number));
        }
    }
    Ok(None)
}

fn list_place(list: u32, term: &Term) -> Result<SpecimenHole, AllocError>
    ensures { IfOk result (λ p. p ≡ as_place (kinds.List list) term.now) }
{
    let term = term.share()?;
    Ok(SpecimenHole {
        kind: Kind::List(list),
        term,
    })
}
