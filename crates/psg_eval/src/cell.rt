//! The first cell of a list.
ghost use Rattle.std.specs.Prelude.{◌≡◌, ◌+◌, ◌<◌, ◌∷◌, [], length, option_copied, slice_get, Some, IfOk, IfSome};
ghost use Rattle.psg_grammar.specs.Fragments.{Fragment, cell as a_cell};
ghost use Rattle.psg_grammar.specs.Sound.{IsSound};
ghost use Rattle.psg_grammar.specs.declared.types.Kind.TheVariants.{List as OfList, Phylum as OfPhylum};
ghost use Rattle.psg_grammar.specs.declared.types.ListKind.{ListKind};
ghost use Rattle.psg_eval.specs.Partials.{IsPartial, MatchStep};
ghost use Rattle.psg_eval.specs.Stages.{IsCellStart, MatchMade};
ghost use Rattle.psg_eval.specs.Starts.{IsCellBegun};
ghost use Rattle.psg_eval.specs.Summaries.{IsSummaryOf, TakesCell};

use crate::leaves::{no_keys, whole_rows};
use crate::partial::{Partial, numbered, with_child};
use crate::summary::{EvalFault, SummaryParts};
use psg_grammar::Definition;
use psg_relation::{Rel, RelFault};
use std::alloc::Global;

/// Returns a cell of the list without its two children.
pub(crate) fn cell_start(
    alloc: Global,
    definition: &Definition,
    list: u32,
) -> Result<Partial, RelFault>
    requires sound { IsSound definition.now }
    requires there { list < length definition.now.lists }
    ensures step { MatchStep (IsCellStart definition.now list) result }
    ensures partial { IfOk result (λ p. (kind : ListKind) → slice_get definition.now.lists list ≡ Some kind
        → IsPartial definition.now (OfList list) (OfPhylum kind.element ∷ OfList list ∷ []) p) }
    ensures seen { IfOk result (λ p. p.seen ≡ 0) }
{
    let this = &definition.lists.as_slice()[list as usize];
    let header = no_keys(Vec::new(alloc));
    let rows = whole_rows(alloc, this.cell_rows.as_slice())?;
    let rel = Rel::of(alloc, &definition.signature, rows.as_slice())?;
    Ok(Partial {
        header,
        seen: 0,
        wanted: 2,
        rel,
    })
}

/// Returns the cell with its element and the list after it. `first` is the cell without its children.
pub(crate) fn with_both(
    alloc: Global,
    definition: &Definition,
    list: u32,
    first: &Partial,
    element: &SummaryParts,
    rest: &SummaryParts,
) -> Result<Partial, EvalFault>
    requires sound { IsSound definition.now }
    requires first { IsCellBegun definition.now list first.now }
    requires takes { TakesCell definition.now list element.now rest.now }
    ensures made { (e r : Fragment) → IsSummaryOf definition.now e element.now → IsSummaryOf definition.now r rest.now
        → MatchMade definition.now (a_cell list e r) 2 result }
    ensures partial { IfOk result (IsPartial definition.now (OfList list) []) }
    ensures seen { IfOk result (λ p. p.seen ≡ element.now.seen + rest.now.seen) }
{
    let begun = numbered(with_child(alloc, definition, first, element), 1)?;
    let whole = numbered(with_child(alloc, definition, &begun, rest), 2)?;
    Ok(whole)
}

/// Returns the cell with its element and the list after it. Its first step is made where none is given.
pub(crate) fn cell_parts(
    alloc: Global,
    definition: &Definition,
    list: u32,
    start: Option<&Partial>,
    element: &SummaryParts,
    rest: &SummaryParts,
) -> Result<Partial, EvalFault>
    requires sound { IsSound definition.now }
    requires start { IfSome (option_copied start) (IsCellBegun definition.now list) }
    requires takes { TakesCell definition.now list element.now rest.now }
    ensures made { (e r : Fragment) → IsSummaryOf definition.now e element.now → IsSummaryOf definition.now r rest.now
        → MatchMade definition.now (a_cell list e r) 2 result }
    ensures partial { IfOk result (IsPartial definition.now (OfList list) []) }
    ensures seen { IfOk result (λ p. p.seen ≡ element.now.seen + rest.now.seen) }
{
    if let Some(first) = start {
        return with_both(alloc, definition, list, first, element, rest);
    }
    let first = numbered(cell_start(alloc, definition, list), 0)?;
    let whole = with_both(alloc, definition, list, &first, element, rest)?;
    Ok(whole)
}
