//! The summaries of new trees.
ghost use Rattle.std.specs.Prelude.{◌≡◌, ◌+◌, ◌≤◌, ◌<◌, ℕ, length, slice_get, IfOk, Some};
ghost use Rattle.std.specs.List.{AllByRecursion};
ghost use Rattle.psg_grammar.specs.Fragments.{ending};
ghost use Rattle.psg_grammar.specs.Insertion.{blank, may_be_unfinished};
ghost use Rattle.psg_grammar.specs.Kinds.{HasKind};
ghost use Rattle.psg_grammar.specs.Sound.{IsSound};
ghost use Rattle.psg_eval.specs.Starts.{AreTables};
ghost use Rattle.psg_eval.specs.Summaries.{Answers, IsSummary, slot_kinds};
ghost use Rattle.psg_menu.specs.Trials.{IsBlanksAnswer};

use psg_eval::{EvalFault, FocusFault, Summary, Tables, asked};
use psg_grammar::{Definition, Item, Kind};
use psg_terms::Steps;
use std::alloc::{AllocError, Global};
use std::sync::ledger::Ledger;

/// Returns the summary of a new list: of its end, which is unfinished where the kind allows it.
fn new_list<L: Ledger>(
    alloc: Global,
    definition: &Definition,
    tables: &Tables,
    list: u32,
    steps: &mut Steps<L>,
) -> Result<Summary, EvalFault>
    requires sound { IsSound definition.now }
    requires tables { AreTables definition.now tables.now }
    requires list { list < length definition.now.lists }
    ensures answer { Answers definition.now
        (ending list (may_be_unfinished (slice_get definition.now.lists list))) result }
    ensures summary { IfOk result (IsSummary definition.now) }
    ensures ticks { steps.new ≡ steps.old + 1 }
{
    let kind = &definition.lists.as_slice()[list as usize];
    tables.eval_end(alloc, definition, list, kind.unfinished, steps)
}

/// Returns the summary of a new tree of the kind: a placeholder, or an empty list.
fn new_tree<L: Ledger>(
    alloc: Global,
    definition: &Definition,
    tables: &Tables,
    kind: Kind,
    steps: &mut Steps<L>,
) -> Result<Summary, EvalFault>
    requires sound { IsSound definition.now }
    requires tables { AreTables definition.now tables.now }
    requires kind { HasKind definition.now kind }
    ensures answer { Answers definition.now (blank definition.now kind) result }
    ensures summary { IfOk result (IsSummary definition.now) }
    ensures ticks { steps.new ≡ steps.old + 1 }
{
    match kind {
        Kind::Phylum(phylum) => tables.eval_hole(alloc, definition, phylum, steps),
        Kind::List(list) => new_list(alloc, definition, tables, list, steps),
    }
}

/// Returns the kinds of the slots among the items, in order.
pub(crate) fn kinds_of_slots(
    alloc: Global,
    definition: &Definition,
    items: &[Item],
) -> Result<Vec<Kind>, AllocError>
    ensures { IfOk result (λ kinds. kinds.items ≡ slot_kinds definition.now items.now) }
{
    let mut kinds = Vec::new(alloc);
    for item in items {
        if let Item::Slot(kind) = item {
            kinds.push(*kind)?;
        }
    }
    Ok(kinds)
}

/// Returns the kind at the place.
fn kind_at(kinds: &[Kind], place: usize) -> Kind
    requires { place < length kinds.now }
    ensures { slice_get kinds.now place ≡ Some result }
{
    kinds[place]
}

/// Returns the summaries of new trees of the kinds, in order, one tick each. `Wide` is returned where one of these
/// trees is too wide.
pub(crate) fn new_trees<L: Ledger>(
    alloc: Global,
    definition: &Definition,
    tables: &Tables,
    kinds: &[Kind],
    steps: &mut Steps<L>,
) -> Result<Vec<Summary>, FocusFault>
    requires sound { IsSound definition.now }
    requires tables { AreTables definition.now tables.now }
    requires kinds { AllByRecursion (HasKind definition.now) kinds.now }
    ensures blanks { IsBlanksAnswer definition.now kinds.now result }
    ensures ticks { steps.new ≤ steps.old + length kinds.now }
{
    let mut made = Vec::new(alloc);
    for place in 0..kinds.len() {
        let kind = kind_at(kinds, place);
        let answer = new_tree(alloc, definition, tables, kind, steps);
        let summary = asked(answer)?;
        made.push(summary)?;
    }
    Ok(made)
}
