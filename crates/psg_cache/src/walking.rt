//! One walk over a tree, in which each node and list suffix is evaluated once.
ghost use Rattle.std.specs.Prelude.{◌≡◌, ◌+◌, ◌≤◌, IfErr, IfOk};
ghost use Rattle.psg_grammar.specs.Steps.{steps_of};
ghost use Rattle.psg_grammar.specs.Work.{work_of};
ghost use Rattle.psg_cache.specs.Noted.{IsNotedAs};
ghost use Rattle.psg_cache.specs.Notes.{IsFormed};
ghost use Rattle.psg_cache.specs.Walks.{IsKnown, IsStepFault};

use crate::note::{Note, NoteFault};
use crate::parts::{Language, children, longer, step_of};
use crate::topping::topped;
use psg_terms::Steps;
use psg_tree::Tree;
use std::alloc::Global;
use std::sync::ledger::Ledger;

/// Returns the note of the tree at the path: its children in order, and then the node.
pub(crate) fn walk<L: Ledger>(
    alloc: Global,
    language: Language,
    tree: &Tree,
    path: &[u32],
    steps: &mut Steps<L>,
) -> Result<Note, NoteFault>
    requires language { IsKnown language }
    requires formed { IsFormed language.definition.now tree.now }
    ensures ok { IfOk result (IsNotedAs language.entry.definition.now tree.now) }
    ensures ticks { IfOk result (λ _. steps.new ≡ steps.old + work_of tree.now) }
    ensures bounded { steps.new ≤ steps.old + work_of tree.now }
    ensures err { IfErr result
        (IsStepFault language.entry.definition.now (steps_of language.entry.definition.now path.now tree.now)) }
{
    let all = children(alloc, tree)?;
    let inner = all.as_slice();
    let mut below = Vec::new(alloc);
    for i in 0..inner.len() {
        let step = step_of(i)?;
        let place = longer(alloc, path, step)?;
        let note = walk(alloc, language, &inner[i], place.as_slice(), steps)?;
        below.push(note)?;
    }
    let whole = topped(alloc, language, tree, below, path, steps)?;
    Ok(whole)
}
