//! A tree whose value is reported.
ghost use Rattle.std.specs.Prelude.{◌≡◌, ◌+◌, ◌<◌, ◌^◌, ◌∷◌, length, IfOk};
ghost use Rattle.psg_grammar.specs.Fragments.{Fragment};
ghost use Rattle.psg_grammar.specs.Sound.{IsSound};
ghost use Rattle.psg_eval.specs.Climbing.{IsObserved};
ghost use Rattle.psg_eval.specs.Frames.{IsSilent};
ghost use Rattle.psg_eval.specs.Summaries.{IsSummary, IsSummaryOf};
ghost use Rattle.psg_eval.specs.Walks.{run};

use crate::partial::push_run;
use crate::summary::{EvalFault, Summary, SummaryParts, at_step};
use psg_grammar::Definition;
use psg_relation::project;
use psg_scope::Header;
use psg_terms::{Seq, Steps};
use std::alloc::{AllocError, Global};
use std::sync::ledger::Ledger;

/// Makes the header once more, with one more owner of its list of keys.
fn header_again(alloc: Global, header: &Header) -> Result<Header, AllocError>
    ensures { IfOk result (λ h. h ≡ header.now) }
{
    let names = header.names.share()?;
    let unfinished = Vec::from_slice(alloc, header.unfinished.as_slice())?;
    Ok(Header {
        names,
        unfinished: Seq::of(unfinished),
        twice: header.twice,
    })
}

/// Returns the columns of rows with this number of keys, the value twice.
fn value_twice(alloc: Global, keys: usize) -> Result<Vec<usize>, AllocError>
    requires { keys + 2 < 2 ^ 64 }
    ensures { IfOk result (λ v. v.items ≡ 0 ∷ run 0 (1 + keys)) }
{
    let mut columns = Vec::with_capacity(alloc, keys + 2)?;
    columns.push(0)?;
    push_run(&mut columns, 0, keys + 1)?;
    Ok(columns)
}

/// Returns the summary of the same tree with its value observed: in each row the value has one more column, after
/// itself.
///
/// It takes one tick. `Wide` has step 0 and is returned exactly where these rows pass the limit. The cost is that of a
/// projection of the rows.
pub fn with_report<L: Ledger>(
    alloc: Global,
    definition: &Definition,
    summary: &Summary,
    steps: &mut Steps<L>,
) -> Result<Summary, EvalFault>
    requires sound { IsSound definition.now }
    requires summary { IsSummary definition.now summary.now }
    requires silent { IsSilent summary.now }
    // whatever the tree is: for every tree with this summary
    ensures answer { (t : Fragment) → IsSummaryOf definition.now t summary.now → IsObserved definition.now t result }
    ensures summary { IfOk result (IsSummary definition.now) }
    ensures kind { IfOk result (λ s. s.kind ≡ summary.now.kind) }
    ensures seen { IfOk result (λ s. s.seen ≡ 1) }
    ensures ticks { steps.new ≡ steps.old + 1 }
{
    steps.tick();
    let old = summary.header();
    let names = old.names.as_slice();
    let keep = value_twice(alloc, names.len())?;
    let header = header_again(alloc, old)?;
    let columns = keep.as_slice();
    match project(alloc, &definition.signature, summary.rel(), columns) {
        Ok(rel) => {
            let known = SummaryParts {
                kind: summary.kind(),
                header,
                seen: 1,
                rel,
            };
            let made = Summary::new(alloc, known)?;
            Ok(made)
        }
        Err(fault) => Err(at_step(fault, 0)),
    }
}
