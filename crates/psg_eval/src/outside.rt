//! The last step of a scope operator: what is known outside of it.
ghost use Rattle.std.specs.Prelude.{◌≡◌, ◌+◌, ◌<◌, ◌^◌, ◌++◌, [], All, map, IfOk, OnOk};
ghost use Rattle.psg_grammar.specs.declared.types.Kind.{Kind as PlainKind};
ghost use Rattle.psg_eval.specs.Outside.{IsClosed};
ghost use Rattle.psg_eval.specs.Partials.{IsPartial, MatchStep};
ghost use Rattle.psg_eval.specs.Walks.{run};

use crate::partial::{Partial, push_run};
use psg_grammar::Definition;
use psg_relation::{RelFault, project};
use psg_scope::close_region;
use std::alloc::{AllocError, Global};

/// Adds the columns of keys, from their places. The argument `front` is the number of columns before those of the keys.
fn push_columns(columns: &mut Vec<usize>, front: usize, kept: &[usize]) -> Result<(), AllocError>
    requires { All (λ k. front + k < 2 ^ 64) kept.now }
    ensures { OnOk result (columns.new.items ≡ columns.old.items ++ map (λ k. front + k) kept.now) }
{
    for place in kept {
        columns.push(front + *place)?;
    }
    Ok(())
}

/// Returns the columns of a whole node's rows: the value, the seen values, and of the keys those at these places.
fn kept_columns(
    alloc: Global,
    seen: u32,
    keys: usize,
    kept: &[usize],
) -> Result<Vec<usize>, AllocError>
    requires room { keys + seen + 1 < 2 ^ 64 }
    requires within { All (λ k. k < keys) kept.now }
    ensures { IfOk result (λ v. v.items ≡ run 0 (1 + seen) ++ map (λ k. (1 + seen) + k) kept.now) }
{
    let front = 1 + seen as usize;
    let mut columns = Vec::with_capacity(alloc, front + keys)?;
    push_run(&mut columns, 0, front)?;
    push_columns(&mut columns, front, kept)?;
    Ok(columns)
}

/// Returns what is known of a scope operator's node outside of it: of the keys inside, those remain that pass outward.
pub(crate) fn closed(
    alloc: Global,
    definition: &Definition,
    inside: &Partial,
) -> Result<Partial, RelFault>
    requires { (kind : PlainKind) × IsPartial definition.now kind [] inside.now }
    ensures step { MatchStep (IsClosed definition.now inside.now) result }
    ensures partial { IfOk result (λ p. (kind : PlainKind) → IsPartial definition.now kind [] inside.now
        → IsPartial definition.now kind [] p) }
    ensures seen { IfOk result (λ p. p.seen ≡ inside.now.seen) }
{
    let outside = close_region(alloc, &inside.header)?;
    let names = inside.header.names.as_slice();
    let keep = kept_columns(alloc, inside.seen, names.len(), outside.kept.as_slice())?;
    let rel = project(alloc, &definition.signature, &inside.rel, keep.as_slice())?;
    Ok(Partial {
        header: outside.header,
        seen: inside.seen,
        wanted: 0,
        rel,
    })
}
