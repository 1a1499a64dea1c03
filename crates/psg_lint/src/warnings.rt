//! The warnings: names that nothing declares.
ghost use Rattle.std.specs.Prelude.{◌≡◌, ◌++◌, ◌∷◌, [], IfOk, OnOk};
ghost use Rattle.psg_ranges.specs.Forests.{Forest};
ghost use Rattle.psg_known.specs.Knowns.{IsKnown};
ghost use Rattle.psg_recover.specs.Spotted.{AreNodesOf, read_by};
ghost use Rattle.psg_uses.specs.Free as free_names;
ghost use Rattle.psg_lint.specs.Warnings.{warnings};

use psg_recover::finding::{Finding, warning};
use psg_recover::spots::Spots;
use psg_tree::Tree;
use psg_uses::free::{Linking, free_uses};
use psg_uses::names::Written;
use std::alloc::{AllocError, Global};

/// Returns the warning of the name.
fn warning_of(alloc: Global, spots: Spots, name: &Written) -> Result<Finding, AllocError>
    requires known { IsKnown spots.known }
    ensures { IfOk result (λ told. (nodes : Forest) → AreNodesOf spots.entry nodes → told ∷ []
        ≡ warnings spots.entry.known.definition.now (read_by spots.entry nodes) (name.now ∷ [])) }
{
    let byte = spots.name(alloc, &name.path, name.number)?;
    let message = format!(in alloc; "{} is not declared", name.name.as_str())?;
    let told = warning(alloc, byte, message)?;
    Ok(told)
}

/// Adds the warnings of the names that nothing declares: one for each, at its first use.
pub fn tell_free(
    alloc: Global,
    tree: &Tree,
    spots: Spots,
    found: &mut Vec<Finding>,
) -> Result<(), AllocError>
    requires known { IsKnown spots.known }
    ensures { OnOk result ((nodes : Forest) → AreNodesOf spots.entry nodes → found.new.items ≡ found.old.items
        ++ warnings spots.entry.known.definition.now (read_by spots.entry nodes)
        (free_names.free_uses spots.entry.known.definition.now tree.now)) }
{
    let linking = Linking {
        known: spots.known,
        tree,
    };
    let free = free_uses(alloc, linking)?;
    let names = free.as_slice();
    for place in 0..names.len() {
        let told = warning_of(alloc, spots, &names[place])?;
        found.push(told)?;
    }
    Ok(())
}
