//! The nodes at which a noted tree goes wrong.
ghost use Rattle.std.specs.Prelude.{◌≡◌, ◌++◌, IfOk, OnOk};
ghost use Rattle.psg_cache.specs.Annotated.{whole_in};
ghost use Rattle.psg_cache.specs.Blames.{blamed_at, blamed_below, culprits_in};
ghost use Rattle.psg_cache.specs.Edits.{AreCulpritsIn};

use crate::note::Note;
use crate::parts::{longer, step_of};
use psg_tree::Path;
use std::alloc::{AllocError, Global};

/// Adds the culprits of the tree at the path to those that were found: none where its relation has a row, else those of
/// its children in order, or the tree itself where there are none.
#[tactic(auto, using(crate::proofs::MarkLaws::none_at))]
fn blame(alloc: Global, note: &Note, path: &[u32], found: &mut Vec<Path>) -> Result<(), AllocError>
    ensures { OnOk result (found.new.items
        ≡ found.old.items ++ blamed_at (whole_in note.now) path.now (blamed_below path.now note.now)) }
{
    let good = note.is_good();
    if good {
        return Ok(());
    }
    let before = found.len();
    let below = note.below();
    for i in 0..below.len() {
        let step = step_of(i)?;
        let place = longer(alloc, path, step)?;
        blame(alloc, &below[i], place.as_slice(), found)?;
    }
    if found.len() == before {
        let itself = Path::of(alloc, path)?;
        found.push(itself)?;
    }
    Ok(())
}

impl Note {
    /// Lists the nodes at which the tree goes wrong by itself, a node before its children, children in order; none
    /// where the tree is good. It looks below nodes that go wrong alone. An error says that memory ran out.
    pub fn culprits(&self, alloc: Global) -> Result<Vec<Path>, AllocError>
        ensures paths { IfOk result (λ paths. paths.items ≡ culprits_in self.now) }
        ensures culprits { IfOk result (λ paths. AreCulpritsIn self.now paths.items) }
    {
        let mut found = Vec::new(alloc);
        blame(alloc, self, &[], &mut found)?;
        Ok(found)
    }
}
