//! The menus of the placeholders and the lists of a noted tree.
ghost use Rattle.std.specs.Prelude.{◌≡◌, IfOk, None, Some};
ghost use Rattle.psg_grammar.specs.Fragments.{hole};
ghost use Rattle.psg_grammar.specs.Paths.{node_at};
ghost use Rattle.psg_grammar.specs.Sound.{IsSound};
ghost use Rattle.psg_renaming.specs.Occurring.{occurring};
ghost use Rattle.psg_cache.specs.Annotated.{tree_in};
ghost use Rattle.psg_cache.specs.Notes.{AreTables, IsNoteOf};
ghost use Rattle.psg_menu.specs.Menus.{IsMenu};
ghost use Rattle.psg_wanted.specs.Fronts.{IsListed};
ghost use Rattle.psg_wanted.specs.Listed.{IsListAt};

use crate::menus::menu;
use psg_cache::Note;
use psg_eval::Tables;
use psg_grammar::Definition;
use psg_terms::{Steps, Txt};
use psg_tree::Path;
use std::alloc::{AllocError, Global};
use std::sync::ledger::Ledger;

/// Returns the operators that may be put in place of the placeholder at the path, and those that make the tree too
/// wide. `used` are the names of the tree.
pub fn hole_menu<L: Ledger>(
    alloc: Global,
    definition: &Definition,
    tables: &Tables,
    note: &Note,
    path: &Path,
    phylum: u32,
    used: &[Txt],
    steps: &mut Steps<L>,
) -> Result<Vec<u32>, AllocError>
    requires sound { IsSound definition.now }
    requires tables { AreTables definition.now tables.now }
    requires note { IsNoteOf definition.now (tree_in note.now) note.now }
    requires there { node_at (tree_in note.now) path.now ≡ Some (hole phylum) }
    requires used { used.now ≡ occurring (tree_in note.now) }
    ensures { IfOk result (λ ops. IsMenu definition.now (tree_in note.now) path.now None
        (IsListed definition.now) phylum ops.items) }
{
    let framed = note.frames(alloc, path)?;
    let Some(frames) = framed else { unreachable!() };
    let around = frames.as_slice();
    let ops = menu(alloc, definition, tables, around, phylum, used, steps)?;
    Ok(ops)
}

/// Returns the operators that may be put at the top of a new element of the phylum before the place of the list at the
/// path, and those that make the tree too wide. `used` are the names of the tree.
pub fn element_menu<L: Ledger>(
    alloc: Global,
    definition: &Definition,
    tables: &Tables,
    note: &Note,
    path: &Path,
    place: u32,
    phylum: u32,
    used: &[Txt],
    steps: &mut Steps<L>,
) -> Result<Vec<u32>, AllocError>
    requires sound { IsSound definition.now }
    requires tables { AreTables definition.now tables.now }
    requires note { IsNoteOf definition.now (tree_in note.now) note.now }
    requires list { IsListAt definition.now (tree_in note.now) path.now place phylum }
    requires used { used.now ≡ occurring (tree_in note.now) }
    ensures { IfOk result (λ ops. IsMenu definition.now (tree_in note.now) path.now (Some place)
        (IsListed definition.now) phylum ops.items) }
{
    let framed = note.element_frames(alloc, path, place)?;
    let Some(frames) = framed else { unreachable!() };
    let around = frames.as_slice();
    let ops = menu(alloc, definition, tables, around, phylum, used, steps)?;
    Ok(ops)
}
